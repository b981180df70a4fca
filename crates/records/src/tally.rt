// How many records there are, and how many of them agree.
ghost use Rattle.std.specs.Prelude.{◌≡◌, ◌+◌, ◌^◌, ◌<◌, ◌≤◌, if◌then◌else◌};

// stays: as the count of the names read in `pane`; one type for both would lose the words that each is printed with
#[derive(Clone, Copy)]
pub struct Tally {
    pub records: usize,
    pub agree: usize,
    ghost fewer: { agree ≤ records },
}

impl Tally {
    // With no record yet.
    pub(crate) fn new() -> Tally
        ensures records { result.records ≡ 0 }
        ensures agree { result.agree ≡ 0 }
    {
        Tally {
            records: 0,
            agree: 0,
        }
    }

    // With one record more.
    pub(crate) fn counted(self, agrees: bool) -> Tally
        requires { self.records + 1 < 2 ^ 64 }
        ensures records { result.records ≡ self.records + 1 }
        ensures agree { result.agree ≡ self.agree + (if agrees then 1 else 0) }
    {
        Tally {
            records: self.records + 1,
            agree: self.agree + usize::from(agrees),
        }
    }
}
