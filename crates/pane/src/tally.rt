// The count of the names read; specs name the type, so it stands in a file of its own.
ghost use Rattle.std.specs.Prelude.{◌≡◌, ◌+◌, ◌^◌, ◌<◌, ◌≤◌, if◌then◌else◌};

// How many names were read, and how many of them are scopes.
#[derive(Clone, Copy)]
pub(crate) struct Tally {
    pub(crate) read: usize,
    pub(crate) scopes: usize,
    ghost fewer: { scopes ≤ read },
}

impl Tally {
    pub(crate) fn new() -> Tally
        ensures read { result.read ≡ 0 }
        ensures scopes { result.scopes ≡ 0 }
    {
        Tally { read: 0, scopes: 0 }
    }

    // With one name more.
    pub(crate) fn counted(self, scope: bool) -> Tally
        requires { self.read + 1 < 2 ^ 64 }
        ensures read { result.read ≡ self.read + 1 }
        ensures scopes { result.scopes ≡ self.scopes + (if scope then 1 else 0) }
    {
        Tally {
            read: self.read + 1,
            scopes: self.scopes + usize::from(scope),
        }
    }
}
