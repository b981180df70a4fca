// The atoms' text one behind the other, and where each ends. The counts say how much of the tables is in use.
ghost use Rattle.std.specs.Prelude.{◌≡◌, ◌+◌, ◌<◌, ◌≤◌, [], ◌∷◌, ◌++◌, length};
ghost use Rattle.repository.specs.Atoms.{place, total, seen};
ghost use Rattle.repository.specs.Tables.{Sound, Extends, held_by};

// stays: no call on a repository allocates; and a guard may borrow the counts alone, to put them back, tables beside
#[derive(Clone, Copy)]
pub(crate) struct Counts {
    pub(crate) atoms: usize,
    pub(crate) bytes: usize,
}

#[derive(Drop)]
pub(crate) struct AtomTables {
    pub(crate) text: [u8; 65536],
    pub(crate) ends: [u32; 4096],
}

// stays: a guard that borrows the counts alone lends the tables beside, so what adds takes both
impl Counts {
    // One more atom, for which there is room; its number is the last.
    #[tactic(auto, using(crate::proofs::Ends::held_more))]
    pub(crate) fn add(&mut self, tables: &mut AtomTables, atom: &[u8])
        requires sound { Sound self.old tables.old }
        requires few { self.old.atoms < 4096 }
        requires short { self.old.bytes + length atom.now ≤ 65536 }
        ensures extends { Extends self.old tables.old self.new tables.new }
        ensures held { held_by self.new tables.new ≡ held_by self.old tables.old ++ atom.now ∷ [] }
    {
        let number = self.atoms;
        let start = self.bytes;
        let end = start + atom.len();
        tables.text[start..end].copy_from_slice(atom);
        tables.ends[number] = end as u32;
        self.atoms = number + 1;
        self.bytes = end;
    }

    // The number of an atom, which is added where it is new.
    #[tactic(auto, using(crate::proofs::Places::added, crate::proofs::Ends::counted))]
    pub(crate) fn intern(&mut self, tables: &mut AtomTables, atom: &[u8]) -> usize
        requires sound { Sound self.old tables.old }
        requires few { length (seen (held_by self.old tables.old) atom.now) ≤ 4096 }
        requires short { total (seen (held_by self.old tables.old) atom.now) ≤ 65536 }
        ensures extends { Extends self.old tables.old self.new tables.new }
        ensures held { held_by self.new tables.new ≡ seen (held_by self.old tables.old) atom.now }
        ensures number { result ≡ place (seen (held_by self.old tables.old) atom.now) atom.now }
    {
        match self.held(tables).find(atom) {
            Some(number) => number,
            None => {
                let number = self.atoms;
                self.add(tables, atom);
                number
            }
        }
    }
}
