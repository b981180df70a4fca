// The atoms held, lent to what only reads: their text one behind the other, and where each ends.
ghost use Rattle.std.specs.Prelude.{◌≡◌, ◌-◌, ◌<◌, ◌≤◌, true, false, [], length, if◌then◌else◌, MatchOption, nat_eq, slice_index, slice_index_or};
ghost use Rattle.repository.specs.Atoms.{has, place, total};
ghost use Rattle.repository.specs.Tables.{Sound, held_by};

use crate::tables::{AtomTables, Counts};
use std::marker::Model;

#[derive(Drop)]
pub(crate) struct Held<'t> {
    text: &'t [u8],
    ends: &'t [u32],
}

impl<'t> Model for Held<'t> {
    ghost use Rattle.std.specs.Prelude.{◌≤◌, length};
    ghost use Rattle.repository.specs.Names.{Atoms};
    ghost use Rattle.repository.specs.Tables.{Rising, cuts};

    ghost Value = { Atoms };

    ghost view = { λ h. cuts 0 h.ends.now h.text.now };

    ghost invariant = { λ h. (length h.ends.now ≤ 4096) × (length h.text.now ≤ 65536) × Rising 0 h.ends.now (length h.text.now) };
}

impl Counts {
    // What they count of the tables.
    #[tactic(auto, using(crate::proofs::Ends::lent))]
    pub(crate) fn held(self, tables: &AtomTables) -> Held<'_>
        requires { Sound self tables.now }
        ensures { result ≡ held_by self tables.now }
    {
        Held {
            text: &tables.text[..self.bytes],
            ends: &tables.ends[..self.atoms],
        }
    }
}

// Where an atom's text begins: where that of the atom before it ends.
fn start_of(ends: &[u32], number: usize) -> usize
    requires { number ≤ length ends.now }
    ensures { result ≡ (if nat_eq number 0 then 0 else slice_index ends.now (number - 1)) }
{
    if number == 0 {
        0
    } else {
        ends[number - 1] as usize
    }
}

impl<'t> Held<'t> {
    // How many there are.
    #[tactic(auto, using(crate::proofs::Ends::cuts_length))]
    pub(crate) fn atoms(&self) -> usize
        ensures held { result ≡ length self.now }
        ensures few { result ≤ 4096 }
    {
        self.ends.len()
    }

    // How many bytes their text has.
    #[tactic(auto, using(crate::proofs::Ends::cuts_total))]
    pub(crate) fn bytes(&self) -> usize
        ensures held { result ≡ total self.now }
        ensures short { result ≤ 65536 }
    {
        self.text.len()
    }

    // The text of an atom, by its number.
    #[tactic(auto, using(crate::proofs::Ends::cuts_length))]
    pub(crate) fn atom(&self, number: usize) -> &'t [u8]
        requires { number < length self.now }
        ensures text { result.now ≡ slice_index_or self.now number [] }
        ensures short { length result.now ≤ 65536 }
    {
        let start = start_of(self.ends, number);
        let end = self.ends[number] as usize;
        &self.text[start..end]
    }

    // The number of an atom that is held. Each begins where the one before it ends, so no place is looked up twice.
    pub(crate) fn find(&self, atom: &[u8]) -> Option<usize>
        ensures { MatchOption result (has self.now atom.now ≡ false) (λ number. (number ≡ place self.now atom.now) × (has self.now atom.now ≡ true)) }
    {
        let mut start = 0;
        for (number, end) in self.ends.iter().enumerate() {
            let end = *end as usize;
            if &self.text[start..end] == atom {
                return Some(number);
            }
            start = end;
        }
        None
    }
}
