// A scope from its name, over counts and tables that fit each other.
ghost use Rattle.std.specs.Prelude.{◌≡◌, ◌-◌, ◌^◌, ◌<◌, ◌≤◌, min, not, length, take, Some, None, MatchResult};
ghost use Rattle.scopes.specs.Scopes.{atoms_in};
ghost use Rattle.repository.specs.Atoms.{has, total, learned, fields_for};
ghost use Rattle.repository.specs.Builds.{Builds};
ghost use Rattle.repository.specs.Names.{cut, pieces};
ghost use Rattle.repository.specs.Refusals.{name_number, refusal};
ghost use Rattle.repository.specs.Tables.{Sound, Extends, held_by};

use crate::faults::NameFault;
use crate::held::Held;
use crate::names::{count_pieces, is_among, without_end_dots};
use crate::tables::{AtomTables, Counts};
use scopes::Scope;

// What a name and the repository may hold.
const MOST_PIECES: usize = 8;

const MOST_ATOMS: usize = 4096;

const MOST_BYTES: usize = 65536;

impl Held<'_> {
    // Whether an atom is neither held nor among the first pieces of a text.
    #[tactic(auto, using(crate::proofs::Places::has_learned, crate::proofs::Places::found_has))]
    fn is_new(&self, atom: &[u8], text: &[u8], count: usize) -> bool
        ensures { result ≡ not (has (learned self.now (take count (pieces text.now))) atom.now) }
    {
        self.find(atom).is_none() && !is_among(text, count, atom)
    }

    // The counts once the pieces are known; the bytes stop at the largest number.
    pub(crate) fn planned(&self, text: &[u8]) -> Counts
        requires { length (pieces text.now) ≤ 8 }
        ensures atoms { result.atoms ≡ length (learned self.now (pieces text.now)) }
        ensures bytes { result.bytes ≡ min (total (learned self.now (pieces text.now))) (2 ^ 64 - 1) }
    {
        let mut atoms = self.atoms();
        let mut bytes = self.bytes();
        for (index, piece) in text.split(|b| *b == b'.').enumerate() {
            if self.is_new(piece, text, index) {
                atoms += 1;
                bytes = bytes.saturating_add(piece.len());
            }
        }
        Counts { atoms, bytes }
    }

    // Of a name that is not empty: the text that is cut at its dots, or the first refusal that applies. Nothing is
    // changed here.
    #[tactic(auto, using(crate::proofs::Places::learned_news, crate::proofs::Cutting::ascii_if, crate::proofs::Cutting::not_ascii_if))]
    fn admitted<'n>(&self, name: &'n [u8]) -> Result<&'n [u8], NameFault>
        requires { 0 < length name.now }
        ensures { MatchResult result (λ text. (refusal self.now name.now ≡ None) × (cut name.now ≡ pieces text.now)) (λ f. refusal self.now name.now ≡ Some (name_number f)) }
    {
        if !name.is_ascii() {
            return Err(NameFault::NotAscii);
        }
        let text = without_end_dots(name);
        if count_pieces(text) > MOST_PIECES {
            return Err(NameFault::TooLong);
        }
        let wanted = self.planned(text);
        if wanted.atoms > MOST_ATOMS {
            return Err(NameFault::TooManyAtoms);
        }
        if wanted.bytes > MOST_BYTES {
            return Err(NameFault::TooMuchText);
        }
        Ok(text)
    }
}

// stays: a guard that borrows the counts alone lends the tables beside, so what adds takes both
impl Counts {
    // The scope of the pieces, which are added where they are new and for which there is room.
    pub(crate) fn scope_of(&mut self, tables: &mut AtomTables, text: &[u8]) -> Scope
        requires sound { Sound self.old tables.old }
        requires eight { length (pieces text.now) ≤ 8 }
        requires few { length (learned (held_by self.old tables.old) (pieces text.now)) ≤ 4096 }
        requires short { total (learned (held_by self.old tables.old) (pieces text.now)) ≤ 65536 }
        ensures extends { Extends self.old tables.old self.new tables.new }
        ensures held { held_by self.new tables.new ≡ learned (held_by self.old tables.old) (pieces text.now) }
        ensures fields { atoms_in result ≡ fields_for (learned (held_by self.old tables.old) (pieces text.now)) (pieces text.now) }
    {
        let mut scope = Scope::empty();
        for piece in text.split(|b| *b == b'.') {
            let number = self.intern(tables, piece);
            scope = scope.with_atom(number as u16).unwrap();
        }
        scope
    }

    // The scope of a name. Every refusal comes before the first atom is added.
    #[tactic(auto, using(crate::proofs::Places::learned_news))]
    pub(crate) fn build(&mut self, tables: &mut AtomTables, name: &[u8]) -> Result<Scope, NameFault>
        requires { Sound self.old tables.old }
        ensures extends { Extends self.old tables.old self.new tables.new }
        ensures builds { Builds (held_by self.old tables.old) name.now result (held_by self.new tables.new) }
    {
        if name.is_empty() {
            return Ok(Scope::empty());
        }
        let text = self.held(tables).admitted(name)?;
        Ok(self.scope_of(tables, text))
    }
}
