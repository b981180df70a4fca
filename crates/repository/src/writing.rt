// A scope's name, over counts and tables that fit each other.
ghost use Rattle.std.specs.Prelude.{◌≡◌, ◌+◌, ◌-◌, ◌<◌, ◌≤◌, true, false, ◌++◌, length, take, drop, MatchOption};
ghost use Rattle.scopes.specs.Scopes.{atoms_in};
ghost use Rattle.repository.specs.Names.{led};
ghost use Rattle.repository.specs.Writes.{given, spelling};

use crate::held::Held;
use scopes::Scope;

// Writes bytes at a place, and answers where they end.
fn put(output: &mut [u8], at: usize, bytes: &[u8]) -> usize
    requires { at + length bytes.now ≤ length output.old }
    ensures end { result ≡ at + length bytes.now }
    ensures after { output.new ≡ take at output.old ++ (bytes.now ++ drop result output.old) }
{
    let end = at + bytes.len();
    output[at..end].copy_from_slice(bytes);
    end
}

// The same of the atom of an index, behind a dot unless it is the first.
#[tactic(auto, using(crate::proofs::Spelling::joined))]
fn put_atom(output: &mut [u8], at: usize, index: usize, atom: &[u8]) -> usize
    requires { at + length (led index atom.now) ≤ length output.old }
    ensures end { result ≡ at + length (led index atom.now) }
    ensures after { output.new ≡ take at output.old ++ (led index atom.now ++ drop result output.old) }
{
    if index == 0 {
        return put(output, at, atom);
    }
    let next = put(output, at, b".");
    put(output, next, atom)
}

impl Held<'_> {
    // How long a scope's name is, or none where the number of an atom was not given out.
    #[tactic(auto, using(crate::proofs::Texts::reads, crate::proofs::Spelling::joined))]
    pub(crate) fn name_len(&self, scope: Scope) -> Option<usize>
        ensures { MatchOption result (given self.now (atoms_in scope) ≡ false) (λ n. (given self.now (atoms_in scope) ≡ true) × (n ≡ length (spelling self.now scope))) }
    {
        let mut len: usize = 0;
        // stays: the dot before an atom hangs on its index; an iterator would be a call of `Scope` more, and give the index back
        for i in 0..scope.len() as usize {
            let field = scope.atom_at(i) as usize;
            if field > self.atoms() {
                return None;
            }
            // a dot stands before each atom but the first
            len += i.min(1) + self.atom(field - 1).len();
        }
        Some(len)
    }

    // Writes a scope's name, whose atoms were given out, to the beginning of an output that has room for it.
    #[tactic(auto, using(crate::proofs::Texts::reads, crate::proofs::Spelling::joined))]
    pub(crate) fn write_name(&self, scope: Scope, output: &mut [u8])
        requires given { given self.now (atoms_in scope) ≡ true }
        requires room { length (spelling self.now scope) ≤ length output.old }
        ensures { output.new ≡ spelling self.now scope ++ drop (length (spelling self.now scope)) output.old }
    {
        let mut at: usize = 0;
        // stays: the dot before an atom hangs on its index; an iterator would be a call of `Scope` more, and give the index back
        for index in 0..scope.len() as usize {
            let field = scope.atom_at(index) as usize;
            at = put_atom(output, at, index, self.atom(field - 1));
        }
    }
}
