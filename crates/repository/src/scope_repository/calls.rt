// What can be asked of a repository. Nothing is demanded of the caller: bad input gets its refusal.
ghost use Rattle.std.specs.Prelude.{◌≡◌, ◌≤◌, [], length, IfOk};
ghost use Rattle.repository.specs.Atoms.{total};
ghost use Rattle.repository.specs.Builds.{Builds};
ghost use Rattle.repository.specs.Held.{atoms_of};
ghost use Rattle.repository.specs.Laws.{CutLaw, NewLaw, RoundTrip};
ghost use Rattle.repository.specs.Names.{cut};
ghost use Rattle.repository.specs.Writes.{Writes};

use crate::faults::{NameFault, WriteFault};
use crate::scope_repository::ScopeRepository;
use crate::tables::{AtomTables, Counts};
use scopes::Scope;

impl ScopeRepository {
    // A repository that holds no atom.
    pub fn new() -> ScopeRepository
        ensures { atoms_of result ≡ [] }
    {
        ScopeRepository {
            counts: Counts { atoms: 0, bytes: 0 },
            tables: AtomTables {
                text: [0; 65536],
                ends: [0; 4096],
            },
        }
    }

    // How many atoms are held.
    #[tactic(auto, using(crate::proofs::Ends::counted, crate::proofs::Owned::owned))]
    pub fn atoms(&self) -> usize
        ensures { result ≡ length (atoms_of self.now) }
    {
        self.counts.atoms
    }

    // How many bytes their text has.
    #[tactic(auto, using(crate::proofs::Ends::counted, crate::proofs::Owned::owned))]
    pub fn bytes(&self) -> usize
        ensures { result ≡ total (atoms_of self.now) }
    {
        self.counts.bytes
    }

    // The scope of a name. New atoms are added, unless the name is refused.
    #[tactic(auto, using(crate::proofs::Owned::owned, crate::proofs::Returning::new_law, crate::proofs::Returning::returns_built))]
    pub fn build(&mut self, name: &[u8]) -> Result<Scope, NameFault>
        ensures builds { Builds (atoms_of self.old) name.now result (atoms_of self.new) }
        ensures cut { CutLaw name.now }
        ensures new { NewLaw (atoms_of self.old) (cut name.now) }
        ensures returns { IfOk result (λ s. RoundTrip (atoms_of self.new) name.now s) }
    {
        self.counts.build(&mut self.tables, name)
    }

    // Writes a scope's name to the beginning of an output, and answers how many bytes it has.
    #[tactic(auto, using(crate::proofs::Owned::owned))]
    pub fn write(&self, scope: Scope, output: &mut [u8]) -> Result<usize, WriteFault>
        ensures writes { Writes (atoms_of self.now) scope output.old result output.new }
        ensures within { IfOk result (λ n. n ≤ length output.old) }
    {
        let held = self.counts.held(&self.tables);
        let Some(len) = held.name_len(scope) else {
            return Err(WriteFault::UnknownAtom);
        };
        if output.len() < len {
            return Err(WriteFault::ShortOutput);
        }
        held.write_name(scope, output);
        Ok(len)
    }
}
