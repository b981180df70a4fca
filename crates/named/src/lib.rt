// The scopes of a text's names.
#![tactic(auto)]

ghost use Rattle.std.specs.Prelude.{MatchResult};
ghost use Rattle.named.specs.Names.{Named, Refuses, RefusesBehind};
ghost use Rattle.repository.specs.Held.{atoms_of};

use arrayvec::ArrayVec;
use repository::{NameFault, ScopeRepository};
use scopes::Scope;
use scripts::Words;
use std::fmt;

// A name that is refused; `at`: how many bytes of the text stand before it.
#[derive(Clone, Copy)]
pub struct Refused {
    pub at: usize,
    pub fault: NameFault,
}

// Reads the scopes of the names in a text into a row, of its first N where there are more, in the place of what stood there.
// Where one is refused, the row has the scopes of those before it.
pub fn read_scopes<const N: usize>(
    repository: &mut ScopeRepository,
    names: &[u8],
    scopes: &mut ArrayVec<Scope, N>,
) -> Result<(), Refused>
    ensures { MatchResult result (λ _. Named N (atoms_of repository.old) names.now scopes.new.items (atoms_of repository.new)) (λ refused. RefusesBehind N (atoms_of repository.old) names.now scopes.new.items refused.at refused.fault (atoms_of repository.new)) }
{
    scopes.clear();
    for (at, name) in Words::new(names) {
        if scopes.is_full() {
            return Ok(());
        }
        let scope = repository
            .build(name)
            .map_err(|fault| Refused { at, fault })?;
        scopes.push(scope);
    }
    Ok(())
}

// The scopes of the names in a text, of its first N where there are more, or the first of these that is refused.
pub fn scopes_of<const N: usize>(
    repository: &mut ScopeRepository,
    names: &[u8],
) -> Result<ArrayVec<Scope, N>, Refused>
    ensures { MatchResult result (λ scopes. Named N (atoms_of repository.old) names.now scopes.items (atoms_of repository.new)) (λ refused. Refuses N (atoms_of repository.old) names.now refused.at refused.fault (atoms_of repository.new)) }
{
    let mut scopes = ArrayVec::new();
    read_scopes(repository, names, &mut scopes)?;
    Ok(scopes)
}

// What is expected in the place of a name that is refused.
#[derive(Clone, Copy)]
pub struct NameExpected {
    pub fault: NameFault,
}

impl fmt::Display for NameExpected {
    fn fmt<W: fmt::Write>(&self, f: &mut fmt::Formatter<W>) -> fmt::Result {
        f.write_str(match self.fault {
            NameFault::NotAscii => "a name without bytes of 128 or more is expected",
            NameFault::TooLong => "a name of at most 8 atoms is expected",
            NameFault::TooManyAtoms =>
                "a name whose new atoms keep within 4,096 in all is expected",
            NameFault::TooMuchText =>
                "a name whose new atoms keep within 65,536 bytes in all is expected",
        })?;
        write!(f, " (refusal {})", self.fault.number())
    }
}
