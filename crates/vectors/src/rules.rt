// Rules of docs/scopes.md and docs/names.md, tried on each name that is built.
use lines::split;
use records::Record;
use repository::{ScopeRepository, WriteFault};
use scopes::Scope;

pub(crate) struct Rules;

// The words of a scope are the scope, and it is empty exactly if it has no atoms.
fn is_its_words(scope: Scope) -> bool {
    let (a, b) = scope.words();
    let Some(same) = Scope::from_words(a, b) else {
        return false;
    };
    same == scope && scope.is_empty() == (scope.len() == 0)
}

// A repository that gave out no number refuses every scope but the empty one.
fn is_unknown_elsewhere(scope: Scope) -> bool {
    let mut output = [0u8; 1024];
    scope.is_empty()
        || ScopeRepository::new().write(scope, &mut output) == Err(WriteFault::UnknownAtom)
}

// A scope, and how many bytes its name has.
#[derive(Clone, Copy)]
struct Spelled {
    scope: Scope,
    len: usize,
}

impl Spelled {
    // An output one byte shorter is too short for its name.
    fn is_too_short(self, repository: &ScopeRepository) -> bool {
        let mut output = [0u8; 1024];
        let Some(room) = output.get_mut(..self.len.saturating_sub(1)) else {
            return false;
        };
        repository.write(self.scope, room) == Err(WriteFault::ShortOutput)
    }

    // Its name has just this length; built again, it is the scope.
    fn is_built_again(self, repository: &mut ScopeRepository) -> bool {
        let mut output = [0u8; 1024];
        let Some(name) = output.get_mut(..self.len) else {
            return false;
        };
        repository.write(self.scope, name) == Ok(self.len)
            && repository.build(name) == Ok(self.scope)
    }

    // The empty name is left out: it is that of the empty scope and of one empty atom.
    fn is_written_back(self, repository: &mut ScopeRepository) -> bool {
        self.len == 0 || (self.is_too_short(repository) && self.is_built_again(repository))
    }
}

impl Record for Rules {
    fn agrees(repository: &mut ScopeRepository, record: &[u8]) -> bool {
        let (name, answer) = split(record, b'\t');
        let Ok(scope) = repository.build(name) else {
            return answer == b"refused".as_slice();
        };
        let (_, rest) = split(answer, b'\t');
        let (_, written) = split(rest, b'\t');
        let spelled = Spelled {
            scope,
            len: written.len(),
        };
        is_its_words(scope) && is_unknown_elsewhere(scope) && spelled.is_written_back(repository)
    }
}
