// Scripts: a starting stack, changes with semicolons between, and what a hook is told, a semicolon behind each telling;
// tabs between.
use crate::mirror::Mirror;
use crate::witness::{Recorded, Witness};
use lines::{cut, split};
use named::scopes_of;
use records::Record;
use repository::ScopeRepository;
use scopes::Scope;
use scripts::{Directive, read};
use stacks::{ScopeStack, ScopeStackOp};

pub(crate) struct Tellings;

// The operation of a change as a script has it.
fn operation(repository: &mut ScopeRepository, change: &[u8]) -> Option<ScopeStackOp> {
    let Ok(
        Directive::Change {
            position: _,
            action,
        },
    ) = read(change)
    else {
        return None;
    };
    let Some(name) = action.name() else {
        return Some(action.operation(Scope::empty()));
    };
    let scope = repository.build(name).ok()?;
    Some(action.operation(scope))
}

// A recorded script as it is replayed: the stack, the witness that follows it, and what the reference told.
#[derive(Drop)]
struct Replay<'a> {
    stack: ScopeStack,
    witness: Witness,
    tellings: &'a [u8],
}

impl<'a> Replay<'a> {
    // The starting stack, of these names.
    fn new(
        repository: &mut ScopeRepository,
        names: &[u8],
        tellings: &'a [u8],
    ) -> Option<Replay<'a>> {
        let scopes = scopes_of::<64>(repository, names).ok()?;
        let stack = ScopeStack::from_scopes(scopes.as_slice()).ok()?;
        let witness = Witness {
            mirror: Mirror { scopes },
            told: 0,
            agree: 0,
        };
        Some(Replay {
            stack,
            witness,
            tellings,
        })
    }

    // A change is accepted, and told.
    fn is_applied(&mut self, repository: &mut ScopeRepository, change: &[u8]) -> bool {
        let Some(op) = operation(repository, change) else {
            return false;
        };
        let shown = Recorded {
            repository,
            tellings: self.tellings,
        };
        self.stack.apply(op, &mut self.witness, &shown).is_ok()
    }

    // The witness was told just what is recorded, and has the stack's scopes.
    fn is_whole(&self) -> bool {
        let all = self.tellings.iter().filter(|b| **b == b';').count();
        self.witness.told == all
            && self.witness.agree == all
            && self.witness.mirror.scopes.as_slice() == self.stack.as_slice()
    }
}

impl Record for Tellings {
    fn agrees(repository: &mut ScopeRepository, record: &[u8]) -> bool {
        let (names, rest) = split(record, b'\t');
        let (changes, tellings) = split(rest, b'\t');
        let Some(mut replay) = Replay::new(repository, names, tellings) else {
            return false;
        };
        cut(changes, b';').all(|change| replay.is_applied(repository, change)) && replay.is_whole()
    }
}
