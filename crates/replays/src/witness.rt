// A kind of hook that compares each telling with the recorded one.
ghost use Rattle.std.specs.Prelude.{◌≡◌, ◌+◌, ◌-◌, ◌^◌, min};
ghost use Rattle.replays.specs.Witnessed.{mirrored, Told};

use crate::mirror::Mirror;
use lines::{cut, split};
use records::is_written;
use repository::ScopeRepository;
use scopes::Scope;
use stacks::Hook;

// What a witness is shown: the tellings that the reference recorded, and the repository that built their names.
#[derive(Clone, Copy)]
pub struct Recorded<'a> {
    pub repository: &'a ScopeRepository,
    pub tellings: &'a [u8],
}

// The scopes told, how many tellings there were, and how many of them are the recorded ones.
#[derive(Drop)]
pub struct Witness {
    pub mirror: Mirror,
    pub told: usize,
    pub agree: usize,
}

// The telling of an index, each being ended by a semicolon; empty where there is none.
fn telling(tellings: &[u8], index: usize) -> &[u8] {
    cut(tellings, b';').nth(index).unwrap_or(b"")
}

// Whether these names, with a blank between, are those of some scopes.
fn are_written(repository: &ScopeRepository, scopes: &[Scope], names: &[u8]) -> bool {
    let mut rest = names;
    for scope in scopes {
        let (name, more) = split(rest, b' ');
        if !is_written(repository, *scope, name) {
            return false;
        }
        rest = more;
    }
    rest.is_empty()
}

fn is_push(shown: &Recorded<'_>, index: usize, stack: &[Scope], scope: Scope) -> bool {
    let (verb, rest) = split(telling(shown.tellings, index), b' ');
    let (name, names) = split(rest, b' ');
    verb == b"push".as_slice()
        && is_written(shown.repository, scope, name)
        && are_written(shown.repository, stack, names)
}

fn is_pop(shown: &Recorded<'_>, index: usize, stack: &[Scope]) -> bool {
    let (verb, names) = split(telling(shown.tellings, index), b' ');
    verb == b"pop".as_slice() && are_written(shown.repository, stack, names)
}

impl Witness {
    // Counts one telling more, and whether it is the recorded one.
    fn count(&mut self, agrees: bool)
        ensures told { self.new.told ≡ min (self.old.told + 1) (2 ^ 64 - 1) }
        ensures mirror { self.new.mirror ≡ self.old.mirror }
    {
        self.agree = self.agree.saturating_add(usize::from(agrees));
        self.told = self.told.saturating_add(1);
    }
}

impl<'a> Hook<Recorded<'a>> for Witness {
    ghost scopes = { λ w. mirrored w.mirror };

    ghost can = { λ _. Unit {0} };

    ghost told = { λ shown op stack w v. Told op w v };

    ghost moves = { λ shown op stack w v told room. (told.scopes, tt) };

    fn push(&mut self, shown: &Recorded<'a>, stack: &[Scope], scope: Scope) {
        self.count(is_push(shown, self.told, stack, scope));
        self.mirror.push(shown, stack, scope);
    }

    fn pop(&mut self, shown: &Recorded<'a>, stack: &[Scope]) {
        self.count(is_pop(shown, self.told, stack));
        self.mirror.pop(shown, stack);
    }
}
