// A mirror keeps what it is told.
ghost use Rattle.std.specs.Prelude.{◌≡◌};
ghost use Rattle.stacks.specs.Tellings.{moved};
ghost use Rattle.replays.specs.Witnessed.{mirrored};

use crate::mirror::Mirror;
use scopes::Scope;
use stacks::Hook;

impl<S> Hook<S> for Mirror {
    ghost scopes = { mirrored };

    ghost can = { λ _. Unit {0} };

    ghost told = { λ shown op stack m n. mirrored n ≡ moved op (mirrored m) };

    ghost moves = { λ shown op stack m n told room. (told, tt) };

    fn push(&mut self, _shown: &S, _stack: &[Scope], scope: Scope) {
        // at 64 scopes it is ignored
        let _full = self.scopes.try_push(scope);
    }

    fn pop(&mut self, _shown: &S, _stack: &[Scope]) {
        self.scopes.pop();
    }
}
