// An outline is told with the place of the change.
#![tactic(auto, using(crate::proofs::Places::moves))]

ghost use Rattle.stacks.specs.Outlines.{scopes_of, Outlined};

use crate::hook::Hook;
use crate::outline::{Beginning, Outline, Place};
use scopes::Scope;

impl Hook<Place> for Outline {
    ghost scopes = { scopes_of };

    // it always has room: at 64 scopes a push is ignored
    ghost can = { λ _. Unit {0} };

    ghost told = { λ place op stack o p. Outlined place op o p };

    ghost moves = { λ place op stack o p told room. (told.scopes, tt) };

    fn push(&mut self, shown: &Place, _stack: &[Scope], scope: Scope) {
        let here = Beginning {
            scope,
            place: *shown,
        };
        let _full = self.beginnings.try_push(here);
    }

    fn pop(&mut self, _shown: &Place, _stack: &[Scope]) {
        self.beginnings.pop();
    }
}
