// The type, and what it is to a proof; its methods stand in files of their own.
use crate::limits::MOST;
use arrayvec::ArrayVec;
use scopes::Scope;
use std::marker::Model;

pub mod calls;
mod moves;

// The scopes on the stack, position 0 lowest, and behind one another those of the set-asides, oldest first, with the
// size of each.
#[derive(Drop)]
pub struct ScopeStack {
    scopes: ArrayVec<Scope, MOST>,
    aside: ArrayVec<Scope, MOST>,
    sizes: ArrayVec<usize, MOST>,
}

// To a proof it is two plain lists: the scopes, and the set-asides.
impl Model for ScopeStack {
    ghost use Rattle.stacks.specs.Stacks.{Stack, Kept, cut};

    ghost Value = { Stack };

    ghost view = { λ s. record { scopes = s.scopes.items; asides = cut s.sizes.items s.aside.items } };

    ghost invariant = { λ s. Kept s.scopes.items s.aside.items s.sizes.items };
}
