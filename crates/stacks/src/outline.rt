// The types alone: specs name them, so the methods stand in files of their own.
use crate::limits::MOST;
use arrayvec::ArrayVec;
use scopes::Scope;
use std::marker::Model;

pub mod calls;
pub mod hook;

// Where in a text something stands: the line's number, and the position in it.
#[derive(Clone, Copy, Default, PartialEq, Eq)]
pub struct Place {
    pub line: usize,
    pub position: usize,
}

// A scope, and the place of its push.
#[derive(Clone, Copy, Default, PartialEq, Eq)]
pub struct Beginning {
    pub scope: Scope,
    pub place: Place,
}

// Follows a stack: for each scope on it, lowest first, where it began.
#[derive(Drop)]
pub struct Outline {
    beginnings: ArrayVec<Beginning, MOST>,
}

// To a proof it is the list of them.
impl Model for Outline {
    ghost use Rattle.std.specs.Prelude.{List};
    ghost use Rattle.stacks.specs.declared.outline.Beginning.{Beginning};

    ghost Value = { List Beginning };

    ghost view = { λ o. o.beginnings.items };
}
