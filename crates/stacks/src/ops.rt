// The operations on a stack, as a grammar's parser gives them.
use scopes::Scope;

// stays: it has the name and the cases that the reference has
#[derive(Clone, Copy, PartialEq, Eq)]
pub enum ClearAmount {
    // the top so many, or all where there are fewer
    TopN(usize),
    All,
}

#[derive(Clone, Copy, PartialEq, Eq)]
pub enum ScopeStackOp {
    Push(Scope),
    Pop(usize),
    // sets scopes aside
    Clear(ClearAmount),
    // brings the newest set-aside back
    Restore,
    Noop,
}

// An operation, and the position in its line where it takes effect.
#[derive(Clone, Copy, PartialEq, Eq)]
pub struct Change {
    pub position: usize,
    pub operation: ScopeStackOp,
}

// What a hook is told: one scope more on top, or one fewer.
// stays: it has the name and the cases that the reference has
#[derive(Clone, Copy, PartialEq, Eq)]
pub enum BasicScopeStackOp {
    Push(Scope),
    Pop,
}
