// What a line of a script says.
ghost use Rattle.std.specs.Prelude.{◌≡◌};
ghost use Rattle.scripts.specs.Operations.{Names, operation_of};

use scopes::Scope;
use stacks::{ClearAmount, ScopeStackOp};
use thiserror::Error;

#[derive(Clone, Copy)]
pub enum Directive<'a> {
    // a comment, or a line of blanks
    Nothing,
    // part of a theme
    Theme,
    // what stands behind the word: names, each taken by `word`
    Stack(&'a [u8]),
    Line(&'a [u8]),
    // an operation, and the position in its line where it takes effect
    Change { position: usize, action: Action<'a> },
}

// stays: ScopeStackOp with a name in the scope's place; one type for both would carry a parameter through every clause of
// the stack
#[derive(Clone, Copy)]
pub enum Action<'a> {
    Push(&'a [u8]),
    Pop(usize),
    Clear(ClearAmount),
    Restore,
    Noop,
}

// What should have stood where a line goes wrong.
#[derive(Clone, Copy, Debug, PartialEq, Eq, Error)]
pub enum Expected {
    #[error("foreground, background, rule, stack, line, a change's position or # is expected")]
    Directive,
    #[error("a position is expected, a decimal number below 2^64")]
    Number,
    #[error("push, pop, clear, restore or noop is expected")]
    Operation,
    #[error("the name of the scope to push is expected")]
    Name,
    #[error("the number of scopes to pop is expected, a decimal number below 2^64")]
    Count,
    #[error("the number of scopes to clear is expected, a decimal number below 2^64, or all")]
    Amount,
    #[error("the end of the line is expected")]
    End,
}

// `at`: how many bytes of the line stand before what was found; all of them where nothing was.
#[derive(Clone, Copy, Debug, PartialEq, Eq)]
pub struct Fault {
    pub at: usize,
    pub expected: Expected,
}

impl<'a> Action<'a> {
    // The name in it, of the scope to push.
    pub fn name(self) -> Option<&'a [u8]>
        ensures { Names self.entry result }
    {
        match self {
            Action::Push(name) => Some(name),
            _ => None,
        }
    }

    // What it asks of a stack, with this scope in the place of the name.
    pub fn operation(self, scope: Scope) -> ScopeStackOp
        ensures { result ≡ operation_of self.entry scope }
    {
        match self {
            Action::Push(_) => ScopeStackOp::Push(scope),
            Action::Pop(count) => ScopeStackOp::Pop(count),
            Action::Clear(amount) => ScopeStackOp::Clear(amount),
            Action::Restore => ScopeStackOp::Restore,
            Action::Noop => ScopeStackOp::Noop,
        }
    }
}
