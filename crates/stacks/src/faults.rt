// Why a list of scopes or an operation is refused. The numbers are those of docs/refusals.md.
ghost use Rattle.std.specs.Prelude.{◌≡◌};
ghost use Rattle.stacks.specs.Refusals.{stack_number, op_number};

use thiserror::Error;

#[derive(Clone, Copy, Debug, PartialEq, Eq, Error)]
pub enum StackFault {
    #[error("there are more than 64 scopes")]
    TooManyScopes = 9,
}

#[derive(Clone, Copy, Debug, PartialEq, Eq, Error)]
pub enum OpFault {
    // of a Push
    #[error("64 scopes are on the stack and set aside")]
    Full = 15,
    // of a Pop
    #[error("the count exceeds the height")]
    TooFew = 16,
    // of a Clear
    #[error("there are 64 set-asides")]
    ManyAside = 17,
    // of a Restore
    #[error("nothing is set aside")]
    NoneAside = 18,
}

// stays: each enum promises the numbers of its own cases; a trait for all would be one more import at every call
impl StackFault {
    // The refusal's number.
    pub fn number(self) -> u8
        ensures { result ≡ stack_number self }
    {
        self as u8
    }
}

impl OpFault {
    // The refusal's number.
    pub fn number(self) -> u8
        ensures { result ≡ op_number self }
    {
        self as u8
    }
}
