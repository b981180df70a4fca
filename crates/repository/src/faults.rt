// Why a name or a scope is refused. Each refusal has the number by which docs/refusals.md lists it.
ghost use Rattle.std.specs.Prelude.{◌≡◌};
ghost use Rattle.repository.specs.Refusals.{name_number, write_number};

use thiserror::Error;

#[derive(Clone, Copy, Debug, PartialEq, Eq, Error)]
pub enum NameFault {
    #[error("a byte of 128 or more stands in the name")]
    NotAscii = 1,
    #[error("the name has more than 8 atoms")]
    TooLong = 2,
    #[error("the atoms held and the name's new ones exceed 4,096")]
    TooManyAtoms = 3,
    #[error("the text of the atoms held and of the name's new ones exceeds 65,536 bytes")]
    TooMuchText = 4,
}

#[derive(Clone, Copy, Debug, PartialEq, Eq, Error)]
pub enum WriteFault {
    #[error("the number of an atom was not given out")]
    UnknownAtom = 6,
    #[error("the output is shorter than the name")]
    ShortOutput = 7,
}

// stays: each enum promises the numbers of its own cases; a trait for all would be one more import at every call
impl NameFault {
    pub fn number(self) -> u8
        ensures { result ≡ name_number self }
    {
        self as u8
    }
}

impl WriteFault {
    pub fn number(self) -> u8
        ensures { result ≡ write_number self }
    {
        self as u8
    }
}
