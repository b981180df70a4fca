// What can be wrong with a script.
use named::NameExpected;
use repository::NameFault;
use scripts::{Expected, Fault};
use stacks::StackFault;
use std::fmt;

#[derive(Clone, Copy)]
pub enum Wanted {
    Form(Expected),
    // a change stands before the first line
    Line,
    // a starting stack stands behind a line, or behind another
    Start,
    Name(NameFault),
    Stack(StackFault),
}

// stays: each crate names what it wants at a place; one generic pair for all would name neither
// `at`: how many bytes of the script's line stand before what was found.
#[derive(Clone, Copy)]
pub struct Flaw {
    pub at: usize,
    pub wanted: Wanted,
}

impl From<Fault> for Flaw {
    ghost use Rattle.std.specs.Prelude.{◌≡◌};
    ghost use Rattle.plays.specs.declared.flaws.Wanted.TheVariants.{Form};

    ghost from_gives = { λ fault flaw. flaw ≡ record { at = fault.at; wanted = Form fault.expected } };

    fn from(fault: Fault) -> Flaw {
        Flaw {
            at: fault.at,
            wanted: Wanted::Form(fault.expected),
        }
    }
}

impl fmt::Display for Wanted {
    fn fmt<W: fmt::Write>(&self, f: &mut fmt::Formatter<W>) -> fmt::Result {
        match self {
            Wanted::Form(expected) => write!(f, "{expected}"),
            Wanted::Line => f.write_str("a line is expected before the first change"),
            Wanted::Start => f.write_str("one starting stack is expected, before the first line"),
            Wanted::Name(fault) => write!(f, "{}", NameExpected { fault: *fault }),
            Wanted::Stack(fault) => write!(
                f,
                "at most 64 starting scopes are expected (refusal {})",
                fault.number()
            ),
        }
    }
}
