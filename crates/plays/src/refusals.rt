// Why a change has no effect, or why a whole line is not taken.
ghost use Rattle.std.specs.Prelude.{◌≡◌, Some, None, MatchResult};
ghost use Rattle.plays.specs.Refusals.{number_of, position_refusal};

use stacks::OpFault;
use thiserror::Error;

// The longest line, in bytes.
pub(crate) const LONGEST: usize = 65536;

#[derive(Clone, Copy, Debug, Error)]
pub enum Refusal {
    #[error("the line is longer than 65,536 bytes")]
    LongLine,
    #[error("the position lies before the last accepted one")]
    Before,
    #[error("the position lies beyond the line")]
    Beyond,
    // the stack refuses
    #[error("{0}")]
    Operation(OpFault),
}

impl Refusal {
    // Its number, as docs/refusals.md lists it.
    // stays: a case that carries a fault has that fault's number, so these are no discriminants
    pub fn number(self) -> u8
        ensures { result ≡ number_of self }
    {
        match self {
            Refusal::LongLine => 10,
            Refusal::Before => 13,
            Refusal::Beyond => 14,
            Refusal::Operation(fault) => fault.number(),
        }
    }
}

impl From<OpFault> for Refusal {
    ghost use Rattle.std.specs.Prelude.{◌≡◌};
    ghost use Rattle.plays.specs.declared.refusals.Refusal.TheVariants.{Operation};

    ghost from_gives = { λ refused refusal. refusal ≡ Operation refused };

    fn from(refused: OpFault) -> Refusal {
        Refusal::Operation(refused)
    }
}

// Whether a position may come behind the last accepted one, in a line of some length.
pub(crate) fn admitted(last: usize, length: usize, position: usize) -> Result<(), Refusal>
    ensures { MatchResult result (λ _. position_refusal last length position ≡ None) (λ f. position_refusal last length position ≡ Some (number_of f)) }
{
    if position < last {
        Err(Refusal::Before)
    } else if position > length {
        Err(Refusal::Beyond)
    } else {
        Ok(())
    }
}
