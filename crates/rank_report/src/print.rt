// What the report prints.
use crate::decimal::Whole;
use deepest::Digits;
use rankings::Places;
use reports::{Stopped, plural};
use scopes::Scope;
use std::fmt;
use std::io::Write;

// The positions laid, with commas between.
#[derive(Clone, Copy)]
struct Positions<'a> {
    places: &'a Places,
}

impl fmt::Display for Positions<'_> {
    fn fmt<W: fmt::Write>(&self, f: &mut fmt::Formatter<W>) -> fmt::Result {
        for (i, laid) in self.places.laid.iter().take(self.places.count).enumerate() {
            if i > 0 {
                f.write_str(",")?;
            }
            write!(f, "{}", laid.position)?;
        }
        Ok(())
    }
}

// The ranks of a path on a stack under both rankings, each with the laying that it is of.
// A laying is lent: it has over a thousand bytes, which would be copied for each line.
#[derive(Clone, Copy)]
struct Ranks<'a> {
    bits: u64,
    lowest: &'a Places,
    digits: Digits,
    deepest: &'a Places,
}

impl fmt::Display for Ranks<'_> {
    fn fmt<W: fmt::Write>(&self, f: &mut fmt::Formatter<W>) -> fmt::Result {
        let whole = Whole::of(self.bits);
        let lowest = Positions {
            places: self.lowest,
        };
        let deepest = Positions {
            places: self.deepest,
        };
        let Digits {
            top,
            upper,
            lower,
            bottom,
        } = self.digits;
        write!(f, "earliest {:016x} {whole} at {lowest}", self.bits)?;
        write!(
            f,
            "; deepest {top:016x}{upper:016x}{lower:016x}{bottom:016x} at {deepest}"
        )
    }
}

// Says that a path has no rank on a stack.
fn print_none(out: &mut impl Write) -> Result<bool, Stopped> {
    writeln!(out, "no laying")?;
    Ok(false)
}

// The ranks of a path on a stack, and whether it has any. Both rankings answer exactly if the path can be laid.
pub(crate) fn print_ranks(
    out: &mut impl Write,
    path: &[Scope],
    stack: &[Scope],
) -> Result<bool, Stopped> {
    let Some(bits) = earliest::path(path, stack) else {
        return print_none(out);
    };
    let Some(lowest) = earliest::lay(path, stack) else {
        return print_none(out);
    };
    let Some(digits) = deepest::path(path, stack) else {
        return print_none(out);
    };
    let Some(deepest) = deepest::lay(path, stack) else {
        return print_none(out);
    };
    let ranks = Ranks {
        bits,
        lowest: &lowest,
        digits,
        deepest: &deepest,
    };
    writeln!(out, "{ranks}")?;
    Ok(true)
}

pub(crate) fn sum_up(out: &mut impl Write, lines: usize, laid: usize) -> Result<(), Stopped> {
    writeln!(
        out,
        "{lines} {} read: {laid} laid, {} not",
        plural(lines, "path", "paths"),
        lines.saturating_sub(laid)
    )?;
    out.flush()?;
    Ok(())
}
