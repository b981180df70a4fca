// What was found in a file, shown to whoever has to mend it.
ghost use Rattle.std.specs.Prelude.{IsErr};

use crate::files::Stopped;
use scripts::word;
use std::io::Write;
use std::{fmt, str};

// How much of a found word is shown.
const LONGEST_FOUND: usize = 60;

const DIGITS: &[u8; 16] = b"0123456789abcdef";

// Whether a terminal shows a byte as it is.
fn is_printable(byte: u8) -> bool {
    byte >= b' ' && byte < 127
}

// Bytes that a terminal shows as they are; any other as \xHH, so that it is seen.
#[derive(Clone, Copy)]
pub struct Shown<'a> {
    pub bytes: &'a [u8],
}

impl fmt::Display for Shown<'_> {
    fn fmt<W: fmt::Write>(&self, f: &mut fmt::Formatter<W>) -> fmt::Result {
        // printable bytes go out together, and digits as they are: the formatter takes longer for each byte or number
        for run in self
            .bytes
            .chunk_by(|a, b| is_printable(*a) && is_printable(*b))
        {
            match run {
                [byte] if !is_printable(*byte) => {
                    let (high, low) = (*byte / 16, *byte % 16);
                    let shown = [b'\\', b'x', DIGITS[high as usize], DIGITS[low as usize]];
                    f.write_str(str::from_utf8(&shown).unwrap_or_default())?;
                }
                _ => f.write_str(str::from_utf8(run).unwrap_or_default())?,
            }
        }
        Ok(())
    }
}

// A place in a line of a file; `at` is how many bytes of the line stand before it.
#[derive(Clone, Copy)]
pub struct Found<'a> {
    pub path: &'a str,
    pub number: usize,
    pub line: &'a [u8],
    pub at: usize,
}

// FILE:LINE:COLUMN, and the word that stands there.
impl fmt::Display for Found<'_> {
    fn fmt<W: fmt::Write>(&self, f: &mut fmt::Formatter<W>) -> fmt::Result {
        write!(
            f,
            "{}:{}:{}: ",
            self.path,
            self.number,
            self.at.saturating_add(1)
        )?;
        let (found, _) = word(self.line.get(self.at..).unwrap_or(b""));
        if found.is_empty() {
            return f.write_str("the line ends here");
        }
        match found.get(0..LONGEST_FOUND) {
            Some(bytes) if found.len() > LONGEST_FOUND => write!(
                f,
                "found `{}..`",
                Shown { bytes }
            ),
            _ => write!(f, "found `{}`", Shown { bytes: found }),
        }
    }
}

// Says what is expected where something else was found, behind what was printed before, and stops.
pub fn stop<W: Write, D: fmt::Display>(
    rt: &HostRuntime,
    out: &mut W,
    found: Found<'_>,
    expected: &D,
) -> Result<(), Stopped>
    ensures { IsErr result }
{
    out.flush()?;
    eprintln!(rt; "{found}, but {expected}")?;
    Err(Stopped::Told)
}
