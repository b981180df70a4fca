// The end of a line, whose words are read in turn.
ghost use Rattle.std.specs.Prelude.{◌≡◌, ◌≤◌, length};
ghost use Rattle.scripts.specs.Words.{Found};

use crate::directives::{Expected, Fault};
use crate::words::word;

// A text that ends a line of `size` bytes.
#[derive(Clone, Copy)]
pub(crate) struct Rest<'a> {
    pub text: &'a [u8],
    pub size: usize,
    ghost within: { length text.now ≤ size },
}

// A word, where it stands in its line, and what stands behind it.
#[derive(Clone, Copy)]
pub(crate) struct Token<'a> {
    pub word: &'a [u8],
    pub at: usize,
    pub rest: Rest<'a>,
}

impl<'a> Rest<'a> {
    // A whole line.
    pub(crate) fn new(line: &'a [u8]) -> Rest<'a>
        ensures text { result.text.now ≡ line.now }
        ensures size { result.size ≡ length line.now }
    {
        Rest {
            text: line,
            size: line.len(),
        }
    }

    // Its first word, empty where there is none.
    pub(crate) fn next(self) -> Token<'a>
        ensures found { Found self.entry.size self.entry.text.now result.word.now result.rest.text.now result.at }
        ensures line { result.rest.size ≡ self.entry.size }
    {
        let (found, rest) = word(self.text);
        Token {
            word: found,
            at: self.size - (found.len() + rest.len()),
            rest: Rest {
                text: rest,
                size: self.size,
            },
        }
    }
}

impl<'a> Token<'a> {
    // The fault that something else is expected in its place.
    pub(crate) fn lacks(self, expected: Expected) -> Fault
        ensures { result ≡ record { at = self.entry.at; expected = expected } }
    {
        Fault {
            at: self.at,
            expected,
        }
    }
}
