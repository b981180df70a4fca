// A text cut at each of a byte, as into lines.
ghost use Rattle.std.specs.Prelude.{◌≡◌, ◌≤◌, ℕ, List, length, All};
ghost use Rattle.std.specs.Iterator.{YieldsFirstRef, item_count};
ghost use Rattle.lines.specs.Lines.{stretches};

use crate::split;
use std::marker::Model;

// The stretches that are left. It gives none for an empty text, and none behind a byte that ends the text.
#[derive(Drop)]
pub struct Stretches<'a> {
    rest: &'a [u8],
    byte: u8,
}

impl<'a> Model for Stretches<'a> {
    ghost Value = { List (List ℕ) };

    ghost view = { λ c. stretches c.byte c.rest.now };
}

// The stretches of a text that a byte ends, in turn: each is what stands before it.
pub fn cut(text: &[u8], byte: u8) -> Stretches<'_>
    ensures all { result ≡ stretches byte text.now }
    ensures few { length result ≤ length text.now }
    ensures short { All (λ stretch. length stretch ≤ length text.now) result }
{
    Stretches { rest: text, byte }
}

impl<'a> Iterator for Stretches<'a> {
    type Item = &'a [u8];

    ghost next_gives = { YieldsFirstRef (λ left. left) };

    ghost remaining = { item_count (λ left. left) };

    fn next(&mut self) -> Option<&'a [u8]> {
        if self.rest.is_empty() {
            return None;
        }
        let (stretch, rest) = split(self.rest, self.byte);
        self.rest = rest;
        Some(stretch)
    }
}
