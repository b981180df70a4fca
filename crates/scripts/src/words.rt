// Words, parted by blanks.
ghost use Rattle.std.specs.Prelude.{◌≡◌, ℕ, ◌<◌, ◌≤◌, length, ◌≢◌, slice_index};
ghost use Rattle.scripts.specs.Yields.{left_of, size_of};
ghost use Rattle.scripts.specs.Words.{Word, WordOnce};

use crate::rest::Rest;

// Where the blanks at the beginning of a text end.
fn word_start(text: &[u8]) -> usize
    ensures within { result ≤ length text.now }
    ensures before { (k : ℕ) → k < result → slice_index text.now k ≡ 32 }
    ensures first { result < length text.now → slice_index text.now result ≢ 32 }
{
    text.iter().position(|b| *b != b' ').unwrap_or(text.len())
}

// Where the word that begins at `start` ends.
fn word_end(text: &[u8], start: usize) -> usize
    requires { start ≤ length text.now }
    ensures rising { start ≤ result }
    ensures within { result ≤ length text.now }
    ensures plain { (k : ℕ) → start ≤ k → k < result → slice_index text.now k ≢ 32 }
    ensures last { result < length text.now → slice_index text.now result ≡ 32 }
{
    match text[start..].iter().position(|b| *b == b' ') {
        Some(size) => start + size,
        None => text.len(),
    }
}

// A text's first word, empty where there is none, and what stands behind it, from the blank that ends it on.
pub fn word(text: &[u8]) -> (&[u8], &[u8])
    ensures word { Word text.now result.0.now result.1.now }
    ensures once { WordOnce text.now result.0.now result.1.now }
    ensures shorter { 0 < length result.0.now → length result.1.now < length text.now }
{
    let start = word_start(text);
    let end = word_end(text, start);
    (&text[start..end], &text[end..])
}

// The words of a text in turn, each with its place: how many bytes of the text stand before it.
#[derive(Drop)]
pub struct Words<'a> {
    rest: Rest<'a>,
}

impl<'a> Words<'a> {
    // All words of a text.
    pub fn new(text: &'a [u8]) -> Words<'a>
        ensures left { left_of result ≡ text.now }
        ensures size { size_of result ≡ length text.now }
    {
        Words {
            rest: Rest::new(text),
        }
    }
}

impl<'a> Iterator for Words<'a> {
    ghost use Rattle.std.specs.Prelude.{length};
    ghost use Rattle.std.specs.Iterator.{at_most};
    ghost use Rattle.scripts.specs.Yields.{left_of, GivesWord};

    type Item = (usize, &'a [u8]);

    ghost next_gives = { GivesWord };

    ghost remaining = { λ s. at_most (length (left_of s)) };

    fn next(&mut self) -> Option<(usize, &'a [u8])> {
        let found = self.rest.next();
        if found.word.is_empty() {
            return None;
        }
        self.rest = found.rest;
        Some((found.at, found.word))
    }
}
