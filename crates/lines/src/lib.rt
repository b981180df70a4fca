// Text as bytes: cut at a byte, as into lines and fields, and freed of white space at its ends.
#![tactic(auto)]

mod stretches;

ghost use Rattle.std.specs.Prelude.{◌≡◌, ℕ, ◌-◌, ◌<◌, ◌≤◌, true, false, length, slice_index};
ghost use Rattle.lines.specs.Lines.{white, Splits, Trimmed, WithoutReturn};

pub use stretches::{Stretches, cut};

// What stands before the first of a byte, and what stands behind it; where there is none, all and nothing.
pub fn split(text: &[u8], byte: u8) -> (&[u8], &[u8])
    ensures splits { Splits text.now byte result.0.now result.1.now }
    ensures shorter { 0 < length text.now → length result.1.now < length text.now }
{
    match text.iter().position(|b| *b == byte) {
        Some(i) => (&text[..i], &text[i + 1..]),
        None => (text, &text[text.len()..]),
    }
}

// A text without the carriage return that ends it in some files.
pub fn without_return(line: &[u8]) -> &[u8]
    ensures { WithoutReturn line.now result.now }
{
    match line {
        [text @ .., b'\r'] => text,
        _ => line,
    }
}

fn is_white(b: u8) -> bool
    ensures { result ≡ white b }
{
    b == b' ' || (b >= 9 && b <= 13)
}

// Where white space at the end of a text begins.
fn white_end(text: &[u8]) -> usize
    ensures within { result ≤ length text.now }
    ensures behind { (k : ℕ) → result ≤ k → k < length text.now → white (slice_index text.now k) ≡ true }
    ensures last { 0 < result → white (slice_index text.now (result - 1)) ≡ false }
{
    match text.iter().rposition(|b| !is_white(*b)) {
        Some(last) => last + 1,
        None => 0,
    }
}

// Where white space at the beginning of a text ends.
fn white_start(text: &[u8]) -> usize
    ensures within { result ≤ length text.now }
    ensures before { (k : ℕ) → k < result → white (slice_index text.now k) ≡ true }
    ensures first { result < length text.now → white (slice_index text.now result) ≡ false }
{
    text.iter()
        .position(|b| !is_white(*b))
        .unwrap_or(text.len())
}

// A text without the white space at its ends.
pub fn trimmed(text: &[u8]) -> &[u8]
    ensures { Trimmed text.now result.now }
{
    let end = white_end(text);
    let start = white_start(&text[..end]);
    &text[start..end]
}
