// Numbers in decimal digits.
ghost use Rattle.std.specs.Prelude.{◌≡◌, ◌+◌, ◌-◌, ◌*◌, ◌^◌, ◌<◌, ◌≤◌, MatchOption};
ghost use Rattle.std.specs.Int.{IsInRange};
ghost use Rattle.scripts.specs.Numbers.{Number, NoNumber};

// A number with one digit more behind it; none where the byte is no digit, or it grows too large.
fn grown(n: usize, byte: u8) -> Option<usize>
    ensures { MatchOption result (IsInRange 48 57 byte → 2 ^ 64 ≤ n * 10 + (byte - 48)) (λ m. IsInRange 48 57 byte × (m ≡ n * 10 + (byte - 48)) × (m < 2 ^ 64)) }
{
    if !byte.is_ascii_digit() {
        return None;
    }
    n.checked_mul(10)?.checked_add((byte - b'0') as usize)
}

// The number that a word writes.
// stays: std's parse takes text, and a plus sign too: its digits would have to be tested and its bytes decoded first
pub(crate) fn number(w: &[u8]) -> Option<usize>
    ensures { MatchOption result (NoNumber w.now) (λ n. Number w.now n) }
{
    if w.is_empty() {
        return None;
    }
    let mut n = 0;
    for b in w {
        n = grown(n, *b)?;
    }
    Some(n)
}
