// A name's bytes, cut at its dots.
ghost use Rattle.std.specs.Prelude.{◌≡◌, length, take};
ghost use Rattle.repository.specs.Atoms.{has};
ghost use Rattle.repository.specs.Names.{stripped, pieces};

// The name without the dots at its end.
pub(crate) fn without_end_dots(name: &[u8]) -> &[u8]
    ensures { result.now ≡ stripped name.now }
{
    match name.iter().rposition(|b| *b != b'.') {
        Some(last) => &name[..=last],
        None => &[],
    }
}

// How many pieces there are: one more than the dots.
pub(crate) fn count_pieces(text: &[u8]) -> usize
    ensures { result ≡ length (pieces text.now) }
{
    text.iter().filter(|b| **b == b'.').count() + 1
}

// Whether an atom is among the first pieces of a text.
pub(crate) fn is_among(text: &[u8], count: usize, atom: &[u8]) -> bool
    ensures { result ≡ has (take count (pieces text.now)) atom.now }
{
    text.split(|b| *b == b'.')
        .take(count)
        .any(|piece| piece == atom)
}
