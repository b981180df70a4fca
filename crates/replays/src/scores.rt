// Scores: a path, a stack, and the bits of the reference's match power, or `none`; tabs between.
use arrayvec::ArrayString;
use lines::split;
use named::scopes_of;
use records::Record;
use repository::ScopeRepository;
use std::fmt::Write;

pub(crate) struct Scores;

// Whether a text is a number as 16 hexadecimal digits.
fn is_hexadecimal(text: &[u8], number: u64) -> bool {
    let mut digits = ArrayString::<16>::new();
    write!(digits, "{number:016x}").is_ok() && digits.as_str().as_bytes() == text
}

impl Record for Scores {
    fn agrees(repository: &mut ScopeRepository, record: &[u8]) -> bool {
        let (names, rest) = split(record, b'\t');
        let (stack_names, answer) = split(rest, b'\t');
        let Ok(path) = scopes_of::<64>(repository, names) else {
            return false;
        };
        let Ok(stack) = scopes_of::<64>(repository, stack_names) else {
            return false;
        };
        match earliest::path(path.as_slice(), stack.as_slice()) {
            Some(bits) => is_hexadecimal(answer, bits),
            None => answer == b"none".as_slice(),
        }
    }
}
