// Prefixes: two names, and whether the first is a prefix of the second, `true` or `false`; tabs between.
use lines::split;
use records::Record;
use repository::ScopeRepository;

pub(crate) struct Prefixes;

impl Record for Prefixes {
    fn agrees(repository: &mut ScopeRepository, record: &[u8]) -> bool {
        let (first, rest) = split(record, b'\t');
        let (second, answer) = split(rest, b'\t');
        let Ok(p) = repository.build(first) else {
            return false;
        };
        let Ok(s) = repository.build(second) else {
            return false;
        };
        let told: &[u8] = if p.is_prefix_of(s) { b"true" } else { b"false" };
        answer == told
    }
}
