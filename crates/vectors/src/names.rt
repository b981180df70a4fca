// Names: NAME, then the length, the eight fields with blanks between, and the name written back, or `refused`; tabs between.
use lines::{cut, split};
use records::{Record, is_written};
use repository::{NameFault, ScopeRepository};
use scopes::Scope;
use std::str;

// Whether a text is a number, in decimal.
fn is_number(text: &[u8], number: u32) -> bool {
    str::from_utf8(text).is_ok_and(|digits| digits.parse() == Ok(number))
}

// Whether a text has just the eight fields of a scope.
fn has_fields(text: &[u8], scope: Scope) -> bool {
    cut(text, b' ').count() == 8
        && cut(text, b' ').zip(0..8).all(|(field, index)| is_number(
            field,
            u32::from(scope.atom_at(index)),
        ))
}

pub(crate) struct Names;

impl Record for Names {
    fn agrees(repository: &mut ScopeRepository, record: &[u8]) -> bool {
        let (name, answer) = split(record, b'\t');
        match repository.build(name) {
            Ok(scope) => {
                let (len, rest) = split(answer, b'\t');
                let (fields, written) = split(rest, b'\t');
                is_number(len, scope.len())
                    && has_fields(fields, scope)
                    && is_written(repository, scope, written)
            }
            Err(NameFault::TooLong) => answer == b"refused".as_slice(),
            Err(_) => false,
        }
    }
}
