// Records of what the reference answered, one a line: replayed, counted and reported.
#![tactic(auto)]

mod tally;
mod written;

ghost use Rattle.std.specs.Prelude.{◌≡◌, length, OnOk};
ghost use Rattle.lines.specs.Lines.{stretches};

use lines::cut;
use repository::ScopeRepository;
use std::io;
use std::io::ErrorKind;
pub use tally::Tally;
pub use written::is_written;

// A kind of record.
pub trait Record {
    // Whether these crates answer what the record says.
    fn agrees(repository: &mut ScopeRepository, record: &[u8]) -> bool;
}

// How many of the records on a text's lines agree, with one repository for all; 10 is the line feed.
pub fn replay<R: Record>(text: &[u8]) -> Tally
    ensures { result.records ≡ length (stretches 10 text.now) }
{
    let mut repository = ScopeRepository::new();
    let mut tally = Tally::new();
    for record in cut(text, b'\n') {
        tally = tally.counted(R::agrees(&mut repository, record));
    }
    tally
}

// Prints how many records agree. It is an error if one does not.
pub fn print(rt: &impl Print, what: &str, with: &str, tally: Tally) -> io::Result<()>
    ensures { OnOk result (tally.agree ≡ tally.records) }
{
    println!(rt;
        "{what}: {} of {} agree with {with}",
        tally.agree, tally.records
    )?;
    if tally.agree < tally.records {
        return Err(io::Error::from(ErrorKind::InvalidData));
    }
    Ok(())
}
