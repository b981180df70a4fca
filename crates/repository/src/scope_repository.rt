// The type alone: specs name it, so its methods stand in a file of their own.
ghost use Rattle.std.specs.Prelude.{◌≡◌, ◌≤◌, true, length, take};
ghost use Rattle.repository.specs.Tables.{rises};

use crate::tables::{AtomTables, Counts};

pub mod calls;

// The atoms given out so far: the counts, and the tables that they fit.
// stays: a guard will borrow counts and tables apart, which a model would shut away
#[derive(Drop)]
pub struct ScopeRepository {
    pub(crate) counts: Counts,
    pub(crate) tables: AtomTables,
    ghost few: { counts.atoms ≤ 4096 },
    ghost short: { counts.bytes ≤ 65536 },
    ghost rising: { rises 0 (take counts.atoms tables.ends) counts.bytes ≡ true },
    ghost places: { length tables.ends ≡ 4096 },
    ghost room: { length tables.text ≡ 65536 },
}
