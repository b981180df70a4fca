// How long `path` takes on stacks of 64 scopes, for each ranking. It prints to standard error, since that varies from run to
// run, and asserts nothing.
#![tactic(auto)]

use deepest::Deepest;
use earliest::Earliest;
use rankings::Ranking;
use repository::ScopeRepository;
use scopes::Scope;
use std::io;
use std::time::Instant;

const CALLS: usize = 100000;

fn scope(repository: &mut ScopeRepository, name: &[u8]) -> Scope {
    repository.build(name).unwrap_or_default()
}

// How many of the calls answer a rank; each call is given another stack, so that none can be left out.
fn answered<K: Ranking>(path: &[Scope], row: &[Scope; 67]) -> usize {
    row.windows(64)
        .cycle()
        .take(CALLS)
        .filter(|stack| K::path(path, stack).is_some())
        .count()
}

fn print(rt: &HostRuntime, what: &str, start: Instant, answers: usize) -> io::Result<()> {
    let took = start.elapsed(rt)?.as_nanos();
    eprintln!(rt;
        "{what}: {} ns for one call on 64 scopes ({answers} of {CALLS} laid)",
        took / CALLS as u128
    )
}

fn main(rt: HostRuntime) -> io::Result<()> {
    let mut repository = ScopeRepository::new();
    let low = scope(&mut repository, b"source.a");
    let other = scope(&mut repository, b"meta.b.c");
    let high = scope(&mut repository, b"string.quoted");
    let mut row = [other; 67];
    row[3] = low;
    row[63] = high;
    let path = [
        scope(&mut repository, b"source"),
        scope(&mut repository, b"meta.b"),
        scope(&mut repository, b"string"),
    ];
    let start = Instant::now(&rt)?;
    let answers = answered::<Earliest>(&path, &row);
    print(&rt, "earliest", start, answers)?;
    let start = Instant::now(&rt)?;
    let answers = answered::<Deepest>(&path, &row);
    print(&rt, "deepest", start, answers)
}
