// `pane rank FILE`: lays paths on stacks, and prints the rank of each under both rankings.
#![tactic(auto)]

mod decimal;
mod print;

use crate::print::{print_ranks, sum_up};
use arrayvec::ArrayVec;
use lines::{cut, split, without_return};
use named::{NameExpected, Refused, read_scopes};
use reports::{Found, Stopped, read, stop};
use repository::{NameFault, ScopeRepository};
use scopes::Scope;
use std::fmt;
use std::io::{BufWriter, Write};

// What can be wrong with a line.
// stays: no value that may be missing, but one of two things that are wanted
#[derive(Clone, Copy)]
pub(crate) enum Wanted {
    // no tab stands between a path and a stack
    Tab,
    Name(NameFault),
}

impl fmt::Display for Wanted {
    fn fmt<W: fmt::Write>(&self, f: &mut fmt::Formatter<W>) -> fmt::Result {
        match self {
            Wanted::Tab => f.write_str("a tab is expected between a path and a stack"),
            Wanted::Name(fault) => write!(f, "{}", NameExpected { fault: *fault }),
        }
    }
}

// stays: as the `Flaw` of plays, with what this report wants
// `at`: how many bytes of the line stand before what was found.
#[derive(Clone, Copy)]
pub(crate) struct Flaw {
    pub at: usize,
    pub wanted: Wanted,
}

// A path, and the stack to lay it on; of either, one scope more is read than can count.
#[derive(Drop)]
struct Task {
    path: ArrayVec<Scope, 65>,
    stack: ArrayVec<Scope, 65>,
}

// What is wrong with a name of a text that stands at `offset` in its line.
fn flaw_of(refused: Refused, offset: usize) -> Flaw {
    Flaw {
        at: offset.saturating_add(refused.at),
        wanted: Wanted::Name(refused.fault),
    }
}

impl Task {
    // Neither a path nor a stack yet.
    fn new() -> Task {
        Task {
            path: ArrayVec::new(),
            stack: ArrayVec::new(),
        }
    }

    // Reads the path and the stack of a line, in the place of those before.
    fn read(&mut self, repository: &mut ScopeRepository, line: &[u8]) -> Result<(), Flaw> {
        let (names, stack_names) = split(line, b'\t');
        let offset = names.len().saturating_add(1);
        if offset > line.len() {
            return Err(Flaw {
                at: line.len(),
                wanted: Wanted::Tab,
            });
        }
        read_scopes(repository, names, &mut self.path).map_err(|refused| flaw_of(refused, 0))?;
        read_scopes(repository, stack_names, &mut self.stack).map_err(|refused| flaw_of(
            refused, offset,
        ))?;
        Ok(())
    }
}

// Ranks line by line, to the end or to the first line with a flaw.
fn report<W: Write>(rt: &HostRuntime, out: &mut W, path: &str, text: &[u8]) -> Result<(), Stopped> {
    let mut repository = ScopeRepository::new();
    let mut task = Task::new();
    let mut lines: usize = 0;
    let mut laid: usize = 0;
    for (index, whole) in cut(text, b'\n').enumerate() {
        lines = index + 1;
        let line = without_return(whole);
        match task.read(&mut repository, line) {
            Ok(()) => {
                let ranked = print_ranks(out, task.path.as_slice(), task.stack.as_slice())?;
                laid = laid.saturating_add(usize::from(ranked));
            }
            Err(flaw) => {
                let found = Found {
                    path,
                    number: lines,
                    line,
                    at: flaw.at,
                };
                return stop(rt, out, found, &flaw.wanted);
            }
        }
    }
    sum_up(out, lines, laid)
}

pub fn run(rt: &HostRuntime, path: &str) -> Result<(), Stopped> {
    let text = read(rt, path, "lines of a path, a tab and a stack are expected")?;
    let mut out = BufWriter::new(rt.alloc(), rt.stdout())?;
    report(rt, &mut out, path, text.as_slice())
}
