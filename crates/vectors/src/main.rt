// Replays what the reference answered, recorded in data/, and prints how much of it these crates answer alike. The same
// names are then tried against rules that the reference has no call for.
#![tactic(auto)]

mod names;
mod prefixes;
mod rules;

use crate::names::Names;
use crate::prefixes::Prefixes;
use crate::rules::Rules;
use records::{print, replay};
use std::{fs, io};

fn main(rt: HostRuntime) -> io::Result<()> {
    let text = fs::read(&rt, "names.txt")?;
    print(
        &rt,
        "names",
        "the reference",
        replay::<Names>(text.as_slice()),
    )?;
    print(&rt, "names", "the rules", replay::<Rules>(text.as_slice()))?;
    let text = fs::read(&rt, "prefixes.txt")?;
    print(
        &rt,
        "prefixes",
        "the reference",
        replay::<Prefixes>(text.as_slice()),
    )
}
