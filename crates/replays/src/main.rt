// Replays what the reference tells a hook and how it scores, recorded in data/, and prints how much of it these crates
// answer alike.
#![tactic(auto)]

mod mirror;
mod scores;
mod told;
mod witness;

ghost use Rattle.std.specs.Prelude.{◌≡◌, OnOk};

use crate::scores::Scores;
use crate::told::Tellings;
use records::{Tally, print, replay};
use std::io::ErrorKind;
use std::{fs, io};

// Records that are wrong on purpose: none may agree.
// stays: it promises the opposite of `print`, in other words
fn print_none(rt: &HostRuntime, what: &str, tally: Tally) -> io::Result<()>
    ensures { OnOk result (tally.agree ≡ 0) }
{
    println!(rt;
        "{what}: {} of {} agree, and none should",
        tally.agree, tally.records
    )?;
    if tally.agree > 0 {
        return Err(io::Error::from(ErrorKind::InvalidData));
    }
    Ok(())
}

fn main(rt: HostRuntime) -> io::Result<()> {
    let text = fs::read(&rt, "told.txt")?;
    print(
        &rt,
        "scripts",
        "what the reference tells a hook",
        replay::<Tellings>(text.as_slice()),
    )?;
    let text = fs::read(&rt, "falsified.txt")?;
    print_none(
        &rt,
        "falsified scripts",
        replay::<Tellings>(text.as_slice()),
    )?;
    let text = fs::read(&rt, "scores.txt")?;
    print(
        &rt,
        "scores",
        "the reference, bit for bit",
        replay::<Scores>(text.as_slice()),
    )?;
    println!(rt; "worked lines: {} proved", worked::lines())
}
