// `pane outline FILE`: plays a script, and prints after each line where each scope on the stack began.
#![tactic(auto)]

mod print;

use crate::print::Printer;
use lines::{cut, without_return};
use plays::Play;
use reports::{Found, Stopped, read, stop};
use std::io::{BufWriter, Write};

// Plays a script to its end, or to the first line that is none.
fn report<W: Write>(
    rt: &HostRuntime,
    printer: &mut Printer<W>,
    path: &str,
    text: &[u8],
) -> Result<(), Stopped> {
    let mut play = Play::new();
    for (index, whole) in cut(text, b'\n').enumerate() {
        let line = without_return(whole);
        let before = play.opened;
        match play.take(line) {
            Ok(Some(event)) => printer.event(&play, before, event)?,
            Ok(None) => {}
            Err(flaw) => {
                let found = Found {
                    path,
                    number: index + 1,
                    line,
                    at: flaw.at,
                };
                return stop(rt, &mut printer.out, found, &flaw.wanted);
            }
        }
    }
    printer.end(&play, play.opened)?;
    printer.sum_up(&play)
}

pub fn run(rt: &HostRuntime, path: &str) -> Result<(), Stopped> {
    let text = read(rt, path, "a pane script is expected")?;
    let buffer = vec![in rt.alloc(); 0u8; text.len()]?;
    let out = BufWriter::new(rt.alloc(), rt.stdout())?;
    report(rt, &mut Printer { out, buffer }, path, text.as_slice())
}
