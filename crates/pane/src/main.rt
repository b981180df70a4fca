// The formula pane as a program: `pane COMMAND FILE`.
#![tactic(auto)]

mod names;
mod tally;

use reports::Stopped;
use std::env;
use std::process::ExitCode;
use std::str::FromStr;

const USAGE: &str = "usage: pane names FILE
  names FILE   builds the scope names in FILE, one a line, and prints for each how many atoms it has,
               its two words and its name, or why it is refused";

// The commands, all of which take one file.
#[derive(Clone, Copy)]
enum Command {
    Names,
    Outline,
    Rank,
}

#[derive(Clone, Copy)]
struct UnknownCommand;

impl FromStr for Command {
    type Err = UnknownCommand;

    fn from_str(word: &str) -> Result<Command, UnknownCommand> {
        match word {
            "names" => Ok(Command::Names),
            "outline" => Ok(Command::Outline),
            "rank" => Ok(Command::Rank),
            _ => Err(UnknownCommand),
        }
    }
}

// Says what is wrong with the command line, and what is right.
fn misused(rt: &HostRuntime, what: &str, word: &str) -> Result<(), Stopped> {
    eprintln!(rt; "pane: {what}{word}")?;
    eprintln!(rt; "{USAGE}")?;
    Err(Stopped::Told)
}

// The command and its file, behind the program's own name.
fn run(rt: &HostRuntime, words: &[String]) -> Result<(), Stopped> {
    if words.len() < 2 {
        return misused(rt, "a command is expected", "");
    }
    let command = words[1].as_str();
    if command == "--help" {
        println!(rt; "{USAGE}")?;
        return Ok(());
    }
    let Ok(known) = command.parse() else {
        return misused(rt, "there is no command ", command);
    };
    if words.len() != 3 {
        return misused(rt, "one file is expected behind ", command);
    }
    let file = words[2].as_str();
    // stays: three arms that call and answer alike
    match known {
        Command::Names => names::run(rt, file),
        Command::Outline => outline_report::run(rt, file),
        Command::Rank => rank_report::run(rt, file),
    }
}

fn start(rt: &HostRuntime) -> Result<(), Stopped> {
    match env::args(rt) {
        Ok(words) => {
            let words: Vec<String> = words.collect(rt.alloc())?;
            run(rt, words.as_slice())
        }
        Err(_) => misused(
            rt,
            "an argument cannot be read: it is no UTF-8 text, or memory is short",
            "",
        ),
    }
}

// Says why the program stops, where nothing has said it yet.
// stays: one case says nothing, since it has been said
fn tell(rt: &HostRuntime, stopped: Stopped) -> Result<(), Stopped> {
    match stopped {
        Stopped::Told => {}
        Stopped::Output => eprintln!(rt; "pane: the output cannot be written")?,
        Stopped::Memory => eprintln!(rt; "pane: memory is short")?,
    }
    Ok(())
}

fn main(rt: HostRuntime) -> ExitCode {
    match start(&rt) {
        Ok(()) => ExitCode::SUCCESS,
        Err(stopped) => {
            // the status says it even where no message can be printed
            let _ = tell(&rt, stopped);
            ExitCode::FAILURE
        }
    }
}
