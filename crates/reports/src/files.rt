// Files that a user names, and what is said where one cannot be read.
ghost use Rattle.std.specs.Prelude.{◌<◌, length, IfOk};

use std::alloc::AllocError;
use std::io::ErrorKind;
use std::{fs, io};

// Why the program ends with status 1.
#[derive(Clone, Copy)]
pub enum Stopped {
    // the reason has been printed
    Told,
    // what it printed could not be written
    Output,
    Memory,
}

impl From<io::Error> for Stopped {
    fn from(error: io::Error) -> Stopped {
        match error.kind() {
            ErrorKind::OutOfMemory => Stopped::Memory,
            _ => Stopped::Output,
        }
    }
}

impl From<AllocError> for Stopped {
    fn from(_error: AllocError) -> Stopped {
        Stopped::Memory
    }
}

// stays: the kinds are std's, which prints them in its own words
fn reason(kind: ErrorKind) -> Option<&'static str> {
    match kind {
        ErrorKind::NotFound => Some("there is no such file"),
        ErrorKind::IsADirectory => Some("this is a directory, and a file is expected"),
        ErrorKind::PermissionDenied => Some("the file may not be read"),
        _ => None,
    }
}

// The bytes of a file that is not empty.
pub fn read(rt: &HostRuntime, path: &str, expected: &str) -> Result<Vec<u8>, Stopped>
    ensures { IfOk result (λ bytes. 0 < length bytes.items) }
{
    match fs::read(rt, path) {
        Ok(bytes) => {
            if bytes.is_empty() {
                eprintln!(rt; "pane: {path}: the file is empty, and {expected}")?;
                return Err(Stopped::Told);
            }
            Ok(bytes)
        }
        Err(error) => {
            match reason(error.kind()) {
                Some(text) => eprintln!(rt; "pane: {path}: {text}")?,
                None => eprintln!(rt; "pane: {path}: {error}")?,
            }
            Err(Stopped::Told)
        }
    }
}
