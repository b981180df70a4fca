// Pane scripts, read a line at a time. A line is one of these, its words parted by blanks:
//
//     # a comment; an empty line says as little
//     foreground ..  |  background ..  |  rule ..
//     stack NAME NAME ..
//     line TEXT
//     POSITION push NAME  |  POSITION pop COUNT  |  POSITION clear COUNT  |  POSITION clear all
//     POSITION restore  |  POSITION noop
//
// TEXT is all that stands behind the one blank behind `line`. POSITION and COUNT are decimal, below 2^64. The lines of
// a theme are known here by their first word only.
#![tactic(auto)]

pub mod directives;
mod keywords;
mod numbers;
mod reading;
mod rest;
mod words;

pub use directives::{Action, Directive, Expected, Fault};
pub use reading::read;
pub use words::{Words, word};
