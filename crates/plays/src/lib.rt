// A pane script as it is played: the stack and the outline behind each of its lines.
#![tactic(auto)]

pub mod flaws;
pub mod play;
pub mod refusals;
pub mod traced;

pub use flaws::{Flaw, Wanted};
pub use play::{Event, Opened, Play, START, Tally};
pub use refusals::Refusal;
pub use traced::Traced;
