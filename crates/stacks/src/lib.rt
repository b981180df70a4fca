// The scope stack, its operations, and what follows it.
#![tactic(auto)]

mod apply;
pub mod faults;
pub mod hook;
mod limits;
pub mod ops;
pub mod outline;
pub mod scope_stack;

pub use faults::{OpFault, StackFault};
pub use hook::Hook;
pub use ops::{BasicScopeStackOp, Change, ClearAmount, ScopeStackOp};
pub use outline::{Beginning, Outline, Place};
pub use scope_stack::ScopeStack;
