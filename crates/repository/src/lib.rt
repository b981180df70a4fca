// The repository of atoms: scopes from names, and names from scopes.
#![tactic(auto)]

mod building;
pub mod faults;
mod held;
mod names;
pub mod scope_repository;
mod tables;
mod writing;

pub use faults::{NameFault, WriteFault};
pub use scope_repository::ScopeRepository;
