// Scopes: up to eight atoms, by number, in two words.
#![tactic(auto, unfolding(crate::specs::Scopes::atoms_in, crate::specs::Scopes::fields_in))]

pub mod scope;

pub use scope::Scope;
