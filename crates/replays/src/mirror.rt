// The type alone: specs name it, so its hook stands in a file of its own.
use arrayvec::ArrayVec;
use scopes::Scope;

pub mod hook;

// The smallest kind of hook: the scopes that it was told, lowest first. It may be shown anything.
#[derive(Drop)]
pub struct Mirror {
    pub scopes: ArrayVec<Scope, 64>,
}
