// How many scopes may be on the stack and set aside together, and how many set-asides there may be.
pub(crate) const MOST: usize = 64;
