// The type alone: specs name it, so its methods stand in a file of their own.
ghost use Rattle.std.specs.Prelude.{◌≡◌, true};
ghost use Rattle.scopes.specs.Fields.{fields, packed};

pub mod calls;

// Eight fields of 16 bits, four in each word, most significant first. A field holds an atom's number plus one, or 0
// where it is unused, and the used ones come first.
#[derive(Clone, Copy)]
pub struct Scope {
    a: u64,
    b: u64,
    ghost used_first: { packed (fields a b) ≡ true },
}
