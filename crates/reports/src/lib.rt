// What every report of the program needs: the file that a user names, and words that fit a count.
#![tactic(auto)]

ghost use Rattle.std.specs.Prelude.{◌≡◌, if◌then◌else◌, nat_eq};

pub mod files;
pub mod found;

pub use files::{Stopped, read};
pub use found::{Found, Shown, stop};

// One word for a count of one, another for any other.
pub fn plural(count: usize, one: &'static str, many: &'static str) -> &'static str
    ensures { result.now ≡ (if nat_eq count 1 then one.now else many.now) }
{
    if count == 1 { one } else { many }
}
