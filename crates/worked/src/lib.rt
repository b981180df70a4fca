// Worked lines: examples that a person can follow by hand, proved of the definitions that the contracts cite.
#![tactic(auto)]

ghost use Rattle.std.specs.Prelude.{◌≡◌};
ghost use Rattle.worked.specs.Table.{Table};

// How many lines the table has; that each of them holds is the promise.
pub fn lines() -> usize
    ensures table { Table }
    ensures count { result ≡ 6 }
{
    6
}
