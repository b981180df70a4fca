// Laying a path on a stack, for its rank and for a program that shows where it lies.
ghost use Rattle.std.specs.Prelude.{◌≤◌, length, take};
ghost use Rattle.rankings.specs.Layings.{LowestFit};
ghost use Rattle.earliest.specs.Places.{ListsLowest};

use rankings::{Laid, Places, lowest};
use scopes::Scope;

// The lowest position of a stack that a scope fits.
pub(crate) fn lowest_fit(scope: Scope, stack: &[Scope]) -> Option<usize>
    ensures { LowestFit scope stack.now result }
{
    stack.iter().position(|other| scope.is_prefix_of(*other))
}

// A path laid on a stack of at most 64 scopes: each of its scopes in turn takes the lowest position that it can.
// stays: the entries are written where they are answered, as a row of them would be made first and copied then
fn lay_on(path: &[Scope], stack: &[Scope]) -> Option<Places>
    requires { length stack.now ≤ 64 }
    ensures { ListsLowest path.now stack.now result }
{
    if path.is_empty() {
        return None;
    }
    let mut laid = [Laid::default(); 64];
    let mut from = 0;
    for (k, scope) in path.iter().enumerate() {
        let position = from + lowest_fit(*scope, &stack[from..])?;
        laid[k] = Laid {
            atoms: scope.len(),
            position,
        };
        from = position + 1;
    }
    Some(Places {
        laid,
        count: path.len(),
    })
}

// A path laid on the lowest 64 scopes of a stack, at the positions that its rank is of.
pub fn lay(path: &[Scope], stack: &[Scope]) -> Option<Places>
    ensures { ListsLowest path.now (take 64 stack.now) result }
{
    lay_on(path, lowest(stack))
}
