// How an outline is made, and what can be asked of it.
ghost use Rattle.std.specs.Prelude.{◌≡◌, [], length, Some, None, MatchResult};
ghost use Rattle.std.specs.List.{slice_get};
ghost use Rattle.stacks.specs.Outlines.{begun};
ghost use Rattle.stacks.specs.Refusals.{stack_number, list_refusal};

use crate::faults::StackFault;
use crate::outline::{Beginning, Outline, Place};
use arrayvec::ArrayVec;
use scopes::Scope;

impl Outline {
    // An outline of no scope.
    pub fn new() -> Outline
        ensures { result ≡ [] }
    {
        Outline {
            beginnings: ArrayVec::new(),
        }
    }

    // An outline of these scopes, lowest first, that all begin at one place.
    pub fn from_scopes(scopes: &[Scope], place: Place) -> Result<Outline, StackFault>
        ensures { MatchResult result (λ o. (list_refusal scopes.now ≡ None) × (o ≡ begun place scopes.now)) (λ f. list_refusal scopes.now ≡ Some (stack_number f)) }
    {
        let mut beginnings = ArrayVec::new();
        for scope in scopes {
            let here = Beginning {
                scope: *scope,
                place,
            };
            if beginnings.try_push(here).is_err() {
                return Err(StackFault::TooManyScopes);
            }
        }
        Ok(Outline { beginnings })
    }

    // How many scopes it has.
    pub fn height(&self) -> usize
        ensures { result ≡ length self.now }
    {
        self.beginnings.len()
    }

    // The scopes, lowest first, each with the place of its push.
    pub fn as_slice(&self) -> &[Beginning]
        ensures { result.now ≡ self.now }
    {
        self.beginnings.as_slice()
    }

    // The scope at a height, 0 the lowest, and the place of its push.
    pub fn at(&self, height: usize) -> Option<Beginning>
        ensures { result ≡ slice_get self.now height }
    {
        self.beginnings.get(height).copied()
    }
}
