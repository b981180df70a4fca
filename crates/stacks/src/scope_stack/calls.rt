// How a stack is made, and what can be read of it.
#![tactic(auto, using(crate::proofs::Memory::sizes))]

ghost use Rattle.std.specs.Prelude.{◌≡◌, [], map, length, Some, None, MatchResult};
ghost use Rattle.stacks.specs.Refusals.{stack_number, list_refusal};
ghost use Rattle.stacks.specs.Stacks.{Within, started};

use crate::faults::StackFault;
use crate::scope_stack::ScopeStack;
use arrayvec::ArrayVec;
use scopes::Scope;

impl ScopeStack {
    // A stack with no scope, and nothing set aside.
    pub fn new() -> ScopeStack
        ensures { result ≡ started [] }
    {
        ScopeStack {
            scopes: ArrayVec::new(),
            aside: ArrayVec::new(),
            sizes: ArrayVec::new(),
        }
    }

    // A stack of these scopes, lowest first, and nothing set aside.
    pub fn from_scopes(scopes: &[Scope]) -> Result<ScopeStack, StackFault>
        ensures { MatchResult result (λ s. (list_refusal scopes.now ≡ None) × (s ≡ started scopes.now)) (λ f. list_refusal scopes.now ≡ Some (stack_number f)) }
    {
        let Ok(scopes) = ArrayVec::try_from(scopes) else {
            return Err(StackFault::TooManyScopes);
        };
        Ok(ScopeStack {
            scopes,
            aside: ArrayVec::new(),
            sizes: ArrayVec::new(),
        })
    }

    // How many scopes are on the stack.
    pub fn height(&self) -> usize
        ensures { result ≡ length self.now.scopes }
    {
        self.scopes.len()
    }

    // The scopes on the stack, lowest first.
    pub fn as_slice(&self) -> &[Scope]
        ensures scopes { result.now ≡ self.now.scopes }
        ensures within { Within self.now }
    {
        self.scopes.as_slice()
    }

    // The sizes of the set-asides, oldest first; there are as many as there are set-asides.
    pub fn set_aside_sizes(&self) -> &[usize]
        ensures { result.now ≡ map length self.now.asides }
    {
        self.sizes.as_slice()
    }
}
