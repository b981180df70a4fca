// A stack is changed together with the outline that follows it.
ghost use Rattle.std.specs.Prelude.{◌≡◌, [], length, Some, None, MatchResult};
ghost use Rattle.std.specs.List.{slice_get};
ghost use Rattle.stacks.specs.Operations.{Applied};
ghost use Rattle.stacks.specs.Outlines.{scopes_of, begun, outlines};
ghost use Rattle.stacks.specs.Refusals.{stack_number, list_refusal};
ghost use Rattle.stacks.specs.Stacks.{started};
ghost use Rattle.stacks.specs.Tellings.{told_of};

use scopes::Scope;
use stacks::{Beginning, Change, OpFault, Outline, Place, ScopeStack, StackFault};

// A stack, and the outline that follows it: its scopes are those on the stack.
#[derive(Drop)]
pub struct Traced {
    stack: ScopeStack,
    outline: Outline,
    ghost follows: { scopes_of outline ≡ stack.scopes },
}

impl Traced {
    ghost use Rattle.plays.specs.Follows.{Follows};

    // No scope on the stack.
    pub fn new() -> Traced
        ensures stack { result.stack ≡ started [] }
        ensures outline { result.outline ≡ [] }
        ensures follows { Follows result }
    {
        Traced {
            stack: ScopeStack::new(),
            outline: Outline::new(),
        }
    }

    // These scopes on the stack, all since one place.
    pub fn from_scopes(scopes: &[Scope], place: Place) -> Result<Traced, StackFault>
        ensures { MatchResult result (λ t. (list_refusal scopes.now ≡ None) × (t.stack ≡ started scopes.now) × (t.outline ≡ begun place scopes.now) × Follows t) (λ f. list_refusal scopes.now ≡ Some (stack_number f)) }
    {
        let stack = ScopeStack::from_scopes(scopes)?;
        let outline = Outline::from_scopes(scopes, place)?;
        Ok(Traced { stack, outline })
    }

    // Applies a change of a line; the outline is told with its place.
    pub fn apply(&mut self, line: usize, change: Change) -> Result<(), OpFault>
        ensures stack { Applied change.operation self.old.stack result self.new.stack }
        ensures outline { self.new.outline ≡ outlines (record { line = line; position = change.position }) (told_of change.operation self.old.stack result) self.old.outline }
        ensures follows { Follows self.new }
    {
        let place = Place {
            line,
            position: change.position,
        };
        self.stack
            .apply(change.operation, &mut self.outline, &place)
    }

    // How many scopes are on the stack, and what is set aside.
    pub fn height(&self) -> usize
        ensures { result ≡ length self.now.outline }
    {
        self.outline.height()
    }

    pub fn set_asides(&self) -> usize
        ensures { result ≡ length self.now.stack.asides }
    {
        self.stack.set_aside_sizes().len()
    }

    // The scopes on the stack, lowest first, each with the place where it began.
    pub fn beginnings(&self) -> &[Beginning]
        ensures { result.now ≡ self.now.outline }
    {
        self.outline.as_slice()
    }

    // The scope at a height, 0 the lowest, and the place where it began.
    pub fn at(&self, height: usize) -> Option<Beginning>
        ensures { result ≡ slice_get self.now.outline height }
    {
        self.outline.at(height)
    }
}
