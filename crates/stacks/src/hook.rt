// What follows a stack: whoever is told each single push and pop.
ghost use Rattle.std.specs.Prelude.{◌≡◌, List};
ghost use Rattle.scopes.specs.declared.scope.Scope.{Scope};
ghost use Rattle.stacks.specs.declared.ops.BasicScopeStackOp.{BasicScopeStackOp};
ghost use Rattle.stacks.specs.declared.ops.BasicScopeStackOp.TheVariants.{Push, Pop};
ghost use Rattle.stacks.specs.Tellings.{moved};

use scopes::Scope;

// S is what this kind is shown beside the stack then standing.
pub trait Hook<S> {
    // The list of scopes that a value stands for.
    ghost scopes: { Self → List Scope };

    // The values that have room for every telling: a premise of what follows a stack, and no demand on a caller.
    ghost can: { Self → Type 0 };

    // What one telling, under what is shown and with the stack then standing, makes of a value.
    ghost told: { S → BasicScopeStackOp → List Scope → Self → Self → Type 0 };

    // What each kind has to prove: a telling moves the list of scopes, and leaves room.
    ghost moves: { (shown : S) (op : BasicScopeStackOp) (stack : List Scope) (s t : Self) → told shown op stack s t → can s → (scopes t ≡ moved op (scopes s)) × can t };

    fn push(&mut self, shown: &S, stack: &[Scope], scope: Scope)
        ensures { told shown.now (Push scope) stack.now self.old self.new };

    fn pop(&mut self, shown: &S, stack: &[Scope])
        ensures { told shown.now Pop stack.now self.old self.new };
}
