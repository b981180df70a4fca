// An operation on a stack, and what follows the stack is told.
ghost use Rattle.std.specs.Prelude.{◌≡◌, ◌<◌, length};
ghost use Rattle.stacks.specs.declared.ops.ScopeStackOp.TheVariants.{Push, Pop, Clear, Restore};
ghost use Rattle.stacks.specs.declared.ops.BasicScopeStackOp.TheVariants.{Pop as PopTold};
ghost use Rattle.stacks.specs.Operations.{DoneLaw, Applied, after};
ghost use Rattle.stacks.specs.Tellings.{Chain, TellLaw, told_of};

use crate::faults::OpFault;
use crate::hook::Hook;
use crate::ops::{ClearAmount, ScopeStackOp};
use crate::scope_stack::ScopeStack;
use scopes::Scope;

// stays: the hook and what it is shown go side by side; a struct of both would hold the &mut H, and every clause would
// have to name the hook behind it before and after
impl ScopeStack {
    fn apply_push<S, H: Hook<S>>(
        &mut self,
        scope: Scope,
        hook: &mut H,
        shown: &S,
    ) -> Result<(), OpFault>
        ensures stack { Applied (Push scope) self.old result self.new }
        ensures told { Chain H.told shown.now (told_of (Push scope) self.old result) hook.old hook.new }
    {
        self.push(scope)?;
        let now = self.as_slice();
        hook.push(shown, now, scope);
        Ok(())
    }

    // One scope off, and the hook is told with what that leaves.
    fn step_down<S, H: Hook<S>>(&mut self, hook: &mut H, shown: &S)
        requires { 0 < length self.old.scopes }
        ensures stack { self.new ≡ after (Pop 1) self.old }
        ensures told { H.told shown.now PopTold self.new.scopes hook.old hook.new }
    {
        self.lower();
        let now = self.as_slice();
        hook.pop(shown, now);
    }

    fn apply_pop<S, H: Hook<S>>(
        &mut self,
        count: usize,
        hook: &mut H,
        shown: &S,
    ) -> Result<(), OpFault>
        ensures stack { Applied (Pop count) self.old result self.new }
        ensures told { Chain H.told shown.now (told_of (Pop count) self.old result) hook.old hook.new }
    {
        if count > self.height() {
            return Err(OpFault::TooFew);
        }
        for _ in 0..count {
            self.step_down(hook, shown);
        }
        Ok(())
    }

    // All are cut off before the first pop is told.
    fn apply_clear<S, H: Hook<S>>(
        &mut self,
        amount: ClearAmount,
        hook: &mut H,
        shown: &S,
    ) -> Result<(), OpFault>
        ensures stack { Applied (Clear amount) self.old result self.new }
        ensures told { Chain H.told shown.now (told_of (Clear amount) self.old result) hook.old hook.new }
    {
        let cut = amount.of(self.height());
        self.clear(amount)?;
        for _ in 0..cut {
            hook.pop(shown, self.as_slice());
        }
        Ok(())
    }

    // Each scope is told as it comes back, with the stack up to it.
    fn apply_restore<S, H: Hook<S>>(&mut self, hook: &mut H, shown: &S) -> Result<(), OpFault>
        ensures stack { Applied Restore self.old result self.new }
        ensures told { Chain H.told shown.now (told_of Restore self.old result) hook.old hook.new }
    {
        let before = self.height();
        self.restore()?;
        let all = self.as_slice();
        // stays: each scope is told with the slice that ends with it, so its index is wanted beside it
        for i in before..all.len() {
            hook.push(shown, &all[0..i + 1], all[i]);
        }
        Ok(())
    }

    fn perform<S, H: Hook<S>>(
        &mut self,
        op: ScopeStackOp,
        hook: &mut H,
        shown: &S,
    ) -> Result<(), OpFault>
        ensures stack { Applied op self.old result self.new }
        ensures told { Chain H.told shown.now (told_of op self.old result) hook.old hook.new }
    {
        match op {
            ScopeStackOp::Push(scope) => self.apply_push(scope, hook, shown),
            ScopeStackOp::Pop(count) => self.apply_pop(count, hook, shown),
            ScopeStackOp::Clear(amount) => self.apply_clear(amount, hook, shown),
            ScopeStackOp::Restore => self.apply_restore(hook, shown),
            ScopeStackOp::Noop => Ok(()),
        }
    }

    // Applies an operation, and tells the hook each single push and pop in order, with the stack then standing. A refusal
    // changes neither.
    pub fn apply<S, H: Hook<S>>(
        &mut self,
        op: ScopeStackOp,
        hook: &mut H,
        shown: &S,
    ) -> Result<(), OpFault>
        ensures stack { Applied op self.old result self.new }
        ensures done { DoneLaw op self.old }
        ensures told { Chain H.told shown.now (told_of op self.old result) hook.old hook.new }
        ensures tells { TellLaw op self.old }
        ensures follows { H.can hook.old → H.scopes hook.old ≡ self.old.scopes → (H.scopes hook.new ≡ self.new.scopes) × H.can hook.new }
    {
        // every stack is within its bounds
        let _bounds = self.as_slice();
        self.perform(op, hook, shown)
    }
}
