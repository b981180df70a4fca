// The operations on the memory alone. Whatever follows the stack is told in `apply`.
#![tactic(auto, using(crate::proofs::Memory::counted))]

ghost use Rattle.std.specs.Prelude.{◌≡◌, ◌<◌, length};
ghost use Rattle.stacks.specs.declared.ops.ScopeStackOp.TheVariants.{Push, Pop, Clear, Restore};
ghost use Rattle.stacks.specs.Operations.{taken, after, Applied};

use crate::faults::OpFault;
use crate::limits::MOST;
use crate::ops::ClearAmount;
use crate::scope_stack::ScopeStack;
use scopes::Scope;

impl ClearAmount {
    // How many scopes it takes off a stack of some height.
    pub(crate) fn of(self, height: usize) -> usize
        ensures { result ≡ taken self height }
    {
        match self {
            ClearAmount::TopN(count) => count.min(height),
            ClearAmount::All => height,
        }
    }
}

impl ScopeStack {
    pub(crate) fn push(&mut self, scope: Scope) -> Result<(), OpFault>
        ensures { Applied (Push scope) self.old result self.new }
    {
        if self.scopes.len() + self.aside.len() >= MOST {
            return Err(OpFault::Full);
        }
        self.scopes.push(scope);
        Ok(())
    }

    // One scope fewer, of some.
    pub(crate) fn lower(&mut self)
        requires { 0 < length self.old.scopes }
        ensures { self.new ≡ after (Pop 1) self.old }
    {
        self.scopes.pop();
    }

    pub(crate) fn clear(&mut self, amount: ClearAmount) -> Result<(), OpFault>
        ensures { Applied (Clear amount) self.old result self.new }
    {
        if self.sizes.is_full() {
            return Err(OpFault::ManyAside);
        }
        let count = amount.of(self.scopes.len());
        let left = self.scopes.len() - count;
        // there is room: the scopes on the stack and those aside are at most 64 together
        self.aside
            .try_extend_from_slice(&self.scopes[left..])
            .unwrap();
        self.sizes.push(count);
        self.scopes.truncate(left);
        Ok(())
    }

    pub(crate) fn restore(&mut self) -> Result<(), OpFault>
        ensures { Applied Restore self.old result self.new }
    {
        let Some(size) = self.sizes.pop() else {
            return Err(OpFault::NoneAside);
        };
        let left = self.aside.len() - size;
        // as in `clear`, there is room
        self.scopes
            .try_extend_from_slice(&self.aside[left..])
            .unwrap();
        self.aside.truncate(left);
        Ok(())
    }
}
