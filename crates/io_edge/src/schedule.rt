//! Which calls of a fake fail, how many were made and how many faults were counted.
ghost use Rattle.std.specs.Prelude.{◌≡◌, ◌↔◌, ◌≤◌, [], ◌∷◌, ◌++◌, Contains, IsTrue, OnOk, OnErr};
ghost use Rattle.io_edge.specs.Faults.{count_after};

use std::alloc::{AllocError, Global};

#[derive(Debug, Drop)]
pub struct Schedule {
    calls: u64,
    failing: Vec<u64>,
    faults: u64,
}

impl Schedule {
    pub fn new(alloc: Global) -> Self
        ensures calls { result.calls ≡ 0 }
        ensures failing { result.failing.items ≡ [] }
        ensures faults { result.faults ≡ 0 }
    {
        Schedule {
            calls: 0,
            failing: Vec::new(alloc),
            faults: 0,
        }
    }

    // Has the call with this number fail.
    pub fn fail(&mut self, call: u64) -> Result<(), AllocError>
        ensures ok { OnOk result (self.new.failing.items ≡ self.old.failing.items ++ call ∷ []) }
        ensures err { OnErr result (self.new.failing.items ≡ self.old.failing.items) }
        ensures calls { self.new.calls ≡ self.old.calls }
        ensures faults { self.new.faults ≡ self.old.faults }
    {
        self.failing.push(call)?;
        Ok(())
    }

    // Counts a call, and says whether it is one that fails.
    pub fn next_fails(&mut self) -> bool
        ensures value { IsTrue result ↔ Contains self.old.failing.items self.new.calls }
        ensures calls { self.new.calls ≡ count_after self.old.calls }
        ensures failing { self.new.failing.items ≡ self.old.failing.items }
        ensures faults { self.new.faults ≡ self.old.faults }
    {
        self.calls = self.calls.saturating_add(1);
        self.failing.contains(&self.calls)
    }

    // Counts a fault.
    pub fn raise(&mut self)
        ensures faults { self.new.faults ≡ count_after self.old.faults }
        ensures later { self.old.faults ≤ self.new.faults }
        ensures calls { self.new.calls ≡ self.old.calls }
        ensures failing { self.new.failing.items ≡ self.old.failing.items }
    {
        self.faults = self.faults.saturating_add(1);
    }
}
