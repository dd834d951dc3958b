//! Calls that are counted, of which some are to fail.
ghost use Rattle.std.specs.Prelude.{◌≡◌, ◌≤◌, IsErr};
ghost use Rattle.qe_base.specs.Causes.{HasCause};

use crate::outside::Failed;
use sqlite_items::Items;
use std::alloc::Global;

/// The calls of one kind: the numbers of those that are to fail, counted from 1, how many were
/// made, and how often one failed.
#[derive(Drop)]
pub struct Calls {
    failing: Items<u64>,
    made: u64,
    faults: u64,
}

impl Calls {
    ghost use Rattle.qe_base.specs.Calls.{MakesCall, no_calls, faults_of, with_fault};

    /// No call was made yet, and these are to fail.
    pub fn new(failing: Items<u64>) -> Calls
        ensures { result ≡ no_calls failing }
    {
        Calls {
            failing,
            made: 0,
            faults: 0,
        }
    }

    /// Counts a call, which fails where it is listed.
    #[tactic(auto, using(crate::proofs::LaterCalls::listed_is_later, crate::proofs::LaterCalls::none_later))]
    pub fn begin(&mut self) -> Result<(), Failed>
        ensures call { MakesCall self.old self.new (IsErr result) }
        ensures cause { HasCause (faults_of self.old) (faults_of self.new) (IsErr result) }
    {
        if self.made == u64::MAX {
            return Ok(());
        }
        self.made += 1;
        if self.failing.as_slice().contains(&self.made) {
            self.count_fault();
            return Err(Failed);
        }
        Ok(())
    }

    /// One fault more, up to the last value that the count can have.
    pub fn count_fault(&mut self)
        ensures fault { self.new ≡ with_fault self.old }
        ensures later { self.old.faults ≤ self.new.faults }
    {
        self.faults = self.faults.saturating_add(1);
    }
}
