//! The numbered calls of a device in memory. The source and the sink count alike, so what a call's number decides
//! stands here once. Counts stop at the last value of their type; the numbers of failing calls lie far below it.
ghost use Rattle.std.specs.Prelude.{◌≡◌, ◌≤◌, IfOk};
ghost use Rattle.io_ports.specs.Counts.{one_more};
ghost use Rattle.io_ports.specs.Memory.{stands_in};

use std::alloc::{AllocError, Global};

/// Which calls are to fail, by their numbers from 1, and how many were made and have failed.
#[derive(Drop)]
pub(crate) struct Calls {
    pub(crate) failing: Vec<u32>,
    pub(crate) made: u64,
    pub(crate) faults: u64,
}

impl Calls {
    pub(crate) fn new(alloc: Global, fail: &[u32]) -> Result<Calls, AllocError>
        ensures failing { IfOk result (λ calls. calls.failing.items ≡ fail.now) }
        ensures made { IfOk result (λ calls. calls.made ≡ 0) }
        ensures faults { IfOk result (λ calls. calls.faults ≡ 0) }
    {
        Ok(Calls {
            failing: Vec::from_slice(alloc, fail)?,
            made: 0,
            faults: 0,
        })
    }

    /// Counts a call, and says whether it is one of those that fail.
    pub(crate) fn next_fails(&mut self) -> bool
        ensures answer { result ≡ stands_in self.old.failing.items (one_more self.old.made) }
        ensures counted { self.new ≡ record self.old { made = one_more self.old.made } }
    {
        self.made = self.made.saturating_add(1);
        let number = self.made;
        self.failing
            .iter()
            .any(|failing| u64::from(*failing) == number)
    }

    /// Counts a fault.
    pub(crate) fn fault(&mut self)
        ensures counted { self.new ≡ record self.old { faults = one_more self.old.faults } }
        ensures later { self.old.faults ≤ self.new.faults }
    {
        self.faults = self.faults.saturating_add(1);
    }
}
