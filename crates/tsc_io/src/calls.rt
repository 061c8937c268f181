//! The calls of a device in memory: how many there were, which fail, and how many did.
ghost use Rattle.std.specs.Prelude.{◌≡◌, ◌≤◌, ◌↔◌, IsTrue, Contains};
ghost use Rattle.tsc_io.specs.Counts.{Rose, next_count};

use crate::failed::Failed;
use crate::items::CallList;

/// The calls made so far, and the numbers of those that fail, from 0.
#[derive(Debug, Drop)]
pub(crate) struct Calls {
    pub(crate) fails: CallList,
    pub(crate) made: u64,
    pub(crate) faults: u64,
}

impl Calls {
    /// No call was made yet.
    pub(crate) fn new(fails: CallList) -> Calls
        ensures fresh { result ≡ record { fails = fails; made = 0; faults = 0 } }
    {
        Calls {
            fails,
            made: 0,
            faults: 0,
        }
    }

    /// Counts one more call, and answers whether it fails.
    pub(crate) fn next_fails(&mut self) -> bool
        ensures fails { IsTrue result ↔ Contains self.old.fails self.old.made }
        ensures counted { self.new ≡ record self.old { made = next_count self.old.made } }
        ensures stays { self.old.made ≤ self.new.made }
    {
        let call = self.made;
        self.made = call.saturating_add(1);
        self.fails.as_slice().contains(&call)
    }

    /// Counts one more fault.
    pub(crate) fn fault(&mut self) -> Failed
        ensures counted { self.new ≡ record self.old { faults = next_count self.old.faults } }
        ensures stays { self.old.faults ≤ self.new.faults }
        ensures rose { Rose self.old.faults self.new.faults }
    {
        self.faults = self.faults.saturating_add(1);
        Failed
    }
}
