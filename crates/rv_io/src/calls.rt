//! The calls of a shelf or a sink in memory, some of which are made to fail.
ghost use Rattle.std.specs.Prelude.{◌≡◌, ◌≤◌};
ghost use Rattle.rv_io.specs.Outside.{Rose};
ghost use Rattle.rv_io.specs.Memory.{one_more, is_listed};

/// Which calls fail, by their numbers from 0; how many calls there were, and how many failed.
#[derive(Drop)]
pub(crate) struct Calls {
    failing: Vec<u64>,
    count: u64,
    faults: u64,
}

impl Calls {
    /// No call has been made yet.
    pub(crate) fn new(failing: Vec<u64>) -> Calls
        ensures { result ≡ record { failing = failing; count = 0; faults = 0 } }
    {
        Calls {
            failing,
            count: 0,
            faults: 0,
        }
    }

    /// How many calls failed.
    pub(crate) fn faults(&self) -> u64
        ensures { result ≡ self.now.faults }
    {
        self.faults
    }

    /// Counts this call, and says whether it is one of those that fail.
    pub(crate) fn begins_to_fail(&mut self) -> bool
        ensures listed { result ≡ is_listed self.old.failing.items self.old.count }
        ensures after { self.new ≡ record self.old { count = one_more self.old.count } }
    {
        let number = self.count;
        self.count = self.count.saturating_add(1);
        self.failing.as_slice().contains(&number)
    }

    /// Counts a fault.
    pub(crate) fn fail(&mut self)
        ensures after { self.new ≡ record self.old { faults = one_more self.old.faults } }
        ensures rose { Rose self.old.faults self.new.faults }
        ensures later { self.old.faults ≤ self.new.faults }
    {
        self.faults = self.faults.saturating_add(1);
    }
}
