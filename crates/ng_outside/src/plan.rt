ghost use Rattle.std.specs.Prelude.{◌≡◌, ◌+◌, ◌-◌, ◌^◌};
ghost use Rattle.ng_outside.specs.Causes.{raised};
ghost use Rattle.ng_outside.specs.Memory.{is_listed};

// The numbers of the calls that are to fail, from 1, and the counts of the calls and of the failures.
#[derive(Drop)]
pub(crate) struct Plan {
    pub(crate) fails: Vec<u32>,
    pub(crate) calls: u64,
    pub(crate) faults: u64,
}

impl Plan {
    pub(crate) fn new(fails: Vec<u32>) -> Plan
        ensures { result ≡ record { fails = fails; calls = 0; faults = 0 } }
    {
        Plan {
            fails,
            calls: 0,
            faults: 0,
        }
    }

    // Counts a call, and says whether it is to fail.
    pub(crate) fn next(&mut self) -> bool
        ensures listed { result ≡ is_listed self.old.fails.items self.old.calls }
        ensures counted { self.new ≡ record self.old { calls = raised self.old.calls } }
    {
        self.calls = self.calls.saturating_add(1);
        let number = self.calls;
        self.fails.iter().any(|&fail| u64::from(fail) == number)
    }

    // Counts a failure.
    pub(crate) fn raise(&mut self)
        ensures { self.new ≡ record self.old { faults = raised self.old.faults } }
    {
        self.faults = self.faults.saturating_add(1);
    }
}
