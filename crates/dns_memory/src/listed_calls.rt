//! Which calls of a form in memory fail or answer Again, by their numbers.

ghost use Rattle.std.specs.Prelude.{◌≡◌, ◌≤◌, ◌↔◌, if◌then◌else◌, Contains, IsTrue};
ghost use Rattle.dns_memory.specs.Memory.{next};
ghost use Rattle.dns_memory.specs.ListedCalls.{TakesFate};

/// Calls, of which those fail whose numbers are listed.
#[derive(Drop)]
pub(crate) struct FailingCalls {
    pub(crate) listed: Vec<u64>,
    pub(crate) made: u64,
    pub(crate) faults: u64,
}

impl FailingCalls {
    /// No call so far. `listed` holds the numbers of those that fail, from 0.
    pub(crate) fn of(listed: Vec<u64>) -> FailingCalls
        ensures { result ≡ record { listed = listed; made = 0; faults = 0 } }
    {
        FailingCalls {
            listed,
            made: 0,
            faults: 0,
        }
    }

    /// One call more: whether it is a listed one, which is a fault.
    pub(crate) fn fails(&mut self) -> bool
        ensures listed { IsTrue result ↔ Contains self.old.listed.items self.old.made }
        ensures made { self.new.made ≡ next self.old.made }
        ensures faults { self.new.faults ≡ (if result then next self.old.faults else self.old.faults) }
        ensures later { self.old.faults ≤ self.new.faults }
        ensures kept { self.new.listed ≡ self.old.listed }
    {
        let fails = self.listed.contains(&self.made);
        self.made = self.made.saturating_add(1);
        if fails {
            self.fault();
        }
        fails
    }

    /// One fault more.
    pub(crate) fn fault(&mut self)
        ensures value { self.new ≡ record self.old { faults = next self.old.faults } }
        ensures later { self.old.faults ≤ self.new.faults }
    {
        self.faults = self.faults.saturating_add(1);
    }
}

/// What a call of a form in memory comes to.
#[derive(Clone, Copy, Debug, PartialEq, Eq)]
pub enum CallFate {
    CarriedOut,
    Again,
    Failed,
}

/// The calls of one kind that a form in memory takes, counted from 0: those that fail, and those that answer Again.
#[derive(Drop)]
pub struct ListedCalls {
    failing: Vec<u64>,
    again: Vec<u64>,
    made: u64,
    faults: u64,
    agains: u64,
}

impl ListedCalls {
    /// No call so far. A call whose number is in `failing` fails, one whose number is in `again` alone answers Again.
    pub fn new(failing: Vec<u64>, again: Vec<u64>) -> ListedCalls
        ensures { result ≡ record { failing = failing; again = again; made = 0; faults = 0; agains = 0 } }
    {
        ListedCalls {
            failing,
            again,
            made: 0,
            faults: 0,
            agains: 0,
        }
    }

    /// One call more, and what it comes to.
    pub(crate) fn take(&mut self) -> CallFate
        ensures fate { TakesFate result self.old self.new }
        ensures later { self.old.faults ≤ self.new.faults }
    {
        let call = self.made;
        self.made = self.made.saturating_add(1);
        if self.failing.contains(&call) {
            self.fault();
            return CallFate::Failed;
        }
        if self.again.contains(&call) {
            self.answer_again();
            return CallFate::Again;
        }
        CallFate::CarriedOut
    }

    /// One fault more.
    pub(crate) fn fault(&mut self)
        ensures value { self.new ≡ record self.old { faults = next self.old.faults } }
        ensures later { self.old.faults ≤ self.new.faults }
    {
        self.faults = self.faults.saturating_add(1);
    }

    /// One answer Again more.
    pub(crate) fn answer_again(&mut self)
        ensures { self.new ≡ record self.old { agains = next self.old.agains } }
    {
        self.agains = self.agains.saturating_add(1);
    }
}
