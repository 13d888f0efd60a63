//! Which calls of an object in memory fail, and how many have.

ghost use Rattle.std.specs.Prelude.{◌≡◌, ◌≢◌, ◌↔◌, Result};
ghost use Rattle.port.specs.Faults.{HasCause, Rose};
ghost use Rattle.port.specs.Plan.{FailsNext, IsNew, CallsOnce};

use crate::IoFault;

/// The calls of one kind, numbered from 0: those that are listed fail, and each fault is counted.
/// The number and the count stand still at their type's end.
#[derive(Drop)]
pub(crate) struct Plan {
    fail: Vec<u64>,
    calls: u64,
    faults: u64,
}

impl Plan {
    /// No call has been made.
    pub(crate) fn new(fail: Vec<u64>) -> Plan
        ensures { IsNew result fail.items }
    {
        Plan {
            fail,
            calls: 0,
            faults: 0,
        }
    }

    /// One more call: `Failed`, with one more fault, exactly where its number is listed.
    pub(crate) fn next(&mut self) -> Result<(), IoFault>
        ensures listed { (result ≡ Result.Err IoFault.Failed) ↔ FailsNext self.old }
        ensures counted { CallsOnce self.old self.new }
        ensures cause { HasCause result self.old.faults self.new.faults }
        ensures memory { result ≢ Result.Err IoFault.Memory }
    {
        let number = self.calls;
        self.calls = number.saturating_add(1);
        if self.fail.contains(&number) {
            return Err(self.fault());
        }
        Ok(())
    }

    /// One more fault.
    pub(crate) fn fault(&mut self) -> IoFault
        ensures cause { Rose self.old.faults self.new.faults }
        ensures failed { result ≡ IoFault.Failed }
        ensures same { self.new ≡ record self.old { faults = self.new.faults } }
    {
        self.faults = self.faults.saturating_add(1);
        IoFault::Failed
    }
}
