use lake_io::Clock;
use std::time::{SystemTime, UNIX_EPOCH};

/// The system's clock. It counts how often the system didn't tell the time.
pub struct HostClock<'a> {
    rt: &'a HostRuntime,
    faults: u64,
}

impl Drop for HostClock<'_> {
    fn drop(self) {
        let HostClock { rt: _, faults: _ } = self;
    }
}

impl<'a> HostClock<'a> {
    pub fn new(rt: &'a HostRuntime) -> HostClock<'a> {
        HostClock { rt, faults: 0 }
    }

    /// How often the time wasn't told.
    pub fn faults(&self) -> u64 {
        self.faults
    }

    fn millis(&self) -> Option<i64> {
        let time = SystemTime::now(self.rt).ok()?;
        let past = time.duration_since(UNIX_EPOCH).ok()?;
        i64::try_from(past.as_millis()).ok()
    }
}

impl Clock for HostClock<'_> {
    /// The system's time, and 0 where that isn't told.
    fn now(&mut self) -> i64 {
        match self.millis() {
            Some(millis) => millis,
            None => {
                self.faults = self.faults.saturating_add(1);
                0
            }
        }
    }
}
