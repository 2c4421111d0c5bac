use lake_io::Clock;
use std::time::{SystemTime, UNIX_EPOCH};

/// The system's clock.
#[derive(Drop)]
pub struct SystemClock {
    rt: HostRuntime,
}

impl SystemClock {
    pub fn new(rt: HostRuntime) -> SystemClock {
        SystemClock { rt }
    }

    /// The milliseconds since the beginning of 1970; none where the system doesn't tell the time.
    fn millis(&self) -> Option<i64> {
        let time = SystemTime::now(&self.rt).ok()?;
        let past = time.duration_since(UNIX_EPOCH).ok()?;
        i64::try_from(past.as_millis()).ok()
    }
}

impl Clock for SystemClock {
    /// The time of the system, and 0 where that isn't told: no reply shows it.
    fn now(&mut self) -> i64 {
        self.millis().unwrap_or(0)
    }
}
