ghost use Rattle.std.specs.Prelude.{◌≡◌};

use std::marker::Model;

/// What time it is. Nothing is said of the times that it gives.
pub trait Clock {
    /// The time in milliseconds since the beginning of 1970, UTC.
    fn now(&mut self) -> i64;
}

/// A clock that stands still.
#[derive(Debug, Drop)]
pub struct FixedClock {
    at: i64,
}

impl Model for FixedClock {
    ghost use Rattle.std.specs.Prelude.{ℤ};

    ghost Value = { ℤ };

    ghost view = { λ c. c.at };
}

impl FixedClock {
    pub fn new(at: i64) -> FixedClock
        ensures { result ≡ at }
    {
        FixedClock { at }
    }
}

impl Clock for FixedClock {
    fn now(&mut self) -> i64
        ensures time { result ≡ self.old }
        ensures still { self.new ≡ self.old }
    {
        self.at
    }
}
