// The time.
ghost use Rattle.std.specs.Prelude.{◌≡◌, true, false, IsTrue};
ghost use Rattle.ck_io.specs.Clock.{ClockMeaning};

use std::rt;
use std::time::{SystemTime, UNIX_EPOCH};

/// Gives the moment, in seconds since 1970-01-01T00:00:00Z. It can't fail.
pub trait Clock: Drop {
    /// The one moment that it always gives, and whether it tells that.
    ghost means: { Self → ClockMeaning };

    fn now(&mut self) -> u64
        ensures told { IsTrue (means self.old).tells → result ≡ (means self.old).moment }
        ensures unchanged { means self.new ≡ means self.old };
}

/// Stands still at a moment.
#[derive(Clone, Copy, Debug, PartialEq, Eq)]
pub struct FixedClock {
    pub now: u64,
}

impl Clock for FixedClock {
    ghost means = { λ clock. record { tells = true; moment = clock.now } };

    fn now(&mut self) -> u64 {
        self.now
    }
}

/// The system's clock. It gives 0 where that can't be read or stands before 1970.
#[derive(Drop)]
pub struct SystemClock<R> {
    runtime: R,
}

impl<R: rt::Clock + Drop> SystemClock<R> {
    /// Takes the runtime, or a reference to it.
    pub fn new(runtime: R) -> SystemClock<R> {
        SystemClock { runtime }
    }
}

impl<R: rt::Clock + Drop> Clock for SystemClock<R> {
    ghost means = { λ _. record { tells = false; moment = 0 } };

    fn now(&mut self) -> u64 {
        let Ok(moment) = SystemTime::now(&self.runtime) else {
            return 0;
        };
        match moment.duration_since(UNIX_EPOCH) {
            Ok(since) => since.as_secs(),
            Err(_) => 0,
        }
    }
}
