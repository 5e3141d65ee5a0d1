//! The system's clock.

use lat_outside::Clock;
use std::time::{Duration, Instant};
use std::{thread, time};

/// Tells the milliseconds since it was made. Where the system's clock can't be read, it stands still.
#[derive(Clone, Copy)]
pub struct RealClock<R: time::Clock + Copy> {
    rt: R,
    start: Option<Instant>,
    last: u64,
}

impl<R: time::Clock + Copy> RealClock<R> {
    /// It starts now, at 0.
    pub fn new(rt: R) -> RealClock<R> {
        let start = Instant::now(&rt).ok();
        RealClock { rt, start, last: 0 }
    }
}

impl<R: time::Clock + Copy> Clock for RealClock<R> {
    fn now(&mut self) -> u64 {
        let Some(start) = self.start else {
            return self.last;
        };
        if let Ok(passed) = start.elapsed(&self.rt) {
            let passed = u64::try_from(passed.as_millis()).unwrap_or(u64::MAX);
            self.last = self.last.max(passed);
        }
        self.last
    }

    fn pause(&mut self, ms: u64) {
        thread::sleep(&self.rt, Duration::from_millis(ms));
    }
}
