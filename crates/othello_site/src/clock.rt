//! A site's clock, which begins with the site.
use std::io;
use std::time::{Clock, Duration, Instant};

/// When a site began.
#[derive(Clone, Copy)]
pub(crate) struct SiteClock {
    start: Instant,
}

impl SiteClock {
    /// The clock of a site that begins now.
    pub(crate) fn begin(clock: &impl Clock) -> io::Result<SiteClock> {
        let start = Instant::now(clock)?;
        Ok(SiteClock { start })
    }

    /// How long ago the site began.
    fn age(&self, clock: &impl Clock) -> Duration {
        match Instant::now(clock) {
            Ok(now) => now.duration_since(self.start),
            Err(_) => Duration::from_secs(0),
        }
    }

    /// Microseconds since the site began.
    pub(crate) fn micros(&self, clock: &impl Clock) -> u64 {
        u64::try_from(self.age(clock).as_micros()).unwrap_or(u64::MAX)
    }

    /// Milliseconds since the site began.
    pub(crate) fn now(&self, clock: &impl Clock) -> u64 {
        u64::try_from(self.age(clock).as_millis()).unwrap_or(u64::MAX)
    }
}
