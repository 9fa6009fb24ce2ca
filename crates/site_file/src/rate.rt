//! The rate at which a customer of a site may say lines that ask for a reservation.
ghost use Rattle.std.specs.Prelude.{◌≡◌, ◌<◌, ◌^◌};
ghost use Rattle.site_file.specs.Rates.{paid_after, may_pass};

use std::marker::Model;

/// How many lines may come: one each period, and so many at once.
#[derive(Clone, Copy, Debug, PartialEq, Eq)]
pub struct Rate {
    /// Microseconds a line, below 2^31.
    pub period: u32,
    /// How many may come at once.
    pub burst: u16,
}

/// What was said of late. Times are microseconds of the caller's clock, below 2^62.
#[derive(Debug, Drop)]
pub struct Meter {
    /// When all lines that passed are paid off.
    paid: u64,
}

// Clauses see the time.
impl Model for Meter {
    ghost use Rattle.std.specs.Prelude.{ℕ, ◌<◌, ◌^◌};

    ghost Value = { ℕ };

    ghost view = { λ m. m.paid };

    ghost invariant = { λ m. m.paid < 2 ^ 63 };
}

impl Meter {
    /// The meter of a customer that has said nothing yet.
    pub fn new() -> Meter
        ensures { result ≡ 0 }
    {
        Meter { paid: 0 }
    }

    /// A line comes now: whether the customer's rate lets it pass. One that doesn't pass costs nothing.
    pub fn pass(&mut self, rate: Rate, now: u64) -> bool
        requires { now < 2 ^ 62 }
        ensures passes { result ≡ may_pass rate self.old now }
        ensures meter { self.new ≡ paid_after rate self.old now }
    {
        let period = u64::from(rate.period);
        let room = period * u64::from(rate.burst);
        let paid = self.paid.max(now) + period;
        if paid > now + room {
            return false;
        }
        self.paid = paid;
        true
    }
}
