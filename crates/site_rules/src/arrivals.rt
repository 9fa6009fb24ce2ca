//! Whether a site takes a connection.
ghost use Rattle.std.specs.Prelude.{◌≡◌};
ghost use Rattle.site_rules.specs.Arrivals.{arrival};

/// The connections that are there.
#[derive(Clone, Copy, Debug)]
pub struct Crowd {
    /// Those that count as the customer's.
    pub own: u32,
    /// The most that may.
    pub most_own: u32,
    /// Those that count as nobody's, as their customer has too many.
    pub extra: u32,
    /// All.
    pub all: u32,
    /// The most in all.
    pub most_all: u32,
}

/// What becomes of a connection.
#[derive(Clone, Copy, Debug, PartialEq, Eq)]
pub enum Arrival {
    /// It counts as its customer's.
    Counted,
    /// It is heard for its first line: with a token it may be another customer's.
    Heard,
    /// It is closed.
    Closed,
}

/// What becomes of a connection that comes to these: it is closed where all are as many as there may be; it counts as its customer's where
/// that may have one more; and else it is heard, unless a quarter of all are so already.
pub fn arrival_of(crowd: &Crowd) -> Arrival
    ensures { result ≡ arrival crowd.now }
{
    if crowd.all >= crowd.most_all {
        Arrival::Closed
    } else if crowd.own < crowd.most_own {
        Arrival::Counted
    } else if crowd.extra < crowd.most_all / 4 {
        Arrival::Heard
    } else {
        Arrival::Closed
    }
}
