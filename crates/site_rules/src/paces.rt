//! Until when a connection to a site may be silent.
ghost use Rattle.std.specs.Prelude.{◌≡◌, false};
ghost use Rattle.site_rules.specs.Paces.{time_left, until};

/// How long a connection may be silent, in milliseconds.
#[derive(Clone, Copy, Debug)]
pub struct Times {
    /// From its beginning until its HELLO is welcomed.
    pub welcome: u64,
    /// From then on between its lines.
    pub idle: u64,
}

/// How far a connection has come.
#[derive(Clone, Copy, Debug)]
pub struct Pace {
    /// When it came.
    pub came: u64,
    /// When its last whole line was answered; when it came, where it has said none.
    pub last: u64,
    /// Whether its HELLO was welcomed.
    pub welcomed: bool,
}

impl Pace {
    /// The pace of a connection that comes now and has said nothing.
    pub fn new(now: u64) -> Pace
        ensures { result ≡ record { came = now; last = now; welcomed = false } }
    {
        Pace {
            came: now,
            last: now,
            welcomed: false,
        }
    }

    /// Until when the connection may be silent, in milliseconds of the site's clock.
    pub fn until(&self, times: &Times) -> u64
        ensures { result ≡ until times.now self.now }
    {
        if self.welcomed {
            self.last.saturating_add(times.idle)
        } else {
            self.came.saturating_add(times.welcome)
        }
    }

    /// How long it may be silent from now on; `None` where it may be no more.
    pub fn left(&self, times: &Times, now: u64) -> Option<u64>
        ensures { result ≡ time_left times.now self.now now }
    {
        let until = self.until(times);
        if now < until { Some(until - now) } else { None }
    }
}
