//! How fast the lines of a site's session are answered that come without end.
ghost use Rattle.std.specs.Prelude.{◌≡◌};
ghost use Rattle.site_rules.specs.Flows.{paid_with, pause};

/// Microseconds that a line costs.
pub const LINE_MICROS: u64 = 2_000;

/// Microseconds of lines that may come at once.
pub const AT_ONCE_MICROS: u64 = 2_000_000;

/// When all lines of a session are paid off, in microseconds, of which so many come now.
pub fn paid_with(paid: u64, lines: u64, now: u64) -> u64
    ensures { result ≡ paid_with paid lines now }
{
    let cost = lines.saturating_mul(LINE_MICROS);
    paid.max(now).saturating_add(cost)
}

/// How many microseconds a session sleeps before its lines are answered, which are paid off at this time: nothing where they are no more
/// than may come at once.
pub fn pause(paid: u64, now: u64) -> u64
    ensures { result ≡ pause paid now }
{
    paid.saturating_sub(now.saturating_add(AT_ONCE_MICROS))
}
