//! What the office of a site's connection asks of the site around it (clock, keys, rates), and what it tells it.
use site_book::Who;

/// Whose a session is to be.
#[derive(Clone, Copy, Debug)]
pub enum Identity {
    /// This customer's, whose sessions are in the hall of this number, from 0.
    Is(Who, usize),
    /// Nobody has the token.
    Nobody,
    /// Its customer has too many connections, or the site is being drained.
    Crowded,
}

/// Why a line was refused.
#[derive(Clone, Copy, Debug, PartialEq, Eq)]
pub enum Cause {
    /// The customer's budget has no room.
    Budget,
    /// The guests' have none.
    Guests,
    /// Too many lines came in a time.
    Rate,
    /// Nobody has the token.
    Token,
    /// The customer has too many connections, or the site is being drained.
    Connections,
    /// There is no memory, or no number of a tenant.
    Memory,
}

/// What an environment is told.
#[derive(Clone, Copy, Debug)]
pub enum Note {
    /// The session of this number has begun. It is this customer's.
    Begins(u64, Who),
    /// The session of this number has ended.
    Ended(u64),
    /// It waits for a job from now on, or doesn't any more.
    Waits(bool),
    /// It was told the value that it waited for.
    Value,
    /// A line was refused.
    Refused(Cause),
    /// The session of this number was told to end: its connection is to be shut.
    Tells(u64),
}

/// What an office asks of its site: the time, whose a token is, whether a line is paid for. Times are milliseconds of the environment's
/// clock.
pub trait Environment {
    /// The time by the site's clock, in milliseconds.
    fn now(&self) -> u64;

    /// How long a guest may say nothing, where another comes.
    fn guest_idle(&self) -> u64;

    /// Whose the next session is to be: the customer's that has this token; without one, whoever the connection is. From then on the
    /// connection counts as that customer's.
    fn identify(&mut self, token: Option<&[u8]>) -> Identity;

    /// Whether a line that asks for a reservation passes by this customer's rate.
    fn pay(&mut self, who: Who) -> bool;

    /// Notes in the site what has happened to the session.
    fn note(&mut self, note: Note);
}
