//! Who is at a site's hall: one session, what it does, and why it is told to end.
ghost use Rattle.std.specs.Prelude.{◌≡◌};
ghost use Rattle.site_book.specs.Rolls.{first_told, goes, is_idle, is_meant, is_present_as, marked, marked_if, newcomer};

use crate::held::Group;
use crate::who::Who;

/// Why a session is told to end.
#[derive(Clone, Copy, Debug, PartialEq, Eq)]
pub enum Told {
    /// Its client is gone.
    Gone,
    /// It has said nothing for too long.
    Idle,
    /// A guest came, and it was the guest that had been idle longest.
    ForAnother,
    /// The operator ended it.
    ByOperator,
    /// Another plan has no room for it.
    ByPlan,
}

/// A session that is there. Times are milliseconds of the caller's clock.
#[derive(Clone, Copy, Debug)]
pub struct Present {
    /// Whose it is.
    pub who: Who,
    /// Its number.
    pub session: u64,
    /// When it came.
    pub since: u64,
    /// When it last said a line, or stopped waiting for a job.
    pub last: u64,
    /// Whether it waits for a job.
    pub waits: bool,
    /// Why it was told to end, if it was.
    pub told: Option<Told>,
}

// Only for the free places of an `ArrayVec`, which need some value.
impl Default for Present {
    /// A filler for the places of a list that aren't used.
    fn default() -> Present {
        Present::newcomer(Who::Named(0), 0, 0)
    }
}

/// What is noted of a session.
#[derive(Clone, Copy, Debug)]
pub enum SessionMark {
    /// It said a line at this time.
    Spoke(u64),
    /// It waits for a job from this time on, or doesn't any more.
    Waits(bool, u64),
    /// It is told to end.
    Told(Told),
}

/// Which sessions are meant.
#[derive(Clone, Copy, Debug)]
pub enum Whom {
    /// The one of this number.
    One(u64),
    /// Those of a customer, of a wider network of guests, of all guests, or all.
    Each(Group),
}

/// Which sessions are looked at as gone.
#[derive(Clone, Copy, Debug)]
pub enum Leaver {
    /// Those that were told to end.
    Told,
    /// Those too that are idle.
    Idle {
        /// The time.
        now: u64,
        /// How long a guest may say nothing.
        most: u64,
    },
}

impl Present {
    /// The entry of a session that comes now.
    pub fn newcomer(who: Who, session: u64, now: u64) -> Present
        ensures { result ≡ newcomer who session now }
    {
        Present {
            who,
            session,
            since: now,
            last: now,
            waits: false,
            told: None,
        }
    }

    /// Whether this is the entry of the session of this number of this customer.
    pub(crate) fn is(&self, who: Who, session: u64) -> bool
        ensures { result ≡ is_present_as who session self.now }
    {
        who.is(self.who) && session == self.session
    }

    /// Whether the session is a guest's that waits for no job, wasn't told to end, and has said nothing for longer than
    /// `most`.
    pub(crate) fn is_idle(&self, now: u64, most: u64) -> bool
        ensures { result ≡ is_idle now most self.now }
    {
        self.who.is_guest()
            && self.told.is_none()
            && !self.waits
            && most < now.saturating_sub(self.last)
    }

    /// Whether the session counts as gone: it was told to end, or, where the idle count too, it is an idle guest's.
    pub(crate) fn goes(&self, leaver: Leaver) -> bool
        ensures { result ≡ goes leaver self.now }
    {
        match leaver {
            Leaver::Told => self.told.is_some(),
            Leaver::Idle { now, most } => self.told.is_some() || self.is_idle(now, most),
        }
    }

    /// Whether `whom` means this session: by its number, or as one of a part of the customers.
    fn is_meant(&self, whom: Whom) -> bool
        ensures { result ≡ is_meant whom self.now }
    {
        match whom {
            Whom::One(session) => session == self.session,
            Whom::Each(part) => part.has(self.who),
        }
    }

    /// The session's entry with this mark: its last line came now; it waits for a job from now on, or doesn't any more;
    /// or it is told to end.
    fn marked(self, mark: SessionMark) -> Present
        ensures { result ≡ marked mark self }
    {
        match mark {
            SessionMark::Spoke(now) => Present { last: now, ..self },
            SessionMark::Waits(waits, now) => Present {
                waits,
                last: now,
                ..self
            },
            SessionMark::Told(why) => Present {
                told: first_told(self.told, why),
                ..self
            },
        }
    }

    /// The session's entry with this mark, if the mark is for it.
    pub(crate) fn marked_if(self, whom: Whom, mark: SessionMark) -> Present
        ensures { result ≡ marked_if whom mark self }
    {
        if self.is_meant(whom) {
            self.marked(mark)
        } else {
            self
        }
    }
}

/// The first reason for which a session was told to end stays.
pub(crate) fn first_told(told: Option<Told>, why: Told) -> Option<Told>
    ensures { result ≡ first_told told why }
{
    match told {
        None => Some(why),
        Some(told) => Some(told),
    }
}
