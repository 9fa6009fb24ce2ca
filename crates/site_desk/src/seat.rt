//! A session's seat at a site's desk.
ghost use Rattle.std.specs.Prelude.{◌≡◌, ◌≢◌, ◌≤◌, ◌<◌, length, Err, None, Contains};
ghost use Rattle.sched_rules.specs.declared.refusal.Refusal.TheVariants.{NoJob, NoJobsLeft};
ghost use Rattle.hall.specs.desk_rules.Asked.{ask_refusals, cancel_refusals, seat_asked_at, IsShown};

use crate::naming::SiteNaming;
use desk::{SeatCore, Token};
use hall::desk_rules::{JOBS, SeatAsked, seat_asked_at};
use hall::{Jamboree, Outcome, Refusal, Step};
use site_book::{BookEvent, Who};
use std::marker::{Model, PhantomData};

/// A session's place at a site's desk, with which its calls are made. Contracts see whose it is, the number of its desk, the seat of its
/// tenant, as at any desk, and what it knows of what the book granted.
#[derive(Drop)]
pub struct SiteSeat<J: SiteNaming> {
    pub(crate) who: Who,
    /// The number of its desk.
    pub(crate) at: u64,
    pub(crate) core: SeatCore,
    pub(crate) books: Token<BookEvent>,
    pub(crate) of: PhantomData<J>,
}

// Clauses see whose it is, the desk's number, the seat, and what it knows of the book's history. The tenant wasn't there before the desk was,
// and the events of its maker are those of a session that is open.
impl<J: SiteNaming> Model for SiteSeat<J> {
    ghost use Rattle.std.specs.Prelude.{◌≡◌, ◌<◌, true};
    ghost use Rattle.site_desk.specs.Granted.{is_open_by};
    ghost use Rattle.site_desk.specs.Seats.{SiteSeatOf};

    ghost Value = { SiteSeatOf };

    ghost view = { λ s. record { who = s.who; at = s.at; seat = s.core.seat; books = s.books.known } };

    ghost invariant = { λ s. (s.core.id ≡ J.table s.at) × ((J.begun s.at).shared.newest < s.core.seat.tenant) × (s.books.id ≡ J.granted s.at) × (is_open_by s.who s.core.seat.tenant s.books.known.mine ≡ true) };
}

impl<J: SiteNaming> SiteSeat<J> {
    /// Whose the seat is: a named customer or a guest.
    pub fn who(&self) -> Who
        ensures { result ≡ self.now.who }
    {
        self.who
    }

    /// The number of the seat's session, which is its tenant's.
    pub fn number(&self) -> u64
        ensures { result ≡ self.now.seat.tenant }
    {
        self.core.tenant()
    }

    /// What the seat has asked for, its job 1 first; at most 256 jobs.
    pub fn asked(&self) -> &[SeatAsked]
        ensures asked { result.now ≡ self.now.seat.asked }
        ensures few { length result.now ≤ 256 }
    {
        self.core.asked()
    }

    /// How a seat is refused that asks for a job at another desk than its own: as a tenant that isn't there, or as one
    /// that has asked for 256 jobs.
    pub(crate) fn ask_elsewhere(&self) -> Refusal
        ensures refused { Contains ask_refusals result }
        ensures full { length self.now.seat.asked ≡ 256 → result ≡ NoJobsLeft }
    {
        if self.asked().len() == JOBS {
            Refusal::NoJobsLeft
        } else {
            Refusal::NoTenant
        }
    }

    /// How a seat is refused that cancels a job at another desk than its own.
    pub(crate) fn cancel_elsewhere(&self, job: u64) -> Refusal
        ensures refused { Contains cancel_refusals result }
        ensures none { seat_asked_at self.now.seat.asked job ≡ None → result ≡ NoJob }
    {
        match seat_asked_at(self.asked(), job) {
            Some(_) => Refusal::NoTenant,
            None => Refusal::NoJob,
        }
    }

    /// What a seat is told of a job at another desk than its own.
    pub(crate) fn told_elsewhere(&self, job: u64) -> Result<Outcome, Refusal>
        ensures { IsShown (seat_asked_at self.now.seat.asked job) result }
    {
        match seat_asked_at(self.asked(), job) {
            Some(_) => Ok(Outcome::Pending),
            None => Err(Refusal::NoJob),
        }
    }
}

/// What a session that has left knew of its desk's two histories. Contracts see the number of its desk, and what it knew of the hall's and of the
/// book's. It takes a word.
#[derive(Drop)]
pub struct SiteTrace<J: SiteNaming> {
    pub(crate) at: u64,
    pub(crate) token: Token<Step<Jamboree>>,
    pub(crate) books: Token<BookEvent>,
    pub(crate) of: PhantomData<J>,
}

impl<J: SiteNaming> Model for SiteTrace<J> {
    ghost use Rattle.std.specs.Prelude.{◌≡◌};
    ghost use Rattle.site_desk.specs.Seats.{SiteTraceOf};

    ghost Value = { SiteTraceOf };

    ghost view = { λ t. record { at = t.at; known = t.token.known; books = t.books.known } };

    ghost invariant = { λ t. (t.token.id ≡ J.table t.at) × (t.books.id ≡ J.granted t.at) };
}

/// What the maker of an event knew of what its desk's book granted. Contracts see the number of the desk, and what the maker knew. It takes a
/// word.
#[derive(Drop)]
pub struct BookTrace<J: SiteNaming> {
    pub(crate) at: u64,
    pub(crate) books: Token<BookEvent>,
    pub(crate) of: PhantomData<J>,
}

impl<J: SiteNaming> Model for BookTrace<J> {
    ghost use Rattle.std.specs.Prelude.{◌≡◌};
    ghost use Rattle.site_desk.specs.Seats.{BookTraceOf};

    ghost Value = { BookTraceOf };

    ghost view = { λ t. record { at = t.at; books = t.books.known } };

    ghost invariant = { λ t. t.books.id ≡ J.granted t.at };
}
