//! A site's desk: the lock over a hall, the book of its customers, the roll of who is there, and who was served what.
//!
//! A [`SiteDesk`] is shared by all threads of a site. Who comes asks for a [`SiteSeat`] ([`SiteDesk::come`]): under one lock and by one
//! call its budget is looked at, its tenant admitted, its grant entered and its session listed, or nothing of it. With a seat it
//! reserves more, asks, gets, waits, cancels and leaves; leaving gives all back at once. Workers offer their steps by
//! [`SiteDesk::hold`]: the desk is a [`steal_pool::Workplace`], which picks fairly among those who have a seat. An operator reads who is there, tells sessions to end, and brings in another plan.
//!
//! What lies under the lock ([`LockedSite`]) is a hall with the history of its steps (`desk::NotedHall`), the book, of which the grants are
//! the tenants, the roll, and the shares of those who have a seat (`FairShare`: a guest's network is its first 64 bits,
//! `specs/Sharing.antt`). Its invariant is that the seat is the grant (`IsBooked`), that those listed are those who have a grant, in the
//! same order (`IsListed`), that the hall has come by its history from the one that the desk was made with, and the book by its own from a new
//! one (`IsBookBy` of `specs/Granted.antt`): that history has what the book granted, each session that was opened, raised or closed and each
//! plan that came in. And whoever's events in it open a session and don't close it has a grant, and nobody else has the same one (`AreHeld`);
//! a seat's maker is such a one, so each seat has its grant. What a call did to the roll the contract of the method of the same name says (`specs/Sites.antt`), and that the call calls
//! that method is read.
//!
//! What a seat's call did to the hall is said of that history, as at the server's desk (`desk`): a step that was taken is the last of what
//! the seat has then seen, and the only new one of its own; a refusal is the one that the core at its end gives; what is told of a job,
//! QUOTA and LIVE is the tenant's at its end. The same of the book's history: a session that comes, is raised or leaves has an event in it, and
//! what its customer may have and has is told as at its end ([`SiteDesk::budget`]), and a plan that comes in is its last event
//! ([`SiteDesk::reload`]); so what `site_book::laws` says of all lists of events holds of
//! a running desk's own. All desks of a site are of one type, so the type names a family of histories
//! ([`SiteNaming`]), and a desk, a seat and what lies under a lock have a number, which says whose of them is meant. A seat of another desk
//! is refused here as one that isn't there.
//!
//! Why it is so:
//!
//! - Whoever ends a session only tells it so and wakes its WAIT; its own thread leaves. So no thread touches another's seat, and a
//!   session's end is one call wherever it comes from. Who comes meanwhile is told `Later`, and waits for one to leave
//!   ([`SiteDesk::await_left`]): sessions that have left are counted under the lock, so that none is missed.
//! - Under the lock at most 64 grants and sessions are looked at, and no memory is taken but by an admission and a raise. Digests,
//!   texts and files are the caller's, before it or behind it.
//! - The lock, where others wait and whom a step wakes are `desk`'s ([`desk::DeskLock`]). There is no ledger here, and workers make their
//!   steps as one maker, with what lies under the lock.
//!
//! ```text
//! let stock = SiteStock::new(hall, book, FairShare::new(alloc, 1 + named)?, Opened::new(alloc)?, Opened::new(alloc)?);     // all empty
//! let desk: SiteDesk<J> = SiteDesk::new(0, stock);
//! let SeatOutcome::Seated(mut seat) = desk.come(rt, &Comer { who, ask, at, most }) else { .. };
//! let job = desk.ask(rt, &mut seat, &opening, 0)?;
//! desk.wait(rt, &mut seat, job, now)? == Outcome::Done(reply)     // with workers that hold the desk
//! desk.leave(rt, seat);
//! ```
#![tactic(auto)]

mod badge;
mod entry;
mod locked_site;
mod naming;
pub mod rows;
mod seat;
mod sharing;
mod site_desk;
mod stock;
mod turned;

pub use badge::SiteBadge;
pub use entry::SeatOutcome;
pub use locked_site::LockedSite;
pub use naming::SiteNaming;
pub use seat::{BookTrace, SiteSeat, SiteTrace};
pub use site_desk::SiteDesk;
pub use stock::{SiteStock, desks_of};
pub use turned::Turned;
