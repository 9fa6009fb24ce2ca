//! The lock with the hall in it, and who may take steps.
//!
//! A [`Desk`] is shared by all threads. A [`Seat`] is one tenant's: it asks for positions, shows what became of them,
//! cancels, and leaves. A [`Badge`] is one worker's: it offers the steps of workers ([`Desk::offer`], or several by
//! [`Desk::hold`]). Each call locks the hall, does its steps there, counts them, and lets go: nothing is computed under
//! the lock. A worker waits until some frame is ready ([`Desk::next_ready`]), a seat at its bell until its job has ended
//! ([`Desk::wait`]); a step wakes only those who wait for what it changed.
//!
//! The lock, the bells and who holds the desk are one for all desks: [`DeskLock`] over a value that is [`UnderLock`], of
//! which `Desk` is the one with a [`LockedHall`], and a site's desk that with its book. What their calls do to the hall is one too:
//! [`NotedHall`] is a hall with the history of its steps, and [`SeatCore`] what each desk's seat is made of.
//!
//! Behind a lock a contract can't say what a call did to the hall, as other threads use it too. So the steps taken since
//! the desk was made, each with the number of its maker, are a history ([`StepLog`], by its desk's name [`History`]) that lies beside the hall, in
//! proofs alone; a seat and a badge are makers, and a seat knows what it has seen of the history and which steps are its
//! own. What a call did is said of these (`specs/Histories.antt`): a step that was taken is the last of the history that
//! the seat has then seen, and its own steps grew by just it; a refusal is the one that the core at the end of that history
//! gives; an answer by [`Desk::get_seen`], [`Desk::wait_seen`], [`Desk::quota_seen`] or [`Desk::live_seen`] is the tenant's
//! at that end, where the tenant is what its own steps make of it alone. Contracts see a badge's share alone, so of
//! [`Desk::offer`] they say how the share changed; a method's contract under the lock (`LockedHall`) says what the call did.
//!
//! What no contract can say: steps that a call's body takes by a maker of its own beside what it was asked for, so each body
//! here is one call of a method of `LockedHall`, whose contract names all that changed; how new the history is that a seat
//! has seen; and that a call returns.
//!
//! A seat's and a badge's share count their own taken steps, as shares of one ledger (`std::sync::ledger`) whose book lies
//! under the lock. So at the end, where [`Desk::into_hall`] gives the share with all parts of that ledger, all steps in the
//! hall are those that it keeps and those of the badge: nobody else took a step. They are as many as those of the hall that the desk was
//! made with, and the amount of that share; and the hall's core is the one to which the history's steps lead.
//!
//! Beside the hall and the book lies a spare share. A taken step adds 1 to the book and to the share of who
//! took it, and a seat that leaves merges its share into the spare one: so the hall's count is what it was
//! before the desk and the book's total, and what the hall keeps is what it was before and the spare share.
//! [`Desk::into_hall`] counts the parts of the ledger that are out against those that the badge has; where
//! they agree, spare and badge together are the whole ledger.
//!
//! An `ask` wakes one worker that waits for a frame; so does a step that made a frame ready, where one sleeps
//! (how many do is counted under the lock, as a wake is a call of the system even where nobody sleeps); a job
//! that ended rings its seat's bell, and the closing wakes all.
//!
//! Why it is so:
//!
//! - `leave` answers nothing, as the hall never refuses it: a seat's tenant is there until then. A ledger has 3 * 2^62 parts, one for each of 2^62 badges and 2^62 tenants, and 2^62 to spare. After 2^64 - 1
//!   steps a badge would block for ever; no run gets there.
//! - Sleepers are counted under the lock, after they saw no ready frame, so none is missed. A `DeskGuard` can't be
//!   dropped, only released, so no wake-up is forgotten; each frame that became ready wakes one sleeping worker.
//!
//! ```text
//! let desk: Desk<L> = Desk::new(Hall::new(alloc, config, 2)?, blank, Opened::new(alloc)?);
//! let mut seat = desk.admit(rt, reserve)?;
//! let job = desk.ask(rt, &mut seat, &opening, 0)?;
//! desk.wait(rt, &seat, job)? == Outcome::Done(reply)      // with workers that have badges
//! desk.leave(rt, seat);
//! ```
#![tactic(auto)]

pub use hall::jamboree;

mod bells;
mod desk;
mod desk_guard;
mod history;
mod lock;
mod locked_hall;
mod noted_hall;
mod passes;
pub mod reading;
mod seat;
mod shares;
mod under_lock;
mod worker_badge;

pub use desk::Desk;
pub use desk_guard::DeskGuard;
pub use hall::desk_rules::SeatAsked;
pub use hall::{
    Config, Did, DidOf, Hall, Jamboree, Leaf, LeafAnswer, Outcome, Refusal, Reply, Step,
    StepAnswer, StepOf, Worker,
};
pub use history::{History, Opened, StepLog, Token, Trace};
pub use lock::{DeskLock, Kept};
pub use locked_hall::LockedHall;
pub use noted_hall::NotedHall;
pub use passes::Naming;
pub use seat::{Seat, SeatCore};
pub use shares::{Badge, DeskLedger, PARTS};
pub use under_lock::UnderLock;
pub use worker_badge::WorkerBadge;
