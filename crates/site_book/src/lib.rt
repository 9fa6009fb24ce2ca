//! Who may have how many sessions of a hall, and who is there: the book of a hall's customers, with what each has, and the roll of their
//! sessions.
//!
//! A [`Plan`] says what a hall has for all sessions, what each named customer may have at once (sessions, and the segments of 16
//! words and the nodes that they reserve together), and the same of each guest, of the guests of one wider network and of all
//! guests together. A guest is known by its address, of IPv6 by the first 64 bits; its wider network by the first 48. A [`CustomerBook`]
//! stands for a plan and the grants that are out ([`Grant`]), in the order in which they were opened. What happens to it is an
//! event: a session is opened, raised or closed, or another plan comes. Each call is one event, by the same definitions (`taken`
//! and `answer_to` of `specs/Books.antt`).
//!
//! A call that asks whether an event is refused changes nothing, and a call that takes it can't be refused. So what must happen
//! together with a grant, as the admission of a tenant, is done between them, and where that fails the book is as it was.
//!
//! A [`Roll`] stands for the sessions that are there, in the order in which they came, as the book's grants stand: each with the time of
//! its last line, whether it waits for a job, and why it was told to end. Whoever ends a session only tells it so
//! ([`SessionMark::Told`]); its own thread leaves, and then its grant is given back. [`what_comes_of`] says what comes of one who asks for
//! a session, by the plan, the grants, the roll and the time alone: it enters, it waits for those who were told to end, a guest that is
//! idle is told to end for it, or it is refused (`specs/Comings.antt`). [`told_by`] says who has to end for another plan. So no decision
//! stands beside a socket or a clock.
//!
//! The invariant that makes a budget worth something is that the sums of the plan fit what the hall has, and that every part of
//! the grants is within its budget (`IsKept` of `specs/Keeping.antt`). Then all grants together are within the hall's totals, and
//! what the book grants the hall has room for ([`laws::the_hall_has_room`]).
//!
//! Why it is so:
//!
//! - Another plan comes in only where all that is out is within it. A plan that takes away what somebody has would else sell it
//!   twice; who has too much, and how much, is told ([`CustomerBook::overrun`]), and the plan comes in once that has ended.
//! - A session's number is the caller's, as the number of its tenant. The book asks nothing of it: the first grant of a customer
//!   and a number is meant.
//! - The book knows nothing of time, and the roll only what it is told. How often a customer may say something is kept outside, so that no
//!   lock is held for it.
//! - A guest is told to end only where its going helps: with all idle guests gone the comer has room. One goes at a time, the
//!   idlest first, and none while others still are to go.
//! - Under another plan those stay that it would have let in, in the order in which they came. So the latest go, and of no customer
//!   that isn't over; and once they have gone, the plan comes in ([`laws::a_plan_comes_in_once_they_have_gone`]).
//! - Grants and roll are lists that each call goes through: there are 64 at most. A mark makes the roll anew, about 3 KB.
//!
//! What is proved of all lists of events and of all rolls is in [`laws`]; [`rows`] and [`roll_rows`] try the definitions.
//!
//! ```text
//! let plan = Plan::new(totals, customers, guest, network, guests)?;       // None where the sums don't fit
//! let mut book = CustomerBook::new(alloc, plan)?;
//! book.why_not_open(Who::Named(0), ask)                                   // None: nothing forbids it
//! book.open(Who::Named(0), 1, ask);
//! book.why_not_raise(Who::Named(0), 1, more)                              // Some(OverBudget)
//! book.why_not_replan(&smaller)                                           // Some(Beyond): the session is beyond it
//! what_comes_of(&plan, book.grants(), roll.entries(), &comer)             // Coming::Enters
//! roll.enter(comer.who, 2, comer.at);                                     // and the book opens session 2
//! roll.mark(Whom::Each(Group::Guests), SessionMark::Told(Told::ByOperator));
//! book.close(Who::Named(0), 1);
//! book.replan(smaller);
//! ```
#![tactic(auto)]

mod amount;
mod book;
mod coming;
mod event;
mod held;
pub mod laws;
mod plan;
mod present;
mod refusal;
mod roll;
pub mod roll_rows;
pub mod rows;
mod who;

pub use amount::Amount;
pub use book::{CustomerBook, why_over};
pub use coming::{Comer, Coming, told_by, what_comes_of};
pub use event::BookEvent;
pub use held::{Grant, Group, Overrun};
pub use plan::Plan;
pub use present::{Leaver, Present, SessionMark, Told, Whom};
pub use refusal::BookRefusal;
pub use roll::{MOST, Roll, idlest, remaining};
pub use who::Who;
