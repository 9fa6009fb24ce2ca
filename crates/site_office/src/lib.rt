//! The office of one connection at a site's desk, the lines of its sessions, and sessions over it.
//!
//! A site's session is one of `session`, whose lines have four things more (`specs/Lines.antt`). HELLO may bear a token as its third word
//! after HELLO, which says whose session it is to be. INFO tells the customer what it may have and has. PING is answered PONG, also before
//! HELLO, by this thread alone: no lock is taken. And lines that ask for a reservation are paid for by a rate. [`take_site_turn`] answers
//! one line: who says HELLO, the rate and INFO are asked of an [`AccessControl`], all else of the session's office, by the session's own
//! code. So a line is read once, by one grammar; and all lines are served by the loop of any session (`serve_talk`), which is told
//! that they are [`SiteLines`].
//!
//! A `SiteOffice` is what a session asks for a connection (`session::Office` and [`AccessControl`]). It has the desk by
//! reference, the seat of its session once HELLO was welcomed, whose the next session is to be, and an [`Environment`]: the clock, the
//! keys, the rates, and who can shut another's connection. Whoever is told that there is room once others have left waits for one of them,
//! 2 seconds at most.
//!
//! What stands for what: an [`AccessControl`] is a state with relations of its own, as an `Office` is; what comes of a line is `SiteTurned`
//! of `specs/Turns.antt`. A
//! `SiteOffice` is its desk's number, its seat, and what that knew when its tenant left (`specs/Offices.antt`): each call is one of an
//! office at that desk (`IsTurnAt` of `desk_office`), or a raise that the book refuses (`specs/Moments.antt`). Its invariant is that the
//! seat is that of the customer who was greeted, and at the office's desk.
//!
//! [`serve_connection`] serves a connection's session of bytes in and bytes out, and promises of it what `desk_office::serve_desk_seen` does
//! (`specs/Sessions.antt`). Some lines are answered beside the session: by INFO, PONG, or a refusal for which no desk's history is asked.
//! The others, less their tokens, are the lines of a session as any other: each `DONE`, `JOB` and `TABLE` is true by them, and the one
//! tenant that they made was answered by its own part of its desk's history. Nothing in it knows a socket, so rows and tests play whole
//! sessions with a clock that they give.
//!
//! | `ERR` | where |
//! |---|---|
//! | 14 | the budget, or the customer's connections, have no room |
//! | 28 | INFO before HELLO |
//! | 30 | nobody has the token |
//! | 31 | too many lines that ask for a reservation came in a time |
//!
//! Why it is so:
//!
//! - Who says HELLO is said before it is paid for: so who comes from a busy address but has a token pays for itself. One whose token
//!   nobody has pays as whoever the connection is, and is that again.
//! - HELLO with a token is HELLO: again, it is fault 29, with no number, 23.
//! - That a session said something is noted at most once a second, since each note takes the desk's lock.
//!
//! ```text
//! HELLO 4 8 secret      WELCOME 4 8
//! INFO                  INFO 4 16384 1048576 4 8 1.0.0
//! PING                  PONG
//!
//! let connection = Connection { desks: &desks, desk: &desks[0], environment, own, grain: 4 };
//! let (end, knew, environment) = serve_connection(rt, &mut source, &mut sink, connection);
//! ```
#![tactic(auto)]

mod access;
mod entering;
mod environment;
mod laws;
mod office;
mod requests;
pub mod rows;
mod serving;
mod tokens;
mod turns;

pub use access::{AccessControl, Greeted, Info};
pub use environment::{Cause, Environment, Identity, Note};
pub use laws::nobody_stays;
pub use requests::{SiteRequest, read_site_request};
pub use serving::{Connection, serve_connection};
pub use tokens::{token_of, without_token};
pub use turns::{SiteLines, take_site_turn};
