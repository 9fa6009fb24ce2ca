//! What a site decides beside its books: whose a connection is, whether it is taken, until when it may be silent, when its client is gone,
//! and what its operator asks. Pure values: whoever has the sockets and the clock asks here.
//!
//! - [`identify`]: whose a connection is by its first bytes, at a proxy's port by the header ([`read_header`]), which must be understood, and
//!   else by its own address; [`recognize`]: the customer, by a file's keys. [`speaker`]: whose a session is to be that a HELLO asks for.
//! - [`read_header`]: what a proxy says in front of a connection's own bytes of where the connection comes from.
//! - [`hall_of_guest`]: in which hall a guest's next session is. [`is_said`]: whether a line of the log is said that anybody can cause.
//! - [`arrival_of`]: whether a connection counts as its customer's, is heard for its first line though its customer has too many, or is closed.
//! - [`Connections`]: how many there are and as whose each counts, also once a token makes it another customer's.
//! - [`connections_within`]: how many connections a process has descriptors for. [`plan_of_both`]: how a site changes from one file to another.
//! - [`sessions`]: which of the sessions that are there a hall and a number mean, and which are a customer's, a part's or an address's.
//! - [`pause`]: how long a session sleeps whose lines come too fast.
//! - [`Pace`]: until when a connection may be silent. [`Watch`]: when a client that can't be seen to speak is gone.
//! - [`read_command`]: what a line of the operator asks.
//!
//! Times are milliseconds of the caller's clock.
//!
//! ```text
//! identify(Port::Proxied, b"PROXY TCP4 10.0.0.1 127.0.0.1 50000 4720\r\nHELLO", peer)
//! // Caller::From { origin: V4(10.0.0.1), certificate: None, used: 42 }
//! Pace { came: 5, last: 5, welcomed: false }.until(&times)            // 10005
//! read_command(b"END CUSTOMER school")                                 // Command::End(Whose::Customer(b"school"))
//! ```
#![tactic(auto)]

mod arrivals;
mod callers;
mod commands;
mod connections;
mod descriptors;
mod faults;
mod fields;
mod flows;
mod halls;
mod headers;
mod logs;
mod paces;
mod reloads;
pub mod rows;
pub mod sessions;
mod texts;
mod watches;

pub use arrivals::{Arrival, Crowd, arrival_of};
pub use callers::{Caller, KnownClient, Port, Recognized, identify, recognize, speaker};
pub use commands::{Command, Whose, read_command};
pub use connections::{Connections, CustomerConnections};
pub use descriptors::{KEPT_DESCRIPTORS, connections_within};
pub use faults::HeaderFault;
pub use fields::field_of;
pub use flows::{AT_ONCE_MICROS, LINE_MICROS, paid_with, pause};
pub use halls::{HallRoom, hall_of_guest};
pub use headers::{Header, Origin, read_header};
pub use logs::{OF_A_REASON, OF_AN_ADDRESS, is_said};
pub use paces::{Pace, Times};
pub use reloads::{plan_of_both, what_both_allow_each_allows};
pub use watches::{ClientState, Watch};
