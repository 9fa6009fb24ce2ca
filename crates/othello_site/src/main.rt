//! `othello_site [FILE]`: serves the sessions of a site, each customer within its budget.
//!
//! What a session does is the work of `site_office` and the crates below it, whose contracts say it; whose a connection is and what
//! everybody may have is that of `site_file`; what else is decided that of `site_rules`. That what passed on a connection's socket is such a
//! session, behind its proxy's header, the contract of its thread says (`client`, `specs/Connections.antt`). Else here is what no clause can
//! say: threads, the clock, the control socket, the metrics and the log. A [`register::Register`] is what all connections share
//! beside the desks, under a lock of its own: the file's words, rates, connections, who can be shut, and the counts. Whoever holds it may
//! call a desk, and nobody the other way round.
//!
//! Who runs where: a thread for each worker of each hall, one that takes connections at each port (`listening`) and one for
//! each connection (`client`), one that looks each second at those that wait for a job (`watching`), one for the operator's socket
//! (`control`) and one for health and metrics (`web`), each with a thread for each that asks, and one that writes the log (`logging`).
//!
//! Whoever ends a session tells the desk so, which wakes its WAIT, and shuts its socket; its own thread leaves.
//!
//! ```text
//! $ othello_site
//! listening 127.0.0.1:4711
//! ```
#![tactic(auto)]

mod client;
mod clock;
mod control;
mod counts;
mod ending;
mod host;
mod links;
mod listening;
mod logging;
mod paths;
mod rates;
mod register;
mod reloading;
mod running;
mod serving;
mod shared;
mod site_environment;
mod telling;
mod visits;
mod watching;
mod web;

use std::env;
use std::process::ExitCode;

/// Serves a site by the file that the command line names.
fn main(rt: HostRuntime) -> ExitCode {
    let status = match running::words_of(rt.alloc(), env::args(&rt)) {
        Some(words) => running::run(&rt, words.as_slice()),
        None => running::refuse_words(&rt),
    };
    ExitCode::from(status)
}
