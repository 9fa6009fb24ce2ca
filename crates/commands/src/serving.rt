//! The command `serve`: a listener on 127.0.0.1, a hall under a desk, and what is said once the workers were started
//! and at the end.
//!
//! When the last session has ended, the hall is taken out of the desk with the badge that the pool ended with. If that
//! gives the share with all parts of the desk's ledger, every step in the hall is one that a seat or a badge counted:
//! no accepted step was lost, and nobody else took one. Nobody can make such a share up. The desk's whole history is shown to what
//! each session's seat knew, so that the part of each is in that one history. An [`Audit`] is given the share with the hall
//! and the sessions, and only where it was the status is 0: what that means to it is the audit's own, so nothing else gives the
//! status.
ghost use Rattle.std.specs.Prelude.{◌≡◌, ◌≤◌, true, IfErr, IfOk, Ok, OnOk};
ghost use Rattle.line_io.specs.Writes.{IsWritten};
ghost use Rattle.hall.specs.Halls.{empty_hall};
ghost use Rattle.commands.specs.declared.serving.Unserved.TheVariants.{Uncounted};
ghost use Rattle.commands.specs.Running.{IsAudited, IsServed, ended_text, listening_text};

use crate::audit::Audit;
use crate::command_line::Options;
use crate::saying::say;
use crate::service::Service;
use crate::{EXIT_FAILED, EXIT_OK};
use line_io::{Sink, write_text};
use sched_rules::Worker;
use std::alloc::{AllocError, Global};
use std::io;
use std::net::{Ipv4Addr, Net, OpenListener, SocketAddr, TcpListener, TcpStream};
use std::sync::Wait;
use std::sync::ledger::Blank;
use std::thread::Threads;
use tcp_server::desk::{Config, Desk, DeskLedger, Hall, Jamboree, Opened, PARTS, Step};
use tcp_server::steal_pool::{Announce, OpenGate};
use tcp_server::{ServeFault, Served, ServerConfig, serve_announced, show_all};
use thiserror::Error;

/// Why the command `serve` failed.
#[derive(Debug, Drop, Error)]
pub enum Unserved {
    /// The system refused to let it listen at this port.
    #[error("port {0}: {1}")]
    Port(u16, io::Error),
    /// The system didn't tell the listener's address.
    #[error("{0}")]
    Address(io::Error),
    /// There was no memory for the hall.
    #[error("no memory for the segments")]
    OutOfMemory,
    /// The line `listening` or `ended` could not be written, or there was no memory for it.
    #[error("the output could not be written")]
    Unwritten,
    /// The server failed while it began or served.
    #[error("{0}")]
    Ended(ServeFault),
    /// All sessions have ended, but some seat or badge hasn't come back, so steps may be uncounted.
    #[error("not every step is accounted for")]
    Uncounted,
}

impl From<AllocError> for Unserved {
    /// Why nobody was served: there was no memory to serve with.
    fn from(_refused: AllocError) -> Unserved {
        Unserved::OutOfMemory
    }
}

impl From<ServeFault> for Unserved {
    /// Why nobody was served, by the fault of the server: the announcement couldn't be written, or another fault ended
    /// the server.
    fn from(fault: ServeFault) -> Unserved {
        match fault {
            ServeFault::Unsaid => Unserved::Unwritten,
            fault => Unserved::Ended(fault),
        }
    }
}

impl Service {
    ghost use Rattle.commands.specs.command_line.CommandLine.{AreWithinLimits};
    ghost use Rattle.commands.specs.Running.{IsServiceOf};

    /// The server that these options ask for, with each amount as it was read; `None` exactly where they ask for
    /// `solve`.
    pub fn of(options: Options) -> Option<Service>
        requires { AreWithinLimits options }
        ensures { IsServiceOf options result }
    {
        match options {
            Options::Solve { .. } | Options::SolveOrdered => None,
            Options::Serve {
                sessions,
                port,
                workers,
                segments,
                nodes,
                grain,
            } => Some(Service {
                sessions,
                port,
                workers: Worker::new(workers).unwrap(),
                config: Config::new(segments, nodes).unwrap(),
                grain,
            }),
        }
    }
}

/// Announces a server: its `announce` writes the line `listening` with this address on this output.
#[derive(Drop)]
pub(crate) struct Listening<'k, K> {
    alloc: Global,
    sink: &'k mut K,
    address: SocketAddr,
}

impl<K: Sink> Announce for Listening<'_, K> {
    ghost says = { λ before is_said after. (after.sink.ghost_name ≡ before.sink.ghost_name)
        × (is_said ≡ true → IsWritten K.takes before.sink.now (listening_text before.address) after.sink.now (Ok tt)) };

    /// Says at which address the server listens, once its workers have begun; false where that can't be written.
    fn announce(&mut self) -> bool {
        is_begun(self.alloc, self.sink, self.address)
    }
}

/// Runs the server that is asked for, and returns the exit status when all its sessions have ended or it has failed.
/// The output gets `listening 127.0.0.1:port` once the listener listens and all workers were started, and `ended k`
/// after the last of the k sessions. At status 0 both lines were written, and nothing else, and every step of the hall is
/// accounted for: `audit` was given the hall, the share that has all parts of the desk's ledger, and the sessions, whose parts are in one
/// history. Else the status is 1, and the reason is written on the errors.
pub fn serve_as_asked<L, R, K: Sink, E: Sink, A: Audit>(
    rt: &R,
    alloc: Global,
    blank: Blank,
    opened: Opened<Step<Jamboree>>,
    asked: Service,
    sink: &mut K,
    errors: &mut E,
    audit: &mut A,
) -> u8
where
    L: DeskLedger + Send + Sync,
    R: Net<Stream = TcpStream> + Threads + Wait + Sync,
    R::Listener: Send,
    requires name { blank.name ≡ L.name }
    requires parts { (blank.parts ≡ L.parts) × (L.all ≡ L.parts) × (L.all ≡ PARTS) }
    requires history { opened ≡ L.table }
    requires begun { L.begun ≡ empty_hall asked.grain asked.config }
    ensures status { result ≤ 1 }
    ensures told { result ≡ 0 → IsServed K.takes sink.old asked.sessions sink.new }
    ensures audited { result ≡ 0 → IsAudited A.given audit.old (empty_hall asked.grain asked.config) audit.new }
{
    match serve_at::<L, R, K, A>(rt, alloc, blank, opened, asked, sink, audit) {
        Ok(()) => EXIT_OK,
        Err(why) => failed(errors, why),
    }
}

/// Writes on the errors why the command failed, and returns the exit status for that, 1.
pub(crate) fn failed<E: Sink>(errors: &mut E, why: Unserved) -> u8
    ensures { result ≡ 1 }
{
    say(errors, why);
    EXIT_FAILED
}

/// Listens at the port that is asked for, makes a hall and its desk, and serves there (`serve_from`). `Ok` where both
/// lines `listening` and `ended` were written and every step of the hall is accounted for: `audit` was given the share that
/// has all parts of the desk's ledger.
fn serve_at<L, R, K: Sink, A: Audit>(
    rt: &R,
    alloc: Global,
    blank: Blank,
    opened: Opened<Step<Jamboree>>,
    asked: Service,
    sink: &mut K,
    audit: &mut A,
) -> Result<(), Unserved>
where
    L: DeskLedger + Send + Sync,
    R: Net<Stream = TcpStream> + Threads + Wait + Sync,
    R::Listener: Send,
    requires name { blank.name ≡ L.name }
    requires parts { (blank.parts ≡ L.parts) × (L.all ≡ L.parts) × (L.all ≡ PARTS) }
    requires history { opened ≡ L.table }
    requires begun { L.begun ≡ empty_hall asked.grain asked.config }
    ensures told { IfOk result (λ _. IsServed K.takes sink.old asked.sessions sink.new) }
    ensures audited { OnOk result (IsAudited A.given audit.old L.begun audit.new) }
{
    let listener = match TcpListener::bind(rt, (Ipv4Addr::LOCALHOST, asked.port)) {
        Ok(listener) => listener,
        Err(error) => return Err(Unserved::Port(asked.port, error)),
    };
    let hall = Hall::new(alloc, asked.config, asked.grain)?;
    let desk: Desk<L> = Desk::new(hall, blank, opened);
    serve_to_the_end(rt, alloc, desk, listener, asked, sink, audit)
}

/// Serves at this desk (`serve_from`), and then takes the hall out of it. `Ok` as for `serve_at`.
fn serve_to_the_end<L, R, N, K: Sink, A: Audit>(
    rt: &R,
    alloc: Global,
    desk: Desk<L>,
    listener: N,
    asked: Service,
    sink: &mut K,
    audit: &mut A,
) -> Result<(), Unserved>
where
    L: DeskLedger + Send + Sync,
    R: Net + Threads + Wait + Sync,
    N: OpenListener<Stream = TcpStream> + Drop + Send,
    requires { L.all ≡ L.parts }
    ensures told { IfOk result (λ _. IsServed K.takes sink.old asked.sessions sink.new) }
    ensures audited { OnOk result (IsAudited A.given audit.old L.begun audit.new) }
{
    let served = serve_from(rt, alloc, &desk, listener, asked, sink)?;
    account(desk, served, audit)
}

/// Takes the hall out of the desk, and gives it to `audit` with the share that has all parts of the desk's ledger, where the pool's badge
/// has all that no seat and no other badge gave back: then every step of the hall is accounted for. Else `Uncounted`. With them go
/// the sessions, to each of which the desk's history was shown.
fn account<L: DeskLedger, A: Audit>(
    desk: Desk<L>,
    served: Served<L>,
    audit: &mut A,
) -> Result<(), Unserved>
    requires { L.all ≡ L.parts }
    ensures audited { OnOk result (IsAudited A.given audit.old L.begun audit.new) }
    ensures uncounted { IfErr result (λ why. why ≡ Uncounted) }
{
    let Served { end, sessions } = served;
    let (hall, whole, mut history) = desk.into_hall_seen(end.badge);
    match whole {
        Some(whole) => {
            let sessions = show_all(&mut history, sessions);
            audit.give(hall, whole, sessions);
            Ok(())
        }
        None => Err(Unserved::Uncounted),
    }
}

/// Serves the sessions that are asked for at this desk, and returns when they have ended or the server has failed.
/// Writes the line `listening` once all workers were started, and `ended` after the last session. `Ok` where both were
/// written: then what the server ended with is returned.
fn serve_from<L, R, N, K: Sink>(
    rt: &R,
    alloc: Global,
    desk: &Desk<L>,
    listener: N,
    asked: Service,
    sink: &mut K,
) -> Result<Served<L>, Unserved>
where
    L: DeskLedger + Send + Sync,
    R: Net + Threads + Wait + Sync,
    N: OpenListener<Stream = TcpStream> + Drop + Send,
    requires { L.all ≡ L.parts }
    ensures { IfOk result (λ _. IsServed K.takes sink.old asked.sessions sink.new) }
{
    let address = match listener.local_addr() {
        Ok(address) => address,
        Err(error) => return Err(Unserved::Address(error)),
    };
    let call = Listening {
        alloc,
        sink,
        address,
    };
    let config = ServerConfig::new(asked.sessions, asked.workers);
    let (told, served) = serve_announced(rt, alloc, desk, listener, config, &OpenGate, call)?;
    let Listening { sink: told, .. } = told;
    if is_ended(alloc, told, asked.sessions) {
        Ok(served)
    } else {
        Err(Unserved::Unwritten)
    }
}

/// Writes the line `listening` with this address, which the first write offers as a whole, and returns whether all of
/// it was written. False also where there is no memory for the line.
fn is_begun<K: Sink>(alloc: Global, sink: &mut K, address: SocketAddr) -> bool
    ensures { result ≡ true → IsWritten K.takes sink.old (listening_text address) sink.new (Ok tt) }
{
    match format!(in alloc; "listening {address}\n") {
        Ok(line) => write_text(sink, line.as_bytes()).is_ok(),
        Err(_) => false,
    }
}

/// Writes the line `ended` with the number of sessions, which the first write offers as a whole, and returns whether
/// all of it was written. False also where there is no memory for the line.
fn is_ended<K: Sink>(alloc: Global, sink: &mut K, sessions: u16) -> bool
    ensures { result ≡ true → IsWritten K.takes sink.old (ended_text sessions) sink.new (Ok tt) }
{
    match format!(in alloc; "ended {sessions}\n") {
        Ok(line) => write_text(sink, line.as_bytes()).is_ok(),
        Err(_) => false,
    }
}
