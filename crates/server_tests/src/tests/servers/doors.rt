//! For tests of a server: what lies between it and those who come: its listener, its descriptors, its threads.
ghost use Rattle.std.specs.Prelude.{◌≡◌};

use super::{
    ANSWERED, ASK_0, Host, LAST, Row, TURNS, Trial, address_of, are_answered, are_both_answered,
    are_told, are_told_before_last, are_told_of_their_own, come, fault_of, holds, is_answered,
    is_closed, is_content, is_given_back, is_well, is_whole, server_of, visitor, visitors,
};
use sched_rules::Worker;
use std::io::{self, Error, ErrorKind, Read, Write};
use std::net::{Net, SocketAddr, TcpListener, TcpStream};
use std::process::Abort;
use std::sync::Wait;
use std::sync::atomic::{AtomicBool, AtomicU32, Ordering};
use std::thread::{self, Threads};
use std::time::{Clock, CpuClock, Duration};
use tcp_server::desk::{Desk, DeskLedger};
use tcp_server::steal_pool::{Gate, Task};
use tcp_server::{ServerConfig, serve};

/// A job with a long table: one of Black's fourteen moves takes all of White's discs.
const TABLED: [Row; 3] = [
    ("HELLO 200 48\n", "WELCOME 200 48\n"),
    (
        "ASK 1 XXX---X-XO-XXO----OOOX---XO-OOX---OOO----OXO-O--X-XX--X--X--XXXX X\n",
        "JOB 1\n",
    ),
    ("WAIT 1\n", "DONE 1 70000 d4\n"),
];

/// Sixteen lines that ask for the table.
const TABLES: &str =
    "TABLE 1\nTABLE 1\nTABLE 1\nTABLE 1\nTABLE 1\nTABLE 1\nTABLE 1\nTABLE 1\nTABLE 1\nTABLE 1\nTABLE 1\nTABLE 1\nTABLE 1\nTABLE 1\nTABLE 1\nTABLE 1\n";

/// Four jobs that are asked at once, and then awaited.
const FOUR: [Row; 10] = [
    ("HELLO 4 8\n", "WELCOME 4 8\n"),
    (ASK_0, "JOB 1\n"),
    (ASK_0, "JOB 2\n"),
    (ASK_0, "JOB 3\n"),
    (ASK_0, "JOB 4\n"),
    ("WAIT 1\n", "DONE 1 0 -\n"),
    ("WAIT 2\n", "DONE 2 0 -\n"),
    ("WAIT 3\n", "DONE 3 0 -\n"),
    ("WAIT 4\n", "DONE 4 0 -\n"),
    LAST,
];

/// How often somebody tries again, with a twentieth of a second in between.
const TRIES: u32 = 100;

/// The most descriptors that are ever taken.
const MOST_DESCRIPTORS: usize = 1 << 21;

/// Who comes to a server.
#[derive(Clone, Copy)]
pub(super) enum Visit {
    /// Two: a job is answered and another is spent at once, line by line.
    Both,
    /// One whose connection is lost while its session waits; another one then gets what it had reserved.
    Lost,
    /// Many, each with two jobs of its own.
    Many,
    /// One who is told these answers to these lines, to the end of the session.
    Told(&'static [Row]),
    /// The only one, who is followed by others once it is there.
    Followed,
    /// One who never reads an answer, and then one who is answered.
    Silent,
    /// One who asks four jobs at once.
    Four,
    /// Three who came before it began, where there are descriptors for one, and a fourth later.
    Crowd,
}

impl Visit {
    /// How many come to a server for so many sessions before it begins, and how many descriptors are taken up before, but two.
    fn before(self, sessions: u16) -> (u16, usize) {
        match self {
            Visit::Both | Visit::Lost | Visit::Many => (sessions, 0),
            Visit::Crowd => (3, MOST_DESCRIPTORS),
            _ => (0, 0),
        }
    }

    /// How many sessions there are at a server for so many: two who come in a crowd are turned away.
    fn sessions(self, count: u16) -> usize {
        match self {
            Visit::Crowd => 2,
            _ => usize::from(count),
        }
    }

    /// How many are there before any computation of its server ends.
    fn at_once(self) -> u32 {
        match self {
            Visit::Four => 4,
            _ => 1,
        }
    }
}

/// Those who are there: workers in the midst of a computation, each of which stays until so many are there, within a limit.
#[derive(Drop)]
pub(super) struct Together {
    many: u32,
    there: AtomicU32,
    late: AtomicBool,
}

impl Together {
    /// A gate at which nobody is there yet.
    fn new(many: u32) -> Together {
        Together {
            many,
            there: AtomicU32::new(0),
            late: AtomicBool::new(false),
        }
    }

    /// Whether all are there, within a limit.
    fn are_there(&self) -> bool {
        for _ in 0..TURNS {
            if self.there.load(Ordering::SeqCst) >= self.many {
                return true;
            }
            thread::yield_now();
        }
        false
    }
}

impl Gate for Together {
    /// Does nothing before a task.
    fn before(&self, _worker: Worker, _task: &Task) {}

    /// A worker begins to compute a leaf: it counts itself, and notes where the other workers don't come to theirs in
    /// time.
    fn inside(&self, _worker: Worker, _number: u64) {
        self.there.fetch_add(1, Ordering::SeqCst);
        if !self.are_there() {
            self.late.store(true, Ordering::SeqCst);
        }
    }
}

/// Takes up to so many descriptors by more names of the listener: all but two. Where there are more, the test fails: set a limit then, as
/// by `ulimit -n`.
fn taken_up<R: Host>(rt: &R, listener: &TcpListener, most: usize) -> Vec<TcpListener> {
    let mut taken = Vec::new(rt.alloc());
    for _ in 0..most {
        let Ok(one) = listener.try_clone() else {
            let _two = (taken.pop(), taken.pop());
            return taken;
        };
        holds(rt, taken.push(one).is_ok());
    }
    holds(rt, most == 0);
    taken
}

/// Whether somebody comes, and is answered so to the end of the session.
fn is_visited<R: Net<Stream = TcpStream> + Abort>(
    rt: &R,
    address: SocketAddr,
    rows: &[Row],
) -> bool {
    are_answered(&visitor(rt, address), rows)
}

/// Whether an error says that nothing is there yet.
pub(super) fn is_not_yet(error: &Error) -> bool {
    error.kind() == ErrorKind::WouldBlock
}

/// Whether a connection is answered, or its session is still there.
fn is_alive(mut stream: &TcpStream) -> bool {
    match stream.write_all(b"BYE\n") {
        Ok(()) => match stream.read(&mut [0; 1]) {
            Ok(count) => count > 0,
            Err(error) => is_not_yet(&error),
        },
        Err(error) => is_not_yet(&error),
    }
}

/// How somebody who comes is received.
enum Arrival {
    /// There is no connection.
    Refused,
    /// There is a session.
    LetIn,
    /// The connection is closed without a word.
    Closed,
}

/// How somebody who comes to the server now is received.
fn received<R: Net<Stream = TcpStream>>(rt: &R, address: SocketAddr) -> Arrival {
    match come(rt, address) {
        Some(stream) if is_alive(&stream) => Arrival::LetIn,
        Some(_) => Arrival::Closed,
        None => Arrival::Refused,
    }
}

/// Whether nobody who comes is let in: each is refused, or closed without a word where the listener is just being closed.
fn is_refused<R: Net<Stream = TcpStream> + Clock>(rt: &R, address: SocketAddr) -> bool {
    for _ in 0..TRIES {
        match received(rt, address) {
            Arrival::Refused => return true,
            Arrival::LetIn => return false,
            Arrival::Closed => thread::sleep(rt, Duration::from_millis(50)),
        }
    }
    false
}

/// Whether the listener is closed while its only session goes on.
fn is_followed<R: Net<Stream = TcpStream> + Clock + Abort>(rt: &R, address: SocketAddr) -> bool {
    let one = visitor(rt, address);
    is_answered(&one, ANSWERED[0]) && is_refused(rt, address) && are_answered(&one, &ANSWERED[1..])
}

/// Whether somebody is answered while another's answers find no room any more.
fn is_answered_beside<R: Net<Stream = TcpStream> + Clock + CpuClock + Abort>(
    rt: &R,
    address: SocketAddr,
) -> bool {
    let silent = visitor(rt, address);
    are_told(&silent, &TABLED) && is_stuffed(rt, &silent) && is_visited(rt, address, &ANSWERED)
}

/// Sends lines until their answers, which nobody reads, have filled what there is between the server and its peer: nobody
/// works any more, and no line can be sent. Whether it comes to that.
fn is_stuffed<R: Clock + CpuClock + Abort>(rt: &R, stream: &TcpStream) -> bool {
    let half = Duration::from_millis(500);
    holds(rt, stream.set_write_timeout(Some(half)).is_ok());
    for _ in 0..TRIES {
        fill(stream);
        if is_idle(rt) && !is_any_sent(stream) {
            return true;
        }
    }
    false
}

/// Whether any of these lines can be sent.
fn is_any_sent(mut stream: &TcpStream) -> bool {
    stream.write(TABLES.as_bytes()).is_ok()
}

/// Sends lines for as long as they are taken.
fn fill(stream: &TcpStream) {
    for _ in 0..TURNS {
        if !is_any_sent(stream) {
            return;
        }
    }
}

/// Whether the process uses less than a twentieth of a second's processor time in a second.
fn is_idle<R: Clock + CpuClock>(rt: &R) -> bool {
    thread::sleep(rt, Duration::from_millis(50));
    let before = rt.process_cpu_time();
    thread::sleep(rt, Duration::from_secs(1));
    match (before, rt.process_cpu_time()) {
        (Ok(before), Ok(after)) => after.saturating_sub(before) < Duration::from_millis(50),
        _ => false,
    }
}

/// Whether of three who came at once the first is served and two are turned away, while no processor is used; and a fourth is served once
/// the first has ended.
fn are_turned_away<R: Net<Stream = TcpStream> + Clock + CpuClock + Abort>(
    rt: &R,
    address: SocketAddr,
    mut streams: Vec<TcpStream>,
    taken: Vec<TcpListener>,
) -> bool {
    let three = (streams.pop(), streams.pop(), streams.pop());
    let (Some(third), Some(second), Some(first)) = three else {
        return false;
    };
    let is_one_served = are_told_before_last(&first, &ANSWERED)
        && is_closed(&second)
        && is_closed(&third)
        && is_idle(rt)
        && are_answered(&first, &[LAST]);
    drop(first);
    let is_fourth_served = is_visited(rt, address, &ANSWERED);
    drop(taken);
    is_one_served && is_fourth_served && is_refused(rt, address)
}

/// Whether who comes to the server at this address is answered as they should be; these came before.
fn is_visit_well<R: Net<Stream = TcpStream> + Clock + CpuClock + Abort>(
    rt: &R,
    visit: Visit,
    address: SocketAddr,
    streams: Vec<TcpStream>,
    taken: Vec<TcpListener>,
) -> bool {
    match visit {
        Visit::Both => are_both_answered(&streams),
        Visit::Lost => is_given_back(streams),
        Visit::Many => are_told_of_their_own(&streams),
        Visit::Told(rows) => is_visited(rt, address, rows),
        Visit::Followed => is_followed(rt, address),
        Visit::Silent => is_answered_beside(rt, address),
        Visit::Four => is_visited(rt, address, &FOUR),
        Visit::Crowd => are_turned_away(rt, address, streams, taken),
    }
}

/// Whether who comes is answered as they should be, so many computations as that asks for were there at once, and all steps are accounted
/// for at the end.
pub(super) fn is_attended<L: DeskLedger + Send + Sync, R>(
    rt: &R,
    desk: Desk<L>,
    listener: TcpListener,
    visit: Visit,
    server: ServerConfig,
) -> bool
where
    R: Net<Listener = TcpListener, Stream = TcpStream> + Host + Clock + CpuClock + Sync,
    requires { L.all ≡ L.parts }
{
    let address = address_of(rt, &listener);
    let (many, most) = visit.before(server.sessions.count);
    let streams = visitors(rt, address, many);
    let taken = taken_up(rt, &listener, most);
    let sessions = visit.sessions(server.sessions.count);
    let gate = Together::new(visit.at_once());
    let there = &gate;
    let (content, served) = thread::join(
        rt,
        move || is_visit_well(rt, visit, address, streams, taken),
        ||
            requires { L.all ≡ L.parts }
        { serve(rt, rt.alloc(), &desk, listener, server, there) },
    );
    content && is_whole(desk, served, sessions) && !gate.late.load(Ordering::SeqCst)
}

/// A server for 1 session closes its listener with the first connection, while that session lives: who comes then is
/// refused.
#[test]
fn who_comes_too_late_is_refused(rt: HostRuntime) {
    holds(&rt, is_content(&rt, 0, Visit::Followed, 1, 1));
}

/// Of 2 clients of a server with 1 worker, one that never reads its answers holds up nobody.
#[test]
fn a_silent_peer_holds_up_nobody(rt: HostRuntime) {
    holds(&rt, is_content(&rt, 0, Visit::Silent, 2, 1));
}

/// A server with four workers, as were asked for, has all four at a computation at once.
#[test]
fn as_many_workers_run_as_were_asked(rt: HostRuntime) {
    holds(&rt, is_content(&rt, 0, Visit::Four, 1, 4));
}

/// Where all descriptors of a server for 4 sessions are used up, who comes is turned away and counts, and the sessions
/// go on.
#[test]
fn descriptors_are_used_up(rt: HostRuntime) {
    holds(&rt, is_content(&rt, 0, Visit::Crowd, 4, 1));
}

/// A runtime whose connections wait until the server has closed them, and note it.
#[derive(Drop)]
struct Waiting<'r, R> {
    rt: &'r R,
    is_closed: AtomicBool,
}

impl<R: Threads> Threads for Waiting<'_, R> {}

impl<R: Wait> Wait for Waiting<'_, R> {}

impl<R: Net<Listener = TcpListener, Stream = TcpStream>> Net for Waiting<'_, R> {
    type Stream = TcpStream;

    type Listener = TcpListener;

    /// Binds a listener, as the runtime does.
    fn bind(&self, address: SocketAddr) -> io::Result<TcpListener> {
        self.rt.bind(address)
    }

    /// Connects, and waits up to 5 seconds for the server to say something or to close.
    fn connect(&self, address: SocketAddr) -> io::Result<TcpStream> {
        let mut stream = self.rt.connect(address)?;
        stream.set_read_timeout(Some(Duration::from_secs(5)))?;
        if matches!(stream.read(&mut [0; 1]), Ok(0)) {
            self.is_closed.store(true, Ordering::SeqCst);
        }
        Ok(stream)
    }
}

/// Whether a server whose pool can't begin closes the connection that wakes its listener at once.
pub(super) fn is_stopped<L: DeskLedger + Send + Sync, R>(
    rt: &R,
    desk: Desk<L>,
    listener: TcpListener,
) -> bool
where
    R: Net<Listener = TcpListener, Stream = TcpStream> + Host + Sync,
    requires { L.all ≡ L.parts }
{
    let waiting = Waiting {
        rt,
        is_closed: AtomicBool::new(false),
    };
    let mut server = server_of(1, 1);
    server.pool.stack = Some(usize::MAX);
    let fault = fault_of(&waiting, rt.alloc(), &desk, listener, server);
    fault.is_some() && waiting.is_closed.load(Ordering::SeqCst)
}

/// A server is stopped before its listener is woken: the connection that wakes it is closed at once, since who takes it knows
/// already that nobody is served any more.
#[test]
fn a_stop_comes_before_its_connection(rt: HostRuntime) {
    holds(&rt, is_well(&rt, 0, Trial::Stopped));
}
