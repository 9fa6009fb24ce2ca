//! Tests of sessions over TCP, server and clients in one process. What each session is told is known beforehand,
//! whatever else the server does.
ghost use Rattle.std.specs.Prelude.{◌≡◌};

mod doors;
mod failing;
mod looked_at;
mod programs;
mod tables;

use super::{Host, holds};
use doors::Visit;
use sched_rules::{Config, Worker};
use std::alloc::Global;
use std::io::{Read, Write};
use std::marker::Brand;
use std::net::{Net, OpenListener, SocketAddr, TcpListener, TcpStream};
use std::process::Abort;
use std::sync::Wait;
use std::sync::atomic::{AtomicU32, Ordering};
use std::sync::ledger::Blank;
use std::thread::Threads;
use std::time::{Clock, CpuClock, Duration};
use tcp_server::desk::{Desk, DeskLedger, Hall, Jamboree, Opened, PARTS, Step};
use tcp_server::steal_pool::{Announce, OpenGate};
use tcp_server::{ServeFault, Served, ServerConfig, serve, serve_announced, show_all};

/// A line, and its answer.
type Row = (&'static str, &'static str);

/// The last line of a session.
const LAST: Row = ("BYE\n", "BYE\n");

/// The opening, to depths.
const ASK_0: &str = "ASK 0 ---------------------------OX------XO--------------------------- X\n";

const ASK_1: &str = "ASK 1 ---------------------------OX------XO--------------------------- X\n";

const ASK_2: &str = "ASK 2 ---------------------------OX------XO--------------------------- X\n";

const ASK_3: &str = "ASK 3 ---------------------------OX------XO--------------------------- X\n";

const ASK_7: &str = "ASK 7 ---------------------------OX------XO--------------------------- X\n";

/// A position that ends with the next move, one whose mover passes, and one with two moves.
const ENDS: &str = "ASK 1 XO-------------------------------------------------------------- X\n";

const PASSES: &str = "ASK 1 XO-------------------------------------------------------------- O\n";

const MOVES: &str = "ASK 1 -OXO------------------------------------------------------------ X\n";

/// A job that is answered.
const ANSWERED: [Row; 5] = [
    ("HELLO 4 8\n", "WELCOME 4 8\n"),
    (ASK_0, "JOB 1\n"),
    ("WAIT 1\n", "DONE 1 0 -\n"),
    ("QUOTA\n", "QUOTA 4 7 123\n"),
    LAST,
];

/// A job that is spent, at grain 0.
const SPENT: [Row; 6] = [
    ("HELLO 8 1\n", "WELCOME 8 1\n"),
    (ASK_3, "JOB 1\n"),
    ("WAIT 1\n", "SPENT 1\n"),
    ("QUOTA\n", "QUOTA 8 0 14\n"),
    ("LIVE\n", "LIVE 0 0\n"),
    LAST,
];

/// Lines that reserve all there is, and wait for a job that takes a while.
const LONG_WAIT: &str =
    "HELLO 4096 65536\nASK 7 ---------------------------OX------XO--------------------------- X\nWAIT 1\n";

/// Jobs, each with its answer as a first and as a second job.
const JOBS: [(&str, &str, &str); 4] = [
    (ASK_1, "DONE 1 -3 d3\n", "DONE 2 -3 d3\n"),
    (ENDS, "DONE 1 6000 c1\n", "DONE 2 6000 c1\n"),
    (PASSES, "DONE 1 -6000 pass\n", "DONE 2 -6000 pass\n"),
    (MOVES, "DONE 1 89 a1\n", "DONE 2 89 a1\n"),
];

/// How often a client asks again for what another one has still reserved.
const TURNS: u32 = 1_000_000;

/// Sends bytes, and tells whether they were sent.
fn is_sent(mut stream: &TcpStream, bytes: &[u8]) -> bool {
    stream.write_all(bytes).is_ok()
}

/// Whether this is what the server says next.
fn is_told(mut stream: &TcpStream, text: &str) -> bool {
    let mut held = [0; 64];
    match held.get_mut(..text.len()) {
        Some(told) => stream.read_exact(told).is_ok() && &*told == text.as_bytes(),
        None => false,
    }
}

/// Sends a line, and tells whether this is its answer.
fn is_answered(stream: &TcpStream, row: Row) -> bool {
    is_sent(stream, row.0.as_bytes()) && is_told(stream, row.1)
}

/// Whether each line is answered as it should be.
fn are_told(stream: &TcpStream, rows: &[Row]) -> bool {
    for row in rows {
        if !is_answered(stream, *row) {
            return false;
        }
    }
    true
}

/// Whether each line but the last one is answered as it should be.
fn are_told_before_last(stream: &TcpStream, rows: &[Row]) -> bool {
    match rows.split_last() {
        Some((_, before)) => are_told(stream, before),
        None => true,
    }
}

/// Whether the server has closed this connection without a word.
fn is_closed(mut stream: &TcpStream) -> bool {
    matches!(stream.read(&mut [0; 1]), Ok(0))
}

/// Whether each line is answered as it should be, and the connection is closed then.
fn are_answered(stream: &TcpStream, rows: &[Row]) -> bool {
    are_told(stream, rows) && is_closed(stream)
}

/// Whether two sessions at once are answered as each is alone.
fn are_both_answered(streams: &[TcpStream]) -> bool {
    let [one, two] = streams else { return false };
    for number in 0..ANSWERED.len() {
        if !is_answered(two, SPENT[number]) || !is_answered(one, ANSWERED[number]) {
            return false;
        }
    }
    is_answered(two, LAST)
}

/// The next byte that the server says.
fn next_byte(mut stream: &TcpStream) -> Option<u8> {
    let mut told = [0; 1];
    stream.read_exact(&mut told).ok()?;
    Some(told[0])
}

/// Whether all that there is can be reserved, within so many turns.
fn is_welcome(stream: &TcpStream) -> bool {
    for _ in 0..TURNS {
        if !is_sent(stream, b"HELLO 4096 65536\n") {
            return false;
        }
        if next_byte(stream) == Some(b'W') {
            return is_told(stream, "ELCOME 4096 65536\n");
        }
        if !is_told(stream, "RR 14\n") {
            return false;
        }
    }
    false
}

/// Whether the connection of this number asks its own two jobs.
fn has_asked(stream: &TcpStream, number: usize) -> bool {
    let (first, second) = (&JOBS[number % 4], &JOBS[number / 4 % 4]);
    is_answered(stream, ("HELLO 16 64\n", "WELCOME 16 64\n"))
        && is_answered(stream, (first.0, "JOB 1\n"))
        && is_answered(stream, (second.0, "JOB 2\n"))
}

/// Whether the session on this connection is told of its second job and its first.
fn is_told_of_its_own(stream: &TcpStream, number: usize) -> bool {
    let (first, second) = (&JOBS[number % 4], &JOBS[number / 4 % 4]);
    is_answered(stream, ("WAIT 2\n", second.2))
        && is_answered(stream, ("WAIT 1\n", first.1))
        && is_answered(stream, ("WAIT 3\n", "ERR 17\n"))
}

/// Whether each connection is told of its own jobs: all ask, and then each waits for its second job and its first.
fn are_told_of_their_own(streams: &[TcpStream]) -> bool {
    for (number, stream) in streams.iter().enumerate() {
        if !has_asked(stream, number) {
            return false;
        }
    }
    for (number, stream) in streams.iter().enumerate() {
        if !is_told_of_its_own(stream, number) {
            return false;
        }
    }
    true
}

/// Whether a session whose connection is lost gives back what it had reserved.
fn is_given_back(mut streams: Vec<TcpStream>) -> bool {
    let (Some(lost), Some(kept)) = (streams.pop(), streams.pop()) else {
        return false;
    };
    let told = is_answered(&lost, (LONG_WAIT, "WELCOME 4096 65536\n"));
    drop(lost);
    told && is_welcome(&kept)
}

/// What is tried at a server.
#[derive(Clone, Copy)]
enum Trial {
    /// These come to a server of so many sessions and workers.
    Attended(Visit, u16, u8),
    /// The server's workers can't have threads, where it can say that it has begun; or it can't.
    Unserved(bool),
    /// Its sessions can't have threads.
    Threadless,
    /// Its workers can't have threads: who takes its own connection knows that it has stopped.
    Stopped,
    /// Its listener fails.
    Hasty,
    /// Its connections are looked at.
    Prompt,
    /// Its listener has no address.
    Unnamed,
}

/// Whether the server does as it should in this trial, at this desk and with this listener.
fn is_tried<L: DeskLedger + Send + Sync, R>(
    rt: &R,
    desk: Desk<L>,
    listener: TcpListener,
    trial: Trial,
) -> bool
where
    R: Net<Listener = TcpListener, Stream = TcpStream> + Host + Clock + CpuClock + Sync,
    requires { L.all ≡ L.parts }
{
    match trial {
        Trial::Attended(visit, sessions, workers) => {
            doors::is_attended(rt, desk, listener, visit, server_of(sessions, workers))
        }
        Trial::Unserved(works) => is_unserved(rt, desk, listener, works),
        Trial::Threadless => is_threadless(rt, desk, listener),
        Trial::Stopped => doors::is_stopped(rt, desk, listener),
        Trial::Hasty => failing::is_hasty(rt, desk, listener),
        Trial::Prompt => looked_at::is_prompt(rt, desk, listener),
        Trial::Unnamed => looked_at::is_unnamed(rt, desk, listener),
    }
}

/// Whether the server does as it should in this trial, at a new desk over this hall and with a listener of its own.
fn is_well_at<L: DeskLedger + Send + Sync, R>(
    rt: &R,
    hall: Hall,
    blank: Blank,
    opened: Opened<Step<Jamboree>>,
    trial: Trial,
) -> bool
where
    R: Net<Listener = TcpListener, Stream = TcpStream> + Host + Clock + CpuClock + Sync,
    requires name { blank.name ≡ L.name }
    requires parts { (blank.parts ≡ L.parts) × (L.all ≡ L.parts) × (L.all ≡ PARTS) }
    requires history { opened ≡ L.table }
    requires begun { hall ≡ L.begun }
{
    let desk: Desk<L> = Desk::new(hall, blank, opened);
    is_tried(rt, desk, listener_of(rt), trial)
}

/// Whether the server does as it should in this trial, at a new hall of this grain.
fn is_well<R>(rt: &R, grain: u8, trial: Trial) -> bool
where
    R: Net<Listener = TcpListener, Stream = TcpStream> + Host + Clock + CpuClock + Sync,
{
    let config = Config::new(4096, 65536).expect(rt, "totals");
    let hall = Hall::new(rt.alloc(), config, grain.min(6)).expect(rt, "a hall");
    let opened = Opened::new(rt.alloc()).expect(rt, "a history");
    is_well_at::<Brand, R>(rt, hall, Blank::new(PARTS), opened, trial)
}

/// A new listener on a free port of 127.0.0.1.
fn listener_of<R: Net<Listener = TcpListener, Stream = TcpStream> + Abort>(rt: &R) -> TcpListener {
    TcpListener::bind(rt, "127.0.0.1:0").expect(rt, "a listener")
}

/// The address at which a listener listens.
fn address_of(rt: &impl Abort, listener: &TcpListener) -> SocketAddr {
    listener.local_addr().expect(rt, "an address")
}

/// A server for so many sessions with so many workers, of which there is one at least and 32 at most.
fn server_of(sessions: u16, workers: u8) -> ServerConfig {
    ServerConfig::new(sessions, Worker::new(workers.clamp(1, 32)).unwrap())
}

/// A connection that answers within ten seconds or fails; None where nobody listens.
fn come<R: Net<Stream = TcpStream>>(rt: &R, address: SocketAddr) -> Option<TcpStream> {
    let stream = TcpStream::connect(rt, address).ok()?;
    let ten_seconds = Some(Duration::from_secs(10));
    stream.set_read_timeout(ten_seconds).ok()?;
    Some(stream)
}

/// A connection to a server that listens, on which a read that takes longer than ten seconds fails.
fn visitor<R: Net<Stream = TcpStream> + Abort>(rt: &R, address: SocketAddr) -> TcpStream {
    come(rt, address).expect(rt, "a connection")
}

/// So many connections to a server that listens.
fn visitors<R: Net<Stream = TcpStream> + Host>(
    rt: &R,
    address: SocketAddr,
    many: u16,
) -> Vec<TcpStream> {
    let mut streams = Vec::new(rt.alloc());
    for _ in 0..many {
        holds(rt, streams.push(visitor(rt, address)).is_ok());
    }
    streams
}

/// Whether a server has ended well, what passed in so many sessions was left, each of which is a part of the desk's history, and all
/// steps are accounted for.
fn is_whole<L: DeskLedger>(
    desk: Desk<L>,
    served: Result<Served<L>, ServeFault>,
    many: usize,
) -> bool
    requires { L.all ≡ L.parts }
{
    let Ok(Served { end, sessions }) = served else {
        return false;
    };
    let (_hall, whole, mut history) = desk.into_hall_seen(end.badge);
    let sessions = show_all(&mut history, sessions);
    whole.is_some() && sessions.len() == many
}

/// The fault with which a server ends that is started so; None where it ends well.
fn fault_of<L: DeskLedger + Send + Sync, R: Net + Threads + Wait + Sync, N>(
    rt: &R,
    alloc: Global,
    desk: &Desk<L>,
    listener: N,
    server: ServerConfig,
) -> Option<ServeFault>
where
    N: OpenListener<Stream = TcpStream> + Drop + Send,
    requires { L.all ≡ L.parts }
{
    serve(rt, alloc, desk, listener, server, &OpenGate).err()
}

/// Whether who comes to a server of this grain is answered as they should be, and all steps are accounted for at the end.
fn is_content<R>(rt: &R, grain: u8, visit: Visit, sessions: u16, workers: u8) -> bool
where
    R: Net<Listener = TcpListener, Stream = TcpStream> + Host + Clock + CpuClock + Sync,
{
    is_well(rt, grain, Trial::Attended(visit, sessions, workers))
}

/// Two sessions at once, of 2 that the server serves, by 2 workers, are each told what they would be told alone.
#[test]
fn two_at_once_are_served_as_each_alone(rt: HostRuntime) {
    holds(&rt, is_content(&rt, 0, Visit::Both, 2, 2));
}

/// Of 2 sessions that the server serves, by 2 workers, one loses its connection while it waits: it gives back all that
/// it had reserved.
#[test]
fn a_lost_connection_gives_all_back(rt: HostRuntime) {
    holds(&rt, is_content(&rt, 0, Visit::Lost, 2, 2));
}

/// Sixty-four TCP sessions at once, by 2 workers, at grain 0, are each told of their own jobs.
#[test]
fn sixty_four_are_told_of_their_own(rt: HostRuntime) {
    holds(&rt, is_content(&rt, 0, Visit::Many, 64, 2));
}

/// Counts how often it is said that a server has begun.
#[derive(Drop)]
struct Counted<'a> {
    /// How often it was.
    count: &'a AtomicU32,
    /// Whether it can be said.
    works: bool,
}

impl Announce for Counted<'_> {
    ghost says = { λ _ _ _. Unit {0} };

    /// Counts that the pool has begun, and says whether it may go on.
    fn announce(&mut self) -> bool {
        self.count.fetch_add(1, Ordering::SeqCst);
        self.works
    }
}

/// Whether a server at whose desk nobody sits fails, and its listener is closed: its workers have no threads, where it can say that it
/// has begun; or it can't.
fn is_unserved<L: DeskLedger + Send + Sync, R>(
    rt: &R,
    desk: Desk<L>,
    listener: TcpListener,
    works: bool,
) -> bool
where
    R: Net<Listener = TcpListener, Stream = TcpStream> + Host + Sync,
    requires { L.all ≡ L.parts }
{
    let address = address_of(rt, &listener);
    let mut server = server_of(2, 2);
    server.pool.stack = if works { Some(usize::MAX) } else { None };
    let count = AtomicU32::new(0);
    let call = Counted {
        count: &count,
        works,
    };
    let served = serve_announced(rt, rt.alloc(), &desk, listener, server, &OpenGate, call);
    let said = count.load(Ordering::SeqCst);
    let is_so = is_said_so(works, &served.err(), said);
    is_so && TcpStream::connect(rt, address).is_err()
}

/// Whether a server whose beginning can be said had no thread for its workers, and said nothing; and one whose beginning
/// can't be said tried it once.
fn is_said_so(works: bool, fault: &Option<ServeFault>, said: u32) -> bool {
    match fault {
        Some(ServeFault::NoThread) => works && said == 0,
        Some(ServeFault::Unsaid) => !works && said == 1,
        _ => false,
    }
}

/// A server whose pool can't begin announces nothing, and its listener is closed.
#[test]
fn nothing_is_said_where_the_pool_cannot_begin(rt: HostRuntime) {
    holds(&rt, is_well(&rt, 0, Trial::Unserved(true)));
}

/// A server whose beginning can't be announced ends: it was tried once, and the listener is closed.
#[test]
fn a_beginning_that_cannot_be_said_ends_the_server(rt: HostRuntime) {
    holds(&rt, is_well(&rt, 0, Trial::Unserved(false)));
}

/// Whether both clients of a server of two sessions that can't have a thread for either are let go.
fn is_threadless<L: DeskLedger + Send + Sync, R>(
    rt: &R,
    desk: Desk<L>,
    listener: TcpListener,
) -> bool
where
    R: Net<Listener = TcpListener, Stream = TcpStream> + Host + Sync,
    requires { L.all ≡ L.parts }
{
    let streams = visitors(rt, address_of(rt, &listener), 2);
    let mut server = server_of(2, 2);
    server.sessions.stack = Some(usize::MAX);
    let fault = fault_of(rt, rt.alloc(), &desk, listener, server);
    fault.is_none() && are_closed(&streams)
}

/// Whether the server has closed each of these connections without a word.
fn are_closed(streams: &[TcpStream]) -> bool {
    for stream in streams {
        if !is_closed(stream) {
            return false;
        }
    }
    true
}

/// A connection for which no thread can be started is closed, and counts as one that was served.
#[test]
fn a_connection_without_a_thread_is_closed_and_counts(rt: HostRuntime) {
    holds(&rt, is_well(&rt, 0, Trial::Threadless));
}
