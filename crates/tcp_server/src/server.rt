//! The threads of a TCP server: the pool in one, and one for each connection.
ghost use Rattle.std.specs.Prelude.{◌≡◌, true, IfOk, None, Ok};
ghost use Rattle.std.specs.Net.Tcp.{stream_raw_fd};
ghost use Rattle.line_io.specs.Leads.{between};
ghost use Rattle.desk_office.specs.Answers.{SeenSession};
ghost use Rattle.steal_pool.specs.Ends.{AreTasksOf};
ghost use Rattle.tcp_server.specs.Connections.{IsSessionOn};
ghost use Rattle.tcp_server.specs.Tapes.{Hears, Sends};

use crate::faults::ServeFault;
use crate::passed::{Passed, Taped};
use crate::taped::{TapedSink, TapedSource};
use crate::tcp_door::Door;
use desk_office::serve_desk_seen;
use line_io::{Sink, Source};
use sched_rules::Worker;
use std::alloc::{AllocError, Global};
use std::io;
use std::net::{Net, OpenListener, SocketAddr, TcpStream};
use std::sync::atomic::{AtomicBool, Ordering};
use std::sync::{Mutex, Wait};
use std::thread::{self, Builder, Scope, Threads};
use steal_pool::desk::{Badge, Desk, DeskLedger};
use steal_pool::{Announce, BeginFault, Gate, PoolConfig, PoolEnd, Quiet, run_pool_announced};

/// What a server is given.
#[derive(Clone, Copy, Debug, PartialEq, Eq)]
pub struct ServerConfig {
    /// How many sessions it serves, and their stacks.
    pub sessions: Sessions,
    /// How many workers its pool has, and their stacks.
    pub pool: PoolConfig,
}

/// The sessions of a server.
#[derive(Clone, Copy, Debug, PartialEq, Eq)]
pub struct Sessions {
    /// How many connections it takes before it ends, those included for which no thread, descriptor or memory can be had.
    pub count: u16,
    /// The size of a session's stack in bytes; `None` for the usual size.
    pub stack: Option<usize>,
}

impl ServerConfig {
    /// A server of so many sessions, with the workers 1 to `workers`, and with stacks of the usual size.
    pub fn new(sessions: u16, workers: Worker) -> ServerConfig
        ensures sessions { result.sessions.count ≡ sessions }
        ensures workers { result.pool.workers ≡ workers }
        ensures session_stacks { result.sessions.stack ≡ None }
        ensures pool_stacks { result.pool.stack ≡ None }
    {
        ServerConfig {
            sessions: Sessions {
                count: sessions,
                stack: None,
            },
            pool: PoolConfig::new(workers),
        }
    }
}

/// What a server ends with.
#[derive(Drop)]
pub struct Served<L: DeskLedger> {
    /// What its pool ended with.
    pub end: PoolEnd<Badge<L>>,
    /// What passed on each connection, in the order in which the sessions ended: by its type a session in the desk's
    /// history. A connection isn't among them that was closed unserved, or for whose tapes there was no memory.
    pub sessions: Vec<Passed<L>>,
}

/// Takes as many connections as `config` has sessions and serves each in a thread of its own, while a pool of workers
/// runs. When all sessions have ended it closes the desk, waits for the workers, and returns what the pool ends with
/// and what passed on the connections.
///
/// At Ok so many connections were taken (each for which no thread, descriptor or memory could be had was closed, unserved), and
/// each tenant has left. At an error the sessions that were begun have ended too, and the desk is closed: `Listener`
/// where no more connections could be taken, or the listener's address couldn't be had; `OutOfMemory` where there was
/// no memory for the pool, or no room for what passes on so many connections; `NoThread` where no thread could be had for a
/// worker or for taking the connections, or no badge for a worker.
pub fn serve<
    L: DeskLedger + Send + Sync,
    G: Gate + Sync,
    R: Net + Threads + Wait + Sync,
    N: OpenListener<Stream = TcpStream> + Drop + Send,
>(
    rt: &R,
    alloc: Global,
    desk: &Desk<L>,
    listener: N,
    config: ServerConfig,
    gate: &G,
) -> Result<Served<L>, ServeFault>
    requires { L.all ≡ L.parts }
    ensures workers { IfOk result (λ served. served.end.workers ≡ config.pool.workers) }
    ensures tasks { IfOk result (λ served. AreTasksOf served.end.ends.value served.end.workers served.end.pushed served.end.taken) }
{
    match serve_announced(rt, alloc, desk, listener, config, gate, Quiet) {
        Ok((_quiet, served)) => Ok(served),
        Err(fault) => Err(fault),
    }
}

/// Serves as `serve` does, and calls `announce` of `call` in this thread once all workers of the pool were started;
/// where the pool can't begin it isn't called. Returns `call` too. Its faults are those of `serve`, and `Unsaid` where
/// `announce` returned false: then no more connections are taken.
pub fn serve_announced<
    L: DeskLedger + Send + Sync,
    G: Gate + Sync,
    R: Net + Threads + Wait + Sync,
    N: OpenListener<Stream = TcpStream> + Drop + Send,
    A: Announce + Drop,
>(
    rt: &R,
    alloc: Global,
    desk: &Desk<L>,
    listener: N,
    config: ServerConfig,
    gate: &G,
    call: A,
) -> Result<(A, Served<L>), ServeFault>
    requires { L.all ≡ L.parts }
    ensures said { IfOk result (λ served. A.says call true served.0) }
    ensures workers { IfOk result (λ served. served.1.end.workers ≡ config.pool.workers) }
    ensures tasks { IfOk result (λ served. AreTasksOf served.1.end.ends.value served.1.end.workers served.1.end.pushed served.1.end.taken) }
{
    let served = serve_beside(
        rt,
        alloc,
        desk,
        listener,
        config.sessions,
        move || -> Result<(A, PoolEnd<Badge<L>>), ServeFault>
            requires { L.all ≡ L.parts }
            ensures said { IfOk result (λ ended. A.says call true ended.0) }
            ensures workers { IfOk result (λ ended. ended.1.workers ≡ config.pool.workers) }
            ensures tasks { IfOk result (λ ended. AreTasksOf ended.1.ends.value ended.1.workers ended.1.pushed ended.1.taken) }
        { ended_as(run_pool_announced(rt, alloc, desk, config.pool, gate, call)) },
    );
    match served {
        Ok(((call, end), sessions)) => Ok((call, Served { end, sessions })),
        Err(fault) => Err(fault),
    }
}

/// The result of `run_pool_announced` as that of its part of `serve_announced`; at an error the announcer is dropped.
fn ended_as<A: Drop, L: DeskLedger>(
    came: (A, Result<PoolEnd<Badge<L>>, BeginFault>),
) -> Result<(A, PoolEnd<Badge<L>>), ServeFault>
    ensures call { IfOk result (λ served. came.0 ≡ served.0) }
    ensures end { IfOk result (λ served. came.1 ≡ Ok served.1) }
{
    let (call, ended) = came;
    match ended {
        Ok(end) => Ok((call, end)),
        Err(fault) => Err(ServeFault::from(fault)),
    }
}

/// Serves sessions as `serve` does, beside any pool: `pool` runs in this thread until the desk is closed, and its value
/// is returned when all sessions have ended, with what passed on the connections. If it couldn't run it closes the desk and
/// returns an error; no more connections are taken then. The other errors are `Listener`, which is returned in place of the
/// pool's result; and `NoThread` where the thread that takes the connections can't be had, and `OutOfMemory` where there is
/// no room for what passes on so many: then the desk is closed and `pool` isn't run.
fn serve_beside<
    L: DeskLedger + Send + Sync,
    R: Net + Threads + Wait + Sync,
    N: OpenListener<Stream = TcpStream> + Drop + Send,
    T: Drop,
    P: FnOnce() -> Result<T, ServeFault>,
>(
    rt: &R,
    alloc: Global,
    desk: &Desk<L>,
    listener: N,
    sessions: Sessions,
    pool: P,
) -> Result<(T, Vec<Passed<L>>), ServeFault>
    requires all { L.all ≡ L.parts }
    requires pool { P.pre pool }
    ensures { IfOk result (λ served. P.post pool (Ok served.0)) }
{
    let address = match listener.local_addr() {
        Ok(address) => address,
        Err(error) => return Err(closing(rt, desk, ServeFault::Listener(error))),
    };
    let Ok(room) = Vec::with_capacity(alloc, usize::from(sessions.count)) else {
        return Err(closing(rt, desk, ServeFault::OutOfMemory));
    };
    let given_up = AtomicBool::new(false);
    let stop = &given_up;
    thread::scope(
        thread::scope_env(),
        rt,
        |scope|
            requires all { L.all ≡ L.parts }
            requires pool { P.pre pool }
            ensures { IfOk result (λ served. P.post pool (Ok served.0)) }
        {
            let started = scope.spawn(
                move || -> io::Result<Vec<Passed<L>>>
                    requires { L.all ≡ L.parts }
                { serve_and_close(rt, alloc, desk, listener, sessions, stop, room) },
            );
            let Ok(taking) = started else {
                return Err(closing(rt, desk, ServeFault::NoThread));
            };
            let ended = pool();
            if ended.is_err() {
                wake(rt, address, stop);
            }
            ended_with(taking.join(rt), ended)
        },
    )
}

/// Closes the desk, since a server ends by this fault before its pool has begun.
fn closing<L: DeskLedger, R: Wait>(rt: &R, desk: &Desk<L>, fault: ServeFault) -> ServeFault {
    desk.close(rt);
    fault
}

/// Makes the thread that takes connections stop: sets the flag `stop`, and connects to the listener at this address, so
/// that a thread that waits for a connection looks at the flag.
fn wake<R: Net>(rt: &R, address: SocketAddr, stop: &AtomicBool) {
    stop.store(true, Ordering::SeqCst);
    let _ = rt.connect(address);
}

/// The result of a server, by how the taking of connections ended and by the pool's result: `Listener` where the first
/// failed, else the pool's result, with what passed on the connections.
fn ended_with<T: Drop, S: Drop>(
    taken: io::Result<S>,
    ended: Result<T, ServeFault>,
) -> Result<(T, S), ServeFault>
    ensures { IfOk result (λ served. (ended ≡ Ok served.0) × (taken ≡ Ok served.1)) }
{
    match (taken, ended) {
        (Ok(sessions), Ok(end)) => Ok((end, sessions)),
        (Ok(_), Err(fault)) => Err(fault),
        (Err(error), _) => Err(ServeFault::Listener(error)),
    }
}

/// Takes connections and serves them (`take_all`), waits until all their sessions have ended, and closes the desk. It
/// does so at an error of the listener too, which it returns at the end. Else it returns what passed on the connections,
/// for which there is `room`.
fn serve_and_close<
    L: DeskLedger + Send + Sync,
    R: Threads + Wait + Sync,
    N: OpenListener<Stream = TcpStream> + Drop,
>(
    rt: &R,
    alloc: Global,
    desk: &Desk<L>,
    listener: N,
    sessions: Sessions,
    stop: &AtomicBool,
    room: Vec<Passed<L>>,
) -> io::Result<Vec<Passed<L>>>
    requires { L.all ≡ L.parts }
{
    let all = Mutex::new(room);
    let passed = &all;
    let taken = thread::scope(
        thread::scope_env(),
        rt,
        |scope|
            requires { L.all ≡ L.parts }
        {
            let host = SessionHost {
                rt,
                alloc,
                desk,
                passed,
            };
            take_all(scope, &host, listener, sessions, stop)
        },
    );
    desk.close(rt);
    match taken {
        Ok(()) => Ok(all.into_inner()),
        Err(error) => Err(error),
    }
}

/// What all sessions of a server are served with.
///
/// What passed on a connection is left under a lock when its session ends, and not with the session's thread: that may keep its stack
/// until somebody joins it, and nobody does before the end of up to 65,535 sessions.
#[derive(Drop)]
struct SessionHost<'s, L: DeskLedger, R> {
    rt: &'s R,
    alloc: Global,
    desk: &'s Desk<L>,
    /// What passed on each connection whose session has ended, with room for all.
    passed: &'s Mutex<Vec<Passed<L>>>,
}

/// Takes so many connections, starts a session for each in a thread of `scope`, and closes the listener; it doesn't
/// wait for the sessions. A connection for which no thread, descriptor or memory can be had is closed, and counts as one of
/// them. Where `stop` is set when a connection was taken, that one is closed and no more are taken. `Err` where the
/// listener fails.
fn take_all<
    's,
    E,
    L: DeskLedger + Send + Sync,
    R: Wait + Sync,
    N: OpenListener<Stream = TcpStream> + Drop,
>(
    scope: &'s Scope<'s, E>,
    host: &SessionHost<'s, L, R>,
    listener: N,
    sessions: Sessions,
    stop: &AtomicBool,
) -> io::Result<()>
    requires { L.all ≡ L.parts }
{
    let mut door = Door::new(listener);
    for _ in 0..sessions.count {
        let taken = door.next(host.rt)?;
        if stop.load(Ordering::SeqCst) {
            break;
        }
        if let Some(stream) = taken {
            start(scope, host, sessions.stack, stream);
        }
    }
    Ok(())
}

/// Starts a session on this connection in a thread of its own, with a stack of this size, or of the usual one at
/// `None`. Where no thread can be had the connection is closed.
fn start<'s, E, L: DeskLedger + Send + Sync, R: Wait + Sync>(
    scope: &'s Scope<'s, E>,
    host: &SessionHost<'s, L, R>,
    stack: Option<usize>,
    stream: TcpStream,
)
    requires { L.all ≡ L.parts }
{
    let SessionHost {
        rt,
        alloc,
        desk,
        passed,
    } = *host;
    let thread = match stack {
        Some(size) => Builder::new().stack_size(size),
        None => Builder::new(),
    };
    let _ = thread.spawn_scoped(
        scope,
        move ||
            requires { L.all ≡ L.parts }
        { serve_one(rt, alloc, desk, passed, stream) },
    );
}

/// Serves one session on this connection (`converse`), closes it, and leaves what passed on it with that of the others. Nothing is
/// left where there was no memory for its tapes.
fn serve_one<L: DeskLedger, R: Wait>(
    rt: &R,
    alloc: Global,
    desk: &Desk<L>,
    passed: &Mutex<Vec<Passed<L>>>,
    stream: TcpStream,
)
    requires { L.all ≡ L.parts }
{
    let conversed = converse(rt, alloc, desk, &stream);
    drop(stream);
    if let Ok(one) = conversed {
        // There is room for all, so that this takes no memory.
        let _ = passed.lock(rt).push(one);
    }
}

/// Serves one session on a connection, up to a line BYE, the end of the input, or a failure of the connection. In each
/// case its tenant has left when it returns. Each answer is sent at once, without Nagle's delay.
///
/// What passed on the connection, by the tapes of all reads and writes there, is a session in the desk's history. An error means
/// that there was no memory for a tape: then nothing was read and nothing written.
pub fn converse<L: DeskLedger, R: Wait>(
    rt: &R,
    alloc: Global,
    desk: &Desk<L>,
    stream: &TcpStream,
) -> Result<Passed<L>, AllocError>
    requires { L.all ≡ L.parts }
    ensures { IfOk result (λ passed. IsSessionOn L.begun (stream_raw_fd stream.now) passed.read passed.written passed.ended passed.knew) }
{
    let _ = stream.set_nodelay(true);
    let source = TapedSource::of_socket(alloc, stream)?;
    let sink = TapedSink::of_socket(alloc, stream)?;
    Ok(Passed::of(serve_taped(rt, desk, source, sink)))
}

/// Serves one session over a source and a sink with tapes. It can reach them by their tapes alone, so each read and each write is
/// on these: a session in the desk's history leads from what they were to what they are.
pub fn serve_taped<L: DeskLedger, R: Wait, S: Source + Drop, K: Sink + Drop>(
    rt: &R,
    desk: &Desk<L>,
    mut source: TapedSource<S>,
    mut sink: TapedSink<K>,
) -> Taped<L>
    requires { L.all ≡ L.parts }
    ensures { SeenSession L.begun (between Hears source.tape result.read) (between Sends sink.tape result.written) result.ended result.knew }
{
    let (ended, knew) = serve_desk_seen(rt, &mut source, &mut sink, desk);
    Taped {
        read: source.into_tape(),
        written: sink.into_tape(),
        ended,
        knew,
    }
}
