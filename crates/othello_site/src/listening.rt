//! A site's connections taken, each in a thread of its own.
ghost use Rattle.std.specs.Prelude.{IfSome};
ghost use Rattle.std.specs.Net.Tcp.{stream_raw_fd};
ghost use Rattle.othello_site.specs.Connections.{IsSiteSessionOn};

use crate::client::{SitePassed, serve_client};
use crate::counts::{DESCRIPTOR, FULL, THREAD};
use crate::ending::Why;
use crate::shared::Shared;
use crate::telling::{log_refusal, log_shortage};
use site_desk::SiteNaming;
use site_file::Address;
use site_rules::Port;
use std::alloc::Global;
use std::io;
use std::net::{Net, SocketAddr, TcpListener, TcpStream};
use std::sync::Wait;
use std::thread::{Builder, Scope, Threads};
use std::time::Clock;
use tcp_server::tcp_door::Door;

/// The stack of a session's thread.
const STACK: usize = 256 << 10;

/// Serves this connection in a thread of its own. Where there are too many, or no thread can be had, it is closed. What passes on the
/// connection is a session in its desk's history (`serve_client`).
fn start<'s, J: SiteNaming + Send + Sync, E, R>(
    scope: &'s Scope<'s, E>,
    rt: &'s R,
    alloc: Global,
    shared: &'s Shared<J>,
    stream: TcpStream,
    port: Port,
)
where
    R: Threads + Wait + Clock + Sync,
{
    let peer = stream.peer_addr();
    let has_come = shared.register(rt).come();
    if !has_come {
        turn_away(rt, alloc, shared, peer, FULL);
        return;
    }
    let started = Builder::new().stack_size(STACK).spawn_scoped(
        scope,
        move || -> Option<SitePassed<J>>
            ensures { IfSome result (λ passed. IsSiteSessionOn J.begun port (stream_raw_fd stream) passed.read passed.written passed.ended passed.knew) }
        {
            let passed = serve_client(rt, alloc, shared, stream, port);
            shared.register(rt).go();
            passed
        },
    );
    if started.is_err() {
        shared.register(rt).go();
        turn_away(rt, alloc, shared, peer, THREAD);
    }
}

/// Counts a connection that was closed at once, and says it.
fn turn_away<J: SiteNaming, R: Clock + Wait>(
    rt: &R,
    alloc: Global,
    shared: &Shared<J>,
    peer: io::Result<SocketAddr>,
    place: usize,
) {
    shared.register(rt).counts.refuse(place);
    match peer {
        Ok(peer) => log_refusal(rt, alloc, shared, Address::of_ip(peer.ip()), None, place),
        Err(_) => log_shortage(rt, alloc, shared, place),
    }
}

/// Takes connections until the listener fails. A shortage of descriptors or of threads closes connections, which is counted and said, and
/// ends nothing.
pub(crate) fn take_all<'s, J: SiteNaming + Send + Sync, E, R>(
    scope: &'s Scope<'s, E>,
    rt: &'s R,
    alloc: Global,
    shared: &'s Shared<J>,
    listener: TcpListener,
    port: Port,
)
where
    R: Net<Listener = TcpListener, Stream = TcpStream> + Threads + Wait + Clock + Sync,
{
    let mut door = Door::new(listener);
    for _ in rt.forever() {
        match door.next(rt) {
            Ok(Some(stream)) => start(scope, rt, alloc, shared, stream, port),
            Ok(None) => {
                shared.register(rt).counts.refuse(DESCRIPTOR);
                log_shortage(rt, alloc, shared, DESCRIPTOR);
            }
            Err(error) => {
                shared.ending.tell(rt, Why::Deaf(error));
                return;
            }
        }
    }
}
