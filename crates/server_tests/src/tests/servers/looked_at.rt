//! For tests of servers whose listener is the test's own: one that keeps hold of a connection that it gave, and one
//! without an address.
ghost use Rattle.std.specs.Prelude.{◌≡◌};

use super::{
    ANSWERED, Host, LAST, Trial, address_of, are_answered, are_told_before_last, fault_of, holds,
    is_well, is_whole, server_of, visitor,
};
use std::io::{self, Error};
use std::net::{Net, OpenListener, SocketAddr, TcpListener, TcpStream};
use std::os::fd::{AsRawFd, RawFd};
use std::process::Abort;
use std::sync::{Mutex, Wait};
use std::thread::{self, Threads};
use tcp_server::desk::{Desk, DeskLedger};
use tcp_server::steal_pool::OpenGate;
use tcp_server::{ServeFault, serve};

/// A listener that keeps a second name of the connection that it gave last.
#[derive(Drop)]
struct Keeping<'k> {
    listener: TcpListener,
    last: &'k Mutex<Option<TcpStream>>,
}

impl OpenListener for Keeping<'_> {
    type Stream = TcpStream;

    /// Takes a connection, and keeps a second name of it.
    fn accept(&self) -> io::Result<(TcpStream, SocketAddr)> {
        let (stream, address) = self.listener.accept()?;
        if let Some(mut last) = self.last.try_lock() {
            *last = stream.try_clone().ok();
        }
        Ok((stream, address))
    }

    /// The address at which the listener is bound.
    fn local_addr(&self) -> io::Result<SocketAddr> {
        self.listener.local_addr()
    }
}

/// Whether the connection that was kept has no delay. It is forgotten then, so that it can be closed.
fn has_no_delay(last: &Mutex<Option<TcpStream>>) -> bool {
    let Some(mut kept) = last.try_lock() else {
        return false;
    };
    match kept.take() {
        Some(stream) => matches!(stream.nodelay(), Ok(true)),
        None => false,
    }
}

/// Whether somebody is answered over a connection that has no delay at the server's end.
fn is_answered_at_once<R: Net<Stream = TcpStream> + Abort>(
    rt: &R,
    address: SocketAddr,
    last: &Mutex<Option<TcpStream>>,
) -> bool {
    let stream = visitor(rt, address);
    are_told_before_last(&stream, &ANSWERED) && has_no_delay(last) && are_answered(&stream, &[LAST])
}

/// Whether a server answers without a delay.
pub(super) fn is_prompt<L: DeskLedger + Send + Sync, R>(
    rt: &R,
    desk: Desk<L>,
    listener: TcpListener,
) -> bool
where
    R: Net<Listener = TcpListener, Stream = TcpStream> + Host + Sync,
    requires { L.all ≡ L.parts }
{
    let address = address_of(rt, &listener);
    let kept = Mutex::new(None);
    let last = &kept;
    let keeping = Keeping { listener, last };
    let (prompt, served) = thread::join(
        rt,
        move || is_answered_at_once(rt, address, last),
        ||
            requires { L.all ≡ L.parts }
        { serve(rt, rt.alloc(), &desk, keeping, server_of(1, 1), &OpenGate) },
    );
    prompt && is_whole(desk, served, 1)
}

/// Nagle's delay is switched off, so that an answer never waits until its peer has acknowledged the one before.
#[test]
fn an_answer_waits_for_no_acknowledgement(rt: HostRuntime) {
    holds(&rt, is_well(&rt, 0, Trial::Prompt));
}

/// The system's number of an error: no buffer space.
const NO_SPACE: i32 = 105;

/// The error of a listener whose address can't be had.
pub(super) fn no_address() -> Error {
    Error::from_raw_os_error(NO_SPACE)
}

/// A listener whose address can't be had.
#[derive(Drop)]
pub(super) struct Unnamed {
    pub(super) listener: TcpListener,
}

impl AsRawFd for Unnamed {
    /// The number of the listener's descriptor.
    fn as_raw_fd(&self) -> RawFd {
        self.listener.as_raw_fd()
    }
}

impl OpenListener for Unnamed {
    type Stream = TcpStream;

    /// Takes a connection, as the listener does.
    fn accept(&self) -> io::Result<(TcpStream, SocketAddr)> {
        self.listener.accept()
    }

    /// Fails: this listener has no address.
    fn local_addr(&self) -> io::Result<SocketAddr> {
        Err(no_address())
    }
}

/// Whether a server has failed since its listener's address couldn't be had.
fn is_unnamed_fault(fault: &Option<ServeFault>) -> bool {
    match fault {
        Some(ServeFault::Listener(error)) => error.raw_os_error() == Some(NO_SPACE),
        _ => false,
    }
}

/// Whether a server whose listener's address can't be had fails by that error, and its desk is closed then.
pub(super) fn is_unnamed<L: DeskLedger + Send + Sync, R>(
    rt: &R,
    desk: Desk<L>,
    listener: TcpListener,
) -> bool
where
    R: Net<Listener = TcpListener, Stream = TcpStream> + Host + Sync,
    requires { L.all ≡ L.parts }
{
    let unnamed = Unnamed { listener };
    let fault = fault_of(rt, rt.alloc(), &desk, unnamed, server_of(2, 2));
    is_unnamed_fault(&fault) && desk.next_ready(rt).is_none()
}

/// A server whose listener's address can't be had ends: its desk is closed, so that nobody waits there.
#[test]
fn a_listener_without_an_address_ends_the_server(rt: HostRuntime) {
    holds(&rt, is_well(&rt, 0, Trial::Unnamed));
}

/// A runtime whose listeners' addresses can't be had.
#[derive(Drop)]
pub(super) struct Nameless<'r, R> {
    pub(super) rt: &'r R,
}

impl<R: Threads> Threads for Nameless<'_, R> {}

impl<R: Wait> Wait for Nameless<'_, R> {}

impl<R: Net<Listener = TcpListener, Stream = TcpStream>> Net for Nameless<'_, R> {
    type Stream = TcpStream;

    type Listener = Unnamed;

    /// Binds a listener that will tell no address.
    fn bind(&self, address: SocketAddr) -> io::Result<Unnamed> {
        let listener = self.rt.bind(address)?;
        Ok(Unnamed { listener })
    }

    /// Connects, as the runtime does.
    fn connect(&self, address: SocketAddr) -> io::Result<TcpStream> {
        self.rt.connect(address)
    }
}
