//! Tests of a server's listeners that fail: by want of descriptors, for which there is a spare one, or of memory, or
//! otherwise, which ends the server.
ghost use Rattle.std.specs.Prelude.{◌≡◌};

use super::doors::is_not_yet;
use super::{
    Host, Trial, address_of, fault_of, holds, is_closed, is_sent, is_well, listener_of, server_of,
    visitor,
};
use crate::tests::says;
use std::alloc::Global;
use std::io::{self, Error, ErrorKind};
use std::net::{Net, OpenListener, SocketAddr, TcpListener, TcpStream};
use std::sync::atomic::{AtomicU64, Ordering};
use tcp_server::ServeFault;
use tcp_server::desk::{Desk, DeskLedger};
use tcp_server::steal_pool::{BeginFault, PoolFault};
use tcp_server::tcp_door::Door;

/// A listener of which some tries to take a connection, and some to have a second name, fail.
#[derive(Drop)]
struct Failing {
    listener: TcpListener,
    /// The system's number of the error.
    code: i32,
    /// Which tries to take a connection fail: the next one where the last bit is set, and so on.
    tries: AtomicU64,
    /// Which tries to have a second name fail.
    names: AtomicU64,
}

/// Whether the last of these bits is set, which is taken off.
fn takes_bit(bits: &AtomicU64) -> bool {
    let all = bits.load(Ordering::SeqCst);
    bits.store(all / 2, Ordering::SeqCst);
    all % 2 == 1
}

/// A listener whose tries to take a connection, or to be named twice, fail by this error so often.
fn failing_by(listener: TcpListener, code: i32, tries: u64, names: u64) -> Failing {
    Failing {
        listener,
        code,
        tries: AtomicU64::new(tries),
        names: AtomicU64::new(names),
    }
}

impl OpenListener for Failing {
    type Stream = TcpStream;

    /// Takes a connection, or fails by the error while tries of that are left.
    fn accept(&self) -> io::Result<(TcpStream, SocketAddr)> {
        if takes_bit(&self.tries) {
            return Err(Error::from_raw_os_error(self.code));
        }
        self.listener.accept()
    }

    /// A second name of the listener, or a failure while tries of that are left.
    fn try_clone(&self) -> io::Result<Failing> {
        if takes_bit(&self.names) {
            return Err(Error::from(ErrorKind::Unsupported));
        }
        Ok(failing_by(self.listener.try_clone()?, self.code, 0, 0))
    }
}

/// The system's number of an error, which tries fail by it, whether there is a spare descriptor, and how the door fails, or
/// doesn't.
type Try = (i32, u64, bool, Option<i32>);

/// Where the process (24) or the system (23) has no descriptor left, the spare one is used; without a spare, and where there is no
/// memory (12, 105), the door waits and goes on. By any other error the listener has failed.
const TRIES: [Try; 10] = [
    (24, 0b1, true, None),
    (23, 0b1, true, None),
    (24, 0b111, true, None),
    (23, 0b111, true, None),
    (24, 0b11111, false, None),
    (23, 0b11111, false, None),
    (12, 0b11, true, None),
    (105, 0b11, false, None),
    (22, 0b1, true, Some(22)),
    (9, 0b1, true, Some(9)),
];

/// A connection that was lost (103) before it could be taken is passed over, and so is an interruption (4).
const LOST: [Try; 2] = [(103, 0b11, false, None), (4, 0b11, false, None)];

/// The next connection that comes through the server's door.
fn next_of<R: Host>(rt: &R, door: &mut Door<Failing>) -> io::Result<Option<TcpStream>> {
    door.next(rt)
}

/// Whether a door takes the connection of somebody who came, or fails by this error.
fn takes<R: Host>(rt: &R, mut door: Door<Failing>, one: &TcpStream, error: Option<i32>) -> bool {
    match next_of(rt, &mut door) {
        Ok(Some(taken)) => error.is_none() && is_sent(&taken, b"?") && !is_closed(one),
        Ok(None) => false,
        Err(failed) => error.is_some() && failed.raw_os_error() == error,
    }
}

/// Whether a door whose tries fail so takes the connection of somebody who came, or fails, as it should.
fn is_as_tried<R>(rt: &R, tried: &Try) -> bool
where
    R: Net<Listener = TcpListener, Stream = TcpStream> + Host + Sync,
{
    let (code, tries, has_spare, error) = *tried;
    let listener = listener_of(rt);
    let one = visitor(rt, address_of(rt, &listener));
    let names = if has_spare { 0 } else { u64::MAX };
    let door = Door::new(failing_by(listener, code, tries, names));
    takes(rt, door, &one, error)
}

/// For each error of `accept`, by number: the server uses its spare descriptor, waits and goes on, or ends.
#[test]
fn each_error_of_a_listener(rt: HostRuntime) {
    for tried in &TRIES {
        assert!(rt; is_as_tried(&rt, tried), "error {}", tried.0);
    }
}

/// Connections that are lost before they are taken are passed over.
#[test]
fn lost_connections_are_passed_over(rt: HostRuntime) {
    for tried in &LOST {
        assert!(rt; is_as_tried(&rt, tried), "error {}", tried.0);
    }
}

/// Whether of two who come through a door whose tries fail so the first is turned away, as there is no other spare descriptor, and the
/// second is taken.
fn is_second_taken<R>(rt: &R, tries: u64, names: u64) -> bool
where
    R: Net<Listener = TcpListener, Stream = TcpStream> + Host + Sync,
{
    let listener = listener_of(rt);
    let address = address_of(rt, &listener);
    let first = visitor(rt, address);
    let _second = visitor(rt, address);
    let mut door = Door::new(failing_by(listener, 24, tries, names));
    matches!(next_of(rt, &mut door), Ok(None))
        && is_closed(&first)
        && matches!(next_of(rt, &mut door), Ok(Some(_)))
}

/// A bit is set for each try that fails: of the tries to take a connection the first and the third (0b0101, from the
/// right) find no descriptor, and of the second names of the listener the second (0b10) can't be had. The second client
/// is taken by the spare descriptor that was made anew when the first was closed.
#[test]
fn a_spare_descriptor_is_had_again(rt: HostRuntime) {
    holds(&rt, is_second_taken(&rt, 0b0101, 0b10));
}

/// Bits say which tries fail (the first three, the one with the spare descriptor too, as another thread was quicker)
/// and which second name can't be had (the third): the client is taken by a spare descriptor that was made anew then.
#[test]
fn a_spare_descriptor_is_had_after_a_failure(rt: HostRuntime) {
    holds(&rt, is_second_taken(&rt, 0b111, 0b100));
}

/// Bits say which tries fail (the first two) and which second names can't be had (the first and the third): there is no
/// spare descriptor at first, and the client is taken by one that was made while the door waited.
#[test]
fn a_spare_descriptor_is_had_in_need(rt: HostRuntime) {
    holds(&rt, is_second_taken(&rt, 0b11, 0b101));
}

/// Whether a server whose listener doesn't wait for connections fails, and its desk is closed then.
pub(super) fn is_hasty<L: DeskLedger + Send + Sync, R>(
    rt: &R,
    desk: Desk<L>,
    listener: TcpListener,
) -> bool
where
    R: Net<Listener = TcpListener, Stream = TcpStream> + Host + Sync,
    requires { L.all ≡ L.parts }
{
    let is_set = listener.set_nonblocking(true).is_ok();
    let fault = fault_of(rt, rt.alloc(), &desk, listener, server_of(2, 2));
    let is_failed = would_block(&fault);
    let is_closed = desk.next_ready(rt).is_none();
    is_set && is_failed && is_closed
}

/// Whether a server has failed since no connection was there yet.
fn would_block(fault: &Option<ServeFault>) -> bool {
    match fault {
        Some(ServeFault::Listener(error)) => is_not_yet(error),
        _ => false,
    }
}

/// A server whose listener fails ends: its desk is closed, so that its workers end too.
#[test]
fn a_listener_that_fails_ends_the_server(rt: HostRuntime) {
    holds(&rt, is_well(&rt, 0, Trial::Hasty));
}

/// Whether what the program says of a fault begins with this text.
fn begins(alloc: Global, fault: ServeFault, text: &str) -> bool {
    matches!(format!(in alloc; "{fault}"), Ok(told) if told.as_str().starts_with(text))
}

/// What a server says of each of its faults, and which fault of a pool is which of a server.
#[test]
fn faults_of_a_server_are_told(rt: HostRuntime) {
    let alloc = rt.alloc();
    let failed = ServeFault::Listener(Error::from(ErrorKind::Interrupted));
    let no_memory = ServeFault::from(PoolFault::OutOfMemory);
    let no_thread = ServeFault::from(BeginFault::Pool(PoolFault::NoThread));
    let unsaid = ServeFault::from(BeginFault::Unsaid);
    holds(&rt, begins(alloc, failed, "no connection could be taken: "));
    holds(&rt, says(alloc, no_memory, "no memory for the workers"));
    holds(&rt, says(alloc, no_thread, "no thread for a worker"));
    let said = "what is said at the beginning could not be said";
    holds(&rt, says(alloc, unsaid, said));
}
