//! Where a TCP server takes connections, one after another.
//!
//! A process has so many file descriptors and no more. A door keeps a spare one, a second name of its listener: where
//! no descriptor is left, the spare is given up and the next connection is taken with it. If a descriptor has become
//! free by then it is the new spare, and the connection is served; else the connection is closed at once, and the spare
//! is made anew. So a client that can't be served sees its connection closed, those after it are taken as ever, and
//! the sessions that are there go on. Meanwhile the door waits in the system, and uses no processor. Where another thread
//! was quicker and has the spare descriptor, or the system has no memory for a connection, the door tries again a hundred times a
//! second: a shortage never ends it.
//!
//! What it is for: each program that takes connections, `othello serve` and `othello_site`, keeps one. A [`Door`] stands for a listener
//! and perhaps a spare name of it; it is generic in the listener, so that a test can hand it one whose connections are lost.
//! What a listener gives no clause can say; what its errors mean is a definition (`specs/Accepts.antt`): one that concerns a call or
//! a connection alone is never returned, and none that says that something is short. The tests of `server_tests` play the rest.
//!
//! ```text
//! let mut door = Door::new(listener);
//! door.next(rt)?      // Some(stream), or None: one was closed at once, as there was no descriptor for it
//! ```

ghost use Rattle.std.specs.Prelude.{◌≡◌, IfErr, false};
ghost use Rattle.std.specs.IoError.{error_kind, raw_os_error};
ghost use Rattle.tcp_server.specs.tcp_door.Accepts.{is_out_of_descriptors, is_out_of_memory, is_shortage, is_passing};

use std::io::{self, ErrorKind};
use std::net::OpenListener;
use std::sync::Wait;
use std::sync::atomic::AtomicU64;
use std::time::Duration;

/// `accept` found no descriptor left in the process (Linux's EMFILE).
const PROCESS_IS_FULL: i32 = 24;

/// `accept` found no descriptor left in the system (Linux's ENFILE).
const SYSTEM_IS_FULL: i32 = 23;

/// `accept` found no memory for a connection (Linux's ENOMEM).
const NO_MEMORY: i32 = 12;

/// `accept` found no memory for a connection's buffers (Linux's ENOBUFS).
const NO_BUFFERS: i32 = 105;

/// Milliseconds between two tries while something is short.
const PAUSE_MILLIS: u64 = 10;

/// A listener and a spare descriptor, with which a connection can be taken where no other descriptor is left.
#[derive(Drop)]
pub struct Door<N> {
    listener: N,
    /// A second name of the listener; `None` where no descriptor was left for one.
    spare: Option<N>,
}

impl<N: OpenListener + Drop> Door<N> {
    /// A door for this listener, with a spare descriptor if the system gives one.
    pub fn new(listener: N) -> Door<N> {
        let spare = listener.try_clone().ok();
        Door { listener, spare }
    }

    /// Waits for the next connection. `None`: one was taken and closed at once, as no descriptor was left to serve it.
    /// A connection that was lost before it could be taken is passed over. While there is no descriptor and no spare one, or no
    /// memory for a connection, it waits. `Err`: `accept` failed otherwise.
    pub fn next<R: Wait>(&mut self, rt: &R) -> io::Result<Option<N::Stream>>
        ensures passing { IfErr result (λ error. is_passing (error_kind error) ≡ false) }
        ensures short { IfErr result (λ error. is_shortage (raw_os_error error) ≡ false) }
    {
        for _ in rt.forever() {
            match self.listener.accept() {
                Ok((stream, _)) => return Ok(Some(stream)),
                Err(error) if is_passing(error.kind()) => {}
                Err(error) if is_full(&error) => {
                    if let Some(taken) = self.take_in_need(rt) {
                        return Ok(taken);
                    }
                }
                Err(error) if is_out_of_memory(&error) => pause(rt),
                Err(error) => return Err(error),
            }
        }
        unreachable!()
    }

    /// Takes the next connection where no descriptor is left (`take_with_spare`); waits a little where there is no spare one, and
    /// makes it anew.
    fn take_in_need<R: Wait>(&mut self, rt: &R) -> Option<Option<N::Stream>> {
        if self.spare.is_none() {
            pause(rt);
            self.renew();
            return None;
        }
        self.take_with_spare()
    }

    /// Makes the spare descriptor anew, if one is free.
    fn renew(&mut self) {
        self.spare = self.listener.try_clone().ok();
    }

    /// Gives up the spare descriptor and takes the next connection with it. The outer `None`: no connection could be
    /// taken. The inner `None`: one was taken and closed at once (`with_spare`).
    fn take_with_spare(&mut self) -> Option<Option<N::Stream>> {
        self.spare = None;
        if let Ok((stream, _)) = self.listener.accept() {
            return Some(self.with_spare(stream));
        }
        self.renew();
        None
    }

    /// A connection that was taken with the spare descriptor, if another spare can be had; else it is closed, and
    /// `None`.
    fn with_spare(&mut self, stream: N::Stream) -> Option<N::Stream> {
        self.renew();
        if self.spare.is_some() {
            return Some(stream);
        }
        drop(stream);
        self.renew();
        None
    }
}

/// Whether an error of `accept` concerns this one call or connection alone, so that the listener can go on.
fn is_passing(kind: ErrorKind) -> bool
    ensures { result ≡ is_passing kind }
{
    kind == ErrorKind::ConnectionAborted || kind == ErrorKind::Interrupted
}

/// Whether `accept` found no descriptor left for a connection.
fn is_full(error: &io::Error) -> bool
    ensures { result ≡ is_out_of_descriptors (raw_os_error error.now) }
{
    matches!(error.raw_os_error(), Some(PROCESS_IS_FULL | SYSTEM_IS_FULL))
}

/// Whether `accept` found no memory for a connection.
fn is_out_of_memory(error: &io::Error) -> bool
    ensures { result ≡ is_out_of_memory (raw_os_error error.now) }
{
    matches!(error.raw_os_error(), Some(NO_MEMORY | NO_BUFFERS))
}

/// Waits until it is worth another try.
fn pause<R: Wait>(rt: &R) {
    let word = AtomicU64::new(0);
    word.park_timeout(rt, 0, Duration::from_millis(PAUSE_MILLIS));
}
