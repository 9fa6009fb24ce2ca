//! A socket with tapes, for a caller who sees each call's error, and says how long a call may wait.
//!
//! A [`TapedReader`] reads a socket ahead and keeps what came until it is given; a [`TapedWriter`] writes to one. Neither hands its
//! socket out, so who has them alone moves no byte that isn't on their tapes.
//!
//! ```text
//! let mut reader = TapedReader::of_socket(alloc, &stream)?;      // ahead: nothing;      tape: []
//! reader.read()?;                                                // ahead: 1, 2, 3       tape: Some [1, 2, 3]
//! reader.give(&mut block[..2]);                                  // ahead: 3             tape: the same
//! ```
ghost use Rattle.std.specs.Prelude.{◌≡◌, ◌≤◌, ◌+◌, ℕ, List, ◌++◌, length, take, drop, slice_range, min, Some, None, IfOk, OnErr};
ghost use Rattle.std.specs.Net.Tcp.{stream_raw_fd};
ghost use Rattle.tcp_server.specs.Tapes.{blank_tape, taped, unread};

use super::{ClosedTape, Tape};
use std::alloc::{AllocError, Global};
use std::io::{self, Read, Write};
use std::marker::Model;
use std::net::TcpStream;
use std::time::Duration;

/// The most bytes of a socket that are kept which have come and weren't given yet.
pub const MOST_AHEAD: usize = 4_096;

/// What comes on a socket: the bytes that have come and weren't given yet, and the tape of its reads. Contracts see both.
#[derive(Drop)]
pub struct TapedReader<'s> {
    socket: &'s TcpStream,
    tape: Tape,
    block: [u8; MOST_AHEAD],
    /// Where in the block the bytes begin that have come and weren't given yet.
    start: usize,
    /// Where these end.
    end: usize,
}

impl<'s> Model for TapedReader<'s> {
    ghost use Rattle.std.specs.Prelude.{◌≤◌, take, drop};
    ghost use Rattle.tcp_server.specs.Tapes.{AheadOf};

    ghost Value = { AheadOf };

    ghost view = { λ r. record { ahead = drop r.start (take r.end r.block); tape = r.tape } };

    ghost invariant = { λ r. (r.start ≤ r.end) × (r.end ≤ 4096) };
}

impl<'s> TapedReader<'s> {
    /// A socket of which nothing has been read. An error means that there was no memory for its tape.
    pub fn of_socket(alloc: Global, socket: &'s TcpStream) -> Result<Self, AllocError>
        ensures { IfOk result (λ reader. reader ≡ unread (stream_raw_fd socket.now)) }
    {
        let tape = Tape::new(alloc, socket)?;
        Ok(TapedReader {
            socket,
            tape,
            block: [0; MOST_AHEAD],
            start: 0,
            end: 0,
        })
    }

    /// Says how long a read may wait for bytes before it gives `ErrorKind::WouldBlock`.
    pub fn set_timeout(&self, limit: Duration) -> io::Result<()> {
        self.socket.set_read_timeout(Some(limit))
    }

    /// The bytes that have come and weren't given yet.
    pub fn bytes(&self) -> &[u8]
        ensures { result.now ≡ self.now.ahead }
    {
        &self.block[self.start..self.end]
    }

    /// Where no byte is kept, begins the block anew.
    fn begin_anew(&mut self)
        ensures { self.new ≡ self.old }
    {
        if self.start == self.end {
            self.start = 0;
            self.end = 0;
        }
    }

    /// Makes one read of the socket and keeps what came. Returns how many bytes these are: 0 where the input has ended, and where
    /// there is no room for more. An error is that of the call, by which nothing came.
    pub fn read(&mut self) -> io::Result<usize>
        ensures came { IfOk result (λ n. (bytes : List ℕ) × (length bytes ≡ n) × (self.new ≡ record { ahead = self.old.ahead ++ bytes; tape = taped (Some bytes) self.old.tape })) }
        ensures failed { OnErr result (self.new ≡ record { ahead = self.old.ahead; tape = taped None self.old.tape }) }
    {
        self.begin_anew();
        let TapedReader {
            socket,
            tape,
            block,
            start: _,
            end,
        } = self;
        match read_taped(socket, tape, block, *end) {
            Ok(count) => {
                *end += count;
                Ok(count)
            }
            Err(error) => Err(error),
        }
    }

    /// Gives the first of the bytes that have come and weren't given yet, as many as the block has room for, and returns how many
    /// these are.
    pub fn give(&mut self, block: &mut [u8]) -> usize
        ensures count { result ≡ min (length self.old.ahead) (length block.old) }
        ensures bytes { self.old.ahead ≡ take result block.new ++ self.new.ahead }
        ensures tape { self.new.tape ≡ self.old.tape }
    {
        let count = (self.end - self.start).min(block.len());
        let next = self.start + count;
        block[..count].copy_from_slice(&self.block[self.start..next]);
        self.start = next;
        count
    }

    /// Drops the first of the bytes that have come and weren't given yet: so many, or all where there are fewer.
    pub fn skip(&mut self, count: usize)
        ensures { self.new ≡ record { ahead = drop count self.old.ahead; tape = self.old.tape } }
    {
        self.start += count.min(self.end - self.start);
    }

    /// The tape of what was read.
    pub fn into_tape(self) -> ClosedTape
        ensures { result ≡ self.entry.tape }
    {
        self.tape.close()
    }
}

/// Makes one read of a socket into the block from this place on, and notes it; what stands before that place stays.
fn read_taped(
    socket: &TcpStream,
    tape: &mut Tape,
    block: &mut [u8],
    end: usize,
) -> io::Result<usize>
    requires { end ≤ length block.old }
    ensures bound { IfOk result (λ n. end + n ≤ length block.new) }
    ensures kept { take end block.new ≡ take end block.old }
    ensures noted { IfOk result (λ n. tape.new ≡ taped (Some (slice_range block.new end (end + n))) tape.old) }
    ensures failed { OnErr result (tape.new ≡ taped None tape.old) }
{
    let mut reader = socket;
    match reader.read(&mut block[end..]) {
        Ok(count) => {
            tape.note(&block[end..end + count]);
            Ok(count)
        }
        Err(error) => {
            tape.note_failure();
            Err(error)
        }
    }
}

/// What goes to a socket. Contracts see the tape of its writes.
#[derive(Drop)]
pub struct TapedWriter<'s> {
    socket: &'s TcpStream,
    tape: Tape,
}

impl<'s> Model for TapedWriter<'s> {
    ghost use Rattle.tcp_server.specs.Tapes.{TapeOf};

    ghost Value = { TapeOf };

    ghost view = { λ w. w.tape };
}

impl<'s> TapedWriter<'s> {
    /// A socket to which nothing has been written. An error means that there was no memory for its tape.
    pub fn of_socket(alloc: Global, socket: &'s TcpStream) -> Result<Self, AllocError>
        ensures { IfOk result (λ writer. writer ≡ blank_tape (stream_raw_fd socket.now)) }
    {
        let tape = Tape::new(alloc, socket)?;
        Ok(TapedWriter { socket, tape })
    }

    /// Makes one write to the socket, and returns how many of these bytes it took. An error is that of the call, by which none was
    /// taken.
    pub fn write(&mut self, bytes: &[u8]) -> io::Result<usize>
        ensures bound { IfOk result (λ n. n ≤ length bytes.now) }
        ensures took { IfOk result (λ n. self.new ≡ taped (Some (take n bytes.now)) self.old) }
        ensures failed { OnErr result (self.new ≡ taped None self.old) }
    {
        let mut socket = self.socket;
        match socket.write(bytes) {
            Ok(count) => {
                self.tape.note(&bytes[..count]);
                Ok(count)
            }
            Err(error) => {
                self.tape.note_failure();
                Err(error)
            }
        }
    }

    /// The tape of what was written.
    pub fn into_tape(self) -> ClosedTape
        ensures { result ≡ self.entry }
    {
        self.tape.close()
    }
}
