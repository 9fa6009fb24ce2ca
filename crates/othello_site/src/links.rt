//! A site's connections as sources and sinks of bytes, with limits in time and a tape of each direction.
//!
//! An [`Incoming`] gives a session just the bytes that came on its socket, in order, and an [`Outgoing`] moves just what it took: their
//! relations say it of the tapes of all reads and writes (`tcp_server`'s `Fills` and `Puts`).
ghost use Rattle.std.specs.Prelude.{◌≡◌, ◌≤◌, [], length};
ghost use Rattle.tcp_server.specs.Tapes.{HandsOn, Fills, Puts};

use crate::clock::SiteClock;
use line_io::{LF, ReadFailed, Sink, Source, WriteFailed};
use site_rules::{Pace, Times, paid_with, pause};
use std::cell::Cell;
use std::io::{Error, ErrorKind};
use std::thread;
use std::time::{Clock, Duration};
use tcp_server::{ClosedTape, TapedReader, TapedWriter};

/// How often a read or a write that a signal interrupts is made again.
const TRIES: u32 = 65_536;

/// The most bytes that are kept of a command or of a request.
pub(crate) const MOST_BYTES: usize = 4_096;

/// How a connection's reads ended.
#[derive(Clone, Copy, PartialEq, Eq)]
pub(crate) enum Reading {
    /// They go on.
    GoesOn,
    /// Its time was over.
    Late,
    /// It failed.
    Failed,
    /// Its client ended its input.
    Ended,
}

/// What a connection's source and its office both know.
#[derive(Drop)]
pub(crate) struct TalkState {
    /// How far it has come.
    pub(crate) pace: Cell<Pace>,
    /// Whether it is heard for its first line alone.
    pub(crate) is_extra: Cell<bool>,
    /// Whether the bytes that were read last had a line's end.
    had_line: Cell<bool>,
    /// When all its lines are paid off, in microseconds.
    paid: Cell<u64>,
    /// Lines so far.
    pub(crate) lines: Cell<u64>,
    /// How its reads ended.
    pub(crate) reading: Cell<Reading>,
}

impl TalkState {
    /// The state of a connection's talk that begins now.
    pub(crate) fn new(now: u64, is_extra: bool) -> TalkState {
        TalkState {
            pace: Cell::new(Pace::new(now)),
            is_extra: Cell::new(is_extra),
            had_line: Cell::new(false),
            paid: Cell::new(0),
            lines: Cell::new(0),
            reading: Cell::new(Reading::GoesOn),
        }
    }

    /// Notes that the session's HELLO was welcomed.
    pub(crate) fn welcome(&self) {
        self.pace.set(Pace {
            welcomed: true,
            ..self.pace.get()
        });
    }

    /// Counts the lines that end in these bytes, and returns how many these are.
    fn hear(&self, bytes: &[u8]) -> u64 {
        let mut ends: u64 = 0;
        for byte in bytes {
            if *byte == LF {
                ends = ends.saturating_add(1);
            }
        }
        self.lines.set(self.lines.get().saturating_add(ends));
        self.had_line.set(ends > 0);
        ends
    }

    /// Notes that all lines that came so far were answered.
    fn answered(&self, now: u64) {
        if self.had_line.get() {
            self.pace.set(Pace {
                last: now,
                ..self.pace.get()
            });
        }
    }

    /// Whether a connection's talk is over: it was heard for its first line alone, and that line was answered.
    fn is_over(&self) -> bool {
        self.is_extra.get() && self.lines.get() > 0
    }
}

/// Whether a read or a write failed since a signal came before any byte went through, so that it is tried again.
pub(crate) fn is_interrupted(error: &Error) -> bool {
    error.kind() == ErrorKind::Interrupted
}

/// The bytes that come on a connection.
#[derive(Drop)]
pub(crate) struct Incoming<'a, R> {
    pub(crate) rt: &'a R,
    pub(crate) clock: SiteClock,
    pub(crate) talk: &'a TalkState,
    pub(crate) times: Times,
    pub(crate) reader: TapedReader<'a>,
}

impl<R: Clock> Incoming<'_, R> {
    /// Reads further bytes of a connection, and waits for them as long as the connection may be silent. Returns how many came: 0 where
    /// the input has ended. None at a failure, and where that time is over.
    pub(crate) fn read(&mut self) -> Option<usize>
        ensures { HandsOn self.old.reader [] self.new.reader }
    {
        for _ in 0..TRIES {
            if !self.may_wait() {
                return None;
            }
            match self.reader.read() {
                Ok(count) => return Some(count),
                Err(error) => {
                    if !self.goes_on(error.kind()) {
                        return None;
                    }
                }
            }
        }
        None
    }

    /// Sets how long the next read may wait, by how long the connection may be silent. Where it may be no longer, or that can't be set,
    /// it is noted why the talk ends.
    fn may_wait(&self) -> bool {
        let now = self.clock.now(self.rt);
        let Some(left) = self.talk.pace.get().left(&self.times, now) else {
            self.talk.reading.set(Reading::Late);
            return false;
        };
        let limit = Duration::from_millis(left.max(1));
        if self.reader.set_timeout(limit).is_err() {
            self.talk.reading.set(Reading::Failed);
            return false;
        }
        true
    }

    /// Whether a read that failed by an error of this kind is tried again; else it is noted why the talk ends.
    fn goes_on(&self, kind: ErrorKind) -> bool {
        match kind {
            ErrorKind::Interrupted => true,
            ErrorKind::WouldBlock | ErrorKind::TimedOut => {
                self.talk.reading.set(Reading::Late);
                false
            }
            _ => {
                self.talk.reading.set(Reading::Failed);
                false
            }
        }
    }

    /// Reads further bytes where all were given, unless the talk is over.
    fn read_if_empty(&mut self) -> Result<(), ReadFailed>
        ensures { HandsOn self.old.reader [] self.new.reader }
    {
        if !self.reader.bytes().is_empty() {
            return Ok(());
        }
        self.talk.answered(self.clock.now(self.rt));
        if self.talk.is_over() {
            return Ok(());
        }
        match self.read() {
            Some(count) => {
                if count == 0 {
                    self.talk.reading.set(Reading::Ended);
                }
                Ok(())
            }
            None => Err(ReadFailed),
        }
    }

    /// Counts so many lines that came on the connection; where they come too fast the thread sleeps, and holds nothing
    /// meanwhile.
    fn slow_down(&self, lines: u64) {
        let now = self.clock.micros(self.rt);
        let paid = paid_with(self.talk.paid.get(), lines, now);
        self.talk.paid.set(paid);
        let wait = pause(paid, now);
        if wait > 0 {
            thread::sleep(self.rt, Duration::from_micros(wait));
        }
    }

    /// The tape of what was read.
    pub(crate) fn into_tape(self) -> ClosedTape
        ensures { result ≡ self.entry.reader.tape }
    {
        self.reader.into_tape()
    }
}

impl<R: Clock> Source for Incoming<'_, R> {
    ghost gives = { λ from answer to. Fills from.reader answer to.reader };

    /// Gives the session the connection's next bytes, as fast as its lines may be answered; 0 where the input has
    /// ended, or the talk is over.
    fn fill(&mut self, block: &mut [u8]) -> Result<usize, ReadFailed> {
        self.read_if_empty()?;
        let count = self.reader.give(block);
        self.slow_down(self.talk.hear(&block[..count]));
        Ok(count)
    }
}

/// What goes to a connection.
#[derive(Drop)]
pub(crate) struct Outgoing<'a, R> {
    pub(crate) rt: &'a R,
    pub(crate) clock: SiteClock,
    pub(crate) writer: TapedWriter<'a>,
    /// Milliseconds in which an answer is taken.
    pub(crate) limit: u64,
    /// Whether a write took that long and only a part of its answer: then the rest isn't written.
    pub(crate) is_late: bool,
}

impl<R: Clock> Outgoing<'_, R> {
    /// Whether it is at least so late, in milliseconds of the site's clock.
    fn is_past(&self, until: u64) -> bool {
        until <= self.clock.now(self.rt)
    }

    /// The tape of what was written.
    pub(crate) fn into_tape(self) -> ClosedTape
        ensures { result ≡ self.entry.writer }
    {
        self.writer.into_tape()
    }
}

impl<R: Clock> Sink for Outgoing<'_, R> {
    ghost takes = { λ from answer to. Puts from.writer answer to.writer };

    /// Writes an answer to the connection; an error where the client doesn't take it in time.
    fn put(&mut self, bytes: &[u8]) -> Result<usize, WriteFailed> {
        if self.is_late {
            return Err(WriteFailed);
        }
        let until = self.clock.now(self.rt).saturating_add(self.limit);
        for _ in 0..TRIES {
            match self.writer.write(bytes) {
                Ok(0) => return Err(WriteFailed),
                Ok(count) => {
                    // (one that takes a part alone has waited for its whole time, or a signal came: then the rest is put next)
                    self.is_late = count < bytes.len() && self.is_past(until);
                    return Ok(count);
                }
                Err(error) => {
                    if !is_interrupted(&error) || self.is_past(until) {
                        return Err(WriteFailed);
                    }
                }
            }
        }
        Err(WriteFailed)
    }
}

/// The first bytes of a connection.
#[derive(Drop)]
pub(crate) struct Received {
    block: [u8; MOST_BYTES],
    size: usize,
}

impl Received {
    /// The bytes of a connection from which nothing came yet.
    pub(crate) fn new() -> Received {
        Received {
            block: [0; MOST_BYTES],
            size: 0,
        }
    }

    /// The bytes that came on the connection so far.
    pub(crate) fn bytes(&self) -> &[u8]
        ensures { length result.now ≤ 4096 }
    {
        &self.block[..self.size.min(MOST_BYTES)]
    }

    /// The part of the block where further bytes of the connection go.
    pub(crate) fn room(&mut self) -> &mut [u8] {
        let from = self.size.min(MOST_BYTES);
        &mut self.block[from..]
    }

    /// Notes that so many bytes more came on the connection.
    pub(crate) fn grow(&mut self, count: usize) {
        self.size = self.size.saturating_add(count).min(MOST_BYTES);
    }
}

/// The first line in these bytes, without its end; `None` where the line isn't whole yet.
pub(crate) fn first_line(bytes: &[u8]) -> Option<&[u8]> {
    let end = bytes.iter().position(|byte| *byte == LF)?;
    bytes.get(..end)
}
