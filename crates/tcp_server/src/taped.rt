//! Streams with tapes: what passed on a socket, in proofs alone.
//!
//! Nobody knows a socket's bytes beforehand, so the contract of std's `read` says nothing of them, and a session over a socket could
//! be one over any bytes. A [`Tape`] is a list of what each call did, which exists in proofs alone; contracts see it, and of which
//! socket it is. A [`TapedSource`] is a source with the tape of what it gave, and a [`TapedSink`] a sink with that of what it took:
//! each read and each write is noted as it is made, and what the source and the sink themselves say of it stays said. Only they note
//! anything: nobody else can make a tape, or change one. So a session over them is a session of the bytes on their tapes. A caller
//! who has to see each call's error, and to say how long a call may wait, has a [`TapedReader`] and a [`TapedWriter`] instead, whose
//! reads and writes are those of the socket itself.
//!
//! At run time nothing is stored of a tape. Its list is what the one pass of an `atomic_table` knows, of one word under no rule: a
//! call costs one load of that word, each function `of_socket` an allocation of 8 bytes. The word is shared with nobody.
//!
//! ```text
//! let mut source = TapedSource::of_socket(alloc, &stream)?;      // []
//! source.fill(&mut block)?;                                      // Some [1, 2]
//! source.fill(&mut block)?;                                      // Some [1, 2], Some [3]
//! let tape = source.into_tape();                                 // these two, of this socket
//! ```
ghost use Rattle.std.specs.Prelude.{◌≡◌, Some, None, IfOk};
ghost use Rattle.std.specs.Net.Tcp.{stream_raw_fd};
ghost use Rattle.tcp_server.specs.Tapes.{blank_tape, taped, HearsFrom, SendsTo};

mod rows;
mod socket;

use atomic_table::{Play, Seat as Pass, Table, TableRule};
use line_io::{FromReader, FromWriter, ReadFailed, Sink, Source, WriteFailed};
pub use rows::{
    calls_are_taped, calls_move_their_bytes, each_byte_is_handed_on, each_call_is_on_its_tape,
};
pub use socket::{MOST_AHEAD, TapedReader, TapedWriter};
use std::alloc::{AllocError, Global};
use std::collections::LinkedList;
use std::marker::{Brand, Model, PhantomData};
use std::net::TcpStream;
use std::os::fd::{AsRawFd, RawFd};

/// What a pass knows: the number of a descriptor, and what each call there did. No value of it is ever made.
type Calls = (RawFd, LinkedList<Option<LinkedList<u8>>>);

/// The rule of a tape's word: none, as nobody but the tape's one pass knows anything.
struct Unruled;

impl TableRule<(), Calls, RawFd> for Unruled {
    ghost use Rattle.std.specs.Prelude.{[]};

    ghost holds = { λ _ _. Unit {0} };

    ghost first = { λ socket. (socket, []) };
}

/// A type that stands for what one call did.
trait TapedCall {
    ghost use Rattle.std.specs.Prelude.{ℕ, List, Option};

    /// The bytes that it moved; None where it failed.
    ghost call: { Option (List ℕ) };
}

// So that a call of `note_call` may pass `Brand`. The proof of that call may choose what it stands for; here it is a call that
// failed.
impl TapedCall for Brand {
    ghost use Rattle.std.specs.Prelude.{None};

    ghost call = { None };
}

/// The step by which a call is noted.
struct Taping<C>(PhantomData<C>);

impl<C: TapedCall> Play<(), Calls> for Taping<C> {
    ghost use Rattle.std.specs.Prelude.{◌≡◌, [], ◌∷◌, ◌++◌};

    ghost then = { λ _ before _ after. after ≡ ((before.0.0, before.0.1 ++ C.call ∷ []), before.1) };
}

/// What the calls on a socket did, in order. Contracts see that, and the number of the socket's descriptor.
#[derive(Drop)]
pub struct Tape {
    table: Table<(), Calls, RawFd, Unruled, Global>,
    pass: Pass<(), Calls>,
}

impl Model for Tape {
    ghost use Rattle.std.specs.Prelude.{◌≡◌, ◌<◌, []};
    ghost use Rattle.tcp_server.specs.Tapes.{TapeOf};

    ghost Value = { TapeOf };

    ghost view = { λ t. record { socket = t.pass.me.0.0; calls = t.pass.me.0.1 } };

    ghost invariant = { λ t. (0 < t.table.shared.table_id.words) × (t.pass.table_id ≡ t.table.shared.table_id) × (t.pass.me.1 ≡ []) };
}

impl Tape {
    /// A tape of this socket, on which nothing has passed. It takes one word of memory, and an error means that this was refused.
    fn new(alloc: Global, socket: &TcpStream) -> Result<Tape, AllocError>
        ensures { IfOk result (λ tape. tape ≡ blank_tape (stream_raw_fd socket.now)) }
    {
        let descriptor = socket.as_raw_fd();
        let (table, pass) = Table::of_words(alloc, &[0], &descriptor)?;
        Ok(Tape { table, pass })
    }

    /// Notes that a call moved these bytes.
    fn note(&mut self, bytes: &[u8])
        ensures { self.new ≡ taped (Some bytes.now) self.old }
    {
        note_call::<Brand>(self, bytes);
    }

    /// Notes that a call failed.
    fn note_failure(&mut self)
        ensures { self.new ≡ taped None self.old }
    {
        note_call::<Brand>(self, &[]);
    }

    /// Closes the tape, and gives its memory back.
    fn close(self) -> ClosedTape
        ensures { result ≡ self }
    {
        let Tape { table, pass } = self;
        drop(table);
        ClosedTape { pass }
    }
}

/// A tape on which nothing is noted any more. It takes no memory, and nothing has to be dropped of it: it may be what a thread returns
/// whom nobody joins. Contracts see what the tape was.
#[derive(Drop)]
pub struct ClosedTape {
    pass: Pass<(), Calls>,
}

impl Model for ClosedTape {
    ghost use Rattle.tcp_server.specs.Tapes.{TapeOf};

    ghost Value = { TapeOf };

    ghost view = { λ t. record { socket = t.pass.me.0.0; calls = t.pass.me.0.1 } };
}

/// Notes the call that `C` stands for. Nothing is done with the bytes: they are there for a proof to name.
fn note_call<C: TapedCall>(tape: &mut Tape, _bytes: &[u8])
    ensures { tape.new ≡ taped C.call tape.old }
{
    let Tape { table, pass } = tape;
    table.shared.load::<Taping<C>>(pass, 0);
}

/// A source with a tape of what it gave. Contracts see both.
#[derive(Drop)]
pub struct TapedSource<S> {
    source: S,
    tape: Tape,
}

impl<S> Model for TapedSource<S> {
    ghost use Rattle.tcp_server.specs.Tapes.{TapedOf};

    ghost Value = { TapedOf S };

    ghost view = { λ s. record { stream = s.source; tape = s.tape } };
}

impl<'s> TapedSource<FromReader<&'s TcpStream>> {
    /// A socket as a source, of which nothing has been read. An error means that there was no memory for its tape.
    pub fn of_socket(alloc: Global, socket: &'s TcpStream) -> Result<Self, AllocError>
        ensures { IfOk result (λ source. source.tape ≡ blank_tape (stream_raw_fd socket.now)) }
    {
        let tape = Tape::new(alloc, socket)?;
        Ok(TapedSource {
            source: FromReader { reader: socket },
            tape,
        })
    }
}

impl<S: Drop> TapedSource<S> {
    /// The tape of what was read.
    pub fn into_tape(self) -> Tape
        ensures { result ≡ self.tape }
    {
        self.tape
    }
}

impl<S: Source> Source for TapedSource<S> {
    ghost gives = { HearsFrom S.gives };

    fn fill(&mut self, block: &mut [u8]) -> Result<usize, ReadFailed> {
        let given = self.source.fill(block);
        match given {
            Ok(count) => self.tape.note(&block[..count]),
            Err(_) => self.tape.note_failure(),
        }
        given
    }
}

/// A sink with a tape of what it took. Contracts see both.
#[derive(Drop)]
pub struct TapedSink<K> {
    sink: K,
    tape: Tape,
}

impl<K> Model for TapedSink<K> {
    ghost use Rattle.tcp_server.specs.Tapes.{TapedOf};

    ghost Value = { TapedOf K };

    ghost view = { λ s. record { stream = s.sink; tape = s.tape } };
}

impl<'s> TapedSink<FromWriter<&'s TcpStream>> {
    /// A socket as a sink, to which nothing has been written. An error means that there was no memory for its tape.
    pub fn of_socket(alloc: Global, socket: &'s TcpStream) -> Result<Self, AllocError>
        ensures { IfOk result (λ sink. sink.tape ≡ blank_tape (stream_raw_fd socket.now)) }
    {
        let tape = Tape::new(alloc, socket)?;
        Ok(TapedSink {
            sink: FromWriter::new(socket),
            tape,
        })
    }
}

impl<K: Drop> TapedSink<K> {
    /// The tape of what was written.
    pub fn into_tape(self) -> Tape
        ensures { result ≡ self.tape }
    {
        self.tape
    }
}

impl<K: Sink> Sink for TapedSink<K> {
    ghost takes = { SendsTo K.takes };

    fn put(&mut self, bytes: &[u8]) -> Result<usize, WriteFailed> {
        let taken = self.sink.put(bytes);
        match taken {
            Ok(count) => self.tape.note(&bytes[..count]),
            Err(_) => self.tape.note_failure(),
        }
        taken
    }
}
