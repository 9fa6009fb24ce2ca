//! Tapes, tried: each contract is computed from the definitions, or proved of all chains of calls.
ghost use Rattle.std.specs.Prelude.{◌≡◌, ℤ, List, [], ◌∷◌, ◌++◌, map, flat_map, Some, None, IfOk};
ghost use Rattle.std.specs.Net.Tcp.{stream_raw_fd};
ghost use Rattle.line_io.specs.Leads.{Leads};
ghost use Rattle.line_io.specs.Streams.{ReadAnswer, Gave, WriteAnswer};
ghost use Rattle.tcp_server.specs.Tapes.{TapeOf, AheadOf, heard, sent, moved, given, took, unread, Hears, Sends, Moves, HandsOn, Fills, Puts};

use super::Tape;
use std::alloc::{AllocError, Global};
use std::net::TcpStream;

/// A tape of a socket has each call in order: here one that moved the bytes 1 and 2, one that moved 3, one at the end of the input,
/// and one that failed.
pub fn calls_are_taped(alloc: Global, socket: &TcpStream) -> Result<Tape, AllocError>
    ensures { IfOk result (λ tape. tape ≡ record { socket = stream_raw_fd socket.now; calls = Some (1 ∷ 2 ∷ []) ∷ Some (3 ∷ []) ∷ Some [] ∷ None ∷ [] }) }
{
    let mut tape = Tape::new(alloc, socket)?;
    tape.note(&[1, 2]);
    tape.note(&[3]);
    tape.note(&[]);
    tape.note_failure();
    Ok(tape)
}

/// What a chain of calls leaves on a tape is what was there and just these calls, in order; the socket is the same.
pub fn each_call_is_on_its_tape()
    ensures reads { (from to : TapeOf) (answers : List ReadAnswer) → Leads Hears from answers to → to ≡ record { socket = from.socket; calls = from.calls ++ map heard answers } }
    ensures writes { (from to : TapeOf) (answers : List WriteAnswer) → Leads Sends from answers to → to ≡ record { socket = from.socket; calls = from.calls ++ map sent answers } }
{}

/// Calls moved the bytes that they gave or took; one at the end of the input moved none, and one that failed.
pub fn calls_move_their_bytes()
    ensures { moved (Some (1 ∷ 2 ∷ []) ∷ None ∷ Some [] ∷ Some (3 ∷ []) ∷ []) ≡ 1 ∷ 2 ∷ 3 ∷ [] }
{}

/// A chain of reads of a socket that is read ahead hands on just what these gave, in order; a chain of writes moved just what these
/// took. Where nothing was ahead and no call was made, no byte is given.
pub fn each_byte_is_handed_on()
    ensures reads { (from to : AheadOf) (answers : List ReadAnswer) → Leads Fills from answers to → HandsOn from (flat_map given answers) to }
    ensures writes { (from to : TapeOf) (answers : List WriteAnswer) → Leads Puts from answers to → Moves from (flat_map took answers) to }
    ensures nothing { (socket : ℤ) → Fills (unread socket) (Gave (7 ∷ [])) (unread socket) → ⊥ }
{}
