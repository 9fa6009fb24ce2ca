//! Laws of an input's lines and of runs over it. A function here does nothing: its contract is the law.
ghost use Rattle.std.specs.Prelude.{◌≡◌, ℕ, List, [], ◌∷◌, ◌++◌, map, Result, Ok, Some};
ghost use Rattle.std.specs.List.{concat};
ghost use Rattle.line_io.specs.declared.faults.WriteFailed.{WriteFailed};
ghost use Rattle.line_io.specs.declared.input.FromReader.{FromReader};
ghost use Rattle.line_io.specs.declared.output.FromWriter.{FromWriter};
ghost use Rattle.line_io.specs.Leads.{Leads, between, answering};
ghost use Rattle.line_io.specs.Streams.{Gave, Ended};
ghost use Rattle.line_io.specs.Writes.{writes_of};
ghost use Rattle.line_io.specs.declared.faults.LineFault.{LineFault};
ghost use Rattle.line_io.specs.Lines.{LineText, lines_of};
ghost use Rattle.line_io.specs.Runs.{Run, FunctionRun, answers_to};

use crate::answering::LineAnswerer;
use crate::input::{FromReader, Source};
use crate::output::{FromWriter, Sink};
use std::io::{Read, Write};

/// Where each answer is a function of its line, what a run writes is a function of what it reads: the answers to
/// the lines of all bytes, at faults 1 and 3 of those up to the last LF, and at fault 2 a beginning of that.
pub fn run_by_function<S: Source, K: Sink, A: LineAnswerer>()
    ensures { (answer : LineText → List ℕ)
        → ((a : A) (line : LineText) (text : List ℕ) (b : A) → A.answers a line text b → text ≡ answer line)
        → (source source' : S) (sink sink' : K) (answerer answerer' : A) (r : Result (Unit {0}) LineFault)
        → Run (between S.gives source source') (between K.takes sink sink') (answering A.answers answerer answerer') r
        → FunctionRun (between S.gives source source') (between K.takes sink sink') (λ bytes. answers_to answer (lines_of bytes)) r }
{}

/// Where the bytes that a reader has left are known, its reads up to the end give all of them.
pub fn known_bytes_are_read<R: Read>()
    ensures { (old new : FromReader R) (blocks : List (List ℕ)) (bytes : List ℕ)
        → R.remaining old.reader ≡ Some bytes
        → Leads ⟦<FromReader<R> as Source>⟧.gives old (map Gave blocks ++ Ended ∷ []) new
        → concat blocks ≡ bytes }
{}

/// Where the bytes that a writer holds are known, its writes add what they took to them.
pub fn known_contents_grow<W: Write>()
    ensures { (old new : FromWriter W) (pieces : List (List ℕ)) (r : Result (Unit {0}) WriteFailed) (bytes : List ℕ)
        → W.contents old.writer ≡ Some bytes
        → Leads ⟦<FromWriter<W> as Sink>⟧.takes old (writes_of pieces r) new
        → W.contents new.writer ≡ Some (bytes ++ concat pieces) }
{}

/// Over a reader whose bytes are known and a writer whose contents are, a run that answers by a function appends
/// to the contents what the function gives for the bytes.
pub fn known_runs_are_exact<R: Read, W: Write>()
    ensures { (out : List ℕ → List ℕ) (source source' : FromReader R) (sink sink' : FromWriter W) (bytes held : List ℕ)
        → R.remaining source.reader ≡ Some bytes
        → W.contents sink.writer ≡ Some held
        → FunctionRun (between ⟦<FromReader<R> as Source>⟧.gives source source') (between ⟦<FromWriter<W> as Sink>⟧.takes sink sink') out (Ok tt)
        → W.contents sink'.writer ≡ Some (held ++ out bytes) }
{}
