//! Answering the lines of an input of `solve`, each by the minimax value of its position.
ghost use Rattle.std.specs.Prelude.{◌≡◌, ◌≤◌, ◌++◌, ℕ, Bool, List, length, Some, OnOk};
ghost use Rattle.line_io.specs.Leads.{between};
ghost use Rattle.line_io.specs.Views.{text_of};
ghost use Rattle.line_io.specs.Runs.{FunctionRun};
ghost use Rattle.solve_engine.specs.Solving.{solve_line, solve_out_unless, IsSolvedLine, IsVisitedLine, OrderedRun, SolvedRun, VisitedRun};

use crate::answers::{SolveText, error_text, value_text, visited_text};
use crate::leaf_search::{search_full, search_ordered_full};
use crate::requests::read_line;
use crate::solve_by_core;
use line_io::{
    FromReader, FromWriter, LF, Line, LineAnswerer, LineFault, Sink, Source, answer_lines,
    known_runs_are_exact,
};
use sched_rules::Refusal;
use std::alloc::{AllocError, Allocator};
use std::io::{Read, Write};

/// The answer to a line: value and move, or its first fault. Each search is one job of a core that is made for
/// it; where memory for that was refused, the answer is `ERR 19`.
fn solve_line<A: Allocator + Copy>(alloc: A, grain: u8, line: Line<'_>) -> SolveText
    requires { grain ≤ 6 }
    ensures text { IsSolvedLine (text_of line.entry) result.items }
    ensures short { length result.items ≤ 37 }
{
    match read_line(line) {
        Ok(asked) => match solve_by_core(alloc, &asked.position, asked.depth, grain) {
            Ok(found) => value_text(found.answer.value, found.answer.choice),
            Err(AllocError) => error_text(Refusal::OutOfMemory.number()),
        },
        Err(fault) => error_text(fault.number()),
    }
}

/// The answer to a line: value, move and the number of positions that one serial search entered; or the line's
/// first fault.
fn visited_line(line: Line<'_>) -> SolveText
    ensures text { IsVisitedLine (text_of line.entry) result.items }
    ensures short { length result.items ≤ 37 }
{
    match read_line(line) {
        Ok(asked) => {
            let found = search_full(asked.position.board, asked.depth);
            visited_text(found.score, found.choice, found.visited)
        }
        Err(fault) => error_text(fault.number()),
    }
}

/// The answer to a line: value and move, by one ordered search; or the line's first fault.
fn ordered_line(line: Line<'_>) -> SolveText
    ensures text { result.items ≡ solve_line (text_of line.entry) }
    ensures short { length result.items ≤ 37 }
{
    match read_line(line) {
        Ok(asked) => {
            let found = search_ordered_full(asked.position.board, asked.depth);
            value_text(found.score, found.choice)
        }
        Err(fault) => error_text(fault.number()),
    }
}

/// Answers each line by value and move; `text` is the last answer, with LF.
#[derive(Drop)]
struct Solver<A> {
    alloc: A,
    grain: u8,
    text: SolveText,
    ghost fine: { grain ≤ 6 },
}

impl<A: Allocator + Copy> LineAnswerer for Solver<A> {
    ghost answers = { λ _ line text _. IsSolvedLine line text };

    ghost kept = { λ solver. solver.text.items };

    /// Answers a line by the search of a core of its own.
    fn answer(&mut self, line: Line<'_>) {
        self.text = solve_line(self.alloc, self.grain, line);
        self.text.push(LF);
    }

    /// The text of the last answer, with LF.
    fn text(&self) -> &[u8] {
        self.text.as_slice()
    }
}

/// Answers each line by value, move and the number of positions that the search entered; `text` is the last
/// answer, with LF.
#[derive(Drop)]
struct VisitedSolver {
    text: SolveText,
}

impl LineAnswerer for VisitedSolver {
    ghost answers = { λ _ line text _. IsVisitedLine line text };

    ghost kept = { λ solver. solver.text.items };

    /// Answers a line by value, move and the number of positions that the serial search entered.
    fn answer(&mut self, line: Line<'_>) {
        self.text = visited_line(line);
        self.text.push(LF);
    }

    /// The text of the last answer, with LF.
    fn text(&self) -> &[u8] {
        self.text.as_slice()
    }
}

/// Answers each line by value and move, each by one ordered search; `text` is the last answer, with LF.
#[derive(Drop)]
struct OrderedSolver {
    text: SolveText,
}

impl LineAnswerer for OrderedSolver {
    ghost answers = { λ _ line text _. text ≡ solve_line line };

    ghost kept = { λ solver. solver.text.items };

    /// Answers a line by one ordered search.
    fn answer(&mut self, line: Line<'_>) {
        self.text = ordered_line(line);
        self.text.push(LF);
    }

    /// The text of the last answer, with LF.
    fn text(&self) -> &[u8] {
        self.text.as_slice()
    }
}

/// Answers each line of the source, as soon as it is complete, by a line `value move` on the sink.
///
/// Each line that asks for a search is one job of a core that takes its memory from `alloc` and gives it back;
/// frames of a remaining depth of at most `grain`, 0 to 6, are searched serially. What is written doesn't depend
/// on the grain.
///
/// At Ok the source has given its end, and what is written is `solve_out` of what was read, save that a line for
/// which memory was refused is answered `ERR 19`. Fault 1 comes only where the source failed, and fault 3 only
/// where 2^62 bytes were read: what is written then is the answers to the lines up to the last LF. Fault 2 comes
/// only where the sink failed or took no byte, and what is written then is a beginning of the answers.
pub fn solve<A: Allocator + Copy, S: Source, K: Sink>(
    alloc: A,
    source: &mut S,
    sink: &mut K,
    grain: u8,
) -> Result<(), LineFault>
    requires { grain ≤ 6 }
    ensures { SolvedRun (between S.gives source.old source.new) (between K.takes sink.old sink.new) result }
{
    let mut solver = Solver {
        alloc,
        grain,
        text: SolveText::new(),
    };
    answer_lines(source, sink, &mut solver)
}

/// [`solve`] over std's readers and writers. Where it is known which bytes are to be read and which the writer
/// holds, the writer holds at Ok what it held and then the answers to those bytes.
pub fn solve_bytes<A: Allocator + Copy, R: Read, W: Write>(
    alloc: A,
    source: &mut FromReader<R>,
    sink: &mut FromWriter<W>,
    grain: u8,
) -> Result<(), LineFault>
    requires { grain ≤ 6 }
    ensures run { SolvedRun (between ⟦<FromReader<R> as Source>⟧.gives source.old source.new) (between ⟦<FromWriter<W> as Sink>⟧.takes sink.old sink.new) result }
    ensures known { OnOk result ((bytes held : List ℕ) → R.remaining source.old.reader ≡ Some bytes → W.contents sink.old.writer ≡ Some held
        → (refused : List Bool) × (W.contents sink.new.writer ≡ Some (held ++ solve_out_unless refused bytes))) }
{
    let result = solve(alloc, source, sink, grain);
    known_runs_are_exact::<R, W>();
    result
}

/// Answers each line of the source, as soon as it is complete, by a line `value move visited` on the sink, where
/// `visited` is the number of positions that the search entered. Each search is serial, and none takes memory.
/// The faults are those of [`solve`].
pub fn solve_visited<S: Source, K: Sink>(source: &mut S, sink: &mut K) -> Result<(), LineFault>
    ensures { VisitedRun (between S.gives source.old source.new) (between K.takes sink.old sink.new) result }
{
    let mut counter = VisitedSolver {
        text: SolveText::new(),
    };
    answer_lines(source, sink, &mut counter)
}

/// [`solve`] with one ordered search for each line, outside any core: the fastest way. No search takes memory, so what is
/// written is `solve_out` of what was read, and no line is answered `ERR 19`. The faults are those of [`solve`].
pub fn solve_ordered<S: Source, K: Sink>(source: &mut S, sink: &mut K) -> Result<(), LineFault>
    ensures solved { SolvedRun (between S.gives source.old source.new) (between K.takes sink.old sink.new) result }
    ensures each { OrderedRun (between S.gives source.old source.new) (between K.takes sink.old sink.new) result }
{
    let mut solver = OrderedSolver {
        text: SolveText::new(),
    };
    answer_lines(source, sink, &mut solver)
}
