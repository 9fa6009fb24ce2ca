//! Answering each line of an input as soon as it is complete.
ghost use Rattle.std.specs.Prelude.{◌≡◌, ℕ, List, [], ◌∷◌, OnOk};
ghost use Rattle.std.specs.Option.{option_to_list};
ghost use Rattle.line_io.specs.Leads.{between, answering};
ghost use Rattle.line_io.specs.Lines.{LineText};
ghost use Rattle.line_io.specs.Held.{held_after, ended_within, last_line};
ghost use Rattle.line_io.specs.Views.{text_of};
ghost use Rattle.line_io.specs.Writes.{LinesAnswered, with_newline};
ghost use Rattle.line_io.specs.Runs.{Run};

use crate::cutting::{LF, Line, LineCutter};
use crate::faults::{LineFault, WriteFailed};
use crate::input::Source;
use crate::output::{Sink, write_text};

/// The bytes that one read asks for at most.
pub(crate) const BLOCK_BYTES: usize = 4096;

/// The number of bytes read after which a run reads no more.
const MOST_BYTES: u64 = 1 << 62;

/// Answers lines, one after another, and keeps the last answer until the next. An array of the answerer's own holds
/// it, so each answerer chooses how long its answers can be.
pub trait LineAnswerer {
    /// Which texts may answer a line, and the states before and after it.
    ghost answers: { Self → LineText → List ℕ → Self → Type 0 };

    /// The last answer, with its LF.
    ghost kept: { Self → List ℕ };

    /// Answers the next line of the input.
    fn answer(&mut self, line: Line<'_>)
        ensures { (text : List ℕ) × answers self.old (text_of line.entry) text self.new × (kept self.new ≡ with_newline text) };

    /// The text of the last answer, with its LF.
    fn text(&self) -> &[u8]
        ensures { result.now ≡ kept self.now };
}

/// Answers one line, and writes the answer with its LF.
pub(crate) fn answer_line<K: Sink, A: LineAnswerer>(
    sink: &mut K,
    answerer: &mut A,
    line: Line<'_>,
) -> Result<(), WriteFailed>
    ensures { LinesAnswered (between K.takes sink.old sink.new) (answering A.answers answerer.old answerer.new) (text_of line.entry ∷ []) result }
{
    answerer.answer(line);
    write_text(sink, answerer.text())
}

/// Cuts this block into lines, and answers each line that an LF ends in it. Err at the first write that fails.
fn answer_block<K: Sink, A: LineAnswerer>(
    sink: &mut K,
    answerer: &mut A,
    cutter: &mut LineCutter,
    block: &[u8],
) -> Result<(), WriteFailed>
    ensures lines { LinesAnswered (between K.takes sink.old sink.new) (answering A.answers answerer.old answerer.new) (ended_within cutter.old block.now) result }
    ensures cutter { OnOk result (cutter.new ≡ held_after cutter.old block.now) }
{
    for byte in block {
        if *byte == LF {
            answer_line(sink, answerer, cutter.line())?;
            cutter.clear();
        } else {
            cutter.push(*byte);
        }
    }
    Ok(())
}

/// Answers the line that the end of the input ends; does nothing where no byte came since the last LF.
pub(crate) fn answer_last<K: Sink, A: LineAnswerer>(
    sink: &mut K,
    answerer: &mut A,
    cutter: &LineCutter,
) -> Result<(), WriteFailed>
    ensures { LinesAnswered (between K.takes sink.old sink.new) (answering A.answers answerer.old answerer.new) (option_to_list (last_line cutter.now)) result }
{
    match cutter.last() {
        Some(line) => answer_line(sink, answerer, line),
        None => Ok(()),
    }
}

/// Answers each line of the input as soon as it is complete, before anything more is read.
///
/// At Ok the source has given its end, and every line is answered and written, the last one too where no LF
/// ends it. Fault 1 comes where the source failed, and fault 3 once 2^62 bytes were read: the lines that an LF
/// ended are answered and written then. Fault 2 comes where the sink failed: the first lines are answered, and
/// what was written of the last answer is a beginning.
pub fn answer_lines<S: Source, K: Sink, A: LineAnswerer>(
    source: &mut S,
    sink: &mut K,
    answerer: &mut A,
) -> Result<(), LineFault>
    ensures { Run (between S.gives source.old source.new) (between K.takes sink.old sink.new) (answering A.answers answerer.old answerer.new) result }
{
    let mut block = [0u8; BLOCK_BYTES];
    let mut cutter = LineCutter::new();
    let mut total: u64 = 0;
    while total < MOST_BYTES {
        let count = source.fill(&mut block)?;
        if count == 0 {
            answer_last(sink, answerer, &cutter)?;
            return Ok(());
        }
        answer_block(sink, answerer, &mut cutter, &block[..count])?;
        total += count as u64;
    }
    Err(LineFault::TooMuch)
}
