//! Answering the lines of an input until one of them ends the talk.
ghost use Rattle.std.specs.Prelude.{◌≡◌, [], ◌∷◌, Some, Ok, Bool, false, not, IfOk, OnOk};
ghost use Rattle.std.specs.Option.{option_to_list};
ghost use Rattle.line_io.specs.Leads.{between, answering};
ghost use Rattle.line_io.specs.Lines.{LineText};
ghost use Rattle.line_io.specs.Held.{held_after, ended_within, ended_line, last_line};
ghost use Rattle.line_io.specs.Views.{text_of};
ghost use Rattle.line_io.specs.Writes.{LinesAnswered};
ghost use Rattle.line_io.specs.Talks.{Talk, upto, none_ends, written, end_of};

use crate::answering::{BLOCK_BYTES, LineAnswerer, answer_line};
use crate::cutting::{LF, Line, LineCutter};
use crate::faults::{LineFault, WriteFailed};
use crate::input::Source;
use crate::output::Sink;
use std::sync::Wait;

/// Tells which lines end a talk.
pub trait Ends {
    /// Which lines end a talk.
    ghost ends: { LineText → Bool };

    /// Whether this line of the input ends the talk.
    fn is_last(&self, line: Line<'_>) -> bool
        ensures { result ≡ ends (text_of line.entry) };
}

/// How a talk ended.
#[derive(Clone, Copy, Debug, PartialEq, Eq)]
pub enum TalkEnd {
    /// By a line that ends it. That line is answered, and nothing after it.
    Line,
    /// By the end of the input. All lines are answered, and none of them ends a talk.
    Input,
}

/// Answers the line that an LF ends now, and tells whether it ends the talk.
fn talk_line<K: Sink, A: LineAnswerer + Ends>(
    sink: &mut K,
    answerer: &mut A,
    cutter: &mut LineCutter,
) -> Result<bool, WriteFailed>
    ensures lines { LinesAnswered (between K.takes sink.old sink.new) (answering A.answers answerer.old answerer.new) (ended_line cutter.old ∷ []) (written result) }
    ensures last { IfOk result (λ last. last ≡ A.ends (ended_line cutter.old)) }
    ensures cutter { OnOk result (cutter.new ≡ Some []) }
{
    let last = answerer.is_last(cutter.line());
    answer_line(sink, answerer, cutter.line())?;
    cutter.clear();
    Ok(last)
}

/// Answers each line that ends in this block, up to one that ends the talk, and tells whether one did.
fn talk_block<K: Sink, A: LineAnswerer + Ends>(
    sink: &mut K,
    answerer: &mut A,
    cutter: &mut LineCutter,
    block: &[u8],
) -> Result<bool, WriteFailed>
    ensures lines { LinesAnswered (between K.takes sink.old sink.new) (answering A.answers answerer.old answerer.new) (upto A.ends (ended_within cutter.old block.now)) (written result) }
    ensures ended { IfOk result (λ last. last ≡ not (none_ends A.ends (ended_within cutter.old block.now))) }
    ensures cutter { result ≡ Ok false → cutter.new ≡ held_after cutter.old block.now }
{
    for byte in block {
        if *byte == LF {
            if talk_line(sink, answerer, cutter)? {
                return Ok(true);
            }
        } else {
            cutter.push(*byte);
        }
    }
    Ok(false)
}

/// Answers the line that the end of the input ends, if there is one, and tells how the talk ended.
fn talk_last<K: Sink, A: LineAnswerer + Ends>(
    sink: &mut K,
    answerer: &mut A,
    cutter: &LineCutter,
) -> Result<TalkEnd, WriteFailed>
    ensures lines { LinesAnswered (between K.takes sink.old sink.new) (answering A.answers answerer.old answerer.new) (option_to_list (last_line cutter.now)) (written result) }
    ensures end { IfOk result (λ end. end ≡ end_of (none_ends A.ends (option_to_list (last_line cutter.now)))) }
{
    match cutter.last() {
        Some(line) => {
            let ends = answerer.is_last(line);
            answer_line(sink, answerer, line)?;
            Ok(if ends { TalkEnd::Line } else { TalkEnd::Input })
        }
        None => Ok(TalkEnd::Input),
    }
}

/// Answers each line of the input as soon as it is complete, before anything more is read, up to a line that ends
/// the talk.
///
/// At Ok either such a line was answered, and nothing after it is, or the source has given its end, and every line
/// is answered, the last one too where no LF ends it. Fault 1 comes where the source failed: the lines that an LF
/// ended are answered then. Fault 2 comes where the sink failed: the first lines are answered, and what was written
/// of the last answer is a beginning. There is no fault 3: a talk may last for ever.
pub fn talk_lines<S: Source, K: Sink, A: LineAnswerer + Ends, R: Wait>(
    rt: &R,
    source: &mut S,
    sink: &mut K,
    answerer: &mut A,
) -> Result<TalkEnd, LineFault>
    ensures { Talk (between S.gives source.old source.new) (between K.takes sink.old sink.new) (answering A.answers answerer.old answerer.new) A.ends result }
{
    let mut block = [0u8; BLOCK_BYTES];
    let mut cutter = LineCutter::new();
    for _ in rt.forever() {
        let count = source.fill(&mut block)?;
        if count == 0 {
            return Ok(talk_last(sink, answerer, &cutter)?);
        }
        if talk_block(sink, answerer, &mut cutter, &block[..count])? {
            return Ok(TalkEnd::Line);
        }
    }
    unreachable!()
}
