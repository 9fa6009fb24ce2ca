//! The player of texts: scenes of `othello solve`.
//!
//! The head is `solve grain 0 2 6`, any grains from 0 to 6, and `ordered` may stand behind them, as alone; or it is
//! `solve visited`. The rows are `> LINE` and `< ANSWER`; all lines are one input.
ghost use Rattle.std.specs.Prelude.{◌≤◌, IfSome};

use crate::agreement::{Agreement, Done};
use crate::compared::compare_lines;
use crate::scenes::{Row, Scene};
use crate::talks::{TalkPart, gather};
use crate::words::{behind, has_word};
use line_io::{FromReader, FromWriter};
use solve_engine::{solve_bytes, solve_ordered, solve_visited};
use std::alloc::Global;

/// Plays a scene at each grain that its head names, and by `ordered` or `visited` where its head says so.
pub fn play_solve(alloc: Global, scene: &Scene<'_>, agreement: &mut Agreement) -> Done {
    let part = gather(alloc, b"", scene.rows.as_slice(), agreement)?;
    let head = scene.head;
    if has_word(head.text, "visited") {
        let came = visited(alloc, part.sent.as_slice());
        return compare_lines(agreement, head, part.dues.as_slice(), came.as_slice());
    }
    if has_word(head.text, "ordered") {
        let came = ordered(alloc, part.sent.as_slice());
        compare_lines(agreement, head, part.dues.as_slice(), came.as_slice())?;
    }
    let mut grains = behind(head.text, "grain");
    for _ in 0..7u8 {
        let Some(grain) = grains.number() else {
            break;
        };
        play_at(alloc, head, &part, grain, agreement)?;
    }
    Ok(())
}

/// The number as a grain, 0 to 6; None for any other.
fn grain_of(number: u64) -> Option<u8>
    ensures { IfSome result (λ grain. grain ≤ 6) }
{
    if number > 6 {
        return None;
    }
    Some(number as u8)
}

/// Plays the lines of a scene by `solve` at a grain.
fn play_at(
    alloc: Global,
    head: Row<'_>,
    part: &TalkPart<'_>,
    grain: u64,
    agreement: &mut Agreement,
) -> Done {
    let Some(grain) = grain_of(grain) else {
        return agreement.miss(head, "a grain from 0 to 6", "another");
    };
    let came = solved(alloc, part.sent.as_slice(), grain);
    compare_lines(agreement, head, part.dues.as_slice(), came.as_slice())
}

/// What `solve` writes for these bytes, at a grain.
fn solved(alloc: Global, sent: &[u8], grain: u8) -> Vec<u8>
    requires { grain ≤ 6 }
{
    let mut source = FromReader { reader: sent };
    let mut sink = FromWriter::new(Vec::new(alloc));
    let _end = solve_bytes(alloc, &mut source, &mut sink, grain);
    sink.writer
}

/// What `solve --ordered` writes for these bytes.
fn ordered(alloc: Global, sent: &[u8]) -> Vec<u8> {
    let mut source = FromReader { reader: sent };
    let mut sink = FromWriter::new(Vec::new(alloc));
    let _end = solve_ordered(&mut source, &mut sink);
    sink.writer
}

/// What `solve --visited` writes for these bytes.
fn visited(alloc: Global, sent: &[u8]) -> Vec<u8> {
    let mut source = FromReader { reader: sent };
    let mut sink = FromWriter::new(Vec::new(alloc));
    let _end = solve_visited(&mut source, &mut sink);
    sink.writer
}
