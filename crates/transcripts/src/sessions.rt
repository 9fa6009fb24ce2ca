//! The player of texts: the rows of sessions at one desk.
//!
//! Rows `NAME> LINE` and `NAME< ANSWER` that follow each other are a part of that session; the name may be empty. `NAME! end`
//! ends the session's input: a later row of that name begins another session. Where the rows are at an end, so is each
//! session. `! work N` lets the worker offer N steps, and `! close` closes the desk. At a line WAIT the worker runs all jobs.
ghost use Rattle.std.specs.Prelude.{◌≡◌, ◌≤◌, length};

use crate::agreement::{Agreement, Done};
use crate::compared::compare_lines;
use crate::played_desk::{GOES_ON, PlayedDesk, PlayedSession, WENT_ON};
use crate::scenes::Row;
use crate::talks::{TalkLine, gather, read_talk_line};
use crate::words::option;
use desk::DeskLedger;
use std::alloc::{AllocError, Allocator};
use std::sync::Wait;

/// What a session sends first where it begins.
const NOTHING: &[u8] = b"";

/// How many of the first rows are of the session of this name.
fn part_of(rows: &[Row<'_>], name: &str) -> usize
    ensures { result ≤ length rows.now }
{
    let mut count = 0usize;
    for row in rows {
        if !is_of(*row, name) {
            break;
        }
        count = count.saturating_add(1);
    }
    count.min(rows.len())
}

/// Whether a row is a line that the session of this name sends, or that is due to it.
fn is_of(row: Row<'_>, name: &str) -> bool {
    match read_talk_line(row.text) {
        TalkLine::Sent(whose, _) | TalkLine::Due(whose, _) => whose == name,
        TalkLine::Between(_, _) | TalkLine::Nothing => false,
    }
}

/// Whether the session of this name goes on after a part that these rows follow: they don't begin with its end, and the
/// scene isn't over.
fn goes_on(rows: &[Row<'_>], name: &str) -> bool {
    for row in rows {
        match read_talk_line(row.text) {
            TalkLine::Sent(whose, _) if whose == name => return true,
            TalkLine::Between(whose, "end") if whose == name => return false,
            _ => {}
        }
    }
    !rows.is_empty()
}

impl<'t, 'a, L: DeskLedger, R: Wait, A: Allocator + Clone> PlayedDesk<'t, 'a, L, R, A> {
    /// Plays all rows of a scene of sessions.
    pub fn play(&mut self, rows: &[Row<'t>], agreement: &mut Agreement) -> Done
        requires { L.all ≡ L.parts }
    {
        let mut at = 0usize;
        for _ in 0..rows.len() {
            at = at.saturating_add(self.play_from(rows, at, agreement)?);
        }
        Ok(())
    }

    /// Plays the row of this place, and those of the same part of its session. Returns how many these are; 0 where no row
    /// is left.
    fn play_from(
        &mut self,
        rows: &[Row<'t>],
        at: usize,
        agreement: &mut Agreement,
    ) -> Result<usize, AllocError>
        requires { L.all ≡ L.parts }
    {
        let (_, rest) = rows.split_at(at.min(rows.len()));
        match rest.first() {
            Some(row) => self.play_first(rest, *row, agreement),
            None => Ok(0),
        }
    }

    /// Plays the first of these rows, and those of the same part of its session. Returns how many these are.
    fn play_first(
        &mut self,
        rows: &[Row<'t>],
        row: Row<'t>,
        agreement: &mut Agreement,
    ) -> Result<usize, AllocError>
        requires { L.all ≡ L.parts }
    {
        match read_talk_line(row.text) {
            TalkLine::Sent(name, _) | TalkLine::Due(name, _) => {
                let (now, later) = rows.split_at(part_of(rows, name));
                self.talk(now, name, goes_on(later, name), agreement)?;
                return Ok(now.len());
            }
            TalkLine::Between(name, words) => self.happen(row, name, words, agreement)?,
            TalkLine::Nothing => agreement.miss(row, "a line of a session", row.text)?,
        }
        Ok(1)
    }

    /// Plays a part of a session, after which its tenant stays or not.
    fn talk(
        &mut self,
        rows: &[Row<'t>],
        name: &'t str,
        stays: bool,
        agreement: &mut Agreement,
    ) -> Done
        requires { L.all ≡ L.parts }
    {
        let Some(end) = rows.last() else {
            return Ok(());
        };
        let at = self.session_of(name)?;
        let begun = self.is_seated(at);
        let first = if begun { GOES_ON } else { NOTHING };
        let part = gather(self.alloc, first, rows, agreement)?;
        let came = self.serve(at, part.sent.as_slice(), stays);
        let written = without_welcome(came.as_slice(), begun);
        compare_lines(agreement, *end, part.dues.as_slice(), written)
    }

    /// The place of the session of this name, which is a new one where none had it.
    fn session_of(&mut self, name: &'t str) -> Result<usize, AllocError> {
        if let Some(at) = self.find(name) {
            return Ok(at);
        }
        let at = self.sessions.len();
        self.sessions
            .push(PlayedSession::new(name, self.rt, self.desk))?;
        Ok(at)
    }

    /// Does what a row says happens between two lines of a session.
    fn happen(&mut self, row: Row<'t>, name: &str, words: &str, agreement: &mut Agreement) -> Done {
        if let Some(steps) = option(words, "work") {
            self.worker.work(steps);
            return Ok(());
        }
        if words == "close" {
            self.worker.close();
            return Ok(());
        }
        let is_there = match self.find(name) {
            Some(at) => self.is_seated(at),
            None => false,
        };
        if words == "end" && !is_there {
            return Ok(());
        }
        agreement.miss(row, "`work N`, `close` or `end`", words)
    }
}

/// What was written, without the answer by which a session goes on.
fn without_welcome(came: &[u8], begun: bool) -> &[u8] {
    if !begun {
        return came;
    }
    came.strip_prefix(WENT_ON).unwrap_or(came)
}
