//! The player of texts: the lines of talks.
use crate::agreement::Agreement;
use crate::escapes::push_line;
use crate::scenes::Row;
use crate::words::{first_word, rest_of};
use std::alloc::{AllocError, Global};

/// A row of a talk. Its first word is a name and a sign; what follows after one space is the text. Where several talk,
/// each has a name of its own; else it is empty.
#[derive(Clone, Copy)]
pub enum TalkLine<'t> {
    /// `NAME> TEXT`: this line is sent.
    Sent(&'t str, &'t str),
    /// `NAME< TEXT`: this line is due.
    Due(&'t str, &'t str),
    /// `NAME! TEXT`: what happens between two lines.
    Between(&'t str, &'t str),
    /// No row of a talk.
    Nothing,
}

/// What a row of a talk says: a line that is sent or due, or what happens.
pub fn read_talk_line(text: &str) -> TalkLine<'_> {
    let (first, rest) = (first_word(text), rest_of(text));
    if let Some(name) = first.strip_suffix('>') {
        return TalkLine::Sent(name, rest);
    }
    if let Some(name) = first.strip_suffix('<') {
        return TalkLine::Due(name, rest);
    }
    match first.strip_suffix('!') {
        Some(name) => TalkLine::Between(name, rest),
        None => TalkLine::Nothing,
    }
}

/// What a part of a talk sends, and what is due.
#[derive(Drop)]
pub struct TalkPart<'t> {
    pub sent: Vec<u8>,
    pub dues: Vec<Row<'t>>,
}

impl<'t> TalkPart<'t> {
    /// Takes a row. False where it is neither sent nor due, or has a wrong escape.
    fn take(&mut self, row: Row<'t>) -> Result<bool, AllocError> {
        match read_talk_line(row.text) {
            TalkLine::Sent(_, text) => push_line(text, &mut self.sent),
            TalkLine::Due(_, text) => {
                self.dues.push(row.with(text))?;
                Ok(true)
            }
            TalkLine::Between(_, _) | TalkLine::Nothing => Ok(false),
        }
    }
}

/// What these rows send, behind this, and what is due.
pub fn gather<'t>(
    alloc: Global,
    first: &[u8],
    rows: &[Row<'t>],
    agreement: &mut Agreement,
) -> Result<TalkPart<'t>, AllocError> {
    let mut part = TalkPart {
        sent: Vec::new(alloc),
        dues: Vec::new(alloc),
    };
    part.sent.extend_from_slice(first)?;
    for row in rows {
        if !part.take(*row)? {
            agreement.miss(*row, "a line that is sent or due", row.text)?;
        }
    }
    Ok(part)
}
