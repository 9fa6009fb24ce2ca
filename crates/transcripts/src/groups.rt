//! The player of texts: rows as groups: what is put in, and the lines that are due then.
use crate::agreement::Done;
use crate::scenes::Row;
use crate::talks::{TalkLine, read_talk_line};
use std::alloc::Global;

/// Rows that are put in together, and the lines that are due then.
#[derive(Drop)]
pub struct RowGroup<'t> {
    /// The last row so far: at first the scene's head.
    pub end: Row<'t>,
    pub given: Vec<Row<'t>>,
    pub dues: Vec<Row<'t>>,
}

impl<'t> RowGroup<'t> {
    /// A group with this head, and no rows behind it.
    pub fn new(alloc: Global, head: Row<'t>) -> RowGroup<'t> {
        RowGroup {
            end: head,
            given: Vec::new(alloc),
            dues: Vec::new(alloc),
        }
    }

    /// Whether this row begins another group. All that is sent in a talk is of one group.
    pub fn is_over(&self, row: Row<'t>) -> bool {
        match read_talk_line(row.text) {
            TalkLine::Nothing => !self.dues.is_empty(),
            TalkLine::Sent(_, _) | TalkLine::Due(_, _) | TalkLine::Between(_, _) => false,
        }
    }

    /// Takes a row. A line that is due is without its sign, where that names nobody.
    pub fn take(&mut self, row: Row<'t>) -> Done {
        self.end = row;
        match read_talk_line(row.text) {
            TalkLine::Due("", text) => self.dues.push(row.with(text))?,
            TalkLine::Due(_, _) | TalkLine::Between(_, _) => self.dues.push(row)?,
            TalkLine::Sent(_, _) | TalkLine::Nothing => self.given.push(row)?,
        }
        Ok(())
    }

    /// Forgets the group's rows.
    pub fn clear(&mut self) {
        self.given.clear();
        self.dues.clear();
    }
}
