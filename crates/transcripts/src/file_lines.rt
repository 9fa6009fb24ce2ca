//! The player of texts: the lines of a site's file in a scene, and what rows change in it.
use crate::agreement::Done;
use crate::scenes::Row;
use crate::words::{first_word, number, rest_of};
use std::alloc::{AllocError, Global};

/// The lines of a file.
#[derive(Drop)]
pub struct FileLines {
    alloc: Global,
    lines: Vec<String>,
}

/// Appends a line of a site's file.
pub fn push_line(text: &mut String, line: &str) -> Done {
    text.push_str(line)?;
    text.push_str("\n")
}

/// Appends to a file's text the lines that rows put in the place of the line of this number, or that line itself where
/// no row changes it.
fn push_changed(text: &mut String, rows: &[Row<'_>], place: u64, line: &str) -> Done {
    let mut is_changed = false;
    for row in rows {
        if number(first_word(row.text)) == Some(place) {
            push_line(text, rest_of(row.text))?;
            is_changed = true;
        }
    }
    if is_changed {
        return Ok(());
    }
    push_line(text, line)
}

/// Whether one of these rows of a text has this first word.
pub fn has_row(rows: &[Row<'_>], word: &str) -> bool {
    for row in rows {
        if first_word(row.text) == word {
            return true;
        }
    }
    false
}

impl FileLines {
    /// The lines of a site's file: none yet.
    pub fn new(alloc: Global) -> FileLines {
        FileLines {
            alloc,
            lines: Vec::new(alloc),
        }
    }

    /// Takes the lines that rows say as those of a site's file.
    pub fn take(&mut self, rows: &[Row<'_>]) -> Done {
        for row in rows {
            match first_word(row.text) {
                "file" => self.lines.clear(),
                "|" => self
                    .lines
                    .push(String::from_str(self.alloc, rest_of(row.text))?)?,
                _ => {}
            }
        }
        Ok(())
    }

    /// The text of a site's file, with what these rows change in it.
    pub fn text(&self, rows: &[Row<'_>]) -> Result<String, AllocError> {
        let mut text = String::new(self.alloc);
        let mut place = 0u64;
        for line in &self.lines {
            place = place.saturating_add(1);
            push_changed(&mut text, rows, place, line.as_str())?;
        }
        Ok(text)
    }
}
