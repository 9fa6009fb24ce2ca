//! What is wrong with a site's file.
use std::alloc::{AllocError, Global};
use thiserror::Error;

/// Why a file can't be used.
#[derive(Debug, Drop, Error)]
pub enum FileFault {
    /// There was no memory to read it.
    #[error("no memory to read the file")]
    Memory(#[from(alloc)] AllocError),
    /// Something in it is wrong.
    #[error("line {line}: {what}")]
    Wrong {
        /// The line, from 1 on.
        line: usize,
        /// What is wrong there.
        what: String,
    },
}

impl FileFault {
    /// The fault of this line, in these words.
    pub(crate) fn at(alloc: Global, line: usize, what: &str) -> FileFault {
        match String::from_str(alloc, what) {
            Ok(what) => FileFault::Wrong { line, what },
            Err(fault) => FileFault::Memory(fault),
        }
    }

    /// The fault that the reader of TOML found.
    pub(crate) fn of_toml(alloc: Global, text: &str, fault: &toml::de::Error) -> FileFault {
        let start = match fault.span() {
            Some(span) => span.start,
            None => return FileFault::Memory(AllocError),
        };
        let before = text
            .bytes()
            .take(start)
            .filter(|byte| *byte == b'\n')
            .count();
        FileFault::at(alloc, before.saturating_add(1), fault.message())
    }
}

/// The line of a file where this word of a table stands, or the table's head where it doesn't: of the tables of this head the
/// one of this number, from 0. The file itself has the head ""; a word of it may also be a table's head.
pub(crate) fn line_of(text: &str, head: &str, number: usize, key: &str) -> usize {
    let mut search = Search {
        seen: 0,
        is_there: head.is_empty(),
        found: 1,
    };
    for (place, line) in text.split('\n').enumerate() {
        let words = line.trim();
        let here = place.saturating_add(1);
        if search.ends_at(words, head, key) {
            return here;
        }
        search = search.after(words, here, head, number);
    }
    search.found
}

/// How far the search for a word has come: how many tables of the head were seen, whether the last is the one that has the word,
/// and the line to name where the word doesn't come.
#[derive(Clone, Copy)]
struct Search {
    seen: usize,
    is_there: bool,
    found: usize,
}

impl Search {
    /// Whether a search of a file's lines for a word ends at this line, since the word stands there.
    fn ends_at(self, line: &str, head: &str, key: &str) -> bool {
        if line.starts_with('[') {
            head.is_empty() && head_of(line) == key
        } else {
            self.is_there && key_of(line) == key
        }
    }

    /// Goes on with a search of a file's lines for a word, past a line where the word doesn't stand.
    fn after(self, line: &str, here: usize, head: &str, number: usize) -> Search {
        if line.starts_with('[') {
            self.after_head(head_of(line) == head, here, number)
        } else {
            self
        }
    }

    /// Goes on with a search of a file's lines for a word, past the head of a table: `is_same` says whether it is a
    /// table of the name looked for.
    fn after_head(self, is_same: bool, here: usize, number: usize) -> Search {
        let is_there = is_same && self.seen == number;
        Search {
            seen: if is_same {
                self.seen.saturating_add(1)
            } else {
                self.seen
            },
            is_there,
            found: if is_there { here } else { self.found },
        }
    }
}

/// The words in the brackets of a line.
fn head_of(line: &str) -> &str {
    let inside = line.trim_start_matches('[');
    match inside.split_once(']') {
        Some((head, _)) => head.trim(),
        None => inside,
    }
}

/// The word before the sign of equality.
fn key_of(line: &str) -> &str {
    match line.split_once('=') {
        Some((key, _)) => key.trim().trim_matches('"'),
        None => "",
    }
}
