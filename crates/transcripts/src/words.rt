//! The player of texts: words and numbers of a line, words of rows, and lines of words.
use crate::agreement::Done;
use std::fmt::Write;

/// The number that a word stands for: decimal digits, or `0o` and octal ones.
pub fn number(word: &str) -> Option<u64> {
    match word.strip_prefix("0o") {
        Some(octal) => u64::from_str_radix(octal, 8).ok(),
        None => word.parse::<u64>().ok(),
    }
}

/// Whether this word stands in the line.
pub fn has_word(line: &str, word: &str) -> bool {
    for one in line.split_whitespace() {
        if one == word {
            return true;
        }
    }
    false
}

/// The words of a line behind this word.
pub fn behind<'t>(line: &'t str, word: &str) -> LineWords<'t> {
    let mut words = LineWords::of(line);
    for _ in 0..line.len() {
        match words.word() {
            Some(first) if first != word => {}
            _ => return words,
        }
    }
    words
}

/// The number behind a word of a line; None where there is none.
pub fn option(line: &str, word: &str) -> Option<u64> {
    behind(line, word).number()
}

/// The number of 32 bits behind this word of a line; None where there is none.
pub fn small_option(line: &str, word: &str) -> Option<u32> {
    behind(line, word).small()
}

/// The words of a line that are not read yet. Words are parted by single spaces.
#[derive(Clone, Copy)]
pub struct LineWords<'t> {
    rest: &'t str,
}

impl<'t> LineWords<'t> {
    /// All words of a line, to be read one by one.
    pub fn of(line: &'t str) -> LineWords<'t> {
        LineWords { rest: line }
    }

    /// Whether all words of the line were read.
    pub fn is_empty(&self) -> bool {
        self.rest.is_empty()
    }

    /// Reads the next word; None where all were read.
    pub fn word(&mut self) -> Option<&'t str> {
        let rest = self.rest;
        if rest.is_empty() {
            return None;
        }
        match rest.split_once(' ') {
            Some((word, others)) => {
                self.rest = others;
                Some(word)
            }
            None => {
                self.rest = "";
                Some(rest)
            }
        }
    }

    /// Reads the next word as a number (`number`); None where it is none.
    pub fn number(&mut self) -> Option<u64> {
        number(self.word()?)
    }

    /// The next word of the line as a number of 32 bits; None where it is none.
    pub fn small(&mut self) -> Option<u32> {
        u32::try_from(self.number()?).ok()
    }

    /// The next word of the line as a number of 8 bits; None where it is none.
    pub fn byte(&mut self) -> Option<u8> {
        u8::try_from(self.number()?).ok()
    }

    /// Reads the next word as a score, which may be negative; None where it is none.
    pub fn score(&mut self) -> Option<i32> {
        self.word()?.parse::<i32>().ok()
    }

    /// Reads the next word as two numbers with a dot between them; None where it is none.
    pub fn pair(&mut self) -> Option<(u64, u64)> {
        let (first, second) = self.word()?.split_once('.')?;
        Some((number(first)?, number(second)?))
    }
}

/// The first word of a row; empty where it has none.
pub fn first_word(row: &str) -> &str {
    LineWords::of(row).word().unwrap_or("")
}

/// A row without its first word and the space behind it.
pub fn rest_of(row: &str) -> &str {
    match row.split_once(' ') {
        Some((_word, rest)) => rest,
        None => "",
    }
}

/// Appends a line: a word, and numbers.
pub fn tell(came: &mut String, word: &str, numbers: &[u64]) -> Done {
    came.push_str(word)?;
    push_numbers(came, numbers)?;
    came.push_str("\n")
}

/// Appends numbers, each behind a space.
pub fn push_numbers(text: &mut String, numbers: &[u64]) -> Done {
    for number in numbers {
        push_number(text, *number)?;
    }
    Ok(())
}

/// Appends a space and a number.
pub fn push_number(text: &mut String, number: u64) -> Done {
    write!(text, " {number}")
}
