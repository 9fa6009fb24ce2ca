//! Cutting the bytes of an input into lines.
ghost use Rattle.std.specs.Prelude.{◌≡◌, ◌≢◌, [], Some, option_map};
ghost use Rattle.line_io.specs.Held.{with_byte, ended_line, last_line};
ghost use Rattle.std.specs.Str.Lines.{strip_carriage_return};
ghost use Rattle.line_io.specs.Views.{text_of};

use std::marker::Model;

/// The most bytes that a line has without its end.
const LINE_BYTES: usize = 128;

/// The byte that ends a line.
pub const LF: u8 = 10;

/// The byte that is left out where it stands directly before an LF.
const CR: u8 = 13;

/// A line without its end.
#[derive(Clone, Copy)]
pub enum Line<'a> {
    /// A line of at most 128 bytes.
    Whole(&'a [u8]),
    /// A longer line, whose bytes are gone.
    TooLong,
}

/// What came after the 128 bytes that a cutter has kept.
#[derive(Clone, Copy)]
enum Beyond {
    Nothing,
    /// One CR, which isn't part of the line if an LF comes next.
    Return,
    /// Another byte than one CR, or several: the line is too long.
    More,
}

/// Takes the bytes of a line one after another, and keeps the first 128 of them.
///
/// Contracts see the bytes since the last LF, or `None` where they are too many for a line.
#[derive(Drop)]
pub struct LineCutter {
    bytes: [u8; LINE_BYTES],
    len: usize,
    beyond: Beyond,
}

impl Model for LineCutter {
    ghost use Rattle.std.specs.Prelude.{ℕ, List, Option};

    ghost Value = { Option (List ℕ) };

    ghost use Rattle.line_io.specs.Cutter.{bytes_held, IsCutter};

    ghost view = { bytes_held };

    ghost invariant = { IsCutter };
}

impl LineCutter {
    /// A cutter that has no byte of a line yet.
    pub fn new() -> LineCutter
        ensures { result ≡ Some [] }
    {
        LineCutter {
            bytes: [0; LINE_BYTES],
            len: 0,
            beyond: Beyond::Nothing,
        }
    }

    /// Forgets the bytes held: the next line begins.
    pub fn clear(&mut self)
        ensures { self.new ≡ Some [] }
    {
        self.len = 0;
        self.beyond = Beyond::Nothing;
    }

    /// Takes the next byte of the line, which is no LF.
    pub fn push(&mut self, byte: u8)
        requires { byte ≢ 10 }
        ensures { self.new ≡ with_byte self.old byte }
    {
        if self.len < LINE_BYTES {
            self.bytes[self.len] = byte;
            self.len += 1;
            return;
        }
        self.beyond = match self.beyond {
            Beyond::Nothing if byte == CR => Beyond::Return,
            _ => Beyond::More,
        };
    }

    /// The line of the bytes held, where an LF ends it now.
    pub fn line(&self) -> Line<'_>
        ensures { text_of result ≡ ended_line self.now }
    {
        match self.beyond {
            Beyond::More => Line::TooLong,
            Beyond::Return => Line::Whole(&self.bytes[..]),
            Beyond::Nothing => Line::Whole(without_return(&self.bytes[..self.len])),
        }
    }

    /// The line, where the end of the input ends it now; None where no byte came since the last LF.
    pub fn last(&self) -> Option<Line<'_>>
        ensures { option_map text_of result ≡ last_line self.now }
    {
        match self.beyond {
            Beyond::Nothing if self.len == 0 => None,
            Beyond::Nothing => Some(Line::Whole(&self.bytes[..self.len])),
            _ => Some(Line::TooLong),
        }
    }
}

/// The bytes less the one CR at their end, if there is one.
fn without_return(bytes: &[u8]) -> &[u8]
    ensures { result.now ≡ strip_carriage_return bytes.now }
{
    match bytes.split_last() {
        Some((last, front)) if *last == CR => front,
        _ => bytes,
    }
}
