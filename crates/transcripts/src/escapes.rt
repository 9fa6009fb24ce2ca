//! The player of texts: the bytes that a line of a talk stands for.
use line_io::LF;
use std::alloc::AllocError;

/// How much of an escape was read.
#[derive(Clone, Copy)]
enum Escape {
    /// None has begun.
    Plain,
    /// The byte `\`.
    Begun,
    /// `\x`.
    High,
    /// `\x` and this digit.
    Low(u8),
    /// `\-`, after which nothing may come.
    Cut,
}

/// Appends the bytes that a text stands for, and an LF. A byte stands for itself, but for the escapes: `\xHH` is the byte
/// of these two hexadecimal digits, `\r` a CR, `\s` a space, `\\` a `\`, and `\-` at the end says that no LF follows, as the
/// input ends there or is lost. False where an escape is none of these.
pub fn push_line(text: &str, bytes: &mut Vec<u8>) -> Result<bool, AllocError> {
    let mut escape = Escape::Plain;
    for byte in text.as_bytes() {
        let Some(next) = take(escape, *byte, bytes)? else {
            return Ok(false);
        };
        escape = next;
    }
    match escape {
        Escape::Plain => bytes.push(LF)?,
        Escape::Cut => {}
        Escape::Begun | Escape::High | Escape::Low(_) => return Ok(false),
    }
    Ok(true)
}

/// Takes the next byte of a text. None where it goes on with no escape.
fn take(escape: Escape, byte: u8, bytes: &mut Vec<u8>) -> Result<Option<Escape>, AllocError> {
    match escape {
        Escape::Plain if byte == b'\\' => Ok(Some(Escape::Begun)),
        Escape::Plain => {
            bytes.push(byte)?;
            Ok(Some(Escape::Plain))
        }
        Escape::Begun => begin(byte, bytes),
        Escape::High => Ok(hex_value(byte).map(|digit| Escape::Low(digit))),
        Escape::Low(high) => finish(high, byte, bytes),
        Escape::Cut => Ok(None),
    }
}

/// Takes the byte after a `\`, which begins an escape.
fn begin(byte: u8, bytes: &mut Vec<u8>) -> Result<Option<Escape>, AllocError> {
    let stands_for = match byte {
        b'x' => return Ok(Some(Escape::High)),
        b'-' => return Ok(Some(Escape::Cut)),
        b'r' => b'\r',
        b's' => b' ',
        b'\\' => b'\\',
        _ => return Ok(None),
    };
    bytes.push(stands_for)?;
    Ok(Some(Escape::Plain))
}

/// Takes the second hexadecimal digit of an escape `\xHH`, which ends it.
fn finish(high: u8, byte: u8, bytes: &mut Vec<u8>) -> Result<Option<Escape>, AllocError> {
    let Some(low) = hex_value(byte) else {
        return Ok(None);
    };
    bytes.push(high << 4 | low)?;
    Ok(Some(Escape::Plain))
}

/// The value of a hexadecimal digit; None for any other byte.
fn hex_value(byte: u8) -> Option<u8> {
    let digit = char::from(byte).to_digit(16)?;
    Some(digit as u8)
}
