//! The token in a line HELLO of a site's session, which says whose the session is.
ghost use Rattle.std.specs.Prelude.{◌≡◌};
ghost use Rattle.std.specs.Option.{option_copied};
ghost use Rattle.site_office.specs.Tokens.{is_token_byte, is_token, token_after, token_of, without_token};

use protocol::split_at_space;

/// Whether a byte may stand in a token: printable ASCII but the space, or beyond ASCII.
fn is_token_byte(byte: u8) -> bool
    ensures { result ≡ is_token_byte byte }
{
    byte > b' ' && byte != 127
}

/// Whether a word is a token: one byte or more, each of which may stand in one.
fn is_token(word: &[u8]) -> bool
    ensures { result ≡ is_token word.now }
{
    if word.is_empty() {
        return false;
    }
    for byte in word {
        if !is_token_byte(*byte) {
            return false;
        }
    }
    true
}

/// What follows the second of two spaces, where it is a token and no third follows; None where it is none, or there is no second space, or
/// a third.
fn token_after(rest: &[u8]) -> Option<&[u8]>
    ensures { option_copied result ≡ token_after rest.now }
{
    let (_, rest) = split_at_space(rest)?;
    let (_, token) = split_at_space(rest)?;
    match split_at_space(token) {
        None if is_token(token) => Some(token),
        _ => None,
    }
}

/// The token of a line: the third word after HELLO, where the line has just three, with one space before each, and that is a token; None
/// for any other line.
pub fn token_of(line: &[u8]) -> Option<&[u8]>
    ensures { option_copied result ≡ token_of line.now }
{
    let (word, rest) = split_at_space(line)?;
    if word == b"HELLO".as_slice() {
        token_after(rest)
    } else {
        None
    }
}

/// A line less its token and the space before it; a line without a token as it is.
pub fn without_token(line: &[u8]) -> &[u8]
    ensures { result.now ≡ without_token line.now }
{
    match token_of(line) {
        None => line,
        Some(token) => &line[..line.len() - token.len() - 1],
    }
}
