//! What a line of a site's operator asks.
ghost use Rattle.std.specs.Prelude.{◌≡◌};
ghost use Rattle.protocol.specs.Words.{split_at_space};
ghost use Rattle.site_rules.specs.Commands.{bare_command, command_of, command_with, end_by, session_by};
ghost use Rattle.site_rules.specs.Views.{command_seen};

use protocol::{split_at_space, word_number};

/// Whose sessions are meant.
#[derive(Clone, Copy)]
pub enum Whose<'a> {
    /// Those of the customer of this name.
    Customer(&'a [u8]),
    /// Those of the guest of this address.
    Address(&'a [u8]),
    /// The one of this number, in the hall of this number, from 1 on.
    Session(u32, u32),
}

/// What the operator asks.
#[derive(Clone, Copy)]
pub enum Command<'a> {
    /// Who is there, and what everybody has.
    Stats,
    /// That these sessions end.
    End(Whose<'a>),
    /// That nobody else comes, and that the site ends when all have left, at the latest after so many milliseconds.
    Drain(u64),
    /// That the site go by the file as it is now; or also that those end who are beyond it (true).
    Reload(bool),
    /// Nothing that is known.
    Unknown,
}

/// What a line asks. A DRAIN has a number of seconds.
pub fn read_command(line: &[u8]) -> Command<'_>
    ensures { command_seen result ≡ command_of line.now }
{
    match split_at_space(line) {
        None => bare_command(line),
        Some((word, rest)) => command_with(word, rest),
    }
}

/// What a line of one word asks of the site for its operator.
fn bare_command<'a>(word: &[u8]) -> Command<'a>
    ensures { command_seen result ≡ bare_command word.now }
{
    if word == b"STATS".as_slice() {
        Command::Stats
    } else if word == b"RELOAD".as_slice() {
        Command::Reload(false)
    } else {
        Command::Unknown
    }
}

/// What a line of a word and more words asks of the site for its operator.
fn command_with<'a>(word: &[u8], rest: &'a [u8]) -> Command<'a>
    ensures { command_seen result ≡ command_with word.now rest.now }
{
    if word == b"RELOAD".as_slice() && rest == b"END".as_slice() {
        Command::Reload(true)
    } else if word == b"DRAIN".as_slice() {
        match word_number(rest) {
            Some(seconds) => Command::Drain(u64::from(seconds) * 1_000),
            None => Command::Unknown,
        }
    } else if word == b"END".as_slice() {
        end_of(rest)
    } else {
        Command::Unknown
    }
}

/// Whose sessions the operator's line END names, by the words after it.
fn end_of(rest: &[u8]) -> Command<'_>
    ensures { command_seen result ≡ end_by (split_at_space rest.now) }
{
    let Some((kind, name)) = split_at_space(rest) else {
        return Command::Unknown;
    };
    if kind == b"CUSTOMER".as_slice() {
        Command::End(Whose::Customer(name))
    } else if kind == b"ADDRESS".as_slice() {
        Command::End(Whose::Address(name))
    } else if kind == b"SESSION".as_slice() {
        session_of(name)
    } else {
        Command::Unknown
    }
}

/// The session of a hall's number and its own: `HALL NUMBER`.
fn session_of(name: &[u8]) -> Command<'_>
    ensures { command_seen result ≡ session_by (split_at_space name.now) }
{
    let Some((hall, number)) = split_at_space(name) else {
        return Command::Unknown;
    };
    match (word_number(hall), word_number(number)) {
        (Some(hall), Some(number)) => Command::End(Whose::Session(hall, number)),
        _ => Command::Unknown,
    }
}
