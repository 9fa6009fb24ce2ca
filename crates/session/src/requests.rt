//! What a session's line asks for, or its first fault.
ghost use Rattle.std.specs.Prelude.{◌≡◌, Some, option_map};
ghost use Rattle.line_io.specs.Views.{text_of};
ghost use Rattle.protocol.specs.Questions.{question};
ghost use Rattle.session.specs.Requests.{request, quota_of, ask_request, command_alone, command_with_one, command_with_two, line_command, command_request};
ghost use Rattle.session.specs.Views.{line_command_seen, request_seen};

use line_io::Line;
use protocol::{ProtocolFault, Question, read_question, split_at_space, word_number};
use tenant_quota::Reserve;

/// What a line asks for.
#[derive(Clone, Copy)]
pub enum Request {
    /// Nothing: the line has this fault, its first.
    Fault(ProtocolFault),
    /// A new tenant with this reservation.
    Hello(Reserve),
    /// That the session's tenant reserves this much from now on.
    Reserve(Reserve),
    /// The value of a position to a depth.
    Ask(Question),
    /// How the job of this number stands.
    Get(u64),
    /// How the job of this number stands, once it has ended.
    Wait(u64),
    /// That the job of this number be cancelled.
    Cancel(u64),
    /// How the job of this number stands, with its table where it is done.
    Table(u64),
    /// The segments, nodes and steps that the tenant has left.
    Quota,
    /// How many frames and words the tenant has.
    Live,
    /// The end of the session.
    Bye,
}

/// The command of a line, by when it may come.
#[derive(Clone, Copy)]
enum LineCommand {
    /// HELLO, before a tenant is there: the reservation that it says, if it says one.
    AtFirst(Option<Reserve>),
    /// Any other but BYE, once a tenant is there: what it asks for.
    OnceSeated(Request),
    /// BYE, at any time.
    AtAnyTime,
}

/// A reservation of these segments and nodes; `None` unless both are numbers within the limits.
fn quota_of(segments: Option<u32>, nodes: Option<u32>) -> Option<Reserve>
    ensures { result ≡ quota_of segments nodes }
{
    let (Some(segments), Some(nodes)) = (segments, nodes) else {
        return None;
    };
    Reserve::new(segments, nodes)
}

/// What an ASK line with these arguments asks for: the value of a position to a depth, or their first fault.
fn ask_request(depth: &[u8], position: &[u8]) -> Request
    ensures { request_seen result ≡ ask_request (question depth.now position.now) }
{
    match read_question(depth, position) {
        Ok(question) => Request::Ask(question),
        Err(fault) => Request::Fault(fault),
    }
}

/// The command of a line of one word; `None` unless that is QUOTA, LIVE or BYE.
fn command_alone(word: &[u8]) -> Option<LineCommand>
    ensures { option_map line_command_seen result ≡ command_alone word.now }
{
    if word == b"QUOTA".as_slice() {
        Some(LineCommand::OnceSeated(Request::Quota))
    } else if word == b"LIVE".as_slice() {
        Some(LineCommand::OnceSeated(Request::Live))
    } else if word == b"BYE".as_slice() {
        Some(LineCommand::AtAnyTime)
    } else {
        None
    }
}

/// The command of a line of two words; `None` unless the first is GET, WAIT, CANCEL or TABLE. A second word that is no
/// number is its fault.
fn command_with_one(word: &[u8], argument: &[u8]) -> Option<LineCommand>
    ensures { option_map line_command_seen result ≡ command_with_one word.now argument.now }
{
    let number = word_number(argument);
    let job = match number {
        Some(job) => u64::from(job),
        None => 0,
    };
    let asked = if word == b"GET".as_slice() {
        Request::Get(job)
    } else if word == b"WAIT".as_slice() {
        Request::Wait(job)
    } else if word == b"CANCEL".as_slice() {
        Request::Cancel(job)
    } else if word == b"TABLE".as_slice() {
        Request::Table(job)
    } else {
        return None;
    };
    if number.is_none() {
        return Some(LineCommand::OnceSeated(Request::Fault(ProtocolFault::NoNumber)));
    }
    Some(LineCommand::OnceSeated(asked))
}

/// The command of a line of three words or more, where `second` is all that follows the second space. `None` unless the
/// first is ASK, or it is HELLO or RESERVE with just two arguments.
fn command_with_two(word: &[u8], first: &[u8], second: &[u8]) -> Option<LineCommand>
    ensures { option_map line_command_seen result ≡ command_with_two word.now first.now second.now }
{
    if word == b"ASK".as_slice() {
        Some(LineCommand::OnceSeated(ask_request(first, second)))
    } else if word == b"HELLO".as_slice() && split_at_space(second).is_none() {
        Some(LineCommand::AtFirst(quota_of(word_number(first), word_number(second))))
    } else if word == b"RESERVE".as_slice() && split_at_space(second).is_none() {
        let asked = match quota_of(word_number(first), word_number(second)) {
            Some(reserve) => Request::Reserve(reserve),
            None => Request::Fault(ProtocolFault::NoNumber),
        };
        Some(LineCommand::OnceSeated(asked))
    } else {
        None
    }
}

/// The command of a line, with its arguments; `None` where its first word is unknown or has another number of
/// arguments.
fn line_command(line: &[u8]) -> Option<LineCommand>
    ensures { option_map line_command_seen result ≡ line_command line.now }
{
    let Some((word, rest)) = split_at_space(line) else {
        return command_alone(line);
    };
    match split_at_space(rest) {
        None => command_with_one(word, rest),
        Some((first, second)) => command_with_two(word, first, second),
    }
}

/// What a command asks for, by whether a tenant is there. HELLO is a fault then, and before it all but HELLO and BYE.
fn command_request(seated: bool, command: LineCommand) -> Request
    ensures { request_seen result ≡ command_request seated (Some (line_command_seen command)) }
{
    match command {
        LineCommand::AtAnyTime => Request::Bye,
        LineCommand::AtFirst(_) if seated => Request::Fault(ProtocolFault::HelloAgain),
        LineCommand::AtFirst(Some(reserve)) => Request::Hello(reserve),
        LineCommand::AtFirst(None) => Request::Fault(ProtocolFault::NoNumber),
        LineCommand::OnceSeated(asked) if seated => asked,
        LineCommand::OnceSeated(_) => Request::Fault(ProtocolFault::NoHello),
    }
}

/// What a line asks for, where a tenant is there (`seated`) or not. A line that is too long or no command is a fault.
pub fn read_request(seated: bool, line: Line<'_>) -> Request
    ensures { request_seen result ≡ request seated (text_of line.entry) }
{
    let Line::Whole(bytes) = line else {
        return Request::Fault(ProtocolFault::LongLine);
    };
    match line_command(bytes) {
        None => Request::Fault(ProtocolFault::NoCommand),
        Some(command) => command_request(seated, command),
    }
}
