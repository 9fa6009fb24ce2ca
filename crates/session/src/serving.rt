//! Serving a session with a client from its first line to its last.
ghost use Rattle.std.specs.Prelude.{◌≡◌, ◌≢◌, Err, true, false};
ghost use Rattle.line_io.specs.Leads.{between, answering};
ghost use Rattle.line_io.specs.Talks.{Talk};
ghost use Rattle.session.specs.Requests.{is_bye};
ghost use Rattle.session.specs.Sessions.{HandlerOf, LeavesIf, Session, talk_result, handler_of, Called};

use crate::faults::{End, SessionFault};
use crate::office::Office;
use crate::texts::SessionText;
use crate::turns::{leave_if_seated, take_turn};
use line_io::{Ends, LF, Line, LineAnswerer, LineFault, Sink, Source, TalkEnd, talk_lines};
use std::marker::PhantomData;
use std::sync::Wait;

/// How the lines of a session are answered by an office.
pub trait LineProtocol<O: Office> {
    ghost use Rattle.std.specs.Prelude.{◌≤◌, ℕ, List, true, length};
    ghost use Rattle.line_io.specs.Lines.{LineText};
    ghost use Rattle.line_io.specs.Views.{text_of};
    ghost use Rattle.session.specs.Sessions.{HandlerOf, handler_of};

    /// What comes of a line, by the handler before it, the text of the answer and the handler after it.
    ghost comes: { HandlerOf O → LineText → List ℕ → HandlerOf O → Type 0 };

    /// Answers a line over the last answer, and keeps in `seated` whether the session has a tenant.
    fn take(office: &mut O, seated: &mut bool, text: &mut SessionText, line: Line<'_>)
        requires { O.ready ≡ true }
        ensures turn { comes (handler_of office.old seated.old) (text_of line.entry) text.new.items (handler_of office.new seated.new) }
        ensures short { length text.new.items ≤ 1114 };
}

/// The lines of a server's session, which its office alone answers.
pub struct ServerLines;

impl<O: Office> LineProtocol<O> for ServerLines {
    ghost use Rattle.session.specs.Requests.{request};
    ghost use Rattle.session.specs.Sessions.{Turned};

    ghost comes = { λ from line text to. Turned O.does (request from.seated line) from text to };

    /// Answers a line by a call of the office at most.
    fn take(office: &mut O, seated: &mut bool, text: &mut SessionText, line: Line<'_>) {
        take_turn(office, seated, text, line);
    }
}

/// Answers the lines of one session, and knows whether its tenant is there. Its text is the last answer, over which the
/// next one is written.
struct Handler<'a, O: Office, T: LineProtocol<O>> {
    office: &'a mut O,
    seated: bool,
    text: SessionText,
    lines: PhantomData<T>,
    ghost ready: { O.ready ≡ true },
}

impl<'a, O: Office, T: LineProtocol<O>> Handler<'a, O, T> {
    /// A handler that has no tenant and hasn't answered yet.
    fn new(office: &'a mut O) -> Handler<'a, O, T>
        requires { O.ready ≡ true }
        ensures same_office { result.office.ghost_name ≡ office.entry.ghost_name }
        ensures office { result.office.now ≡ office.old }
        ensures seated { result.seated ≡ false }
    {
        Handler {
            office,
            seated: false,
            text: SessionText::new(),
            lines: PhantomData,
        }
    }
}

impl<O: Office, T: LineProtocol<O>> LineAnswerer for Handler<'_, O, T> {
    ghost answers = { λ s line text t. (t.office.ghost_name ≡ s.office.ghost_name)
        × T.comes (handler_of s.office.now s.seated) line text (handler_of t.office.now t.seated) };

    ghost kept = { λ handler. handler.text.items };

    /// Answers a line, over the last answer, and ends the answer by LF.
    fn answer(&mut self, line: Line<'_>) {
        T::take(self.office, &mut self.seated, &mut self.text, line);
        self.text.push(LF);
    }

    /// The text of the last answer, with its LF.
    fn text(&self) -> &[u8] {
        self.text.as_slice()
    }
}

impl<O: Office, T: LineProtocol<O>> Ends for Handler<'_, O, T> {
    ghost ends = { is_bye };

    /// Whether a line ends the session: it is just BYE.
    fn is_last(&self, line: Line<'_>) -> bool {
        match line {
            Line::Whole(bytes) => bytes == b"BYE".as_slice(),
            Line::TooLong => false,
        }
    }
}

/// Answers each line of the source on the sink as `T` says, as soon as it is complete, up to a line `BYE`, the end of the input, or a
/// failure of source or sink. In each case the tenant has left when it returns, and before its `BYE` is answered. It may wait, as the
/// office may.
pub fn serve_talk<T: LineProtocol<O>, S: Source, K: Sink, O: Office, R: Wait>(
    rt: &R,
    source: &mut S,
    sink: &mut K,
    office: &mut O,
) -> Result<TalkEnd, LineFault>
    requires { O.ready ≡ true }
    ensures { (to : HandlerOf O)
        × Talk (between S.gives source.old source.new) (between K.takes sink.old sink.new) (answering T.comes (handler_of office.old false) to) is_bye result
        × LeavesIf O.does to.seated to.office office.new }
{
    let mut handler = Handler::<'_, O, T>::new(office);
    let talk = talk_lines(rt, source, sink, &mut handler);
    let Handler {
        office,
        seated,
        text: _text,
        lines: _lines,
    } = handler;
    leave_if_seated(office, seated);
    talk
}

/// How a session ended, by how the exchange of lines and answers did.
fn session_end(talk: Result<TalkEnd, LineFault>) -> Result<End, SessionFault>
    requires { talk ≢ Err LineFault.TooMuch }
    ensures { talk_result result ≡ talk }
{
    match talk {
        Ok(TalkEnd::Line) => Ok(End::Bye),
        Ok(TalkEnd::Input) => Ok(End::EndOfInput),
        Err(LineFault::Read) => Err(SessionFault::Read),
        Err(LineFault::Write) => Err(SessionFault::Write),
        Err(LineFault::TooMuch) => unreachable!(),
    }
}

/// Serves one session: answers each line of the source on the sink, as soon as it is complete, by what the office
/// replies, up to a line `BYE` or the end of the input. It may wait, as the office may.
///
/// At `Bye` such a line was answered, and nothing after it is. At `EndOfInput` the source has given its end, and all
/// lines are answered. Fault 1 comes only where the source failed: the lines that an LF ended are answered then, and
/// the bytes after the last LF are dropped. Fault 2 comes only where the sink failed or took no byte: of the answer to
/// the last line that was looked at nothing or only a part is written. In each case the tenant has left. It leaves
/// before its `BYE` is answered, so a client that has read that answer may reserve again what it had.
pub fn serve_lines<S: Source, K: Sink, O: Office, R: Wait>(
    rt: &R,
    source: &mut S,
    sink: &mut K,
    office: &mut O,
) -> Result<End, SessionFault>
    requires { O.ready ≡ true }
    ensures { Session (between S.gives source.old source.new) (between K.takes sink.old sink.new) (between (Called O.does) office.old office.new) result }
{
    session_end(serve_talk::<ServerLines, S, K, O, R>(rt, source, sink, office))
}
