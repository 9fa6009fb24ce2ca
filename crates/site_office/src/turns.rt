//! One line of a site's session: what it asks of the office and the access control, and its answer.
ghost use Rattle.std.specs.Prelude.{◌≡◌, ◌+◌, ◌≤◌, ◌++◌, true, length, Option, codes};
ghost use Rattle.std.specs.Option.{option_copied};
ghost use Rattle.line_io.specs.Views.{text_of};
ghost use Rattle.protocol.specs.Texts.{error_text};
ghost use Rattle.session.specs.Sessions.{handler_of};
ghost use Rattle.site_office.specs.Lines.{Greets, Raises, Informs, site_request};
ghost use Rattle.site_office.specs.Turns.{IsWelcomed, SiteTurned, info_text, site_relations, spaced_number};
ghost use Rattle.site_office.specs.Views.{asked_seen};

use crate::access::{AccessControl, Greeted, Info};
use crate::requests::{SiteRequest, read_site_request};
use line_io::Line;
use protocol::{push_error, push_number};
use session::{LineProtocol, Office, Request, SessionText, answer_request};
use tenant_quota::Reserve;

/// The number of the refusal where a budget has no room.
const NO_ROOM: u8 = 14;

/// That of a token that nobody has.
const NO_TOKEN: u8 = 30;

/// That of too many lines in a time.
const TOO_MANY: u8 = 31;

/// What stands last in INFO: the program's version.
const VERSION: &[u8] = b" 1.0.0";

/// Writes the answer `ERR` with this number in the place of the last answer.
fn refuse(text: &mut SessionText, number: u8)
    ensures text { text.new.items ≡ error_text number }
    ensures short { length text.new.items ≤ 1114 }
{
    text.clear();
    push_error(text, number);
}

/// Appends a space and a number to an answer.
fn push_after(text: &mut SessionText, number: u64)
    requires { length text.old.items + 21 ≤ 1114 }
    ensures text { text.new.items ≡ text.old.items ++ spaced_number number }
    ensures short { length text.new.items ≤ length text.old.items + 21 }
{
    text.push(b' ');
    push_number(text, number);
}

/// Writes what a customer may have and has over the last answer.
fn write_info(text: &mut SessionText, info: Info)
    ensures text { text.new.items ≡ info_text info }
    ensures short { length text.new.items ≤ 1114 }
{
    text.clear();
    text.try_extend_from_slice(b"INFO").unwrap();
    push_after(text, u64::from(info.grain));
    push_after(text, info.may_segments);
    push_after(text, info.may_nodes);
    push_after(text, info.has_segments);
    push_after(text, info.has_nodes);
    text.try_extend_from_slice(VERSION).unwrap();
}

/// Writes the sign that the site is there over the last answer.
fn write_pong(text: &mut SessionText)
    ensures text { text.new.items ≡ codes "PONG" }
    ensures short { length text.new.items ≤ 1114 }
{
    text.clear();
    text.try_extend_from_slice(b"PONG").unwrap();
}

/// Answers the line HELLO of a site's session, whose rate was paid, by what is known of who says it.
fn welcome<O: Office>(
    office: &mut O,
    seated: &mut bool,
    text: &mut SessionText,
    greeted: Greeted,
    reserve: Reserve,
)
    requires { O.ready ≡ true }
    ensures turn { IsWelcomed O.does greeted reserve (handler_of office.old seated.old) text.new.items (handler_of office.new seated.new) }
    ensures short { length text.new.items ≤ 1114 }
{
    match greeted {
        Greeted::Known => answer_request(office, seated, text, Request::Hello(reserve)),
        Greeted::Unknown => refuse(text, NO_TOKEN),
        Greeted::Crowded => refuse(text, NO_ROOM),
    }
}

/// Answers the line HELLO of a site's session: first it is found out who says it, and then that customer's rate is
/// charged.
fn take_greeting<O: Office + AccessControl>(
    office: &mut O,
    seated: &mut bool,
    text: &mut SessionText,
    token: Option<&[u8]>,
    reserve: Reserve,
)
    requires { O.ready ≡ true }
    ensures turn { SiteTurned (site_relations O.does O.greets O.pays O.informs) (Greets (option_copied token.entry) reserve) (handler_of office.old seated.old) text.new.items (handler_of office.new seated.new) }
    ensures short { length text.new.items ≤ 1114 }
{
    let greeted = office.greet(token);
    if office.pay() {
        welcome(office, seated, text, greeted, reserve);
    } else {
        refuse(text, TOO_MANY);
    }
}

/// Answers the line RESERVE of a site's session, which is charged to the customer's rate.
fn take_raise<O: Office + AccessControl>(
    office: &mut O,
    seated: &mut bool,
    text: &mut SessionText,
    reserve: Reserve,
)
    requires { O.ready ≡ true }
    ensures turn { SiteTurned (site_relations O.does O.greets O.pays O.informs) (Raises reserve) (handler_of office.old seated.old) text.new.items (handler_of office.new seated.new) }
    ensures short { length text.new.items ≤ 1114 }
{
    if office.pay() {
        answer_request(office, seated, text, Request::Reserve(reserve));
    } else {
        refuse(text, TOO_MANY);
    }
}

/// Answers a line: makes the calls that it asks for, and writes the text of the answer over the last one.
pub fn take_site_turn<O: Office + AccessControl>(
    office: &mut O,
    seated: &mut bool,
    text: &mut SessionText,
    line: Line<'_>,
)
    requires { O.ready ≡ true }
    ensures turn { SiteTurned (site_relations O.does O.greets O.pays O.informs) (site_request seated.old (text_of line.entry)) (handler_of office.old seated.old) text.new.items (handler_of office.new seated.new) }
    ensures short { length text.new.items ≤ 1114 }
{
    match read_site_request(*seated, line) {
        SiteRequest::Greets(token, reserve) => take_greeting(office, seated, text, token, reserve),
        SiteRequest::Raises(reserve) => take_raise(office, seated, text, reserve),
        SiteRequest::Informs => {
            let info = office.inform();
            write_info(text, info);
        }
        SiteRequest::Pings => write_pong(text),
        SiteRequest::Plain(asked) => answer_request(office, seated, text, asked),
    }
}

/// The lines of a site's session, which its office and its access control answer.
pub struct SiteLines;

impl<O: Office + AccessControl> LineProtocol<O> for SiteLines {
    ghost use Rattle.site_office.specs.Turns.{SiteComes};

    ghost comes = { SiteComes (site_relations O.does O.greets O.pays O.informs) };

    /// Answers a line by what it asks of the office and the access control.
    fn take(office: &mut O, seated: &mut bool, text: &mut SessionText, line: Line<'_>) {
        take_site_turn(office, seated, text, line);
    }
}
