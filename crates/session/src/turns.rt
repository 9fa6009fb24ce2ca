//! One line of a session: what it asks of the office, and its answer.
ghost use Rattle.std.specs.Prelude.{◌≡◌, ◌≤◌, Bool, true, length};
ghost use Rattle.line_io.specs.Views.{text_of};
ghost use Rattle.session.specs.Calls.{Hello, OfficeReply, Welcome, reply_of};
ghost use Rattle.session.specs.Requests.{request};
ghost use Rattle.session.specs.Sessions.{Turned, LeavesIf, handler_of};
ghost use Rattle.session.specs.Views.{request_seen};

use crate::office::Office;
use crate::requests::{Request, read_request};
use crate::texts::{
    SessionText, write_bye, write_ended, write_fault, write_job, write_live, write_quota,
    write_reserved, write_table_reply, write_told, write_welcome,
};
use line_io::Line;
use tenant_quota::Reserve;

/// Calls the office's `leave` if the session has a tenant (`seated`); else nothing happens.
pub fn leave_if_seated<O: Office>(office: &mut O, seated: bool)
    requires { O.ready ≡ true }
    ensures { LeavesIf O.does seated office.old office.new }
{
    if seated {
        office.leave();
    }
}

/// Answers HELLO: asks the office for a new tenant, and sets `seated` where it admits one.
fn take_hello<O: Office>(
    office: &mut O,
    seated: &mut bool,
    text: &mut SessionText,
    reserve: Reserve,
)
    ensures turn { Turned O.does (request_seen (Request.Hello reserve)) (handler_of office.old seated.old) text.new.items (handler_of office.new seated.new) }
    ensures short { length text.new.items ≤ 1114 }
{
    let reply = office.hello(reserve);
    if reply.is_ok() {
        *seated = true;
    }
    write_welcome(text, reserve, reply);
}

// The office's reply to `get` or `wait` has 800 bytes, and a function that holds one pays for them at its entry. So
// each such call has a function of its own, and other requests don't pay.

/// Answers a line GET: how the job stands.
fn tell_job<O: Office>(office: &mut O, text: &mut SessionText, job: u64)
    ensures turn { (seated : Bool) → Turned O.does (request_seen (Request.Get job)) (handler_of office.old seated) text.new.items (handler_of office.new seated) }
    ensures short { length text.new.items ≤ 1114 }
{
    let reply = office.get(job);
    write_told(text, job, &reply);
}

/// Answers WAIT: how the job stands, once it has ended.
fn tell_ended_job<O: Office>(office: &mut O, text: &mut SessionText, job: u64)
    ensures turn { (seated : Bool) → Turned O.does (request_seen (Request.Wait job)) (handler_of office.old seated) text.new.items (handler_of office.new seated) }
    ensures short { length text.new.items ≤ 1114 }
{
    let reply = office.wait(job);
    write_told(text, job, &reply);
}

/// Answers TABLE: how the job stands, with its table where it is done.
fn tell_table<O: Office>(office: &mut O, text: &mut SessionText, job: u64)
    ensures turn { (seated : Bool) → Turned O.does (request_seen (Request.Table job)) (handler_of office.old seated) text.new.items (handler_of office.new seated) }
    ensures short { length text.new.items ≤ 1114 }
{
    let reply = office.get(job);
    write_table_reply(text, job, &reply);
}

/// Answers a request: makes the call that it asks for, writes the text of the answer, and keeps in `seated` whether the
/// session has a tenant.
pub fn answer_request<O: Office>(
    office: &mut O,
    seated: &mut bool,
    text: &mut SessionText,
    request: Request,
)
    requires { O.ready ≡ true }
    ensures turn { Turned O.does (request_seen request) (handler_of office.old seated.old) text.new.items (handler_of office.new seated.new) }
    ensures short { length text.new.items ≤ 1114 }
{
    match request {
        Request::Fault(fault) => write_fault(text, fault.number()),
        Request::Hello(reserve) => take_hello(office, seated, text, reserve),
        Request::Reserve(reserve) => write_reserved(text, reserve, office.reserve(reserve)),
        Request::Ask(question) => write_job(text, office.ask(&question)),
        Request::Get(job) => tell_job(office, text, job),
        Request::Wait(job) => tell_ended_job(office, text, job),
        Request::Cancel(job) => write_ended(text, job, office.cancel(job)),
        Request::Table(job) => tell_table(office, text, job),
        Request::Quota => write_quota(text, office.quota()),
        Request::Live => write_live(text, office.live()),
        Request::Bye => {
            leave_if_seated(office, *seated);
            *seated = false;
            write_bye(text);
        }
    }
}

/// Answers a line: makes at most one call of the office, and writes the text of the answer over the last one.
pub(crate) fn take_turn<O: Office>(
    office: &mut O,
    seated: &mut bool,
    text: &mut SessionText,
    line: Line<'_>,
)
    requires { O.ready ≡ true }
    ensures turn { Turned O.does (request seated.old (text_of line.entry)) (handler_of office.old seated.old) text.new.items (handler_of office.new seated.new) }
    ensures short { length text.new.items ≤ 1114 }
{
    let request = read_request(*seated, line);
    answer_request(office, seated, text, request);
}
