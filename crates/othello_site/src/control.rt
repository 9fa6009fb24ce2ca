//! The socket of a site's operator: STATS, END, DRAIN and RELOAD.
use crate::links::first_line;
use crate::paths::Paths;
use crate::reloading::{Unread, reload};
use crate::shared::Shared;
use crate::telling::stats_of;
use crate::visits::Host;
use crate::watching::{shut_told, tell};
use site_book::{Group, Told, Who, Whom};
use site_desk::SiteNaming;
use site_file::Address;
use site_rules::{Command, Whose, read_command};
use std::alloc::{AllocError, Global};
use std::net::{Ipv4Addr, Ipv6Addr};
use std::os::unix::net::UnixListener;
use std::sync::{Arc, Wait};
use std::time::{Clock, Duration};

/// Seconds in which a command is whole, and in which its answer is taken.
const COMMAND_SECS: u64 = 5;

/// What is said to a line that is no command.
const USAGE: &str =
    "ERR STATS, END CUSTOMER name, END ADDRESS address, END SESSION hall number, DRAIN seconds, RELOAD or RELOAD END\n";

/// Reads the site's file again and goes by it. The text says OK, or why all stays as it is.
fn reloaded<J: SiteNaming, R: Paths + AllocGlobal + Clock + Wait>(
    rt: &R,
    shared: &Shared<J>,
    ends: bool,
) -> Result<String, AllocError> {
    let alloc = rt.alloc();
    let answer = reload(rt, shared, ends);
    {
        let mut register = shared.register(rt);
        if answer.is_ok() {
            register.counts.reloads = register.counts.reloads.saturating_add(1);
        } else {
            register.counts.reloads_refused = register.counts.reloads_refused.saturating_add(1);
        }
    }
    let path = shared.path.as_str();
    match answer {
        Ok(()) => String::from_str(alloc, "OK\n"),
        Err(Unread::None) => String::from_str(alloc, "ERR there is no file\n"),
        Err(Unread::Unread(error)) => format!(in alloc; "ERR {path}: {error}\n"),
        Err(Unread::Wrong(fault)) => format!(in alloc; "ERR {path}: {fault}\n"),
        Err(Unread::Beyond(over)) => {
            format!(in alloc; "ERR {path}: what is out is beyond it\n{over}")
        }
        Err(Unread::Totals) => {
            format!(in alloc; "ERR {path}: what a hall has can't change while the site runs\n")
        }
        Err(Unread::Memory) => String::from_str(alloc, "ERR no memory\n"),
    }
}

/// Lets nobody else come to the site, and gives those who are there so many milliseconds to leave before they are told
/// to end. The text says OK.
fn drain<J: SiteNaming, R: AllocGlobal + Clock + Wait>(
    rt: &R,
    shared: &Shared<J>,
    millis: u64,
) -> Result<String, AllocError> {
    let until = shared.now(rt).saturating_add(millis);
    shared.register(rt).draining = Some(until);
    String::from_str(rt.alloc(), "OK\n")
}

/// The address (of IPv4 or IPv6) that a text writes; None for any other text.
fn address_in(text: &[u8]) -> Option<Address> {
    if let Ok(ip) = Ipv4Addr::parse_ascii(text) {
        return Some(Address::v4(ip.octets()));
    }
    match Ipv6Addr::parse_ascii(text) {
        Ok(ip) => Some(Address::v6(ip.octets())),
        Err(_) => None,
    }
}

/// The customer that has this name in the site's file; None where nobody has it.
fn customer_of<J: SiteNaming, R: Wait>(rt: &R, shared: &Shared<J>, name: &[u8]) -> Option<Who> {
    let register = shared.register(rt);
    for (number, terms) in register.config.directory.customers.iter().enumerate() {
        if terms.name.as_bytes() == name {
            return Some(Who::Named(u32::try_from(number).unwrap_or(u32::MAX)));
        }
    }
    None
}

/// Tells a part's sessions of all halls to end, and returns how many these are.
fn tell_all<J: SiteNaming, R: Wait>(rt: &R, shared: &Shared<J>, part: Group) -> u64 {
    let mut many: u64 = 0;
    for hall in 0..shared.desks.len() {
        let told = tell(rt, shared, hall, Whom::Each(part), Told::ByOperator);
        many = many.saturating_add(told);
    }
    many
}

/// Tells the sessions of an address to end, whosesoever they are, and those of the guest that comes from there. Returns how many these are.
fn tell_address<J: SiteNaming, R: AllocGlobal + Wait>(
    rt: &R,
    shared: &Shared<J>,
    address: Address,
) -> Result<u64, AllocError> {
    let there = shared.register(rt).sessions_from(rt.alloc(), address)?;
    let mut many = tell_all(rt, shared, Group::Own(address.guest()));
    for (hall, session) in there {
        let told = tell(rt, shared, hall, Whom::One(session), Told::ByOperator);
        many = many.saturating_add(told);
    }
    Ok(many)
}

/// Tells the sessions that the operator named to end, and says how many they are that weren't told before.
fn end<J: SiteNaming, R: AllocGlobal + Wait>(
    rt: &R,
    shared: &Shared<J>,
    whose: Whose<'_>,
) -> Result<String, AllocError> {
    let many = match whose {
        Whose::Session(0, _) => 0,
        Whose::Session(hall, number) => {
            let whom = Whom::One(u64::from(number));
            tell(rt, shared, hall as usize - 1, whom, Told::ByOperator)
        }
        Whose::Address(text) => match address_in(text) {
            Some(address) => tell_address(rt, shared, address)?,
            None => return String::from_str(rt.alloc(), "ERR this is no address\n"),
        },
        Whose::Customer(name) => {
            let Some(who) = customer_of(rt, shared, name) else {
                return String::from_str(rt.alloc(), "ERR nobody has this name\n");
            };
            tell_all(rt, shared, Group::Own(who))
        }
    };
    {
        let mut register = shared.register(rt);
        register.counts.ended = register.counts.ended.saturating_add(1);
    }
    let _ = shut_told(rt, shared);
    format!(in rt.alloc(); "OK {many}\n")
}

/// The text that answers this command of the operator.
fn answer<J: SiteNaming, R: Paths + AllocGlobal + Clock + Wait>(
    rt: &R,
    shared: &Shared<J>,
    command: Command<'_>,
) -> Result<String, AllocError> {
    match command {
        Command::Stats => stats_of(rt, shared),
        Command::End(whose) => end(rt, shared, whose),
        Command::Drain(millis) => drain(rt, shared, millis),
        Command::Reload(ends) => reloaded(rt, shared, ends),
        Command::Unknown => String::from_str(rt.alloc(), USAGE),
    }
}

/// Who answers the operator.
#[derive(Drop)]
struct ControlHost<'a, J: SiteNaming, R> {
    rt: &'a R,
    shared: &'a Shared<J>,
}

impl<J: SiteNaming, R: Paths + AllocGlobal + Clock + Wait> Host for ControlHost<'_, J, R> {
    /// In which time a command is whole, and in which its answer is taken.
    fn limit(&self) -> Duration {
        Duration::from_secs(COMMAND_SECS)
    }

    /// The answer to a command, which the log has too.
    fn answer(&self, bytes: &[u8]) -> Option<Result<String, AllocError>> {
        let line = first_line(bytes)?.trim_ascii();
        let command = read_command(line);
        log_command(self.rt, self.shared, line);
        Some(answer(self.rt, self.shared, command))
    }
}

/// Logs a command: `?` stands for a quote, a backslash, and each byte that isn't printable ASCII.
fn log_command<J: SiteNaming, R: AllocGlobal + Wait>(rt: &R, shared: &Shared<J>, line: &[u8]) {
    let mut out = String::new(rt.alloc());
    let _ = push_command(&mut out, line);
    shared.log.say(rt, out.as_str());
}

/// Appends a line of the operator to a log's text; signs that a log can't show stand there as `?`.
fn push_command(out: &mut String, line: &[u8]) -> Result<(), AllocError> {
    out.push_str("event=command line=\"")?;
    for byte in line {
        let is_shown = byte.is_ascii_graphic() && *byte != b'"' && *byte != b'\\';
        let sign = if is_shown || *byte == b' ' {
            char::from(*byte)
        } else {
            '?'
        };
        out.push(sign)?;
    }
    out.push_str("\"\n")
}

/// Takes the connections of the operator, which other threads answer ([`answer_control`]).
pub(crate) fn serve_control<J: SiteNaming, R: Clock + AllocGlobal + Wait>(
    rt: &R,
    shared: &Shared<J>,
    listener: UnixListener,
) {
    for came in listener.incoming() {
        shared.operators.take(rt, rt.alloc(), came);
    }
}

/// Answers one connection of the operator after another, for ever.
pub(crate) fn answer_control<J: SiteNaming, R: Clock + Paths + AllocGlobal + Wait>(
    rt: &R,
    shared: &Shared<J>,
) {
    shared.operators.answer_all(rt, &ControlHost { rt, shared });
}
