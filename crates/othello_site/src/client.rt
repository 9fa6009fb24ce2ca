//! One connection of a site (a server for customers), from its first byte to its last.
//!
//! What passes on it is a session in its desk's history, behind its proxy's header (`specs/Connections.antt`): its socket is read and written
//! with a tape of each direction, and nowhere else.
ghost use Rattle.std.specs.Prelude.{◌≡◌, [], IfSome};
ghost use Rattle.std.specs.Net.Tcp.{stream_raw_fd};
ghost use Rattle.line_io.specs.Leads.{between};
ghost use Rattle.tcp_server.specs.Tapes.{AheadOf, HandsOn, Fills, Puts};
ghost use Rattle.site_office.specs.Sessions.{SeenSiteSession};
ghost use Rattle.othello_site.specs.Connections.{IsHeaderIn, IsRecognized, IsSiteSessionOn};

use crate::counts::{FULL, HEADER, SILENCE};
use crate::links::{Incoming, Outgoing, Reading, TalkState};
use crate::shared::Shared;
use crate::site_environment::SiteEnvironment;
use crate::telling::{address_text, log_refusal};
use line_io::{LineFault, TalkEnd};
use site_book::{Told, Who};
use site_desk::{SiteNaming, SiteTrace};
use site_file::Address;
use site_office::{Connection, serve_connection};
use site_rules::{Arrival, KnownClient, Port, Recognized, Times, recognize};
use std::alloc::Global;
use std::net::TcpStream;
use std::sync::{Arc, Wait};
use std::time::{Clock, Duration};
use tcp_server::{ClosedTape, MOST_AHEAD, TapedReader, TapedWriter};

/// What passed on a connection, and what its session came to. It holds no memory, as the threads that return it are joined by nobody, so
/// that nothing of it is ever dropped.
#[derive(Drop)]
pub(crate) struct SitePassed<J: SiteNaming> {
    /// What each read gave, in proofs alone.
    pub(crate) read: ClosedTape,
    /// What each write took, in proofs alone.
    pub(crate) written: ClosedTape,
    /// How the session ended.
    pub(crate) ended: Result<TalkEnd, LineFault>,
    /// What the tenant's seat knew of its desk's history when it left; `None` where no tenant came.
    pub(crate) knew: Option<SiteTrace<J>>,
}

/// Milliseconds of so many seconds.
fn millis(seconds: u32) -> u64 {
    u64::from(seconds).saturating_mul(1_000)
}

/// Whose a connection is that begins with these bytes, by the file that is gone by now.
fn recognized<J: SiteNaming, R: Wait>(
    rt: &R,
    shared: &Shared<J>,
    port: Port,
    bytes: &[u8],
    peer: Address,
) -> Recognized
    ensures { IsRecognized port bytes.now peer result }
{
    let register = shared.register(rt);
    recognize(port, bytes, peer, &register.config.directory.keys)
}

/// Reads until it is known whose the connection is; `None` where it is to be closed.
fn greet<J: SiteNaming, R: Clock + Wait>(
    rt: &R,
    alloc: Global,
    shared: &Shared<J>,
    port: Port,
    source: &mut Incoming<'_, R>,
    peer: Address,
) -> Option<KnownClient>
    ensures kept { HandsOn source.old.reader [] source.new.reader }
    ensures header { IfSome result (λ known. IsHeaderIn port source.new.reader.ahead peer known.used) }
{
    for _ in 0..MOST_AHEAD {
        match recognized(rt, shared, port, source.reader.bytes(), peer) {
            Recognized::Known(known) => return Some(known),
            Recognized::Foreign => {
                refuse(rt, alloc, shared, peer, None, HEADER);
                return None;
            }
            Recognized::Unfinished => {}
        }
        match source.read() {
            Some(count) if count > 0 => {}
            _ => return None,
        }
    }
    None
}

/// Counts a connection that is refused, and says so in the log.
fn refuse<J: SiteNaming, R: Clock + Wait>(
    rt: &R,
    alloc: Global,
    shared: &Shared<J>,
    address: Address,
    who: Option<Who>,
    place: usize,
) {
    {
        let mut register = shared.register(rt);
        register.counts.refuse(place);
        if let Some(who) = who {
            register.refused.note(who);
        }
    }
    log_refusal(rt, alloc, shared, address, who, place);
}

/// How long connections may be silent, and take for a byte.
fn times_of<J: SiteNaming, R: Wait>(rt: &R, shared: &Shared<J>) -> (Times, u64) {
    let register = shared.register(rt);
    let limits = register.config.limits;
    let times = Times {
        welcome: millis(limits.welcome),
        idle: millis(limits.idle),
    };
    (times, millis(limits.write.max(1)))
}

/// Serves one connection to the site, from its first byte to its last. What passed on it is a session in its desk's history, behind its
/// header. `None` where there was no session: then nothing was written.
pub(crate) fn serve_client<J: SiteNaming, R: Clock + Wait>(
    rt: &R,
    alloc: Global,
    shared: &Shared<J>,
    stream: TcpStream,
    port: Port,
) -> Option<SitePassed<J>>
    ensures { IfSome result (λ passed. IsSiteSessionOn J.begun port (stream_raw_fd stream) passed.read passed.written passed.ended passed.knew) }
{
    let Ok(own) = Arc::new(alloc, stream) else {
        return None;
    };
    let Ok(other) = Arc::try_clone(&own) else {
        return None;
    };
    let talk = TalkState::new(shared.now(rt), false);
    let socket: &TcpStream = &own;
    converse(&*rt, alloc, shared, &talk, socket, other, port)
}

/// Serves the connection of this socket, which has another name too, by which others shut it.
fn converse<'a, J: SiteNaming, R: Clock + Wait>(
    rt: &'a R,
    alloc: Global,
    shared: &Shared<J>,
    talk: &'a TalkState,
    stream: &'a TcpStream,
    other: Arc<TcpStream, Global>,
    port: Port,
) -> Option<SitePassed<J>>
    ensures { IfSome result (λ passed. IsSiteSessionOn J.begun port (stream_raw_fd stream.now) passed.read passed.written passed.ended passed.knew) }
{
    let Ok(peer) = stream.peer_addr() else {
        return None;
    };
    let (times, limit) = times_of(rt, shared);
    let _ = stream.set_nodelay(true);
    let _ = stream.set_write_timeout(Some(Duration::from_millis(limit)));
    let Ok(reader) = TapedReader::of_socket(alloc, stream) else {
        return None;
    };
    let Ok(writer) = TapedWriter::of_socket(alloc, stream) else {
        return None;
    };
    let clock = shared.clock;
    let mut source = Incoming {
        rt,
        clock,
        talk,
        times,
        reader,
    };
    let sink = Outgoing {
        rt,
        clock,
        writer,
        limit,
        is_late: false,
    };
    let peer = Address::of_ip(peer.ip());
    let known = greet(rt, alloc, shared, port, &mut source, peer)?;
    source.reader.skip(known.used);
    receive(rt, alloc, shared, talk, source, sink, other, known)
}

/// Takes a connection in whose customer is known, if there is a place for it, and serves it. Its source and its sink are reached by their
/// tapes alone.
fn receive<J: SiteNaming, R: Clock + Wait>(
    rt: &R,
    alloc: Global,
    shared: &Shared<J>,
    talk: &TalkState,
    mut source: Incoming<'_, R>,
    mut sink: Outgoing<'_, R>,
    stream: Arc<TcpStream, Global>,
    known: KnownClient,
) -> Option<SitePassed<J>>
    ensures { IfSome result (λ passed. (to : AheadOf) × SeenSiteSession J.begun (between Fills source.entry.reader to) (between Puts sink.entry.writer passed.written) passed.ended passed.knew × (to.tape ≡ passed.read)) }
{
    let (arrival, hall) = {
        let mut register = shared.register(rt);
        (register.arrive(known.who), register.first_hall(known.who))
    };
    let account = match arrival {
        Arrival::Counted => Some(known.who),
        Arrival::Heard => {
            talk.is_extra.set(true);
            None
        }
        Arrival::Closed => {
            refuse(rt, alloc, shared, known.address, Some(known.who), FULL);
            return None;
        }
    };
    let environment = SiteEnvironment {
        rt,
        alloc,
        shared,
        stream,
        talk,
        own: known.who,
        address: known.address,
        account,
        hall,
        session: None,
        told: None,
        since: 0,
        asked: 0,
    };
    let Some(desk) = shared.desks.get(hall) else {
        environment.leave();
        return None;
    };
    let connection = Connection {
        desks: shared.desks.as_slice(),
        desk,
        environment,
        own: known.who,
        grain: shared.grain,
    };
    let (ended, knew, environment) = serve_connection(rt, &mut source, &mut sink, connection);
    environment.leave();
    let reading = talk.reading.get();
    let word = word_of(ended, reading, environment.told);
    tell_end(rt, alloc, shared, &environment, word);
    if reading == Reading::Late && !talk.pace.get().welcomed {
        refuse(rt, alloc, shared, known.address, Some(known.who), SILENCE);
    }
    Some(SitePassed {
        read: source.into_tape(),
        written: sink.into_tape(),
        ended,
        knew,
    })
}

/// What ended a connection, in a word.
fn word_of(end: Result<TalkEnd, LineFault>, reading: Reading, told: Option<Told>) -> &'static str {
    match (end, reading) {
        (Ok(TalkEnd::Line), _) => "bye",
        (Ok(TalkEnd::Input), _) => word_told(told, "input"),
        (Err(LineFault::Write), _) => word_told(told, "unwritten"),
        (Err(_), Reading::Late) => word_told(told, "silence"),
        (Err(_), _) => word_told(told, "lost"),
    }
}

/// Why a session was told to end, in a word; another one where it wasn't.
fn word_told(told: Option<Told>, other: &'static str) -> &'static str {
    match told {
        None => other,
        Some(Told::Gone) => "gone",
        Some(Told::Idle) => "idle",
        Some(Told::ForAnother) => "another",
        Some(Told::ByOperator) => "operator",
        Some(Told::ByPlan) => "reload",
    }
}

/// Says the session's line of the log, if there was a session.
fn tell_end<J: SiteNaming, R: Clock + Wait>(
    rt: &R,
    alloc: Global,
    shared: &Shared<J>,
    environment: &SiteEnvironment<'_, J, R>,
    end: &str,
) {
    let Some((number, who)) = environment.session else {
        return;
    };
    let seconds = shared.now(rt).saturating_sub(environment.since) / 1_000;
    let lines = environment.talk.lines.get();
    let hall = environment.hall.saturating_add(1);
    let name = {
        let register = shared.register(rt);
        register.config.directory.name_of(alloc, who)
    };
    let Ok(name) = name else {
        return;
    };
    let Ok(address) = address_text(alloc, environment.address) else {
        return;
    };
    let line = format!(in alloc;
        "event=session hall={hall} session={number} customer=\"{name}\" address={address} seconds={seconds} lines={lines} end={end}\n"
    );
    if let Ok(line) = line {
        shared.log.say(rt, line.as_str());
    }
}
