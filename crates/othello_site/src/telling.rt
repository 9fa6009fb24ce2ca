//! What a site says of itself: STATS and metrics.
use crate::counts::{BOUNDS, Buckets, Counts, NAMES, name_at};
use crate::shared::Shared;
use site_book::{Amount, Group, Who};
use site_desk::SiteNaming;
use site_file::Address;
use std::alloc::{AllocError, Global};
use std::fmt::Write;
use std::net::{Ipv4Addr, Ipv6Addr};
use std::sync::{Arc, Wait};
use std::time::Clock;

/// An address as a text.
pub(crate) fn address_text(alloc: Global, address: Address) -> Result<String, AllocError> {
    match address {
        Address::V4(address) => {
            let ip = Ipv4Addr::from_octets(address.to_be_bytes());
            format!(in alloc; "{ip}")
        }
        Address::V6(high, low) => {
            let mut octets = [0; 16];
            octets[..8].copy_from_slice(&high.to_be_bytes());
            octets[8..].copy_from_slice(&low.to_be_bytes());
            let ip = Ipv6Addr::from_octets(octets);
            format!(in alloc; "{ip}")
        }
    }
}

/// Says in the site's log why somebody was refused, and as which customer if that is known. It says nothing where too
/// many lines of this reason, or of it and this address, were said in this second.
pub(crate) fn log_refusal<J: SiteNaming, R: Clock + Wait>(
    rt: &R,
    alloc: Global,
    shared: &Shared<J>,
    address: Address,
    who: Option<Who>,
    place: usize,
) {
    let second = shared.now(rt) / 1_000;
    if !shared.log.has_room(rt, second, place, Some(address)) {
        return;
    }
    if let Ok(line) = refusal_line(rt, alloc, shared, address, who, place) {
        shared.log.say(rt, line.as_str());
    }
}

/// The line of the log that tells a refusal.
fn refusal_line<J: SiteNaming, R: Wait>(
    rt: &R,
    alloc: Global,
    shared: &Shared<J>,
    address: Address,
    who: Option<Who>,
    place: usize,
) -> Result<String, AllocError> {
    let reason = name_at(place);
    let address = address_text(alloc, address)?;
    match who {
        None => format!(in alloc; "event=refused reason={reason} address={address}\n"),
        Some(who) => {
            let config = Arc::try_clone(&shared.register(rt).config)?;
            let name = config.directory.name_of(alloc, who)?;
            format!(in alloc;
                "event=refused reason={reason} address={address} customer=\"{name}\"\n"
            )
        }
    }
}

/// Says that a connection was closed whose address isn't known, unless too many were in this second.
pub(crate) fn log_shortage<J: SiteNaming, R: Clock + Wait>(
    rt: &R,
    alloc: Global,
    shared: &Shared<J>,
    place: usize,
) {
    if !shared.log.has_room(rt, shared.now(rt) / 1_000, place, None) {
        return;
    }
    let reason = name_at(place);
    if let Ok(line) = format!(in alloc; "event=refused reason={reason}\n") {
        shared.log.say(rt, line.as_str());
    }
}

/// The answer to STATS: a line for each hall, for the guests and each customer of it that is there, and for each session, and an empty one.
pub(crate) fn stats_of<J: SiteNaming, R: AllocGlobal + Clock + Wait>(
    rt: &R,
    shared: &Shared<J>,
) -> Result<String, AllocError> {
    let mut out = String::new(rt.alloc());
    let (all, extra) = {
        let register = shared.register(rt);
        (register.connections.all(), register.connections.extra())
    };
    writeln!(out, "connections={all} heard={extra}")?;
    for hall in 0..shared.desks.len() {
        push_hall(rt, shared, hall, &mut out)?;
    }
    out.push_str("\n")?;
    Ok(out)
}

/// Appends what some of the sessions have and may have.
fn push_amounts(out: &mut String, may: Amount, has: Amount) -> Result<(), AllocError> {
    let (sessions, segments, nodes) = (has.sessions, has.segments, has.nodes);
    let (places, room, budget) = (may.sessions, may.segments, may.nodes);
    writeln!(
        out,
        "sessions={sessions} segments={segments} nodes={nodes} may_sessions={places} may_segments={room} may_nodes={budget}"
    )
}

/// Appends to STATS the lines of one hall.
fn push_hall<J: SiteNaming, R: AllocGlobal + Clock + Wait>(
    rt: &R,
    shared: &Shared<J>,
    hall: usize,
    out: &mut String,
) -> Result<(), AllocError> {
    let Some(desk) = shared.desks.get(hall) else {
        return Ok(());
    };
    let config = Arc::try_clone(&shared.register(rt).config)?;
    let number = hall.saturating_add(1);
    let (may, has) = desk.part(rt, Group::All);
    write!(out, "hall={number} ")?;
    push_amounts(out, may, has)?;
    let (may, has) = desk.part(rt, Group::Guests);
    write!(out, "guests hall={number} ")?;
    push_amounts(out, may, has)?;
    let now = shared.now(rt);
    let roll = desk.roll(rt);
    for (place, present) in roll.as_slice().iter().enumerate() {
        let name = config.directory.name_of(rt.alloc(), present.who)?;
        let is_first = !roll.as_slice()[..place]
            .iter()
            .any(|other| other.who.is(present.who));
        if is_first {
            let (may, has) = desk.part(rt, Group::Own(present.who));
            write!(out, "customer=\"{name}\" hall={number} ")?;
            push_amounts(out, may, has)?;
        }
        let address = shared.register(rt).address_of(hall, present.session);
        let address = match address {
            Some(address) => address_text(rt.alloc(), address)?,
            None => String::from_str(rt.alloc(), "-")?,
        };
        let session = present.session;
        let since = now.saturating_sub(present.since) / 1_000;
        let idle = now.saturating_sub(present.last) / 1_000;
        let (waits, ends) = (u8::from(present.waits), u8::from(present.told.is_some()));
        writeln!(
            out,
            "session={session} hall={number} customer=\"{name}\" address={address} since={since} idle={idle} waits={waits} ends={ends}"
        )?;
    }
    Ok(())
}

/// Appends what stands in front of a metric's lines.
fn push_head(out: &mut String, name: &str, help: &str, kind: &str) -> Result<(), AllocError> {
    writeln!(
        out,
        "# HELP othello_site_{name} {help}\n# TYPE othello_site_{name} {kind}"
    )
}

/// Appends a metric of one number, without labels.
fn push_one(
    out: &mut String,
    name: &str,
    help: &str,
    kind: &str,
    value: u128,
) -> Result<(), AllocError> {
    push_head(out, name, help, kind)?;
    writeln!(out, "othello_site_{name} {value}")
}

/// Appends a metric that is a histogram of durations.
fn push_histogram(
    out: &mut String,
    name: &str,
    help: &str,
    buckets: &Buckets,
) -> Result<(), AllocError> {
    push_head(out, name, help, "histogram")?;
    let mut sum: u64 = 0;
    for (place, count) in buckets.counts.iter().enumerate() {
        sum = sum.saturating_add(*count);
        match BOUNDS.get(place) {
            Some(bound) => {
                let (seconds, rest) = (*bound / 1_000_000, *bound % 1_000_000);
                writeln!(
                    out,
                    "othello_site_{name}_bucket{{le=\"{seconds}.{rest:06}\"}} {sum}"
                )?;
            }
            None => writeln!(out, "othello_site_{name}_bucket{{le=\"+Inf\"}} {sum}")?,
        }
    }
    let (seconds, rest) = (buckets.sum / 1_000_000, buckets.sum % 1_000_000);
    writeln!(
        out,
        "othello_site_{name}_sum {seconds}.{rest:06}\nothello_site_{name}_count {sum}"
    )
}

/// All metrics, in the text format of Prometheus (version 0.0.4).
pub(crate) fn metrics_of<J: SiteNaming, R: AllocGlobal + Clock + Wait>(
    rt: &R,
    shared: &Shared<J>,
) -> Result<String, AllocError> {
    let mut out = String::new(rt.alloc());
    let (counts, connections) = {
        let register = shared.register(rt);
        (register.counts, register.connections.all())
    };
    push_head(&mut out, "build_info", "The version that runs.", "gauge")?;
    writeln!(out, "othello_site_build_info{{version=\"1.0.0\"}} 1")?;
    push_one(
        &mut out,
        "connections",
        "Connections now.",
        "gauge",
        u128::from(connections),
    )?;
    push_halls(rt, shared, &mut out)?;
    push_counts(&mut out, &counts)?;
    push_refused(rt, shared, &mut out)?;
    Ok(out)
}

/// Appends the metrics of what the halls have and use.
fn push_halls<J: SiteNaming, R: Wait>(
    rt: &R,
    shared: &Shared<J>,
    out: &mut String,
) -> Result<(), AllocError> {
    push_head(out, "sessions", "Sessions now.", "gauge")?;
    for (hall, desk) in shared.desks.iter().enumerate() {
        let number = hall.saturating_add(1);
        let (_, all) = desk.part(rt, Group::All);
        let (_, guests) = desk.part(rt, Group::Guests);
        let named = all.sessions.saturating_sub(guests.sessions);
        let guests = guests.sessions;
        writeln!(
            out,
            "othello_site_sessions{{hall=\"{number}\",who=\"guests\"}} {guests}\nothello_site_sessions{{hall=\"{number}\",who=\"customers\"}} {named}"
        )?;
    }
    push_head(out, "segments", "Segments that are reserved now.", "gauge")?;
    for (hall, desk) in shared.desks.iter().enumerate() {
        let (number, all) = (hall.saturating_add(1), desk.part(rt, Group::All).1);
        let segments = all.segments;
        writeln!(out, "othello_site_segments{{hall=\"{number}\"}} {segments}")?;
    }
    push_head(out, "steps_total", "Steps of searches.", "counter")?;
    for (hall, desk) in shared.desks.iter().enumerate() {
        let (number, steps) = (hall.saturating_add(1), desk.count(rt));
        writeln!(out, "othello_site_steps_total{{hall=\"{number}\"}} {steps}")?;
    }
    Ok(())
}

/// Appends the refusals of those named customers that had most.
fn push_refused<J: SiteNaming, R: AllocGlobal + Wait>(
    rt: &R,
    shared: &Shared<J>,
    out: &mut String,
) -> Result<(), AllocError> {
    push_head(
        out,
        "customer_refused_total",
        "Refusals of the eight named customers that had most.",
        "counter",
    )?;
    let (config, most) = {
        let register = shared.register(rt);
        (Arc::try_clone(&register.config)?, register.refused.most())
    };
    for (number, count) in most {
        if count > 0 {
            let name = config.directory.name_of(rt.alloc(), Who::Named(number))?;
            writeln!(
                out,
                "othello_site_customer_refused_total{{customer=\"{name}\"}} {count}"
            )?;
        }
    }
    Ok(())
}

/// Appends the metrics of what was counted since the site began.
fn push_counts(out: &mut String, counts: &Counts) -> Result<(), AllocError> {
    push_one(
        out,
        "welcomed_total",
        "Sessions that were welcomed.",
        "counter",
        u128::from(counts.welcomed),
    )?;
    push_head(out, "refused_total", "Refusals by their reason.", "counter")?;
    for (reason, count) in NAMES.iter().zip(counts.refused.iter()) {
        writeln!(
            out,
            "othello_site_refused_total{{reason=\"{reason}\"}} {count}"
        )?;
    }
    push_one(
        out,
        "lines_total",
        "Lines of connections that have ended.",
        "counter",
        u128::from(counts.lines),
    )?;
    push_one(
        out,
        "values_total",
        "Values that were told to a WAIT.",
        "counter",
        u128::from(counts.values),
    )?;
    push_head(out, "reloads_total", "Files read again.", "counter")?;
    let (done, refused) = (counts.reloads, counts.reloads_refused);
    writeln!(
        out,
        "othello_site_reloads_total{{result=\"done\"}} {done}\nothello_site_reloads_total{{result=\"refused\"}} {refused}"
    )?;
    push_one(
        out,
        "ended_total",
        "Commands of the operator that ended sessions.",
        "counter",
        u128::from(counts.ended),
    )?;
    push_one(
        out,
        "gone_total",
        "Sessions that were ended as their client was gone while a job ran.",
        "counter",
        u128::from(counts.gone),
    )?;
    push_histogram(
        out,
        "hello_seconds",
        "From HELLO to its WELCOME.",
        &counts.hello,
    )?;
    push_histogram(
        out,
        "wait_seconds",
        "From WAIT to its answer.",
        &counts.wait,
    )
}
