//! Reading a proxy's header of version 1: a line of text.
ghost use Rattle.std.specs.Prelude.{◌≡◌, ◌<◌, length, IfSome};
ghost use Rattle.site_rules.specs.Headers.{whole};
ghost use Rattle.site_rules.specs.Texts.{IsSaid, IsTold4, IsTold6, port_of, line_end, line_by, text_reading, words_reading, addresses_reading, told_reading};
ghost use Rattle.site_rules.specs.HeaderViews.{read_seen, result_seen, text_seen};

use crate::faults::HeaderFault;
use crate::headers::{Header, Origin};
use protocol::{split_at_space, word_number};
use std::net::{Ipv4Addr, Ipv6Addr};

/// How a header of version 1 begins.
const WORD: [u8; 6] = [80, 82, 79, 88, 89, 32];

/// The most bytes of a header of version 1, with its CR and LF.
const MOST_BYTES: usize = 107;

/// The greatest port.
const MOST_PORT: u32 = 65535;

/// What a header of version 1 says, before its addresses are read.
#[derive(Clone, Copy)]
pub(crate) enum Text<'a> {
    /// It isn't whole yet.
    Waiting,
    /// It is no header.
    Foreign,
    /// It begins as a header, and is none.
    Wrong,
    /// No address is told. The header has so many bytes.
    Unknown(usize),
    /// Whether the addresses are of IPv4, the source's and the target's, the source's port, and how many bytes the header has.
    Told(bool, &'a [u8], &'a [u8], u16, usize),
}

/// The port (0 to 65535) that a word of a header writes; None for any other word.
fn port_of(word: &[u8]) -> Option<u16>
    ensures { result ≡ port_of word.now }
{
    match word_number(word) {
        Some(port) if port <= MOST_PORT => Some(port as u16),
        _ => None,
    }
}

/// What a proxy's header of version 1 tells by its two addresses and its two ports.
fn told_reading<'a>(
    four: bool,
    source: &'a [u8],
    target: &'a [u8],
    ports: &[u8],
    used: usize,
) -> Text<'a>
    ensures { text_seen result ≡ told_reading four source.now target.now ports.now used }
{
    let Some((port, other)) = split_at_space(ports) else {
        return Text::Wrong;
    };
    match (port_of(port), port_of(other)) {
        (Some(port), Some(_)) => Text::Told(four, source, target, port, used),
        _ => Text::Wrong,
    }
}

/// What a proxy's header of version 1 tells by the words after the family (TCP4 or TCP6): two addresses and two ports.
fn addresses_reading(four: bool, words: &[u8], used: usize) -> Text<'_>
    ensures { text_seen result ≡ addresses_reading four words.now used }
{
    let Some((source, rest)) = split_at_space(words) else {
        return Text::Wrong;
    };
    match split_at_space(rest) {
        None => Text::Wrong,
        Some((target, ports)) => told_reading(four, source, target, ports, used),
    }
}

/// What a header of version 1 tells by its words after PROXY.
fn words_reading(words: &[u8], used: usize) -> Text<'_>
    ensures { text_seen result ≡ words_reading words.now used }
{
    let Some((family, rest)) = split_at_space(words) else {
        return if words == b"UNKNOWN".as_slice() {
            Text::Unknown(used)
        } else {
            Text::Wrong
        };
    };
    if family == b"UNKNOWN".as_slice() {
        Text::Unknown(used)
    } else if family == b"TCP4".as_slice() {
        addresses_reading(true, rest, used)
    } else if family == b"TCP6".as_slice() {
        addresses_reading(false, rest, used)
    } else {
        Text::Wrong
    }
}

/// Where the first LF among the first 107 bytes stands.
fn line_end(bytes: &[u8]) -> Option<usize>
    ensures value { result ≡ line_end bytes.now }
    ensures within { IfSome result (λ end. end < length bytes.now) }
{
    let first = &bytes[..bytes.len().min(MOST_BYTES)];
    first.iter().position(|byte| *byte == b'\n')
}

/// What a proxy's header of version 1 tells by its line, which these bytes begin with.
fn line_reading(bytes: &[u8]) -> Text<'_>
    ensures { text_seen result ≡ line_by bytes.now (line_end bytes.now) }
{
    let Some(end) = line_end(bytes) else {
        return if bytes.len() < MOST_BYTES {
            Text::Waiting
        } else {
            Text::Wrong
        };
    };
    if end < 8 {
        return Text::Wrong;
    }
    if bytes[end - 1] != b'\r' {
        return Text::Wrong;
    }
    words_reading(&bytes[6..end - 1], end + 1)
}

/// What bytes tell as a header of version 1; `Foreign` where they don't begin as one.
pub(crate) fn text_reading(bytes: &[u8]) -> Text<'_>
    ensures { text_seen result ≡ text_reading bytes.now }
{
    let known = bytes.len().min(WORD.len());
    if bytes[..known] != WORD[..known] {
        return Text::Foreign;
    }
    line_reading(bytes)
}

/// The header that tells these texts of two IPv4 addresses and this port; a fault where one of them is no address.
fn v4_header<'a>(
    source: &[u8],
    target: &[u8],
    port: u16,
    used: usize,
) -> Result<Header<'a>, HeaderFault>
    ensures { IsTold4 source.now target.now port used (result_seen result) }
{
    match Ipv4Addr::parse_ascii(target) {
        Ok(_) => {}
        Err(_) => return Err(HeaderFault::WrongText),
    }
    match Ipv4Addr::parse_ascii(source) {
        Ok(address) => Ok(Header {
            origin: Origin::V4(address.octets(), port),
            fields: &[],
            used,
        }),
        Err(_) => Err(HeaderFault::WrongText),
    }
}

/// The header that tells these texts of two IPv6 addresses and this port; a fault where one of them is no address.
fn v6_header<'a>(
    source: &[u8],
    target: &[u8],
    port: u16,
    used: usize,
) -> Result<Header<'a>, HeaderFault>
    ensures { IsTold6 source.now target.now port used (result_seen result) }
{
    match Ipv6Addr::parse_ascii(target) {
        Ok(_) => {}
        Err(_) => return Err(HeaderFault::WrongText),
    }
    match Ipv6Addr::parse_ascii(source) {
        Ok(address) => Ok(Header {
            origin: Origin::V6(address.octets(), port),
            fields: &[],
            used,
        }),
        Err(_) => Err(HeaderFault::WrongText),
    }
}

/// A whole header that was read, or the fault for which there is none.
fn whole(header: Result<Header<'_>, HeaderFault>) -> Result<Option<Header<'_>>, HeaderFault>
    ensures { read_seen result ≡ whole (result_seen header.entry) }
{
    match header {
        Ok(header) => Ok(Some(header)),
        Err(fault) => Err(fault),
    }
}

/// The header of version 1 with which these bytes begin; None where it isn't whole yet.
pub(crate) fn read_text(bytes: &[u8]) -> Result<Option<Header<'_>>, HeaderFault>
    ensures { IsSaid (text_reading bytes.now) (read_seen result) }
{
    match text_reading(bytes) {
        Text::Waiting => Ok(None),
        Text::Foreign => Err(HeaderFault::NoHeader),
        Text::Wrong => Err(HeaderFault::WrongText),
        Text::Unknown(used) => Ok(Some(Header {
            origin: Origin::Local,
            fields: &[],
            used,
        })),
        Text::Told(true, source, target, port, used) => whole(v4_header(
            source, target, port, used,
        )),
        Text::Told(false, source, target, port, used) => whole(v6_header(
            source, target, port, used,
        )),
    }
}
