//! Headers of the PROXY protocol, versions 1 and 2 (HAProxy's public specification): what a proxy says in front of a connection's own
//! bytes of where the connection comes from. One call reads a header from the bytes that are there, which may be too few yet.
//!
//! Values and what they stand for. A header of version 2 is a function of the bytes (`specs/Headers.antt`): the signature of 12
//! bytes, the version and command, the family, two bytes of length, and as many bytes as that says: two addresses, two ports and
//! fields. One of version 1 is a line of words (`specs/Texts.antt`), whose addresses are what std's `parse_ascii` reads.
//! An [`Origin`] is an address with its port, or that none is told: the proxy speaks for itself (the command LOCAL) or doesn't
//! know. A field of the header is found by its type ([`field_of`]); a proxy can hand on a certificate's name in one.
//!
//! - Bytes that can't begin a header are refused at once, and no more of them are waited for. A header that isn't whole is no
//!   fault.
//! - A header of more than 4,096 bytes is refused, so a reader knows how many bytes it must keep.
//! - Checksums (field type 0x03) aren't compared: a site believes its own proxy alone, over loopback.
//!
//! ```text
//! read_header(b"\r\n\r\n\0\r\nQUIT\n\x21\x11\0\x0c\x0a\0\0\x01\x7f\0\0\x01\xc3\x50\x12\x5c")
//! // Ok(Some(Header { origin: Origin::V4([10, 0, 0, 1], 50000), fields: [], used: 28 }))
//! ```
ghost use Rattle.std.specs.Prelude.{◌≡◌, ◌+◌, ◌<◌, ◌≤◌, length, take};
ghost use Rattle.site_rules.specs.Headers.{reading, command_reading, family_reading, v4_reading, v6_reading, local_header, number_at};
ghost use Rattle.site_rules.specs.Texts.{IsReading};
ghost use Rattle.site_rules.specs.HeaderViews.{header_seen, result_seen, read_seen};

use crate::faults::HeaderFault;
use crate::texts::read_text;

/// The 12 bytes with which a header of version 2 begins.
const SIGNATURE: [u8; 12] = [13, 10, 13, 10, 0, 13, 10, 81, 85, 73, 84, 10];

/// The bytes before the addresses.
const FRONT_BYTES: usize = 16;

/// The most bytes after these.
const MOST_BYTES: usize = 4080;

/// The bytes of two IPv4 addresses and their ports.
const V4_BYTES: usize = 12;

/// The bytes of two IPv6 addresses and their ports.
const V6_BYTES: usize = 36;

/// Where a connection comes from.
#[derive(Clone, Copy)]
pub enum Origin {
    /// No address is told: the proxy speaks for itself, or it doesn't know.
    Local,
    /// An IPv4 address, most significant byte first, and a port.
    V4([u8; 4], u16),
    /// An IPv6 address, most significant byte first, and a port.
    V6([u8; 16], u16),
}

/// A header.
#[derive(Clone, Copy)]
pub struct Header<'a> {
    /// Where the connection comes from.
    pub origin: Origin,
    /// The bytes after the addresses and ports, up to the header's end; none where no address is told.
    pub fields: &'a [u8],
    /// How many bytes the header has. The connection's own bytes follow them.
    pub used: usize,
}

/// The number that two bytes write, the high one first.
fn number_at(bytes: &[u8], at: usize) -> u16
    requires { at + 1 < length bytes.now }
    ensures { result ≡ number_at bytes.now at }
{
    u16::from(bytes[at]) * 256 + u16::from(bytes[at + 1])
}

/// A header of which no address is told, with so many bytes after its front.
fn local_header<'a>(size: usize) -> Header<'a>
    requires { size ≤ 4080 }
    ensures { header_seen result ≡ local_header size }
{
    Header {
        origin: Origin::Local,
        fields: &[],
        used: FRONT_BYTES + size,
    }
}

/// The header of TCP over IPv4 whose bytes after its front are these.
fn v4_reading(body: &[u8]) -> Result<Header<'_>, HeaderFault>
    requires { length body.now ≤ 4080 }
    ensures { result_seen result ≡ v4_reading body.now }
{
    match body.first_chunk::<4>() {
        Some(address) if body.len() >= V4_BYTES => Ok(Header {
            origin: Origin::V4(*address, number_at(body, 8)),
            fields: &body[V4_BYTES..],
            used: FRONT_BYTES + body.len(),
        }),
        _ => Err(HeaderFault::ShortAddress),
    }
}

/// The first 16 bytes of a header's body, which are its IPv6 source address.
fn v6_address(body: &[u8]) -> [u8; 16]
    requires { 16 ≤ length body.now }
    ensures { result ≡ take 16 body.now }
{
    let mut address = [0; 16];
    address.copy_from_slice(&body[..16]);
    address
}

/// The header of TCP over IPv6 whose bytes after its front are these.
fn v6_reading(body: &[u8]) -> Result<Header<'_>, HeaderFault>
    requires { length body.now ≤ 4080 }
    ensures { result_seen result ≡ v6_reading body.now }
{
    if body.len() < V6_BYTES {
        return Err(HeaderFault::ShortAddress);
    }
    Ok(Header {
        origin: Origin::V6(v6_address(body), number_at(body, 32)),
        fields: &body[V6_BYTES..],
        used: FRONT_BYTES + body.len(),
    })
}

/// The header of version 2 with this family, by the bytes after its first 16.
fn family_reading(family: u8, body: &[u8]) -> Result<Header<'_>, HeaderFault>
    requires { length body.now ≤ 4080 }
    ensures { result_seen result ≡ family_reading family body.now }
{
    match family {
        0x00 => Ok(local_header(body.len())),
        0x11 => v4_reading(body),
        0x21 => v6_reading(body),
        _ => Err(HeaderFault::Family),
    }
}

/// The header of this command, family and length, where these bytes begin with its front; None where it isn't whole yet.
fn command_reading<'a>(
    command: u8,
    family: u8,
    size: usize,
    bytes: &'a [u8],
) -> Result<Option<Header<'a>>, HeaderFault>
    requires { 16 ≤ length bytes.now }
    ensures { read_seen result ≡ command_reading command family size bytes.now }
{
    if command > 1 {
        return Err(HeaderFault::Command);
    }
    if size > MOST_BYTES {
        return Err(HeaderFault::LongHeader);
    }
    if bytes.len() - FRONT_BYTES < size {
        return Ok(None);
    }
    if command == 0 {
        return Ok(Some(local_header(size)));
    }
    match family_reading(family, &bytes[FRONT_BYTES..][..size]) {
        Ok(header) => Ok(Some(header)),
        Err(fault) => Err(fault),
    }
}

/// The header of version 2 with which these bytes begin. None where they are the beginning of a header and it isn't whole yet; Err where
/// they are no header that is understood, whatever bytes follow.
fn read_binary(bytes: &[u8]) -> Result<Option<Header<'_>>, HeaderFault>
    ensures { read_seen result ≡ reading bytes.now }
{
    let known = bytes.len().min(SIGNATURE.len());
    if bytes[..known] != SIGNATURE[..known] {
        return Err(HeaderFault::NoHeader);
    }
    if bytes.len() < FRONT_BYTES {
        return Ok(None);
    }
    if bytes[12] / 16 != 2 {
        return Err(HeaderFault::Version);
    }
    command_reading(
        bytes[12] % 16,
        bytes[13],
        usize::from(number_at(bytes, 14)),
        bytes,
    )
}

/// The header with which these bytes begin, of version 1 or 2. None where they are the beginning of a header and it isn't whole
/// yet; Err where they are no header that is understood, whatever bytes follow.
pub fn read_header(bytes: &[u8]) -> Result<Option<Header<'_>>, HeaderFault>
    ensures { IsReading bytes.now (read_seen result) }
{
    match bytes.first() {
        Some(b'P') => read_text(bytes),
        _ => read_binary(bytes),
    }
}
