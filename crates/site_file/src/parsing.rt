//! Digests and networks, read from their texts in a site's file.
ghost use Rattle.std.specs.Prelude.{◌<◌, IfSome};

use crate::address::{Address, Network};
use std::net::{Ipv4Addr, Ipv6Addr};

/// The digest that 64 hexadecimal digits write.
pub(crate) fn digest_of(text: &[u8]) -> Option<[u8; 32]> {
    let mut digest = [0; 32];
    if text.len() != 64 {
        return None;
    }
    for place in 0..32 {
        let high = hex_value(text[2 * place])?;
        let low = hex_value(text[2 * place + 1])?;
        digest[place] = high * 16 + low;
    }
    Some(digest)
}

/// The value of a hexadecimal digit; None for any other byte.
fn hex_value(byte: u8) -> Option<u8>
    ensures { IfSome result (λ value. value < 16) }
{
    match char::from(byte).to_digit(16) {
        Some(digit) => Some(digit as u8),
        None => None,
    }
}

/// The network that a text writes: an address, or one whose bits behind the first so many are 0, with that number behind
/// a `/`.
pub(crate) fn network_of(text: &str) -> Option<Network> {
    let (address, bits) = match text.split_once('/') {
        Some((address, bits)) => (address, Some(bits_of(bits)?)),
        None => (text, None),
    };
    if let Ok(ip) = Ipv4Addr::parse_ascii(address.as_bytes()) {
        return v4_network(Address::v4(ip.octets()), bits.unwrap_or(32));
    }
    match Ipv6Addr::parse_ascii(address.as_bytes()) {
        Ok(ip) => v6_network(ip.octets(), bits.unwrap_or(128)),
        Err(_) => None,
    }
}

/// The number that one to three digits write, as the bits of a network; None for any other text.
fn bits_of(text: &str) -> Option<u8> {
    if text.is_empty() || !are_digits(text.as_bytes()) {
        return None;
    }
    text.parse::<u8>().ok()
}

/// Whether each byte is a decimal digit.
fn are_digits(bytes: &[u8]) -> bool {
    for byte in bytes {
        if !byte.is_ascii_digit() {
            return false;
        }
    }
    true
}

/// The IPv4 network with so many bits fixed; None beyond 32, or where the other bits aren't 0.
fn v4_network(address: Address, bits: u8) -> Option<Network> {
    match address {
        Address::V4(own) if bits <= 32 && is_base(u64::from(own), 32 - bits) => {
            Some(Network::V4(own, bits))
        }
        _ => None,
    }
}

/// The IPv6 network with so many bits fixed, or the IPv4 network that it maps; None where the other bits aren't 0.
fn v6_network(octets: [u8; 16], bits: u8) -> Option<Network> {
    let (high, low) = match Address::v6(octets) {
        Address::V6(high, low) => (high, low),
        Address::V4(own) if bits >= 96 => return v4_network(Address::V4(own), bits - 96),
        Address::V4(_) => return None,
    };
    if bits > 128 {
        return None;
    }
    let is_base = if bits <= 64 {
        low == 0 && is_base(high, 64 - bits)
    } else {
        is_base(low, 128 - bits)
    };
    if is_base {
        Some(Network::V6(high, low, bits))
    } else {
        None
    }
}

/// Whether the last bits of a number are 0.
fn is_base(number: u64, last: u8) -> bool {
    if last >= 64 {
        number == 0
    } else {
        number % (1 << last) == 0
    }
}
