//! Addresses and networks, as a site's file has them.
ghost use Rattle.std.specs.Prelude.{◌≡◌, ◌≤◌};
ghost use Rattle.std.specs.Int.{w32, w64, from_be_bytes};
ghost use Rattle.std.specs.Prelude.{take, drop};
ghost use Rattle.site_file.specs.Addresses.{v6_of, guest_of, same_front, has, fixed_bits, is_same_network};
ghost use Rattle.site_file.specs.declared.address.Address.TheVariants.{V4};

use site_book::Who;
use std::net::IpAddr;

/// Where a connection comes from.
#[derive(Clone, Copy)]
pub enum Address {
    /// An address of IPv4, as a number.
    V4(u32),
    /// An address of IPv6: its first 64 bits and its last, as numbers.
    V6(u64, u64),
}

impl Address {
    /// The address of IPv4 of these bytes, the most significant first.
    pub fn v4(octets: [u8; 4]) -> Address
        ensures { result ≡ V4 (from_be_bytes w32 octets) }
    {
        Address::V4(u32::from_be_bytes(octets))
    }

    /// The address of IPv6 of these bytes, the most significant first. One that stands for an address of IPv4 is that.
    pub fn v6(octets: [u8; 16]) -> Address
        ensures { result ≡ v6_of (from_be_bytes w64 (take 8 octets)) (from_be_bytes w64 (drop 8 octets)) }
    {
        let mut high = [0; 8];
        let mut low = [0; 8];
        high.copy_from_slice(&octets[..8]);
        low.copy_from_slice(&octets[8..]);
        Address::of_halves(u64::from_be_bytes(high), u64::from_be_bytes(low))
    }

    /// The address of IPv6 of these halves.
    fn of_halves(high: u64, low: u64) -> Address
        ensures { result ≡ v6_of high low }
    {
        if high == 0 && low >> 32 == 0xffff {
            Address::V4((low % (1 << 32)) as u32)
        } else {
            Address::V6(high, low)
        }
    }

    /// The address that a socket's address of IPv4 or IPv6 stands for.
    pub fn of_ip(ip: IpAddr) -> Address {
        match ip {
            IpAddr::V4(ip) => Address::v4(ip.octets()),
            IpAddr::V6(ip) => Address::v6(ip.octets()),
        }
    }

    /// The guest that comes from there: of IPv6 by the first 64 bits, since one network has the others.
    pub fn guest(self) -> Who
        ensures { result ≡ guest_of self }
    {
        match self {
            Address::V4(address) => Who::V4(address),
            Address::V6(high, _) => Who::V6(high),
        }
    }
}

/// A network: the addresses whose first bits are those of this one.
#[derive(Clone, Copy)]
pub enum Network {
    /// A network of IPv4: an address, and how many of its bits count, 0 to 32.
    V4(u32, u8),
    /// A network of IPv6: the first 64 bits of an address and its last, and how many of its bits count, 0 to 128.
    V6(u64, u64, u8),
}

/// Whether two numbers of `width` bits have the same first bits.
fn same_front(width: u8, bits: u8, a: u64, b: u64) -> bool
    requires { width ≤ 64 }
    ensures { result ≡ same_front width bits a b }
{
    let rest = width.saturating_sub(bits);
    rest == 64 || a >> rest == b >> rest
}

impl Network {
    /// How many first bits of an address the network fixes: the more there are, the fewer addresses it has.
    pub(crate) fn bits(self) -> u8
        ensures { result ≡ fixed_bits self }
    {
        match self {
            Network::V4(_, bits) => bits,
            Network::V6(_, _, bits) => bits,
        }
    }

    /// Whether both networks are the same.
    pub(crate) fn is(self, other: Network) -> bool
        ensures { result ≡ is_same_network self other }
    {
        match (self, other) {
            (Network::V4(own, bits), Network::V4(address, more)) => own == address && bits == more,
            (Network::V6(high, low, bits), Network::V6(front, back, more)) => {
                high == front && low == back && bits == more
            }
            (Network::V4(_, _), Network::V6(_, _, _)) => false,
            (Network::V6(_, _, _), Network::V4(_, _)) => false,
        }
    }

    /// Whether this network has the address.
    pub(crate) fn has(self, address: Address) -> bool
        ensures { result ≡ has self address }
    {
        match self {
            Network::V4(own, bits) => has_v4(own, bits, address),
            Network::V6(high, low, bits) => has_v6(high, low, bits, address),
        }
    }
}

/// Whether an IPv4 network, with so many bits fixed, has this address.
fn has_v4(own: u32, bits: u8, address: Address) -> bool
    ensures { result ≡ has (Network.V4 own bits) address }
{
    match address {
        Address::V4(other) => same_front(32, bits, u64::from(own), u64::from(other)),
        Address::V6(_, _) => false,
    }
}

/// Whether an IPv6 network, with so many bits fixed, has this address.
fn has_v6(high: u64, low: u64, bits: u8, address: Address) -> bool
    ensures { result ≡ has (Network.V6 high low bits) address }
{
    match address {
        Address::V4(_) => false,
        Address::V6(front, back) => {
            same_front(64, bits, high, front) && same_front(64, bits.saturating_sub(64), low, back)
        }
    }
}
