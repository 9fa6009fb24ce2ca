//! Whose a site's session is: a named customer's, or a guest's by its address.
ghost use Rattle.std.specs.Prelude.{◌≡◌};
ghost use Rattle.site_book.specs.Names.{same_who, is_guest, network_of};

/// Whose a session is: a named customer's, by its place in the plan, or a guest's, by its address.
#[derive(Clone, Copy, Debug, PartialEq, Eq)]
pub enum Who {
    /// The customer that the plan names at this place, from 0.
    Named(u32),
    /// The guest of this address of IPv4.
    V4(u32),
    /// The guest of this network of IPv6: the first 64 bits of the address.
    V6(u64),
}

impl Who {
    /// Whether both are the same customer or guest.
    pub fn is(self, other: Who) -> bool
        ensures { result ≡ same_who self other }
    {
        match self {
            Who::Named(number) => other.is_named(number),
            Who::V4(address) => other.is_v4(address),
            Who::V6(network) => other.is_v6(network),
        }
    }

    /// Whether the session's owner is a guest.
    pub fn is_guest(self) -> bool
        ensures { result ≡ is_guest self }
    {
        match self {
            Who::Named(_) => false,
            Who::V4(_) => true,
            Who::V6(_) => true,
        }
    }

    /// The wider network of a guest: of IPv6 that of the first 48 bits of the address, the others being 0; of IPv4 the address.
    pub fn network(self) -> Who
        ensures { result ≡ network_of self }
    {
        match self {
            Who::Named(number) => Who::Named(number),
            Who::V4(address) => Who::V4(address),
            Who::V6(network) => Who::V6(network / 65536),
        }
    }

    /// Whether the session's owner is the customer that the plan names at this place.
    fn is_named(self, number: u32) -> bool
        ensures { result ≡ same_who (Who.Named number) self }
    {
        match self {
            Who::Named(own) => number == own,
            Who::V4(_) => false,
            Who::V6(_) => false,
        }
    }

    /// Whether the session's owner is the guest of this IPv4 address.
    fn is_v4(self, address: u32) -> bool
        ensures { result ≡ same_who (Who.V4 address) self }
    {
        match self {
            Who::Named(_) => false,
            Who::V4(own) => address == own,
            Who::V6(_) => false,
        }
    }

    /// Whether the session's owner is the guest of this IPv6 network (the address's first 64 bits).
    fn is_v6(self, network: u64) -> bool
        ensures { result ≡ same_who (Who.V6 network) self }
    {
        match self {
            Who::Named(_) => false,
            Who::V4(_) => false,
            Who::V6(own) => network == own,
        }
    }
}
