//! Why a connection's first bytes are no proxy's header.
ghost use Rattle.std.specs.Prelude.{◌≡◌};
ghost use Rattle.site_rules.specs.HeaderViews.{header_fault_number};

/// Why bytes are no header that is understood: the first fault, in this order. Each has a number.
#[derive(Clone, Copy, PartialEq, Eq)]
pub enum HeaderFault {
    /// Number 1: they begin neither with the signature nor with PROXY and a space.
    NoHeader,
    /// Number 2: another version than 2.
    Version,
    /// Number 3: another command than LOCAL and PROXY.
    Command,
    /// Number 4: the header has more than 4,096 bytes.
    LongHeader,
    /// Number 5: the family isn't TCP over IPv4 or IPv6, nor unspecified.
    Family,
    /// Number 6: the header is too short for the addresses of its family.
    ShortAddress,
    /// Number 7: a line that begins as a header of version 1 and is none.
    WrongText,
}

impl HeaderFault {
    /// The number of the header's fault, 1 to 7.
    pub fn number(self) -> u8
        ensures { result ≡ header_fault_number self }
    {
        match self {
            HeaderFault::NoHeader => 1,
            HeaderFault::Version => 2,
            HeaderFault::Command => 3,
            HeaderFault::LongHeader => 4,
            HeaderFault::Family => 5,
            HeaderFault::ShortAddress => 6,
            HeaderFault::WrongText => 7,
        }
    }
}
