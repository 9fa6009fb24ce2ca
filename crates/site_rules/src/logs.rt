//! Whether a line of a site's log is said that anybody can cause.
ghost use Rattle.std.specs.Prelude.{◌≡◌, ◌&&◌, nat_lt};

/// How many lines of one reason are said in a second.
pub const OF_A_REASON: u32 = 10;

/// How many of them name one address.
pub const OF_AN_ADDRESS: u32 = 2;

/// Whether one line more is said in a second in which so many of its reason were, and so many of these of its address: so neither one
/// address nor one reason keeps another's lines out.
pub fn is_said(of_reason: u32, of_address: u32) -> bool
    ensures { result ≡ (nat_lt of_reason 10 && nat_lt of_address 2) }
{
    of_reason < OF_A_REASON && of_address < OF_AN_ADDRESS
}
