//! How many connections a site's process has descriptors for.
ghost use Rattle.std.specs.Prelude.{◌≡◌};
ghost use Rattle.site_rules.specs.Descriptors.{connections_within};

/// Descriptors that a site keeps for all but its connections: its three streams, four listeners and two spare names of them, those who
/// ask for health and those who are the operator (16 each, and one more while the oldest goes), the file, and a connection at each port
/// that is closed at once.
pub const KEPT_DESCRIPTORS: u64 = 64;

/// How many connections a site takes that wants so many, where the process may have so many descriptors: so none of them is ever without
/// one, and neither is the operator. `None` where there is none for a connection.
pub fn connections_within(descriptors: u64, wanted: u32) -> Option<u32>
    ensures { result ≡ connections_within descriptors wanted }
{
    if descriptors <= KEPT_DESCRIPTORS {
        return None;
    }
    match u32::try_from(descriptors - KEPT_DESCRIPTORS) {
        Ok(most) => Some(wanted.min(most)),
        Err(_) => Some(wanted),
    }
}
