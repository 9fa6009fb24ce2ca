//! In which hall of a site a guest's next session is.
ghost use Rattle.std.specs.Prelude.{◌≡◌};
ghost use Rattle.site_rules.specs.Halls.{left, emptiest, hall_of_guest};

/// What all guests may still have in a hall.
#[derive(Clone, Copy, Debug)]
pub struct HallRoom {
    /// Sessions.
    pub sessions: u32,
    /// Segments.
    pub segments: u64,
    /// Nodes.
    pub nodes: u64,
}

/// How much is left in a hall: 0 where it has no room for a session, and else one more than the nodes.
fn left(room: &HallRoom) -> u64
    ensures { result ≡ left room.now }
{
    if room.sessions == 0 || room.segments == 0 {
        0
    } else {
        room.nodes.saturating_add(1)
    }
}

/// The first of the halls in which most is left, from 0.
fn emptiest(rooms: &[HallRoom]) -> usize
    ensures { result ≡ emptiest 0 0 0 rooms.now }
{
    let mut best: usize = 0;
    let mut most = 0;
    for (place, room) in rooms.iter().enumerate() {
        let left = left(room);
        if most < left {
            best = place;
            most = left;
        }
    }
    best
}

/// The hall of a guest's next session, from 0: where it has sessions already (`home`), since what it may have is counted there; else the
/// first of those in which guests have most left.
pub fn hall_of_guest(rooms: &[HallRoom], home: Option<usize>) -> usize
    ensures { result ≡ hall_of_guest rooms.now home }
{
    match home {
        Some(hall) => hall,
        None => emptiest(rooms),
    }
}
