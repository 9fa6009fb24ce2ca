//! What comes of one who asks a site's desk for a session: a seat, or why there is none.
use crate::turned::Turned;
use site_book::BookRefusal;

/// What comes of one who asks for a session; `S` is its seat.
#[derive(Drop)]
pub enum SeatOutcome<S> {
    /// It has this seat.
    Seated(S),
    /// It is refused now, but there is room once those have left who were told to end.
    Later {
        /// Why it is refused now.
        refusal: BookRefusal,
        /// The guest's session that was told to end for it just now.
        ending: Option<u64>,
        /// How many sessions had left by then.
        left: u64,
    },
    /// It is turned away.
    Turned(Turned),
}
