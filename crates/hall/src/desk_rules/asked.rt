//! What was asked for a seat at a desk, and what is shown of its jobs.
ghost use Rattle.std.specs.Prelude.{◌≡◌, option_copied};
ghost use Rattle.hall.specs.desk_rules.Asked.{seat_asked_at, Shows, IsShownOf};

use crate::Outcome;
use othello_board::Board;

/// How many jobs a seat can ask for.
pub const JOBS: usize = 256;

/// What a seat asked: a board, seen by the player to move, and a depth of 0 to 12 plies.
#[derive(Clone, Copy, Debug, PartialEq, Eq)]
pub struct SeatAsked {
    /// The board.
    pub board: Board,
    /// The depth.
    pub depth: u8,
}

// Only for the free places of an `ArrayVec`, which need some value.
impl Default for SeatAsked {
    /// An empty board to depth 0, as a filler of free places.
    fn default() -> SeatAsked {
        SeatAsked {
            board: Board { own: 0, opp: 0 },
            depth: 0,
        }
    }
}

/// What was asked as the job of this number, from 1 on. `None` where the number is 0 or above the length.
pub fn seat_asked_at(asked: &[SeatAsked], job: u64) -> Option<&SeatAsked>
    ensures { option_copied result ≡ seat_asked_at asked.now job }
{
    if job == 0 {
        return None;
    }
    let at = job as usize - 1;
    if at < asked.len() {
        Some(&asked[at])
    } else {
        None
    }
}

/// What a seat is told of a job by which it asked this, where `told` is the hall's outcome of it: that outcome, but
/// `Pending` in place of a reply to another board or depth, and where the hall has no such job (`None`).
pub fn shown(asked: &SeatAsked, told: Option<Outcome>) -> Outcome
    ensures fits { Shows asked.now result }
    ensures told { IsShownOf asked.now told result }
{
    match told {
        Some(Outcome::Done(reply)) => {
            let board = reply.board();
            if board.own == asked.board.own
                && board.opp == asked.board.opp
                && reply.depth() == asked.depth
            {
                Outcome::Done(reply)
            } else {
                Outcome::Pending
            }
        }
        Some(outcome) => outcome,
        None => Outcome::Pending,
    }
}
