//! For tests of pools: what the scenarios say at a desk.
use crate::tests::calls::{At, Found, opening};
use crate::tests::signs::MOST_TURNS;
use desk::{DeskLedger, Seat};
use othello_board::position_text::Position;
use std::sync::Wait;
use std::thread;
use steal_pool::leaf_search::search_full;

/// What the serial search finds, at most to depth 12.
fn sought(position: &Position, depth: u8) -> Found {
    let found = search_full(position.board, depth.min(12));
    Found::Done(found.score, found.choice)
}

impl<L: DeskLedger, R: Wait> At<'_, L, R> {
    /// A new seat with so many segments and nodes, if the desk gives one.
    pub fn seat(&self, segments: u32, nodes: u32) -> Option<Seat<L>> {
        self.admit(segments, nodes).ok()
    }

    /// Whether a seat's ask for the opening to this depth is taken, as a job of this number.
    pub fn asks(&self, seat: &mut Seat<L>, job: u64, depth: u8) -> bool {
        self.ask(seat, &opening(), depth) == Ok(job)
    }

    /// Whether so many asks for the opening to depth 0 are taken, from job 1 on.
    pub fn asks_many(&self, seat: &mut Seat<L>, many: u64) -> bool {
        for before in 0..many {
            if !self.asks(seat, before + 1, 0) {
                return false;
            }
        }
        true
    }

    /// The end of a job, asked for again and again; Pending where it doesn't come within the limit.
    fn end_of(&self, seat: &Seat<L>, job: u64) -> Found {
        for _ in 0..MOST_TURNS {
            match self.get(seat, job) {
                Found::Pending => thread::yield_now(),
                found => return found,
            }
        }
        Found::Pending
    }

    /// Whether a job ends with what the serial search finds.
    pub fn is_found(&self, seat: &Seat<L>, job: u64, position: &Position, depth: u8) -> bool {
        self.end_of(seat, job) == sought(position, depth)
    }

    /// Whether a job of the opening ends with what the serial search finds.
    pub fn ends(&self, seat: &Seat<L>, job: u64, depth: u8) -> bool {
        self.is_found(seat, job, &opening(), depth)
    }

    /// Whether a seat asks for the opening to this depth, as its first job, and has its reply.
    pub fn has_reply(&self, seat: &mut Seat<L>, depth: u8) -> bool {
        self.asks(seat, 1, depth) && self.ends(seat, 1, depth)
    }
}
