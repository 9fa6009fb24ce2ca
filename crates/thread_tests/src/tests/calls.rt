//! For tests: the calls of a desk, each in one function that promises nothing, so that the prover reads each contract
//! once for all tests.
ghost use Rattle.std.specs.Prelude.{◌≡◌, true};
ghost use Rattle.hall.specs.Journals.{is_worker_step};

use desk::{
    Badge, Config, Desk, DeskGuard, DeskLedger, Hall, Jamboree, LeafAnswer, LockedHall, Outcome,
    Refusal, Seat, Step, StepAnswer, StepOf, Worker,
};
use frame_table::FrameId;
use othello_board::Board;
use othello_board::position_text::{Position, Side};
use othello_moves::Choice;
use std::alloc::Global;
use std::sync::Wait;
use tenant_quota::{Left, Reserve};

/// This board as a position, with Black to move.
pub fn black(board: Board) -> Position {
    Position {
        board,
        side: Side::Black,
    }
}

/// The opening position of Othello, Black to move.
pub fn opening() -> Position {
    black(Board {
        own: 0x8_1000_0000,
        opp: 0x10_0800_0000,
    })
}

/// A disc of each player in the corner: one move ends the game.
pub fn corner() -> Position {
    black(Board { own: 1, opp: 2 })
}

/// A position whose 64 discs are all White's: the game is over.
pub fn all_white() -> Position {
    black(Board {
        own: 0,
        opp: u64::MAX,
    })
}

/// A new hall, if there is memory for it, whose workers search what is at most so deep (and 6) by themselves.
pub fn hall_of(alloc: Global, segments: u32, nodes: u32, grain: u8) -> Option<Hall> {
    let config = Config::new(segments, nodes)?;
    Hall::new(alloc, config, grain.min(6)).ok()
}

/// What a tenant has left, of these numbers: segments, nodes and steps.
pub fn left_of(segments: u32, nodes: u32, steps: u32) -> Left {
    Left {
        segments,
        nodes,
        steps,
    }
}

/// What is found of a job.
#[derive(Clone, Copy, PartialEq, Eq)]
pub enum Found {
    /// It goes on.
    Pending,
    /// It is done, with this value and choice.
    Done(i32, Option<Choice>),
    /// It was given up for want of quota.
    Spent,
    /// It was cancelled.
    Cancelled,
    /// The call is refused.
    Refused(Refusal),
}

/// What a call at the desk found of a job, as a test compares it.
fn told(answer: Result<Outcome, Refusal>) -> Found {
    match answer {
        Ok(Outcome::Pending) => Found::Pending,
        Ok(Outcome::Done(reply)) => Found::Done(reply.value(), reply.choice()),
        Ok(Outcome::Spent) => Found::Spent,
        Ok(Outcome::Cancelled) => Found::Cancelled,
        Err(refusal) => Found::Refused(refusal),
    }
}

/// Where one speaks: at a desk, in a thread that may wait.
#[derive(Drop)]
pub struct At<'a, L: DeskLedger, R: Wait> {
    pub rt: &'a R,
    pub desk: &'a Desk<L>,
}

impl<L: DeskLedger, R: Wait> At<'_, L, R> {
    /// A new tenant's seat, which reserves so much, or why there is none.
    pub fn admit(&self, segments: u32, nodes: u32) -> Result<Seat<L>, Refusal> {
        match Reserve::new(segments, nodes) {
            Some(reserve) => self.desk.admit(self.rt, reserve),
            None => Err(Refusal::NoJob),
        }
    }

    /// A seat asks for a position to this depth, at most 12: the number of its job.
    pub fn ask(&self, seat: &mut Seat<L>, board: &Position, depth: u8) -> Result<u64, Refusal> {
        self.desk.ask(self.rt, seat, board, depth.min(12))
    }

    /// What a seat finds of its job, without waiting.
    pub fn get(&self, seat: &Seat<L>, job: u64) -> Found {
        told(self.desk.get(self.rt, seat, job))
    }

    /// What a seat finds of a job once it has waited for it.
    pub fn wait(&self, seat: &Seat<L>, job: u64) -> Found {
        told(self.desk.wait(self.rt, seat, job))
    }

    /// A seat cancels a job: what it is answered.
    pub fn cancel(&self, seat: &mut Seat<L>, job: u64) -> Result<(), Refusal> {
        self.desk.cancel(self.rt, seat, job)
    }

    /// What a seat's tenant has left, if it is there.
    pub fn quota(&self, seat: &Seat<L>) -> Option<Left> {
        self.desk.quota(self.rt, seat).ok()
    }

    /// How many frames a seat's tenant has, and how many words, if it is there.
    pub fn live(&self, seat: &Seat<L>) -> Option<(usize, usize)> {
        self.desk.live(self.rt, seat).ok()
    }

    /// The tenant of this seat leaves the desk.
    pub fn leave(&self, seat: Seat<L>)
        requires { L.all ≡ L.parts }
    {
        self.desk.leave(self.rt, seat);
    }

    /// A new worker's badge of the desk, if there is one.
    pub fn badge(&self) -> Option<Badge<L>> {
        self.desk.badge(self.rt)
    }

    /// Whether no frame is ready, at a desk that is closed.
    pub fn is_bare(&self) -> bool {
        self.desk.next_ready(self.rt).is_none()
    }

    /// A worker offers the desk the step of this turn for a frame. Returns what it is answered.
    pub fn offer(
        &self,
        badge: &mut Badge<L>,
        worker: Worker,
        frame: FrameId,
        turn: Turn,
    ) -> StepAnswer {
        let step = step_of(worker, frame, turn);
        self.desk.offer(self.rt, badge, &step)
    }
}

/// What a worker does with a frame.
#[derive(Clone, Copy)]
pub enum Turn {
    /// It takes the frame, whose home is this worker, or 0, the hall.
    Steal(u8),
    /// The frame does its next act.
    Advance,
    /// The worker brings the answer that the frame waits for.
    Answer(LeafAnswer),
    /// The job of this root is done.
    Finish,
    /// The job of this frame is given up.
    Spend,
}

/// The step of a worker for this turn with a frame: it steals the frame, advances it, brings its answer, or finishes or
/// spends its job.
fn step_of(worker: Worker, frame: FrameId, turn: Turn) -> Step<Jamboree>
    ensures { is_worker_step result ≡ true }
{
    match turn {
        Turn::Steal(home) => StepOf::Steal(worker, home, frame),
        Turn::Advance => StepOf::Advance(worker, frame),
        Turn::Answer(answer) => StepOf::Answer(worker, frame, answer),
        Turn::Finish => StepOf::Finish(worker, frame),
        Turn::Spend => StepOf::Spend(frame),
    }
}

/// A worker that holds the desk offers the step of this turn for a frame. Returns what it is answered.
pub fn offer_held<L: DeskLedger, R: Wait>(
    rt: &R,
    held: &mut DeskGuard<'_, LockedHall<L>>,
    badge: &mut Badge<L>,
    worker: Worker,
    frame: FrameId,
    turn: Turn,
) -> StepAnswer {
    held.offer(rt, badge, &step_of(worker, frame, turn))
}

/// What a desk ends with.
#[derive(Clone, Copy)]
pub struct Ended {
    /// How many steps its hall has taken.
    pub count: u128,
    /// How many of them it keeps: those before the desk, and those of seats that have left.
    pub kept: u128,
    /// How many of them were let go with journals.
    pub gone: u128,
    /// Whether all shares are there.
    pub is_whole: bool,
    /// How many segments are free.
    pub free: usize,
}

/// The desk's hall and its numbers, after the desk was taken apart with this badge.
pub fn end<L: DeskLedger>(desk: Desk<L>, badge: Badge<L>) -> Ended
    requires { L.all ≡ L.parts }
{
    let (hall, whole) = desk.into_hall(badge);
    Ended {
        count: hall.count(),
        kept: hall.kept(),
        gone: hall.gone(),
        is_whole: whole.is_some(),
        free: hall.core().free_segments(),
    }
}
