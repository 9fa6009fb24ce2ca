//! The act that a frame's plan stands for, and the act of an inlet that an inlet's plan stands for. What the search
//! procedure returns is made here, at its end.
ghost use Rattle.std.specs.Prelude.{◌≡◌, ◌≤◌, ◌++◌, ◌∷◌, [], length};
ghost use Rattle.jamboree_rules.specs.Places.{OwnBits, OppBits, Status as ToStatus, pairs_of};
ghost use Rattle.jamboree.specs.Numbers.{status_number};
ghost use Rattle.jamboree.specs.InletPlans.{inlet_for, rest_said, settled, stores_for};
ghost use Rattle.jamboree.specs.Plans.{act_for, spawn_of};

use crate::codes::NONE;
use crate::entry::PackedBound;
use crate::inlet_plan::{ChildBound, InletPlan, SettledChoice, Verdict};
use crate::phases::{Phase, Status};
use crate::plan::{FramePlan, NewChild};
use crate::view::{FrameChange, set, spawn};
use jamboree_rules::leaf_search::INF;
use jamboree_rules::sched_rules::{Act, Continuation, InletAct, Stores};
use othello_board::Board;

impl NewChild {
    /// The order to open this child. Adds the store of its choice's new entry, with this status and this rest, at the
    /// end of the stores.
    #[inline(always)]
    fn open(&self, stores: &mut Stores, status: Status, rest: PackedBound) -> Continuation
        requires { length stores.old ≤ 7 }
        ensures stores { stores.new ≡ stores.old ++ pairs_of (ToStatus self.now.number (status_number status) rest.word ∷ []) }
        ensures after { result ≡ spawn_of self.now }
    {
        set(stores, FrameChange::Status(self.number, status, rest));
        spawn(self)
    }
}

impl FramePlan {
    /// The act that carries out the plan: what the frame stores, and what it does after that.
    #[inline(always)]
    pub(crate) fn act(self) -> Act
        ensures { result ≡ act_for self }
    {
        match self {
            FramePlan::Returns => return without_stores(Continuation::Return),
            FramePlan::Waits => return without_stores(Continuation::Wait),
            FramePlan::Computes => return without_stores(Continuation::Compute),
            FramePlan::Ends => {
                let mut stores = Stores::new();
                set(&mut stores, FrameChange::Phase(Phase::Done));
                return Act {
                    stores,
                    after: Continuation::Return,
                };
            }
            FramePlan::Computed(board) => {
                let mut stores = Stores::new();
                set_board(&mut stores, board);
                set(&mut stores, FrameChange::Phase(Phase::Computing));
                return Act {
                    stores,
                    after: Continuation::Compute,
                };
            }
            FramePlan::Counts(board, count) => {
                let mut stores = Stores::new();
                set_board(&mut stores, board);
                set(&mut stores, FrameChange::Phase(Phase::First));
                set(&mut stores, FrameChange::Best(-INF));
                set(&mut stores, FrameChange::Chosen(NONE));
                set(&mut stores, FrameChange::Count(count));
                set(&mut stores, FrameChange::Spawned(0));
                return Act {
                    stores,
                    after: Continuation::Grow(count),
                };
            }
            FramePlan::Starts(child, rest) => {
                let mut stores = Stores::new();
                set(&mut stores, FrameChange::Spawned(child.number + 1));
                let after = child.open(&mut stores, Status::Runs, rest);
                return Act { stores, after };
            }
            FramePlan::Again(child, rest) => {
                let mut stores = Stores::new();
                let after = child.open(&mut stores, Status::RunsAgain, rest);
                return Act { stores, after };
            }
        }
    }
}

/// Adds the two stores of a frame's board at the end of the stores.
#[inline(always)]
fn set_board(stores: &mut Stores, board: Board)
    requires { length stores.old ≤ 6 }
    ensures { stores.new ≡ stores.old ++ pairs_of (OwnBits board.own ∷ OppBits board.opp ∷ []) }
{
    set(stores, FrameChange::OwnBits(board.own));
    set(stores, FrameChange::OppBits(board.opp));
}

/// Adds, at the end of the stores, those for a choice that is settled: the frame's best score, its best choice where
/// this one's code is given, and the choice's entry.
#[inline(always)]
fn settle(stores: &mut Stores, told: SettledChoice, code: Option<u64>)
    requires { length stores.old ≤ 5 }
    ensures { stores.new ≡ stores.old ++ settled told code }
{
    set(stores, FrameChange::Best(told.best));
    if let Some(code) = code {
        set(stores, FrameChange::Chosen(code));
    }
    let rest = told.said.rest();
    set(
        stores,
        FrameChange::Status(told.said.number, Status::Settled, rest),
    );
}

/// The act of a frame that stores nothing and does this.
#[inline(always)]
fn without_stores(after: Continuation) -> Act
    ensures { result ≡ record { stores = []; after = after } }
{
    Act {
        stores: Stores::new(),
        after,
    }
}

impl ChildBound {
    /// What is now known of the choice, as the rest of its entry (all but the status).
    #[inline(always)]
    fn rest(&self) -> PackedBound
        ensures { result.word ≡ rest_said self.now }
    {
        PackedBound::saying(self.known)
    }
}

impl Verdict {
    /// What an inlet stores in the words of its frame for this verdict on a child's score: that the choice is settled,
    /// and perhaps that the frame goes on to its tests or is done; or that the test has failed; or nothing.
    #[inline(always)]
    fn stores(self) -> Stores
        ensures { result ≡ stores_for self }
    {
        let mut stores = Stores::new();
        match self {
            Verdict::Nothing => {}
            Verdict::Failed(said) => {
                set(
                    &mut stores,
                    FrameChange::Status(said.number, Status::Failed, said.rest()),
                );
            }
            Verdict::Low(told) => settle(&mut stores, told, None),
            Verdict::Kept(told) => {
                settle(&mut stores, told, None);
                set(&mut stores, FrameChange::Phase(Phase::Tests));
            }
            Verdict::Raised(told, code) => {
                settle(&mut stores, told, Some(code));
                set(&mut stores, FrameChange::Phase(Phase::Tests));
            }
            Verdict::Ended(told, code) => {
                settle(&mut stores, told, Some(code));
                set(&mut stores, FrameChange::Phase(Phase::Done));
            }
        }
        stores
    }
}

impl InletPlan {
    /// The act of the frame's inlet: the verdict's stores, whether all else below the frame is aborted, and that the
    /// frame is woken.
    #[inline(always)]
    pub(crate) fn inlet(self) -> InletAct
        ensures { result ≡ inlet_for self }
    {
        InletAct {
            stores: self.verdict.stores(),
            abort: self.abort,
            wake: true,
        }
    }
}
