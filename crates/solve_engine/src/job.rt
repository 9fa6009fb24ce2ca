//! The one job of the core of a line of `solve`: how it is asked, and what it came to.
ghost use Rattle.std.specs.Prelude.{◌≡◌, ◌≤◌, [], ◌∷◌, ℕ, IfOk};
ghost use Rattle.tenant_quota.specs.Reserves.{ReserveOf, IsWithinLimits};
ghost use Rattle.othello_board.specs.Words.{cells};
ghost use Rattle.othello_eval.specs.Minimax.{minimax, best_choice};
ghost use Rattle.sched_rules.specs.Cores.{shared_by_nobody};
ghost use Rattle.jamboree_core.specs.jamboree_rules.Places.{root_words};
ghost use Rattle.solve_engine.specs.Asked.{HasAsked, HasReserved, IsNewCore, WorksOn};
ghost use Rattle.solve_engine.specs.Found.{IsFoundIn};

use crate::found::{Searched, Way};
use jamboree_core::jamboree::Jamboree;
use jamboree_core::leaf_search::search_full;
use jamboree_core::sched_core::Core;
use jamboree_core::{Outcome, outcome_of, step_search, submit};
use othello_board::position_text::Position;
use othello_eval::Valued;
use othello_moves::DEEPEST;
use sched_rules::StepOf;
use std::alloc::{AllocError, Allocator};
use tenant_quota::{Left, Reserve};

/// The core's only tenant.
pub(crate) const TENANT: u64 = 1;

/// The number of its only job.
const JOB: u64 = 1;

/// Admits the tenant, which reserves all that the core has. It fails only where memory for that was refused.
pub(crate) fn admit<A: Allocator + Clone>(
    core: &mut Core<Jamboree, A>,
    reserve: Reserve,
) -> Result<(), AllocError>
    requires { core.old.shared ≡ shared_by_nobody reserve }
    ensures { IfOk result (λ done. IsNewCore core.old.procedure.grain reserve core.new) }
{
    match step_search(core, &StepOf::Admit(TENANT, reserve)) {
        Ok(_) => Ok(()),
        // It is refused only for want of memory: the core has no other tenant, and as much as is reserved.
        Err(_) => Err(AllocError),
    }
}

/// Submits the core's one job, the search of the position to a depth in plies. Right after `admit` the step can't
/// be refused (`submits-on`), so its answer is dropped.
pub(crate) fn ask<A: Allocator + Clone>(
    core: &mut Core<Jamboree, A>,
    position: &Position,
    depth: u8,
)
    requires { depth ≤ DEEPEST }
    ensures { (grain : ℕ) (quota : ReserveOf) → IsWithinLimits quota → IsNewCore grain quota core.old
        → WorksOn (record { grain = grain; quota = quota; asked = root_words position.now.board.own position.now.board.opp depth ∷ [] }) core.new }
{
    let _ = step_search(core, &submit(TENANT, position, depth));
}

/// What the search found: the job's reply, if it is done, and else what one serial search finds.
pub(crate) fn answer_in<A: Allocator>(
    core: &Core<Jamboree, A>,
    position: &Position,
    depth: u8,
) -> Searched
    requires shallow { depth ≤ DEEPEST }
    requires there { (quota : ReserveOf) × HasReserved quota core.now.shared }
    requires asked { HasAsked (root_words position.now.board.own position.now.board.opp depth ∷ []) core.now.shared }
    ensures value { result.answer.value ≡ minimax depth (cells position.now.board) }
    ensures choice { result.answer.choice ≡ best_choice depth (cells position.now.board) }
    ensures found { IsFoundIn core.now.shared result }
{
    let left = core.left(TENANT).unwrap();
    match outcome_of(core, TENANT, JOB).unwrap() {
        Outcome::Done(reply) => Searched {
            answer: Valued {
                value: reply.value(),
                choice: reply.choice(),
            },
            way: Way::Done,
            left,
        },
        Outcome::Spent => search_serially(position, depth, Way::Spent, left),
        Outcome::Pending => search_serially(position, depth, Way::Stopped, left),
        Outcome::Cancelled => search_serially(position, depth, Way::Stopped, left),
    }
}

/// What one serial search finds. How it was found and what is left are as given.
fn search_serially(position: &Position, depth: u8, way: Way, left: Left) -> Searched
    requires { depth ≤ DEEPEST }
    ensures value { result.answer.value ≡ minimax depth (cells position.now.board) }
    ensures choice { result.answer.choice ≡ best_choice depth (cells position.now.board) }
    ensures way { result.way ≡ way }
    ensures left { result.left ≡ left }
{
    let found = search_full(position.board, depth);
    Searched {
        answer: Valued {
            value: found.score,
            choice: found.choice,
        },
        way,
        left,
    }
}
