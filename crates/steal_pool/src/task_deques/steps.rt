//! The steps of a pool's deque under its rule, each with what it changes in the tally (what it pushed and took) of the
//! seat that steps.
ghost use Rattle.std.specs.Prelude.{◌≡◌, ℕ, List, ◌+◌, ◌-◌, ◌<◌, [], ◌∷◌, ◌++◌, MatchResult, MatchOption, IfOk, IfNone, length};
ghost use Rattle.jamboree_rules.specs.declared.pool_rules.task.Task.{Task};
ghost use Rattle.crossbeam_deque.specs.Handles.{view, IsPassOf, worker_deque, stealer_deque, worker_flavor, worker_view};
ghost use Rattle.steal_pool.specs.task_deques.Tallies.{tally, weigh, IsEmptied};

use crate::task_deques::rule::{DequeSeat, OwnerEnd, Part, Popped, Pushed, Taken, ThiefEnd, Whole};
use crossbeam_deque::Steal;
use jamboree_rules::pool_rules::Task;
use std::alloc::{AllocError, Allocator};

/// The owner's end of a new, empty deque, with room for so many tasks before it takes memory again. `Err` only where
/// memory is refused.
pub(crate) fn made<A: Allocator + Clone>(alloc: A, room: usize) -> Result<OwnerEnd<A>, AllocError>
    ensures newest_first { IfOk result (λ w. worker_flavor w ≡ 1) }
    ensures tally { IfOk result (λ w. worker_view w ≡ tally 64 [] []) }
{
    OwnerEnd::<A>::lifo_as(alloc, room)
}

/// Pushes a task. `Err` hands it back where the deque can't grow.
pub(crate) fn push<A: Allocator>(owner: &mut OwnerEnd<A>, task: Task) -> Result<(), Task>
    requires { 0 < (worker_view owner.old).parts }
    ensures same { (worker_deque owner.new ≡ worker_deque owner.old) × (worker_flavor owner.new ≡ worker_flavor owner.old) }
    ensures rule { MatchResult result
        (λ _. worker_view owner.new ≡ tally (worker_view owner.old).parts ((worker_view owner.old).pushed ++ task ∷ []) (worker_view owner.old).taken)
        (λ back. (back ≡ task) × (worker_view owner.new ≡ worker_view owner.old)) }
{
    owner.push_as::<Pushed>(task)
}

/// Takes the newest task. `None` where none was found: for an owner with all 64 parts, all that was pushed was taken.
#[tactic(auto, using(crate::proofs::TaskDeques::RuleLemmas::finds))]
pub(crate) fn pop<A: Allocator>(owner: &mut OwnerEnd<A>) -> Option<Task>
    requires { 0 < (worker_view owner.old).parts }
    ensures same { (worker_deque owner.new ≡ worker_deque owner.old) × (worker_flavor owner.new ≡ worker_flavor owner.old) }
    ensures rule { MatchOption result
        (worker_view owner.new ≡ worker_view owner.old)
        (λ task. worker_view owner.new ≡ tally (worker_view owner.old).parts (worker_view owner.old).pushed ((worker_view owner.old).taken ++ task ∷ [])) }
    ensures emptied { IfNone result ((worker_view owner.old).parts ≡ 64 → IsEmptied (worker_view owner.old)) }
{
    owner.pop_as::<Popped>()
}

/// Takes the oldest task of another's deque. `None` where it was empty or another thread was quicker; the thief learns
/// nothing of the deque by it.
pub(crate) fn steal<A: Allocator>(thief: &ThiefEnd<A>, seat: &mut DequeSeat<A>) -> Option<Task>
    requires deque { IsPassOf (stealer_deque thief.now) seat.old }
    requires part { 0 < (view seat.old).parts }
    ensures same { IsPassOf (stealer_deque thief.now) seat.new }
    ensures rule { MatchOption result
        (view seat.new ≡ view seat.old)
        (λ task. view seat.new ≡ tally (view seat.old).parts (view seat.old).pushed ((view seat.old).taken ++ task ∷ [])) }
{
    match thief.steal_as::<Taken>(seat) {
        Steal::Success(task) => Some(task),
        Steal::Empty | Steal::Retry => None,
    }
}

/// A new seat for a thief, which gets one of the owner's parts.
pub(crate) fn seat<A: Allocator>(owner: &mut OwnerEnd<A>) -> DequeSeat<A>
    requires { 1 < (worker_view owner.old).parts }
    ensures same { (worker_deque owner.new ≡ worker_deque owner.old) × (worker_flavor owner.new ≡ worker_flavor owner.old) }
    ensures deque { IsPassOf (worker_deque owner.old) result }
    ensures owner { worker_view owner.new ≡ tally ((worker_view owner.old).parts - 1) (worker_view owner.old).pushed (worker_view owner.old).taken }
    ensures thief { view result ≡ tally 1 [] [] }
{
    owner.another::<Part>()
}

/// Joins a thief's seat to the owner's, which then has its parts and its tasks too.
pub(crate) fn join<A: Allocator>(owner: &mut OwnerEnd<A>, seat: DequeSeat<A>)
    requires deque { IsPassOf (worker_deque owner.old) seat }
    requires part { 0 < (worker_view owner.old).parts }
    ensures same { (worker_deque owner.new ≡ worker_deque owner.old) × (worker_flavor owner.new ≡ worker_flavor owner.old) }
    ensures both { worker_view owner.new ≡ tally ((worker_view owner.old).parts + (view seat).parts)
        ((worker_view owner.old).pushed ++ (view seat).pushed) ((worker_view owner.old).taken ++ (view seat).taken) }
{
    owner.absorb::<Part>(seat);
}

/// How many tasks wait at one moment of the call. For an owner with all 64 parts they are those pushed and not taken.
#[tactic(auto, using(crate::proofs::TaskDeques::RuleLemmas::learns))]
pub(crate) fn waiting<A: Allocator>(owner: &mut OwnerEnd<A>) -> usize
    ensures same { (worker_deque owner.new ≡ worker_deque owner.old) × (worker_flavor owner.new ≡ worker_flavor owner.old) }
    ensures tally { worker_view owner.new ≡ worker_view owner.old }
    ensures counts { (worker_view owner.old).parts ≡ 64 → length (worker_view owner.old).pushed ≡ length (worker_view owner.old).taken + result }
{
    owner.len_as::<Whole>()
}

/// How many tasks are left, for an owner with all 64 parts: what was pushed is what was taken and these, each task as
/// often.
#[tactic(auto, using(crate::proofs::TaskDeques::RuleLemmas::learns))]
pub(crate) fn left<A: Allocator>(owner: &mut OwnerEnd<A>) -> usize
    requires { (worker_view owner.old).parts ≡ 64 }
    ensures same { (worker_deque owner.new ≡ worker_deque owner.old) × (worker_flavor owner.new ≡ worker_flavor owner.old) }
    ensures tally { worker_view owner.new ≡ worker_view owner.old }
    ensures counts { length (worker_view owner.old).pushed ≡ length (worker_view owner.old).taken + result }
    ensures each { (tasks : List Task) × (length tasks ≡ result)
        × ((h : Task → ℕ) → weigh h (worker_view owner.old).pushed ≡ weigh h (worker_view owner.old).taken + weigh h tasks) }
{
    owner.len_as::<Whole>()
}
