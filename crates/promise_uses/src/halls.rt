//! Uses of the promises on a hall: what it tells of tenants 7 and 9 and of their jobs 3 and 5.
ghost use Rattle.std.specs.Prelude.{◌≡◌, ◌≢◌, ◌+◌, [], ℕ, ◌≤◌, ◌≤ℤ◌, false, Some, None, Err, IfSome, OnOk, OnErr, slice_get};
ghost use Rattle.othello_board.specs.Words.{cells_of};
ghost use Rattle.othello_eval.specs.declared.bound.BoundKind.TheVariants.{Low, High, Exact};
ghost use Rattle.othello_eval.specs.Minimax.{minimax, best_choice, choice_value};
ghost use Rattle.othello_eval.specs.Tables.{entered};
ghost use Rattle.sched_rules.specs.declared.refusal.Refusal.TheVariants.{BadAct, OutOfMemory};
ghost use Rattle.sched_rules.specs.declared.step.StepOf.TheVariants.{Cancel};
ghost use Rattle.sched_rules.specs.Headline.{after_answer, is_admission, IsAnswerTo};
ghost use Rattle.sched_rules.specs.Trees.{Tenant};
ghost use Rattle.sched_rules.specs.Cores.{newest_after, tenant_in};
ghost use Rattle.sched_laws.specs.Fitted.{origins_of, submits};
ghost use Rattle.jamboree_rules.specs.Places.{root_words};
ghost use Rattle.jamboree_core.specs.Replies.{IsSearch};
ghost use Rattle.jamboree_core.specs.Searching.{origin_at};
ghost use Rattle.jamboree_rules.specs.Procedure.{jamboree};
ghost use Rattle.hall.specs.Journals.{journal_in};
ghost use Rattle.hall.specs.Halls.{IsExplained, KeepsEndedJobs, count_of, hall_after};

use hall::{Hall, Jamboree, Step, StepAnswer};
use othello_eval::{Bound, Valued};
use promises::{entry_in, same_journals, value_in};
use sched_rules::StepOf;
use std::alloc::Allocator;

/// Tenants 7 and 9 of two halls of the same grain, where the journals of each are the same in both: whoever is there
/// in the one is there in the other, in the same state; and who isn't there in the one isn't in the other.
/// Uses `promises::same_journals`.
pub fn seven_and_nine<A: Allocator, B: Allocator>(one: &Hall<A>, other: &Hall<B>)
    ensures seven { one.now.grain ≡ other.now.grain → journal_in one.now.journals 7 ≡ journal_in other.now.journals 7 →
        (tenant : Tenant) → tenant_in one.now.shared.tenants 7 ≡ Some tenant →
        tenant_in other.now.shared.tenants 7 ≡ Some tenant }
    ensures nine { one.now.grain ≡ other.now.grain → journal_in one.now.journals 9 ≡ journal_in other.now.journals 9 →
        (tenant : Tenant) → tenant_in other.now.shared.tenants 9 ≡ Some tenant →
        tenant_in one.now.shared.tenants 9 ≡ Some tenant }
    ensures nobody { one.now.grain ≡ other.now.grain → journal_in one.now.journals 9 ≡ journal_in other.now.journals 9 →
        tenant_in one.now.shared.tenants 9 ≡ None → tenant_in other.now.shared.tenants 9 ≡ None }
{
    same_journals(one, other)
}

/// The value and the choice of tenant 7's job 3, where a hall tells them: of some board (by its two words) and a
/// depth of at most 12, which the third Submit in the tenant's journal asked for.
/// Uses `promises::value_in`.
pub fn value_of_seven<A: Allocator>(hall: &Hall<A>) -> Option<Valued>
    ensures { IfSome result (λ told. (own : ℕ) × (opp : ℕ) × (depth : ℕ) × (depth ≤ 12)
        × (origin_at (origins_of (journal_in hall.now.journals 7)) 3 ≡ Some (root_words own opp depth))
        × (told.value ≡ minimax depth (cells_of own opp)) × (told.choice ≡ best_choice depth (cells_of own opp))) }
{
    value_in(hall, 7, 3)
}

/// The value and the choice of tenant 9's job 5, where a hall tells them: of some board and a depth of at most 12,
/// which the fifth Submit in the tenant's journal asked for. Uses `promises::value_in`.
pub fn value_of_nine<A: Allocator>(hall: &Hall<A>) -> Option<Valued>
    ensures { IfSome result (λ told. (own : ℕ) × (opp : ℕ) × (depth : ℕ) × (depth ≤ 12)
        × (origin_at (origins_of (journal_in hall.now.journals 9)) 5 ≡ Some (root_words own opp depth))
        × (told.value ≡ minimax depth (cells_of own opp)) × (told.choice ≡ best_choice depth (cells_of own opp))) }
{
    value_in(hall, 9, 5)
}

/// The third entry of the table of tenant 9's job 5: that of the third choice, and true of it.
/// Uses `promises::entry_in`.
pub fn entry_of_nine<A: Allocator>(hall: &Hall<A>) -> Option<Bound>
    ensures { IfSome result (λ entry. (own : ℕ) × (opp : ℕ) × (depth : ℕ) × (depth ≤ 12)
        × (origin_at (origins_of (journal_in hall.now.journals 9)) 5 ≡ Some (root_words own opp depth))
        × (slice_get (entered depth (cells_of own opp)) 2 ≡ Some entry.choice)
        × (entry.kind ≡ Low → choice_value depth (cells_of own opp) entry.choice ≤ℤ entry.score)
        × (entry.kind ≡ High → entry.score ≤ℤ choice_value depth (cells_of own opp) entry.choice)
        × (entry.kind ≡ Exact → choice_value depth (cells_of own opp) entry.choice ≡ entry.score)
        × (best_choice depth (cells_of own opp) ≡ Some entry.choice → entry.kind ≡ Exact)) }
{
    entry_in(hall, 9, 5, 2)
}

/// Tenant 7 cancels its job 3 in a hall. The answer is the one that the core as it was asks for, and the core is then
/// as that answer says. Where the Cancel is taken, just this step is noted and counted; where it is refused, nothing
/// changes. Jobs that have ended stay as they were. Uses `hall::Hall::offer` (`one`, `taken`, `refused`, `count`,
/// `explained`, `ended`).
pub fn seven_cancels<A: Allocator + Clone>(hall: &mut Hall<A>) -> StepAnswer
    ensures answered { IsAnswerTo (jamboree hall.old.grain) hall.old.shared (Cancel 7 3) result }
    ensures left { hall.new.shared ≡ after_answer (jamboree hall.old.grain) hall.old.shared (Cancel 7 3) result }
    ensures noted { OnOk result (hall.new ≡ hall_after hall.old (Cancel 7 3) hall.new.shared) }
    ensures unchanged { OnErr result (hall.new ≡ hall.old) }
    ensures counted { OnOk result (count_of hall.new ≡ count_of hall.old + 1) }
    ensures explained { IsExplained hall.new }
    ensures kept { KeepsEndedJobs hall.old.shared (Cancel 7 3) hall.new.shared }
{
    let step = StepOf::Cancel(7, 3);
    hall.offer(&step)
}

/// A step of any kind: where it is taken, the greatest number that a tenant got goes on as the step says. One that admits nobody and raises
/// nothing isn't refused for memory, and one that asks for nothing isn't refused as a bad act.
/// Uses `hall::Hall::offer` (`memory`, `bad_act`, `newest`).
pub fn any_step<A: Allocator + Clone>(hall: &mut Hall<A>, step: &Step<Jamboree>) -> StepAnswer
    requires { IsSearch step.now }
    ensures newest { OnOk result (hall.new.shared.newest ≡ newest_after hall.old.shared.newest step.now) }
    ensures no_memory { is_admission step.now ≡ false → result ≢ Err OutOfMemory }
    ensures no_act { submits step.now ≡ [] → result ≢ Err BadAct }
{
    hall.offer(step)
}
