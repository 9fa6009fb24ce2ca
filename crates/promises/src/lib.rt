//! The promises of the project, each said once, by the contracts of public calls: read this file if you doubt one.
//!
//! Each function calls the public calls below it, and its contract says what they do in terms of tenants, steps, numbers
//! and bytes. `specs/` has the few words that no crate below has. No program calls this crate: it is there to be read and
//! to be proved. If a clause below said less, a proof here would fail.
//!
//! - **Isolation**: [`run_two`], for any procedure. [`same_journals`]: the same for a hall, which is under the server's lock.
//! - **Answers** and **refusals**: [`run_any`], for any procedure.
//! - **Values**: [`run`], for searches: isolation, refusals and minimax values of one run. [`value_in`], [`entry_in`]: what a hall tells of a completed job.
//! - **Sessions**: [`serve`], from its bytes to its bytes. **`solve`**: [`solve`].
//! - **Customers**: `site_book::no_customer_is_disturbed`.
//!
//! ```text
//! // two lists of any steps on new cores with any totals: a tenant whose own taken steps are the same in
//! // both is in the same state after both, and got the same answers
//! let (one, other) = run_two(alloc, procedure, config, &steps, other_config, &other_steps)?;
//! ```
#![tactic(auto)]

ghost use Rattle.std.specs.Prelude.{◌≡◌, ◌≤◌, ℕ, IfOk, IfSome, length};
ghost use Rattle.sched_rules.specs.Cores.{shared_by_nobody, tenant_in};
ghost use Rattle.sched_rules.specs.Headline.{IsHeadline, own_answers};
ghost use Rattle.line_io.specs.Leads.{between};
ghost use Rattle.jamboree_core.specs.jamboree_rules.Procedure.{jamboree};
ghost use Rattle.jamboree_core.specs.Replies.{AreSearches};
ghost use Rattle.jamboree_core.specs.NewRuns.{IsHeadlineFromNew};
ghost use Rattle.hall.specs.Journals.{journal_in};
ghost use Rattle.desk_office.specs.Answers.{SeenSession};
ghost use Rattle.solve_engine.specs.Solving.{SolvedRun};
ghost use Rattle.promises.specs.Tenants.{own_steps, AreAdmissionsTaken, AreRefusedForThese};
ghost use Rattle.promises.specs.Replies.{IsValueOfSubmit, IsEntryOfSubmit};

use desk::{Desk, DeskLedger, Trace};
use desk_office::serve_desk_seen;
use hall::{Hall, Outcome};
use jamboree_core::jamboree::Jamboree;
use jamboree_core::run_from_new;
use jamboree_core::sched_core::Core;
use line_io::{LineFault, Sink, Source};
use othello_eval::{Bound, Valued};
use sched_rules::{Config, Did, Procedure, Refusal, Step};
use session::{End, SessionFault};
use std::alloc::{AllocError, Allocator};
use std::sync::Wait;

/// A core after a list of steps, and the answers to the steps.
#[derive(Drop)]
pub struct After<P: Procedure, A: Allocator> {
    /// The core.
    pub core: Core<P, A>,
    /// One answer for each step.
    pub answers: Vec<Result<Did<P>, Refusal>, A>,
}

/// Offers a list of steps, by any workers for any tenants, to a new core with these totals.
fn ran<P, A>(
    alloc: A,
    procedure: P,
    config: Config,
    steps: &[Step<P>],
) -> Result<After<P, A>, AllocError>
where
    P: Procedure + Drop,
    A: Allocator + Clone,
    ensures { IfOk result (λ run. IsHeadline (P.functions procedure) (shared_by_nobody config) steps.now run.answers.items run.core.shared) }
{
    let mut answers = Vec::new(alloc.clone()?);
    let mut core = Core::new(alloc, config, procedure)?;
    core.run(steps, &mut answers)?;
    Ok(After { core, answers })
}

/// Offers a list of steps, by any workers for any tenants, to a new core with these totals that runs this procedure. The
/// answers are those that the definitions give for these steps on a new core, the core is in the state to which these
/// steps lead, and each tenant is what its own taken steps make of it (`headline`). There is one answer for each step
/// (`answered`). A step that is no Admit or AdmitMore is refused only because of its own tenant's state, or with Busy
/// because the worker that it needs is busy with another tenant (`refused`). Nothing is promised of an `AllocError`.
pub fn run_any<P, A>(
    alloc: A,
    procedure: P,
    config: Config,
    steps: &[Step<P>],
) -> Result<After<P, A>, AllocError>
where
    P: Procedure + Drop,
    A: Allocator + Clone,
    ensures headline { IfOk result (λ run. IsHeadline (P.functions procedure) (shared_by_nobody config) steps.now run.answers.items run.core.shared) }
    ensures answered { IfOk result (λ run. length run.answers.items ≡ length steps.now) }
    ensures refused { IfOk result (λ run. AreRefusedForThese (P.functions procedure) steps.now run.answers.items) }
{
    ran(alloc, procedure, config, steps)
}

/// Offers two lists of steps, by any workers for any tenants, to two new cores with any totals that run the same
/// procedure, as `Jamboree`. If a tenant's own taken steps are the same in both runs, the tenant is in the same state
/// after both and got the same answers to these steps: no other tenant disturbs it (`undisturbed`). This also holds if
/// the second list has only the tenant's own taken steps of the first list, without the steps of all other tenants.
/// The admissions of the second list must be taken, so there must be room and memory for them; then each step of the
/// second list is taken and gets the same answer as in the first run (`alone`). Both are runs of their lists on new
/// cores (`headline`). Nothing is promised of an `AllocError`.
pub fn run_two<P, A>(
    alloc: A,
    procedure: P,
    config: Config,
    steps: &[Step<P>],
    other_config: Config,
    other_steps: &[Step<P>],
) -> Result<(After<P, A>, After<P, A>), AllocError>
where
    P: Procedure + Copy,
    A: Allocator + Clone,
    ensures headline { IfOk result (λ runs. IsHeadline (P.functions procedure) (shared_by_nobody config) steps.now runs.0.answers.items runs.0.core.shared
        × IsHeadline (P.functions procedure) (shared_by_nobody other_config) other_steps.now runs.1.answers.items runs.1.core.shared) }
    ensures undisturbed { IfOk result (λ runs. (number : ℕ) →
        own_steps number steps.now runs.0.answers.items ≡ own_steps number other_steps.now runs.1.answers.items →
        (tenant_in runs.0.core.shared.tenants number ≡ tenant_in runs.1.core.shared.tenants number)
        × (own_answers number steps.now runs.0.answers.items ≡ own_answers number other_steps.now runs.1.answers.items)) }
    ensures alone { IfOk result (λ runs. (number : ℕ) →
        other_steps.now ≡ own_steps number steps.now runs.0.answers.items → AreAdmissionsTaken other_steps.now runs.1.answers.items →
        (tenant_in runs.0.core.shared.tenants number ≡ tenant_in runs.1.core.shared.tenants number)
        × (own_answers number steps.now runs.0.answers.items ≡ runs.1.answers.items)) }
{
    let one = ran(alloc.clone()?, procedure, config, steps)?;
    let other = ran(alloc, procedure, other_config, other_steps)?;
    Ok((one, other))
}

/// Offers a list of steps, each Submit of which asks for a search, to a new core with these totals.
fn searched<A: Allocator + Clone>(
    alloc: A,
    procedure: Jamboree,
    config: Config,
    steps: &[Step<Jamboree>],
) -> Result<After<Jamboree, A>, AllocError>
    requires { AreSearches steps.now }
    ensures { IfOk result (λ run. IsHeadlineFromNew procedure.grain config steps.now run.answers.items run.core.shared) }
{
    let mut answers = Vec::new(alloc.clone()?);
    let core = run_from_new(alloc, config, procedure, steps, &mut answers)?;
    Ok(After { core, answers })
}

/// Offers a list of steps, by any workers for any tenants, to a new core with these totals. Each Submit of the list
/// asks for a search. Each tenant is what its own taken steps make of it, as if no other tenant were there, and the core
/// is in the state to which all steps lead. Each completed job of any tenant holds the reply to the words of the Submit
/// of its number: the minimax value, the best choice and a true table of the board and the depth there. Each frame is
/// sound, whatever the order of spawns, steals, inlets and aborts (`headline`). There is one answer for each step
/// (`answered`). A step that is no Admit or AdmitMore is refused only because of its own tenant's state, or with Busy
/// because the worker that it needs is busy with another tenant (`refused`). Nothing is promised of an `AllocError`.
pub fn run<A: Allocator + Clone>(
    alloc: A,
    procedure: Jamboree,
    config: Config,
    steps: &[Step<Jamboree>],
) -> Result<After<Jamboree, A>, AllocError>
    requires { AreSearches steps.now }
    ensures headline { IfOk result (λ run. IsHeadlineFromNew procedure.grain config steps.now run.answers.items run.core.shared) }
    ensures answered { IfOk result (λ run. length run.answers.items ≡ length steps.now) }
    ensures refused { IfOk result (λ run. AreRefusedForThese (jamboree procedure.grain) steps.now run.answers.items) }
{
    searched(alloc, procedure, config, steps)
}

/// Takes two halls whose searches have the same grain. A tenant that has the same journal (the list of its own taken
/// steps) in both halls is in the same state in both, whatever else was offered to either hall. The call changes
/// nothing: it only makes this known.
pub fn same_journals<A: Allocator, B: Allocator>(one: &Hall<A>, other: &Hall<B>)
    ensures { one.now.grain ≡ other.now.grain → (number : ℕ) → journal_in one.now.journals number ≡ journal_in other.now.journals number →
        tenant_in one.now.shared.tenants number ≡ tenant_in other.now.shared.tenants number }
{
    let _one = one.count();
    let _other = other.count();
}

/// The value and the choice that a hall returns for a completed job; None for any other job. They are the minimax
/// value and the best choice of the board and depth that the tenant's journal has for the Submit of this number.
pub fn value_in<A: Allocator>(hall: &Hall<A>, tenant: u64, job: u64) -> Option<Valued>
    ensures { IfSome result (λ told. IsValueOfSubmit (journal_in hall.now.journals tenant) job told.value told.choice) }
{
    let _count = hall.count();
    match hall.outcome(tenant, job) {
        Some(Outcome::Done(reply)) => Some(Valued {
            value: reply.value(),
            choice: reply.choice(),
        }),
        _ => None,
    }
}

/// The entry of this number, from 0, in the table that a hall returns for a completed job. The entry is true of its
/// choice, for the board and depth that the Submit of the job's number asked for. None if the job isn't completed, or
/// its table has no such entry.
pub fn entry_in<A: Allocator>(hall: &Hall<A>, tenant: u64, job: u64, number: usize) -> Option<Bound>
    ensures { IfSome result (λ entry. IsEntryOfSubmit (journal_in hall.now.journals tenant) job number entry) }
{
    let _count = hall.count();
    match hall.outcome(tenant, job) {
        Some(Outcome::Done(reply)) => {
            let _entries = reply.bound_count();
            reply.bound(number)
        }
        _ => None,
    }
}

/// Serves one session of one tenant at a desk, and gives back what the tenant's seat knew of the desk's history when it
/// left; `None` where no tenant came. What was written is the answers to the lines that were read, in order. A line
/// `JOB` has the next number, and `DONE k` and `TABLE k` the minimax value, the best choice and the table of what the
/// k-th `ASK` line that got a `JOB` asked for (`dones`). Each answer to the tenant is a function of its request and of
/// what the tenant's own part of the desk's history had made of it at a moment (`reply_to`); only a raise of the
/// reservation may also be refused for want of room or memory. The moments come one after another, and the tenant's steps
/// that workers didn't make are just those that its lines asked for and that were taken, each at its moment (`tenant`).
pub fn serve<S: Source, K: Sink, L: DeskLedger, R: Wait, A: Allocator + Clone>(
    rt: &R,
    source: &mut S,
    sink: &mut K,
    desk: &Desk<L, A>,
) -> (Result<End, SessionFault>, Option<Trace<Step<Jamboree>, L>>)
    requires { L.all ≡ L.parts }
    ensures { SeenSession L.begun (between S.gives source.old source.new) (between K.takes sink.old sink.new) result.0 result.1 }
{
    serve_desk_seen(rt, source, sink, desk)
}

/// Answers each line of an input with one line: a line `depth position` with the text of the minimax value and of the
/// best choice, to that depth, of that position (or with `ERR 19`, where memory ran out), and any other with the number
/// of its first fault.
pub fn solve<A, S, K>(alloc: A, source: &mut S, sink: &mut K, grain: u8) -> Result<(), LineFault>
where
    A: Allocator + Copy,
    S: Source,
    K: Sink,
    requires { grain ≤ 6 }
    ensures { SolvedRun (between S.gives source.old source.new) (between K.takes sink.old sink.new) result }
{
    solve_engine::solve(alloc, source, sink, grain)
}
