//! What a pool's worker does while it has the hall locked.
ghost use Rattle.std.specs.Prelude.{◌≡◌, ◌+◌, ◌≤◌, true, Some};
ghost use Rattle.desk.specs.hall.Journals.{is_worker_step};
ghost use Rattle.jamboree_rules.specs.pool_rules.Turns.{offered};
ghost use Rattle.steal_pool.specs.task_deques.Deals.{posts, worker_seats};
ghost use Rattle.steal_pool.specs.Works.{IsTurn, BeginsHere, GoesOnHere};

use crate::gate::Gate;
use crate::tasks::Tasks;
use desk::jamboree::Jamboree;
use desk::{DeskGuard, UnderLock, WorkerBadge};
use jamboree_rules::pool_rules::{Action, Holding, Task};
use sched_rules::{Step, Worker};
use std::sync::Wait;

/// The most steps that a worker takes under one lock.
const HELD_STEPS: u32 = 32;

/// What a worker comes to the lock with.
pub struct Round {
    /// Its number.
    pub worker: Worker,
    /// What it holds.
    pub holding: Holding,
}

/// What one tenant was served under this lock, for which nobody was charged yet. A charge writes to accounts that all workers write to, so
/// that tasks of one tenant that follow each other are charged together.
#[derive(Drop)]
struct Owed {
    tenant: u64,
    amount: u64,
}

impl Owed {
    /// Nobody owes anything yet for what the worker does under this lock.
    fn nothing() -> Owed {
        Owed {
            tenant: 0,
            amount: 0,
        }
    }

    /// Notes that a tenant owes so much more for a worker's work. Where another tenant owed something, that one is
    /// charged first.
    fn add<T: UnderLock>(&mut self, held: &mut DeskGuard<'_, T>, tenant: u64, amount: u64) {
        if self.tenant != tenant {
            self.settle(held);
            self.tenant = tenant;
        }
        self.amount = self.amount.saturating_add(amount);
    }

    /// Charges the tenant for what it owes.
    fn settle<T: UnderLock>(&mut self, held: &mut DeskGuard<'_, T>) {
        if self.amount > 0 {
            held.charge(self.tenant, self.amount);
            self.amount = 0;
        }
    }
}

/// Takes up to 32 steps of a worker that holds the desk, which follow each other under one lock, pushes the tasks of the frames that they
/// make ready, releases the desk, and returns what the worker holds then. It stops earlier where there is a leaf to compute, or the worker is without a frame and doesn't go
/// on here: a gate that isn't brief has it let go of the lock first, and else it goes on with a pick where one is due, or with the newest
/// task of its own deque. A tenant is charged 1 for each task that is begun, and what its leaf cost, before there is a pick and before the
/// lock is let go.
pub fn steps<T: UnderLock, G: Gate, R: Wait>(
    rt: &R,
    held: DeskGuard<'_, T>,
    badge: &mut T::Badge,
    tasks: &mut Tasks<'_>,
    gate: &G,
    round: Round,
) -> Holding
    ensures ends { posts tasks.new.ends ≡ posts tasks.old.ends }
    ensures few { T.Badge.share badge.new ≤ T.Badge.share badge.old + 32 }
{
    let Round { worker, holding } = round;
    let mut held = held;
    let mut holding = holding;
    let mut owed = Owed::nothing();
    for _ in 0..HELD_STEPS {
        let Some(step) = holding.step(worker) else {
            break;
        };
        note(&mut held, tasks, &mut owed, &holding);
        holding = turned(rt, &mut held, worker, badge, tasks, holding, &step);
        holding = gone_on(&mut held, worker, tasks, gate, &mut owed, holding);
    }
    owed.settle(&mut held);
    held.release();
    holding
}

/// Notes what the tenant owes for what the worker is about to do with its frame: 1 where it begins a task, and where it brings an answer
/// what the leaf cost.
fn note<T: UnderLock>(
    held: &mut DeskGuard<'_, T>,
    tasks: &mut Tasks<'_>,
    owed: &mut Owed,
    holding: &Holding,
)
    ensures { tasks.new.ends ≡ tasks.old.ends }
{
    match holding {
        Holding::Next(Action::Get(task)) => owed.add(held, task.frame.tenant, 1),
        Holding::Next(Action::Bring(frame, _)) => {
            owed.add(held, frame.tenant, tasks.cost);
            tasks.cost = 0;
        }
        _ => {}
    }
}

/// Offers the step of what the worker holds, pushes the task of a frame that became ready by it, if one did, and returns what the
/// worker holds then.
#[tactic(auto, using(crate::proofs::StepLemmas::offers_a_worker_step))]
fn turned<T: UnderLock, R: Wait>(
    rt: &R,
    held: &mut DeskGuard<'_, T>,
    worker: Worker,
    badge: &mut T::Badge,
    tasks: &mut Tasks<'_>,
    holding: Holding,
    step: &Step<Jamboree>,
) -> Holding
    requires { Some step.now ≡ offered worker holding }
    ensures turn { IsTurn worker (record { holds = holding; share = T.Badge.share badge.old; seats = worker_seats tasks.old.ends }) (record { holds = result; share = T.Badge.share badge.new; seats = worker_seats tasks.new.ends }) }
    ensures ends { posts tasks.new.ends ≡ posts tasks.old.ends }
    ensures one { T.Badge.share badge.new ≤ T.Badge.share badge.old + 1 }
{
    let answer = held.offer(rt, badge, step);
    let turn = holding.turned(worker, answer);
    if let Some(task) = turn.task {
        tasks.push(task);
    }
    turn.holding
}

/// What a pool's worker holds next, while it still has the hall locked. One without a frame begins its next task at
/// once, if the gate's call before a task is short (`is_brief`): a pick where one is due, else the newest task of its
/// own deque. So the lock isn't let go and taken again between two frames. Any other worker holds what it held.
fn gone_on<T: UnderLock, G: Gate>(
    held: &mut DeskGuard<'_, T>,
    worker: Worker,
    tasks: &mut Tasks<'_>,
    gate: &G,
    owed: &mut Owed,
    holding: Holding,
) -> Holding
    ensures next { GoesOnHere (T.is_fair held.new) tasks.old.rhythm.order holding result (record { seats = worker_seats tasks.old.ends; since = tasks.old.rhythm.since }) (record { seats = worker_seats tasks.new.ends; since = tasks.new.rhythm.since }) }
    ensures ends { posts tasks.new.ends ≡ posts tasks.old.ends }
{
    match holding {
        Holding::Nothing if gate.is_brief() => match next_here(held, tasks, owed) {
            Some(task) => {
                gate.before(worker, &task);
                Holding::Next(Action::Get(task))
            }
            None => Holding::Nothing,
        },
        other => other,
    }
}

/// The task that a worker without a frame that has the hall locked does next: a pick where one is due, else the newest task of its own
/// deque, if there is one.
fn next_here<T: UnderLock>(
    held: &mut DeskGuard<'_, T>,
    tasks: &mut Tasks<'_>,
    owed: &mut Owed,
) -> Option<Task>
    ensures next { BeginsHere (T.is_fair held.new) tasks.old.rhythm.order result (record { seats = worker_seats tasks.old.ends; since = tasks.old.rhythm.since }) (record { seats = worker_seats tasks.new.ends; since = tasks.new.rhythm.since }) }
    ensures ends { posts tasks.new.ends ≡ posts tasks.old.ends }
{
    if tasks.rhythm.is_due() {
        owed.settle(held);
        if let Some(task) = held.pick() {
            tasks.rhythm.picked();
            return Some(task);
        }
    }
    tasks.begin_own()
}
