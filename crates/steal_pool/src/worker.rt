//! One worker of a pool.
//!
//! A worker without a frame looks for a task: a pick where one is due, else the newest of its own deque, else the oldest of another's,
//! which it tries in the order of their numbers after its own, else any frame that is ready in the
//! hall, for which it waits at the workplace. It then does its turns (`jamboree_rules::pool_rules::Holding`) until it is
//! without a frame again. It sleeps only at the workplace, and it ends once it finds no task and the workplace is
//! closed: what is left then in the deques of others is theirs. It holds no lock while it computes.
ghost use Rattle.std.specs.Prelude.{◌≡◌};
ghost use Rattle.steal_pool.specs.task_deques.Deals.{posts};
ghost use Rattle.steal_pool.specs.Works.{BringsAnswerTo};

use crate::gate::Gate;
use crate::held::Round;
use crate::tasks::Tasks;
use crate::workplace::Workplace;
use desk::jamboree::{Leaf, LeafAnswer};
use frame_table::FrameId;
use jamboree_rules::pool_rules::{Action, Holding, Task};
use sched_rules::Worker;
use std::sync::Wait;

/// Does tasks until the workplace is closed and none is found; before that it waits where it finds none. Returns the badge,
/// whose share has grown by 1 for each step that the hall took, as every step goes through [`desk::DeskGuard::offer`],
/// and the tasks, whose ends are at the same deques as before.
pub fn run_worker<'s, P: Workplace, G: Gate, R: Wait>(
    rt: &R,
    place: &P,
    worker: Worker,
    badge: P::Badge,
    tasks: Tasks<'s>,
    gate: &G,
) -> (P::Badge, Tasks<'s>)
    ensures { posts result.1.ends ≡ posts tasks.entry.ends }
{
    let mut badge = badge;
    let mut tasks = tasks;
    for _ in rt.forever() {
        let Some(task) = next_task(rt, place, worker, &mut tasks) else {
            break;
        };
        gate.before(worker, &task);
        work_off(rt, place, worker, &mut badge, &mut tasks, gate, task);
    }
    (badge, tasks)
}

/// The task that a worker without a frame does next: a pick where one is due, else one of the deques, else the workplace's next, for
/// which it waits. None once the workplace is closed and the deques gave none.
fn next_task<P: Workplace, R: Wait>(
    rt: &R,
    place: &P,
    worker: Worker,
    tasks: &mut Tasks<'_>,
) -> Option<Task>
    ensures { posts tasks.new.ends ≡ posts tasks.old.ends }
{
    if tasks.rhythm.is_due() {
        if let Some(task) = place.pick(rt) {
            tasks.rhythm.picked();
            return Some(task);
        }
    }
    if let Some(task) = tasks.begin_any(worker) {
        return Some(task);
    }
    let task = place.next_task(rt)?;
    tasks.rhythm.picked();
    Some(task)
}

/// Gets the frame of a task from the hall and does its steps and computations, until the worker is without a frame.
/// That is at once where the frame can't be had any more.
fn work_off<P: Workplace, G: Gate, R: Wait>(
    rt: &R,
    place: &P,
    worker: Worker,
    badge: &mut P::Badge,
    tasks: &mut Tasks<'_>,
    gate: &G,
    task: Task,
)
    ensures { posts tasks.new.ends ≡ posts tasks.old.ends }
{
    let mut holding = Holding::Next(Action::Get(task));
    for _ in rt.forever() {
        holding = match holding {
            Holding::Nothing => break,
            Holding::Computing(frame, leaf) => {
                tasks.cost = cost_of(leaf);
                let number = if gate.is_numbered() {
                    tasks.begin(rt)
                } else {
                    0
                };
                computed(worker, number, gate, frame, leaf)
            }
            holding => place.work(rt, badge, tasks, gate, Round { worker, holding }),
        };
    }
}

/// What a leaf is counted as: 4 to the power of its depth, as an answer doesn't tell how many positions its search entered.
fn cost_of(leaf: Leaf) -> u64 {
    1 << (2 * leaf.depth)
}

/// Computes a leaf, and returns what the worker holds then: the answer, to be brought to the hall. `number` is the
/// computation's, for the gate. This function is handed neither a means to wait nor anything that has a lock, so it
/// can't take one.
fn computed<G: Gate>(worker: Worker, number: u64, gate: &G, frame: FrameId, leaf: Leaf) -> Holding
    ensures { BringsAnswerTo frame leaf result }
{
    gate.inside(worker, number);
    let answer = LeafAnswer::compute(leaf);
    gate.after(worker, number);
    Holding::Next(Action::Bring(frame, answer))
}
