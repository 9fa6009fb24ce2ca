//! The player of texts: the worker of its desk.
//!
//! It runs the jobs of all tenants in the thread of the sessions, by the rules of a pool's worker (`pool_rules`), and only
//! where it is told to. Its tasks are the roots of the jobs that were asked for, and the frames that its own steps made
//! ready; it takes the newest first. It never waits: which serial a root has follows from what the desk told of the
//! tenant's frames so far. A task whose frame is gone is refused, and dropped.
ghost use Rattle.std.specs.Prelude.{◌≡◌, true, IfSome};
ghost use Rattle.hall.specs.Journals.{is_worker_step};

use desk::{Badge, Desk, DeskLedger, Jamboree, LeafAnswer, Step, StepAnswer, Worker};
use frame_table::FrameId;
use jamboree_rules::pool_rules::{Action, Holding, Task};
use std::alloc::{Allocator, Global};
use std::sync::Wait;

/// The one worker of a desk.
pub struct DeskWorker<'a, L: DeskLedger, R: Wait, A: Allocator> {
    rt: &'a R,
    desk: &'a Desk<L, A>,
    badge: Badge<L>,
    worker: Worker,
    holding: Holding,
    tasks: Vec<Task>,
    /// The last serial of each tenant, by its number less 1.
    serials: Vec<u64>,
    /// Whether the desk is closed.
    pub is_closed: bool,
}

impl<L: DeskLedger, R: Wait, A: Allocator> Drop for DeskWorker<'_, L, R, A> {
    /// Drops the worker with its badge and its tasks.
    fn drop(self) {
        let DeskWorker {
            rt: _rt,
            desk: _desk,
            badge: _badge,
            worker: _worker,
            holding: _holding,
            tasks: _tasks,
            serials: _serials,
            is_closed: _is_closed,
        } = self;
    }
}

impl<'a, L: DeskLedger, R: Wait, A: Allocator + Clone> DeskWorker<'a, L, R, A> {
    /// The worker of this number, with a badge of a desk at which no tenant was yet. None where the desk gives no badge.
    pub fn new(
        alloc: Global,
        rt: &'a R,
        desk: &'a Desk<L, A>,
        worker: Worker,
    ) -> Option<DeskWorker<'a, L, R, A>> {
        let badge = desk.badge(rt)?;
        Some(DeskWorker {
            rt,
            desk,
            badge,
            worker,
            holding: Holding::Nothing,
            tasks: Vec::new(alloc),
            serials: Vec::new(alloc),
            is_closed: false,
        })
    }

    /// The next tenant was admitted. Returns its number.
    pub fn admitted(&mut self) -> u64 {
        let _ = self.serials.push(0);
        self.serials.len() as u64
    }

    /// A tenant has asked for a job: its root is a task.
    pub fn asked(&mut self, tenant: u64) {
        let serial = self.last_serial(tenant).saturating_add(1);
        let frame = FrameId { tenant, serial };
        self.opened(frame);
        let _ = self.tasks.push(Task { frame, home: 0 });
    }

    /// Closes the desk, and notes that it is closed.
    pub fn close(&mut self) {
        self.desk.close(self.rt);
        self.is_closed = true;
    }

    /// The last serial that the worker has seen of a tenant.
    fn last_serial(&self, tenant: u64) -> u64 {
        let at = tenant.saturating_sub(1) as usize;
        self.serials.get(at).copied().unwrap_or(0)
    }

    /// Notes the serial of a frame that was opened, where it is its tenant's greatest.
    fn opened(&mut self, frame: FrameId) {
        let at = frame.tenant.saturating_sub(1) as usize;
        if let Some(serial) = self.serials.get_mut(at) {
            *serial = frame.serial.max(*serial);
        }
    }

    /// Offers at most so many steps; fewer where nothing is left to do.
    pub fn work(&mut self, steps: u64) {
        for _ in 0..steps {
            if !self.turn() {
                return;
            }
        }
    }

    /// Offers one step, after a computation where there is one. False where nothing is left to do.
    fn turn(&mut self) -> bool {
        match self.holding {
            Holding::Nothing => match self.tasks.pop() {
                Some(task) => self.offer(Holding::Next(Action::Get(task))),
                None => false,
            },
            Holding::Computing(frame, leaf) => {
                let answer = LeafAnswer::compute(leaf);
                self.offer(Holding::Next(Action::Bring(frame, answer)))
            }
            held => self.offer(held),
        }
    }

    /// Offers the step of what the worker holds. False where it has none.
    fn offer(&mut self, held: Holding) -> bool {
        let Some(step) = own_step(self.worker, &held) else {
            return false;
        };
        let answer = self.take(&step);
        let turn = held.turned(self.worker, answer);
        self.holding = turn.holding;
        if let Some(task) = turn.task {
            self.opened(task.frame);
            let _ = self.tasks.push(task);
        }
        true
    }

    /// Offers the worker's step to the desk.
    fn take(&mut self, step: &Step<Jamboree>) -> StepAnswer
        requires { is_worker_step step.now ≡ true }
    {
        self.desk.offer(self.rt, &mut self.badge, step)
    }
}

/// The step that a worker offers with what it holds; None where it has none.
#[tactic(auto, using(crate::proofs::Steps::worker_offered))]
fn own_step(worker: Worker, held: &Holding) -> Option<Step<Jamboree>>
    ensures { IfSome result (λ step. is_worker_step step ≡ true) }
{
    held.step(worker)
}
