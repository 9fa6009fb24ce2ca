//! Tests of what a site's tenants owe for what a worker does under one lock: each is charged for it before anything is
//! picked.
use super::bells::{OPENING, stock_for_all};
use super::holds;
use super::sites::seat_of;
use super::trials::{Trial, try_out};
use hall::{LeafAnswer, Worker};
use jamboree_rules::pool_rules::{Action, Holding, Task};
use site_book::Who;
use site_desk::{SiteDesk, SiteNaming, SiteSeat};
use std::process::Abort;
use std::sync::Wait;
use steal_pool::task_deques::deal;
use steal_pool::{OpenGate, Round, SharedComputations, Workplace};

/// The seat of a guest of this number that has asked for two jobs of one frame.
fn asked_twice<J: SiteNaming, R: Wait + Abort>(
    rt: &R,
    desk: &SiteDesk<J>,
    number: u32,
) -> SiteSeat<J> {
    let mut seat = seat_of(rt, desk, Who::V4(number), 1_000).expect(rt, "there is room");
    for job in 1..3u64 {
        holds(rt, desk.ask(rt, &mut seat, &OPENING, 0) == Ok(job));
    }
    seat
}

/// What is picked next, which is a frame of this tenant.
fn picked<J: SiteNaming, R: Wait + Abort>(rt: &R, desk: &SiteDesk<J>, tenant: u64) -> Task {
    let task = desk.pick(rt).expect(rt, "a frame is ready");
    holds(rt, task.frame.tenant == tenant);
    task
}

/// Of two guests as they came the first is picked, and when its first job was begun, the second. Then the first job's answer, which cost 5,
/// is brought and the second guest's job begun under one lock: the second is the one that was served less.
pub(super) fn both_are_served<J: SiteNaming, R: Wait + Abort + AllocGlobal>(
    rt: &R,
    desk: &SiteDesk<J>,
) {
    let worker = Worker::new(1).expect(rt, "a worker");
    let mut ends = deal(rt.alloc(), worker, 8).expect(rt, "there is memory");
    let shared = SharedComputations::new();
    let mut tasks = shared.tasks(ends.pop().expect(rt, "the worker's ends"));
    let badge = &mut desk.badge();
    let gate = &OpenGate;
    let _first = asked_twice(rt, desk, 1);
    let _second = asked_twice(rt, desk, 2);
    let begun = Holding::Next(Action::Get(picked(rt, desk, 1)));
    let Holding::Computing(frame, leaf) = desk.work(
        rt,
        badge,
        &mut tasks,
        gate,
        Round {
            worker,
            holding: begun,
        },
    ) else {
        return holds(rt, false);
    };
    let task = picked(rt, desk, 2);
    holds(rt, tasks.ends.push(task).is_ok());
    tasks.cost = 5;
    let brings = Holding::Next(Action::Bring(frame, LeafAnswer::compute(leaf)));
    let Holding::Computing(next, _) = desk.work(
        rt,
        badge,
        &mut tasks,
        gate,
        Round {
            worker,
            holding: brings,
        },
    ) else {
        return holds(rt, false);
    };
    holds(rt, next.tenant == 2 && tasks.cost == 0);
    let _task = picked(rt, desk, 2);
}

/// A guest's answer cost 5: it is charged under the same lock, so the guest that was served less is picked next.
#[test]
fn who_was_served_owes_it(rt: HostRuntime) {
    try_out(&rt, stock_for_all(&rt, rt.alloc()), Trial::BothAreServed);
}
