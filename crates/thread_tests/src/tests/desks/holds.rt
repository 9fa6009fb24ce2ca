//! Tests of others' calls while a worker holds the desk: each waits until the desk is let go, and tells what is there
//! then.
use super::crowd;
use super::waiting::{What, Who};
use crate::tests::calls::At;
use desk::{DeskLedger, Seat};
use std::sync::Wait;

/// What is called.
#[derive(Clone, Copy)]
pub(super) enum Call {
    Admit,
    Badge,
    Close,
    Count,
    Get,
    Live,
    Quota,
}

/// The name of a call, for the text of a failed test.
pub(super) fn name(call: Call) -> &'static str {
    match call {
        Call::Admit => "admit should be back, content:",
        Call::Badge => "badge should be back, content:",
        Call::Close => "close should be back, content:",
        Call::Count => "count should be back, content:",
        Call::Get => "get should be back, content:",
        Call::Live => "live should be back, content:",
        Call::Quota => "quota should be back, content:",
    }
}

impl<L: DeskLedger, R: Wait> At<'_, L, R> {
    /// Whether a new tenant that reserves one node finds room at the desk.
    fn finds_room(&self) -> bool {
        self.admit(1, 1).is_ok()
    }

    /// Whether the desk gives a badge.
    fn has_badge(&self) -> bool {
        self.badge().is_some()
    }

    /// Whether no frame is ready at a desk that was closed.
    fn is_closed(&self) -> bool {
        self.desk.close(self.rt);
        self.is_bare()
    }

    /// Whether a call tells this seat the same twice.
    pub(super) fn is_told_twice(&self, seat: &Seat<L>, call: Call) -> bool {
        match call {
            Call::Admit => self.finds_room() == self.finds_room(),
            Call::Badge => self.has_badge() == self.has_badge(),
            Call::Close => self.is_closed() == self.is_closed(),
            Call::Count => self.desk.count(self.rt) == self.desk.count(self.rt),
            Call::Get => self.get(seat, 1) == self.get(seat, 1),
            Call::Live => self.live(seat) == self.live(seat),
            Call::Quota => self.quota(seat) == self.quota(seat),
        }
    }
}

/// All of them.
const CALLS: [Call; 7] = [
    Call::Admit,
    Call::Badge,
    Call::Close,
    Call::Count,
    Call::Get,
    Call::Live,
    Call::Quota,
];

/// For each call of a desk: one thread that calls while a worker holds the desk waits until it is let go, and is told
/// what is there then.
#[test]
fn calls_wait_for_who_holds_the_desk(rt: HostRuntime) {
    for call in CALLS {
        crowd(&rt, rt.alloc(), Who::Caller(call), 1, What::Release);
    }
}
