//! Why a step of the core is refused.
ghost use Rattle.std.specs.Prelude.{◌≡◌};
ghost use Rattle.sched_rules.specs.Refusals.{refusal_number};

use std::fmt;
use thiserror::Error;

/// Why a step is refused: the first reason, in the order of its tests (`specs/Lone.antt`, `specs/Cores.antt`). A
/// refused step changes nothing.
#[derive(Clone, Copy, Debug, PartialEq, Eq, Error)]
pub enum Refusal {
    /// 1: the tenant isn't there.
    NoTenant = 1,
    /// 2: the frame isn't there.
    NoFrame,
    /// 3: the frame isn't ready.
    NotReady,
    /// 4: the frame's home isn't the worker (Take), or isn't the one that the step names (Steal). Also where a Steal
    /// names the worker itself.
    NotHere,
    /// 5: the worker runs or computes some frame already. Take, Steal, Inlet and Finish need a free worker.
    Busy,
    /// 6: the worker doesn't run the frame.
    NotRunning,
    /// 7: the worker doesn't compute the frame.
    NotComputing,
    /// 8: the answer was computed from another input than the frame's.
    Mismatch,
    /// 9: the frame hasn't returned; or it is a root, for an Inlet, or a child, for a Finish.
    NotReturned,
    /// 10: the tenant has fewer segments (of 16 words) left than the new frame or the growth takes.
    NoSegments,
    /// 11: the tenant has no node left for a new frame: each frame that it ever opened took one.
    NoNodes,
    /// 12: the tenant has used all its steps: 16 for each node that it has reserved.
    NoSteps,
    /// 13: the tenant has had all its 256 jobs.
    NoJobsLeft,
    /// 14: all reservations together would be more segments or nodes than the core has; or, for Admit, 64 tenants are
    /// there.
    Full,
    /// 15: what the procedure wants can't be done: a store beyond a frame's words, a growth by 0 or beyond 128
    /// words, a child of an invalid size, or Compute with a child. For Submit: the root's size isn't 1 to 128, or is
    /// below its words.
    BadAct,
    /// 16: the frame's job may not be given up: the tenant has a step left, and neither an Advance nor an Inlet of the
    /// frame would be refused by BadAct, NoNodes or NoSegments.
    NotSpent,
    /// 17: the tenant has had no job of this number, or that job has ended.
    NoJob,
    /// 18: the tenant's number is 0, over 2^62, or not above every number so far.
    OldTenant,
    /// 19: memory was refused. Only Admit and AdmitMore are refused so.
    OutOfMemory,
    /// 20: AdmitMore is to fewer segments or nodes than the tenant has reserved, or to no more of either.
    Lower,
}

impl Refusal {
    /// The number of the refusal, 1 to 20.
    pub fn number(&self) -> u8
        ensures { result ≡ refusal_number self.now }
    {
        *self as u8
    }

    /// The refusal in words, for `Display`.
    fn text(&self) -> &'static str {
        match self {
            Refusal::NoTenant => "no such tenant",
            Refusal::NoFrame => "no such frame",
            Refusal::NotReady => "the frame is not ready",
            Refusal::NotHere => "the frame is not there to be had",
            Refusal::Busy => "the worker is busy",
            Refusal::NotRunning => "the worker does not run the frame",
            Refusal::NotComputing => "the worker does not compute the frame",
            Refusal::Mismatch => "the answer is to another input",
            Refusal::NotReturned => "the frame has not returned",
            Refusal::NoSegments => "too few segments are left",
            Refusal::NoNodes => "no node is left",
            Refusal::NoSteps => "no step is left",
            Refusal::NoJobsLeft => "no job is left",
            Refusal::Full => "there is no room for the reservation",
            Refusal::BadAct => "the act cannot be done",
            Refusal::NotSpent => "the job is not spent",
            Refusal::NoJob => "no such job",
            Refusal::OldTenant => "the tenant's number was taken before",
            Refusal::OutOfMemory => "out of memory",
            Refusal::Lower => "no more is reserved than before",
        }
    }
}

// Written by hand: what the derive macro writes for 20 messages takes far longer to prove.
impl fmt::Display for Refusal {
    /// The refusal in words.
    fn fmt<W: fmt::Write>(&self, f: &mut fmt::Formatter<W>) -> fmt::Result {
        f.write_str(self.text())
    }
}
