//! What a session asks of: its office, the tenant's side of the desk.
ghost use Rattle.std.specs.Prelude.{◌≡◌, Bool, true};
ghost use Rattle.othello_board.specs.Words.{cells};
ghost use Rattle.session.specs.Calls.{Call, Hello, Reserve as to_reserve, Ask, Get, Wait, Cancel, AskQuota, AskLive, Leave, OfficeReply, Welcome, Reserved, Job, Told, Ended, Rest, Alive, Gone, reply_of};

use crate::standings::{Live, Standing};
use protocol::Question;
use sched_rules::Refusal;
use tenant_quota::{Left, Reserve};

/// The calls that a session makes for its one tenant. Each implementation says by `does` what its calls may do. The
/// refusals that are named here are those of an office at a desk (`DeskOffice`); at a refusal nothing changes. Only
/// `wait` waits for a job.
pub trait Office {
    /// What a call may do: the state before it, the call, the reply, and the state after it.
    ghost does: { Self → Call → OfficeReply → Self → Type 0 };

    /// Whether `leave` may be called, a fact about the office's type alone: an office at a desk says here that its
    /// ledger's `all` is the ledger's `parts`. True unless an office says otherwise.
    ghost ready: { Bool } = { true };

    /// Admits a tenant that reserves these segments and nodes; the further calls are made for it. `OldTenant` where a
    /// tenant is there already, or all 2^62 numbers of tenants were given; `Full` where 64 tenants are there, or the
    /// desk's totals don't allow the reservation; `OutOfMemory`.
    fn hello(&mut self, reserve: Reserve) -> Result<(), Refusal>
        ensures { does self.old (Hello reserve) (reply_of (λ _. Welcome reserve) result) self.new };

    /// Raises what the tenant reserves to this, which is at least what it reserves now, and more of segments or nodes.
    /// Its jobs go on as before. `NoTenant` where no tenant is there; `Lower` where it is no raise; `Full` where the
    /// desk's totals don't allow it; `OutOfMemory`.
    fn reserve(&mut self, reserve: Reserve) -> Result<(), Refusal>
        ensures { does self.old (to_reserve reserve) (reply_of (λ _. Reserved reserve) result) self.new };

    /// Asks for the value of a position to a depth, and returns the number of the new job, from 1 on, without waiting
    /// for it. `NoTenant` where no tenant is there; `NoJobsLeft` where it has had 256 jobs; `NoNodes` and `NoSegments`
    /// where too little of its reservation is left to begin.
    fn ask(&mut self, question: &Question) -> Result<u64, Refusal>
        ensures { does self.old (Ask question.now.depth (cells question.now.position.board) question.now.position.side) (reply_of Job result) self.new };

    /// How a job stands now, `Pending` where it hasn't ended: for the lines GET and TABLE. `NoJob` where no tenant is
    /// there, or it has asked for no job of this number.
    fn get(&mut self, job: u64) -> Result<Standing, Refusal>
        ensures { does self.old (Get job) (reply_of (Told job) result) self.new };

    /// Waits until a job has ended or the desk is closed, and tells how it stands then: `Pending` where the desk was
    /// closed first. `NoJob`, at once, where no tenant is there, or it has asked for no job of this number.
    fn wait(&mut self, job: u64) -> Result<Standing, Refusal>
        ensures { does self.old (Wait job) (reply_of (Told job) result) self.new };

    /// Cancels a job that hasn't ended: its frames are removed, and it stands as `Cancelled` from then on. `NoJob`
    /// where no tenant is there, or it has no job of this number that hasn't ended.
    fn cancel(&mut self, job: u64) -> Result<(), Refusal>
        ensures { does self.old (Cancel job) (reply_of (λ _. Ended job) result) self.new };

    /// The segments, nodes and steps that the tenant has left of its reservation now. `NoTenant` where no tenant is
    /// there.
    fn quota(&mut self) -> Result<Left, Refusal>
        ensures { does self.old AskQuota (reply_of Rest result) self.new };

    /// How many frames the tenant has now, and how many words these have together. `NoTenant` where no tenant is there.
    fn live(&mut self) -> Result<Live, Refusal>
        ensures { does self.old AskLive (reply_of Alive result) self.new };

    /// The tenant leaves: its jobs, ended or not, its frames and its reservation are gone, and the office is without a
    /// tenant. Nothing happens where no tenant is there. It is never refused.
    fn leave(&mut self)
        requires { ready ≡ true }
        ensures { does self.old Leave Gone self.new };
}
