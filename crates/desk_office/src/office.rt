//! The office of one session's tenant at a desk: what the session asks of.
ghost use Rattle.std.specs.Prelude.{◌==◌};
ghost use Rattle.desk_office.specs.Moments.{IsTurnAt};

use crate::outcomes::{told_answer, told_live};
use desk::{Desk, DeskLedger, Jamboree, Refusal, Seat, Step, Trace};
use session::{Live, Office, Question, Standing};
use std::alloc::{Allocator, Global};
use std::sync::Wait;
use tenant_quota::{Left, Reserve};

/// The office of one tenant at a desk. It has the tenant's seat from a HELLO that was taken until the tenant leaves;
/// without a seat all calls but `hello` and `leave` are refused.
pub struct DeskOffice<'a, L: DeskLedger, R: Wait, A: Allocator = Global> {
    rt: &'a R,
    desk: &'a Desk<L, A>,
    /// The tenant's seat; `None` where no tenant is there.
    seat: Option<Seat<L>>,
    /// What the seat knew of the desk's history when its tenant left. It takes no bytes.
    knew: Option<Trace<Step<Jamboree>, L>>,
}

impl<'a, L: DeskLedger, R: Wait, A: Allocator> DeskOffice<'a, L, R, A> {
    ghost use Rattle.std.specs.Prelude.{◌≡◌, None};

    /// An office at this desk whose session has no tenant yet.
    pub fn new(rt: &'a R, desk: &'a Desk<L, A>) -> DeskOffice<'a, L, R, A>
        ensures { (result.seat ≡ None) × (result.knew ≡ None) }
    {
        DeskOffice {
            rt,
            desk,
            seat: None,
            knew: None,
        }
    }

    /// Ends the office, and gives back what its seat knew when the tenant left. Where a tenant is still there its seat is
    /// dropped, and the tenant doesn't leave.
    pub fn close(self) -> Option<Trace<Step<Jamboree>, L>>
        ensures { result ≡ self.entry.knew }
    {
        let DeskOffice {
            rt: _rt,
            desk: _desk,
            seat: _seat,
            knew,
        } = self;
        knew
    }
}

impl<L: DeskLedger, R: Wait, A: Allocator + Clone> Office for DeskOffice<'_, L, R, A> {
    ghost does = { λ from call reply to. IsTurnAt L.begun (record { seat = from.seat; knew = from.knew }) call reply (record { seat = to.seat; knew = to.knew }) };

    ghost ready = { L.all == L.parts };

    /// Takes a seat at the desk for a new tenant. `OldTenant` where a tenant is there already; else the refusals are
    /// those of the desk's `admit`: `Full`, `OutOfMemory`, and `OldTenant` after 2^62 tenants.
    fn hello(&mut self, reserve: Reserve) -> Result<(), Refusal> {
        if self.seat.is_some() {
            return Err(Refusal::OldTenant);
        }
        self.seat = Some(self.desk.admit(self.rt, reserve)?);
        Ok(())
    }

    /// Raises the reservation. `NoTenant` where no tenant is there; else the refusals are those of the desk's
    /// `reserve`: `Lower`, `Full`, `OutOfMemory`, `NoTenant`.
    fn reserve(&mut self, reserve: Reserve) -> Result<(), Refusal> {
        match &mut self.seat {
            Some(seat) => self.desk.reserve(self.rt, seat, reserve),
            None => Err(Refusal::NoTenant),
        }
    }

    /// Submits the question's search and returns the job's number, without waiting for it. `NoTenant` where no tenant
    /// is there; else the refusals are those of the desk's `ask`: `NoJobsLeft`, `NoNodes`, `NoSegments`, `NoTenant`.
    fn ask(&mut self, question: &Question) -> Result<u64, Refusal> {
        match &mut self.seat {
            Some(seat) => self
                .desk
                .ask(self.rt, seat, &question.position, question.depth),
            None => Err(Refusal::NoTenant),
        }
    }

    /// How the job stands now, without waiting for it. `NoJob` where no tenant is there, or the number is 0 or above
    /// that of the tenant's last job; there is no other refusal.
    fn get(&mut self, job: u64) -> Result<Standing, Refusal> {
        match &mut self.seat {
            Some(seat) => told_answer(self.desk.get_seen(self.rt, seat, job)),
            None => Err(Refusal::NoJob),
        }
    }

    /// How the job stands once it has ended or the desk is closed (`Pending` where it was closed first). `NoJob`, at
    /// once, where no tenant is there, or the number is 0 or above that of the tenant's last job; there is no other
    /// refusal.
    fn wait(&mut self, job: u64) -> Result<Standing, Refusal> {
        match &mut self.seat {
            Some(seat) => told_answer(self.desk.wait_seen(self.rt, seat, job)),
            None => Err(Refusal::NoJob),
        }
    }

    /// Cancels the job and removes its frames. `NoJob` where no tenant is there, or the tenant has no job of this
    /// number that hasn't ended; else the desk can only refuse with `NoTenant`.
    fn cancel(&mut self, job: u64) -> Result<(), Refusal> {
        match &mut self.seat {
            Some(seat) => self.desk.cancel(self.rt, seat, job),
            None => Err(Refusal::NoJob),
        }
    }

    /// What the tenant has left of its reservation now. `NoTenant` where no tenant is there; there is no other refusal.
    fn quota(&mut self) -> Result<Left, Refusal> {
        match &mut self.seat {
            Some(seat) => self.desk.quota_seen(self.rt, seat),
            None => Err(Refusal::NoTenant),
        }
    }

    /// How many frames and words the tenant has now. `NoTenant` where no tenant is there; there is no other refusal.
    fn live(&mut self) -> Result<Live, Refusal> {
        let Some(seat) = &mut self.seat else {
            return Err(Refusal::NoTenant);
        };
        Ok(told_live(self.desk.live_seen(self.rt, seat)?))
    }

    /// The tenant leaves the desk, with its jobs, frames and reservation, and the office has no seat then. Nothing
    /// happens where no tenant is there.
    fn leave(&mut self) {
        if let Some(seat) = self.seat.take() {
            self.knew = Some(self.desk.leave_seen(self.rt, seat));
        }
    }
}
