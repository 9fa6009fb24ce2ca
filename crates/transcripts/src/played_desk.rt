//! The player of texts: the sessions at its desk, and their office.
//!
//! A session that others interrupt is served in parts: each part is a call of `serve_lines`. A part of a session whose tenant
//! is there begins with a HELLO of the player's own, which the office takes without a call of the desk, and at its end the
//! tenant stays where more lines of the session follow.
ghost use Rattle.std.specs.Prelude.{◌≡◌, ◌==◌, true};

use crate::desk_worker::DeskWorker;
use crate::pieces::Pieces;
use desk::{Desk, DeskLedger, Refusal};
use desk_office::DeskOffice;
use line_io::FromWriter;
use session::{End, Live, Office, Question, Standing, serve_lines};
use std::alloc::{Allocator, Global};
use std::sync::Wait;
use tenant_quota::{Left, Reserve};

/// More steps than the jobs of all tenants can be offered: 16 for each of the 4,194,304 nodes, and as many again that are
/// refused.
const ALL_STEPS: u64 = 2 * 16 * 4_194_304;

/// The line by which a session whose tenant is there goes on.
pub const GOES_ON: &[u8] = b"HELLO 1 1\n";

/// What is answered to it.
pub const WENT_ON: &[u8] = b"WELCOME 1 1\n";

/// A session.
pub struct PlayedSession<'t, 'a, L: DeskLedger, R: Wait, A: Allocator + Clone> {
    /// The name that its rows bear.
    pub name: &'t str,
    office: DeskOffice<'a, L, R, A>,
    /// The number of its tenant; None where none is there.
    tenant: Option<u64>,
}

impl<L: DeskLedger, R: Wait, A: Allocator + Clone> Drop for PlayedSession<'_, '_, L, R, A> {
    /// Closes the session's office: its tenant leaves.
    fn drop(self) {
        let PlayedSession {
            name: _name,
            office,
            tenant: _tenant,
        } = self;
        office.close();
    }
}

impl<'t, 'a, L: DeskLedger, R: Wait, A: Allocator + Clone> PlayedSession<'t, 'a, L, R, A> {
    /// A session of this name at the desk, without a tenant yet.
    pub fn new(name: &'t str, rt: &'a R, desk: &'a Desk<L, A>) -> PlayedSession<'t, 'a, L, R, A> {
        PlayedSession {
            name,
            office: DeskOffice::new(rt, desk),
            tenant: None,
        }
    }

    /// Whether the session's tenant is there.
    pub fn is_seated(&self) -> bool {
        self.tenant.is_some()
    }
}

/// A desk with its worker, and the sessions at it so far. It is the office of the part of a session that is served: it passes each
/// call on to the tenant's office at the desk, and at `wait` the worker runs all jobs first.
pub struct PlayedDesk<'t, 'a, L: DeskLedger, R: Wait, A: Allocator + Clone> {
    pub rt: &'a R,
    pub alloc: Global,
    pub desk: &'a Desk<L, A>,
    /// The worker.
    pub worker: DeskWorker<'a, L, R, A>,
    /// The most bytes that a session's reader gives at once.
    pieces: usize,
    /// The sessions.
    pub sessions: Vec<PlayedSession<'t, 'a, L, R, A>>,
    /// The place of the session that is served.
    at: usize,
    /// Whether its next HELLO is the player's own.
    resumes: bool,
    /// Whether its tenant stays at the end of the part.
    stays: bool,
}

impl<L: DeskLedger, R: Wait, A: Allocator + Clone> Drop for PlayedDesk<'_, '_, L, R, A> {
    /// Drops the desk's worker and all sessions.
    fn drop(self) {
        let PlayedDesk {
            rt: _rt,
            alloc: _alloc,
            desk: _desk,
            worker: _worker,
            pieces: _pieces,
            sessions: _guests,
            at: _at,
            resumes: _resumes,
            stays: _stays,
        } = self;
    }
}

impl<'t, 'a, L: DeskLedger, R: Wait, A: Allocator + Clone> PlayedDesk<'t, 'a, L, R, A> {
    /// No session yet at this desk, whose worker this is.
    pub fn new(
        rt: &'a R,
        alloc: Global,
        desk: &'a Desk<L, A>,
        worker: DeskWorker<'a, L, R, A>,
        pieces: usize,
    ) -> PlayedDesk<'t, 'a, L, R, A> {
        PlayedDesk {
            rt,
            alloc,
            desk,
            worker,
            pieces,
            sessions: Vec::new(alloc),
            at: 0,
            resumes: false,
            stays: false,
        }
    }

    /// Serves a part of the session at this place, whose lines are `sent`, and returns what it writes. The session's
    /// tenant stays at the end of the part where `stays` says so, but not after a line BYE.
    pub fn serve(&mut self, at: usize, sent: &[u8], stays: bool) -> Vec<u8>
        requires { L.all ≡ L.parts }
    {
        self.resumes = self.is_seated(at);
        self.at = at;
        self.stays = stays;
        let mut source = Pieces {
            bytes: sent,
            most: self.pieces,
        };
        let mut sink = FromWriter::new(Vec::new(self.alloc));
        let rt = self.rt;
        let end = serve_lines(rt, &mut source, &mut sink, self);
        if end == Ok(End::Bye) {
            self.stays = false;
            self.leave();
        }
        sink.writer
    }

    /// Whether the tenant of the session at this place is there.
    pub fn is_seated(&self, at: usize) -> bool {
        match self.sessions.get(at) {
            Some(session) => session.is_seated(),
            None => false,
        }
    }

    /// The place of the session of this name; None where there was none.
    pub fn find(&self, name: &str) -> Option<usize> {
        let mut at = 0usize;
        for session in self.sessions.iter() {
            if session.name == name {
                return Some(at);
            }
            at = at.saturating_add(1);
        }
        None
    }

    /// The session whose lines are served now.
    fn served(&mut self) -> Option<&mut PlayedSession<'t, 'a, L, R, A>> {
        self.sessions.get_mut(self.at)
    }

    /// The session that is served has a tenant of this number now, or none.
    fn seat(&mut self, tenant: Option<u64>) {
        if let Some(session) = self.served() {
            session.tenant = tenant;
        }
    }
}

impl<L: DeskLedger, R: Wait, A: Allocator + Clone> Office for PlayedDesk<'_, '_, L, R, A> {
    ghost does = { λ _ _ _ _. Unit {0} };

    ghost ready = { L.all == L.parts };

    /// The served session's tenant comes; a session that is resumed has its tenant already.
    fn hello(&mut self, reserve: Reserve) -> Result<(), Refusal> {
        if self.resumes {
            self.resumes = false;
            return Ok(());
        }
        match self.served() {
            Some(session) => session.office.hello(reserve)?,
            None => return Err(Refusal::NoTenant),
        }
        let tenant = self.worker.admitted();
        self.seat(Some(tenant));
        Ok(())
    }

    /// Raises the served session's reservation; `NoTenant` where none is served.
    fn reserve(&mut self, reserve: Reserve) -> Result<(), Refusal> {
        match self.served() {
            Some(session) => session.office.reserve(reserve),
            None => Err(Refusal::NoTenant),
        }
    }

    /// Submits the question for the served session, and gives its task to the desk's worker.
    fn ask(&mut self, question: &Question) -> Result<u64, Refusal> {
        let (job, tenant) = match self.served() {
            Some(session) => (session.office.ask(question)?, session.tenant),
            None => return Err(Refusal::NoTenant),
        };
        if let Some(tenant) = tenant {
            self.worker.asked(tenant);
        }
        Ok(job)
    }

    /// How the served session's job stands.
    fn get(&mut self, job: u64) -> Result<Standing, Refusal> {
        match self.served() {
            Some(session) => session.office.get(job),
            None => Err(Refusal::NoJob),
        }
    }

    /// A job that is pending although nothing is left to do would be waited for for ever, so its standing is answered.
    fn wait(&mut self, job: u64) -> Result<Standing, Refusal> {
        if !self.worker.is_closed {
            self.worker.work(ALL_STEPS);
        }
        let is_closed = self.worker.is_closed;
        match self.served() {
            Some(session) => wait_at(session, job, is_closed),
            None => Err(Refusal::NoJob),
        }
    }

    /// Cancels the served session's job.
    fn cancel(&mut self, job: u64) -> Result<(), Refusal> {
        match self.served() {
            Some(session) => session.office.cancel(job),
            None => Err(Refusal::NoJob),
        }
    }

    /// What the served session has left.
    fn quota(&mut self) -> Result<Left, Refusal> {
        match self.served() {
            Some(session) => session.office.quota(),
            None => Err(Refusal::NoTenant),
        }
    }

    /// How many frames and words the served session has.
    fn live(&mut self) -> Result<Live, Refusal> {
        match self.served() {
            Some(session) => session.office.live(),
            None => Err(Refusal::NoTenant),
        }
    }

    /// The served session's tenant leaves, but not where its input only pauses.
    fn leave(&mut self) {
        if self.stays {
            return;
        }
        if let Some(session) = self.served() {
            session.office.leave();
        }
        self.seat(None);
    }
}

/// Waits for a job, but not where it is pending at a desk that is open.
fn wait_at<L: DeskLedger, R: Wait, A: Allocator + Clone>(
    session: &mut PlayedSession<'_, '_, L, R, A>,
    job: u64,
    is_closed: bool,
) -> Result<Standing, Refusal> {
    let standing = session.office.get(job);
    if !is_closed && standing == Ok(Standing::Pending) {
        return standing;
    }
    session.office.wait(job)
}
