//! What the office of a site's connection asks of the site around it: clock, keys and rates; and what it tells it.
use crate::counts::place_of;
use crate::links::TalkState;
use crate::shared::Shared;
use crate::telling::log_refusal;
use site_book::{Group, Told, Who};
use site_desk::SiteNaming;
use site_file::Address;
use site_office::{Cause, Environment, Identity, Note};
use site_rules::{HallRoom, speaker};
use std::alloc::Global;
use std::net::{Shutdown, TcpStream};
use std::sync::{Arc, Wait};
use std::time::Clock;

/// The environment of a connection's office.
#[derive(Drop)]
pub(crate) struct SiteEnvironment<'a, J: SiteNaming, R> {
    pub(crate) rt: &'a R,
    pub(crate) alloc: Global,
    pub(crate) shared: &'a Shared<J>,
    pub(crate) stream: Arc<TcpStream, Global>,
    pub(crate) talk: &'a TalkState,
    /// Whose the connection is, and where it comes from.
    pub(crate) own: Who,
    pub(crate) address: Address,
    /// As whose it counts; `None` where as nobody's.
    pub(crate) account: Option<Who>,
    /// The hall of its session, or of the next.
    pub(crate) hall: usize,
    /// Its session, and whose that is.
    pub(crate) session: Option<(u64, Who)>,
    /// Why that was told to end, if it was.
    pub(crate) told: Option<Told>,
    /// When its session began, in milliseconds.
    pub(crate) since: u64,
    /// When the line came whose answer is timed, in microseconds.
    pub(crate) asked: u64,
}

impl<J: SiteNaming, R: Clock + Wait> SiteEnvironment<'_, J, R> {
    /// Notes that the connection's session has begun, under this number, for this customer.
    fn begin(&mut self, number: u64, who: Who) {
        let took = self.shared.micros(self.rt).saturating_sub(self.asked);
        self.session = Some((number, who));
        self.since = self.shared.now(self.rt);
        self.talk.welcome();
        let kept = match Arc::try_clone(&self.stream) {
            Ok(stream) => {
                let mut register = self.shared.register(self.rt);
                register.counts.welcomed = register.counts.welcomed.saturating_add(1);
                register.counts.hello.note(took);
                register.link(self.hall, number, who, self.address, stream)
            }
            Err(_) => false,
        };
        if !kept {
            let _ = self.stream.shutdown(Shutdown::Both);
        }
    }

    /// What all guests have left in each hall, where a guest says HELLO and there are several; where there is no memory to look, that of
    /// the first ones.
    fn rooms(&self, token: Option<&[u8]>) -> Vec<HallRoom> {
        let mut rooms = Vec::new(self.alloc);
        if token.is_some() || !self.own.is_guest() || self.shared.desks.len() < 2 {
            return rooms;
        }
        for desk in &self.shared.desks {
            let (may, has) = desk.part(self.rt, Group::Guests);
            let room = HallRoom {
                sessions: may.sessions.saturating_sub(has.sessions),
                segments: may.segments.saturating_sub(has.segments),
                nodes: may.nodes.saturating_sub(has.nodes),
            };
            if rooms.push(room).is_err() {
                return rooms;
            }
        }
        rooms
    }

    /// Counts a refusal of the connection's customer, and says it in the log.
    fn refuse(&mut self, cause: Cause) {
        let place = place_of(cause);
        let who = self.account.unwrap_or(self.own);
        {
            let mut register = self.shared.register(self.rt);
            register.counts.refuse(place);
            register.refused.note(who);
        }
        log_refusal(
            self.rt,
            self.alloc,
            self.shared,
            self.address,
            Some(who),
            place,
        );
    }

    /// Notes that the connection's session waits for a job, or doesn't any more.
    fn wait(&mut self, waits: bool) {
        let now = self.shared.micros(self.rt);
        let Some((number, _)) = self.session else {
            return;
        };
        let mut register = self.shared.register(self.rt);
        register.set_waiting(self.hall, number, waits);
        if waits {
            self.asked = now;
        } else {
            register.counts.wait.note(now.saturating_sub(self.asked));
        }
    }

    /// Notes that the connection has ended.
    pub(crate) fn leave(&self) {
        let mut register = self.shared.register(self.rt);
        register.counts.lines = register.counts.lines.saturating_add(self.talk.lines.get());
        register.depart(self.account);
    }
}

impl<J: SiteNaming, R: Clock + Wait> Environment for SiteEnvironment<'_, J, R> {
    /// Milliseconds of the site's clock.
    fn now(&self) -> u64 {
        self.shared.now(self.rt)
    }

    /// For how long a guest may say nothing before its session may go for another, in milliseconds.
    fn guest_idle(&self) -> u64 {
        let register = self.shared.register(self.rt);
        u64::from(register.config.limits.guest).saturating_mul(1_000)
    }

    /// Whose the session is, by the token of its HELLO or else by the connection, and in which hall it is.
    fn identify(&mut self, token: Option<&[u8]>) -> Identity {
        self.asked = self.shared.micros(self.rt);
        let rooms = self.rooms(token);
        let mut register = self.shared.register(self.rt);
        let Some(who) = speaker(self.own, token, &register.config.directory.keys) else {
            return Identity::Nobody;
        };
        let is_draining = register.draining.is_some();
        if is_draining || !register.belong(self.account, who) {
            if is_draining || who.is_guest() {
                // (it isn't told that its own budget is used up: it may come again, perhaps to another program)
                let _ = self.stream.shutdown(Shutdown::Both);
            }
            return Identity::Crowded;
        }
        self.account = Some(who);
        self.talk.is_extra.set(false);
        if rooms.len() > 1 && register.is_network_full(who) {
            return Identity::Crowded;
        }
        self.hall = register.hall_of(who, rooms.as_slice());
        Identity::Is(who, self.hall)
    }

    /// Whether this customer may say one line more that asks for a reservation, which it then has said.
    fn pay(&mut self, who: Who) -> bool {
        let now = self.shared.micros(self.rt);
        let mut register = self.shared.register(self.rt);
        let rate = register.config.directory.terms(who).rate;
        register.rates.pay(who, rate, now)
    }

    /// Notes what happened to the session in what all connections share: that it began, waits, was answered or has
    /// ended.
    fn note(&mut self, note: Note) {
        match note {
            Note::Begins(number, who) => self.begin(number, who),
            Note::Ended(number) => {
                let mut register = self.shared.register(self.rt);
                self.told = register.unlink(self.hall, number);
            }
            Note::Waits(waits) => self.wait(waits),
            Note::Value => {
                let mut register = self.shared.register(self.rt);
                register.counts.values = register.counts.values.saturating_add(1);
            }
            Note::Refused(cause) => self.refuse(cause),
            Note::Tells(number) => {
                let mut register = self.shared.register(self.rt);
                register.shut(self.hall, number, Told::ForAnother);
            }
        }
    }
}
