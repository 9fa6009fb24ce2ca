//! What all connections share beside the desks, under one lock: the file's words, rates, connections, who can be shut, and the counts.
use crate::counts::{Counts, RefusedCustomers};
use crate::rates::Rates;
use site_book::{Group, Told, Who};
use site_file::{Address, SiteConfig};
use site_rules::sessions::{LinkedSession, hall_with, many_of, names_from, session_place};
use site_rules::{Arrival, ClientState, Connections, HallRoom, Watch, hall_of_guest};
use std::alloc::{AllocError, Global};
use std::io::ErrorKind;
use std::net::{Shutdown, TcpStream};
use std::sync::Arc;

/// The way to a session's connection, and what is known of its client.
#[derive(Drop)]
pub(crate) struct SessionLink {
    stream: Arc<TcpStream, Global>,
    /// Whether the session waits for a job, so that its thread doesn't read.
    waits: bool,
    watch: Watch,
    /// Why it was shut, if it was.
    told: Option<Told>,
}

/// What connections share.
#[derive(Drop)]
pub(crate) struct Register {
    pub(crate) config: Arc<SiteConfig, Global>,
    pub(crate) rates: Rates,
    pub(crate) connections: Connections,
    pub(crate) links: Vec<LinkedSession<SessionLink>>,
    pub(crate) counts: Counts,
    pub(crate) refused: RefusedCustomers,
    /// Until when those stay who are there, where nobody else may come.
    pub(crate) draining: Option<u64>,
}

impl Register {
    /// The register of a new site: no connection is there.
    pub(crate) fn new(alloc: Global, config: Arc<SiteConfig, Global>) -> Register {
        Register {
            config,
            rates: Rates::new(alloc),
            connections: Connections::new(alloc),
            links: Vec::new(alloc),
            counts: Counts::new(),
            refused: RefusedCustomers::new(alloc),
            draining: None,
        }
    }

    /// Counts one connection more; false where there are as many as may be, or the operator lets nobody come any more.
    pub(crate) fn come(&mut self) -> bool {
        self.draining.is_none() && self.connections.come(self.config.limits.connections)
    }

    /// Counts one connection less.
    pub(crate) fn go(&mut self) {
        self.connections.go();
    }

    /// Whether and as whose a new connection of this customer is taken; it is among all connections already.
    pub(crate) fn arrive(&mut self, who: Who) -> Arrival {
        let most = self.config.directory.terms(who).connections;
        let most_all = self.config.limits.connections;
        match self.connections.arrive(who, most, most_all) {
            Ok(arrival) => arrival,
            Err(_) => Arrival::Closed,
        }
    }

    /// Notes that a connection has left, which counted as this customer's, or as nobody's.
    pub(crate) fn depart(&mut self, account: Option<Who>) {
        self.connections.depart(account);
    }

    /// Lets a connection count as another customer's from now on; false where that customer may have no more
    /// connections.
    pub(crate) fn belong(&mut self, account: Option<Who>, who: Who) -> bool {
        let most = self.config.directory.terms(who).connections;
        self.connections.belong(account, who, most).unwrap_or(false)
    }

    /// The hall that the site's file names for a customer; for a guest the first one.
    pub(crate) fn first_hall(&self, who: Who) -> usize {
        match who {
            Who::Named(_) => self.config.directory.terms(who).hall as usize,
            _ => 0,
        }
    }

    /// The hall of a customer's next session, where guests have so much left in each: the file says it; of a guest it is where that has
    /// sessions, or else the emptiest. A guest that has other connections goes where the last of them went: one of them may just be coming.
    pub(crate) fn hall_of(&mut self, who: Who, rooms: &[HallRoom]) -> usize {
        if !who.is_guest() {
            return self.first_hall(who);
        }
        let mut home = hall_with(self.links.as_slice(), who);
        if home.is_none() && self.connections.of(who) > 1 {
            home = self.connections.home(who);
        }
        let hall = hall_of_guest(rooms, home);
        self.connections.settle(who, hall);
        hall
    }

    /// Whether the guests of a guest's wider network have as many sessions in all halls as they may.
    pub(crate) fn is_network_full(&self, who: Who) -> bool {
        let Some(plan) = self.config.halls.first() else {
            return false;
        };
        let network = Group::Network(who.network());
        let most = plan.limit(network).sessions;
        who.is_guest() && many_of(self.links.as_slice(), network) >= most as usize
    }

    /// Keeps the connection of a session, so that it can be shut later; false where there is no memory.
    pub(crate) fn link(
        &mut self,
        hall: usize,
        session: u64,
        who: Who,
        address: Address,
        stream: Arc<TcpStream, Global>,
    ) -> bool {
        self.links
            .push(LinkedSession {
                hall,
                session,
                who,
                address,
                link: SessionLink {
                    stream,
                    waits: false,
                    watch: Watch::NOTHING,
                    told: None,
                },
            })
            .is_ok()
    }

    /// The way to the connection of a session, for writing.
    fn link_of(&mut self, hall: usize, session: u64) -> Option<&mut SessionLink> {
        let place = session_place(self.links.as_slice(), hall, session)?;
        Some(&mut self.links[place].link)
    }

    /// Forgets the connection of a session that has ended. Returns why it was shut, if it was.
    pub(crate) fn unlink(&mut self, hall: usize, session: u64) -> Option<Told> {
        let place = session_place(self.links.as_slice(), hall, session)?;
        self.links.swap_remove(place).link.told
    }

    /// Shuts the connection of a session that was told to end, and notes why.
    pub(crate) fn shut(&mut self, hall: usize, session: u64, why: Told) {
        if let Some(link) = self.link_of(hall, session) {
            link.told = Some(why);
            let _ = link.stream.shutdown(Shutdown::Both);
        }
    }

    /// Notes whether a session waits for a job from now on.
    pub(crate) fn set_waiting(&mut self, hall: usize, session: u64, waits: bool) {
        if let Some(link) = self.link_of(hall, session) {
            link.waits = waits;
            link.watch = Watch::NOTHING;
        }
    }

    /// The address from which the connection of a session comes.
    pub(crate) fn address_of(&self, hall: usize, session: u64) -> Option<Address> {
        let place = session_place(self.links.as_slice(), hall, session)?;
        Some(self.links[place].address)
    }

    /// The halls and numbers of the sessions whose connections come from an address.
    pub(crate) fn sessions_from(
        &self,
        alloc: Global,
        address: Address,
    ) -> Result<Vec<(usize, u64)>, AllocError> {
        names_from(alloc, self.links.as_slice(), address)
    }

    /// Looks at the connection at a place, if its session waits for a job. Returns hall and session where the client is
    /// gone.
    pub(crate) fn look(&mut self, place: usize, now: u64) -> Option<(usize, u64)> {
        let hangup = u64::from(self.config.limits.hangup).saturating_mul(1_000);
        let there = self.links.get_mut(place)?;
        if !there.link.waits {
            return None;
        }
        let seen = seen_of(&there.link.stream);
        there.link.watch = there.link.watch.after(seen, now);
        if there.link.watch.is_gone(seen, now, hangup) {
            Some((there.hall, there.session))
        } else {
            None
        }
    }
}

/// What a look at a connection shows that nobody reads: the client is there, has ended its input, or is lost.
fn seen_of(stream: &TcpStream) -> ClientState {
    if stream.set_nonblocking(true).is_err() {
        return ClientState::Lost;
    }
    let mut block = [0; 1];
    let peeked = stream.peek(&mut block);
    let seen = match peeked {
        Ok(0) => ClientState::Ended,
        Ok(_) => seen_by(stream),
        Err(error) => match error.kind() {
            ErrorKind::WouldBlock | ErrorKind::Interrupted => ClientState::Silent,
            _ => ClientState::Lost,
        },
    };
    if stream.set_nonblocking(false).is_err() {
        return ClientState::Lost;
    }
    seen
}

/// What a look at a connection shows whose bytes wait to be read: the client is there, or lost.
fn seen_by(stream: &TcpStream) -> ClientState {
    match stream.take_error() {
        Ok(None) => ClientState::Silent,
        _ => ClientState::Lost,
    }
}
