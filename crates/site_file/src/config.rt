//! What a site's file says, as a value.
use crate::directory::{Directory, Terms};
use crate::key_words::no_keys;
use crate::rate::Rate;
use crate::rate_words::USUAL;
use site_book::{Amount, Plan};
use std::alloc::{AllocError, Global};
use std::net::{IpAddr, Ipv4Addr, SocketAddr};

/// What a site goes by.
#[derive(Drop)]
pub struct SiteConfig {
    /// Where it listens.
    pub entrances: Entrances,
    /// The path of the Unix socket where the operator asks; `None` for no such socket.
    pub control: Option<String>,
    /// Its workers.
    pub workers: Workers,
    /// Its numbers and times.
    pub limits: Limits,
    /// The plan of each hall; a customer has nothing in a hall that isn't its home.
    pub halls: Vec<Plan>,
    /// Names, rates, homes and keys.
    pub directory: Directory,
}

/// Where a site listens.
#[derive(Clone, Copy, Debug, PartialEq, Eq)]
pub struct Entrances {
    /// Where connections come from a proxy, each with a header of the PROXY protocol.
    pub proxied: Option<SocketAddr>,
    /// Where they come as they are.
    pub plain: Option<SocketAddr>,
    /// Where `GET /health` and `GET /metrics` are answered.
    pub health: Option<SocketAddr>,
}

/// The workers of a hall.
#[derive(Clone, Copy, Debug, PartialEq, Eq)]
pub struct Workers {
    /// How many; `None` for as many as there are processors.
    pub count: Option<u8>,
    /// How many plies from its leaves a search isn't divided any more.
    pub grain: u8,
}

impl Workers {
    /// Those of a site whose file says nothing of them. Leaves of six plies: from three plies on a leaf is searched in a good order, and
    /// the longer it is, the more that saves.
    pub const USUAL: Workers = Workers {
        count: None,
        grain: 6,
    };
}

/// The numbers and times of a site. Times are seconds.
#[derive(Clone, Copy, Debug, PartialEq, Eq)]
pub struct Limits {
    /// The most connections at once in all.
    pub connections: u32,
    /// How long a connection has until its HELLO is welcomed.
    pub welcome: u32,
    /// How long a session may say no line.
    pub idle: u32,
    /// How long a client may take for a byte of an answer.
    pub write: u32,
    /// How long a WAIT goes on whose client has ended its input.
    pub hangup: u32,
    /// How long a guest must have been idle to be ended for one that comes.
    pub guest: u32,
}

impl Limits {
    /// Those of a site whose file says nothing of them.
    pub const USUAL: Limits = Limits {
        connections: 8192,
        welcome: 10,
        idle: 3600,
        write: 60,
        hangup: 60,
        guest: 60,
    };
}

/// What a hall has that serves as many tenants as it can, each with what one may have on average.
pub const FULL_HALL: Amount = Amount {
    sessions: 64,
    segments: 65_536,
    nodes: 4_194_304,
};

impl SiteConfig {
    /// What a site goes by that has no file: it listens for this host alone, and everybody is a guest who may take what is free.
    /// `None` never, since the sums fit.
    pub fn without_file(alloc: Global, port: u16) -> Result<Option<SiteConfig>, AllocError> {
        let guest = guest_terms(alloc, Limits::USUAL.connections, USUAL)?;
        let Some(plan) = Plan::new(FULL_HALL, Vec::new(alloc), FULL_HALL, FULL_HALL, FULL_HALL)
        else {
            return Ok(None);
        };
        let mut halls = Vec::new(alloc);
        halls.push(plan)?;
        Ok(Some(SiteConfig {
            entrances: Entrances {
                proxied: None,
                plain: Some(SocketAddr::new(IpAddr::V4(Ipv4Addr::LOCALHOST), port)),
                health: None,
            },
            control: None,
            workers: Workers::USUAL,
            limits: Limits::USUAL,
            halls,
            directory: Directory {
                customers: Vec::new(alloc),
                guest,
                keys: no_keys(alloc),
            },
        }))
    }
}

/// The terms of each guest: its name, connections and rate of lines.
pub(crate) fn guest_terms(
    alloc: Global,
    connections: u32,
    rate: Rate,
) -> Result<Terms, AllocError> {
    let name = String::from_str(alloc, "guest")?;
    Ok(Terms {
        name,
        connections,
        rate,
        hall: 0,
    })
}
