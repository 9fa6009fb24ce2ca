//! The tables of a site's file, read one by one.
use crate::config::{Entrances, Limits, Workers, guest_terms};
use crate::directory::{Directory, Terms};
use crate::faults::FileFault;
use crate::guests::{GREATEST, Guests, amount_in, guests_in};
use crate::key_words::{no_keys, read_keys};
use crate::keys::Keys;
use crate::rate_words::rate_in;
use crate::section::{Section, TABLES};
use site_book::Amount;
use std::alloc::Global;
use std::net::SocketAddr;

/// All that a file says, before anything of it is compared.
#[derive(Drop)]
pub(crate) struct FileContents {
    pub(crate) entrances: Entrances,
    pub(crate) control: Option<String>,
    pub(crate) workers: Workers,
    pub(crate) limits: Limits,
    /// How many halls there are.
    pub(crate) count: u32,
    pub(crate) guests: Guests,
    /// The budgets of the named customers, by their numbers.
    pub(crate) budgets: Vec<Amount>,
    /// The halls where they are to be, from 0.
    pub(crate) wanted: Vec<Option<u32>>,
    pub(crate) directory: Directory,
}

/// The most halls.
const MOST_HALLS: u32 = 64;

/// The words of a file.
const FILE: [&str; 12] = [
    "listen",
    "plain",
    "health",
    "control",
    "connections",
    "workers",
    "grain",
    "halls",
    "hall",
    "seconds",
    "guests",
    "customer",
];

/// Those of a customer's table.
const CUSTOMER: [&str; 11] = [
    "name",
    "token_sha256",
    "certificate",
    "address",
    "sessions",
    "segments",
    "nodes",
    "rate",
    "burst",
    "connections",
    "hall",
];

/// Those of each guest's.
const EACH: [&str; 6] = [
    "sessions",
    "segments",
    "nodes",
    "rate",
    "burst",
    "connections",
];

/// Those of the times.
const SECONDS: [&str; 5] = ["welcome", "idle", "write", "hangup", "guest"];

/// The customers of a file.
#[derive(Drop)]
struct Customers {
    budgets: Vec<Amount>,
    wanted: Vec<Option<u32>>,
    terms: Vec<Terms>,
    keys: Keys,
}

/// All that a site's file says, whose whole text was read as this table.
pub(crate) fn told_in(file: &Section<'_>) -> Result<FileContents, FileFault> {
    file.end(&FILE)?;
    let entrances = entrances_in(file)?;
    let control = control_in(file)?;
    let workers = workers_in(file)?;
    let limits = limits_in(file)?;
    let count = file.count("halls", 1, MOST_HALLS)?.unwrap_or(1);
    let all = file.table("guests", "guests")?;
    all.end(&["each", "network", "together"])?;
    let each = all.table("each", "guests.each")?;
    let guests = guests_in(file, &all, &each)?;
    let guest = guest_in(&each, guests.each)?;
    let customers = customers_in(file, count)?;
    let Customers {
        budgets,
        wanted,
        terms,
        keys,
    } = customers;
    Ok(FileContents {
        entrances,
        control,
        workers,
        limits,
        count,
        guests,
        budgets,
        wanted,
        directory: Directory {
            customers: terms,
            guest,
            keys,
        },
    })
}

/// At which addresses a site listens, by its file: there is one at least.
fn entrances_in(file: &Section<'_>) -> Result<Entrances, FileFault> {
    let proxied = file.place("listen")?;
    let plain = file.place("plain")?;
    let health = health_in(file)?;
    if proxied.is_none() && plain.is_none() {
        return Err(file.told("listen", "is missing, and `plain` too"));
    }
    Ok(Entrances {
        proxied,
        plain,
        health,
    })
}

/// The address at which a site tells its health, by its file: one of this machine, so that no other host reaches it.
fn health_in(file: &Section<'_>) -> Result<Option<SocketAddr>, FileFault> {
    match file.place("health")? {
        Some(place) if !place.ip().is_loopback() => {
            Err(file.told(
                "health",
                "is to be an address of this host alone, as \"127.0.0.1:4719\"",
            ))
        }
        place => Ok(place),
    }
}

/// The path of the operator's socket in a site's file, if it names one.
fn control_in(file: &Section<'_>) -> Result<Option<String>, FileFault> {
    match file.path("control")? {
        None => Ok(None),
        Some(path) => {
            let path = String::from_str(file.alloc, path)?;
            Ok(Some(path))
        }
    }
}

/// The workers of the file: how many (1 to 62), and the grain (0 to 12).
fn workers_in(file: &Section<'_>) -> Result<Workers, FileFault> {
    let count = file.count("workers", 1, 62)?;
    let grain = file.count("grain", 0, 12)?;
    Ok(Workers {
        count: count.map(|count| count as u8),
        grain: grain.map_or(Workers::USUAL.grain, |grain| grain as u8),
    })
}

/// The limits of a site's file: how many connections it takes, and its times.
fn limits_in(file: &Section<'_>) -> Result<Limits, FileFault> {
    let usual = Limits::USUAL;
    let connections = file.count("connections", 1, GREATEST)?;
    let connections = connections.unwrap_or(usual.connections);
    let limits = Limits {
        connections,
        ..usual
    };
    match file.part("seconds", "seconds")? {
        None => Ok(limits),
        Some(section) => times_in(&section, limits),
    }
}

/// The times that a table of a site's file says, and these where it says nothing.
fn times_in(section: &Section<'_>, usual: Limits) -> Result<Limits, FileFault> {
    section.end(&SECONDS)?;
    let welcome = seconds_in(section, "welcome", usual.welcome)?;
    let idle = seconds_in(section, "idle", usual.idle)?;
    let write = seconds_in(section, "write", usual.write)?;
    let hangup = seconds_in(section, "hangup", usual.hangup)?;
    let guest = seconds_in(section, "guest", usual.guest)?;
    Ok(Limits {
        connections: usual.connections,
        welcome,
        idle,
        write,
        hangup,
        guest,
    })
}

/// A time of a site's file in seconds, from one to a day, or its usual value.
fn seconds_in(section: &Section<'_>, key: &str, usual: u32) -> Result<u32, FileFault> {
    let seconds = section.count(key, 1, 86_400)?;
    Ok(seconds.unwrap_or(usual))
}

/// What the file says of each guest beside its budget.
fn guest_in(each: &Section<'_>, budget: Amount) -> Result<Terms, FileFault> {
    each.end(&EACH)?;
    let rate = rate_in(each)?;
    let connections = connections_in(each, budget)?;
    let terms = guest_terms(each.alloc, connections, rate)?;
    Ok(terms)
}

/// How many connections a customer may have, by its table in a site's file; where it says nothing four for each
/// session, and 16 more.
fn connections_in(section: &Section<'_>, budget: Amount) -> Result<u32, FileFault> {
    let connections = section.count("connections", 1, GREATEST)?;
    Ok(connections.unwrap_or(budget.sessions.saturating_mul(4).saturating_add(16)))
}

/// The customers of a file with so many halls.
fn customers_in(file: &Section<'_>, count: u32) -> Result<Customers, FileFault> {
    let mut customers = Customers::new(file.alloc);
    for (number, value) in file.list("customer", TABLES)?.iter().enumerate() {
        customers.read(&file.entry("customer", number, value)?, count)?;
    }
    Ok(customers)
}

/// The hall that a customer's table asks for; the file counts them from 1.
fn hall_in(section: &Section<'_>, count: u32) -> Result<Option<u32>, FileFault> {
    match section.count("hall", 1, count)? {
        None => Ok(None),
        Some(hall) => Ok(Some(hall.saturating_sub(1))),
    }
}

/// The place of a customer of this name.
pub(crate) fn customer_named(customers: &[Terms], name: &str) -> Option<usize> {
    for (place, terms) in customers.iter().enumerate() {
        if terms.name.as_str() == name {
            return Some(place);
        }
    }
    None
}

impl Customers {
    /// The customers of a site's file of which none was read yet.
    fn new(alloc: Global) -> Customers {
        Customers {
            budgets: Vec::new(alloc),
            wanted: Vec::new(alloc),
            terms: Vec::new(alloc),
            keys: no_keys(alloc),
        }
    }

    /// Reads the table of one customer, and adds it.
    fn read(&mut self, section: &Section<'_>, count: u32) -> Result<(), FileFault> {
        section.end(&CUSTOMER)?;
        let name = section.name(b"_.@-")?;
        if customer_named(&self.terms, name).is_some() {
            return Err(section.fault("name", "a second customer of this name"));
        }
        let Ok(number) = u32::try_from(self.terms.len()) else {
            return Err(section.fault("name", "there are too many customers"));
        };
        read_keys(&mut self.keys, section, number)?;
        let budget = amount_in(section)?;
        let hall = hall_in(section, count)?;
        let terms = terms_in(section, name, budget)?;
        self.push(budget, hall, terms)
    }

    /// Appends one customer: its budget, the hall that it wants, and its terms.
    fn push(&mut self, budget: Amount, hall: Option<u32>, terms: Terms) -> Result<(), FileFault> {
        self.budgets.push(budget)?;
        self.wanted.push(hall)?;
        self.terms.push(terms)?;
        Ok(())
    }
}

/// What a customer's table says beside its budget, keys and home.
fn terms_in(section: &Section<'_>, name: &str, budget: Amount) -> Result<Terms, FileFault> {
    let rate = rate_in(section)?;
    let connections = connections_in(section, budget)?;
    let name = String::from_str(section.alloc, name)?;
    Ok(Terms {
        name,
        connections,
        rate,
        hall: 0,
    })
}
