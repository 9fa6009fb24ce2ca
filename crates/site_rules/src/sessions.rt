//! The sessions of a site whose connections it can reach: which of them a hall and a number mean, and which are a customer's, a part's or an
//! address's.
//!
//! Whoever has the sockets keeps such a list, and beside each session the way to its connection (`link`), which nobody here looks at.
ghost use Rattle.std.specs.Prelude.{◌≡◌, ◌<◌, length, IfOk, IfSome};
ghost use Rattle.site_rules.specs.Sessions.{hall_with, is_same_address, many_of, names_from, session_place};

use site_book::{Group, Who};
use site_file::Address;
use std::alloc::{AllocError, Global};

/// A session that is there, and the way to its connection.
#[derive(Drop)]
pub struct LinkedSession<T> {
    /// Its hall, from 0.
    pub hall: usize,
    /// Its number.
    pub session: u64,
    /// Whose it is.
    pub who: Who,
    /// Where its connection comes from.
    pub address: Address,
    /// The way to its connection.
    pub link: T,
}

/// The place of the session of this number in this hall; `None` where it isn't there.
pub fn session_place<T>(linked: &[LinkedSession<T>], hall: usize, session: u64) -> Option<usize>
    ensures place { result ≡ session_place hall session 0 linked.now }
    ensures there { IfSome result (λ place. place < length linked.now) }
{
    for (place, own) in linked.iter().enumerate() {
        if own.hall == hall && own.session == session {
            return Some(place);
        }
    }
    None
}

/// The hall in which a customer has a session; `None` where it has none.
pub fn hall_with<T>(linked: &[LinkedSession<T>], who: Who) -> Option<usize>
    ensures { result ≡ hall_with who linked.now }
{
    for own in linked {
        if own.who.is(who) {
            return Some(own.hall);
        }
    }
    None
}

/// How many sessions belong to this part of all, in all halls.
pub fn many_of<T>(linked: &[LinkedSession<T>], part: Group) -> usize
    ensures { result ≡ many_of part linked.now }
{
    let mut many: usize = 0;
    for own in linked {
        if part.has(own.who) {
            many += 1;
        }
    }
    many
}

/// The halls and numbers of the sessions whose connections come from an address.
pub fn names_from<T>(
    alloc: Global,
    linked: &[LinkedSession<T>],
    address: Address,
) -> Result<Vec<(usize, u64)>, AllocError>
    ensures { IfOk result (λ names. names.items ≡ names_from address linked.now) }
{
    let mut names = Vec::new(alloc);
    for own in linked {
        if is_same_address(own.address, address) {
            names.push((own.hall, own.session))?;
        }
    }
    Ok(names)
}

/// Whether two addresses are the same.
pub fn is_same_address(a: Address, b: Address) -> bool
    ensures { result ≡ is_same_address a b }
{
    match (a, b) {
        (Address::V4(a), Address::V4(b)) => a == b,
        (Address::V6(a, low), Address::V6(b, other)) => a == b && low == other,
        _ => false,
    }
}
