//! Whose a connection is, by its first bytes.
ghost use Rattle.std.specs.Prelude.{◌≡◌, option_copied};
ghost use Rattle.site_rules.specs.HeaderViews.{read_seen};
ghost use Rattle.site_rules.specs.Callers.{address_of, caller_by, recognized, speaker, CallerOf, IsIdentified};
ghost use Rattle.site_rules.specs.Views.{caller_seen};

use crate::faults::HeaderFault;
use crate::fields::field_of;
use crate::headers::{Header, Origin, read_header};
use site_book::Who;
use site_file::{Address, Keys};

/// The field in which HAProxy hands on a certificate's name.
const NAME_FIELD: u8 = 5;

/// Where a connection came.
#[derive(Clone, Copy, Debug, PartialEq, Eq)]
pub enum Port {
    /// From a proxy, which says first whose it is.
    Proxied,
    /// As it is.
    Plain,
}

/// Whose a connection is.
#[derive(Clone, Copy)]
pub enum Caller<'a> {
    /// It comes from this address, perhaps with a certificate of this name; so many bytes said it, and its own follow.
    From {
        /// The address.
        address: Address,
        /// The name in the client's certificate.
        certificate: Option<&'a [u8]>,
        /// How many bytes the header has.
        used: usize,
    },
    /// More bytes are to come.
    Unfinished,
    /// It has no header that is understood: it is closed.
    Foreign,
}

/// A connection whose customer is known.
#[derive(Clone, Copy)]
pub struct KnownClient {
    /// Whose it is.
    pub who: Who,
    /// Where it comes from.
    pub address: Address,
    /// How many bytes its header had.
    pub used: usize,
}

/// What comes of a connection's first bytes.
#[derive(Clone, Copy)]
pub enum Recognized {
    /// It is known whose it is.
    Known(KnownClient),
    /// More bytes are to come.
    Unfinished,
    /// It has no header that is understood: it is closed.
    Foreign,
}

/// The address that a header tells, or the connection's own where it tells none.
pub(crate) fn address_of(origin: &Origin, peer: Address) -> Address
    ensures { result ≡ address_of origin.now peer }
{
    match origin {
        Origin::Local => peer,
        Origin::V4(octets, _) => Address::v4(*octets),
        Origin::V6(octets, _) => Address::v6(*octets),
    }
}

/// Whose a connection is that begins with these bytes and whose own address is this. At the proxy's port a header must stand there that is
/// understood; at the other no header is read.
pub fn identify(port: Port, bytes: &[u8], peer: Address) -> Caller<'_>
    ensures { IsIdentified port bytes.now peer (caller_seen result) }
{
    match port {
        Port::Plain => Caller::From {
            address: peer,
            certificate: None,
            used: 0,
        },
        Port::Proxied => caller_by(read_header(bytes), peer),
    }
}

/// Whose a connection is, by its first bytes and a file's keys ([`identify`]): the customer's of its certificate's name, else of the closest
/// network that has its address, else the guest's of that address.
pub fn recognize(port: Port, bytes: &[u8], peer: Address, keys: &Keys) -> Recognized
    ensures { (caller : CallerOf) × IsIdentified port bytes.now peer caller × (result ≡ recognized keys.now.certificates.items keys.now.networks.items caller) }
{
    match identify(port, bytes, peer) {
        Caller::From {
            address,
            certificate,
            used,
        } => Recognized::Known(KnownClient {
            who: keys.by_connection(certificate, address),
            address,
            used,
        }),
        Caller::Unfinished => Recognized::Unfinished,
        Caller::Foreign => Recognized::Foreign,
    }
}

/// Whose a session is to be that a HELLO asks for on a connection of this customer: the customer's that has its token, and without one the
/// connection's own. `None` where the token is none of the file's.
pub fn speaker(own: Who, token: Option<&[u8]>, keys: &Keys) -> Option<Who>
    ensures { result ≡ speaker own keys.now.tokens.items (option_copied token.entry) }
{
    match token {
        None => Some(own),
        Some(token) => keys.by_token(token),
    }
}

/// Whose a connection is by what was read of its header.
fn caller_by(read: Result<Option<Header<'_>>, HeaderFault>, peer: Address) -> Caller<'_>
    ensures { caller_seen result ≡ caller_by (read_seen read.entry) peer }
{
    match read {
        Ok(None) => Caller::Unfinished,
        Err(_) => Caller::Foreign,
        Ok(Some(header)) => Caller::From {
            address: address_of(&header.origin, peer),
            certificate: field_of(header.fields, NAME_FIELD),
            used: header.used,
        },
    }
}
