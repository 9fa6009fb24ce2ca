//! The keys by which a site knows the customers of its file.
ghost use Rattle.std.specs.Prelude.{◌≡◌, Some, option_copied};
ghost use Rattle.site_file.specs.Keys.{by_address, by_connection, by_name, by_token, closer, closest, customer_of_digest, customer_of_name};

use crate::address::{Address, Network};
use sha2::{Digest, Sha256};
use site_book::Who;

/// A token of a customer, by its SHA-256 digest.
#[derive(Clone, Copy)]
pub struct TokenKey {
    /// The digest.
    pub digest: [u8; 32],
    /// The customer's place in the file.
    pub customer: u32,
}

/// A name that a customer's certificates bear.
#[derive(Drop)]
pub struct CertificateKey {
    /// The name.
    pub name: String,
    /// The customer's place in the file.
    pub customer: u32,
}

/// A network from which a customer comes.
#[derive(Clone, Copy)]
pub struct NetworkKey {
    /// The network.
    pub network: Network,
    /// The customer's place in the file.
    pub customer: u32,
}

/// All keys of a file.
#[derive(Drop)]
pub struct Keys {
    /// The tokens.
    pub tokens: Vec<TokenKey>,
    /// The certificates' names.
    pub certificates: Vec<CertificateKey>,
    /// The networks.
    pub networks: Vec<NetworkKey>,
}

impl Keys {
    /// The customer of a token; None where it is none of the file's.
    pub fn by_token(&self, token: &[u8]) -> Option<Who>
        ensures { result ≡ by_token self.now.tokens.items token.now }
    {
        let digest = Sha256::digest(token);
        customer_of_digest(&self.tokens, &digest).map(|number| Who::Named(number))
    }

    /// Who a connection without a token is.
    pub fn by_connection(&self, certificate: Option<&[u8]>, address: Address) -> Who
        ensures { result ≡ by_connection self.now.certificates.items self.now.networks.items (option_copied certificate.entry) address }
    {
        match self.by_name(certificate) {
            Some(number) => Who::Named(number),
            None => self.by_address(address),
        }
    }

    /// The customer of this certificate name; None where there is no certificate, or it is nobody's.
    fn by_name(&self, certificate: Option<&[u8]>) -> Option<u32>
        ensures { result ≡ by_name self.now.certificates.items (option_copied certificate.entry) }
    {
        match certificate {
            None => None,
            Some(name) => customer_of_name(&self.certificates, name),
        }
    }

    /// The customer of the closest network that has this address; else the guest of the address.
    fn by_address(&self, address: Address) -> Who
        ensures { result ≡ by_address self.now.networks.items address }
    {
        match closest(&self.networks, address) {
            Some(key) => Who::Named(key.customer),
            None => address.guest(),
        }
    }
}

/// The customer of the first token of this digest.
pub(crate) fn customer_of_digest(keys: &[TokenKey], digest: &[u8; 32]) -> Option<u32>
    ensures { result ≡ customer_of_digest digest.now keys.now }
{
    for key in keys {
        if key.digest == *digest {
            return Some(key.customer);
        }
    }
    None
}

/// The customer of the first certificate of this name.
pub(crate) fn customer_of_name(keys: &[CertificateKey], name: &[u8]) -> Option<u32>
    ensures { result ≡ customer_of_name name.now keys.now }
{
    for key in keys {
        if key.name.as_bytes() == name {
            return Some(key.customer);
        }
    }
    None
}

/// The first key of those whose network has the address and fixes the most bits of it.
fn closest(keys: &[NetworkKey], address: Address) -> Option<NetworkKey>
    ensures { result ≡ closest address keys.now }
{
    let mut best = None;
    for key in keys {
        if key.network.has(address) {
            best = closer(best, *key);
        }
    }
    best
}

/// The key of more bits; the first where both have as many.
fn closer(best: Option<NetworkKey>, key: NetworkKey) -> Option<NetworkKey>
    ensures { result ≡ closer best (Some key) }
{
    match best {
        Some(other) if other.network.bits() >= key.network.bits() => best,
        _ => Some(key),
    }
}
