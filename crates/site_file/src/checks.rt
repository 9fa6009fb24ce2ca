//! What the directory of customers in a site's file may not say.
ghost use Rattle.std.specs.Prelude.{◌≡◌, IfOk, IfErr, Some, None};
ghost use Rattle.site_file.specs.Checks.{are_fit_terms, fault_of, first_keyless, has_certificate, has_key, has_network, has_token, is_fit_rate, repeated_certificate, repeated_network, repeated_token, same_network, shared_key};

use crate::address::Network;
use crate::directory::{Directory, Terms};
use crate::keys::{
    CertificateKey, Keys, NetworkKey, TokenKey, customer_of_digest, customer_of_name,
};
use crate::rate::Rate;

/// What can't stand in a directory.
#[derive(Clone, Copy)]
pub enum DirectoryFault {
    /// A customer, or each guest, may never send a line.
    Rates,
    /// The customer of this number has no key.
    Keyless(usize),
    /// A key of the customer of this number stands twice.
    Shared(u32),
}

/// A directory that can't be gone by, and the first of its faults.
#[derive(Drop)]
pub struct FaultyDirectory {
    /// The directory.
    pub directory: Directory,
    /// Its first fault.
    pub fault: DirectoryFault,
}

impl Directory {
    /// The same directory, where it has no fault; else the directory with its first fault.
    pub fn checked(self) -> Result<Directory, FaultyDirectory>
        ensures same { IfOk result (λ same. same ≡ self) }
        ensures faultless { IfOk result (λ same. fault_of same.customers.items same.guest same.keys ≡ None) }
        ensures kept { IfErr result (λ faulty. faulty.directory ≡ self) }
        ensures fault { IfErr result (λ faulty. fault_of faulty.directory.customers.items faulty.directory.guest faulty.directory.keys ≡ Some faulty.fault) }
    {
        match self.fault() {
            Some(fault) => Err(FaultyDirectory {
                directory: self,
                fault,
            }),
            None => Ok(self),
        }
    }

    /// The first fault of a directory; None where it has none.
    fn fault(&self) -> Option<DirectoryFault>
        ensures { result ≡ fault_of self.now.customers.items self.now.guest self.now.keys }
    {
        if !is_fit_rate(self.guest.rate) || !are_fit_terms(&self.customers) {
            return Some(DirectoryFault::Rates);
        }
        if let Some(number) = first_keyless(&self.customers, &self.keys) {
            return Some(DirectoryFault::Keyless(number));
        }
        if let Some(number) = shared_key(&self.keys) {
            return Some(DirectoryFault::Shared(number));
        }
        None
    }
}

/// Whether a rate lets lines pass at all: its period is above 0, and so is the count that may come at once.
fn is_fit_rate(rate: Rate) -> bool
    ensures { result ≡ is_fit_rate rate }
{
    rate.period > 0 && rate.burst > 0
}

/// Whether each customer's rate lets lines pass at all.
fn are_fit_terms(customers: &[Terms]) -> bool
    ensures { result ≡ are_fit_terms customers.now }
{
    for terms in customers {
        if !is_fit_rate(terms.rate) {
            return false;
        }
    }
    true
}

/// The number of the first customer that has no key.
fn first_keyless(customers: &[Terms], keys: &Keys) -> Option<usize>
    ensures { result ≡ first_keyless customers.now 0 keys.now }
{
    for (number, _) in customers.iter().enumerate() {
        if !has_key(keys, number) {
            return Some(number);
        }
    }
    None
}

/// Whether the customer of this number has a key.
fn has_key(keys: &Keys, number: usize) -> bool
    ensures { result ≡ has_key number keys.now }
{
    has_token(&keys.tokens, number)
        || has_certificate(&keys.certificates, number)
        || has_network(&keys.networks, number)
}

/// Whether the customer of this number has a token.
fn has_token(keys: &[TokenKey], number: usize) -> bool
    ensures { result ≡ has_token number keys.now }
{
    for key in keys {
        if key.customer as usize == number {
            return true;
        }
    }
    false
}

/// Whether the customer of this number has a certificate.
fn has_certificate(keys: &[CertificateKey], number: usize) -> bool
    ensures { result ≡ has_certificate number keys.now }
{
    for key in keys {
        if key.customer as usize == number {
            return true;
        }
    }
    false
}

/// Whether the customer of this number has a network.
fn has_network(keys: &[NetworkKey], number: usize) -> bool
    ensures { result ≡ has_network number keys.now }
{
    for key in keys {
        if key.customer as usize == number {
            return true;
        }
    }
    false
}

/// The customer of a key that stands twice.
fn shared_key(keys: &Keys) -> Option<u32>
    ensures { result ≡ shared_key keys.now }
{
    if let Some(number) = repeated_token(&keys.tokens) {
        return Some(number);
    }
    if let Some(number) = repeated_certificate(&keys.certificates) {
        return Some(number);
    }
    repeated_network(&keys.networks)
}

/// The customer of the second of two tokens that are the same.
fn repeated_token(keys: &[TokenKey]) -> Option<u32>
    ensures { result ≡ repeated_token keys.now }
{
    for (place, key) in keys.iter().enumerate() {
        if let Some(number) = customer_of_digest(&keys[place + 1..], &key.digest) {
            return Some(number);
        }
    }
    None
}

/// The customer of the second of two certificates of the same name.
fn repeated_certificate(keys: &[CertificateKey]) -> Option<u32>
    ensures { result ≡ repeated_certificate keys.now }
{
    for (place, key) in keys.iter().enumerate() {
        if let Some(number) = customer_of_name(&keys[place + 1..], key.name.as_bytes()) {
            return Some(number);
        }
    }
    None
}

/// The customer of the second of two networks that are the same.
fn repeated_network(keys: &[NetworkKey]) -> Option<u32>
    ensures { result ≡ repeated_network keys.now }
{
    for (place, key) in keys.iter().enumerate() {
        if let Some(number) = same_network(&keys[place + 1..], key.network) {
            return Some(number);
        }
    }
    None
}

/// The customer of the first key of this network.
fn same_network(keys: &[NetworkKey], network: Network) -> Option<u32>
    ensures { result ≡ same_network network keys.now }
{
    for key in keys {
        if key.network.is(network) {
            return Some(key.customer);
        }
    }
    None
}
