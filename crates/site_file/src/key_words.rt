//! The keys in a customer's table of a site's file: tokens, certificates, networks.
use crate::faults::FileFault;
use crate::keys::{CertificateKey, Keys, NetworkKey, TokenKey};
use crate::parsing::{digest_of, network_of};
use crate::section::{Section, text_of};
use std::alloc::Global;

/// The keys of a file that has none yet.
pub(crate) fn no_keys(alloc: Global) -> Keys {
    Keys {
        tokens: Vec::new(alloc),
        certificates: Vec::new(alloc),
        networks: Vec::new(alloc),
    }
}

/// Adds all keys of a customer's table.
pub(crate) fn read_keys(
    keys: &mut Keys,
    section: &Section<'_>,
    customer: u32,
) -> Result<(), FileFault> {
    read_tokens(&mut keys.tokens, section, customer)?;
    read_certificates(&mut keys.certificates, section, customer)?;
    read_networks(&mut keys.networks, section, customer)
}

/// Adds the digests of a customer's tokens.
fn read_tokens(
    keys: &mut Vec<TokenKey>,
    section: &Section<'_>,
    customer: u32,
) -> Result<(), FileFault> {
    let what = "is to be a list of digests of 64 hexadecimal digits";
    for value in section.list("token_sha256", what)? {
        match digest_of(text_of(value).as_bytes()) {
            Some(digest) => keys.push(TokenKey { digest, customer })?,
            None => return Err(section.told("token_sha256", what)),
        }
    }
    Ok(())
}

/// Adds the names in a customer's certificates.
fn read_certificates(
    keys: &mut Vec<CertificateKey>,
    section: &Section<'_>,
    customer: u32,
) -> Result<(), FileFault> {
    let what = "is to be a list of names";
    for value in section.list("certificate", what)? {
        let name = text_of(value);
        if name.trim().is_empty() {
            return Err(section.told("certificate", what));
        }
        let name = String::from_str(section.alloc, name)?;
        keys.push(CertificateKey { name, customer })?;
    }
    Ok(())
}

/// Adds the networks from which a customer comes.
fn read_networks(
    keys: &mut Vec<NetworkKey>,
    section: &Section<'_>,
    customer: u32,
) -> Result<(), FileFault> {
    let what = "is to be a list of addresses or networks, as \"203.0.113.0/24\"";
    for value in section.list("address", what)? {
        match network_of(text_of(value)) {
            Some(network) => keys.push(NetworkKey { network, customer })?,
            None => return Err(section.told("address", what)),
        }
    }
    Ok(())
}
