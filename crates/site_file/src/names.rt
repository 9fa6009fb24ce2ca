//! The names of a site's customers, as people read them.
use crate::directory::Directory;
use site_book::Who;
use std::alloc::{AllocError, Global};
use std::net::{Ipv4Addr, Ipv6Addr};

impl Directory {
    /// The name of a customer; that of a guest is its address, or the network that its site has.
    pub fn name_of(&self, alloc: Global, who: Who) -> Result<String, AllocError> {
        match who {
            Who::Named(_) => self.terms(who).name.clone(),
            Who::V4(address) => {
                let ip = Ipv4Addr::from_octets(address.to_be_bytes());
                format!(in alloc; "guest {ip}")
            }
            Who::V6(network) => {
                let ip = Ipv6Addr::from_octets(with_zeros(network));
                format!(in alloc; "guest {ip}/64")
            }
        }
    }
}

/// The bytes of an address of IPv6 whose last 64 bits are 0.
fn with_zeros(network: u64) -> [u8; 16] {
    let mut octets = [0; 16];
    octets[..8].copy_from_slice(&network.to_be_bytes());
    octets
}
