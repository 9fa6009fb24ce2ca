//! What a site looks up in its file: customers' names, keys, rates and homes.
ghost use Rattle.std.specs.Prelude.{◌≡◌, option_copied};
ghost use Rattle.site_file.specs.Keys.{who_of};
ghost use Rattle.site_file.specs.Terms.{terms_of};

use crate::address::Address;
use crate::keys::Keys;
use crate::rate::Rate;
use site_book::Who;

/// What the file says of a customer beside its budget.
#[derive(Drop)]
pub struct Terms {
    /// Its name.
    pub name: String,
    /// The connections that it may have at once, with and without a session.
    pub connections: u32,
    /// How many lines it may send in a time.
    pub rate: Rate,
    /// The number of the hall where its sessions are, from 0. Of guests nothing is said by it: an address has its hall.
    pub hall: u32,
}

/// What a site looks up in the file.
#[derive(Drop)]
pub struct Directory {
    /// The named customers, by their numbers.
    pub customers: Vec<Terms>,
    /// Each guest.
    pub guest: Terms,
    /// The customers' keys.
    pub keys: Keys,
}

impl Directory {
    /// Who a connection is: the customer of its token, if it gave one; else that of its certificate's name; else that of the
    /// closest network that has its address; else the guest of its address. None where the token is none of the file's.
    pub fn who(
        &self,
        token: Option<&[u8]>,
        certificate: Option<&[u8]>,
        address: Address,
    ) -> Option<Who>
        ensures { result ≡ who_of self.now.keys.tokens.items self.now.keys.certificates.items self.now.keys.networks.items (option_copied token.entry) (option_copied certificate.entry) address }
    {
        match token {
            None => Some(self.keys.by_connection(certificate, address)),
            Some(token) => self.keys.by_token(token),
        }
    }

    /// What the file says of a customer; of a guest, what it says of each.
    pub fn terms(&self, who: Who) -> &Terms
        ensures { result.now ≡ terms_of self.now.customers.items self.now.guest who }
    {
        terms_in(&self.customers, &self.guest, who)
    }
}

/// What these customers' terms say of a customer; of a guest, what is said of each.
fn terms_in<'a>(customers: &'a [Terms], guest: &'a Terms, who: Who) -> &'a Terms
    ensures { result.now ≡ terms_of customers.now guest.now who }
{
    match who {
        Who::Named(number) => match customers.get(number as usize) {
            Some(terms) => terms,
            None => guest,
        },
        Who::V4(_) => guest,
        Who::V6(_) => guest,
    }
}
