//! As who a site's session shares the workers with others.
ghost use Rattle.std.specs.Prelude.{◌≡◌};
ghost use Rattle.fair_share.specs.Shares.{tenant_entered};
ghost use Rattle.site_desk.specs.Sharing.{share_customer, share_network, unshared};

use fair_share::FairShare;
use site_book::Who;

/// The first 16 bits of the addresses of IPv6 that 6to4 makes of those of IPv4, at their place in the first 64.
const SIX_TO_FOUR: u64 = 0x2002_0000_0000_0000;

/// The customer as whom a session shares: 0 of all guests, and of the named one at a place the next number.
fn share_customer(who: Who) -> u32
    ensures { result ≡ share_customer who }
{
    match who {
        Who::Named(place) => place.saturating_add(1),
        Who::V4(_) => 0,
        Who::V6(_) => 0,
    }
}

/// The network under which a session shares the workers: a guest's is its 64 bits of IPv6, and of an address of IPv4
/// those of 6to4 (RFC 3056). A named customer has one.
fn share_network(who: Who) -> u64
    ensures { result ≡ share_network who }
{
    match who {
        Who::Named(_) => 0,
        Who::V4(address) => SIX_TO_FOUR + u64::from(address) * 65_536,
        Who::V6(network) => network,
    }
}

/// Lets a customer's tenant share the workers from now on.
pub(crate) fn share(shares: &mut FairShare, who: Who, tenant: u64)
    ensures { shares.new ≡ tenant_entered tenant (share_customer who) (share_network who) shares.old }
{
    let _place = shares.enter(tenant, share_customer(who), share_network(who));
}

/// A tenant that leaves shares the workers no more.
pub(crate) fn unshare(shares: &mut FairShare, tenant: u64)
    ensures { shares.new ≡ unshared tenant shares.old }
{
    if let Some(place) = shares.place_of(tenant) {
        shares.leave(place);
    }
}
