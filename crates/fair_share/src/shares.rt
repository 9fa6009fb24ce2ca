//! Who comes next, where many share a pool: the least served, and each fourth time who has waited longest.
//!
//! A [`FairShare`] knows up to 64 tenants, each of a network of a customer, and what each tenant, each network and each customer was
//! served, in whatever unit the caller counts. It is told who has something to be done ([`FairShare::see`]) and what was done
//! ([`FairShare::charge`]), and it says who comes next ([`FairShare::pick`]): of the customers with something to be done the one that
//! was served least, of its networks likewise, and of that network's tenants likewise. So neither 30 sessions nor 60 addresses are 30
//! or 60 shares. Where two were served as much, it is who has waited for longer. (The field calls it start-time
//! fair queueing, by Goyal, Vin and Cheng 1996, in a hierarchy; stride scheduling, by Waldspurger and Weihl 1995, is its kin.)
//!
//! **What the values stand for.** Three lines of 64 accounts (`specs/Lines.antt`): customers, their networks, and the networks' tenants. An
//! account has a name, the group in which it shares (a network's is its customer's place), what it was served, and the turn since when it
//! waits: at which it became active, or was last served. Who becomes active starts at the greater of its own count and the least active one's of its group: so nobody
//! saves up by doing nothing, and nobody who comes back is behind. A customer's count outlives its tenants; those of networks and
//! tenants end with them.
//!
//! - A call looks at 64 accounts at most, in three lines that lie close together. Only [`FairShare::new`] takes memory.
//! - A count stays at 2^64 - 1: at 500 million positions a second after a thousand years. From then on nobody is served less.
//! - A pick has to cost something, or it would be picked for ever: a caller counts at least 1 for a task.
//! - Who comes anew starts level with the least served, so where they keep coming one that was served more would wait for ever: each
//!   fourth pick ([`FairShare::count`]) is for the tenant that has waited longest since it was last served, in whatever group.
//!
//! ```text
//! let mut shares = FairShare::new(alloc, 40)?;                  // customers 0 to 39
//! let place = shares.enter(7, 0, network)?;                     // tenant 7 of customer 0
//! shares.see(place, true);                                      // it has something to be done
//! shares.pick() == Some(place)
//! shares.charge(place, 1_000);                                  // and that was done
//! ```
ghost use Rattle.std.specs.Prelude.{◌≡◌, ◌+◌, ◌-◌, ◌<◌, ◌^◌, Some, None, false, IfOk, IfSome, IfNone};
ghost use Rattle.fair_share.specs.Accounts.{free_account};
ghost use Rattle.fair_share.specs.Lines.{account_at, place_named};
ghost use Rattle.fair_share.specs.Shares.{new_shares, tenant_in_place, pick_counted, IsPick, IsNobody, IsLeastServed, IsNobodyLeast, woken_all, rested_all, tenant_seen, served_all, tenant_entered, entered_place, customer_freed, network_freed, left_all};

use crate::account::{ShareAccount, capped_sum};
use crate::line::ShareLine;
use std::alloc::{AllocError, Global};
use std::marker::Model;

/// Each so many-th pick is of who has waited longest.
const LONGEST_EACH: u8 = 4;

/// Who shares a pool: up to 64 tenants, each of a network of a customer, and what each of these was served.
#[derive(Drop)]
pub struct FairShare {
    customers: ShareLine,
    networks: ShareLine,
    tenants: ShareLine,
    kept: Vec<u64>,
    /// How many picks there were since the last that was of who had waited longest.
    picks: u8,
}

// Clauses see the three lines, what is kept of customers that aren't there, and the number of picks.
impl Model for FairShare {
    ghost use Rattle.fair_share.specs.Shares.{SharesOf};

    ghost Value = { SharesOf };

    ghost view = { λ f. record { customers = f.customers; networks = f.networks; tenants = f.tenants; kept = f.kept.items; picks = f.picks } };
}

impl FairShare {
    /// A pool that nobody shares yet, for the customers from number 0 to before this, who were served nothing so far.
    /// It takes all memory, and no other call takes any. Err where the allocator refuses it.
    pub fn new(alloc: Global, customers: usize) -> Result<FairShare, AllocError>
        ensures { IfOk result (λ shares. shares ≡ new_shares customers) }
    {
        let mut kept = Vec::with_capacity(alloc, customers)?;
        for _customer in 0..customers {
            kept.push_reserved(0);
        }
        Ok(FairShare {
            customers: ShareLine::new(alloc)?,
            networks: ShareLine::new(alloc)?,
            tenants: ShareLine::new(alloc)?,
            kept,
            picks: 0,
        })
    }

    /// A tenant comes, of this network of the customer of this number. Returns its place; None where no place is free.
    ///
    /// A customer begins with what it was served before; one whose number is beyond those it was made for begins with nothing each time.
    pub fn enter(&mut self, tenant: u64, customer: u32, network: u64) -> Option<usize>
        ensures place { result ≡ entered_place tenant customer network self.old }
        ensures shares { self.new ≡ tenant_entered tenant customer network self.old }
    {
        let number = customer as usize;
        let served = if number < self.kept.len() {
            self.kept[number]
        } else {
            0
        };
        let customer = self.customers.join(0, u64::from(customer) + 1, served)?;
        let network = self.networks.join(customer, capped_sum(network, 1), 0)?;
        self.tenants.join(network, tenant, 0)
    }

    /// The tenant at a place leaves. The places of its network and of its customer are freed once nobody of them is
    /// there. Nothing changes where the place is free.
    pub fn leave(&mut self, place: usize)
        ensures { self.new ≡ left_all place self.old }
    {
        let tenant = self.tenants.at(place);
        if tenant.name == 0 {
            return;
        }
        let network = tenant.group;
        let customer = self.networks.at(network).group;
        self.rest(place);
        self.tenants.put(place, ShareAccount::nobody());
        self.free_network(network, customer);
    }

    /// Notes whether the tenant at a place has a ready frame. Nothing changes where the place is free.
    pub fn see(&mut self, place: usize, is_ready: bool)
        ensures { self.new ≡ tenant_seen place is_ready self.old }
    {
        if is_ready {
            self.wake(place);
        } else {
            self.rest(place);
        }
    }

    /// The tenant at a place was served so much more.
    pub fn charge(&mut self, place: usize, amount: u64)
        ensures { self.new ≡ served_all place amount self.old }
    {
        let tenant = self.tenants.at(place);
        if tenant.name == 0 {
            return;
        }
        let network = tenant.group;
        let customer = self.networks.at(network).group;
        self.customers.charge(customer, amount);
        self.networks.charge(network, amount);
        self.tenants.charge(place, amount);
    }

    /// There is one more pick. Each fourth is of who has waited longest.
    pub fn count(&mut self)
        ensures { self.new ≡ pick_counted self.old }
    {
        self.picks = if self.picks < LONGEST_EACH - 1 {
            self.picks + 1
        } else {
            0
        };
    }

    /// The place of the tenant that comes next: who has waited longest, each fourth time, and else who was served least.
    pub fn pick(&self) -> Option<usize>
        ensures picked { IfSome result (IsPick self.now) }
        ensures nobody { IfNone result (IsNobody self.now) }
    {
        if self.picks == 0 {
            self.tenants.longest()
        } else {
            self.least_served()
        }
    }

    /// The place of the tenant that was served least, by its customer, then its network; None where nobody is active.
    fn least_served(&self) -> Option<usize>
        ensures picked { IfSome result (IsLeastServed self.now) }
        ensures nobody { IfNone result (IsNobodyLeast self.now) }
    {
        let customer = self.customers.next(0)?;
        let network = self.networks.next(customer)?;
        self.tenants.next(network)
    }

    /// The place of a tenant among those who share; None where it isn't there.
    pub fn place_of(&self, tenant: u64) -> Option<usize>
        ensures { result ≡ place_named tenant self.now.tenants.accounts }
    {
        self.tenants.place_named(tenant)
    }

    /// The tenant at a place; 0 where it is free.
    pub fn tenant_at(&self, place: usize) -> u64
        ensures { result ≡ (tenant_in_place self.now place).name }
    {
        self.tenants.name_at(place)
    }

    /// A tenant gets a ready frame: it becomes active, and with it its network and its customer.
    fn wake(&mut self, place: usize)
        ensures { self.new ≡ woken_all place self.old }
    {
        let tenant = self.tenants.at(place);
        if tenant.name == 0 || tenant.is_active() {
            return;
        }
        let network = tenant.group;
        let customer = self.networks.at(network).group;
        if !self.networks.has_rival(customer) {
            self.customers.wake(customer);
        }
        if !self.tenants.has_rival(network) {
            self.networks.wake(network);
        }
        self.tenants.wake(place);
    }

    /// A tenant has no ready frame any more: it rests, and with it its network and its customer, where nobody else of
    /// them is active.
    fn rest(&mut self, place: usize)
        ensures { self.new ≡ rested_all place self.old }
    {
        let tenant = self.tenants.at(place);
        if tenant.name == 0 {
            return;
        }
        let network = tenant.group;
        let customer = self.networks.at(network).group;
        self.tenants.rest(place);
        if !self.tenants.has_rival(network) {
            self.networks.rest(network);
        }
        if !self.networks.has_rival(customer) {
            self.customers.rest(customer);
        }
    }

    /// Frees a network's place where no tenant of it is there any more, and then perhaps its customer's.
    fn free_network(&mut self, network: usize, customer: usize)
        ensures { self.new ≡ network_freed network customer self.old }
    {
        if self.tenants.has_member(network) {
            return;
        }
        self.networks.put(network, ShareAccount::nobody());
        self.free_customer(customer);
    }

    /// Frees a customer's place where no network of it is there any more, and keeps how much it was served, unless its
    /// number is beyond those that the pool was made for.
    fn free_customer(&mut self, place: usize)
        ensures { self.new ≡ customer_freed place self.old }
    {
        if self.networks.has_member(place) {
            return;
        }
        let account = self.customers.at(place);
        let number = account.name.saturating_sub(1) as usize;
        if number < self.kept.len() {
            self.kept[number] = account.served;
        }
        self.customers.put(place, ShareAccount::nobody());
    }
}
