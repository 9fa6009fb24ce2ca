//! The book of reservations: which of a core's segments and nodes each tenant reserved and has used.
ghost use Rattle.std.specs.Prelude.{◌≡◌, ℕ, ◌+◌, ◌<◌, ◌≤◌, ◌↔◌, IfOk, OnOk, OnErr, IsOk, IsSome, IfSome, option_copied, option_map, length, nat_lt};
ghost use Rattle.tenant_quota.specs.Accounts.{account_of};

use crate::account::{Account, Left};
use crate::refusal::QuotaRefusal;
use crate::reserve::Reserve;
use numbered_list::NumberedList;
use std::alloc::{AllocError, Allocator, Global};
use std::marker::Model;

/// The number of places for tenants.
const PLACES: usize = 64;

/// What isn't reserved yet.
#[derive(Clone, Copy, Debug, PartialEq, Eq)]
pub struct Rest {
    /// Places for tenants, of 64.
    pub tenants: u32,
    /// Segments of the total.
    pub segments: u32,
    /// Nodes of the total.
    pub nodes: u32,
}

/// A book of reservations of segments (of 16 words) and nodes, with places for 64 tenants.
///
/// A tenant is named by any number. Whether a call for a tenant is refused depends on its own account alone; only
/// [`Book::reserve`] and [`Book::raise`] look at the totals too. A refused call changes nothing.
#[derive(Debug, Drop)]
pub struct Book<A: Allocator = Global> {
    // The totals.
    segments: u32,
    nodes: u32,
    // What all tenants together have reserved.
    reserved_segments: u32,
    reserved_nodes: u32,
    accounts: NumberedList<(u64, Account), A>,
}

// Clauses see the totals and the accounts in rising order of tenants.
impl<A: Allocator> Model for Book<A> {
    ghost use Rattle.tenant_quota.specs.Reservations.{Reservations};

    ghost Value = { Reservations };

    ghost use Rattle.tenant_quota.specs.Keeping.{held_by, IsKeptBook};

    ghost view = { λ book. held_by book };

    ghost invariant = { λ book. IsKeptBook book };
}

impl<A: Allocator> Book<A> {
    ghost use Rattle.tenant_quota.specs.Accounts.{fresh, raised_to, charged_by, credited_by, ticked, charged_segments};
    ghost use Rattle.tenant_quota.specs.Reservations.{empty_of, left_in_book, opened_of, reserve_of, unreserved_of, HasRoom, IsFull, CanRaise, IsTooMuch, IsLower, HasLeft, IsShort, HasStepLeft, IsOutOfSteps, HasChargedAtLeast, KeepsOtherAccounts, Admits, Raises, ChangesOnly, Releases, IsSoundBook};

    /// A book of `segments` segments (1 to 65,536) and `nodes` nodes (1 to 4,194,304) in all, with no tenant. It takes
    /// memory for the accounts of 64 tenants, and no other call takes any. Err where the allocator refuses it.
    pub fn new(alloc: A, segments: u32, nodes: u32) -> Result<Book<A>, AllocError>
        requires some_segments { 1 ≤ segments }
        requires segments_within { segments ≤ 65536 }
        requires some_nodes { 1 ≤ nodes }
        requires nodes_within { nodes ≤ 4194304 }
        ensures empty { IfOk result (λ book. book ≡ empty_of segments nodes) }
        ensures sound { IfOk result IsSoundBook }
    {
        let accounts = NumberedList::new(alloc)?;
        Ok(Book {
            segments,
            nodes,
            reserved_segments: 0,
            reserved_nodes: 0,
            accounts,
        })
    }

    /// Enters a new tenant with what it reserves.
    ///
    /// Refused as `Full` exactly where 64 tenants are there or a total doesn't allow the reservation.
    pub fn reserve(&mut self, tenant: u64, reserve: Reserve) -> Result<(), QuotaRefusal>
        requires { account_of tenant self.old.accounts ≡ None }
        ensures ok { IsOk result ↔ HasRoom self.old reserve }
        ensures full { (result ≡ Err QuotaRefusal.Full) ↔ IsFull self.old reserve }
        ensures admits { OnOk result (Admits self.old self.new tenant reserve) }
        ensures others { KeepsOtherAccounts self.old self.new tenant }
        ensures err { OnErr result (self.new ≡ self.old) }
        ensures sound { IsSoundBook self.new }
    {
        let rest = self.rest();
        let segments = reserve.segments();
        let nodes = reserve.nodes();
        if rest.tenants == 0 || rest.segments < segments || rest.nodes < nodes {
            return Err(QuotaRefusal::Full);
        }
        self.accounts.insert((tenant, Account::new(reserve)));
        self.reserved_segments += segments;
        self.reserved_nodes += nodes;
        Ok(())
    }

    /// Raises what the tenant has reserved to this. What it has used stays.
    ///
    /// Refused as `Lower` exactly where an amount is below what is reserved, or neither is above it; else as `Full`
    /// exactly where a total doesn't allow it in the place of what is reserved. How many tenants are there doesn't
    /// matter.
    pub fn raise(&mut self, tenant: u64, reserve: Reserve) -> Result<(), QuotaRefusal>
        requires { IsSome (account_of tenant self.old.accounts) }
        ensures ok { IsOk result ↔ CanRaise self.old tenant reserve }
        ensures lower { (result ≡ Err QuotaRefusal.Lower) ↔ IsLower self.old tenant reserve }
        ensures full { (result ≡ Err QuotaRefusal.Full) ↔ IsTooMuch self.old tenant reserve }
        ensures raises { OnOk result (
            IfSome (reserve_of tenant self.old) (Raises self.old self.new tenant reserve)) }
        ensures others { KeepsOtherAccounts self.old self.new tenant }
        ensures err { OnErr result (self.new ≡ self.old) }
        ensures sound { IsSoundBook self.new }
    {
        let rest = self.rest();
        let account = &mut self.accounts.get_mut(tenant).1;
        let now = account.reserve;
        if !reserve.is_above(&now) {
            return Err(QuotaRefusal::Lower);
        }
        let segments = reserve.segments() - now.segments();
        let nodes = reserve.nodes() - now.nodes();
        if rest.segments < segments || rest.nodes < nodes {
            return Err(QuotaRefusal::Full);
        }
        account.reserve = reserve;
        self.reserved_segments += segments;
        self.reserved_nodes += nodes;
        Ok(())
    }

    /// Charges the tenant `segments` segments, and counts `nodes` newly opened nodes.
    ///
    /// Refused as `Short` exactly where the tenant hasn't as many segments or nodes left.
    pub fn charge(&mut self, tenant: u64, segments: u32, nodes: u32) -> Result<(), QuotaRefusal>
        requires { IsSome (account_of tenant self.old.accounts) }
        ensures ok { IsOk result ↔ HasLeft self.old tenant segments nodes }
        ensures short { (result ≡ Err QuotaRefusal.Short) ↔ IsShort self.old tenant segments nodes }
        ensures charges { OnOk result (ChangesOnly self.old self.new tenant (charged_by segments nodes)) }
        ensures sum { OnOk result (
            charged_segments self.new.accounts ≡ charged_segments self.old.accounts + segments) }
        ensures others { KeepsOtherAccounts self.old self.new tenant }
        ensures err { OnErr result (self.new ≡ self.old) }
        ensures sound { IsSoundBook self.new }
    {
        self.charge_nodes(tenant, segments, nodes)?;
        Ok(())
    }

    /// Charges the tenant `segments` segments for a newly opened node, and returns how many nodes it had opened
    /// before.
    ///
    /// Refused as `Short` exactly where the tenant hasn't as many segments left, or no node.
    pub fn open(&mut self, tenant: u64, segments: u32) -> Result<u32, QuotaRefusal>
        requires { IsSome (account_of tenant self.old.accounts) }
        ensures ok { IsOk result ↔ HasLeft self.old tenant segments 1 }
        ensures short { (result ≡ Err QuotaRefusal.Short) ↔ IsShort self.old tenant segments 1 }
        ensures opened { IfOk result (λ before. opened_of tenant self.old ≡ Some before) }
        ensures charges { OnOk result (ChangesOnly self.old self.new tenant (charged_by segments 1)) }
        ensures sum { OnOk result (
            charged_segments self.new.accounts ≡ charged_segments self.old.accounts + segments) }
        ensures others { KeepsOtherAccounts self.old self.new tenant }
        ensures err { OnErr result (self.new ≡ self.old) }
        ensures sound { IsSoundBook self.new }
    {
        self.charge_nodes(tenant, segments, 1)
    }

    /// Gives back `segments` of the segments that the tenant is charged. Its nodes stay opened.
    pub fn give_back(&mut self, tenant: u64, segments: u32)
        requires { HasChargedAtLeast self.old tenant segments }
        ensures credits { ChangesOnly self.old self.new tenant (credited_by segments) }
        ensures sum { charged_segments self.new.accounts + segments ≡ charged_segments self.old.accounts }
        ensures others { KeepsOtherAccounts self.old self.new tenant }
        ensures sound { IsSoundBook self.new }
    {
        self.accounts.get_mut(tenant).1.charged -= segments;
    }

    /// Counts one step of the tenant.
    ///
    /// Refused as `Short` exactly where the tenant has no step left.
    pub fn tick(&mut self, tenant: u64) -> Result<(), QuotaRefusal>
        requires { IsSome (account_of tenant self.old.accounts) }
        ensures ok { IsOk result ↔ HasStepLeft self.old tenant }
        ensures short { (result ≡ Err QuotaRefusal.Short) ↔ IsOutOfSteps self.old tenant }
        ensures ticks { OnOk result (ChangesOnly self.old self.new tenant ticked) }
        ensures sum { charged_segments self.new.accounts ≡ charged_segments self.old.accounts }
        ensures others { KeepsOtherAccounts self.old self.new tenant }
        ensures err { OnErr result (self.new ≡ self.old) }
        ensures sound { IsSoundBook self.new }
    {
        let account = &mut self.accounts.get_mut(tenant).1;
        if account.left().steps == 0 {
            return Err(QuotaRefusal::Short);
        }
        account.ticks += 1;
        Ok(())
    }

    /// Takes the tenant out of the book. What it had reserved is free again.
    pub fn release(&mut self, tenant: u64)
        requires { IsSome (account_of tenant self.old.accounts) }
        ensures releases { IfSome (account_of tenant self.old.accounts) (Releases self.old self.new tenant) }
        ensures others { KeepsOtherAccounts self.old self.new tenant }
        ensures sound { IsSoundBook self.new }
    {
        let (_, account) = self.accounts.remove(tenant);
        self.reserved_segments -= account.reserve.segments();
        self.reserved_nodes -= account.reserve.nodes();
    }

    /// What the tenant has left, or None where it isn't there.
    pub fn left(&self, tenant: u64) -> Option<Left>
        ensures left { result ≡ left_in_book tenant self.now }

        // The segments that a tenant has left are free, whatever others are charged.
        ensures there { IfSome result (λ left.
            charged_segments self.now.accounts + left.segments ≤ self.now.segments) }
        ensures sound { IsSoundBook self.now }
    {
        let account = self.account(tenant)?;
        Some(account.left())
    }

    /// What the tenant has reserved, or None where it isn't there.
    pub fn reserved(&self, tenant: u64) -> Option<Reserve>
        ensures reserved { result ≡ reserve_of tenant self.now }
        ensures sound { IsSoundBook self.now }
    {
        let account = self.account(tenant)?;
        Some(account.reserve)
    }

    /// What is left of the book's places, segments and nodes for further reservations.
    pub fn rest(&self) -> Rest
        ensures rest { result ≡ unreserved_of self.now }
        ensures sound { IsSoundBook self.now }
    {
        Rest {
            tenants: (PLACES - self.accounts.len()) as u32,
            segments: self.segments - self.reserved_segments,
            nodes: self.nodes - self.reserved_nodes,
        }
    }

    /// Charges the tenant `segments` segments, counts `nodes` newly opened nodes, and returns how many it had opened
    /// before. Refused as `Short` exactly where the tenant hasn't as many segments or nodes left.
    fn charge_nodes(&mut self, tenant: u64, segments: u32, nodes: u32) -> Result<u32, QuotaRefusal>
        requires { IsSome (account_of tenant self.old.accounts) }
        ensures ok { IsOk result ↔ HasLeft self.old tenant segments nodes }
        ensures short { (result ≡ Err QuotaRefusal.Short) ↔ IsShort self.old tenant segments nodes }
        ensures opened { IfOk result (λ before. opened_of tenant self.old ≡ Some before) }
        ensures charges { OnOk result (ChangesOnly self.old self.new tenant (charged_by segments nodes)) }
        ensures sum { OnOk result (charged_segments self.new.accounts ≡ charged_segments self.old.accounts + segments) }
        ensures others { KeepsOtherAccounts self.old self.new tenant }
        ensures err { OnErr result (self.new ≡ self.old) }
        ensures sound { IsSoundBook self.new }
    {
        let account = &mut self.accounts.get_mut(tenant).1;
        let left = account.left();
        if left.segments < segments || left.nodes < nodes {
            return Err(QuotaRefusal::Short);
        }
        let before = account.opened;
        account.charged += segments;
        account.opened += nodes;
        Ok(before)
    }

    /// The tenant's account, or None where it isn't there.
    #[inline(always)]
    fn account(&self, tenant: u64) -> Option<&Account>
        ensures account { option_copied result ≡ account_of tenant self.now.accounts }
        ensures sound { IsSoundBook self.now }
    {
        match self.accounts.get(tenant) {
            Some(entry) => Some(&entry.1),
            None => None,
        }
    }
}
