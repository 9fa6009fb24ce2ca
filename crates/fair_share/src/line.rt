//! A line of accounts: who shares a pool in some group, how much each was served, and who comes next there.
ghost use Rattle.std.specs.Prelude.{◌≡◌, ℕ, ◌+◌, ◌<◌, List, IfOk, IfNone, IfSome, false};
ghost use Rattle.fair_share.specs.declared.account.ShareAccount.{ShareAccount};
ghost use Rattle.fair_share.specs.Accounts.{is_active, is_rival};
ghost use Rattle.fair_share.specs.Lines.{empty_line, account_at, has_rival, IsNextAccount, IsBestBelow, IsLongest, IsLongestBelow, lesser, least_served, woken, rested_at, charged, put_at, account_place, place_named, place_among, joined_place, joined, has_member};

use crate::account::{ShareAccount, capped_sum};
use std::alloc::{AllocError, Global};
use std::marker::Model;

/// How many accounts a line has.
pub(crate) const PLACES: usize = 64;

/// 64 accounts by their places, and the turn at which the next one becomes active or is served.
#[derive(Drop)]
pub(crate) struct ShareLine {
    accounts: Vec<ShareAccount>,
    /// The accounts' names, side by side. A charge writes to no name, so that the search for one finds all of them in the cache of any
    /// processor, where the accounts are in that of the processor that charged last.
    names: Vec<u64>,
    turn: u64,
}

impl Model for ShareLine {
    ghost use Rattle.std.specs.Prelude.{◌≡◌, length};
    ghost use Rattle.fair_share.specs.Lines.{LineOf, account_names};

    ghost Value = { LineOf };

    ghost view = { λ l. record { accounts = l.accounts.items; turn = l.turn } };

    ghost invariant = { λ l. (length l.accounts.items ≡ 64) × (l.names.items ≡ account_names l.accounts.items) };
}

impl ShareLine {
    /// A line whose places are all free. Err where the allocator refuses its memory.
    pub(crate) fn new(alloc: Global) -> Result<ShareLine, AllocError>
        ensures { IfOk result (λ line. line ≡ empty_line) }
    {
        let mut accounts = Vec::with_capacity(alloc, PLACES)?;
        let mut names = Vec::with_capacity(alloc, PLACES)?;
        for _place in 0..PLACES {
            accounts.push_reserved(ShareAccount::nobody());
            names.push_reserved(0);
        }
        Ok(ShareLine {
            accounts,
            names,
            turn: 1,
        })
    }

    /// The account at a place of the line.
    pub(crate) fn at(&self, place: usize) -> ShareAccount
        ensures { result ≡ account_at self.now.accounts place }
    {
        if place < self.accounts.len() {
            self.accounts[place]
        } else {
            ShareAccount::nobody()
        }
    }

    /// The name of the account at a place; 0 where the place is free.
    #[tactic(auto, using(crate::proofs::NameLemmas::name_alike))]
    pub(crate) fn name_at(&self, place: usize) -> u64
        ensures { result ≡ (account_at self.now.accounts place).name }
    {
        if place < self.names.len() {
            self.names[place]
        } else {
            0
        }
    }

    /// Who comes next in a group; None where nobody is active there.
    pub(crate) fn next(&self, group: usize) -> Option<usize>
        ensures next { IfSome result (IsNextAccount group self.now.accounts) }
        ensures none { IfNone result ((other : ℕ) → is_rival group (account_at self.now.accounts other) ≡ false) }
    {
        next_in(&self.accounts, group)
    }

    /// Who has waited longest, in whatever group; None where nobody is active.
    pub(crate) fn longest(&self) -> Option<usize>
        ensures longest { IfSome result (IsLongest self.now.accounts) }
        ensures none { IfNone result ((other : ℕ) → is_active (account_at self.now.accounts other) ≡ false) }
    {
        longest_in(&self.accounts)
    }

    /// Whether somebody is active in a group.
    pub(crate) fn has_rival(&self, group: usize) -> bool
        ensures { result ≡ has_rival group self.now.accounts }
    {
        has_rival(&self.accounts, group)
    }

    /// Whether some account of the line is in this group.
    pub(crate) fn has_member(&self, group: usize) -> bool
        ensures { result ≡ has_member group self.now.accounts }
    {
        has_member(&self.accounts, group)
    }

    /// The first place whose account has this name in this group.
    pub(crate) fn place_of(&self, group: usize, name: u64) -> Option<usize>
        ensures { result ≡ account_place group name self.now.accounts }
    {
        place_of(&self.accounts, group, name)
    }

    /// The first place whose account has this name in any group.
    #[tactic(auto, using(crate::proofs::NameLemmas::place_alike))]
    pub(crate) fn place_named(&self, name: u64) -> Option<usize>
        ensures { result ≡ place_named name self.now.accounts }
    {
        place_among(&self.names, name)
    }

    /// The place of the account with this name and group: the one that it has; else a free one, at which it begins with
    /// so much served; None where no place is free.
    pub(crate) fn join(&mut self, group: usize, name: u64, served: u64) -> Option<usize>
        ensures place { result ≡ joined_place group name self.old }
        ensures line { self.new ≡ joined group name served self.old }
    {
        if let Some(place) = self.place_of(group, name) {
            return Some(place);
        }
        let place = self.place_of(0, 0)?;
        let account = ShareAccount {
            name,
            group,
            served,
            since: 0,
        };
        self.put(place, account);
        Some(place)
    }

    /// Makes the account at a place active, if it isn't: its user waits from now on.
    pub(crate) fn wake(&mut self, place: usize)
        ensures { self.new ≡ woken place self.old }
    {
        let account = self.at(place);
        if account.is_active() {
            return;
        }
        let floor = least_served(&self.accounts, account.group).unwrap_or(0);
        self.put(place, account.woken_from(floor, self.turn));
        self.turn = capped_sum(self.turn, 1);
    }

    /// Makes the account at a place inactive: its user has nothing more to be served with.
    pub(crate) fn rest(&mut self, place: usize)
        ensures { self.new ≡ rested_at place self.old }
    {
        self.put(place, self.at(place).rested());
    }

    /// Notes that the account at a place was served so much more.
    pub(crate) fn charge(&mut self, place: usize, amount: u64)
        ensures { self.new ≡ charged place amount self.old }
    {
        self.put(place, self.at(place).with_more(amount, self.turn));
        self.turn = capped_sum(self.turn, 1);
    }

    /// Puts another account at a place of the line.
    pub(crate) fn put(&mut self, place: usize, account: ShareAccount)
        ensures { self.new ≡ put_at place account self.old }
    {
        if place < self.accounts.len() {
            self.accounts[place] = account;
            if self.names[place] != account.name {
                self.names[place] = account.name;
            }
        }
    }
}

/// The place of who comes next in a group; None where nobody is active there.
fn next_in(accounts: &[ShareAccount], group: usize) -> Option<usize>
    ensures next { IfSome result (IsNextAccount group accounts.now) }
    ensures none { IfNone result ((other : ℕ) → is_rival group (account_at accounts.now other) ≡ false) }
{
    let mut best = None;
    for (place, account) in accounts.iter().enumerate() {
        best = better(best, group, place, *account);
    }
    match best {
        Some((place, _)) => Some(place),
        None => None,
    }
}

/// Of the best account found so far and the account at a place the one to be served first: an active account of this
/// group that was served less, or as much and waits for longer.
fn better(
    best: Option<(usize, ShareAccount)>,
    group: usize,
    place: usize,
    account: ShareAccount,
) -> Option<(usize, ShareAccount)>
    ensures { (accounts : List ShareAccount) → account ≡ account_at accounts place → IsBestBelow group accounts place best → IsBestBelow group accounts (place + 1) result }
{
    if !account.is_rival(group) {
        return best;
    }
    match best {
        Some((held, other)) => {
            if account.is_before(other) {
                Some((place, account))
            } else {
                Some((held, other))
            }
        }
        None => Some((place, account)),
    }
}

/// The place of who has waited longest; None where nobody is active.
fn longest_in(accounts: &[ShareAccount]) -> Option<usize>
    ensures longest { IfSome result (IsLongest accounts.now) }
    ensures none { IfNone result ((other : ℕ) → is_active (account_at accounts.now other) ≡ false) }
{
    let mut best = None;
    for (place, account) in accounts.iter().enumerate() {
        best = longer(best, place, *account);
    }
    match best {
        Some((place, _)) => Some(place),
        None => None,
    }
}

/// Of the account found so far and the account at a place the active one that has waited for longer.
fn longer(
    best: Option<(usize, ShareAccount)>,
    place: usize,
    account: ShareAccount,
) -> Option<(usize, ShareAccount)>
    ensures { (accounts : List ShareAccount) → account ≡ account_at accounts place → IsLongestBelow place accounts best → IsLongestBelow (place + 1) accounts result }
{
    if !account.is_active() {
        return best;
    }
    match best {
        Some((held, other)) => {
            if account.since < other.since {
                Some((place, account))
            } else {
                Some((held, other))
            }
        }
        None => Some((place, account)),
    }
}

/// Whether some account of a group is active.
fn has_rival(accounts: &[ShareAccount], group: usize) -> bool
    ensures { result ≡ has_rival group accounts.now }
{
    for account in accounts {
        if account.is_rival(group) {
            return true;
        }
    }
    false
}

/// Whether an account that isn't a free place's is of a group.
fn has_member(accounts: &[ShareAccount], group: usize) -> bool
    ensures { result ≡ has_member group accounts.now }
{
    for account in accounts {
        if account.name != 0 && account.group == group {
            return true;
        }
    }
    false
}

/// The lesser of a count and another count; the first where there is no other.
fn lesser(count: u64, other: Option<u64>) -> u64
    ensures { result ≡ lesser count other }
{
    match other {
        Some(other) => { if count < other { count } else { other } }
        None => count,
    }
}

/// The least that an active account of a group was served; None where none is active.
fn least_served(accounts: &[ShareAccount], group: usize) -> Option<u64>
    ensures { result ≡ least_served group accounts.now }
{
    let mut least = None;
    for account in accounts {
        if account.is_rival(group) {
            least = Some(lesser(account.served, least));
        }
    }
    least
}

/// The first place whose account has this name in this group.
fn place_of(accounts: &[ShareAccount], group: usize, name: u64) -> Option<usize>
    ensures { result ≡ account_place group name accounts.now }
{
    for (place, account) in accounts.iter().enumerate() {
        if account.name == name && account.group == group {
            return Some(place);
        }
    }
    None
}

/// The first place at which this name stands.
fn place_among(names: &[u64], name: u64) -> Option<usize>
    ensures { result ≡ place_among name names.now }
{
    for (place, other) in names.iter().enumerate() {
        if *other == name {
            return Some(place);
        }
    }
    None
}
