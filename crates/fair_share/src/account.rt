//! The account of one who shares a pool of workers: how much it was served, and since when it waits.
ghost use Rattle.std.specs.Prelude.{◌≡◌, ◌+◌};
ghost use Rattle.fair_share.specs.Accounts.{free_account, is_active, is_rival, is_before, capped_sum, account_charged, woken_from, rested};

/// What is kept of one that shares with others: of a tenant, of a network, or of a customer.
#[derive(Clone, Copy, Debug)]
pub struct ShareAccount {
    /// Who it is, from 1 on; 0 where the place is free.
    pub name: u64,
    /// The group in which it shares.
    pub group: usize,
    /// How much it was served; it stays at 2^64 - 1.
    pub served: u64,
    /// The turn since when it waits, from 1 on: at which it became active, or was last served; 0 while it isn't active.
    pub since: u64,
}

impl ShareAccount {
    /// The account that stands at a free place.
    pub(crate) fn nobody() -> ShareAccount
        ensures { result ≡ free_account }
    {
        ShareAccount {
            name: 0,
            group: 0,
            served: 0,
            since: 0,
        }
    }

    /// Whether the user whose account this is has a ready frame, or a user below it has one.
    pub(crate) fn is_active(self) -> bool
        ensures { result ≡ is_active self }
    {
        0 < self.since
    }

    /// Whether this account is active (see `is_active`), and shares the workers in this group.
    pub(crate) fn is_rival(self, group: usize) -> bool
        ensures { result ≡ is_rival group self }
    {
        self.is_active() && self.group == group
    }

    /// Whether this account comes before the other: it was served less, or as much and it has waited for longer.
    pub(crate) fn is_before(self, other: ShareAccount) -> bool
        ensures { result ≡ is_before self other }
    {
        self.served < other.served || (self.served == other.served && self.since < other.since)
    }

    /// The account once its user was served so much more at this turn: if the user is active, it waits from this turn
    /// on.
    pub(crate) fn with_more(self, amount: u64, turn: u64) -> ShareAccount
        ensures { result ≡ account_charged amount turn self }
    {
        ShareAccount {
            served: capped_sum(self.served, amount),
            since: if self.is_active() { turn } else { 0 },
            ..self
        }
    }

    /// The account once its user has become active at this turn, from which on it waits. It counts as served as much as
    /// before, or as much as this floor where that is more.
    pub(crate) fn woken_from(self, floor: u64, turn: u64) -> ShareAccount
        ensures { result ≡ woken_from floor turn self }
    {
        ShareAccount {
            served: if self.served < floor {
                floor
            } else {
                self.served
            },
            since: turn,
            ..self
        }
    }

    /// The account once its user isn't active any more.
    pub(crate) fn rested(self) -> ShareAccount
        ensures { result ≡ rested self }
    {
        ShareAccount { since: 0, ..self }
    }
}

/// The sum, or 2^64 - 1 where it is more.
pub(crate) fn capped_sum(a: u64, b: u64) -> u64
    ensures { result ≡ capped_sum a b }
{
    if b > u64::MAX - a { u64::MAX } else { a + b }
}
