//! A worker's badge at a desk, and the ledger (the count of all taken steps) of which the badge holds a share.
ghost use Rattle.std.specs.Prelude.{◌≡◌, ℕ, ◌+◌, ◌*◌, ◌<◌, ◌≤◌};
ghost use Rattle.desk.specs.Parts.{ledger_parts};

use crate::history::Token;
use crate::passes::Naming;
use crate::worker_badge::WorkerBadge;
use hall::desk_rules::Backoff;
use hall::{Jamboree, Step};
use std::marker::{Brand, Model};
use std::sync::ledger::{Ledger, Share};

/// A type that stands for the ledger and for the history of one desk.
pub trait DeskLedger: Ledger + Naming {
    ghost use Rattle.hall.specs.Halls.{HallOf};

    /// How many parts the ledger has. The invariants of `Badge` and `LockedHall` speak of this number; most calls
    /// require that it is the `parts` of `Ledger`.
    ghost all: { ℕ };

    /// The hall that the desk was made with, with which its history begins.
    ghost begun: { HallOf };
}

// So that a call may pass `Brand` for `L`. The proof of that call then chooses the ghost members; those here aren't
// used.
impl DeskLedger for Brand {
    ghost use Rattle.hall.specs.Halls.{empty_hall};

    ghost all = { 0 };

    ghost begun = { empty_hall 0 (record { segments = 0; nodes = 0 }) };
}

/// How many parts a desk's ledger has: one for each of 2^62 badges and of 2^62 tenants, and 2^62 more, so that the
/// spare share always has some.
pub const PARTS: u64 = 3 << 62;

/// What a worker offers steps with. Contracts see its share: how many of the steps offered with it, and with the badges
/// that were joined to it, were taken.
#[derive(Drop)]
pub struct Badge<L: DeskLedger> {
    /// Its parts of the desk's ledger, whose amount is `steps`. It takes no bytes.
    pub(crate) mine: Share<L>,
    /// What it knows of the desk's history, as the maker of its own steps. It takes no bytes.
    pub(crate) token: Token<Step<Jamboree>>,
    /// Its share.
    pub(crate) steps: u128,
    /// How many parts it has: one for itself, and one for each badge that was joined to it.
    pub(crate) parts: u64,
    /// How long its worker waits between two tries to take the lock.
    pub(crate) backoff: Backoff,
}

// Clauses see the share.
impl<L: DeskLedger> Model for Badge<L> {
    ghost Value = { ℕ };

    ghost view = { λ b. b.steps };

    ghost invariant = { λ b. (b.mine.amount ≡ b.steps) × (b.mine.parts ≡ b.parts) × (b.token.id ≡ L.table) × (0 < b.parts) × (L.all ≡ ledger_parts) × (b.steps ≤ b.parts * 18446744073709551615) };
}

impl<L: DeskLedger> WorkerBadge for Badge<L> {
    ghost share = { λ badge. badge };

    ghost may_join = { L.all ≡ L.parts };

    /// How many steps were taken with this badge, and with the badges that were joined to it.
    fn share(&self) -> u128 {
        self.steps
    }

    /// How long the badge's worker waits between two tries to take the desk's lock.
    fn backoff(&self) -> Backoff {
        self.backoff
    }

    /// Sets how long the badge's worker waits between two tries to take the desk's lock.
    fn wait_by(&mut self, backoff: Backoff) {
        self.backoff = backoff;
    }

    /// One badge in place of two workers' badges, with the sum of their shares.
    fn joined(self, other: Badge<L>) -> Badge<L> {
        self.join(other)
    }
}

impl<L: DeskLedger> Badge<L> {
    /// The badge's share: how many steps were taken with it, and with the badges that were joined to it.
    pub fn share(&self) -> u128
        ensures { result ≡ self.now }
    {
        self.steps
    }

    /// One badge in place of two: its share is the sum of theirs, and it has all their parts of the ledger. It waits
    /// for the lock as the first one does, and its steps are noted under the first one's number.
    pub fn join(self, other: Badge<L>) -> Badge<L>
        requires { L.all ≡ L.parts }
        ensures { result ≡ self + other }
    {
        let Badge {
            mut mine,
            token,
            steps,
            parts,
            backoff,
        } = self;
        let Badge {
            mine: more,
            steps: also,
            parts: others,
            ..
        } = other;
        mine.merge(more);
        Badge {
            mine,
            token,
            steps: steps + also,
            parts: parts + others,
            backoff,
        }
    }
}
