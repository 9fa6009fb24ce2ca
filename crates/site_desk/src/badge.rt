//! A worker's badge at a site's desk: its right to take steps there.
ghost use Rattle.std.specs.Prelude.{◌≡◌, ◌+◌, ◌<◌, ◌^◌};

use desk::WorkerBadge;
use hall::desk_rules::Backoff;
use std::marker::Model;

/// What a worker offers steps with. Contracts see its share: how many of the steps offered with it, and with the badges that were joined
/// to it, were taken.
#[derive(Drop)]
pub struct SiteBadge {
    /// Its share.
    pub(crate) steps: u128,
    /// How long its worker waits between two tries to take the lock.
    pub(crate) backoff: Backoff,
}

// Clauses see the share.
impl Model for SiteBadge {
    ghost use Rattle.std.specs.Prelude.{ℕ};

    ghost Value = { ℕ };

    ghost view = { λ b. b.steps };
}

impl SiteBadge {
    /// The badge of a worker that begins: no step was taken with it.
    pub(crate) fn new() -> SiteBadge
        ensures { result ≡ 0 }
    {
        SiteBadge {
            steps: 0,
            backoff: Backoff::new(),
        }
    }

    /// One badge in place of two: its share is the sum of theirs. It waits for the lock as the first one does.
    pub fn join(self, other: SiteBadge) -> SiteBadge
        ensures { self + other < 2 ^ 128 → result ≡ self + other }
    {
        let SiteBadge { steps, backoff } = self;
        SiteBadge {
            steps: steps.saturating_add(other.steps),
            backoff,
        }
    }
}

impl WorkerBadge for SiteBadge {
    ghost share = { λ badge. badge };

    ghost may_join = { Unit {0} };

    /// How many steps were taken with this badge.
    fn share(&self) -> u128 {
        self.steps
    }

    /// How long the badge's worker waits between two tries to take the desk's lock.
    fn backoff(&self) -> Backoff {
        self.backoff
    }

    /// Sets how long the badge's worker waits between two tries to take the desk's lock.
    fn wait_by(&mut self, backoff: Backoff) {
        self.backoff = backoff;
    }

    /// One badge in place of two workers' badges, with the sum of their shares.
    fn joined(self, other: SiteBadge) -> SiteBadge {
        self.join(other)
    }
}
