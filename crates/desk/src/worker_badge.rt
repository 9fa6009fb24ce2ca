//! What a worker offers steps with at any desk: a badge that counts those that were taken.
use hall::desk_rules::Backoff;

/// What a worker offers steps with: it counts those that were taken, and knows how long its worker waits for the lock.
pub trait WorkerBadge: Drop {
    ghost use Rattle.std.specs.Prelude.{◌≡◌, ℕ};

    /// Its share: how many steps were taken with it, and with those that were joined to it.
    ghost share: { Self → ℕ };

    /// What has to hold of the workplace that two badges may be joined.
    ghost may_join: { Type 0 };

    /// The badge's share: how many steps were taken with it, and with those that were joined to it.
    fn share(&self) -> u128
        ensures { result ≡ share self.now };

    /// How long its worker waits between two tries to take the lock.
    fn backoff(&self) -> Backoff;

    /// From now on the badge's worker waits so long for the lock.
    fn wait_by(&mut self, backoff: Backoff)
        ensures { share self.new ≡ share self.old };

    /// One badge in place of two workers', with both shares.
    fn joined(self, other: Self) -> Self
        requires { may_join };
}
