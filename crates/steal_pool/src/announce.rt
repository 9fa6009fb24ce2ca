//! What is said once a pool of workers has begun.
ghost use Rattle.std.specs.Prelude.{◌≡◌, Bool, true};

/// Tells somebody that a pool has begun. A pool calls it at most once: after all its workers were started, in the
/// thread that called `run_pool_announced`.
pub trait Announce {
    /// What a call may do: the value before it, whether the pool's beginning could be said, and the value after it.
    ghost says: { Self → Bool → Self → Type 0 };

    /// Says that the pool has begun, and returns whether that could be said. At false the pool closes its desk and
    /// ends.
    fn announce(&mut self) -> bool
        ensures { says self.old result self.new };
}

/// Says nothing, which always succeeds.
#[derive(Clone, Copy, Debug, PartialEq, Eq)]
pub struct Quiet;

impl Announce for Quiet {
    ghost says = { λ _ is_said _. is_said ≡ true };

    /// Says nothing, and the pool goes on.
    fn announce(&mut self) -> bool {
        true
    }
}
