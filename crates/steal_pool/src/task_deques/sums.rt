//! How many tasks a pool's deques had.
ghost use Rattle.std.specs.Prelude.{◌≡◌, ◌+◌};

/// How many tasks were pushed, taken and left: the first is the sum of the other two.
#[derive(Clone, Copy, Debug, PartialEq, Eq)]
pub struct Sums {
    /// How many were pushed.
    pub pushed: u128,
    /// How many were taken, by anybody.
    pub taken: u128,
    /// How many are still there.
    pub left: u128,
    ghost sum: { pushed ≡ taken + left },
}
