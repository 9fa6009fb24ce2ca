//! The count of computations (of leaves) of a pool's workers.
ghost use Rattle.std.specs.Prelude.{◌≡◌, ◌+◌, ◌<◌};
ghost use Rattle.jamboree_rules.specs.pool_rules.Counts.{begun, greatest_count};

/// How many computations were begun. At 2^64 - 1 the count stays as it is.
#[derive(Drop)]
pub struct Computations {
    begun: u64,
}

impl Computations {
    /// The count of a new pool: 0, as no computation has begun.
    pub fn new() -> Computations
        ensures { begun result ≡ 0 }
    {
        Computations { begun: 0 }
    }

    /// Counts a computation that begins now, and returns its number: the new count, from 1 on. All computations from
    /// the one numbered 2^64 - 1 on get that number.
    pub fn begin(&mut self) -> u64
        ensures number { result ≡ begun self.new }
        ensures rises { begun self.old < greatest_count → begun self.new ≡ begun self.old + 1 }
        ensures stays { begun self.old ≡ greatest_count → begun self.new ≡ greatest_count }
    {
        self.begun = self.begun.saturating_add(1);
        self.begun
    }
}
