//! Things that have a number, as a tenant's account has its tenant's.
ghost use Rattle.std.specs.Prelude.{◌≡◌, ℕ};

/// A thing with a number, by which lists of such things are ordered.
pub trait Numbered {
    ghost number_of: { Self → ℕ };

    /// The thing's number; an account's is its tenant's.
    fn number(&self) -> u64
        ensures { result ≡ number_of self.now };
}

/// A pair of a number and what stands under it.
impl<V> Numbered for (u64, V) {
    ghost number_of = { λ pair. pair.0 };

    /// The first of the pair is its number.
    #[inline(always)]
    fn number(&self) -> u64 {
        self.0
    }
}
