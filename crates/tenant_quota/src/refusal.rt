//! Why the book of reservations refuses a call.
use thiserror::Error;

/// Why the book refuses a call. A refused call changes nothing.
#[derive(Clone, Copy, Debug, PartialEq, Eq, Error)]
pub enum QuotaRefusal {
    /// All reservations together would be more segments or nodes than the book has; or, of a new tenant alone, 64
    /// tenants are there.
    #[error("the book has no room for the reservation")]
    Full = 1,
    /// The tenant hasn't as many segments or nodes left as the call charges, or no step left.
    #[error("the tenant hasn't as much left")]
    Short,
    /// A raise is to fewer segments or nodes than the tenant has reserved, or to no more of either.
    #[error("no more is reserved than before")]
    Lower,
}

impl QuotaRefusal {
    ghost use Rattle.std.specs.Prelude.{◌≡◌};
    ghost use Rattle.tenant_quota.specs.Refusals.{quota_refusal_number};

    /// The number of the refusal: 1 for Full, 2 for Short, 3 for Lower.
    pub fn number(&self) -> u8
        ensures { result ≡ quota_refusal_number self.now }
    {
        *self as u8
    }
}
