//! Why a site's desk turns a customer away.
ghost use Rattle.std.specs.Prelude.{◌≡◌};
ghost use Rattle.site_desk.specs.Booked.{turned_by};

use hall::Refusal;
use site_book::BookRefusal;

/// Why a customer is turned away.
#[derive(Clone, Copy, Debug, PartialEq, Eq)]
pub enum Turned {
    /// The book refuses it.
    ByBook(BookRefusal),
    /// All 2^62 numbers of tenants were given.
    OldTenant,
    /// There is no memory.
    OutOfMemory,
}

/// Why a customer is turned away, by the hall's refusal.
pub(crate) fn turned_by(refusal: Refusal) -> Turned
    ensures { result ≡ turned_by refusal }
{
    match refusal {
        Refusal::OldTenant => Turned::OldTenant,
        _ => Turned::OutOfMemory,
    }
}
