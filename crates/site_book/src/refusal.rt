//! Why the book of a site's customers refuses an event.
/// Why a book refuses an event.
#[derive(Clone, Copy, Debug, PartialEq, Eq)]
pub enum BookRefusal {
    /// The customer's own budget doesn't allow it.
    OverBudget,
    /// What the guests of its wider network may have together doesn't allow it.
    OverNetwork,
    /// What all guests may have together doesn't allow it.
    OverGuests,
    /// There is no such session.
    Gone,
    /// A raise is to fewer segments or nodes than the session has, or to no more of either.
    Lower,
    /// A plan is that of a hall with other totals.
    Unfit,
    /// What is out is beyond a plan.
    Beyond,
}
