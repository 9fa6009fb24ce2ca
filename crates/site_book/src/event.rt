//! What happens in the book of a site's customers: sessions are opened, raised and closed, and another plan comes.
use crate::plan::Plan;
use crate::who::Who;
use tenant_quota::Reserve;

/// What happens at a hall.
#[derive(Drop)]
pub enum BookEvent {
    /// A session of this number is opened for a customer, and reserves this.
    Opens(Who, u64, Reserve),
    /// A customer's session of this number is raised to this.
    Raises(Who, u64, Reserve),
    /// A customer's session of this number ends.
    Closes(Who, u64),
    /// Another plan comes.
    Replans(Plan),
}
