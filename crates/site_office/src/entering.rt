//! How the calls of a site's office are refused, by why the desk turned away, and what it tells of LIVE.
ghost use Rattle.std.specs.Prelude.{◌≡◌};
ghost use Rattle.site_office.specs.Refusing.{comer_refusal, live_answer, raise_refusal};

use crate::environment::Cause;
use desk_office::told_live;
use hall::Refusal;
use session::Live;
use site_book::BookRefusal;
use site_desk::Turned;

/// The refusal that a line HELLO is answered by, for why the desk turned the customer away.
pub(crate) fn comer_refusal(turned: Turned) -> Refusal
    ensures { result ≡ comer_refusal turned }
{
    match turned {
        Turned::ByBook(_) => Refusal::Full,
        Turned::OldTenant => Refusal::OldTenant,
        Turned::OutOfMemory => Refusal::OutOfMemory,
    }
}

/// The refusal that a line RESERVE is answered by, for why the desk turned it away.
pub(crate) fn raise_refusal(turned: Turned) -> Refusal
    ensures { result ≡ raise_refusal turned }
{
    match turned {
        Turned::ByBook(BookRefusal::Gone) => Refusal::NoTenant,
        Turned::ByBook(BookRefusal::Lower) => Refusal::Lower,
        Turned::ByBook(_) => Refusal::Full,
        Turned::OldTenant => Refusal::OutOfMemory,
        Turned::OutOfMemory => Refusal::OutOfMemory,
    }
}

/// By which cause the site counts a refusal, for why the desk turned the customer away; None where it isn't counted.
pub(crate) fn cause_of(turned: Turned) -> Option<Cause> {
    match turned {
        Turned::ByBook(BookRefusal::OverBudget) => Some(Cause::Budget),
        Turned::ByBook(BookRefusal::OverNetwork | BookRefusal::OverGuests) => Some(Cause::Guests),
        Turned::ByBook(_) => None,
        Turned::OldTenant | Turned::OutOfMemory => Some(Cause::Memory),
    }
}

/// How many frames and words the desk counts, as a session tells it; a refusal stays as it is.
pub(crate) fn live_answer(answer: Result<(usize, usize), Refusal>) -> Result<Live, Refusal>
    ensures { result ≡ live_answer answer }
{
    Ok(told_live(answer?))
}
