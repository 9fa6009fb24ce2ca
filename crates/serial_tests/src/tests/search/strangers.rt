//! Tests of sessions' offices at a desk: no contract says that HELLO ever succeeds, nor what an office answers that has
//! no tenant. It refuses by number, and one that has a tenant takes no other. Sessions ask neither of it.
ghost use Rattle.std.specs.Prelude.{◌≡◌};

use super::holds;
use desk::{Config, Desk, DeskLedger, Hall, Jamboree, Opened, PARTS, Refusal, Step};
use desk_office::DeskOffice;
use session::Office;
use std::marker::Brand;
use std::sync::Wait;
use std::sync::ledger::Blank;
use tenant_quota::Reserve;

/// Whether an office has no job 1 to show, to wait for or to cancel.
fn has_no_job<O: Office>(office: &mut O) -> bool {
    matches!(office.get(1), Err(Refusal::NoJob))
        && matches!(office.wait(1), Err(Refusal::NoJob))
        && matches!(office.cancel(1), Err(Refusal::NoJob))
}

/// Whether the office says, by number, that it has no tenant to reserve more for, nor one that has anything left or
/// alive.
fn has_no_tenant<O: Office>(office: &mut O, reserve: Reserve) -> bool {
    matches!(office.reserve(reserve), Err(Refusal::NoTenant))
        && matches!(office.quota(), Err(Refusal::NoTenant))
        && matches!(office.live(), Err(Refusal::NoTenant))
}

/// Whether the office takes one tenant, and no other after it.
fn takes_one<O: Office>(office: &mut O, reserve: Reserve) -> bool {
    office.hello(reserve).is_ok() && matches!(office.hello(reserve), Err(Refusal::OldTenant))
}

/// Whether a new office of a desk refuses all that has to do with a tenant, and then takes just one.
fn is_new_office_as_it_says<L: DeskLedger, R: Wait>(
    rt: &R,
    desk: &Desk<L>,
    reserve: Reserve,
) -> bool {
    let mut office = DeskOffice::new(rt, desk);
    let is_empty = has_no_job(&mut office) && has_no_tenant(&mut office, reserve);
    let answer = is_empty && takes_one(&mut office, reserve);
    office.close();
    answer
}

/// Whether an office at a new desk over this hall refuses all that has to do with a tenant, and then takes just one.
fn is_new_desk_as_it_says<L: DeskLedger, R: Wait>(
    rt: &R,
    hall: Hall,
    blank: Blank,
    opened: Opened<Step<Jamboree>>,
    reserve: Reserve,
) -> bool
    requires name { blank.name ≡ L.name }
    requires parts { (blank.parts ≡ L.parts) × (L.all ≡ L.parts) × (L.all ≡ PARTS) }
    requires history { opened ≡ L.table }
    requires begun { hall ≡ L.begun }
{
    let desk: Desk<L> = Desk::new(hall, blank, opened);
    is_new_office_as_it_says(rt, &desk, reserve)
}

/// Whether an office answers as it should before and after HELLO, at a new desk over this hall with a ledger of its
/// own.
fn are_offices_as_they_say<R: Wait>(
    rt: &R,
    hall: Hall,
    opened: Opened<Step<Jamboree>>,
    reserve: Reserve,
) -> bool {
    is_new_desk_as_it_says::<Brand, R>(rt, hall, Blank::new(PARTS), opened, reserve)
}

/// A session's office at a desk of 8 segments and nodes refuses by number what it is asked without a tenant, and a
/// second HELLO.
#[test]
fn an_office_has_one_tenant_and_says_where_it_has_none(rt: HostRuntime) {
    let reserve = Reserve::new(1, 1).unwrap();
    let config = Config::new(8, 8).unwrap();
    let hall = Hall::new(rt.alloc(), config, 0).expect(&rt, "there is memory");
    let opened = Opened::new(rt.alloc()).expect(&rt, "there is memory");
    holds(&rt, are_offices_as_they_say(&rt, hall, opened, reserve));
}
