//! The grants that are out in the book of a site's customers, one for each session, and their sums.
ghost use Rattle.std.specs.Prelude.{◌≡◌, ◌+◌, ◌<◌, ◌≤◌, ◌^◌, length, if◌then◌else◌, ◌≢◌, None, Some};
ghost use Rattle.std.specs.List.{remove};
ghost use Rattle.std.specs.Vec.{vec_capacity};
ghost use Rattle.site_book.specs.Amounts.{IsAmountWithin};
ghost use Rattle.site_book.specs.Grants.{is_in, used, is_held_as, grant_place, grant_of, grants_without, grants_raised, is_no_raise};

use crate::amount::Amount;
use crate::who::Who;
use tenant_quota::Reserve;

/// A grant that is out: a session's leave to be at the hall.
#[derive(Clone, Copy, Debug)]
pub struct Grant {
    /// Whose it is.
    pub who: Who,
    /// The number of its session.
    pub session: u64,
    /// What its session reserves.
    pub ask: Reserve,
}

// Only for the free places of an `ArrayVec`, which need some value.
impl Default for Grant {
    /// A filler for the places of a list that aren't used.
    fn default() -> Grant {
        match Reserve::new(1, 1) {
            Some(ask) => Grant {
                who: Who::Named(0),
                session: 0,
                ask,
            },
            None => unreachable!(),
        }
    }
}

/// Some of the grants that are out.
#[derive(Clone, Copy, Debug)]
pub enum Group {
    /// Those of a customer.
    Own(Who),
    /// Those of the guests of this wider network.
    Network(Who),
    /// Those of all guests.
    Guests,
    /// All.
    All,
}

/// A grant whose part has more than it may have, and by how much.
#[derive(Clone, Copy, Debug)]
pub struct Overrun {
    /// Whose it is.
    pub who: Who,
    /// The number of its session.
    pub session: u64,
    /// The part.
    pub part: Group,
    /// What the part has.
    pub has: Amount,
    /// What it may have.
    pub may: Amount,
}

impl Group {
    /// Whether the grants of this customer belong to this part of all grants (a customer's, a network's, the guests',
    /// or all).
    pub fn has(self, other: Who) -> bool
        ensures { result ≡ is_in self other }
    {
        match self {
            Group::Own(who) => who.is(other),
            Group::Network(who) => other.is_guest() && who.is(other.network()),
            Group::Guests => other.is_guest(),
            Group::All => true,
        }
    }
}

/// The sum with a grant's amount added, if that grant belongs to the part.
fn with_grant(sum: Amount, part: Group, held: &Grant) -> Amount
    requires room_sessions { sum.sessions < 2 ^ 31 }
    requires room_segments { sum.segments < 2 ^ 63 }
    requires room_nodes { sum.nodes < 2 ^ 63 }
    ensures sessions { result.sessions ≡ sum.sessions + (if is_in part held.now.who then 1 else 0) }
    ensures segments { result.segments ≡ sum.segments + (if is_in part held.now.who then held.now.ask.segments else 0) }
    ensures nodes { result.nodes ≡ sum.nodes + (if is_in part held.now.who then held.now.ask.nodes else 0) }
    ensures few_segments { result.segments ≤ sum.segments + 4096 }
    ensures few_nodes { result.nodes ≤ sum.nodes + 65536 }
{
    if part.has(held.who) {
        sum.with_one(held.ask)
    } else {
        sum
    }
}

/// What the grants of a part have together: sessions, segments and nodes.
pub(crate) fn used_in(grants: &[Grant], part: Group) -> Amount
    requires { length grants.now ≤ 64 }
    ensures value { result ≡ used part grants.now }
    ensures sessions { result.sessions ≤ 64 }
    ensures segments { result.segments ≤ 262144 }
    ensures nodes { result.nodes ≤ 4194304 }
{
    let mut sum = Amount::NOTHING;
    for held in grants {
        sum = with_grant(sum, part, held);
    }
    sum
}

/// What the grants of a part have together, without the grant at a place.
pub(crate) fn used_besides(grants: &[Grant], place: usize, part: Group) -> Amount
    requires few { length grants.now ≤ 64 }
    requires there { place < length grants.now }
    ensures value { result ≡ used part (remove grants.now place) }
    ensures within { IsAmountWithin result (record { sessions = 64; segments = 262144; nodes = 4194304 }) }
{
    let used = used_in(grants, part);
    let held = grants[place];
    if part.has(held.who) {
        used.less(Amount::NOTHING.with_one(held.ask))
    } else {
        used
    }
}

/// Whether a grant is that of this session.
fn is_held_as(held: &Grant, who: Who, session: u64) -> bool
    ensures { result ≡ is_held_as who session held.now }
{
    who.is(held.who) && session == held.session
}

/// The place of the first grant of this session, or the number of grants where there is none.
pub(crate) fn place_of(grants: &[Grant], who: Who, session: u64) -> usize
    ensures place { result ≡ grant_place who session grants.now }
    ensures within { result ≤ length grants.now }
{
    for (place, held) in grants.iter().enumerate() {
        if is_held_as(held, who, session) {
            return place;
        }
    }
    grants.len()
}

/// Takes the first grant of this session out, if there is one.
#[tactic(auto, using(crate::proofs::Rules::take_out_rules))]
pub(crate) fn take_out(grants: &mut Vec<Grant>, who: Who, session: u64)
    ensures grants { grants.new.items ≡ grants_without who session grants.old.items }
    ensures capacity { vec_capacity grants.old ≤ vec_capacity grants.new }
{
    let place = place_of(grants, who, session);
    if place < grants.len() {
        grants.remove(place);
    }
}

/// Sets what the first grant of this session reserves; the session has a grant.
#[tactic(auto, using(crate::proofs::Rules::set_ask_rules))]
pub(crate) fn set_ask(grants: &mut Vec<Grant>, who: Who, session: u64, ask: Reserve)
    requires { grant_of who session grants.old.items ≢ None }
    ensures grants { grants.new.items ≡ grants_raised who session ask grants.old.items }
    ensures capacity { vec_capacity grants.old ≤ vec_capacity grants.new }
{
    let place = place_of(grants, who, session);
    grants[place].ask = ask;
}

/// Whether a new reservation is no raise of the present one: less in segments or in nodes, or the same in both.
pub(crate) fn is_lower(now: Reserve, ask: Reserve) -> bool
    ensures { result ≡ is_no_raise now ask }
{
    ask.segments() < now.segments()
        || ask.nodes() < now.nodes()
        || (ask.segments() == now.segments() && ask.nodes() == now.nodes())
}
