//! The connections of a site: how many there are, as whose each counts, and in which hall a customer's session was last.
//!
//! Whoever has the sockets says here when a connection comes ([`Connections::come`]), when its customer is known
//! ([`Connections::arrive`]), when a token makes it another customer's ([`Connections::belong`]) and when it ends
//! ([`Connections::depart`] and [`Connections::go`]).
ghost use Rattle.std.specs.Prelude.{◌≡◌, ◌+◌, ◌-◌, ◌≤◌, [], length, nat_lt, if◌then◌else◌, IfOk, IfErr, OnOk, MatchResult};
ghost use Rattle.site_rules.specs.Arrivals.{arrival};
ghost use Rattle.site_rules.specs.Connections.{after_arrival, after_departure, after_move, connections_of, crowd_of, home_of, is_own, may_belong, count_place, with_home, with_one_less, with_one_more};

use crate::arrivals::{Arrival, Crowd, arrival_of};
use site_book::Who;
use std::alloc::{AllocError, Global};
use std::marker::Model;

/// How many connections count as a customer's.
#[derive(Clone, Copy, Debug)]
pub struct CustomerConnections {
    /// The customer.
    pub who: Who,
    /// How many.
    pub connections: u32,
    /// The hall of its last HELLO, from 0.
    pub home: Option<usize>,
}

/// The connections of a site.
#[derive(Drop)]
pub struct Connections {
    /// How many there are.
    all: u32,
    /// How many of them count as nobody's, as their customer has too many.
    extra: u32,
    /// Those of each customer that has any.
    customers: Vec<CustomerConnections>,
}

// Clauses see all of it.
impl Model for Connections {
    ghost use Rattle.site_rules.specs.Connections.{ConnectionsOf};

    ghost Value = { ConnectionsOf };

    ghost view = { λ c. record { all = c.all; extra = c.extra; customers = c.customers.items } };
}

impl Connections {
    /// There is none.
    pub fn new(alloc: Global) -> Connections
        ensures { result ≡ record { all = 0; extra = 0; customers = [] } }
    {
        Connections {
            all: 0,
            extra: 0,
            customers: Vec::new(alloc),
        }
    }

    /// One comes, of whom nothing is known yet; false where there are as many as there may be.
    pub fn come(&mut self, most: u32) -> bool
        ensures came { result ≡ nat_lt self.old.all most }
        ensures then { self.new ≡ if result then record self.old { all = self.old.all + 1 } else self.old }
    {
        if self.all >= most {
            return false;
        }
        self.all += 1;
        true
    }

    /// One is gone.
    pub fn go(&mut self)
        ensures { self.new ≡ record self.old { all = self.old.all - 1 } }
    {
        self.all = self.all.saturating_sub(1);
    }

    /// How many there are.
    pub fn all(&self) -> u32
        ensures { result ≡ self.now.all }
    {
        self.all
    }

    /// How many count as nobody's.
    pub fn extra(&self) -> u32
        ensures { result ≡ self.now.extra }
    {
        self.extra
    }

    /// How many count as a customer's.
    #[tactic(auto, using(crate::proofs::Rules::of_rules))]
    pub fn of(&self, who: Who) -> u32
        ensures { result ≡ connections_of who self.now.customers }
    {
        let place = place_of(&self.customers, who);
        if place < self.customers.len() {
            self.customers[place].connections
        } else {
            0
        }
    }

    /// The hall to which a customer came last, of those that it has connections for.
    #[tactic(auto, using(crate::proofs::Rules::home_rules))]
    pub fn home(&self, who: Who) -> Option<usize>
        ensures { result ≡ home_of who self.now.customers }
    {
        let place = place_of(&self.customers, who);
        if place < self.customers.len() {
            self.customers[place].home
        } else {
            None
        }
    }

    /// A customer's session is to be in this hall. Nothing happens where no connection counts as its.
    #[tactic(auto, using(crate::proofs::Rules::settle_rules))]
    pub fn settle(&mut self, who: Who, hall: usize)
        ensures { self.new ≡ record self.old { customers = with_home who hall self.old.customers } }
    {
        let place = place_of(&self.customers, who);
        if place < self.customers.len() {
            self.customers[place].home = Some(hall);
        }
    }

    /// How one is taken of this customer, which may have so many, where there may be `most_all` in all; it has come already. An error
    /// means that there was no memory to count it; then nothing has changed.
    pub fn arrive(&mut self, who: Who, most_own: u32, most_all: u32) -> Result<Arrival, AllocError>
        ensures arrival { IfOk result (λ taken. taken ≡ arrival (crowd_of who most_own most_all self.old)) }
        ensures then { OnOk result (self.new ≡ after_arrival who (arrival (crowd_of who most_own most_all self.old)) self.old) }
        ensures refused { IfErr result (λ _. self.new ≡ self.old) }
    {
        let crowd = Crowd {
            own: self.of(who),
            most_own,
            extra: self.extra,
            all: self.all.saturating_sub(1),
            most_all,
        };
        let arrival = arrival_of(&crowd);
        match arrival {
            Arrival::Counted => count(&mut self.customers, who)?,
            Arrival::Heard => self.extra = self.extra.saturating_add(1),
            Arrival::Closed => {}
        }
        Ok(arrival)
    }

    /// One leaves that counts as this customer's, or as nobody's.
    pub fn depart(&mut self, account: Option<Who>)
        ensures { self.new ≡ after_departure account self.old }
    {
        match account {
            Some(who) => discount(&mut self.customers, who),
            None => self.extra = self.extra.saturating_sub(1),
        }
    }

    /// Has one count as another customer's, which may have so many, and tells whether it does now: where it did already, or that one may
    /// have one more. An error means that there was no memory to count it. Where it doesn't, and at an error, nothing has changed.
    pub fn belong(&mut self, account: Option<Who>, who: Who, most: u32) -> Result<bool, AllocError>
        ensures belongs { IfOk result (λ is_own. is_own ≡ may_belong account who most self.old) }
        ensures then { OnOk result (self.new ≡ if may_belong account who most self.old then after_move account who self.old else self.old) }
        ensures refused { IfErr result (λ _. self.new ≡ self.old) }
    {
        if is_own(account, who) {
            return Ok(true);
        }
        if self.of(who) >= most {
            return Ok(false);
        }
        count(&mut self.customers, who)?;
        self.depart(account);
        Ok(true)
    }
}

/// Whether a connection counts as this customer's already.
fn is_own(account: Option<Who>, who: Who) -> bool
    ensures { result ≡ is_own account who }
{
    match account {
        Some(own) => own.is(who),
        None => false,
    }
}

/// The place of a customer's count, or the number of counts where it has none.
fn place_of(customers: &[CustomerConnections], who: Who) -> usize
    ensures place { result ≡ count_place who customers.now }
    ensures within { result ≤ length customers.now }
{
    for (place, own) in customers.iter().enumerate() {
        if own.who.is(who) {
            return place;
        }
    }
    customers.len()
}

/// Counts one connection more of a customer.
#[tactic(auto, using(crate::proofs::Rules::count_rules))]
fn count(customers: &mut Vec<CustomerConnections>, who: Who) -> Result<(), AllocError>
    ensures { MatchResult result (λ _. customers.new.items ≡ with_one_more who customers.old.items) (λ _. customers.new.items ≡ customers.old.items) }
{
    let place = place_of(customers, who);
    if place < customers.len() {
        customers[place].connections = customers[place].connections.saturating_add(1);
        return Ok(());
    }
    customers.push(CustomerConnections {
        who,
        connections: 1,
        home: None,
    })?;
    Ok(())
}

/// Counts one connection less of a customer.
#[tactic(auto, using(crate::proofs::Rules::discount_rules))]
fn discount(customers: &mut Vec<CustomerConnections>, who: Who)
    ensures { customers.new.items ≡ with_one_less who customers.old.items }
{
    let place = place_of(customers, who);
    if place >= customers.len() {
        return;
    }
    if customers[place].connections > 1 {
        customers[place].connections -= 1;
    } else {
        customers.remove(place);
    }
}
