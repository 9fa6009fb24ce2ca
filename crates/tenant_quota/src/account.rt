//! A tenant's account in the book of reservations: what it reserved, and what it has used.
use crate::reserve::Reserve;

/// What a tenant has left of its reservation.
#[derive(Clone, Copy, Debug, PartialEq, Eq)]
pub struct Left {
    /// Segments of 16 words: those reserved less those charged.
    pub segments: u32,
    /// Nodes: those reserved less those ever opened.
    pub nodes: u32,
    /// Steps: 16 times the nodes reserved, less the steps taken.
    pub steps: u32,
}

/// What a tenant has reserved, and what it has used of that: no more than it reserved.
#[derive(Clone, Copy, Debug)]
pub struct Account {
    /// What is reserved.
    pub reserve: Reserve,
    /// Segments charged now.
    pub charged: u32,
    /// Nodes ever opened.
    pub opened: u32,
    /// Steps taken.
    pub ticks: u32,
}

impl Account {
    ghost use Rattle.std.specs.Prelude.{◌≡◌};
    ghost use Rattle.tenant_quota.specs.Accounts.{fresh, left_in, IsWithinReserve};

    /// The account of a tenant that has reserved this much and used nothing of it.
    pub fn new(reserve: Reserve) -> Account
        ensures { result ≡ fresh reserve }
    {
        Account {
            reserve,
            charged: 0,
            opened: 0,
            ticks: 0,
        }
    }

    /// What is left of the reservation, in an account that has used no more than it reserved.
    pub fn left(&self) -> Left
        requires { IsWithinReserve self.now }
        ensures { result ≡ left_in self.now }
    {
        let nodes = self.reserve.nodes();
        Left {
            segments: self.reserve.segments() - self.charged,
            nodes: nodes - self.opened,
            steps: 16 * nodes - self.ticks,
        }
    }
}
