//! A tenant's seat at a desk: its right to ask, and what it asked for.
ghost use Rattle.std.specs.Prelude.{◌≡◌, ◌≤◌, length};

use crate::history::Token;
use crate::shares::DeskLedger;
use arrayvec::ArrayVec;
use hall::desk_rules::{JOBS, SeatAsked};
use hall::{Jamboree, Step};
use std::marker::Model;
use std::sync::ledger::Share;

/// What each desk's seat is made of. Contracts see of which history it knows, and the seat: the tenant's number, how many steps of
/// its own were taken, the list of what it asked, and what it knows of that history.
#[derive(Drop)]
pub struct SeatCore {
    pub(crate) tenant: u64,
    /// What it knows of the history. It takes no bytes.
    pub(crate) token: Token<Step<Jamboree>>,
    /// What it asked, from job 1 on.
    pub(crate) asked: ArrayVec<SeatAsked, JOBS>,
}

// Clauses see of which history it knows, the tenant, the number of its own steps, the list and what it knows. All steps that it made
// are seat steps of its tenant, from the Admit on, and none is a Leave.
impl Model for SeatCore {
    ghost use Rattle.std.specs.Prelude.{length};
    ghost use Rattle.desk.specs.Seats.{SeatCoreOf};
    ghost use Rattle.desk.specs.Histories.{AreStepsOfSeat, HasNoLeave};

    ghost Value = { SeatCoreOf };

    ghost view = { λ s. record { id = s.token.id; seat = record { tenant = s.tenant; share = length s.token.known.mine; asked = s.asked.items; known = s.token.known } } };

    ghost invariant = { λ s. AreStepsOfSeat s.tenant s.token.known.mine × HasNoLeave s.token.known.mine };
}

impl SeatCore {
    /// The number of the seat's tenant.
    pub fn tenant(&self) -> u64
        ensures { result ≡ self.now.seat.tenant }
    {
        self.tenant
    }

    /// What the seat has asked for, its job 1 first; at most 256 jobs.
    pub fn asked(&self) -> &[SeatAsked]
        ensures asked { result.now ≡ self.now.seat.asked }
        ensures few { length result.now ≤ 256 }
    {
        self.asked.as_slice()
    }
}

/// A tenant's place at the desk, which its calls are made with. Contracts see the tenant's number, the seat's share,
/// which counts its own taken steps, the list of what it asked, and what it knows of the desk's history: the number of
/// its maker, what it has seen, and its own steps.
#[derive(Drop)]
pub struct Seat<L: DeskLedger> {
    pub(crate) core: SeatCore,
    /// Its part of the desk's ledger, whose amount is `steps`. It takes no bytes.
    pub(crate) mine: Share<L>,
    /// How many of its own steps were taken, from its admission on.
    pub(crate) steps: u128,
}

// Clauses see the seat. The tenant wasn't there before the desk was.
impl<L: DeskLedger> Model for Seat<L> {
    ghost use Rattle.std.specs.Prelude.{◌≡◌, ◌^◌, ◌<◌};
    ghost use Rattle.desk.specs.Seats.{SeatOf};

    ghost Value = { SeatOf };

    ghost view = { λ s. s.core.seat };

    ghost invariant = { λ s. (s.mine.amount ≡ s.steps) × (s.mine.parts ≡ 1) × (s.steps < 2 ^ 100) × (s.steps ≡ s.core.seat.share) × (s.core.id ≡ L.table) × (L.begun.shared.newest < s.core.seat.tenant) };
}

impl<L: DeskLedger> Seat<L> {
    /// The number of the seat's tenant.
    pub fn tenant(&self) -> u64
        ensures { result ≡ self.now.tenant }
    {
        self.core.tenant()
    }

    /// What the seat has asked for, its job 1 first; at most 256 jobs.
    pub fn asked(&self) -> &[SeatAsked]
        ensures asked { result.now ≡ self.now.asked }
        ensures few { length result.now ≤ 256 }
    {
        self.core.asked()
    }

    /// The seat's share: how many of its own steps were taken, its admission included.
    pub fn share(&self) -> u128
        ensures { result ≡ self.now.share }
    {
        self.steps
    }
}
