//! Who is given what a server's desk leaves.
//!
//! What a desk leaves is its hall and, where no seat and no badge has kept its part, the share that has all parts of its ledger.
//! Such a share can't be made up; so a contract that says that an [`Audit`] was given one says that the desk was looked at to its
//! end. Beside it is what passed on the connections, [`Passed`], which can't be made up either: each is a session, and its part is in
//! the one history by which the hall has come from the first one. [`Unaudited`] looks at nothing: the contract of `run` is of any
//! audit, so it holds of the program's too.
ghost use Rattle.std.specs.Prelude.{◌≡◌, ◌+◌, List};
ghost use Rattle.hall.specs.Halls.{HallOf, count_of};
ghost use Rattle.tcp_server.specs.Connections.{PassedOf, IsLeftBy};

use std::sync::ledger::Share;
use tcp_server::Passed;
use tcp_server::desk::{DeskLedger, Hall};

/// Is given what a server's desk leaves at its end.
pub trait Audit {
    ghost use Rattle.std.specs.Prelude.{List};
    ghost use Rattle.hall.specs.Halls.{HallOf};
    ghost use Rattle.tcp_server.specs.Connections.{PassedOf};

    /// What it means that it was given this: the hall that the desk was made with, the one that it left, and what passed on the
    /// connections.
    ghost given: { Self → HallOf → HallOf → List PassedOf → Self → Type 0 };

    /// Is given the hall that a desk left, the share with all parts of its ledger, and what passed on the connections. There is one
    /// history by whose steps, each of which was taken, the hall has come from the one that the desk was made with; what
    /// passed on each connection is a session whose part is in that history; and what the share counts are all steps
    /// that were taken since.
    fn give<L: DeskLedger>(&mut self, hall: Hall, whole: Share<L>, sessions: Vec<Passed<L>>)
        requires left { IsLeftBy L.begun hall sessions.items }
        requires whole { whole.parts ≡ L.parts }
        requires count { count_of hall ≡ count_of L.begun + whole.amount }
        ensures { given self.old L.begun hall sessions.items self.new };
}

/// Looks at nothing.
#[derive(Drop)]
pub struct Unaudited;

impl Audit for Unaudited {
    ghost given = { λ _ _ _ _ _. Unit {0} };

    fn give<L: DeskLedger>(&mut self, _hall: Hall, _whole: Share<L>, _sessions: Vec<Passed<L>>) {}
}
