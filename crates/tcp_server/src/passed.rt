//! What passed on a connection, which stays known of it wherever it goes.
//!
//! What comes out of a lock or from another thread is known by its type alone. So the type of what a session leaves, [`Passed`], says
//! that it is one: what each read gave and each write took is a session in the history of the desk, by what its tenant's seat
//! knew of that when it left (`IsSession`). Nobody can make one up, or change it, as its tapes and its trace can't be made; whoever has it
//! may rely on it ([`Passed::recall`]).
//!
//! At the end of a desk its whole history can be shown to each ([`Passed::show`], [`show_all`]): then it is known that each session's
//! part is in that one history (`IsSessionIn`), whichever thread had served it.
ghost use Rattle.std.specs.Prelude.{◌≡◌, map, All};
ghost use Rattle.tcp_server.specs.Connections.{but_knew, IsSession, IsSessionIn, IsSessionOn};

use crate::taped::Tape;
use session::{End, SessionFault};
use std::marker::Model;
use steal_pool::desk::{DeskLedger, History, Jamboree, Step, Trace};

/// What a session over a source and a sink with tapes leaves.
#[derive(Drop)]
pub struct Taped<L: DeskLedger> {
    /// What each read gave, in proofs alone.
    pub read: Tape,
    /// What each write took, in proofs alone.
    pub written: Tape,
    /// How the session ended.
    pub ended: Result<End, SessionFault>,
    /// What the tenant's seat knew of the desk's history when it left; `None` where no tenant came.
    pub knew: Option<Trace<Step<Jamboree>, L>>,
}

/// What passed on a connection, and what its session came to. Contracts see the tapes of its reads and of its writes, how the session
/// ended, and what its tenant's seat knows of the desk's history: what it knew when it left, and what was shown to it since.
#[derive(Drop)]
pub struct Passed<L: DeskLedger> {
    read: Tape,
    written: Tape,
    ended: Result<End, SessionFault>,
    knew: Option<Trace<Step<Jamboree>, L>>,
}

impl<L: DeskLedger> Model for Passed<L> {
    ghost use Rattle.tcp_server.specs.Connections.{PassedOf, IsSession};

    ghost Value = { PassedOf };

    ghost view = { λ p. record { read = p.read; written = p.written; ended = p.ended; knew = p.knew } };

    ghost invariant = { λ p. IsSession L.begun (record { read = p.read; written = p.written; ended = p.ended; knew = p.knew }) };
}

impl<L: DeskLedger> Passed<L> {
    /// What passed on the socket of these tapes, where that is a session.
    pub(crate) fn of(taped: Taped<L>) -> Passed<L>
        requires { IsSessionOn L.begun taped.read.socket taped.read taped.written taped.ended taped.knew }
        ensures { result ≡ record { read = taped.read; written = taped.written; ended = taped.ended; knew = taped.knew } }
    {
        let Taped {
            read,
            written,
            ended,
            knew,
        } = taped;
        Passed {
            read,
            written,
            ended,
            knew,
        }
    }

    /// How the session ended.
    pub fn ended(&self) -> Result<End, SessionFault>
        ensures { result ≡ self.now.ended }
    {
        self.ended
    }

    /// Tells the prover that what passed is a session.
    pub fn recall(&self)
        ensures { IsSession L.begun self.now }
    {
        let _ = &self.read;
    }

    /// Shows the whole history of the session's desk to what its tenant's seat knew when it left: that is a part of it.
    pub fn show(&mut self, history: &mut History<Step<Jamboree>, L>)
        ensures same { but_knew self.new ≡ but_knew self.old }
        ensures history { history.new ≡ history.old }
        ensures part { IsSessionIn L.begun history.old self.new }
    {
        if let Some(trace) = &mut self.knew {
            history.show(trace);
        }
    }
}

/// Shows the whole history of their desk to each of these sessions ([`Passed::show`]): the part of each is in that one history.
pub fn show_all<L: DeskLedger>(
    history: &mut History<Step<Jamboree>, L>,
    sessions: Vec<Passed<L>>,
) -> Vec<Passed<L>>
    ensures same { map but_knew result.items ≡ map but_knew sessions.items }
    ensures history { history.new ≡ history.old }
    ensures parts { All (IsSessionIn L.begun history.old) result.items }
{
    let mut sessions = sessions;
    show_each(history, &mut sessions);
    sessions
}

/// Shows the whole history to each of these sessions.
fn show_each<L: DeskLedger>(history: &mut History<Step<Jamboree>, L>, sessions: &mut [Passed<L>])
    ensures same { map but_knew sessions.new ≡ map but_knew sessions.old }
    ensures history { history.new ≡ history.old }
    ensures parts { All (IsSessionIn L.begun history.old) sessions.new }
{
    for passed in sessions.iter_mut() {
        passed.show(history);
    }
}
