//! What follows for sessions over an office that keeps its asks: a law, which is the contract of a function that does nothing.
ghost use Rattle.std.specs.Prelude.{◌≡◌, List, [], Result};
ghost use Rattle.line_io.specs.Leads.{between};
ghost use Rattle.session.specs.declared.faults.End.{End};
ghost use Rattle.session.specs.declared.faults.SessionFault.{SessionFault};
ghost use Rattle.session.specs.Asks.{Asked, KeepsAsks};
ghost use Rattle.session.specs.Calls.{Call, OfficeReply};
ghost use Rattle.session.specs.DoneLines.{TrueSession};
ghost use Rattle.session.specs.Sessions.{Session, Called};

use crate::office::Office;
use line_io::{Sink, Source};

/// A law: this function does nothing, and its contract is what it says. In a session over an office each of whose calls
/// keeps its asks (`KeepsAsks`), each DONE line has the minimax value and the best choice of what was asked by the ASK
/// line that was answered by JOB and the same number, and each TABLE line with entries its table.
pub fn each_done_line_is_true<S: Source, K: Sink, O: Office>()
    ensures { (asks : O → List Asked)
        → ((from : O) (call : Call) (reply : OfficeReply) (to : O) → O.does from call reply to → KeepsAsks (asks from) call reply (asks to))
        → (source source' : S) (sink sink' : K) (office office' : O) (r : Result End SessionFault)
        → asks office ≡ []
        → Session (between S.gives source source') (between K.takes sink sink') (between (Called O.does) office office') r
        → TrueSession (between S.gives source source') (between K.takes sink sink') r }
{}
