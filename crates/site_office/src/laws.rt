//! Laws on whole sessions of a site. A function here does nothing: its contract is the law.
ghost use Rattle.std.specs.Prelude.{◌≡◌, ℕ, List, Bool, false, Option, Result};
ghost use Rattle.line_io.specs.Leads.{between, answering};
ghost use Rattle.line_io.specs.declared.faults.LineFault.{LineFault};
ghost use Rattle.line_io.specs.declared.talking.TalkEnd.{TalkEnd};
ghost use Rattle.line_io.specs.Talks.{Talk};
ghost use Rattle.session.specs.Calls.{Call, OfficeReply};
ghost use Rattle.session.specs.Requests.{is_bye};
ghost use Rattle.session.specs.Sessions.{HandlerOf, LeavesIf};
ghost use Rattle.session.specs.Turns.{seated_after};
ghost use Rattle.site_office.specs.declared.access.Greeted.{Greeted};
ghost use Rattle.site_office.specs.declared.access.Info.{Info};
ghost use Rattle.site_office.specs.Turns.{SiteComes, site_relations};

use crate::access::AccessControl;
use line_io::{Sink, Source};
use session::Office;

/// A law: after a session of a site no tenant of it is at the desk, however the session ended (by BYE, by the end of
/// its input, or by a fault), if none was there before. It holds for any office of which one can tell whether it has a
/// tenant: the replies to its calls change that as a session says (a WELCOME begins a tenant, and its leaving ends it),
/// and nothing else does.
pub fn nobody_stays<S: Source, K: Sink, O: Office + AccessControl>()
    ensures { (here : O → Bool)
        → ((from : O) (call : Call) (reply : OfficeReply) (to : O) → O.does from call reply to → here to ≡ seated_after (here from) reply)
        → ((from : O) (token : Option (List ℕ)) (greeted : Greeted) (to : O) → O.greets from token greeted to → here to ≡ here from)
        → ((from : O) (paid : Bool) (to : O) → O.pays from paid to → here to ≡ here from)
        → ((from : O) (info : Info) (to : O) → O.informs from info to → here to ≡ here from)
        → (from to : HandlerOf O) (source source' : S) (sink sink' : K) (office : O) (r : Result TalkEnd LineFault)
        → here from.office ≡ false → from.seated ≡ false
        → Talk (between S.gives source source') (between K.takes sink sink') (answering (SiteComes (site_relations O.does O.greets O.pays O.informs)) from to) is_bye r
        → LeavesIf O.does to.seated to.office office
        → here office ≡ false }
{}
