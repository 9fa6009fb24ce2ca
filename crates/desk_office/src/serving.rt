//! Sessions at a desk, served from their first line to their last.
ghost use Rattle.std.specs.Prelude.{◌≡◌, Option};
ghost use Rattle.sched_rules.specs.declared.step.StepOf.{StepOf};
ghost use Rattle.line_io.specs.Leads.{between};
ghost use Rattle.session.specs.DoneLines.{TrueSession};
ghost use Rattle.desk.specs.Traces.{Known};
ghost use Rattle.hall.specs.jamboree_rules.declared.leaf.LeafAnswer.{LeafAnswer};
ghost use Rattle.desk_office.specs.Answers.{SeenSession};

use crate::office::DeskOffice;
use desk::{Desk, DeskLedger, Jamboree, Step, Trace};
use line_io::{Sink, Source};
use session::{End, SessionFault, serve_lines};
use std::alloc::Allocator;
use std::sync::Wait;

/// Serves one session of one tenant at a desk, up to a line `BYE`, the end of the source, or a failure of source or
/// sink (`serve_lines`); in each case the tenant has left when it returns. Each line `DONE k` that it writes has the
/// minimax value and the best choice of the position and the depth of the k-th `ASK` line that was answered by `JOB`,
/// and each line `TABLE k` with entries their table. And there is something that the tenant's seat then knew of the desk's history
/// by which the session is one that `serve_desk_seen` promises.
pub fn serve_desk<S: Source, K: Sink, L: DeskLedger, R: Wait, A: Allocator + Clone>(
    rt: &R,
    source: &mut S,
    sink: &mut K,
    desk: &Desk<L, A>,
) -> Result<End, SessionFault>
    requires { L.all ≡ L.parts }
    ensures lines { TrueSession (between S.gives source.old source.new) (between K.takes sink.old sink.new) result }
    ensures seen { (knew : Option (Known (StepOf LeafAnswer))) × SeenSession L.begun (between S.gives source.old source.new) (between K.takes sink.old sink.new) result knew }
{
    let (result, _knew) = serve_desk_seen(rt, source, sink, desk);
    result
}

/// Serves one session at a desk, as `serve_desk` does, and gives back what its tenant's seat knew of the desk's
/// history when it left; `None` where no tenant came. Each answer to the tenant is a function of its request and
/// of what the tenant's own part of that history had made of it at a moment (`reply_to`); only a raise of the
/// reservation may also be refused for want of room or memory. The moments come one after another, and the tenant's
/// steps that workers didn't make are just those that its lines asked for and that were taken, each at its moment.
pub fn serve_desk_seen<S: Source, K: Sink, L: DeskLedger, R: Wait, A: Allocator + Clone>(
    rt: &R,
    source: &mut S,
    sink: &mut K,
    desk: &Desk<L, A>,
) -> (Result<End, SessionFault>, Option<Trace<Step<Jamboree>, L>>)
    requires { L.all ≡ L.parts }
    ensures { SeenSession L.begun (between S.gives source.old source.new) (between K.takes sink.old sink.new) result.0 result.1 }
{
    let mut office = DeskOffice::new(rt, desk);
    let result = serve_lines(rt, source, sink, &mut office);
    let knew = office.close();
    (result, knew)
}
