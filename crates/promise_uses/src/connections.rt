//! What a site's connection said, and how it was answered.
ghost use Rattle.std.specs.Prelude.{◌≡◌, ◌⊎◌, ◌∷◌, ◌++◌, [], ℕ, List, false, Ok, Option, Some, None, codes, map};
ghost use Rattle.std.specs.List.{concat};
ghost use Rattle.line_io.specs.Leads.{Leads};
ghost use Rattle.line_io.specs.Lines.{LineText, Whole, lines_of};
ghost use Rattle.line_io.specs.Runs.{write_result};
ghost use Rattle.line_io.specs.Streams.{ReadAnswer, Gave, Ended};
ghost use Rattle.line_io.specs.Talks.{upto};
ghost use Rattle.line_io.specs.Writes.{writes_of, written_texts};
ghost use Rattle.line_io.specs.declared.talking.TalkEnd.TheVariants.{Input};
ghost use Rattle.tenant_quota.specs.Reserves.{ReserveOf};
ghost use Rattle.sched_rules.specs.declared.step.StepOf.TheVariants.{Admit, Leave as LeaveStep};
ghost use Rattle.desk.specs.Histories.{seat_steps, steps_of, AreTaken};
ghost use Rattle.jamboree_rules.specs.Procedure.{jamboree};
ghost use Rattle.desk_office.specs.Answers.{NobodyCame};
ghost use Rattle.session.specs.Asks.{Asked, KeepsAsks};
ghost use Rattle.session.specs.Calls.{Hello, Leave, OfficeReply, Welcome, Gone};
ghost use Rattle.session.specs.DoneLines.{EachDoneIsTrue};
ghost use Rattle.session.specs.Requests.{is_bye};
ghost use Rattle.session.specs.Sessions.{Called, calls_for};
ghost use Rattle.session.specs.Turns.{turns};
ghost use Rattle.site_desk.specs.Seats.{SiteTraceOf};
ghost use Rattle.promises.specs.Replies.{SearchStep};

use line_io::{LineFault, Sink, Source, TalkEnd};
use site_desk::{SiteNaming, SiteTrace};
use site_office::{Connection, Environment, serve_connection};
use std::alloc::Allocator;
use std::sync::Wait;
use std::time::Clock;

/// Serves a connection. What was read gave lines, and what was written is their answers with an LF each: all of both where the input ended.
/// Where the lines are PING and a HELLO with a token, the first answer is PONG, and the session's own lines are none, or that HELLO without
/// it. Each JOB, DONE and TABLE line is true. Where the calls that the session's own lines made were a HELLO that was welcomed, and then its
/// tenant left, the tenant's seat steps in the history of the desk whose number its trace says are its Admit and its Leave, which is the end
/// of it; and all steps of that were taken. Where there is no trace, nobody came. Uses `site_office::serve_connection`.
pub fn ping_and_hello<'a, S, K, J, H, R, A>(
    rt: &'a R,
    source: &mut S,
    sink: &mut K,
    connection: Connection<'a, J, H, A>,
) -> (Result<TalkEnd, LineFault>, Option<SiteTrace<J>>, H)
where
    S: Source,
    K: Sink,
    J: SiteNaming,
    H: Environment,
    R: Wait + Clock,
    A: Allocator + Clone,
    ensures { (lines : List LineText) × (texts : List (List ℕ)) × (own : List LineText) × (replies : List OfficeReply) × (asks : List Asked)
        × (blocks : List (List ℕ)) × (last : List ReadAnswer) × (pieces : List (List ℕ)) × (rest : List ℕ)
        × Leads S.gives source.old (map Gave blocks ++ last) source.new
        × Leads K.takes sink.old (writes_of pieces (write_result result.0)) sink.new
        × (concat pieces ++ rest ≡ written_texts texts)
        × (result.0 ≡ Ok Input → (last ≡ Ended ∷ []) × (lines ≡ upto is_bye (lines_of (concat blocks))) × (rest ≡ []))
        × (lines ≡ Whole (codes "PING") ∷ Whole (codes "HELLO 4 8 abc") ∷ [] →
        (answer : List ℕ) × (texts ≡ codes "PONG" ∷ answer ∷ []) × ((own ≡ []) ⊎ (own ≡ Whole (codes "HELLO 4 8") ∷ [])))
        × EachDoneIsTrue [] own (turns false own replies)
        × Leads (Called KeepsAsks) [] (calls_for own replies) asks
        × ((quota : ReserveOf) (trace : SiteTraceOf) → calls_for own replies ≡ (Hello quota, Welcome quota) ∷ (Leave, Gone) ∷ [] → result.1 ≡ Some trace →
        (number : ℕ) × (before between : List (ℕ × SearchStep))
        × (trace.known.seen ≡ ((before ++ (trace.known.maker, Admit number quota) ∷ []) ++ between) ++ (trace.known.maker, LeaveStep number) ∷ [])
        × (seat_steps number (steps_of between) ≡ [])
        × (seat_steps number (steps_of trace.known.seen) ≡ trace.known.mine)
        × AreTaken (jamboree (J.begun trace.at).grain) (J.begun trace.at).shared (steps_of trace.known.seen))
        × (result.1 ≡ None → NobodyCame (calls_for own replies)) }
{
    serve_connection(rt, source, sink, connection)
}
