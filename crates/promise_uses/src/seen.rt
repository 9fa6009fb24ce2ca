//! Uses of the promise on a session in its history: what a session's lines say of the server's history.
ghost use Rattle.std.specs.Prelude.{◌≡◌, ◌⊎◌, ◌∷◌, ◌++◌, ◌+◌, [], ℕ, List, length, false, Option, Some, None, option_map};
ghost use Rattle.std.specs.List.{concat};
ghost use Rattle.line_io.specs.Leads.{Leads};
ghost use Rattle.line_io.specs.Lines.{LineText};
ghost use Rattle.line_io.specs.Runs.{write_result};
ghost use Rattle.line_io.specs.Writes.{writes_of};
ghost use Rattle.tenant_quota.specs.Reserves.{ReserveOf};
ghost use Rattle.tenant_quota.specs.declared.account.Left.{Left as LeftOf};
ghost use Rattle.othello_board.specs.declared.boards.Board.{Board};
ghost use Rattle.othello_board.specs.declared.cells.Cell.{Cell};
ghost use Rattle.othello_board.specs.Words.{cells};
ghost use Rattle.othello_board.specs.declared.position_text.positions.Side.{Side};
ghost use Rattle.sched_rules.specs.declared.job.Job.TheVariants.{Spent as SpentJob};
ghost use Rattle.sched_rules.specs.declared.refusal.Refusal.{Refusal};
ghost use Rattle.sched_rules.specs.declared.refusal.Refusal.TheVariants.{Full};
ghost use Rattle.sched_rules.specs.Refusals.{refusal_number};
ghost use Rattle.sched_rules.specs.declared.step.StepOf.TheVariants.{Admit, AdmitMore, Submit, Leave as LeaveStep};
ghost use Rattle.sched_rules.specs.Trees.{Tenant, left as left_of, job_at};
ghost use Rattle.sched_rules.specs.Lone.{lone_refusal};
ghost use Rattle.sched_rules.specs.Runs.{alone, only};
ghost use Rattle.sched_rules.specs.Cores.{shared_refusal, shared_run};
ghost use Rattle.jamboree_rules.specs.Procedure.{jamboree};
ghost use Rattle.jamboree_rules.specs.Places.{root_words, frame_size};
ghost use Rattle.desk.specs.Traces.{Known};
ghost use Rattle.desk.specs.Histories.{seat_steps, steps_of, AreTaken};
ghost use Rattle.session.specs.declared.standings.Standing.TheVariants.{Spent};
ghost use Rattle.session.specs.Calls.{Hello, Reserve, Ask, Wait as WaitFor, AskQuota, Leave, OfficeReply, Welcome, Job, Told, Rest, Gone, Refused};
ghost use Rattle.session.specs.DoneLines.{EachDoneIsTrue};
ghost use Rattle.session.specs.Turns.{turns};
ghost use Rattle.session.specs.Sessions.{calls_for, talk_result, texts_for, IsWrittenOf};
ghost use Rattle.promises.specs.Replies.{SearchStep};

use desk::{Desk, DeskLedger, Trace};
use desk_office::serve_desk;
use hall::{Jamboree, Step};
use line_io::{Sink, Source};
use promises::serve;
use session::{End, SessionFault};
use std::alloc::Allocator;
use std::sync::Wait;

/// Serves one session. What was written is the texts of its replies, and each JOB, DONE and TABLE line is true by the
/// lines before it. Suppose that its lines made the calls HELLO and QUOTA, and then its tenant left. Then QUOTA told
/// what the tenant's own steps up to a moment left to it. The desk's history up to that moment has the tenant's Admit,
/// and after it only steps of others and of workers. All steps of the history were taken. Uses `promises::serve`.
pub fn quota_after_hello<S, K, L, R, A>(
    rt: &R,
    source: &mut S,
    sink: &mut K,
    desk: &Desk<L, A>,
) -> (Result<End, SessionFault>, Option<Trace<Step<Jamboree>, L>>)
where
    S: Source,
    K: Sink,
    L: DeskLedger,
    R: Wait,
    A: Allocator + Clone,
    requires { L.all ≡ L.parts }
    ensures { (lines : List LineText) × (replies : List OfficeReply) × (pieces : List (List ℕ))
        × Leads K.takes sink.old (writes_of pieces (write_result (talk_result result.0))) sink.new
        × IsWrittenOf (write_result (talk_result result.0)) (concat pieces) (texts_for lines replies)
        × EachDoneIsTrue [] lines (turns false lines replies)
        × ((quota : ReserveOf) (left : LeftOf) (known : Known SearchStep) → calls_for lines replies ≡ (Hello quota, Welcome quota) ∷ (AskQuota, Rest left) ∷ (Leave, Gone) ∷ [] → result.1 ≡ Some known →
        (number : ℕ) × (before between later : List (ℕ × SearchStep))
        × (known.seen ≡ ((before ++ (known.maker, Admit number quota) ∷ []) ++ between) ++ later)
        × (only number (steps_of before) ≡ []) × (seat_steps number (steps_of between) ≡ [])
        × (Some left ≡ option_map left_of (alone (jamboree L.begun.grain) (only number (steps_of ((before ++ (known.maker, Admit number quota) ∷ []) ++ between)))))
        × AreTaken (jamboree L.begun.grain) L.begun.shared (steps_of known.seen)) }
{
    serve(rt, source, sink, desk)
}

/// Serves one session. Where the calls that its lines made were HELLO alone, and then its tenant left, the tenant's seat steps in the
/// history are its Admit and its Leave, which is the end of it.
/// Uses `promises::serve`.
pub fn hello_and_bye<S, K, L, R, A>(
    rt: &R,
    source: &mut S,
    sink: &mut K,
    desk: &Desk<L, A>,
) -> (Result<End, SessionFault>, Option<Trace<Step<Jamboree>, L>>)
where
    S: Source,
    K: Sink,
    L: DeskLedger,
    R: Wait,
    A: Allocator + Clone,
    requires { L.all ≡ L.parts }
    ensures { (lines : List LineText) × (replies : List OfficeReply) × ((quota : ReserveOf) (known : Known SearchStep) →
        calls_for lines replies ≡ (Hello quota, Welcome quota) ∷ (Leave, Gone) ∷ [] → result.1 ≡ Some known →
        (number : ℕ) × (before between : List (ℕ × SearchStep))
        × (known.seen ≡ ((before ++ (known.maker, Admit number quota) ∷ []) ++ between) ++ (known.maker, LeaveStep number) ∷ [])
        × (seat_steps number (steps_of between) ≡ [])
        × (seat_steps number (steps_of known.seen) ≡ known.mine)) }
{
    serve(rt, source, sink, desk)
}

/// Serves one session without giving back what its seat knew. Where its calls were HELLO alone, and then its tenant
/// left, there is what the seat knew: the tenant's seat steps in the history are its Admit and its Leave. Uses
/// `desk_office::serve_desk` (`seen`).
pub fn hello_and_bye_untold<S, K, L, R, A>(
    rt: &R,
    source: &mut S,
    sink: &mut K,
    desk: &Desk<L, A>,
) -> Result<End, SessionFault>
where
    S: Source,
    K: Sink,
    L: DeskLedger,
    R: Wait,
    A: Allocator + Clone,
    requires { L.all ≡ L.parts }
    ensures { (knew : Option (Known SearchStep)) × (lines : List LineText) × (replies : List OfficeReply) × ((quota : ReserveOf) (known : Known SearchStep) →
        calls_for lines replies ≡ (Hello quota, Welcome quota) ∷ (Leave, Gone) ∷ [] → knew ≡ Some known →
        (number : ℕ) × (before between : List (ℕ × SearchStep))
        × (known.seen ≡ ((before ++ (known.maker, Admit number quota) ∷ []) ++ between) ++ (known.maker, LeaveStep number) ∷ [])
        × (seat_steps number (steps_of between) ≡ [])
        × (seat_steps number (steps_of known.seen) ≡ known.mine)) }
{
    serve_desk(rt, source, sink, desk)
}

/// Serves one session. Suppose that its lines made these calls: HELLO; an ASK to depth 3, which got a number; a WAIT
/// for job 1, which was spent; and a raise, which was refused by 14. Then the desk's history has the Submit of just
/// that board, after a moment at which the ASK's number was that of the tenant's next job. At a later moment the
/// tenant's job 1 was spent. At a still later one either the tenant alone would refuse the raise by 14, or the totals
/// don't allow it. Uses `promises::serve`.
pub fn a_spent_ask<S, K, L, R, A>(
    rt: &R,
    source: &mut S,
    sink: &mut K,
    desk: &Desk<L, A>,
) -> (Result<End, SessionFault>, Option<Trace<Step<Jamboree>, L>>)
where
    S: Source,
    K: Sink,
    L: DeskLedger,
    R: Wait,
    A: Allocator + Clone,
    requires { L.all ≡ L.parts }
    ensures { (lines : List LineText) × (replies : List OfficeReply) × ((quota more : ReserveOf) (board : List Cell) (side : Side) (job : ℕ) (known : Known SearchStep) →
        calls_for lines replies ≡ (Hello quota, Welcome quota) ∷ (Ask 3 board side, Job job) ∷ (WaitFor 1, Told 1 Spent) ∷ (Reserve more, Refused 14) ∷ (Leave, Gone) ∷ [] → result.1 ≡ Some known →
        (number : ℕ) × (first second third later : List (ℕ × SearchStep)) × (words : Board)
        × (board ≡ cells words)
        × (known.seen ≡ (((first ++ (known.maker, Submit number (root_words words.own words.opp 3) frame_size) ∷ []) ++ second) ++ third) ++ later)
        × (seat_steps number (steps_of (second ++ third)) ≡ [])
        × ((its : Tenant) → alone (jamboree L.begun.grain) (only number (steps_of first)) ≡ Some its → job ≡ length its.jobs + 1)
        × ((its : Tenant) → alone (jamboree L.begun.grain) (only number (steps_of ((first ++ (known.maker, Submit number (root_words words.own words.opp 3) frame_size) ∷ []) ++ second))) ≡ Some its → job_at its.jobs 1 ≡ Some SpentJob)
        × (((refusal : Refusal) × (lone_refusal (jamboree L.begun.grain) (alone (jamboree L.begun.grain) (only number (steps_of (((first ++ (known.maker, Submit number (root_words words.own words.opp 3) frame_size) ∷ []) ++ second) ++ third)))) (AdmitMore number more) ≡ Some refusal) × (refusal_number refusal ≡ 14))
        ⊎ (shared_refusal (jamboree L.begun.grain) (shared_run (jamboree L.begun.grain) L.begun.shared (steps_of (((first ++ (known.maker, Submit number (root_words words.own words.opp 3) frame_size) ∷ []) ++ second) ++ third))) (AdmitMore number more) ≡ Some Full))) }
{
    serve(rt, source, sink, desk)
}
