//! A use of the promise on a session: what it writes third, and how it ends.
ghost use Rattle.std.specs.Prelude.{◌≡◌, ◌++◌, ◌∷◌, [], ℕ, List, true, Ok, Err, codes, decimal, map};
ghost use Rattle.std.specs.List.{concat};
ghost use Rattle.othello_board.specs.declared.cells.Cell.{Cell};
ghost use Rattle.othello_eval.specs.Minimax.{minimax, best_choice};
ghost use Rattle.othello_eval.specs.Tables.{IsTable};
ghost use Rattle.othello_board.specs.declared.position_text.positions.Side.{Side};
ghost use Rattle.protocol.specs.Texts.{value_text};
ghost use Rattle.line_io.specs.Leads.{Leads};
ghost use Rattle.line_io.specs.Lines.{LineText, Whole};
ghost use Rattle.line_io.specs.Streams.{ReadAnswer, Gave, Ended, Failed};
ghost use Rattle.line_io.specs.Runs.{write_result};
ghost use Rattle.line_io.specs.Writes.{IsCutShort, writes_of, written_texts};
ghost use Rattle.session.specs.declared.faults.End.TheVariants.{EndOfInput};
ghost use Rattle.session.specs.declared.faults.SessionFault.TheVariants.{Read, Write};
ghost use Rattle.session.specs.declared.standings.Analysis.{Analysis};
ghost use Rattle.session.specs.declared.standings.Standing.TheVariants.{Done};
ghost use Rattle.session.specs.Calls.{Ask, Wait as WaitOf, OfficeReply, Welcome, Job, Told};
ghost use Rattle.session.specs.Requests.{Makes, Tabulates, request};
ghost use Rattle.session.specs.Sessions.{session_lines, talk_result, texts_for};
ghost use Rattle.session.specs.Turns.{entries_text, pair_text};

use desk::{Desk, DeskLedger};
use desk_office::serve_desk;
use line_io::{Sink, Source};
use session::{End, SessionFault};
use std::alloc::Allocator;
use std::sync::Wait;

/// Serves one session. Where it ended by the end of its input, the lines of all that was read are answered, and what
/// was written is the answers, each with LF; by a failed read, the read failed; after a failed write, something of the
/// last answer is left. Where the lines are `HELLO 4 8`, one that asks for a position, and one that waits for its job,
/// and the replies are a Welcome, a Job and what the done job came to, then that is job 1, and the third answer is
/// `DONE 1` with the minimax value and the best choice of that position; where the third line asks for the table, the
/// answer is `TABLE 1` with that position's table. Uses `desk_office::serve_desk` (`lines`).
pub fn third_answer<S, K, L, R, A>(
    rt: &R,
    source: &mut S,
    sink: &mut K,
    desk: &Desk<L, A>,
) -> Result<End, SessionFault>
where
    S: Source,
    K: Sink,
    L: DeskLedger,
    R: Wait,
    A: Allocator + Clone,
    requires { L.all ≡ L.parts }
    ensures { (blocks : List (List ℕ)) × (last : List ReadAnswer) × (pieces : List (List ℕ)) × (lines : List LineText) × (replies : List OfficeReply)
        × Leads S.gives source.old (map Gave blocks ++ last) source.new
        × Leads K.takes sink.old (writes_of pieces (write_result (talk_result result))) sink.new
        × (result ≡ Ok EndOfInput → (last ≡ Ended ∷ []) × (lines ≡ session_lines (concat blocks)) × (concat pieces ≡ written_texts (texts_for lines replies)))
        × (result ≡ Err Read → (last ≡ Failed ∷ []) × (concat pieces ≡ written_texts (texts_for lines replies)))
        × (result ≡ Err Write → (rest : List ℕ) × (concat pieces ++ rest ≡ written_texts (texts_for lines replies)) × IsCutShort (texts_for lines replies) rest)
        × ((asks third : LineText) (depth : ℕ) (board : List Cell) (side : Side) (number job : ℕ) (analysis : Analysis) →
        lines ≡ Whole (codes "HELLO 4 8") ∷ asks ∷ third ∷ [] → request true asks ≡ Makes (Ask depth board side) →
        replies ≡ Welcome (record { segments = 4; nodes = 8 }) ∷ Job number ∷ Told job (Done analysis) ∷ [] →
        (number ≡ 1)
        × (request true third ≡ Makes (WaitOf job) → (job ≡ 1)
        × (texts_for lines replies ≡ (codes "WELCOME " ++ pair_text 4 8) ∷ (codes "JOB " ++ decimal 1) ∷ (codes "DONE " ++ decimal 1 ++ codes " " ++ value_text (minimax depth board) (best_choice depth board)) ∷ []))
        × (request true third ≡ Tabulates job → (job ≡ 1) × IsTable depth board analysis.bounds
        × (texts_for lines replies ≡ (codes "WELCOME " ++ pair_text 4 8) ∷ (codes "JOB " ++ decimal 1) ∷ (codes "TABLE " ++ decimal 1 ++ entries_text analysis.bounds) ∷ []))) }
{
    serve_desk(rt, source, sink, desk)
}
