//! A use of the promise on `solve`: what it writes for three lines.
ghost use Rattle.std.specs.Prelude.{◌≡◌, ◌⊎◌, ◌++◌, ◌∷◌, [], ℕ, ◌≤◌, ◌<◌, List, Some, Ok, Err, codes, length, map};
ghost use Rattle.std.specs.List.{concat};
ghost use Rattle.othello_eval.specs.Minimax.{minimax, best_choice};
ghost use Rattle.protocol.specs.Questions.{QuestionOf, question};
ghost use Rattle.protocol.specs.Words.{split_at_space};
ghost use Rattle.protocol.specs.Texts.{error_text, value_text};
ghost use Rattle.line_io.specs.declared.faults.LineFault.TheVariants.{Read, Write};
ghost use Rattle.line_io.specs.Leads.{Leads};
ghost use Rattle.line_io.specs.Lines.{LineText, Whole, lines_of};
ghost use Rattle.line_io.specs.Streams.{ReadAnswer, Gave, Ended, Failed};
ghost use Rattle.line_io.specs.Runs.{bytes_due, write_result};
ghost use Rattle.line_io.specs.Writes.{writes_of, written_texts};

use line_io::{LineFault, Sink, Source};
use promises::solve;
use std::alloc::Allocator;

/// Answers three lines, at any grain. Where the input has ended, all was read, and what was written is the answers,
/// each with LF; after a failed read the read failed; after a failed write something is left of the answers. The
/// second line is no question, as it has no space, and is answered by `ERR 21`; and where the third line asks for a
/// position and a depth, the third answer is its value and choice, or `ERR 19`.
/// Uses `promises::solve`.
pub fn three_lines<A, S, K>(
    alloc: A,
    source: &mut S,
    sink: &mut K,
    grain: u8,
) -> Result<(), LineFault>
where
    A: Allocator + Copy,
    S: Source,
    K: Sink,
    requires { grain ≤ 6 }
    ensures { (blocks : List (List ℕ)) × (last : List ReadAnswer) × (pieces : List (List ℕ)) × (due : List ℕ)
        × Leads S.gives source.old (map Gave blocks ++ last) source.new
        × Leads K.takes sink.old (writes_of pieces (write_result result)) sink.new
        × (result ≡ Ok tt → (last ≡ Ended ∷ []) × (concat pieces ≡ due))
        × (result ≡ Err Read → (last ≡ Failed ∷ []) × (concat pieces ≡ due))
        × (result ≡ Err Write → (rest : List ℕ) × (concat pieces ++ rest ≡ due) × (0 < length rest))
        × ((first : LineText) (third : List ℕ) (words : List ℕ × List ℕ) (asked : QuestionOf) → lines_of (bytes_due result (concat blocks)) ≡ first ∷ Whole (codes "opening") ∷ Whole third ∷ [] →
        split_at_space third ≡ Some words → question words.0 words.1 ≡ Ok asked →
        (one : List ℕ) × (three : List ℕ) × (due ≡ written_texts (one ∷ error_text 21 ∷ three ∷ []))
        × ((three ≡ value_text (minimax asked.depth asked.board) (best_choice asked.depth asked.board)) ⊎ (three ≡ error_text 19))) }
{
    solve(alloc, source, sink, grain)
}
