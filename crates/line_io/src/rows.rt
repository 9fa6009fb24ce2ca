//! The definitions of an input's lines, tried on small inputs: each contract is computed from the definitions alone.
//! `a` is 97, `b` is 98, CR is 13 and LF is 10.
ghost use Rattle.std.specs.Prelude.{◌≡◌, [], ◌∷◌, ◌++◌, replicate};
ghost use Rattle.line_io.specs.Lines.{Whole, TooLong, lines_of, up_to_last_end};

/// A line ends with LF, one CR before it is dropped, and bytes after the last LF are a line too.
pub fn lines_are_cut()
    ensures no_byte { lines_of [] ≡ [] }
    ensures an_empty_line { lines_of (10 ∷ []) ≡ Whole [] ∷ [] }
    ensures no_end { lines_of (97 ∷ 10 ∷ 98 ∷ []) ≡ Whole (97 ∷ []) ∷ Whole (98 ∷ []) ∷ [] }
    ensures one_return { lines_of (97 ∷ 13 ∷ 10 ∷ []) ≡ Whole (97 ∷ []) ∷ [] }
    ensures two_returns { lines_of (13 ∷ 13 ∷ 10 ∷ []) ≡ Whole (13 ∷ []) ∷ [] }
    ensures inner_return { lines_of (13 ∷ 97 ∷ 10 ∷ []) ≡ Whole (13 ∷ 97 ∷ []) ∷ [] }
    ensures last_return { lines_of (97 ∷ 13 ∷ []) ≡ Whole (97 ∷ 13 ∷ []) ∷ [] }
{}

/// A line has at most 128 bytes without its end; the next is cut as usual.
pub fn longer_lines_are_skipped()
    ensures most { lines_of (replicate 128 97 ++ 13 ∷ 10 ∷ []) ≡ Whole (replicate 128 97) ∷ [] }
    ensures longer { lines_of (replicate 129 97 ++ 10 ∷ 98 ∷ []) ≡ TooLong ∷ Whole (98 ∷ []) ∷ [] }
    ensures return_and_no_end { lines_of (replicate 128 97 ++ 13 ∷ []) ≡ TooLong ∷ [] }
{}

/// Where a read fails, the bytes after the last LF are no line: of LF, a, LF, b the first three count, of a, b none.
pub fn bytes_after_the_last_end_are_left_out()
    ensures some { up_to_last_end (10 ∷ 97 ∷ 10 ∷ 98 ∷ []) ≡ 10 ∷ 97 ∷ 10 ∷ [] }
    ensures none { up_to_last_end (97 ∷ 98 ∷ []) ≡ [] }
{}
