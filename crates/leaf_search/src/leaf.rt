//! The positions at depth 0 of a serial search, below which none is entered.
ghost use Rattle.std.specs.Prelude.{◌≡◌};
ghost use Rattle.othello_board.specs.Words.{cells};
ghost use Rattle.othello_eval.specs.Values.{IsWithin};
ghost use Rattle.othello_eval.specs.Minimax.{minimax};

use othello_eval::othello_moves::Mobility;
use othello_eval::{Weighed, final_value};

/// The value of a position at depth 0.
#[inline(always)]
pub(crate) fn entered(weighed: Weighed) -> i32
    ensures value { result ≡ minimax 0 (cells weighed.board) }
    ensures within { IsWithin 128000 result }
{
    let mobility = Mobility::of(weighed.board);
    if mobility.is_over() {
        return final_value(weighed.board);
    }
    weighed.eval(mobility)
}
