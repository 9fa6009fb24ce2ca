//! What the words `depth position` of a line ask for.
ghost use Rattle.std.specs.Prelude.{◌≡◌, ◌≤◌};
ghost use Rattle.protocol.specs.Questions.{question, position_question};
ghost use Rattle.protocol.specs.Views.{read_as};

use crate::faults::ProtocolFault;
use crate::questions::Question;
use crate::words::word_number;
use othello_board::position_text::read;
use othello_moves::DEEPEST;

/// The question about the position in `text`, to `depth` plies, or the first fault in it: length, cell, side (24 to 26).
fn position_question(depth: u8, text: &[u8]) -> Result<Question, ProtocolFault>
    requires { depth ≤ DEEPEST }
    ensures { read_as result ≡ position_question depth text.now }
{
    match read(text) {
        Ok(position) => Ok(Question { depth, position }),
        Err(fault) => Err(ProtocolFault::from(fault)),
    }
}

/// What a depth's word and a position's text ask for, or their first fault: 23 where the depth is no number of 1 to 8
/// digits, 27 where it is over 12, then 24 for the length of the text, 25 for a cell and 26 for the side.
pub fn read_question(depth: &[u8], position: &[u8]) -> Result<Question, ProtocolFault>
    ensures { read_as result ≡ question depth.now position.now }
{
    let Some(number) = word_number(depth) else {
        return Err(ProtocolFault::NoNumber);
    };
    if number > u32::from(DEEPEST) {
        return Err(ProtocolFault::TooDeep);
    }
    position_question(number as u8, position)
}
