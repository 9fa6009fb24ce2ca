//! What a line of `solve` asks for.
ghost use Rattle.std.specs.Prelude.{◌≡◌};
ghost use Rattle.line_io.specs.Views.{text_of};
ghost use Rattle.protocol.specs.Views.{read_as};
ghost use Rattle.solve_engine.specs.Solving.{line_question};

use line_io::Line;
use protocol::{ProtocolFault, Question, read_question, split_at_space};

/// What a line asks for, or its first fault: it is too long, has no space, or its depth or its position is wrong.
pub(crate) fn read_line(line: Line<'_>) -> Result<Question, ProtocolFault>
    ensures { read_as result ≡ line_question (text_of line.entry) }
{
    let Line::Whole(bytes) = line else {
        return Err(ProtocolFault::LongLine);
    };
    match split_at_space(bytes) {
        Some((depth, position)) => read_question(depth, position),
        None => Err(ProtocolFault::NoCommand),
    }
}
