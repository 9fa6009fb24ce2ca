//! Why a text is no Othello position.
use thiserror::Error;

/// Why a text is no position: the first of these faults that the text has.
#[derive(Clone, Copy, Debug, PartialEq, Eq, Error)]
pub enum TextFault {
    /// Number 1: the text hasn't 66 bytes.
    #[error("the text hasn't 66 bytes")]
    Length,
    /// Number 2: the byte at this place, 0 to 63, is the first that spells no cell.
    #[error("byte {0} spells no cell")]
    BadCell(u8),
    /// Number 3: no space stands after the cells, or no spelling of a side after the space.
    #[error("no space and side after the cells")]
    BadSide,
}

impl TextFault {
    ghost use Rattle.std.specs.Prelude.{◌≡◌};
    ghost use Rattle.othello_board.specs.position_text.Faults.{text_fault_number};

    /// The number of the fault: 1 for Length, 2 for BadCell, 3 for BadSide.
    pub fn number(&self) -> u8
        ensures { result ≡ text_fault_number self.now }
    {
        match self {
            TextFault::Length => 1,
            TextFault::BadCell(_) => 2,
            TextFault::BadSide => 3,
        }
    }
}
