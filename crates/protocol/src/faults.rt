//! Why a line is no valid request of the protocol.
ghost use Rattle.std.specs.Prelude.{◌≡◌};
ghost use Rattle.protocol.specs.Faults.{fault_number, position_fault};

use othello_board::position_text::TextFault;
use thiserror::Error;

/// Why a line of `solve` or of a session is no valid request: its first fault, in the order of `docs/PROTOCOL.md`.
/// The answer is `ERR` and the fault's number. The numbers 1 to 20 are those of the scheduling core's refusals.
#[derive(Clone, Copy, Debug, PartialEq, Eq, Error)]
pub enum ProtocolFault {
    /// 21: in a line of `solve` there is no space; in one of a session the word is unknown, or has another number of
    /// arguments.
    #[error("no such command")]
    NoCommand = 21,
    /// 22: the line has more than 128 bytes.
    #[error("the line is too long")]
    LongLine,
    /// 23: a word that is to be a number isn't 1 to 8 digits, or a reservation is outside its limits.
    #[error("not a number within the limits")]
    NoNumber,
    /// 24: the position's text hasn't 66 bytes.
    #[error("the position hasn't 66 bytes")]
    PositionLength,
    /// 25: one of the text's first 64 bytes spells no cell.
    #[error("a byte of the position spells no cell")]
    PositionCell,
    /// 26: no space stands after the cells, or no spelling of a side after the space.
    #[error("no space and side after the cells")]
    PositionSide,
    /// 27: the depth is over 12.
    #[error("the depth is over 12")]
    TooDeep,
    /// 28: the session has no tenant yet, and the line is neither HELLO nor BYE.
    #[error("no HELLO yet")]
    NoHello,
    /// 29: the line is HELLO, and the session has its tenant already.
    #[error("HELLO again")]
    HelloAgain,
}

impl ProtocolFault {
    /// The number of the line's fault, 21 to 29, which the answer `ERR` tells.
    pub fn number(self) -> u8
        ensures { result ≡ fault_number self }
    {
        self as u8
    }
}

impl From<TextFault> for ProtocolFault {
    ghost from_gives = { λ text fault. fault ≡ position_fault text };

    /// The fault of a position's text as a fault of its line.
    fn from(fault: TextFault) -> ProtocolFault {
        match fault {
            TextFault::Length => ProtocolFault::PositionLength,
            TextFault::BadCell(_) => ProtocolFault::PositionCell,
            TextFault::BadSide => ProtocolFault::PositionSide,
        }
    }
}
