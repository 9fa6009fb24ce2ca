//! How a session with a client ends.
ghost use Rattle.std.specs.Prelude.{◌≡◌};
ghost use Rattle.session.specs.Ends.{session_fault_number};

use thiserror::Error;

/// How a session ended.
#[derive(Clone, Copy, Debug, PartialEq, Eq)]
pub enum End {
    /// By a line `BYE`, which is answered. Nothing after it is.
    Bye,
    /// By the end of the input. All lines are answered, and none of them is `BYE`.
    EndOfInput,
}

/// Why a session ended before its input did. Each fault has a number.
#[derive(Clone, Copy, Debug, PartialEq, Eq, Error)]
pub enum SessionFault {
    /// Number 1: the source has failed.
    #[error("the lines could not be read")]
    Read,
    /// Number 2: the sink has failed, or has taken no byte of a write.
    #[error("the answers could not be written")]
    Write,
}

impl SessionFault {
    /// The fault's number: 1 after a failed read, 2 after a failed write.
    pub fn number(self) -> u8
        ensures { result ≡ session_fault_number self }
    {
        match self {
            SessionFault::Read => 1,
            SessionFault::Write => 2,
        }
    }
}
