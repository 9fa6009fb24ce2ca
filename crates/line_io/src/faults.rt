//! Why a run over an input ended before the input did.
ghost use Rattle.std.specs.Prelude.{◌≡◌};
ghost use Rattle.line_io.specs.Views.{line_fault_number};
ghost use Rattle.line_io.specs.declared.faults.LineFault.TheVariants.{Read, Write};

use thiserror::Error;

/// A source has failed.
#[derive(Clone, Copy, Debug, PartialEq, Eq, Error)]
#[error("the input could not be read")]
pub struct ReadFailed;

/// A sink has failed, or has taken no byte of a write.
#[derive(Clone, Copy, Debug, PartialEq, Eq, Error)]
#[error("the output could not be written")]
pub struct WriteFailed;

/// Why a run ended before its input did. Each fault has a number.
#[derive(Clone, Copy, Debug, PartialEq, Eq, Error)]
pub enum LineFault {
    /// Number 1: the source has failed.
    #[error("the input could not be read")]
    Read,
    /// Number 2: the sink has failed, or has taken no byte of a write.
    #[error("the output could not be written")]
    Write,
    /// Number 3: 2^62 bytes or more were read.
    #[error("the input is too long")]
    TooMuch,
}

impl LineFault {
    /// The fault's number: 1 to 3.
    pub fn number(self) -> u8
        ensures { result ≡ line_fault_number self }
    {
        match self {
            LineFault::Read => 1,
            LineFault::Write => 2,
            LineFault::TooMuch => 3,
        }
    }
}

impl From<ReadFailed> for LineFault {
    ghost from_gives = { λ _ fault. fault ≡ Read };

    /// A read that failed ends the run with fault 1.
    fn from(_: ReadFailed) -> LineFault {
        LineFault::Read
    }
}

impl From<WriteFailed> for LineFault {
    ghost from_gives = { λ _ fault. fault ≡ Write };

    /// A write that failed ends the run with fault 2.
    fn from(_: WriteFailed) -> LineFault {
        LineFault::Write
    }
}
