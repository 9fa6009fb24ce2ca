//! Why the words of `othello`'s command line are not followed.
ghost use Rattle.std.specs.Prelude.{◌≡◌};
ghost use Rattle.commands.specs.command_line.Faults.{exit_status};

use thiserror::Error;

/// Why the words of the command line are not followed.
#[derive(Debug, Drop, Error)]
pub enum WordsFault {
    /// There was no memory to read them.
    #[error("no memory to read the command line")]
    OutOfMemory,
    /// They were refused, or they ask for help or the version: the error says what to print, and where.
    #[error("{0}")]
    Refused(clap::Error),
}

impl WordsFault {
    /// The exit status: 1 for want of memory, 0 where help or the version is asked for, and else 2.
    pub fn status(&self) -> u8
        ensures { result ≡ exit_status self.now }
    {
        match self {
            WordsFault::OutOfMemory => 1,
            WordsFault::Refused(error) if error.use_stderr() => 2,
            WordsFault::Refused(_) => 0,
        }
    }
}
