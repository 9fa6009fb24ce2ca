//! A site's files and sockets by their paths, for threads too: the bound `Files` can't be handed to a thread that is
//! spawned, as its files' type may be one of the thread that opened them.
use libc::RLIMIT_NOFILE;
use libc::types::rlimit;
use std::fs::Permissions;
use std::io::Write;
use std::os::unix::fs::PermissionsExt;
use std::os::unix::net::{UnixListener, UnixStream};
use std::time::Duration;
use std::{fs, io};

/// The rights of the operator's socket: its owner and its group may write to it.
const RIGHTS: u32 = 0o660;

/// Seconds in which a site answers its operator.
const ANSWER_SECS: u64 = 60;

/// What is found by a path, and what the system lets the process have.
pub(crate) trait Paths {
    /// The text of the file at this path, read whole.
    fn text_of(&self, path: &str) -> io::Result<String>;

    /// A socket at this path, in the place of one that was there.
    fn socket_at(&self, path: &str) -> io::Result<UnixListener>;

    /// What a site answers at the socket of this path to a line.
    fn answer_of(&self, path: &str, line: &str) -> io::Result<String>;

    /// The most descriptors that the process may have; `None` where the system doesn't say it.
    fn descriptors(&self) -> Option<u64>;
}

impl Paths for HostRuntime {
    /// The text of the file at this path.
    fn text_of(&self, path: &str) -> io::Result<String> {
        fs::read_to_string(self, path)
    }

    /// A new socket at this path, which its owner and its group alone may open (mode 660); one that stood there before
    /// is removed.
    fn socket_at(&self, path: &str) -> io::Result<UnixListener> {
        let _ = fs::remove_file(self, path);
        let listener = UnixListener::bind(self, path)?;
        fs::set_permissions(self, path, Permissions::from_mode(RIGHTS))?;
        Ok(listener)
    }

    /// Connects to the socket at this path, says this line, and returns all that is answered.
    fn answer_of(&self, path: &str, line: &str) -> io::Result<String> {
        let mut stream = UnixStream::connect(self, path)?;
        stream.set_read_timeout(Some(Duration::from_secs(ANSWER_SECS)))?;
        stream.write_all(line.as_bytes())?;
        stream.write_all(b"\n")?;
        io::read_to_string(self.alloc(), stream)
    }

    /// How many file descriptors the process may have open; None where the system doesn't tell.
    fn descriptors(&self) -> Option<u64> {
        let mut limit = rlimit {
            rlim_cur: 0,
            rlim_max: 0,
        };
        if libc::getrlimit(RLIMIT_NOFILE, &mut limit) == 0 {
            Some(limit.rlim_cur)
        } else {
            None
        }
    }
}
