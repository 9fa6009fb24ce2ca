//! A site's short connections that are answered side by side, each by one of a few threads that are there from the
//! start. Where one comes beyond them, that is shut which has been there longest. So no number of silent ones keeps
//! another from its answer, and neither does a shortage of threads or descriptors: what answers is there already, and
//! the site's connections leave descriptors for it.
use crate::links::{MOST_BYTES, Received, is_interrupted};
use std::alloc::{AllocError, Global};
use std::collections::VecDeque;
use std::io::{self, Read, Write};
use std::net::{Shutdown, TcpStream};
use std::os::unix::net::UnixStream;
use std::sync::{Arc, Condvar, Mutex, Wait};
use std::thread;
use std::time::{Clock, Duration};

/// Threads that answer, and the most connections that are there at once.
pub(crate) const HOSTS: usize = 16;

/// Milliseconds before a connection is taken again, where none could be.
const PAUSE_MILLIS: u64 = 100;

/// A visitor's connection.
pub(crate) trait Visit {
    /// Sets for how long a read and a write may take; `None` where that can't be.
    fn limit(&self, most: Duration) -> Option<()>;

    /// Reads the next bytes into the block.
    fn hear(&self, block: &mut [u8]) -> io::Result<usize>;

    /// Writes a text; `None` where that failed.
    fn say(&self, text: &str) -> Option<()>;

    /// Shuts the connection: nothing is read of it or written to it from now on, and a thread that waits to read or
    /// write wakes up.
    fn shut(&self);
}

impl Visit for TcpStream {
    /// Sets the limits of a TCP connection.
    fn limit(&self, most: Duration) -> Option<()> {
        self.set_read_timeout(Some(most)).ok()?;
        self.set_write_timeout(Some(most)).ok()
    }

    /// Reads from a TCP connection.
    fn hear(&self, block: &mut [u8]) -> io::Result<usize> {
        (&*self).read(block)
    }

    /// Writes to a TCP connection.
    fn say(&self, text: &str) -> Option<()> {
        (&*self).write_all(text.as_bytes()).ok()
    }

    /// Shuts a TCP connection in both directions.
    fn shut(&self) {
        let _ = self.shutdown(Shutdown::Both);
    }
}

impl Visit for UnixStream {
    /// Sets the limits of a connection of the local socket.
    fn limit(&self, most: Duration) -> Option<()> {
        self.set_read_timeout(Some(most)).ok()?;
        self.set_write_timeout(Some(most)).ok()
    }

    /// Reads from a connection of the local socket.
    fn hear(&self, block: &mut [u8]) -> io::Result<usize> {
        (&*self).read(block)
    }

    /// Writes to a connection of the local socket.
    fn say(&self, text: &str) -> Option<()> {
        (&*self).write_all(text.as_bytes()).ok()
    }

    /// Shuts a connection of the local socket in both directions.
    fn shut(&self) {
        let _ = self.shutdown(Shutdown::Both);
    }
}

/// Who answers visitors.
pub(crate) trait Host {
    /// In which time what is asked is whole, and in which its answer is taken.
    fn limit(&self) -> Duration;

    /// The answer to what these bytes ask; `None` where that isn't whole yet.
    fn answer(&self, bytes: &[u8]) -> Option<Result<String, AllocError>>;
}

/// Those who are there, in the order in which they came. Each has another name, which its thread has, or which waits for one.
#[derive(Drop)]
struct Visitors<S: Drop> {
    there: VecDeque<Arc<S, Global>>,
    waiting: VecDeque<Arc<S, Global>>,
}

impl<S: Visit + Drop> Visitors<S> {
    /// Takes one connection in, and shuts the one that has been there longest where 16 are there.
    fn admit(&mut self, stream: Arc<S, Global>, other: Arc<S, Global>) -> Result<(), AllocError> {
        self.there.retain(|each| Arc::strong_count(each) > 1);
        if self.there.len() >= HOSTS {
            if let Some(oldest) = self.there.pop_front() {
                oldest.shut();
            }
        }
        self.there.push_back(stream)?;
        self.waiting.push_back(other)?;
        Ok(())
    }
}

/// Those who are there, for all threads.
#[derive(Drop)]
pub(crate) struct Visits<S: Drop> {
    visitors: Mutex<Visitors<S>>,
    came: Condvar,
}

impl<S: Visit + Drop> Visits<S> {
    /// The visits of a new site: no connection is there.
    pub(crate) fn new(alloc: Global) -> Visits<S> {
        Visits {
            visitors: Mutex::new(Visitors {
                there: VecDeque::new(alloc),
                waiting: VecDeque::new(alloc),
            }),
            came: Condvar::new(),
        }
    }

    /// Takes one connection in, which the next free thread answers.
    fn admit<R: Wait>(&self, rt: &R, alloc: Global, stream: S) -> Result<(), AllocError> {
        let stream = Arc::new(alloc, stream)?;
        let other = Arc::try_clone(&stream)?;
        let admitted = self.visitors.lock(rt).admit(stream, other);
        self.came.notify_all();
        admitted
    }

    /// Waits for a connection that no thread answers yet, and takes it.
    fn next<R: Wait>(&self, rt: &R) -> Option<Arc<S, Global>> {
        let mut visitors = self
            .came
            .wait_while(rt, self.visitors.lock(rt), |visitors| {
                visitors.waiting.is_empty()
            });
        visitors.waiting.pop_front()
    }

    /// Takes in what came to a listener; where nothing could it waits a little.
    pub(crate) fn take<R: Wait + Clock>(&self, rt: &R, alloc: Global, came: io::Result<S>) {
        match came {
            Ok(stream) => {
                let _ = self.admit(rt, alloc, stream);
            }
            Err(_) => thread::sleep(rt, Duration::from_millis(PAUSE_MILLIS)),
        }
    }

    /// Has this host answer one connection after another, for ever.
    pub(crate) fn answer_all<H: Host, R: Wait>(&self, rt: &R, host: &H) {
        for _ in rt.forever() {
            if let Some(stream) = self.next(rt) {
                let _ = converse(rt, &*stream, host);
                stream.shut();
            }
        }
    }
}

/// Reads what is asked on a connection, and answers it.
fn converse<S: Visit, H: Host, R: Wait>(_rt: &R, stream: &S, host: &H) -> Option<()> {
    stream.limit(host.limit())?;
    let mut received = Received::new();
    for _ in 0..MOST_BYTES {
        if let Some(answer) = host.answer(received.bytes()) {
            return match answer {
                Ok(text) => stream.say(text.as_str()),
                Err(_) => None,
            };
        }
        match stream.hear(received.room()) {
            Ok(count) if count > 0 => received.grow(count),
            Err(error) if is_interrupted(&error) => {}
            _ => return None,
        }
    }
    None
}
