//! What all threads of a site share.
use crate::clock::SiteClock;
use crate::ending::Ending;
use crate::logging::Log;
use crate::register::Register;
use crate::visits::Visits;
use site_desk::{SiteDesk, SiteNaming};
use std::alloc::Global;
use std::net::TcpStream;
use std::os::unix::net::UnixStream;
use std::sync::atomic::AtomicU64;
use std::sync::{Arc, Mutex, MutexGuard, Wait};
use std::time::{Clock, Duration};

/// What all threads share.
#[derive(Drop)]
pub(crate) struct Shared<J: SiteNaming> {
    /// The desk of each hall.
    pub(crate) desks: Vec<SiteDesk<J>>,
    /// The depth of the leaves that workers compute.
    pub(crate) grain: u8,
    /// What connections share beside the desks; taken by [`Shared::register`] alone.
    pub(crate) lock: Mutex<Register>,
    /// The log.
    pub(crate) log: Log,
    /// The site's clock.
    pub(crate) clock: SiteClock,
    /// The file; empty where there is none.
    pub(crate) path: String,
    /// Held while the file is read again.
    pub(crate) reloads: Mutex<()>,
    /// The most descriptors that the process may have, if that is known.
    pub(crate) descriptors: Option<u64>,
    /// Those who ask for health and metrics.
    pub(crate) web: Visits<TcpStream>,
    /// Those who are the operator.
    pub(crate) operators: Visits<UnixStream>,
    /// Why the site ends.
    pub(crate) ending: Arc<Ending, Global>,
}

/// Microseconds between two tries to take what connections share.
const NAP_MICROS: u64 = 50;

impl<J: SiteNaming> Shared<J> {
    /// Locks the register of what all connections share, for this thread alone. It tries again and again, and naps in
    /// between. It never sleeps on the lock: a thread that does is handed the lock, and until that thread runs nobody
    /// else can take it. Where all processors are busy that takes milliseconds, and each connection takes the lock some
    /// ten times.
    pub(crate) fn register<R: Wait>(&self, rt: &R) -> MutexGuard<'_, Register> {
        for _ in rt.forever() {
            if let Some(register) = self.lock.try_lock() {
                return register;
            }
            let word = AtomicU64::new(0);
            word.park_timeout(rt, 0, Duration::from_micros(NAP_MICROS));
        }
        unreachable!()
    }

    /// Microseconds since the site began, by its clock.
    pub(crate) fn micros(&self, clock: &impl Clock) -> u64 {
        self.clock.micros(clock)
    }

    /// Milliseconds since the site began, by its clock.
    pub(crate) fn now(&self, clock: &impl Clock) -> u64 {
        self.clock.now(clock)
    }
}
