//! Why a site ends: told by whichever of its threads knows it to the one that waits for it.
use std::io;
use std::net::SocketAddr;
use std::sync::{Condvar, Mutex, Wait};

/// An address at which a site can't listen.
#[derive(Drop)]
pub(crate) struct Unheard {
    /// What the file calls it.
    pub(crate) name: &'static str,
    /// The address; `None` of the operator's socket.
    pub(crate) address: Option<SocketAddr>,
    /// Why.
    pub(crate) error: io::Error,
}

/// Why the site ends.
#[derive(Drop)]
pub(crate) enum Why {
    /// It can't listen at an address.
    Unheard(Unheard),
    /// No more connections can be taken.
    Deaf(io::Error),
    /// A hall's workers couldn't be started.
    Idle,
    /// All have left, as the operator asked.
    Drained,
}

/// Why the site ends; nothing while it serves.
#[derive(Drop)]
pub(crate) struct Ending {
    why: Mutex<Option<Why>>,
    told: Condvar,
}

impl Ending {
    /// The state of a site that serves: it has no reason to end.
    pub(crate) fn new() -> Ending {
        Ending {
            why: Mutex::new(None),
            told: Condvar::new(),
        }
    }

    /// Tells the thread that waits for it why the site ends.
    pub(crate) fn tell<R: Wait>(&self, rt: &R, reason: Why) {
        let mut why = self.why.lock(rt);
        *why = Some(reason);
        drop(why);
        self.told.notify_all();
    }

    /// Waits until it is said why the site ends.
    pub(crate) fn wait<R: Wait>(&self, rt: &R) -> Why {
        let mut why = self
            .told
            .wait_while(rt, self.why.lock(rt), |why| why.is_none());
        why.take().unwrap()
    }
}
