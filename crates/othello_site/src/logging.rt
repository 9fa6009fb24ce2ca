//! A site's log: one line a session, on the standard error, written by a thread of its own, so that no session waits
//! for it.
use site_file::Address;
use site_rules::is_said;
use site_rules::sessions::is_same_address;
use std::alloc::Global;
use std::sync::{Condvar, Mutex, Wait};

/// Bytes that wait to be written at most. Lines beyond them are left out.
const MOST_BYTES: usize = 1 << 20;

/// A line that anybody can cause, which was said in this second: the place of its reason, and the address that it names.
#[derive(Clone, Copy)]
struct Said {
    reason: usize,
    address: Option<Address>,
}

/// The lines that were said in a second and that anybody can cause.
#[derive(Drop)]
struct Flow {
    second: u64,
    said: Vec<Said>,
}

impl Flow {
    /// Whether the log takes one line more in this second for this reason and this address; if so, the line is counted.
    fn takes(&mut self, second: u64, reason: usize, address: Option<Address>) -> bool {
        if self.second != second {
            self.second = second;
            self.said.clear();
        }
        let mut of_reason: u32 = 0;
        let mut of_address: u32 = 0;
        for said in &self.said {
            if said.reason == reason {
                of_reason = of_reason.saturating_add(1);
                if is_same(said.address, address) {
                    of_address = of_address.saturating_add(1);
                }
            }
        }
        is_said(of_reason, of_address) && self.said.push(Said { reason, address }).is_ok()
    }
}

/// Whether both are the same address, or neither is an address.
fn is_same(a: Option<Address>, b: Option<Address>) -> bool {
    match (a, b) {
        (None, None) => true,
        (Some(a), Some(b)) => is_same_address(a, b),
        _ => false,
    }
}

/// The log.
#[derive(Drop)]
pub(crate) struct Log {
    waiting: Mutex<String>,
    filled: Condvar,
    flow: Mutex<Flow>,
}

impl Log {
    /// A log without a line yet.
    pub(crate) fn new(alloc: Global) -> Log {
        Log {
            waiting: Mutex::new(String::new(alloc)),
            filled: Condvar::new(),
            flow: Mutex::new(Flow {
                second: 0,
                said: Vec::new(alloc),
            }),
        }
    }

    /// Whether one line more is said in this second that anybody can cause, of this reason and perhaps of an address.
    pub(crate) fn has_room<R: Wait>(
        &self,
        rt: &R,
        second: u64,
        reason: usize,
        address: Option<Address>,
    ) -> bool {
        self.flow.lock(rt).takes(second, reason, address)
    }

    /// Says a line, if there is room for it.
    pub(crate) fn say<R: Wait>(&self, rt: &R, line: &str) {
        let mut waiting = self.waiting.lock(rt);
        if waiting.len() < MOST_BYTES {
            let _ = waiting.push_str(line);
        }
        drop(waiting);
        self.filled.notify_all();
    }

    /// Waits until the log has lines to be written, and takes them.
    fn take<R: Wait>(&self, rt: &R, alloc: Global) -> String {
        let mut waiting = self
            .filled
            .wait_while(rt, self.waiting.lock(rt), |waiting| waiting.is_empty());
        std::mem::replace(&mut *waiting, String::new(alloc))
    }

    /// Writes the log's lines to the standard error as they come, for ever.
    pub(crate) fn write_all<R: Wait + Eprint>(&self, rt: &R, alloc: Global) {
        for _ in rt.forever() {
            let lines = self.take(rt, alloc);
            let _ = eprint!(rt; "{lines}");
        }
    }
}
