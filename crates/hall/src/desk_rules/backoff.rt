//! How long a worker that finds a desk's lock taken waits before it looks again.
//!
//! What touches the hall from several processors in turn takes several times as long as from one. So a worker
//! that mostly finds the lock taken looks ever more rarely, and meanwhile who has it takes it many times in a
//! row, with the hall near its processor; one that finds it free looks more often again. Each worker goes by
//! its own looks alone: nothing is shared, and nobody has to be called.
//!
//! How rarely is worth it depends on what the worker does between two holds. A leaf of up to two plies takes less time
//! than the steps that lead to it, so one worker alone keeps the lock busy, and the others do best to stay away. A deeper
//! leaf takes longer than its steps: the lock is free much of the time, and a long wait is time lost. So the shortest and
//! the longest wait follow the depth of the last leaf that the worker was given, and behind deeper leaves they are one.
//!
//! A short wait spins. A long one is a nap, which leaves the processor to others: to sessions and clients, and to the
//! worker that has the lock. A nap ends by its time alone, so it isn't a sleep on the lock.
ghost use Rattle.std.specs.Prelude.{◌≡◌, ◌≤◌, ◌/◌, nat_le, min, max};
ghost use Rattle.hall.specs.desk_rules.Waits.{deep_wait, idle_wait, nap_wait, least_wait, longest_wait, eased, doubled};

/// The shortest wait behind a shallow leaf, in pauses of the processor: some 4 microseconds, in which about twenty steps
/// can be taken.
const LEAST: u32 = 256;

/// The longest wait of all: some half a millisecond.
const MOST: u32 = 32_768;

/// The wait behind a deeper leaf: some microsecond, about as long as the lock is held there.
const DEEP: u32 = 64;

/// The greatest depth of a shallow leaf.
const SHALLOW: u8 = 2;

/// The wait of a worker without a task: some 8 microseconds.
const IDLE: u32 = 512;

/// The shortest wait that is a nap: some 32 microseconds, below which the calls of the system would take as long.
const NAP: u32 = 2_048;

/// About how many pauses take a microsecond.
const PAUSES_IN_MICROSECOND: u32 = 64;

/// Each time the lock was free at the first try, the wait gets shorter by 1/16 of itself.
const EASING: u32 = 16;

/// How long a worker waits between two tries to take the lock.
#[derive(Clone, Copy, Debug)]
pub struct Backoff {
    pauses: u32,
    /// The shortest wait, by the last leaf.
    least: u32,
    /// The longest wait, by the last leaf.
    most: u32,
    ghost shortest: { deep_wait ≤ least },
    ghost above: { least ≤ pauses },
    ghost below: { pauses ≤ most },
    ghost longest: { most ≤ 32768 },
}

impl Backoff {
    /// The wait to begin with: the shortest behind a shallow leaf.
    pub fn new() -> Backoff
        ensures wait { result.pauses ≡ least_wait 0 }
        ensures least { result.least ≡ least_wait 0 }
        ensures longest { result.most ≡ longest_wait 0 }
    {
        Backoff {
            pauses: LEAST,
            least: LEAST,
            most: MOST,
        }
    }

    /// The wait of a worker that has nothing to do.
    pub fn idle() -> Backoff
        ensures { result.pauses ≡ idle_wait }
    {
        Backoff {
            pauses: IDLE,
            least: IDLE,
            most: IDLE,
        }
    }

    /// How long the worker waits before its next try, in pauses of the processor.
    pub fn pauses(self) -> u32
        ensures wait { result ≡ self.pauses }
        ensures least { deep_wait ≤ result }
        ensures most { result ≤ 32768 }
    {
        self.pauses
    }

    /// Whether the wait is so long that the thread sleeps (naps) instead of counting pauses.
    pub fn is_nap(self) -> bool
        ensures { result ≡ nat_le nap_wait self.pauses }
    {
        self.pauses >= NAP
    }

    /// How long the wait is in microseconds.
    pub fn micros(self) -> u64
        ensures { result ≡ self.pauses / 64 }
    {
        (self.pauses / PAUSES_IN_MICROSECOND) as u64
    }

    /// The worker was given a leaf of this depth: no wait is shorter or longer than such leaves make worth it.
    pub fn before_leaf(&mut self, depth: u8)
        ensures wait { self.new.pauses ≡ max (min self.old.pauses (longest_wait depth)) (least_wait depth) }
        ensures least { self.new.least ≡ least_wait depth }
        ensures longest { self.new.most ≡ longest_wait depth }
    {
        let least = least(depth);
        let most = longest(depth);
        *self = Backoff {
            pauses: self.pauses.min(most).max(least),
            least,
            most,
        };
    }

    /// The lock was free: the next wait is a little shorter, but no shorter than the shortest.
    pub fn ease(&mut self)
        ensures wait { self.new.pauses ≡ eased self.old.least self.old.pauses }
        ensures least { self.new.least ≡ self.old.least }
        ensures longest { self.new.most ≡ self.old.most }
    {
        self.pauses = self
            .pauses
            .saturating_sub(self.pauses / EASING)
            .max(self.least);
    }

    /// The lock was taken: this wait and the next are twice as long, but no longer than the longest.
    pub fn double(&mut self)
        ensures wait { self.new.pauses ≡ doubled self.old.most self.old.pauses }
        ensures least { self.new.least ≡ self.old.least }
        ensures longest { self.new.most ≡ self.old.most }
    {
        self.pauses = self.pauses.saturating_mul(2).min(self.most);
    }
}

/// The shortest wait after a leaf of this depth.
fn least(depth: u8) -> u32
    ensures least { result ≡ least_wait depth }
    ensures shortest { deep_wait ≤ result }
    ensures longest { result ≤ longest_wait depth }
{
    if depth <= SHALLOW { LEAST } else { DEEP }
}

/// The longest wait after a leaf of this depth.
fn longest(depth: u8) -> u32
    ensures longest { result ≡ longest_wait depth }
    ensures most { result ≤ 32768 }
{
    if depth <= SHALLOW { MOST } else { DEEP }
}
