//! What is counted of a site since its start.
use site_book::Who;
use site_office::Cause;
use std::alloc::Global;

/// How many reasons there are for which a line or a connection is refused.
pub(crate) const REASONS: usize = 11;

/// Their names, in the order of their places.
pub(crate) const NAMES: [&str; REASONS] = [
    "budget",
    "guests",
    "rate",
    "token",
    "connections",
    "memory",
    "silence",
    "header",
    "full",
    "descriptor",
    "thread",
];

/// The place of a connection that didn't say HELLO in time.
pub(crate) const SILENCE: usize = 6;

/// That of one whose header wasn't understood.
pub(crate) const HEADER: usize = 7;

/// That of one for which there was no place at all.
pub(crate) const FULL: usize = 8;

/// That of one that was closed at once, as no descriptor was left for it.
pub(crate) const DESCRIPTOR: usize = 9;

/// That of one for which no thread could be had.
pub(crate) const THREAD: usize = 10;

/// The name of the reason for refusals that is counted at a place.
pub(crate) fn name_at(place: usize) -> &'static str {
    NAMES.get(place).copied().unwrap_or("")
}

/// How many customers are told whose refusals are most.
const TOLD: usize = 8;

/// How many refusals each named customer had, by its number.
#[derive(Drop)]
pub(crate) struct RefusedCustomers {
    counts: Vec<u64>,
}

impl RefusedCustomers {
    /// The count of a new site: no customer had a refusal.
    pub(crate) fn new(alloc: Global) -> RefusedCustomers {
        RefusedCustomers {
            counts: Vec::new(alloc),
        }
    }

    /// Counts one more refusal of a named customer. Nothing is counted of a guest, nor where there is no memory for it.
    pub(crate) fn note(&mut self, who: Who) {
        let Who::Named(number) = who else {
            return;
        };
        let place = number as usize;
        for _ in self.counts.len()..place.saturating_add(1) {
            if self.counts.push(0).is_err() {
                return;
            }
        }
        if let Some(count) = self.counts.get_mut(place) {
            *count = count.saturating_add(1);
        }
    }

    /// The numbers of the named customers that were refused most, each with how often; (0, 0) at the places that nobody
    /// fills.
    pub(crate) fn most(&self) -> [(u32, u64); TOLD] {
        let mut found = [(0, 0); TOLD];
        for (place, count) in self.counts.iter().enumerate() {
            let least = place_of_least(&found);
            if let Some(entry) = found.get_mut(least) {
                if entry.1 < *count {
                    *entry = (u32::try_from(place).unwrap_or(u32::MAX), *count);
                }
            }
        }
        found
    }
}

/// The place of the customer with the fewest refusals among those found.
fn place_of_least(found: &[(u32, u64); TOLD]) -> usize {
    let mut least = u64::MAX;
    let mut at = 0;
    for (place, entry) in found.iter().enumerate() {
        if entry.1 < least {
            least = entry.1;
            at = place;
        }
    }
    at
}

/// The place at which refusals for this cause are counted.
pub(crate) fn place_of(cause: Cause) -> usize {
    match cause {
        Cause::Budget => 0,
        Cause::Guests => 1,
        Cause::Rate => 2,
        Cause::Token => 3,
        Cause::Connections => 4,
        Cause::Memory => 5,
    }
}

/// The bounds of the buckets of durations, in microseconds.
pub(crate) const BOUNDS: [u64; 11] = [
    100, 250, 500, 1_000, 2_500, 5_000, 10_000, 50_000, 250_000, 1_000_000, 10_000_000,
];

/// How many buckets there are: one for each bound, and one behind them.
pub(crate) const BUCKETS: usize = 12;

/// How many durations fell into each bucket, and their sum in microseconds.
#[derive(Clone, Copy)]
pub(crate) struct Buckets {
    pub(crate) counts: [u64; BUCKETS],
    pub(crate) sum: u64,
}

impl Buckets {
    /// The counts of durations of a new site: none yet.
    pub(crate) fn new() -> Buckets {
        Buckets {
            counts: [0; BUCKETS],
            sum: 0,
        }
    }

    /// Counts a duration, in microseconds, in its bucket.
    pub(crate) fn note(&mut self, micros: u64) {
        let place = BOUNDS.iter().filter(|bound| micros > **bound).count();
        if let Some(count) = self.counts.get_mut(place) {
            *count = count.saturating_add(1);
        }
        self.sum = self.sum.saturating_add(micros);
    }
}

/// What is counted.
#[derive(Clone, Copy)]
pub(crate) struct Counts {
    pub(crate) welcomed: u64,
    pub(crate) refused: [u64; REASONS],
    pub(crate) lines: u64,
    pub(crate) values: u64,
    pub(crate) reloads: u64,
    pub(crate) reloads_refused: u64,
    pub(crate) ended: u64,
    pub(crate) gone: u64,
    pub(crate) hello: Buckets,
    pub(crate) wait: Buckets,
}

impl Counts {
    /// The counts of a new site: nothing yet.
    pub(crate) fn new() -> Counts {
        Counts {
            welcomed: 0,
            refused: [0; REASONS],
            lines: 0,
            values: 0,
            reloads: 0,
            reloads_refused: 0,
            ended: 0,
            gone: 0,
            hello: Buckets::new(),
            wait: Buckets::new(),
        }
    }

    /// Counts one more refusal for the reason at a place.
    pub(crate) fn refuse(&mut self, place: usize) {
        if let Some(count) = self.refused.get_mut(place) {
            *count = count.saturating_add(1);
        }
    }
}
