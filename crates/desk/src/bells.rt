//! Where a desk's seats wait for their jobs.
//!
//! Whoever is woken takes the lock, which all workers want. So each seat has a bell that it shares with hardly any other, and what ends
//! its job rings that one alone: were all woken whenever a job ends, most of the processors would be taken by looks in vain.
use std::array::from_fn;
use std::sync::{Condvar, Wait};
use std::time::Duration;

/// How many bells there are.
const BELLS: u64 = 64;

/// Seconds that a seat or a worker sleeps at most before it looks again by itself.
pub(crate) const SLEEP_SECS: u64 = 60;

/// The bells: a seat's is that of the remainder of its tenant's number.
#[derive(Drop)]
pub(crate) struct Bells {
    all: [Condvar; BELLS as usize],
}

impl Bells {
    /// The bells of a new desk: nobody waits, and none was rung.
    pub(crate) fn new() -> Bells {
        Bells {
            all: from_fn(|_place| Condvar::new()),
        }
    }

    /// The bell at which the seat of this tenant waits.
    fn of(&self, tenant: u64) -> &Condvar {
        &self.all[(tenant % BELLS) as usize]
    }

    /// How often the bell of this tenant's seat was rung.
    pub(crate) fn rung(&self, tenant: u64) -> u64 {
        self.of(tenant).notifications()
    }

    /// Waits until a seat's bell was rung more often than this, or for a minute, or for no reason.
    pub(crate) fn sleep<R: Wait>(&self, rt: &R, tenant: u64, rung: u64) {
        self.of(tenant)
            .sleep(rt, rung, Duration::from_secs(SLEEP_SECS));
    }

    /// Rings the bell of this tenant's seat: all seats that wait at that bell wake.
    pub(crate) fn ring(&self, tenant: u64) {
        self.of(tenant).notify_all();
    }

    /// Rings the bells of these places, a bit each.
    pub(crate) fn ring_places(&self, places: u64) {
        if places == 0 {
            return;
        }
        for place in 0..BELLS {
            if (places >> place) & 1 == 1 {
                self.ring(place);
            }
        }
    }

    /// Rings all bells: every seat that waits wakes.
    pub(crate) fn ring_all(&self) {
        self.ring_places(u64::MAX);
    }
}

/// The place of a seat's bell, as a bit.
pub(crate) fn bell_of(tenant: u64) -> u64 {
    1 << (tenant % BELLS)
}
