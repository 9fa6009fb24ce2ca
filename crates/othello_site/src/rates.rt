//! How many lines that ask for a reservation each customer of a site has said of late.
use site_book::Who;
use site_file::{Meter, Rate};
use std::alloc::Global;

/// How many guests are known at once. Beyond them the one is forgotten that hasn't been heard for longest.
const MOST_GUESTS: usize = 1_024;

/// The greatest time that a meter knows.
const LAST_MOMENT: u64 = 1 << 61;

/// A customer's meter.
#[derive(Drop)]
struct CustomerMeter {
    who: Who,
    meter: Meter,
    /// When it was last asked.
    last: u64,
}

/// The meters of those who were heard of late.
#[derive(Drop)]
pub(crate) struct Rates {
    accounts: Vec<CustomerMeter>,
}

impl Rates {
    /// The rates of a new site: no customer has said a line.
    pub(crate) fn new(alloc: Global) -> Rates {
        Rates {
            accounts: Vec::new(alloc),
        }
    }

    /// Whether a line of this customer passes now, by its rate. `now` is in microseconds.
    pub(crate) fn pay(&mut self, who: Who, rate: Rate, now: u64) -> bool {
        match self.place_for(who) {
            Some(place) => match self.accounts.get_mut(place) {
                Some(account) => {
                    account.last = now;
                    account.meter.pass(rate, now.min(LAST_MOMENT))
                }
                None => false,
            },
            None => false,
        }
    }

    /// The place of a customer's meter, which is made where there is none; `None` where there is no memory for it.
    fn place_for(&mut self, who: Who) -> Option<usize> {
        for (place, account) in self.accounts.iter().enumerate() {
            if account.who.is(who) {
                return Some(place);
            }
        }
        if self.accounts.len() >= MOST_GUESTS {
            self.forget_oldest();
        }
        let place = self.accounts.len();
        let account = CustomerMeter {
            who,
            meter: Meter::new(),
            last: 0,
        };
        match self.accounts.push(account) {
            Ok(()) => Some(place),
            Err(_) => None,
        }
    }

    /// Forgets the guest that hasn't been heard for longest.
    fn forget_oldest(&mut self) {
        let mut oldest = None;
        let mut least = u64::MAX;
        for (place, account) in self.accounts.iter().enumerate() {
            if account.who.is_guest() && account.last < least {
                oldest = Some(place);
                least = account.last;
            }
        }
        if let Some(place) = oldest {
            if place < self.accounts.len() {
                let _ = self.accounts.swap_remove(place);
            }
        }
    }
}
