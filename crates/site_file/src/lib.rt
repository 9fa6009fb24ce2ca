//! A site's file: from the text of its TOML to what the site goes by. That is where it listens, its times, a plan for each hall, and the
//! directory of its customers: their names, homes, rates of lines, and the keys by which they are known.
//!
//! [`read_config`] reads the text to a [`SiteConfig`]. Customers have numbers, which books go by; [`read_config_again`] reads a file
//! while a site goes by another, and who was there keeps its number and its home.
//!
//! A customer is known by a token (by its SHA-256 digest), by the name in its certificate, or by a network; who isn't named is a
//! guest, by its address (of IPv6 by the first 64 bits). Who a connection is, is `who_of` of `specs/Keys.antt`. A [`Meter`] says whether a
//! line passes at a customer's [`Rate`]. It stands for one number, the time at which all lines that passed are paid off, each at a period:
//! the generic cell rate algorithm (ITU-T I.371, annex A, virtual scheduling), in `specs/Rates.antt`. A line that doesn't pass costs
//! nothing, so who goes on sending isn't shut out.
//!
//! What is promised of an accepted file is said of its parts, whatever the text was: each [`site_book::Plan`]'s sums fit, by its type, and
//! the directory has no fault, by a definition of the directory itself (`fault_of` of `specs/Checks.antt`): all rates are above 0, each
//! customer has a key, and no key stands twice ([`accepted_directories_are_fit`]). That the words of the text are taken as they are meant
//! is tested, by a row for each fault. [`rows`] tries the definitions.
//!
//! Why it is so:
//!
//! - Each word is taken by its type, and none may be left over: a number where a list belongs, a fraction, a number below 0 or too
//!   great, and a word that isn't known are refused with their line.
//! - Not taken, as no address is to need a resolver and no number a rounding: names of hosts in addresses, masks of networks, fractions
//!   of a rate, a burst above 65,535. A rate of so many a second is one in so many microseconds, rounded up.
//! - A customer's sessions are all in one hall, so that its budget is in one book. Which one the file says; where it doesn't, the first
//!   with room for the budget is taken, and a customer that was there stays where it was.
//! - Networks of both versions are kept apart: `::/0` has no address of IPv4.
//! - The meter's clock is the caller's: a row can play it, and one that goes back lets nobody through too often
//!   ([`no_more_than_the_rate`]).
//!
//! ```text
//! let config = read_config(alloc, text)?;             // or: line 12: `rate` is to be a whole number from 1 to 1000000
//! let again = read_config_again(alloc, text, &config)?;
//! directory.who(None, None, Address::v4([203, 0, 113, 9]))       // Some(Who::Named(0)): the school's network
//! meter.pass(directory.terms(Who::Named(0)).rate, now)           // true
//! ```
#![tactic(auto)]

mod address;
mod again;
mod checks;
mod config;
mod directory;
mod faults;
mod files;
mod guests;
mod homes;
mod key_words;
mod keys;
mod laws;
mod names;
mod parsing;
mod rate;
mod rate_words;
mod reading;
pub mod rows;
mod section;

pub use address::{Address, Network};
pub use checks::{DirectoryFault, FaultyDirectory};
pub use config::{Entrances, FULL_HALL, Limits, SiteConfig, Workers};
pub use directory::{Directory, Terms};
pub use faults::FileFault;
pub use files::{amount_text, read_config, read_config_again};
pub use keys::{CertificateKey, Keys, NetworkKey, TokenKey};
pub use laws::{accepted_directories_are_fit, no_more_than_the_rate};
pub use rate::{Meter, Rate};
