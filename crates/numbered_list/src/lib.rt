//! Lists of things that each have a number, and where a thing stands there: found by a guess.
//!
//! A list of tenants' accounts, ledgers or trees is a [`NumberedList`]: up to 64 things ([`Numbered`]) by rising
//! number. It stands for the list of its things, and each call that changes it is one equation on that list: the
//! thing of a number is lent for writing ([`NumberedList::get_mut`]), is put in at its place or taken out. Only
//! [`NumberedList::new`] takes memory.
//!
//! Where the thing of number n stands, or would stand, is how many of them have a number below n
//! (`count_below` of `specs/Places.antt`). A list has an index (`index.rt`) that answers that: it looks first where
//! the number is guessed to stand, and searches by halves where another's thing stands there. The answer is the
//! same whatever was guessed, so nothing has to be known of the guesses. What is put in or taken out has them put
//! down anew.
//!
//! What is said of such lists, here and in all crates above, are the definitions of `specs/Places.antt`: the
//! first thing of a number and what is said of it, the list with that thing changed or gone and with a new
//! one at its place, tried in [`rows`]. `proofs/Edits.antt` has what follows: a write, a removal and an
//! insertion at the place are those, nothing else changes, and the list still rises.
//!
//! [`Guesses`] alone is the table of guesses for who compares for himself: where the slots of frames
//! stand, for one.
//!
//! That a [`NumberedList`] has memory for 64 things is its invariant. Its index stands for a list of 256 guesses,
//! each a byte within it, and takes no memory. A [`Guesses`] stands for a list of numbers below
//! 2^32, as many as a power of two; only [`Guesses::new`] takes memory. The guess of a number is what stands
//! at the number's remainder by the length (`specs/Guesses.antt`), which is its lowest bits: that there are so
//! many guesses is the invariant of both. Numbers that follow one another, no more than there are guesses,
//! never share one.
//!
//! Why it is so:
//!
//! - A place is guessed first and searched for otherwise. No proof rests on a guess: what stands there is
//!   compared. Two tenants share a guess only if their numbers differ by a multiple of 256.
//!
//! ```text
//! let mut list = NumberedList::new(alloc)?;
//! list.insert((7, 70));
//! list.insert((263, 2630));                          // shares its guess with 7
//! list.insert((3, 30));
//! list.get_mut(7).1 += 1;                            // searched for
//! list.get(8) == None
//! list.as_slice() == &[(3, 30), (7, 71), (263, 2630)]
//! ```
#![tactic(auto)]

mod index;
mod list;
mod numbered;
pub mod rows;
mod table;

pub use list::NumberedList;
pub use numbered::Numbered;
pub use table::{Guesses, MOST};
