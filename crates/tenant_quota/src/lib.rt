//! Who may use how much: a book of reservations of segments and nodes for up to 64 tenants.
//!
//! A [`Book`] stands for two totals and a list of tenants with their accounts, in rising order of
//! tenants (`specs/Reservations.antt`). An account is what its tenant reserved, the segments that it
//! is charged, the nodes that it ever opened and the steps that it took (`specs/Accounts.antt`).
//! What a tenant has left is its reservation less that: segments come back when they are given back,
//! nodes and steps never do. A step is one of 16 for each node reserved. A segment is 16 words of
//! 64 bits.
//!
//! The invariant that makes a reservation worth something is that the reservations of all tenants
//! together never exceed the totals, and that no tenant uses more than it reserved (`IsSoundBook`). So a
//! segment that a tenant has left is there whatever others do, and each call leaves the accounts of
//! all other tenants as they were. A reservation may be raised as far as the totals allow; what its
//! tenant used stays used. Only [`Book::new`] takes memory. A tenant's account is found by an index of
//! the accounts (`numbered_list`), which looks first where it is guessed to stand.
//!
//! Why it is so:
//!
//! - `Book::raise` tests Lower before Full, doesn't count the tenant's own reservation twice, and ignores that
//!   64 tenants are there. `Book::open` returns how many nodes were opened before; a frame's serial is one
//!   more. Accounts are sorted by tenant, so the order of admission isn't visible.
//!
//! ```text
//! let mut book = Book::new(alloc, 8, 32)?;
//! book.reserve(1, Reserve::new(5, 8)?)?;    // tenant 1: 5 segments and 8 nodes
//! book.charge(1, 5, 1)?;                    // a frame of 5 segments
//! book.left(1) == Some(Left { segments: 0, nodes: 7, steps: 128 })
//! ```
#![tactic(auto)]

mod account;
mod book;
mod refusal;
mod reserve;
pub mod rows;

pub use account::Left;
pub use book::{Book, Rest};
pub use refusal::QuotaRefusal;
pub use reserve::Reserve;
