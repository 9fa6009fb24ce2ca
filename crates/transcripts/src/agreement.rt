//! The player of texts counts the rows that agree and that differ.
ghost use Rattle.std.specs.Prelude.{◌≡◌, ◌≢◌, ◌<◌, ◌≤◌};

use crate::scenes::Row;
use std::alloc::{AllocError, Global};

/// How many rows that don't agree are told of.
const TOLD: u64 = 40;

/// That all was done; Err where memory was wanting.
pub type Done = Result<(), AllocError>;

/// How the rows that were played came out.
#[derive(Drop)]
pub struct Agreement {
    /// How many agree, up to 2^64 - 1.
    pub agreed: u64,
    /// How many don't, up to 2^64 - 1.
    pub missed: u64,
    /// A line for each of the first 40 that don't: where it stands, what was due, and what came.
    pub told: String,
}

impl Agreement {
    /// The counts before any row was played.
    pub fn new(alloc: Global) -> Agreement
        ensures agreed { result.agreed ≡ 0 }
        ensures missed { result.missed ≡ 0 }
    {
        Agreement {
            agreed: 0,
            missed: 0,
            told: String::new(alloc),
        }
    }

    /// Compares what a row of a text says must come with what came, and counts the row as one that agrees or differs.
    /// One that differs is always counted, also where there is no memory to tell of it.
    pub fn compare(&mut self, row: Row<'_>, due: &str, came: &str) -> Done
        ensures agrees { due.now ≡ came.now → self.new.missed ≡ self.old.missed }
        ensures differs { due.now ≢ came.now → 0 < self.new.missed }
        ensures kept { self.old.missed ≤ self.new.missed }
    {
        if due == came {
            self.agreed = self.agreed.saturating_add(1);
            return Ok(());
        }
        self.miss(row, due, came)
    }

    /// Counts a row that doesn't agree, and keeps what was due and what came.
    pub fn miss(&mut self, row: Row<'_>, due: &str, came: &str) -> Done
        ensures counted { 0 < self.new.missed }
        ensures kept { self.old.missed ≤ self.new.missed }
    {
        self.missed = self.missed.saturating_add(1);
        if self.missed <= TOLD {
            writeln!(self.told, "{row}: due {due}, came {came}")?;
        }
        Ok(())
    }
}
