//! The workers of a core, by number.
ghost use Rattle.std.specs.Prelude.{◌≡◌, ◌≤◌, ◌↔◌, IsSome, IfSome};

use std::marker::Model;

/// A worker's number, 1 to 32.
#[derive(Clone, Copy, Debug, PartialEq, Eq)]
pub struct Worker {
    number: u8,
}

// Clauses see the number.
impl Model for Worker {
    ghost use Rattle.std.specs.Prelude.{ℕ, ◌≤◌};

    ghost Value = { ℕ };

    ghost view = { λ w. w.number };

    ghost invariant = { λ w. (1 ≤ w.number) × (w.number ≤ 32) };

    ghost inverse = { λ n. record { number = n } };
}

impl Worker {
    /// The greatest number of a worker.
    pub const MAX: u8 = 32;

    /// The worker of this number, or None where it is 0 or over 32.
    pub fn new(number: u8) -> Option<Worker>
        ensures within { IsSome result ↔ ((1 ≤ number) × (number ≤ 32)) }
        ensures value { IfSome result (λ w. w ≡ number) }
    {
        if number < 1 || number > Self::MAX {
            return None;
        }
        Some(Worker { number })
    }

    /// The worker's number, 1 to 32.
    pub fn number(self) -> u8
        ensures value { result ≡ self }
        ensures limits { (1 ≤ result) × (result ≤ 32) }
    {
        self.number
    }
}
