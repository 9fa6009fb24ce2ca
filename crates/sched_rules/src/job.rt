//! The jobs of a core's tenant.
ghost use Rattle.std.specs.Prelude.{◌≡◌, ◌≤◌, length};
ghost use Rattle.sched_rules.specs.Trees.{kept_words};

use arrayvec::ArrayVec;
use cactus_stack::Words;
use std::marker::Model;

/// A job of a tenant. A tenant's jobs are numbered from 1 in the order in which they were submitted.
#[derive(Drop)]
pub enum Job {
    /// It hasn't ended: its frames are the root of this serial and those below it.
    Live(u64),
    /// It is done. The first words of its root are kept as its result.
    Done(JobWords),
    /// It was given up: its tenant had no step left, or one of its frames couldn't go on (its next act or its inlet
    /// can't be done, or the tenant has too few segments or nodes left for the act).
    Spent,
    /// It was ended by a Cancel.
    Cancelled,
}

/// The most words of its root that a finished job keeps.
const KEPT: usize = 76;

/// What a finished job keeps: the first 76 words of its root, or all where it has fewer.
#[derive(Drop)]
pub struct JobWords {
    words: ArrayVec<u64, KEPT>,
}

// Clauses see the list of words.
impl Model for JobWords {
    ghost use Rattle.std.specs.Prelude.{List, ℕ};

    ghost Value = { List ℕ };

    ghost view = { λ j. j.words.items };
}

impl JobWords {
    /// What a finished job keeps of its root's words: the first 76, or all where there are fewer.
    pub fn of(root: &Words) -> JobWords
        ensures { result ≡ kept_words root.now }
    {
        let mut words = ArrayVec::new();
        for at in 0..KEPT {
            if let Some(word) = root.get(at) {
                words.push(word);
            }
        }
        JobWords { words }
    }

    /// The words that a done job keeps of its root, in order.
    pub fn as_slice(&self) -> &[u64]
        ensures words { result.now ≡ self.now }
        ensures few { length result.now ≤ 76 }
    {
        self.words.as_slice()
    }
}
