//! What a procedure asks the core to do with a frame.
ghost use Rattle.std.specs.Prelude.{◌≡◌, ◌≤◌, ◌<◌, ◌↔◌, ◌++◌, [], ◌∷◌, length, IsSome, IfSome};

use arrayvec::ArrayVec;
use std::marker::Model;

/// At most 8 pairs of a place in a frame and the word to store there, done in order.
#[derive(Drop)]
pub struct Stores {
    pairs: ArrayVec<(usize, u64), 8>,
}

// Clauses see the list of pairs.
impl Model for Stores {
    ghost use Rattle.std.specs.Prelude.{List, ℕ};

    ghost Value = { List (ℕ × ℕ) };

    ghost view = { λ s. s.pairs.items };
}

impl Stores {
    /// An act's stores: none.
    pub fn new() -> Stores
        ensures { result ≡ [] }
    {
        Stores {
            pairs: ArrayVec::new(),
        }
    }

    /// These stores of an act, fewer than 8, and one more after them: a word at a place of the frame.
    pub fn then(self, place: usize, word: u64) -> Stores
        requires { length self < 8 }
        ensures { result ≡ self ++ (place, word) ∷ [] }
    {
        let mut stores = self;
        stores.push(place, word);
        stores
    }

    /// Adds a store after these, which are fewer than 8.
    #[inline(always)]
    pub fn push(&mut self, place: usize, word: u64)
        requires { length self.old < 8 }
        ensures { self.new ≡ self.old ++ (place, word) ∷ [] }
    {
        self.pairs.push((place, word));
    }

    /// The pairs of place and word, in order.
    pub fn as_slice(&self) -> &[(usize, u64)]
        ensures { result.now ≡ self.now }
    {
        self.pairs.as_slice()
    }
}

/// At most 8 words that a new frame begins with.
#[derive(Drop)]
pub struct GivenWords {
    words: ArrayVec<u64, 8>,
}

// Clauses see the list of words.
impl Model for GivenWords {
    ghost use Rattle.std.specs.Prelude.{List, ℕ};

    ghost Value = { List ℕ };

    ghost view = { λ g. g.words.items };
}

impl GivenWords {
    /// These words for a new frame, or None where there are more than 8.
    pub fn new(words: &[u64]) -> Option<GivenWords>
        ensures few { IsSome result ↔ (length words.now ≤ 8) }
        ensures words { IfSome result (λ given. given ≡ words.now) }
    {
        if words.len() > 8 {
            return None;
        }
        let mut held = ArrayVec::new();
        for word in words {
            held.push(*word);
        }
        Some(GivenWords { words: held })
    }

    /// One word for a new frame.
    pub fn one(word: u64) -> GivenWords
        ensures { result ≡ word ∷ [] }
    {
        let mut words = ArrayVec::new();
        words.push(word);
        GivenWords { words }
    }

    /// Two words for a new frame.
    pub fn two(first: u64, second: u64) -> GivenWords
        ensures { result ≡ first ∷ second ∷ [] }
    {
        let mut words = ArrayVec::new();
        words.push(first);
        words.push(second);
        GivenWords { words }
    }

    /// Eight words for a new frame.
    #[inline(always)]
    pub fn eight(words: [u64; 8]) -> GivenWords
        ensures { result ≡ words }
    {
        GivenWords {
            words: ArrayVec::from_array_in((), words),
        }
    }

    /// The words that a new frame is given, in order.
    pub fn as_slice(&self) -> &[u64]
        ensures words { result.now ≡ self.now }
        ensures few { length result.now ≤ 8 }
    {
        self.words.as_slice()
    }
}

/// What a frame does after its stores. "Runs on" means that its worker may advance it again.
#[derive(Drop)]
pub enum Continuation {
    /// The frame gets so many words more, each 0, at least 1 and up to 128 words in all. It runs on.
    Grow(usize),
    /// Opens a child of so many words, 1 to 128: these first, then zeros. It is ready, and its home is the frame's
    /// worker. The frame runs on.
    Spawn(GivenWords, usize),
    /// Nothing more. The frame runs on.
    Go,
    /// The frame waits for its children; without a child it runs on.
    Wait,
    /// The frame's worker gets its input, to be computed outside the core. Allowed only without a child.
    Compute,
    /// The frame returns: its words are its result. With a child it waits instead, and is asked for its next act again
    /// once it is woken and runs.
    Return,
}

/// What a running frame does at an Advance.
#[derive(Drop)]
pub struct Act {
    /// The stores in the frame, done first.
    pub stores: Stores,
    /// What the frame does after them.
    pub after: Continuation,
}

/// What a parent does when it takes in a child that has returned (an inlet, as in Cilk).
#[derive(Drop)]
pub struct InletAct {
    /// The stores in the parent.
    pub stores: Stores,
    /// Whether all other frames below the parent are removed.
    pub abort: bool,
    /// Whether the parent, if it waits, becomes ready even with children left. At an abort, or without a child left,
    /// it does so anyway.
    pub wake: bool,
}
