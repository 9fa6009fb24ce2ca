//! The index of a list of things that rise by number, such as accounts by tenant.
//!
//! Seen as the list of its 256 guesses, each below 64. Nothing that is promised of an answer rests on them.
ghost use Rattle.std.specs.Prelude.{◌≡◌, ◌<◌, length, replicate, nat_lt, option_copied, slice_index_or, IfSome};
ghost use Rattle.numbered_list.specs.Guesses.{with_places};
ghost use Rattle.numbered_list.specs.Places.{count_below, find_by_number, AreRising};

use crate::numbered::Numbered;
use std::marker::Model;

/// The length up to which an index guesses the places of a list. Things from place 64 on are found by binary search.
const THINGS: usize = 64;

/// The number of guesses, a power of two.
const GUESSES: u64 = 256;

/// Guesses where things stand in a list that rises by their numbers: for each remainder by 256, the place of a thing
/// whose number has it. A guess may be wrong; then the thing is searched for.
#[derive(Debug, Drop)]
pub(crate) struct TenantIndex {
    guesses: [u8; GUESSES as usize],
}

// Clauses see the guesses.
impl Model for TenantIndex {
    ghost use Rattle.std.specs.Prelude.{List, ℕ, ◌≡◌, length};

    ghost Value = { List ℕ };

    ghost view = { λ index. index.guesses };

    ghost invariant = { λ index. length index.guesses ≡ 256 };
}

impl TenantIndex {
    /// An index whose guesses are all 0. It takes no memory, and no other call does.
    pub(crate) fn new() -> TenantIndex
        ensures { result ≡ replicate 256 0 }
    {
        TenantIndex {
            guesses: [0; GUESSES as usize],
        }
    }

    /// The place of the thing of this number, if the guess is right; None where another thing or none stands there,
    /// even if a thing of this number stands elsewhere.
    #[inline(always)]
    pub(crate) fn guessed<T: Numbered>(&self, things: &[T], number: u64) -> Option<usize>
        requires { AreRising T.number_of things.now }
        ensures within { IfSome result (λ at. at < length things.now) }
        ensures place { IfSome result (λ at. at ≡ count_below T.number_of number things.now) }
        ensures thing { IfSome result (λ at. (other : T) → T.number_of (slice_index_or things.now at other) ≡ number) }
    {
        let guess = self.guesses[(number % GUESSES) as usize] as usize;
        if guess < things.len() && things[guess].number() == number {
            return Some(guess);
        }
        None
    }

    /// How many of these things have a number below this one: the place of the thing of this number, or the one where
    /// it would stand. Fast where the guess is right, else a binary search.
    #[inline(always)]
    pub(crate) fn place_of<T: Numbered>(&self, things: &[T], number: u64) -> usize
        requires { AreRising T.number_of things.now }
        ensures { result ≡ count_below T.number_of number things.now }
    {
        match self.guessed(things, number) {
            Some(at) => at,
            None => search(things, number),
        }
    }

    /// The thing of this number; None where there is none. Fast where the guess is right, else a binary search.
    #[inline(always)]
    pub(crate) fn find<'a, T: Numbered>(&self, things: &'a [T], number: u64) -> Option<&'a T>
        requires { AreRising T.number_of things.now }
        ensures { option_copied result ≡ find_by_number T.number_of number things.now }
    {
        match self.guessed(things, number) {
            Some(at) => Some(&things[at]),
            None => look_up(things, number),
        }
    }

    /// Puts down anew where each of these things stands, as after an insertion or a removal. Of things that share a
    /// guess, the place of the last is kept.
    pub(crate) fn guess_anew<T: Numbered>(&mut self, things: &[T])
        ensures { self.new ≡ with_places T.number_of things.now 0 self.old }
    {
        for at in 0..things.len() {
            let number = things[at].number();
            self.guesses[(number % GUESSES) as usize] = (at % THINGS) as u8;
        }
    }
}

/// How many of these things have a number below this one, found by binary search.
#[cold]
#[inline(never)]
fn search<T: Numbered>(things: &[T], number: u64) -> usize
    requires { AreRising T.number_of things.now }
    ensures { result ≡ count_below T.number_of number things.now }
{
    things.partition_point(
        |thing: &T| -> bool
            ensures { result ≡ nat_lt (T.number_of thing.now) number }
        { thing.number() < number },
    )
}

/// The thing of this number, found by binary search; None where there is none.
#[cold]
#[inline(never)]
fn look_up<T: Numbered>(things: &[T], number: u64) -> Option<&T>
    requires { AreRising T.number_of things.now }
    ensures { option_copied result ≡ find_by_number T.number_of number things.now }
{
    let at = search(things, number);
    if at < things.len() && things[at].number() == number {
        return Some(&things[at]);
    }
    None
}
