//! The runs of opposing discs from a square of an Othello board in four directions at once, in lanes of one vector of
//! four words.
ghost use Rattle.std.specs.Prelude.{◌≡◌, ◌-◌, [], ◌∷◌};
ghost use Rattle.othello_board.specs.Runs.{rising_run, falling_run};

use std::simd::prelude::*;

/// All bits below the one that is set; none where none is.
#[inline(always)]
fn below(end: u64) -> u64
    ensures { result ≡ end - 1 }
{
    end.wrapping_sub(u64::from(end != 0))
}

/// The runs along four rays whose squares rise in number. The nearest square of a ray that isn't opposing has its lowest
/// bit: where an own disc stands there, the run is what lies below it.
#[inline(always)]
pub(crate) fn rising(
    own: u64,
    opp: u64,
    east: u64,
    south_east: u64,
    south: u64,
    south_west: u64,
) -> u64x4
    ensures { result ≡ rising_run own opp east ∷ rising_run own opp south_east ∷ rising_run own opp south
        ∷ rising_run own opp south_west ∷ [] }
{
    let rays = u64x4::from_array([east, south_east, south, south_west]);
    let others = rays & !u64x4::splat(opp);
    let lowest = others & (u64x4::splat(0) - others);
    let [first, second, third, fourth] = (lowest & u64x4::splat(own)).to_array();
    rays & u64x4::from_array([below(first), below(second), below(third), below(fourth)])
}

/// The runs along four rays whose squares fall in number. The nearest square that isn't opposing is the one that none of
/// them lies beyond, as shifts of a step each show: where an own disc stands there, the run is what lies above it.
#[inline(always)]
pub(crate) fn falling(
    own: u64,
    opp: u64,
    west: u64,
    north_west: u64,
    north: u64,
    north_east: u64,
) -> u64x4
    ensures { result ≡ falling_run 1 own opp west ∷ falling_run 9 own opp north_west ∷ falling_run 8 own opp north
        ∷ falling_run 7 own opp north_east ∷ [] }
{
    let step = u64x4::from_array([1, 9, 8, 7]);
    let rays = u64x4::from_array([west, north_west, north, north_east]);
    let others = rays & !u64x4::splat(opp);
    let two = others | others >> step;
    let four = two | two >> step >> step;
    let eight = four | four >> step >> step >> step >> step;
    let end = others & !(eight >> step) & u64x4::splat(own);
    rays & (u64x4::splat(0) - end) << u64x4::splat(1)
}
