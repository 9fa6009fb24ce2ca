//! What four shifts of an Othello board's words reach at once, in the lanes of one vector.
ghost use Rattle.std.specs.Prelude.{◌≡◌, ◌<◌, [], ◌∷◌, bit_and};
ghost use Rattle.othello_moves.specs.Lanes.{raised, lowered, reached};

use std::simd::prelude::*;

/// Four words.
#[derive(Clone, Copy)]
pub(crate) struct Four {
    pub first: u64,
    pub second: u64,
    pub third: u64,
    pub fourth: u64,
}

impl Four {
    /// The four words as one vector.
    #[inline(always)]
    pub(crate) fn lanes(self) -> u64x4
        ensures { result ≡ self.first ∷ self.second ∷ self.third ∷ self.fourth ∷ [] }
    {
        u64x4::from_array([self.first, self.second, self.third, self.fourth])
    }
}

/// What is reached by shifts towards the greater squares: in each lane from the discs of its player, over those of the
/// other one that may stand inside a run. `one`, `two`, `four` and `six` are those that begin an unbroken line of at most so
/// many of them with a disc of the player at its end. No run is longer than 6.
#[inline(always)]
pub(crate) fn raise(discs: Four, others: Four, inner: Four, steps: Four) -> u64x4
    requires first { steps.first < 64 }
    requires second { steps.second < 64 }
    requires third { steps.third < 64 }
    requires fourth { steps.fourth < 64 }
    ensures { result ≡ reached (raised steps.first) discs.first (bit_and others.first inner.first)
        ∷ reached (raised steps.second) discs.second (bit_and others.second inner.second)
        ∷ reached (raised steps.third) discs.third (bit_and others.third inner.third)
        ∷ reached (raised steps.fourth) discs.fourth (bit_and others.fourth inner.fourth) ∷ [] }
{
    let step = steps.lanes();
    let over = others.lanes() & inner.lanes();
    let pairs = over & over << step;
    let one = over & discs.lanes() << step;
    let two = one | over & one << step;
    let four = two | pairs & two << step << step;
    let six = four | pairs & four << step << step;
    six << step
}

/// What is reached by shifts towards the lower squares. Pairs of squares are found as `raise` finds them, so that both together
/// look for them once.
#[inline(always)]
#[tactic(auto, using(crate::proofs::LaneLemmas::pairs_lowered))]
pub(crate) fn lower(discs: Four, others: Four, inner: Four, steps: Four) -> u64x4
    requires first { steps.first < 64 }
    requires second { steps.second < 64 }
    requires third { steps.third < 64 }
    requires fourth { steps.fourth < 64 }
    ensures { result ≡ reached (lowered steps.first) discs.first (bit_and others.first inner.first)
        ∷ reached (lowered steps.second) discs.second (bit_and others.second inner.second)
        ∷ reached (lowered steps.third) discs.third (bit_and others.third inner.third)
        ∷ reached (lowered steps.fourth) discs.fourth (bit_and others.fourth inner.fourth) ∷ [] }
{
    let step = steps.lanes();
    let over = others.lanes() & inner.lanes();
    let pairs = (over & over << step) >> step;
    let one = over & discs.lanes() >> step;
    let two = one | over & one >> step;
    let four = two | pairs & two >> step >> step;
    let six = four | pairs & four >> step >> step;
    six >> step
}
