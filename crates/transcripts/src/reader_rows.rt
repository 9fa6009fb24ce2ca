//! The procedure Reader of played texts, tried on worked examples: each contract is computed from the definitions
//! alone. `reader_act 35 5`: 35 is a frame's acts, the octal 43, and 5 those of its child; stores stand as place and
//! word.
ghost use Rattle.std.specs.Prelude.{◌≡◌, [], ◌∷◌, true, false};
ghost use Rattle.sched_rules.specs.declared.act.Continuation.TheVariants.{Grow, Spawn, Go, Wait, Compute, Return};
ghost use Rattle.transcripts.specs.Reading.{act_with_stores, reader_act, reader_inlet};

/// The acts of octal numbers: the lowest digit is done and taken off. A frame of 0o43 opens a child,
/// waits, and returns.
pub fn what_digits_do()
    ensures opens { reader_act 35 5 ≡ act_with_stores ((0, 4) ∷ []) (Spawn (5 ∷ 0 ∷ []) 4) }
    ensures waits { reader_act 4 5 ≡ act_with_stores ((0, 0) ∷ []) Wait }
    ensures returns { reader_act 0 5 ≡ act_with_stores [] Return }
    ensures goes_on { reader_act 81 5 ≡ act_with_stores ((0, 10) ∷ []) Go }
    ensures grows { reader_act 10 5 ≡ act_with_stores ((0, 1) ∷ []) (Grow 16) }
    ensures computes { reader_act 5 5 ≡ act_with_stores ((0, 0) ∷ []) Compute }
    ensures stores_nowhere { reader_act 6 5 ≡ act_with_stores ((128, 6) ∷ []) Go }
    ensures for_ever { reader_act 15 5 ≡ act_with_stores [] Go }
{}

/// What Reader's child brought goes into word 2; word 3 of the parent says what else an inlet does: 1 aborts, 2 wakes,
/// and by 3 the store goes to place 128, which no frame has.
pub fn what_inlets_do()
    ensures stores { reader_inlet (4 ∷ 0 ∷ 9 ∷ 0 ∷ []) (0 ∷ 0 ∷ 7 ∷ []) ≡ record { stores = (2, 7) ∷ []; abort = false; wake = false } }
    ensures aborts { reader_inlet (4 ∷ 0 ∷ 9 ∷ 1 ∷ []) (0 ∷ 0 ∷ 7 ∷ []) ≡ record { stores = (2, 7) ∷ []; abort = true; wake = false } }
    ensures wakes { reader_inlet (4 ∷ 0 ∷ 9 ∷ 2 ∷ []) (0 ∷ []) ≡ record { stores = (2, 0) ∷ []; abort = false; wake = true } }
    ensures stores_nowhere { reader_inlet (4 ∷ 0 ∷ 9 ∷ 3 ∷ []) (0 ∷ 0 ∷ 7 ∷ []) ≡ record { stores = (128, 7) ∷ []; abort = false; wake = false } }
{}
