//! Worked examples of the list of what a desk's seat asked for and of a worker's waits, computed from the definitions
//! alone. Waits are in pauses of the processor; jobs count from 1.
ghost use Rattle.std.specs.Prelude.{◌≡◌, [], ◌∷◌, Some, None};
ghost use Rattle.hall.specs.declared.desk_rules.asked.SeatAsked.{SeatAsked};
ghost use Rattle.hall.specs.desk_rules.Asked.{seat_asked_at};
ghost use Rattle.hall.specs.desk_rules.Waits.{least_wait, longest_wait, eased, doubled};

/// A seat that has asked twice has jobs 1 and 2, and no job 0 or 3.
pub fn jobs_of_two_asks()
    ensures zero { (first second : SeatAsked) → seat_asked_at (first ∷ second ∷ []) 0 ≡ None }
    ensures one { (first second : SeatAsked) → seat_asked_at (first ∷ second ∷ []) 1 ≡ Some first }
    ensures two { (first second : SeatAsked) → seat_asked_at (first ∷ second ∷ []) 2 ≡ Some second }
    ensures three { (first second : SeatAsked) → seat_asked_at (first ∷ second ∷ []) 3 ≡ None }
{}

/// The shortest and the longest waits, in pauses: behind leaves of up to 2 plies some 4 microseconds and half a millisecond, and
/// some microsecond behind deeper ones.
pub fn waits_by_depth()
    ensures shallow_least { (least_wait 0 ≡ 256) × (least_wait 1 ≡ 256) × (least_wait 2 ≡ 256) }
    ensures shallow { (longest_wait 0 ≡ 32768) × (longest_wait 1 ≡ 32768) × (longest_wait 2 ≡ 32768) }
    ensures deep_least { (least_wait 3 ≡ 64) × (least_wait 4 ≡ 64) × (least_wait 6 ≡ 64) × (least_wait 12 ≡ 64) }
    ensures deep { (longest_wait 3 ≡ 64) × (longest_wait 4 ≡ 64) × (longest_wait 6 ≡ 64) × (longest_wait 12 ≡ 64) }
{}

/// A wait is doubled up to the longest and eased by a sixteenth down to the shortest.
pub fn waits_rise_and_fall()
    ensures doubled { (doubled 32768 16000 ≡ 32000) × (doubled 32768 20000 ≡ 32768) × (doubled 64 64 ≡ 64) }
    ensures eased { (eased 256 32768 ≡ 30720) × (eased 256 272 ≡ 256) × (eased 256 256 ≡ 256) × (eased 64 64 ≡ 64) }
{}
