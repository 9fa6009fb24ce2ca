//! The definitions of seats at a pool's deques, tried on two workers: each contract is computed from the definitions
//! alone. A `seat` stands with its deque, its parts (of 64), and the tasks that it pushed and took.
ghost use Rattle.std.specs.Prelude.{◌≡◌, [], ◌∷◌, map, All};
ghost use Rattle.steal_pool.specs.task_deques.Tallies.{tally, IsEmptied};
ghost use Rattle.steal_pool.specs.task_deques.Seats.{Deque};
ghost use Rattle.steal_pool.specs.task_deques.Deals.{posts_of, with_row, whole_deques, IsDealt, IsWhole, IsTaken, IsAccounted};
ghost use Rattle.steal_pool.specs.task_deques.Rows.{worker_task, seat, two_thieves, new_worker, two_workers, played_seats};

/// Of two deques each owner keeps 62 parts, and each worker has a thief's seat at both. With a part more
/// or less, with a thief's seat missing, or with one worker's seats alone, not all seats are there; while
/// the workers play they are.
pub fn two_workers_are_dealt()
    ensures dealt { (one two : Deque) → IsDealt (two_workers 62 one two) }
    ensures whole { (one two : Deque) → IsWhole (map posts_of (two_workers 62 one two)) }
    ensures part_more { (one two : Deque) → IsDealt (two_workers 63 one two) → ⊥ }
    ensures part_less { (one two : Deque) → IsWhole (map posts_of (two_workers 61 one two)) → ⊥ }
    ensures no_thief { (one : Deque) → IsWhole (map posts_of (new_worker 63 one [] ∷ [])) → ⊥ }
    ensures one_worker { (one two : Deque) → IsWhole (map posts_of (new_worker 63 one (two_thieves one two) ∷ [])) → ⊥ }
    ensures no_longer { (one two : Deque) → IsDealt (played_seats one two) → ⊥ }
    ensures still { (one two : Deque) → IsWhole (map posts_of (played_seats one two)) }
{}

/// A worker takes a task of its own deque, and steals one of the other's. A deque is emptied where all
/// that was pushed was taken, in any order.
pub fn tasks_are_taken()
    ensures own { (one two : Deque) → IsTaken (worker_task 3)
        (record { own = seat one 62 (worker_task 1 ∷ worker_task 3 ∷ []) []; thieves = two_thieves one two })
        (record { own = seat one 62 (worker_task 1 ∷ worker_task 3 ∷ []) (worker_task 3 ∷ []); thieves = two_thieves one two }) }
    ensures stolen { (one two : Deque) → IsTaken (worker_task 1)
        (new_worker 62 one (two_thieves one two))
        (new_worker 62 one (seat one 1 [] [] ∷ seat two 1 [] (worker_task 1 ∷ []) ∷ [])) }
    ensures emptied { IsEmptied (tally 64 (worker_task 1 ∷ worker_task 3 ∷ []) (worker_task 3 ∷ worker_task 1 ∷ [])) }
    ensures one_left { IsEmptied (tally 64 (worker_task 1 ∷ worker_task 3 ∷ []) (worker_task 3 ∷ [])) → ⊥ }
{}

/// A row of thieves' seats is joined to the owners' at the same places. With all rows joined, what was
/// pushed on a deque is what was taken and what is left; a task that was taken and never pushed is none.
pub fn rows_are_joined()
    ensures row { (one two : Deque) →
        with_row (seat one 62 (worker_task 1 ∷ worker_task 3 ∷ []) (worker_task 3 ∷ []) ∷ seat two 62 [] [] ∷ []) (seat one 1 [] (worker_task 1 ∷ []) ∷ seat two 1 [] [] ∷ [])
        ≡ seat one 63 (worker_task 1 ∷ worker_task 3 ∷ []) (worker_task 3 ∷ worker_task 1 ∷ []) ∷ seat two 63 [] [] ∷ [] }
    ensures shorter { (one two : Deque) → with_row (seat one 62 [] [] ∷ seat two 62 [] [] ∷ []) (seat one 1 [] [] ∷ []) ≡ seat one 63 [] [] ∷ seat two 62 [] [] ∷ [] }
    ensures longer { (one two : Deque) → with_row (seat one 62 [] [] ∷ []) (two_thieves one two) ≡ seat one 63 [] [] ∷ [] }
    ensures whole { (one two : Deque) → whole_deques (played_seats one two) ≡
        seat one 64 (worker_task 1 ∷ worker_task 2 ∷ worker_task 3 ∷ []) (worker_task 3 ∷ worker_task 1 ∷ []) ∷ seat two 64 [] [] ∷ [] }
    ensures accounted { (one two : Deque) → All IsAccounted (whole_deques (played_seats one two)) }
    ensures made_up { (one : Deque) → IsAccounted (seat one 64 [] (worker_task 1 ∷ [])) → ⊥ }
{}
