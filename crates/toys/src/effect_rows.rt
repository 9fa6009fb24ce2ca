//! The definition of a core's step: what taken steps do, in small states; each contract is computed. A step stands with
//! its worker or tenant first, then its frame; a `frame` with its serial, path, state and words; `tenant_with` has how
//! many of 64 steps were taken.
ghost use Rattle.std.specs.Prelude.{◌≡◌, ◌+◌, [], ◌∷◌, ◌++◌, Some, None, Ok, Err, true, false, replicate};
ghost use Rattle.frame_table.specs.declared.names.State.TheVariants.{Ready, Running, Computing, Waiting, Returned};
ghost use Rattle.sched_rules.specs.declared.act.Continuation.TheVariants.{Grow, Spawn, Go, Wait, Compute, Return};
ghost use Rattle.sched_rules.specs.declared.job.Job.TheVariants.{Live, Done, Spent as SpentJob, Cancelled as CancelledJob};
ghost use Rattle.sched_rules.specs.declared.step.StepOf.TheVariants.{AdmitMore, Submit, Take, Steal, Advance, Answer, Inlet, Finish, Spend, Cancel, Leave};
ghost use Rattle.sched_rules.specs.declared.step.DidOf.TheVariants.{AdmittedMore, Submitted, Took, Went, Grew, Spawned, Waited, Computing as IsComputing, Returned as HasReturned, Answered, TakenIn, Finished, Spent, Cancelled, Left};
ghost use Rattle.sched_rules.specs.Trees.{left, sight};
ghost use Rattle.toys.specs.FanRows.{one, toy_quota, some_left, frame, one_job};
ghost use Rattle.toys.specs.SmallStates.{idle, acting, always, act, inlet, taking_in, fresh_tenant, tenant_with, root_frame, child_frame, outcome, bare, family, housed, two_jobs, resting};

/// A frame sees its own words, its parent's and so on to the root's, and no sibling's. Frame 1 is a root, frames 2 and 3
/// are its children, and frame 5 is a child of 3. The root sees its own word (11); frame 5 sees its own word, its
/// parent's and the root's (15, 13, 11), and not that of frame 2.
pub fn what_a_frame_sees()
    ensures root { sight (frame 1 (1 ∷ []) Waiting (11 ∷ []) ∷ frame 2 (1 ∷ 2 ∷ []) Waiting (12 ∷ []) ∷ []) (1 ∷ []) ≡ (11 ∷ []) ∷ [] }
    ensures grandchild { sight (frame 1 (1 ∷ []) Waiting (11 ∷ []) ∷ frame 2 (1 ∷ 2 ∷ []) Waiting (12 ∷ []) ∷ frame 3 (1 ∷ 3 ∷ []) Waiting (13 ∷ []) ∷ frame 5 (1 ∷ 3 ∷ 5 ∷ []) (Running 1) (15 ∷ []) ∷ []) (1 ∷ 3 ∷ 5 ∷ [])
        ≡ (15 ∷ []) ∷ (13 ∷ []) ∷ (11 ∷ []) ∷ [] }
{}

/// A new root of 5 words holds the two words given first, then zeros; it is ready in the hall, as frame 10 and job 2.
pub fn submitting()
    ensures job { outcome idle (housed 5 (SpentJob ∷ []) []) (Submit 1 (3 ∷ 4 ∷ []) 5) ≡
        Ok (Some (record { reserve = toy_quota 16 16; serials = 10; steps = 5; jobs = SpentJob ∷ Live 10 ∷ []; frames = frame 10 (10 ∷ []) (Ready 0) (3 ∷ 4 ∷ 0 ∷ 0 ∷ 0 ∷ []) ∷ [] }), Submitted 2 (one 10)) }
{}

/// What an Advance does after its act's stores, which are done in order: go on, grow, open a child, wait, compute or
/// return.
pub fn acting_in_turn()
    ensures stores { outcome (acting ((1, 5) ∷ (2, 7) ∷ (1, 6) ∷ []) Go) (fresh_tenant (root_frame (Running 1) ∷ [])) (Advance 1 (one 1))
        ≡ Ok (Some (tenant_with 1 (frame 1 (1 ∷ []) (Running 1) (0 ∷ 6 ∷ 7 ∷ 0 ∷ []) ∷ [])), Went) }
    ensures grow { outcome (acting ((3, 5) ∷ []) (Grow 2)) (fresh_tenant (root_frame (Running 1) ∷ [])) (Advance 1 (one 1))
        ≡ Ok (Some (tenant_with 1 (frame 1 (1 ∷ []) (Running 1) (0 ∷ 0 ∷ 0 ∷ 5 ∷ 0 ∷ 0 ∷ []) ∷ [])), Grew) }
    ensures spawn { outcome (acting ((3, 5) ∷ []) (Spawn (8 ∷ []) 2)) (fresh_tenant (root_frame (Running 1) ∷ [])) (Advance 1 (one 1))
        ≡ Ok (
          Some (one_job (toy_quota 4 4) 4 1 (frame 1 (1 ∷ []) (Running 1) (0 ∷ 0 ∷ 0 ∷ 5 ∷ []) ∷ frame 4 (1 ∷ 4 ∷ []) (Ready 1) (8 ∷ 0 ∷ []) ∷ [])),
          Spawned (one 4),
        ) }
    ensures wait_without_child { outcome (acting [] Wait) (fresh_tenant (root_frame (Running 1) ∷ [])) (Advance 1 (one 1)) ≡ Ok (Some (tenant_with 1 (root_frame (Running 1) ∷ [])), Went) }
    ensures wait { outcome (acting [] Wait) (fresh_tenant (root_frame (Running 1) ∷ child_frame 2 (Ready 1) ∷ [])) (Advance 1 (one 1)) ≡ Ok (Some (tenant_with 1 (root_frame Waiting ∷ child_frame 2 (Ready 1) ∷ [])), Waited) }
    ensures compute { outcome (acting ((0, 9) ∷ []) Compute) (fresh_tenant (root_frame (Running 1) ∷ [])) (Advance 1 (one 1))
        ≡ Ok (Some (tenant_with 1 (frame 1 (1 ∷ []) (Computing 1) (9 ∷ 0 ∷ 0 ∷ 0 ∷ []) ∷ [])), IsComputing 9) }
    ensures return_root { outcome (acting [] Return) (fresh_tenant (root_frame (Running 1) ∷ [])) (Advance 1 (one 1)) ≡ Ok (Some (tenant_with 1 (root_frame Returned ∷ [])), HasReturned true) }
    ensures return_child { outcome (acting [] Return) (fresh_tenant (root_frame Waiting ∷ child_frame 2 (Running 1) ∷ [])) (Advance 1 (one 2)) ≡ Ok (Some (tenant_with 1 (root_frame Waiting ∷ child_frame 2 Returned ∷ [])), HasReturned false) }
    ensures return_with_child { outcome (acting [] Return) (fresh_tenant (root_frame (Running 1) ∷ child_frame 2 Returned ∷ [])) (Advance 1 (one 1)) ≡ Ok (Some (tenant_with 1 (root_frame Waiting ∷ child_frame 2 Returned ∷ [])), Waited) }
{}

/// An Answer by worker 2 stores 3 in word 1, and the worker runs the frame again.
pub fn accepting()
    ensures stores { outcome (always (act [] Go) (inlet [] false false) ((1, 3) ∷ [])) (fresh_tenant (root_frame (Computing 2) ∷ [])) (Answer 2 (one 1) 0)
        ≡ Ok (Some (tenant_with 1 (frame 1 (1 ∷ []) (Running 2) (0 ∷ 3 ∷ 0 ∷ 0 ∷ []) ∷ [])), Answered) }
{}

/// A parent that waits is woken where its inlet says abort or wake, or where it has no child left.
pub fn waking()
    ensures no_child_left { outcome (taking_in ((2, 5) ∷ []) false false) (fresh_tenant (root_frame Waiting ∷ child_frame 2 Returned ∷ [])) (Inlet 3 (one 2))
        ≡ Ok (Some (tenant_with 1 (frame 1 (1 ∷ []) (Ready 3) (0 ∷ 0 ∷ 5 ∷ 0 ∷ []) ∷ [])), TakenIn (Some (one 1)) 0) }
    ensures child_left { outcome (taking_in ((2, 5) ∷ []) false false) (fresh_tenant (root_frame Waiting ∷ child_frame 2 Returned ∷ child_frame 3 (Ready 1) ∷ [])) (Inlet 3 (one 2))
        ≡ Ok (Some (tenant_with 1 (frame 1 (1 ∷ []) Waiting (0 ∷ 0 ∷ 5 ∷ 0 ∷ []) ∷ child_frame 3 (Ready 1) ∷ [])), TakenIn None 0) }
    ensures wake { outcome (taking_in [] false true) (fresh_tenant (root_frame Waiting ∷ child_frame 2 Returned ∷ child_frame 3 (Ready 1) ∷ [])) (Inlet 3 (one 2))
        ≡ Ok (Some (tenant_with 1 (root_frame (Ready 3) ∷ child_frame 3 (Ready 1) ∷ [])), TakenIn (Some (one 1)) 0) }
    ensures abort { outcome (taking_in [] true false) (fresh_tenant (root_frame Waiting ∷ child_frame 2 Returned ∷ child_frame 3 (Running 1) ∷ [])) (Inlet 3 (one 2))
        ≡ Ok (Some (tenant_with 1 (root_frame (Ready 3) ∷ [])), TakenIn (Some (one 1)) 1) }
    ensures running_parent { outcome (taking_in [] true true) (fresh_tenant (root_frame (Running 1) ∷ child_frame 2 Returned ∷ [])) (Inlet 3 (one 2))
        ≡ Ok (Some (tenant_with 1 (root_frame (Running 1) ∷ [])), TakenIn None 0) }
    ensures ready_parent { outcome (taking_in [] false true) (fresh_tenant (root_frame (Ready 0) ∷ child_frame 2 Returned ∷ [])) (Inlet 3 (one 2))
        ≡ Ok (Some (tenant_with 1 (root_frame (Ready 0) ∷ [])), TakenIn None 0) }
{}

/// An abort removes all that is below the parent, to the last generation, and nothing else.
pub fn aborting()
    ensures below { outcome (taking_in [] true false) (housed 0 two_jobs (family Waiting)) (Inlet 3 (one 4)) ≡
        Ok (Some (housed 1 two_jobs (bare 1 (1 ∷ []) Waiting ∷ bare 2 (1 ∷ 2 ∷ []) (Ready 3) ∷ bare 3 (3 ∷ []) Waiting ∷ bare 8 (1 ∷ 8 ∷ []) (Ready 0) ∷ bare 9 (3 ∷ 9 ∷ []) (Ready 0) ∷ [])), TakenIn (Some (one 2)) 3) }
    ensures none { outcome (taking_in [] false false) (housed 0 two_jobs (family (Running 1))) (Inlet 3 (one 4)) ≡
        Ok (
          Some (housed 1 two_jobs (bare 1 (1 ∷ []) Waiting ∷ bare 2 (1 ∷ 2 ∷ []) (Running 1) ∷ bare 3 (3 ∷ []) Waiting ∷ bare 5 (1 ∷ 2 ∷ 5 ∷ []) (Running 2)
              ∷ bare 6 (1 ∷ 2 ∷ 5 ∷ 6 ∷ []) (Ready 2) ∷ bare 7 (1 ∷ 2 ∷ 5 ∷ 6 ∷ 7 ∷ []) Waiting ∷ bare 8 (1 ∷ 8 ∷ []) (Ready 0) ∷ bare 9 (3 ∷ 9 ∷ []) (Ready 0) ∷ [])),
          TakenIn None 0,
        ) }
{}

/// What AdmitMore adds to a reservation can be used from then on. Nothing else of the tenant changes, and a job
/// that was given up stays so.
pub fn reserving_more()
    ensures raised { outcome idle (resting 16 16) (AdmitMore 1 (toy_quota 17 18)) ≡ Ok (Some (resting 17 18), AdmittedMore) }
    ensures left_before { left (resting 16 16) ≡ some_left 15 7 0 }
    ensures left_after { left (resting 17 18) ≡ some_left 16 9 32 }
{}

/// A job that ends takes all its frames with it, and no frame of another job. Of a root of 77 words the
/// job keeps 76.
pub fn ending_a_job()
    ensures cancel { outcome idle (housed 0 two_jobs (family Waiting)) (Cancel 1 1) ≡
        Ok (Some (housed 0 (CancelledJob ∷ Live 3 ∷ []) (bare 3 (3 ∷ []) Waiting ∷ bare 9 (3 ∷ 9 ∷ []) (Ready 0) ∷ [])), Cancelled) }
    ensures spend { outcome idle (housed 256 two_jobs (bare 1 (1 ∷ []) Waiting ∷ bare 3 (3 ∷ []) Waiting ∷ bare 9 (3 ∷ 9 ∷ []) (Ready 0) ∷ [])) (Spend (one 9)) ≡
        Ok (Some (housed 256 (Live 1 ∷ SpentJob ∷ []) (bare 1 (1 ∷ []) Waiting ∷ [])), Spent 2) }
    ensures finish { outcome idle (housed 0 two_jobs (bare 1 (1 ∷ []) Waiting ∷ frame 3 (3 ∷ []) Returned (replicate 75 1 ++ 2 ∷ 3 ∷ []) ∷ [])) (Finish 1 (one 3)) ≡
        Ok (Some (housed 1 (Live 1 ∷ Done (replicate 75 1 ++ 2 ∷ []) ∷ []) (bare 1 (1 ∷ []) Waiting ∷ [])), Finished 2) }
    ensures leave { outcome idle (housed 0 two_jobs (family Waiting)) (Leave 1) ≡ Ok (None, Left) }
{}
