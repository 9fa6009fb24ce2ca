//! The definitions of a core's steps, tried on worked examples: each contract is computed from the definitions alone. A
//! step stands with its worker or tenant first, then its frame; `one_job` has the reservation, the last serial and the
//! steps taken; `some_left` segments, nodes and steps.
ghost use Rattle.std.specs.Prelude.{◌≡◌, [], ◌∷◌, ◌++◌, Some, None, Ok, Err, true, false, option_map, replicate};
ghost use Rattle.frame_table.specs.declared.names.State.TheVariants.{Ready, Running, Computing, Waiting, Returned};
ghost use Rattle.sched_rules.specs.declared.job.Job.TheVariants.{Live, Done};
ghost use Rattle.sched_rules.specs.declared.refusal.Refusal.TheVariants.{NoFrame, NoSegments, NoNodes, NotSpent, Full, Lower};
ghost use Rattle.sched_rules.specs.declared.step.StepOf.TheVariants.{Admit, AdmitMore, Take, Advance, Answer, Spend, Leave};
ghost use Rattle.sched_rules.specs.declared.step.DidOf.TheVariants.{Admitted, Submitted, Took, Spawned, Waited, Computing as IsComputing, Returned as HasReturned, Answered, TakenIn, Left};
ghost use Rattle.sched_rules.specs.Trees.{left};
ghost use Rattle.sched_rules.specs.Lone.{lone_refusal};
ghost use Rattle.sched_rules.specs.Runs.{only, alone, answers_from};
ghost use Rattle.sched_rules.specs.Cores.{shared_by_nobody, shared_run, shared_refusal, tenant_in};
ghost use Rattle.sched_rules.specs.Headline.{taken_steps, own_answers};
ghost use Rattle.sched_rules.specs.Views.{left_in_core, job_of, frame_in_core, words_of_frame, live_of, newest_ready_in, ready_count, free_in};
ghost use Rattle.toys.specs.Toys.{fan, chain_procedure};
ghost use Rattle.toys.specs.FanRows.{one, two, toy_quota, some_left, frame, one_job, answer, one_with, fan_opens, fan_opens_five, fan_steps, fan_steps_before_inlet, steps_between, mixed_steps, narrow_opens, narrow_returns, before_inlet, used_up, used_up_with, some_steps, some_answers};
ghost use Rattle.toys.specs.ChainRows.{chain_begins, chain_ends, chain_spent};

/// One job of Fan: the inlet of frame 2 removes frames 3, 4 and 5 too, wakes the root for worker 2,
/// and gives their segments back; nodes aren't given back.
pub fn fan_takes_in_and_aborts()
    ensures told { answers_from fan None fan_steps ≡
        Ok Admitted ∷ Ok (Submitted 1 (one 1)) ∷ Ok Took ∷ Ok (Spawned (one 2)) ∷ Ok (Spawned (one 3)) ∷ Ok (Spawned (one 4)) ∷ Ok Waited
        ∷ Ok Took ∷ Ok (IsComputing 1) ∷ Ok Took ∷ Ok (Spawned (one 5)) ∷ Ok Took ∷ Ok (IsComputing 1) ∷ Ok Answered ∷ Ok (HasReturned false)
        ∷ Ok (TakenIn (Some (one 1)) 3) ∷ [] }
    ensures tree { alone fan fan_steps ≡ Some (one_job (toy_quota 8 8) 5 14 (frame 1 (1 ∷ []) (Ready 2) (0 ∷ 4 ∷ 1 ∷ 0 ∷ []) ∷ [])) }
    ensures left_after { option_map left (alone fan fan_steps) ≡ Some (some_left 7 3 114) }
    ensures tree_before { alone fan fan_steps_before_inlet ≡ Some (one_job (toy_quota 8 8) 5 13 (frame 1 (1 ∷ []) Waiting (0 ∷ 4 ∷ 0 ∷ 0 ∷ [])
        ∷ frame 2 (1 ∷ 2 ∷ []) Returned (1 ∷ 2 ∷ 7 ∷ 0 ∷ [])
        ∷ frame 3 (1 ∷ 3 ∷ []) (Running 3) (2 ∷ 1 ∷ 0 ∷ 0 ∷ [])
        ∷ frame 4 (1 ∷ 4 ∷ []) (Computing 1) (1 ∷ 1 ∷ 0 ∷ 0 ∷ [])
        ∷ frame 5 (1 ∷ 3 ∷ 5 ∷ []) (Ready 3) (1 ∷ 0 ∷ 0 ∷ 0 ∷ []) ∷ [])) }
    ensures left_before { option_map left (alone fan fan_steps_before_inlet) ≡ Some (some_left 3 3 115) }
{}

/// After Fan's abort, an answer to frame 4, which is gone, is refused; the next serial is 6.
pub fn fan_goes_on()
    ensures late { lone_refusal fan (alone fan fan_steps) (Answer 1 (one 4) (answer 1 7)) ≡ Some NoFrame }
    ensures late_changes_nothing { alone fan (fan_steps ++ Answer 1 (one 4) (answer 1 7) ∷ []) ≡ alone fan fan_steps }
    ensures next { alone fan (fan_steps ++ Take 2 (one 1) ∷ Advance 2 (one 1) ∷ []) ≡ Some (one_job (toy_quota 8 8) 6 16 (frame 1 (1 ∷ []) (Running 2) (0 ∷ 5 ∷ 1 ∷ 0 ∷ []) ∷ frame 6 (1 ∷ 6 ∷ []) (Ready 2) (1 ∷ 0 ∷ 0 ∷ 0 ∷ []) ∷ [])) }
    ensures left { option_map left (alone fan (fan_steps ++ Take 2 (one 1) ∷ Advance 2 (one 1) ∷ [])) ≡ Some (some_left 6 2 112) }
{}

/// With steps of a second tenant put in between, each tenant is what its own steps give.
pub fn fan_beside_another_tenant()
    ensures one_filtered { only 1 mixed_steps ≡ fan_steps }
    ensures two_filtered { only 2 mixed_steps ≡ steps_between }
    ensures one { tenant_in (shared_run fan (shared_by_nobody (toy_quota 32 32)) mixed_steps).tenants 1 ≡ alone fan fan_steps }
    ensures two { tenant_in (shared_run fan (shared_by_nobody (toy_quota 32 32)) mixed_steps).tenants 2 ≡ alone fan steps_between }
    ensures two_tree { alone fan steps_between ≡ Some (one_job (toy_quota 8 8) 2 2 (frame 1 (1 ∷ []) (Running 4) (0 ∷ 1 ∷ 0 ∷ 0 ∷ []) ∷ frame 2 (1 ∷ 2 ∷ []) (Ready 4) (1 ∷ 0 ∷ 0 ∷ 0 ∷ []) ∷ [])) }
    ensures nobody_else { tenant_in (shared_run fan (shared_by_nobody (toy_quota 32 32)) mixed_steps).tenants 3 ≡ None }
    ensures free_alone { free_in (shared_run fan (shared_by_nobody (toy_quota 32 32)) fan_steps) ≡ 31 }
    ensures free_mixed { free_in (shared_run fan (shared_by_nobody (toy_quota 32 32)) mixed_steps) ≡ 29 }
{}

/// In a core of 8 segments and 32 nodes, two tenants reserve all segments, and a third finds no room;
/// the first then uses all that it reserved.
pub fn fan_in_a_full_core()
    ensures full { shared_refusal fan (shared_run fan (shared_by_nobody (toy_quota 8 32)) (Admit 1 (toy_quota 5 8) ∷ Admit 2 (toy_quota 3 8) ∷ [])) (Admit 3 (toy_quota 1 1)) ≡ Some Full }
    ensures told { answers_from fan None (one_with 5 8 ++ fan_opens ++ fan_opens_five) ≡
        Ok Admitted ∷ Ok (Submitted 1 (one 1)) ∷ Ok Took ∷ Ok (Spawned (one 2)) ∷ Ok (Spawned (one 3)) ∷ Ok (Spawned (one 4)) ∷ Ok Waited
        ∷ Ok Took ∷ Ok (IsComputing 1) ∷ Ok Took ∷ Ok (Spawned (one 5)) ∷ [] }
    ensures none_left { option_map left (alone fan (one_with 5 8 ++ fan_opens ++ fan_opens_five)) ≡ Some (some_left 0 3 119) }
    ensures the_same { tenant_in (shared_run fan (shared_by_nobody (toy_quota 8 32)) (Admit 1 (toy_quota 5 8) ∷ Admit 2 (toy_quota 3 8) ∷ Admit 3 (toy_quota 1 1) ∷ fan_opens ++ fan_opens_five)).tenants 1
        ≡ alone fan (one_with 5 8 ++ fan_opens ++ fan_opens_five) }
{}

/// A tenant that has used up its segments reserves more while its job runs, and has that much more left.
/// Less or no more than it reserves is refused by Lower, also beyond the totals, and more than they allow
/// by Full.
pub fn fan_reserves_more()
    ensures before { left_in_core used_up 1 ≡ Some (some_left 0 3 119) }
    ensures after { left_in_core (used_up_with 7 10) 1 ≡ Some (some_left 2 5 151) }
    ensures another { left_in_core (used_up_with 7 10) 2 ≡ Some (some_left 3 8 128) }
    ensures fewer { shared_refusal fan (used_up_with 7 10) (AdmitMore 1 (toy_quota 6 10)) ≡ Some Lower }
    ensures lower_before_full { shared_refusal fan (used_up_with 7 10) (AdmitMore 1 (toy_quota 17 9)) ≡ Some Lower }
    ensures beyond { shared_refusal fan (used_up_with 7 10) (AdmitMore 1 (toy_quota 14 10)) ≡ Some Full }
    ensures as_much_as_there_is { shared_refusal fan (used_up_with 7 10) (AdmitMore 1 (toy_quota 13 10)) ≡ None }
    ensures the_same { tenant_in (used_up_with 7 10).tenants 1 ≡ alone fan (one_with 5 8 ++ fan_opens ++ fan_opens_five ++ AdmitMore 1 (toy_quota 7 10) ∷ []) }
{}

/// With three segments Fan's third child is refused: NoSegments; after an inlet has aborted frame 3 the root can open
/// one.
pub fn fan_with_three_segments()
    ensures refused { lone_refusal fan (alone fan narrow_opens) (Advance 1 (one 1)) ≡ Some NoSegments }
    ensures tree { alone fan narrow_returns ≡ Some (one_job (toy_quota 3 8) 3 8 (frame 1 (1 ∷ []) (Running 1) (0 ∷ 2 ∷ 1 ∷ 0 ∷ []) ∷ [])) }
    ensures not_spent { lone_refusal fan (alone fan narrow_returns) (Spend (one 1)) ≡ Some NotSpent }
    ensures goes_on { alone fan (narrow_returns ++ Advance 1 (one 1) ∷ []) ≡ Some (one_job (toy_quota 3 8) 4 9 (frame 1 (1 ∷ []) (Running 1) (0 ∷ 3 ∷ 1 ∷ 0 ∷ []) ∷ frame 4 (1 ∷ 4 ∷ []) (Ready 1) (1 ∷ 0 ∷ 0 ∷ 0 ∷ []) ∷ [])) }
    ensures left { option_map left (alone fan (narrow_returns ++ Advance 1 (one 1) ∷ [])) ≡ Some (some_left 1 4 119) }
{}

/// Chain of count 2 with enough: three frames of two segments, and the job is done with all 20 words of the root.
pub fn chain_with_enough()
    ensures done { alone chain_procedure (chain_begins 6 3 ++ chain_ends) ≡ Some (record {
      reserve = toy_quota 6 3;
      serials = 3;
      steps = 15;
      jobs = Done (2 ∷ 2 ∷ 1 ∷ replicate 17 0) ∷ [];
      frames = [];
    }) }
    ensures left { option_map left (alone chain_procedure (chain_begins 6 3 ++ chain_ends)) ≡ Some (some_left 6 0 33) }
{}

/// With five segments frame 2 of Chain can't open its child: NoSegments; the job is spent, and its segments are back.
pub fn chain_with_too_few_segments()
    ensures refused { lone_refusal chain_procedure (alone chain_procedure (chain_begins 5 3)) (Advance 1 (one 2)) ≡ Some NoSegments }
    ensures spent { alone chain_procedure (chain_begins 5 3 ++ Spend (one 2) ∷ []) ≡ Some (chain_spent 5 3) }
    ensures left { option_map left (alone chain_procedure (chain_begins 5 3 ++ Spend (one 2) ∷ [])) ≡ Some (some_left 5 1 44) }
{}

/// With two nodes frame 2 of Chain can't open its child either: NoNodes; the job is spent.
pub fn chain_with_too_few_nodes()
    ensures refused { lone_refusal chain_procedure (alone chain_procedure (chain_begins 6 2)) (Advance 1 (one 2)) ≡ Some NoNodes }
    ensures spent { alone chain_procedure (chain_begins 6 2 ++ Spend (one 2) ∷ []) ≡ Some (chain_spent 6 2) }
    ensures left { option_map left (alone chain_procedure (chain_begins 6 2 ++ Spend (one 2) ∷ [])) ≡ Some (some_left 6 0 28) }
{}

/// What is read of a core before and after the last inlet of Fan's example: what is left, the job, and the frames.
pub fn what_is_read()
    ensures left { left_in_core before_inlet 1 ≡ Some (some_left 3 3 115) }
    ensures left_of_nobody { left_in_core before_inlet 2 ≡ None }
    ensures job { job_of before_inlet 1 1 ≡ Some (Live 1) }
    ensures job_zero { job_of before_inlet 1 0 ≡ None }
    ensures job_two { job_of before_inlet 1 2 ≡ None }
    ensures root { frame_in_core before_inlet (one 1) ≡ Some (None, Waiting) }
    ensures grandchild { frame_in_core before_inlet (one 5) ≡ Some (Some (one 3), Ready 3) }
    ensures no_frame { frame_in_core before_inlet (one 6) ≡ None }
    ensures another_s_frame { frame_in_core before_inlet (two 1) ≡ None }
    ensures words { words_of_frame before_inlet (one 2) ≡ Some (1 ∷ 2 ∷ 7 ∷ 0 ∷ []) }
    ensures live { live_of before_inlet 1 ≡ Some (5, 20) }
    ensures live_after { live_of (shared_run fan (shared_by_nobody (toy_quota 32 32)) fan_steps) 1 ≡ Some (1, 4) }
    ensures newest { newest_ready_in before_inlet 1 ≡ Some (one 5, 3) }
    ensures ready { ready_count before_inlet.tenants ≡ 1 }
    ensures free { free_in before_inlet ≡ 27 }
{}

/// Of a list of two tenants' steps, of which one is refused: those that were taken, and what each tenant was told.
pub fn what_was_taken()
    ensures taken { taken_steps some_steps some_answers ≡ Admit 1 (toy_quota 1 1) ∷ Admit 2 (toy_quota 1 1) ∷ Leave 2 ∷ [] }
    ensures one { own_answers 1 some_steps some_answers ≡ Ok Admitted ∷ [] }
    ensures two { own_answers 2 some_steps some_answers ≡ Ok Admitted ∷ Ok Left ∷ [] }
{}
