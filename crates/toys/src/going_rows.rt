//! Whether a worker can go on, tried on small states: each contract is computed from the definitions alone. A step stands
//! with its worker first, then its frame; `root_frame` is frame 1, and `child_frame 2` its child.
ghost use Rattle.std.specs.Prelude.{◌≡◌, [], ◌∷◌, None, Some, replicate};
ghost use Rattle.frame_table.specs.declared.names.State.TheVariants.{Computing, Waiting, Running};
ghost use Rattle.sched_rules.specs.declared.refusal.Refusal.TheVariants.{Busy, NotReady, NotRunning, NotReturned, NotSpent, BadAct, Mismatch, NoSteps, NoSegments};
ghost use Rattle.sched_rules.specs.declared.step.StepOf.TheVariants.{Take, Steal, Advance, Answer, Inlet, Finish, Spend, Cancel};
ghost use Rattle.sched_rules.specs.Lone.{lone_refusal};
ghost use Rattle.sched_rules.specs.Runs.{alone};
ghost use Rattle.sched_laws.specs.Onward.{HasAnswer, WaitsForChildren};
ghost use Rattle.toys.specs.Toys.{fan, chain_procedure};
ghost use Rattle.toys.specs.FanRows.{one, answer, fan_steps_before_inlet};
ghost use Rattle.toys.specs.ChainRows.{chain_begins};
ghost use Rattle.toys.specs.SmallStates.{idle, storing_outside, fresh_tenant, tired, root_frame, child_frame, refusal};
ghost use Rattle.toys.specs.GoingRows.{refusals};

/// Fan's job with a frame in each state: each but the root, which waits, can go on. No step goes on with the root itself.
pub fn each_of_fan_goes_on()
    ensures returned { lone_refusal fan (alone fan fan_steps_before_inlet) (Inlet 9 (one 2)) ≡ None }
    ensures runs { lone_refusal fan (alone fan fan_steps_before_inlet) (Advance 3 (one 3)) ≡ None }
    ensures computed { lone_refusal fan (alone fan fan_steps_before_inlet) (Answer 1 (one 4) (answer 1 7)) ≡ None }
    ensures ready { lone_refusal fan (alone fan fan_steps_before_inlet) (Steal 9 3 (one 5)) ≡ None }
    ensures waits_take { lone_refusal fan (alone fan fan_steps_before_inlet) (Take 9 (one 1)) ≡ Some NotReady }
    ensures waits_steal { lone_refusal fan (alone fan fan_steps_before_inlet) (Steal 9 1 (one 1)) ≡ Some NotReady }
    ensures waits_advance { lone_refusal fan (alone fan fan_steps_before_inlet) (Advance 1 (one 1)) ≡ Some NotRunning }
    ensures waits_inlet { lone_refusal fan (alone fan fan_steps_before_inlet) (Inlet 9 (one 1)) ≡ Some NotReturned }
    ensures waits_finish { lone_refusal fan (alone fan fan_steps_before_inlet) (Finish 9 (one 1)) ≡ Some NotReturned }
    ensures waits_spend { lone_refusal fan (alone fan fan_steps_before_inlet) (Spend (one 1)) ≡ Some NotSpent }
{}

/// Chain without a segment for its second child: frame 2 can't advance, and its job can be spent.
pub fn chain_is_spent()
    ensures short { lone_refusal chain_procedure (alone chain_procedure (chain_begins 4 3)) (Advance 1 (one 2)) ≡ Some NoSegments }
    ensures spent { lone_refusal chain_procedure (alone chain_procedure (chain_begins 4 3)) (Spend (one 2)) ≡ None }
    ensures enough { lone_refusal chain_procedure (alone chain_procedure (chain_begins 6 3)) (Advance 1 (one 2)) ≡ None }
    ensures not_spent { lone_refusal chain_procedure (alone chain_procedure (chain_begins 6 3)) (Spend (one 2)) ≡ Some NotSpent }
{}

/// A frame that goes on for ever: it advances while a step is left, and then its job can be spent.
pub fn one_that_never_ends()
    ensures goes_on { refusal idle (fresh_tenant (root_frame (Running 5) ∷ [])) (Advance 5 (one 1)) ≡ None }
    ensures tired { refusal idle (tired (root_frame (Running 5) ∷ [])) (Advance 5 (one 1)) ≡ Some NoSteps }
    ensures spent { refusal idle (tired (root_frame (Running 5) ∷ [])) (Spend (one 1)) ≡ None }
{}

/// A frame that is computed by worker 2, and that can't store an answer: it has no answer that it can take, and stays
/// until its job is cancelled.
pub fn one_that_no_answer_fits()
    ensures none { HasAnswer storing_outside (0 ∷ 0 ∷ 0 ∷ 0 ∷ []) → ⊥ }
    ensures own { refusal storing_outside (fresh_tenant (root_frame (Computing 2) ∷ [])) (Answer 2 (one 1) 0) ≡ Some BadAct }
    ensures another { refusal storing_outside (fresh_tenant (root_frame (Computing 2) ∷ [])) (Answer 2 (one 1) 7) ≡ Some Mismatch }
    ensures not_run { refusal storing_outside (fresh_tenant (root_frame (Computing 2) ∷ [])) (Advance 2 (one 1)) ≡ Some NotRunning }
    ensures not_ready { refusal storing_outside (fresh_tenant (root_frame (Computing 2) ∷ [])) (Take 2 (one 1)) ≡ Some NotReady }
    ensures not_returned { refusal storing_outside (fresh_tenant (root_frame (Computing 2) ∷ [])) (Finish 2 (one 1)) ≡ Some NotReturned }
    ensures not_spent { refusal storing_outside (fresh_tenant (root_frame (Computing 2) ∷ [])) (Spend (one 1)) ≡ Some NotSpent }
    ensures cancelled { refusal storing_outside (fresh_tenant (root_frame (Computing 2) ∷ [])) (Cancel 1 1) ≡ None }
{}

/// A root that waits without a child, to which no steps lead: nobody can go on with it.
pub fn one_that_waits_in_vain()
    ensures alone { WaitsForChildren (fresh_tenant (root_frame Waiting ∷ [])) → ⊥ }
    ensures not_spent { refusal idle (fresh_tenant (root_frame Waiting ∷ [])) (Spend (one 1)) ≡ Some NotSpent }
    ensures not_run { refusal idle (fresh_tenant (root_frame Waiting ∷ [])) (Advance 1 (one 1)) ≡ Some NotRunning }
    ensures with_child { refusal idle (fresh_tenant (root_frame Waiting ∷ child_frame 2 (Running 5) ∷ [])) (Advance 5 (one 2)) ≡ None }
{}

/// Of 33 jobs each of the 32 workers runs one: no worker can get the 33rd, and it can't be spent; but each can go on with
/// its own.
pub fn nobody_is_free()
    ensures busy { refusals (λ worker. Steal worker 0 (one 33)) ≡ replicate 32 (Some Busy) }
    ensures not_spent { refusals (λ worker. Spend (one 33)) ≡ replicate 32 (Some NotSpent) }
    ensures own { refusals (λ worker. Advance worker (one worker)) ≡ replicate 32 None }
{}
