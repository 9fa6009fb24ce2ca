//! The table of a pool's worker and its turn, tried on small cases: each contract is computed from the definitions
//! alone. `Steal 1 0 root` is by worker 1 from home 0 (the hall); `task child 2` is at home at worker 2.
ghost use Rattle.std.specs.Prelude.{◌≡◌, true, false, Some, None, Ok, Err};
ghost use Rattle.frame_table.specs.declared.names.FrameId.{FrameId};
ghost use Rattle.jamboree_rules.specs.declared.leaf.Leaf.{Leaf};
ghost use Rattle.jamboree_rules.specs.declared.leaf.LeafAnswer.{LeafAnswer};
ghost use Rattle.sched_rules.specs.declared.refusal.Refusal.TheVariants.{NoFrame, NotReady, NoSteps, NoSegments, NotSpent};
ghost use Rattle.sched_rules.specs.declared.step.StepOf.TheVariants.{Take, Steal, Advance, Answer, Inlet, Finish as FinishRoot, Spend};
ghost use Rattle.sched_rules.specs.declared.step.DidOf.TheVariants.{Took, Spawned, Waited, Computing as IsComputing, Returned, Answered, TakenIn, Finished, Spent};
ghost use Rattle.jamboree_rules.specs.declared.pool_rules.turn.Action.TheVariants.{Get, Run, Bring, TakeIn, Finish};
ghost use Rattle.jamboree_rules.specs.declared.pool_rules.turn.Holding.TheVariants.{Nothing, Next, Computing, GivingUp};
ghost use Rattle.jamboree_rules.specs.pool_rules.Turns.{offered, turn, turn_after};
ghost use Rattle.jamboree_rules.specs.pool_rules.Rows.{root, child, task};

/// A root that lies in the hall and is computed near the leaves, by worker 1: Steal, Advance, the
/// computation, Answer, Advance, Finish.
pub fn a_root_is_computed()
    ensures steals { offered 1 (Next (Get (task root 0))) ≡ Some (Steal 1 0 root) }
    ensures runs { turn_after 1 (Next (Get (task root 0))) (Ok Took) ≡ turn (Next (Run root)) }
    ensures advances { offered 1 (Next (Run root)) ≡ Some (Advance 1 root) }
    ensures computes { (leaf : Leaf) → turn_after 1 (Next (Run root)) (Ok (IsComputing leaf)) ≡ turn (Computing root leaf) }
    ensures waits { (leaf : Leaf) → offered 1 (Computing root leaf) ≡ None }
    ensures answers { (answer : LeafAnswer) → offered 1 (Next (Bring root answer)) ≡ Some (Answer 1 root answer) }
    ensures goes_on { (answer : LeafAnswer) → turn_after 1 (Next (Bring root answer)) (Ok Answered) ≡ turn (Next (Run root)) }
    ensures returns { turn_after 1 (Next (Run root)) (Ok (Returned true)) ≡ turn (Next (Finish root)) }
    ensures finishes { offered 1 (Next (Finish root)) ≡ Some (FinishRoot 1 root) }
    ensures ends { turn_after 1 (Next (Finish root)) (Ok (Finished 1)) ≡ turn Nothing }
{}

/// Worker 2 opens a child and waits; the child is its own task. Once the child has returned it is
/// taken in, and the parent that it wakes is worker 2's task again.
pub fn a_child_and_its_parent()
    ensures opens { turn_after 2 (Next (Run root)) (Ok (Spawned child)) ≡ record { holding = Next (Run root); task = Some (task child 2) } }
    ensures waits { turn_after 2 (Next (Run root)) (Ok Waited) ≡ turn Nothing }
    ensures takes { offered 2 (Next (Get (task child 2))) ≡ Some (Take 2 child) }
    ensures steals { offered 3 (Next (Get (task child 2))) ≡ Some (Steal 3 2 child) }
    ensures returns { turn_after 2 (Next (Run child)) (Ok (Returned false)) ≡ turn (Next (TakeIn child)) }
    ensures taken_in { offered 2 (Next (TakeIn child)) ≡ Some (Inlet 2 child) }
    ensures wakes { turn_after 2 (Next (TakeIn child)) (Ok (TakenIn (Some root) 0)) ≡ record { holding = Nothing; task = Some (task root 2) } }
    ensures sleeps { turn_after 2 (Next (TakeIn child)) (Ok (TakenIn None 0)) ≡ turn Nothing }
{}

/// A step that is refused for want of quota: the job is offered to be spent, and where that is refused
/// the step comes again. A task whose frame is gone is dropped.
pub fn a_step_is_refused()
    ensures short { turn_after 1 (Next (Run child)) (Err NoSegments) ≡ turn (GivingUp (Run child)) }
    ensures spends { offered 1 (GivingUp (Run child)) ≡ Some (Spend child) }
    ensures again { turn_after 1 (GivingUp (Run child)) (Err NotSpent) ≡ turn (Next (Run child)) }
    ensures spent { turn_after 1 (GivingUp (Run child)) (Ok (Spent 1)) ≡ turn Nothing }
    ensures gone { turn_after 1 (GivingUp (Run child)) (Err NoFrame) ≡ turn Nothing }
    ensures no_step { turn_after 1 (Next (Get (task child 2))) (Err NoSteps) ≡ turn (GivingUp (Get (task child 2))) }
    ensures dropped { turn_after 1 (Next (Get (task child 2))) (Err NotReady) ≡ turn Nothing }
{}
