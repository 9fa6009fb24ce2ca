//! The refusals of a core's steps: each in at least one small state, and of two neighbours in a step's list the first
//! where both apply. A step stands with its worker or tenant first, then its frame; `root_frame` is frame 1, and
//! `toy_quota` has segments and nodes.
ghost use Rattle.std.specs.Prelude.{◌≡◌, ◌+◌, ◌^◌, [], ◌∷◌, ◌++◌, Some, None, Ok, Err, true, false, replicate};
ghost use Rattle.frame_table.specs.declared.names.State.TheVariants.{Ready, Running, Computing, Waiting, Returned};
ghost use Rattle.sched_rules.specs.declared.act.Continuation.TheVariants.{Grow, Spawn, Go, Wait, Compute, Return};
ghost use Rattle.sched_rules.specs.declared.job.Job.TheVariants.{Live, Done, Spent as SpentJob, Cancelled as CancelledJob};
ghost use Rattle.sched_rules.specs.declared.refusal.Refusal.TheVariants.{NoTenant, NoFrame, NotReady, NotHere, Busy, NotRunning, NotComputing, Mismatch, NotReturned, NoSegments, NoNodes, NoSteps, NoJobsLeft, Full, BadAct, NotSpent, NoJob, OldTenant, Lower};
ghost use Rattle.sched_rules.specs.declared.step.StepOf.TheVariants.{Admit, AdmitMore, Submit, Take, Steal, Advance, Answer, Inlet, Finish, Spend, Cancel, Leave};
ghost use Rattle.sched_rules.specs.Lone.{lone_refusal};
ghost use Rattle.sched_rules.specs.Cores.{shared_refusal};
ghost use Rattle.toys.specs.FanRows.{one, two, toy_quota, frame};
ghost use Rattle.toys.specs.SmallStates.{idle, acting, storing_outside, fresh_tenant, tired, nodeless, wide, tenant_of_jobs, root_frame, child_frame, refusal, roomy, among, beside, crowd};

/// A tenant that isn't there can be admitted, and all its other steps are refused by NoTenant. One that is
/// there isn't admitted again.
pub fn no_tenant()
    ensures admit { lone_refusal idle None (Admit 1 (toy_quota 1 1)) ≡ None }
    ensures admit_more { lone_refusal idle None (AdmitMore 1 (toy_quota 1 1)) ≡ Some NoTenant }
    ensures submit { lone_refusal idle None (Submit 1 [] 0) ≡ Some NoTenant }
    ensures take { lone_refusal idle None (Take 1 (one 1)) ≡ Some NoTenant }
    ensures steal { lone_refusal idle None (Steal 1 0 (one 1)) ≡ Some NoTenant }
    ensures advance { lone_refusal idle None (Advance 1 (one 1)) ≡ Some NoTenant }
    ensures answer { lone_refusal idle None (Answer 1 (one 1) 0) ≡ Some NoTenant }
    ensures inlet { lone_refusal idle None (Inlet 1 (one 1)) ≡ Some NoTenant }
    ensures finish { lone_refusal idle None (Finish 1 (one 1)) ≡ Some NoTenant }
    ensures spend { lone_refusal idle None (Spend (one 1)) ≡ Some NoTenant }
    ensures cancel { lone_refusal idle None (Cancel 1 1) ≡ Some NoTenant }
    ensures leave { lone_refusal idle None (Leave 1) ≡ Some NoTenant }
    ensures again { refusal idle (fresh_tenant []) (Admit 1 (toy_quota 1 1)) ≡ Some OldTenant }
{}

/// A step that names a frame that isn't there is refused by NoFrame, also where the tenant has no step left.
pub fn no_frame()
    ensures take { refusal idle (tired []) (Take 1 (one 9)) ≡ Some NoFrame }
    ensures steal { refusal idle (tired []) (Steal 1 0 (one 9)) ≡ Some NoFrame }
    ensures advance { refusal idle (tired []) (Advance 1 (one 9)) ≡ Some NoFrame }
    ensures answer { refusal idle (tired []) (Answer 1 (one 9) 0) ≡ Some NoFrame }
    ensures inlet { refusal idle (tired []) (Inlet 1 (one 9)) ≡ Some NoFrame }
    ensures finish { refusal idle (tired []) (Finish 1 (one 9)) ≡ Some NoFrame }
    ensures spend { refusal idle (tired []) (Spend (one 9)) ≡ Some NoFrame }
{}

/// The refusals of Submit, in the order of their tests: BadAct, NoJobsLeft, NoNodes, NoSegments.
pub fn submit_refusals()
    ensures no_size { refusal idle (fresh_tenant []) (Submit 1 [] 0) ≡ Some BadAct }
    ensures great_size { refusal idle (wide 16 []) (Submit 1 [] 129) ≡ Some BadAct }
    ensures greatest_size { refusal idle (wide 16 []) (Submit 1 [] 128) ≡ None }
    ensures many_words { refusal idle (fresh_tenant []) (Submit 1 (1 ∷ 2 ∷ []) 1) ≡ Some BadAct }
    ensures as_many_words { refusal idle (fresh_tenant []) (Submit 1 (1 ∷ []) 1) ≡ None }
    ensures bad_before_jobs { refusal idle (tenant_of_jobs 256 3) (Submit 1 [] 0) ≡ Some BadAct }
    ensures jobs { refusal idle (tenant_of_jobs 256 3) (Submit 1 [] 4) ≡ Some NoJobsLeft }
    ensures last_job { refusal idle (tenant_of_jobs 255 3) (Submit 1 [] 4) ≡ None }
    ensures jobs_before_nodes { refusal idle (tenant_of_jobs 256 4) (Submit 1 [] 4) ≡ Some NoJobsLeft }
    ensures nodes { refusal idle (tenant_of_jobs 0 4) (Submit 1 [] 4) ≡ Some NoNodes }
    ensures nodes_before_segments { refusal idle (tenant_of_jobs 0 4) (Submit 1 [] 128) ≡ Some NoNodes }
    ensures segments { refusal idle (tenant_of_jobs 0 3) (Submit 1 [] 65) ≡ Some NoSegments }
    ensures all_segments { refusal idle (tenant_of_jobs 0 3) (Submit 1 [] 64) ≡ None }
    ensures without_steps { refusal idle (tired []) (Submit 1 [] 4) ≡ None }
{}

/// The refusals of Take, in the order of their tests: NotReady, NotHere, NoSteps, Busy.
pub fn take_refusals()
    ensures running { refusal idle (fresh_tenant (root_frame (Running 1) ∷ [])) (Take 1 (one 1)) ≡ Some NotReady }
    ensures computing { refusal idle (fresh_tenant (root_frame (Computing 1) ∷ [])) (Take 1 (one 1)) ≡ Some NotReady }
    ensures waiting { refusal idle (fresh_tenant (root_frame Waiting ∷ [])) (Take 1 (one 1)) ≡ Some NotReady }
    ensures returned { refusal idle (fresh_tenant (root_frame Returned ∷ [])) (Take 1 (one 1)) ≡ Some NotReady }
    ensures ready_before_here { refusal idle (fresh_tenant (root_frame (Running 2) ∷ [])) (Take 1 (one 1)) ≡ Some NotReady }
    ensures elsewhere { refusal idle (fresh_tenant (root_frame (Ready 2) ∷ [])) (Take 1 (one 1)) ≡ Some NotHere }
    ensures in_the_hall { refusal idle (fresh_tenant (root_frame (Ready 0) ∷ [])) (Take 1 (one 1)) ≡ Some NotHere }
    ensures here_before_steps { refusal idle (tired (root_frame (Ready 2) ∷ [])) (Take 1 (one 1)) ≡ Some NotHere }
    ensures no_steps { refusal idle (tired (root_frame (Ready 1) ∷ [])) (Take 1 (one 1)) ≡ Some NoSteps }
    ensures steps_before_free { refusal idle (tired (root_frame (Ready 1) ∷ child_frame 2 (Running 1) ∷ [])) (Take 1 (one 1)) ≡ Some NoSteps }
    ensures runs { refusal idle (fresh_tenant (root_frame (Ready 1) ∷ child_frame 2 (Running 1) ∷ [])) (Take 1 (one 1)) ≡ Some Busy }
    ensures computes { refusal idle (fresh_tenant (root_frame (Ready 1) ∷ child_frame 2 (Computing 1) ∷ [])) (Take 1 (one 1)) ≡ Some Busy }
    ensures another_runs { refusal idle (fresh_tenant (root_frame (Ready 1) ∷ child_frame 2 (Running 2) ∷ [])) (Take 1 (one 1)) ≡ None }
{}

/// The refusals of Steal, in the order of their tests: NotReady, NotHere, NoSteps, Busy.
pub fn steal_refusals()
    ensures running { refusal idle (fresh_tenant (root_frame (Running 1) ∷ [])) (Steal 2 1 (one 1)) ≡ Some NotReady }
    ensures ready_before_here { refusal idle (fresh_tenant (root_frame (Running 1) ∷ [])) (Steal 1 1 (one 1)) ≡ Some NotReady }
    ensures another_home { refusal idle (fresh_tenant (root_frame (Ready 1) ∷ [])) (Steal 3 2 (one 1)) ≡ Some NotHere }
    ensures from_itself { refusal idle (fresh_tenant (root_frame (Ready 1) ∷ [])) (Steal 1 1 (one 1)) ≡ Some NotHere }
    ensures here_before_steps { refusal idle (tired (root_frame (Ready 1) ∷ [])) (Steal 3 2 (one 1)) ≡ Some NotHere }
    ensures no_steps { refusal idle (tired (root_frame (Ready 1) ∷ [])) (Steal 2 1 (one 1)) ≡ Some NoSteps }
    ensures steps_before_free { refusal idle (tired (root_frame (Ready 1) ∷ child_frame 2 (Running 2) ∷ [])) (Steal 2 1 (one 1)) ≡ Some NoSteps }
    ensures busy { refusal idle (fresh_tenant (root_frame (Ready 1) ∷ child_frame 2 (Running 2) ∷ [])) (Steal 2 1 (one 1)) ≡ Some Busy }
    ensures from_another { refusal idle (fresh_tenant (root_frame (Ready 1) ∷ [])) (Steal 2 1 (one 1)) ≡ None }
    ensures from_the_hall { refusal idle (fresh_tenant (root_frame (Ready 0) ∷ [])) (Steal 2 0 (one 1)) ≡ None }
{}

/// The refusals of Advance, in the order of their tests: NotRunning, NoSteps, BadAct, NoNodes, NoSegments.
pub fn advance_refusals()
    ensures ready { refusal idle (fresh_tenant (root_frame (Ready 1) ∷ [])) (Advance 1 (one 1)) ≡ Some NotRunning }
    ensures another_runs { refusal idle (fresh_tenant (root_frame (Running 2) ∷ [])) (Advance 1 (one 1)) ≡ Some NotRunning }
    ensures computing { refusal idle (fresh_tenant (root_frame (Computing 1) ∷ [])) (Advance 1 (one 1)) ≡ Some NotRunning }
    ensures waiting { refusal idle (fresh_tenant (root_frame Waiting ∷ [])) (Advance 1 (one 1)) ≡ Some NotRunning }
    ensures returned { refusal idle (fresh_tenant (root_frame Returned ∷ [])) (Advance 1 (one 1)) ≡ Some NotRunning }
    ensures running_before_steps { refusal idle (tired (root_frame (Running 2) ∷ [])) (Advance 1 (one 1)) ≡ Some NotRunning }
    ensures no_steps { refusal idle (tired (root_frame (Running 1) ∷ [])) (Advance 1 (one 1)) ≡ Some NoSteps }
    ensures steps_before_bad { refusal (acting [] (Grow 0)) (tired (root_frame (Running 1) ∷ [])) (Advance 1 (one 1)) ≡ Some NoSteps }
    ensures bad_before_nodes { refusal (acting [] (Spawn [] 0)) (nodeless (root_frame (Running 1) ∷ [])) (Advance 1 (one 1)) ≡ Some BadAct }
    ensures no_nodes { refusal (acting [] (Spawn [] 4)) (nodeless (root_frame (Running 1) ∷ [])) (Advance 1 (one 1)) ≡ Some NoNodes }
    ensures nodes_before_segments { refusal (acting [] (Spawn [] 128)) (nodeless (root_frame (Running 1) ∷ [])) (Advance 1 (one 1)) ≡ Some NoNodes }
    ensures no_segments { refusal (acting [] (Spawn [] 49)) (fresh_tenant (root_frame (Running 1) ∷ [])) (Advance 1 (one 1)) ≡ Some NoSegments }
    ensures all_segments { refusal (acting [] (Spawn [] 48)) (fresh_tenant (root_frame (Running 1) ∷ [])) (Advance 1 (one 1)) ≡ None }
    ensures goes { refusal idle (fresh_tenant (root_frame (Running 1) ∷ [])) (Advance 1 (one 1)) ≡ None }
{}

/// Acts that are refused by BadAct, and for each limit an act that just keeps it.
pub fn bad_acts()
    ensures store_outside { refusal (acting ((4, 1) ∷ []) Go) (fresh_tenant (root_frame (Running 1) ∷ [])) (Advance 1 (one 1)) ≡ Some BadAct }
    ensures second_store_outside { refusal (acting ((3, 1) ∷ (4, 1) ∷ []) Go) (fresh_tenant (root_frame (Running 1) ∷ [])) (Advance 1 (one 1)) ≡ Some BadAct }
    ensures store_inside { refusal (acting ((3, 1) ∷ []) Go) (fresh_tenant (root_frame (Running 1) ∷ [])) (Advance 1 (one 1)) ≡ None }
    ensures no_growth { refusal (acting [] (Grow 0)) (fresh_tenant (root_frame (Running 1) ∷ [])) (Advance 1 (one 1)) ≡ Some BadAct }
    ensures great_growth { refusal (acting [] (Grow 125)) (wide 16 (root_frame (Running 1) ∷ [])) (Advance 1 (one 1)) ≡ Some BadAct }
    ensures greatest_growth { refusal (acting [] (Grow 124)) (wide 16 (root_frame (Running 1) ∷ [])) (Advance 1 (one 1)) ≡ None }
    ensures growth_within_a_segment { refusal (acting [] (Grow 12)) (wide 1 (root_frame (Running 1) ∷ [])) (Advance 1 (one 1)) ≡ None }
    ensures growth_beyond_a_segment { refusal (acting [] (Grow 13)) (wide 1 (root_frame (Running 1) ∷ [])) (Advance 1 (one 1)) ≡ Some NoSegments }
    ensures no_size { refusal (acting [] (Spawn [] 0)) (fresh_tenant (root_frame (Running 1) ∷ [])) (Advance 1 (one 1)) ≡ Some BadAct }
    ensures great_size { refusal (acting [] (Spawn [] 129)) (wide 16 (root_frame (Running 1) ∷ [])) (Advance 1 (one 1)) ≡ Some BadAct }
    ensures greatest_size { refusal (acting [] (Spawn [] 128)) (wide 16 (root_frame (Running 1) ∷ [])) (Advance 1 (one 1)) ≡ None }
    ensures many_words { refusal (acting [] (Spawn (1 ∷ 2 ∷ []) 1)) (fresh_tenant (root_frame (Running 1) ∷ [])) (Advance 1 (one 1)) ≡ Some BadAct }
    ensures computing_with_a_child { refusal (acting [] Compute) (fresh_tenant (root_frame (Running 1) ∷ child_frame 2 Waiting ∷ [])) (Advance 1 (one 1)) ≡ Some BadAct }
    ensures computing { refusal (acting [] Compute) (nodeless (root_frame (Running 1) ∷ [])) (Advance 1 (one 1)) ≡ None }
{}

/// The refusals of Answer, in the order of their tests: NotComputing, Mismatch, NoSteps, BadAct. The input of
/// these frames is 0.
pub fn answer_refusals()
    ensures running { refusal idle (fresh_tenant (root_frame (Running 1) ∷ [])) (Answer 1 (one 1) 0) ≡ Some NotComputing }
    ensures another_computes { refusal idle (fresh_tenant (root_frame (Computing 2) ∷ [])) (Answer 1 (one 1) 0) ≡ Some NotComputing }
    ensures computing_before_mismatch { refusal idle (fresh_tenant (root_frame (Running 1) ∷ [])) (Answer 1 (one 1) 5) ≡ Some NotComputing }
    ensures mismatch { refusal idle (fresh_tenant (root_frame (Computing 1) ∷ [])) (Answer 1 (one 1) 5) ≡ Some Mismatch }
    ensures mismatch_before_steps { refusal idle (tired (root_frame (Computing 1) ∷ [])) (Answer 1 (one 1) 5) ≡ Some Mismatch }
    ensures no_steps { refusal idle (tired (root_frame (Computing 1) ∷ [])) (Answer 1 (one 1) 0) ≡ Some NoSteps }
    ensures steps_before_bad { refusal storing_outside (tired (root_frame (Computing 1) ∷ [])) (Answer 1 (one 1) 0) ≡ Some NoSteps }
    ensures bad { refusal storing_outside (fresh_tenant (root_frame (Computing 1) ∷ [])) (Answer 1 (one 1) 0) ≡ Some BadAct }
    ensures accepted { refusal idle (fresh_tenant (root_frame (Computing 1) ∷ [])) (Answer 1 (one 1) 0) ≡ None }
{}

/// The refusals of Inlet, in the order of their tests: NotReturned, NoSteps, BadAct, Busy.
pub fn inlet_refusals()
    ensures running { refusal idle (fresh_tenant (root_frame Waiting ∷ child_frame 2 (Running 1) ∷ [])) (Inlet 1 (one 2)) ≡ Some NotReturned }
    ensures root { refusal idle (fresh_tenant (root_frame Returned ∷ [])) (Inlet 1 (one 1)) ≡ Some NotReturned }
    ensures returned_before_steps { refusal idle (tired (root_frame Waiting ∷ child_frame 2 (Ready 1) ∷ [])) (Inlet 1 (one 2)) ≡ Some NotReturned }
    ensures root_before_steps { refusal idle (tired (root_frame Returned ∷ [])) (Inlet 1 (one 1)) ≡ Some NotReturned }
    ensures no_steps { refusal idle (tired (root_frame Waiting ∷ child_frame 2 Returned ∷ [])) (Inlet 1 (one 2)) ≡ Some NoSteps }
    ensures steps_before_bad { refusal storing_outside (tired (root_frame Waiting ∷ child_frame 2 Returned ∷ [])) (Inlet 1 (one 2)) ≡ Some NoSteps }
    ensures bad { refusal storing_outside (fresh_tenant (root_frame Waiting ∷ child_frame 2 Returned ∷ [])) (Inlet 1 (one 2)) ≡ Some BadAct }
    ensures bad_before_free { refusal storing_outside (fresh_tenant (root_frame Waiting ∷ child_frame 2 Returned ∷ child_frame 3 (Running 1) ∷ [])) (Inlet 1 (one 2)) ≡ Some BadAct }
    ensures busy { refusal idle (fresh_tenant (root_frame Waiting ∷ child_frame 2 Returned ∷ child_frame 3 (Running 1) ∷ [])) (Inlet 1 (one 2)) ≡ Some Busy }
    ensures taken_in { refusal idle (fresh_tenant (root_frame Waiting ∷ child_frame 2 Returned ∷ child_frame 3 (Running 2) ∷ [])) (Inlet 1 (one 2)) ≡ None }
{}

/// The refusals of Finish, in the order of their tests: NotReturned, NoSteps, Busy.
pub fn finish_refusals()
    ensures waiting { refusal idle (fresh_tenant (root_frame Waiting ∷ [])) (Finish 1 (one 1)) ≡ Some NotReturned }
    ensures child { refusal idle (fresh_tenant (root_frame Waiting ∷ child_frame 2 Returned ∷ [])) (Finish 1 (one 2)) ≡ Some NotReturned }
    ensures returned_before_steps { refusal idle (tired (root_frame Waiting ∷ [])) (Finish 1 (one 1)) ≡ Some NotReturned }
    ensures child_before_steps { refusal idle (tired (root_frame Waiting ∷ child_frame 2 Returned ∷ [])) (Finish 1 (one 2)) ≡ Some NotReturned }
    ensures no_steps { refusal idle (tired (root_frame Returned ∷ [])) (Finish 1 (one 1)) ≡ Some NoSteps }
    ensures steps_before_free { refusal idle (tired (root_frame Returned ∷ frame 2 (2 ∷ []) (Running 1) [] ∷ [])) (Finish 1 (one 1)) ≡ Some NoSteps }
    ensures busy { refusal idle (fresh_tenant (root_frame Returned ∷ frame 2 (2 ∷ []) (Running 1) [] ∷ [])) (Finish 1 (one 1)) ≡ Some Busy }
    ensures done { refusal idle (fresh_tenant (root_frame Returned ∷ [])) (Finish 1 (one 1)) ≡ None }
{}

/// Spend is refused by NotSpent, unless no step is left or the frame can't do its next act or its inlet.
pub fn spend_refusals()
    ensures ready { refusal (acting [] (Grow 0)) (fresh_tenant (root_frame (Ready 1) ∷ [])) (Spend (one 1)) ≡ Some NotSpent }
    ensures running { refusal idle (fresh_tenant (root_frame (Running 1) ∷ [])) (Spend (one 1)) ≡ Some NotSpent }
    ensures computing { refusal (acting [] (Grow 0)) (fresh_tenant (root_frame (Computing 1) ∷ [])) (Spend (one 1)) ≡ Some NotSpent }
    ensures waiting { refusal (acting [] (Grow 0)) (fresh_tenant (root_frame Waiting ∷ [])) (Spend (one 1)) ≡ Some NotSpent }
    ensures returned { refusal idle (fresh_tenant (root_frame Waiting ∷ child_frame 2 Returned ∷ [])) (Spend (one 2)) ≡ Some NotSpent }
    ensures returned_root { refusal storing_outside (fresh_tenant (root_frame Returned ∷ [])) (Spend (one 1)) ≡ Some NotSpent }
    ensures accepting_outside { refusal storing_outside (fresh_tenant (root_frame (Computing 1) ∷ [])) (Spend (one 1)) ≡ Some NotSpent }
    ensures no_steps { refusal idle (tired (root_frame (Ready 1) ∷ [])) (Spend (one 1)) ≡ None }
    ensures bad_act { refusal (acting [] (Grow 0)) (fresh_tenant (root_frame (Running 1) ∷ [])) (Spend (one 1)) ≡ None }
    ensures no_nodes { refusal (acting [] (Spawn [] 4)) (nodeless (root_frame (Running 1) ∷ [])) (Spend (one 1)) ≡ None }
    ensures no_segments { refusal (acting [] (Spawn [] 49)) (fresh_tenant (root_frame (Running 1) ∷ [])) (Spend (one 1)) ≡ None }
    ensures bad_inlet { refusal storing_outside (fresh_tenant (root_frame Waiting ∷ child_frame 2 Returned ∷ [])) (Spend (one 2)) ≡ None }
{}

/// Cancel is refused by NoJob for number 0, for a number above the last job's, and for a job that has ended.
pub fn cancel_refusals()
    ensures zero { refusal idle (fresh_tenant (root_frame Waiting ∷ [])) (Cancel 1 0) ≡ Some NoJob }
    ensures over { refusal idle (fresh_tenant (root_frame Waiting ∷ [])) (Cancel 1 2) ≡ Some NoJob }
    ensures cancelled { refusal idle (tenant_of_jobs 1 1) (Cancel 1 1) ≡ Some NoJob }
    ensures live { refusal idle (fresh_tenant (root_frame Waiting ∷ [])) (Cancel 1 1) ≡ None }
    ensures without_steps { refusal idle (tired (root_frame Waiting ∷ [])) (Cancel 1 1) ≡ None }
{}

/// The refusals of Admit among several tenants, in the order of their tests: OldTenant, Full.
pub fn admit_refusals()
    ensures zero { among [] (Admit 0 (toy_quota 1 1)) ≡ Some OldTenant }
    ensures old { among [] (Admit 7 (toy_quota 1 1)) ≡ Some OldTenant }
    ensures older { among [] (Admit 6 (toy_quota 1 1)) ≡ Some OldTenant }
    ensures next { among [] (Admit 8 (toy_quota 1 1)) ≡ None }
    ensures over { among [] (Admit (2 ^ 62 + 1) (toy_quota 1 1)) ≡ Some OldTenant }
    ensures greatest { among [] (Admit (2 ^ 62) (toy_quota 1 1)) ≡ None }
    ensures old_before_full { among [] (Admit 7 (toy_quota 9 1)) ≡ Some OldTenant }
    ensures segments { among [] (Admit 8 (toy_quota 9 1)) ≡ Some Full }
    ensures segments_beside { among ((7, fresh_tenant []) ∷ []) (Admit 8 (toy_quota 5 1)) ≡ Some Full }
    ensures nodes_beside { among ((7, fresh_tenant []) ∷ []) (Admit 8 (toy_quota 1 29)) ≡ Some Full }
    ensures both_beside { among ((7, fresh_tenant []) ∷ []) (Admit 8 (toy_quota 4 28)) ≡ None }
    ensures places { shared_refusal idle (roomy (crowd 64)) (Admit 8 (toy_quota 1 1)) ≡ Some Full }
    ensures last_place { shared_refusal idle (roomy (crowd 63)) (Admit 8 (toy_quota 1 1)) ≡ None }
{}

/// The refusals of AdmitMore, in the order of their tests: NoTenant, Lower, Full. What the tenant itself
/// reserves isn't counted twice, and it doesn't matter that 64 tenants are there. These tenants reserve 4
/// segments and 4 nodes.
pub fn admit_more_refusals()
    ensures nobody { among [] (AdmitMore 7 (toy_quota 9 1)) ≡ Some NoTenant }
    ensures fewer_segments { refusal idle (fresh_tenant []) (AdmitMore 1 (toy_quota 3 9)) ≡ Some Lower }
    ensures fewer_nodes { refusal idle (fresh_tenant []) (AdmitMore 1 (toy_quota 9 3)) ≡ Some Lower }
    ensures as_much { refusal idle (fresh_tenant []) (AdmitMore 1 (toy_quota 4 4)) ≡ Some Lower }
    ensures one_segment { refusal idle (fresh_tenant []) (AdmitMore 1 (toy_quota 5 4)) ≡ None }
    ensures one_node { refusal idle (fresh_tenant []) (AdmitMore 1 (toy_quota 4 5)) ≡ None }
    ensures without_steps { refusal idle (tired []) (AdmitMore 1 (toy_quota 5 5)) ≡ None }
    ensures lower_before_full { among ((7, fresh_tenant []) ∷ []) (AdmitMore 7 (toy_quota 9 3)) ≡ Some Lower }
    ensures segments { among ((7, fresh_tenant []) ∷ []) (AdmitMore 7 (toy_quota 9 4)) ≡ Some Full }
    ensures nodes { among ((7, fresh_tenant []) ∷ []) (AdmitMore 7 (toy_quota 4 33)) ≡ Some Full }
    ensures all { among ((7, fresh_tenant []) ∷ []) (AdmitMore 7 (toy_quota 8 32)) ≡ None }
    ensures segments_beside { among (beside []) (AdmitMore 1 (toy_quota 5 4)) ≡ Some Full }
    ensures nodes_beside { among (beside []) (AdmitMore 1 (toy_quota 4 29)) ≡ Some Full }
    ensures all_beside { among (beside []) (AdmitMore 1 (toy_quota 4 28)) ≡ None }
    ensures places { shared_refusal idle (roomy (crowd 64)) (AdmitMore 7 (toy_quota 65 65)) ≡ None }
    ensures beyond { shared_refusal idle (roomy (crowd 64)) (AdmitMore 7 (toy_quota 66 65)) ≡ Some Full }
{}

/// A worker that is busy with another tenant's frame: a step that its own tenant alone would take is refused by
/// Busy, if it needs a free worker.
pub fn busy_elsewhere()
    ensures take { among (beside (root_frame (Ready 5) ∷ [])) (Take 5 (one 1)) ≡ Some Busy }
    ensures steal { among (beside (root_frame (Ready 1) ∷ [])) (Steal 5 1 (one 1)) ≡ Some Busy }
    ensures inlet { among (beside (root_frame Waiting ∷ child_frame 2 Returned ∷ [])) (Inlet 5 (one 2)) ≡ Some Busy }
    ensures finish { among (beside (root_frame Returned ∷ [])) (Finish 5 (one 1)) ≡ Some Busy }
    ensures free_worker { among (beside (root_frame (Ready 4) ∷ [])) (Take 4 (one 1)) ≡ None }
    ensures own_refusal_first { among (beside (root_frame Waiting ∷ [])) (Take 5 (one 1)) ≡ Some NotReady }
    ensures no_tenant_first { among (beside []) (Take 5 (record { tenant = 3; serial = 1 })) ≡ Some NoTenant }
    ensures advance { among (beside (root_frame (Running 5) ∷ [])) (Advance 5 (one 1)) ≡ None }
    ensures submit { among (beside []) (Submit 1 [] 4) ≡ None }
{}
