//! What follows from the table of the turn of a pool's worker (`specs/Turns.antt`) and the definitions of steps. The
//! functions here do nothing: each one's contract is a law, for others to use.
ghost use Rattle.std.specs.Prelude.{◌≡◌, ◌+◌, ℕ, Some};
ghost use Rattle.frame_table.specs.Frames.{AllBelow, IsTree};
ghost use Rattle.sched_rules.specs.declared.step.StepOf.{StepOf};
ghost use Rattle.sched_rules.specs.Functions.{Functions};
ghost use Rattle.sched_rules.specs.Trees.{Tenant};
ghost use Rattle.jamboree_rules.specs.declared.leaf.Leaf.{Leaf};
ghost use Rattle.jamboree_rules.specs.declared.leaf.LeafAnswer.{LeafAnswer};
ghost use Rattle.jamboree_rules.specs.declared.pool_rules.turn.Holding.{Holding};
ghost use Rattle.jamboree_rules.specs.pool_rules.Readied.{PushesWhatItReadied, PushesWhatIsReady};
ghost use Rattle.jamboree_rules.specs.pool_rules.Turns.{offered};

/// Law: where the step that a worker offers is taken, each frame of the tenant that is ready after it was ready at the
/// same home before it, or is the frame of the task of that worker's turn. So as far as the deques have room, each
/// frame that a worker's step makes ready becomes a task of the pool.
#[tactic(auto, using(crate::proofs::PoolRules::ReadiedLemmas::pushes_readied))]
pub fn each_readied_frame_is_a_task()
    ensures { (functions : Functions Leaf LeafAnswer) (tenant : Tenant) (worker : ℕ) (held : Holding) (step : StepOf LeafAnswer) →
        IsTree tenant.frames → offered worker held ≡ Some step → PushesWhatItReadied functions tenant worker held step }
{}

/// Law: where the step that a worker offers is taken and the worker's turn has a task, the task's frame is ready after
/// the step, at the task's home. Only a later step can change that: another worker gets the frame, or it is removed.
#[tactic(auto, using(crate::proofs::PoolRules::TaskFrames::pushes_ready))]
pub fn each_task_is_a_ready_frame()
    ensures { (functions : Functions Leaf LeafAnswer) (tenant : Tenant) (worker : ℕ) (held : Holding) (step : StepOf LeafAnswer) →
        AllBelow (tenant.serials + 1) tenant.frames → offered worker held ≡ Some step → PushesWhatIsReady functions tenant worker held step }
{}
