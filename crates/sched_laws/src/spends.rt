//! When a tenant's job may be given up: laws.
ghost use Rattle.std.specs.Prelude.{◌≡◌, ◌↔◌, ℕ, List, Some};
ghost use Rattle.frame_table.specs.declared.names.FrameId.{FrameId};
ghost use Rattle.frame_table.specs.Frames.{Frame, frame_at};
ghost use Rattle.sched_rules.specs.Trees.{Tenant};
ghost use Rattle.sched_rules.specs.Lone.{IsSpendable};
ghost use Rattle.sched_laws.specs.Spends.{MayBeSpent};

use sched_rules::Procedure;

/// A frame's job may be given up exactly where no step is left, or some worker's Advance of the frame
/// would be refused by BadAct, NoNodes or NoSegments, or every worker's Inlet of it by BadAct.
pub fn spendable_by_what_is_refused<P: Procedure>()
    ensures { (procedure : P) (tenant : Tenant) (name : FrameId) (frame : Frame (List ℕ)) → frame_at tenant.frames name.serial ≡ Some frame →
        (IsSpendable (P.functions procedure) tenant frame ↔ MayBeSpent (P.functions procedure) tenant name) }
{}
