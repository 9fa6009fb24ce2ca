//! Uses of the laws on what is still to be opened: what tenants 7 and 9 opened, and what their frames may still open, stays within what
//! they reserved, and what suffices for a position meets each frame's inequality.
ghost use Rattle.std.specs.Prelude.{◌≡◌, ◌≢◌, ◌+◌, ◌≤◌, ◌<◌, ℕ, Bool, true, false, List, [], Some, Ok};
ghost use Rattle.othello_board.specs.declared.cells.Cell.{Cell};
ghost use Rattle.othello_board.specs.Words.{cells_of};
ghost use Rattle.sched_rules.specs.declared.refusal.Refusal.TheVariants.{NoNodes};
ghost use Rattle.sched_rules.specs.declared.step.DidOf.{DidOf};
ghost use Rattle.sched_rules.specs.declared.step.StepOf.TheVariants.{Advance, Submit, Take};
ghost use Rattle.sched_rules.specs.Lone.{lone_step, lone_refusal};
ghost use Rattle.sched_rules.specs.Trees.{Tenant, left};
ghost use Rattle.sched_laws.specs.Shapes.{IsShaped};
ghost use Rattle.jamboree_rules.specs.declared.leaf.Leaf.{Leaf};
ghost use Rattle.jamboree_rules.specs.declared.leaf.LeafAnswer.{LeafAnswer};
ghost use Rattle.jamboree_rules.specs.Places.{root_words, frame_size};
ghost use Rattle.jamboree_rules.specs.Procedure.{jamboree};
ghost use Rattle.jamboree_core.specs.Enough.{board_nodes, board_segments};
ghost use Rattle.jamboree_core.specs.Needs.{Cost, IsEnough, choice_costs, enough_nodes, still_opens};
ghost use Rattle.jamboree_core.specs.Searching.{TenantSearches};
ghost use Rattle.jamboree_core.specs.Sizes.{Size, choice_sizes, enough_segments, root_weight};
ghost use Rattle.jamboree_core.specs.Weights.{weight_in};

use jamboree_core::reserves::{
    nodes_reserved_suffice, positions_suffice, segments_reserved_suffice,
};

/// Tenant 9 without a frame, with as many nodes left as its search to depth 8 takes: what it opened, and what the new root and all under it
/// will, is within what it reserved. Where what tenant 7 opened and its frames may still open is so, it is so after worker 5's Take of frame 3,
/// and after a Submit for which there are nodes too; and worker 5's Advance of frame 3 isn't refused for want of a node.
/// Uses `jamboree_core::nodes_reserved_suffice` (`begins`, `step`, `suffices`).
pub fn nodes_of_seven_and_nine()
    ensures begins { (cost : Cost) (tenant : Tenant) (own opp : ℕ) → IsShaped tenant → tenant.frames ≡ [] → enough_nodes cost 8 (cells_of own opp) ≤ (left tenant).nodes →
        tenant.serials + enough_nodes cost 8 (cells_of own opp) ≤ tenant.reserve.nodes }
    ensures take { (cost : Cost) (origins : List (List ℕ)) (tenant after : Tenant) (did : DidOf Leaf) → IsEnough 6 cost → IsShaped tenant → TenantSearches origins tenant →
        tenant.serials + weight_in (still_opens cost) tenant.frames ≤ tenant.reserve.nodes →
        lone_step {A = LeafAnswer} (jamboree 6) tenant (Take 5 (record { tenant = 7; serial = 3 })) ≡ Ok (Some after, did) →
        after.serials + weight_in (still_opens cost) after.frames ≤ after.reserve.nodes }
    ensures submit { (cost : Cost) (origins : List (List ℕ)) (tenant after : Tenant) (own opp : ℕ) (did : DidOf Leaf) → IsEnough 6 cost → IsShaped tenant → TenantSearches origins tenant →
        tenant.serials + weight_in (still_opens cost) tenant.frames + enough_nodes cost 8 (cells_of own opp) ≤ tenant.reserve.nodes →
        lone_step {A = LeafAnswer} (jamboree 6) tenant (Submit 7 (root_words own opp 8) frame_size) ≡ Ok (Some after, did) →
        after.serials + weight_in (still_opens cost) after.frames ≤ after.reserve.nodes }
    ensures advance { (cost : Cost) (origins : List (List ℕ)) (tenant : Tenant) → IsEnough 6 cost → IsShaped tenant → TenantSearches origins tenant →
        tenant.serials + weight_in (still_opens cost) tenant.frames ≤ tenant.reserve.nodes →
        lone_refusal {A = LeafAnswer} (jamboree 6) (Some tenant) (Advance 5 (record { tenant = 7; serial = 3 })) ≢ Some NoNodes }
{
    nodes_reserved_suffice();
}

/// Tenant 9 without a frame, with as many segments left as its search to depth 8 takes at the same time: there is room for the new root's
/// size. Where the sizes of tenant 7's roots are within what it reserved, they are so after worker 5's Take of frame 3, and after a Submit for
/// which there is room too.
/// Uses `jamboree_core::segments_reserved_suffice` (`begins`, `step`).
pub fn segments_of_seven_and_nine()
    ensures begins { (size : Size) (tenant : Tenant) (own opp : ℕ) → IsShaped tenant → tenant.frames ≡ [] → enough_segments size 8 (cells_of own opp) ≤ (left tenant).segments →
        weight_in (root_weight size) tenant.frames + enough_segments size 8 (cells_of own opp) ≤ tenant.reserve.segments }
    ensures take { (size : Size) (origins : List (List ℕ)) (tenant after : Tenant) (did : DidOf Leaf) → IsShaped tenant → TenantSearches origins tenant →
        weight_in (root_weight size) tenant.frames ≤ tenant.reserve.segments →
        lone_step {A = LeafAnswer} (jamboree 6) tenant (Take 5 (record { tenant = 7; serial = 3 })) ≡ Ok (Some after, did) →
        weight_in (root_weight size) after.frames ≤ after.reserve.segments }
    ensures submit { (size : Size) (origins : List (List ℕ)) (tenant after : Tenant) (own opp : ℕ) (did : DidOf Leaf) → IsShaped tenant → TenantSearches origins tenant →
        weight_in (root_weight size) tenant.frames + enough_segments size 8 (cells_of own opp) ≤ tenant.reserve.segments →
        lone_step {A = LeafAnswer} (jamboree 6) tenant (Submit 7 (root_words own opp 8) frame_size) ≡ Ok (Some after, did) →
        weight_in (root_weight size) after.frames ≤ after.reserve.segments }
{
    segments_reserved_suffice();
}

/// At grain 6 there is a cost that is at least what a frame's choices take at depth 9, no more in a window of width one than in another, and
/// for a root to depth 8 at most what suffices for its position; and such a size.
/// Uses `jamboree_core::positions_suffice` (`nodes`, `segments`).
pub fn what_a_position_needs()
    ensures nodes { (cost : Cost) × ((narrow : Bool) (b : List Cell) → choice_costs cost 9 narrow b ≤ cost 9 narrow b) × ((b : List Cell) → cost 9 true b ≤ cost 9 false b)
        × ((b : List Cell) → enough_nodes cost 8 b ≤ board_nodes 8 6 b) }
    ensures segments { (size : Size) × ((b : List Cell) → choice_sizes size 9 b ≤ size 9 b) × ((b : List Cell) → 1 ≤ size 9 b) × ((b : List Cell) → enough_segments size 8 b ≤ board_segments 8 6 b) }
{
    positions_suffice();
}
