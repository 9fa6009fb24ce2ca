//! What a tenant of searches reserved suffices, whatever the order of steps: laws.
ghost use Rattle.std.specs.Prelude.{◌≡◌, ◌≢◌, ℕ, ◌≤◌, List, [], None, Some, Result, Ok, Err};
ghost use Rattle.othello_board.specs.declared.cells.Cell.{Cell};
ghost use Rattle.othello_board.specs.Words.{cells_of};
ghost use Rattle.frame_table.specs.declared.names.FrameId.{FrameId};
ghost use Rattle.frame_table.specs.Frames.{Frame, frame_at};
ghost use Rattle.tenant_quota.specs.Reserves.{ReserveOf};
ghost use Rattle.sched_rules.specs.declared.refusal.Refusal.{Refusal};
ghost use Rattle.sched_rules.specs.declared.refusal.Refusal.TheVariants.{NoNodes, NotSpent};
ghost use Rattle.sched_rules.specs.declared.step.DidOf.{DidOf};
ghost use Rattle.sched_rules.specs.declared.step.StepOf.{StepOf};
ghost use Rattle.sched_rules.specs.declared.step.StepOf.TheVariants.{Advance, Spend, Submit};
ghost use Rattle.sched_rules.specs.Trees.{Tenant, left};
ghost use Rattle.sched_rules.specs.Lone.{Outcome, lone_step, lone_refusal};
ghost use Rattle.sched_rules.specs.Runs.{only};
ghost use Rattle.sched_rules.specs.Cores.{shared_by_nobody, tenant_in};
ghost use Rattle.sched_rules.specs.Headline.{IsAnswerTo, AreAnswersTo, after_answers, taken_steps};
ghost use Rattle.sched_laws.specs.Shapes.{IsShaped};
ghost use Rattle.sched_laws.specs.Fitted.{origins_of};
ghost use Rattle.jamboree_core.specs.Paces.{HasSteps};
ghost use Rattle.jamboree_rules.specs.declared.leaf.Leaf.{Leaf};
ghost use Rattle.jamboree_rules.specs.declared.leaf.LeafAnswer.{LeafAnswer};
ghost use Rattle.jamboree_rules.specs.Places.{root_words, frame_size};
ghost use Rattle.jamboree_rules.specs.Procedure.{jamboree};
ghost use Rattle.jamboree_core.specs.Journals.{IsJournalOf};
ghost use Rattle.jamboree_core.specs.Replies.{AreSearches};
ghost use Rattle.jamboree_core.specs.Searching.{TenantSearches};
ghost use Rattle.jamboree_core.specs.Sizes.{HasSegments, HasSegmentsToo, IsRoomy, Size, StillHasSegments, enough_segments};
ghost use Rattle.jamboree_core.specs.Enough.{EachFindsEnough, board_nodes, board_segments, sufficing_nodes, search_nodes, search_segments, sufficing_segments, spawning_plies};
ghost use Rattle.jamboree_core.specs.Sums.{HasSums, EachFindsSums, EachFindsRoom};
ghost use Rattle.jamboree_core.specs.Turns.{extra_turns};
ghost use Rattle.jamboree_core.specs.Needs.{Cost, HasNodes, HasNodesToo, IsEnough, StillHasNodes, enough_nodes};

/// A job of a tenant that has no other job alive is asked for with at least `enough_nodes` nodes left (`begins`).
/// Then what was opened, and what the frames may still open, is within the reservation (`HasNodes`), and stays so
/// after each step of the tenant, whatever it is, where each further Submit finds room too (`step`). So no Advance
/// of a frame is ever refused by NoNodes (`suffices`).
pub fn nodes_reserved_suffice()
    ensures begins { (cost : Cost) (tenant : Tenant) (number own opp depth : ℕ) → IsShaped tenant → tenant.frames ≡ [] →
        enough_nodes cost depth (cells_of own opp) ≤ (left tenant).nodes →
        HasNodes cost tenant × HasNodesToo {A = LeafAnswer} cost tenant (Submit number (root_words own opp depth) frame_size) }
    ensures step { (grain : ℕ) (cost : Cost) (origins : List (List ℕ)) (tenant : Tenant) (step : StepOf LeafAnswer) (outcome : Outcome Leaf) →
        IsEnough grain cost → IsShaped tenant → TenantSearches origins tenant → HasNodes cost tenant → HasNodesToo cost tenant step →
        lone_step (jamboree grain) tenant step ≡ Ok outcome → StillHasNodes cost outcome.0 }
    ensures suffices { (grain : ℕ) (cost : Cost) (origins : List (List ℕ)) (tenant : Tenant) (worker : ℕ) (name : FrameId) →
        IsEnough grain cost → IsShaped tenant → TenantSearches origins tenant → HasNodes cost tenant →
        lone_refusal {A = LeafAnswer} (jamboree grain) (Some tenant) (Advance worker name) ≢ Some NoNodes }
{}

/// A tenant of searches has taken at most sixteen steps for each node that it has opened, with those that its frames
/// still take (`taken`), whatever the order of its steps; so while it has a frame a step is left (`suffices`).
pub fn sixteen_steps_a_node_suffice()
    ensures taken { (grain : ℕ) (journal : List (StepOf LeafAnswer)) (tenant : Tenant) →
        IsJournalOf (jamboree grain) journal tenant → AreSearches journal → HasSteps extra_turns tenant }
    ensures suffices { (grain : ℕ) (journal : List (StepOf LeafAnswer)) (tenant : Tenant) (serial : ℕ) (frame : Frame (List ℕ)) →
        IsJournalOf (jamboree grain) journal tenant → AreSearches journal → frame_at tenant.frames serial ≡ Some frame → (left tenant).steps ≢ 0 }
{}

/// A job of a tenant that has no other job alive is asked for with at least `enough_segments` segments left (`begins`).
/// Then the sizes of the tenant's searches are within its reservation (`HasSegments`), and stay so after each step of
/// it, where each further Submit finds room too (`step`).
pub fn segments_reserved_suffice()
    ensures begins { (size : Size) (tenant : Tenant) (number own opp depth : ℕ) → IsShaped tenant → tenant.frames ≡ [] →
        enough_segments size depth (cells_of own opp) ≤ (left tenant).segments →
        HasSegments size tenant × HasSegmentsToo {A = LeafAnswer} size tenant (Submit number (root_words own opp depth) frame_size) }
    ensures step { (grain : ℕ) (size : Size) (origins : List (List ℕ)) (tenant : Tenant) (step : StepOf LeafAnswer) (outcome : Outcome Leaf) →
        IsShaped tenant → TenantSearches origins tenant → HasSegments size tenant → HasSegmentsToo size tenant step →
        lone_step (jamboree grain) tenant step ≡ Ok outcome → StillHasSegments size outcome.0 }
{}

/// Where the nodes and the segments that a tenant of searches reserved suffice (`HasNodes`, `HasSegments`), none of
/// its jobs can be spent: `Spend` of any of its frames is refused.
pub fn a_job_with_enough_is_never_spent()
    ensures { (grain : ℕ) (cost : Cost) (size : Size) (journal : List (StepOf LeafAnswer)) (tenant : Tenant) (number serial : ℕ) (frame : Frame (List ℕ)) →
        IsEnough grain cost → IsRoomy grain size → IsJournalOf (jamboree grain) journal tenant → AreSearches journal → HasNodes cost tenant → HasSegments size tenant →
        frame_at tenant.frames serial ≡ Some frame →
        lone_refusal {A = LeafAnswer} (jamboree grain) (Some tenant) (Spend (record { tenant = number; serial = serial })) ≡ Some NotSpent }
{}

/// What suffices by the empty squares and the opposing discs of a position meets the inequality of each frame, and is at
/// least what the general bounds say of a root.
pub fn positions_suffice()
    ensures nodes { (grain : ℕ) → (cost : Cost) × IsEnough grain cost × ((depth : ℕ) (b : List Cell) → enough_nodes cost depth b ≤ board_nodes depth grain b) }
    ensures segments { (grain : ℕ) → (size : Size) × IsRoomy grain size × ((depth : ℕ) (b : List Cell) → enough_segments size depth b ≤ board_segments depth grain b) }
{}

/// A tenant asks for each search where it has no other that lives, and as many segments and nodes left as suffice for
/// its position, depth and grain. Then in whatever order its steps come none of its jobs can be spent: `Spend` of any of
/// its frames is refused (`never`). For no position it is more than for 64 empty squares and 56 choices (`any`), and so
/// two plies above the grain no more than 12,545 nodes and 3,478 segments (`two_plies`). Who has several that live needs
/// their sums (`who_asks_within_its_sums_is_never_spent`).
pub fn who_asks_with_enough_is_never_spent()
    ensures never { (grain : ℕ) (journal : List (StepOf LeafAnswer)) (tenant : Tenant) (number serial : ℕ) (frame : Frame (List ℕ)) →
        IsJournalOf (jamboree grain) journal tenant → AreSearches journal → EachFindsEnough grain None journal → frame_at tenant.frames serial ≡ Some frame →
        lone_refusal {A = LeafAnswer} (jamboree grain) (Some tenant) (Spend (record { tenant = number; serial = serial })) ≡ Some NotSpent }
    ensures any { (depth grain : ℕ) (b : List Cell) →
        (board_nodes depth grain b ≤ search_nodes 56 64 (spawning_plies depth grain)) × (board_segments depth grain b ≤ search_segments 56 64 (spawning_plies depth grain)) }
    ensures two_plies { (search_nodes 56 64 2 ≡ 12545) × (search_segments 56 64 2 ≡ 3478) }
{}

/// A tenant of searches, several of which may live at once, with the nodes that suffice for all that it asked for, and the
/// segments that suffice for those that live, within its reservation (`HasSums`): none of its jobs can be spent then,
/// `Spend` of any of its frames is refused (`sums`); and so it is, among whatever tenants with whatever steps, in a core
/// (`beside`). In whatever order its steps come none of its jobs can ever be spent where each Submit finds these sums, with
/// its own, within the reservation (`asks`), or where, by a cost and a size that suffice, each finds the nodes and the
/// segments for its root and all under it (`rooms`).
pub fn who_asks_within_its_sums_is_never_spent()
    ensures sums { (grain : ℕ) (journal : List (StepOf LeafAnswer)) (tenant : Tenant) (number serial : ℕ) (frame : Frame (List ℕ)) →
        IsJournalOf (jamboree grain) journal tenant → AreSearches journal → HasSums grain (origins_of journal) tenant → frame_at tenant.frames serial ≡ Some frame →
        lone_refusal {A = LeafAnswer} (jamboree grain) (Some tenant) (Spend (record { tenant = number; serial = serial })) ≡ Some NotSpent }
    ensures beside { (grain : ℕ) (totals : ReserveOf) (steps : List (StepOf LeafAnswer)) (answers : List (Result (DidOf Leaf) Refusal)) (number serial : ℕ) (tenant : Tenant) (frame : Frame (List ℕ)) (answer : Result (DidOf Leaf) Refusal) →
        AreAnswersTo (jamboree grain) (shared_by_nobody totals) steps answers → AreSearches (only number (taken_steps steps answers)) →
        tenant_in (after_answers (jamboree grain) (shared_by_nobody totals) steps answers).tenants number ≡ Some tenant →
        HasSums grain (origins_of (only number (taken_steps steps answers))) tenant → frame_at tenant.frames serial ≡ Some frame →
        IsAnswerTo (jamboree grain) (after_answers (jamboree grain) (shared_by_nobody totals) steps answers) (Spend (record { tenant = number; serial = serial })) answer → answer ≡ Err NotSpent }
    ensures asks { (grain : ℕ) (journal : List (StepOf LeafAnswer)) (tenant : Tenant) (number serial : ℕ) (frame : Frame (List ℕ)) →
        IsJournalOf (jamboree grain) journal tenant → AreSearches journal → EachFindsSums grain [] None journal → frame_at tenant.frames serial ≡ Some frame →
        lone_refusal {A = LeafAnswer} (jamboree grain) (Some tenant) (Spend (record { tenant = number; serial = serial })) ≡ Some NotSpent }
    ensures rooms { (grain : ℕ) (cost : Cost) (size : Size) (journal : List (StepOf LeafAnswer)) (tenant : Tenant) (number serial : ℕ) (frame : Frame (List ℕ)) →
        IsEnough grain cost → IsRoomy grain size → IsJournalOf (jamboree grain) journal tenant → AreSearches journal → EachFindsRoom grain cost size None journal →
        frame_at tenant.frames serial ≡ Some frame →
        lone_refusal {A = LeafAnswer} (jamboree grain) (Some tenant) (Spend (record { tenant = number; serial = serial })) ≡ Some NotSpent }
{}

/// What suffices, computed. With 56 choices and one ply that opens frames; with one choice: the frame, one more as it may
/// pass, and a child; with five, whose frame has 17 words, two segments for it; for the opening, where each player has two
/// discs, 16 choices at first.
pub fn what_suffices_in_small()
    ensures one_ply { (search_nodes 56 64 1 ≡ 113) × (search_segments 56 64 1 ≡ 62) }
    ensures passes { search_nodes 1 1 1 ≡ 3 }
    ensures words { search_segments 5 5 1 ≡ 8 }
    ensures opening { (sufficing_nodes 6 4 60 2 ≡ 3505) × (sufficing_segments 6 4 60 2 ≡ 995) }
{}
