//! What follows from the definitions of a tenant's tree of frames, for those who keep such trees: each change leaves a
//! tree, and what is found and who is whose child after it.
ghost use Rattle.std.specs.Prelude.{◌≡◌, ◌≢◌, ℕ, ◌+◌, ◌<◌, List, [], ◌∷◌, ◌++◌, Option, Some, None, true, false, filter, map, not, option_map};
ghost use Rattle.frame_table.specs.Frames.{Frame, frame_at, has_frame, has_parent, path_in, AllBelow, parent_of, root_of, goes_under, aborted, frames_under, frames_without, with_state, children_of, values_of, new_frame, IsTree};
ghost use Rattle.frame_table.specs.Rows.{five_frames};
ghost use Rattle.frame_table.specs.TreeLaws.{is_child_of, AreSerialsRising, if_kept, map_value, map_values};
ghost use Rattle.frame_table.specs.declared.names.State.{State};

/// What holds of each frame of a tree: no other has its serial; its path is its parent's path and its serial,
/// or for a root its serial alone; its parent is there, with a lower serial, and so is its root; and its
/// children are the frames in whose paths its serial is the last but one.
#[tactic(auto, using(crate::proofs::TreeLaws::parent_laws, crate::proofs::TreeValues::root_laws))]
pub fn frames_stand_under_parents<T>()
    ensures rising { (frames : List (Frame T)) → IsTree frames → AreSerialsRising frames }
    ensures serial { (frames : List (Frame T)) (s : ℕ) (frame : Frame T) → frame_at frames s ≡ Some frame → frame.serial ≡ s }
    ensures top { (frames : List (Frame T)) (s : ℕ) (frame : Frame T) → IsTree frames → frame_at frames s ≡ Some frame → parent_of frame.path ≡ None → frame.path ≡ s ∷ [] }
    ensures path { (frames : List (Frame T)) (s p : ℕ) (frame : Frame T) → IsTree frames → frame_at frames s ≡ Some frame → parent_of frame.path ≡ Some p → frame.path ≡ path_in frames p ++ s ∷ [] }
    ensures parent { (frames : List (Frame T)) (s p : ℕ) (frame : Frame T) → IsTree frames → frame_at frames s ≡ Some frame → parent_of frame.path ≡ Some p → has_frame frames p ≡ true }
    ensures lower { (frames : List (Frame T)) (s p : ℕ) (frame : Frame T) → IsTree frames → frame_at frames s ≡ Some frame → parent_of frame.path ≡ Some p → p < s }
    ensures root { (frames : List (Frame T)) (s : ℕ) (frame : Frame T) → IsTree frames → frame_at frames s ≡ Some frame → path_in frames (root_of frame.path) ≡ root_of frame.path ∷ [] }
    ensures children { (frames : List (Frame T)) (s : ℕ) → IsTree frames → children_of frames s ≡ filter (λ frame. is_child_of s frame.path) frames }
{}

/// No frame is under itself. A child is under its parent, under all frames that its parent is under, and under
/// its root.
#[tactic(auto, using(crate::proofs::TreeChanges::under_laws, crate::proofs::TreeValues::root_laws))]
pub fn children_go_where_parents_go<T>()
    ensures itself { (frames : List (Frame T)) (s : ℕ) (frame : Frame T) → IsTree frames → frame_at frames s ≡ Some frame → goes_under s frame.path ≡ false }
    ensures child { (frames : List (Frame T)) (p s : ℕ) (frame : Frame T) → IsTree frames → frame_at frames s ≡ Some frame → is_child_of p frame.path ≡ true → goes_under p frame.path ≡ true }
    ensures further { (frames : List (Frame T)) (p q s : ℕ) (parent frame : Frame T) → IsTree frames → frame_at frames q ≡ Some parent → goes_under p parent.path ≡ true → frame_at frames s ≡ Some frame → is_child_of q frame.path ≡ true → goes_under p frame.path ≡ true }
    ensures below_root { (frames : List (Frame T)) (p : ℕ) (path : List ℕ) → parent_of path ≡ Some p → goes_under (root_of path) path ≡ true }
{}

/// An abort at a frame leaves a tree: the frame stays, without a child, and each frame that isn't under it
/// stays as it was.
#[tactic(auto, using(crate::proofs::TreeChanges::abort_laws))]
pub fn aborts_leave_a_leaf<T>()
    ensures tree { (frames : List (Frame T)) (p : ℕ) → IsTree frames → IsTree (aborted p frames) }
    ensures found { (frames : List (Frame T)) (p s : ℕ) → IsTree frames → frame_at (aborted p frames) s ≡ if_kept (λ frame. not (goes_under p frame.path)) (frame_at frames s) }
    ensures itself { (frames : List (Frame T)) (p : ℕ) (frame : Frame T) → IsTree frames → frame_at frames p ≡ Some frame → frame_at (aborted p frames) p ≡ Some frame }
    ensures leaf { (frames : List (Frame T)) (p : ℕ) → IsTree frames → children_of (aborted p frames) p ≡ [] }
{}

/// A tree stays a tree where a frame without a child is removed, and where a frame is removed with all that are
/// under it. The frame is gone then; without it the others are found as before.
#[tactic(auto, using(crate::proofs::TreeChanges::removal_laws))]
pub fn leaves_and_jobs_can_be_removed<T>()
    ensures leaf { (frames : List (Frame T)) (p : ℕ) → IsTree frames → children_of frames p ≡ [] → IsTree (frames_without p frames) }
    ensures with_all { (frames : List (Frame T)) (p : ℕ) → IsTree frames → IsTree (frames_without p (aborted p frames)) }
    ensures gone { (frames : List (Frame T)) (p : ℕ) → frame_at (frames_without p frames) p ≡ None }
    ensures others { (frames : List (Frame T)) (p s : ℕ) → p ≢ s → frame_at (frames_without p frames) s ≡ frame_at frames s }
{}

/// A tree stays a tree where a frame is added whose serial is above all, as a root or under a frame that is
/// there: it is then the last child of its parent, and the others are found as before.
#[tactic(auto, using(crate::proofs::TreeValues::push_laws))]
pub fn frames_can_be_added<T>()
    ensures tree { (frames : List (Frame T)) (serial : ℕ) (parent : Option ℕ) (home : ℕ) (value : T) → IsTree frames → AllBelow serial frames → has_parent frames parent ≡ true →
        IsTree (frames ++ new_frame frames serial parent home value ∷ []) }
    ensures itself { (frames : List (Frame T)) (frame : Frame T) → AllBelow frame.serial frames → frame_at (frames ++ frame ∷ []) frame.serial ≡ Some frame }
    ensures others { (frames : List (Frame T)) (frame : Frame T) (s : ℕ) → frame.serial ≢ s → frame_at (frames ++ frame ∷ []) s ≡ frame_at frames s }
    ensures parent { (frames : List (Frame T)) (serial : ℕ) (parent : Option ℕ) (home : ℕ) (value : T) → IsTree frames → has_parent frames parent ≡ true → parent_of (new_frame frames serial parent home value).path ≡ parent }
    ensures children { (frames : List (Frame T)) (serial : ℕ) (parent : Option ℕ) (home : ℕ) (value : T) (s : ℕ) → IsTree frames → AllBelow serial frames → has_parent frames parent ≡ true →
        children_of (frames ++ new_frame frames serial parent home value ∷ []) s ≡ children_of frames s ++ filter (λ frame. is_child_of s frame.path) (new_frame frames serial parent home value ∷ []) }
{}

/// Putting a frame into another state changes nothing but that state: not the tree, the other frames, who is
/// whose child, nor any value.
#[tactic(auto, using(crate::proofs::TreeValues::state_laws))]
pub fn states_change_alone<T>()
    ensures tree { (frames : List (Frame T)) (n : ℕ) (state : State) → IsTree frames → IsTree (with_state n state frames) }
    ensures itself { (frames : List (Frame T)) (n : ℕ) (state : State) (frame : Frame T) → frame_at frames n ≡ Some frame → frame_at (with_state n state frames) n ≡ Some (record frame { state = state }) }
    ensures others { (frames : List (Frame T)) (n s : ℕ) (state : State) → n ≢ s → frame_at (with_state n state frames) s ≡ frame_at frames s }
    ensures children { (frames : List (Frame T)) (n s : ℕ) (state : State) → IsTree frames → children_of (with_state n state frames) s ≡ with_state n state (children_of frames s) }
    ensures values { (frames : List (Frame T)) (n : ℕ) (state : State) → values_of (with_state n state frames) ≡ values_of frames }
{}

/// Applying a function to the value of each frame leaves the tree as it is, and may be done before or after a
/// look-up or a change of the tree, with the same result.
#[tactic(auto, using(crate::proofs::TreeValues::value_laws))]
pub fn values_change_alone<T, U>()
    ensures tree { (change : T → U) (frames : List (Frame T)) → IsTree frames → IsTree (map_values change frames) }
    ensures from_tree { (change : T → U) (frames : List (Frame T)) → IsTree (map_values change frames) → IsTree frames }
    ensures found { (change : T → U) (frames : List (Frame T)) (s : ℕ) → frame_at (map_values change frames) s ≡ option_map (map_value change) (frame_at frames s) }
    ensures there { (change : T → U) (frames : List (Frame T)) (s : ℕ) → has_frame (map_values change frames) s ≡ has_frame frames s }
    ensures path { (change : T → U) (frames : List (Frame T)) (s : ℕ) → path_in (map_values change frames) s ≡ path_in frames s }
    ensures children { (change : T → U) (frames : List (Frame T)) (s : ℕ) → children_of (map_values change frames) s ≡ map_values change (children_of frames s) }
    ensures under { (change : T → U) (frames : List (Frame T)) (s : ℕ) → frames_under s (map_values change frames) ≡ map_values change (frames_under s frames) }
    ensures aborted { (change : T → U) (frames : List (Frame T)) (s : ℕ) → aborted s (map_values change frames) ≡ map_values change (aborted s frames) }
    ensures without { (change : T → U) (frames : List (Frame T)) (s : ℕ) → frames_without s (map_values change frames) ≡ map_values change (frames_without s frames) }
    ensures state { (change : T → U) (frames : List (Frame T)) (s : ℕ) (state : State) → with_state s state (map_values change frames) ≡ map_values change (with_state s state frames) }
    ensures added { (change : T → U) (frames more : List (Frame T)) → map_values change (frames ++ more) ≡ map_values change frames ++ map_values change more }
    ensures new { (change : T → U) (frames : List (Frame T)) (serial : ℕ) (parent : Option ℕ) (home : ℕ) (value : T) → new_frame (map_values change frames) serial parent home (change value) ≡ map_value change (new_frame frames serial parent home value) }
    ensures values { (change : T → U) (frames : List (Frame T)) → values_of (map_values change frames) ≡ map change (values_of frames) }
{}

/// The definitions that the laws cite, tried on the tree of `rows`: frame 5 is a child of 3 and of no other,
/// `map_values` changes values and no path, and `if_kept` keeps a frame only if its test holds.
pub fn laws_on_five_frames()
    ensures child { is_child_of 3 (path_in five_frames 5) ≡ true }
    ensures grandchild { is_child_of 1 (path_in five_frames 5) ≡ false }
    ensures itself { is_child_of 5 (path_in five_frames 5) ≡ false }
    ensures root { is_child_of 1 (path_in five_frames 1) ≡ false }
    ensures values { values_of (map_values (λ value. value + 10) five_frames) ≡ 11 ∷ 12 ∷ 13 ∷ 14 ∷ 15 ∷ [] }
    ensures paths { path_in (map_values (λ value. value + 10) five_frames) 5 ≡ path_in five_frames 5 }
    ensures kept { if_kept (λ frame. is_child_of 1 frame.path) (frame_at five_frames 5) ≡ None }
    ensures stays { if_kept (λ frame. is_child_of 3 frame.path) (frame_at five_frames 5) ≡ frame_at five_frames 5 }
{}
