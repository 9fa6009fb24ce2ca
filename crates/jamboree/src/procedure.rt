//! The search as a procedure of the core: the five functions that say what a frame does, and when frames are right.
ghost use Rattle.std.specs.Prelude.{◌≡◌, ◌≤◌, ◌+◌, ◌↔◌, ◌==◌, ◌&&◌, true, ◌∷◌, IsSome, IfSome, Some, None, List, [], ℕ, length, nat_lt, if◌then◌else◌};
ghost use Rattle.othello_board.specs.Words.{cells};
ghost use Rattle.othello_moves.specs.Choices.{choices};
ghost use Rattle.jamboree_rules.specs.Frames.{may_be_child};
ghost use Rattle.jamboree_rules.specs.Places.{frame_of, is_formed, pairs_of, frame_size};
ghost use Rattle.jamboree_rules.specs.Acts.{returns, act_of, next_act, wakes, inlet_of, inlet_act};
ghost use Rattle.jamboree_rules.specs.Leaves.{changes_of_answer};
ghost use Rattle.jamboree_rules.specs.Fits.{AreFitting};
ghost use Rattle.jamboree_rules.specs.sched_rules.Laws.{AllFit};
ghost use Rattle.jamboree.specs.InletPlans.{inlet_for};
ghost use Rattle.jamboree.specs.Levels.{above_of};
ghost use Rattle.jamboree.specs.Plans.{act_for};
ghost use Rattle.jamboree.specs.Views.{frame_in, frame_with, entries_of};

use crate::codes::coded;
use crate::frame::FrameView;
use crate::inlet::{takes_in, wakes};
use crate::inlet_plan::InletPlan;
use crate::next::{board_under, later, of_root, opening};
use crate::phases::{Phase, Role};
use crate::plan::FramePlan;
use crate::view::{FrameChange, SIZE, are_root_words, is_formed, read_leaf, set, view};
use cactus_stack::{Sight, Words};
use jamboree_rules::sched_rules::{Act, InletAct, Procedure, Stores};
use jamboree_rules::{Leaf, LeafAnswer};
use othello_moves::choice_count;

/// Jamboree search. A frame that isn't a root is searched by one worker, without children, where its remaining depth is
/// at most `grain` or its game is over; a root only at depth 0 or where its game is over. Any other frame gets an entry
/// for each of its choices, and a child for each that is searched.
#[derive(Clone, Copy, Debug, PartialEq, Eq)]
pub struct Jamboree {
    /// The greatest depth that one worker searches by itself, 0 to 6.
    pub grain: u8,
    ghost limit: { grain ≤ 6 },
}

impl Jamboree {
    /// The procedure with this grain, or None where it is above 6.
    pub fn new(grain: u8) -> Option<Jamboree>
        ensures within { IsSome result ↔ (grain ≤ 6) }
        ensures value { IfSome result (λ jamboree. jamboree.grain ≡ grain) }
    {
        if grain > 6 {
            return None;
        }
        Some(Jamboree { grain })
    }
}

impl FrameView {
    /// Whether the frame has a choice of this number: it is below the frame's count and below the number of its
    /// board's choices. While choices are searched these two are equal, so the board's aren't counted again.
    fn has_choice(&self, number: u64) -> bool
        ensures { result ≡ (nat_lt number self.now.count && nat_lt number (length (choices (cells self.now.board)))) }
    {
        if self.count as u64 <= number {
            return false;
        }
        match self.phase {
            Phase::First | Phase::Tests => true,
            _ => number < choice_count(self.board) as u64,
        }
    }

    /// Whether this may be the frame of a child of that one: it is no root, and its number is that of
    /// a choice of the parent.
    fn may_be_under(&self, parent: &FrameView) -> bool
        ensures { result ≡ may_be_child (frame_in parent.now) (frame_in self.now) }
    {
        match self.role {
            Role::Root => false,
            _ => parent.has_choice(self.number),
        }
    }
}

/// What a frame in these words does next with no level above it. One that isn't a root returns.
#[inline(always)]
fn plan_alone(grain: u8, frame: &FrameView, own: &Words) -> FramePlan
    requires { length own.now ≡ frame_size + frame.now.count }
    ensures { act_for result ≡ (if (frame_in frame.now).role == 0 then act_of grain (frame_with frame.now (entries_of own.now)) None else returns) }
{
    match frame.role {
        Role::Root => of_root(grain, frame, own),
        _ => FramePlan::Returns,
    }
}

/// What a frame in these words does next under this parent. One that can't be a child of it returns.
#[inline(always)]
fn plan_under(grain: u8, frame: &FrameView, own: &Words, parent: &FrameView) -> FramePlan
    requires { length own.now ≡ frame_size + frame.now.count }
    ensures { (others : List ℕ) → act_for result ≡ (if may_be_child (frame_with parent.now others) (frame_in frame.now) then act_of grain (frame_with frame.now (entries_of own.now)) (Some (frame_with parent.now others)) else returns) }
{
    if !frame.may_be_under(parent) {
        return FramePlan::Returns;
    }
    match frame.phase {
        Phase::New => opening(grain, frame, board_under(frame, parent)),
        _ => later(frame, own),
    }
}

/// What a frame in the words `own` does next under a parent in the words `above`, whose form is checked. It returns
/// where `above` doesn't have the form of a frame, or the frame can't be a child of that parent.
fn plan_below(grain: u8, frame: &FrameView, own: &Words, above: &Words) -> FramePlan
    requires { length own.now ≡ frame_size + frame.now.count }
    ensures { act_for result ≡ (if is_formed above.now && may_be_child (frame_of above.now) (frame_in frame.now) then act_of grain (frame_with frame.now (entries_of own.now)) (Some (frame_of above.now)) else returns) }
{
    if !is_formed(above) {
        return FramePlan::Returns;
    }
    plan_under(grain, frame, own, &view(above))
}

/// What a frame in the words `own` does next under a parent in these words, or with no level above it (None). The
/// form of both is checked: it returns where one of them doesn't have the form of a frame.
fn plan_tested(grain: u8, own: &Words, parent: Option<Words>) -> FramePlan
    ensures { act_for result ≡ next_act grain (own.now ∷ above_of parent.entry) }
{
    if !is_formed(own) {
        return FramePlan::Returns;
    }
    let frame = view(own);
    match parent {
        Some(above) => plan_below(grain, &frame, own, &above),
        None => plan_alone(grain, &frame, own),
    }
}

/// What a frame that sees these words does next. The form of its own words and of its parent's is checked.
#[tactic(auto, using(crate::proofs::Rules::plan_seen_rules))]
fn plan_seen(grain: u8, sight: &Sight) -> FramePlan
    ensures { act_for result ≡ next_act grain sight.now }
{
    match sight.up(0) {
        Some(own) => plan_tested(grain, &own, sight.up(1)),
        None => FramePlan::Returns,
    }
}

/// What a frame that sees these words does next, where all of them are known to fit (`AreFitting`), so that their
/// form isn't checked.
#[inline(always)]
#[tactic(auto, using(crate::proofs::Rules::plan_fitting_rules))]
fn plan_fitting(grain: u8, sight: &Sight) -> FramePlan
    requires { AllFit AreFitting sight.now }
    ensures { act_for result ≡ next_act grain sight.now }
{
    match sight.up(0) {
        Some(own) => plan_formed(grain, &own, sight.up(1)),
        None => FramePlan::Returns,
    }
}

/// What a frame in the words `own` does next under a parent in these words, or with no level above it (None).
/// Both are known to have the form of a frame.
#[inline(always)]
fn plan_formed(grain: u8, own: &Words, parent: Option<Words>) -> FramePlan
    requires own { is_formed own.now ≡ true }
    requires parent { IfSome parent (λ above. is_formed above ≡ true) }
    ensures { act_for result ≡ next_act grain (own.now ∷ above_of parent.entry) }
{
    let frame = view(own);
    match parent {
        Some(above) => plan_under(grain, &frame, own, &view(&above)),
        None => plan_alone(grain, &frame, own),
    }
}

/// What a frame that sees these words does next. Where `fitting` is true all of them are known to fit
/// (`AreFitting`), and their form isn't checked.
#[inline(always)]
fn plan_of(grain: u8, fitting: bool, sight: &Sight) -> FramePlan
    requires { fitting ≡ true → AllFit AreFitting sight.now }
    ensures { act_for result ≡ next_act grain sight.now }
{
    if !fitting {
        return plan_seen(grain, sight);
    }
    plan_fitting(grain, sight)
}

/// The inlet of `frame` for a returned child whose words are unchecked. Where they don't have the form of a
/// frame, or can't be a child of `frame`, it only wakes it. `entries` are what a `FrameView` leaves out, and don't
/// matter.
fn plan_inlet_below(frame: &FrameView, words: &Words) -> InletPlan
    ensures { (entries : List ℕ) → inlet_for result ≡ (if is_formed words.now && may_be_child (frame_with frame.now entries) (frame_of words.now) then inlet_of (frame_with frame.now entries) (frame_of words.now) else wakes) }
{
    if !is_formed(words) {
        return wakes();
    }
    plan_inlet_under(frame, &view(words))
}

/// The inlet of `frame` for a returned child. One that can't be a child of it only wakes it.
#[inline(always)]
fn plan_inlet_under(frame: &FrameView, child: &FrameView) -> InletPlan
    ensures { (own below : List ℕ) → inlet_for result ≡ (if may_be_child (frame_with frame.now own) (frame_with child.now below) then inlet_of (frame_with frame.now own) (frame_with child.now below) else wakes) }
{
    if !child.may_be_under(frame) {
        return wakes();
    }
    takes_in(frame, child)
}

/// The inlet of a frame in the words `own` for a returned child in the words `child`. The form of both is
/// checked: where one of them doesn't have the form of a frame, the frame is only woken.
fn plan_inlet_seen(own: &Words, child: &Words) -> InletPlan
    ensures { inlet_for result ≡ inlet_act own.now child.now }
{
    if !is_formed(own) {
        return wakes();
    }
    plan_inlet_below(&view(own), child)
}

/// The inlet of a frame in the words `own` for a returned child in the words `child`. Where `fitting` is true
/// both are known to fit (`AreFitting`), and their form isn't checked.
#[inline(always)]
fn plan_inlet_of(fitting: bool, own: &Words, child: &Words) -> InletPlan
    requires { fitting ≡ true → AllFit AreFitting (own.now ∷ child.now ∷ []) }
    ensures { inlet_for result ≡ inlet_act own.now child.now }
{
    if !fitting {
        return plan_inlet_seen(own, child);
    }
    plan_inlet_under(&view(own), &view(child))
}

impl Procedure for Jamboree {
    ghost use Rattle.std.specs.Prelude.{refl};
    ghost use Rattle.jamboree_rules.specs.Fits.{IsRoot};
    ghost use Rattle.jamboree_rules.specs.Procedure.{jamboree};
    ghost use Rattle.jamboree_rules.proofs.Keeping.{next-keeps, inlet-keeps};
    ghost use Rattle.jamboree_rules.proofs.Rooted.{accept-keeps};
    ghost use Rattle.jamboree_rules.proofs.LeafLemmas.{same-value};

    type Input = Leaf;

    type Answer = LeafAnswer;

    ghost functions = { λ procedure. jamboree procedure.grain };

    ghost fits = { λ procedure. AreFitting };

    ghost rooted = { λ procedure. IsRoot };

    /// The act that the frame's phase asks for. Words that don't have the form of a frame, or aren't those of a
    /// child of the parent above, return.
    fn next(&self, sight: &Sight) -> Act {
        plan_seen(self.grain, sight).act()
    }

    /// Stores what the child's score says of its choice, and wakes the frame. At a score of at least the frame's beta
    /// it also stores that the frame is done, and aborts all else below it. Where the words don't have the form of a
    /// frame and of a child of it, it only wakes.
    fn inlet(&self, own: &Words, child: &Words) -> InletAct {
        plan_inlet_seen(own, child).inlet()
    }

    /// The frame's board, depth and window; the empty board to depth 0 where these are out of range.
    fn input(&self, own: &Words) -> Leaf {
        read_leaf(own)
    }

    /// The leaf that the answer was computed for.
    fn asked(&self, answer: &LeafAnswer) -> Leaf {
        answer.leaf()
    }

    /// Stores the answer's score and choice, and that the frame is done; nothing where the words don't have the
    /// form of a frame.
    fn accept(&self, own: &Words, answer: &LeafAnswer) -> Stores {
        if !is_formed(own) {
            return Stores::new();
        }
        answered(answer)
    }

    /// Whether a root with these first words and this size searches a board to a depth of at most 12 with the full
    /// window: they are as `root_words` makes them, and the size is 12.
    fn is_fitting_root(&self, words: &[u64], size: usize) -> bool {
        size == SIZE && are_root_words(words)
    }

    /// The act of `next`. Where `fitting` is true the words are known to fit (`AreFitting`), and their form isn't
    /// checked.
    #[inline(always)]
    fn next_of(&self, fitting: bool, sight: &Sight) -> Act {
        plan_of(self.grain, fitting, sight).act()
    }

    /// The act of `inlet`. Where `fitting` is true the words are known to fit (`AreFitting`), and their form isn't
    /// checked.
    #[inline(always)]
    fn inlet_of(&self, fitting: bool, own: &Words, child: &Words) -> InletAct {
        plan_inlet_of(fitting, own, child).inlet()
    }

    /// The stores of `accept`. Where `fitting` is true the words are known to fit (`AreFitting`), and their form isn't
    /// checked.
    #[inline(always)]
    fn accept_of(&self, fitting: bool, own: &Words, answer: &LeafAnswer) -> Stores {
        if !fitting {
            return self.accept(own, answer);
        }
        answered(answer)
    }

    ghost compares = { λ procedure. refl };

    ghost same_is_equal = { λ procedure. same-value };

    ghost next_keeps = { λ procedure. next-keeps (jamboree procedure.grain) procedure.grain refl };

    ghost inlet_keeps = { λ procedure. inlet-keeps (jamboree procedure.grain) refl };

    ghost accept_keeps = { λ procedure. accept-keeps (jamboree procedure.grain) refl refl refl refl };
}

/// What a frame stores of an answer: its score, its choice, and that the frame is done.
#[inline(always)]
fn answered(answer: &LeafAnswer) -> Stores
    ensures { result ≡ pairs_of (changes_of_answer answer.now) }
{
    let mut stores = Stores::new();
    set(&mut stores, FrameChange::Best(answer.score()));
    set(&mut stores, FrameChange::Chosen(coded(answer.choice())));
    set(&mut stores, FrameChange::Phase(Phase::Done));
    stores
}
