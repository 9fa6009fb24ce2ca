//! The words of a search's frame as a typed view, and stores by what they set: nothing else knows places.
//!
//! The words of a frame and what they stand for are in `specs/Places.antt` of `jamboree_rules`.
//! [`is_formed`] tests exactly whether words have the form of a frame, in place, and [`view`] reads the
//! frame in words that have it.
ghost use Rattle.std.specs.Prelude.{◌≡◌, ◌<◌, ◌≤◌, ◌+◌, ◌++◌, ◌∷◌, [], ◌↔◌, ◌==◌, ◌&&◌, true, IsSome, IfSome, List, ℕ, ◌*◌, ◌-◌, bit_and, drop, length, map, slice_get, slice_index, ◌≤ℤ◌, pos, negsuc};
ghost use Rattle.jamboree_rules.specs.Frames.{is_leaf, is_frame, is_in_phase, counts_choices, least, greatest};
ghost use Rattle.jamboree_rules.specs.Places.{score_of, frame_of, is_formed, pair_of, root_words, frame_size};
ghost use Rattle.jamboree_rules.specs.Fits.{AreFitting, IsRoot};
ghost use Rattle.cactus_stack.specs.Nodes.{padded};
ghost use Rattle.jamboree_rules.specs.sched_rules.Laws.{Neither};
ghost use Rattle.jamboree_rules.specs.Leaves.{any_leaf, leaf_in, leaf_from};
ghost use Rattle.jamboree.specs.Plans.{spawn_of};
ghost use Rattle.jamboree.specs.Changes.{store_of, score_set, number_set};
ghost use Rattle.jamboree.specs.Views.{head_of, frame_from, frame_with, entries_of, entries_in};

use crate::entry::PackedBound;
use crate::frame::{FrameView, Goal};
use crate::phases::{Phase, Role, Status};
use crate::plan::NewChild;
use crate::score::{GREATEST_WORD, LEAST_WORD, score_of_word, word_of_score};
use crate::statuses::are_entries;
use cactus_stack::Words;
use jamboree_rules::Leaf;
use jamboree_rules::leaf_search::INF;
use jamboree_rules::sched_rules::{Continuation, GivenWords, Stores};
use othello_board::Board;
use othello_board::position_text::Position;
use othello_moves::{DEEPEST, choice_count};

/// The size of a new frame in words, after which the entries of its choices stand.
pub(crate) const SIZE: usize = 12;

/// The first twelve words of a frame, by name.
#[derive(Clone, Copy)]
struct Head {
    own: u64,
    opp: u64,
    depth: u64,
    alpha: u64,
    beta: u64,
    role: u64,
    number: u64,
    phase: u64,
    best: u64,
    choice: u64,
    count: u64,
    spawned: u64,
}

/// The word at a place in a frame's words, counted from 0; 0 where there is none.
fn word(words: &[u64], place: usize) -> u64
    ensures { result ≡ slice_index words.now place }
{
    match words.get(place) {
        Some(word) => *word,
        None => 0,
    }
}

/// The first twelve words, and 0 for each that is missing.
#[inline(always)]
fn read_any_head(words: &Words) -> Head
    ensures { result ≡ head_of words.now }
{
    let front = words.segment(0);
    Head {
        own: word(front, 0),
        opp: word(front, 1),
        depth: word(front, 2),
        alpha: word(front, 3),
        beta: word(front, 4),
        role: word(front, 5),
        number: word(front, 6),
        phase: word(front, 7),
        best: word(front, 8),
        choice: word(front, 9),
        count: word(front, 10),
        spawned: word(front, 11),
    }
}

/// The twelve words that a segment begins with.
#[inline(always)]
fn head_in(front: &[u64]) -> Head
    requires { frame_size ≤ length front.now }
    ensures { result ≡ head_of front.now }
{
    Head {
        own: front[0],
        opp: front[1],
        depth: front[2],
        alpha: front[3],
        beta: front[4],
        role: front[5],
        number: front[6],
        phase: front[7],
        best: front[8],
        choice: front[9],
        count: front[10],
        spawned: front[11],
    }
}

/// The first twelve words, which stand in one segment.
#[inline(always)]
#[tactic(auto, using(crate::proofs::Rules::read_head_rules))]
fn read_head(words: &Words) -> Head
    requires { frame_size ≤ length words.now }
    ensures { result ≡ head_of words.now }
{
    head_in(words.segment(0))
}

/// The entries of choices in the segment of this number, from 0: the whole segment, but in segment 0 only what follows
/// the first twelve words.
pub(crate) fn entries<'a>(words: &Words<'a>, number: usize) -> &'a [u64]
    requires { frame_size ≤ length words.now }
    ensures { result.now ≡ entries_in words.now number }
{
    let segment = words.segment(number);
    if number == 0 {
        &segment[SIZE..]
    } else {
        segment
    }
}

/// The number of the first choice, from 0, whose entry stands in the segment of this number.
pub(crate) fn first_number(number: usize) -> usize
    requires { number ≤ 8 }
    ensures { result ≡ 16 * number - frame_size }
{
    (16 * number).saturating_sub(SIZE)
}

/// The entry of the choice of this number, from 0; `None` where there is none.
#[inline(always)]
pub(crate) fn entry(words: &Words, number: usize) -> Option<u64>
    requires { number ≤ 128 }
    ensures { result ≡ slice_get words.now (frame_size + number) }
{
    words.get(SIZE + number)
}

impl Head {
    /// Whether these words can be searched: no square of the board has two discs, the depth is at most 12, and the
    /// window isn't empty and lies within -200,000 to 200,000.
    fn is_leaf(&self) -> bool
        ensures { result ≡ is_leaf self.now.own self.now.opp self.now.depth (score_of self.now.alpha) (score_of self.now.beta) }
    {
        self.own & self.opp == 0
            && self.depth <= u64::from(DEEPEST)
            && LEAST_WORD <= self.alpha
            && self.alpha < self.beta
            && self.beta <= GREATEST_WORD
    }

    /// The board, depth and window as a leaf to compute; where they can't be searched (`is_leaf`), the empty board to
    /// depth 0.
    fn leaf(self) -> Leaf
        ensures { result ≡ leaf_from self.own self.opp self.depth (score_of self.alpha) (score_of self.beta) }
    {
        if !self.is_leaf() {
            return empty_leaf();
        }
        Leaf {
            board: Board {
                own: self.own,
                opp: self.opp,
            },
            depth: self.depth as u8,
            alpha: score_of_word(self.alpha),
            beta: score_of_word(self.beta),
        }
    }

    /// Whether the depth is at least 1, and the count of choices is at least 1 and right for the board.
    fn counts_choices(&self) -> bool
        requires { bit_and self.now.own self.now.opp ≡ 0 }
        ensures { result ≡ counts_choices (frame_from self.now []) }
    {
        let board = Board {
            own: self.own,
            opp: self.opp,
        };
        0 < self.depth && 0 < self.count && self.count == choice_count(board) as u64
    }

    /// Whether best score and count are as the phase asks. In the phases `New` (0) and `Computing` (1) both words are 0;
    /// later the score is within -200,000 to 200,000, and in `First` (2) and `Tests` (3) the count is right
    /// (`counts_choices`).
    fn is_in_phase(&self) -> bool
        requires { bit_and self.now.own self.now.opp ≡ 0 }
        ensures { result ≡ is_in_phase (frame_from self.now []) }
    {
        if self.phase <= 1 {
            return self.best == 0 && self.count == 0;
        }
        if self.best < LEAST_WORD || GREATEST_WORD < self.best {
            return false;
        }
        if self.phase == 2 || self.phase == 3 {
            return self.counts_choices();
        }
        true
    }

    /// Whether each of the twelve words is in its range, and best score and count are as the phase asks.
    fn is_frame(&self) -> bool
        ensures { result ≡ is_frame (frame_from self.now []) }
    {
        self.is_leaf()
            && self.role <= 3
            && self.phase <= 4
            && self.choice <= 65
            && self.spawned <= self.count
            && self.is_in_phase()
    }

    /// The typed view of these twelve words, after which `count` entries stand.
    #[inline(always)]
    fn view(self, count: usize) -> FrameView
        requires form { is_frame (frame_from self []) ≡ true }
        requires few { count ≤ 116 }
        requires counted { count ≡ self.count }
        ensures frame { (entries : List ℕ) → frame_with result entries ≡ frame_from self entries }
        ensures count { result.count ≡ count }
    {
        FrameView {
            board: Board {
                own: self.own,
                opp: self.opp,
            },
            goal: Goal {
                depth: self.depth as u8,
                alpha: score_of_word(self.alpha),
                beta: score_of_word(self.beta),
            },
            role: Role::of(self.role),
            number: self.number,
            phase: Phase::of(self.phase),
            best: score_of_word(self.best),
            choice: self.choice,
            count,
            spawned: self.spawned as usize,
        }
    }
}

/// Whether these words have the form of a frame: twelve words in their ranges (`is_frame`), and after them as many
/// valid entries as they count.
pub(crate) fn is_formed(words: &Words) -> bool
    ensures { result ≡ is_formed words.now }
{
    let len = words.len();
    if len < SIZE {
        return false;
    }
    let head = read_head(words);
    if (len - SIZE) as u64 != head.count {
        return false;
    }
    if !head.is_frame() {
        return false;
    }
    are_entries(words)
}

/// The frame in words that have the form of one.
#[inline(always)]
pub(crate) fn view(words: &Words) -> FrameView
    requires { is_formed words.now ≡ true }
    ensures frame { frame_with result (entries_of words.now) ≡ frame_of words.now }
    ensures entries { length words.now ≡ frame_size + result.count }
{
    let count = words.len() - SIZE;
    read_head(words).view(count)
}

/// The leaf that stands for none: an empty board to depth 0.
fn empty_leaf() -> Leaf
    ensures { result ≡ any_leaf }
{
    Leaf {
        board: Board { own: 0, opp: 0 },
        depth: 0,
        alpha: 0,
        beta: 1,
    }
}

/// The board, depth and window in these words as a leaf to compute; where they can't be searched (`is_leaf`), the empty
/// board to depth 0.
pub(crate) fn read_leaf(words: &Words) -> Leaf
    ensures { result ≡ leaf_in words.now }
{
    read_any_head(words).leaf()
}

/// What one store sets in a frame's words.
#[derive(Drop)]
pub(crate) enum FrameChange {
    /// The bits of the mover's discs.
    OwnBits(u64),
    /// The bits of the opponent's discs.
    OppBits(u64),
    /// The phase.
    Phase(Phase),
    /// The best score, from -1,000,000 to 1,000,000.
    Best(i32),
    /// The code of the best choice.
    Chosen(u64),
    /// The count of choices.
    Count(usize),
    /// The count of choices that were spawned.
    Spawned(usize),
    /// The whole entry of the choice of this number: its status, and what is known of it.
    Status(usize, Status, PackedBound),
}

/// Adds the store that makes this change at the end of these stores, which have room for 8.
#[inline(always)]
pub(crate) fn set(stores: &mut Stores, change: FrameChange)
    requires room { length stores.old < 8 }
    requires low { negsuc 999999 ≤ℤ score_set change }
    requires high { score_set change ≤ℤ pos 1000000 }
    requires small { number_set change ≤ 255 }
    ensures { stores.new ≡ stores.old ++ pair_of (store_of change) ∷ [] }
{
    match change {
        FrameChange::OwnBits(bits) => stores.push(0, bits),
        FrameChange::OppBits(bits) => stores.push(1, bits),
        FrameChange::Phase(phase) => stores.push(7, phase.number()),
        FrameChange::Best(score) => stores.push(8, word_of_score(score)),
        FrameChange::Chosen(code) => stores.push(9, code),
        FrameChange::Count(count) => stores.push(10, count as u64),
        FrameChange::Spawned(count) => stores.push(11, count as u64),
        FrameChange::Status(number, status, rest) => {
            stores.push(SIZE + number, rest.entry(status));
        }
    }
}

/// The order to open this child with twelve words: its depth, window, role and number, and 0 in all other places. Its
/// board is set at its first act.
#[inline(always)]
pub(crate) fn spawn(child: &NewChild) -> Continuation
    ensures { result ≡ spawn_of child.now }
{
    let words = [
        0,
        0,
        u64::from(child.goal.depth),
        word_of_score(child.goal.alpha),
        word_of_score(child.goal.beta),
        child.role.number(),
        child.number as u64,
        0,
    ];
    Continuation::Spawn(GivenWords::eight(words), SIZE)
}

/// The frame in the words that a job keeps of its returned root.
#[tactic(auto, using(crate::proofs::Rules::kept_view_rules))]
pub(crate) fn kept_view(words: &[u64]) -> FrameView
    requires form { is_formed words.now ≡ true }
    requires few { length words.now ≤ 128 }
    ensures frame { frame_with result (entries_of words.now) ≡ frame_of words.now }
    ensures entries { length words.now ≡ frame_size + result.count }
{
    let count = words.len() - SIZE;
    head_in(words).view(count)
}

/// The entries that a job keeps of its returned root, which stand after the twelve words.
pub(crate) fn kept_entries(words: &[u64]) -> &[u64]
    requires { frame_size ≤ length words.now }
    ensures { result.now ≡ entries_of words.now }
{
    &words[SIZE..]
}

/// The words of a root: a board to a depth with the full window.
fn root_of(own: u64, opp: u64, depth: u64) -> [u64; 8]
    ensures { result ≡ root_words own opp depth }
{
    [
        own,
        opp,
        depth,
        word_of_score(-INF),
        word_of_score(INF),
        Role::Root.number(),
        0,
        Phase::New.number(),
    ]
}

/// Whether these are the eight words of a root, as `root_words` makes them: of a board with no square that has two
/// discs, to a depth of at most 12, with the full window.
pub(crate) fn are_root_words(words: &[u64]) -> bool
    ensures fits { result ≡ true → AreFitting (padded words.now frame_size) [] Neither }
    ensures rooted { result ≡ true → IsRoot words.now (padded words.now frame_size) }
{
    words.len() == 8
        && words[0] & words[1] == 0
        && words[2] <= u64::from(DEEPEST)
        && words == root_of(words[0], words[1], words[2]).as_slice()
}

/// The words to submit a job with, for a search of this position to a depth of 0 to 12 plies with the full window. The
/// size to submit with them is 12.
pub fn root_words(position: &Position, depth: u8) -> [u64; 8]
    requires { depth ≤ DEEPEST }
    ensures words { result ≡ root_words position.now.board.own position.now.board.opp depth }
    ensures fits { AreFitting (padded result frame_size) [] Neither }
    ensures rooted { IsRoot result (padded result frame_size) }
{
    root_of(position.board.own, position.board.opp, u64::from(depth))
}
