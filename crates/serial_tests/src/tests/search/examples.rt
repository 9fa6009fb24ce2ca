//! Tests of the examples at the heads of the crates of the game, of its positions and of its lines, and of the known
//! numbers of positions after so many choices.
use super::{OPENING, holds, holds_at, opening};
use arrayvec::ArrayVec;
use jamboree_core::enough;
use leaf_search::{INF, Scored, search};
use othello_board::position_text::{read, read_again, write};
use othello_board::{Board, Cell, Direction};
use othello_eval::{Valued, eval, final_value, plain};
use othello_moves::{Choice, after, choice, choice_count, move_count, moves, over};
use protocol::{push_move, push_value, split_at_space, word_number};

/// The opening's board: 2 discs each, the cells of e4 (28), d4 (27) and d3 (19), the flips of d3, and no board of
/// shared bits.
#[test]
fn board_example(rt: HostRuntime) {
    holds(&rt, OPENING.count() == (2, 2));
    holds(&rt, matches!(OPENING.cell(28), Cell::Own));
    holds(&rt, matches!(OPENING.cell(27), Cell::Opp));
    holds(&rt, matches!(OPENING.cell(19), Cell::Empty));
    holds(&rt, OPENING.flips(19) == 1 << 27 && OPENING.flips(20) == 0);
    let other = Board::new(OPENING.opp, OPENING.own);
    holds(&rt, other == Some(OPENING.swap()));
    holds(&rt, Board::new(3, 2).is_none());
    holds(&rt, matches!(Direction::SouthEast.step(0), Some(9)));
    holds(&rt, Direction::NorthEast.step(7).is_none());
}

/// Whether the opening's first choice is d3.
fn has_a_first_choice() -> bool {
    choice_count(OPENING) > 0 && matches!(choice(OPENING, 0), Choice::Square(19))
}

/// The opening has 4 legal moves: d3, c4, f5 and e6 (squares 19, 26, 37 and 44).
#[test]
fn moves_example(rt: HostRuntime) {
    let four: u64 = 1 << 19 | 1 << 26 | 1 << 37 | 1 << 44;
    holds(&rt, moves(OPENING) == four && !over(OPENING));
    holds(&rt, choice_count(OPENING) == 4 && move_count(OPENING) == 4);
    holds(&rt, has_a_first_choice());
}

/// The value and the choice at depth 1.
const VALUED: Valued = Valued {
    value: -3,
    choice: Some(Choice::Square(19)),
};

/// A board where all discs are the other player's.
const LOST: Board = Board {
    own: 0,
    opp: u64::MAX,
};

/// The opening is worth 0, and to depth 1 it is worth -3, by d3 (square 19); a game lost by all 64 discs is worth
/// -128,000.
#[test]
fn eval_example(rt: HostRuntime) {
    holds(&rt, eval(OPENING) == 0);
    holds(&rt, plain(OPENING, 1) == VALUED);
    holds(&rt, final_value(LOST) == -128_000);
}

/// How many positions there are after exactly so many choices, a pass being one.
fn leaves(board: Board, depth: u8) -> u32 {
    if depth == 0 {
        return 1;
    }
    let mut found = 0_u32;
    for index in 0..choice_count(board) {
        found = found.wrapping_add(leaves(after(board, choice(board, index)), depth - 1));
    }
    found
}

/// From the opening there are 4, 12, 56, 244, 1,396 and 8,200 positions after 1 to 6 choices, as is known.
#[test]
fn leaves_from_the_opening(rt: HostRuntime) {
    for (depth, found) in [(1, 4), (2, 12), (3, 56), (4, 244), (5, 1396), (6, 8200)] {
        holds_at(&rt, depth as usize, leaves(OPENING, depth) == found);
    }
}

/// What a search of the opening to depth 2 finds.
const FOUND: Scored = Scored {
    score: -4,
    choice: Some(Choice::Square(19)),
    visited: 15,
};

/// The serial search of the opening to depth 2 finds -4, by d3 (square 19), after 15 positions.
#[test]
fn opening_at_depth_2(rt: HostRuntime) {
    holds(&rt, search(OPENING, 2, -INF, INF) == FOUND);
}

/// How many segments and nodes suffice for a position to a depth at a grain; 0 of each where no tenant can have as much.
fn sufficing(board: Board, depth: u8, grain: u8) -> (u32, u32) {
    match enough(board, depth, grain) {
        Some(reserve) => (reserve.segments(), reserve.nodes()),
        None => (0, 0),
    }
}

/// What suffices, in segments and nodes: 995 and 3,505 for the opening to depth 6 at grain 4, 19 and 33 to depth 0; 2
/// and 2 for a finished game; and no reservation does for the opening to depth 12 at grain 0.
#[test]
fn what_suffices(rt: HostRuntime) {
    holds(&rt, sufficing(OPENING, 6, 4) == (995, 3505));
    holds(&rt, sufficing(OPENING, 0, 4) == (19, 33));
    holds(&rt, sufficing(OPENING, 12, 0) == (0, 0));
    holds(&rt, sufficing(LOST, 12, 0) == (2, 2));
}

const TEXT: &[u8; 66] = b"---------------------------OX------XO--------------------------- X";

/// Whether the text is read as the opening, and that is read again as it was written.
fn is_read() -> bool {
    match (read(TEXT), read_again(&opening())) {
        (Ok(once), Ok(again)) => once == opening() && again == opening(),
        _ => false,
    }
}

/// The opening is read from its text, and written as the same text.
#[test]
fn opening_is_read_and_written(rt: HostRuntime) {
    holds(&rt, is_read());
    holds(&rt, write(&opening()) == *TEXT);
}

/// Whether a line has the number 12 before its first space, and this after it.
fn is_split(line: &[u8], rest: &[u8]) -> bool {
    match split_at_space(line) {
        Some((depth, position)) => matches!(word_number(depth), Some(12)) && position == rest,
        None => false,
    }
}

/// A line is split at its first space: `12` and `X-O`.
#[test]
fn words_are_read(rt: HostRuntime) {
    holds(&rt, is_split(b"12 X-O", b"X-O"));
}

/// The answer `-3 d3` is written: a value, a space and a move.
#[test]
fn an_answer_is_written(rt: HostRuntime) {
    let mut text: ArrayVec<u8, 32> = ArrayVec::new();
    push_value(&mut text, -3);
    text.push(b' ');
    push_move(&mut text, Some(Choice::Square(19)));
    holds(&rt, text.as_slice() == b"-3 d3".as_slice());
}
