//! A test of how many positions the ordered serial search enters: no contract speaks of that.
ghost use Rattle.std.specs.Prelude.{◌≤◌};

use super::holds_at;
use leaf_search::{Scored, search_ordered_full};
use othello_board::Board;

/// The player's discs, and the opponent's.
type Discs = (u64, u64);

/// The first positions that `bench/search` draws: 24 to 38 plies after the opening.
const DRAWN: [Discs; 15] = [
    (0x00001000c5430500, 0x010224393a3c2800),
    (0x00103c5880080000, 0x844343077f010000),
    (0x0484402c143e0000, 0x10283c122940a800),
    (0x0000383e42020c16, 0x000000001d3d3321),
    (0x0000c4363c040000, 0xa0583849c3191800),
    (0x080c2a1f00101008, 0x80c0d060fc2c4020),
    (0x002e102810087820, 0xe0002810eeb48209),
    (0x000040073015ac02, 0x004021f80c6a51e8),
    (0x082e7ef2140c0200, 0x2011010d0b312800),
    (0x00000e0a06044480, 0x1019311158fb1b25),
    (0x80523c0c0b01000c, 0x0004403374ae3f02),
    (0x0418840221002878, 0x50605b7c5c7c9000),
    (0x381c0e9e0a1c0804, 0x0462f16171214000),
    (0x081e0cbd11410040, 0x0441f2422e3a3230),
    (0x0010281019b86080, 0x7c2e56ee66061808),
];

/// A depth, how many of these positions are searched to it, and how many positions a peer enters from them together, as
/// `bench/search/ordered DEPTH POSITIONS 1` prints it. In the rules' order it would be 29,148, 434,102 and 1,115,517.
const PEERS: [(u8, usize, u64); 3] = [(4, 15, 14_595), (6, 8, 99_610), (8, 2, 148_695)];

/// An ordered search. It says nothing of what it finds, so that a call is cheap to prove.
fn ordered(board: Board, depth: u8) -> Scored
    requires { depth ≤ 12 }
{
    search_ordered_full(board, depth)
}

/// How many positions an ordered search enters from the position with these discs; 2^64 - 1 where they are no board.
fn entered(discs: Discs, depth: u8) -> u64
    requires { depth ≤ 12 }
{
    match Board::new(discs.0, discs.1) {
        Some(board) => ordered(board, depth).visited,
        None => u64::MAX,
    }
}

/// How many positions ordered searches enter from the first so many of the drawn positions, all together.
fn entered_by(count: usize, depth: u8) -> u64
    requires { depth ≤ 12 }
{
    let mut all = 0_u64;
    for discs in DRAWN.iter().take(count) {
        all = all.saturating_add(entered(*discs, depth));
    }
    all
}

/// To depths 4, 6 and 8, an ordered search enters at most 1.1 times as many positions as a peer, whose numbers stand in
/// `PEERS`.
#[test]
fn ordered_searches_enter_few(rt: HostRuntime) {
    for (depth, count, peers) in PEERS {
        let most = peers / 10 * 11;
        holds_at(
            &rt,
            depth as usize,
            entered_by(count, depth.min(12)) <= most,
        );
    }
}
