//! What suffices for a search: how many segments and nodes a tenant with no other search must have left, so that this
//! one is never spent.
ghost use Rattle.std.specs.Prelude.{◌≡◌, ◌≤◌, ◌-◌, ◌^◌, ◌↔◌, IsSome, IfSome, min};
ghost use Rattle.othello_board.specs.Words.{cells};
ghost use Rattle.tenant_quota.specs.Reserves.{IsWithinLimits};
ghost use Rattle.jamboree_core.specs.Enough.{search_nodes, search_segments, board_nodes, board_segments};

use othello_board::Board;
use tenant_quota::Reserve;

/// The most choices of any board.
const MOST_CHOICES: u32 = 56;

/// What a search takes.
#[derive(Clone, Copy)]
struct Needed {
    segments: u32,
    nodes: u32,
}

/// What a search takes at most with so many choices at first, empty squares and plies that open frames. The greatest number
/// stands for itself and for all above it.
fn most_needed(choices: u32, empty: u32, plies: u32) -> Needed
    requires { choices ≤ 56 }
    ensures segments { result.segments ≡ min (search_segments choices empty plies) (2 ^ 32 - 1) }
    ensures nodes { result.nodes ≡ min (search_nodes choices empty plies) (2 ^ 32 - 1) }
{
    if plies == 0 {
        return Needed {
            segments: 1,
            nodes: 1,
        };
    }
    let left = empty.saturating_sub(1);
    let below = most_needed(left.min(MOST_CHOICES), left, plies - 1);
    let searches = (2 * choices).saturating_sub(1);
    let frame = 1 + (12 + choices).div_ceil(16);
    Needed {
        segments: choices.saturating_mul(below.segments).saturating_add(frame),
        nodes: searches.saturating_mul(below.nodes).saturating_add(2),
    }
}

/// The reservation that suffices for a search of this position to this depth, in plies, at this grain: a tenant that has as
/// much left, and no other search, is never told that it is spent, whatever the load. Segments have 16 words of 64 bits,
/// a node is one frame opened. `None` where it is more than one tenant may reserve. (Kuszmaul 1994: the first choice is
/// searched once, each other tested, and searched again where its test fails.)
pub fn enough(board: Board, depth: u8, grain: u8) -> Option<Reserve>
    ensures within { IsSome result ↔ IsWithinLimits (record { segments = board_segments depth grain (cells board); nodes = board_nodes depth grain (cells board) }) }
    ensures value { IfSome result (λ r. r ≡ record { segments = board_segments depth grain (cells board); nodes = board_nodes depth grain (cells board) }) }
{
    let (own, opp) = board.count();
    let empty = 64 - own - opp;
    let choices = empty.min(MOST_CHOICES).min(8 * own.max(opp));
    let plies = depth.saturating_sub(grain).max(1);
    let needed = most_needed(choices, empty, u32::from(plies));
    Reserve::new(needed.segments, needed.nodes)
}
