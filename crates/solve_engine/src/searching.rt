//! The search of a position of `solve` by a core of its own.
ghost use Rattle.std.specs.Prelude.{◌≡◌, ◌≤◌, IfOk};
ghost use Rattle.othello_board.specs.Words.{cells};
ghost use Rattle.othello_eval.specs.Minimax.{minimax, best_choice};
ghost use Rattle.jamboree_core.specs.jamboree_rules.Places.{root_words};
ghost use Rattle.solve_engine.specs.Found.{IsFoundBy};

use crate::found::Searched;
use crate::job::{admit, answer_in, ask};
use crate::worker::work;
use jamboree_core::jamboree::Jamboree;
use jamboree_core::sched_core::{Config, Core};
use othello_board::position_text::Position;
use othello_moves::DEEPEST;
use std::alloc::{AllocError, Allocator};
use tenant_quota::Reserve;

/// The segments of the core, all of them the tenant's.
const SEGMENTS: u32 = 4096;

/// The nodes of the core, all of them the tenant's.
const NODES: u32 = 65_536;

/// The most turns of the worker: more than the steps of the tenant, which are 16 for each node.
const MOST_TURNS: u32 = 16 * NODES + 16;

/// Searches the position to the depth, 0 to 12 plies, as one job of a core that is made for it and dropped after it.
/// Frames of a remaining depth of at most `grain`, 0 to 6, are searched serially; value and choice don't depend on it.
///
/// It fails only where memory was refused: the core's own or that of its tenant's admission.
pub fn solve_by_core<A: Allocator + Clone>(
    alloc: A,
    position: &Position,
    depth: u8,
    grain: u8,
) -> Result<Searched, AllocError>
    requires shallow { depth ≤ DEEPEST }
    requires fine { grain ≤ 6 }
    ensures value { IfOk result (λ found. found.answer.value ≡ minimax depth (cells position.now.board)) }
    ensures choice { IfOk result (λ found. found.answer.choice ≡ best_choice depth (cells position.now.board)) }
    ensures found { IfOk result (λ found.
        IsFoundBy grain (record { segments = 4096; nodes = 65536 }) (root_words position.now.board.own position.now.board.opp depth) found) }
{
    let reserve = Reserve::new(SEGMENTS, NODES).unwrap();
    search_within(alloc, position, depth, grain, reserve)
}

/// Searches the position to the depth as [`solve_by_core`] does, in a core of the segments and nodes of
/// `reserve`, all of them its tenant's. Where they don't suffice the job is spent, and the answer is that of one
/// serial search: value and choice are the same. It fails only where memory was refused.
pub fn search_within<A: Allocator + Clone>(
    alloc: A,
    position: &Position,
    depth: u8,
    grain: u8,
    reserve: Reserve,
) -> Result<Searched, AllocError>
    requires shallow { depth ≤ DEEPEST }
    requires fine { grain ≤ 6 }
    ensures found { IfOk result (λ found. IsFoundBy grain reserve (root_words position.now.board.own position.now.board.opp depth) found) }
    ensures value { IfOk result (λ found. found.answer.value ≡ minimax depth (cells position.now.board)) }
    ensures choice { IfOk result (λ found. found.answer.choice ≡ best_choice depth (cells position.now.board)) }
{
    let config = Config::new(reserve.segments(), reserve.nodes()).unwrap();
    let mut core = Core::new(alloc, config, Jamboree { grain })?;
    admit(&mut core, reserve)?;
    ask(&mut core, position, depth);
    let core = work(core, MOST_TURNS);
    Ok(answer_in(&core, position, depth))
}
