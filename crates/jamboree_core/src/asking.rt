//! The step that asks the core for a search.
ghost use Rattle.std.specs.Prelude.{◌≡◌, ◌≤◌};
ghost use Rattle.sched_rules.specs.declared.step.StepOf.TheVariants.{Submit};
ghost use Rattle.jamboree_rules.specs.declared.leaf.LeafAnswer.{LeafAnswer};
ghost use Rattle.jamboree_rules.specs.Places.{root_words as words_of_root, frame_size};
ghost use Rattle.jamboree_core.specs.Replies.{IsSearch};

use jamboree::{Jamboree, root_words};
use othello_board::position_text::Position;
use othello_moves::DEEPEST;
use sched_rules::{GivenWords, Step, StepOf};

/// The size of a root, in words.
const SIZE: usize = 12;

/// The step by which a tenant asks for the search of a position to a depth of 0 to 12 plies.
pub fn submit(tenant: u64, position: &Position, depth: u8) -> Step<Jamboree>
    requires { depth ≤ DEEPEST }
    ensures step { result ≡ Submit tenant (words_of_root position.now.board.own position.now.board.opp depth) frame_size }
    ensures search { IsSearch {A = LeafAnswer} result }
{
    let words = root_words(position, depth);
    match GivenWords::new(&words) {
        Some(given) => StepOf::Submit(tenant, given, SIZE),
        None => unreachable!(),
    }
}
