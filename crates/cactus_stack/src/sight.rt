//! What a node sees of its cactus stack: its own words and those of each parent above it.
ghost use Rattle.std.specs.Prelude.{◌≡◌, length, slice_get, Some};
ghost use Rattle.cactus_stack.specs.Nodes.{IsSight};
ghost use Rattle.cactus_stack.specs.Places.{sight_within, IsWholeSight};

use crate::node::NodeNo;
use crate::view::StackView;
use crate::words::Words;
use std::marker::Model;

/// The words of a node and of its ancestors, nearest first. Contracts see them as a list of lists.
#[derive(Drop)]
pub struct Sight<'a> {
    stack: StackView<'a>,
    node: NodeNo,
    levels: usize,
}

impl<'a> Model for Sight<'a> {
    ghost use Rattle.std.specs.Prelude.{List, ℕ, Some};

    ghost Value = { List (List ℕ) };

    ghost use Rattle.cactus_stack.specs.Places.{sight_within, IsWholeSight};

    ghost view = { λ sight. sight_within sight.levels sight.stack (Some sight.node) };

    ghost invariant = { λ sight. IsWholeSight sight.stack sight.node sight.levels };
}

impl<'a> Sight<'a> {
    /// The sight of a node that has exactly this many levels.
    pub(crate) fn of(stack: StackView<'a>, node: NodeNo, levels: usize) -> Sight<'a>
        requires { IsWholeSight stack node levels }
        ensures { result ≡ sight_within levels stack.entry (Some node) }
    {
        Sight {
            stack,
            node,
            levels,
        }
    }

    /// How many levels there are: the node's own and one for each ancestor.
    pub fn levels(&self) -> usize
        ensures { result ≡ length self.now }
    {
        let Sight { levels, .. } = self;
        *levels
    }

    /// The words at a level, 0 being the node's own and 1 its parent's, or None where there is no
    /// such level. It goes up one parent for each level.
    pub fn up(&self, level: usize) -> Option<Words<'a>>
        ensures { result ≡ slice_get self.now level }
    {
        if level >= self.levels {
            return None;
        }
        let mut node = self.node;
        for _above in 0..level {
            match self.stack.parent(node) {
                Some(parent) => node = parent,
                None => unreachable!(),
            }
        }
        Some(self.stack.own(node))
    }
}
