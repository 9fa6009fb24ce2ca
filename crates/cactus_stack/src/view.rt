//! What is read of a cactus stack through a `&` to it, whatever allocator it has.
ghost use Rattle.std.specs.Prelude.{◌≡◌};
ghost use Rattle.cactus_stack.specs.Nodes.{IsOpen, node_words, node_parent};
ghost use Rattle.cactus_stack.specs.Places.{nodes_from, IsStack};

use crate::node::NodeNo;
use crate::place::Place;
use crate::words::Words;
use segment_region::RegionView;
use std::marker::Model;

/// The nodes of a stack, borrowed for reading only. Contracts see them as they see `Stack`.
#[derive(Drop)]
pub struct StackView<'a> {
    region: RegionView<'a>,
    places: &'a [Place],
}

impl<'a> Model for StackView<'a> {
    ghost use Rattle.cactus_stack.specs.Nodes.{Nodes};

    ghost Value = { Nodes };

    ghost use Rattle.cactus_stack.specs.Places.{nodes_from, IsStack};

    ghost view = { λ stack. nodes_from stack.region 0 stack.places.now };

    ghost invariant = { λ stack. IsStack stack.region stack.places.now };
}

impl<'a> StackView<'a> {
    /// A view for reading of a stack of nodes: its words are in this region, and these are the places of its nodes.
    pub fn of(region: RegionView<'a>, places: &'a [Place]) -> StackView<'a>
        requires { IsStack region places.now }
        ensures { result ≡ nodes_from region.entry 0 places.now }
    {
        StackView { region, places }
    }

    /// The words of one of the stack's open nodes.
    pub fn own(&self, node: NodeNo) -> Words<'a>
        requires { IsOpen self.now node }
        ensures { result ≡ node_words self.now node }
    {
        let first = node.first();
        let at = first.index();
        let len = self.places[at].len as usize;
        Words::of(self.region.view(), first, len)
    }

    /// The node that a node was opened under; None for a root.
    pub fn parent(&self, node: NodeNo) -> Option<NodeNo>
        requires { IsOpen self.now node }
        ensures { result ≡ node_parent self.now node }
    {
        let at = node.first().index();
        self.places[at].parent
    }
}
