//! The numbers of a cactus stack's nodes, and the stack's only refusal.
use segment_region::SegNo;
use std::marker::Model;

/// The number of an open node. A number may be used again once its node is closed.
#[derive(Clone, Copy, PartialEq, Eq, Debug, Drop)]
pub struct NodeNo {
    first: SegNo,
}

impl Model for NodeNo {
    ghost use Rattle.std.specs.Prelude.{ℕ};

    ghost Value = { ℕ };

    ghost view = { λ node. node.first };

    ghost inverse = { λ number. record { first = number } };
}

impl NodeNo {
    ghost use Rattle.std.specs.Prelude.{◌≡◌};

    /// The node whose first segment this is.
    pub(crate) fn of_segment(first: SegNo) -> NodeNo
        ensures { result ≡ first }
    {
        NodeNo { first }
    }

    /// The first segment of the node's words. Its number is the node's.
    pub(crate) fn first(self) -> SegNo
        ensures { result ≡ self }
    {
        self.first
    }
}

/// The refusal of a stack: fewer segments are free than are asked for. Nothing has changed.
#[derive(Clone, Copy, PartialEq, Eq, Debug, Drop)]
pub struct NoSegment;

impl NoSegment {
    ghost use Rattle.std.specs.Prelude.{◌≡◌};

    /// The number of the refusal: 1, as a stack has no other.
    pub fn number(self) -> u8
        ensures { result ≡ 1 }
    {
        1
    }
}
