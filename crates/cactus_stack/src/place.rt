//! What a cactus stack keeps of each node's number: how many words the node has, its parent and its depth.
use crate::node::NodeNo;

/// The place of a number: the length of the node that has it, 1 to 128, that node's parent (None for a root), and how
/// many nodes the path from its root to it has, both counted (1 for a root). Where no node has the number, the length
/// is 0, and the rest means nothing.
#[derive(Clone, Copy, Drop)]
pub struct Place {
    pub(crate) len: u8,
    pub(crate) parent: Option<NodeNo>,
    pub(crate) depth: u32,
}
