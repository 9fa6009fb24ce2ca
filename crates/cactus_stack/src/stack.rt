//! The cactus stack: nodes with words, opened under one another, grown, written and closed.
ghost use Rattle.std.specs.Prelude.{◌≡◌, ◌≢◌, ◌↔◌, ◌+◌, ◌<◌, ◌≤◌, ℕ, ◌++◌, length, replicate, Some, None, IfSome, IfOk, OnOk, OnErr, IsErr, slice_set, All, AllPairs};
ghost use Rattle.cactus_stack.specs.Nodes.{Node, IsOpen, IsUnused, HasNoChild, HasAllChildren, IsSight, with_node, with_node_words, without, node_words, node_parent, padded, charge, growth_charge, total_charge, free_segments, segment_count};
ghost use Rattle.cactus_stack.specs.Places.{nodes_from, with_len, AreStored};

use crate::chain::{fresh_chain, give_chain, grow_chain, segment_after};
use crate::charges::charge;
use crate::node::{NoSegment, NodeNo};
use crate::place::Place;
use crate::sight::Sight;
use crate::view::StackView;
use crate::words::Words;
use segment_region::Region;
use std::alloc::{AllocError, Allocator, Global};
use std::marker::Model;

/// A cactus stack: nodes of 1 to 128 words, each a root or under a parent that is open. The words of a node stand in a
/// chain of segments of 16 words, and its number is that of the first. `places` has the place of each number.
#[derive(Drop)]
pub struct Stack<A: Allocator = Global> {
    region: Region<A>,
    places: Vec<Place, A>,
}

impl<A: Allocator> Model for Stack<A> {
    ghost use Rattle.cactus_stack.specs.Nodes.{Nodes};

    ghost Value = { Nodes };

    ghost use Rattle.cactus_stack.specs.Places.{nodes_from, IsStack};

    ghost view = { λ stack. nodes_from stack.region 0 stack.places.items };

    ghost invariant = { λ stack. IsStack stack.region stack.places.items };
}

/// Gives the segments of a node back, and its number.
fn free<A: Allocator>(region: &mut Region<A>, places: &mut Vec<Place, A>, node: NodeNo)
    requires stored { AreStored region.old places.old.items }
    requires is_open { IsOpen (nodes_from region.old 0 places.old.items) node }
    ensures stored { AreStored region.new places.new.items }
    ensures closed { nodes_from region.new 0 places.new.items ≡ with_node (nodes_from region.old 0 places.old.items) node None }
    ensures length_alone { places.new.items ≡ with_len places.old.items node 0 }
{
    let at = node.first().index();
    let count = charge(places[at].len as usize);
    give_chain(region, Some(node.first()), count);
    places[at].len = 0;
}

impl<A: Allocator> Stack<A> {
    /// A stack with no node and so many free segments of 16 words, 1 to 65,536. `AllocError` only where memory is
    /// refused.
    pub fn new(alloc: A, segments: usize) -> Result<Stack<A>, AllocError>
    where
        A: Clone,
        requires some { 1 ≤ segments }
        requires in_limits { segments ≤ 65536 }
        ensures { IfOk result (λ stack. stack ≡ replicate segments None) }
    {
        let region = Region::new(alloc.clone()?, segments)?;
        let nowhere = Place {
            len: 0,
            parent: None,
            depth: 0,
        };
        let places = vec![in alloc; nowhere; segments]?;
        Ok(Stack { region, places })
    }

    /// Opens a node of `size` words, 1 to 128, under an open parent or as a root: the given words first, then zeros.
    /// Returns its number. `NoSegment` where fewer segments are free than its words take; nothing has changed then.
    pub fn open(
        &mut self,
        parent: Option<NodeNo>,
        words: &[u64],
        size: usize,
    ) -> Result<NodeNo, NoSegment>
        requires parent_is_open { IfSome parent (IsOpen self.old) }
        requires some { 1 ≤ size }
        requires in_limits { size ≤ 128 }
        requires room { length words.now ≤ size }
        ensures was_unused { IfOk result (IsUnused self.old) }
        ensures opened { IfOk result (λ node. self.new ≡ with_node self.old node (Some (record { parent = parent; words = padded words.now size }))) }
        ensures refused { IsErr result ↔ (free_segments self.old < charge size) }
        ensures unchanged { OnErr result (self.new ≡ self.old) }
    {
        let depth = match parent {
            Some(node) => self.places[node.first().index()].depth + 1,
            None => 1,
        };
        let count = charge(size);
        if self.region.free_count() < count {
            return Err(NoSegment);
        }
        match fresh_chain(&mut self.region, words, count) {
            Some(first) => {
                let len = size as u8;
                self.places[first.index()] = Place { len, parent, depth };
                Ok(NodeNo::of_segment(first))
            }
            None => unreachable!(),
        }
    }

    /// Appends so many zero words to a node, up to 128 in all. `NoSegment` where fewer segments are free than that
    /// takes; nothing has changed then.
    pub fn grow(&mut self, node: NodeNo, more: usize) -> Result<(), NoSegment>
        requires is_open { IsOpen self.old node }
        requires in_limits { length (node_words self.old node) + more ≤ 128 }
        ensures grown { OnOk result (self.new ≡ with_node_words self.old node (node_words self.old node ++ replicate more 0)) }
        ensures refused { IsErr result ↔ (free_segments self.old < growth_charge (length (node_words self.old node)) more) }
        ensures unchanged { OnErr result (self.new ≡ self.old) }
    {
        let at = node.first().index();
        let len = self.places[at].len as usize;
        let count = charge(len);
        let added = charge(len + more) - count;
        if self.region.free_count() < added {
            return Err(NoSegment);
        }
        grow_chain(&mut self.region, node.first(), count, added);
        self.places[at].len = (len + more) as u8;
        Ok(())
    }

    /// Overwrites the word at place `at` of a node, counted from 0.
    pub fn store(&mut self, node: NodeNo, at: usize, word: u64)
        requires is_open { IsOpen self.old node }
        requires in_bounds { at < length (node_words self.old node) }
        ensures { self.new ≡ with_node_words self.old node (slice_set (node_words self.old node) at word) }
    {
        let segment = segment_after(&self.region.view(), node.first(), at / 16);
        self.region.words_mut(segment)[at % 16] = word;
    }

    /// The words of one of the stack's open nodes.
    pub fn own(&self, node: NodeNo) -> Words<'_>
        requires { IsOpen self.now node }
        ensures { result ≡ node_words self.now node }
    {
        self.view().own(node)
    }

    /// What a node sees: its own words, its parent's, and so on to its root's.
    pub fn sight(&self, node: NodeNo) -> Sight<'_>
        requires { IsOpen self.now node }
        ensures { IsSight self.now (Some node) result }
    {
        let depth = self.places[node.first().index()].depth as usize;
        Sight::of(self.view(), node, depth)
    }

    /// Borrows the nodes for reading only.
    pub(crate) fn view(&self) -> StackView<'_>
        ensures { result ≡ self.now }
    {
        StackView::of(self.region.view(), &self.places)
    }

    /// Closes a node that has no open child. Its segments are free then, and a new node may get its number.
    #[inline(always)]
    pub fn close(&mut self, node: NodeNo)
        requires is_open { IsOpen self.old node }
        requires no_child { HasNoChild self.old node }
        ensures { self.new ≡ with_node self.old node None }
    {
        free(&mut self.region, &mut self.places, node);
    }

    /// Closes all these nodes, whose segments are free then. They stand in any order, each once, and all open
    /// children of each are among them.
    pub fn close_all(&mut self, nodes: &[NodeNo])
        requires are_open { All (IsOpen self.old) nodes.now }
        requires once { AllPairs ◌≢◌ nodes.now }
        requires with_children { HasAllChildren self.old nodes.now }
        ensures { self.new ≡ without self.old nodes.now }
    {
        for node in nodes {
            free(&mut self.region, &mut self.places, *node);
        }
    }

    /// For proofs alone: each open node has 1 to 128 words. The call does nothing.
    pub fn sizes_are_in_limits(&self)
        ensures some { (n : ℕ) → IsOpen self.now n → 1 ≤ length (node_words self.now n) }
        ensures at_most { (n : ℕ) → IsOpen self.now n → length (node_words self.now n) ≤ 128 }
    {
        // This read makes the invariant known to the prover.
        let _places = &self.places;
    }

    /// How many segments are free: all but what the open nodes take.
    pub fn free_count(&self) -> usize
        ensures { result + total_charge self.now ≡ segment_count self.now }
    {
        self.region.free_count()
    }
}
