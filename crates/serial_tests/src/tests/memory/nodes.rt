//! Tests of a cactus stack: a root and its child in a stack of four segments.
ghost use Rattle.std.specs.Prelude.{◌≡◌, None, replicate};
ghost use Rattle.serial_tests.specs.Pairs.{IsPair};

use crate::tests::holds;
use cactus_stack::{NodeNo, Sight, Stack, Words};
use std::process::Abort;
use std::test::Fail;

/// A root and its child.
#[derive(Drop)]
struct Pair {
    root: NodeNo,
    child: NodeNo,
}

/// The root takes two segments, and the child one.
fn open_pair(rt: &impl Abort, stack: &mut Stack) -> Pair
    requires { stack.old ≡ replicate 4 None }
    ensures { IsPair stack.new result.root result.child 20 16 }
{
    let root = stack.open(None, &[1, 2], 20).expect(rt, "four are free");
    let child = stack.open(Some(root), &[7], 16).expect(rt, "two are free");
    Pair { root, child }
}

/// The child grows by a word, which is written.
fn grow_child(rt: &impl Abort, stack: &mut Stack, pair: &Pair)
    requires { IsPair stack.old pair.now.root pair.now.child 20 16 }
    ensures { IsPair stack.new pair.now.root pair.now.child 20 17 }
{
    stack.grow(pair.child, 1).expect(rt, "one is free");
    stack.store(pair.child, 16, 9);
}

/// The root grows to the end of its second segment.
fn grow_root(rt: &impl Abort, stack: &mut Stack, pair: &Pair)
    requires { IsPair stack.old pair.now.root pair.now.child 20 17 }
    ensures { IsPair stack.new pair.now.root pair.now.child 32 17 }
{
    stack.grow(pair.root, 12).expect(rt, "it takes no segment");
}

/// A word more is refused by 1, since no segment is free.
fn grow_root_no_further(rt: &impl Abort, stack: &mut Stack, pair: &Pair)
    requires { IsPair stack.old pair.now.root pair.now.child 32 17 }
    ensures { IsPair stack.new pair.now.root pair.now.child 32 17 }
{
    let refusal = stack.grow(pair.root, 1).err();
    let refusal = refusal.expect(rt, "none is free");
    holds(rt, refusal.number() == 1);
}

/// How many words the root of the two nodes has.
fn root_len(stack: &Stack, pair: &Pair) -> usize
    requires { IsPair stack.now pair.now.root pair.now.child 32 17 }
{
    stack.own(pair.root).len()
}

/// Closes the child of the two nodes.
fn close_child(stack: &mut Stack, pair: &Pair)
    requires { IsPair stack.old pair.now.root pair.now.child 32 17 }
{
    stack.close(pair.child);
}

/// Whether a level has so many words, with this one at a place and none behind its last.
fn is_level(words: Option<Words<'_>>, len: usize, at: usize, word: u64) -> bool {
    match words {
        Some(words) => {
            words.len() == len && words.get(at) == Some(word) && words.get(len).is_none()
        }
        None => false,
    }
}

/// Whether the child's words are seen, and then the root's, and no more.
fn are_levels(sight: &Sight<'_>) -> bool {
    sight.levels() == 2
        && is_level(sight.up(0), 17, 16, 9)
        && is_level(sight.up(0), 17, 0, 7)
        && is_level(sight.up(1), 20, 1, 2)
        && sight.up(2).is_none()
}

/// Whether the child sees its own 17 words and the root's 20 in this stack, and no more.
fn sees_both(stack: &Stack, pair: &Pair) -> bool
    requires { IsPair stack.now pair.now.root pair.now.child 20 17 }
{
    are_levels(&stack.sight(pair.child))
}

/// The child grows beyond its segment into the last one, and both are seen.
fn show_grown_child(rt: &impl Abort, stack: &mut Stack, pair: &Pair)
    requires { IsPair stack.old pair.now.root pair.now.child 20 16 }
    ensures { IsPair stack.new pair.now.root pair.now.child 20 17 }
{
    holds(rt, stack.free_count() == 1);
    grow_child(rt, stack, pair);
    holds(rt, stack.free_count() == 0);
    holds(rt, sees_both(stack, pair));
}

/// The root grows within its segments, and no further; it keeps its 32 words.
fn show_grown_root(rt: &impl Abort, stack: &mut Stack, pair: &Pair)
    requires { IsPair stack.old pair.now.root pair.now.child 20 17 }
    ensures { IsPair stack.new pair.now.root pair.now.child 32 17 }
{
    grow_root(rt, stack, pair);
    holds(rt, stack.free_count() == 0);
    grow_root_no_further(rt, stack, pair);
    holds(rt, root_len(stack, pair) == 32);
}

/// A root and its child in 4 segments of 16 words: both grow, and with the child closed 2 segments are free.
#[test]
fn a_root_and_its_child_in_four_segments(rt: HostRuntime) -> Result<(), Fail> {
    let mut stack = Stack::new(rt.alloc(), 4)?;
    let pair = open_pair(&rt, &mut stack);
    show_grown_child(&rt, &mut stack, &pair);
    show_grown_root(&rt, &mut stack, &pair);
    close_child(&mut stack, &pair);
    holds(&rt, stack.free_count() == 2);
    Ok(())
}
