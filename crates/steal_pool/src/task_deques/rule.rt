//! The rule of a pool's deque of tasks, and what each kind of step changes in what a seat knows.
//!
//! A deque has seats: its owner's, and one for each of its thieves. What a seat knows is its [`Tally`].
//! The rule, [`EachOnce`], ties the tallies of all seats to the tasks that the deque holds: these and
//! the tasks that all seats took are the tasks that were pushed, each as often (`specs/Tallies.antt`).
//! A step changes the tally of the one seat that steps: a push that of the owner, a pop that of the
//! owner, a steal that of its thief.
//!
//! A seat has parts of the right to know the whole. The owner begins with all of them, and a thief's
//! seat is cut off with one. A seat that is joined to the owner's again is spent: its parts and its
//! tally are carried on by the owner's, and with all parts the owner knows what is left.
ghost use Rattle.std.specs.Prelude.{◌≡◌, ℕ, ◌+◌, ◌-◌, [], ◌++◌};
ghost use Rattle.jamboree_rules.specs.declared.pool_rules.task.Task.{Task};
ghost use Rattle.steal_pool.specs.task_deques.Tallies.{tally, weigh, IsEmptied, IsEachOnce};

use crossbeam_deque::protocol::{Join, Lesson, Outcome, Protocol, Split};
use crossbeam_deque::{Pass, Stealer, Worker};
use jamboree_rules::pool_rules::Task;
use std::collections::LinkedList;

/// What a seat knows: its parts of the right to know the whole deque, and the tasks that it pushed and took. Only
/// contracts use it: no value of it is ever made.
pub struct Tally {
    /// How many of the deque's 64 parts it has.
    pub parts: u64,
    /// The tasks that it pushed, the first one first.
    pub pushed: LinkedList<Task>,
    /// The tasks that it took, the first one first.
    pub taken: LinkedList<Task>,
}

/// The rule of a deque: what all its seats pushed is what they took and what the deque holds, each task as often.
pub struct EachOnce;

impl Protocol<Task, Tally> for EachOnce {
    ghost holds = { IsEachOnce };

    ghost first = { tally 64 [] [] };

    ghost guest = { tally 0 [] [] };
}

/// A push: the seat has pushed one task more.
pub(crate) struct Pushed;

impl Outcome<Task, Tally> for Pushed {
    ghost then = { λ v xs w. w ≡ tally v.parts (v.pushed ++ xs) v.taken };
}

/// A steal: the seat has taken one task more.
pub(crate) struct Taken;

impl Outcome<Task, Tally> for Taken {
    ghost then = { λ v xs w. w ≡ tally v.parts v.pushed (v.taken ++ xs) };
}

/// A pop: the seat has taken one task more. A seat with all parts that finds nothing knows that all that
/// was pushed was taken.
pub(crate) struct Popped;

impl Outcome<Task, Tally> for Popped {
    ghost then = { λ v xs w. w ≡ tally v.parts v.pushed (v.taken ++ xs) };

    ghost empty = { λ v. v.parts ≡ 64 → IsEmptied v };
}

/// How tallies are split and joined: a new seat is cut off with one part and no tasks, and a seat that is joined to
/// another adds its parts and tasks to the other's.
pub(crate) struct Part;

impl Split<Tally> for Part {
    ghost left = { λ v. tally (v.parts - 1) v.pushed v.taken };

    ghost right = { λ v. tally 1 [] [] };
}

impl Join<Tally> for Part {
    ghost both = { λ v w. tally (v.parts + w.parts) (v.pushed ++ w.pushed) (v.taken ++ w.taken) };

    ghost spent = { tally 0 [] [] };
}

/// What a seat with all 64 parts learns of the tasks that its deque holds: with those taken they are all that was
/// pushed.
pub(crate) struct Whole;

impl Lesson<Task, Tally> for Whole {
    ghost fact = { λ v items. v.parts ≡ 64 → (h : Task → ℕ) → weigh h v.pushed ≡ weigh h v.taken + weigh h items };
}

/// The owner's end of a deque.
pub(crate) type OwnerEnd<A> = Worker<Task, A, Tally, EachOnce>;

/// A thief's end of a deque.
pub(crate) type ThiefEnd<A> = Stealer<Task, A, Tally, EachOnce>;

/// The seat of a thief's end.
pub(crate) type DequeSeat<A> = Pass<Task, Tally, A>;
