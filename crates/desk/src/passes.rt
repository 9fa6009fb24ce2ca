//! The passes by which threads share a desk's history, kept in a table that exists in proofs alone, and what a step
//! does to them.
ghost use Rattle.std.specs.Prelude.{◌≡◌, ◌<◌, [], true, false, ℕ};
ghost use Rattle.desk.specs.Traces.{own, keeper, sitter, holding, bare, given, noted, noted_if, begun, IsTrue};

use atomic_table::{Join, Play, Seat as Pass, Shared, Split, TableRule};
use std::collections::LinkedList;
use std::marker::{Brand, PhantomData};

/// A type that stands for one history.
pub trait Naming {
    ghost use Rattle.atomic_table.specs.Seated.{TableId};

    /// The table whose passes know the history.
    ghost table: { TableId };
}

// So that a call may pass `Brand` for the name. The proof of that call then chooses the table; the one here isn't used.
impl Naming for Brand {
    ghost use Rattle.desk.specs.Traces.{no_table};

    ghost table = { no_table };
}

/// What a pass knows; no value of it is ever made. The history's pass (`keeps`) knows all entries and how many makers there
/// are. A maker's (`sits`) knows its number, what it has seen, and its own steps. While a maker calls, the history's pass
/// holds what the maker's knew.
pub struct View<S> {
    pub keeps: bool,
    pub all: LinkedList<(u64, S)>,
    pub made: u64,
    pub sits: bool,
    pub maker: u64,
    pub seen: LinkedList<(u64, S)>,
    pub mine: LinkedList<S>,
}

/// The rule that the passes keep.
pub struct Law;

impl<S> TableRule<S, View<S>, ()> for Law {
    ghost use Rattle.std.specs.Prelude.{[]};
    ghost use Rattle.desk.specs.Traces.{keeper, Kept};

    ghost holds = { λ _. Kept };

    ghost first = { λ _. keeper [] 0 };
}

/// A type that stands for what a step of the history's pass notes.
trait Noted<S> {
    ghost use mathlib.Core.Option.{Option};

    // The maker's step; none where only what the pass holds is seen to be true.
    ghost step: { Option S };
}

// So that a call of `note_as` may pass `Brand`. The proof of that call chooses the step that it stands for.
impl<S> Noted<S> for Brand {
    ghost use mathlib.Core.Option.{none};

    ghost step = { none };
}

/// Stands for no step.
struct Nothing;

impl<S> Noted<S> for Nothing {
    ghost use mathlib.Core.Option.{none};

    ghost step = { none };
}

/// A step of the history's pass by which an entry is noted, or only what it holds is seen to be true.
struct Noting<N>(PhantomData<N>);

impl<S, N: Noted<S>> Play<S, View<S>> for Noting<N> {
    ghost use Rattle.desk.specs.Traces.{Notes};

    ghost then = { λ _. Notes N.step };
}

/// A step of the history's pass by which there is a new maker.
struct Beginning;

impl<S> Play<S, View<S>> for Beginning {
    ghost use Rattle.desk.specs.Traces.{Begins};

    ghost then = { Begins };
}

/// A maker's pass gives all that it knows.
struct AllKnown;

impl<S> Split<View<S>> for AllKnown {
    ghost use Rattle.desk.specs.Traces.{nobody};

    ghost left = { λ v. nobody };

    ghost right = { λ v. v };
}

/// The history's pass takes in what a maker's knew, and gives it back.
struct Held;

impl<S> Join<View<S>> for Held {
    ghost use Rattle.desk.specs.Traces.{holding, nobody};

    ghost both = { holding };

    ghost spent = { nobody };
}

impl<S> Split<View<S>> for Held {
    ghost use Rattle.desk.specs.Traces.{bare, given};

    ghost left = { bare };

    ghost right = { given };
}

/// The steps of the table.
pub(crate) type Cells<S> = Shared<S, View<S>, (), Law>;

/// The history's pass takes in what the pass of a maker (a seat or a badge) knows.
pub(crate) fn hold<S>(cells: &Cells<S>, keeps: &mut Pass<S, View<S>>, pass: &mut Pass<S, View<S>>)
    requires table { (keeps.old.table_id ≡ cells.now.table_id) × (pass.old.table_id ≡ keeps.old.table_id) × (0 < cells.now.table_id.words) }
    requires keeps { keeps.old.me ≡ (keeper keeps.old.me.0.all keeps.old.me.0.made, []) }
    requires pass { pass.old.me ≡ (sitter pass.old.me.0.maker pass.old.me.0.seen pass.old.me.0.mine, []) }
    ensures table { (keeps.new.table_id ≡ keeps.old.table_id) × (pass.new.table_id ≡ pass.old.table_id) }
    ensures keeps { keeps.new.me ≡ (holding keeps.old.me.0 pass.old.me.0, []) }
{
    let whole = cells.split_seat::<AllKnown>(pass);
    cells.join_seat::<Held>(keeps, whole);
}

/// Notes a step of the maker whose pass the history's holds.
pub(crate) fn note<S>(cells: &Cells<S>, keeps: &mut Pass<S, View<S>>, step: &S)
    requires table { (keeps.old.table_id ≡ cells.now.table_id) × (0 < cells.now.table_id.words) }
    requires keeps { (keeps.old.me.0.keeps ≡ true) × (keeps.old.me.0.sits ≡ true) }
    ensures table { keeps.new.table_id ≡ keeps.old.table_id }
    ensures keeps { keeps.new.me ≡ (noted step.now keeps.old.me.0, keeps.old.me.1) }
    ensures known { IsTrue keeps.old.me.0.all keeps.old.me.0 }
{
    note_as::<S, Brand>(cells, keeps, step);
}

/// Notes the step that `N` stands for. Nothing is done with the step that is handed on: it is there for a proof to name.
fn note_as<S, N: Noted<S>>(cells: &Cells<S>, keeps: &mut Pass<S, View<S>>, _step: &S)
    requires table { (keeps.old.table_id ≡ cells.now.table_id) × (0 < cells.now.table_id.words) }
    requires keeps { (keeps.old.me.0.keeps ≡ true) × (keeps.old.me.0.sits ≡ true) }
    ensures table { keeps.new.table_id ≡ keeps.old.table_id }
    ensures keeps { keeps.new.me ≡ (noted_if N.step keeps.old.me.0, keeps.old.me.1) }
    ensures known { IsTrue keeps.old.me.0.all keeps.old.me.0 }
{
    cells.load::<Noting<N>>(keeps, 0);
}

/// Tells that what the history's pass holds is true.
pub(crate) fn look<S>(cells: &Cells<S>, keeps: &mut Pass<S, View<S>>)
    requires table { (keeps.old.table_id ≡ cells.now.table_id) × (0 < cells.now.table_id.words) }
    requires keeps { keeps.old.me.0.keeps ≡ true }
    ensures table { keeps.new.table_id ≡ keeps.old.table_id }
    ensures keeps { keeps.new.me ≡ keeps.old.me }
    ensures known { IsTrue keeps.old.me.0.all keeps.old.me.0 }
{
    cells.load::<Noting<Nothing>>(keeps, 0);
}

/// There is one maker (a seat or a badge) more, whose pass the history's pass takes in.
pub(crate) fn begin<S>(cells: &Cells<S>, keeps: &mut Pass<S, View<S>>)
    requires table { (keeps.old.table_id ≡ cells.now.table_id) × (0 < cells.now.table_id.words) }
    requires keeps { (keeps.old.me.0.keeps ≡ true) × (keeps.old.me.0.sits ≡ false) }
    ensures table { keeps.new.table_id ≡ keeps.old.table_id }
    ensures keeps { keeps.new.me ≡ (begun keeps.old.me.0, keeps.old.me.1) }
    ensures fresh { own keeps.old.me.0.made keeps.old.me.0.all ≡ [] }
{
    cells.load::<Beginning>(keeps, 0);
}

/// Gives a maker its pass out of the history's pass: the maker then knows all steps so far.
pub(crate) fn give<S>(cells: &Cells<S>, keeps: &mut Pass<S, View<S>>) -> Pass<S, View<S>>
    requires table { (keeps.old.table_id ≡ cells.now.table_id) × (0 < cells.now.table_id.words) }
    requires keeps { (keeps.old.me.0.keeps ≡ true) × (keeps.old.me.0.sits ≡ true) }
    ensures table { (keeps.new.table_id ≡ keeps.old.table_id) × (result.table_id ≡ keeps.old.table_id) }
    ensures keeps { keeps.new.me ≡ (bare keeps.old.me.0, keeps.old.me.1) }
    ensures pass { result.me ≡ (given keeps.old.me.0, []) }
{
    cells.split_seat::<Held>(keeps)
}
