//! The history of a desk: its taken steps, which threads share; it exists in proofs alone. And what one maker (whoever
//! took a step: a seat or a badge) knows of it.
//!
//! Behind a lock the contract of a call can't say what the call did to what lies there, as other threads change it too.
//! A [`StepLog`] lies under the lock beside what the steps change: contracts see it as the list of all steps so far, each
//! with the number of the maker who took it. Each maker has a [`Token`] of no bytes: contracts see its number, what
//! it has seen of the history, and the steps that are its own. A token can't be copied or made up, so a call that is given
//! one by `&mut` can say exactly what it did: the history goes on from what the maker had seen, ends with just this step,
//! and has no other step of this maker ([`StepLog::add`]); or the maker has seen it go on without a step of its own
//! ([`StepLog::show`]).
//!
//! At run time nothing is stored of it. The facts are held by one word of an `atomic_table` and its passes: the history's,
//! which knows all entries, and one for each maker. The rule that each step of a pass keeps (`Kept` of `specs/Traces.antt`):
//! there is one history, what each maker has seen is a beginning of it, and all entries of a maker are those that its trace
//! knows. The word is touched only while the caller's lock is held, so it orders nothing by itself. A step and a look cost four
//! loads of it, and [`Opened::new`] the one allocation.
//!
//! Contracts see of a log and of a token too which history it is, its `id`: they fit where that is one. A type that implements
//! [`Naming`] names one history: a [`History`] and a [`Trace`] are a log and a token of just that, and always fit.
//!
//! ```text
//! let mut log = Opened::new(alloc)?.into_log();    // []
//! let mut one = log.begin();                       // maker 0, who has seen [] and made []
//! let mut two = log.begin();                       // maker 1
//! log.add(&mut one, &5);                           // (0, 5)
//! log.add(&mut two, &7);                           // (0, 5), (1, 7): seen by maker 1, of whom 7 is
//! log.show(&mut one);                              // seen by maker 0 too, of whom 5 is
//! ```
ghost use Rattle.std.specs.Prelude.{◌≡◌, ◌∷◌, ◌++◌, ◌<◌, [], true, false};
ghost use mathlib.Core.List.{IsPrefix};
ghost use Rattle.desk.specs.Traces.{own, keeper};

use crate::passes::{Law, Naming, View, begin, give, hold, look, note};
use atomic_table::{Seat as Pass, Table};
use std::alloc::{AllocError, Global};
use std::marker::{Model, PhantomData};

/// The steps so far. Contracts see which history it is, and the steps in order, each with the number of its maker.
#[derive(Drop)]
pub struct StepLog<S> {
    table: Table<S, View<S>, (), Law, Global>,
    keeps: Pass<S, View<S>>,
}

impl<S> Model for StepLog<S> {
    ghost use Rattle.std.specs.Prelude.{◌≡◌, ◌<◌, []};
    ghost use Rattle.desk.specs.Traces.{keeper, StepLogOf};

    ghost Value = { StepLogOf S };

    ghost view = { λ l. record { id = l.table.shared.table_id; entries = l.keeps.me.0.all } };

    ghost invariant = { λ l. (0 < l.table.shared.table_id.words) × (l.keeps.table_id ≡ l.table.shared.table_id) × (l.keeps.me ≡ (keeper l.keeps.me.0.all l.keeps.me.0.made, [])) };
}

/// What one maker of steps knows of the history. Contracts see which history it is, the maker's number, what it has seen of
/// the history, and its own steps. It takes no bytes.
#[derive(Drop)]
pub struct Token<S> {
    pass: Pass<S, View<S>>,
}

impl<S> Model for Token<S> {
    ghost use Rattle.std.specs.Prelude.{◌≡◌, []};
    ghost use Rattle.desk.specs.Traces.{own, sitter, TokenOf};

    ghost Value = { TokenOf S };

    ghost view = { λ t. record { id = t.pass.table_id; known = record { maker = t.pass.me.0.maker; seen = t.pass.me.0.seen; mine = t.pass.me.0.mine } } };

    ghost invariant = { λ t. (t.pass.me ≡ (sitter t.pass.me.0.maker t.pass.me.0.seen t.pass.me.0.mine, [])) × (own t.pass.me.0.maker t.pass.me.0.seen ≡ t.pass.me.0.mine) };
}

impl<S> StepLog<S> {
    /// The token of a new maker, of whom the history has no step. It has seen all of it.
    pub fn begin(&mut self) -> Token<S>
        ensures history { self.new ≡ self.old }
        ensures id { result.id ≡ self.old.id }
        ensures seen { (result.known.seen ≡ self.old.entries) × (result.known.mine ≡ []) }
        ensures fresh { own result.known.maker self.old.entries ≡ [] }
    {
        let StepLog { table, keeps } = self;
        begin(&table.shared, keeps);
        Token {
            pass: give(&table.shared, keeps),
        }
    }

    /// Adds a step of this maker, who has then seen all of the history. Until now the maker had seen a beginning of it, and
    /// all its steps in it were those that it knew.
    #[tactic(auto, using(crate::proofs::Keeping::own_more))]
    pub fn add(&mut self, token: &mut Token<S>, step: &S)
        requires { token.old.id ≡ self.old.id }
        ensures history { self.new ≡ record self.old { entries = self.old.entries ++ (token.old.known.maker, step.now) ∷ [] } }
        ensures id { token.new.id ≡ self.old.id }
        ensures seen { IsPrefix token.old.known.seen self.old.entries }
        ensures own { own token.old.known.maker self.old.entries ≡ token.old.known.mine }
        ensures token { token.new.known ≡ record { maker = token.old.known.maker; seen = self.new.entries; mine = token.old.known.mine ++ step.now ∷ [] } }
    {
        let StepLog { table, keeps } = self;
        hold(&table.shared, keeps, &mut token.pass);
        note(&table.shared, keeps, step);
        token.pass = give(&table.shared, keeps);
    }

    /// Lets a maker see all of the history. It had seen a beginning of it, and all its steps in it are those that it knew.
    pub fn show(&mut self, token: &mut Token<S>)
        requires { token.old.id ≡ self.old.id }
        ensures history { self.new ≡ self.old }
        ensures id { token.new.id ≡ self.old.id }
        ensures seen { IsPrefix token.old.known.seen self.old.entries }
        ensures own { own token.old.known.maker self.old.entries ≡ token.old.known.mine }
        ensures token { token.new.known ≡ record { maker = token.old.known.maker; seen = self.old.entries; mine = token.old.known.mine } }
    {
        let StepLog { table, keeps } = self;
        hold(&table.shared, keeps, &mut token.pass);
        look(&table.shared, keeps);
        token.pass = give(&table.shared, keeps);
    }
}

impl<S> Token<S> {
    /// Tells the prover that a maker's own steps in the history that it has seen are just those that it knows as its
    /// own.
    pub fn recall(&self)
        ensures { own self.now.known.maker self.now.known.seen ≡ self.now.known.mine }
    {
        let _ = &self.pass;
    }
}

/// A history without an entry. Contracts see which it is.
#[derive(Drop)]
pub struct Opened<S> {
    log: StepLog<S>,
}

impl<S> Model for Opened<S> {
    ghost use Rattle.std.specs.Prelude.{◌≡◌, []};
    ghost use Rattle.atomic_table.specs.Seated.{TableId};

    ghost Value = { TableId };

    ghost view = { λ o. o.log.id };

    ghost invariant = { λ o. o.log.entries ≡ [] };
}

impl<S> Opened<S> {
    /// A new history. It takes one word of memory, and an error means that this was refused.
    pub fn new(alloc: Global) -> Result<Opened<S>, AllocError> {
        let (table, keeps) = Table::of_words(alloc, &[0], &())?;
        Ok(Opened {
            log: StepLog { table, keeps },
        })
    }

    /// The history, to which steps can be added.
    pub fn into_log(self) -> StepLog<S>
        ensures { result ≡ record { id = self; entries = [] } }
    {
        self.log
    }
}

/// The history of this name. Contracts see its steps in order, each with the number of its maker.
#[derive(Drop)]
pub struct History<S, J: Naming> {
    pub(crate) log: StepLog<S>,
    pub(crate) of: PhantomData<J>,
}

impl<S, J: Naming> Model for History<S, J> {
    ghost use Rattle.std.specs.Prelude.{◌≡◌, ℕ, List};

    ghost Value = { List (ℕ × S) };

    ghost view = { λ h. h.log.entries };

    ghost invariant = { λ h. h.log.id ≡ J.table };
}

/// What one maker of steps knows of the history of this name. Contracts see the maker's number, what it has seen of the
/// history, and its own steps. It takes no bytes.
#[derive(Drop)]
pub struct Trace<S, J: Naming> {
    pub(crate) token: Token<S>,
    pub(crate) of: PhantomData<J>,
}

impl<S, J: Naming> Model for Trace<S, J> {
    ghost use Rattle.std.specs.Prelude.{◌≡◌};
    ghost use Rattle.desk.specs.Traces.{Known};

    ghost Value = { Known S };

    ghost view = { λ t. t.token.known };

    ghost invariant = { λ t. t.token.id ≡ J.table };
}

impl<S, J: Naming> History<S, J> {
    /// Lets a maker see all of the history. It had seen a beginning of it, and all its steps in it are those that it knew.
    pub fn show(&mut self, trace: &mut Trace<S, J>)
        ensures history { self.new ≡ self.old }
        ensures seen { IsPrefix trace.old.seen self.old }
        ensures own { own trace.old.maker self.old ≡ trace.old.mine }
        ensures trace { trace.new ≡ record { maker = trace.old.maker; seen = self.old; mine = trace.old.mine } }
    {
        self.log.show(&mut trace.token);
    }
}
