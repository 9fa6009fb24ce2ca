//! The player of texts: a list of steps on a core.
use crate::agreement::{Agreement, Done};
use crate::answered::draw_answer;
use crate::looks::{draw_look, read_look};
use crate::plain_core::{Counting, foretell, step as do_step};
use crate::reading::{may_call_allocator, read_step};
use crate::scenes::Row;
use crate::values::{DrawnInput, FromWords};
use sched_core::{Procedure, Step, StepOf};
use std::alloc::{AllocError, Global};
use toys::CountedAlloc;

/// Steps, what each was answered, and the row of each.
#[derive(Drop)]
pub struct Played<'t, A: Drop> {
    pub steps: Vec<StepOf<A>>,
    pub told: Vec<String>,
    pub rows: Vec<Row<'t>>,
}

impl<'t, A: Drop> Played<'t, A> {
    /// A list of played steps that has none yet.
    pub fn new(alloc: Global) -> Played<'t, A> {
        Played {
            steps: Vec::new(alloc),
            told: Vec::new(alloc),
            rows: Vec::new(alloc),
        }
    }

    /// Notes a step, with its row and what it was answered.
    fn note(&mut self, row: Row<'t>, step: StepOf<A>, told: String) -> Done {
        self.steps.push(step)?;
        self.told.push(told)?;
        self.rows.push(row)?;
        Ok(())
    }
}

/// Takes a step, and returns its answer as a text. Where `refusal`, asked before, said something else, the text says so, but
/// not of a refusal for want of memory, which nobody can foretell; and where the allocator was called by a step that may not.
pub fn tell<P: Procedure<Input: DrawnInput>>(
    alloc: Global,
    counted: &CountedAlloc<Global>,
    core: &mut Counting<'_, P>,
    step: &Step<P>,
) -> Result<String, AllocError> {
    let before = counted.calls();
    let foretold = foretell(core, step);
    let answer = do_step(core, step);
    let is_silent = counted.calls() == before || may_call_allocator(step);
    let mut text = String::new(alloc);
    draw_answer(&mut text, &answer)?;
    if foretold != answer.err() && !is_wanting(text.as_str()) {
        write!(text, ", but foretold was {foretold:?}")?;
    }
    if !is_silent {
        text.push_str(", and the allocator was called")?;
    }
    Ok(text)
}

/// Whether a step was refused for want of memory.
fn is_wanting(told: &str) -> bool {
    told.ends_with(" OutOfMemory")
}

/// Plays a row on a core: a step `STEP -> ANSWER`, which is noted unless memory was wanting, as it isn't where the steps are
/// played again; or a look `LOOK = WHAT IS SEEN`.
pub fn play_row<'t, P: Procedure<Answer: FromWords, Input: DrawnInput>>(
    alloc: Global,
    counted: &CountedAlloc<Global>,
    core: &mut Counting<'_, P>,
    played: &mut Played<'t, P::Answer>,
    row: Row<'t>,
    agreement: &mut Agreement,
) -> Done {
    if let Some((step, due)) = row.text.split_once(" -> ") {
        let Some(step) = read_step::<P::Answer>(step) else {
            return agreement.miss(row, "a step", row.text);
        };
        let told = tell(alloc, counted, core, &step)?;
        agreement.compare(row, due, told.as_str())?;
        if is_wanting(told.as_str()) {
            return Ok(());
        }
        return played.note(row, step, told);
    }
    match row.text.split_once(" = ") {
        Some((asked, due)) => play_look(alloc, core, row, asked, due, agreement),
        None => agreement.miss(row, "a step or a look", row.text),
    }
}

/// Plays a look at the core.
fn play_look<P: Procedure>(
    alloc: Global,
    core: &Counting<'_, P>,
    row: Row<'_>,
    asked: &str,
    due: &str,
    agreement: &mut Agreement,
) -> Done {
    let Some(look) = read_look(asked) else {
        return agreement.miss(row, "a look", asked);
    };
    let mut seen = String::new(alloc);
    draw_look(&mut seen, core, look)?;
    agreement.compare(row, due, seen.as_str())
}
