//! The entries of a tenant's journal in the hall: what is kept of a step that was taken, in few words.
//!
//! What the journal says is left out: its tenant, whose every step is. Most steps name a worker and a
//! frame, and their entry takes 8 bytes. What else a step says (an answer, a position, a reservation, the
//! number of a job) stands in a longer entry, in a list of its own; the place of such a step in the
//! journal holds but the word that it is the next of those (`steps_in` of `specs/Entries.antt`).
ghost use Rattle.std.specs.Prelude.{◌≡◌, ◌<◌, ◌^◌, ◌∷◌, [], ℕ, true, false};
ghost use Rattle.jamboree_core.specs.Replies.{IsSearch, AreRootWords};
ghost use Rattle.jamboree_core.specs.jamboree_rules.Places.{frame_size};
ghost use Rattle.sched_rules.specs.Runs.{tenant_of};
ghost use Rattle.hall.specs.Entries.{is_long, is_long_step, short_steps, long_step, serial_in};
ghost use Rattle.hall.specs.Journals.{is_appended};

use jamboree_core::jamboree::{Jamboree, LeafAnswer};
use sched_rules::{Step, StepOf, Worker};
use std::mem::size_of;
use tenant_quota::Reserve;

/// What a journal keeps of a tenant's step, in 8 bytes. Of a frame's name it keeps the serial alone, as the
/// tenant is the journal's. The second field of `Stolen` is the home that the frame was stolen from.
#[derive(Drop)]
pub(crate) enum JournalEntry {
    Taken(Worker, u32),
    Stolen(Worker, u8, u32),
    Advanced(Worker, u32),
    TakenIn(Worker, u32),
    Finished(Worker, u32),
    Spent(u32),
    /// A step that stands in the next long entry.
    Long,
}

/// What a journal keeps of a step that doesn't fit in 8 bytes. `Asked` has the depth and the two words of the
/// board that a Submit asks for; `Answered` has the frame's serial.
#[derive(Drop)]
pub(crate) enum LongEntry {
    Admitted(Reserve),
    Raised(Reserve),
    Asked(u8, u64, u64),
    Answered(Worker, u32, LeafAnswer),
    Cancelled(u64),
}

const _: () = prove!(size_of::<JournalEntry>() == 8);

const _: () = prove!(size_of::<LongEntry>() <= 48);

impl JournalEntry {
    /// The entry of a step, other than an Admit or a Leave: `Long` where the step is kept in a long entry.
    #[inline(always)]
    pub(crate) fn of(step: &Step<Jamboree>) -> JournalEntry
        requires is_appended { is_appended step.now ≡ true }
        requires serial { serial_in step.now < 2 ^ 32 }
        ensures long { is_long result ≡ is_long_step step.now }
        ensures short { is_long result ≡ false → short_steps (tenant_of step.now) result ≡ step.now ∷ [] }
    {
        match step {
            StepOf::Admit(_, _) | StepOf::Leave(_) => unreachable!(),
            StepOf::AdmitMore(_, _)
            | StepOf::Submit(_, _, _)
            | StepOf::Answer(_, _, _)
            | StepOf::Cancel(_, _) => JournalEntry::Long,
            StepOf::Take(worker, name) => JournalEntry::Taken(*worker, name.serial as u32),
            StepOf::Steal(worker, from, name) => {
                JournalEntry::Stolen(*worker, *from, name.serial as u32)
            }
            StepOf::Advance(worker, name) => JournalEntry::Advanced(*worker, name.serial as u32),
            StepOf::Inlet(worker, name) => JournalEntry::TakenIn(*worker, name.serial as u32),
            StepOf::Finish(worker, name) => JournalEntry::Finished(*worker, name.serial as u32),
            StepOf::Spend(name) => JournalEntry::Spent(name.serial as u32),
        }
    }

    /// Whether the step is kept in a long entry.
    #[inline(always)]
    pub(crate) fn is_long(&self) -> bool
        ensures { result ≡ is_long self.now }
    {
        match self {
            JournalEntry::Long => true,
            JournalEntry::Taken(_, _)
            | JournalEntry::Stolen(_, _, _)
            | JournalEntry::Advanced(_, _)
            | JournalEntry::TakenIn(_, _)
            | JournalEntry::Finished(_, _)
            | JournalEntry::Spent(_) => false,
        }
    }
}

impl LongEntry {
    /// The long entry of a step that is kept in one. An Admit isn't made here, but by `Journal::new`.
    #[inline(always)]
    pub(crate) fn of(step: &Step<Jamboree>) -> LongEntry
        requires is_appended { is_appended step.now ≡ true }
        requires long { is_long_step step.now ≡ true }
        requires search { IsSearch step.now }
        requires serial { serial_in step.now < 2 ^ 32 }
        ensures { long_step (tenant_of step.now) result ≡ step.now }
    {
        match step {
            StepOf::AdmitMore(_, reserve) => LongEntry::Raised(*reserve),
            StepOf::Submit(_, words, _) => asked(words.as_slice()),
            StepOf::Answer(worker, name, answer) => {
                LongEntry::Answered(*worker, name.serial as u32, *answer)
            }
            StepOf::Cancel(_, job) => LongEntry::Cancelled(*job),
            _ => unreachable!(),
        }
    }
}

/// The long entry of the Submit of a search with these words.
fn asked(words: &[u64]) -> LongEntry
    requires { AreRootWords words.now }
    ensures { (number : ℕ) → long_step number result ≡ StepOf.Submit number words.now frame_size }
{
    LongEntry::Asked(words[2] as u8, words[0], words[1])
}
