//! What a worker's step changes at a desk that somebody may wait for.
ghost use Rattle.std.specs.Prelude.{◌≡◌};
ghost use Rattle.hall.specs.desk_rules.Changes.{ends_of};

use crate::{DidOf, StepAnswer};

/// What a step changed that somebody may wait for.
#[derive(Clone, Copy, Debug, PartialEq, Eq)]
pub enum Change {
    /// Nothing that anybody waits for.
    Nothing,
    /// A frame became ready: a child was opened, or a waiting parent was woken.
    InReady,
    /// A job ended: it was finished or spent.
    Job,
}

impl Change {
    /// What a worker's step changed, by the hall's answer to it.
    pub fn of(answer: &StepAnswer) -> Change
        ensures { result ≡ ends_of answer.now }
    {
        match answer {
            Ok(DidOf::Spawned(_)) | Ok(DidOf::TakenIn(Some(_), _)) => Change::InReady,
            Ok(DidOf::Finished(_)) | Ok(DidOf::Spent(_)) => Change::Job,
            _ => Change::Nothing,
        }
    }
}
