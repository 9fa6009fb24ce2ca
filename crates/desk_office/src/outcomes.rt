//! How a job at a desk stands, as a session tells it.
ghost use Rattle.std.specs.Prelude.{◌≡◌};
ghost use Rattle.desk.specs.jamboree.Replies.{table_of};
ghost use Rattle.desk_office.specs.Offices.{standing_of, told_answer};

use desk::{Outcome, Refusal, Reply};
use othello_eval::Valued;
use session::{Analysis, Bounds, Live, Standing};

/// The entries of a reply's table, in order.
#[tactic(auto, using(crate::proofs::Entries::read_one, crate::proofs::Entries::read_none))]
fn bounds_of(reply: &Reply) -> Bounds
    ensures { result ≡ table_of reply.now }
{
    let mut bounds = Bounds::NONE;
    for number in 0..reply.bound_count() {
        if let Some(bound) = reply.bound(number) {
            bounds.push(bound);
        }
    }
    bounds
}

/// A job's outcome at the desk, as a session tells it: of a reply the value, the choice and the table.
fn standing_of(outcome: Outcome) -> Standing
    ensures { result ≡ standing_of outcome }
{
    match outcome {
        Outcome::Pending => Standing::Pending,
        Outcome::Done(reply) => Standing::Done(Analysis {
            best: Valued {
                value: reply.value(),
                choice: reply.choice(),
            },
            bounds: bounds_of(&reply),
        }),
        Outcome::Spent => Standing::Spent,
        Outcome::Cancelled => Standing::Cancelled,
    }
}

/// The desk's answer about a job, as a session tells it; a refusal stays as it is.
pub fn told_answer(answer: Result<Outcome, Refusal>) -> Result<Standing, Refusal>
    ensures { result ≡ told_answer answer }
{
    Ok(standing_of(answer?))
}

/// How many frames and words a tenant has, as a session tells it.
pub fn told_live(counts: (usize, usize)) -> Live
    ensures { result ≡ record { frames = counts.0; words = counts.1 } }
{
    let (frames, words) = counts;
    Live {
        frames: frames as u64,
        words: words as u64,
    }
}
