//! The texts of a session's replies, each without LF. Each function writes over the last answer.
ghost use Rattle.std.specs.Prelude.{◌≡◌, ◌+◌, ◌≤◌, [], ◌∷◌, ◌++◌, length, codes, decimal};
ghost use Rattle.protocol.specs.Texts.{error_text, value_text};
ghost use Rattle.session.specs.Calls.{Welcome, Reserved, Job, Told, Ended, Rest, Alive, reply_of};
ghost use Rattle.session.specs.Turns.{reply_text, standing_text, pair_text, kind_text, entry_text, entries_text, table_standing_text, table_text};

use crate::standings::{Analysis, Live, Standing};
use arrayvec::ArrayVec;
use othello_eval::{Bound, BoundKind};
use protocol::{push_error, push_move, push_number, push_value};
use sched_rules::Refusal;
use tenant_quota::{Left, Reserve};

/// The most bytes of an answer with its LF: TABLE and a number take 26 at most, and 64 entries 17 each.
const ANSWER_BYTES: usize = 1115;

/// Room for one answer: at most 1,114 bytes and an LF. A session has one, which is passed by reference alone.
pub type SessionText = ArrayVec<u8, ANSWER_BYTES>;

/// Writes a word of at most 10 bytes, with the space after it where more follows, over the last answer.
fn write_word(text: &mut SessionText, word: &[u8])
    requires { length word.now ≤ 10 }
    ensures { text.new.items ≡ word.now }
{
    text.clear();
    text.try_extend_from_slice(word).unwrap();
}

/// Writes a word and a number over the last answer.
fn write_numbered(text: &mut SessionText, word: &[u8], number: u64)
    requires { length word.now ≤ 10 }
    ensures text { text.new.items ≡ word.now ++ decimal number }
    ensures short { length text.new.items ≤ length word.now + 20 }
{
    write_word(text, word);
    push_number(text, number);
}

/// Writes a word and two numbers, with a space between these, over the last answer.
fn write_pair(text: &mut SessionText, word: &[u8], first: u64, second: u64)
    requires { length word.now ≤ 10 }
    ensures text { text.new.items ≡ word.now ++ pair_text first second }
    ensures short { length text.new.items ≤ 51 }
{
    write_numbered(text, word, first);
    text.push(b' ');
    push_number(text, second);
}

/// Writes a word, and the segments and nodes that are reserved, over the last answer.
fn write_reserve(text: &mut SessionText, word: &[u8], reserve: Reserve)
    requires { length word.now ≤ 10 }
    ensures text { text.new.items ≡ word.now ++ pair_text reserve.segments reserve.nodes }
    ensures short { length text.new.items ≤ 51 }
{
    write_pair(
        text,
        word,
        u64::from(reserve.segments()),
        u64::from(reserve.nodes()),
    );
}

/// Writes DONE, a job's number, the value and the move.
fn write_analysis(text: &mut SessionText, job: u64, analysis: &Analysis)
    ensures text { text.new.items ≡ codes "DONE " ++ decimal job ++ codes " " ++ value_text analysis.now.best.value analysis.now.best.choice }
    ensures short { length text.new.items ≤ 72 }
{
    write_numbered(text, b"DONE ", job);
    text.push(b' ');
    push_value(text, analysis.best.value);
    text.push(b' ');
    push_move(text, analysis.best.choice);
}

/// Writes how a job stands: PENDING, DONE with its value and move, SPENT or CANCELLED.
fn write_standing(text: &mut SessionText, job: u64, standing: &Standing)
    ensures text { text.new.items ≡ standing_text job standing.now }
    ensures short { length text.new.items ≤ 72 }
{
    match standing {
        Standing::Pending => write_numbered(text, b"PENDING ", job),
        Standing::Done(analysis) => write_analysis(text, job, analysis),
        Standing::Spent => write_numbered(text, b"SPENT ", job),
        Standing::Cancelled => write_numbered(text, b"CANCELLED ", job),
    }
}

/// The byte for what a score says of the value of its choice: `=` that it is the score, `<` at most the score, `>` at
/// least.
fn kind_byte(kind: BoundKind) -> u8
    ensures { result ∷ [] ≡ kind_text kind }
{
    match kind {
        BoundKind::Exact => b'=',
        BoundKind::Low => b'<',
        BoundKind::High => b'>',
    }
}

/// Appends an entry of a table, at most 17 bytes: a space, the move, the byte of `kind_byte` and the score.
fn push_entry(text: &mut SessionText, bound: &Bound)
    requires { length text.old.items + 17 ≤ 1114 }
    ensures text { text.new.items ≡ text.old.items ++ entry_text bound.now }
    ensures short { length text.new.items ≤ length text.old.items + 17 }
{
    text.push(b' ');
    push_move(text, Some(bound.choice));
    text.push(kind_byte(bound.kind));
    push_value(text, bound.score);
}

/// Appends the entries of a table to a TABLE line.
fn push_entries(text: &mut SessionText, bounds: &[Bound])
    requires few { length bounds.now ≤ 64 }
    requires room { length text.old.items ≤ 26 }
    ensures text { text.new.items ≡ text.old.items ++ entries_text bounds.now }
    ensures short { length text.new.items ≤ 1114 }
{
    for bound in bounds {
        push_entry(text, bound);
    }
}

/// Writes TABLE, a job's number and the entries of its table.
fn write_table(text: &mut SessionText, job: u64, analysis: &Analysis)
    ensures text { text.new.items ≡ codes "TABLE " ++ decimal job ++ entries_text analysis.now.bounds }
    ensures short { length text.new.items ≤ 1114 }
{
    write_numbered(text, b"TABLE ", job);
    push_entries(text, analysis.bounds.as_slice());
}

/// Writes how a job stands; where it is done, as TABLE with its entries.
fn write_table_standing(text: &mut SessionText, job: u64, standing: &Standing)
    ensures text { text.new.items ≡ table_standing_text job standing.now }
    ensures short { length text.new.items ≤ 1114 }
{
    match standing {
        Standing::Done(analysis) => write_table(text, job, analysis),
        _ => write_standing(text, job, standing),
    }
}

/// Writes the answer `ERR` and this number.
pub(crate) fn write_fault(text: &mut SessionText, number: u8)
    ensures text { text.new.items ≡ error_text number }
    ensures short { length text.new.items ≤ 72 }
{
    text.clear();
    push_error(text, number);
}

/// Writes the answer to HELLO: WELCOME and what is reserved, or ERR and the refusal's number.
pub(crate) fn write_welcome(text: &mut SessionText, reserve: Reserve, reply: Result<(), Refusal>)
    ensures text { text.new.items ≡ reply_text (reply_of (λ _. Welcome reserve) reply) }
    ensures short { length text.new.items ≤ 72 }
{
    match reply {
        Ok(()) => write_reserve(text, b"WELCOME ", reserve),
        Err(refusal) => write_fault(text, refusal.number()),
    }
}

/// Writes the answer to RESERVE: RESERVED and what is reserved, or ERR and the refusal's number.
pub(crate) fn write_reserved(text: &mut SessionText, reserve: Reserve, reply: Result<(), Refusal>)
    ensures text { text.new.items ≡ reply_text (reply_of (λ _. Reserved reserve) reply) }
    ensures short { length text.new.items ≤ 72 }
{
    match reply {
        Ok(()) => write_reserve(text, b"RESERVED ", reserve),
        Err(refusal) => write_fault(text, refusal.number()),
    }
}

/// Writes the answer to ASK: JOB and the job's number, or ERR and the refusal's number.
pub(crate) fn write_job(text: &mut SessionText, reply: Result<u64, Refusal>)
    ensures text { text.new.items ≡ reply_text (reply_of Job reply) }
    ensures short { length text.new.items ≤ 72 }
{
    match reply {
        Ok(job) => write_numbered(text, b"JOB ", job),
        Err(refusal) => write_fault(text, refusal.number()),
    }
}

/// Writes the answer to GET or WAIT: how the job stands, or ERR and the refusal's number.
pub(crate) fn write_told(text: &mut SessionText, job: u64, reply: &Result<Standing, Refusal>)
    ensures text { text.new.items ≡ reply_text (reply_of (Told job) reply.now) }
    ensures short { length text.new.items ≤ 72 }
{
    match reply {
        Ok(standing) => write_standing(text, job, standing),
        Err(refusal) => write_fault(text, refusal.number()),
    }
}

/// Writes the answer to TABLE: how the job stands, with its table where it is done, or ERR and the refusal's number.
pub(crate) fn write_table_reply(text: &mut SessionText, job: u64, reply: &Result<Standing, Refusal>)
    ensures text { text.new.items ≡ table_text (reply_of (Told job) reply.now) }
    ensures short { length text.new.items ≤ 1114 }
{
    match reply {
        Ok(standing) => write_table_standing(text, job, standing),
        Err(refusal) => write_fault(text, refusal.number()),
    }
}

/// Writes the answer to CANCEL: CANCELLED and the job's number, or ERR and the refusal's number.
pub(crate) fn write_ended(text: &mut SessionText, job: u64, reply: Result<(), Refusal>)
    ensures text { text.new.items ≡ reply_text (reply_of (λ _. Ended job) reply) }
    ensures short { length text.new.items ≤ 72 }
{
    match reply {
        Ok(()) => write_numbered(text, b"CANCELLED ", job),
        Err(refusal) => write_fault(text, refusal.number()),
    }
}

/// Writes QUOTA and the segments, nodes and steps that are left.
fn write_left(text: &mut SessionText, left: Left)
    ensures text { text.new.items ≡ reply_text (Rest left) }
    ensures short { length text.new.items ≤ 72 }
{
    write_pair(
        text,
        b"QUOTA ",
        u64::from(left.segments),
        u64::from(left.nodes),
    );
    text.push(b' ');
    push_number(text, u64::from(left.steps));
}

/// Writes the answer to QUOTA: the segments, nodes and steps that are left, or ERR and the refusal's number.
pub(crate) fn write_quota(text: &mut SessionText, reply: Result<Left, Refusal>)
    ensures text { text.new.items ≡ reply_text (reply_of Rest reply) }
    ensures short { length text.new.items ≤ 72 }
{
    match reply {
        Ok(left) => write_left(text, left),
        Err(refusal) => write_fault(text, refusal.number()),
    }
}

/// Writes the answer to LIVE: the number of frames and of their words, or ERR and the refusal's number.
pub(crate) fn write_live(text: &mut SessionText, reply: Result<Live, Refusal>)
    ensures text { text.new.items ≡ reply_text (reply_of Alive reply) }
    ensures short { length text.new.items ≤ 72 }
{
    match reply {
        Ok(live) => write_pair(text, b"LIVE ", live.frames, live.words),
        Err(refusal) => write_fault(text, refusal.number()),
    }
}

/// Writes the answer to the line BYE.
pub(crate) fn write_bye(text: &mut SessionText)
    ensures text { text.new.items ≡ codes "BYE" }
    ensures short { length text.new.items ≤ 72 }
{
    write_word(text, b"BYE");
}
