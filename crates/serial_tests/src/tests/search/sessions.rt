//! Tests of sessions over memory, with an office of prepared replies.
mod tables;

use super::lines::{Asking, Ear, Hearing};
use super::{given, holds, holds_at, joined, left_of};
use line_io::{FromWriter, ReadFailed, Sink, Source};
use othello_eval::Valued;
use sched_rules::Refusal;
use session::{Analysis, Bounds, End, Live, Office, Question, SessionFault, Standing, serve_lines};
use std::alloc::{AllocError, Global};
use std::io::{self, ErrorKind, Write};
use std::process::Abort;
use std::sync::Wait;
use tenant_quota::{Left, Reserve};

/// An office of prepared replies, which numbers the jobs and knows whether its tenant is there.
#[derive(Drop)]
struct Prepared {
    standing: Standing,
    left: Left,
    jobs: u64,
    here: bool,
}

impl Prepared {
    /// An office with this one standing for all jobs, and 4 segments, 7 nodes and 123 steps left.
    fn new(standing: Standing) -> Prepared {
        Prepared {
            standing,
            left: left_of(4, 7, 123),
            jobs: 0,
            here: false,
        }
    }

    /// How a job that was asked stands: as prepared; `NoJob` for any other.
    fn told(&self, job: u64) -> Result<Standing, Refusal> {
        if job == 0 || job > self.jobs {
            return Err(Refusal::NoJob);
        }
        Ok(self.standing)
    }
}

impl Office for Prepared {
    ghost does = { λ _ _ _ _. Unit {0} };

    /// A tenant comes, whatever it reserves.
    fn hello(&mut self, _reserve: Reserve) -> Result<(), Refusal> {
        self.here = true;
        Ok(())
    }

    /// Raises what is left of the nodes; `Lower` where that is no more than before.
    fn reserve(&mut self, reserve: Reserve) -> Result<(), Refusal> {
        if reserve.nodes() <= self.left.nodes {
            return Err(Refusal::Lower);
        }
        self.left.nodes = reserve.nodes();
        Ok(())
    }

    /// Gives the next job's number.
    fn ask(&mut self, _question: &Question) -> Result<u64, Refusal> {
        self.jobs = self.jobs.saturating_add(1);
        Ok(self.jobs)
    }

    /// How the job stands: as prepared.
    fn get(&mut self, job: u64) -> Result<Standing, Refusal> {
        self.told(job)
    }

    /// How the job stands: as prepared, as if it had ended.
    fn wait(&mut self, job: u64) -> Result<Standing, Refusal> {
        self.told(job)
    }

    /// From now on all jobs stand as cancelled.
    fn cancel(&mut self, job: u64) -> Result<(), Refusal> {
        self.told(job)?;
        self.standing = Standing::Cancelled;
        Ok(())
    }

    /// What is left, as prepared.
    fn quota(&mut self) -> Result<Left, Refusal> {
        Ok(self.left)
    }

    /// Says that the tenant has no frames and no words.
    fn live(&mut self) -> Result<Live, Refusal> {
        Ok(Live {
            frames: 0,
            words: 0,
        })
    }

    /// Notes that the tenant isn't there any more.
    fn leave(&mut self) {
        self.here = false;
    }
}

/// A finished job of the opening at depth 0.
const NOTHING_TO_PLAY: Standing = Standing::Done(Analysis {
    best: Valued {
        value: 0,
        choice: None,
    },
    bounds: Bounds::NONE,
});

/// How a session ends that the office serves.
fn session<R: Wait, S: Source, K: Sink>(
    rt: &R,
    source: &mut S,
    sink: &mut K,
    office: &mut Prepared,
) -> Result<End, SessionFault> {
    serve_lines(rt, source, sink, office)
}

/// A session of all lines but BYE.
const LINES: [&[u8]; 10] = [
    b"GET 1\n",
    b"HELLO 4 8\n",
    b"ASK 0 ---------------------------OX------XO--------------------------- X\n",
    b"WAIT 1\n",
    b"TABLE 1\n",
    b"get 1\r\n",
    b"QUOTA\n",
    b"LIVE\n",
    b"CANCEL 1\n",
    b"GET 1\n",
];

/// Their answers.
const ANSWERS: [&[u8]; 10] = [
    b"ERR 28\n",
    b"WELCOME 4 8\n",
    b"JOB 1\n",
    b"DONE 1 0 -\n",
    b"TABLE 1\n",
    b"ERR 21\n",
    b"QUOTA 4 7 123\n",
    b"LIVE 0 0\n",
    b"CANCELLED 1\n",
    b"CANCELLED 1\n",
];

/// Gives these blocks, one a call, and then fails, or ends.
#[derive(Drop)]
struct Blocks<'a> {
    blocks: &'a [&'a [u8]],
    given: usize,
    fails: bool,
}

impl Source for Blocks<'_> {
    ghost gives = { λ _ _ _. Unit {0} };

    /// Gives the next block; after the last the end of the input, or a failed read.
    fn fill(&mut self, block: &mut [u8]) -> Result<usize, ReadFailed> {
        let blocks = self.blocks;
        match blocks.get(self.given) {
            Some(bytes) if bytes.len() <= block.len() => {
                self.given = self.given.saturating_add(1);
                Ok(given(block, bytes))
            }
            _ if self.fails => Err(ReadFailed),
            _ => Ok(0),
        }
    }
}

/// Keeps what it takes: so many bytes a call at most, up to a call at which it fails, or takes none.
#[derive(Drop)]
struct Narrow {
    taken: Vec<u8>,
    most: usize,
    calls: usize,
    fails: bool,
}

impl Write for Narrow {
    /// Takes a part of the bytes while calls are left; then it fails, or takes nothing.
    fn write(&mut self, buf: &[u8]) -> io::Result<usize> {
        if self.calls == 0 {
            return if self.fails {
                Err(io::Error::from(ErrorKind::ConnectionReset))
            } else {
                Ok(0)
            };
        }
        self.calls -= 1;
        let count = buf.len().min(self.most);
        self.taken.extend_from_slice(&buf[..count])?;
        Ok(count)
    }

    /// Does nothing, as nothing is kept back.
    fn flush(&mut self) -> io::Result<()> {
        Ok(())
    }
}

/// Whether a session of these blocks, whose sink takes so many bytes a call for so many calls, ends so, has written
/// this, and its tenant is gone.
fn is_left<R: Wait>(
    rt: &R,
    mut source: Blocks<'_>,
    narrow: Narrow,
    end: Result<End, SessionFault>,
    due: &[u8],
) -> bool {
    let mut office = Prepared::new(NOTHING_TO_PLAY);
    let mut sink = FromWriter::new(narrow);
    let result = session(rt, &mut source, &mut sink, &mut office);
    result == end && !office.here && sink.writer.taken.as_slice() == due
}

/// A source of these blocks, at whose end it fails, or ends.
fn blocks_of<'a>(blocks: &'a [&'a [u8]], fails: bool) -> Blocks<'a> {
    Blocks {
        blocks,
        given: 0,
        fails,
    }
}

/// A sink that takes so many bytes a call for so many calls; then it fails, or takes none.
fn narrow_of(alloc: Global, most: usize, calls: usize, fails: bool) -> Narrow {
    Narrow {
        taken: Vec::new(alloc),
        most,
        calls,
        fails,
    }
}

/// Whether a session of so many lines, whose source fails at their end or doesn't, writes their answers.
fn reads<R: Wait>(rt: &R, alloc: Global, count: usize, fails: bool) -> Result<bool, AllocError> {
    let due = joined(alloc, &ANSWERS[..count.min(10)])?;
    let end = if fails {
        Err(SessionFault::Read)
    } else {
        Ok(End::EndOfInput)
    };
    let source = blocks_of(&LINES[..count.min(10)], fails);
    let wide = narrow_of(alloc, 200, usize::MAX, true);
    Ok(is_left(rt, source, wide, end, due.as_slice()))
}

/// How many bytes the answers have.
const BYTES: usize = 98;

/// Whether a session whose sink takes so many single bytes, and then fails or takes none, writes so many bytes of the
/// answers.
fn writes<R: Wait>(rt: &R, alloc: Global, calls: usize, fails: bool) -> Result<bool, AllocError> {
    let all = joined(alloc, ANSWERS.as_slice())?;
    if all.len() != BYTES || calls >= BYTES {
        return Ok(false);
    }
    let source = blocks_of(LINES.as_slice(), false);
    let narrow = narrow_of(alloc, 1, calls, fails);
    let due = &all.as_slice()[..calls];
    Ok(is_left(rt, source, narrow, Err(SessionFault::Write), due))
}

/// Whether a session of lines that come at once, whose sink takes so many writes and then fails, writes so many answers.
fn writes_whole<R: Wait>(rt: &R, alloc: Global, calls: usize) -> Result<bool, AllocError> {
    let lines = joined(alloc, LINES.as_slice())?;
    let due = joined(alloc, &ANSWERS[..calls.min(10)])?;
    let at_once = [lines.as_slice()];
    let source = blocks_of(at_once.as_slice(), false);
    let narrow = narrow_of(alloc, 200, calls, true);
    let fault = Err(SessionFault::Write);
    Ok(is_left(rt, source, narrow, fault, due.as_slice()))
}

/// Whether each answer of a session of ten lines comes before more is read.
fn is_answered_in_time<R: Wait>(rt: &R) -> bool {
    let ear = Ear::new();
    let mut office = Prepared::new(NOTHING_TO_PLAY);
    let mut source = Asking {
        ear: &ear,
        lines: LINES.as_slice(),
    };
    let result = session(rt, &mut source, &mut Hearing(&ear), &mut office);
    matches!(result, Ok(End::EndOfInput)) && !office.here && ear.has_heard(10)
}

/// What sessions meet.
#[derive(Drop)]
enum Trial {
    /// A source that fails at its end, or doesn't.
    Read(bool),
    /// A write of a byte that fails, or takes none.
    Write(bool),
    /// A write of an answer that fails.
    Answer,
    /// A source and a sink that know of each other.
    Wire,
}

/// How many cases this trial of a session has.
fn cases(trial: &Trial) -> usize {
    match trial {
        Trial::Read(_) => 11,
        Trial::Write(_) => BYTES,
        Trial::Answer => 10,
        Trial::Wire => 1,
    }
}

/// Whether one case of this trial of a session comes out as it should.
fn is_so<R: Wait>(rt: &R, alloc: Global, trial: &Trial, case: usize) -> Result<bool, AllocError> {
    match trial {
        Trial::Read(fails) => reads(rt, alloc, case, *fails),
        Trial::Write(fails) => writes(rt, alloc, case, *fails),
        Trial::Answer => writes_whole(rt, alloc, case),
        Trial::Wire => Ok(is_answered_in_time(rt)),
    }
}

/// Tries all cases of this trial of a session, and fails the test at the first that comes out otherwise. The tests
/// share this loop, since each loop takes the prover two seconds more.
fn tries<R: Wait + Abort>(rt: &R, alloc: Global, trial: Trial) {
    for case in 0..cases(&trial) {
        let is_so = is_so(rt, alloc, &trial, case);
        holds_at(rt, case, is_so == Ok(true));
    }
}

/// A failed read ends a session with fault 1, and the answers to the lines before it are written.
#[test]
fn a_read_that_fails_leaves_the_answers_before_it(rt: HostRuntime) {
    tries(&rt, rt.alloc(), Trial::Read(true));
    tries(&rt, rt.alloc(), Trial::Read(false));
    holds(&rt, SessionFault::Read.number() == 1);
}

/// A failed write ends a session with fault 2, and a beginning of the answers is written.
#[test]
fn a_write_that_fails_leaves_a_beginning(rt: HostRuntime) {
    tries(&rt, rt.alloc(), Trial::Write(true));
    tries(&rt, rt.alloc(), Trial::Write(false));
    holds(&rt, SessionFault::Write.number() == 2);
}

/// Where all lines of a session come in one block, a failed write leaves whole answers alone.
#[test]
fn a_write_that_fails_leaves_whole_answers(rt: HostRuntime) {
    tries(&rt, rt.alloc(), Trial::Answer);
}

/// Each answer of a session is written before the next line is read.
#[test]
fn each_answer_is_written_before_more_is_read(rt: HostRuntime) {
    tries(&rt, rt.alloc(), Trial::Wire);
}
