//! Tests of the tables of jobs over TCP, and of what jobs leave, at each grain and by one worker and by eight.

use super::doors::Visit;
use super::{ANSWERED, ASK_0, ASK_1, Host, LAST, MOVES, PASSES, Row, SPENT, is_content};
use std::net::{Net, TcpListener, TcpStream};
use std::time::{Clock, CpuClock};

/// Jobs of depth 0 and 1 with their tables, which don't depend on who searched them: the first move is searched in full,
/// and each of the others is found to be no better.
const TABLES: [Row; 15] = [
    ("HELLO 32 64\n", "WELCOME 32 64\n"),
    (ASK_0, "JOB 1\n"),
    (ASK_1, "JOB 2\n"),
    (PASSES, "JOB 3\n"),
    (MOVES, "JOB 4\n"),
    ("WAIT 1\n", "DONE 1 0 -\n"),
    ("WAIT 2\n", "DONE 2 -3 d3\n"),
    ("WAIT 3\n", "DONE 3 -6000 pass\n"),
    ("WAIT 4\n", "DONE 4 89 a1\n"),
    ("TABLE 1\n", "TABLE 1\n"),
    ("TABLE 2\n", "TABLE 2 d3=-3 c4<-3 f5<-3 e6<-3\n"),
    ("TABLE 3\n", "TABLE 3 pass=-6000\n"),
    ("TABLE 4\n", "TABLE 4 a1=89 e1<40\n"),
    ("TABLE 5\n", "ERR 17\n"),
    LAST,
];

/// A grain, and how many workers.
type Grain = (u8, u8);

/// Each grain at which these jobs are told.
const GRAINS: [Grain; 6] = [(0, 1), (2, 1), (6, 1), (0, 8), (2, 8), (6, 8)];

/// The grain at which a job is spent.
const FINEST: [Grain; 2] = [(0, 1), (0, 8)];

/// Fails the test where these lines aren't told at each of these grains.
fn are_told_at<R>(rt: &R, rows: &'static [Row], grains: &[Grain])
where
    R: Net<Listener = TcpListener, Stream = TcpStream> + Host + Clock + CpuClock + Sync,
{
    for (grain, workers) in grains {
        let told = is_content(rt, *grain, Visit::Told(rows), 1, *workers);
        assert!(rt; told, "grain {grain}, {workers} workers");
    }
}

/// At grains 0, 2 and 6, by 1 and by 8 workers: the tables and answers of jobs; at grain 0, what jobs that were spent
/// leave.
#[test]
fn jobs_are_told_at_each_grain(rt: HostRuntime) {
    are_told_at(&rt, &TABLES, &GRAINS);
    are_told_at(&rt, &ANSWERED, &GRAINS);
    are_told_at(&rt, &SPENT, &FINEST);
}
