//! What the program `othello` does, over any streams: from the words of the command line to the exit status.
ghost use Rattle.std.specs.Prelude.{map, Result};
ghost use Rattle.commands.specs.declared.command_line.options.Options.{Options};
ghost use Rattle.commands.specs.declared.command_line.faults.WordsFault.{WordsFault};
ghost use Rattle.commands.specs.Answering.{IsReadOf};
ghost use Rattle.commands.specs.Running.{IsFollowed};

use crate::answering::{answer, answer_ordered};
use crate::audit::Audit;
use crate::command_line::Options;
use crate::saying::refuse;
use crate::service::Service;
use crate::serving::{Unserved, failed, serve_as_asked};
use crate::streams::{ProgramInput, ProgramOutput, Streams};
use line_io::Sink;
use std::alloc::Global;
use std::convert::AsStr;
use std::marker::Brand;
use std::net::{Net, TcpStream};
use std::sync::Wait;
use std::sync::ledger::Blank;
use std::thread::Threads;
use tcp_server::desk::{Opened, PARTS};

/// Does what the words of the command line ask for, and returns the exit status: 0 where all went well, 1 where input,
/// output or server failed or there was no memory to read the words, 2 where the words are refused. Answers, help, the
/// version and a server's two lines go to the output, and all else that there is to say to the errors. The status stays
/// the same where a text of help or of refusal can't be written. A server's status is 0 only where `audit` was given the hall that
/// its desk left, with the share that has all parts of the desk's ledger: every step was made by a session or a worker that gave its
/// share back. With it come the sessions: what passed on each connection, whose part is in the one history of that desk.
pub fn run<R, T: AsStr, S: ProgramInput, K: ProgramOutput, E: Sink, A: Audit>(
    rt: &R,
    alloc: Global,
    words: &[T],
    streams: &mut Streams<S, K, E>,
    audit: &mut A,
) -> u8
where
    R: Net<Stream = TcpStream> + Threads + Wait + Sync,
    R::Listener: Send,
    ensures { (asked : Result Options WordsFault) × IsReadOf (map T.text words.now) asked
        × IsFollowed S.gives K.takes A.given streams.old.source streams.old.sink audit.old streams.new.source streams.new.sink audit.new asked result }
{
    match Options::read(alloc, words) {
        Ok(Options::Solve { grain, visited }) => answer(alloc, grain, visited, streams),
        Ok(Options::SolveOrdered) => answer_ordered(streams),
        Ok(options) => {
            let asked = Service::of(options).unwrap();
            let Streams { sink, errors, .. } = streams;
            let opened = match Opened::new(alloc) {
                Ok(opened) => opened,
                Err(refused) => return failed(errors, Unserved::from(refused)),
            };
            let blank = Blank::new(PARTS);
            serve_as_asked::<Brand, R, K, E, A>(
                rt, alloc, blank, opened, asked, sink, errors, audit,
            )
        }
        Err(fault) => refuse(&fault, &mut streams.sink, &mut streams.errors),
    }
}
