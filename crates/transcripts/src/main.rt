//! `transcripts`: plays the texts of the folder that it runs in, and reports which of their rows agree.
//!
//! A row is a line of a text: what is sent, asked or done, or what is due. So what needs no thread, no socket and no clock is
//! tried by a line that a person writes, and costs no proof: this program is proved once, safe and total as all else, for
//! every text. A file's ending says what plays it:
//!
//! - `NAME.solve` (`solving`): the lines of `othello solve`, at each grain that the head names, by `--ordered`, or by `--visited`;
//!   (`calls`) searches through windows, and positions that are read and written again;
//! - `NAME.session` (`sessions`): sessions at a desk, whose jobs one worker runs (`desk_worker`) at each WAIT;
//! - `NAME.steps` (`playing`): steps of a core, its answers, and looks at its state in between;
//! - `NAME.rows` (`configs`): a file of `othello_site`: what it is read to, or refused for, and whose a connection is.
//!
//! A session or a solve is what a client would meet but for the sockets and the threads: lines go through `solve_bytes`,
//! `solve_ordered`, `solve_visited` and `serve_lines` with a `DeskOffice`. Printed are the first rows that disagree, and last how many rows of
//! how many files agree; the exit status is 1 where some don't, or where there is no text. Rows of a file whose name begins with
//! `false_` are wrong, each in one place: how many of them disagree is printed beside, so that a player that is blind to some kind of
//! row is seen.
//!
//! ```text
//! = solve grain 0 2 6
//! > 1 ---------------------------OX------XO--------------------------- X
//! < -3 d3
//! ```
#![tactic(auto)]

mod agreement;
mod answered;
mod calls;
mod compared;
mod configs;
mod desk_worker;
mod desks;
mod escapes;
mod file_lines;
mod files;
mod groups;
mod looks;
mod pieces;
mod plain_core;
mod played_desk;
mod playing;
mod reader;
pub mod reader_rows;
mod reading;
mod scenes;
mod sessions;
mod solving;
mod stage;
mod talks;
mod values;
mod words;

use crate::agreement::Agreement;
use std::io;
use std::process::ExitCode;

/// Plays all texts of the folder, and reports how many rows agree.
fn main(rt: HostRuntime) -> io::Result<ExitCode> {
    let mut agreement = Agreement::new(rt.alloc());
    let mut lies = Agreement::new(rt.alloc());
    let count = files::play_all(&rt, &mut agreement, &mut lies)?;
    files::report(&rt, count, &agreement, &lies)
}
