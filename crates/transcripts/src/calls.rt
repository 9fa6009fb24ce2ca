//! The player of texts: scenes of calls of the game that no line of a program makes.
//!
//! The head is `search`, and a row `> DEPTH ALPHA BETA POSITION` is a serial search through that window: the answer is its score and how
//! many positions it entered, or `no search` where the words ask for none. Or the head is `position`, and a row `> TEXT` is a text that is
//! read: the answer is the position as it is written again, or the number of the fault and, of a wrong cell, its place.
use crate::agreement::{Agreement, Done};
use crate::compared::compare_text;
use crate::scenes::Scene;
use crate::talks::gather;
use crate::words::{LineWords, rest_of};
use jamboree_rules::othello_eval::othello_moves::DEEPEST;
use othello_board::position_text::{TextFault, read, write};
use solve_engine::leaf_search::{INF, Scored, search};
use std::alloc::Global;
use std::fmt::Write;
use std::str::from_utf8;

/// Plays a scene of calls: each line by itself.
pub fn play_calls(alloc: Global, scene: &Scene<'_>, agreement: &mut Agreement) -> Done {
    let part = gather(alloc, b"", scene.rows.as_slice(), agreement)?;
    let searches = scene.head.text.starts_with("search");
    let mut came = String::new(alloc);
    for line in from_utf8(part.sent.as_slice()).unwrap_or("").lines() {
        tell_call(&mut came, line, searches)?;
    }
    compare_text(agreement, scene.head, part.dues.as_slice(), came.as_str())
}

/// Appends what a line's call answers.
fn tell_call(came: &mut String, line: &str, searches: bool) -> Done {
    if searches {
        return tell_search(came, line);
    }
    tell_position(came, line)
}

/// Appends the score of a search and how many positions it entered.
fn tell_search(came: &mut String, line: &str) -> Done {
    let Some(found) = searched(line) else {
        return came.push_str("no search\n");
    };
    let score = found.score;
    let visited = found.visited;
    writeln!(came, "{score} {visited}")
}

/// The search that a line asks for; None where its words ask for none.
fn searched(line: &str) -> Option<Scored> {
    let mut words = LineWords::of(line);
    let depth = words.byte()?;
    let alpha = words.score()?;
    let beta = words.score()?;
    let text = rest_of(rest_of(rest_of(line)));
    let position = read(text.as_bytes()).ok()?;
    if depth > DEEPEST || alpha < -INF || alpha >= beta || beta > INF {
        return None;
    }
    Some(search(position.board, depth, alpha, beta))
}

/// Appends a position as it is written, or the fault of its text.
fn tell_position(came: &mut String, text: &str) -> Done {
    match read(text.as_bytes()) {
        Ok(position) => {
            let written = write(&position);
            came.push_str(from_utf8(&written).unwrap_or(""))?;
            came.push_str("\n")
        }
        Err(fault) => tell_fault(came, fault),
    }
}

/// Appends the number of a fault, and the place of a wrong cell.
fn tell_fault(came: &mut String, fault: TextFault) -> Done {
    let number = fault.number();
    match fault {
        TextFault::BadCell(at) => writeln!(came, "fault {number} at {at}"),
        _ => writeln!(came, "fault {number}"),
    }
}
