//! The player of texts: the files of the folder that the program runs in.
use crate::agreement::{Agreement, Done};
use crate::calls::play_calls;
use crate::configs::play_config;
use crate::desks::play_sessions;
use crate::playing::play_steps;
use crate::scenes::{Scene, read_scenes};
use crate::solving::play_solve;
use std::alloc::Global;
use std::process::ExitCode;
use std::rt::Files;
use std::sync::Wait;
use std::{fs, io};

/// The names of all files here, by rising name.
fn names<R: Files + AllocGlobal + Clone + Drop>(rt: &R) -> io::Result<Vec<String>> {
    let mut names = Vec::new(rt.alloc());
    for entry in fs::read_dir(rt, ".")? {
        let name = String::from_str(rt.alloc(), entry?.file_name())?;
        names.push(name)?;
    }
    names.sort_unstable();
    Ok(names)
}

/// Plays all files here that have scenes: those whose names begin with `false_` into `lies`, all others into `agreement`. Returns how many
/// these others are.
pub fn play_all<R: Files + AllocGlobal + Wait + Clone + Drop>(
    rt: &R,
    agreement: &mut Agreement,
    lies: &mut Agreement,
) -> io::Result<u64> {
    let names = names(rt)?;
    let mut count = 0u64;
    for name in names.iter() {
        if name.as_str().starts_with("false_") {
            play_file(rt, name.as_str(), lies)?;
        } else if play_file(rt, name.as_str(), agreement)? {
            count = count.saturating_add(1);
        }
    }
    Ok(count)
}

/// Plays a file, if its ending is one of a text.
fn play_file<R: Files + AllocGlobal + Wait>(
    rt: &R,
    file: &str,
    agreement: &mut Agreement,
) -> io::Result<bool> {
    let Some(kind) = kind_of(file) else {
        return Ok(false);
    };
    let text = fs::read_to_string(rt, file)?;
    play_text(rt, rt.alloc(), kind, file, text.as_str(), agreement)?;
    Ok(true)
}

/// What plays a file.
#[derive(Clone, Copy)]
enum Kind {
    Solve,
    Session,
    Steps,
    Config,
}

/// What plays a file of this name, by its ending.
fn kind_of(file: &str) -> Option<Kind> {
    let (_name, ending) = file.rsplit_once('.')?;
    match ending {
        "solve" => Some(Kind::Solve),
        "session" => Some(Kind::Session),
        "steps" => Some(Kind::Steps),
        "rows" => Some(Kind::Config),
        _ => None,
    }
}

/// Plays all scenes of one text.
fn play_text<R: Wait>(
    rt: &R,
    alloc: Global,
    kind: Kind,
    file: &str,
    text: &str,
    agreement: &mut Agreement,
) -> Done {
    let scenes = read_scenes(alloc, file, text)?;
    for scene in scenes.iter() {
        play_scene(rt, alloc, kind, scene, agreement)?;
    }
    Ok(())
}

/// Whether this head is one of calls.
fn is_call(head: &str) -> bool {
    head == "search" || head == "position"
}

/// Plays one scene of a text.
fn play_scene<R: Wait>(
    rt: &R,
    alloc: Global,
    kind: Kind,
    scene: &Scene<'_>,
    agreement: &mut Agreement,
) -> Done {
    let head = scene.head.text;
    match kind {
        Kind::Config if head.starts_with("config") => play_config(alloc, scene, agreement),
        Kind::Solve if head.starts_with("solve ") => play_solve(alloc, scene, agreement),
        Kind::Solve if is_call(head) => play_calls(alloc, scene, agreement),
        Kind::Session if head.starts_with("desk ") => play_sessions(rt, alloc, scene, agreement),
        Kind::Steps if head.starts_with("core ") => play_steps(alloc, scene, agreement),
        _ => agreement.miss(scene.head, "a head of this kind of text", head),
    }
}

/// Prints what disagrees, how many rows agree, and how many false rows were told. The exit status is 1 where a row doesn't agree, or
/// where no text was there.
pub fn report(
    rt: &impl Print,
    count: u64,
    agreement: &Agreement,
    lies: &Agreement,
) -> io::Result<ExitCode> {
    let agreed = agreement.agreed;
    let missed = agreement.missed;
    let told = lies.missed;
    let believed = lies.agreed;
    rt.print(agreement.told.as_str())?;
    println!(rt;
        "{agreed} rows of {count} texts agree, {missed} do not; of false rows {told} do not, {believed} do"
    )?;
    if missed == 0 && count > 0 {
        return Ok(ExitCode::from(0));
    }
    Ok(ExitCode::from(1))
}
