//! The player of texts: a text as its scenes. A scene begins with a head, a line `= ` and words: what is played, and
//! its options, each a word and its numbers. The lines up to the next head are its rows. Empty lines and those that
//! begin with `#` are remarks.
use crate::agreement::Done;
use std::alloc::{AllocError, Global};
use std::fmt;

/// A line of a text.
#[derive(Clone, Copy)]
pub struct Row<'t> {
    /// The name of its file.
    pub file: &'t str,
    /// Its number, from 1 on.
    pub line: u32,
    /// What it says, without its end.
    pub text: &'t str,
}

/// Where it stands.
impl fmt::Display for Row<'_> {
    /// The row as `FILE:LINE`.
    fn fmt<W: fmt::Write>(&self, f: &mut fmt::Formatter<W>) -> fmt::Result {
        let file = self.file;
        let line = self.line;
        write!(f, "{file}:{line}")
    }
}

impl<'t> Row<'t> {
    /// A row of the same line of the text, with this part of it.
    pub fn with(self, text: &'t str) -> Row<'t> {
        Row {
            file: self.file,
            line: self.line,
            text,
        }
    }
}

/// A head, and the rows up to the next one.
#[derive(Drop)]
pub struct Scene<'t> {
    /// What is played, and its options: the head without its sign. Empty for rows before the first head.
    pub head: Row<'t>,
    /// The rows, without remarks.
    pub rows: Vec<Row<'t>>,
}

/// The scenes of a file's text, in their order.
pub fn read_scenes<'t>(
    alloc: Global,
    file: &'t str,
    text: &'t str,
) -> Result<Vec<Scene<'t>>, AllocError> {
    let mut scenes = Vec::new(alloc);
    let mut line = 0u32;
    for text in text.lines() {
        line = line.saturating_add(1);
        take(alloc, &mut scenes, Row { file, line, text })?;
    }
    Ok(scenes)
}

/// Takes the next line of a text into its scenes.
fn take<'t>(alloc: Global, scenes: &mut Vec<Scene<'t>>, row: Row<'t>) -> Done {
    if row.text.is_empty() || row.text.starts_with('#') {
        return Ok(());
    }
    match row.text.strip_prefix("= ") {
        Some(text) => begin(alloc, scenes, row.with(text)),
        None => go_on(alloc, scenes, row),
    }
}

/// Begins a scene with this head.
fn begin<'t>(alloc: Global, scenes: &mut Vec<Scene<'t>>, head: Row<'t>) -> Done {
    scenes.push(Scene {
        head,
        rows: Vec::new(alloc),
    })?;
    Ok(())
}

/// Appends a row to the last scene of the text.
fn go_on<'t>(alloc: Global, scenes: &mut Vec<Scene<'t>>, row: Row<'t>) -> Done {
    if scenes.is_empty() {
        begin(alloc, scenes, row.with(""))?;
    }
    if let Some(scene) = scenes.last_mut() {
        scene.rows.push(row)?;
    }
    Ok(())
}
