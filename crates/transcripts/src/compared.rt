//! The player of texts: lines that are due beside lines that came.
use crate::agreement::{Agreement, Done};
use crate::scenes::Row;
use std::alloc::AllocError;
use std::str::from_utf8;

/// Compares what was written line by line with the lines that are due. Lines beyond those, and bytes that no LF ends, are
/// rows that disagree; they stand at `end`.
pub fn compare_lines(
    agreement: &mut Agreement,
    end: Row<'_>,
    dues: &[Row<'_>],
    came: &[u8],
) -> Done {
    match from_utf8(came) {
        Ok(came) => compare_text(agreement, end, dues, came),
        Err(_) => agreement.miss(end, "text", "bytes that are none"),
    }
}

/// Compares the lines of a text that came with the rows that are due.
pub fn compare_text(agreement: &mut Agreement, end: Row<'_>, dues: &[Row<'_>], came: &str) -> Done {
    let mut rest = came;
    for due in dues {
        rest = compare_first(agreement, *due, rest)?;
    }
    if rest.is_empty() {
        return Ok(());
    }
    agreement.miss(end, "nothing more", rest)
}

/// Compares the first line of a text with the line that is due. Returns what follows it. Where no LF ends a line, nothing came.
fn compare_first<'c>(
    agreement: &mut Agreement,
    due: Row<'_>,
    came: &'c str,
) -> Result<&'c str, AllocError> {
    let (first, others) = match came.split_once('\n') {
        Some(parts) => parts,
        None => ("nothing", came),
    };
    agreement.compare(due, due.text, first)?;
    Ok(others)
}
