// Rows of tables: a source with the place of its fault, the line of the fault, and what is told there.

use crate::calls::{Call, SOURCE, ends, made};
use std::alloc::{AllocError, Global};
use std::process::Abort;

/// A source, and where in it the mark stood: its line and its column, from 1 on.
#[derive(Debug, Drop)]
pub(crate) struct Marked {
    pub text: Vec<u8>,
    pub line: usize,
    pub column: usize,
}

// The byte that a letter stands for behind a backslash.
fn byte_for(letter: u8) -> u8 {
    match letter {
        b'n' => b'\n',
        b't' => b'\t',
        b'r' => b'\r',
        _ => letter,
    }
}

/// The source that a text stands for. In it `$` marks the place; `\n`, `\t` and `\r` stand for LF, a tab and CR.
pub(crate) fn marked_in(alloc: Global, row: &str) -> Result<Marked, AllocError> {
    let mut text = Vec::new(alloc);
    let mut here = (1usize, 1usize);
    let mut place = here;
    let mut is_escaped = false;
    for byte in row.as_bytes() {
        if *byte == b'$' {
            place = here;
        } else if *byte == b'\\' {
            is_escaped = true;
        } else {
            let next = if is_escaped { byte_for(*byte) } else { *byte };
            is_escaped = false;
            text.push(next)?;
            here = if next == b'\n' {
                (here.0.saturating_add(1), 1)
            } else {
                (here.0, here.1.saturating_add(1))
            };
        }
    }
    let (line, column) = place;
    Ok(Marked { text, line, column })
}

// The source, and the beginning of its report.
fn expected(alloc: Global, row: &str, message: &str) -> Result<(Vec<u8>, String), AllocError> {
    let marked = marked_in(alloc, row)?;
    let line = marked.line;
    let column = marked.column;
    let head = format!(in alloc; "{SOURCE}:{line}:{column}: {message}\n..")?;
    Ok((marked.text, head))
}

/// Whether the fault of this source, which has this line, is told at the mark with this message.
pub(crate) fn is_told(
    rt: &(impl AllocGlobal + Print),
    row: &str,
    line: &str,
    message: &str,
) -> bool {
    match made(rt, || expected(rt.alloc(), row, message)) {
        Some((source, head)) => ends(
            rt,
            &Call {
                words: &[SOURCE, line],
                source: Some(source.as_slice()),
                files: &[],
                puts: &[],
                status: 0,
                put: head.as_str(),
            },
        ),
        None => false,
    }
}

// The parts of a row: they stand between its last two bars.
fn parts_of(row: &str) -> (&str, &str, &str) {
    match row.rsplit_once(" | ") {
        Some((front, message)) => match front.rsplit_once(" | ") {
            Some((source, line)) => (source, line, message),
            None => (front, "", message),
        },
        None => (row, "", ""),
    }
}

/// Asserts that each row's fault is told at its mark.
pub(crate) fn expect_told(rt: &(impl AllocGlobal + Print + Abort), rows: &str) {
    for row in rows.lines() {
        let (source, line, message) = parts_of(row);
        assert!(rt; is_told(rt, source, line, message), "{row}");
    }
}
