// What the lines of a trace tell.

use std::alloc::{AllocError, Global};

// What a line of a trace tells behind its step, where that begins with this word.
fn told_on<'a>(line: &'a str, word: &str) -> Option<&'a str> {
    let (_step, told) = line.split_once(' ')?;
    told.strip_prefix(word)
}

/// What the lines of a trace that begin with this word, their step aside, tell behind it, with a semicolon between two.
pub(crate) fn told(alloc: Global, trace: &str, word: &str) -> Result<String, AllocError> {
    let mut text = String::new(alloc);
    for line in trace.lines() {
        if let Some(told) = told_on(line, word) {
            if !text.is_empty() {
                text.push_str("; ")?;
            }
            text.push_str(told)?;
        }
    }
    Ok(text)
}

/// The step of the line of a trace with this number, counted from 0, of those that begin with this word, their step aside. None
/// where there are fewer.
pub(crate) fn step_of(trace: &str, word: &str, number: usize) -> Option<u32> {
    let mut before = 0usize;
    for line in trace.lines() {
        if told_on(line, word).is_some() {
            if before == number {
                let (step, _told) = line.split_once(' ')?;
                return step.parse::<u32>().ok();
            }
            before = before.saturating_add(1);
        }
    }
    None
}
