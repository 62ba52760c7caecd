// Parts of a text that are repeated.

use crate::fault::Fault;
use crate::fill::with_number;
use std::alloc::{AllocError, Global};

// Adds the part for each number of a range: the number stands in the places of `$n`, and the next one in those of `$m`.
fn add_counted(
    alloc: Global,
    all: &mut String,
    (first, last): (usize, usize),
    part: &str,
) -> Result<(), AllocError> {
    for number in first..=last {
        let part = with_number(alloc, part, "$n", number)?;
        let part = with_number(alloc, part.as_str(), "$m", number.saturating_add(1))?;
        all.push_str(part.as_str())?;
    }
    Ok(())
}

// The numbers of `FIRST..LAST`.
fn range_of(text: &str) -> Option<(usize, usize)> {
    let (first, last) = text.split_once("..")?;
    let first = first.parse::<usize>().ok()?;
    let last = last.parse::<usize>().ok()?;
    Some((first, last))
}

// Adds what stands between two backquotes, as often as it says, and tells whether it says so.
fn add_repeated(alloc: Global, all: &mut String, text: &str) -> Result<bool, AllocError> {
    let (times, part) = text.split_once(' ').unwrap_or((text, ""));
    if let Ok(count) = times.parse::<usize>() {
        all.push_str(part.repeat(alloc, count)?.as_str())?;
        return Ok(true);
    }
    if let Some(range) = range_of(times) {
        add_counted(alloc, all, range, part)?;
        return Ok(true);
    }
    Ok(false)
}

/// The text with each part between two backquotes as often as it says, where the text stands at the line.
pub fn expanded(alloc: Global, line: usize, text: &str) -> Result<String, Fault> {
    let mut all = String::new(alloc);
    let mut is_plain = false;
    let mut is_read = true;
    for part in text.split('`') {
        is_plain = !is_plain;
        if is_plain {
            all.push_str(part)?;
        } else if !add_repeated(alloc, &mut all, part)? {
            is_read = false;
        }
    }
    if is_plain && is_read {
        return Ok(all);
    }
    Err(Fault::Malformed(
        line,
        "malformed: backquotes want `COUNT PART` or `FIRST..LAST PART`",
    ))
}
