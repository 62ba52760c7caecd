// How fast a text is scanned.

ghost use Rattle.std.specs.Prelude.{◌≤◌, ◌^◌, length};

use crate::stop::Stop;
use crate::words::{next_number, next_word};
use aos_dev::{Got, Shelf};
use aos_scan::scan;
use std::alloc::Global;
use std::slice::Iter;

// How many tokens the scans found in all.
fn count_tokens(alloc: Global, text: &[u8], times: u32) -> Result<u64, Stop>
    requires size { length text.now ≤ 2 ^ 20 }
{
    let mut total = 0u64;
    for _ in 0..times {
        let Ok(tokens) = scan(alloc, text) else {
            return Err(Stop::Refused);
        };
        total = total.saturating_add(tokens.len() as u64);
    }
    Ok(total)
}

/// `FILE TIMES`: how many tokens so many scans of the file's text found in all.
pub fn measured<S: Shelf>(
    alloc: Global,
    shelf: &mut S,
    words: &mut Iter<String>,
) -> Result<u64, Stop> {
    let file = next_word(words)?;
    let times = next_number(words)?;
    let mut text = Vec::new(alloc);
    if shelf.fetch(file, 1_048_576, &mut text) != Got::Text {
        return Err(Stop::Unread);
    }
    count_tokens(alloc, &text, times)
}
