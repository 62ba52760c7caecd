// The words that say what is measured.

use crate::stop::Stop;
use std::slice::Iter;

/// The next word.
pub fn next_word<'a>(words: &mut Iter<'a, String>) -> Result<&'a str, Stop> {
    match words.next() {
        Some(word) => Ok(word.as_str()),
        None => Err(Stop::Usage),
    }
}

/// The number that the next word writes.
pub fn next_number(words: &mut Iter<String>) -> Result<u32, Stop> {
    match next_word(words)?.parse::<u32>() {
        Ok(number) => Ok(number),
        Err(_) => Err(Stop::Usage),
    }
}
