// Words that stand for numbers, kinds and widths.

use aos_base::{Relation, Width};
use aos_code::Kind;
use std::str::SplitWhitespace;

/// The width of so many bits.
pub fn width_of(bits: i64) -> Option<Width> {
    match bits {
        8 => Some(Width::W8),
        16 => Some(Width::W16),
        32 => Some(Width::W32),
        64 => Some(Width::W64),
        _ => None,
    }
}

/// The kind that a letter names.
pub fn kind_of(word: &str) -> Option<Kind> {
    match word {
        "n" => Some(Kind::N),
        "r" => Some(Kind::R),
        "c" => Some(Kind::C),
        "a" => Some(Kind::A),
        _ => None,
    }
}

/// The relation that a sign stands for.
pub fn relation_of(sign: &str) -> Option<Relation> {
    match sign {
        "=" => Some(Relation::Equal),
        "#" => Some(Relation::NotEqual),
        "<" => Some(Relation::Less),
        "<=" => Some(Relation::LessEqual),
        ">" => Some(Relation::Greater),
        ">=" => Some(Relation::GreaterEqual),
        _ => None,
    }
}

/// The number that a word writes.
pub fn number_of(word: &str) -> Option<i64> {
    word.parse::<i64>().ok()
}

/// The number of something that a word writes.
pub fn index_of(word: &str) -> Option<u32> {
    u32::try_from(number_of(word)?).ok()
}

/// The number below 256 that a word writes.
pub fn byte_of(word: &str) -> Option<u8> {
    u8::try_from(number_of(word)?).ok()
}

/// The number of something that the next word writes.
pub fn next_index(words: &mut SplitWhitespace) -> Option<u32> {
    index_of(words.next()?)
}
