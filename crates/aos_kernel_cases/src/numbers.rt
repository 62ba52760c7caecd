// What is told of arithmetic and of sets.

use crate::word::{number_of, width_of};
use aos_base::{Width, abs, add, ash, div, modulo, mul, neg, set_has, set_span, sub};
use std::alloc::{AllocError, Global};
use std::fmt::Write;
use std::str::SplitWhitespace;

// What a sum, a difference, a product, a quotient, a remainder, a shift, a negation and an absolute value come to.
fn results_of(w: Width, a: i64, b: i64) -> [Option<i64>; 8] {
    [
        add(w, a, b),
        sub(w, a, b),
        mul(w, a, b),
        div(w, a, b),
        modulo(w, a, b),
        ash(w, a, b),
        neg(w, a),
        abs(w, a),
    ]
}

// The number that the next word writes, 0 where it writes none.
fn next_number(words: &mut SplitWhitespace) -> i64 {
    match words.next() {
        Some(word) => number_of(word).unwrap_or(0),
        None => 0,
    }
}

// Adds a number, or `-` where there is none.
fn add_number(told: &mut String, number: Option<i64>) -> Result<(), AllocError> {
    match number {
        Some(number) => write!(told, " {number}"),
        None => told.push_str(" -"),
    }
}

/// Tells the results of `WIDTH A B`, with `-` for one that there isn't, and nothing where there is no such width.
pub fn arithmetic(alloc: Global, text: &str) -> Result<String, AllocError> {
    let mut told = String::new(alloc);
    let mut words = text.split_whitespace();
    if let Some(width) = width_of(next_number(&mut words)) {
        let a = next_number(&mut words);
        let b = next_number(&mut words);
        for number in results_of(width, a, b) {
            add_number(&mut told, number)?;
        }
    }
    Ok(told)
}

/// Tells the set of the elements from `A` to `B`, with `-` where there is none.
pub fn span(alloc: Global, text: &str) -> Result<String, AllocError> {
    let mut words = text.split_whitespace();
    let a = next_number(&mut words);
    let b = next_number(&mut words);
    match set_span(a, b) {
        Some(set) => format!(in alloc; "{set:b}"),
        None => String::from_str(alloc, "-"),
    }
}

// What is said of whether something is an element.
fn word_of(has: Option<bool>) -> &'static str {
    match has {
        Some(true) => "yes",
        Some(false) => "no",
        None => "-",
    }
}

/// Tells whether the set `SET` has the element `X`, with `-` where no set could.
pub fn has(text: &str) -> &'static str {
    let mut words = text.split_whitespace();
    let set = next_number(&mut words);
    let x = next_number(&mut words);
    match u32::try_from(set) {
        Ok(set) => word_of(set_has(set, x)),
        Err(_) => "-",
    }
}
