// What is told of the soundness of code.

use crate::assembly::code_of;
use crate::stop::Stop;
use crate::word::index_of;
use aos_code::{Body, Image};
use aos_sound::{is_sound, is_sound_cond};
use std::alloc::Global;

// The most operands of the code.
const DEPTH: u32 = 4;

// What is said of code that is sound so.
fn words_of(as_procedure: bool, as_condition: bool) -> &'static str {
    match (as_procedure, as_condition) {
        (true, true) => "procedure and condition",
        (true, false) => "procedure",
        (false, true) => "condition",
        (false, false) => "neither",
    }
}

/// Tells as what code is sound in the procedure of a number, with four operands at most.
pub fn soundness(alloc: Global, image: &Image, text: &str) -> Result<&'static str, Stop> {
    let (own, code) = text.split_once(' ').unwrap_or((text, ""));
    let own = index_of(own).unwrap_or(0);
    if own == 0 || image.shapes.len() < own as usize {
        return Err(Stop::Malformed("malformed: there is no such procedure"));
    }
    let body = Body {
        code: code_of(alloc, code)?,
        depth: DEPTH,
    };
    let as_procedure = is_sound(alloc, &body, own, image)?;
    let as_condition = is_sound_cond(alloc, &body, own, image)?;
    Ok(words_of(as_procedure, as_condition))
}
