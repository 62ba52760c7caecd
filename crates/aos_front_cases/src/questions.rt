// What a case asks, and what is told of it.

use crate::checks::told_checks;
use crate::conditions::{Style, told_conditions};
use crate::orders::told_order;
use crate::parts::{told_block, told_expression, told_module, told_name, told_shape};
use crate::passes::told_passes;
use crate::relations::{told_contained, told_fits, told_kinds, told_relation, told_scalars};
use crate::tokens::told_tokens;
use crate::trees::told_trees;
use crate::untold::{Untold, told_instead};
use crate::words::told_words;
use aos_cases::Section;
use std::alloc::{AllocError, Global};

/// Whether a section asks something.
pub fn is_question(name: &str) -> bool {
    is_question_of_text(name) || is_question_of_types(name) || is_question_of_files(name)
}

fn is_question_of_text(name: &str) -> bool {
    matches!(
        name,
        "tokens"
            | "expression"
            | "shape"
            | "name"
            | "block"
            | "module"
            | "passes"
            | "checks"
            | "trees"
            | "order"
            | "words"
    )
}

fn is_question_of_types(name: &str) -> bool {
    matches!(
        name,
        "relation" | "fits" | "scalars" | "kinds" | "contained"
    )
}

fn is_question_of_files(name: &str) -> bool {
    matches!(name, "conditions" | "places")
}

// Whether a section says something that is known: a question, what is told, what a question is about, or a file.
fn is_known(name: &str) -> bool {
    is_question(name)
        || matches!(name, "told" | "nested" | "other" | "types" | "set")
        || name.contains('.')
}

/// Why these are no sections of a case; None where they are.
pub fn flaw_of(sections: &[Section]) -> Option<&'static str> {
    let mut is_asked = false;
    for section in sections {
        let name = section.name.as_str();
        if !is_known(name) {
            return Some("malformed: a section says nothing known");
        }
        is_asked = is_asked || is_question(name);
    }
    if is_asked {
        None
    } else {
        Some("malformed: nothing is asked")
    }
}

/// The text of the first section with a name, and the default where none has it.
pub fn text_or<'a>(sections: &'a [Section], name: &str, default: &'a str) -> &'a str {
    for section in sections {
        if section.name.as_str() == name {
            return section.text.as_str();
        }
    }
    default
}

// What is told of a text.
fn told_of_text(alloc: Global, sections: &[Section], question: &Section) -> Result<String, Untold> {
    let text = question.text.as_str();
    let nested = text_or(sections, "nested", "0");
    let nested = nested.parse::<u32>().unwrap_or(u32::MAX);
    match question.name.as_str() {
        "tokens" => told_tokens(alloc, text),
        "expression" => told_expression(alloc, text, nested),
        "shape" => told_shape(alloc, text),
        "name" => told_name(alloc, text),
        "block" => told_block(alloc, text, nested),
        "module" => told_module(alloc, text),
        "passes" => told_passes(alloc, text),
        "checks" => told_checks(alloc, text),
        "order" => told_order(alloc, text),
        "words" => told_words(alloc, text),
        _ => told_trees(alloc, text, text_or(sections, "other", "")),
    }
}

// What is told of types of a table.
fn told_of_types(
    alloc: Global,
    sections: &[Section],
    question: &Section,
) -> Result<String, Untold> {
    let text = question.text.as_str();
    let table = text_or(sections, "types", "");
    let line = text_or(sections, "set", "");
    match question.name.as_str() {
        "relation" => told_relation(alloc, table, line, text),
        "fits" => told_fits(alloc, table, text),
        "scalars" => told_scalars(alloc, table, line, text),
        "kinds" => told_kinds(alloc, table, line, text),
        _ => told_contained(alloc, table, line, text),
    }
}

// What is told of the conditions of files.
fn told_of_files(
    alloc: Global,
    sections: &[Section],
    question: &Section,
) -> Result<String, Untold> {
    let style = if question.name.as_str() == "places" {
        Style::Places
    } else {
        Style::Letters
    };
    told_conditions(alloc, style, sections)
}

/// What is told of a question of a case.
pub fn told_of(
    alloc: Global,
    sections: &[Section],
    question: &Section,
) -> Result<String, AllocError> {
    let name = question.name.as_str();
    let told = if is_question_of_text(name) {
        told_of_text(alloc, sections, question)
    } else if is_question_of_types(name) {
        told_of_types(alloc, sections, question)
    } else {
        told_of_files(alloc, sections, question)
    };
    match told {
        Ok(told) => Ok(told),
        Err(untold) => told_instead(alloc, untold),
    }
}
