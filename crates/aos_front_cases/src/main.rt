//! Cases of the way from a text to its typed program: tokens, trees, passes, the table of types, the load order, and which
//! conditions are local; and of the words that the program is given. The words of this one name files of cases.
//!
//! A question is a section, and behind it stands the answer that is wanted, `told`. Its text is asked for its `tokens`; for
//! the `expression` or the `block` that it begins with, where as many productions are open round it as `nested` says; for
//! the `shape` of that expression, and of the `name` behind the first token; for the `module` that it is, and what its
//! `passes` and its `checks` come to; whether it and `other` have one tree, `trees`; and for the `order` of modules. Of the
//! table `types`, in which `set` puts another row, the questions are `relation`, `fits`, `scalars`, `kinds` and `contained`. Of files,
//! which are the sections with a point in their names, they are `conditions` and, with their places, `places`. Of a text of
//! `words` it is the command that they are.
#![tactic(auto)]

mod checks;
mod conditions;
mod orders;
mod parts;
mod passes;
mod questions;
mod relations;
mod tokens;
mod trees;
mod types;
mod untold;
mod words;

use crate::questions::{flaw_of, is_question, text_or, told_of};
use aos_cases::{Asks, Case, answer_files, tell};
use std::alloc::AllocError;
use std::process::ExitCode;

// What stands for an answer that is wanted where none is.
const NOTHING: &str = "malformed: no answer is wanted";

// The questions of a case.
struct Asked;

impl<R: AllocGlobal> Asks<R> for Asked {
    fn counts(&self, _case: &Case) -> bool {
        true
    }

    fn told(&self, rt: &R, _above: &[Case], case: &Case) -> Result<String, AllocError> {
        let alloc = rt.alloc();
        if let Some(flaw) = flaw_of(&case.sections) {
            return String::from_str(alloc, flaw);
        }
        let mut told = String::new(alloc);
        for (at, section) in case.sections.iter().enumerate() {
            if is_question(section.name.as_str()) {
                let behind = case.sections.get(at.saturating_add(1)..).unwrap_or(&[]);
                let wanted = text_or(behind, "told", NOTHING);
                let found = told_of(alloc, &case.sections, section)?;
                tell(alloc, &mut told, "told", found.as_bytes(), wanted)?;
            }
        }
        Ok(told)
    }
}

fn main(rt: HostRuntime) -> ExitCode {
    answer_files(&rt, &Asked)
}
