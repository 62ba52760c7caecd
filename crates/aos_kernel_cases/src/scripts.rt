// What is told of the texts of scripts.

use crate::run::MAX_SCRIPT;
use crate::state::add_entries;
use crate::stop::Stop;
use aos_script::{Script, print_script, read_script};
use std::alloc::{AllocError, Global};

// A text as it is meant: it has `\n` for each line's end and `\r` for a carriage return.
fn meant(alloc: Global, text: &str) -> Result<String, AllocError> {
    let text = text.replace(alloc, "\\n", "\n")?;
    text.replace(alloc, "\\r", "\r")
}

// Tells what a script says, in its own words.
fn told_of(alloc: Global, script: &Script) -> Result<String, AllocError> {
    let (workers, budget) = (script.workers, script.budget);
    let mut told = format!(in alloc; "workers {workers}; budget {budget}")?;
    add_entries(&mut told, script.runs.as_slice())?;
    Ok(told)
}

/// Tells what a text says, or why it is refused.
pub fn script(alloc: Global, text: &str) -> Result<String, Stop> {
    let text = meant(alloc, text)?;
    if MAX_SCRIPT < text.len() {
        return Err(Stop::Malformed("malformed: the script is too long"));
    }
    match read_script(alloc, text.as_bytes()) {
        Ok(script) => Ok(told_of(alloc, &script)?),
        Err(refusal) => Ok(format!(in alloc; "{refusal}")?),
    }
}

/// Tells what the script that a text says is printed as, with `\n` for each line's end; or why the text is refused.
pub fn print(alloc: Global, text: &str) -> Result<String, Stop> {
    let text = meant(alloc, text)?;
    if MAX_SCRIPT < text.len() {
        return Err(Stop::Malformed("malformed: the script is too long"));
    }
    match read_script(alloc, text.as_bytes()) {
        Ok(script) => {
            let printed = print_script(alloc, &script)?;
            let told = String::from_utf8_lossy(alloc, printed.as_slice())?;
            Ok(told.replace(alloc, "\n", "\\n")?)
        }
        Err(refusal) => Ok(format!(in alloc; "{refusal}")?),
    }
}
