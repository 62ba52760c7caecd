// Modules that import one another: the order in which they are loaded, or the rule that they break.

use crate::trees::tree_of;
use crate::untold::Untold;
use aos_order::order;
use aos_tree::Module;
use std::alloc::{AllocError, Global};

// The text of the module of a line, as `A: B, X := C` or `A`.
fn text_of(alloc: Global, line: &str) -> Result<String, AllocError> {
    match line.split_once(": ") {
        None => format!(in alloc; "MODULE {line}; END {line}."),
        Some((name, imports)) => format!(in alloc; "MODULE {name}; IMPORT {imports}; END {name}."),
    }
}

// The trees of texts.
fn trees_of(alloc: Global, texts: &[Vec<u8>]) -> Result<Vec<Module>, Untold> {
    let mut modules = Vec::new(alloc);
    for text in texts {
        modules.push(tree_of(alloc, text)?)?;
    }
    Ok(modules)
}

/// What comes of modules with what they import, in the order of the command; `|` stands between them.
pub fn told_order(alloc: Global, lines: &str) -> Result<String, Untold> {
    let mut texts = Vec::<Vec<u8>>::new(alloc);
    for line in lines.split('|') {
        texts.push(text_of(alloc, line.trim())?.into_bytes())?;
    }
    let modules = trees_of(alloc, &texts)?;
    if modules.len() != texts.len() {
        return Err(Untold::Malformed);
    }
    let found = order(alloc, &modules, &texts);
    Ok(format!(in alloc; "{found:?}")?)
}
