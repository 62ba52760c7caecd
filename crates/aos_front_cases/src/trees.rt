// The trees of modules: one tree is read from a text however often, and a token at another place, another token or one more
// makes another tree.

use crate::tokens::tokens_of;
use crate::untold::Untold;
use aos_parse_mod::module;
use aos_same::same;
use aos_tree::Module;
use std::alloc::Global;

/// The tree of a text.
pub fn tree_of(alloc: Global, text: &[u8]) -> Result<Module, Untold> {
    let tokens = tokens_of(alloc, text)?;
    Ok(module(alloc, &tokens)?)
}

// What the trees come to, each asked as the first and as the second.
fn compared(one: &Module, again: &Module, other: &Module) -> &'static str {
    if !same(one, again) {
        return "none";
    }
    match (same(one, other), same(other, one)) {
        (true, true) => "one",
        (false, false) => "apart",
        _ => "one from one side",
    }
}

/// Whether two texts have one tree or trees apart.
pub fn told_trees(alloc: Global, text: &str, other: &str) -> Result<String, Untold> {
    let one = tree_of(alloc, text.as_bytes())?;
    let again = tree_of(alloc, text.as_bytes())?;
    let other = tree_of(alloc, other.as_bytes())?;
    Ok(String::from_str(alloc, compared(&one, &again, &other))?)
}
