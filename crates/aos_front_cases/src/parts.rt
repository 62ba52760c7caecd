// Expressions, blocks and modules: how much of a text they take, and their shape.

use crate::tokens::tokens_of;
use crate::trees::tree_of;
use crate::untold::Untold;
use aos_parse_expr::{desig, expr};
use aos_parse_stat::block;
use aos_tree::{Block, Desig, Expr, Factor, Selector, Sign};
use std::alloc::{AllocError, Global};

// The most productions that nest.
const MOST_NESTED: u32 = 200;

// The expression that a text begins with, where so many productions that nest are open round it, and how many tokens it has.
fn expression_of(alloc: Global, text: &str, depth: u32) -> Result<(Expr, usize), Untold> {
    let tokens = tokens_of(alloc, text.as_bytes())?;
    if depth > MOST_NESTED {
        return Err(Untold::Malformed);
    }
    Ok(expr(alloc, &tokens, 0, depth)?)
}

/// How many tokens the expression has that a text begins with.
pub fn told_expression(alloc: Global, text: &str, depth: u32) -> Result<String, Untold> {
    let (_, next) = expression_of(alloc, text, depth)?;
    Ok(format!(in alloc; "ends {next}")?)
}

// The sign, how many terms come after the first, whether a relation comes, and whether the last term begins with ~.
fn shape_of(alloc: Global, tree: &Expr) -> Result<String, AllocError> {
    let is_not = match tree.left.rest.as_slice() {
        [.., last] => matches!(&last.right.first, Factor::Not(_, _)),
        [] => false,
    };
    let terms = tree.left.rest.len();
    let is_relation = tree.right.get().is_some();
    let sign = match tree.left.sign {
        None => "no sign",
        Some(Sign::Plus) => "plus",
        Some(Sign::Minus) => "minus",
    };
    format!(in alloc; "{sign}, {terms} more terms, relation {is_relation}, not {is_not}")
}

/// The shape of the expression that a text begins with, and how many tokens it has.
pub fn told_shape(alloc: Global, text: &str) -> Result<String, Untold> {
    let (tree, next) = expression_of(alloc, text, 0)?;
    let shape = shape_of(alloc, &tree)?;
    Ok(format!(in alloc; "{shape}, ends {next}")?)
}

// The column, and that of the parenthesis behind the name with how many expressions it has.
fn shape_of_name(alloc: Global, name: &Desig) -> Result<String, AllocError> {
    let (col, count) = match name.selectors.as_slice() {
        [Selector::Paren(pos, all)] => (pos.col, all.len()),
        _ => (0, 0),
    };
    format!(in alloc; "name at {}, {count} arguments at {col}", name.name.pos.col)
}

/// The shape of the designator behind a text's first token, and the place after it.
pub fn told_name(alloc: Global, text: &str) -> Result<String, Untold> {
    let tokens = tokens_of(alloc, text.as_bytes())?;
    if tokens.len() < 2 {
        return Err(Untold::Malformed);
    }
    let (name, next) = desig(alloc, &tokens, 1, 0)?;
    let shape = shape_of_name(alloc, &name)?;
    Ok(format!(in alloc; "{shape}, ends {next}")?)
}

// The block that a text begins with, and how many tokens it has.
fn block_of(alloc: Global, text: &str, depth: u32) -> Result<(Block, usize), Untold> {
    let tokens = tokens_of(alloc, text.as_bytes())?;
    if depth > MOST_NESTED {
        return Err(Untold::Malformed);
    }
    Ok(block(alloc, &tokens, 0, depth)?)
}

/// How many tokens and statements the block has that a text begins with.
pub fn told_block(alloc: Global, text: &str, depth: u32) -> Result<String, Untold> {
    let (tree, next) = block_of(alloc, text, depth)?;
    let count = tree.body.stats.len();
    Ok(format!(in alloc; "ends {next}, {count} statements")?)
}

/// How many imports and declarations a module has.
pub fn told_module(alloc: Global, text: &str) -> Result<String, Untold> {
    let tree = tree_of(alloc, text.as_bytes())?;
    let imports = tree.imports.len();
    let decls = tree.decls.len();
    Ok(format!(in alloc; "{imports} imports, {decls} declarations")?)
}
