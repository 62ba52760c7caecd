// Modules through the three passes, each by itself: names, headings, bodies.

use crate::trees::tree_of;
use crate::types::types_of;
use crate::untold::Untold;
use aos_base::{NoMemory, Pos};
use aos_check_decl::declare;
use aos_check_names::check_names;
use aos_check_stat::body_of;
use aos_symbols::{Breach, Env};
use aos_tree::{Block, Boxed, Items, Module};
use aos_typed::TStat;
use std::alloc::{AllocError, Global};

/// The types that stand first in each table.
pub const BASIC: &str = "\
short
integer
long
huge
boolean
char
set
nil
any
text 0";

// The first broken rule with its column, behind what is told of the passes before.
fn tell(out: &mut String, found: Option<Breach>) -> Result<(), AllocError> {
    if !out.is_empty() {
        out.push_str(", ")?;
    }
    match found {
        None => out.push_str("kept"),
        Some(breach) => write!(out, "{} at {}", breach.rule, breach.pos.col),
    }
}

// The form of a statement of the typed program, and its place.
fn form_of(statement: &TStat) -> (&'static str, Pos) {
    match statement {
        TStat::Assign(pos, _, _, _) => ("Assign", *pos),
        TStat::PutText(pos, _, _, _) => ("PutText", *pos),
        TStat::While(pos, _, _) => ("While", *pos),
        TStat::Block(pos, _, _) => ("Block", *pos),
        TStat::Await(pos, _, _) => ("Await", *pos),
        TStat::Perform(pos, _, _) => ("Perform", *pos),
        TStat::New(pos, _, _, _) => ("New", *pos),
        _ => ("another", Pos { line: 0, col: 0 }),
    }
}

/// The forms of statements with their columns, each behind a blank.
pub fn tell_forms(out: &mut String, statements: &[TStat]) -> Result<(), AllocError> {
    out.push(':')?;
    for statement in statements {
        let (form, pos) = form_of(statement);
        write!(out, " {form} {}", pos.col)?;
    }
    Ok(())
}

// What the body comes to.
fn tell_body(
    alloc: Global,
    out: &mut String,
    env: &mut Env<'_>,
    body: &Option<Boxed<Block>>,
) -> Result<(), AllocError> {
    let mut found = None;
    let body = body_of(alloc, &mut found, env, false, body)?;
    tell(out, found)?;
    tell_forms(out, &body)
}

// What the headings and the body come to.
fn tell_rest(alloc: Global, out: &mut String, text: &[u8], tree: &Module) -> Result<(), NoMemory> {
    let mut found = None;
    let types = types_of(alloc, BASIC)?;
    let mut env = declare(alloc, &mut found, Items::new(alloc), types, text, tree)?;
    tell(out, found)?;
    tell_body(alloc, out, &mut env, &tree.body)?;
    Ok(())
}

/// What the passes of a module come to: the first broken rule of each, and the statements of its body.
pub fn told_passes(alloc: Global, text: &str) -> Result<String, Untold> {
    let tree = tree_of(alloc, text.as_bytes())?;
    let mut out = String::new(alloc);
    tell(&mut out, check_names(alloc, text.as_bytes(), &tree)?)?;
    tell_rest(alloc, &mut out, text.as_bytes(), &tree)?;
    Ok(out)
}
