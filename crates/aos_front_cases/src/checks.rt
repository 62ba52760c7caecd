// The checks of a module, each by itself: its declarations, the values that its body assigns, and its body.

use crate::passes::{BASIC, tell_forms};
use crate::trees::tree_of;
use crate::types::types_of;
use crate::untold::Untold;
use aos_base::Refusal;
use aos_checks::{CheckErr, body, declare, expr};
use aos_symbols::Env;
use aos_tree::{Block, Boxed, Expr, Items, Stat};
use std::alloc::{AllocError, Global};

// The number of the file that the checks are told.
const FILE: u32 = 3;

// The rule that is broken, with its column and the number of its file.
fn tell_refusal(out: &mut String, refusal: Refusal) -> Result<(), AllocError> {
    write!(
        out,
        "{} at {} of {}",
        refusal.rule, refusal.pos.col, refusal.file
    )
}

// What stopped a check.
fn tell_stop(out: &mut String, err: CheckErr) -> Result<(), Untold> {
    match err {
        CheckErr::Refused(refusal) => Ok(tell_refusal(out, refusal)?),
        CheckErr::NoMemory => Err(Untold::NoMemory),
    }
}

// The number of the type of a value, with a blank behind it.
fn tell_value(alloc: Global, out: &mut String, env: &Env<'_>, value: &Expr) -> Result<(), Untold> {
    match expr(alloc, FILE, env, value) {
        Ok(answer) => match answer.known.of {
            Some(of) => write!(out, "{}", of.0)?,
            None => out.push_str("any")?,
        },
        Err(err) => tell_stop(out, err)?,
    }
    Ok(out.push(' ')?)
}

// The types of the values that a body assigns outside its inner statements.
fn tell_values(
    alloc: Global,
    out: &mut String,
    env: &Env<'_>,
    part: &Option<Boxed<Block>>,
) -> Result<(), Untold> {
    let Some(held) = part else {
        return Ok(());
    };
    let statements = held.get().body.stats.as_slice();
    for stat in statements {
        if let Stat::Assign(_, _, value) = stat {
            tell_value(alloc, out, env, value.get())?;
        }
    }
    Ok(())
}

// The statements of a body, or what stopped its check.
fn tell_parts(
    alloc: Global,
    out: &mut String,
    mut env: Env<'_>,
    part: &Option<Boxed<Block>>,
) -> Result<(), Untold> {
    tell_values(alloc, out, &env, part)?;
    match body(alloc, FILE, &mut env, false, part) {
        Ok(statements) => Ok(tell_forms(out, &statements)?),
        Err(err) => tell_stop(out, err),
    }
}

/// What the checks of a module come to: the types of the values that its body assigns, and the body's statements, or the first
/// broken rule in the place of what breaks it.
pub fn told_checks(alloc: Global, text: &str) -> Result<String, Untold> {
    let tree = tree_of(alloc, text.as_bytes())?;
    let types = types_of(alloc, BASIC)?;
    let mut out = String::new(alloc);
    match declare(
        alloc,
        FILE,
        Items::new(alloc),
        types,
        text.as_bytes(),
        &tree,
    ) {
        Ok(env) => tell_parts(alloc, &mut out, env, &tree.body)?,
        Err(err) => tell_stop(&mut out, err)?,
    }
    Ok(out)
}
