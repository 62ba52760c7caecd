// The relations between types of a table, their scalars, the kinds of their cells, and whether they contain themselves.

use crate::types::{set, type_of, types_of};
use crate::untold::Untold;
use aos_base::NoMemory;
use aos_code::Kind;
use aos_layout::shape;
use aos_types::{TypeId, Types};
use std::alloc::{AllocError, Global};

// The types of a table, one of which becomes another where a line says so.
fn changed(alloc: Global, table: &str, line: &str) -> Result<Types, NoMemory> {
    let mut types = types_of(alloc, table)?;
    if !line.is_empty() {
        set(alloc, &mut types, table, line)?;
    }
    Ok(types)
}

fn flag(holds: bool, letter: char) -> char {
    if holds { letter } else { '-' }
}

/// Whether the first of two types extends the second, `e`, is the same, `s`, and fits it, `f`.
pub fn told_relation(alloc: Global, table: &str, line: &str, pair: &str) -> Result<String, Untold> {
    let types = changed(alloc, table, line)?;
    let (first, second) = pair.split_once(' ').unwrap_or((pair, ""));
    let (a, b) = (type_of(table, first), type_of(table, second));
    let extends = flag(types.extends(a, b), 'e');
    let same = flag(types.same(a, b), 's');
    let fits = flag(types.fits(a, b), 'f');
    Ok(format!(in alloc; "{extends}{same}{fits}")?)
}

fn fitting(types: &Types, from: TypeId, to: TypeId) -> char {
    match (types.same(from, to), types.fits(from, to)) {
        (true, true) => '=',
        (false, true) => '1',
        (false, false) => '0',
        (true, false) => '?',
    }
}

fn all_fitting(alloc: Global, types: &Types, from: TypeId) -> Result<String, AllocError> {
    let mut out = String::new(alloc);
    let Ok(count) = u32::try_from(types.len()) else {
        return Ok(out);
    };
    for to in 0..count {
        out.push(fitting(types, from, TypeId(to)))?;
    }
    Ok(out)
}

/// For each type of the table `=` where a type is the same and fits it, 1 where it fits it and is another, and 0 where it does
/// neither.
pub fn told_fits(alloc: Global, table: &str, word: &str) -> Result<String, Untold> {
    let types = types_of(alloc, table)?;
    Ok(all_fitting(alloc, &types, type_of(table, word))?)
}

// The scalars of a type, where no type of the table contains itself.
fn leaves(alloc: Global, types: &Types, id: TypeId) -> Result<Option<u32>, Untold> {
    if (id.0 as usize) < types.len() && types.none_contains_itself(alloc)? {
        Ok(types.leaves(id))
    } else {
        Err(Untold::Malformed)
    }
}

/// How many scalars a type has.
pub fn told_scalars(alloc: Global, table: &str, line: &str, word: &str) -> Result<String, Untold> {
    let types = changed(alloc, table, line)?;
    match leaves(alloc, &types, type_of(table, word))? {
        Some(count) => Ok(count.to_string(alloc)?),
        None => Ok(String::from_str(alloc, "too many")?),
    }
}

// The kinds of the cells of a type that has no more scalars than it may have, where no type of the table contains itself.
fn kinds(alloc: Global, types: &Types, id: TypeId) -> Result<Vec<Kind>, Untold> {
    if (id.0 as usize) < types.len() && types.none_contains_itself(alloc)? {
        if types.leaves(id).is_none() {
            return Err(Untold::Malformed);
        }
        let kinds = shape(alloc, types, id)?;
        Ok(kinds)
    } else {
        Err(Untold::Malformed)
    }
}

fn letter(kind: Kind) -> char {
    match kind {
        Kind::N => 'n',
        Kind::R => 'r',
        Kind::C => 'c',
        Kind::A => 'a',
    }
}

/// The kinds of a type's cells, a letter for each: of a number n, of a reference r, of a procedure value c, and of a place a.
pub fn told_kinds(alloc: Global, table: &str, line: &str, word: &str) -> Result<String, Untold> {
    let types = changed(alloc, table, line)?;
    let kinds = kinds(alloc, &types, type_of(table, word))?;
    let mut out = String::new(alloc);
    for kind in &kinds {
        out.push(letter(*kind))?;
    }
    Ok(out)
}

/// Whether a type contains itself.
pub fn told_contained(
    alloc: Global,
    table: &str,
    line: &str,
    word: &str,
) -> Result<String, Untold> {
    let types = changed(alloc, table, line)?;
    let is_contained = types.contains_itself(alloc, type_of(table, word))?;
    let told = if is_contained { "yes" } else { "no" };
    Ok(String::from_str(alloc, told)?)
}
