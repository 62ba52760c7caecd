// Tables of types. A line is `NAME = ROW` or a row alone, which then is the type's name: what the type is made of, by names or
// by numbers of lines, from 0. It is a basic type, `text LENGTH`, `array LENGTH ELEMENT`, `open ELEMENT`, `record BASE FIELD ..`,
// `object BASE FIELD ..`, `pointer TARGET`, `procedure RESULT PARAMETER ..` or `any`, with `-` for none and `VAR.TYPE` for VAR.

use aos_base::NoMemory;
use aos_types::{Basic, Items, TypeId, TypeRow, Types};
use std::alloc::{AllocError, Global};

fn basic_of(name: &str) -> Option<Basic> {
    match name {
        "short" => Some(Basic::ShortInt),
        "integer" => Some(Basic::Integer),
        "long" => Some(Basic::LongInt),
        "huge" => Some(Basic::HugeInt),
        "boolean" => Some(Basic::Boolean),
        "char" => Some(Basic::Char),
        "set" => Some(Basic::Set),
        "nil" => Some(Basic::Nil),
        _ => None,
    }
}

// A line's name, and its row.
fn parted(line: &str) -> (&str, &str) {
    line.split_once(" = ").unwrap_or((line, line))
}

// The number of the line with a name.
fn named(table: &str, name: &str) -> TypeId {
    let mut at = 0u32;
    for line in table.split('\n') {
        if parted(line).0 == name {
            return TypeId(at);
        }
        if !line.is_empty() {
            at = at.saturating_add(1);
        }
    }
    TypeId(u32::MAX)
}

/// The type of a table that a word names.
pub fn type_of(table: &str, word: &str) -> TypeId {
    match word.parse::<u32>() {
        Ok(number) => TypeId(number),
        Err(_) => named(table, word),
    }
}

fn type_or_none(table: &str, word: &str) -> Option<TypeId> {
    if word == "-" {
        None
    } else {
        Some(type_of(table, word))
    }
}

fn number(word: &str) -> u32 {
    word.parse::<u32>().unwrap_or(0)
}

fn fields(alloc: Global, table: &str, words: &str) -> Result<Items<TypeId>, AllocError> {
    let mut fields = Items::new(alloc);
    for word in words.split_whitespace() {
        fields.push(type_of(table, word))?;
    }
    Ok(fields)
}

fn formals(alloc: Global, table: &str, words: &str) -> Result<Items<(bool, TypeId)>, AllocError> {
    let mut formals = Items::new(alloc);
    for word in words.split_whitespace() {
        let (by_reference, word) = match word.split_once('.') {
            None => (false, word),
            Some((_, word)) => (true, word),
        };
        formals.push((by_reference, type_of(table, word)))?;
    }
    Ok(formals)
}

// A type made of others, a first one and more.
fn made_of(
    alloc: Global,
    table: &str,
    name: &str,
    (first, more): (&str, &str),
) -> Result<TypeRow, AllocError> {
    Ok(match name {
        "array" => TypeRow::Array(number(first), type_of(table, more)),
        "open" => TypeRow::Open(type_of(table, first)),
        "record" => TypeRow::Record(type_or_none(table, first), fields(alloc, table, more)?),
        "pointer" => TypeRow::Pointer(type_of(table, first)),
        "object" => TypeRow::Object(type_or_none(table, first), fields(alloc, table, more)?),
        "procedure" => TypeRow::Procedure(formals(alloc, table, more)?, type_or_none(table, first)),
        "text" => TypeRow::Basic(Basic::Text(number(first))),
        _ => TypeRow::Any,
    })
}

fn row_of(alloc: Global, table: &str, row: &str) -> Result<TypeRow, AllocError> {
    if let Some(basic) = basic_of(row) {
        return Ok(TypeRow::Basic(basic));
    }
    let (name, parts) = row.split_once(' ').unwrap_or((row, ""));
    made_of(
        alloc,
        table,
        name,
        parts.split_once(' ').unwrap_or((parts, "")),
    )
}

// A row behind the others.
fn put(types: &mut Types, row: TypeRow) -> Result<(), NoMemory> {
    if types.len() >= 4_294_967_296 {
        return Err(NoMemory);
    }
    let _ = types.add(row)?;
    Ok(())
}

/// The types of a table.
pub fn types_of(alloc: Global, table: &str) -> Result<Types, NoMemory> {
    let mut types = Types::new(alloc)?;
    for line in table.split('\n') {
        if !line.is_empty() {
            put(&mut types, row_of(alloc, table, parted(line).1)?)?;
        }
    }
    Ok(types)
}

/// Puts the row of a line, as `NAME = ROW`, in the place of the type with this name.
pub fn set(alloc: Global, types: &mut Types, table: &str, line: &str) -> Result<(), AllocError> {
    let (name, row) = parted(line);
    let id = type_of(table, name);
    if (id.0 as usize) < types.len() {
        types.set(id, row_of(alloc, table, row)?);
    }
    Ok(())
}
