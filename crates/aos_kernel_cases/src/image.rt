// Images, as the sections of a case say them.

use crate::assembly::code_of;
use crate::shape::shape_of;
use crate::stop::Stop;
use crate::word::{byte_of, index_of, kind_of, number_of};
use aos_cases::Section;
use aos_code::{Body, Cell, Image, Kind, ModuleDesc, TypeDesc};
use std::alloc::Global;

// How many operands a body has room for at first.
const DEPTH: u32 = 6;

/// An image of nothing.
pub fn no_image(alloc: Global) -> Image {
    Image {
        modules: Vec::new(alloc),
        types: Vec::new(alloc),
        shapes: Vec::new(alloc),
        bodies: Vec::new(alloc),
        conds: Vec::new(alloc),
    }
}

// What a cell holds: `num N`, or `ref N` for an object.
fn cell_of(text: &str) -> Option<Cell> {
    let (name, number) = text.split_once(' ').unwrap_or((text, ""));
    match (name, number_of(number), index_of(number)) {
        ("num", Some(number), _) => Some(Cell::Num(number)),
        ("ref", _, Some(number)) => Some(Cell::Ref(number)),
        _ => None,
    }
}

// A module: the number of its body, and what its cells hold at first, as in `1 num 0, ref 0`.
fn module_of(alloc: Global, text: &str) -> Result<ModuleDesc, Stop> {
    let (body, list) = text.split_once(' ').unwrap_or((text, ""));
    let Some(body) = index_of(body) else {
        return Err(Stop::Malformed("malformed: a module has no body's number"));
    };
    let mut cells = Vec::new(alloc);
    for part in list.split_terminator(", ") {
        match cell_of(part) {
            Some(cell) => cells.push(cell)?,
            None => return Err(Stop::Malformed("malformed: a cell is `num N` or `ref N`")),
        }
    }
    Ok(ModuleDesc {
        name: String::from_str(alloc, "M")?,
        cells,
        body,
    })
}

// The kinds that words name.
fn kinds_of(alloc: Global, text: &str) -> Result<Vec<Kind>, Stop> {
    let mut kinds = Vec::new(alloc);
    for word in text.split_whitespace() {
        match kind_of(word) {
            Some(kind) => kinds.push(kind)?,
            None => return Err(Stop::Malformed("malformed: a kind is n, r, c or a")),
        }
    }
    Ok(kinds)
}

// The numbers that words write.
fn indices_of(alloc: Global, text: &str) -> Result<Vec<u32>, Stop> {
    let mut indices = Vec::new(alloc);
    for word in text.split_whitespace() {
        match index_of(word) {
            Some(index) => indices.push(index)?,
            None => return Err(Stop::Malformed("malformed: a method is a procedure's number")),
        }
    }
    Ok(indices)
}

// A type: the number of its body, the kinds of its cells, whether its body is active, the type that it extends, its methods, and the
// priority of its objects' activities, as in `4 n r; active no; extends 2; methods 12 13; priority 3`.
fn type_of(alloc: Global, text: &str) -> Result<TypeDesc, Stop> {
    let (text, priority) = text.split_once("; priority ").unwrap_or((text, "2"));
    let (text, methods) = text.split_once("; methods ").unwrap_or((text, ""));
    let (text, base) = text.split_once("; extends ").unwrap_or((text, "0"));
    let (text, active) = text.split_once("; active ").unwrap_or((text, "yes"));
    let (body, kinds) = text.split_once(' ').unwrap_or((text, ""));
    let (Some(body), Some(base)) = (index_of(body), index_of(base)) else {
        return Err(Stop::Malformed("malformed: a type has no body's number"));
    };
    let Some(priority) = byte_of(priority) else {
        return Err(Stop::Malformed("malformed: a priority is a number below 256"));
    };
    let kinds = kinds_of(alloc, kinds)?;
    Ok(TypeDesc {
        base,
        cells: u32::try_from(kinds.len()).unwrap_or(0),
        kinds,
        methods: indices_of(alloc, methods)?,
        init: 0,
        body,
        active: body != 0 && active == "yes",
        priority,
        safe: false,
    })
}

// The body that a text says.
fn body_of(alloc: Global, text: &str) -> Result<Body, Stop> {
    Ok(Body {
        code: code_of(alloc, text)?,
        depth: DEPTH,
    })
}

// Adds a procedure: its shape stands in the first line, and its code below.
fn add_procedure(alloc: Global, image: &mut Image, method: bool, text: &str) -> Result<(), Stop> {
    let (head, code) = text.split_once('\n').unwrap_or((text, ""));
    image.shapes.push(shape_of(alloc, method, head)?)?;
    image.bodies.push(body_of(alloc, code)?)?;
    Ok(())
}

// Adds what a section says of an image.
fn add(alloc: Global, image: &mut Image, name: &str, text: &str) -> Result<(), Stop> {
    match name {
        "module" => image.modules.push(module_of(alloc, text)?)?,
        "type" => image.types.push(type_of(alloc, text)?)?,
        "condition" => image.conds.push(body_of(alloc, text)?)?,
        "procedure" => add_procedure(alloc, image, false, text)?,
        "method" => add_procedure(alloc, image, true, text)?,
        _ => {}
    }
    Ok(())
}

/// The image of a case: what its own sections say of it, and behind that what those say that it shares with other cases.
pub fn image_of(alloc: Global, own: &[Section], shared: &[Section]) -> Result<Image, Stop> {
    let mut image = no_image(alloc);
    for section in own {
        add(
            alloc,
            &mut image,
            section.name.as_str(),
            section.text.as_str(),
        )?;
    }
    for section in shared {
        add(
            alloc,
            &mut image,
            section.name.as_str(),
            section.text.as_str(),
        )?;
    }
    Ok(image)
}
