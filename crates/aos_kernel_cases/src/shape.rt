// Shapes of procedures, as the head of a section says them: the module's number and a word for each parameter, as in
// `0 n open/1/1; gives n; keeps 2`.

use crate::stop::Stop;
use crate::word::{index_of, kind_of};
use aos_code::{Kind, ParamKind, ProcShape};
use std::alloc::{AllocError, Global};

// A parameter that has one or two numbers.
fn sized_param(name: &str, first: Option<u32>, second: Option<u32>) -> Option<ParamKind> {
    match (name, first, second) {
        ("whole", Some(cells), None) => Some(ParamKind::Whole(cells)),
        ("open", Some(dimensions), Some(cells)) => Some(ParamKind::Open(dimensions, false, cells)),
        ("copy", Some(dimensions), Some(cells)) => Some(ParamKind::Open(dimensions, true, cells)),
        _ => None,
    }
}

// A parameter: a kind, `place`, `whole/CELLS`, `open/DIMENSIONS/CELLS`, or `copy/DIMENSIONS/CELLS` for an open array by value.
fn param_of(word: &str) -> Option<ParamKind> {
    if let Some(kind) = kind_of(word) {
        return Some(ParamKind::Scalar(kind));
    }
    if word == "place" {
        return Some(ParamKind::Place);
    }
    let (name, rest) = word.split_once('/').unwrap_or((word, ""));
    let (first, second) = rest.split_once('/').unwrap_or((rest, ""));
    sized_param(name, index_of(first), index_of(second))
}

// The first kind among a parameter's cells, and how many numbers come behind it.
fn cells_of(param: ParamKind) -> (Kind, u32) {
    match param {
        ParamKind::Scalar(kind) => (kind, 0),
        ParamKind::Whole(cells) => (Kind::N, cells.saturating_sub(1)),
        ParamKind::Place => (Kind::A, 0),
        ParamKind::Open(dimensions, _, _) => (Kind::A, dimensions),
    }
}

// Adds the kinds of a parameter's cells: a whole has numbers alone, and an open array's place has its lengths behind it.
fn add_cells(kinds: &mut Vec<Kind>, param: ParamKind) -> Result<(), AllocError> {
    let (first, numbers) = cells_of(param);
    kinds.push(first)?;
    for _ in 0..numbers {
        kinds.push(Kind::N)?;
    }
    Ok(())
}

// Adds the parameters that words say.
fn add_params(shape: &mut ProcShape, text: &str) -> Result<(), Stop> {
    for word in text.split_whitespace() {
        let Some(param) = param_of(word) else {
            return Err(Stop::Malformed("malformed: a word says no parameter"));
        };
        shape.params.push(param)?;
        add_cells(&mut shape.kinds, param)?;
    }
    Ok(())
}

// Adds what a part of the head says: `gives KIND`, `local KIND` for a cell more, `keeps N`, or `counts N`.
fn add_part(shape: &mut ProcShape, part: &str) -> Result<(), Stop> {
    let (name, value) = part.split_once(' ').unwrap_or((part, ""));
    match (name, kind_of(value), index_of(value)) {
        ("gives", Some(kind), _) => shape.result = Some(kind),
        ("local", Some(kind), _) => shape.kinds.push(kind)?,
        ("keeps", _, Some(keeps)) => shape.keeps = keeps,
        ("counts", _, Some(counted)) => shape.counted = counted,
        _ => return Err(Stop::Malformed("malformed: a part says nothing known of a procedure")),
    }
    Ok(())
}

// A shape of no parameters.
fn bare_shape(alloc: Global, module: u32, method: bool) -> ProcShape {
    ProcShape {
        module,
        params: Vec::new(alloc),
        cells: 0,
        counted: 0,
        keeps: 0,
        result: None,
        method,
        kinds: Vec::new(alloc),
    }
}

/// The shape that a head says. As many cells count as the parameters have, where it doesn't say how many.
pub fn shape_of(alloc: Global, method: bool, head: &str) -> Result<ProcShape, Stop> {
    let (first, rest) = head.split_once("; ").unwrap_or((head, ""));
    let (module, params) = first.split_once(' ').unwrap_or((first, ""));
    let Some(module) = index_of(module) else {
        return Err(Stop::Malformed("malformed: a procedure has no module's number"));
    };
    let mut shape = bare_shape(alloc, module, method);
    add_params(&mut shape, params)?;
    shape.counted = u32::try_from(shape.kinds.len()).unwrap_or(0);
    for part in rest.split_terminator("; ") {
        add_part(&mut shape, part)?;
    }
    shape.cells = u32::try_from(shape.kinds.len()).unwrap_or(0);
    Ok(shape)
}
