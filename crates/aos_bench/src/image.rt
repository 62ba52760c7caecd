// Images of one module, procedure by procedure.

use aos_code::{Body, Cell, Image, Kind, ModuleDesc, ProcShape};
use std::alloc::{AllocError, Global};

/// An image of nothing.
pub fn no_image(alloc: Global) -> Image {
    Image {
        modules: Vec::new(alloc),
        types: Vec::new(alloc),
        shapes: Vec::new(alloc),
        bodies: Vec::new(alloc),
        conds: Vec::new(alloc),
    }
}

/// Adds a module of so many cells, which hold 0 at first. Its body is the first procedure.
pub fn add_module(alloc: Global, image: &mut Image, cells: usize) -> Result<(), AllocError> {
    let module = ModuleDesc {
        name: String::from_str(alloc, "M")?,
        cells: vec![in alloc; Cell::Num(0); cells]?,
        body: 1,
    };
    image.modules.push(module)?;
    Ok(())
}

// The shape of a procedure that takes and gives nothing, with so many local variables, which are numbers.
fn shape(alloc: Global, method: bool, locals: u32) -> Result<ProcShape, AllocError> {
    let kinds = vec![in alloc; Kind::N; locals as usize]?;
    Ok(ProcShape {
        module: 0,
        params: Vec::new(alloc),
        cells: locals,
        counted: locals,
        keeps: 0,
        result: None,
        method,
        kinds,
    })
}

/// Adds a procedure or a method that takes and gives nothing, with so many local variables, which are numbers.
pub fn add_procedure(
    alloc: Global,
    image: &mut Image,
    method: bool,
    locals: u32,
    body: Body,
) -> Result<(), AllocError> {
    image.shapes.push(shape(alloc, method, locals)?)?;
    image.bodies.push(body)?;
    Ok(())
}
