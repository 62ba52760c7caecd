// Open arrays: how many dimensions are open, and what is behind them.

ghost use Rattle.std.specs.Prelude.{◌≡◌};
ghost use Rattle.aos_types.specs.Sameness.{element_of as element_in};
ghost use Rattle.aos_types.specs.Table as table;
ghost use Rattle.aos_typed.specs.Open as dimensions;

use aos_types::{TypeId, TypeRow, Types};

/// The type of an open array's elements.
fn element_of(types: &Types, t: TypeId) -> Option<TypeId>
    ensures { result ≡ element_in (table.row_of types.now t) }
{
    if t.0 as usize >= types.len() {
        return None;
    }
    match types.row(t) {
        TypeRow::Open(element) => Some(*element),
        _ => None,
    }
}

/// An open array: how many of its dimensions are open, and the type of the elements behind them.
#[derive(Clone, Copy)]
pub struct OpenArray {
    pub dimensions: u64,
    pub element: TypeId,
}

/// The open dimensions of a type.
pub fn open_array(types: &Types, t: TypeId) -> OpenArray
    ensures dimensions { result.dimensions ≡ dimensions.open_dimensions types.now t }
    ensures element { result.element ≡ dimensions.open_element types.now t }
{
    let mut open = OpenArray {
        dimensions: 0,
        element: t,
    };
    for _step in 0..types.len() {
        let Some(element) = element_of(types, open.element) else {
            return open;
        };
        open.dimensions += 1;
        open.element = element;
    }
    open
}
