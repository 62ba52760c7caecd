// What a variable or a cell is in.

/// What a place is in: the frame above so many frames of the same activity; a module, by its number in load order from 0; an
/// object, by its number from 1 in the order of making.
#[derive(Clone, Copy, PartialEq, Eq)]
pub enum Root {
    Frame(u32),
    Module(u32),
    Object(u32),
}
