// What an instruction does.

use aos_base::{Pos, Relation, Root};
use aos_code::{Cell, Kind};

/// The place of a cell: its root and its number.
#[derive(Clone, Copy)]
pub struct Address {
    pub root: Root,
    pub cell: u32,
}

/// A procedure value: a procedure, 0 for NIL, and the object whose method it is, 0 for none.
#[derive(Clone, Copy)]
pub struct Callable {
    pub procedure: u32,
    pub object: u32,
}

/// How the operands of a call are handed over.
#[derive(Clone, Copy)]
pub enum Way {
    /// They are its arguments, with the object on which it is called as the first.
    Direct,
    /// The first one is a procedure value, whose object is handed over in its place.
    Bound,
    /// The first one is a procedure value, which isn't handed over.
    Free,
}

/// Visible work that an instruction asks for. Its operands lie on the stack still.
#[derive(Clone, Copy)]
pub enum Question {
    Reads(Kind, Address),
    Stores(Address, Cell),
    /// So many cells are copied from the first place to the second.
    Copies(u32, Address, Address),
    /// A text is stored: whether it has to fit, its place and length, and those of the array that gets it.
    PutsText(bool, Address, i64, Address, i64),
    /// The places and lengths of two texts that are compared.
    ComparesTexts(Relation, Address, i64, Address, i64),
    /// A procedure is called with so many operands, which are handed over in this way.
    Calls(u32, Way, usize),
    /// The end of the frame, with the result where there is one.
    Ends(Option<Cell>),
    /// An object of this type is made, an open array whose lengths are so many operands.
    Makes(u32, u32),
    Starts(u32),
    /// The region of the frame's lock, and the end of that region.
    Enters,
    Leaves,
    /// The condition of this number is awaited in the region.
    Awaits(u32),
    PutsInt(i64, i64),
    PutsChar(i64),
    PutsString(Address, i64),
    PutsNothing,
    PutsLn,
}

/// What one instruction does: silent work after which so many instructions are passed over, or where that ends.
#[derive(Clone, Copy)]
pub enum Act {
    Goes(usize),
    Sees(Question),
    Begins(usize, Pos),
    Fails(u8, u8),
    /// A condition ends with this number.
    Decides(i64),
}

/// Code that finds another operand than it takes, or runs past its end.
pub const LOST: Act = Act::Fails(16, 0);
