// What the kernel runs.

use crate::instr::{Cell, Instr, Kind};

/// The code of a procedure, and how many operands it has at most.
#[derive(Drop)]
pub struct Body {
    pub code: Vec<Instr>,
    pub depth: u32,
}

/// What a parameter takes in a frame.
#[derive(Clone, Copy)]
pub enum ParamKind {
    /// A value of one cell, of this kind.
    Scalar(Kind),
    /// A record or an array by value, of so many cells.
    Whole(u32),
    /// The place of a variable.
    Place,
    /// The place of an open array, and its lengths: how many dimensions are open, whether it is passed by value, and how many
    /// cells an element has.
    Open(u32, bool, u32),
}

/// What is known of a procedure.
#[derive(Drop)]
pub struct ProcShape {
    /// The number of the module in which it stands, in load order from 0.
    pub module: u32,
    pub params: Vec<ParamKind>,
    /// How many cells its parameters and locals have.
    pub cells: u32,
    /// How many of them count as scalars of a frame.
    pub counted: u32,
    /// How many cells more a frame keeps values in that its statements are to use later.
    pub keeps: u32,
    /// The kind of what a function gives.
    pub result: Option<Kind>,
    /// It is called on an object, or is an object's body.
    pub method: bool,
    /// The kinds of its cells, in their order.
    pub kinds: Vec<Kind>,
}

/// A module: its name, what its cells hold at first, and the number of the procedure that is its body, 0 for none.
#[derive(Drop)]
pub struct ModuleDesc {
    pub name: String,
    pub cells: Vec<Cell>,
    pub body: u32,
}

/// A type of objects.
#[derive(Drop)]
pub struct TypeDesc {
    /// The number of the type that it extends, 0 for none.
    pub base: u32,
    /// How many cells an object has; of an open array, one element.
    pub cells: u32,
    /// The kinds of an object's cells, in their order; of an open array those of one element.
    pub kinds: Vec<Kind>,
    /// The numbers of the procedures that are its methods, by their slots.
    pub methods: Vec<u32>,
    /// The number of the procedure that is its objects' initializer, 0 for none.
    pub init: u32,
    /// The number of the procedure that is its objects' body, 0 for none.
    pub body: u32,
    /// Whether an activity of each object's own carries out that body; else its creator does.
    pub active: bool,
    /// The priority of such activities: 1, 2 or 3.
    pub priority: u8,
    /// Whether they begin anew after a trap.
    pub safe: bool,
}

/// A program in code. Procedures are numbered from 1, and procedure p has shape and body p - 1; so are types. The
/// number 0 names no procedure and no type: a module or type whose body is 0 has nothing to run. Conditions are numbered
/// from 0; one that is awaited is evaluated over the frame that awaits it.
#[derive(Drop)]
pub struct Image {
    pub modules: Vec<ModuleDesc>,
    pub types: Vec<TypeDesc>,
    pub shapes: Vec<ProcShape>,
    pub bodies: Vec<Body>,
    pub conds: Vec<Body>,
}
