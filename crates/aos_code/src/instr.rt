// Instructions, and the cells that they work on.

use aos_base::{Binary, Relation, Root, Unary};

/// What a cell or an operand holds.
#[derive(Clone, Copy)]
pub enum Cell {
    Num(i64),
    /// An object, by its number from 1 in the order of making; 0 is NIL.
    Ref(u32),
    /// A procedure, by its number from 1, and the object whose method it is, 0 for none; procedure 0 is NIL.
    Call(u32, u32),
    /// A place: its root, the number of its cell, and the dynamic type of a record there, 0 for none.
    Place(Root, u32, u32),
}

/// The kind of what a cell holds.
#[derive(Clone, Copy)]
pub enum Kind {
    /// A number.
    N,
    /// An object or NIL.
    R,
    /// A procedure value.
    C,
    /// A place.
    A,
}

/// An instruction. It takes its operands from the stack, the last one from the top, and puts its result there.
#[derive(Clone, Copy)]
pub enum Instr {
    /// Gives a number.
    Num(i64),
    /// Gives NIL.
    Nil,
    /// Gives the procedure value that is NIL.
    NilCall,
    /// Gives the procedure of this number, which is no method, as a value.
    Proc(u32),
    /// Gives the object on which the frame's procedure is called; trap 16 where it is called on none.
    SelfRef,
    /// Gives the topmost operand once more.
    Dup,
    /// Takes an operand.
    Drop,
    /// Exchanges the two topmost operands.
    Swap,
    /// Gives the place of a cell of the frame itself.
    Frame(u32),
    /// Gives the place of a cell of a module, by the numbers of both.
    Module(u32, u32),
    /// Gives the place that a parameter's cell holds.
    Param(u32),
    /// Gives the length that a parameter's cell holds.
    Length(u32),
    /// Takes an object and gives the place of its cell of this number, with the object's type; trap 1 at NIL.
    Deref(u32),
    /// Takes an open array that is an object, and gives its place and its lengths; trap 1 at NIL, trap 16 where it has not so many.
    OpenRef(u32),
    /// Takes a place and gives the one so many cells on, with this dynamic type of a record there, 0 for none.
    Offset(u32, u32),
    /// Takes the place of an array of so many elements, each of so many cells, and an index, and gives the element's place;
    /// trap 2 outside.
    Index(u32, u32),
    /// Takes the place of an open array, so many lengths, of which the first is the array's own, and an index, and gives the
    /// element's place and the other lengths, where an element of the last dimension has so many cells; trap 2 outside.
    IndexOpen(u32, u32),
    /// Takes the place of an open array and so many lengths, and gives the length of this number from 0.
    PickLen(u32, u32),
    /// Takes a number and gives what the operator does; trap 16 where the operator isn't defined for it.
    Unary(Unary),
    /// Takes two numbers and gives what the operator does; trap 16 where the operator isn't defined for them.
    Binary(Binary),
    /// Takes two objects and gives whether they are one.
    EqRef,
    /// Takes two procedure values and gives whether they are one.
    EqCall,
    /// Takes an object and gives the method that its type has in the slot of this number, from 0, with the object, as a value; trap 1 at
    /// NIL.
    Bind(u32),
    /// Takes an object and gives whether its type extends the one of this number, from 1; NIL's doesn't.
    Is(u32),
    /// Takes a record's place and gives whether the record's type extends the one of this number, from 1.
    IsPlace(u32),
    /// Takes an object and gives it; trap 3 where its type doesn't extend the one of this number, from 1, or it is NIL.
    Guard(u32),
    /// Takes a record's place and gives it; trap 3 where the record's type doesn't extend the one of this number, from 1.
    GuardPlace(u32),
    /// Takes a value of this kind and keeps it in the frame, under this number.
    Keep(u32, Kind),
    /// Gives what is kept under this number, which is of this kind.
    Kept(u32, Kind),
    /// Traps with this number.
    Fail(u8),
    /// Takes 1; traps with 7 and this code where it finds 0.
    Assert(u8),
    /// Traps with 8 and this code.
    Halt(u8),
    /// Goes on at the instruction of this number.
    Jump(u32),
    /// Takes a number, and where it is 0 goes on at the instruction of this number.
    JumpFalse(u32),
    /// Begins the statement at this line and column.
    Begin(u32, u32),
    /// Takes a place and gives what its cell holds.
    Load(Kind),
    /// Takes a place and what its cell is to hold.
    Store(Kind),
    /// Takes two places, the second one from the top, and copies so many cells from the second to the first.
    Copy(u32),
    /// Takes the place of a text and its length, and those of an array of characters, and stores the text there; where it doesn't
    /// fit, trap 15 if the flag is set, and else its beginning.
    PutText(bool),
    /// Takes the places and lengths of two texts and gives whether they are so related.
    CmpText(Relation),
    /// Takes its arguments, the last one from the top, and below them the object on which it is called where it is a method, and calls
    /// the procedure of this number; trap 1 at NIL, trap 11 where it is too deep.
    Call(u32),
    /// Takes the arguments of the method of the second number, and below them an object, and calls on it the method that its type has
    /// in the slot of the first number, from 0, which takes and gives the same; trap 1 at NIL, trap 11 where it is too deep.
    Virtual(u32, u32),
    /// Takes the arguments of the procedure of this number, and below them a procedure value, and calls what that stands for, which takes
    /// and gives the same, a method on the value's object; trap 1 at NIL, trap 11 where it is too deep.
    CallValue(u32),
    /// Makes an object of the type of this number, from 1, and gives it; trap 12 where the heap is full.
    NewObject(u32),
    /// Takes so many lengths, and makes an open array of them of the type of the first number, from 1, and gives it; trap 15 where
    /// a length is below 1, trap 12 where the heap is full.
    NewArray(u32, u32),
    /// Takes an object and starts its activity; trap 13 where there is no room for one, trap 16 where its type has no active body.
    Start,
    /// Asks for the frame's lock, that of the object on which its procedure is called, or else of its module, and opens its region;
    /// trap 9 where the activity owns it.
    Enter,
    /// Closes the frame's region, and releases its lock; trap 16 where the region isn't open.
    Leave,
    /// Waits in the frame's region for the condition of this number, from 0, while its lock is free for others; trap 16 where the region
    /// isn't open.
    Await(u32),
    /// Takes 0 or 1 and ends a condition, which holds where that is 1; trap 16 in a body that is no condition.
    Verdict,
    /// Ends the frame, with the result on the stack where there is one; trap 16 where its region is open.
    Return,
    /// Takes the code of a character and writes it.
    OutChar,
    /// Takes a number and in how many places it is written.
    OutInt,
    /// Takes the place of a text and its length and writes it.
    OutString,
    /// Ends the line.
    OutLn,
    /// Writes nothing.
    OutOpen,
}
