// The typed program.

ghost use Rattle.std.specs.Prelude.{◌≤◌};
ghost use Rattle.aos_typed.specs.declared.tree.TPlace.{size-TPlace};
ghost use Rattle.aos_typed.specs.declared.tree.TExpr.{size-TExpr};

use aos_base::{Binary, Pos, Priority, Relation, Unary, Width};
use aos_types::Types;

/// A string constant: the module in whose text it stands and its number among the strings there, each from 0, how many characters
/// it has, and the code of the first one, 0 where it has none.
#[derive(Clone, Copy)]
pub struct TextConstant {
    pub home: u32,
    pub number: u32,
    pub length: u32,
    pub first: u8,
}

/// A value that is written in the text.
#[derive(Clone, Copy)]
pub enum Literal {
    Int(i64),
    Bool(bool),
    /// A character, by its code.
    Char(u8),
    /// A set, whose elements are the bits that are 1.
    Set(u32),
    /// A string constant. One of one character is also a value, that character (Oberon-2 report, 3).
    Text(TextConstant),
    /// No object.
    Nil,
    /// No procedure.
    NoProcedure,
}

/// A designator. The string constants of a module are numbered on from its variables.
#[cycle(parts)]
pub enum TPlace {
    /// A variable of a module, by the module's number in load order and the variable's number, each from 0.
    ModuleVar(u32, u32),
    /// A local of the procedure, or a parameter by value that is no open array, by its number among these.
    Local(u32),
    /// What a VAR parameter stands for that is no open array, by its number.
    Passed(u32),
    /// A field of a record or an object, by the type that is known of that and the field's number from 0, the type's base's first.
    Field(Box<TPlace>, TType, u32),
    /// An element of an array of so many elements, each of this type, by its index; trap 2 where that isn't one of them.
    Index(Box<TPlace>, u32, TType, Box<TExpr>),
    /// An element of an open array, behind all its dimensions.
    Of(Box<TRows>),
    /// The record or the array of this type that an object is, or the object of this type with its fields; trap 1 at NIL.
    Deref(Box<TExpr>, TType),
    /// A record with its type, by the type's number in the program.
    Typed(Box<TPlace>, u32),
    /// The record that a VAR parameter stands for, where its type extends this one; else trap 3.
    Guarded(Box<TPlace>, u32),
}

/// An array with the lengths of some of its dimensions, the first ones.
#[cycle(parts)]
#[derive(Drop)]
pub enum TRows {
    /// One whose lengths are known.
    Known(Box<TPlace>, Vec<u32>),
    /// An open array parameter, by its number, with so many open dimensions.
    Opened(u32, u32),
    /// An element of an array with open dimensions, which has one less, by its index; trap 2 where there is none. The elements behind
    /// all dimensions are of this type.
    Row(Box<TRows>, TType, Box<TExpr>),
    /// The open array that an object is, with so many open dimensions; trap 1 at NIL.
    Spread(Box<TExpr>, u32),
    /// An array with open dimensions, with the known lengths of dimensions behind these.
    Longer(Box<TRows>, Vec<u32>),
}

/// What a call hands over for a parameter.
#[cycle(parts)]
#[derive(Drop)]
pub enum TArgument {
    /// A value of a basic type.
    Scalar(TExpr),
    /// A record or an array by value, which is copied, or a variable for a VAR parameter.
    Whole(TPlace),
    /// An array for an open array parameter.
    Opening(TRows),
}

// A long designator has as many parts, one in another: it is dropped by a loop, which takes no stack.
impl Drop for TPlace {
    #[cycle(drops)]
    fn drop(mut self) {
        loop {
            match self {
                TPlace::ModuleVar(_, _) => return,
                TPlace::Local(_) => return,
                TPlace::Passed(_) => return,
                TPlace::Of(_) => return,
                TPlace::Deref(_, _) => return,
                TPlace::Typed(place, _) => self = Box::into_inner(place),
                TPlace::Guarded(place, _) => self = Box::into_inner(place),
                TPlace::Field(whole, _, _) => self = Box::into_inner(whole),
                TPlace::Index(whole, _, _, index) => {
                    drop(index);
                    self = Box::into_inner(whole);
                }
            }
        }
    }
}

impl TPlace {
    // What is left of a designator without its last part, as an expression: one that reads it, or that asks for its length.
    #[cycle(drops)]
    fn rest(self) -> TExpr
        ensures { size-TExpr result ≤ size-TPlace self }
    {
        match self {
            TPlace::ModuleVar(_, _) => TExpr::SelfRef,
            TPlace::Local(_) => TExpr::SelfRef,
            TPlace::Passed(_) => TExpr::SelfRef,
            TPlace::Of(rows) => TExpr::Len(Box::into_inner(rows), 0),
            TPlace::Deref(object, _) => Box::into_inner(object),
            TPlace::Typed(whole, _) => TExpr::Read(TType::Any, Box::into_inner(whole)),
            TPlace::Guarded(whole, _) => TExpr::Read(TType::Any, Box::into_inner(whole)),
            TPlace::Field(whole, _, _) => TExpr::Read(TType::Any, Box::into_inner(whole)),
            TPlace::Index(whole, _, _, index) => {
                drop(index);
                TExpr::Read(TType::Any, Box::into_inner(whole))
            }
        }
    }
}

/// What is called.
#[cycle(parts)]
#[derive(Drop)]
pub enum TCallee {
    /// A procedure of a module, by the numbers of both, each from 0.
    Plain(u32, u32),
    /// A method of an object, by the type that is known of the object, by its number in the program, and the method's slot: the one
    /// that the object's own type has there. Trap 1 at NIL.
    Dispatched(Box<TExpr>, u32, u32),
    /// The method that a type has in a slot, called on SELF, by the numbers of both.
    Upper(u32, u32),
    /// What a value of a procedure type stands for, by the type's number in the program. Trap 1 at NIL.
    Through(Box<TExpr>, u32),
}

/// An expression.
#[cycle(parts)]
pub enum TExpr {
    Lit(Literal),
    /// The object whose method or body it is in.
    SelfRef,
    /// A variable of this type.
    Read(TType, TPlace),
    Unary(Unary, Box<TExpr>),
    Binary(Binary, Box<TExpr>, Box<TExpr>),
    /// The second operand is evaluated where the first is TRUE alone.
    And(Box<TExpr>, Box<TExpr>),
    /// The second operand is evaluated where the first is FALSE alone.
    Or(Box<TExpr>, Box<TExpr>),
    /// The set of one element; trap 14 where that isn't 0 to 31.
    Element(Box<TExpr>),
    /// The code of a character.
    Ord(Box<TExpr>),
    /// The character of a code; trap 14 where that isn't 0 to 255.
    Chr(Box<TExpr>),
    /// Two texts compared, each an array of characters with its length.
    CompareTexts(Relation, Box<TRows>, Box<TRows>),
    /// The length of a dimension of an array, which is found first.
    Len(TRows, u32),
    /// The length of a dimension behind the open ones, which is known. The array is found first.
    LenBehind(TRows, u32),
    /// The result of a function.
    Function(TCallee, Vec<TArgument>),
    /// Whether two operands are one object, or both NIL.
    Same(Box<TExpr>, Box<TExpr>),
    /// Whether an object's type extends this one, by its number in the program; FALSE of NIL.
    Is(Box<TExpr>, u32),
    /// Whether the type of the record that a VAR parameter stands for extends this one.
    IsRecord(Box<TPlace>, u32),
    /// An object whose type extends this one; else, and at NIL, trap 3.
    Guard(Box<TExpr>, u32),
    /// A procedure of a module as a value, by the numbers of both, each from 0.
    ProcedureOf(u32, u32),
    /// A method of an object as a value, with the object, by the type that is known of the object and the method's slot: the one that
    /// the object's own type has there. Trap 1 at NIL.
    MethodOf(Box<TExpr>, u32, u32),
    /// Whether two procedure values stand for one procedure, and for methods of one object, or are both NIL.
    SameProcedure(Box<TExpr>, Box<TExpr>),
}

// A long sum has as many left operands, and a long designator as many parts, one in another: they are dropped by a loop, which
// takes no stack. What is left of a designator is held as an expression that reads it, of an array as one that asks for its length.
impl Drop for TExpr {
    #[cycle(drops)]
    fn drop(mut self) {
        loop {
            match self {
                TExpr::Lit(_) => return,
                TExpr::SelfRef => return,
                TExpr::Read(_, place) => self = place.rest(),
                TExpr::Len(rows, _) => match rows {
                    TRows::Opened(_, _) => return,
                    TRows::Known(place, lengths) => {
                        drop(lengths);
                        self = TExpr::Read(TType::Any, Box::into_inner(place));
                    }
                    TRows::Row(whole, _, index) => {
                        drop(index);
                        self = TExpr::Len(Box::into_inner(whole), 0);
                    }
                    TRows::Spread(object, _) => self = Box::into_inner(object),
                    TRows::Longer(whole, lengths) => {
                        drop(lengths);
                        self = TExpr::Len(Box::into_inner(whole), 0);
                    }
                },
                TExpr::CompareTexts(_, _, _) => return,
                TExpr::LenBehind(_, _) => return,
                TExpr::Function(callee, arguments) => {
                    drop(arguments);
                    match callee {
                        TCallee::Plain(_, _) => return,
                        TCallee::Upper(_, _) => return,
                        TCallee::Dispatched(object, _, _) => self = Box::into_inner(object),
                        TCallee::Through(value, _) => self = Box::into_inner(value),
                    }
                }
                TExpr::IsRecord(_, _) => return,
                TExpr::ProcedureOf(_, _) => return,
                TExpr::Is(operand, _) => self = Box::into_inner(operand),
                TExpr::Guard(operand, _) => self = Box::into_inner(operand),
                TExpr::MethodOf(operand, _, _) => self = Box::into_inner(operand),
                TExpr::Unary(_, operand) => self = Box::into_inner(operand),
                TExpr::Element(operand) => self = Box::into_inner(operand),
                TExpr::Ord(operand) => self = Box::into_inner(operand),
                TExpr::Chr(operand) => self = Box::into_inner(operand),
                TExpr::SameProcedure(left, right) => {
                    drop(right);
                    self = Box::into_inner(left);
                }
                TExpr::Same(left, right) => {
                    drop(right);
                    self = Box::into_inner(left);
                }
                TExpr::Binary(_, left, right) => {
                    drop(right);
                    self = Box::into_inner(left);
                }
                TExpr::And(left, right) => {
                    drop(right);
                    self = Box::into_inner(left);
                }
                TExpr::Or(left, right) => {
                    drop(right);
                    self = Box::into_inner(left);
                }
            }
        }
    }
}

/// A call of a procedure of module Out.
#[derive(Drop)]
pub enum OutCall {
    Open,
    Char(TExpr),
    /// The number, and in how many places it stands.
    Int(TExpr, TExpr),
    /// A text, an array of characters with its length.
    String(TRows),
    Ln,
}

/// How INC, DEC, INCL and EXCL change a variable: an integer one of a width, or a set.
#[derive(Clone, Copy)]
pub enum Change {
    Add(Width),
    Subtract(Width),
    /// An element is put in; trap 14 where it isn't 0 to 31.
    Include,
    /// An element is taken out; trap 14 where it isn't 0 to 31.
    Exclude,
}

/// Labels of CASE: all numbers, or codes of characters, from the first to the last.
#[derive(Clone, Copy)]
pub struct LabelRange {
    pub low: i64,
    pub high: i64,
}

/// Labels of CASE that lead to the arm of this number; the first arm has the number 0.
#[derive(Clone, Copy)]
pub struct LabelRow {
    pub labels: LabelRange,
    pub arm: u32,
}

/// An arm of IF: its statements are carried out where its test is TRUE and none before was.
#[cycle(statements)]
#[derive(Drop)]
pub struct TArm {
    pub test: TExpr,
    pub body: Vec<TStat>,
}

/// An arm of CASE: its statements are carried out where the selector's value is in one of the ranges.
#[cycle(statements)]
#[derive(Drop)]
pub struct TCase {
    pub labels: Vec<LabelRange>,
    pub body: Vec<TStat>,
}

/// ELSE of CASE.
#[cycle(statements)]
#[derive(Drop)]
pub enum TElse {
    /// There is none: trap 4 where no arm has the selector's value.
    Missing,
    Else(Vec<TStat>),
}

/// A statement, each with its place in the text.
#[cycle(statements)]
#[derive(Drop)]
pub enum TStat {
    /// A value for a variable of this type.
    Assign(Pos, TType, TPlace, TExpr),
    /// A whole record or array of this type: the variable that gets it, and the one that is copied.
    Copy(Pos, TType, TPlace, TPlace),
    /// The text of a place with so many elements, and a 0X behind it, for an array of characters with so many. Where there is no room
    /// for it, that is trap 15 if the statement is strict, as an assignment is; else the text is cut, as COPY does.
    PutText(Pos, bool, TRows, TRows),
    /// IF, with the statements behind ELSE.
    If(Pos, Vec<TArm>, Vec<TStat>),
    Case(Pos, TExpr, Vec<TCase>, TElse),
    While(Pos, TExpr, Vec<TStat>),
    Repeat(Pos, Vec<TStat>, TExpr),
    Loop(Pos, Vec<TStat>),
    /// Leaves the innermost LOOP.
    Exit(Pos),
    /// FOR with an integer variable of this width: the value that it begins with, the last one, the step, and its statements.
    For(Pos, Width, TPlace, Box<TExpr>, Box<TExpr>, i64, Vec<TStat>),
    /// A block. One that is exclusive is a region of its body's lock: that of the object whose method or body it stands in, or else
    /// that of the module.
    Block(Pos, bool, Vec<TStat>),
    /// Goes on once a condition holds, which has this number among those of the program.
    Await(Pos, u32, TExpr),
    /// Trap 7 with a code where the condition is FALSE.
    Assert(Pos, TExpr, u8),
    /// Trap 8 with a code.
    Halt(Pos, u8),
    /// A variable is changed by a value.
    Change(Pos, Change, TPlace, TExpr),
    /// A call of a proper procedure.
    Perform(Pos, TCallee, Vec<TArgument>),
    /// The end of the procedure, with the result of a function.
    Return(Pos, Option<TExpr>),
    /// NEW of a variable of an object type: an object of this type, by the type's number in the program, and what its initializer is
    /// handed, where it has one. Then its body is carried out, by an activity of its own where it is active, where it has one.
    New(Pos, TPlace, u32, Vec<TArgument>),
    /// NEW of a pointer: a record or an array of this type, by its number in the program, and the lengths of an open array.
    Make(Pos, TPlace, u32, Vec<TExpr>),
    /// WITH: an object that is guarded first, and statements.
    With(Pos, TExpr, Vec<TStat>),
    /// WITH of a VAR parameter that stands for a record, which is guarded first.
    WithRecord(Pos, TPlace, Vec<TStat>),
    Out(Pos, OutCall),
}

/// The type of a variable: a basic type, or one that a module defines or writes, by its number among those of the program,
/// from 0.
#[derive(Clone, Copy)]
pub enum TType {
    Integer(Width),
    Boolean,
    Char,
    Set,
    /// Any object.
    Any,
    Named(u32),
}

/// A variable of a module or a procedure.
#[derive(Drop)]
pub struct TVariable {
    pub name: String,
    pub of: TType,
}

/// A parameter: by reference where VAR stands before it. The type of an open array parameter is an open array.
#[derive(Drop)]
pub struct TParameter {
    pub name: String,
    pub by_reference: bool,
    pub of: TType,
}

/// A procedure, with the place of its name, 0:0 where it has none, and the statements of its body; a proper one has no result. A
/// method or an object's body says of which type it is, by the type's number in the program, and an initializer that it is one. An
/// exclusive body is a region, as an exclusive block is.
#[derive(Drop)]
pub struct TProcedure {
    pub name: String,
    pub at: Pos,
    pub of: Option<u32>,
    pub is_initializer: bool,
    pub parameters: Vec<TParameter>,
    pub locals: Vec<TVariable>,
    pub result: Option<TType>,
    pub is_exclusive: bool,
    pub body: Vec<TStat>,
}

/// A method of an object type, with its slot: that of the method which it overrides, or else the next one behind those of the
/// type's base and of its own methods before.
#[derive(Drop)]
pub struct TMethod {
    pub slot: u32,
    pub procedure: TProcedure,
}

/// What stands beside a type that a module defines or writes: its name, which is empty where it has none, with its place, 0:0
/// then, the names of the fields that a type with a name declares itself, the number of its module in load order from 0, the body of
/// its objects, a procedure without parameters and locals, and the methods that it declares. A type that is no object type, or has no
/// body of its own, has an empty one that nothing carries out; that of a procedure type has the type's formals, and stands for all
/// procedures that have them.
#[derive(Drop)]
pub struct TObject {
    pub name: String,
    pub at: Pos,
    pub fields: Vec<String>,
    pub home: u32,
    /// Whether the body is carried out.
    pub has_body: bool,
    /// Whether each object has an activity of its own that carries out the body; else its creator does.
    pub is_active: bool,
    /// The priority of those activities.
    pub priority: Priority,
    pub body: TProcedure,
    pub methods: Vec<TMethod>,
}

/// A module, with its string constants, by the codes of their characters, its procedures, and the statements of its body, which is a
/// region of the module's lock where it is exclusive.
#[derive(Drop)]
pub struct TModule {
    pub name: String,
    pub variables: Vec<TVariable>,
    pub texts: Vec<Vec<u8>>,
    pub procedures: Vec<TProcedure>,
    pub is_exclusive: bool,
    pub body: Vec<TStat>,
}

/// A program: its modules in load order, the table of all types, of which the predeclared ones stand first, and beside each type
/// behind those its body.
#[derive(Drop)]
pub struct Program {
    pub modules: Vec<TModule>,
    pub types: Types,
    pub objects: Vec<TObject>,
}
