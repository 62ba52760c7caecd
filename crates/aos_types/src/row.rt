// The rows of the table of types.

use crate::items::Items;

/// A type, by its number in the table, from 0.
#[derive(Clone, Copy)]
pub struct TypeId(pub u32);

/// A basic type, or that of a constant which no variable has.
#[derive(Clone, Copy)]
pub enum Basic {
    /// 8 bits.
    ShortInt,
    /// 16 bits.
    Integer,
    /// 32 bits.
    LongInt,
    /// 64 bits.
    HugeInt,
    Boolean,
    Char,
    Set,
    /// The type of NIL.
    Nil,
    /// The type of a string constant of so many characters.
    Text(u32),
}

/// A row of the table: what a type is made of.
#[derive(Drop)]
pub enum TypeRow {
    Basic(Basic),
    /// The length, and the type of the elements.
    Array(u32, TypeId),
    /// The type of the elements.
    Open(TypeId),
    /// The base, and the types of the own fields in order of declaration.
    Record(Option<TypeId>, Items<TypeId>),
    /// The type that it leads to.
    Pointer(TypeId),
    /// The base, and the types of the own fields in order of declaration.
    Object(Option<TypeId>, Items<TypeId>),
    /// The formal parameters, each with true for VAR and its type, and the type of the result.
    Procedure(Items<(bool, TypeId)>, Option<TypeId>),
    /// ANY: what holds each pointer and each object.
    Any,
}
