// What the text of a program uses.

/// The declared variable that a designator names, in whole or in part: behind the last pointer that is followed.
#[derive(Clone, Copy, PartialEq, Eq)]
pub enum Variable {
    /// A variable or a string constant of a module, by the numbers of both.
    Module(u32, u32),
    /// A field of an object, by the number in the table of the type that declares it, and its own.
    Field(u32, u32),
    /// A local, or a parameter by value that is no open array.
    Local,
    /// What a VAR parameter stands for that is no open array.
    Passed,
    /// An open array parameter, by its number.
    Opened(u32),
    /// What a pointer leads to.
    Heap,
}

/// A variable, and whether SELF is the first name of the designator and the variable, a field, the next.
#[derive(Clone, Copy)]
pub struct Target {
    pub of: Variable,
    pub through_self: bool,
}

/// One use that a text makes of something.
#[derive(Clone, Copy)]
pub enum Use {
    /// A variable is written, or a part of it, in an exclusive block or not.
    Writes(Target, bool),
    /// An expression reads a variable, or a part of it.
    Reads(Target),
    /// A variable or a part of it is handed over for a VAR parameter.
    Varies(Target),
    /// A pointer, or an object that is named otherwise than as SELF, is followed.
    Follows,
    /// SELF is a value.
    SelfValue,
    /// A call that is neither one of a predeclared procedure nor one by `^`.
    Calls,
    /// The method that a type has in a slot is called by `^`.
    Raises(u32, u32),
    /// A designator names a method, by the type that is known of the object and the method's slot.
    Finds(u32, u32),
    /// A method is a value.
    Binds,
    /// An object of a type with an initializer or a body is made.
    Makes,
}
