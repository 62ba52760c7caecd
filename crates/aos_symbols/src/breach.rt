// Broken rules.

ghost use Rattle.std.specs.Prelude.{◌≡◌};
ghost use Rattle.aos_symbols.specs.Breaches.{is_before, sooner};

use aos_base::Pos;

/// The rule that a tree breaks at a place.
#[derive(Clone, Copy)]
pub struct Breach {
    pub rule: u16,
    pub pos: Pos,
}

/// A module is named Out.
pub const NAMED_OUT: u16 = 11;
/// The end name differs.
pub const OTHER_END: u16 = 12;
/// A name is declared twice in one scope, or SELF is declared.
pub const TWICE: u16 = 13;
/// A name that no scope has.
pub const UNKNOWN: u16 = 14;
/// A name of another module that has no export mark.
pub const NOT_EXPORTED: u16 = 15;
/// A type, a constant, a variable or a module is needed, and the name stands for something else.
pub const OTHER_KIND: u16 = 16;
/// A record's base that is no record.
pub const WRONG_BASE: u16 = 17;
/// A type that contains itself.
pub const CONTAINS_ITSELF: u16 = 18;
/// A type, or all variables of all modules, with too many scalars.
pub const TOO_MANY_SCALARS: u16 = 19;
/// A constant expression that isn't constant, would trap, or isn't of the kind that is needed.
pub const NOT_CONSTANT: u16 = 20;
/// An open array elsewhere than as a parameter's type or behind POINTER.
pub const OPEN_ARRAY: u16 = 21;
/// A field with the name of one of the base.
pub const IN_BASE: u16 = 23;
/// An initializer that may not stand here.
pub const WRONG_INITIALIZER: u16 = 24;
/// A result that isn't one scalar, or a pointer to what is no record and no array.
pub const WRONG_TYPE: u16 = 25;
/// An object type elsewhere than at module level.
pub const OBJECT_INSIDE: u16 = 26;
/// An operator doesn't take its operands.
pub const WRONG_OPERANDS: u16 = 30;
/// A value doesn't fit the variable that it's assigned to.
pub const UNFIT: u16 = 31;
/// What is assigned isn't a variable.
pub const NO_VARIABLE: u16 = 32;
/// A variable that may only be read.
pub const READ_ONLY: u16 = 33;
/// A call with another number of arguments.
pub const ARGUMENT_COUNT: u16 = 34;
/// An argument of another type.
pub const ARGUMENT_TYPE: u16 = 35;
/// What is called can't be, or can't be so.
pub const WRONG_CALL: u16 = 36;
/// A condition that isn't BOOLEAN.
pub const NO_CONDITION: u16 = 37;
/// A label of CASE that isn't a constant of the selector's kind or is one already, or a selector of another type.
pub const WRONG_LABEL: u16 = 38;
/// EXIT outside a LOOP.
pub const EXIT_OUTSIDE: u16 = 39;
/// A RETURN without the value of a function, or with one that isn't allowed or doesn't fit.
pub const WRONG_RETURN: u16 = 40;
/// A type test or guard of what is no object and no record for VAR, or with a type that is no extension.
pub const WRONG_TEST: u16 = 41;
/// A method that overrides another one with other formals or another result, or of which one alone is an initializer.
pub const WRONG_OVERRIDE: u16 = 22;
/// A selector that the type hasn't.
pub const WRONG_SELECTOR: u16 = 42;
/// An AWAIT around which no exclusive block of its own body stands.
pub const AWAIT_OUTSIDE: u16 = 43;
/// A call in the condition of an AWAIT.
pub const CALL_IN_AWAIT: u16 = 44;
/// A modifier of a block, or a flag of a procedure type, that may not stand there.
pub const WRONG_MODIFIER: u16 = 45;
/// SELF outside the methods and the body of an object type, or `^` behind a method that overrides none.
pub const WRONG_SELF: u16 = 46;
/// NEW of what is no pointer and no object variable, or with lengths that are no integers.
pub const WRONG_NEW: u16 = 47;
/// A variable, a last value or a step that FOR doesn't take.
pub const WRONG_FOR: u16 = 48;
/// WITH of what is no variable by its name.
pub const WRONG_WITH: u16 = 49;
/// A construct that isn't built yet.
pub const NOT_BUILT: u16 = 99;

/// Whether a place is before another: by lines, then by columns, then by the rules' numbers.
fn is_before(a: Breach, b: Breach) -> bool
    ensures { result ≡ is_before a b }
{
    if a.pos.line != b.pos.line {
        return a.pos.line < b.pos.line;
    }
    if a.pos.col != b.pos.col {
        return a.pos.col < b.pos.col;
    }
    a.rule < b.rule
}

/// Takes a breach down, where it comes before the first so far.
pub fn note(first: &mut Option<Breach>, rule: u16, at: Pos)
    ensures { first.new ≡ sooner first.old (record { rule = rule; pos = at }) }
{
    let breach = Breach { rule, pos: at };
    *first = match *first {
        None => Some(breach),
        Some(so_far) => {
            if is_before(breach, so_far) {
                Some(breach)
            } else {
                Some(so_far)
            }
        },
    };
}
