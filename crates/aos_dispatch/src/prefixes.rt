// What a long designator or a long sum begins with.

use aos_typed::{TExpr, TPlace, TRows};

/// What a designator, an array or an expression begins with.
#[derive(Clone, Copy)]
pub enum Prefix<'a> {
    /// An expression.
    Value(&'a TExpr),
    /// A designator.
    Place(&'a TPlace),
    /// An array with the lengths of its dimensions.
    Rows(&'a TRows),
}
