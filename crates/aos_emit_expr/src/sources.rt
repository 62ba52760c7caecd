// What code is emitted of.

use aos_dispatch::Prefix;
use aos_typed::{TArgument, TCallee};

/// What code is emitted of.
#[derive(Clone, Copy)]
pub enum Source<'a> {
    /// An expression, a designator, or an array with the lengths of its dimensions.
    Prefix(Prefix<'a>),
    /// A call.
    Call(&'a TCallee, &'a [TArgument]),
    /// What is handed over.
    Handed(&'a [TArgument]),
    /// The object on which the procedure is called.
    SelfRef,
}
