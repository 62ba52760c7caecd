// What a call hands over, made one after another.

ghost use Rattle.std.specs.Prelude.{◌≡◌, ◌++◌, ◌∷◌, [], IfOk, length};
ghost use Rattle.aos_typed.specs.declared.tree.TArgument.TheVariants as argument;

use crate::place::MadePlace;
use crate::room::put;
use crate::rows::MadeRows;
use crate::typed::Typed;
use aos_typed::TArgument;
use std::alloc::{AllocError, Global};
use std::marker::Model;

/// How an argument is kept.
#[derive(Drop)]
enum Handed {
    Scalar(Typed),
    Whole(MadePlace),
    Opening(MadeRows),
}

/// What a call hands over for a parameter.
pub struct MadeArgument {
    kept: Handed,
}

impl Model for MadeArgument {
    ghost use Rattle.aos_typed.specs.declared.tree.TArgument.{TArgument};
    ghost use Rattle.aos_typed.specs.contracts.tree.TArgument as tree;
    ghost use Rattle.std.specs.Coded.{codes};

    ghost Value = { TArgument };

    ghost coded = { Prim.hlevel (codes, tree.the_row.coded) };

    ghost use Rattle.aos_made.specs.KeptArgument.{argument_of};

    ghost view = { λ a. argument_of a.kept };
}

// Crates above drop it by this one call.
impl Drop for MadeArgument {
    fn drop(self) {
        let MadeArgument { kept } = self;
        drop(kept);
    }
}

impl MadeArgument {
    /// A value of a basic type.
    pub fn scalar(value: Typed) -> MadeArgument
        ensures { result ≡ argument.Scalar value }
    {
        MadeArgument {
            kept: Handed::Scalar(value),
        }
    }

    /// A record, an array or a variable.
    pub fn whole(place: MadePlace) -> MadeArgument
        ensures { result ≡ argument.Whole place }
    {
        MadeArgument {
            kept: Handed::Whole(place),
        }
    }

    /// An array for an open array parameter.
    pub fn opening(rows: MadeRows) -> MadeArgument
        ensures { result ≡ argument.Opening rows }
    {
        MadeArgument {
            kept: Handed::Opening(rows),
        }
    }

    /// As one of those of a call.
    pub fn take(self) -> TArgument
        ensures { result ≡ self }
    {
        let MadeArgument { kept } = self;
        match kept {
            Handed::Scalar(value) => TArgument::Scalar(value.take()),
            Handed::Whole(place) => TArgument::Whole(place.take()),
            Handed::Opening(rows) => TArgument::Opening(rows.take()),
        }
    }
}

/// The arguments of a call, in order.
pub struct MadeArguments {
    given: Vec<TArgument>,
}

impl Model for MadeArguments {
    ghost use Rattle.std.specs.Prelude.{List};
    ghost use Rattle.aos_typed.specs.declared.tree.TArgument.{TArgument};
    ghost use Rattle.aos_typed.specs.contracts.tree.TArgument as tree;
    ghost use Rattle.std.specs.Coded.{codes, coded_list};

    ghost Value = { List TArgument };

    ghost coded = { coded_list (Prim.hlevel (codes, tree.the_row.coded)) };

    ghost view = { λ a. a.given.items };
}

// Crates above drop them by this one call.
impl Drop for MadeArguments {
    fn drop(self) {
        let MadeArguments { given } = self;
        drop(given);
    }
}

impl MadeArguments {
    /// No arguments.
    pub fn new(alloc: Global) -> MadeArguments
        ensures { result ≡ [] }
    {
        MadeArguments {
            given: Vec::new(alloc),
        }
    }

    /// How many there are.
    pub fn len(&self) -> usize
        ensures { result ≡ length self.now }
    {
        self.given.len()
    }

    /// One more, behind the others.
    pub fn push(&mut self, argument: MadeArgument) -> Result<(), AllocError>
        ensures { IfOk result (λ _. self.new ≡ self.old ++ argument ∷ []) }
    {
        put(&mut self.given, argument.take())?;
        Ok(())
    }

    /// As a part of an expression or a statement.
    pub fn take(self) -> Vec<TArgument>
        ensures { result.items ≡ self }
    {
        let MadeArguments { given } = self;
        given
    }
}
