// An array with the lengths of its first dimensions, made part by part.

ghost use Rattle.std.specs.Prelude.{◌≡◌, IfOk};
ghost use Rattle.aos_typed.specs.Program as program;
ghost use Rattle.aos_typed.specs.Seen.{seen_expr, seen_place, seen_rows};

use crate::place::MadePlace;
use crate::typed::Typed;
use aos_typed::{TRows, TType};
use std::alloc::{AllocError, Global};
use std::marker::Model;

/// An array with the lengths of some of its dimensions, the first ones.
pub struct MadeRows {
    kept: Box<TRows>,
}

impl Model for MadeRows {
    ghost use Rattle.aos_typed.specs.declared.tree.TRows.{TRows};
    ghost use Rattle.aos_typed.specs.contracts.tree.TRows as tree;
    ghost use Rattle.std.specs.Coded.{codes};

    ghost Value = { TRows };

    ghost coded = { Prim.hlevel (codes, tree.the_row.coded) };

    ghost view = { λ a. a.kept.value };
}

// Crates above drop it by this one call.
impl Drop for MadeRows {
    fn drop(self) {
        let MadeRows { kept } = self;
        drop(kept);
    }
}

impl MadeRows {
    /// Any array.
    pub fn new(alloc: Global, rows: TRows) -> Result<MadeRows, AllocError>
        ensures { IfOk result (λ r. r ≡ rows) }
    {
        Ok(MadeRows {
            kept: Box::new(alloc, rows)?,
        })
    }

    /// As a part of another one, or of a designator.
    pub fn part(self) -> Box<TRows>
        ensures { result.value ≡ self }
    {
        let MadeRows { kept } = self;
        kept
    }

    /// As a part of an expression or a statement.
    pub fn take(self) -> TRows
        ensures { result ≡ self }
    {
        Box::into_inner(self.part())
    }

    /// One whose lengths are known.
    pub fn known(alloc: Global, place: MadePlace, lengths: Vec<u32>) -> Result<MadeRows, AllocError>
        ensures { IfOk result (λ r. seen_rows r ≡ program.Known (seen_place place) lengths.items) }
    {
        MadeRows::new(alloc, TRows::Known(place.part(), lengths))
    }

    /// An open array parameter, with so many open dimensions.
    pub fn opened(alloc: Global, number: u32, dimensions: u32) -> Result<MadeRows, AllocError>
        ensures { IfOk result (λ r. seen_rows r ≡ program.Opened number dimensions) }
    {
        MadeRows::new(alloc, TRows::Opened(number, dimensions))
    }

    /// An element of an array with open dimensions; behind all of them its elements are of this type.
    pub fn row(
        alloc: Global,
        whole: MadeRows,
        of: TType,
        index: Typed,
    ) -> Result<MadeRows, AllocError>
        ensures { IfOk result (λ r. seen_rows r ≡
            program.Row (seen_rows whole) of (seen_expr index)) }
    {
        let index = index.part(alloc)?;
        MadeRows::new(alloc, TRows::Row(whole.part(), of, index))
    }

    /// The open array that an object is, with so many open dimensions.
    pub fn spread(alloc: Global, object: Typed, dimensions: u32) -> Result<MadeRows, AllocError>
        ensures { IfOk result (λ r. seen_rows r ≡ program.Spread (seen_expr object) dimensions) }
    {
        let object = object.part(alloc)?;
        MadeRows::new(alloc, TRows::Spread(object, dimensions))
    }

    /// An array with open dimensions, with the known lengths of dimensions behind these.
    pub fn longer(alloc: Global, whole: MadeRows, lengths: Vec<u32>) -> Result<MadeRows, AllocError>
        ensures { IfOk result (λ r. seen_rows r ≡ program.Longer (seen_rows whole) lengths.items) }
    {
        MadeRows::new(alloc, TRows::Longer(whole.part(), lengths))
    }
}
