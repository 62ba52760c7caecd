// A designator, made part by part.

ghost use Rattle.std.specs.Prelude.{◌≡◌, IfOk};
ghost use Rattle.aos_typed.specs.Program as program;
ghost use Rattle.aos_typed.specs.Seen.{seen_expr, seen_place, seen_rows};

use crate::rows::MadeRows;
use crate::typed::Typed;
use aos_typed::{TPlace, TType};
use std::alloc::{AllocError, Global};
use std::marker::Model;

/// A designator.
pub struct MadePlace {
    kept: Box<TPlace>,
}

impl Model for MadePlace {
    ghost use Rattle.aos_typed.specs.declared.tree.TPlace.{TPlace};
    ghost use Rattle.aos_typed.specs.contracts.tree.TPlace as tree;
    ghost use Rattle.std.specs.Coded.{codes};

    ghost Value = { TPlace };

    ghost coded = { Prim.hlevel (codes, tree.the_row.coded) };

    ghost view = { λ a. a.kept.value };
}

// Crates above drop it by this one call.
impl Drop for MadePlace {
    fn drop(self) {
        let MadePlace { kept } = self;
        drop(kept);
    }
}

impl MadePlace {
    /// Any designator.
    pub fn new(alloc: Global, place: TPlace) -> Result<MadePlace, AllocError>
        ensures { IfOk result (λ r. r ≡ place) }
    {
        Ok(MadePlace {
            kept: Box::new(alloc, place)?,
        })
    }

    /// As a part of another one, or of an expression.
    pub fn part(self) -> Box<TPlace>
        ensures { result.value ≡ self }
    {
        let MadePlace { kept } = self;
        kept
    }

    /// As a part of a statement.
    pub fn take(self) -> TPlace
        ensures { result ≡ self }
    {
        Box::into_inner(self.part())
    }

    /// What it is.
    pub fn look(&self) -> &TPlace
        ensures { result.now ≡ self.now }
    {
        &self.kept
    }

    /// A variable of a module, by both numbers.
    pub fn module_variable(alloc: Global, home: u32, number: u32) -> Result<MadePlace, AllocError>
        ensures { IfOk result (λ r. seen_place r ≡ program.ModuleVar home number) }
    {
        MadePlace::new(alloc, TPlace::ModuleVar(home, number))
    }

    /// A local, or a parameter by value.
    pub fn local(alloc: Global, number: u32) -> Result<MadePlace, AllocError>
        ensures { IfOk result (λ r. seen_place r ≡ program.Local number) }
    {
        MadePlace::new(alloc, TPlace::Local(number))
    }

    /// What a VAR parameter stands for.
    pub fn passed(alloc: Global, number: u32) -> Result<MadePlace, AllocError>
        ensures { IfOk result (λ r. seen_place r ≡ program.Passed number) }
    {
        MadePlace::new(alloc, TPlace::Passed(number))
    }

    /// A field of a record or an object that is of this type.
    pub fn field(
        alloc: Global,
        whole: MadePlace,
        of: TType,
        number: u32,
    ) -> Result<MadePlace, AllocError>
        ensures { IfOk result (λ r. seen_place r ≡ program.Field (seen_place whole) of number) }
    {
        MadePlace::new(alloc, TPlace::Field(whole.part(), of, number))
    }

    /// An element of an array of so many elements of this type.
    pub fn index(
        alloc: Global,
        whole: MadePlace,
        elements: u32,
        of: TType,
        index: Typed,
    ) -> Result<MadePlace, AllocError>
        ensures { IfOk result (λ r. seen_place r ≡
            program.Index (seen_place whole) elements of (seen_expr index)) }
    {
        let index = index.part(alloc)?;
        MadePlace::new(alloc, TPlace::Index(whole.part(), elements, of, index))
    }

    /// An element of an open array, behind all its dimensions.
    pub fn of(alloc: Global, rows: MadeRows) -> Result<MadePlace, AllocError>
        ensures { IfOk result (λ r. seen_place r ≡ program.Of (seen_rows rows)) }
    {
        MadePlace::new(alloc, TPlace::Of(rows.part()))
    }

    /// What an object is, which is of this type.
    pub fn deref(alloc: Global, object: Typed, of: TType) -> Result<MadePlace, AllocError>
        ensures { IfOk result (λ r. seen_place r ≡ program.Deref (seen_expr object) of) }
    {
        let object = object.part(alloc)?;
        MadePlace::new(alloc, TPlace::Deref(object, of))
    }

    /// A record with its type, by the type's number in the program.
    pub fn typed(alloc: Global, whole: MadePlace, of: u32) -> Result<MadePlace, AllocError>
        ensures { IfOk result (λ r. seen_place r ≡ program.Typed (seen_place whole) of) }
    {
        MadePlace::new(alloc, TPlace::Typed(whole.part(), of))
    }

    /// A record that is guarded with a type, by the type's number in the program.
    pub fn guarded(alloc: Global, whole: MadePlace, of: u32) -> Result<MadePlace, AllocError>
        ensures { IfOk result (λ r. seen_place r ≡ program.Guarded (seen_place whole) of) }
    {
        MadePlace::new(alloc, TPlace::Guarded(whole.part(), of))
    }
}
