// The cells of frames.

ghost use Rattle.std.specs.Prelude.{◌≡◌, ◌<◌, ◌≤◌, ◌++◌, ◌∷◌, [], All, length, map, replicate, OnOk};
ghost use Rattle.aos_types.specs.Chain.{NoneContainsItself};
ghost use Rattle.aos_types.specs.Table as table;
ghost use Rattle.aos_code.specs.declared.instr.Kind.TheVariants as kind;
ghost use Rattle.aos_typed.specs.Seen.{seen_parameter, seen_variable};
ghost use Rattle.aos_typed.specs.Numbers.{id_of as number_of};
ghost use Rattle.aos_layout.specs.Cells as cells_of;
ghost use Rattle.aos_layout.specs.Frame as frame;
ghost use Rattle.aos_layout.specs.Layout as layout;

use crate::type_parts::row_of;
use crate::work::{is_object, kinds_of};
use aos_base::Width;
use aos_code::Kind;
use aos_typed::{TParameter, TType, TVariable, open_array};
use aos_types::{TypeId, TypeRow, Types};
use std::alloc::{AllocError, Global};

/// How many types are predeclared, before those that a program names.
pub(crate) const PREDECLARED_TYPES: u32 = 10;

/// The number of a type in the table.
pub(crate) fn id_of(of: TType) -> TypeId
    requires { (number_of of).0 < 4294967296 }
    ensures { result ≡ number_of of }
{
    match of {
        TType::Integer(Width::W8) => TypeId(0),
        TType::Integer(Width::W16) => TypeId(1),
        TType::Integer(Width::W32) => TypeId(2),
        TType::Integer(Width::W64) => TypeId(3),
        TType::Boolean => TypeId(4),
        TType::Char => TypeId(5),
        TType::Set => TypeId(6),
        TType::Any => TypeId(8),
        TType::Named(number) => TypeId(number + PREDECLARED_TYPES),
    }
}

/// Whether it is an open array.
pub fn is_open(types: &Types, t: TypeId) -> bool
    ensures { result ≡ table.is_open (table.row_of types.now t) }
{
    matches!(row_of(types, t), Some(TypeRow::Open(_)))
}

/// Puts the kinds of a variable's cells behind others.
pub(crate) fn push_variable(
    alloc: Global,
    types: &Types,
    t: TypeId,
    kinds: &mut Vec<Kind>,
) -> Result<(), AllocError>
    requires { NoneContainsItself types.now }
    ensures { OnOk result (kinds.new.items ≡
        kinds.old.items ++ layout.leaves (layout.cells types.now t)) }
{
    if is_object(types, t) {
        kinds.push(Kind::R)?;
    } else {
        let own = kinds_of(alloc, types, t)?;
        kinds.extend_from_slice(own.as_slice())?;
    }
    Ok(())
}

/// Puts so many numbers behind other kinds.
fn push_numbers(count: u64, kinds: &mut Vec<Kind>) -> Result<(), AllocError>
    ensures { OnOk result (kinds.new.items ≡ kinds.old.items ++ replicate count kind.N) }
{
    for _number in 0..count {
        kinds.push(Kind::N)?;
    }
    Ok(())
}

/// Puts the kinds of an open array's cells behind others: its place, and its lengths.
fn push_open(dimensions: u64, kinds: &mut Vec<Kind>) -> Result<(), AllocError>
    ensures { OnOk result (kinds.new.items ≡
        kinds.old.items ++ layout.leaves (frame.open_cells dimensions)) }
{
    kinds.push(Kind::A)?;
    push_numbers(dimensions, kinds)
}

/// Puts the kinds of a string constant's cells behind others: its characters, and the 0X behind them.
fn push_text(text: &[u8], kinds: &mut Vec<Kind>) -> Result<(), AllocError>
    ensures { OnOk result (kinds.new.items ≡
        kinds.old.items ++ layout.leaves (layout.text_cells text.now)) }
{
    push_numbers(text.len() as u64 + 1, kinds)
}

/// Puts the kinds of a parameter's cells behind others.
fn push_parameter(
    alloc: Global,
    types: &Types,
    parameter: &TParameter,
    kinds: &mut Vec<Kind>,
) -> Result<(), AllocError>
    requires none_contains_itself { NoneContainsItself types.now }
    requires few { length types.now ≤ 4294967296 }
    requires there { frame.IsThere types.now parameter.now.of }
    ensures { OnOk result (kinds.new.items ≡ kinds.old.items ++
        layout.leaves (frame.parameter_cells types.now (seen_parameter parameter.now))) }
{
    let t = id_of(parameter.of);
    if is_open(types, t) {
        return push_open(open_array(types, t).dimensions, kinds);
    }
    if parameter.by_reference {
        kinds.push(Kind::A)?;
        return Ok(());
    }
    push_variable(alloc, types, t, kinds)
}

/// The cells of the first parts of a frame or a module: their kinds, and the first cell of each part.
#[derive(Drop)]
pub(crate) struct Cells {
    pub kinds: Vec<Kind>,
    pub places: Vec<u32>,
}

impl Cells {
    /// Begins a part behind the cells that are there. Where its place is past all numbers of cells it is want of memory.
    fn begin_part(&mut self) -> Result<(), AllocError>
        ensures kinds { self.new.kinds ≡ self.old.kinds }
        ensures places { OnOk result (self.new.places.items ≡
            self.old.places.items ++ length self.old.kinds.items ∷ []) }
    {
        let Ok(place) = u32::try_from(self.kinds.len()) else {
            return Err(AllocError);
        };
        self.places.push(place)?;
        Ok(())
    }

    /// Puts the parts of parameters behind those that are there.
    pub(crate) fn put_parameters(
        &mut self,
        alloc: Global,
        types: &Types,
        parameters: &[TParameter],
    ) -> Result<(), AllocError>
        requires none_contains_itself { NoneContainsItself types.now }
        requires few { length types.now ≤ 4294967296 }
        requires there { All (λ a. frame.IsThere types.now a.of)
            (map seen_parameter parameters.now) }
        ensures kinds { OnOk result (self.new.kinds.items ≡ self.old.kinds.items ++
            cells_of.kinds_of (cells_of.parameter_parts types.now parameters.now)) }
        ensures places { OnOk result (self.new.places.items ≡ self.old.places.items ++
            frame.places_from (length self.old.kinds.items)
            (cells_of.parameter_parts types.now parameters.now)) }
    {
        for parameter in parameters {
            self.begin_part()?;
            push_parameter(alloc, types, parameter, &mut self.kinds)?;
        }
        Ok(())
    }

    /// Puts the parts of locals behind those that are there.
    pub(crate) fn put_locals(
        &mut self,
        alloc: Global,
        types: &Types,
        locals: &[TVariable],
    ) -> Result<(), AllocError>
        requires none_contains_itself { NoneContainsItself types.now }
        requires few { length types.now ≤ 4294967296 }
        requires there { All (λ v. frame.IsThere types.now v.of) (map seen_variable locals.now) }
        ensures kinds { OnOk result (self.new.kinds.items ≡ self.old.kinds.items ++
            cells_of.kinds_of (cells_of.local_parts types.now locals.now)) }
        ensures places { OnOk result (self.new.places.items ≡ self.old.places.items ++
            frame.places_from (length self.old.kinds.items)
            (cells_of.local_parts types.now locals.now)) }
    {
        for local in locals {
            self.begin_part()?;
            push_variable(alloc, types, id_of(local.of), &mut self.kinds)?;
        }
        Ok(())
    }

    /// Puts the parts of string constants behind those that are there.
    pub(crate) fn put_texts(&mut self, texts: &[Vec<u8>]) -> Result<(), AllocError>
        ensures kinds { OnOk result (self.new.kinds.items ≡ self.old.kinds.items ++
            cells_of.kinds_of (cells_of.text_parts texts.now)) }
        ensures places { OnOk result (self.new.places.items ≡ self.old.places.items ++
            frame.places_from (length self.old.kinds.items) (cells_of.text_parts texts.now)) }
    {
        for text in texts {
            self.begin_part()?;
            push_text(text, &mut self.kinds)?;
        }
        Ok(())
    }
}
