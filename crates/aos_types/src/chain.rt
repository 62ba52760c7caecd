// Which types contain themselves.

ghost use Rattle.std.specs.Prelude.{◌≡◌, ◌↔◌, ◌+◌, ◌<◌, ◌≤◌, ◌^◌, List, OnSome, OnOk, IfOk, IsTrue, length, replicate, slice_get, slice_set, [], None, false};
ghost use Rattle.std.specs.List.{flat_map};
ghost use Rattle.aos_types.specs.declared.row.TypeRow.TheVariants as row;
ghost use Rattle.aos_types.specs.Table as table;
ghost use Rattle.aos_types.specs.Chain as chain;
ghost use Rattle.aos_types.specs.Walk as walk;

use crate::extension::row_of;
use crate::items::Items;
use crate::row::{TypeId, TypeRow};
use std::alloc::{AllocError, Global};
use std::marker::Model;

/// The types that were reached, in order, and a mark for each type.
#[derive(Drop)]
struct Walk {
    seen: Vec<bool>,
    order: Vec<TypeId>,
}

impl Model for Walk {
    ghost use Rattle.aos_types.specs.Walk.{Marks};

    ghost Value = { Marks };

    ghost view = { λ w. record { seen = w.seen.items; order = w.order.items } };
}

impl Walk {
    /// Notes a type.
    fn note(&mut self, t: TypeId) -> Result<(), AllocError>
        ensures { OnOk result (self.new ≡ walk.noted t self.old) }
    {
        let number = t.0 as usize;
        match self.seen.get(number) {
            Some(false) => {
                self.order.push(t)?;
                self.seen[number] = true;
                Ok(())
            },
            _ => Ok(()),
        }
    }

    /// Notes the type of an element or a field, where it is held by value.
    fn note_held(&mut self, rows: &[TypeRow], t: TypeId) -> Result<(), AllocError>
        ensures { OnOk result (self.new ≡ walk.all_noted (chain.held rows.now t) self.old) }
    {
        match row_of(rows, t) {
            Some(TypeRow::Object(_, _)) => Ok(()),
            _ => self.note(t),
        }
    }

    fn note_base(&mut self, base: Option<TypeId>) -> Result<(), AllocError>
        ensures { OnOk result (self.new ≡ walk.all_noted (chain.base_list base) self.old) }
    {
        match base {
            Some(base) => self.note(base),
            None => Ok(()),
        }
    }

    #[tactic(auto, using(crate::proofs::Noting::all_noted_more))]
    fn note_fields(&mut self, rows: &[TypeRow], fields: &[TypeId]) -> Result<(), AllocError>
        ensures { OnOk result (self.new ≡
            walk.all_noted (flat_map (chain.held rows.now) fields.now) self.old) }
    {
        for field in fields {
            self.note_held(rows, *field)?;
        }
        Ok(())
    }

    /// Notes the parts of a type.
    #[tactic(auto, using(crate::proofs::Noting::all_noted_append))]
    fn note_parts(&mut self, rows: &[TypeRow], t: TypeId) -> Result<(), AllocError>
        ensures { OnOk result (self.new ≡
            walk.all_noted (chain.parts_of rows.now (table.row_of rows.now t)) self.old) }
    {
        match row_of(rows, t) {
            Some(TypeRow::Array(_, element)) => self.note_held(rows, *element),
            Some(TypeRow::Open(element)) => self.note_held(rows, *element),
            Some(TypeRow::Record(base, fields)) => {
                self.note_base(*base)?;
                self.note_fields(rows, fields.as_slice())
            },
            Some(TypeRow::Object(base, fields)) => {
                self.note_base(*base)?;
                self.note_fields(rows, fields.as_slice())
            },
            _ => Ok(()),
        }
    }
    /// A type by its place in the order.
    fn at(&self, place: usize) -> Option<TypeId>
        ensures value { result ≡ slice_get self.now.order place }
        ensures not_last { OnSome result (place + 1 < 2 ^ 64) }
    {
        self.order.get(place).copied()
    }

    /// Whether a type was noted.
    fn has(&self, t: TypeId) -> bool
        ensures { result ≡ walk.is_seen (slice_get self.now.seen t.0) }
    {
        self.seen.get(t.0 as usize).copied().unwrap_or(false)
    }
}

/// A mark for each type, not made yet.
pub(crate) fn no_marks(alloc: Global, types: usize) -> Result<Vec<bool>, AllocError>
    ensures { IfOk result (λ marks. marks.items ≡ replicate types false) }
{
    vec![in alloc; false; types]
}

/// A walk that hasn't begun.
fn unbegun(alloc: Global, types: usize) -> Result<Walk, AllocError>
    ensures { IfOk result (λ w. w ≡ walk.unbegun types) }
{
    Ok(Walk {
        seen: no_marks(alloc, types)?,
        order: Vec::new(alloc),
    })
}

/// Whether a type contains itself.
pub(crate) fn contains_itself(
    alloc: Global,
    rows: &[TypeRow],
    t: TypeId,
) -> Result<bool, AllocError>
    ensures { IfOk result (λ found. IsTrue found ↔ chain.ContainsItself rows.now t) }
{
    let mut walk = unbegun(alloc, rows.len())?;
    walk.note_parts(rows, t)?;
    let mut next = 0;
    while let Some(reached) = walk.at(next) {
        walk.note_parts(rows, reached)?;
        next += 1;
    }
    Ok(walk.has(t))
}

fn cut_one(alloc: Global, rows: &mut [TypeRow], number: usize)
    requires { number < length rows.old }
    ensures { rows.new ≡ slice_set rows.old number (row.Record None []) }
{
    rows[number] = TypeRow::Record(None, Items::new(alloc));
}

/// Makes each marked type a record without fields.
pub(crate) fn cut(alloc: Global, rows: &mut [TypeRow], flags: &[bool])
    requires long { length flags.now ≡ length rows.old }
    ensures { rows.new ≡ chain.cut flags.now rows.old }
{
    for number in 0..rows.len() {
        if flags[number] {
            cut_one(alloc, rows, number);
        }
    }
}
