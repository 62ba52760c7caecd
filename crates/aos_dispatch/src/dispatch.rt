// A program with the numbers of its procedures, the methods of its types by their slots, and all that runs in it.

ghost use Rattle.std.specs.Prelude.{◌≡◌, ◌≤◌, ◌<◌, ◌^◌, [], length, slice_get, IfOk};
ghost use Rattle.std.specs.Option.{unwrap_or};
ghost use Rattle.aos_types.specs.Extension as extension;
ghost use Rattle.aos_types.specs.Table as table;
ghost use Rattle.aos_types.specs.Table.{row_of};
ghost use Rattle.aos_typed.specs.declared.tree.TType.TheVariants.{Named};
ghost use Rattle.aos_typed.specs.Fields as fields;
ghost use Rattle.aos_typed.specs.Methods.{body_type, initializer, is_active, method_number, own_numbers, own_priority, slots};
ghost use Rattle.aos_typed.specs.Numbers.{body_number, id_of, procedure_number};
ghost use Rattle.aos_typed.specs.Routines.{routines};
ghost use Rattle.aos_typed.specs.Seen.{seen_program};
ghost use Rattle.aos_typed.specs.WellTyped.{IsWellTyped};
ghost use Rattle.aos_dispatch.specs.Dispatch.{active_of, priority_of};
ghost use Rattle.aos_dispatch.specs.Routines.{seen_routines};

use crate::chains::{comes_to, declarer, is_object};
use crate::methods::{number_in, tables_of};
use crate::nearest::{Asked, nearest_of_each, told_in};
use crate::numbers::{after, first_number, firsts_of, method_firsts, next, number_at};
use crate::routines::{Routine, routines_of};
use crate::shared::Shared;
use crate::types::type_in;
use aos_base::Priority;
use aos_typed::{Program, TObject, TType};
use aos_types::Types;
use std::alloc::{AllocError, Global};
use std::marker::Model;

// What a type has in its slots, by its number.
fn table_in(tables: &[Shared], number: u32) -> &[u32]
    ensures { result.now ≡ unwrap_or (slice_get tables.now number) [] }
{
    match tables.get(number as usize) {
        Some(table) => table.as_slice(),
        None => &[],
    }
}

// What it has in a slot.
fn entry_in(tables: &[Shared], number: u32, slot: u32) -> Option<u32>
    ensures { result ≡ slice_get (unwrap_or (slice_get tables.now number) []) slot }
{
    let table = table_in(tables, number);
    match table.get(slot as usize) {
        Some(entry) => Some(*entry),
        None => None,
    }
}

// The number of the type that declares a field, in the table. A type that isn't there is in no well-typed program: there is no memory
// for it.
fn declarer_in(types: &Types, of: TType, number: u32) -> Result<u32, AllocError>
    requires few { length types.now ≤ 2 ^ 32 }
    ensures { IfOk result (λ n. n ≡ (fields.declarer types.now (id_of of) number).0) }
{
    match type_in(types, of) {
        Some(t) => Ok(declarer(types, t, number).0),
        None => Err(AllocError),
    }
}

// Whether bases lead from one type of a program to another.
fn extends_in(types: &Types, of: u32, other: u32) -> Result<bool, AllocError>
    requires few { length types.now ≤ 2 ^ 32 }
    ensures { IfOk result (λ b.
        b ≡ extension.comes_to types.now (id_of (Named of)) (id_of (Named other))) }
{
    let Some(a) = type_in(types, TType::Named(of)) else {
        return Err(AllocError);
    };
    match type_in(types, TType::Named(other)) {
        Some(b) => Ok(comes_to(types, a, b)),
        None => Err(AllocError),
    }
}

// Whether one of these types has objects with activities of their own.
fn active_in(objects: &[TObject], of: u32) -> bool
    ensures { result ≡ active_of (slice_get objects.now of) }
{
    match objects.get(of as usize) {
        Some(object) => object.is_active,
        None => false,
    }
}

// The priority of those activities.
fn priority_in(objects: &[TObject], of: u32) -> Priority
    ensures { result ≡ priority_of (slice_get objects.now of) }
{
    match objects.get(of as usize) {
        Some(object) => object.priority,
        None => Priority::Normal,
    }
}

/// A program, with the numbers of the modules' procedures, the methods of its types by their slots, the types whose bodies and the
/// slots of the initializers that their objects have, and all that runs in it.
pub struct Dispatch<'a> {
    program: &'a Program,
    firsts: Vec<u32>,
    tables: Vec<Shared>,
    bodies: Vec<Option<u32>>,
    initials: Vec<Option<u32>>,
    routines: Vec<Routine<'a>>,
}

impl<'a> Model for Dispatch<'a> {
    ghost use Rattle.aos_typed.specs.declared.tree.Program.{Program};
    ghost use Rattle.aos_typed.specs.Seen.{seen_program};
    ghost use Rattle.aos_typed.specs.contracts.tree.TStat as stat;
    ghost use Rattle.std.specs.Coded.{codes};
    ghost use Rattle.aos_dispatch.specs.Dispatch.{IsDispatch};

    ghost Value = { Program };

    ghost coded = { Prim.hlevel (codes, stat.the_row.coded) };

    ghost view = { λ d. d.program.now };

    ghost invariant = { λ d. IsDispatch (seen_program d.program.now) d.firsts.items d.tables.items
        d.bodies.items d.initials.items d.routines.items };
}

// Crates above drop it by this one call.
impl<'a> Drop for Dispatch<'a> {
    fn drop(self) {
        let Dispatch {
            program: _,
            firsts,
            tables,
            bodies,
            initials,
            routines,
        } = self;
        drop(firsts);
        drop(tables);
        drop(bodies);
        drop(initials);
        drop(routines);
    }
}

impl<'a> Dispatch<'a> {
    /// A well-typed program, whose routines have their numbers.
    pub fn new(alloc: Global, program: &'a Program) -> Result<Dispatch<'a>, AllocError>
        requires few { length program.now.modules.items ≤ 64 }
        requires few_types { length program.now.objects.items ≤ 2 ^ 26 }
        requires typed { IsWellTyped (seen_program program.now) }
        ensures { IfOk result (λ dispatch. dispatch ≡ program.now) }
    {
        let first = first_number(program.modules.len(), program.objects.len());
        let firsts = firsts_of(alloc, &program.modules, first)?;
        let behind = number_at(&firsts, program.modules.len() as u32, 0)?;
        let methods = method_firsts(alloc, &program.objects, behind)?;
        let tables = tables_of(alloc, program, &methods)?;
        let bodies = nearest_of_each(alloc, program, Asked::Body)?;
        let initials = nearest_of_each(alloc, program, Asked::Initializer)?;
        let routines = routines_of(alloc, program)?;
        Ok(Dispatch {
            program,
            firsts,
            tables,
            bodies,
            initials,
            routines,
        })
    }

    /// The number of a procedure, by the numbers of its module and its own there.
    pub fn called(&self, home: u32, number: u32) -> Result<u32, AllocError>
        ensures { IfOk result (λ n. n ≡ procedure_number (seen_program self.now) home number) }
    {
        let all = number_at(&self.firsts, home, number)?;
        Ok(all)
    }

    /// The number of the method that a type has in a slot, by the type's number in the program.
    pub fn method(&self, of: u32, slot: u32) -> Result<u32, AllocError>
        ensures { IfOk result (λ n. n ≡ method_number (seen_program self.now) of slot) }
    {
        let number = number_in(&self.tables, of, slot)?;
        Ok(number)
    }

    /// The methods of a type by their slots, as numbers of routines.
    pub fn methods(&self, of: u32) -> &[u32]
        requires { of < length self.now.objects.items }
        ensures { result.now ≡
            slots (seen_program self.now) (own_numbers (seen_program self.now)) of }
    {
        table_in(&self.tables, of)
    }

    /// The type whose body the objects of a type have, by the numbers of both in the program.
    pub fn body_type(&self, of: u32) -> Result<Option<u32>, AllocError>
        ensures { IfOk result (λ t. t ≡ body_type (seen_program self.now) of) }
    {
        let found = told_in(&self.bodies, of)?;
        Ok(found)
    }

    /// The slot of the initializer that the objects of a type have, by the type's number in the program.
    pub fn initializer(&self, of: u32) -> Result<Option<u32>, AllocError>
        ensures { IfOk result (λ k. k ≡ initializer (seen_program self.now) of) }
    {
        let found = told_in(&self.initials, of)?;
        Ok(found)
    }

    /// Whether the body of a type is carried out by activities of its objects' own, by the type's number in the program.
    pub fn is_active(&self, of: u32) -> bool
        ensures { result ≡ is_active (seen_program self.now) of }
    {
        active_in(&self.program.objects, of)
    }

    /// The priority of the activities that carry out the body of a type, by the type's number in the program.
    pub fn priority(&self, of: u32) -> Priority
        ensures { result ≡ own_priority (seen_program self.now) of }
    {
        priority_in(&self.program.objects, of)
    }

    /// The number of the body beside a type, by the type's number in the program.
    pub fn body(&self, of: u32) -> Result<u32, AllocError>
        ensures { IfOk result (λ n. n ≡ body_number (seen_program self.now) of) }
    {
        let behind = next(of)?;
        let all = after(behind, self.program.modules.len())?;
        Ok(all)
    }

    /// The program.
    pub fn program(&self) -> &'a Program
        ensures { result.now ≡ self.now }
    {
        self.program
    }

    /// What runs in it, in the order of the numbers from 1.
    pub fn routines(&self) -> &[Routine<'a>]
        ensures { seen_routines result.now ≡ routines (seen_program self.now) }
    {
        &self.routines
    }

    /// How many types it has beside the predeclared ones.
    pub fn type_count(&self) -> usize
        ensures { result ≡ length (seen_program self.now).objects }
    {
        self.program.objects.len()
    }

    /// What a type has in a slot, as the number of a routine.
    pub fn entry(&self, of: u32, slot: u32) -> Option<u32>
        requires { of < length (seen_program self.now).objects }
        ensures { result ≡
            slice_get (slots (seen_program self.now) (own_numbers (seen_program self.now)) of)
            slot }
    {
        entry_in(&self.tables, of, slot)
    }

    /// Whether a type is an object type.
    pub fn is_object(&self, of: TType) -> bool
        ensures { result ≡ table.is_object (row_of (seen_program self.now).types (id_of of)) }
    {
        is_object(&self.program.types, of)
    }

    /// The number in the table of the type that declares a field of a type, the type itself or one of its bases.
    pub fn declarer(&self, of: TType, number: u32) -> Result<u32, AllocError>
        ensures { IfOk result (λ n.
            n ≡ (fields.declarer (seen_program self.now).types (id_of of) number).0) }
    {
        declarer_in(&self.program.types, of, number)
    }

    /// Whether bases lead from one type to another, by the numbers of both in the program.
    pub fn extends(&self, of: u32, other: u32) -> Result<bool, AllocError>
        ensures { IfOk result (λ b. b ≡
            extension.comes_to (seen_program self.now).types (id_of (Named of))
            (id_of (Named other))) }
    {
        extends_in(&self.program.types, of, other)
    }
}
