// A program with the cells of its modules, and what is dispatched in it.

ghost use Rattle.std.specs.Prelude.{◌≡◌, true, is_some, ◌≤◌, ◌<◌, ◌^◌, [], ◌∷◌, ◌++◌, length, map, reverse, take, slice_get, option_map, IfOk, OnOk};
ghost use Rattle.std.specs.Option.{unwrap_or};
ghost use Rattle.aos_typed.specs.Seen.{seen_program, seen_procedure};
ghost use Rattle.aos_typed.specs.WellTyped.{AreTypes, IsProcedure, IsWellTyped};
ghost use Rattle.aos_layout.specs.Frame as frame;
ghost use Rattle.aos_layout.specs.Seen.{seen_block, seen_frame};
ghost use Rattle.aos_types.specs.Shape as shape;
ghost use Rattle.aos_types.specs.Table.{is_procedure, row_of};
ghost use Rattle.aos_types.specs.Contents.{contents, variable_scalars};
ghost use Rattle.aos_code.specs.Silent.{kinds_of as kinds_handed};
ghost use Rattle.aos_typed.specs.Methods.{body_type, initializer, is_active, method_number, own_numbers, own_priority, slots};
ghost use Rattle.aos_typed.specs.Numbers.{body_number, id_of, procedure_number};
ghost use Rattle.aos_typed.specs.Routines.{parameters_at};
ghost use Rattle.aos_typed.specs.Source.{module_shape};
ghost use Rattle.aos_program_layout.specs.Laid.{AreBlocks, AreNarrow, cell_in, variables_in, module_kinds};

use crate::parameters::taken_by;
use aos_base::{NoMemory, Priority};
use aos_code::Kind;
use aos_dispatch::{Dispatch, type_in};
use aos_layout::{BlockShape, FrameShape, block_shape, frame_shape, offset, width};
use aos_typed::{Program, TModule, TProcedure, TType};
use aos_types::{TypeId, TypeRow, Types};
use std::alloc::{AllocError, Global};
use std::marker::Model;

// The cells of one more module.
fn put(blocks: &mut Vec<BlockShape>, block: BlockShape) -> Result<(), AllocError>
    ensures put { OnOk result (blocks.new.items ≡ blocks.old.items ++ block ∷ []) }
    ensures narrow { OnOk result (block.cells < 2 ^ 32) }
{
    blocks.push(block)?;
    Ok(())
}

// The cells of each module.
fn blocks_of(alloc: Global, program: &Program) -> Result<Vec<BlockShape>, NoMemory>
    requires few { length program.now.objects.items ≤ 2 ^ 26 }
    requires typed { IsWellTyped (seen_program program.now) }
    ensures blocks { IfOk result (λ blocks. AreBlocks (seen_program program.now) blocks.items) }
    ensures narrow { OnOk result (AreNarrow (seen_program program.now)) }
{
    let mut blocks = Vec::new(alloc);
    for module in &program.modules {
        let block = block_shape(alloc, &program.types, module)?;
        put(&mut blocks, block)?;
    }
    Ok(blocks)
}

// The first cell of a variable or a string constant of one of these modules, by the numbers of both.
fn cell_of(blocks: &[BlockShape], home: u32, number: usize) -> u32
    ensures { result ≡ cell_in (slice_get (map seen_block blocks.now) home) number }
{
    match blocks.get(home as usize) {
        Some(block) => match block.places.get(number) {
            Some(cell) => *cell,
            None => block.cells,
        },
        None => 0,
    }
}

// The kinds of the cells of one of these modules.
fn kinds_of(blocks: &[BlockShape], home: u32) -> &[Kind]
    ensures { result.now ≡
        unwrap_or (option_map (λ b. b.kinds) (slice_get (map seen_block blocks.now) home)) [] }
{
    match blocks.get(home as usize) {
        Some(block) => block.kinds.as_slice(),
        None => &[],
    }
}

// How many variables one of these modules has.
fn variables_of(modules: &[TModule], home: u32) -> usize
    ensures { result ≡ variables_in (slice_get modules.now home) }
{
    match modules.get(home as usize) {
        Some(module) => module.variables.len(),
        None => 0,
    }
}

// The first ones of these kinds.
fn first_of(kinds: &[Kind], count: u32) -> &[Kind]
    ensures { result.now ≡ take count kinds.now }
{
    match kinds.get(..count as usize) {
        Some(first) => first,
        None => kinds,
    }
}

// How many cells a variable of a type has.
fn variable_cells(types: &Types, of: TType) -> u32
    requires few { length types.now ≤ 2 ^ 32 }
    requires typed { AreTypes types.now }
    ensures { result ≡ variable_scalars types.now (id_of of) }
{
    match type_in(types, of) {
        Some(t) => types.variable_scalars(t).unwrap_or(0),
        None => 0,
    }
}

// Whether a record or an object type has a field of this number, its base's first.
fn has_field(types: &Types, t: TypeId, number: u32) -> bool
    requires there { t.0 < length types.now }
    requires typed { AreTypes types.now }
    ensures { result ≡ true → is_some (shape.inside (number ∷ []) (contents types.now t)) ≡ true }
{
    match types.row(t) {
        TypeRow::Record(_, _) => u128::from(number) < width(types, t),
        TypeRow::Object(_, _) => u128::from(number) < width(types, t),
        _ => false,
    }
}

// How many cells stand before a field in its record or object. One that isn't there is in no well-typed program: there is no
// memory for it.
fn cells_before(types: &Types, of: TType, number: u32) -> Result<u32, AllocError>
    requires few { length types.now ≤ 2 ^ 32 }
    requires typed { AreTypes types.now }
    ensures { IfOk result (λ cells.
        cells ≡ shape.offset (number ∷ []) (contents types.now (id_of of))) }
{
    let Some(t) = type_in(types, of) else {
        return Err(AllocError);
    };
    if has_field(types, t, number) {
        return Ok(offset(types, t, &[number]));
    }
    Err(AllocError)
}

// Whether a type is a procedure type.
fn is_procedure_in(types: &Types, of: TType) -> bool
    requires few { length types.now ≤ 2 ^ 32 }
    ensures { result ≡ is_procedure (row_of types.now (id_of of)) }
{
    let Some(t) = type_in(types, of) else {
        return false;
    };
    match types.row(t) {
        TypeRow::Procedure(_, _) => true,
        _ => false,
    }
}

/// A program, with the cells of its modules, and what is dispatched in it.
pub struct Laid<'a> {
    program: &'a Program,
    dispatch: Dispatch<'a>,
    blocks: Vec<BlockShape>,
}

impl<'a> Model for Laid<'a> {
    ghost use Rattle.aos_typed.specs.declared.tree.Program.{Program};
    ghost use Rattle.aos_typed.specs.contracts.tree.TStat as stat;
    ghost use Rattle.std.specs.Coded.{codes};
    ghost use Rattle.aos_program_layout.specs.Laid.{IsLaid};

    ghost Value = { Program };

    ghost coded = { Prim.hlevel (codes, stat.the_row.coded) };

    ghost view = { λ l. l.program.now };

    ghost invariant = { λ l. IsLaid l.program.now l.dispatch l.blocks.items };
}

// Crates above drop it by this one call.
impl<'a> Drop for Laid<'a> {
    fn drop(self) {
        let Laid {
            program: _,
            dispatch,
            blocks,
        } = self;
        drop(dispatch);
        drop(blocks);
    }
}

impl<'a> Laid<'a> {
    /// A well-typed program, whose variables and string constants have their cells.
    pub fn new(alloc: Global, program: &'a Program) -> Result<Laid<'a>, NoMemory>
        requires few { length program.now.modules.items ≤ 64 }
        requires few_types { length program.now.objects.items ≤ 2 ^ 26 }
        requires typed { IsWellTyped (seen_program program.now) }
        ensures laid { IfOk result (λ laid. laid ≡ program.now) }
        ensures narrow { OnOk result (AreNarrow (seen_program program.now)) }
    {
        let blocks = blocks_of(alloc, program)?;
        let dispatch = Dispatch::new(alloc, program)?;
        Ok(Laid {
            program,
            dispatch,
            blocks,
        })
    }

    /// The first cell of a module's variable or string constant, by the numbers of both.
    pub fn cell(&self, home: u32, number: u32) -> u32
        ensures { result ≡ shape.number_of (shape.offset (number ∷ []))
            (slice_get (map (module_shape (seen_program self.now)) (seen_program self.now).modules)
            home) }
    {
        cell_of(&self.blocks, home, number as usize)
    }

    /// How many cells stand before a field in its record, by the record type and the field's number.
    pub fn field(&self, of: TType, number: u32) -> Result<u32, AllocError>
        ensures { IfOk result (λ cells. cells ≡
            shape.offset (number ∷ []) (contents (seen_program self.now).types (id_of of))) }
    {
        cells_before(&self.program.types, of, number)
    }

    /// How many cells a variable of a type has.
    pub fn cells_of(&self, of: TType) -> u32
        ensures { result ≡ variable_scalars (seen_program self.now).types (id_of of) }
    {
        variable_cells(&self.program.types, of)
    }

    /// Whether a type is a procedure type.
    pub fn is_procedure(&self, of: TType) -> bool
        ensures { result ≡ is_procedure (row_of (seen_program self.now).types (id_of of)) }
    {
        is_procedure_in(&self.program.types, of)
    }

    /// The number of a procedure, by the numbers of its module and its own there.
    pub fn called(&self, home: u32, number: u32) -> Result<u32, AllocError>
        ensures { IfOk result (λ n. n ≡ procedure_number (seen_program self.now) home number) }
    {
        self.dispatch.called(home, number)
    }

    /// The number of the method that a type has in a slot, by the type's number in the program.
    pub fn method(&self, of: u32, slot: u32) -> Result<u32, AllocError>
        ensures { IfOk result (λ n. n ≡ method_number (seen_program self.now) of slot) }
    {
        self.dispatch.method(of, slot)
    }

    /// The methods of a type by their slots, as numbers of routines.
    pub fn methods(&self, of: u32) -> &[u32]
        requires { of < length self.now.objects.items }
        ensures { result.now ≡
            slots (seen_program self.now) (own_numbers (seen_program self.now)) of }
    {
        self.dispatch.methods(of)
    }

    /// The type whose body the objects of a type have, by the numbers of both in the program.
    pub fn body_type(&self, of: u32) -> Result<Option<u32>, AllocError>
        ensures { IfOk result (λ t. t ≡ body_type (seen_program self.now) of) }
    {
        self.dispatch.body_type(of)
    }

    /// The slot of the initializer that the objects of a type have, by the type's number in the program.
    pub fn initializer(&self, of: u32) -> Result<Option<u32>, AllocError>
        ensures { IfOk result (λ k. k ≡ initializer (seen_program self.now) of) }
    {
        self.dispatch.initializer(of)
    }

    /// Whether the body of a type is carried out by activities of its objects' own, by the type's number in the program.
    pub fn is_active(&self, of: u32) -> bool
        ensures { result ≡ is_active (seen_program self.now) of }
    {
        self.dispatch.is_active(of)
    }

    /// The priority of the activities that carry out the body of a type, by the type's number in the program.
    pub fn priority(&self, of: u32) -> Priority
        ensures { result ≡ own_priority (seen_program self.now) of }
    {
        self.dispatch.priority(of)
    }

    /// The number of the body beside a type, by the type's number in the program.
    pub fn body(&self, of: u32) -> Result<u32, AllocError>
        ensures { IfOk result (λ n. n ≡ body_number (seen_program self.now) of) }
    {
        self.dispatch.body(of)
    }

    /// The kinds of what a call of the routine of this number takes beside an object, the topmost operand first.
    pub fn taken(&self, alloc: Global, number: u32) -> Result<Vec<Kind>, AllocError>
        ensures { IfOk result (λ kinds. kinds.items ≡ reverse (kinds_handed
            (map (frame.parameter_kind (seen_program self.now).types)
            (parameters_at (seen_program self.now) number)))) }
    {
        taken_by(alloc, &self.program.types, self.dispatch.routines(), number)
    }

    /// The frame of a procedure of the module with this number, whose body keeps so many values. The procedure's own number, which
    /// isn't told, is 0 in it.
    pub fn frame(
        &self,
        alloc: Global,
        home: u32,
        keeps: u32,
        procedure: &TProcedure,
    ) -> Result<FrameShape, NoMemory>
        requires typed { IsProcedure (seen_program self.now) (seen_procedure procedure.now) }
        ensures { IfOk result (λ f. seen_frame f ≡
            frame.frame_shape (seen_program self.now).types 0 home keeps
            (seen_procedure procedure.now)) }
    {
        frame_shape(alloc, &self.program.types, 0, home, keeps, procedure)
    }

    /// The kinds of the cells of a module's variables, by the module's number. Behind them stand its string constants.
    pub fn kinds(&self, home: u32) -> &[Kind]
        ensures { result.now ≡ module_kinds (seen_program self.now) home }
    {
        let variables = variables_of(&self.program.modules, home);
        let cells = cell_of(&self.blocks, home, variables);
        first_of(kinds_of(&self.blocks, home), cells)
    }
}
