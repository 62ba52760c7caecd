// A routine whose code is emitted: its program, its procedure with its cells, if the routine is one, what its statements stand in, and
// where memory for its code comes from.

ghost use Rattle.std.specs.Prelude.{◌≡◌, None, Some, reverse, slice_get, if◌then◌else◌, IfOk};
ghost use Rattle.std.specs.Option.{unwrap_or};
ghost use Rattle.aos_typed.specs.Methods.{body_type, initializer, is_active, method_number};
ghost use Rattle.aos_typed.specs.Numbers.{body_number, procedure_number};
ghost use Rattle.aos_typed.specs.Routines.{gives, parameters_at};
ghost use Rattle.aos_typed.specs.Seen.{seen_program, seen_procedure};
ghost use Rattle.aos_sim.specs.Code.{variable_cell, own_cell, field_cell, cells_of, handed_kinds, kind_of};
ghost use Rattle.aos_emit_expr.specs.Scope.{AreOwn, program_of, own_of, in_region, in_loop};

use crate::regions::Within;
use aos_code::Kind;
use aos_program_layout::Laid;
use aos_typed::{TProcedure, TType};
use std::alloc::{AllocError, Global};
use std::marker::Model;

/// A routine of a program: its procedure, if it is one, the first cell of each parameter and then of each local, and what the statements
/// that are emitted stand in. Contracts don't see where memory comes from.
#[derive(Drop)]
pub struct Scope<'a> {
    alloc: Global,
    program: &'a Laid<'a>,
    own: Option<&'a TProcedure>,
    places: &'a [u32],
    cells: u32,
    within: Within,
}

impl<'a> Model for Scope<'a> {
    ghost use Rattle.std.specs.Prelude.{option_map};
    ghost use Rattle.std.specs.Coded.{codes};
    ghost use Rattle.aos_typed.specs.contracts.tree.TStat as stat;
    ghost use Rattle.aos_typed.specs.Seen.{seen_procedure, seen_program};
    ghost use Rattle.aos_emit_expr.specs.contracts.regions.Within as around;
    ghost use Rattle.aos_emit_expr.specs.Scope as scopes;

    ghost Value = { scopes.Inside };

    ghost coded = { Prim.hlevel (codes, stat.the_row.coded, around.the_row.coded) };

    ghost view = { λ s. record {
      program = s.program.now;
      own = option_map (λ q. q.now) s.own;
      within = s.within;
    } };

    ghost invariant = { λ s. scopes.AreOwn (seen_program s.program.now).types
        (option_map seen_procedure (option_map (λ q. q.now) s.own)) s.places.now s.cells };
}

impl<'a> Scope<'a> {
    /// A body that is no procedure's.
    pub fn body(alloc: Global, program: &'a Laid<'a>) -> Scope<'a>
        ensures { result ≡ record { program = program.now; own = None; within = Within.NoRegion } }
    {
        Scope {
            alloc,
            program,
            own: None,
            places: &[],
            cells: 0,
            within: Within::NoRegion,
        }
    }

    /// A procedure, with the first cells of its parameters and locals, and how many cells these have.
    pub fn procedure(
        alloc: Global,
        program: &'a Laid<'a>,
        own: &'a TProcedure,
        places: &'a [u32],
        cells: u32,
    ) -> Scope<'a>
        requires { AreOwn (seen_program program.now).types (Some (seen_procedure own.now))
            places.now cells }
        ensures { result ≡
            record { program = program.now; own = Some own.now; within = Within.NoRegion } }
    {
        Scope {
            alloc,
            program,
            own: Some(own),
            places,
            cells,
            within: Within::NoRegion,
        }
    }

    // The same routine, where its statements stand in this.
    fn standing(&self, within: Within) -> Scope<'a>
        ensures { result ≡
            record { program = self.now.program; own = self.now.own; within = within } }
    {
        Scope {
            alloc: self.alloc,
            program: self.program,
            own: self.own,
            places: self.places,
            cells: self.cells,
            within,
        }
    }

    /// Where memory for code comes from.
    pub fn alloc(&self) -> Global {
        self.alloc
    }

    /// What the statements stand in.
    pub fn within(&self) -> Within
        ensures { result ≡ self.now.within }
    {
        self.within
    }

    /// In a region that begins here.
    pub fn in_region(&self) -> Scope<'a>
        ensures { result ≡ in_region self.now }
    {
        self.standing(Within::InLoop)
    }

    /// In a LOOP that begins here: a region is around it.
    pub fn in_loop(&self) -> Scope<'a>
        ensures { result ≡ in_loop self.now }
    {
        match self.within {
            Within::NoRegion => self.standing(Within::NoRegion),
            Within::AroundLoop | Within::InLoop => self.standing(Within::AroundLoop),
        }
    }

    /// The first cell of a module's variable or string constant, by the numbers of both.
    pub fn cell(&self, home: u32, number: u32) -> u32
        ensures { result ≡ variable_cell (program_of self.now) (own_of self.now) home number }
    {
        self.program.cell(home, number)
    }

    /// The first cell of a parameter or a local.
    pub fn own_cell(&self, number: u32) -> u32
        ensures { result ≡ own_cell (program_of self.now) (own_of self.now) number }
    {
        cell_at(self.places, self.cells, number)
    }

    /// How many cells stand before a field in its record, by the record type and the field's number.
    pub fn field(&self, of: TType, number: u32) -> Result<u32, AllocError>
        ensures { IfOk result (λ cells.
            cells ≡ field_cell (program_of self.now) (own_of self.now) of number) }
    {
        self.program.field(of, number)
    }

    /// How many cells a variable of a type has.
    pub fn cells_of(&self, of: TType) -> u32
        ensures { result ≡ cells_of (program_of self.now) (own_of self.now) of }
    {
        self.program.cells_of(of)
    }

    /// The kind of what a variable of a type holds.
    pub fn cell_kind(&self, of: TType) -> Kind
        ensures { result ≡ kind_of (program_of self.now).types of }
    {
        match of {
            TType::Integer(_) => Kind::N,
            TType::Boolean => Kind::N,
            TType::Char => Kind::N,
            TType::Set => Kind::N,
            TType::Any => Kind::R,
            TType::Named(_) => named_kind(self.program.is_procedure(of)),
        }
    }

    /// The number of a procedure, by the numbers of its module and its own there.
    pub fn called(&self, home: u32, number: u32) -> Result<u32, AllocError>
        ensures { IfOk result (λ n. n ≡ procedure_number (program_of self.now) home number) }
    {
        self.program.called(home, number)
    }

    /// The number of the method that a type has in a slot, by the type's number in the program.
    pub fn method(&self, of: u32, slot: u32) -> Result<u32, AllocError>
        ensures { IfOk result (λ n. n ≡ method_number (program_of self.now) of slot) }
    {
        self.program.method(of, slot)
    }

    /// The number of the body beside a type, by the type's number in the program.
    pub fn body_beside(&self, of: u32) -> Result<u32, AllocError>
        ensures { IfOk result (λ n. n ≡ body_number (program_of self.now) of) }
    {
        self.program.body(of)
    }

    /// The type whose body the objects of a type have, by the numbers of both in the program.
    pub fn body_type(&self, of: u32) -> Result<Option<u32>, AllocError>
        ensures { IfOk result (λ t. t ≡ body_type (program_of self.now) of) }
    {
        self.program.body_type(of)
    }

    /// Whether the body of a type is carried out by activities of its objects' own, by the type's number in the program.
    pub fn is_active(&self, of: u32) -> bool
        ensures { result ≡ is_active (program_of self.now) of }
    {
        self.program.is_active(of)
    }

    /// The slot of the initializer that the objects of a type have, by the type's number in the program.
    pub fn initializer(&self, of: u32) -> Result<Option<u32>, AllocError>
        ensures { IfOk result (λ k. k ≡ initializer (program_of self.now) of) }
    {
        self.program.initializer(of)
    }

    /// The kinds of what a call of the routine of this number takes beside an object, the topmost operand first.
    pub fn taken(&self, number: u32) -> Result<Vec<Kind>, AllocError>
        ensures { IfOk result (λ kinds. kinds.items ≡ reverse (handed_kinds
            (program_of self.now).types (parameters_at (program_of self.now) number))) }
    {
        self.program.taken(self.alloc, number)
    }

    /// Whether the routine is a function.
    pub fn gives(&self) -> bool
        ensures { result ≡ gives (own_of self.now) }
    {
        match self.own {
            Some(procedure) => procedure.result.is_some(),
            None => false,
        }
    }
}

// The kind of what a variable of a named type holds, which may be a procedure type.
fn named_kind(is_procedure: bool) -> Kind
    ensures { result ≡ (if is_procedure then Kind.C else Kind.R) }
{
    if is_procedure { Kind::C } else { Kind::R }
}

// The cell of this number, or the one behind all.
fn cell_at(places: &[u32], cells: u32, number: u32) -> u32
    ensures { result ≡ unwrap_or (slice_get places.now number) cells }
{
    match places.get(number as usize) {
        Some(cell) => *cell,
        None => cells,
    }
}
