// Statements that no others stand in.

ghost use Rattle.std.specs.Prelude.{◌≡◌, [], ◌∷◌, ◌++◌, OnOk};
ghost use Rattle.aos_typed.specs.Program.{Assign, Change as Changed, Copy, Out, Perform};
ghost use Rattle.aos_typed.specs.Seen.{seen_place, seen_list, seen_callee, seen_expr, seen_call};
ghost use Rattle.aos_emit_expr.specs.Adds.{Adds};
ghost use Rattle.aos_emit_stat.specs.Adds.{AddsStat, one_code, two_code};
ghost use Rattle.aos_sim.specs.Code.{begin, out_code, change_code};

use aos_base::{Binary, Pos};
use aos_code::{Instr, Kind};
use aos_dispatch::Prefix;
use aos_emit_expr::{Scope, Source, emit_begin, emit_front, emit_source, put};
use aos_typed::{Change, OutCall, TArgument, TCallee, TExpr, TPlace, TType};
use std::alloc::AllocError;

/// A statement of one instruction.
pub fn emit_alone(code: &mut Vec<Instr>, at: Pos, instr: Instr) -> Result<(), AllocError>
    ensures { OnOk result (code.new.items ≡ code.old.items ++ begin at ∷ instr ∷ []) }
{
    emit_begin(code, at)?;
    put(code, instr)
}

/// A statement of one part, and the instruction that takes what it gives.
pub fn emit_one(
    scope: &Scope<'_>,
    code: &mut Vec<Instr>,
    at: Pos,
    part: Prefix<'_>,
    last: Instr,
) -> Result<(), AllocError>
    ensures { OnOk result (Adds (one_code at last) scope.now code.old.items code.new.items
        part.entry) }
{
    emit_begin(code, at)?;
    emit_front(scope, code, part)?;
    put(code, last)
}

/// A statement of two parts, and the instruction that takes what both give.
pub fn emit_two(
    scope: &Scope<'_>,
    code: &mut Vec<Instr>,
    at: Pos,
    first: Prefix<'_>,
    second: Prefix<'_>,
    last: Instr,
) -> Result<(), AllocError>
    ensures { OnOk result (Adds (two_code at last) scope.now code.old.items code.new.items
        (first.entry, second.entry)) }
{
    emit_begin(code, at)?;
    emit_front(scope, code, first)?;
    emit_front(scope, code, second)?;
    put(code, last)
}

/// An assignment of a scalar.
pub fn emit_assign(
    scope: &Scope<'_>,
    code: &mut Vec<Instr>,
    at: Pos,
    of: TType,
    place: &TPlace,
    value: &TExpr,
) -> Result<(), AllocError>
    ensures { OnOk result (AddsStat scope.now code.old.items code.new.items 0
        (Assign at of (seen_place place.now) (seen_expr value.now))) }
{
    let last = Instr::Store(scope.cell_kind(of));
    emit_two(
        scope,
        code,
        at,
        Prefix::Place(place),
        Prefix::Value(value),
        last,
    )
}

/// An assignment of a whole.
pub fn emit_copy(
    scope: &Scope<'_>,
    code: &mut Vec<Instr>,
    at: Pos,
    of: TType,
    to: &TPlace,
    from: &TPlace,
) -> Result<(), AllocError>
    ensures { OnOk result (AddsStat scope.now code.old.items code.new.items 0
        (Copy at of (seen_place to.now) (seen_place from.now))) }
{
    let last = Instr::Copy(scope.cells_of(of));
    emit_two(
        scope,
        code,
        at,
        Prefix::Place(to),
        Prefix::Place(from),
        last,
    )
}

/// A call of a procedure.
pub fn emit_perform(
    scope: &Scope<'_>,
    code: &mut Vec<Instr>,
    at: Pos,
    callee: &TCallee,
    arguments: &[TArgument],
) -> Result<(), AllocError>
    ensures { OnOk result (AddsStat scope.now code.old.items code.new.items 0
        (Perform at (seen_callee callee.now) (seen_list arguments.now))) }
{
    emit_begin(code, at)?;
    emit_source(scope, code, Source::Call(callee, arguments))
}

// A call of a procedure of module Out.
fn put_out(scope: &Scope<'_>, code: &mut Vec<Instr>, call: &OutCall) -> Result<(), AllocError>
    ensures { OnOk result (Adds out_code scope.now code.old.items code.new.items
        (seen_call call.now)) }
{
    match call {
        OutCall::Open => put(code, Instr::OutOpen),
        OutCall::Char(value) => {
            emit_front(scope, code, Prefix::Value(value))?;
            put(code, Instr::OutChar)
        }
        OutCall::Int(value, places) => {
            emit_front(scope, code, Prefix::Value(value))?;
            emit_front(scope, code, Prefix::Value(places))?;
            put(code, Instr::OutInt)
        }
        OutCall::String(text) => {
            emit_front(scope, code, Prefix::Rows(text))?;
            put(code, Instr::OutString)
        }
        OutCall::Ln => put(code, Instr::OutLn),
    }
}

/// A call of a procedure of module Out, as a statement.
pub fn emit_out(
    scope: &Scope<'_>,
    code: &mut Vec<Instr>,
    at: Pos,
    call: &OutCall,
) -> Result<(), AllocError>
    ensures { OnOk result (AddsStat scope.now code.old.items code.new.items 0
        (Out at (seen_call call.now))) }
{
    emit_begin(code, at)?;
    put_out(scope, code, call)
}

// How a value is changed by what lies above it.
fn put_operator(code: &mut Vec<Instr>, change: Change) -> Result<(), AllocError>
    ensures { OnOk result (code.new.items ≡ code.old.items ++ change_code change) }
{
    match change {
        Change::Add(width) => put(code, Instr::Binary(Binary::Add(width))),
        Change::Subtract(width) => put(code, Instr::Binary(Binary::Sub(width))),
        Change::Include => {
            put(code, Instr::Dup)?;
            put(code, Instr::Binary(Binary::SetSpan))?;
            put(code, Instr::Binary(Binary::Union))
        }
        Change::Exclude => {
            put(code, Instr::Dup)?;
            put(code, Instr::Binary(Binary::SetSpan))?;
            put(code, Instr::Binary(Binary::Minus))
        }
    }
}

// A variable whose place lies twice below a value is changed by that.
fn put_change(code: &mut Vec<Instr>, change: Change) -> Result<(), AllocError>
    ensures { OnOk result (code.new.items ≡ code.old.items ++ (Instr.Swap ∷ (Instr.Load Kind.N ∷
        (Instr.Swap ∷ (change_code change ++ Instr.Store Kind.N ∷ []))))) }
{
    put(code, Instr::Swap)?;
    put(code, Instr::Load(Kind::N))?;
    put(code, Instr::Swap)?;
    put_operator(code, change)?;
    put(code, Instr::Store(Kind::N))
}

/// What a variable is changed by is evaluated before the variable is read.
pub fn emit_change(
    scope: &Scope<'_>,
    code: &mut Vec<Instr>,
    at: Pos,
    change: Change,
    place: &TPlace,
    by: &TExpr,
) -> Result<(), AllocError>
    ensures { OnOk result (AddsStat scope.now code.old.items code.new.items 0
        (Changed at change (seen_place place.now) (seen_expr by.now))) }
{
    emit_begin(code, at)?;
    emit_front(scope, code, Prefix::Place(place))?;
    put(code, Instr::Dup)?;
    emit_front(scope, code, Prefix::Value(by))?;
    put_change(code, change)
}
