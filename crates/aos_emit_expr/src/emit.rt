// From typed designators and expressions to instructions: what is emitted is the code that the definitions give.

ghost use Rattle.std.specs.Prelude.{◌≡◌, ◌+◌, ◌<◌, suc, [], ◌∷◌, ◌++◌, length, map, reverse, pos, IfOk, OnOk};
ghost use Rattle.aos_base.specs.declared.operator.Binary.TheVariants as binary;
ghost use Rattle.aos_typed.specs.Seen.{seen_argument, seen_list, seen_expr};
ghost use Rattle.aos_typed.specs.Program.{NoMore};
ghost use Rattle.aos_emit_expr.specs.Adds.{Adds, AddsBack, front_code, source_code};
ghost use Rattle.aos_emit_expr.specs.Back.{back_arguments, back_and, back_or, back_source, back_last, placed};
ghost use Rattle.aos_emit_expr.specs.Forwards.{forwards};
ghost use Rattle.aos_emit_expr.specs.Pending.{pending_end};
ghost use Rattle.aos_sim.specs.Code.{begin, lengths_code, drops};

use crate::forms::{Form, first_of, source_form};
use crate::scope::Scope;
use crate::sources::Source;
use aos_base::{Binary, Pos};
use aos_code::Instr;
use aos_dispatch::Prefix;
use aos_typed::{TArgument, TExpr};
use std::alloc::AllocError;

/// The number that a jump to the end of a statement has until that is known: no instruction has it.
pub const PENDING_END: u32 = 4294967294;

/// One more instruction.
pub fn put(code: &mut Vec<Instr>, instr: Instr) -> Result<(), AllocError>
    ensures { OnOk result (code.new.items ≡ code.old.items ++ instr ∷ []) }
{
    code.push(instr)?;
    Ok(())
}

/// The beginning of a statement.
pub fn emit_begin(code: &mut Vec<Instr>, at: Pos) -> Result<(), AllocError>
    ensures { OnOk result (code.new.items ≡ code.old.items ++ begin at ∷ []) }
{
    put(code, Instr::Begin(at.line, at.col))
}

/// The number of an instruction. Code of 2^32 - 2 instructions and more is want of memory.
pub fn number_of(place: usize) -> Result<u32, AllocError>
    ensures is { IfOk result (λ n. n ≡ place) }
    ensures few { IfOk result (λ n. place < pending_end) }
{
    if place >= PENDING_END as usize {
        return Err(AllocError);
    }
    Ok(place as u32)
}

/// The number of the next instruction.
pub fn next_place(code: &[Instr]) -> Result<u32, AllocError>
    ensures is { IfOk result (λ n. n ≡ length code.now) }
    ensures few { IfOk result (λ n. length code.now < pending_end) }
{
    number_of(code.len())
}

// Lengths, the last one first.
#[tactic(auto, using(crate::proofs::Turned::number_more))]
fn put_lengths(code: &mut Vec<Instr>, lengths: &[u32]) -> Result<(), AllocError>
    ensures { OnOk result (code.new.items ≡
        code.old.items ++ reverse (map (λ n. Instr.Num (pos n)) lengths.now)) }
{
    let mut left = lengths.len();
    while left > 0 {
        left -= 1;
        put(code, Instr::Num(i64::from(lengths[left])))?;
    }
    Ok(())
}

// An open array parameter with so many lengths, from its last cell to its first.
#[tactic(auto, using(crate::proofs::Turned::opened_more, crate::proofs::Turned::opened_ends))]
fn put_opened(code: &mut Vec<Instr>, cell: u32, count: u32) -> Result<(), AllocError>
    ensures { OnOk result (code.new.items ≡
        code.old.items ++ reverse (Instr.Param cell ∷ lengths_code (suc cell) count)) }
{
    let Some(last) = cell.checked_add(count) else {
        return Err(AllocError);
    };
    let mut next = last;
    while next > cell {
        put(code, Instr::Length(next))?;
        next -= 1;
    }
    put(code, Instr::Param(cell))
}

// So many operands are taken.
#[tactic(auto, using(crate::proofs::Turned::drops_more))]
fn put_drops(code: &mut Vec<Instr>, count: u32) -> Result<(), AllocError>
    ensures { OnOk result (code.new.items ≡ code.old.items ++ drops count) }
{
    for _operand in 0..count {
        put(code, Instr::Drop)?;
    }
    Ok(())
}

// An array with so many dimensions is taken again, and the length is put that is known of it: from the last instruction to the first.
fn put_length(code: &mut Vec<Instr>, count: u32, length: u32) -> Result<(), AllocError>
    ensures { OnOk result (code.new.items ≡
        code.old.items ++ Instr.Num (pos length) ∷ drops (suc count)) }
{
    put(code, Instr::Num(i64::from(length)))?;
    put(code, Instr::Drop)?;
    put_drops(code, count)
}

// What is handed over for a parameter, from the last instruction to the first.
#[cycle(emit_back)]
fn emit_argument_back(
    scope: &Scope<'_>,
    code: &mut Vec<Instr>,
    argument: &TArgument,
) -> Result<(), AllocError>
    ensures { OnOk result (AddsBack back_arguments scope.now code.old.items code.new.items
        (seen_argument argument.now NoMore)) }
{
    match argument {
        TArgument::Scalar(value) => emit_back(scope, code, Source::Prefix(Prefix::Value(value))),
        TArgument::Whole(place) => emit_back(scope, code, Source::Prefix(Prefix::Place(place))),
        TArgument::Opening(rows) => emit_back(scope, code, Source::Prefix(Prefix::Rows(rows))),
    }
}

// What is handed over, from the last argument to the first.
#[cycle(emit_back)]
#[tactic(auto, using(aos_dispatch::proofs::Sizes::argument_less, crate::proofs::Turned::argument_more))]
fn emit_arguments_back(
    scope: &Scope<'_>,
    code: &mut Vec<Instr>,
    arguments: &[TArgument],
) -> Result<(), AllocError>
    ensures { OnOk result (AddsBack back_arguments scope.now code.old.items code.new.items
        (seen_list arguments.now)) }
{
    let mut left = arguments.len();
    while left > 0 {
        left -= 1;
        emit_argument_back(scope, code, &arguments[left])?;
    }
    Ok(())
}

// The second operand of `&` with what stands around it, from the last instruction to the first.
#[cycle(emit_back)]
fn emit_and_back(scope: &Scope<'_>, code: &mut Vec<Instr>, second: &TExpr) -> Result<(), AllocError>
    ensures { OnOk result (AddsBack back_and scope.now code.old.items code.new.items
        (seen_expr second.now)) }
{
    let past = next_place(code)?;
    put(code, Instr::Num(0))?;
    let from_false = next_place(code)?;
    put(code, Instr::Jump(past))?;
    emit_back(scope, code, Source::Prefix(Prefix::Value(second)))?;
    put(code, Instr::JumpFalse(from_false))
}

// The second operand of OR with what stands before it, from the last instruction to the first.
#[cycle(emit_back)]
fn emit_or_back(scope: &Scope<'_>, code: &mut Vec<Instr>, second: &TExpr) -> Result<(), AllocError>
    ensures { OnOk result (AddsBack back_or scope.now code.old.items code.new.items
        (seen_expr second.now)) }
{
    let behind = next_place(code)?;
    emit_back(scope, code, Source::Prefix(Prefix::Value(second)))?;
    let from_second = next_place(code)?;
    put(code, Instr::Jump(behind))?;
    put(code, Instr::Num(1))?;
    put(code, Instr::JumpFalse(from_second))
}

// The set of one element, from the last instruction to the first.
fn put_element(code: &mut Vec<Instr>) -> Result<(), AllocError>
    ensures { OnOk result (code.new.items ≡
        code.old.items ++ Instr.Binary binary.SetSpan ∷ Instr.Dup ∷ []) }
{
    put(code, Instr::Binary(Binary::SetSpan))?;
    put(code, Instr::Dup)
}

// What a form has behind what stands first of it. A jump is given the number of instructions from its target to the end.
#[cycle(emit_back)]
fn emit_last(scope: &Scope<'_>, code: &mut Vec<Instr>, form: Form<'_>) -> Result<(), AllocError>
    ensures { OnOk result (AddsBack back_last scope.now code.old.items code.new.items form.entry) }
{
    match form {
        Form::Part(_) => Ok(()),
        Form::Alone(instr) => put(code, instr),
        Form::One(_, instr) => put(code, instr),
        Form::Two(_, second, instr) => {
            put(code, instr)?;
            emit_back(scope, code, Source::Prefix(second))
        }
        Form::And(_, second) => emit_and_back(scope, code, second),
        Form::Or(_, second) => emit_or_back(scope, code, second),
        Form::Element(_) => put_element(code),
        Form::Length(_, count, length) => put_length(code, count, length),
        Form::Lengths(_, lengths) => put_lengths(code, lengths),
        Form::Opened(cell, count) => put_opened(code, cell, count),
        Form::Call(_, instr, arguments) => {
            put(code, instr)?;
            emit_arguments_back(scope, code, arguments)
        }
        Form::Handed(arguments) => emit_arguments_back(scope, code, arguments),
    }
}

// Code from its last instruction to its first. A long designator and a long sum have as many parts, one in another: the loop over
// them takes no stack.
#[cycle(emit_back)]
fn emit_back(scope: &Scope<'_>, code: &mut Vec<Instr>, all: Source<'_>) -> Result<(), AllocError>
    ensures { OnOk result (AddsBack back_source scope.now code.old.items code.new.items all.entry) }
{
    let mut rest = Some(all);
    while let Some(source) = rest {
        let form = source_form(scope, source)?;
        emit_last(scope, code, form)?;
        rest = first_of(form);
    }
    Ok(())
}

// The same instruction, where the code ends at this place: a jump is given its target's place. No target has more
// instructions to the end than there are, so the difference isn't below 0.
fn place_jump(instr: Instr, end: u32) -> Instr
    ensures { result ≡ placed end instr }
{
    match instr {
        Instr::Jump(behind) => Instr::Jump(end.saturating_sub(behind)),
        Instr::JumpFalse(behind) => Instr::JumpFalse(end.saturating_sub(behind)),
        _ => instr,
    }
}

// Puts code that stands from its last instruction to its first, which ends behind what is there.
fn put_forwards(code: &mut Vec<Instr>, mut back: Vec<Instr>) -> Result<(), AllocError>
    ensures { OnOk result (code.new.items ≡ code.old.items ++
        forwards (length code.old.items + length back.items) back.items) }
{
    let end = number_of(code.len() + back.len())?;
    while let Some(instr) = back.pop() {
        put(code, place_jump(instr, end))?;
    }
    Ok(())
}

/// The code of an expression, a designator, an array, a call or what is handed over.
pub fn emit_source(
    scope: &Scope<'_>,
    code: &mut Vec<Instr>,
    source: Source<'_>,
) -> Result<(), AllocError>
    ensures { OnOk result (Adds source_code scope.now code.old.items code.new.items source.entry) }
{
    let mut back = Vec::new(scope.alloc());
    emit_back(scope, &mut back, source)?;
    put_forwards(code, back)
}

/// The code of an expression, a designator or an array.
pub fn emit_front(
    scope: &Scope<'_>,
    code: &mut Vec<Instr>,
    front: Prefix<'_>,
) -> Result<(), AllocError>
    ensures { OnOk result (Adds front_code scope.now code.old.items code.new.items front.entry) }
{
    emit_source(scope, code, Source::Prefix(front))
}
