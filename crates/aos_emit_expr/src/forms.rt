// The forms of code: what stands first of it, and what is put behind that. Code is emitted from its last instruction to its first, so
// what stands first is left for later.

ghost use Rattle.std.specs.Prelude.{◌≡◌, ◌+◌, ◌≤◌, IfOk};
ghost use Rattle.aos_typed.specs.Program.{Function};
ghost use Rattle.aos_typed.specs.Seen.{seen_place, seen_rows, seen_list, seen_callee, seen_expr};
ghost use Rattle.aos_dispatch.specs.Sizes.{place_size, rows_size, callee_size, value_size};
ghost use Rattle.aos_emit_expr.specs.Adds.{IsForm, IsReceiver};
ghost use Rattle.aos_emit_expr.specs.Back.{first_of, back_place, back_rows, back_code, back_source};
ghost use Rattle.aos_emit_expr.specs.Scope.{program_of};
ghost use Rattle.aos_emit_expr.specs.Sizes.{source_size, first_size, called_size, form_size};
ghost use Rattle.aos_sim.specs.Code as codes;
ghost use Rattle.aos_sim.specs.Code.{literal_code};

use crate::scope::Scope;
use crate::sources::Source;
use aos_base::{Unary, truth};
use aos_code::Instr;
use aos_dispatch::Prefix::{Place, Rows, Value};
use aos_dispatch::{Prefix, dimensions};
use aos_typed::{Literal, TArgument, TCallee, TExpr, TPlace, TRows};
use std::alloc::AllocError;

/// A form of code: its parts, from the first one on, and the instruction behind them.
#[derive(Clone, Copy)]
pub enum Form<'a> {
    /// A part alone.
    Part(Prefix<'a>),
    /// An instruction alone.
    Alone(Instr),
    /// A part, and the instruction that takes what it gives.
    One(Prefix<'a>, Instr),
    /// Two parts, and the instruction that takes what both give.
    Two(Prefix<'a>, Prefix<'a>, Instr),
    /// `&` with its operands.
    And(&'a TExpr, &'a TExpr),
    /// OR with its operands.
    Or(&'a TExpr, &'a TExpr),
    /// The set of one element.
    Element(&'a TExpr),
    /// An array with so many dimensions, which are taken again, and the length that is known of it.
    Length(&'a TRows, u32, u32),
    /// A part, and lengths behind it.
    Lengths(Prefix<'a>, &'a [u32]),
    /// An open array parameter by its first cell, with so many dimensions.
    Opened(u32, u32),
    /// What something is called on, the instruction that calls it, and what is handed over.
    Call(Option<Source<'a>>, Instr, &'a [TArgument]),
    /// What is handed over, alone.
    Handed(&'a [TArgument]),
}

/// What stands first of a form.
#[tactic(auto, using(crate::proofs::Called::called_first))]
pub fn first_of<'b>(form: Form<'b>) -> Option<Source<'b>>
    ensures is { result ≡ first_of form.entry }
    ensures less { first_size result ≤ form_size form.entry }
{
    match form {
        Form::Part(part) => Some(Source::Prefix(part)),
        Form::Alone(_) => None,
        Form::One(part, _) => Some(Source::Prefix(part)),
        Form::Two(first, _, _) => Some(Source::Prefix(first)),
        Form::And(first, _) => Some(Source::Prefix(Value(first))),
        Form::Or(first, _) => Some(Source::Prefix(Value(first))),
        Form::Element(operand) => Some(Source::Prefix(Value(operand))),
        Form::Length(rows, _, _) => Some(Source::Prefix(Rows(rows))),
        Form::Lengths(part, _) => Some(Source::Prefix(part)),
        Form::Opened(_, _) => None,
        Form::Call(receiver, _, _) => receiver,
        Form::Handed(_) => None,
    }
}

/// The number of the description of a type, from 1, by the type's number in the program from 0. A type whose number doesn't fit is
/// in no program: there is no memory for it.
pub fn described(of: u32) -> Result<u32, AllocError>
    ensures { IfOk result (λ n. n ≡ of + 1) }
{
    match of.checked_add(1) {
        Some(number) => Ok(number),
        None => Err(AllocError),
    }
}

fn literal_instr(literal: Literal) -> Instr
    ensures { result ≡ literal_code literal }
{
    match literal {
        Literal::Int(n) => Instr::Num(n),
        Literal::Bool(b) => Instr::Num(truth(b)),
        Literal::Char(c) => Instr::Num(i64::from(c)),
        Literal::Set(s) => Instr::Num(i64::from(s)),
        Literal::Text(text) => Instr::Num(i64::from(text.first)),
        Literal::Nil => Instr::Nil,
        Literal::NoProcedure => Instr::NilCall,
    }
}

// What calls a procedure: a method is found by the object's own type, or known where it is called on SELF; a value of a procedure
// type says which one it stands for.
fn call_instr(scope: &Scope<'_>, callee: &TCallee) -> Result<Instr, AllocError>
    ensures { IfOk result (λ i.
        i ≡ codes.call_instr (program_of scope.now) (seen_callee callee.now)) }
{
    match callee {
        TCallee::Plain(home, number) => Ok(Instr::Call(scope.called(*home, *number)?)),
        TCallee::Dispatched(_, of, slot) => Ok(Instr::Virtual(*slot, scope.method(*of, *slot)?)),
        TCallee::Upper(of, slot) => Ok(Instr::Call(scope.method(*of, *slot)?)),
        TCallee::Through(_, of) => Ok(Instr::CallValue(scope.body_beside(*of)?)),
    }
}

// What something is called on, which stands before all that it is handed.
fn receiver<'b>(callee: &'b TCallee) -> Option<Source<'b>>
    ensures code { IsReceiver (seen_callee callee.now) result }
    ensures size { called_size result ≡ callee_size (seen_callee callee.now) }
{
    match callee {
        TCallee::Plain(_, _) => None,
        TCallee::Dispatched(object, _, _) => Some(Source::Prefix(Value(object))),
        TCallee::Upper(_, _) => Some(Source::SelfRef),
        TCallee::Through(value, _) => Some(Source::Prefix(Value(value))),
    }
}

fn call_form<'b>(
    scope: &Scope<'_>,
    callee: &'b TCallee,
    arguments: &'b [TArgument],
) -> Result<Form<'b>, AllocError>
    ensures code { IfOk result (IsForm back_code scope.now
        (Function (seen_callee callee.now) (seen_list arguments.now))) }
    ensures size { IfOk result (λ form. form_size form ≡
        value_size (Function (seen_callee callee.now) (seen_list arguments.now))) }
{
    let last = call_instr(scope, callee)?;
    Ok(Form::Call(receiver(callee), last, arguments))
}

fn place_form<'b>(scope: &Scope<'_>, place: &'b TPlace) -> Result<Form<'b>, AllocError>
    ensures code { IfOk result (IsForm back_place scope.now (seen_place place.now)) }
    ensures size { IfOk result (λ form. form_size form ≡ place_size (seen_place place.now)) }
{
    match place {
        TPlace::ModuleVar(module, variable) => {
            let cell = scope.cell(*module, *variable);
            Ok(Form::Alone(Instr::Module(*module, cell)))
        }
        TPlace::Local(number) => Ok(Form::Alone(Instr::Frame(scope.own_cell(*number)))),
        TPlace::Passed(number) => Ok(Form::Alone(Instr::Param(scope.own_cell(*number)))),
        TPlace::Of(rows) => Ok(Form::Part(Rows(rows))),
        TPlace::Deref(object, _) => Ok(Form::One(Value(object), Instr::Deref(0))),
        TPlace::Typed(whole, of) => {
            Ok(Form::One(Place(whole), Instr::Offset(0, described(*of)?)))
        }
        TPlace::Guarded(whole, of) => {
            Ok(Form::One(Place(whole), Instr::GuardPlace(described(*of)?)))
        }
        TPlace::Field(whole, of, number) => {
            let last = Instr::Offset(scope.field(*of, *number)?, 0);
            Ok(Form::One(Place(whole), last))
        }
        TPlace::Index(whole, elements, of, index) => {
            let last = Instr::Index(*elements, scope.cells_of(*of));
            Ok(Form::Two(Place(whole), Value(index), last))
        }
    }
}

// An array with the lengths of its dimensions.
fn rows_form<'b>(scope: &Scope<'_>, rows: &'b TRows) -> Result<Form<'b>, AllocError>
    ensures code { IfOk result (IsForm back_rows scope.now (seen_rows rows.now)) }
    ensures size { IfOk result (λ form. form_size form ≡ rows_size (seen_rows rows.now)) }
{
    match rows {
        TRows::Known(place, lengths) => Ok(Form::Lengths(Place(place), lengths)),
        TRows::Opened(number, count) => Ok(Form::Opened(scope.own_cell(*number), *count)),
        TRows::Row(whole, of, index) => {
            let last = Instr::IndexOpen(dimensions(whole)?, scope.cells_of(*of));
            Ok(Form::Two(Rows(whole), Value(index), last))
        }
        TRows::Spread(object, count) => Ok(Form::One(Value(object), Instr::OpenRef(*count))),
        TRows::Longer(whole, lengths) => Ok(Form::Lengths(Rows(whole), lengths)),
    }
}

fn value_form<'b>(scope: &Scope<'_>, value: &'b TExpr) -> Result<Form<'b>, AllocError>
    ensures code { IfOk result (IsForm back_code scope.now (seen_expr value.now)) }
    ensures size { IfOk result (λ form. form_size form ≡ value_size (seen_expr value.now)) }
{
    match value {
        TExpr::Lit(literal) => Ok(Form::Alone(literal_instr(*literal))),
        TExpr::SelfRef => Ok(Form::Alone(Instr::SelfRef)),
        TExpr::Read(of, place) => Ok(Form::One(Place(place), Instr::Load(scope.cell_kind(*of)))),
        TExpr::Len(rows, number) => {
            Ok(Form::One(Rows(rows), Instr::PickLen(*number, dimensions(rows)?)))
        }
        TExpr::LenBehind(rows, length) => Ok(Form::Length(rows, dimensions(rows)?, *length)),
        TExpr::Function(callee, arguments) => call_form(scope, callee, arguments),
        TExpr::CompareTexts(relation, left, right) => {
            Ok(Form::Two(Rows(left), Rows(right), Instr::CmpText(*relation)))
        }
        TExpr::Unary(operator, operand) => {
            Ok(Form::One(Value(operand), Instr::Unary(*operator)))
        }
        TExpr::Binary(operator, left, right) => {
            Ok(Form::Two(Value(left), Value(right), Instr::Binary(*operator)))
        }
        TExpr::And(left, right) => Ok(Form::And(left, right)),
        TExpr::Or(left, right) => Ok(Form::Or(left, right)),
        TExpr::Element(operand) => Ok(Form::Element(operand)),
        TExpr::Ord(operand) => Ok(Form::Part(Value(operand))),
        TExpr::Chr(operand) => Ok(Form::One(Value(operand), Instr::Unary(Unary::Range(0, 255)))),
        TExpr::Same(left, right) => Ok(Form::Two(Value(left), Value(right), Instr::EqRef)),
        TExpr::Is(operand, of) => Ok(Form::One(Value(operand), Instr::Is(described(*of)?))),
        TExpr::IsRecord(place, of) => Ok(Form::One(Place(place), Instr::IsPlace(described(*of)?))),
        TExpr::Guard(operand, of) => Ok(Form::One(Value(operand), Instr::Guard(described(*of)?))),
        TExpr::ProcedureOf(home, number) => {
            Ok(Form::Alone(Instr::Proc(scope.called(*home, *number)?)))
        }
        TExpr::MethodOf(operand, _, slot) => Ok(Form::One(Value(operand), Instr::Bind(*slot))),
        TExpr::SameProcedure(left, right) => {
            Ok(Form::Two(Value(left), Value(right), Instr::EqCall))
        }
    }
}

/// The form of what code is emitted of.
pub fn source_form<'b>(scope: &Scope<'_>, source: Source<'b>) -> Result<Form<'b>, AllocError>
    ensures code { IfOk result (IsForm back_source scope.now source.entry) }
    ensures size { IfOk result (λ form. form_size form ≡ source_size source.entry) }
{
    match source {
        Source::Prefix(Prefix::Value(value)) => value_form(scope, value),
        Source::Prefix(Prefix::Place(place)) => place_form(scope, place),
        Source::Prefix(Prefix::Rows(rows)) => rows_form(scope, rows),
        Source::Call(callee, arguments) => call_form(scope, callee, arguments),
        Source::Handed(arguments) => Ok(Form::Handed(arguments)),
        Source::SelfRef => Ok(Form::Alone(Instr::SelfRef)),
    }
}
