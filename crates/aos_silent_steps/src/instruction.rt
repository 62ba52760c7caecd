// The instruction at a place of the code.
ghost use Rattle.std.specs.Prelude.{◌≡◌, ℕ, List, ◌<◌, ◌≤◌, Some, length, reverse, slice_get, IfOk, OnErr, vec_capacity};
ghost use Rattle.aos_code.specs.declared.instr.Instr.{Instr as InstrOf};
ghost use Rattle.aos_code.specs.declared.image.ProcShape.{ProcShape as ShapeOf};
ghost use Rattle.aos_code.specs.declared.image.TypeDesc.{TypeDesc as TypeOf};
ghost use Rattle.aos_code.specs.Numbered.{numbered as numbered_of};
ghost use Rattle.aos_code.specs.Silent.{Here, act, keeps_in};
ghost use Rattle.aos_store.specs.Store.{frame_in, kept_cells};
ghost use Rattle.aos_silent_steps.specs.Acts.{operands_in, act_in, IsStay, IsBeginOf, WhereStays};
ghost use Rattle.aos_silent_steps.specs.Known.{known};
ghost use Rattle.aos_silent_steps.specs.Silent.{here_at};
ghost use Rattle.aos_silent_steps.specs.Steps.{IsStep, IsStepOf, Group, group_of};
ghost use Rattle.aos_silent_steps.specs.Room.{IsRefused};

use crate::act::{Act, LOST, Question};
use crate::ask::{
    ask_array, ask_call, ask_char, ask_compare, ask_copy, ask_end, ask_int, ask_put_text, ask_read,
    ask_start, ask_store, ask_string, decide,
};
use crate::callables::{ask_value, compare_callables};
use crate::image::numbered;
use crate::methods::{tell_bound, tell_method};
use crate::objects::{
    compare_objects, guard_place, tell_array, tell_as, tell_cell, tell_is, test_place,
};
use crate::rows::{index_open, pick_length};
use crate::step::{
    give_again, give_value, keep_value, kept_value, length_value, param_value, self_value,
};
use crate::values::{
    assert_true, drop_one, index, jump, jump_on_false, offset, operate_on_one, operate_on_two, swap,
};
use aos_base::{NoMemory, Pos, Root};
use aos_code::{Cell, Image, Instr, ProcShape, TypeDesc};
use aos_store::{Frame, Heap};

/// An instruction that works on operands, of which there aren't more after it.
#[inline(always)]
fn do_operands(instr: Instr, stack: &mut Vec<Cell>) -> Act
    requires { group_of instr ≡ Group.Operands }
    ensures kept { WhereStays result (stack.new ≡ stack.old) }
    ensures room { vec_capacity stack.new ≡ vec_capacity stack.old }
    ensures act { (shapes : List ShapeOf) (types : List TypeOf) (own : ℕ) (here : Here) (at : ℕ)
        (code : List InstrOf) →
        act_in result (operands_in stack.new) ≡
        act shapes types own here instr code at (operands_in stack.old) }
    ensures begins { (code : List InstrOf) → IsBeginOf code result }
{
    match instr {
        Instr::Unary(operator) => operate_on_one(operator, stack),
        Instr::Binary(operator) => operate_on_two(operator, stack),
        Instr::Drop => drop_one(stack),
        Instr::Swap => swap(stack),
        Instr::EqRef => compare_objects(stack),
        Instr::EqCall => compare_callables(stack),
        Instr::Offset(cells, of_type) => offset(stack, cells, of_type),
        Instr::Index(elements, cells) => index(stack, elements, cells),
        Instr::IndexOpen(lengths, cells) => index_open(stack, lengths, cells),
        Instr::PickLen(dimension, lengths) => pick_length(stack, dimension, lengths),
        _ => LOST,
    }
}

/// An instruction that tests the type of the record at the topmost place.
#[inline(always)]
fn do_tests(instr: Instr, types: &[TypeDesc], stack: &mut Vec<Cell>) -> Act
    requires { group_of instr ≡ Group.Tested }
    ensures kept { WhereStays result (stack.new ≡ stack.old) }
    ensures room { vec_capacity stack.new ≡ vec_capacity stack.old }
    ensures act { (shapes : List ShapeOf) (own : ℕ) (here : Here) (at : ℕ) (code : List InstrOf) →
        act_in result (operands_in stack.new) ≡
        act shapes types.now own here instr code at (operands_in stack.old) }
    ensures begins { (code : List InstrOf) → IsBeginOf code result }
{
    match instr {
        Instr::IsPlace(other) => test_place(stack, types, other),
        Instr::GuardPlace(other) => guard_place(stack, types, other),
        _ => LOST,
    }
}

/// An instruction that asks an object, or calls its method, by what it was made as.
#[inline(always)]
fn do_told(
    instr: Instr,
    shapes: &[ProcShape],
    types: &[TypeDesc],
    heap: &Heap,
    frame: &mut Frame,
) -> Result<Act, NoMemory>
    requires { group_of instr ≡ Group.Told }
    ensures ok { IfOk result (λ did. (own : ℕ) (here : Here) (at : ℕ) (code : List InstrOf) →
        IsStepOf shapes.now types.now (known heap.now)
        (act shapes.now types.now own here instr code at (frame_in frame.old).stack) did
        (frame_in frame.old) (frame_in frame.new)) }
    ensures stays { IfOk result (λ did. WhereStays did (frame_in frame.new ≡ frame_in frame.old)) }
    ensures begins { (code : List InstrOf) → IfOk result (λ did. IsBeginOf code did) }
    ensures err { OnErr result (frame_in frame.new ≡ frame_in frame.old) }
    ensures full { (keeps : ℕ) → OnErr result (IsRefused keeps instr frame.old) }
    ensures room { vec_capacity frame.old.operands ≤ vec_capacity frame.new.operands }
    ensures keeps { length (kept_cells frame.old) ≤ length (kept_cells frame.new) }
{
    match instr {
        Instr::Deref(cell) => Ok(tell_cell(&mut frame.operands, heap, cell)),
        Instr::Is(other) => Ok(tell_is(&mut frame.operands, types, heap, other)),
        Instr::Guard(other) => Ok(tell_as(&frame.operands, types, heap, other)),
        Instr::OpenRef(count) => tell_array(frame, heap, count),
        Instr::Bind(slot) => Ok(tell_bound(&mut frame.operands, types, heap, slot)),
        Instr::Virtual(slot, procedure) => Ok(tell_method(
            &frame.operands,
            shapes,
            types,
            heap,
            slot,
            procedure,
        )),
        _ => Ok(LOST),
    }
}

/// An instruction that says where silent work goes on.
#[inline(always)]
fn do_jumps(instr: Instr, code: &[Instr], at: usize, stack: &mut Vec<Cell>) -> Act
    requires place { slice_get code.now at ≡ Some instr }
    requires within { at < length code.now }
    requires group { group_of instr ≡ Group.Jumps }
    ensures kept { WhereStays result (stack.new ≡ stack.old) }
    ensures room { vec_capacity stack.new ≡ vec_capacity stack.old }
    ensures act { (shapes : List ShapeOf) (types : List TypeOf) (own : ℕ) (here : Here) →
        act_in result (operands_in stack.new) ≡
        act shapes types own here instr code.now at (operands_in stack.old) }
    ensures begins { IsBeginOf code.now result }
{
    match instr {
        Instr::Fail(number) => Act::Fails(number, 0),
        Instr::Assert(number) => assert_true(number, stack),
        Instr::Halt(number) => Act::Fails(8, number),
        Instr::Jump(to) => jump(code, to, at),
        Instr::JumpFalse(to) => jump_on_false(code, to, at, stack),
        Instr::Begin(line, col) => Act::Begins(at, Pos { line, col }),
        _ => LOST,
    }
}

/// An instruction that asks for memory, for a procedure, or for the kernel's work.
#[inline(always)]
fn ask(instr: Instr, shapes: &[ProcShape], own: u32, stack: &[Cell]) -> Act
    requires { group_of instr ≡ Group.Asked }
    ensures act { (types : List TypeOf) (here : Here) (at : ℕ) (code : List InstrOf) →
        act_in result (reverse stack.now) ≡
        act shapes.now types own here instr code at (reverse stack.now) }
    ensures stays { IsStay result }
{
    match instr {
        Instr::Load(kind) => ask_read(kind, stack),
        Instr::Store(kind) => ask_store(kind, stack),
        Instr::Copy(count) => ask_copy(count, stack),
        Instr::Call(procedure) => ask_call(shapes, procedure, stack),
        Instr::CallValue(procedure) => ask_value(shapes, procedure, stack),
        Instr::NewObject(of_type) => Act::Sees(Question::Makes(of_type, 0)),
        Instr::NewArray(of_type, lengths) => ask_array(of_type, lengths, stack),
        Instr::Start => ask_start(stack),
        Instr::Enter => Act::Sees(Question::Enters),
        Instr::Leave => Act::Sees(Question::Leaves),
        Instr::Await(condition) => Act::Sees(Question::Awaits(condition)),
        Instr::Verdict => decide(stack),
        Instr::Return => match numbered(shapes, own) {
            None => LOST,
            Some(shape) => ask_end(shape.result, stack),
        },
        _ => LOST,
    }
}

/// An instruction that works on a text, or asks for output.
#[inline(always)]
fn ask_written(instr: Instr, stack: &[Cell]) -> Act
    requires { group_of instr ≡ Group.Written }
    ensures act { (shapes : List ShapeOf) (types : List TypeOf) (own : ℕ) (here : Here) (at : ℕ)
        (code : List InstrOf) →
        act_in result (reverse stack.now) ≡
        act shapes types own here instr code at (reverse stack.now) }
    ensures stays { IsStay result }
{
    match instr {
        Instr::PutText(strict) => ask_put_text(strict, stack),
        Instr::CmpText(relation) => ask_compare(relation, stack),
        Instr::OutChar => ask_char(stack),
        Instr::OutInt => ask_int(stack),
        Instr::OutString => ask_string(stack),
        Instr::OutLn => Act::Sees(Question::PutsLn),
        Instr::OutOpen => Act::Sees(Question::PutsNothing),
        _ => LOST,
    }
}

/// An instruction that gives an operand more or keeps one, on a frame above so many others that keeps values under so many numbers.
#[inline(always)]
fn do_on_frame(instr: Instr, keeps: u32, here: u32, frame: &mut Frame) -> Result<Act, NoMemory>
    requires { group_of instr ≡ Group.OnFrame }
    ensures ok { IfOk result (λ did.
        (shapes : List ShapeOf) (types : List TypeOf) (own at : ℕ) (code : List InstrOf) →
        keeps ≡ keeps_in (numbered_of shapes own) →
        IsStep (act shapes types own (here_at here (frame_in frame.old)) instr code at
        (frame_in frame.old).stack) did (frame_in frame.old) (frame_in frame.new)) }
    ensures stays { IfOk result (λ did. WhereStays did (frame_in frame.new ≡ frame_in frame.old)) }
    ensures begins { (code : List InstrOf) → IfOk result (λ did. IsBeginOf code did) }
    ensures err { OnErr result (frame_in frame.new ≡ frame_in frame.old) }
    ensures full { OnErr result (IsRefused keeps instr frame.old) }
    ensures room { vec_capacity frame.old.operands ≤ vec_capacity frame.new.operands }
    ensures keeps { length (kept_cells frame.old) ≤ length (kept_cells frame.new) }
{
    match instr {
        Instr::Num(n) => give_value(frame, Cell::Num(n)),
        Instr::Nil => give_value(frame, Cell::Ref(0)),
        Instr::NilCall => give_value(frame, Cell::Call(0, 0)),
        Instr::Proc(procedure) => give_value(frame, Cell::Call(procedure, 0)),
        Instr::SelfRef => self_value(frame),
        Instr::Frame(cell) => give_value(frame, Cell::Place(Root::Frame(here), cell, 0)),
        Instr::Module(module, cell) => give_value(
            frame,
            Cell::Place(Root::Module(module), cell, 0),
        ),
        Instr::Dup => give_again(frame),
        Instr::Keep(number, kind) if number < keeps => keep_value(frame, number, kind),
        Instr::Kept(number, kind) if number < keeps => kept_value(frame, number, kind),
        Instr::Param(number) => param_value(frame, number),
        Instr::Length(number) => length_value(frame, number),
        _ => Ok(LOST),
    }
}

/// Does the instruction at this place of the code, on a frame above so many others that keeps values under so many numbers, where
/// these objects were made. Operands of a question stay where they are, and so they do where it traps.
#[inline(always)]
pub fn do_one(
    instr: Instr,
    image: &Image,
    heap: &Heap,
    keeps: u32,
    here: u32,
    code: &[Instr],
    at: usize,
    frame: &mut Frame,
) -> Result<Act, NoMemory>
    requires place { slice_get code.now at ≡ Some instr }
    requires within { at < length code.now }
    requires keeps { keeps ≡ keeps_in (numbered_of image.now.shapes.items frame.old.procedure) }
    ensures ok { IfOk result (λ did.
        IsStepOf image.now.shapes.items image.now.types.items (known heap.now)
        (act image.now.shapes.items image.now.types.items frame.old.procedure
        (here_at here (frame_in frame.old)) instr code.now at (frame_in frame.old).stack) did
        (frame_in frame.old) (frame_in frame.new)) }
    ensures stays { IfOk result (λ did. WhereStays did (frame_in frame.new ≡ frame_in frame.old)) }
    ensures begins { IfOk result (λ did. IsBeginOf code.now did) }
    ensures err { OnErr result (frame_in frame.new ≡ frame_in frame.old) }
    ensures full { OnErr result (IsRefused keeps instr frame.old) }
    ensures room { vec_capacity frame.old.operands ≤ vec_capacity frame.new.operands }
    ensures keeps { length (kept_cells frame.old) ≤ length (kept_cells frame.new) }
{
    match instr {
        Instr::Num(_)
        | Instr::Frame(_)
        | Instr::Module(_, _)
        | Instr::Nil
        | Instr::NilCall
        | Instr::Proc(_)
        | Instr::SelfRef
        | Instr::Dup
        | Instr::Keep(_, _)
        | Instr::Kept(_, _)
        | Instr::Param(_)
        | Instr::Length(_) => do_on_frame(instr, keeps, here, frame),
        Instr::Unary(_)
        | Instr::Binary(_)
        | Instr::Drop
        | Instr::Swap
        | Instr::EqRef
        | Instr::EqCall
        | Instr::Offset(_, _)
        | Instr::Index(_, _)
        | Instr::IndexOpen(_, _)
        | Instr::PickLen(_, _) => Ok(do_operands(instr, &mut frame.operands)),
        Instr::IsPlace(_) | Instr::GuardPlace(_) => Ok(do_tests(
            instr,
            &image.types,
            &mut frame.operands,
        )),
        Instr::Deref(_)
        | Instr::OpenRef(_)
        | Instr::Is(_)
        | Instr::Guard(_)
        | Instr::Bind(_)
        | Instr::Virtual(_, _) => do_told(instr, &image.shapes, &image.types, heap, frame),
        Instr::Jump(_)
        | Instr::JumpFalse(_)
        | Instr::Begin(_, _)
        | Instr::Fail(_)
        | Instr::Assert(_)
        | Instr::Halt(_) => Ok(do_jumps(instr, code, at, &mut frame.operands)),
        Instr::Load(_)
        | Instr::Store(_)
        | Instr::Copy(_)
        | Instr::Call(_)
        | Instr::CallValue(_)
        | Instr::NewObject(_)
        | Instr::NewArray(_, _)
        | Instr::Start
        | Instr::Enter
        | Instr::Leave
        | Instr::Await(_)
        | Instr::Verdict
        | Instr::Return => Ok(ask(instr, &image.shapes, frame.procedure, &frame.operands)),
        _ => Ok(ask_written(instr, &frame.operands)),
    }
}
