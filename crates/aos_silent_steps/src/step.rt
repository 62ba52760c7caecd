// Silent steps that give a frame an operand more, and those that work on what it keeps.
ghost use Rattle.std.specs.Prelude.{◌≡◌, ◌≤◌, ℕ, List, length, slice_get, IfOk, OnErr, vec_capacity};
ghost use Rattle.aos_base.specs.Question.{Places, Lengths};
ghost use Rattle.aos_code.specs.Silent.{Question as QuestionOf, Puts, Takes, Sees, gives, gives_self, duplicates, on_kind, noted, noted_as};
ghost use Rattle.aos_code.specs.declared.instr.Instr.{Instr as InstrOf};
ghost use Rattle.aos_store.specs.Store.{frame_in, kept_cells};
ghost use Rattle.aos_silent_steps.specs.Acts.{IsBeginOf, WhereStays};
ghost use Rattle.aos_silent_steps.specs.Steps.{IsStep, given_more};
ghost use Rattle.aos_silent_steps.specs.Room.{IsFull};

use crate::act::{Act, LOST};
use crate::operands::{is_of, of_kind, operand, take};
use aos_base::{NoMemory, Root};
use aos_code::{Cell, Kind};
use aos_store::Frame;

/// A frame gets an operand more.
#[inline(always)]
pub fn give(frame: &mut Frame, cell: Cell) -> Result<(), NoMemory>
    ensures ok { IfOk result (λ _. frame_in frame.new ≡ given_more cell (frame_in frame.old)) }
    ensures err { OnErr result (frame_in frame.new ≡ frame_in frame.old) }
    ensures full { OnErr result (IsFull frame.old) }
    ensures room { vec_capacity frame.old.operands ≤ vec_capacity frame.new.operands }
    ensures keeps { length (kept_cells frame.old) ≤ length (kept_cells frame.new) }
{
    frame.operands.reserve(1)?;
    frame.operands.push_reserved(cell);
    Ok(())
}

/// An operand more.
#[inline(always)]
pub fn give_value(frame: &mut Frame, value: Cell) -> Result<Act, NoMemory>
    ensures ok { IfOk result (λ did.
        IsStep (gives value (frame_in frame.old).stack) did (frame_in frame.old)
        (frame_in frame.new)) }
    ensures stays { IfOk result (λ did. WhereStays did (frame_in frame.new ≡ frame_in frame.old)) }
    ensures begins { (code : List InstrOf) → IfOk result (λ did. IsBeginOf code did) }
    ensures err { OnErr result (frame_in frame.new ≡ frame_in frame.old) }
    ensures full { OnErr result (IsFull frame.old) }
    ensures room { vec_capacity frame.old.operands ≤ vec_capacity frame.new.operands }
    ensures keeps { length (kept_cells frame.old) ≤ length (kept_cells frame.new) }
{
    give(frame, value)?;
    Ok(Act::Goes(0))
}

/// The topmost operand once more.
#[inline(always)]
pub fn give_again(frame: &mut Frame) -> Result<Act, NoMemory>
    ensures ok { IfOk result (λ did.
        IsStep (duplicates (frame_in frame.old).stack) did (frame_in frame.old)
        (frame_in frame.new)) }
    ensures stays { IfOk result (λ did. WhereStays did (frame_in frame.new ≡ frame_in frame.old)) }
    ensures begins { (code : List InstrOf) → IfOk result (λ did. IsBeginOf code did) }
    ensures err { OnErr result (frame_in frame.new ≡ frame_in frame.old) }
    ensures full { OnErr result (IsFull frame.old) }
    ensures room { vec_capacity frame.old.operands ≤ vec_capacity frame.new.operands }
    ensures keeps { length (kept_cells frame.old) ≤ length (kept_cells frame.new) }
{
    match operand(&frame.operands, 0) {
        None => Ok(LOST),
        Some(value) => give_value(frame, value),
    }
}

/// The object on which the frame's procedure is called.
#[inline(always)]
pub fn self_value(frame: &mut Frame) -> Result<Act, NoMemory>
    ensures ok { IfOk result (λ did.
        IsStep (gives_self frame.old.object (frame_in frame.old).stack) did (frame_in frame.old)
        (frame_in frame.new)) }
    ensures stays { IfOk result (λ did. WhereStays did (frame_in frame.new ≡ frame_in frame.old)) }
    ensures begins { (code : List InstrOf) → IfOk result (λ did. IsBeginOf code did) }
    ensures err { OnErr result (frame_in frame.new ≡ frame_in frame.old) }
    ensures full { OnErr result (IsFull frame.old) }
    ensures room { vec_capacity frame.old.operands ≤ vec_capacity frame.new.operands }
    ensures keeps { length (kept_cells frame.old) ≤ length (kept_cells frame.new) }
{
    if frame.object == 0 {
        return Ok(LOST);
    }
    let object = frame.object;
    give_value(frame, Cell::Ref(object))
}

/// A value of this kind is kept under a number.
#[inline(always)]
pub fn keep_value(frame: &mut Frame, number: u32, kind: Kind) -> Result<Act, NoMemory>
    ensures ok { IfOk result (λ did.
        IsStep (on_kind kind (λ v s. Puts number v s) (frame_in frame.old).stack) did
        (frame_in frame.old) (frame_in frame.new)) }
    ensures stays { IfOk result (λ did. WhereStays did (frame_in frame.new ≡ frame_in frame.old)) }
    ensures begins { (code : List InstrOf) → IfOk result (λ did. IsBeginOf code did) }
    ensures err { OnErr result (frame_in frame.new ≡ frame_in frame.old) }
    ensures full { OnErr result (length (kept_cells frame.old) ≤ number) }
    ensures room { vec_capacity frame.old.operands ≤ vec_capacity frame.new.operands }
    ensures keeps { length (kept_cells frame.old) ≤ length (kept_cells frame.new) }
{
    match of_kind(&frame.operands, 0, kind) {
        None => Ok(LOST),
        Some(value) => {
            frame.keep(number, value)?;
            take(&mut frame.operands, 1);
            Ok(Act::Goes(0))
        }
    }
}

/// A value, where it is of this kind.
#[inline(always)]
fn give_kind(frame: &mut Frame, value: Cell, kind: Kind) -> Result<Act, NoMemory>
    ensures ok { IfOk result (λ did. (number : ℕ) → value ≡ (frame_in frame.old).keeps number →
        IsStep (Takes number kind (frame_in frame.old).stack) did (frame_in frame.old)
        (frame_in frame.new)) }
    ensures stays { IfOk result (λ did. WhereStays did (frame_in frame.new ≡ frame_in frame.old)) }
    ensures begins { (code : List InstrOf) → IfOk result (λ did. IsBeginOf code did) }
    ensures err { OnErr result (frame_in frame.new ≡ frame_in frame.old) }
    ensures full { OnErr result (IsFull frame.old) }
    ensures room { vec_capacity frame.old.operands ≤ vec_capacity frame.new.operands }
    ensures keeps { length (kept_cells frame.old) ≤ length (kept_cells frame.new) }
{
    if !is_of(kind, value) {
        return Ok(LOST);
    }
    give_value(frame, value)
}

/// What is kept under a number, which is of this kind.
#[inline(always)]
pub fn kept_value(frame: &mut Frame, number: u32, kind: Kind) -> Result<Act, NoMemory>
    ensures ok { IfOk result (λ did.
        IsStep (Takes number kind (frame_in frame.old).stack) did (frame_in frame.old)
        (frame_in frame.new)) }
    ensures stays { IfOk result (λ did. WhereStays did (frame_in frame.new ≡ frame_in frame.old)) }
    ensures begins { (code : List InstrOf) → IfOk result (λ did. IsBeginOf code did) }
    ensures err { OnErr result (frame_in frame.new ≡ frame_in frame.old) }
    ensures full { OnErr result (IsFull frame.old) }
    ensures room { vec_capacity frame.old.operands ≤ vec_capacity frame.new.operands }
    ensures keeps { length (kept_cells frame.old) ≤ length (kept_cells frame.new) }
{
    let value = frame.kept(number);
    give_kind(frame, value, kind)
}

/// What an own cell holds, which is of this kind.
#[inline(always)]
fn own_value(frame: &mut Frame, number: u32, kind: Kind) -> Result<Act, NoMemory>
    ensures ok { IfOk result (λ did. (q : QuestionOf) →
        noted (frame_in frame.old).cells q ≡
        noted_as kind (slice_get (frame_in frame.old).cells number) →
        IsStep (Sees q (frame_in frame.old).stack) did (frame_in frame.old) (frame_in frame.new)) }
    ensures stays { IfOk result (λ did. WhereStays did (frame_in frame.new ≡ frame_in frame.old)) }
    ensures begins { (code : List InstrOf) → IfOk result (λ did. IsBeginOf code did) }
    ensures err { OnErr result (frame_in frame.new ≡ frame_in frame.old) }
    ensures full { OnErr result (IsFull frame.old) }
    ensures room { vec_capacity frame.old.operands ≤ vec_capacity frame.new.operands }
    ensures keeps { length (kept_cells frame.old) ≤ length (kept_cells frame.new) }
{
    match frame.load(number as usize) {
        None => Ok(LOST),
        Some(value) => {
            if !is_of(kind, value) {
                return Ok(LOST);
            }
            give_value(frame, value)
        }
    }
}

/// The place that a parameter's cell holds.
#[inline(always)]
pub fn param_value(frame: &mut Frame, number: u32) -> Result<Act, NoMemory>
    ensures ok { IfOk result (λ did.
        (here : ℕ) → IsStep (Sees (Places (record { root = Root.Frame here; cell = number }))
        (frame_in frame.old).stack) did (frame_in frame.old) (frame_in frame.new)) }
    ensures stays { IfOk result (λ did. WhereStays did (frame_in frame.new ≡ frame_in frame.old)) }
    ensures begins { (code : List InstrOf) → IfOk result (λ did. IsBeginOf code did) }
    ensures err { OnErr result (frame_in frame.new ≡ frame_in frame.old) }
    ensures full { OnErr result (IsFull frame.old) }
    ensures room { vec_capacity frame.old.operands ≤ vec_capacity frame.new.operands }
    ensures keeps { length (kept_cells frame.old) ≤ length (kept_cells frame.new) }
{
    own_value(frame, number, Kind::A)
}

/// The length that a parameter's cell holds.
#[inline(always)]
pub fn length_value(frame: &mut Frame, number: u32) -> Result<Act, NoMemory>
    ensures ok { IfOk result (λ did.
        (here : ℕ) → IsStep (Sees (Lengths (record { root = Root.Frame here; cell = number }))
        (frame_in frame.old).stack) did (frame_in frame.old) (frame_in frame.new)) }
    ensures stays { IfOk result (λ did. WhereStays did (frame_in frame.new ≡ frame_in frame.old)) }
    ensures begins { (code : List InstrOf) → IfOk result (λ did. IsBeginOf code did) }
    ensures err { OnErr result (frame_in frame.new ≡ frame_in frame.old) }
    ensures full { OnErr result (IsFull frame.old) }
    ensures room { vec_capacity frame.old.operands ≤ vec_capacity frame.new.operands }
    ensures keeps { length (kept_cells frame.old) ≤ length (kept_cells frame.new) }
{
    own_value(frame, number, Kind::N)
}
