// Answers to questions.
ghost use Rattle.std.specs.Prelude.{◌≡◌, ℕ, ◌+◌, ◌<◌, ◌^◌, ◌≤◌, drop, [], ◌∷◌, ◌++◌, List, Option, IfOk, OnErr, vec_len, vec_capacity};
ghost use Rattle.aos_base.specs.Number.{right_justified};
ghost use Rattle.aos_base.specs.Operators.{natural};
ghost use Rattle.aos_base.specs.Question.{Starts, Ends, Reads, Stores, Copies, PutsInt, PutsChar, PutsNothing, PutsLn};
ghost use Rattle.aos_code.specs.declared.instr.Cell.TheVariants.{Num, Ref};
ghost use Rattle.aos_code.specs.Memory.{Memory};
ghost use Rattle.aos_code.specs.Numbered.{numbered};
ghost use Rattle.aos_code.specs.Machine.{Frame as FrameOf, behind, lock_in, with_result};
ghost use Rattle.aos_store.specs.Store.{frame_in, list_in, frames_in, memory_in, SameCounts};
ghost use Rattle.aos_store.specs.Room.{HasMoreRoom, KeepsRoom};
ghost use Rattle.aos_silent_steps.specs.Room.{AreRoomy};
ghost use Rattle.aos_silent_steps.specs.Acts.{addr_in};
ghost use Rattle.aos_store.specs.declared.frames.Frames.{Frames as FramesKept};
ghost use Rattle.aos_cpu.specs.Turns.{HasAnswered, Stands, Same, WhereLeft};
ghost use Rattle.aos_cpu.specs.Answers.{IsAnswered, IsBehind, StandsAt};

use crate::calls::call;
use crate::makes::make;
use crate::texts::{compare_texts, put_string, put_text};
use aos_base::{Did, LockName, NoMemory};
use aos_code::{Cell, Image, Kind};
use aos_silent_steps::{Address, Question, give, is_of, replace, take};
use aos_store::{Frame, Frames, Store, copy_at, load_at, store_at};
use itoa::Buffer;
use std::alloc::Global;

/// A frame goes on behind the instruction at this place, with so many operands fewer.
fn go_on(frame: &mut Frame, at: usize, taken: usize)
    requires { at + 1 < 2 ^ 64 }
    ensures behind { frame_in frame.new ≡
        behind [] at (frame_in frame.old).keeps (drop taken (frame_in frame.old).stack)
        (frame_in frame.old) }
    ensures room { HasMoreRoom frame.old frame.new }
{
    take(&mut frame.operands, taken);
    frame.next = at + 1;
}

/// The topmost frame goes on behind the instruction at this place, with so many operands fewer.
pub fn go_behind(frames: &mut Frames, at: usize, taken: usize)
    requires { at + 1 < 2 ^ 64 }
    ensures behind { IsBehind at taken [] frames.old frames.new }
    ensures counts { SameCounts frames.old frames.new }
    ensures room { KeepsRoom frames.old frames.new }
    ensures len { vec_len frames.new.list ≡ vec_len frames.old.list }
    ensures capacity { vec_capacity frames.new.list ≡ vec_capacity frames.old.list }
{
    if let Some(frame) = frames.list.last_mut() {
        go_on(frame, at, taken);
    }
}

/// The topmost frame goes on behind the instruction at this place, with one operand in place of so many.
pub fn put_behind(frames: &mut Frames, at: usize, taken: usize, cell: Cell) -> Result<(), NoMemory>
    requires { at + 1 < 2 ^ 64 }
    ensures ok { IfOk result (λ _. IsBehind at taken (cell ∷ []) frames.old frames.new) }
    ensures err { OnErr result (frames_in frames.new ≡ frames_in frames.old) }
    ensures counts { SameCounts frames.old frames.new }
    ensures room { KeepsRoom frames.old frames.new }
{
    match frames.list.last_mut() {
        None => Ok(()),
        Some(frame) => put_on(frame, at, taken, cell),
    }
}

/// A frame goes on behind the instruction at this place, with one operand in place of so many.
fn put_on(frame: &mut Frame, at: usize, taken: usize, cell: Cell) -> Result<(), NoMemory>
    requires { at + 1 < 2 ^ 64 }
    ensures ok { IfOk result (λ _.
        frame_in frame.new ≡ behind [] at (frame_in frame.old).keeps (cell ∷
        drop taken (frame_in frame.old).stack) (frame_in frame.old)) }
    ensures err { OnErr result (frame_in frame.new ≡ frame_in frame.old) }
    ensures room { HasMoreRoom frame.old frame.new }
{
    frame.operands.reserve(1)?;
    replace(&mut frame.operands, taken, cell);
    frame.next = at + 1;
    Ok(())
}

/// The topmost frame, where there is one, gets an operand more.
fn give_top(frames: &mut Frames, cell: Cell) -> Result<(), NoMemory>
    ensures ok { IfOk result (λ _.
        list_in frames.new.list.items ≡
        with_result [] (Option.Some cell) (list_in frames.old.list.items)) }
    ensures err { OnErr result (list_in frames.new.list.items ≡ list_in frames.old.list.items) }
    ensures following { frames.new.following ≡ frames.old.following }
    ensures len { vec_len frames.new.list ≡ vec_len frames.old.list }
    ensures capacity { vec_capacity frames.new.list ≡ vec_capacity frames.old.list }
    ensures counts { SameCounts frames.old frames.new }
    ensures room { KeepsRoom frames.old frames.new }
{
    let Some(mut frame) = frames.list.pop() else {
        return Ok(());
    };
    match give(&mut frame, cell) {
        Ok(()) => {
            frames.list.push_reserved(frame);
            Ok(())
        }
        Err(no_memory) => {
            frames.list.push_reserved(frame);
            Err(no_memory)
        }
    }
}

/// The topmost frame ends, and hands its result to the one below, where there is one.
pub fn end_frame(frames: &mut Frames, value: Option<Cell>) -> Result<Did, NoMemory>
    ensures ok { (at taken : ℕ) (mem : Memory) (out : List ℕ) →
        IfOk result (λ did.
        IsAnswered (Ends value) at taken frames.old frames.new mem mem did out out) }
    ensures left { (mem : Memory) (out : List ℕ) →
        IfOk result (λ did. WhereLeft did (Same frames.old frames.new mem mem out out)) }
    ensures err { (mem : Memory) (out : List ℕ) →
        OnErr result (Same frames.old frames.new mem mem out out) }
    ensures counts { SameCounts frames.old frames.new }
    ensures room { KeepsRoom frames.old frames.new }
{
    let Some(frame) = frames.list.pop() else {
        return Ok(Did::Went);
    };
    match value {
        None => Ok(Did::Went),
        Some(cell) => match give_top(frames, cell) {
            Ok(()) => Ok(Did::Went),
            Err(no_memory) => {
                frames.list.push_reserved(frame);
                Err(no_memory)
            }
        },
    }
}

/// What a cell holds, which is of this kind.
pub fn read(
    frames: &mut Frames,
    store: &Store,
    kind: Kind,
    address: Address,
    at: usize,
) -> Result<Did, NoMemory>
    requires { at + 1 < 2 ^ 64 }
    ensures ok { (out : List ℕ) →
        IfOk result (λ did.
        IsAnswered (Reads kind (addr_in address)) at 1 frames.old frames.new (memory_in store.now)
        (memory_in store.now) did out out) }
    ensures left { (out : List ℕ) →
        IfOk result (λ did.
        WhereLeft did (Same frames.old frames.new (memory_in store.now)
        (memory_in store.now) out out)) }
    ensures err { (out : List ℕ) →
        OnErr result (Same frames.old frames.new (memory_in store.now)
        (memory_in store.now) out out) }
    ensures counts { SameCounts frames.old frames.new }
    ensures room { KeepsRoom frames.old frames.new }
{
    match load_at(frames, store, address.root, address.cell as usize) {
        None => Ok(Did::Trapped(16, 0)),
        Some(value) => {
            if !is_of(kind, value) {
                return Ok(Did::Trapped(16, 0));
            }
            put_behind(frames, at, 1, value)?;
            Ok(Did::Went)
        }
    }
}

/// Nothing is written.
pub fn put_nothing(frames: &mut Frames, at: usize) -> Did
    requires { at + 1 < 2 ^ 64 }
    ensures answered { (mem : Memory) (out : List ℕ) →
        IsAnswered PutsNothing at 0 frames.old frames.new mem mem result out out }
    ensures left { (mem : Memory) (out : List ℕ) →
        WhereLeft result (Same frames.old frames.new mem mem out out) }
    ensures counts { SameCounts frames.old frames.new }
    ensures room { KeepsRoom frames.old frames.new }
{
    go_behind(frames, at, 0);
    Did::Went
}

/// The end of a line is written.
pub fn put_ln(frames: &mut Frames, output: &mut Vec<u8>, at: usize) -> Result<Did, NoMemory>
    requires { at + 1 < 2 ^ 64 }
    ensures ok { (mem : Memory) →
        IfOk result (λ did.
        IsAnswered PutsLn at 0 frames.old frames.new mem mem did output.old.items
        output.new.items) }
    ensures left { (mem : Memory) →
        IfOk result (λ did.
        WhereLeft did (Same frames.old frames.new mem mem output.old.items output.new.items)) }
    ensures err { (mem : Memory) →
        OnErr result (Same frames.old frames.new mem mem output.old.items output.new.items) }
    ensures counts { SameCounts frames.old frames.new }
    ensures room { KeepsRoom frames.old frames.new }
{
    output.reserve(1)?;
    output.push_reserved(b'\n');
    go_behind(frames, at, 0);
    Ok(Did::Went)
}

/// A value is stored.
pub fn write(
    frames: &mut Frames,
    store: &mut Store,
    address: Address,
    value: Cell,
    at: usize,
) -> Did
    requires { at + 1 < 2 ^ 64 }
    ensures answered { (out : List ℕ) →
        IsAnswered (Stores (addr_in address) value) at 2 frames.old frames.new (memory_in store.old)
        (memory_in store.new) result out out }
    ensures left { (out : List ℕ) →
        WhereLeft result (Same frames.old frames.new (memory_in store.old)
        (memory_in store.new) out out) }
    ensures counts { SameCounts frames.old frames.new }
    ensures room { KeepsRoom frames.old frames.new }
{
    if !store_at(frames, store, address.root, address.cell as usize, value) {
        return Did::Trapped(16, 0);
    }
    go_behind(frames, at, 2);
    Did::Went
}

/// So many cells are copied from one place to another.
pub fn copy(
    frames: &mut Frames,
    store: &mut Store,
    count: u32,
    from: Address,
    to: Address,
    at: usize,
) -> Did
    requires { at + 1 < 2 ^ 64 }
    ensures answered { (out : List ℕ) →
        IsAnswered (Copies count (addr_in from) (addr_in to)) at 2 frames.old frames.new
        (memory_in store.old) (memory_in store.new) result out out }
    ensures left { (out : List ℕ) →
        WhereLeft result (Same frames.old frames.new (memory_in store.old)
        (memory_in store.new) out out) }
    ensures counts { SameCounts frames.old frames.new }
    ensures room { KeepsRoom frames.old frames.new }
{
    if !copy_at(frames, store, from.root, from.cell, to.root, to.cell, count) {
        return Did::Trapped(16, 0);
    }
    go_behind(frames, at, 2);
    Did::Went
}

/// The byte of a character, by its code.
fn character(code: i64) -> Option<u8>
    ensures { result ≡ natural 256 code }
{
    u8::try_from(code).ok()
}

/// A character is written, by its code.
pub fn put_char(
    frames: &mut Frames,
    output: &mut Vec<u8>,
    code: i64,
    at: usize,
) -> Result<Did, NoMemory>
    requires { at + 1 < 2 ^ 64 }
    ensures ok { (mem : Memory) →
        IfOk result (λ did.
        IsAnswered (PutsChar (Num code)) at 1 frames.old frames.new mem mem did output.old.items
        output.new.items) }
    ensures left { (mem : Memory) →
        IfOk result (λ did.
        WhereLeft did (Same frames.old frames.new mem mem output.old.items output.new.items)) }
    ensures err { (mem : Memory) →
        OnErr result (Same frames.old frames.new mem mem output.old.items output.new.items) }
    ensures counts { SameCounts frames.old frames.new }
    ensures room { KeepsRoom frames.old frames.new }
{
    match character(code) {
        None => Ok(Did::Trapped(16, 0)),
        Some(byte) => {
            output.reserve(1)?;
            output.push_reserved(byte);
            go_behind(frames, at, 1);
            Ok(Did::Went)
        }
    }
}

/// The most bytes of a number that is written.
const MAX_BYTES: usize = 300;

/// A number in decimal, right-justified.
fn write_right(output: &mut Vec<u8>, number: i64, places: usize)
    requires places { places ≤ 255 }
    requires room { vec_len output.old + MAX_BYTES ≤ vec_capacity output.old }
    ensures { output.new.items ≡ output.old.items ++ right_justified number places }
{
    let mut buffer = Buffer::new();
    let digits = buffer.format(number).as_bytes();
    for _ in digits.len()..places {
        output.push_reserved(b' ');
    }
    for digit in digits {
        output.push_reserved(*digit);
    }
}

/// A number is written, in so many places.
pub fn put_int(
    frames: &mut Frames,
    output: &mut Vec<u8>,
    value: i64,
    places: i64,
    at: usize,
) -> Result<Did, NoMemory>
    requires { at + 1 < 2 ^ 64 }
    ensures ok { (mem : Memory) →
        IfOk result (λ did.
        IsAnswered (PutsInt (Num value) (Num places)) at 2 frames.old frames.new mem mem did
        output.old.items output.new.items) }
    ensures left { (mem : Memory) →
        IfOk result (λ did.
        WhereLeft did (Same frames.old frames.new mem mem output.old.items output.new.items)) }
    ensures err { (mem : Memory) →
        OnErr result (Same frames.old frames.new mem mem output.old.items output.new.items) }
    ensures counts { SameCounts frames.old frames.new }
    ensures room { KeepsRoom frames.old frames.new }
{
    if places < 0 || places > 255 {
        return Ok(Did::Trapped(14, 0));
    }
    output.reserve(MAX_BYTES)?;
    write_right(output, value, places as usize);
    go_behind(frames, at, 2);
    Ok(Did::Went)
}

/// The activity of an object is left to the kernel, where the frame stands at the instruction that starts it.
pub fn start(object: u32) -> Did
    ensures { (at : ℕ) (old : FramesKept) (mem : Memory) (out : List ℕ) →
        StandsAt at (Ref object) old →
        IsAnswered (Starts (Ref object)) at 1 old old mem mem result out out }
{
    if object == 0 {
        Did::Trapped(16, 0)
    } else {
        Did::Start(object)
    }
}

/// The lock of the topmost frame's regions.
fn top_lock(image: &Image, frames: &Frames) -> LockName
    ensures { (f : FrameOf) (fs : List FrameOf) → list_in frames.now.list.items ≡ f ∷ fs →
        result ≡ lock_in (numbered image.now.shapes.items f.procedure) f }
{
    match frames.list.last() {
        None => LockName::Module(0),
        Some(frame) => frame.lock(&image.shapes),
    }
}

/// The question at which the topmost frame stands is answered. What it takes is taken first: where memory runs out, and where work is
/// left to the kernel, nothing has changed.
pub fn answer(
    alloc: Global,
    image: &Image,
    question: Question,
    at: usize,
    frames: &mut Frames,
    store: &mut Store,
    output: &mut Vec<u8>,
) -> Result<Did, NoMemory>
    requires place { at + 1 < 2 ^ 64 }
    requires stands { Stands question at frames.old }
    ensures ok { IfOk result (λ did.
        HasAnswered image.now question at frames.old frames.new (memory_in store.old)
        (memory_in store.new) did output.old.items output.new.items) }
    ensures left { IfOk result (λ did.
        WhereLeft did (Same frames.old frames.new (memory_in store.old)
        (memory_in store.new) output.old.items output.new.items)) }
    ensures err { OnErr result (Same frames.old frames.new (memory_in store.old)
        (memory_in store.new) output.old.items output.new.items) }
    ensures counts { SameCounts frames.old frames.new }
    ensures room { AreRoomy image.now frames.old → AreRoomy image.now frames.new }
{
    match question {
        Question::Reads(kind, address) => read(frames, store, kind, address, at),
        Question::Stores(address, value) => Ok(write(frames, store, address, value, at)),
        Question::Copies(count, from, to) => Ok(copy(frames, store, count, from, to, at)),
        Question::PutsText(strict, from, len, to, room) => {
            put_text(alloc, frames, store, strict, from, len, to, room, at)
        }
        Question::ComparesTexts(relation, a, n, b, m) => {
            compare_texts(frames, store, relation, a, n, b, m, at)
        }
        Question::Calls(procedure, way, count) => {
            call(alloc, image, procedure, way, count, at, frames, store)
        }
        Question::Ends(value) => end_frame(frames, value),
        Question::Makes(of_type, lengths) => {
            make(alloc, image, of_type, lengths, at, frames, store)
        }
        Question::Starts(object) => Ok(start(object)),
        Question::Enters => Ok(Did::Enter(top_lock(image, frames))),
        Question::Leaves => Ok(Did::Leave(top_lock(image, frames))),
        Question::Awaits(condition) => Ok(Did::Await(top_lock(image, frames), condition)),
        Question::PutsInt(value, places) => put_int(frames, output, value, places, at),
        Question::PutsChar(code) => put_char(frames, output, code, at),
        Question::PutsString(address, len) => put_string(frames, store, output, address, len, at),
        Question::PutsNothing => Ok(put_nothing(frames, at)),
        Question::PutsLn => put_ln(frames, output, at),
    }
}
