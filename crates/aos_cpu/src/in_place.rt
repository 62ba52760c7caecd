// Turns that are made in place, on the topmost frame: no question is asked, and no frame is found by its number.
ghost use Rattle.std.specs.Prelude.{◌≡◌, ◌<◌, ◌≤◌, ◌+◌, ◌^◌, ℕ, pos, List, ◌∷◌, Some, IfSome, length, slice_get, get_or, if◌then◌else◌};
ghost use Rattle.aos_base.specs.Rooted.{load};
ghost use Rattle.aos_base.specs.declared.operator.Binary.TheVariants.{Cmp};
ghost use Rattle.aos_code.specs.declared.instr.Cell.TheVariants.{Place};
ghost use Rattle.aos_code.specs.declared.instr.Instr.TheVariants.{Num, Load, Store as StoreInstr, Binary as BinaryInstr, SelfRef, Deref, Kept, Index, Offset, JumpFalse};
ghost use Rattle.aos_code.specs.Numbered.{numbered as numbered_of};
ghost use Rattle.aos_code.specs.Memory.{Memory};
ghost use Rattle.aos_code.specs.Silent.{act, gives, keeps_in, Takes};
ghost use Rattle.aos_code.specs.Machine.{Frame as FrameOf, rooted, made_in, code_of as code_at};
ghost use Rattle.aos_store.specs.Store.{frame_in, frames_in, memory_in, SameCounts};
ghost use Rattle.aos_store.specs.Room.{HasMoreRoom};
ghost use Rattle.aos_silent_steps.specs.Acts.{IsBeginOf, WhereStays};
ghost use Rattle.aos_silent_steps.specs.Silent.{here_at};
ghost use Rattle.aos_silent_steps.specs.Steps.{IsStepOf};
ghost use Rattle.aos_silent_steps.specs.Room.{StayFit};
ghost use Rattle.aos_cpu.specs.Turns.{counted};
ghost use Rattle.aos_cpu.specs.Private.{no_memory, IsMadePrivately};
ghost use Rattle.aos_cpu.specs.Many.{HasRunOn};
ghost use Rattle.aos_cpu.specs.InPlace.{IsAhead, HasSet, IsDone, HasRunTop, HasTriedTop, HasTriedInPlace};

use aos_base::{Binary, Given, Pos, Relation, Root, apply_binary, related, truth};
use aos_code::{Cell, Image, Instr, Kind};
use aos_silent_steps::act::Act;
use aos_silent_steps::instruction::do_one;
use aos_silent_steps::objects::tell_cell;
use aos_silent_steps::operands::{address, is_of, number, numbers, of_kind};
use aos_silent_steps::step::{give, give_value, kept_value};
use aos_silent_steps::values::{index, jump, jump_on_false, offset};
use aos_silent_steps::{Address, Question, code_of, keeps_of, replace, take};
use aos_store::{Change, Frame, Frames, Store};

/// What an instruction has done to the topmost frame: silent work; a turn, in which no statement has begun, or one has; or nothing,
/// where it asks this, or needs more than this frame and the memory.
#[derive(Clone, Copy)]
pub enum Done {
    Silent,
    Turned,
    Begun,
    Asks(Question),
    Nothing,
}

/// What the topmost frame has come to in place: a turn, in which a statement has begun or not; or else silent work alone, which ends at
/// this place with this question, or which goes on by more than this frame and the memory.
#[derive(Clone, Copy)]
pub enum Tried {
    Turned(bool),
    Asks(Question, usize),
    Nothing,
}

/// The frame goes on after an instruction whose act has been done on it. Where that comes to a Begin, its statement begins.
#[inline(always)]
fn go_after(code: &[Instr], at: usize, frame: &mut Frame, did: Act) -> Done
    requires within { at < length code.now }
    requires begins { IsBeginOf code.now did }
    ensures done { (image : Image) (here : ℕ) (mem : Memory) (f : FrameOf) →
        code.now ≡ code_at image f.procedure → at ≡ f.next →
        IsStepOf image.shapes.items image.types.items (made_in image mem)
        (act image.shapes.items image.types.items f.procedure (here_at here f)
        (get_or code.now at (Num (pos 0))) code.now at f.stack) did f (frame_in frame.old) →
        WhereStays did (frame_in frame.old ≡ f) →
        IsDone image here result mem mem f (frame_in frame.new) }
    ensures ahead { IsAhead result at frame.new.next }
    ensures room { HasMoreRoom frame.old frame.new }
{
    match did {
        Act::Goes(over) => {
            frame.next = (at + 1).saturating_add(over);
            Done::Silent
        }
        Act::Begins(to, pos) => {
            frame.next = to + 1;
            frame.at = Some(pos);
            Done::Begun
        }
        Act::Sees(question) => Done::Asks(question),
        Act::Fails(_, _) => Done::Nothing,
        Act::Decides(_) => Done::Nothing,
    }
}

/// The frame gets an operand more.
#[inline(always)]
fn give_top(code: &[Instr], at: usize, frame: &mut Frame, value: Cell) -> Done
    requires within { at < length code.now }
    ensures done { (image : Image) (here : ℕ) (mem : Memory) →
        code.now ≡ code_at image frame.old.procedure → at ≡ frame.old.next →
        act image.shapes.items image.types.items frame.old.procedure
        (here_at here (frame_in frame.old)) (get_or code.now at (Num (pos 0))) code.now at
        (frame_in frame.old).stack ≡ gives value (frame_in frame.old).stack →
        IsDone image here result mem mem (frame_in frame.old) (frame_in frame.new) }
    ensures ahead { IsAhead result at frame.new.next }
    ensures room { HasMoreRoom frame.old frame.new }
{
    match give_value(frame, value) {
        Ok(did) => go_after(code, at, frame, did),
        Err(_) => Done::Nothing,
    }
}

/// What the cell at a place holds that isn't in a frame below, where so many are.
#[inline(always)]
fn load_near(frame: &Frame, store: &Store, here: u32, at: Address) -> Option<Cell>
    ensures { IfSome result (λ v. (rest : List FrameOf) → length rest ≡ here →
        load at.root at.cell (rooted (frame_in frame.now ∷ rest) (memory_in store.now)) ≡ Some v) }
{
    match at.root {
        Root::Frame(above) => {
            if above == here {
                frame.load(at.cell as usize)
            } else {
                None
            }
        }
        Root::Module(number) => store.load_module(number as usize, at.cell as usize),
        Root::Object(number) => store.load_object(number, at.cell as usize),
    }
}

/// Sets the cell at a place that isn't in a frame below, where there is such a cell, and says whether there is.
#[inline(always)]
fn store_near(frame: &mut Frame, store: &mut Store, here: u32, at: Address, value: Cell) -> bool
    ensures set { HasSet here result at.root at.cell value (memory_in store.old)
        (memory_in store.new) (frame_in frame.old) (frame_in frame.new) }
    ensures room { HasMoreRoom frame.old frame.new }
{
    match at.root {
        Root::Frame(above) => {
            if above == here {
                frame.change(Change::Sets(at.cell as usize, value))
            } else {
                false
            }
        }
        Root::Module(number) => store.change_module(number, Change::Sets(at.cell as usize, value)),
        Root::Object(number) => store.change_object(number, Change::Sets(at.cell as usize, value)),
    }
}

/// What a cell holds is read, where it isn't in a frame below.
#[inline(always)]
fn load_top(at: usize, kind: Kind, here: u32, frame: &mut Frame, store: &Store) -> Done
    requires { at + 1 < 2 ^ 64 }
    ensures done { (image : Image) → at ≡ frame.old.next →
        slice_get (code_at image frame.old.procedure) at ≡ Some (Load kind) →
        IsDone image here result (memory_in store.now) (memory_in store.now) (frame_in frame.old)
        (frame_in frame.new) }
    ensures ahead { IsAhead result at frame.new.next }
    ensures room { HasMoreRoom frame.old frame.new }
{
    let Some(place) = address(&frame.operands, 0) else {
        return Done::Nothing;
    };
    let Some(value) = load_near(frame, store, here, place) else {
        return Done::Nothing;
    };
    if !is_of(kind, value) {
        return Done::Nothing;
    }
    replace(&mut frame.operands, 1, value);
    frame.next = at + 1;
    Done::Turned
}

/// A value is stored in a cell, where it isn't in a frame below.
#[inline(always)]
fn store_top(at: usize, kind: Kind, here: u32, frame: &mut Frame, store: &mut Store) -> Done
    requires { at + 1 < 2 ^ 64 }
    ensures done { (image : Image) → at ≡ frame.old.next →
        slice_get (code_at image frame.old.procedure) at ≡ Some (StoreInstr kind) →
        IsDone image here result (memory_in store.old) (memory_in store.new) (frame_in frame.old)
        (frame_in frame.new) }
    ensures ahead { IsAhead result at frame.new.next }
    ensures room { HasMoreRoom frame.old frame.new }
{
    let Some(value) = of_kind(&frame.operands, 0, kind) else {
        return Done::Nothing;
    };
    let Some(place) = address(&frame.operands, 1) else {
        return Done::Nothing;
    };
    if !store_near(frame, store, here, place, value) {
        return Done::Nothing;
    }
    take(&mut frame.operands, 2);
    frame.next = at + 1;
    Done::Turned
}

/// An operator is applied to the two topmost numbers.
#[inline(always)]
fn operate_top(code: &[Instr], at: usize, operator: Binary, frame: &mut Frame) -> Done
    requires within { at < length code.now }
    ensures done { (image : Image) (here : ℕ) (mem : Memory) →
        code.now ≡ code_at image frame.old.procedure → at ≡ frame.old.next →
        get_or code.now at (Num (pos 0)) ≡ BinaryInstr operator →
        IsDone image here result mem mem (frame_in frame.old) (frame_in frame.new) }
    ensures ahead { IsAhead result at frame.new.next }
    ensures room { HasMoreRoom frame.old frame.new }
{
    let Some((a, b)) = numbers(&frame.operands) else {
        return Done::Nothing;
    };
    let Given::Number(value) = apply_binary(operator, a, b) else {
        return Done::Nothing;
    };
    replace(&mut frame.operands, 2, Cell::Num(value));
    frame.next = at + 1;
    Done::Silent
}

/// The frame gets the object on which its procedure is called.
#[inline(always)]
fn self_top(code: &[Instr], at: usize, frame: &mut Frame) -> Done
    requires within { at < length code.now }
    ensures done { (image : Image) (here : ℕ) (mem : Memory) →
        code.now ≡ code_at image frame.old.procedure → at ≡ frame.old.next →
        get_or code.now at (Num (pos 0)) ≡ SelfRef →
        IsDone image here result mem mem (frame_in frame.old) (frame_in frame.new) }
    ensures ahead { IsAhead result at frame.new.next }
    ensures room { HasMoreRoom frame.old frame.new }
{
    let object = frame.object;
    if object == 0 {
        return Done::Nothing;
    }
    give_top(code, at, frame, Cell::Ref(object))
}

/// The frame gets the place of a cell of its topmost object.
#[inline(always)]
fn deref_top(code: &[Instr], at: usize, cell: u32, frame: &mut Frame, store: &Store) -> Done
    requires within { at < length code.now }
    ensures done { (image : Image) (here : ℕ) → code.now ≡ code_at image frame.old.procedure →
        at ≡ frame.old.next → get_or code.now at (Num (pos 0)) ≡ Deref cell →
        IsDone image here result (memory_in store.now) (memory_in store.now) (frame_in frame.old)
        (frame_in frame.new) }
    ensures ahead { IsAhead result at frame.new.next }
    ensures room { HasMoreRoom frame.old frame.new }
{
    let did = tell_cell(&mut frame.operands, &store.objects, cell);
    go_after(code, at, frame, did)
}

/// The kind of what the instruction at a place loads, where it loads.
#[inline(always)]
fn loaded(code: &[Instr], at: usize) -> Option<Kind>
    ensures { IfSome result (λ kind. slice_get code.now at ≡ Some (Load kind)) }
{
    match code.get(at).copied() {
        Some(Instr::Load(kind)) => Some(kind),
        _ => None,
    }
}

/// The frame gets what a cell holds whose place it would get, and which is read next, where it isn't in a frame below.
#[inline(always)]
fn read_place(
    code: &[Instr],
    at: usize,
    kind: Kind,
    here: u32,
    place: Address,
    frame: &mut Frame,
    store: &Store,
) -> Done
    requires within { at < length code.now }
    requires next { slice_get code.now (at + 1) ≡ Some (Load kind) }
    ensures done { (image : Image) → code.now ≡ code_at image frame.old.procedure →
        at ≡ frame.old.next →
        act image.shapes.items image.types.items frame.old.procedure
        (here_at here (frame_in frame.old)) (get_or code.now at (Num (pos 0))) code.now at
        (frame_in frame.old).stack ≡
        gives (Place place.root place.cell 0) (frame_in frame.old).stack →
        IsDone image here result (memory_in store.now) (memory_in store.now) (frame_in frame.old)
        (frame_in frame.new) }
    ensures ahead { IsAhead result at frame.new.next }
    ensures room { HasMoreRoom frame.old frame.new }
{
    let Some(value) = load_near(frame, store, here, place) else {
        return Done::Nothing;
    };
    if !is_of(kind, value) {
        return Done::Nothing;
    }
    match give(frame, value) {
        Ok(()) => {
            frame.next = at + 2;
            Done::Turned
        }
        Err(_) => Done::Nothing,
    }
}

/// The frame gets the place of a cell, or what that holds where it is read next.
#[inline(always)]
fn place_top(
    code: &[Instr],
    at: usize,
    here: u32,
    place: Address,
    frame: &mut Frame,
    store: &Store,
) -> Done
    requires within { at < length code.now }
    ensures done { (image : Image) → code.now ≡ code_at image frame.old.procedure →
        at ≡ frame.old.next →
        act image.shapes.items image.types.items frame.old.procedure
        (here_at here (frame_in frame.old)) (get_or code.now at (Num (pos 0))) code.now at
        (frame_in frame.old).stack ≡
        gives (Place place.root place.cell 0) (frame_in frame.old).stack →
        IsDone image here result (memory_in store.now) (memory_in store.now) (frame_in frame.old)
        (frame_in frame.new) }
    ensures ahead { IsAhead result at frame.new.next }
    ensures room { HasMoreRoom frame.old frame.new }
{
    match loaded(code, at + 1) {
        Some(kind) => read_place(code, at, kind, here, place, frame, store),
        None => give_top(code, at, frame, Cell::Place(place.root, place.cell, 0)),
    }
}

/// The operator that the instruction at a place applies to two numbers, where it applies one.
#[inline(always)]
fn applied(code: &[Instr], at: usize) -> Option<Binary>
    ensures { IfSome result (λ operator.
        (at < length code.now) × (get_or code.now at (Num (pos 0)) ≡ BinaryInstr operator)) }
{
    match code.get(at).copied() {
        Some(Instr::Binary(operator)) => Some(operator),
        _ => None,
    }
}

/// An operator is applied to the topmost number and to one that the frame would get, before it is.
#[inline(always)]
fn operate_with(code: &[Instr], at: usize, operator: Binary, n: i64, frame: &mut Frame) -> Done
    requires within { at + 1 < length code.now }
    requires next { get_or code.now (at + 1) (Num (pos 0)) ≡ BinaryInstr operator }
    ensures done { (image : Image) (here : ℕ) (mem : Memory) →
        code.now ≡ code_at image frame.old.procedure → at ≡ frame.old.next →
        get_or code.now at (Num (pos 0)) ≡ Num n →
        IsDone image here result mem mem (frame_in frame.old) (frame_in frame.new) }
    ensures ahead { IsAhead result at frame.new.next }
    ensures room { HasMoreRoom frame.old frame.new }
{
    let Some(a) = number(&frame.operands, 0) else {
        return Done::Nothing;
    };
    let Given::Number(value) = apply_binary(operator, a, n) else {
        return Done::Nothing;
    };
    replace(&mut frame.operands, 1, Cell::Num(value));
    frame.next = at + 2;
    Done::Silent
}

/// The frame gets a number, or what an operator gives of it that is applied next.
#[inline(always)]
fn number_top(code: &[Instr], at: usize, n: i64, frame: &mut Frame) -> Done
    requires within { at < length code.now }
    ensures done { (image : Image) (here : ℕ) (mem : Memory) →
        code.now ≡ code_at image frame.old.procedure → at ≡ frame.old.next →
        get_or code.now at (Num (pos 0)) ≡ Num n →
        IsDone image here result mem mem (frame_in frame.old) (frame_in frame.new) }
    ensures ahead { IsAhead result at frame.new.next }
    ensures room { HasMoreRoom frame.old frame.new }
{
    match applied(code, at + 1) {
        Some(operator) => operate_with(code, at, operator, n, frame),
        None => give_top(code, at, frame, Cell::Num(n)),
    }
}

/// Where the instruction at a place jumps to, where it jumps ahead at 0.
#[inline(always)]
fn jumps_ahead(code: &[Instr], at: usize) -> Option<u32>
    ensures { IfSome result (λ to. (at < to) × (at < length code.now) ×
        (get_or code.now at (Num (pos 0)) ≡ JumpFalse to)) }
{
    match code.get(at).copied() {
        Some(Instr::JumpFalse(to)) => { if at < to as usize { Some(to) } else { None } }
        _ => None,
    }
}

/// The place behind a jump ahead that stands behind a comparison: where that holds the next one, and else where it jumps to.
#[inline(always)]
fn past_jump(at: usize, to: u32, holds: bool) -> usize
    requires { at + 2 < 2 ^ 64 }
    ensures { result ≡ (if holds then at + 2 else to) }
{
    if holds { at + 2 } else { to as usize }
}

/// The two topmost numbers are compared; where a jump ahead follows, it's made or not.
#[inline(always)]
fn compare_top(code: &[Instr], at: usize, relation: Relation, frame: &mut Frame) -> Done
    requires within { at < length code.now }
    ensures done { (image : Image) (here : ℕ) (mem : Memory) →
        code.now ≡ code_at image frame.old.procedure → at ≡ frame.old.next →
        get_or code.now at (Num (pos 0)) ≡ BinaryInstr (Cmp relation) →
        IsDone image here result mem mem (frame_in frame.old) (frame_in frame.new) }
    ensures ahead { IsAhead result at frame.new.next }
    ensures room { HasMoreRoom frame.old frame.new }
{
    let Some((a, b)) = numbers(&frame.operands) else {
        return Done::Nothing;
    };
    let holds = related(relation, a, b);
    match jumps_ahead(code, at + 1) {
        Some(to) => {
            take(&mut frame.operands, 2);
            frame.next = past_jump(at, to, holds);
            Done::Silent
        }
        None => {
            replace(&mut frame.operands, 2, Cell::Num(truth(holds)));
            frame.next = at + 1;
            Done::Silent
        }
    }
}

/// The frame gets what it keeps under a number.
#[inline(always)]
fn kept_top(code: &[Instr], at: usize, number: u32, kind: Kind, frame: &mut Frame) -> Done
    requires within { at < length code.now }
    ensures done { (image : Image) (here : ℕ) (mem : Memory) →
        code.now ≡ code_at image frame.old.procedure → at ≡ frame.old.next →
        act image.shapes.items image.types.items frame.old.procedure
        (here_at here (frame_in frame.old)) (get_or code.now at (Num (pos 0))) code.now at
        (frame_in frame.old).stack ≡ Takes number kind (frame_in frame.old).stack →
        IsDone image here result mem mem (frame_in frame.old) (frame_in frame.new) }
    ensures ahead { IsAhead result at frame.new.next }
    ensures room { HasMoreRoom frame.old frame.new }
{
    match kept_value(frame, number, kind) {
        Ok(did) => go_after(code, at, frame, did),
        Err(_) => Done::Nothing,
    }
}

/// The frame gets the place of an element of its topmost array.
#[inline(always)]
fn index_top(code: &[Instr], at: usize, elements: u32, cells: u32, frame: &mut Frame) -> Done
    requires within { at < length code.now }
    ensures done { (image : Image) (here : ℕ) (mem : Memory) →
        code.now ≡ code_at image frame.old.procedure → at ≡ frame.old.next →
        get_or code.now at (Num (pos 0)) ≡ Index elements cells →
        IsDone image here result mem mem (frame_in frame.old) (frame_in frame.new) }
    ensures ahead { IsAhead result at frame.new.next }
    ensures room { HasMoreRoom frame.old frame.new }
{
    let did = index(&mut frame.operands, elements, cells);
    go_after(code, at, frame, did)
}

/// The frame gets the place so many cells on.
#[inline(always)]
fn offset_top(code: &[Instr], at: usize, cells: u32, of_type: u32, frame: &mut Frame) -> Done
    requires within { at < length code.now }
    ensures done { (image : Image) (here : ℕ) (mem : Memory) →
        code.now ≡ code_at image frame.old.procedure → at ≡ frame.old.next →
        get_or code.now at (Num (pos 0)) ≡ Offset cells of_type →
        IsDone image here result mem mem (frame_in frame.old) (frame_in frame.new) }
    ensures ahead { IsAhead result at frame.new.next }
    ensures room { HasMoreRoom frame.old frame.new }
{
    let did = offset(&mut frame.operands, cells, of_type);
    go_after(code, at, frame, did)
}

/// Any other instruction.
#[inline(never)]
fn rest_top(
    instr: Instr,
    image: &Image,
    code: &[Instr],
    keeps: u32,
    here: u32,
    at: usize,
    frame: &mut Frame,
    store: &Store,
) -> Done
    requires place { slice_get code.now at ≡ Some instr }
    requires within { at < length code.now }
    requires keeps { keeps ≡ keeps_in (numbered_of image.now.shapes.items frame.old.procedure) }
    ensures done { code.now ≡ code_at image.now frame.old.procedure → at ≡ frame.old.next →
        IsDone image.now here result (memory_in store.now) (memory_in store.now)
        (frame_in frame.old) (frame_in frame.new) }
    ensures ahead { IsAhead result at frame.new.next }
    ensures room { HasMoreRoom frame.old frame.new }
{
    match do_one(instr, image, &store.objects, keeps, here, code, at, frame) {
        Ok(did) => go_after(code, at, frame, did),
        Err(_) => Done::Nothing,
    }
}

/// Whether an instruction calls or ends a frame, or asks for a lock.
fn is_asked(instr: Instr) -> bool {
    match instr {
        Instr::Call(_) => true,
        Instr::Virtual(_, _) => true,
        Instr::CallValue(_) => true,
        Instr::Return => true,
        Instr::Enter => true,
        Instr::Leave => true,
        Instr::Await(_) => true,
        _ => false,
    }
}

/// Does the next instruction of a frame of this code above so many others, which keeps values under so many numbers. Those that come
/// most often have an arm of their own. A question is told only where it's wanted.
#[inline(always)]
fn do_top(
    asks: bool,
    image: &Image,
    code: &[Instr],
    keeps: u32,
    here: u32,
    frame: &mut Frame,
    store: &mut Store,
) -> Done
    requires code { code.now ≡ code_at image.now frame.old.procedure }
    requires keeps { keeps ≡ keeps_in (numbered_of image.now.shapes.items frame.old.procedure) }
    requires within { frame.old.next < length code.now }
    ensures done { IsDone image.now here result (memory_in store.old) (memory_in store.new)
        (frame_in frame.old) (frame_in frame.new) }
    ensures ahead { IsAhead result frame.old.next frame.new.next }
    ensures room { HasMoreRoom frame.old frame.new }
{
    let at = frame.next;
    match code[at] {
        Instr::Load(kind) => load_top(at, kind, here, frame, store),
        Instr::Store(kind) => store_top(at, kind, here, frame, store),
        Instr::Num(n) => number_top(code, at, n, frame),
        Instr::Frame(cell) => {
            let root = Root::Frame(here);
            place_top(code, at, here, Address { root, cell }, frame, store)
        }
        Instr::Module(module, cell) => {
            let root = Root::Module(module);
            place_top(code, at, here, Address { root, cell }, frame, store)
        }
        Instr::Begin(line, col) => go_after(code, at, frame, Act::Begins(at, Pos { line, col })),
        Instr::Jump(to) => go_after(code, at, frame, jump(code, to, at)),
        Instr::JumpFalse(to) => {
            let did = jump_on_false(code, to, at, &mut frame.operands);
            go_after(code, at, frame, did)
        }
        Instr::Binary(Binary::Cmp(relation)) => compare_top(code, at, relation, frame),
        Instr::Binary(operator) => operate_top(code, at, operator, frame),
        Instr::Kept(number, kind) if number < keeps => kept_top(code, at, number, kind, frame),
        Instr::Index(elements, cells) => index_top(code, at, elements, cells, frame),
        Instr::Offset(cells, of_type) => offset_top(code, at, cells, of_type, frame),
        Instr::SelfRef => self_top(code, at, frame),
        Instr::Deref(cell) => deref_top(code, at, cell, frame, store),
        instr => {
            if !asks && is_asked(instr) {
                Done::Nothing
            } else {
                rest_top(instr, image, code, keeps, here, at, frame, store)
            }
        }
    }
}

/// A turn of a frame, where its silent work comes to one that is made in place. A question to which that comes is told where it's wanted.
#[inline(always)]
fn turn_top(
    asks: bool,
    image: &Image,
    code: &[Instr],
    keeps: u32,
    here: u32,
    frame: &mut Frame,
    store: &mut Store,
) -> Tried
    requires code { code.now ≡ code_at image.now frame.old.procedure }
    requires keeps { keeps ≡ keeps_in (numbered_of image.now.shapes.items frame.old.procedure) }
    ensures tried { HasTriedTop image.now here result (memory_in store.old) (memory_in store.new)
        (frame_in frame.old) (frame_in frame.new) }
    ensures room { HasMoreRoom frame.old frame.new }
{
    while frame.next < code.len() {
        match do_top(asks, image, code, keeps, here, frame, store) {
            Done::Silent => {}
            Done::Turned => return Tried::Turned(false),
            Done::Begun => return Tried::Turned(true),
            Done::Asks(question) => return Tried::Asks(question, frame.next),
            Done::Nothing => return Tried::Nothing,
        }
    }
    Tried::Nothing
}

/// How many statements have begun, with one more or not.
#[inline(always)]
pub(crate) fn count(begins: bool, begun: u64) -> u64
    ensures { result ≡ counted begins begun }
{
    if begins { begun.wrapping_add(1) } else { begun }
}

/// Turns of a frame, so many at most, as long as they can be made in place and fewer statements have begun than the budget: how many
/// have been made, and how many statements have begun by then. Where there is no memory they are private.
#[inline(never)]
pub(crate) fn run_top(
    image: &Image,
    code: &[Instr],
    keeps: u32,
    here: u32,
    frame: &mut Frame,
    store: &mut Store,
    most: u32,
    budget: u64,
    begun: u64,
) -> (u32, u64)
    requires code { code.now ≡ code_at image.now frame.old.procedure }
    requires keeps { keeps ≡ keeps_in (numbered_of image.now.shapes.items frame.old.procedure) }
    ensures made { HasRunOn image.now here budget result.0 begun result.1 (memory_in store.old)
        (memory_in store.new) (frame_in frame.old) (frame_in frame.new) }
    ensures alone { memory_in store.old ≡ no_memory →
        (memory_in store.new ≡ no_memory) × HasRunTop image.now here budget result.0 begun result.1
        (frame_in frame.old) (frame_in frame.new) }
    ensures most { result.0 ≤ most }
    ensures room { HasMoreRoom frame.old frame.new }
{
    let mut now = begun;
    for made in 0..most {
        if budget <= now {
            return (made, now);
        }
        match turn_top(false, image, code, keeps, here, frame, store) {
            Tried::Turned(begins) => now = count(begins, now),
            Tried::Asks(_, _) => return (made, now),
            Tried::Nothing => return (made, now),
        }
    }
    (most, now)
}

/// Private turns of the topmost frame that are made in place, so many at most, while fewer statements have begun than the budget: how
/// many have been made. There may be private ones behind them, and some silent work is done. There is no memory.
pub(crate) fn make_in_place(
    image: &Image,
    frames: &mut Frames,
    store: &mut Store,
    most: u32,
    budget: u64,
) -> u32
    requires memory { memory_in store.old ≡ no_memory }
    ensures made { IsMadePrivately image.now budget result frames.old frames.new }
    ensures most { result ≤ most }
    ensures none { memory_in store.new ≡ no_memory }
    ensures fit { StayFit image.now frames.old frames.new }
{
    let turns = frames.turns;
    let begun = frames.begun;
    let Ok(here) = u32::try_from(frames.count().saturating_sub(1)) else {
        return 0;
    };
    let Some(frame) = frames.list.last_mut() else {
        return 0;
    };
    let code = code_of(image, frame.procedure);
    let keeps = keeps_of(&image.shapes, frame.procedure);
    let (made, now) = run_top(image, code, keeps, here, frame, store, most, budget, begun);
    frames.begun = now;
    frames.turns = turns.wrapping_add(made as u64);
    made
}

/// A turn of the topmost frame, where its silent work comes to one that is made in place; a statement that has begun in it isn't
/// counted yet. Else some silent work is done.
pub(crate) fn turn_in_place(image: &Image, frames: &mut Frames, store: &mut Store) -> Tried
    ensures tried { HasTriedInPlace image.now result (memory_in store.old) (memory_in store.new)
        (frames_in frames.old) (frames_in frames.new) }
    ensures counts { SameCounts frames.old frames.new }
    ensures fit { StayFit image.now frames.old frames.new }
{
    let Ok(here) = u32::try_from(frames.count().saturating_sub(1)) else {
        return Tried::Nothing;
    };
    let Some(frame) = frames.list.last_mut() else {
        return Tried::Nothing;
    };
    let code = code_of(image, frame.procedure);
    let keeps = keeps_of(&image.shapes, frame.procedure);
    turn_top(true, image, code, keeps, here, frame, store)
}
