// Turns on an activity's own frames alone.
ghost use Rattle.std.specs.Prelude.{◌≡◌, ◌≤◌, ◌∷◌, ◌&&◌, List, [], true, false, drop, reverse, if◌then◌else◌, IfOk, OnErr};
ghost use Rattle.aos_store.specs.Store.{list_in, frames_in, memory_in, SameCounts};
ghost use Rattle.aos_silent_steps.specs.Acts.{question_in};
ghost use Rattle.aos_silent_steps.specs.Room.{StayFit};
ghost use Rattle.aos_cpu.specs.Turns.{Alike, StandsAtStop};
ghost use Rattle.aos_cpu.specs.Private.{no_memory, made_by, is_of_frame as is_of_frame_root, is_own_value as is_own_cell, copies_own as copies_own_for, is_own as is_own_question, is_own_turn, is_private, HasTried, IsMadePrivately, turns_since, stop_after, WhereShared};

use crate::calls::{arguments_of, behind_value};
use crate::in_place::make_in_place;
use crate::turn::{come_to_stop, finish};
use aos_base::{Did, NoMemory, Root};
use aos_code::{Cell, Image, ParamKind};
use aos_silent_steps::{Question, Stop, numbered};
use aos_store::{Frames, Heap, Store};
use std::alloc::Global;

/// Why private turns end: as many have been made as were asked for; the next isn't private; or so many statements have begun.
#[derive(Clone, Copy)]
pub enum PrivateStop {
    Most,
    Shared,
    Budget,
}

/// Whether a root is one of the activity's own frames.
fn is_of_frame(root: Root) -> bool
    ensures { result ≡ is_of_frame_root root }
{
    match root {
        Root::Frame(_) => true,
        _ => false,
    }
}

/// Whether a cell holds no place elsewhere.
fn is_own_value(cell: Cell) -> bool
    ensures { result ≡ is_own_cell cell }
{
    match cell {
        Cell::Place(root, _, _) => is_of_frame(root),
        _ => true,
    }
}

/// Whether a parameter's argument is a place whose cells are copied, and how many operands the argument is.
fn taken_by(param: ParamKind) -> (bool, usize)
    ensures { (ps : List ParamKind) (v : Cell) (vs : List Cell) →
        copies_own_for (param ∷ ps) (v ∷ vs) ≡
        (if result.0 then is_own_cell v &&
        copies_own_for ps (drop result.1 (v ∷ vs)) else copies_own_for ps
        (drop result.1 (v ∷ vs))) }
{
    match param {
        ParamKind::Scalar(_) => (false, 1),
        ParamKind::Whole(_) => (true, 1),
        ParamKind::Place => (false, 1),
        ParamKind::Open(lengths, false, _) => (false, lengths as usize + 1),
        ParamKind::Open(lengths, true, _) => (true, lengths as usize + 1),
    }
}

/// The arguments behind so many.
fn behind(arguments: &[Cell], taken: usize) -> &[Cell]
    ensures { result.now ≡ drop taken arguments.now }
{
    if taken < arguments.len() {
        &arguments[taken..]
    } else {
        &[]
    }
}

/// Whether what a call with these arguments copies for its parameters is in the activity's own frames.
fn copies_own(params: &[ParamKind], arguments: &[Cell]) -> bool
    ensures { result ≡ copies_own_for params.now arguments.now }
{
    let mut rest = arguments;
    for param in params {
        let Some(argument) = rest.first().copied() else {
            return true;
        };
        let (is_copied, taken) = taken_by(*param);
        if is_copied && !is_own_value(argument) {
            return false;
        }
        rest = behind(rest, taken);
    }
    true
}

/// Whether a question's answer needs nothing but the activity's own frames, where these operands lie there.
fn is_own(image: &Image, question: Question, operands: &[Cell]) -> bool
    ensures { result ≡
        is_own_question image.now.shapes.items (question_in question (reverse operands.now)) }
{
    match question {
        Question::Reads(_, address) => is_of_frame(address.root),
        Question::Stores(address, _) => is_of_frame(address.root),
        Question::Copies(_, from, to) => is_of_frame(from.root) && is_of_frame(to.root),
        Question::PutsText(_, from, _, to, _) => is_of_frame(from.root) && is_of_frame(to.root),
        Question::ComparesTexts(_, left, _, right, _) => is_of_frame(left.root)
            && is_of_frame(right.root),
        Question::Calls(procedure, way, count) => match numbered(&image.shapes, procedure) {
            None => true,
            Some(shape) => {
                let all = behind(operands, operands.len().saturating_sub(count));
                let args = arguments_of(shape.method, behind_value(way, all));
                copies_own(&shape.params, args)
            }
        },
        Question::Ends(_) => true,
        _ => false,
    }
}

/// Whether a turn needs nothing but the activity's own frames, which stand where their silent work ends.
pub fn is_own_stop(image: &Image, frames: &Frames, stop: Stop) -> bool
    requires { StandsAtStop image.now (made_by []) stop (list_in frames.now.list.items) }
    ensures { result ≡ is_own_turn image.now (frames_in frames.now) }
{
    match stop {
        Stop::Work(question, _) => match frames.list.last() {
            None => false,
            Some(frame) => is_own(image, question, &frame.operands),
        },
        Stop::Begins(_, _) => true,
        Stop::Fails(_, _) => false,
        Stop::Decides(_) => false,
    }
}

/// A turn that needs nothing but the frames, which stand where their silent work ends: it is made, unless it traps.
fn make_own(
    alloc: Global,
    image: &Image,
    stop: Stop,
    frames: &mut Frames,
    store: &mut Store,
    output: &mut Vec<u8>,
) -> Result<bool, NoMemory>
    requires stands { StandsAtStop image.now (made_by []) stop (list_in frames.old.list.items) }
    requires own { is_own_turn image.now (frames_in frames.old) ≡ true }
    requires memory { memory_in store.old ≡ no_memory }
    ensures ok { IfOk result (λ is. HasTried image.now is frames.old frames.new) }
    ensures err { OnErr result (Alike image.now (made_by []) (frames_in frames.old)
        (frames_in frames.new)) }
    ensures counts { OnErr result (SameCounts frames.old frames.new) }
    ensures none { memory_in store.new ≡ no_memory }
    ensures fit { StayFit image.now frames.old frames.new }
{
    match finish(alloc, image, stop, frames, store, output)? {
        Did::Went => {
            frames.turns = frames.turns.wrapping_add(1);
            Ok(true)
        }
        _ => Ok(false),
    }
}

/// The next turn is made where it is private, and else silent work is all that is done. There is no memory.
fn make_private(
    alloc: Global,
    image: &Image,
    frames: &mut Frames,
    store: &mut Store,
    output: &mut Vec<u8>,
) -> Result<bool, NoMemory>
    requires memory { memory_in store.old ≡ no_memory }
    ensures ok { IfOk result (λ is. HasTried image.now is frames.old frames.new) }
    ensures err { OnErr result (Alike image.now (made_by []) (frames_in frames.old)
        (frames_in frames.new)) }
    ensures counts { OnErr result (SameCounts frames.old frames.new) }
    ensures none { memory_in store.new ≡ no_memory }
    ensures fit { StayFit image.now frames.old frames.new }
{
    match come_to_stop(alloc, image, &store.objects, frames)? {
        None => Ok(false),
        Some(stop) => {
            if is_own_stop(image, frames, stop) {
                make_own(alloc, image, stop, frames, store, output)
            } else {
                Ok(false)
            }
        }
    }
}

/// So many private turns at most, while fewer statements have begun than the budget: how many have been made, and why they end. Where
/// memory runs out, the turns before that are kept, and the frames tell how many.
pub fn private(
    alloc: Global,
    image: &Image,
    frames: &mut Frames,
    most: u32,
    budget: u64,
) -> Result<(u32, PrivateStop), NoMemory>
    ensures made { IsMadePrivately image.now budget (turns_since frames.old frames.new) frames.old
        frames.new }
    ensures count { IfOk result (λ r. r.0 ≡ turns_since frames.old frames.new) }
    ensures most { turns_since frames.old frames.new ≤ most }
    ensures stop { IfOk result (λ r. r.1 ≡ stop_after budget most r.0 frames.new.begun) }
    ensures shared { IfOk result (λ r.
        WhereShared r.1 (is_private image.now (frames_in frames.new) ≡ false)) }
    ensures fit { StayFit image.now frames.old frames.new }
{
    // once it is read, its range is known
    let _told = frames.turns;
    let mut store = Store {
        modules: Vec::new(alloc),
        objects: Heap::new(alloc),
    };
    let mut output = Vec::new(alloc);
    let mut made = make_in_place(image, frames, &mut store, most, budget);
    while made < most {
        if budget <= frames.begun {
            return Ok((made, PrivateStop::Budget));
        }
        if !make_private(alloc, image, frames, &mut store, &mut output)? {
            return Ok((made, PrivateStop::Shared));
        }
        made += 1 + make_in_place(image, frames, &mut store, most - made - 1, budget);
    }
    if budget <= frames.begun {
        Ok((most, PrivateStop::Budget))
    } else {
        Ok((most, PrivateStop::Most))
    }
}
