// What instructions ask for. Their operands stay where they are.
ghost use Rattle.std.specs.Prelude.{◌≡◌, ◌++◌, ◌∷◌, [], List, map, reverse, take, drop, replicate, Option};
ghost use Rattle.aos_base.specs.Question.{Reads, Copies, PutsText, ComparesTexts, Makes, Starts, PutsInt, PutsChar, PutsString};
ghost use Rattle.aos_code.specs.declared.instr.Cell.{Cell as CellOf};
ghost use Rattle.aos_code.specs.declared.instr.Cell.TheVariants.{Num};
ghost use Rattle.aos_code.specs.declared.instr.Kind.{Kind as KindOf};
ghost use Rattle.aos_code.specs.Numbered.{numbered as numbered_of};
ghost use Rattle.aos_code.specs.Silent.{Stack, Act as ActOf, Sees, Stops, Decides, counted_on, on_number, on_kind, on_kinds, on_place, on_text, stores, ends, kinds_of, called, calls};
ghost use Rattle.aos_silent_steps.specs.Acts.{act_in, IsStay, or_lost};
ghost use Rattle.aos_silent_steps.specs.Taken.{kinds_from};

use crate::act::{Act, LOST, Question, Way};
use crate::image::numbered;
use crate::operands::{address, is_of, number, object, of_kind, operand};
use crate::rows::are_numbers;
use aos_base::Relation;
use aos_code::{Cell, Kind, ParamKind, ProcShape};

/// What a cell holds.
pub fn ask_read(kind: Kind, stack: &[Cell]) -> Act
    ensures act { act_in result (reverse stack.now) ≡
        on_place (λ p t s. Sees (Reads kind p) s) (reverse stack.now) }
    ensures stays { IsStay result }
{
    match address(stack, 0) {
        None => LOST,
        Some(at) => Act::Sees(Question::Reads(kind, at)),
    }
}

/// A value of this kind is stored.
pub fn ask_store(kind: Kind, stack: &[Cell]) -> Act
    ensures act { act_in result (reverse stack.now) ≡ stores kind (reverse stack.now) }
    ensures stays { IsStay result }
{
    match of_kind(stack, 0, kind) {
        None => LOST,
        Some(value) => match address(stack, 1) {
            None => LOST,
            Some(at) => Act::Sees(Question::Stores(at, value)),
        },
    }
}

/// Cells are copied from the topmost place to the one below.
pub fn ask_copy(count: u32, stack: &[Cell]) -> Act
    ensures act { act_in result (reverse stack.now) ≡
        on_place (λ from t s1. on_place (λ to u s2. Sees (Copies count from to) s2) s1)
        (reverse stack.now) }
    ensures stays { IsStay result }
{
    match address(stack, 0) {
        None => LOST,
        Some(from) => match address(stack, 1) {
            None => LOST,
            Some(to) => Act::Sees(Question::Copies(count, from, to)),
        },
    }
}

/// An activity is started.
pub fn ask_start(stack: &[Cell]) -> Act
    ensures act { act_in result (reverse stack.now) ≡
        on_kind Kind.R (λ o s. Sees (Starts o) s) (reverse stack.now) }
    ensures stays { IsStay result }
{
    match object(stack, 0) {
        None => LOST,
        Some(o) => Act::Sees(Question::Starts(o)),
    }
}

/// An open array is made, whose lengths are so many operands.
pub fn ask_array(of_type: u32, lengths: u32, stack: &[Cell]) -> Act
    ensures act { act_in result (reverse stack.now) ≡
        counted_on lengths [] (λ zs s. Sees (Makes of_type (map Num zs)) s) (reverse stack.now) }
    ensures stays { IsStay result }
{
    if are_numbers(stack, lengths) {
        Act::Sees(Question::Makes(of_type, lengths))
    } else {
        LOST
    }
}

/// A character is written.
pub fn ask_char(stack: &[Cell]) -> Act
    ensures act { act_in result (reverse stack.now) ≡
        on_kind Kind.N (λ c s. Sees (PutsChar c) s) (reverse stack.now) }
    ensures stays { IsStay result }
{
    match number(stack, 0) {
        None => LOST,
        Some(code) => Act::Sees(Question::PutsChar(code)),
    }
}

/// A number is written.
pub fn ask_int(stack: &[Cell]) -> Act
    ensures act { act_in result (reverse stack.now) ≡
        on_kind Kind.N (λ n s1. on_kind Kind.N (λ v s2. Sees (PutsInt v n) s2) s1)
        (reverse stack.now) }
    ensures stays { IsStay result }
{
    match number(stack, 0) {
        None => LOST,
        Some(places) => match number(stack, 1) {
            None => LOST,
            Some(value) => Act::Sees(Question::PutsInt(value, places)),
        },
    }
}

/// A text is written.
pub fn ask_string(stack: &[Cell]) -> Act
    ensures act { act_in result (reverse stack.now) ≡
        on_text (λ a n s. Sees (PutsString a n) s) (reverse stack.now) }
    ensures stays { IsStay result }
{
    match number(stack, 0) {
        None => LOST,
        Some(length) => match address(stack, 1) {
            None => LOST,
            Some(at) => Act::Sees(Question::PutsString(at, length)),
        },
    }
}

/// The end of a frame whose procedure is a function of this kind, or none.
pub fn ask_end(result_kind: Option<Kind>, stack: &[Cell]) -> Act
    ensures act { (f : ProcShape) → f.result ≡ result_kind →
        act_in result (reverse stack.now) ≡ ends (Option.Some f) (reverse stack.now) }
    ensures stays { IsStay result }
{
    match result_kind {
        None => Act::Sees(Question::Ends(None)),
        Some(kind) => match of_kind(stack, 0, kind) {
            None => LOST,
            Some(value) => Act::Sees(Question::Ends(Some(value))),
        },
    }
}

/// The end of a condition, with the number on top.
pub fn decide(stack: &[Cell]) -> Act
    ensures act { act_in result (reverse stack.now) ≡
        on_number (λ a s. Stops (Decides a)) (reverse stack.now) }
    ensures stays { IsStay result }
{
    match number(stack, 0) {
        None => LOST,
        Some(value) => Act::Decides(value),
    }
}

/// A text is stored in an array of characters.
pub fn ask_put_text(strict: bool, stack: &[Cell]) -> Act
    ensures act { act_in result (reverse stack.now) ≡
        on_text (λ to room s1. on_text (λ from n s2. Sees (PutsText strict from n to room) s2) s1)
        (reverse stack.now) }
    ensures stays { IsStay result }
{
    match number(stack, 0) {
        None => LOST,
        Some(room) => match address(stack, 1) {
            None => LOST,
            Some(to) => match number(stack, 2) {
                None => LOST,
                Some(length) => match address(stack, 3) {
                    None => LOST,
                    Some(from) => Act::Sees(Question::PutsText(strict, from, length, to, room)),
                },
            },
        },
    }
}

/// Two texts are compared.
pub fn ask_compare(relation: Relation, stack: &[Cell]) -> Act
    ensures act { act_in result (reverse stack.now) ≡
        on_text (λ b m s1. on_text (λ a n s2. Sees (ComparesTexts relation a n b m) s2) s1)
        (reverse stack.now) }
    ensures stays { IsStay result }
{
    match number(stack, 0) {
        None => LOST,
        Some(other) => match address(stack, 1) {
            None => LOST,
            Some(right) => match number(stack, 2) {
                None => LOST,
                Some(length) => match address(stack, 3) {
                    None => LOST,
                    Some(left) => Act::Sees(Question::ComparesTexts(
                        relation, left, length, right, other,
                    )),
                },
            },
        },
    }
}

/// Behind an operand of this kind that lies so deep.
fn past_kind(stack: &[Cell], depth: usize, kind: Kind) -> Option<usize>
    ensures { (kinds : List KindOf) (k : List CellOf → Stack → ActOf) →
        kinds_from (kind ∷ kinds) depth k (reverse stack.now) ≡
        or_lost result (λ d. kinds_from kinds d k (reverse stack.now)) }
{
    match operand(stack, depth) {
        None => None,
        Some(cell) => {
            if is_of(kind, cell) {
                Some(depth + 1)
            } else {
                None
            }
        }
    }
}

/// Behind so many operands of this kind from one on that lies so deep.
fn past_kinds(stack: &[Cell], depth: usize, kind: Kind, count: u32) -> Option<usize>
    ensures { (kinds : List KindOf) (k : List CellOf → Stack → ActOf) →
        kinds_from (replicate count kind ++ kinds) depth k (reverse stack.now) ≡
        or_lost result (λ d. kinds_from kinds d k (reverse stack.now)) }
{
    let mut past = depth;
    for _ in 0..count {
        past = past_kind(stack, past, kind)?;
    }
    Some(past)
}

/// Behind what is handed over for a parameter, of which the topmost operand lies so deep.
fn past_param(stack: &[Cell], depth: usize, param: ParamKind) -> Option<usize>
    ensures { (kinds : List KindOf) (k : List CellOf → Stack → ActOf) →
        kinds_from (reverse (kinds_of (param ∷ [])) ++ kinds) depth k (reverse stack.now) ≡
        or_lost result (λ d. kinds_from kinds d k (reverse stack.now)) }
{
    match param {
        ParamKind::Scalar(kind) => past_kind(stack, depth, kind),
        ParamKind::Whole(_) => past_kind(stack, depth, Kind::A),
        ParamKind::Place => past_kind(stack, depth, Kind::A),
        ParamKind::Open(lengths, _, _) => match past_kinds(stack, depth, Kind::N, lengths) {
            None => None,
            Some(past) => past_kind(stack, past, Kind::A),
        },
    }
}

/// How many operands are handed over for these parameters, where they are of their kinds.
pub fn arguments(stack: &[Cell], params: &[ParamKind]) -> Option<usize>
    ensures { (k : List CellOf → Stack → ActOf) →
        on_kinds (reverse (kinds_of params.now)) [] k (reverse stack.now) ≡
        or_lost result (λ d. k (reverse (take d (reverse stack.now)))
        (drop d (reverse stack.now))) }
{
    let mut depth = 0;
    let mut left = params.len();
    while 0 < left {
        left -= 1;
        depth = past_param(stack, depth, params[left])?;
    }
    Some(depth)
}

/// A procedure is called, whose arguments are so many operands, and where it is a method the object on which it is called lies below
/// them; trap 1 at NIL.
fn ask_called(method: bool, procedure: u32, count: usize, stack: &[Cell]) -> Act
    ensures act { act_in result (reverse stack.now) ≡
        called method procedure (reverse (take count (reverse stack.now)))
        (drop count (reverse stack.now)) }
    ensures stays { IsStay result }
{
    if !method {
        return Act::Sees(Question::Calls(procedure, Way::Direct, count));
    }
    match object(stack, count) {
        None => LOST,
        Some(0) => Act::Fails(1, 0),
        Some(_) => Act::Sees(Question::Calls(procedure, Way::Direct, count + 1)),
    }
}

/// A procedure of these is called.
pub fn ask_call(shapes: &[ProcShape], procedure: u32, stack: &[Cell]) -> Act
    ensures act { act_in result (reverse stack.now) ≡
        calls (numbered_of shapes.now procedure) procedure (reverse stack.now) }
    ensures stays { IsStay result }
{
    match numbered(shapes, procedure) {
        None => LOST,
        Some(shape) => match arguments(stack, &shape.params) {
            None => LOST,
            Some(count) => ask_called(shape.method, procedure, count, stack),
        },
    }
}
