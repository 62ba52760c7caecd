// Code as text: instructions with `;` between them, each as its name in small letters and then what it has, as `module 0 4`, `load n`
// or `cmp <=`. An operator stands for the instruction that does it; a number of bits after it says its width.

use crate::operators::{plain_operator, wide_operator};
use crate::stop::Stop;
use crate::word::{index_of, kind_of, number_of, relation_of};
use aos_base::{Binary, Relation, Unary};
use aos_code::{Instr, Kind};
use std::alloc::Global;

// An instruction that has nothing but its name. `put_text_strict` traps where the text doesn't fit.
fn plain(name: &str) -> Option<Instr> {
    match name {
        "nil" => Some(Instr::Nil),
        "nil_call" => Some(Instr::NilCall),
        "self" => Some(Instr::SelfRef),
        "eq_ref" => Some(Instr::EqRef),
        "eq_call" => Some(Instr::EqCall),
        "dup" => Some(Instr::Dup),
        "drop" => Some(Instr::Drop),
        "swap" => Some(Instr::Swap),
        "put_text" => Some(Instr::PutText(false)),
        "put_text_strict" => Some(Instr::PutText(true)),
        "start" => Some(Instr::Start),
        "enter" => Some(Instr::Enter),
        "leave" => Some(Instr::Leave),
        "verdict" => Some(Instr::Verdict),
        "return" => Some(Instr::Return),
        "out_char" => Some(Instr::OutChar),
        "out_int" => Some(Instr::OutInt),
        "out_string" => Some(Instr::OutString),
        "out_ln" => Some(Instr::OutLn),
        "out_open" => Some(Instr::OutOpen),
        _ => plain_operator(name),
    }
}

// An instruction that has the number or the code of a trap.
fn trapping(name: &str, number: u8) -> Option<Instr> {
    match name {
        "fail" => Some(Instr::Fail(number)),
        "assert" => Some(Instr::Assert(number)),
        "halt" => Some(Instr::Halt(number)),
        _ => None,
    }
}

// An instruction that has the number of something, or a count.
fn numbered(name: &str, number: u32) -> Option<Instr> {
    match name {
        "frame" => Some(Instr::Frame(number)),
        "param" => Some(Instr::Param(number)),
        "length" => Some(Instr::Length(number)),
        "jump" => Some(Instr::Jump(number)),
        "jump_false" => Some(Instr::JumpFalse(number)),
        "copy" => Some(Instr::Copy(number)),
        "call" => Some(Instr::Call(number)),
        "proc" => Some(Instr::Proc(number)),
        "bind" => Some(Instr::Bind(number)),
        "call_value" => Some(Instr::CallValue(number)),
        "await" => Some(Instr::Await(number)),
        "new_object" => Some(Instr::NewObject(number)),
        "deref" => Some(Instr::Deref(number)),
        "open_ref" => Some(Instr::OpenRef(number)),
        "is" => Some(Instr::Is(number)),
        "is_place" => Some(Instr::IsPlace(number)),
        "guard" => Some(Instr::Guard(number)),
        "guard_place" => Some(Instr::GuardPlace(number)),
        _ => None,
    }
}

fn of_number(name: &str, number: i64) -> Option<Instr> {
    if name == "num" {
        return Some(Instr::Num(number));
    }
    if let Ok(number) = u32::try_from(number)
        && let Some(instr) = numbered(name, number)
    {
        return Some(instr);
    }
    match u8::try_from(number) {
        Ok(number) => trapping(name, number).or(wide_operator(name, i64::from(number))),
        Err(_) => None,
    }
}

fn of_kind(name: &str, kind: Kind) -> Option<Instr> {
    match name {
        "load" => Some(Instr::Load(kind)),
        "store" => Some(Instr::Store(kind)),
        _ => None,
    }
}

fn of_relation(name: &str, relation: Relation) -> Option<Instr> {
    match name {
        "cmp" => Some(Instr::Binary(Binary::Cmp(relation))),
        "cmp_text" => Some(Instr::CmpText(relation)),
        _ => None,
    }
}

fn of_word(name: &str, word: &str) -> Option<Instr> {
    if let Some(number) = number_of(word) {
        return of_number(name, number);
    }
    if let Some(kind) = kind_of(word) {
        return of_kind(name, kind);
    }
    of_relation(name, relation_of(word)?)
}

// An instruction that keeps a value of this kind, or gives one that is kept.
fn keeping(name: &str, number: u32, kind: Kind) -> Option<Instr> {
    match name {
        "keep" => Some(Instr::Keep(number, kind)),
        "kept" => Some(Instr::Kept(number, kind)),
        _ => None,
    }
}

// The test of a range. Bounds from 2^31 on are none.
fn range(first: u32, second: u32) -> Option<Instr> {
    let low = i32::try_from(first).ok()?;
    let high = i32::try_from(second).ok()?;
    Some(Instr::Unary(Unary::Range(low, high)))
}

fn of_two_numbers(name: &str, first: u32, second: u32) -> Option<Instr> {
    match name {
        "range" => range(first, second),
        "module" => Some(Instr::Module(first, second)),
        "offset" => Some(Instr::Offset(first, second)),
        "index" => Some(Instr::Index(first, second)),
        "index_open" => Some(Instr::IndexOpen(first, second)),
        "pick_len" => Some(Instr::PickLen(first, second)),
        "new_array" => Some(Instr::NewArray(first, second)),
        "begin" => Some(Instr::Begin(first, second)),
        "virtual" => Some(Instr::Virtual(first, second)),
        _ => None,
    }
}

fn of_two_words(name: &str, first: &str, second: &str) -> Option<Instr> {
    let number = index_of(first)?;
    if let Some(kind) = kind_of(second) {
        return keeping(name, number, kind);
    }
    of_two_numbers(name, number, index_of(second)?)
}

fn instr_of(text: &str) -> Option<Instr> {
    let mut words = text.split_whitespace();
    let name = words.next()?;
    match (words.next(), words.next(), words.next()) {
        (None, _, _) => plain(name),
        (Some(word), None, _) => of_word(name, word),
        (Some(first), Some(second), None) => of_two_words(name, first, second),
        _ => None,
    }
}

/// The code that a text says, none where it is empty.
pub fn code_of(alloc: Global, text: &str) -> Result<Vec<Instr>, Stop> {
    let mut code = Vec::new(alloc);
    for part in text.trim().split_terminator(';') {
        match instr_of(part) {
            Some(instr) => code.push(instr)?,
            None => return Err(Stop::Malformed("malformed: no instruction")),
        }
    }
    Ok(code)
}
