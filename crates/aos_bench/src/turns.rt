// How fast an activity makes turns on its own frames: a procedure's loop over a local variable.

use crate::image::{add_module, add_procedure, no_image};
use crate::stop::Stop;
use crate::words::next_number;
use aos_base::{Binary, NoMemory, Relation};
use aos_code::{Body, Image, Instr, Kind};
use aos_cpu::private;
use aos_store::Frames;
use std::alloc::{AllocError, Global};
use std::slice::Iter;

// Adds a procedure that calls the second one.
fn add_call(alloc: Global, image: &mut Image) -> Result<(), AllocError> {
    let code = vec![in alloc; Instr::Begin(2, 1), Instr::Call(2), Instr::Return]?;
    add_procedure(alloc, image, false, 0, Body { code, depth: 0 })
}

// Adds a procedure `WHILE i # 1 DO i := 2 END`, where i is its local variable.
fn add_loop(alloc: Global, image: &mut Image) -> Result<(), AllocError> {
    let code = vec![in alloc;
        Instr::Begin(1, 1),
        Instr::Frame(0),
        Instr::Load(Kind::N),
        Instr::Num(1),
        Instr::Binary(Binary::Cmp(Relation::NotEqual)),
        Instr::JumpFalse(11),
        Instr::Begin(1, 18),
        Instr::Frame(0),
        Instr::Num(2),
        Instr::Store(Kind::N),
        Instr::Jump(0),
        Instr::Return,
    ]?;
    add_procedure(alloc, image, false, 1, Body { code, depth: 2 })
}

/// A module whose body calls a procedure with that loop.
pub fn loop_image(alloc: Global) -> Result<Image, AllocError> {
    let mut image = no_image(alloc);
    add_module(alloc, &mut image, 0)?;
    add_call(alloc, &mut image)?;
    add_loop(alloc, &mut image)?;
    Ok(image)
}

// Frames of none, which the first procedure follows.
fn frames(alloc: Global) -> Result<Frames, AllocError> {
    let mut frames = Frames::new(alloc);
    frames.following.push(1)?;
    Ok(frames)
}

// How many turns of the module's activity are made, so many at most.
fn made(alloc: Global, times: u32) -> Result<u32, NoMemory> {
    let image = loop_image(alloc)?;
    let mut frames = frames(alloc)?;
    let (made, _) = private(alloc, &image, &mut frames, times, u64::MAX)?;
    Ok(made)
}

/// `TIMES`: how many turns are made, so many at most.
pub fn measured(alloc: Global, words: &mut Iter<String>) -> Result<u64, Stop> {
    let times = next_number(words)?;
    Ok(u64::from(made(alloc, times)?))
}
