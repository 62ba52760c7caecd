// The steps of a kernel in which one lock passes from activity to activity: each enters its module's region and leaves it, again
// and again, while so many others wait to enter.

use crate::image::{add_module, add_procedure, no_image};
use crate::stop::Stop;
use crate::words::next_number;
use aos_base::{Binary, Event, NoMemory, Relation, Width};
use aos_code::{Body, Image, Instr, Kind, TypeDesc};
use aos_kernel::{Kernel, MAX_BUDGET};
use std::alloc::{AllocError, Global};
use std::slice::Iter;
use std::sync::Arc;

// The most activities that wait: with the owner and the one that starts them all they are 1,002.
const MOST: u32 = 1_000;

// More steps than are made until all wait.
const FIRST_STEPS: u32 = 100_000;

// Adds a procedure that starts so many activities while it owns the lock, and ends.
fn add_first(alloc: Global, image: &mut Image, activities: u32) -> Result<(), AllocError> {
    let code = vec![in alloc;
        Instr::Enter,
        Instr::Begin(1, 1),
        Instr::Module(0, 0),
        Instr::Load(Kind::N),
        Instr::Num(activities as i64),
        Instr::Binary(Binary::Cmp(Relation::Less)),
        Instr::JumpFalse(17),
        Instr::Begin(1, 2),
        Instr::NewObject(1),
        Instr::Start,
        Instr::Module(0, 0),
        Instr::Module(0, 0),
        Instr::Load(Kind::N),
        Instr::Num(1),
        Instr::Binary(Binary::Add(Width::W32)),
        Instr::Store(Kind::N),
        Instr::Jump(1),
        Instr::Begin(1, 3),
        Instr::Leave,
        Instr::Return,
    ]?;
    add_procedure(alloc, image, false, 0, Body { code, depth: 3 })
}

// Adds a procedure that enters the module's region, begins a statement in it, and leaves it.
fn add_region(alloc: Global, image: &mut Image) -> Result<(), AllocError> {
    let code = vec![in alloc;
        Instr::Enter,
        Instr::Begin(2, 1),
        Instr::Leave,
        Instr::Return,
    ]?;
    add_procedure(alloc, image, false, 0, Body { code, depth: 0 })
}

// Adds a body of objects that calls that again and again.
fn add_loop(alloc: Global, image: &mut Image) -> Result<(), AllocError> {
    let code = vec![in alloc; Instr::Begin(3, 1), Instr::Call(2), Instr::Jump(0)]?;
    add_procedure(alloc, image, true, 0, Body { code, depth: 0 })
}

// Adds all that so many activities run.
fn add_all(alloc: Global, image: &mut Image, activities: u32) -> Result<(), AllocError> {
    add_module(alloc, image, 1)?;
    image.types.push(TypeDesc {
        base: 0,
        cells: 0,
        kinds: Vec::new(alloc),
        methods: Vec::new(alloc),
        init: 0,
        body: 3,
        active: true,
        priority: 2,
        safe: false,
    })?;
    add_first(alloc, image, activities)?;
    add_region(alloc, image)?;
    add_loop(alloc, image)
}

// The image that so many activities run.
fn image(alloc: Global, activities: u32) -> Result<Arc<Image>, AllocError> {
    let mut image = no_image(alloc);
    add_all(alloc, &mut image, activities)?;
    Ok(Arc::new(alloc, image)?)
}

// Whether the last step started this activity.
fn has_started(kernel: &Kernel, activity: u32) -> bool {
    matches!(kernel.events().first(), Some(Event::Start { activity: started }) if *started == activity)
}

// Whether the first activity ended in the last step.
fn has_ended(kernel: &Kernel) -> bool {
    matches!(kernel.events().first(), Some(Event::End { activity: 0 }))
}

fn step(kernel: &mut Kernel) -> Result<(), NoMemory> {
    if 0 < kernel.workers() && !kernel.is_lent(0) {
        kernel.step(0)?;
    }
    Ok(())
}

// Starts so many activities, which all come to wait, and then the first one of them owns the lock.
fn start(kernel: &mut Kernel, activities: u32) -> Result<(), NoMemory> {
    for _ in 0..FIRST_STEPS {
        step(kernel)?;
        if has_started(kernel, activities) && 0 < kernel.workers() && !kernel.is_lent(0) {
            kernel.tick(0)?;
        }
        if has_ended(kernel) {
            break;
        }
    }
    Ok(())
}

// Makes so many steps while so many activities pass the lock on.
fn pass_on(kernel: &mut Kernel, activities: u32, steps: u32) -> Result<(), NoMemory> {
    start(kernel, activities)?;
    for _ in 0..steps {
        step(kernel)?;
    }
    Ok(())
}

// How many activities wait.
fn count_waiting(alloc: Global, kernel: &Kernel) -> Result<u64, NoMemory> {
    Ok(kernel.waits(alloc)?.len() as u64)
}

// How many activities wait behind so many steps while so many wait.
fn waiting_behind(alloc: Global, waiting: u32, steps: u32) -> Result<u64, NoMemory> {
    let activities = waiting.min(MOST) + 1;
    let image = image(alloc, activities)?;
    let mut kernel = Kernel::new(alloc, image, 1, MAX_BUDGET)?;
    pass_on(&mut kernel, activities, steps)?;
    count_waiting(alloc, &kernel)
}

/// `WAITING STEPS`: how many activities wait behind so many steps while so many wait.
pub fn measured(alloc: Global, words: &mut Iter<String>) -> Result<u64, Stop> {
    let waiting = next_number(words)?;
    let steps = next_number(words)?;
    Ok(waiting_behind(alloc, waiting, steps)?)
}
