// What an image has under a number.
ghost use Rattle.std.specs.Prelude.{◌≡◌, true, Some};
ghost use Rattle.std.specs.List.{list_all};
ghost use Rattle.std.specs.Option.{option_copied};
ghost use Rattle.aos_code.specs.Numbered.{numbered as numbered_of};
ghost use Rattle.aos_code.specs.Machine.{code_of as code_at, condition_in, condition_of as condition_at, home_of as home_at, may_evaluate as may_evaluate_in};

use aos_code::{Body, Image, Instr};

/// The item of this number, counted from 1, where there is one.
pub fn numbered<T>(items: &[T], number: u32) -> Option<&T>
    ensures { option_copied result ≡ numbered_of items.now number }
{
    items.get(number.checked_sub(1)? as usize)
}

/// The code of a procedure; none where there is no such procedure.
pub fn code_of(image: &Image, procedure: u32) -> &[Instr]
    ensures { result.now ≡ code_at image.now procedure }
{
    match numbered(&image.bodies, procedure) {
        None => &[],
        Some(body) => body.code.as_slice(),
    }
}

/// Whether an instruction may stand in a condition.
fn may_evaluate(instr: &Instr) -> bool
    ensures { result ≡ may_evaluate_in instr.now }
{
    match *instr {
        Instr::Keep(_, _)
        | Instr::Assert(_)
        | Instr::Halt(_)
        | Instr::Begin(_, _)
        | Instr::Store(_)
        | Instr::Copy(_)
        | Instr::PutText(_)
        | Instr::Call(_)
        | Instr::Virtual(_, _)
        | Instr::CallValue(_)
        | Instr::NewObject(_)
        | Instr::NewArray(_, _)
        | Instr::Start
        | Instr::Enter
        | Instr::Leave
        | Instr::Await(_)
        | Instr::Return
        | Instr::OutChar
        | Instr::OutInt
        | Instr::OutString
        | Instr::OutLn
        | Instr::OutOpen => false,
        _ => true,
    }
}

/// Whether each instruction of this code may stand in a condition.
fn is_evaluable(code: &[Instr]) -> bool
    ensures { result ≡ list_all may_evaluate_in code.now }
{
    code.iter().all(|instr| may_evaluate(instr))
}

/// The code of a condition's body; none where something stands in it that may not.
fn evaluable_code(body: &Body) -> &[Instr]
    ensures code { result.now ≡ condition_in (Some body.now) }
    ensures evaluates { list_all may_evaluate_in result.now ≡ true }
{
    if is_evaluable(&body.code) {
        body.code.as_slice()
    } else {
        &[]
    }
}

/// The code of a condition; none where there is no such condition, or something stands there that may not.
pub fn condition_of(image: &Image, condition: u32) -> &[Instr]
    ensures code { result.now ≡ condition_at image.now condition }
    ensures evaluates { list_all may_evaluate_in result.now ≡ true }
{
    match image.conds.get(condition as usize) {
        None => &[],
        Some(body) => evaluable_code(body),
    }
}

/// The number of the module in which a procedure stands.
pub fn home_of(image: &Image, procedure: u32) -> u32
    ensures { result ≡ home_at image.now procedure }
{
    match numbered(&image.shapes, procedure) {
        None => 0,
        Some(shape) => shape.module,
    }
}
