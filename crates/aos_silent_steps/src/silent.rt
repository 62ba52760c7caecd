// The silent work of a frame, up to where it ends.
ghost use Rattle.std.specs.Prelude.{◌≡◌, ◌<◌, ◌^◌, ℕ, true, Option, IfOk, IsOk};
ghost use Rattle.std.specs.List.{list_all};
ghost use Rattle.aos_base.specs.Rooted.{Made};
ghost use Rattle.aos_code.specs.Numbered.{numbered as numbered_of};
ghost use Rattle.aos_code.specs.Silent.{keeps_in};
ghost use Rattle.aos_code.specs.Machine.{code_of as code_at, may_evaluate};
ghost use Rattle.aos_store.specs.Store.{frame_in};
ghost use Rattle.aos_store.specs.Room.{HasMoreRoom};
ghost use Rattle.aos_sound.specs.Fits.{KeepsToPaths};
ghost use Rattle.aos_silent_steps.specs.Known.{known, Knows};
ghost use Rattle.aos_silent_steps.specs.Silent.{stop_in, silent_at, seen_at, silent_with, seen_with, IsStopOf};
ghost use Rattle.aos_silent_steps.specs.Room.{StandsInRoom};
ghost use Rattle.aos_silent_steps.specs.Conditions.{HasRoomFor, AsksInRoom, HasMoved};

use crate::act::{Act, Question};
use crate::image::{code_of, numbered};
use crate::instruction::do_one;
use aos_base::{NoMemory, Pos};
use aos_code::{Image, Instr, ProcShape};
use aos_store::{Frame, Heap};

/// Where silent work ends: at a question or at a Begin, with its place in the code, with a trap, or at the end of a condition, with its
/// number. The question's operands lie on the stack still.
#[derive(Clone, Copy)]
pub enum Stop {
    Work(Question, usize),
    Begins(usize, Pos),
    Fails(u8, u8),
    Decides(i64),
}

/// In how many cells the frames of a procedure keep values.
pub fn keeps_of(shapes: &[ProcShape], procedure: u32) -> u32
    ensures { result ≡ keeps_in (numbered_of shapes.now procedure) }
{
    match numbered(shapes, procedure) {
        None => 0,
        Some(shape) => shape.keeps,
    }
}

/// The silent work of a frame of this code above so many others, which keeps values under so many numbers, where these objects
/// were made. A condition for which there is room takes no memory, and only moves the frame.
fn walk_from(
    image: &Image,
    heap: &Heap,
    code: &[Instr],
    keeps: u32,
    here: u32,
    frame: &mut Frame,
) -> Result<Stop, NoMemory>
    requires keeps { keeps ≡ keeps_in (numbered_of image.now.shapes.items frame.old.procedure) }
    ensures stop { IfOk result (λ stop.
        stop_in stop (frame_in frame.new) ≡ silent_with image.now code.now (known heap.now) here
        (frame_in frame.old)) }
    ensures place { IfOk result (λ stop. IsStopOf stop (frame_in frame.new)) }
    ensures alike { (all : ℕ → Option Made) → Knows all (known heap.now) →
        seen_with image.now code.now all here (frame_in frame.new) ≡
        seen_with image.now code.now all here (frame_in frame.old) }
    ensures room { (depth : ℕ) → KeepsToPaths image.now frame.old.procedure code.now depth →
        StandsInRoom image.now depth keeps code.now frame.old →
        IsOk result × StandsInRoom image.now depth keeps code.now frame.new }
    ensures more { HasMoreRoom frame.old frame.new }
    ensures moves { list_all may_evaluate code.now ≡ true → HasRoomFor code.now frame.old →
        IsOk result × HasMoved (frame_in frame.old) (frame_in frame.new) }
    ensures asks { list_all may_evaluate code.now ≡ true → HasRoomFor code.now frame.old →
        IfOk result (λ stop. AsksInRoom stop code.now frame.new) }
{
    while frame.next < code.len() {
        let at = frame.next;
        match do_one(code[at], image, heap, keeps, here, code, at, frame)? {
            Act::Goes(over) => frame.next = (at + 1).saturating_add(over),
            Act::Sees(question) => return Ok(Stop::Work(question, at)),
            Act::Begins(to, pos) => {
                frame.next = to;
                return Ok(Stop::Begins(to, pos));
            }
            Act::Fails(number, code) => return Ok(Stop::Fails(number, code)),
            Act::Decides(value) => return Ok(Stop::Decides(value)),
        }
    }
    Ok(Stop::Fails(16, 0))
}

/// The silent work of a frame above so many others, up to where it ends, where these objects were made. Where memory runs out, some
/// of it has been done. It is seen as before also where more objects are made.
pub fn silent_from(
    image: &Image,
    heap: &Heap,
    here: usize,
    frame: &mut Frame,
) -> Result<Stop, NoMemory>
    ensures stop { IfOk result (λ stop.
        stop_in stop (frame_in frame.new) ≡
        silent_at image.now (known heap.now) here (frame_in frame.old)) }
    ensures place { IfOk result (λ stop. IsStopOf stop (frame_in frame.new)) }
    ensures alike { (all : ℕ → Option Made) → Knows all (known heap.now) →
        seen_at image.now all here (frame_in frame.new) ≡
        seen_at image.now all here (frame_in frame.old) }
    ensures room { (depth : ℕ) →
        KeepsToPaths image.now frame.old.procedure (code_at image.now frame.old.procedure) depth →
        here < 2 ^ 32 →
        StandsInRoom image.now depth
        (keeps_in (numbered_of image.now.shapes.items frame.old.procedure))
        (code_at image.now frame.old.procedure) frame.old →
        IsOk result ×
        StandsInRoom image.now depth
        (keeps_in (numbered_of image.now.shapes.items frame.old.procedure))
        (code_at image.now frame.old.procedure) frame.new }
{
    let Ok(above) = u32::try_from(here) else {
        return Err(NoMemory);
    };
    walk_from(
        image,
        heap,
        code_of(image, frame.procedure),
        keeps_of(&image.shapes, frame.procedure),
        above,
        frame,
    )
}

/// The silent work of a frame above so many others in a condition of this code, where these objects were made. It takes no memory.
pub fn silent_condition(
    image: &Image,
    heap: &Heap,
    code: &[Instr],
    here: usize,
    frame: &mut Frame,
) -> Stop
    requires evaluates { list_all may_evaluate code.now ≡ true }
    requires few { here < 2 ^ 32 }
    requires room { HasRoomFor code.now frame.old }
    ensures stop { stop_in result (frame_in frame.new) ≡
        silent_with image.now code.now (known heap.now) here (frame_in frame.old) }
    ensures place { IsStopOf result (frame_in frame.new) }
    ensures moves { HasMoved (frame_in frame.old) (frame_in frame.new) }
    ensures asks { AsksInRoom result code.now frame.new }
    ensures more { HasMoreRoom frame.old frame.new }
{
    let keeps = keeps_of(&image.shapes, frame.procedure);
    match walk_from(image, heap, code, keeps, here as u32, frame) {
        Ok(stop) => stop,
        Err(_) => Stop::Fails(16, 0),
    }
}
