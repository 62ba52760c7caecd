// One turn of an activity: the silent work of its topmost frame, and the visible work that follows.
ghost use Rattle.std.specs.Prelude.{◌≡◌, ◌<◌, ◌+◌, ◌^◌, ℕ, List, [], ◌∷◌, Option, drop, reverse, true, IfOk, OnOk, OnErr};
ghost use Rattle.aos_base.specs.Rooted.{Made};
ghost use Rattle.aos_code.specs.Machine.{Frame as FrameOf, Frames as FramesOf, opened, past, is_passed, position as position_at, body_frame};
ghost use Rattle.aos_store.specs.Store.{frame_in, list_in, frames_in, memory_in, SameCounts};
ghost use Rattle.aos_store.specs.Room.{HasMoreRoom, KeepsRoom};
ghost use Rattle.aos_silent_steps.specs.Room.{AreRoomy, StayFit};
ghost use Rattle.aos_silent_steps.specs.Known.{known};
ghost use Rattle.aos_silent_steps.specs.declared.silent.Stop.TheVariants.{Work as AtWork};
ghost use Rattle.aos_cpu.specs.Answers.{begun_at};
ghost use Rattle.aos_cpu.specs.Turns.{where_in, counted, beginning as beginning_of, Alike, HasCome, StandsAtStop, StandsAtWork, operands_left, open_behind, IsTurned, IsBefore, Rests, WhereLeft};

use crate::answers::answer;
use crate::calls::depth_of;
use crate::in_place::{Tried, count, turn_in_place};
use aos_base::{Did, NoMemory, Pos};
use aos_code::Image;
use aos_found::finds;
use aos_silent_steps::{Question, Stop, home_of, keeps_of, silent_from, take};
use aos_store::{Frame, Frames, Heap, Store};
use std::alloc::Global;

/// Puts the frame with which a body of an object, or of a module where that is 0, begins above no others.
pub fn begin_body(
    alloc: Global,
    image: &Image,
    frames: &mut Frames,
    object: u32,
    procedure: u32,
) -> Result<(), NoMemory>
    requires { frames.old.list.items ≡ [] }
    ensures ok { OnOk result (frames_in frames.new ≡
        record {
          following = reverse frames.old.following.items;
          frames = body_frame object
              procedure ∷ [];
        }) }
    ensures err { OnErr result (frames_in frames.new ≡ frames_in frames.old) }
    ensures following { frames.new.following ≡ frames.old.following }
    ensures counts { SameCounts frames.old frames.new }
    ensures room { AreRoomy image.now frames.old → AreRoomy image.now frames.new }
{
    let keeps = keeps_of(&image.shapes, procedure);
    let depth = depth_of(image, procedure);
    match frames.grow(alloc, procedure, object, &[], 0, keeps, depth, 0) {
        Ok(()) => Ok(()),
        Err(_) => Err(NoMemory),
    }
}

/// Where there is no frame, the next body that is to follow begins.
pub fn open(alloc: Global, image: &Image, frames: &mut Frames) -> Result<(), NoMemory>
    ensures ok { OnOk result (frames_in frames.new ≡ opened (frames_in frames.old)) }
    ensures err { OnErr result (frames_in frames.new ≡ frames_in frames.old) }
    ensures counts { SameCounts frames.old frames.new }
    ensures room { AreRoomy image.now frames.old → AreRoomy image.now frames.new }
{
    if frames.count() > 0 {
        return Ok(());
    }
    let Some(procedure) = frames.following.last().copied() else {
        return Ok(());
    };
    begin_body(alloc, image, frames, 0, procedure)?;
    frames.following.pop();
    Ok(())
}

/// The silent work of the topmost frame, up to where it ends, where these objects were made; none where there is no frame, nor a body
/// that is to follow.
pub fn come_to_stop(
    alloc: Global,
    image: &Image,
    heap: &Heap,
    frames: &mut Frames,
) -> Result<Option<Stop>, NoMemory>
    ensures stop { IfOk result (λ stop.
        HasCome image.now (known heap.now) stop (frames_in frames.new)) }
    ensures alike { Alike image.now (known heap.now) (frames_in frames.old) (frames_in frames.new) }
    ensures counts { SameCounts frames.old frames.new }
    ensures fit { StayFit image.now frames.old frames.new }
{
    open(alloc, image, frames)?;
    let here = frames.count().saturating_sub(1);
    let Some(frame) = frames.list.last_mut() else {
        return Ok(None);
    };
    let stop = silent_from(image, heap, here, frame)?;
    Ok(Some(stop))
}

/// The topmost frame begins the statement of the instruction at this place.
fn begin_statement(frames: &mut Frames, at: usize, pos: Pos)
    requires { at + 1 < 2 ^ 64 }
    ensures frames { (f : FrameOf) (fs : List FrameOf) → list_in frames.old.list.items ≡ f ∷ fs →
        list_in frames.new.list.items ≡ begun_at at pos f ∷ fs }
    ensures following { frames.new.following ≡ frames.old.following }
    ensures begun { frames.new.begun ≡ counted true frames.old.begun }
    ensures turns { frames.new.turns ≡ frames.old.turns }
    ensures room { KeepsRoom frames.old frames.new }
{
    frames.begun = frames.begun.wrapping_add(1);
    if let Some(frame) = frames.list.last_mut() {
        frame.next = at + 1;
        frame.at = Some(pos);
    }
}

/// The question to which silent work comes is answered, where that finds what it needs; trap 16 where it doesn't.
fn work(
    alloc: Global,
    image: &Image,
    question: Question,
    at: usize,
    frames: &mut Frames,
    store: &mut Store,
    output: &mut Vec<u8>,
) -> Result<Did, NoMemory>
    requires place { at + 1 < 2 ^ 64 }
    requires stands { StandsAtStop image.now (known store.old.objects) (AtWork question at)
        (list_in frames.old.list.items) }
    ensures ok { IfOk result (λ did.
        IsTurned image.now did frames.old frames.new (memory_in store.old)
        (memory_in store.new) output.old.items output.new.items) }
    ensures before { IfOk result (λ did. IsBefore image.now did (frames_in frames.new)) }
    ensures left { IfOk result (λ did.
        WhereLeft did (Rests image.now frames.old frames.new (memory_in store.old)
        (memory_in store.new) output.old.items output.new.items)) }
    ensures err { OnErr result (Rests image.now frames.old frames.new (memory_in store.old)
        (memory_in store.new) output.old.items output.new.items) }
    ensures turns { frames.new.turns ≡ frames.old.turns }
    ensures fit { StayFit image.now frames.old frames.new }
{
    if finds(image, question, frames, store) {
        return answer(alloc, image, question, at, frames, store, output);
    }
    Ok(Did::Trapped(16, 0))
}

/// The visible work at which silent work ends, up to the kernel's part, which is told. What it takes is taken first: where memory runs
/// out, and where work is left to the kernel, nothing has changed.
pub(crate) fn finish(
    alloc: Global,
    image: &Image,
    stop: Stop,
    frames: &mut Frames,
    store: &mut Store,
    output: &mut Vec<u8>,
) -> Result<Did, NoMemory>
    requires { StandsAtStop image.now (known store.old.objects) stop
        (list_in frames.old.list.items) }
    ensures ok { IfOk result (λ did.
        IsTurned image.now did frames.old frames.new (memory_in store.old)
        (memory_in store.new) output.old.items output.new.items) }
    ensures before { IfOk result (λ did. IsBefore image.now did (frames_in frames.new)) }
    ensures left { IfOk result (λ did.
        WhereLeft did (Rests image.now frames.old frames.new (memory_in store.old)
        (memory_in store.new) output.old.items output.new.items)) }
    ensures err { OnErr result (Rests image.now frames.old frames.new (memory_in store.old)
        (memory_in store.new) output.old.items output.new.items) }
    ensures turns { frames.new.turns ≡ frames.old.turns }
    ensures fit { StayFit image.now frames.old frames.new }
{
    match stop {
        Stop::Work(question, at) => work(alloc, image, question, at, frames, store, output),
        Stop::Begins(at, pos) => {
            begin_statement(frames, at, pos);
            Ok(Did::Went)
        }
        Stop::Fails(number, code) => Ok(Did::Trapped(number, code)),
        Stop::Decides(_) => Ok(Did::Trapped(16, 0)),
    }
}

/// One turn, by the question or the end to which its silent work comes.
fn by_stop(
    alloc: Global,
    image: &Image,
    frames: &mut Frames,
    store: &mut Store,
    output: &mut Vec<u8>,
) -> Result<Did, NoMemory>
    ensures ok { IfOk result (λ did.
        IsTurned image.now did frames.old frames.new (memory_in store.old)
        (memory_in store.new) output.old.items output.new.items) }
    ensures before { IfOk result (λ did. IsBefore image.now did (frames_in frames.new)) }
    ensures left { IfOk result (λ did.
        WhereLeft did (Rests image.now frames.old frames.new (memory_in store.old)
        (memory_in store.new) output.old.items output.new.items)) }
    ensures err { OnErr result (Rests image.now frames.old frames.new (memory_in store.old)
        (memory_in store.new) output.old.items output.new.items) }
    ensures turns { frames.new.turns ≡ frames.old.turns }
    ensures fit { StayFit image.now frames.old frames.new }
{
    match come_to_stop(alloc, image, &store.objects, frames)? {
        None => Ok(Did::Ended),
        Some(stop) => finish(alloc, image, stop, frames, store, output),
    }
}

/// One turn, up to the kernel's part, which is told. What it needs is taken behind the silent work; where memory runs out, only silent
/// work has been done. Where it leaves work to the kernel, the topmost frame stands before that instruction still.
pub fn shared(
    alloc: Global,
    image: &Image,
    frames: &mut Frames,
    store: &mut Store,
    output: &mut Vec<u8>,
) -> Result<Did, NoMemory>
    ensures ok { IfOk result (λ did.
        IsTurned image.now did frames.old frames.new (memory_in store.old)
        (memory_in store.new) output.old.items output.new.items) }
    ensures before { IfOk result (λ did. IsBefore image.now did (frames_in frames.new)) }
    ensures left { IfOk result (λ did.
        WhereLeft did (Rests image.now frames.old frames.new (memory_in store.old)
        (memory_in store.new) output.old.items output.new.items)) }
    ensures err { OnErr result (Rests image.now frames.old frames.new (memory_in store.old)
        (memory_in store.new) output.old.items output.new.items) }
    ensures turns { frames.new.turns ≡ frames.old.turns }
    ensures fit { StayFit image.now frames.old frames.new }
{
    match turn_in_place(image, frames, store) {
        Tried::Nothing => by_stop(alloc, image, frames, store, output),
        Tried::Asks(question, at) => work(alloc, image, question, at, frames, store, output),
        Tried::Turned(begins) => {
            frames.begun = count(begins, frames.begun);
            Ok(Did::Went)
        }
    }
}

/// The operands of the kernel's work go, and the frame's region is open behind Enter, and closed behind Leave.
fn close_work(frame: &mut Frame, left: Did)
    ensures work { frame_in frame.new ≡ record (frame_in frame.old) {
      is_open = open_behind left (frame_in frame.old).is_open;
      stack = drop (operands_left left) (frame_in frame.old).stack;
    } }
    ensures room { HasMoreRoom frame.old frame.new }
{
    match left {
        Did::Start(_) => take(&mut frame.operands, 1),
        Did::Enter(_) => frame.is_open = true,
        Did::Leave(_) => frame.is_open = false,
        _ => {}
    }
}

/// Past work that was left to the kernel, which has done it.
pub fn pass(frames: &mut Frames, left: Did)
    ensures past { (image : Image) (made : ℕ → Option Made) (fs : FramesOf) →
        is_passed left ≡ true →
        IsBefore image left (frames_in frames.old) → StandsAtWork image left fs.frames →
        Alike image made fs (frames_in frames.old) →
        Alike image made (past image fs) (frames_in frames.new) }
    ensures counts { SameCounts frames.old frames.new }
    ensures fit { (image : Image) → is_passed left ≡ true →
        IsBefore image left (frames_in frames.old) →
        StayFit image frames.old frames.new }
{
    if let Some(frame) = frames.list.last_mut() {
        close_work(frame, left);
        frame.next = frame.next.saturating_add(1);
    }
}

/// The module of the body with which the activity began, or of the next body that is to follow, and no place in it.
#[tactic(auto, using(crate::proofs::Turns::lowest_read))]
fn beginning(image: &Image, frames: &Frames) -> (u32, Pos)
    ensures { where_in result ≡ beginning_of image.now (frames_in frames.now) }
{
    if let Some(lowest) = frames.list.first() {
        return (home_of(image, lowest.procedure), Pos { line: 0, col: 0 });
    }
    match frames.following.last().copied() {
        None => (0, Pos { line: 0, col: 0 }),
        Some(procedure) => (home_of(image, procedure), Pos { line: 0, col: 0 }),
    }
}

/// Where the topmost frame that has begun a statement stands: the module's number, and the place. Where none has, the activity stands
/// at its beginning.
pub fn position(image: &Image, frames: &Frames) -> (u32, Pos)
    ensures { (made : ℕ → Option Made) (fs : FramesOf) →
        Alike image.now made fs (frames_in frames.now) →
        position_at image.now fs ≡ where_in result }
{
    let mut found = beginning(image, frames);
    for frame in frames.list.as_slice() {
        if let Some(pos) = frame.at {
            found = (home_of(image, frame.procedure), pos);
        }
    }
    found
}
