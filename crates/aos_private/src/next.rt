// Whether the next turn is private.
ghost use Rattle.std.specs.Prelude.{◌≡◌, [], IfOk};
ghost use Rattle.aos_code.specs.Machine.{opened};
ghost use Rattle.aos_store.specs.Store.{list_in, frames_in, memory_in, SameCounts};
ghost use Rattle.aos_sound.specs.FitFrames.{IsSoundImage, FramesFit};
ghost use Rattle.aos_silent_steps.specs.Room.{AreRoomy, StayFit};
ghost use Rattle.aos_cpu.specs.Turns.{Alike, HasCome, StandsAtStop};
ghost use Rattle.aos_cpu.specs.Private.{no_memory, made_by, is_private};
ghost use Rattle.aos_private.specs.Answered.{TellsStop};

use crate::answered::is_answered;
use aos_base::NoMemory;
use aos_code::Image;
use aos_cpu::alone::is_own_stop;
use aos_cpu::turn::come_to_stop;
use aos_silent_steps::{Stop, silent_from};
use aos_store::{Frames, Heap, Store};
use std::alloc::Global;

/// The silent work of the topmost frame, for which there is room, up to where it ends, where there is no object that tells anything;
/// none where there is no frame, nor a body that is to be opened.
fn come_without(image: &Image, frames: &mut Frames, nothing: &Heap) -> Option<Stop>
    requires sound { IsSoundImage image.now }
    requires fit { FramesFit image.now (frames_in frames.old) }
    requires room { AreRoomy image.now frames.old }
    requires ready { opened (frames_in frames.old) ≡ frames_in frames.old }
    requires none { nothing.now ≡ [] }
    ensures stop { HasCome image.now (made_by []) result (frames_in frames.new) }
    ensures alike { Alike image.now (made_by []) (frames_in frames.old) (frames_in frames.new) }
    ensures counts { SameCounts frames.old frames.new }
    ensures fit { FramesFit image.now (frames_in frames.new) }
    ensures room { AreRoomy image.now frames.new }
    ensures ready { opened (frames_in frames.new) ≡ frames_in frames.new }
{
    let here = frames.count().saturating_sub(1);
    let Some(frame) = frames.list.last_mut() else {
        return None;
    };
    match silent_from(image, nothing, here, frame) {
        Ok(stop) => Some(stop),
        // there is room for all that it gives
        Err(_) => None,
    }
}

/// The silent work of the topmost frame, for which there is room, up to where it ends; none where there is no frame.
fn come_in_room(image: &Image, frames: &mut Frames) -> Option<Stop>
    requires sound { IsSoundImage image.now }
    requires fit { FramesFit image.now (frames_in frames.old) }
    requires room { AreRoomy image.now frames.old }
    requires ready { opened (frames_in frames.old) ≡ frames_in frames.old }
    ensures stop { HasCome image.now (made_by []) result (frames_in frames.new) }
    ensures alike { Alike image.now (made_by []) (frames_in frames.old) (frames_in frames.new) }
    ensures counts { SameCounts frames.old frames.new }
    ensures fit { FramesFit image.now (frames_in frames.new) }
    ensures room { AreRoomy image.now frames.new }
    ensures ready { opened (frames_in frames.new) ≡ frames_in frames.new }
{
    let heap = Heap::new(*frames.list.allocator());
    come_without(image, frames, &heap)
}

/// Whether no trap comes where silent work ends so, if that needs nothing but the activity's own frames.
fn goes_on(image: &Image, frames: &Frames, store: &Store, stop: Stop) -> bool
    ensures { TellsStop result image.now.shapes.items image.now.types.items stop frames.now
        (memory_in store.now) }
{
    match stop {
        Stop::Work(question, _) => is_answered(image, question, frames, store),
        Stop::Begins(_, _) => true,
        Stop::Fails(_, _) => false,
        Stop::Decides(_) => false,
    }
}

/// Whether a turn of frames is private, which stand where their silent work ends.
fn is_private_stop(image: &Image, frames: &Frames, store: &Store, stop: Stop) -> bool
    requires stands { StandsAtStop image.now (made_by []) stop (list_in frames.now.list.items) }
    requires memory { memory_in store.now ≡ no_memory }
    ensures { result ≡ is_private image.now (frames_in frames.now) }
{
    is_own_stop(image, frames, stop) && goes_on(image, frames, store, stop)
}

/// Whether the next turn is private: it needs nothing but the activity's own frames, and doesn't trap. Some silent work is done, and
/// no memory is taken. No body is to be opened before it, since that takes memory.
pub fn next_private(image: &Image, frames: &mut Frames) -> bool
    requires sound { IsSoundImage image.now }
    requires fit { FramesFit image.now (frames_in frames.old) }
    requires room { AreRoomy image.now frames.old }
    requires ready { opened (frames_in frames.old) ≡ frames_in frames.old }
    ensures is { result ≡ is_private image.now (frames_in frames.old) }
    ensures alike { Alike image.now (made_by []) (frames_in frames.old) (frames_in frames.new) }
    ensures counts { SameCounts frames.old frames.new }
    ensures fit { FramesFit image.now (frames_in frames.new) }
    ensures room { AreRoomy image.now frames.new }
    ensures ready { opened (frames_in frames.new) ≡ frames_in frames.new }
{
    match come_in_room(image, frames) {
        None => false,
        Some(stop) => {
            let alloc = *frames.list.allocator();
            let store = Store {
                modules: Vec::new(alloc),
                objects: Heap::new(alloc),
            };
            is_private_stop(image, frames, &store, stop)
        }
    }
}

/// Whether the next turn is private, of any frames over any image: it needs nothing but the activity's own frames, and doesn't
/// trap. Some silent work is done, and the room for it is taken; where memory runs out, silent work is all that has been done.
pub fn is_next_private(alloc: Global, image: &Image, frames: &mut Frames) -> Result<bool, NoMemory>
    ensures is { IfOk result (λ is. is ≡ is_private image.now (frames_in frames.new)) }
    ensures alike { Alike image.now (made_by []) (frames_in frames.old) (frames_in frames.new) }
    ensures counts { SameCounts frames.old frames.new }
    ensures fit { StayFit image.now frames.old frames.new }
{
    let store = Store {
        modules: Vec::new(alloc),
        objects: Heap::new(alloc),
    };
    match come_to_stop(alloc, image, &store.objects, frames)? {
        None => Ok(false),
        Some(stop) => Ok(is_private_stop(image, frames, &store, stop)),
    }
}
