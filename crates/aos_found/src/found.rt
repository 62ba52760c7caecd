// What the work of a question needs to find.
ghost use Rattle.std.specs.Prelude.{◌≡◌, ◌∷◌, List};
ghost use Rattle.aos_code.specs.declared.instr.Cell.TheVariants.{Ref};
ghost use Rattle.aos_code.specs.Numbered.{numbered as numbered_of};
ghost use Rattle.aos_code.specs.Machine.{Frame as FrameOf, has_active_body as has_active_body_of, is_startable as is_startable_of, finds as finds_of};
ghost use Rattle.aos_silent_steps.specs.Acts.{question_in};
ghost use Rattle.aos_store.specs.Store.{list_in, memory_in};

use aos_code::{Image, TypeDesc};
use aos_silent_steps::{Question, numbered};
use aos_store::{Frames, Store};

/// Whether the type of this number has an active body.
fn has_active_body(types: &[TypeDesc], number: u32) -> bool
    ensures { result ≡ has_active_body_of (numbered_of types.now number) }
{
    match numbered(types, number) {
        None => false,
        Some(desc) => desc.active && desc.body > 0,
    }
}

/// Whether the activity of the object of this number may start.
fn is_startable(image: &Image, store: &Store, object: u32) -> bool
    ensures { result ≡ is_startable_of image.now.types.items (Ref object) (memory_in store.now) }
{
    match store.type_of(object) {
        None => false,
        Some(number) => has_active_body(&image.types, number),
    }
}

/// Whether the topmost frame's region is open.
pub fn is_top_open(frames: &Frames) -> bool
    ensures { (f : FrameOf) (fs : List FrameOf) → list_in frames.now.list.items ≡ f ∷ fs →
        result ≡ f.is_open }
{
    match frames.list.last() {
        None => false,
        Some(frame) => frame.is_open,
    }
}

/// Whether the work of a question finds what it needs: the end of a region, and AWAIT, an open region of the topmost frame, and the end
/// of the frame none; the start of an activity an object whose type has an active body.
pub fn finds(image: &Image, question: Question, frames: &Frames, store: &Store) -> bool
    ensures { (f : FrameOf) (fs : List FrameOf) → list_in frames.now.list.items ≡ f ∷ fs →
        result ≡ finds_of image.now.types.items (question_in question f.stack) f
        (memory_in store.now) }
{
    match question {
        Question::Ends(_) => !is_top_open(frames),
        Question::Starts(object) => is_startable(image, store, object),
        Question::Leaves => is_top_open(frames),
        Question::Awaits(_) => is_top_open(frames),
        _ => true,
    }
}
