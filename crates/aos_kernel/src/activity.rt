// The activities by their numbers.
ghost use Rattle.std.specs.Prelude.{◌≡◌, ◌≤◌, ◌^◌, ℕ, [], Option, Some, IfOk, OnOk, OnErr, Vec, length, map, nat_lt, reverse, slice_get, slice_set};
ghost use Rattle.std.specs.declared.alloc.Global.{Global};
ghost use Rattle.aos_base.specs.declared.kernel.LockName.{LockName};
ghost use Rattle.aos_base.specs.Rooted.{Made as MadeAs};
ghost use Rattle.aos_code.specs.Machine.{Frames as FramesOf, bodies, body_frame, body_of, level, position, priority_of as priority_in, regions_of};
ghost use Rattle.aos_store.specs.declared.frames.Frames.{Frames as KeptFrames};
ghost use Rattle.aos_store.specs.Store.{frames_in, memory_in};
ghost use Rattle.aos_silent_steps.specs.Room.{AreRoomy};
ghost use Rattle.aos_cpu.specs.Turns.{where_in, Alike};
ghost use Rattle.aos_kernel.specs.Shows.{IsPopped, IsEmptied};

use aos_base::{LockName, NoMemory, Pos, Priority};
use aos_code::Image;
use aos_cpu::{begin_body, numbered, position as position_of};
use aos_store::{Frames, Store};
use aos_trap::unwind;
use std::alloc::Global;

/// What an activity's next turn is: its own, its own on frames that are lent, a trap that is due, what follows a trap, or none
/// once it has ended.
#[derive(Clone, Copy)]
pub enum Next {
    Runs,
    Lent,
    WillTrap(u8),
    Unwinds,
    Gone,
}

/// An activity: its priority, its next turn, the condition that it awaited last, the locks that it is still to release after a trap,
/// the next one last, and its frames, with the statements that it has begun.
#[derive(Drop)]
pub struct Activity {
    pub priority: Priority,
    pub next: Next,
    pub condition: u32,
    pub locks: Vec<LockName>,
    pub frames: Frames,
}

/// An activity's priority.
pub fn priority_of(activities: &[Activity], activity: u32) -> Priority
    ensures { (kept : Activity) → slice_get activities.now activity ≡ Some kept →
        result ≡ kept.priority }
{
    match activities.get(activity as usize) {
        Some(kept) => kept.priority,
        None => Priority::Normal,
    }
}

/// An activity's next turn.
pub fn next_of(activities: &[Activity], activity: u32) -> Next
    ensures { (kept : Activity) → slice_get activities.now activity ≡ Some kept →
        result ≡ kept.next }
{
    match activities.get(activity as usize) {
        Some(kept) => kept.next,
        None => Next::Gone,
    }
}

/// Where an activity stands in the text.
pub fn place_of(image: &Image, activities: &[Activity], activity: u32) -> (u32, Pos)
    ensures { (made : ℕ → Option MadeAs) (kept : Activity) (fs : FramesOf) →
        slice_get activities.now activity ≡ Some kept →
        Alike image.now made fs (frames_in kept.frames) → position image.now fs ≡ where_in result }
{
    match activities.get(activity as usize) {
        Some(kept) => position_of(image, &kept.frames),
        None => (0, Pos { line: 0, col: 0 }),
    }
}

/// The locks of an activity's open regions, the one entered first before the others.
pub fn locks_of(
    alloc: Global,
    image: &Image,
    activities: &[Activity],
    activity: u32,
) -> Result<Vec<LockName>, NoMemory>
    ensures { (made : ℕ → Option MadeAs) (kept : Activity) (fs : FramesOf) →
        slice_get activities.now activity ≡ Some kept →
        Alike image.now made fs (frames_in kept.frames) →
        IfOk result (λ locks. reverse locks.items ≡ regions_of image.now fs.frames) }
{
    match activities.get(activity as usize) {
        Some(kept) => {
            let mut locks = unwind(alloc, image, &kept.frames)?;
            locks.reverse();
            Ok(locks)
        }
        None => Ok(Vec::new(alloc)),
    }
}

/// The procedure that is the body of an object, 0 for none.
fn body_of_object(image: &Image, store: &Store, object: u32) -> u32
    ensures { body_of image.now (memory_in store.now) object ≡
        record { following = []; frames = map (body_frame object) (bodies result) } }
{
    match store.type_of(object) {
        None => 0,
        Some(of) => match numbered(&image.types, of) {
            None => 0,
            Some(desc) => desc.body,
        },
    }
}

/// The frames with which an object's activity begins.
pub fn frames_of_object(
    alloc: Global,
    image: &Image,
    store: &Store,
    object: u32,
) -> Result<Frames, NoMemory>
    ensures frames { IfOk result
        (λ frames. frames_in frames ≡ body_of image.now (memory_in store.now) object) }
    ensures begun { IfOk result (λ frames. frames.begun ≡ 0) }
    ensures room { IfOk result (λ frames. AreRoomy image.now frames) }
{
    let mut frames = Frames::new(alloc);
    let body = body_of_object(image, store, object);
    if body != 0 {
        begin_body(alloc, image, &mut frames, object, body)?;
    }
    Ok(frames)
}

/// The priority that a type's description names by a number; the normal one where the number is no priority's.
fn priority_with(number: u8) -> Priority
    ensures { result ≡ level number }
{
    Priority::with_number(u32::from(number)).unwrap_or(Priority::Normal)
}

/// The priority of an object's activities.
pub fn priority_of_object(image: &Image, store: &Store, object: u32) -> Priority
    ensures { result ≡ priority_in image.now (memory_in store.now) object }
{
    match store.type_of(object) {
        None => Priority::Normal,
        Some(of) => match numbered(&image.types, of) {
            None => Priority::Normal,
            Some(desc) => priority_with(desc.priority),
        },
    }
}

/// An activity has trapped: these locks are to be released.
pub fn set_unwinds(activities: &mut Vec<Activity>, activity: u32, locks: Vec<LockName>)
    ensures { (kept : Activity) → slice_get activities.old.items activity ≡ Some kept →
        activities.new.items ≡
        slice_set activities.old.items activity
        (record kept { next = Next.Unwinds; locks = locks }) }
{
    if let Some(kept) = activities.get_mut(activity as usize) {
        kept.next = Next::Unwinds;
        kept.locks = locks;
    }
}

/// The next lock that an activity is to release after a trap; None where none is left.
pub fn pop_lock(activities: &mut Vec<Activity>, activity: u32) -> Option<LockName>
    ensures { (kept : Activity) → slice_get activities.old.items activity ≡ Some kept →
        (rest : Vec LockName Global) × (IsPopped result kept.locks.items rest.items) ×
        (activities.new.items ≡
        slice_set activities.old.items activity (record kept { locks = rest })) }
{
    match activities.get_mut(activity as usize) {
        Some(kept) => kept.locks.pop(),
        None => None,
    }
}

/// An activity has ended, and its frames are dropped.
pub fn drop_frames(alloc: Global, activities: &mut Vec<Activity>, activity: u32)
    ensures { (kept : Activity) → slice_get activities.old.items activity ≡ Some kept →
        (frames : KeptFrames) × (IsEmptied kept.frames frames) ×
        (activities.new.items ≡
        slice_set activities.old.items activity
        (record kept { next = Next.Gone; frames = frames })) }
{
    if let Some(kept) = activities.get_mut(activity as usize) {
        kept.next = Next::Gone;
        kept.frames.list = Vec::new(alloc);
        kept.frames.following = Vec::new(alloc);
    }
}

/// The condition that an activity awaited last.
pub fn condition_of(activities: &[Activity], activity: u32) -> u32
    ensures { (kept : Activity) → slice_get activities.now activity ≡ Some kept →
        result ≡ kept.condition }
{
    match activities.get(activity as usize) {
        Some(kept) => kept.condition,
        None => 0,
    }
}

/// The most frames over which a condition is evaluated.
pub const MOST_FRAMES: usize = 0x1_0000_0000;

/// Whether an activity has more frames than a condition is evaluated over.
fn has_many_frames(activities: &[Activity], activity: u32) -> bool
    ensures { (kept : Activity) → slice_get activities.now activity ≡ Some kept →
        result ≡ nat_lt (2 ^ 32) (length kept.frames.list.items) }
{
    match activities.get(activity as usize) {
        Some(kept) => kept.frames.count() > MOST_FRAMES,
        None => false,
    }
}

/// An activity awaits this condition. Where it has more frames than one is evaluated over, nothing changes.
pub fn set_condition(
    activities: &mut Vec<Activity>,
    activity: u32,
    condition: u32,
) -> Result<(), NoMemory>
    ensures set { (kept : Activity) → slice_get activities.old.items activity ≡ Some kept →
        OnOk result ((length kept.frames.list.items ≤ 2 ^ 32) ×
        (activities.new.items ≡
        slice_set activities.old.items activity (record kept { condition = condition }))) }
    ensures err { OnErr result (activities.new ≡ activities.old) }
{
    if has_many_frames(activities, activity) {
        return Err(NoMemory);
    }
    match activities.get_mut(activity as usize) {
        None => Err(NoMemory),
        Some(kept) => {
            kept.condition = condition;
            Ok(())
        }
    }
}

/// A trap of this number is an activity's next turn.
pub fn set_will_trap(activities: &mut Vec<Activity>, activity: u32, number: u8)
    ensures { (kept : Activity) → slice_get activities.old.items activity ≡ Some kept →
        activities.new.items ≡
        slice_set activities.old.items activity (record kept { next = Next.WillTrap number }) }
{
    if let Some(kept) = activities.get_mut(activity as usize) {
        kept.next = Next::WillTrap(number);
    }
}
