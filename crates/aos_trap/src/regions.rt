// The locks of the open regions of an activity's frames.
ghost use Rattle.std.specs.Prelude.{◌≡◌, [], ◌∷◌, ◌++◌, IfOk};
ghost use Rattle.aos_code.specs.Machine.{regions_of};
ghost use Rattle.aos_store.specs.Store.{frame_in, list_in};

use aos_base::{LockName, NoMemory};
use aos_code::Image;
use aos_store::{Frame, Frames};
use std::alloc::Global;

/// The lock of a frame joins others, where the frame's region is open.
fn add_region(locks: &mut Vec<LockName>, image: &Image, frame: &Frame) -> Result<(), NoMemory>
    ensures { IfOk result (λ _.
        locks.new.items ≡ locks.old.items ++ regions_of image.now (frame_in frame.now ∷ [])) }
{
    if frame.is_open {
        locks.reserve(1)?;
        locks.push_reserved(frame.lock(&image.shapes));
    }
    Ok(())
}

/// The locks of the open regions, the latest entered first: those that are to be released, in this order, once the activity has
/// trapped.
pub fn unwind(alloc: Global, image: &Image, frames: &Frames) -> Result<Vec<LockName>, NoMemory>
    ensures { IfOk result (λ locks.
        locks.items ≡ regions_of image.now (list_in frames.now.list.items)) }
{
    let mut locks = Vec::new(alloc);
    let mut left = frames.list.len();
    while 0 < left {
        left -= 1;
        add_region(&mut locks, image, &frames.list[left])?;
    }
    Ok(locks)
}
