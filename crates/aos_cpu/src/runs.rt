// Turns in place, one behind another, over the memory as it is.
ghost use Rattle.std.specs.Prelude.{◌≡◌, ◌≤◌};
ghost use Rattle.aos_store.specs.Store.{memory_in};
ghost use Rattle.aos_silent_steps.specs.Room.{StayFit};
ghost use Rattle.aos_cpu.specs.Many.{HasRunMany};

use crate::in_place::run_top;
use aos_code::Image;
use aos_silent_steps::{code_of, keeps_of};
use aos_store::{Frames, Store};

/// Turns of the topmost frame that are made in place, so many at most, while fewer statements have begun than the budget: how many
/// have been made. They write nothing, leave nothing to the kernel and take no memory. Some silent work is done behind them.
pub fn many(image: &Image, frames: &mut Frames, store: &mut Store, most: u32, budget: u64) -> u32
    ensures made { HasRunMany image.now budget result (memory_in store.old)
        (memory_in store.new) frames.old frames.new }
    ensures most { result ≤ most }
    ensures turns { frames.new.turns ≡ frames.old.turns }
    ensures fit { StayFit image.now frames.old frames.new }
{
    let begun = frames.begun;
    let Ok(here) = u32::try_from(frames.count().saturating_sub(1)) else {
        return 0;
    };
    let Some(frame) = frames.list.last_mut() else {
        return 0;
    };
    let code = code_of(image, frame.procedure);
    let keeps = keeps_of(&image.shapes, frame.procedure);
    let (made, now) = run_top(image, code, keeps, here, frame, store, most, budget, begun);
    frames.begun = now;
    made
}
