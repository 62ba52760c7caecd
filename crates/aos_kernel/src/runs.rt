// Turns in place of an activity, one behind another, and their place in the log.
ghost use Rattle.std.specs.Prelude.{◌≡◌, ◌<◌, ◌≤◌, ◌+◌, ◌-◌, ◌++◌, ◌==◌, ◌&&◌, ℕ, List, Some, nat_le, replicate, vec_len, vec_capacity, All};
ghost use Rattle.aos_base.specs.declared.kernel.Event.{Event};
ghost use Rattle.aos_base.specs.declared.kernel.Outcome.TheVariants.{Going};
ghost use Rattle.aos_base.specs.Book.{outcome, on_worker};
ghost use Rattle.aos_base.specs.Machine.{Step, State};
ghost use Rattle.aos_base.specs.Schedule.{choices, IsEntry};
ghost use Rattle.aos_code.specs.Memory.{Memory};
ghost use Rattle.aos_code.specs.Machine.{Frames as FramesOf};
ghost use Rattle.aos_kernel.specs.Shows.{Shows, HasTurn};
ghost use Rattle.aos_kernel.specs.Steps.{GoesQuietly};

use crate::activity::{Next, next_of};
use crate::tables::{KernelTables, spent_after};
use aos_base::{MAX_STEPS, Sched};
use aos_code::Image;
use aos_cpu::many;

impl KernelTables {
    /// Turns in place of an activity, so many at most, one behind another: how many have been made; none, where it doesn't run. Each
    /// is a step of its worker. Behind them only silent work is done, and no memory is taken.
    pub fn run_on(&mut self, image: &Image, activity: u32, most: u32) -> u32
        requires { HasTurn activity self.old }
        ensures made { (w : ℕ) (earlier : List Event) (st : State Memory FramesOf) →
            Shows image.now earlier self.old st → outcome st.book ≡ Going →
            on_worker w st.book.line ≡ Some activity →
            GoesQuietly image.now earlier w result self.new st }
        ensures most { result ≤ most }
    {
        let Next::Runs = next_of(&self.activities, activity) else {
            return 0;
        };
        let budget = self.budget;
        let Some(kept) = self.activities.get_mut(activity as usize) else {
            return 0;
        };
        let before = kept.frames.begun();
        let made = many(image, &mut kept.frames, &mut self.store, most, budget);
        let begun = kept.frames.begun();
        self.spent = spent_after(self.spent, budget, before, begun, activity);
        made
    }
}

/// So many steps, or the most of an entry.
pub fn in_entry(count: u32) -> u32
    ensures fewer { result ≤ count }
    ensures most { result ≤ MAX_STEPS }
{
    if count < MAX_STEPS { count } else { MAX_STEPS }
}

/// Whether a run of so many steps of one worker has room for so many of another: they are one worker.
fn has_room(v: u32, k: u32, worker: u32, count: u32) -> bool
    requires { count ≤ MAX_STEPS }
    ensures { result ≡ (v == worker && nat_le k (MAX_STEPS - count)) }
{
    v == worker && k <= MAX_STEPS - count
}

/// So many more steps of a worker: they join the last entry where that is a run of the same worker with room for them.
pub fn add_steps(log: &mut Vec<Sched>, worker: u32, count: u32)
    requires room { vec_len log.old < vec_capacity log.old }
    requires some { 1 ≤ count }
    requires few { count ≤ MAX_STEPS }
    ensures choices { choices log.new.items ≡ choices log.old.items ++
        replicate count (Step worker) }
    ensures entries { (n : ℕ) → worker < n → All (IsEntry n) log.old.items →
        All (IsEntry n) log.new.items }
    ensures len { vec_len log.new ≤ vec_len log.old + 1 }
    ensures capacity { vec_capacity log.new ≡ vec_capacity log.old }
{
    match log.pop() {
        Some(Sched::Steps(v, k)) => {
            if has_room(v, k, worker, count) {
                log.push_reserved(Sched::Steps(v, k + count));
            } else {
                log.push_reserved(Sched::Steps(v, k));
                log.push_reserved(Sched::Steps(worker, count));
            }
        }
        Some(Sched::Tick(v)) => {
            log.push_reserved(Sched::Tick(v));
            log.push_reserved(Sched::Steps(worker, count));
        }
        None => log.push_reserved(Sched::Steps(worker, count)),
    }
}
