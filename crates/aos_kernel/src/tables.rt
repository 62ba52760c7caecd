// What the kernel keeps of a run: reading it, making room, and the changes of place.
ghost use Rattle.std.specs.Prelude.{◌≡◌, ◌<◌, ◌+◌, List, None, nat_le, nat_lt, ◌||◌, vec_len, vec_capacity, OnOk, IfSome, IsNone};
ghost use Rattle.aos_base.specs.declared.kernel.Event.{Event};
ghost use Rattle.aos_base.specs.Book.{outcome, on_worker, first_ready, spent_by, stands, ready, ended, On};
ghost use Rattle.aos_base.specs.Machine.{State, on_book};
ghost use Rattle.aos_code.specs.declared.image.Image.{Image};
ghost use Rattle.aos_code.specs.Memory.{Memory};
ghost use Rattle.aos_code.specs.Machine.{Frames as FramesOf};
ghost use Rattle.aos_scheduler.specs.Stands.{IsStood, running_of, started_of, HasRoomMore};
ghost use Rattle.aos_kernel.specs.Shows.{Shows, Performs, ShowsSame, HasSame, HasTurn};

use crate::activity::{Activity, drop_frames, priority_of};
use aos_base::{Event, MOST_LIVE, MOST_STARTED, NoMemory, Outcome};
use aos_code::{Cell, TrapRec};
use aos_scheduler::Line;
use aos_store::Store;
use std::alloc::Global;

/// What all share, the activities by their numbers, who stands where, and what has happened: the output, the traps, and the
/// events of the last step or tick; and a stack for evaluating conditions.
#[derive(Drop)]
pub struct KernelTables {
    pub alloc: Global,
    pub store: Store,
    pub activities: Vec<Activity>,
    pub line: Line,
    pub output: Vec<u8>,
    pub traps: Vec<TrapRec>,
    pub events: Vec<Event>,
    pub budget: u64,
    pub spent: Option<u32>,
    pub stack: Vec<Cell>,
}

/// Who has reached the budget, after a turn in which an activity's count of statements has gone from one number to another.
pub fn spent_after(
    spent: Option<u32>,
    budget: u64,
    before: u64,
    begun: u64,
    activity: u32,
) -> Option<u32>
    ensures { result ≡ spent_by (nat_lt before begun) budget begun activity spent }
{
    if before < begun && budget <= begun {
        Some(activity)
    } else {
        spent
    }
}

/// Whether there is no room for one activity more.
pub fn is_full_with(live: usize, started: usize) -> bool
    ensures { result ≡ (nat_le MOST_LIVE live || nat_le MOST_STARTED started) }
{
    MOST_LIVE <= live || MOST_STARTED <= started
}

impl KernelTables {
    /// How far the execution is.
    pub fn outcome(&self) -> Outcome
        ensures { (image : Image) (earlier : List Event) (st : State Memory FramesOf) →
            Shows image earlier self.now st → result ≡ outcome st.book }
    {
        self.line.outcome(self.spent)
    }

    /// The activity on a worker.
    pub fn on(&self, worker: u32) -> Option<u32>
        ensures running { result ≡ running_of self.now.line worker }
        ensures on { (image : Image) (earlier : List Event) (st : State Memory FramesOf) →
            Shows image earlier self.now st → result ≡ on_worker worker st.book.line }
    {
        self.line.on(worker)
    }

    // Room -----------------------------------------------------------------------------------

    /// Takes the room for an event.
    pub fn reserve_event(&mut self) -> Result<(), NoMemory>
        ensures room { OnOk result (vec_len self.new.events < vec_capacity self.new.events) }
        ensures same { HasSame self.old self.new }
    {
        self.events.reserve(1)?;
        Ok(())
    }

    /// Takes the room for two events.
    pub fn reserve_pair(&mut self) -> Result<(), NoMemory>
        ensures room { OnOk result (vec_len self.new.events + 1 < vec_capacity self.new.events) }
        ensures same { HasSame self.old self.new }
    {
        self.events.reserve(2)?;
        Ok(())
    }

    /// Takes the room for the record of a trap, and for its event.
    pub fn reserve_trap(&mut self) -> Result<(), NoMemory>
        ensures events { OnOk result (vec_len self.new.events < vec_capacity self.new.events) }
        ensures traps { OnOk result (vec_len self.new.traps < vec_capacity self.new.traps) }
        ensures same { HasSame self.old self.new }
    {
        self.events.reserve(1)?;
        self.traps.reserve(1)?;
        Ok(())
    }

    /// Takes the room for a new activity, for its place, and for its event.
    pub fn reserve_activity(&mut self) -> Result<(), NoMemory>
        requires { started_of self.old.line < MOST_STARTED }
        ensures events { OnOk result (vec_len self.new.events < vec_capacity self.new.events) }
        ensures line { OnOk result (HasRoomMore self.new.line) }
        ensures activities { OnOk result
            (vec_len self.new.activities < vec_capacity self.new.activities) }
        ensures same { HasSame self.old self.new }
    {
        self.events.reserve(1)?;
        self.activities.reserve(1)?;
        self.line.reserve()?;
        Ok(())
    }

    // Places ---------------------------------------------------------------------------------

    /// A worker that has no activity takes the first ready one of the highest priority.
    pub fn dispatch(&mut self, worker: u32) -> Option<u32>
        requires stood { IsStood self.old.line }
        requires worker { worker < 16 }
        requires idle { running_of self.old.line worker ≡ None }
        ensures first { (image : Image) (earlier : List Event) (st : State Memory FramesOf) →
            Shows image earlier self.old st → result ≡ first_ready st.book.line }
        ensures some { (image : Image) (earlier : List Event) (st : State Memory FramesOf) →
            Shows image earlier self.old st →
            IfSome result (λ a. Shows image earlier self.new (on_book (stands a (On worker)) st)) }
        ensures none { (image : Image) → IsNone result → ShowsSame image self.old self.new }
    {
        self.line.dispatch(worker)
    }

    /// The activity leaves its worker and is ready, behind those of its priority.
    pub fn ready(&mut self, activity: u32)
        requires { HasTurn activity self.old }
        ensures { (image : Image) → Performs image (on_book (ready activity)) self.old self.new }
    {
        let priority = priority_of(&self.activities, activity);
        self.line.yield_to(activity, priority);
    }

    /// The activity ends, and its frames are dropped.
    pub fn end(&mut self, activity: u32)
        requires turn { HasTurn activity self.old }
        requires room { vec_len self.old.events < vec_capacity self.old.events }
        ensures { (image : Image) → Performs image (on_book (ended activity)) self.old self.new }
    {
        self.line.leave(activity);
        self.events.push_reserved(Event::End { activity });
        drop_frames(self.alloc, &mut self.activities, activity);
    }
}
