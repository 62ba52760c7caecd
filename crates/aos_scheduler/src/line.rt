// Where activities stand.

ghost use Rattle.std.specs.Prelude.{◌≡◌, ℕ, ◌<◌, suc, [], List, Option, None, length, get_or, slice_set, OnOk, IfSome, IsNone};
ghost use Rattle.aos_base.specs.declared.limits.TheConstants.{MOST_LIVE, MOST_STARTED};
ghost use Rattle.aos_base.specs.declared.kernel.LockName.{LockName};
ghost use Rattle.aos_base.specs.Book.{Stand, on_worker, first_ready, outcome_of, place_of as place_in, leave_line, move, On, Ready as IsReady};
ghost use Rattle.aos_ready.specs.Order.{number_of as priority_number};
ghost use Rattle.aos_scheduler.specs.Stands.{places_of, started_of, live_of, running_of, HasRunState, Stands, IsStood, IsOn, IsNowhere, OfLine, Moved, with_last, StandsSame, HasRoomMore, outcome_by as outcome_for};

use crate::numbers::Numbers;
use crate::run_state::RunState;
use aos_base::{NoMemory, Outcome, Priority};
use aos_lock::Locks;
use aos_queue::Links;
use aos_ready::Ready;
use std::alloc::Global;

/// How many workers there may be.
pub const WORKERS: usize = 16;

/// Where each activity stands, known by its number: the activity of each worker, the ready ones, and the locks with those who
/// wait; how many live; and how many of these don't wait for a lock.
#[derive(Drop)]
pub struct Line {
    pub(crate) links: Links,
    pub(crate) ready: Ready,
    pub(crate) locks: Locks,
    pub(crate) numbers: Numbers,
    pub(crate) running: [Option<u32>; WORKERS],
    pub(crate) places: Vec<RunState>,
    pub(crate) live: usize,
    pub(crate) awake: usize,
}

/// The place under a number.
fn place_at(places: &[RunState], activity: u32) -> RunState
    ensures { result ≡ get_or places.now activity RunState.Nowhere }
{
    match places.get(activity as usize) {
        Some(place) => *place,
        None => RunState::Nowhere,
    }
}

/// How far the execution is, where so many live, and so many of these don't wait for a lock.
fn outcome_by(live: usize, awake: usize, is_spent: bool) -> Outcome
    ensures { result ≡ outcome_for live awake is_spent }
{
    if live == 0 {
        return Outcome::Ended;
    }
    if is_spent {
        return Outcome::Spent;
    }
    if awake == 0 {
        return Outcome::Dead;
    }
    Outcome::Going
}

impl Line {
    /// No activity has been started, and nobody owns a lock. It takes no memory.
    pub fn new(alloc: Global) -> Self
        ensures stands { Stands result [] (λ _. None) }
        ensures started { started_of result ≡ 0 }
    {
        Line {
            links: Links::new(alloc),
            ready: Ready::new(),
            locks: Locks::new(alloc),
            numbers: Numbers::new(alloc),
            running: [None; WORKERS],
            places: Vec::new(alloc),
            live: 0,
            awake: 0,
        }
    }

    // Reading ------------------------------------------------------------------------------

    /// The activity of a worker.
    pub fn on(&self, worker: u32) -> Option<u32>
        ensures running { result ≡ running_of self.now worker }
        ensures on { OfLine self.now (λ line. result ≡ on_worker worker line) }
    {
        match self.running.get(worker as usize) {
            Some(activity) => *activity,
            None => None,
        }
    }

    /// How many activities live.
    pub fn live(&self) -> usize
        ensures live { result ≡ live_of self.now }
        ensures length { OfLine self.now (λ line. result ≡ length line) }
    {
        self.live
    }

    /// Where an activity stands.
    pub fn place(&self, activity: u32) -> RunState
        ensures { (line : List Stand) (owner : LockName → Option ℕ) →
            Stands self.now line owner → HasRunState result (place_in line activity) }
    {
        place_at(&self.places, activity)
    }

    /// How far the execution is, where an activity has reached the budget or none has.
    pub fn outcome(&self, spent: Option<u32>) -> Outcome
        ensures { OfLine self.now (λ line. result ≡ outcome_of line spent) }
    {
        outcome_by(self.live, self.awake, spent.is_some())
    }

    // Writing ------------------------------------------------------------------------------

    /// Makes room for one activity more.
    pub fn reserve(&mut self) -> Result<(), NoMemory>
        requires { started_of self.old < MOST_STARTED }
        ensures room { OnOk result (HasRoomMore self.new) }
        ensures same { StandsSame self.old self.new }
        ensures places { places_of self.new ≡ places_of self.old }
        ensures live { live_of self.new ≡ live_of self.old }
    {
        self.places.reserve(1)?;
        let started = self.places.len() as u32;
        self.links.reserve(started + 1)?;
        Ok(())
    }

    /// A new activity is ready.
    pub fn bear(&mut self, priority: Priority)
        requires stood { IsStood self.old }
        requires room { HasRoomMore self.old }
        requires live { live_of self.old < MOST_LIVE }
        requires started { started_of self.old < MOST_STARTED }
        ensures stands { Moved self.old self.new
            (move (started_of self.old) (IsReady (priority_number priority))) }
        ensures on { (other : ℕ) → IsOn self.old other → IsOn self.new other }
        ensures started { started_of self.new ≡ suc (started_of self.old) }
    {
        let number = self.places.len() as u32;
        self.places.push_reserved(RunState::Nowhere);
        self.wake(number, priority);
    }

    /// An activity leaves its worker.
    pub fn leave(&mut self, activity: u32)
        requires { IsOn self.old activity }
        ensures stands { Moved self.old self.new (leave_line activity) }
        ensures nowhere { IsNowhere self.new activity }
        ensures locks { self.new.locks ≡ self.old.locks }
        ensures numbers { self.new.numbers ≡ self.old.numbers }
        ensures started { started_of self.new ≡ started_of self.old }
    {
        if let RunState::On(worker) = self.places[activity as usize] {
            self.running[worker as usize] = None;
            self.places[activity as usize] = RunState::Nowhere;
            self.live -= 1;
            self.awake -= 1;
        }
    }

    /// One that stands nowhere is ready, behind those of its priority.
    pub fn wake(&mut self, activity: u32, priority: Priority)
        requires { IsNowhere self.old activity }
        ensures stands { Moved self.old self.new
            (with_last activity (IsReady (priority_number priority))) }
        ensures places { places_of self.new ≡
            slice_set (places_of self.old) activity (RunState.Ready priority) }
        ensures started { started_of self.new ≡ started_of self.old }
    {
        self.ready.add(&mut self.links, activity, priority);
        self.places[activity as usize] = RunState::Ready(priority);
        self.live += 1;
        self.awake += 1;
    }

    /// An activity leaves its worker, and is ready behind those of its priority.
    pub fn yield_to(&mut self, activity: u32, priority: Priority)
        requires { IsOn self.old activity }
        ensures stands { Moved self.old self.new
            (move activity (IsReady (priority_number priority))) }
        ensures started { started_of self.new ≡ started_of self.old }
    {
        self.leave(activity);
        self.wake(activity, priority);
    }

    /// Takes the first ready one of the highest priority from those that are ready.
    fn take_ready(&mut self) -> Option<u32>
        requires { IsStood self.old }
        ensures first { OfLine self.old (λ line. result ≡ first_ready line) }
        ensures left { (line : List Stand) (owner : LockName → Option ℕ) →
            Stands self.old line owner →
            IfSome result (λ a. Stands self.new (leave_line a line) owner) }
        ensures nowhere { IfSome result (λ a. IsNowhere self.new a) }
        ensures none { IsNone result → StandsSame self.old self.new }
        ensures running { (w : ℕ) → running_of self.new w ≡ running_of self.old w }
        ensures started { started_of self.new ≡ started_of self.old }
    {
        match self.ready.next(&mut self.links) {
            None => None,
            Some(activity) => {
                self.places[activity as usize] = RunState::Nowhere;
                self.live -= 1;
                self.awake -= 1;
                Some(activity)
            }
        }
    }

    /// One that stands nowhere stands on a worker that has none.
    fn put_on(&mut self, activity: u32, worker: u32)
        requires nowhere { IsNowhere self.old activity }
        requires worker { worker < 16 }
        requires idle { running_of self.old worker ≡ None }
        ensures stands { Moved self.old self.new (with_last activity (On worker)) }
        ensures started { started_of self.new ≡ started_of self.old }
    {
        self.running[worker as usize] = Some(activity);
        self.places[activity as usize] = RunState::On(worker);
        self.live += 1;
        self.awake += 1;
    }

    /// A worker that has none takes the first ready one of the highest priority.
    pub fn dispatch(&mut self, worker: u32) -> Option<u32>
        requires stood { IsStood self.old }
        requires worker { worker < 16 }
        requires idle { running_of self.old worker ≡ None }
        ensures first { OfLine self.old (λ line. result ≡ first_ready line) }
        ensures stands { (line : List Stand) (owner : LockName → Option ℕ) →
            Stands self.old line owner →
            IfSome result (λ a. Stands self.new (move a (On worker) line) owner) }
        ensures none { IsNone result → StandsSame self.old self.new }
        ensures started { started_of self.new ≡ started_of self.old }
    {
        match self.take_ready() {
            None => None,
            Some(activity) => {
                self.put_on(activity, worker);
                Some(activity)
            }
        }
    }
}
