// The kernel over an image, seen as its log.
ghost use Rattle.std.specs.Prelude.{◌≡◌, ◌<◌, ◌≤◌, [], ◌++◌, true, false, replicate, reverse, IfOk, IfSome, IfNone, OnErr, All};
ghost use Rattle.std.specs.List.{flat_map};
ghost use Rattle.std.specs.Arc.{arc_value};
ghost use Rattle.aos_base.specs.Book.{outcome};
ghost use Rattle.aos_base.specs.Machine.{Step, Tick, happens, execution};
ghost use Rattle.aos_code.specs.Machine.{machine, bodies, first_frames, first_state};
ghost use Rattle.aos_store.specs.Store.{frames_in};
ghost use Rattle.aos_base.specs.Schedule.{IsEntry};
ghost use Rattle.aos_kernel.specs.Shows.{Shows, HandsOut};
ghost use Rattle.aos_loan.specs.Loans.{IsLoanOf};
ghost use Rattle.aos_kernel.specs.Lends.{LendsNone, Lends, after_lend, settles_to, after_settle};
ghost use Rattle.aos_kernel.specs.Steps.{AreQuietSteps};
ghost use Rattle.aos_kernel.specs.Run.{among, state_of, events_of, traps_of, waits_of, spent_of, comes_to, after_step, ticks, after_tick};

use crate::activity::{Activity, Next, next_of};
use crate::conditions::stack_for;
use crate::loans::{is_among, take_out};
use crate::log::{Stepped, add_step};
use crate::runs::{add_steps, in_entry};
use crate::tables::KernelTables;
use aos_base::{Event, NoMemory, Outcome, Priority, Sched};
use aos_code::{Image, TrapRec, WaitRec};
use aos_loan::Loan;
use aos_scheduler::Line;
use aos_store::{Frames, Store};
use std::alloc::Global;
use std::marker::Model;
use std::mem;
use std::sync::Arc;

/// The most workers of a kernel.
pub const MAX_WORKERS: u32 = 16;

/// The largest budget: the number of statements that stops an activity.
pub const MAX_BUDGET: u64 = 1_000_000_000;

/// A kernel that runs an image. Clauses see its image, the number of its workers, its budget and its log, and
/// everything else about it is a function of these: it is the image's execution under the log.
#[derive(Drop)]
pub struct Kernel {
    image: Arc<Image>,
    workers: u32,
    budget: u64,
    tables: KernelTables,
    events: Vec<Event>,
    log: Vec<Sched>,
    lent: Vec<u32>,
    loans: u64,
}

impl Model for Kernel {
    ghost use Rattle.std.specs.Arc.{arc_value};
    ghost use Rattle.aos_kernel.specs.Run.{Run};
    ghost use Rattle.aos_kernel.specs.Keeps.{Keeps};
    ghost use Rattle.aos_kernel.specs.Lends.{HasLogRoom};

    ghost Value = { Run };

    ghost view = { λ k. record {
      image = arc_value k.image;
      workers = k.workers;
      budget = k.budget;
      log = k.log.items;
      lent = k.lent.items;
      loans = k.loans;
    } };

    ghost invariant = { λ k.
        Keeps (record {
          image = arc_value k.image;
          workers = k.workers;
          budget = k.budget;
          log = k.log.items;
          lent = k.lent.items;
          loans = k.loans;
        })
        k.tables k.events.items × HasLogRoom k.log k.lent.items };
}

/// The body of this number behind the others, where there is one.
fn add_body(found: &mut Vec<u32>, body: u32) -> Result<(), NoMemory>
    ensures { IfOk result (λ _. found.new.items ≡ found.old.items ++ bodies body) }
{
    if body != 0 {
        found.reserve(1)?;
        found.push_reserved(body);
    }
    Ok(())
}

/// The bodies of the modules, which activity 0 runs, the first module's last.
fn first_bodies(alloc: Global, image: &Image) -> Result<Vec<u32>, NoMemory>
    ensures { IfOk result
        (λ found. reverse found.items ≡ flat_map (λ m. bodies m.body) image.now.modules.items) }
{
    let mut found = Vec::new(alloc);
    for module in &image.modules {
        add_body(&mut found, module.body)?;
    }
    found.reverse();
    Ok(found)
}

/// The frames with which activity 0 begins.
fn frames_of_modules(alloc: Global, image: &Image) -> Result<Frames, NoMemory>
    ensures frames { IfOk result (λ frames. frames_in frames ≡ first_frames image.now) }
    ensures begun { IfOk result (λ frames. frames.begun ≡ 0) }
{
    let mut frames = Frames::new(alloc);
    frames.following = first_bodies(alloc, image)?;
    Ok(frames)
}

/// The tables where nothing has happened yet.
fn first_tables(alloc: Global, image: &Image, budget: u64) -> Result<KernelTables, NoMemory>
    requires { 1 ≤ budget }
    ensures { IfOk result (λ tables. Shows image.now [] tables (first_state image.now budget)) }
{
    let store = Store::new(alloc, image)?;
    let frames = frames_of_modules(alloc, image)?;
    let first = Activity {
        priority: Priority::Normal,
        next: Next::Runs,
        condition: 0,
        locks: Vec::new(alloc),
        frames,
    };
    let mut activities = Vec::new(alloc);
    activities.reserve(1)?;
    activities.push_reserved(first);
    let mut line = Line::new(alloc);
    line.reserve()?;
    line.bear(Priority::Normal);
    let stack = stack_for(alloc, image)?;
    Ok(KernelTables {
        alloc,
        store,
        activities,
        line,
        output: Vec::new(alloc),
        traps: Vec::new(alloc),
        events: Vec::new(alloc),
        budget,
        spent: None,
        stack,
    })
}

/// The events that the tables have told are handed out, in place of the earlier ones.
fn hand_out(events: &mut Vec<Event>, tables: &mut KernelTables)
    ensures events { events.new.items ≡ tables.old.events.items }
    ensures tables { HandsOut tables.old tables.new }
{
    mem::swap(events, &mut tables.events);
    tables.events.clear();
}

/// No event is handed out, in place of the earlier ones.
fn tell_nothing(events: &mut Vec<Event>)
    ensures { events.new.items ≡ [] }
{
    events.clear();
}

impl Kernel {
    /// A kernel in which nothing has happened yet: activity 0, which runs the modules' bodies, is ready.
    /// It has 1 to 16 workers, and a budget of 1 to 10^9 statements for each activity. NoMemory where memory runs out.
    pub fn new(
        alloc: Global,
        image: Arc<Image>,
        workers: u32,
        budget: u64,
    ) -> Result<Box<Kernel>, NoMemory>
        requires workers { (1 ≤ workers) × (workers ≤ MAX_WORKERS) }
        requires budget { (1 ≤ budget) × (budget ≤ MAX_BUDGET) }
        ensures { IfOk result (λ k. k.value ≡
            record {
              image = arc_value image;
              workers = workers;
              budget = budget;
              log = [];
              lent = [];
              loans = 0;
            }) }
    {
        let tables = first_tables(alloc, &image, budget)?;
        let kernel = Kernel {
            image,
            workers,
            budget,
            tables,
            events: Vec::new(alloc),
            log: Vec::new(alloc),
            lent: Vec::new(alloc),
            loans: 0,
        };
        match Box::new(alloc, kernel) {
            Ok(kernel) => Ok(kernel),
            Err(_) => Err(NoMemory),
        }
    }

    /// The number of its workers, 1 to 16.
    pub fn workers(&self) -> u32
        ensures workers { result ≡ self.now.workers }
        ensures range { (1 ≤ result) × (result ≤ MAX_WORKERS) }
    {
        self.workers
    }

    /// The number of statements that stops an activity, 1 to 10^9.
    pub fn budget(&self) -> u64
        ensures budget { result ≡ self.now.budget }
        ensures range { (1 ≤ result) × (result ≤ MAX_BUDGET) }
    {
        self.budget
    }

    /// The image that it runs.
    pub fn image(&self) -> &Arc<Image>
        ensures { arc_value result.now ≡ self.now.image }
    {
        &self.image
    }

    /// Its log: the steps that were turns or dispatches, and the ticks that took an activity from its worker.
    pub fn log(&self) -> &[Sched]
        ensures log { result.now ≡ self.now.log }
        ensures entries { All (IsEntry self.now.workers) result.now }
    {
        &self.log
    }

    /// How far the execution is.
    pub fn outcome(&self) -> Outcome
        ensures { result ≡ outcome (state_of self.now).book }
    {
        self.tables.outcome()
    }

    /// What the execution has written.
    pub fn output(&self) -> &[u8]
        ensures { result.now ≡ (state_of self.now).book.output }
    {
        &self.tables.output
    }

    /// The traps that have happened, in their order.
    pub fn traps(&self) -> &[TrapRec]
        ensures { result.now ≡ traps_of self.now }
    {
        &self.tables.traps
    }

    /// The activities that wait for locks, in the order of their numbers.
    pub fn waits(&self, alloc: Global) -> Result<Vec<WaitRec>, NoMemory>
        ensures { IfOk result (λ waits. waits.items ≡ waits_of self.now) }
    {
        self.tables.waits(alloc, &self.image)
    }

    /// The events of the last step or tick of the log, in their order; none where the log is empty.
    pub fn events(&self) -> &[Event]
        ensures { result.now ≡ events_of self.now }
    {
        &self.events
    }

    /// The activity that has begun as many statements as the budget, where the outcome is Spent.
    pub fn spent(&self) -> Option<u32>
        ensures { result ≡ spent_of self.now }
    {
        if let Outcome::Spent = self.tables.outcome() {
            self.tables.spent
        } else {
            None
        }
    }

    /// A step of a worker, below the number of workers: a turn of its activity, or else the dispatch of the first ready
    /// activity of the highest priority (Muller 2002, the scheduler of the Active Object System). Where it is Idle or
    /// Over, nothing changes. NoMemory where memory runs out, and then the kernel is as it was.
    pub fn step(&mut self, w: u32) -> Result<Stepped, NoMemory>
        requires worker { w < self.old.workers }
        requires lent { among w self.old.lent ≡ false }
        ensures stepped { IfOk result (λ stepped. stepped ≡ comes_to w self.old) }
        ensures log { IfOk result (λ stepped. self.new ≡ after_step stepped w self.old) }
        ensures same { self.new ≡ record self.old { log = self.new.log } }
        ensures state { IfOk result
            (λ _. state_of self.new ≡
            happens (machine self.old.image) (Step w) (state_of self.old)) }
        ensures err { OnErr result (self.new ≡ self.old) }
    {
        let Outcome::Going = self.tables.outcome() else {
            return Ok(Stepped::Over);
        };
        match self.tables.on(w) {
            Some(activity) => {
                self.log.reserve(1 + self.lent.len())?;
                self.tables.turn(&self.image, activity)?;
                hand_out(&mut self.events, &mut self.tables);
                add_step(&mut self.log, w);
                Ok(Stepped::Turned)
            }
            None => {
                self.log.reserve(1 + self.lent.len())?;
                match self.tables.dispatch(w) {
                    Some(_) => {
                        hand_out(&mut self.events, &mut self.tables);
                        add_step(&mut self.log, w);
                        Ok(Stepped::Dispatched)
                    }
                    None => Ok(Stepped::Idle),
                }
            }
        }
    }

    /// Turns in place of a worker's activity, so many at most, one behind another: how many have been made. No event happens in
    /// them. NoMemory where memory runs out, and then the kernel is as it was.
    pub(crate) fn run_in_place(&mut self, w: u32, most: u32) -> Result<u32, NoMemory>
        requires worker { w < self.old.workers }
        requires lent { among w self.old.lent ≡ false }
        ensures most { IfOk result (λ made. made ≤ most) }
        ensures run { IfOk result (λ made. AreQuietSteps made w self.old self.new) }
        ensures same { self.new ≡ record self.old { log = self.new.log } }
        ensures err { OnErr result (self.new ≡ self.old) }
    {
        let Outcome::Going = self.tables.outcome() else {
            return Ok(0);
        };
        let Some(activity) = self.tables.on(w) else {
            return Ok(0);
        };
        self.log.reserve(1 + self.lent.len())?;
        let made = self.tables.run_on(&self.image, activity, in_entry(most));
        if made == 0 {
            return Ok(0);
        }
        add_steps(&mut self.log, w, made);
        tell_nothing(&mut self.events);
        Ok(made)
    }

    /// A tick of a worker, below the number of workers: its activity becomes ready, behind those of its priority. False
    /// where it has none or the outcome isn't Going, and then nothing changes. NoMemory where memory runs out, and then
    /// the kernel is as it was.
    pub fn tick(&mut self, w: u32) -> Result<bool, NoMemory>
        requires worker { w < self.old.workers }
        requires lent { among w self.old.lent ≡ false }
        ensures ticked { IfOk result (λ ticked. ticked ≡ ticks w self.old) }
        ensures log { IfOk result (λ ticked. self.new ≡ after_tick ticked w self.old) }
        ensures same { self.new ≡ record self.old { log = self.new.log } }
        ensures state { IfOk result
            (λ _. state_of self.new ≡
            happens (machine self.old.image) (Tick w) (state_of self.old)) }
        ensures err { OnErr result (self.new ≡ self.old) }
    {
        let Outcome::Going = self.tables.outcome() else {
            return Ok(false);
        };
        match self.tables.on(w) {
            Some(activity) => {
                self.log.reserve(1 + self.lent.len())?;
                self.tables.ready(activity);
                hand_out(&mut self.events, &mut self.tables);
                self.log.push_reserved(Sched::Tick(w));
                Ok(true)
            }
            None => Ok(false),
        }
    }

    /// Whether a worker's activity is lent.
    pub fn is_lent(&self, w: u32) -> bool
        ensures { result ≡ among w self.now.lent }
    {
        is_among(w, &self.lent)
    }

    /// Whether no activity is lent.
    pub fn lends_none(&self) -> bool
        ensures { result ≡ true → self.now.lent ≡ [] }
    {
        self.lent.is_empty()
    }

    /// How many loans were settled with turns, modulo 2^64.
    pub fn lent(&self) -> u64
        ensures { result ≡ self.now.loans }
    {
        self.loans
    }

    /// The frames of a worker's activity go out for private turns; None where it has no activity, that is lent, the outcome
    /// isn't Going, or its next turn isn't private. The log keeps room for the loan's entry. NoMemory where memory runs out,
    /// and then the kernel is as it was.
    pub fn lend(&mut self, w: u32) -> Result<Option<Loan>, NoMemory>
        requires { w < self.old.workers }
        ensures loan { IfOk result (λ loan. IfSome loan (λ l. Lends w self.old l)) }
        ensures none { IfOk result (λ loan. IfNone loan (LendsNone w self.old)) }
        ensures after { IfOk result (λ loan. self.new ≡ after_lend loan w self.old) }
        ensures err { OnErr result (self.new ≡ self.old) }
    {
        if is_among(w, &self.lent) {
            return Ok(None);
        }
        let Outcome::Going = self.tables.outcome() else {
            return Ok(None);
        };
        let Some(activity) = self.tables.on(w) else {
            return Ok(None);
        };
        let many = self.lent.len();
        let room = 1 + many;
        self.log.reserve(room)?;
        self.lent.reserve(1)?;
        let image = self.image.clone()?;
        match next_of(&self.tables.activities, activity) {
            Next::Runs => match self.tables.take_frames(&self.image, activity)? {
                Some(frames) => {
                    self.lent.push_reserved(w);
                    Ok(Some(Loan::new(image, self.budget, frames)))
                }
                None => Ok(None),
            },
            // no frames but those of a worker that is lent
            Next::Lent => Err(NoMemory),
            Next::WillTrap(_) => Ok(None),
            Next::Unwinds => Ok(None),
            Next::Gone => Ok(None),
        }
    }

    /// The turns of a loan that this kernel gave for a worker, as they are by now, are steps of the worker at the end of the
    /// log. It takes no memory. Idle where there is none; where the outcome isn't Going, it is Over, and the loan is dropped.
    pub fn settle(&mut self, w: u32, loan: Loan) -> Stepped
        requires worker { w < self.old.workers }
        requires lent { among w self.old.lent ≡ true }
        requires image { loan.image ≡ self.old.image }
        requires budget { loan.budget ≡ self.old.budget }
        requires loan { IsLoanOf w loan (state_of self.old) }
        ensures settled { result ≡ settles_to loan self.old }
        ensures after { self.new ≡ after_settle result w loan self.old }
        ensures state { state_of self.new ≡
            execution (machine self.old.image) (replicate loan.turns (Step w)) (state_of self.old) }
    {
        take_out(w, &mut self.lent);
        let Outcome::Going = self.tables.outcome() else {
            return Stepped::Over;
        };
        let Some(activity) = self.tables.on(w) else {
            return Stepped::Over;
        };
        let turns = loan.turns();
        self.tables.put_frames(activity, loan.into_frames());
        if turns == 0 {
            return Stepped::Idle;
        }
        self.log.push_reserved(Sched::Steps(w, turns));
        self.events.clear();
        self.loans = self.loans.wrapping_add(1);
        Stepped::Turned
    }
}
