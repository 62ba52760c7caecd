// How fast a lock passes from one to the next while so many others wait to enter: so many times its owner leaves it and asks for
// it again, or awaits a condition, as another one does, whose condition holds. Beside the first a `VecDeque` does the same.

ghost use Rattle.std.specs.Prelude.{◌≡◌, ◌+◌, ◌-◌, ◌^◌, ◌<◌, ◌≤◌};
ghost use Rattle.aos_queue.specs.Lists.{room_of};
ghost use Rattle.aos_lock.specs.Waits.{WaitsNowhere};
ghost use Rattle.aos_bench.specs.Holder.{Holds, IdleFrom};

use crate::stop::Stop;
use crate::words::{next_number, next_word};
use aos_base::{NoMemory, Verdict};
use aos_lock::{Locks, Test};
use aos_queue::Links;
use std::alloc::{AllocError, Global};
use std::collections::VecDeque;
use std::slice::Iter;

// More wait for no lock here.
const MOST: u32 = 1_000_000;

// Nobody awaits a condition.
#[derive(Clone, Copy)]
struct Never;

impl Test for Never {
    ghost use Rattle.aos_base.specs.declared.kernel.Verdict.TheVariants.{Fails};

    ghost verdict_of = { λ _ _. Fails };

    ghost Held = { Unit {0} };

    ghost held = { λ _ _. Unit {0} };

    fn verdict(&mut self, _waiter: u32) -> Verdict {
        Verdict::Fails
    }
}

// Each condition holds.
#[derive(Clone, Copy)]
struct Always;

impl Test for Always {
    ghost use Rattle.aos_base.specs.declared.kernel.Verdict.TheVariants.{Holds as Served};

    ghost verdict_of = { λ _ _. Served };

    ghost Held = { Unit {0} };

    ghost held = { λ _ _. Unit {0} };

    fn verdict(&mut self, _waiter: u32) -> Verdict {
        Verdict::Holds
    }
}

// The owner leaves the lock and asks for it again. Answers who owns it then.
fn pass_on(links: &mut Links, locks: &mut Locks, lock: u32, owner: u32) -> u32
    requires { Holds links.old locks.old lock owner }
    ensures { Holds links.new locks.new lock result }
{
    let heir = locks.leave(links, lock, &mut Never).owner();
    locks.enter(links, lock, owner);
    heir.unwrap_or(owner)
}

// The owner awaits a condition. Answers who owns the lock then.
fn wait_on(links: &mut Links, locks: &mut Locks, lock: u32, owner: u32) -> u32
    requires { Holds links.old locks.old lock owner }
    ensures { Holds links.new locks.new lock result }
{
    let heir = locks.wait(links, lock, owner, &mut Always).owner();
    heir.unwrap_or(owner)
}

// The activities from 1 on ask for the lock, which 0 owns.
fn join(links: &mut Links, locks: &mut Locks, lock: u32, waiting: u32)
    requires holds { Holds links.old locks.old lock 0 }
    requires idle { IdleFrom links.old locks.old 1 }
    requires reserved { waiting < room_of links.old }
    ensures holds { Holds links.new locks.new lock 0 }
    ensures idle { IdleFrom links.new locks.new (waiting + 1) }
    ensures room { room_of links.new ≡ room_of links.old }
{
    for activity in 0..waiting {
        locks.enter(links, lock, activity + 1);
    }
}

// The owner leaves the lock and asks for it again, so many times. Answers who owns it at last.
fn enter_again(links: &mut Links, locks: &mut Locks, lock: u32, times: u32) -> u32
    requires { Holds links.old locks.old lock 0 }
{
    let mut owner = 0;
    for _ in 0..times {
        owner = pass_on(links, locks, lock, owner);
    }
    owner
}

// The owner awaits a condition, so many times, as this other one does. Answers who owns the lock at last.
fn wait_again(links: &mut Links, locks: &mut Locks, lock: u32, other: u32, times: u32) -> u32
    requires holds { Holds links.old locks.old lock 0 }
    requires reserved { other < room_of links.old }
    requires idle { WaitsNowhere links.old locks.old other }
    requires apart { 0 < other }
{
    locks.join(links, lock, other, true);
    let mut owner = 0;
    for _ in 0..times {
        owner = wait_on(links, locks, lock, owner);
    }
    owner
}

fn with_locks(alloc: Global, waiting: u32, times: u32, awaits: bool) -> Result<u32, NoMemory>
    requires { waiting < 2 ^ 32 - 2 }
{
    let mut links = Links::new(alloc);
    links.reserve(waiting + 2)?;
    let mut locks = Locks::new(alloc);
    let lock = locks.add()?;
    locks.enter(&mut links, lock, 0);
    join(&mut links, &mut locks, lock, waiting);
    if awaits {
        Ok(wait_again(&mut links, &mut locks, lock, waiting + 1, times))
    } else {
        Ok(enter_again(&mut links, &mut locks, lock, times))
    }
}

fn with_deque(alloc: Global, waiting: u32, times: u32) -> Result<u32, AllocError>
    requires { waiting < 2 ^ 32 - 1 }
{
    let mut queue = VecDeque::new(alloc);
    queue.reserve(waiting as usize + 1)?;
    for activity in 0..waiting {
        queue.push_back(activity + 1)?;
    }
    let mut owner = 0;
    for _ in 0..times {
        queue.push_back(owner)?;
        owner = queue.pop_front().unwrap_or(owner);
    }
    Ok(owner)
}

/// `locks WAITING TIMES`, `conditions WAITING TIMES`, or `deque WAITING TIMES`: who owns the lock, or what was taken from the
/// deque, at last.
pub fn measured(alloc: Global, words: &mut Iter<String>) -> Result<u64, Stop> {
    let kind = next_word(words)?;
    let waiting = next_number(words)?;
    let times = next_number(words)?;
    if MOST < waiting {
        return Err(Stop::Usage);
    }
    match kind {
        "locks" => Ok(u64::from(with_locks(alloc, waiting, times, false)?)),
        "conditions" => Ok(u64::from(with_locks(alloc, waiting, times, true)?)),
        "deque" => Ok(u64::from(with_deque(alloc, waiting, times)?)),
        _ => Err(Stop::Usage),
    }
}
