// How fast a number leaves the middle of a queue: so many times it is taken out and put behind all others, and then comes the next.

ghost use Rattle.std.specs.Prelude.{ℕ, ◌<◌, ◌≤◌};
ghost use Rattle.std.specs.List.{Contains};
ghost use Rattle.aos_queue.specs.Lists.{list_in, room_of, Belongs};
ghost use Rattle.aos_bench.specs.Fill.{Fills};

use crate::stop::Stop;
use crate::words::next_number;
use aos_base::NoMemory;
use aos_queue::{Links, Queue};
use std::alloc::Global;
use std::slice::Iter;

// No queue here is longer than twice as much.
const MOST: u32 = 1_000_000;

// Puts the numbers below a bound into a queue in which none stands.
fn fill(links: &mut Links, queue: &mut Queue, count: u32)
    requires fills { Fills links.old queue.old 0 }
    requires room { count ≤ room_of links.old }
    ensures { Fills links.new queue.new count }
{
    for n in 0..count {
        links.put_last(queue, n);
    }
}

// Takes a number out and puts it behind all others.
fn move_last(links: &mut Links, queue: &mut Queue, n: u32)
    requires belongs { Belongs links.old queue.old }
    requires within { Contains (list_in links.old queue.old) n }
    ensures { (count : ℕ) → Fills links.old queue.old count → Fills links.new queue.new count }
{
    links.take(queue, n);
    links.put_last(queue, n);
}

// The next of these numbers, or the first of them behind the last.
fn next_of(n: u32, first: u32, count: u32) -> u32
    requires known { n < count }
    requires first { first < count }
    ensures { result < count }
{
    if n + 1 < count { n + 1 } else { first }
}

// The number behind the middle one, behind so many times.
fn moved(alloc: Global, half: u32, times: u32) -> Result<u32, NoMemory>
    requires some { 0 < half }
    requires few { half ≤ 1000000 }
{
    let count = half + half;
    let mut links = Links::new(alloc);
    links.reserve(count)?;
    let mut queue = Queue::new();
    fill(&mut links, &mut queue, count);
    let mut n = half;
    for _ in 0..times {
        move_last(&mut links, &mut queue, n);
        n = next_of(n, half, count);
    }
    Ok(links.behind(n).unwrap_or(n))
}

/// `HALF TIMES`: so many times the number in the middle of twice as many goes behind all others. Which one stands behind the
/// middle one at last.
pub fn measured(alloc: Global, words: &mut Iter<String>) -> Result<u64, Stop> {
    let half = next_number(words)?;
    let times = next_number(words)?;
    if half == 0 {
        return Err(Stop::Usage);
    }
    if MOST < half {
        return Err(Stop::Usage);
    }
    Ok(u64::from(moved(alloc, half, times)?))
}
