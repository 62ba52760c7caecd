// One lock, by a table of calls.

ghost use Rattle.std.specs.Prelude.{◌≡◌, ℕ, ◌<◌, ◌≤◌, Some, None, true, false, length, slice_set, slice_index_or};
ghost use Rattle.aos_lock.specs.Waits.{owner_of, count_of};
ghost use Rattle.aos_queue.specs.Lists.{room_of};
ghost use Rattle.aos_kernel_tests.specs.Waits.{Keeps, waits_then};

use Answer::{Gets, Passes};
use Call::{Enter, Leave, Wait};
use aos_base::Verdict;
use aos_base::Verdict::{Fails, Holds, Traps};
use aos_lock::{Entered, Locks, Passed, Test};
use aos_queue::Links;
use std::alloc::Global;
use std::process::Abort;
use std::test::Fail;

/// What the conditions of 0 to 3 come to.
#[derive(Clone, Copy)]
struct Verdicts {
    of: [Verdict; 4],
}

impl Test for Verdicts {
    ghost use Rattle.std.specs.Prelude.{slice_index_or};
    ghost use Rattle.aos_base.specs.declared.kernel.Verdict.TheVariants.{Fails};

    ghost verdict_of = { λ s n. slice_index_or s.of n Fails };

    ghost Held = { Unit {0} };

    ghost held = { λ _ _. Unit {0} };

    fn verdict(&mut self, waiter: u32) -> Verdict {
        if (waiter as usize) < self.of.len() {
            self.of[waiter as usize]
        } else {
            Verdict::Fails
        }
    }
}

#[derive(Clone, Copy, Debug)]
enum Call {
    Enter(u32),
    Wait(u32),
    Leave(u32),
}

#[derive(Clone, Copy, PartialEq, Eq, Debug)]
enum Answer {
    Gets(Entered),
    Passes(Passed),
}

const ALL_FAIL: [Verdict; 4] = [Fails, Fails, Fails, Fails];

/// Calls on one lock by 0 to 3, what their conditions come to, the answer, and who is to enter then, and who awaits a
/// condition.
static CALLS: [(Call, [Verdict; 4], Answer, &str, &str); 11] = [
    (Enter(0), ALL_FAIL, Gets(Entered::Taken), "", ""),
    (Enter(1), ALL_FAIL, Gets(Entered::Waits), "1", ""),
    (Wait(0), ALL_FAIL, Passes(Passed::Entrant(1)), "", "0"),
    (Enter(2), ALL_FAIL, Gets(Entered::Waits), "2", "0"),
    (Enter(3), ALL_FAIL, Gets(Entered::Waits), "23", "0"),
    (Enter(1), ALL_FAIL, Gets(Entered::Recursive), "23", "0"),
    (Wait(1), ALL_FAIL, Passes(Passed::Entrant(2)), "3", "01"),
    (
        Leave(2),
        [Fails, Holds, Fails, Fails],
        Passes(Passed::Waiter(1)),
        "3",
        "0",
    ),
    (
        Leave(1),
        [Traps(2), Fails, Fails, Fails],
        Passes(Passed::Waiter(0)),
        "3",
        "",
    ),
    (Leave(0), ALL_FAIL, Passes(Passed::Entrant(3)), "", ""),
    (Leave(3), ALL_FAIL, Passes(Passed::Free), "", ""),
];

fn does_wait(entered: Entered) -> bool
    ensures { result ≡ waits_then entered }
{
    match entered {
        Entered::Taken => false,
        Entered::Waits => true,
        Entered::Recursive => false,
    }
}

fn enter(links: &mut Links, locks: &mut Locks, waits: &mut [bool], activity: u32) -> Entered
    requires keeps { Keeps links.old locks.old waits.old }
    requires known { activity < length waits.old }
    requires idle { slice_index_or waits.old activity true ≡ false }
    ensures { Keeps links.new locks.new waits.new }
{
    let entered = locks.enter(links, 0, activity);
    waits[activity as usize] = does_wait(entered);
    entered
}

/// One who gets the lock waits no longer.
fn wake(waits: &mut [bool], owner: Option<u32>)
    ensures some { (activity : ℕ) → owner ≡ Some activity →
        waits.new ≡ slice_set waits.old activity false }
    ensures none { owner ≡ None → waits.new ≡ waits.old }
{
    if let Some(activity) = owner {
        if (activity as usize) < waits.len() {
            waits[activity as usize] = false;
        }
    }
}

fn leave(links: &mut Links, locks: &mut Locks, waits: &mut [bool], mut verdicts: Verdicts) -> Passed
    requires { Keeps links.old locks.old waits.old }
    ensures { Keeps links.new locks.new waits.new }
{
    let passed = locks.leave(links, 0, &mut verdicts);
    wake(waits, passed.owner());
    passed
}

fn wait(
    links: &mut Links,
    locks: &mut Locks,
    waits: &mut [bool],
    owner: u32,
    mut verdicts: Verdicts,
) -> Passed
    requires keeps { Keeps links.old locks.old waits.old }
    requires owner { owner_of locks.old 0 ≡ Some owner }
    requires known { owner < length waits.old }
    requires idle { slice_index_or waits.old owner true ≡ false }
    ensures { Keeps links.new locks.new waits.new }
{
    let passed = locks.wait(links, 0, owner, &mut verdicts);
    waits[owner as usize] = true;
    wake(waits, passed.owner());
    passed
}

/// The lock's owner is this one.
fn must_own(rt: &impl Abort, locks: &Locks, activity: u32)
    requires { 0 < count_of locks.now }
    ensures { owner_of locks.now 0 ≡ Some activity }
{
    let owner = locks.owner(0).unwrap_or(u32::MAX);
    assert!(rt; locks.owner(0) == Some(activity), "{owner} owns the lock");
}

/// This one waits for no lock.
fn must_idle(rt: &impl Abort, waits: &[bool], activity: u32)
    ensures known { activity < length waits.now }
    ensures idle { slice_index_or waits.now activity true ≡ false }
{
    assert!(rt; (activity as usize) < waits.len());
    assert!(rt; !waits[activity as usize]);
}

fn make_call(
    rt: &impl Abort,
    links: &mut Links,
    locks: &mut Locks,
    waits: &mut [bool],
    call: Call,
    verdicts: Verdicts,
) -> Answer
    requires { Keeps links.old locks.old waits.old }
    ensures { Keeps links.new locks.new waits.new }
{
    match call {
        Enter(activity) => {
            must_idle(rt, waits, activity);
            Gets(enter(links, locks, waits, activity))
        },
        Wait(activity) => {
            must_idle(rt, waits, activity);
            must_own(rt, locks, activity);
            Passes(wait(links, locks, waits, activity, verdicts))
        },
        Leave(activity) => {
            must_own(rt, locks, activity);
            Passes(leave(links, locks, waits, verdicts))
        },
    }
}

/// Whether a number is behind one of those who wait.
fn is_behind(links: &Links, waits: &[bool], activity: u32) -> bool
    requires few { length waits.now ≤ 4 }
    requires room { length waits.now ≤ room_of links.now }
{
    for before in 0..waits.len() as u32 {
        if waits[before as usize] && links.behind(before) == Some(activity) {
            return true;
        }
    }
    false
}

fn set(flags: &mut [bool], activity: u32, on: bool) {
    if (activity as usize) < flags.len() {
        flags[activity as usize] = on;
    }
}

/// Who waits from this call on awaits a condition, or else is to enter.
fn note(awaits: &mut [bool], call: Call) {
    match call {
        Enter(activity) => set(awaits, activity, false),
        Wait(activity) => set(awaits, activity, true),
        Leave(_) => {},
    }
}

/// Whether this one awaits a condition where it waits, or else is to enter.
fn is_of(awaits: &[bool], activity: u32, of: bool) -> bool {
    (activity as usize) < awaits.len() && awaits[activity as usize] == of
}

/// The first of those who await a condition, or else of those who are to enter.
fn first(links: &Links, waits: &[bool], awaits: &[bool], of: bool) -> Option<u32>
    requires few { length waits.now ≤ 4 }
    requires room { length waits.now ≤ room_of links.now }
{
    for activity in 0..waits.len() as u32 {
        let stands = waits[activity as usize] && is_of(awaits, activity, of);
        if stands && !is_behind(links, waits, activity) {
            return Some(activity);
        }
    }
    None
}

/// Those who await a condition, or else those who are to enter, in their order.
fn shown(
    alloc: Global,
    links: &Links,
    waits: &[bool],
    awaits: &[bool],
    of: bool,
) -> Result<String, Fail>
    requires few { length waits.now ≤ 4 }
    requires room { length waits.now ≤ room_of links.now }
{
    let mut text = String::new(alloc);
    let mut at = first(links, waits, awaits, of);
    for _ in 0..waits.len() {
        let Some(activity) = at else {
            break;
        };
        if waits.len() <= activity as usize {
            break;
        }
        write!(text, "{activity}")?;
        at = links.behind(activity);
    }
    Ok(text)
}

#[test]
fn passes_a_lock_on(rt: HostRuntime) -> Result<(), Fail> {
    let alloc = rt.alloc();
    let mut links = Links::new(alloc);
    links.reserve(4)?;
    let mut locks = Locks::new(alloc);
    locks.add()?;
    let mut waits = [false; 4];
    let mut awaits = [false; 4];
    for (call, of, wanted, entrants, waiters) in &CALLS {
        let found = make_call(
            &rt,
            &mut links,
            &mut locks,
            &mut waits,
            *call,
            Verdicts { of: *of },
        );
        assert_eq!(rt; found, *wanted, "at {call:?}");
        note(&mut awaits, *call);
        let entering = shown(alloc, &links, &waits, &awaits, false)?;
        assert_eq!(rt;
            entering.as_str(),
            *entrants,
            "who is to enter behind {call:?}"
        );
        let awaiting = shown(alloc, &links, &waits, &awaits, true)?;
        assert_eq!(rt;
            awaiting.as_str(),
            *waiters,
            "who awaits a condition behind {call:?}"
        );
    }
    Ok(())
}
