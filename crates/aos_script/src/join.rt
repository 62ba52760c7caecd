// Neighbouring entries of a script, joined.

ghost use Rattle.std.specs.Prelude.{◌≡◌, ◌-◌};
ghost use Rattle.aos_base.specs.declared.kernel.Sched.TheVariants.{Steps};
ghost use Rattle.aos_script.specs.Join.{join, join_within};

use aos_base::{MAX_STEPS, Sched};

/// What two neighbouring entries come to.
#[derive(Clone, Copy)]
pub enum Neighbours {
    /// They are one.
    One(Sched),
    /// They are two, and no more of the second joins the first.
    Two(Sched, Sched),
}

/// So many steps of a worker, and then more of it.
fn join_steps(worker: u32, count: u32, more: u32) -> Neighbours
    ensures { result ≡ join_within (1000000000 - count) worker count more }
{
    let room = MAX_STEPS.saturating_sub(count);
    if more <= room {
        Neighbours::One(Sched::Steps(worker, count + more))
    } else {
        Neighbours::Two(
            Sched::Steps(worker, MAX_STEPS),
            Sched::Steps(worker, more - room),
        )
    }
}

/// So many steps of a worker, and then this entry.
fn join_behind(worker: u32, count: u32, next: Sched) -> Neighbours
    ensures { result ≡ join (Steps worker count) next }
{
    let run = Sched::Steps(worker, count);
    match next {
        Sched::Steps(other, more) => {
            if worker == other {
                join_steps(worker, count, more)
            } else {
                Neighbours::Two(run, next)
            }
        }
        Sched::Tick(_) => Neighbours::Two(run, next),
    }
}

/// Two neighbouring entries: steps of one worker are joined, up to 10^9.
pub fn join(first: Sched, second: Sched) -> Neighbours
    ensures { result ≡ join first second }
{
    match first {
        Sched::Steps(worker, count) => join_behind(worker, count, second),
        Sched::Tick(_) => Neighbours::Two(first, second),
    }
}
