// The laws over any machine. S and T are the types of stores, F and G those of an activity's
// frames.

ghost use Rattle.aos_concurrency.specs.Laws.{Exclusive, AskedFromOutside, NeverDead, InOrder, TrapsRecorded, TrapsTold, HandedOver, FiveWays, StaysTidy, Settles, SettlesLater, LastInBudget, OneOnWorker, StaysIdle, SeenAlike, ToldAlike, SameHeir, StayAlike, JoinAlike};

/// Whoever is in a region of a lock and doesn't wait there owns it, and what goes with it, in every
/// state of every execution.
pub fn one_owner<S, F>()
    ensures exclusive { Exclusive S F }
    ensures outside { AskedFromOutside S F }
{}

/// Where no turn enters a region or awaits a condition, no execution comes to be Dead.
pub fn never_dead<S, F>()
    ensures outcome { NeverDead S F }
{}

/// Whatever the machine, each activity stands in at most one place, and an entry adds the trap row
/// of its turn.
pub fn in_order<S, F>()
    ensures places { InOrder S F }
    ensures traps { TrapsRecorded S F }
    ensures told { TrapsTold S F }
{}

/// Whatever the machine, a worker has one activity at most, and one that has none has none while
/// others alone make steps and ticks.
pub fn one_on_each_worker<S, F>()
    ensures one { OneOnWorker S F }
    ensures idle { StaysIdle S F }
{}

/// Machines that make the same turns are seen to do the same under every schedule.
pub fn same_executions<S, F, T, G>()
    ensures observation { SeenAlike S F T G }
    ensures events { ToldAlike S F T G }
{}

/// A waiter whose condition held owns its lock until its turn, and a local condition holds until
/// then.
pub fn hands_over<S, F>()
    ensures handed { HandedOver S F }
{}

/// A release chooses the same of lists in which the entrants stand in one order and the waiters
/// too, and leaves such lists.
pub fn alike_lists()
    ensures heir { SameHeir }
    ensures left { StayAlike }
    ensures joined { JoinAlike }
{}

/// The store and the frames of those that act change in five ways only.
pub fn acts_in_five_ways<S, F>()
    ensures ways { FiveWays S F }
    ensures tidy { StaysTidy S F }
{}

/// Turns on an activity's own frames alone, made elsewhere, are steps at the place of the log where
/// they are added.
pub fn private_turns<S, F>()
    ensures settle { Settles S F }
    ensures later { SettlesLater S F }
    ensures budget { LastInBudget }
{}
