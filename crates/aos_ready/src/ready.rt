// The queues of those that are ready.

ghost use Rattle.std.specs.Prelude.{◌≡◌, ◌≢◌, ℕ, ◌<◌, ◌++◌, ◌∷◌, [], None, slice_get};
ghost use Rattle.std.specs.List.{Contains};
ghost use Rattle.aos_queue.specs.declared.links.Links.{Links};
ghost use Rattle.aos_queue.specs.Lists.{room_of, KeepsOthers, SameTable};
ghost use Rattle.aos_ready.specs.Order.{ready_in, all_ready, without_first, highest_in, Belong};

use aos_base::Priority;
use aos_queue::{Links, Queue};

/// The ready activities, known by their numbers. Those of one priority go in the order in which they became ready.
#[derive(Drop)]
pub struct Ready {
    low: Queue,
    normal: Queue,
    high: Queue,
}

impl Ready {
    /// None is ready.
    #[tactic(auto, unfolding(crate::specs::Order::ready_in))]
    pub fn new() -> Self
        ensures belong { (links : Links) → Belong links result }
        ensures none { (links : Links) (p : Priority) → ready_in links result p ≡ [] }
    {
        Ready {
            low: Queue::new(),
            normal: Queue::new(),
            high: Queue::new(),
        }
    }

    /// Puts an activity that isn't ready behind all of its priority.
    #[tactic(auto, unfolding(crate::specs::Order::ready_in))]
    pub fn add(&mut self, links: &mut Links, activity: u32, priority: Priority)
        requires belong { Belong links.old self.old }
        requires reserved { activity < room_of links.old }
        requires elsewhere { (p : Priority) → Contains (ready_in links.old self.old p) activity →
            ⊥ }
        ensures last { ready_in links.new self.new priority ≡
            ready_in links.old self.old priority ++ activity ∷ [] }
        ensures lists { (p : Priority) → p ≢ priority →
            ready_in links.new self.new p ≡ ready_in links.old self.old p }
        ensures belong { Belong links.new self.new }
        ensures others { let touched = activity ∷ ready_in links.old self.old priority in
            KeepsOthers links.old links.new touched }
        ensures table { SameTable links.old links.new }
    {
        match priority {
            Priority::Low => links.put_last(&mut self.low, activity),
            Priority::Normal => links.put_last(&mut self.normal, activity),
            Priority::High => links.put_last(&mut self.high, activity),
        }
    }

    /// The highest priority at which one is ready.
    fn highest(&self) -> Option<Priority>
        ensures { (links : Links) → Belong links self.now → result ≡ highest_in links self.now }
    {
        if self.high.first().is_some() {
            return Some(Priority::High);
        }
        if self.normal.first().is_some() {
            return Some(Priority::Normal);
        }
        if self.low.first().is_some() {
            return Some(Priority::Low);
        }
        None
    }

    /// Takes the first one of the highest priority at which one is ready, or answers None where none is.
    #[tactic(auto, unfolding(crate::specs::Order::ready_in))]
    pub fn next(&mut self, links: &mut Links) -> Option<u32>
        requires { Belong links.old self.old }
        ensures first { result ≡ slice_get (all_ready links.old self.old) 0 }
        ensures lists { (p : Priority) → ready_in links.new self.new p ≡
            without_first result (ready_in links.old self.old p) }
        ensures belong { Belong links.new self.new }
        ensures others { KeepsOthers links.old links.new (all_ready links.old self.old) }
        ensures table { SameTable links.old links.new }
    {
        match self.highest() {
            None => None,
            Some(Priority::Low) => links.take_first(&mut self.low),
            Some(Priority::Normal) => links.take_first(&mut self.normal),
            Some(Priority::High) => links.take_first(&mut self.high),
        }
    }
}
