// A queue, of which the links know the numbers.

ghost use Rattle.std.specs.Prelude.{◌≡◌, [], slice_get};
ghost use Rattle.aos_queue.specs.declared.links.Links.{Links};
ghost use Rattle.aos_queue.specs.declared.queue.Queue.{Queue};
ghost use Rattle.aos_queue.specs.Lists.{list_in, Belongs};

/// A queue of numbers, which the links through which it was filled see as a list. An empty one is so in any links.
#[derive(Drop)]
pub struct Queue {
    pub(crate) first: Option<u32>,
    /// The last number; where there is none it says nothing.
    pub(crate) last: u32,
}

impl Queue {
    /// An empty queue.
    pub fn new() -> Self
        ensures belongs { (links : Links) → Belongs links result }
        ensures empty { (links : Links) → list_in links result ≡ [] }
    {
        Queue {
            first: None,
            last: 0,
        }
    }

    /// The first number, or None where the queue is empty.
    pub fn first(&self) -> Option<u32>
        ensures { (links : Links) → Belongs links self.now →
            result ≡ slice_get (list_in links self.now) 0 }
    {
        self.first
    }
}

/// A queue that is empty in its links is so in any, and belongs to them.
pub fn empty_in_any()
    ensures belongs { (links other : Links) (queue : Queue) → Belongs links queue →
        list_in links queue ≡ [] → Belongs other queue }
    ensures empty { (links other : Links) (queue : Queue) → Belongs links queue →
        list_in links queue ≡ [] → list_in other queue ≡ [] }
{}
