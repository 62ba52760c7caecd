// The table that links numbers into queues, and their marks.

ghost use Rattle.std.specs.Prelude.{◌≡◌, ◌≢◌, ℕ, ◌<◌, ◌++◌, ◌∷◌, [], List, max, false, length, IfSome, IfNone, IsNone, ◌↔◌, OnOk, OnErr, slice_get};
ghost use Rattle.std.specs.List.{Contains};
ghost use Rattle.aos_queue.specs.declared.queue.Queue.{Queue};
ghost use Rattle.aos_queue.specs.Lists.{next_in, prior_in, list_in, room_of, mark_of, without, Belongs, KeepsOthers, SameTable};

use crate::queue::Queue;
use aos_base::NoMemory;
use std::alloc::Global;
use std::mem;

/// What the table has of a number: the ones behind it and before it in its queue, and its mark.
#[derive(Clone, Copy)]
pub(crate) struct Node {
    pub(crate) next: Option<u32>,
    /// Of a queue's first number it says nothing.
    pub(crate) before: u32,
    pub(crate) is_marked: bool,
}

/// The table through which queues are linked both ways, and a mark for each number. The numbers below a bound, its
/// room, are reserved.
#[derive(Drop)]
pub struct Links {
    nodes: Vec<Node>,
}

impl Links {
    /// Links with no number reserved. They take no memory.
    #[tactic(auto, unfolding(crate::specs::Lists::room_of, crate::specs::Lists::mark_of))]
    pub fn new(alloc: Global) -> Self
        ensures room { room_of result ≡ 0 }
        ensures marks { (n : ℕ) → mark_of result n ≡ false }
    {
        Links {
            nodes: Vec::new(alloc),
        }
    }

    /// Reserves the numbers below `n`, beside those that are so already. Where memory is wanted, nothing changes.
    #[tactic(auto, unfolding(crate::specs::Lists::room_of, crate::specs::Lists::mark_of))]
    pub fn reserve(&mut self, n: u32) -> Result<(), NoMemory>
        ensures ok { OnOk result (room_of self.new ≡ max (room_of self.old) n) }
        ensures err { OnErr result (room_of self.new ≡ room_of self.old) }
        ensures marks { (m : ℕ) → mark_of self.new m ≡ mark_of self.old m }
        ensures queues { KeepsOthers self.old self.new [] }
    {
        let room = self.nodes.len().max(n as usize);
        self.nodes.resize(
            room,
            Node {
                next: None,
                before: 0,
                is_marked: false,
            },
        )?;
        Ok(())
    }

    /// What the table has behind a number.
    #[tactic(auto, unfolding(crate::specs::Lists::room_of, crate::specs::Lists::mark_of))]
    fn next(&self, n: u32) -> Option<u32>
        requires { n < room_of self.now }
        ensures { result ≡ next_in self.now.nodes.items n }
    {
        self.nodes[n as usize].next
    }

    /// Sets what the table has behind a number.
    #[tactic(auto, unfolding(crate::specs::Lists::room_of, crate::specs::Lists::mark_of))]
    fn link(&mut self, n: u32, next: Option<u32>)
        requires { n < room_of self.old }
        ensures linked { next_in self.new.nodes.items n ≡ next }
        ensures others { (m : ℕ) → m ≢ n →
            next_in self.new.nodes.items m ≡ next_in self.old.nodes.items m }
        ensures before { (m : ℕ) →
            prior_in self.new.nodes.items m ≡ prior_in self.old.nodes.items m }
        ensures table { SameTable self.old self.new }
    {
        self.nodes[n as usize].next = next;
    }

    /// What the table has before a number.
    #[tactic(auto, unfolding(crate::specs::Lists::room_of, crate::specs::Lists::mark_of))]
    fn prior(&self, n: u32) -> u32
        requires { n < room_of self.now }
        ensures { result ≡ prior_in self.now.nodes.items n }
    {
        self.nodes[n as usize].before
    }

    /// Sets what the table has before a number.
    #[tactic(auto, unfolding(crate::specs::Lists::room_of, crate::specs::Lists::mark_of))]
    fn link_back(&mut self, n: u32, before: u32)
        requires { n < room_of self.old }
        ensures linked { prior_in self.new.nodes.items n ≡ before }
        ensures others { (m : ℕ) → m ≢ n →
            prior_in self.new.nodes.items m ≡ prior_in self.old.nodes.items m }
        ensures next { (m : ℕ) →
            next_in self.new.nodes.items m ≡ next_in self.old.nodes.items m }
        ensures table { SameTable self.old self.new }
    {
        self.nodes[n as usize].before = before;
    }

    /// Puts a number that stands in no queue behind all others of this one. A queue that shares no number with this one,
    /// and hasn't the new one, keeps its list.
    pub fn put_last(&mut self, queue: &mut Queue, n: u32)
        requires belongs { Belongs self.old queue.old }
        requires reserved { n < room_of self.old }
        requires elsewhere { ¬ Contains (list_in self.old queue.old) n }
        ensures last { list_in self.new queue.new ≡ list_in self.old queue.old ++ n ∷ [] }
        ensures belongs { Belongs self.new queue.new }
        ensures others { KeepsOthers self.old self.new (n ∷ list_in self.old queue.old) }
        ensures table { SameTable self.old self.new }
    {
        self.link(n, None);
        let last = mem::replace(&mut queue.last, n);
        self.link_back(n, last);
        match queue.first {
            None => queue.first = Some(n),
            Some(_) => self.link(last, Some(n)),
        }
    }

    /// Takes the first number out, or answers None where the queue is empty. A queue that shares no number with this one
    /// keeps its list.
    pub fn take_first(&mut self, queue: &mut Queue) -> Option<u32>
        requires { Belongs self.old queue.old }
        ensures first { let rest = list_in self.new queue.new in
            IfSome result (λ n. list_in self.old queue.old ≡ n ∷ rest) }
        ensures empty { IsNone result ↔ (list_in self.old queue.old ≡ []) }
        ensures unchanged { IfNone result (list_in self.new queue.new ≡ []) }
        ensures belongs { Belongs self.new queue.new }
        ensures others { KeepsOthers self.old self.new (list_in self.old queue.old) }
        ensures table { SameTable self.old self.new }
    {
        let Some(first) = queue.first else {
            return None;
        };
        queue.first = self.next(first);
        Some(first)
    }

    /// Takes a number out of its queue, with no walk. A queue that shares no number with this one keeps its list.
    pub fn take(&mut self, queue: &mut Queue, n: u32)
        requires belongs { Belongs self.old queue.old }
        requires within { Contains (list_in self.old queue.old) n }
        ensures taken { list_in self.new queue.new ≡ without n (list_in self.old queue.old) }
        ensures belongs { Belongs self.new queue.new }
        ensures others { KeepsOthers self.old self.new (list_in self.old queue.old) }
        ensures table { SameTable self.old self.new }
    {
        let next = self.next(n);
        if queue.first == Some(n) {
            queue.first = next;
            return;
        }
        self.take_later(queue, n, next);
    }

    /// Takes a number out that isn't the first of its queue; `next` is what the table has behind it.
    fn take_later(&mut self, queue: &mut Queue, n: u32, next: Option<u32>)
        requires belongs { Belongs self.old queue.old }
        requires within { Contains (list_in self.old queue.old) n }
        requires later { slice_get (list_in self.old queue.old) 0 ≢ Some n }
        requires next { next ≡ next_in self.old.nodes.items n }
        ensures taken { list_in self.new queue.new ≡ without n (list_in self.old queue.old) }
        ensures belongs { Belongs self.new queue.new }
        ensures others { KeepsOthers self.old self.new (list_in self.old queue.old) }
        ensures table { SameTable self.old self.new }
    {
        let before = self.prior(n);
        self.link(before, next);
        match next {
            None => queue.last = before,
            Some(behind) => self.link_back(behind, before),
        }
    }

    /// The number behind another one in a queue of these links, or None behind the last.
    pub fn behind(&self, n: u32) -> Option<u32>
        requires { n < room_of self.now }
        ensures { (queue : Queue) (front back : List ℕ) → Belongs self.now queue →
            list_in self.now queue ≡ front ++ n ∷ back → result ≡ slice_get back 0 }
    {
        self.next(n)
    }

    /// Sets a number's mark, and changes nothing else.
    #[tactic(auto, unfolding(crate::specs::Lists::room_of, crate::specs::Lists::mark_of))]
    pub fn set_mark(&mut self, n: u32, on: bool)
        requires { n < room_of self.old }
        ensures set { mark_of self.new n ≡ on }
        ensures marks { (m : ℕ) → m ≢ n → mark_of self.new m ≡ mark_of self.old m }
        ensures room { room_of self.new ≡ room_of self.old }
        ensures queues { KeepsOthers self.old self.new [] }
    {
        self.nodes[n as usize].is_marked = on;
    }

    /// A number's mark: false until it was set.
    #[tactic(auto, unfolding(crate::specs::Lists::room_of, crate::specs::Lists::mark_of))]
    pub fn mark(&self, n: u32) -> bool
        requires { n < room_of self.now }
        ensures { result ≡ mark_of self.now n }
    {
        self.nodes[n as usize].is_marked
    }
}
