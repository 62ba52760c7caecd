// All locks, by their numbers.

ghost use Rattle.std.specs.Prelude.{◌≡◌, ◌↔◌, ℕ, ◌<◌, ◌+◌, ◌-◌, ◌^◌, ◌++◌, ◌∷◌, [], Some, None, not, IfOk, OnOk, OnErr};
ghost use Rattle.aos_queue.specs.declared.links.Links.{Links};
ghost use Rattle.aos_queue.specs.Lists.{room_of, mark_of, KeepsOthers, SameTable};
ghost use Rattle.aos_lock.specs.Heirs.{heir_by, passed_to, new_owner, entered_owner, does_wait, joined, after_passed, queued};
ghost use Rattle.aos_lock.specs.Waits.{count_of, owner_of, entrants_in, waiters_in, numbers_in, Belong, WaitsNowhere, IsUnawaited, SameWaiting, KeepsLocks, KeepsMarks};

use crate::lock::{Entered, Lock, Passed};
use crate::test::Test;
use aos_base::NoMemory;
use aos_queue::{Links, Queue};
use std::alloc::Global;

/// Locks, numbered from 0. Those who wait are known by their numbers, of which the links say in which order they wait.
#[derive(Drop)]
pub struct Locks {
    locks: Vec<Lock>,
}

impl Locks {
    /// No locks. They take no memory.
    #[tactic(auto, unfolding(crate::specs::Waits::count_of))]
    pub fn new(alloc: Global) -> Self
        ensures count { count_of result ≡ 0 }
        ensures belong { (links : Links) → Belong links result }
    {
        Locks {
            locks: Vec::new(alloc),
        }
    }

    /// Adds a free lock, whose number is the next one. Where memory is wanted, nothing changes.
    #[tactic(auto, unfolding(crate::specs::Waits::count_of, crate::specs::Waits::owner_of))]
    pub fn add(&mut self) -> Result<u32, NoMemory>
        requires { count_of self.old < 2 ^ 32 - 1 }
        ensures number { IfOk result (λ lock. lock ≡ count_of self.old) }
        ensures ok { OnOk result (count_of self.new ≡ count_of self.old + 1) }
        ensures free { IfOk result (λ lock. owner_of self.new lock ≡ None) }
        ensures awaited { (links : Links) →
            IfOk result (λ lock. IsUnawaited links self.new lock) }
        ensures err { OnErr result (count_of self.new ≡ count_of self.old) }
        ensures owners { (other : ℕ) → other < count_of self.old →
            owner_of self.new other ≡ owner_of self.old other }
        ensures lists { (links : Links) (other : ℕ) → other < count_of self.old →
            SameWaiting links self.old links self.new other }
        ensures belong { (links : Links) → Belong links self.old → Belong links self.new }
    {
        self.locks.reserve(1)?;
        let lock = self.locks.len() as u32;
        self.locks.push_reserved(Lock {
            owner: None,
            entrants: Queue::new(),
            waiters: Queue::new(),
        });
        Ok(lock)
    }

    /// How many locks there are.
    #[tactic(auto, unfolding(crate::specs::Waits::count_of))]
    pub fn count(&self) -> usize
        ensures { result ≡ count_of self.now }
    {
        self.locks.len()
    }

    /// A lock's owner, or None where nobody owns it.
    #[tactic(auto, unfolding(crate::specs::Waits::count_of, crate::specs::Waits::owner_of))]
    pub fn owner(&self, lock: u32) -> Option<u32>
        requires { lock < count_of self.now }
        ensures { result ≡ owner_of self.now lock }
    {
        self.locks[lock as usize].owner
    }

    /// An activity asks for a lock: it takes it where nobody owns it, and else waits, as an entrant behind all others.
    /// Where it owns the lock already, nothing changes.
    #[tactic(auto, unfolding(crate::specs::Waits::count_of))]
    pub fn enter(&mut self, links: &mut Links, lock: u32, activity: u32) -> Entered
        requires added { lock < count_of self.old }
        requires belong { Belong links.old self.old }
        requires reserved { activity < room_of links.old }
        requires elsewhere { WaitsNowhere links.old self.old activity }
        ensures recursive { let owner = owner_of self.old lock in
            (result ≡ Entered.Recursive) ↔ (owner ≡ Some activity) }
        ensures taken { (result ≡ Entered.Taken) ↔ (owner_of self.old lock ≡ None) }
        ensures unchanged { result ≡ Entered.Recursive → links.new ≡ links.old }
        ensures owner { owner_of self.new lock ≡
            entered_owner result activity (owner_of self.old lock) }
        ensures entrants { entrants_in links.new self.new lock ≡
            joined (does_wait result) activity (entrants_in links.old self.old lock) }
        ensures waiters { waiters_in links.new self.new lock ≡ waiters_in links.old self.old lock }
        ensures belong { Belong links.new self.new }
        ensures others { KeepsLocks links.old self.old links.new self.new lock }
        ensures queues { let touched = activity ∷ numbers_in links.old self.old lock in
            KeepsOthers links.old links.new touched }
        ensures marks { KeepsMarks links.old links.new activity }
    {
        self.locks[lock as usize].enter(links, activity)
    }

    /// An activity waits for a lock, behind all others, for a condition or else to enter, and whoever owns it keeps it.
    #[tactic(auto, unfolding(crate::specs::Waits::count_of))]
    pub fn join(&mut self, links: &mut Links, lock: u32, activity: u32, awaits: bool)
        requires added { lock < count_of self.old }
        requires belong { Belong links.old self.old }
        requires reserved { activity < room_of links.old }
        requires elsewhere { WaitsNowhere links.old self.old activity }
        ensures owner { owner_of self.new lock ≡ owner_of self.old lock }
        ensures entrants { entrants_in links.new self.new lock ≡
            joined (not awaits) activity (entrants_in links.old self.old lock) }
        ensures waiters { waiters_in links.new self.new lock ≡
            joined awaits activity (waiters_in links.old self.old lock) }
        ensures belong { Belong links.new self.new }
        ensures others { KeepsLocks links.old self.old links.new self.new lock }
        ensures queues { let touched = activity ∷ numbers_in links.old self.old lock in
            KeepsOthers links.old links.new touched }
        ensures marks { KeepsMarks links.old links.new activity }
    {
        self.locks[lock as usize].join(links, activity, awaits)
    }

    /// The lock is left, and passes to its heir: to the first waiter whose condition holds or traps, else to
    /// the first entrant, else to nobody (Muller 2002, on monitors).
    #[tactic(auto, unfolding(crate::specs::Waits::count_of))]
    pub fn leave<T: Test>(&mut self, links: &mut Links, lock: u32, test: &mut T) -> Passed
        requires added { lock < count_of self.old }
        requires belong { Belong links.old self.old }
        ensures heir { let es = entrants_in links.old self.old lock in
            let ws = waiters_in links.old self.old lock in
            result ≡ passed_to (heir_by (T.verdict_of test.old) (queued es ws)) }
        ensures owner { owner_of self.new lock ≡ new_owner result }
        ensures entrants { entrants_in links.new self.new lock ≡
            after_passed result (entrants_in links.old self.old lock) }
        ensures waiters { waiters_in links.new self.new lock ≡
            after_passed result (waiters_in links.old self.old lock) }
        ensures belong { Belong links.new self.new }
        ensures others { KeepsLocks links.old self.old links.new self.new lock }
        ensures queues { let touched = numbers_in links.old self.old lock in
            KeepsOthers links.old links.new touched }
        ensures table { SameTable links.old links.new }
        ensures verdicts { (other : ℕ) → T.verdict_of test.new other ≡ T.verdict_of test.old other }
        ensures held { (h : T.Held) → T.held test.old h → T.held test.new h }
    {
        self.locks[lock as usize].release(links, test)
    }

    /// The owner begins to wait for a condition, behind all others, and the lock passes to its heir as in `leave`.
    #[tactic(auto, unfolding(crate::specs::Waits::count_of))]
    pub fn wait<T: Test>(
        &mut self,
        links: &mut Links,
        lock: u32,
        activity: u32,
        test: &mut T,
    ) -> Passed
        requires added { lock < count_of self.old }
        requires belong { Belong links.old self.old }
        requires owner { owner_of self.old lock ≡ Some activity }
        requires reserved { activity < room_of links.old }
        requires elsewhere { WaitsNowhere links.old self.old activity }
        ensures heir { let es = entrants_in links.old self.old lock in
            let ws = waiters_in links.old self.old lock ++ activity ∷ [] in
            result ≡ passed_to (heir_by (T.verdict_of test.old) (queued es ws)) }
        ensures owner { owner_of self.new lock ≡ new_owner result }
        ensures entrants { entrants_in links.new self.new lock ≡
            after_passed result (entrants_in links.old self.old lock) }
        ensures waiters { let ws = waiters_in links.old self.old lock ++ activity ∷ [] in
            waiters_in links.new self.new lock ≡ after_passed result ws }
        ensures belong { Belong links.new self.new }
        ensures others { KeepsLocks links.old self.old links.new self.new lock }
        ensures queues { let touched = activity ∷ numbers_in links.old self.old lock in
            KeepsOthers links.old links.new touched }
        ensures marks { KeepsMarks links.old links.new activity }
        ensures verdicts { (other : ℕ) → T.verdict_of test.new other ≡ T.verdict_of test.old other }
        ensures held { (h : T.Held) → T.held test.old h → T.held test.new h }
    {
        self.locks[lock as usize].wait(links, activity, test)
    }
}
