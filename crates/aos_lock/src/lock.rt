// One lock: who asks for it, who waits, and to whom a release gives it.

ghost use Rattle.std.specs.Prelude.{◌≡◌, ◌↔◌, ℕ, ◌<◌, ◌++◌, ◌∷◌, [], Some, None, not};
ghost use Rattle.std.specs.List.{Contains};
ghost use Rattle.aos_queue.specs.Lists.{list_in, room_of, Belongs, KeepsOthers, SameTable};
ghost use Rattle.aos_lock.specs.Heirs.{heir_by, passed_to, new_owner, entered_owner, does_wait, joined, after_passed, queued, serves, first_served, to_first};
ghost use Rattle.aos_lock.specs.Waits.{entrants_of, waiters_of, numbers_of, LockBelongs, KeepsMarks};

use crate::test::Test;
use aos_base::Verdict;
use aos_queue::{Links, Queue};

/// What one who asks for a lock gets.
#[derive(Clone, Copy, PartialEq, Eq, Debug)]
pub enum Entered {
    /// The lock, which nobody owned.
    Taken,
    /// A place behind all who wait.
    Waits,
    /// Nothing: it owns the lock already.
    Recursive,
}

/// To whom a lock passed: to a waiter, whose condition holds or traps, else to an entrant, else to nobody.
#[derive(Clone, Copy, PartialEq, Eq, Debug)]
pub enum Passed {
    Waiter(u32),
    Entrant(u32),
    Free,
}

/// A lock: its owner, those who are to enter, and those who await a condition, each in a queue.
#[derive(Drop)]
pub(crate) struct Lock {
    pub(crate) owner: Option<u32>,
    pub(crate) entrants: Queue,
    pub(crate) waiters: Queue,
}

impl Passed {
    /// Who owns the lock then.
    pub fn owner(self) -> Option<u32>
        ensures { result ≡ new_owner self }
    {
        match self {
            Passed::Waiter(activity) => Some(activity),
            Passed::Entrant(activity) => Some(activity),
            Passed::Free => None,
        }
    }
}

impl Lock {
    /// Puts one who waits behind all others: for a condition, or else to enter.
    pub(crate) fn join(&mut self, links: &mut Links, activity: u32, awaits: bool)
        requires belongs { LockBelongs links.old self.old }
        requires reserved { activity < room_of links.old }
        requires elsewhere { Contains (numbers_of links.old self.old) activity → ⊥ }
        ensures owner { self.new.owner ≡ self.old.owner }
        ensures entrants { entrants_of links.new self.new ≡
            joined (not awaits) activity (entrants_of links.old self.old) }
        ensures waiters { waiters_of links.new self.new ≡
            joined awaits activity (waiters_of links.old self.old) }
        ensures belongs { LockBelongs links.new self.new }
        ensures others { let touched = activity ∷ numbers_of links.old self.old in
            KeepsOthers links.old links.new touched }
        ensures marks { KeepsMarks links.old links.new activity }
    {
        if awaits {
            links.put_last(&mut self.waiters, activity);
        } else {
            links.put_last(&mut self.entrants, activity);
        }
    }

    /// Takes the lock for one who asks for it, where nobody owns it. Where another one owns it, it waits behind all others.
    pub(crate) fn enter(&mut self, links: &mut Links, activity: u32) -> Entered
        requires belongs { LockBelongs links.old self.old }
        requires reserved { activity < room_of links.old }
        requires elsewhere { Contains (numbers_of links.old self.old) activity → ⊥ }
        ensures recursive { (result ≡ Entered.Recursive) ↔ (self.old.owner ≡ Some activity) }
        ensures taken { (result ≡ Entered.Taken) ↔ (self.old.owner ≡ None) }
        ensures unchanged { result ≡ Entered.Recursive →
            (self.new ≡ self.old) × (links.new ≡ links.old) }
        ensures owner { self.new.owner ≡ entered_owner result activity self.old.owner }
        ensures entrants { entrants_of links.new self.new ≡
            joined (does_wait result) activity (entrants_of links.old self.old) }
        ensures waiters { waiters_of links.new self.new ≡ waiters_of links.old self.old }
        ensures belongs { LockBelongs links.new self.new }
        ensures others { let touched = activity ∷ numbers_of links.old self.old in
            KeepsOthers links.old links.new touched }
        ensures marks { KeepsMarks links.old links.new activity }
    {
        match self.owner {
            None => {
                self.owner = Some(activity);
                Entered::Taken
            },
            Some(owner) => {
                if owner == activity {
                    return Entered::Recursive;
                }
                self.join(links, activity, false);
                Entered::Waits
            },
        }
    }

    /// Gives the lock to its heir, who no longer waits then.
    pub(crate) fn release<T: Test>(&mut self, links: &mut Links, test: &mut T) -> Passed
        requires { LockBelongs links.old self.old }
        ensures heir { let es = entrants_of links.old self.old in
            let ws = waiters_of links.old self.old in
            result ≡ passed_to (heir_by (T.verdict_of test.old) (queued es ws)) }
        ensures owner { self.new.owner ≡ new_owner result }
        ensures entrants { entrants_of links.new self.new ≡
            after_passed result (entrants_of links.old self.old) }
        ensures waiters { waiters_of links.new self.new ≡
            after_passed result (waiters_of links.old self.old) }
        ensures belongs { LockBelongs links.new self.new }
        ensures others { KeepsOthers links.old links.new (numbers_of links.old self.old) }
        ensures table { SameTable links.old links.new }
        ensures verdicts { (other : ℕ) → T.verdict_of test.new other ≡ T.verdict_of test.old other }
        ensures held { (h : T.Held) → T.held test.old h → T.held test.new h }
    {
        match served_waiter(links, &self.waiters, test) {
            Some(waiter) => {
                links.take(&mut self.waiters, waiter);
                self.owner = Some(waiter);
                Passed::Waiter(waiter)
            },
            None => self.let_in(links),
        }
    }

    /// Gives the lock to the first entrant, or to nobody where there is none.
    fn let_in(&mut self, links: &mut Links) -> Passed
        requires { LockBelongs links.old self.old }
        ensures first { result ≡ to_first (entrants_of links.old self.old) }
        ensures owner { self.new.owner ≡ new_owner result }
        ensures entrants { entrants_of links.new self.new ≡
            after_passed result (entrants_of links.old self.old) }
        ensures waiters { waiters_of links.new self.new ≡
            after_passed result (waiters_of links.old self.old) }
        ensures belongs { LockBelongs links.new self.new }
        ensures others { KeepsOthers links.old links.new (numbers_of links.old self.old) }
        ensures table { SameTable links.old links.new }
    {
        match links.take_first(&mut self.entrants) {
            Some(entrant) => {
                self.owner = Some(entrant);
                Passed::Entrant(entrant)
            },
            None => {
                self.owner = None;
                Passed::Free
            },
        }
    }

    /// Puts one who awaits a condition behind all others, and gives the lock to its heir.
    pub(crate) fn wait<T: Test>(&mut self, links: &mut Links, activity: u32, test: &mut T) -> Passed
        requires belongs { LockBelongs links.old self.old }
        requires reserved { activity < room_of links.old }
        requires elsewhere { Contains (numbers_of links.old self.old) activity → ⊥ }
        ensures heir { let es = entrants_of links.old self.old in
            let ws = waiters_of links.old self.old ++ activity ∷ [] in
            result ≡ passed_to (heir_by (T.verdict_of test.old) (queued es ws)) }
        ensures owner { self.new.owner ≡ new_owner result }
        ensures entrants { entrants_of links.new self.new ≡
            after_passed result (entrants_of links.old self.old) }
        ensures waiters { let ws = waiters_of links.old self.old ++ activity ∷ [] in
            waiters_of links.new self.new ≡ after_passed result ws }
        ensures belongs { LockBelongs links.new self.new }
        ensures others { let touched = activity ∷ numbers_of links.old self.old in
            KeepsOthers links.old links.new touched }
        ensures marks { KeepsMarks links.old links.new activity }
        ensures verdicts { (other : ℕ) → T.verdict_of test.new other ≡ T.verdict_of test.old other }
        ensures held { (h : T.Held) → T.held test.old h → T.held test.new h }
    {
        self.join(links, activity, true);
        self.release(links, test)
    }
}

/// Whether a waiter's condition doesn't fail.
fn is_served<T: Test>(waiter: u32, test: &mut T) -> bool
    ensures served { result ≡ serves (T.verdict_of test.old waiter) }
    ensures verdicts { (other : ℕ) → T.verdict_of test.new other ≡ T.verdict_of test.old other }
    ensures held { (h : T.Held) → T.held test.old h → T.held test.new h }
{
    test.verdict(waiter) != Verdict::Fails
}

/// The first of these waiters whose condition doesn't fail.
fn served_waiter<T: Test>(links: &Links, waiters: &Queue, test: &mut T) -> Option<u32>
    requires { Belongs links.now waiters.now }
    ensures first { let ws = list_in links.now waiters.now in
        result ≡ first_served (T.verdict_of test.old) ws }
    ensures verdicts { (other : ℕ) → T.verdict_of test.new other ≡ T.verdict_of test.old other }
    ensures held { (h : T.Held) → T.held test.old h → T.held test.new h }
{
    let mut at = waiters.first();
    while let Some(waiter) = at {
        if is_served(waiter, test) {
            return Some(waiter);
        }
        at = links.behind(waiter);
    }
    None
}
