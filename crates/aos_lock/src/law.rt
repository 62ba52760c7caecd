// What callers of locks need besides.

ghost use Rattle.std.specs.Prelude.{◌≡◌, ℕ, List};
ghost use Rattle.std.specs.List.{Contains};
ghost use Rattle.aos_base.specs.declared.kernel.Verdict.{Verdict};
ghost use Rattle.aos_base.specs.Lock.{Waiting, Heir, judged, heir, after_heir, entrants, waiters};
ghost use Rattle.aos_queue.specs.declared.links.Links.{Links};
ghost use Rattle.aos_queue.specs.Lists.{mark_of, KeepsOthers};
ghost use Rattle.aos_lock.specs.declared.locks.Locks.{Locks};
ghost use Rattle.aos_lock.specs.Heirs.{by_waiter, heir_by, passed_to, after_passed, queued};
ghost use Rattle.aos_lock.specs.Waits.{numbers, Belong, WaitsNowhere, SameWaiting};

/// A change of the links that touches nobody who waits for a lock leaves all locks as they were.
pub fn links_change()
    ensures belong { (old new : Links) (locks : Locks) (touched : List ℕ) →
        KeepsOthers old new touched → Belong old locks →
        ((activity : ℕ) → Contains touched activity → WaitsNowhere old locks activity) →
        Belong new locks }
    ensures lists { (old new : Links) (locks : Locks) (touched : List ℕ) →
        KeepsOthers old new touched → Belong old locks →
        ((activity : ℕ) → Contains touched activity → WaitsNowhere old locks activity) →
        ((n : ℕ) → mark_of new n ≡ mark_of old n) →
        (lock : ℕ) → SameWaiting old locks new locks lock }
{}

/// A lock stands for each list in which its entrants and its waiters stand, each in their order, whatever numbers their
/// conditions have: it has the list's heir, and whoever is left of the list is left of both.
pub fn stands_for_lists()
    ensures heir { (verdict : ℕ → ℕ → Verdict) (of : ℕ → Verdict) (es : List Waiting) →
        ((e : Waiting) → Contains es e →
        judged verdict e.activity e.wants ≡ judged (by_waiter of) e.activity e.wants) →
        heir_by of (queued (numbers (entrants es)) (numbers (waiters es))) ≡ heir verdict es }
    ensures entrants { (chosen : Heir) (es : List Waiting) →
        numbers (entrants (after_heir chosen es)) ≡
        after_passed (passed_to chosen) (numbers (entrants es)) }
    ensures waiters { (chosen : Heir) (es : List Waiting) →
        numbers (waiters (after_heir chosen es)) ≡
        after_passed (passed_to chosen) (numbers (waiters es)) }
{}
