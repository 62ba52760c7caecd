// The law at a small program, whose waiter is given its lock.

ghost use Rattle.std.specs.Prelude.{◌≡◌, Some, slice_get};
ghost use Rattle.aos_base.specs.declared.kernel.LockName.TheVariants as lock;
ghost use Rattle.aos_base.specs.declared.kernel.Verdict.TheVariants.{Holds};
ghost use Rattle.aos_base.specs.Machine.{Step};
ghost use Rattle.aos_concurrency.specs.Handover.{IsGiven, OfOthers};
ghost use Rattle.aos_typed.specs.Conditions.{conditions};
ghost use Rattle.aos_typed.specs.Source.{source};
ghost use Rattle.aos_typed.specs.WellTyped.{IsWellTyped};
ghost use Rattle.aos_uses.specs.Guarded.{IsLocal, IsQuiet};
ghost use Rattle.aos_stability.specs.Example.{IsCalled, at_the_call, at_the_end, at_the_handover, at_the_release, condition, gates, up_to_the_end};

/// A gate whose field is set by a quiet initializer, and whose body waits for it: its program meets what the law asks for, the initializer
/// is carried out, and what is awaited is local. An execution comes to an entry that passes the gate's lock to its waiter, which then isn't
/// the next to make a turn; up to that it owns the lock, and the condition holds.
pub fn gate_is_given_its_lock()
    ensures typed { IsWellTyped gates }
    ensures quiet { IsQuiet gates 3 }
    ensures called { IsCalled at_the_call 0 3 1 }
    ensures number { slice_get (conditions gates) 0 ≡ Some condition }
    ensures local { IsLocal gates condition }
    ensures given { IsGiven (source gates) at_the_release (Step 0) 1 (lock.Object 1) 0 }
    ensures others { OfOthers (source gates) 1 up_to_the_end at_the_handover }
    ensures owner { at_the_end.book.owner (lock.Object 1) ≡ Some 1 }
    ensures holds { (source gates).verdict at_the_end.store (at_the_release.frames 1) 0 ≡ Holds }
{}
