// Locks: who asks for them, and to whom they pass.

ghost use Rattle.std.specs.Prelude.{◌≡◌, ℕ, not, List, Option, Some, IfOk, OnOk, OnErr};
ghost use Rattle.std.specs.List.{Contains};
ghost use Rattle.aos_base.specs.declared.kernel.Verdict.{Verdict};
ghost use Rattle.aos_base.specs.Lock.{is_lock, Waiting, Wants, Condition, enters, judged, heir};
ghost use Rattle.aos_base.specs.Book.{Stand, put, waiting, move, At};
ghost use Rattle.aos_lock.specs.Heirs.{by_waiter, passed_to, new_owner};
ghost use Rattle.aos_scheduler.specs.Numbers.{number_of};
ghost use Rattle.aos_scheduler.specs.Stands.{started_of, Stands, IsStood, IsOn, IsNowhere, with_last, StandsSame, HasEntered, left_by};

use crate::line::Line;
use crate::run_state::RunState;
use aos_base::{LockName, NoMemory};
use aos_lock::{Entered, Passed, Test};

impl Line {
    /// A lock's number. One that is asked for the first time gets the next.
    fn number(&mut self, lock: LockName) -> Result<u32, NoMemory>
        ensures number { IfOk result (λ number. number_of self.new.numbers lock ≡ Some number) }
        ensures same { StandsSame self.old self.new }
        ensures places { self.new.places ≡ self.old.places }
        ensures live { self.new.live ≡ self.old.live }
    {
        if let Some(number) = self.numbers.get(lock) {
            return Ok(number);
        }
        self.numbers.reserve(lock)?;
        if self.locks.count() >= u32::MAX as usize {
            return Err(NoMemory);
        }
        let number = self.locks.add()?;
        self.numbers.set(lock, number);
        Ok(number)
    }

    /// One that stands nowhere waits for a lock, behind all others: for a condition, or else to enter.
    fn join(&mut self, activity: u32, lock: LockName, number: u32, awaits: bool)
        requires nowhere { IsNowhere self.old activity }
        requires number { number_of self.old.numbers lock ≡ Some number }
        ensures stands { (line : List Stand) (owner : LockName → Option ℕ) →
            Stands self.old line owner →
            (wants : Wants) → awaits ≡ not (enters wants) →
            Stands self.new (with_last activity (At lock wants) line) owner }
        ensures started { started_of self.new ≡ started_of self.old }
    {
        self.locks.join(&mut self.links, number, activity, awaits);
        self.places[activity as usize] = RunState::At { lock, awaits };
        self.live += 1;
    }

    /// An activity on a worker asks for a lock: it takes it where nobody owns it, nothing changes where it owns it already, and
    /// else it leaves its worker and waits. Where memory is wanted, nothing changes.
    pub fn enter(&mut self, activity: u32, lock: LockName) -> Result<Entered, NoMemory>
        requires { IsOn self.old activity }
        ensures entered { (line : List Stand) (owner : LockName → Option ℕ) →
            Stands self.old line owner →
            IfOk result (λ entered. HasEntered self.new entered activity lock line owner) }
        ensures err { OnErr result (StandsSame self.old self.new) }
        ensures on { IfOk result (λ entered. entered ≡ Entered.Recursive → IsOn self.new activity) }
        ensures started { started_of self.new ≡ started_of self.old }
    {
        let number = self.number(lock)?;
        match self.locks.owner(number) {
            None => {
                self.locks.enter(&mut self.links, number, activity);
                Ok(Entered::Taken)
            }
            Some(owner) => {
                if owner == activity {
                    return Ok(Entered::Recursive);
                }
                self.leave(activity);
                self.join(activity, lock, number, false);
                Ok(Entered::Waits)
            }
        }
    }

    /// An activity on a worker leaves it, and waits for a condition in a lock's region, behind all others. Where memory is wanted,
    /// nothing changes.
    pub fn wait(&mut self, activity: u32, lock: LockName) -> Result<(), NoMemory>
        requires { IsOn self.old activity }
        ensures stands { (line : List Stand) (owner : LockName → Option ℕ) →
            Stands self.old line owner →
            (condition : ℕ) →
            OnOk result
            (Stands self.new (move activity (At lock (Condition condition)) line) owner) }
        ensures err { OnErr result (StandsSame self.old self.new) }
        ensures started { started_of self.new ≡ started_of self.old }
    {
        let number = self.number(lock)?;
        self.leave(activity);
        self.join(activity, lock, number, true);
        Ok(())
    }

    /// A lock passes to its heir, who stands nowhere then. It takes no memory.
    pub fn release<T: Test>(&mut self, lock: LockName, test: &mut T) -> Passed
        requires { IsStood self.old }
        ensures passed { (line : List Stand) (owner : LockName → Option ℕ) →
            Stands self.old line owner →
            (verdict : ℕ → ℕ → Verdict) →
            ((e : Waiting) → Contains (waiting lock line) e →
            judged verdict e.activity e.wants ≡
            judged (by_waiter (T.verdict_of test.old)) e.activity e.wants) →
            result ≡ passed_to (heir verdict (waiting lock line)) }
        ensures stands { (line : List Stand) (owner : LockName → Option ℕ) →
            Stands self.old line owner →
            Stands self.new (left_by result line) (put is_lock owner lock (new_owner result)) }
        ensures nowhere { (b : ℕ) → new_owner result ≡ Some b → IsNowhere self.new b }
        ensures held { (h : T.Held) → T.held test.old h → T.held test.new h }
        ensures started { started_of self.new ≡ started_of self.old }
    {
        let Some(number) = self.numbers.get(lock) else {
            return Passed::Free;
        };
        let passed = self.locks.leave(&mut self.links, number, test);
        if let Some(heir) = passed.owner() {
            self.places[heir as usize] = RunState::Nowhere;
            self.live -= 1;
        }
        passed
    }
}
