// What a condition comes to is for the caller to say.

use aos_base::Verdict;

/// The conditions of those who wait, known by the waiters' numbers.
pub trait Test {
    ghost use Rattle.std.specs.Prelude.{◌≡◌, ℕ};
    ghost use Rattle.aos_base.specs.declared.kernel.Verdict.{Verdict};

    /// What a waiter's condition comes to, from what the test holds.
    ghost verdict_of: { Self → ℕ → Verdict };

    /// What else may be told of the test, as its user sees it. No call makes it untrue.
    ghost Held: { Type 0 };

    ghost held: { Self → Held → Type 0 };

    /// What a waiter's condition comes to. No call changes any verdict.
    fn verdict(&mut self, waiter: u32) -> Verdict
        ensures verdict { result ≡ verdict_of self.old waiter }
        ensures kept { (other : ℕ) → verdict_of self.new other ≡ verdict_of self.old other }
        ensures held { (h : Held) → held self.old h → held self.new h };
}
