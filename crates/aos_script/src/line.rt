// The lines of a script.

ghost use Rattle.std.specs.Prelude.{◌≡◌, ◌∷◌, [], List, codes, ◌<◌, ◌≤◌, ◌^◌, ◌-◌, ℕ, IfSome, IfNone, IfOk, IfErr};
ghost use Rattle.aos_base.specs.Schedule.{IsEntry};
ghost use Rattle.aos_script.specs.Listing.{IsSetting, IsRun};
ghost use Rattle.aos_script.specs.Number.{IsNumber};
ghost use Rattle.aos_script.specs.Words.{words};
ghost use Rattle.aos_script.specs.Rest.{HasFlaw, LacksWorker};

use crate::number::number;
use crate::word::{is, three_words, two_words};
use aos_base::{MAX_STEPS, Sched};

/// What is wrong with a run line.
#[derive(Clone, Copy)]
pub enum Flaw {
    /// It isn't `s W K` or `t W`.
    Form,
    /// There is no such worker.
    Worker,
}

/// The number that a word writes, from 1 to a limit.
fn counted(word: &[u8], most: u64) -> Option<u64>
    requires { most < 2 ^ 64 - 1 }
    ensures written { IfSome result (λ n. IsNumber word.now n × (1 ≤ n) × (n ≤ most)) }
    ensures none { IfNone result ((n : ℕ) → IsNumber word.now n → 1 ≤ n → ¬ (n ≤ most)) }
{
    let n = number(word)?;
    if 1 <= n && n <= most { Some(n) } else { None }
}

/// The worker that a word names, of so many.
fn worker_of(word: &[u8], workers: u32) -> Result<u32, Flaw>
    ensures worker { IfOk result (λ w. IsNumber word.now w × (w < workers)) }
    ensures flaw { IfErr result (LacksWorker workers word.now) }
{
    match number(word) {
        None => Err(Flaw::Form),
        Some(n) => {
            if n < u64::from(workers) {
                Ok(n as u32)
            } else {
                Err(Flaw::Worker)
            }
        }
    }
}

/// The number of a line `NAME N`, from 1 to a limit.
pub fn setting(line: &[u8], name: &[u8], most: u64) -> Option<u64>
    requires { most < 2 ^ 64 - 1 }
    ensures said { IfSome result (IsSetting name.now most line.now) }
    ensures none { IfNone result ((n : ℕ) → ¬ IsSetting name.now most line.now n) }
{
    let (first, word) = two_words(line)?;
    if is(first, name) {
        counted(word, most)
    } else {
        None
    }
}

/// The steps of a worker, from their words.
fn steps_of(worker: &[u8], steps: &[u8], workers: u32) -> Result<Sched, Flaw>
    ensures run { IfOk result (λ r. (line : List ℕ) →
        words line ≡ codes "s" ∷ worker.now ∷ steps.now ∷ [] → IsRun line r ×
        IsEntry workers r) }
    ensures flaw { IfErr result (λ e. (line : List ℕ) →
        words line ≡ codes "s" ∷ worker.now ∷ steps.now ∷ [] → HasFlaw workers line e) }
{
    let Some(k) = counted(steps, u64::from(MAX_STEPS)) else {
        return Err(Flaw::Form);
    };
    match worker_of(worker, workers) {
        Ok(w) => Ok(Sched::Steps(w, k as u32)),
        Err(flaw) => Err(flaw),
    }
}

/// The tick of a worker, from its word.
fn tick_of(worker: &[u8], workers: u32) -> Result<Sched, Flaw>
    ensures run { IfOk result (λ r. (line : List ℕ) → words line ≡ codes "t" ∷ worker.now ∷ [] →
        IsRun line r × IsEntry workers r) }
    ensures flaw { IfErr result (λ e. (line : List ℕ) → words line ≡ codes "t" ∷ worker.now ∷ [] →
        HasFlaw workers line e) }
{
    match worker_of(worker, workers) {
        Ok(w) => Ok(Sched::Tick(w)),
        Err(flaw) => Err(flaw),
    }
}

/// The entry that a run line stands for, of one of so many workers.
pub fn run_of(line: &[u8], workers: u32) -> Result<Sched, Flaw>
    ensures run { IfOk result (λ r. IsRun line.now r × IsEntry workers r) }
    ensures flaw { IfErr result (HasFlaw workers line.now) }
{
    if let Some((name, worker, steps)) = three_words(line)
        && is(name, b"s")
    {
        return steps_of(worker, steps, workers);
    }
    match two_words(line) {
        Some((name, worker)) if is(name, b"t") => tick_of(worker, workers),
        _ => Err(Flaw::Form),
    }
}
