// The top call.

ghost use Rattle.std.specs.Prelude.{◌≡◌, ◌≢◌, map};
ghost use Rattle.aos_words.specs.Words.{words_of};
ghost use Rattle.aos.specs.Call.{Call, shelf_use, sink_use, probes_use};
ghost use Rattle.aos.specs.Promises.{Promises};
ghost use Rattle.aos.specs.Shown.{IsWhole, IsStopped};

use crate::answer::Answer;
use crate::command::answer;
use crate::write::put_text;
use aos_base::NoMemory;
use aos_compile::law_of_typing;
use aos_dev::{Put, Shelf, Sink};
use aos_gate::Gate;
use aos_probe::Probe;
use aos_sim::program_has_monitors;
use aos_stability::conditions_last;
use std::alloc::Global;
use std::sync::Wait;
use std::thread::Threads;

// The status where a sink failed.
const FAILED: u8 = 7;

// The status where memory was wanted and not had.
const NO_MEMORY: u8 = 8;

// Puts both texts of an answer, `out` first, and stops at the first failure.
fn put_answer<O: Sink, E: Sink>(answer: &Answer, out: &mut O, err: &mut E) -> u8
    requires { (answer.now.status ≢ 7) × (answer.now.status ≢ 8) }
    ensures whole { result ≢ 7 → IsWhole answer.now result
        (sink_use O.Sink out.old out.new) (sink_use E.Sink err.old err.new) }
    ensures stopped { result ≡ 7 → IsStopped answer.now
        (sink_use O.Sink out.old out.new) (sink_use E.Sink err.old err.new) }
    ensures memory { result ≢ 8 }
{
    if let Put::Failed = put_text(out, &answer.out) {
        return FAILED;
    }
    if let Put::Failed = put_text(err, &answer.err) {
        return FAILED;
    }
    answer.status
}

/// What the program does. `run [--workers n] [--budget b] [--log] FILE ..`, with 1 to 64 files: the
/// shelf gives the files' texts, in this order, the texts are checked, compiled and run by 1 to 16
/// workers, each in a thread of its own, which passes the gate before each of its rounds; what the
/// run wrote goes to `out`, and its reports to `err`, with `--log` followed by the script of its
/// schedule. `replay --script S [--watch] FILE ..`: the same, but the run goes by the script, with
/// its workers and its budget, on one thread; with `--watch` the probes are told its events, each
/// once and as it happens, and a line for each probe with its total follows the reports.
/// `check FILE ..`: the texts are checked and compiled, and `out` gets a line for each AWAIT, which
/// says whether its condition is local. `list FILE ..`: it gets the storage layout.
/// `gen [--workers n] N`: the generated module of 1 to 500 pairs is run as `run` does, and the shelf is
/// asked for nothing.
///
/// The status is 0 where the run ended or the program was told of, 3 where the run ended with a trap,
/// 4 where activities are left that haven't ended and each of them waits for a lock, to enter a
/// region or for a condition, 5 where it used up the budget, 9 where the script ended first; 1 where
/// a file is absent or the texts are refused, 2 where the words are no command, 6 where the shelf
/// failed or a file is too long, 10 where the script is none. Where a sink failed it is 7 in the place
/// of any of these, and 8, with nothing put, where memory was wanted. May wait.
pub fn aos<R: Threads + Wait + Sync, F: Shelf, O: Sink, E: Sink, G: Gate + Sync>(
    rt: &R,
    alloc: Global,
    words: &[String],
    shelf: &mut F,
    out: &mut O,
    err: &mut E,
    probes: &mut Vec<Box<dyn Probe>>,
    gate: &G,
) -> u8
    // Each promise has a name and a line in specs/Promises.antt.
    ensures { let call : Call = record {
      words = words_of words.now;
      shelf = shelf_use F.Shelf shelf.old shelf.new;
      out = sink_use O.Sink out.old out.new;
      err = sink_use E.Sink err.old err.new;
      probes = probes_use
          (map (λ p. seen p) probes.old.items) (map (λ p. seen p) probes.new.items);
      status = result;
    } in Promises call }
{
    // Called for the proof's sake: their clauses are laws on programs and their locks.
    program_has_monitors();
    conditions_last();
    law_of_typing();
    match answer(rt, alloc, words, shelf, probes, gate) {
        Ok(answer) => put_answer(&answer, out, err),
        Err(NoMemory) => NO_MEMORY,
    }
}
