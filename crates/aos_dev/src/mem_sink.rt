// A sink that lives in memory, holds a certain number of bytes, and fails at the calls that were chosen.
ghost use Rattle.std.specs.Prelude.{◌≡◌, ℕ, ◌+◌, ◌≤◌, ◌↔◌, List, [], ◌++◌, length, Option, Some, find, nat_eq, option_map, IsTrue, IfOk, vec_capacity};
ghost use Rattle.std.specs.Bool.{OnTrue, OnFalse};
ghost use Rattle.aos_dev.specs.declared.sink.Put.{Put};

use crate::count::next;
use crate::sink::{Put, Sink};
use aos_base::NoMemory;
use std::alloc::Global;

/// Bytes in memory, as many as were reserved; the calls whose numbers were given, counted from 1, fail.
#[derive(Drop)]
pub struct MemSink {
    bytes: Vec<u8>,
    reserve: usize,
    fails: Vec<(u64, u32)>,
    calls: u64,
    faults: u64,
    ghost has_room: { reserve ≤ vec_capacity bytes },
}

impl MemSink {
    ghost use Rattle.aos_dev.specs.Count.{next};
    ghost use Rattle.aos_dev.specs.MemSink.{sink_bytes, sink_fails, sink_calls, sink_faults, sink_reserve, sink_fails_next};

    /// An empty sink with room for `reserve` bytes; a piece that goes beyond them fails, and nothing of it is taken.
    /// Each of `fails` is the number of a call that fails, counted from 1, and how many bytes of its piece it takes
    /// first.
    pub fn new(alloc: Global, fails: Vec<(u64, u32)>, reserve: usize) -> Result<MemSink, NoMemory>
        ensures bytes { IfOk result (λ sink. sink_bytes sink ≡ []) }
        ensures reserve { IfOk result (λ sink. sink_reserve sink ≡ reserve) }
        ensures fails { IfOk result (λ sink. sink_fails sink ≡ fails.items) }
        ensures calls { IfOk result (λ sink. sink_calls sink ≡ 0) }
        ensures faults { IfOk result (λ sink. sink_faults sink ≡ 0) }
    {
        Ok(MemSink {
            bytes: Vec::with_capacity(alloc, reserve)?,
            reserve,
            fails,
            calls: 0,
            faults: 0,
        })
    }

    /// The bytes that were written.
    pub fn bytes(&self) -> &[u8]
        ensures { result.now ≡ sink_bytes self.now }
    {
        self.bytes.as_slice()
    }

    // Counts the next call, and says how many bytes it takes before it fails, if it is one that fails.
    fn begin(&mut self) -> Option<u32>
        ensures fails_next { result ≡ sink_fails_next self.old }
        ensures rest { self.new ≡ record self.old { calls = next (sink_calls self.old) } }
    {
        self.calls = next(self.calls);
        let call = self.calls;
        self.fails
            .iter()
            .find(|fail| fail.0 == call)
            .map(|fail| fail.1)
    }
}

impl Sink for MemSink {
    ghost use Rattle.aos_dev.specs.Count.{Rose, next};
    ghost use Rattle.aos_dev.specs.Sink.{appended, WrotePart, OnDone, OnFailed};
    ghost use Rattle.aos_dev.specs.MemSink.{sink_bytes, sink_fails, sink_calls, sink_faults, sink_reserve, part_of, TakesNext};

    ghost written = { λ sink. Some (sink_bytes sink) };

    ghost faults = { sink_faults };

    fn put(&mut self, bytes: &[u8]) -> Put
        // the sink goes on
        ensures same_fails { sink_fails self.new ≡ sink_fails self.old }
        ensures same_reserve { sink_reserve self.new ≡ sink_reserve self.old }
        ensures counted { sink_calls self.new ≡ next (sink_calls self.old) }
        ensures faults_stay { sink_faults self.old ≤ sink_faults self.new }

        // the answer: which pieces are taken, and no others
        ensures takes { (result ≡ Put.Done) ↔ TakesNext self.old bytes.now }
        ensures done { OnDone result (sink_bytes self.new ≡ sink_bytes self.old ++ bytes.now) }
        ensures no_fault { OnDone result (sink_faults self.new ≡ sink_faults self.old) }

        // a fault, which takes what was chosen for this call, as far as there is room
        ensures failed { OnFailed result (Rose (sink_faults self.old) (sink_faults self.new)) }
        ensures part { OnFailed result
            (WrotePart (Some (sink_bytes self.old)) (Some (sink_bytes self.new)) bytes.now) }
        ensures chosen { OnFailed result
            (sink_bytes self.new ≡ sink_bytes self.old ++ part_of self.old bytes.now) }
    {
        match self.begin() {
            None => {
                if take(&mut self.bytes, self.reserve, bytes) {
                    return Put::Done;
                }
            }
            Some(count) => {
                let count = bytes.len().min(count as usize);
                take(&mut self.bytes, self.reserve, &bytes[..count]);
            }
        }
        self.faults = next(self.faults);
        Put::Failed
    }
}

// Takes the piece if the bytes stay within the reserve, and else nothing.
fn take(bytes: &mut Vec<u8>, reserve: usize, piece: &[u8]) -> bool
    requires { reserve ≤ vec_capacity bytes.old }
    ensures room { IsTrue result ↔ (length bytes.old.items + length piece.now ≤ reserve) }
    ensures taken { OnTrue result (bytes.new.items ≡ bytes.old.items ++ piece.now) }
    ensures not_taken { OnFalse result (bytes.new.items ≡ bytes.old.items) }
    ensures reserved { reserve ≤ vec_capacity bytes.new }
{
    piece.len() <= reserve
        && bytes.len() <= reserve - piece.len()
        && bytes.extend_from_slice(piece).is_ok()
}
