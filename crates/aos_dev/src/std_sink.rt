// The sink over a real stream: the trusted edge, a loop over `write`.
ghost use Rattle.std.specs.Prelude.{◌≡◌, ℕ, ◌≤◌, None};
ghost use Rattle.std.specs.Bool.{OnTrue, OnFalse};
ghost use Rattle.std.specs.Io.KnownBytes.{Appends};
ghost use Rattle.aos_dev.specs.declared.sink.Put.{Put};
ghost use Rattle.aos_dev.specs.Count.{Rose};
ghost use Rattle.aos_dev.specs.Sink.{OnDone, OnFailed};
ghost use Rattle.aos_dev.specs.StdSink.{writer_of, faults_of, AppendsPart};

use crate::count::next;
use crate::sink::{Put, Sink};
use std::io::{ErrorKind, Write};

/// Writes every piece to a writer at once, as to standard output or standard error. It tells no bytes of its own; where
/// the writer tells what it holds, `put` says what came to it.
#[derive(Drop)]
pub struct StdSink<W: Write + Drop> {
    writer: W,
    faults: u64,
}

impl<W: Write + Drop> StdSink<W> {
    /// A sink over the writer, with no fault yet.
    pub fn new(writer: W) -> StdSink<W>
        ensures written { ⟦<StdSink<W> as Sink>⟧.written result ≡ None }
        ensures faults { faults_of result ≡ 0 }
        ensures writer { writer_of result ≡ writer }
    {
        StdSink { writer, faults: 0 }
    }
}

impl<W: Write + Drop> Sink for StdSink<W> {
    ghost written = { λ _. None };

    ghost faults = { faults_of };

    fn put(&mut self, bytes: &[u8]) -> Put
        ensures faults_stay { faults_of self.old ≤ faults_of self.new }
        ensures failed { OnFailed result (Rose (faults_of self.old) (faults_of self.new)) }

        // what the writer holds, where it is known
        ensures done { OnDone result
            (Appends (W.contents (writer_of self.old))
            (W.contents (writer_of self.new)) bytes.now) }
        ensures part { OnFailed result
            (AppendsPart (W.contents (writer_of self.old))
            (W.contents (writer_of self.new)) bytes.now) }
    {
        if write_whole(&mut self.writer, bytes) {
            return Put::Done;
        }
        self.faults = next(self.faults);
        Put::Failed
    }
}

// Writes all the bytes and flushes, or says that it failed. A write that was interrupted is tried again.
fn write_whole<W: Write>(writer: &mut W, bytes: &[u8]) -> bool
    ensures whole { OnTrue result
        (Appends (W.contents writer.old) (W.contents writer.new) bytes.now) }
    ensures part { OnFalse result
        (AppendsPart (W.contents writer.old) (W.contents writer.new) bytes.now) }
{
    let mut at = 0;
    for _ in 0..u64::MAX {
        if at >= bytes.len() {
            return writer.flush().is_ok();
        }
        match writer.write(&bytes[at..]) {
            Ok(0) => return false,
            Ok(count) => at += count,
            Err(error) => {
                if error.kind() != ErrorKind::Interrupted {
                    return false;
                }
            }
        }
    }
    false
}
