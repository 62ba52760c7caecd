// Where bytes go.
ghost use Rattle.std.specs.Prelude.{◌≡◌, ℕ, ◌≤◌, List, Option, is_some};
ghost use Rattle.aos_dev.specs.declared.sink.Put.{Put};
ghost use Rattle.aos_dev.specs.Count.{Rose};
ghost use Rattle.aos_dev.specs.Sink.{appended, WrotePart, OnDone, OnFailed};

/// What a sink answers.
#[derive(Clone, Copy, PartialEq, Eq, Debug)]
pub enum Put {
    /// The whole piece was taken.
    Done,
    /// The sink failed; its count of faults rose, and it took a part of the piece at most.
    Failed,
}

/// What takes the bytes that the program writes.
///
/// A sink means the bytes that it took, where it tells them, and a count of its faults. The count is of 64 bits; it
/// begins at 0, never falls, and stops at the greatest number.
pub trait Sink {
    // the bytes that were written, where the sink tells them
    ghost written: { Self → Option (List ℕ) };

    // how often the sink failed
    ghost faults: { Self → ℕ };

    /// Writes `bytes` after what was written before.
    fn put(&mut self, bytes: &[u8]) -> Put
        // the sink goes on
        ensures same_telling { is_some (written self.new) ≡ is_some (written self.old) }
        ensures faults_stay { faults self.old ≤ faults self.new }

        // the answer
        ensures done { OnDone result (written self.new ≡ appended (written self.old) bytes.now) }
        ensures failed { OnFailed result (Rose (faults self.old) (faults self.new)) }
        ensures part { OnFailed result
            (WrotePart (written self.old) (written self.new) bytes.now) };
}
