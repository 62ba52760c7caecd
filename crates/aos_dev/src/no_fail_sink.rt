// A sink for callers that want no output.
ghost use Rattle.std.specs.Prelude.{◌≡◌, None};
ghost use Rattle.aos_dev.specs.declared.sink.Put.{Put};

use crate::sink::{Put, Sink};

/// Takes every piece, keeps nothing, and never fails.
#[derive(Clone, Copy)]
pub struct NoFailSink;

impl NoFailSink {
    /// The sink; there is but one.
    pub fn new() -> NoFailSink {
        NoFailSink
    }
}

impl Sink for NoFailSink {
    ghost written = { λ _. None };

    ghost faults = { λ _. 0 };

    fn put(&mut self, _bytes: &[u8]) -> Put
        ensures { result ≡ Put.Done }
    {
        Put::Done
    }
}
