// A text onto a sink, in pieces.

ghost use Rattle.std.specs.Prelude.{◌≡◌, ◌≤◌, ◌<◌};
ghost use Rattle.aos_dev.specs.Count.{Rose};
ghost use Rattle.aos_dev.specs.Sink.{appended, WrotePart, OnDone, OnFailed};

use aos_dev::{Put, Sink};

// The bytes of a piece, but for the last one of a text, which may have fewer.
const PIECE: usize = 4096;

// Where the piece that begins at this place ends.
fn piece_end(at: usize, length: usize) -> usize
    requires { at < length }
    ensures { (at < result) × (result ≤ length) }
{
    if length - at > PIECE {
        at + PIECE
    } else {
        length
    }
}

// Puts the whole text in pieces of 4,096 bytes, and stops at the first that fails.
pub fn put_text<S: Sink>(sink: &mut S, text: &[u8]) -> Put
    ensures faults_stay { S.faults sink.old ≤ S.faults sink.new }
    ensures done { OnDone result (S.written sink.new ≡ appended (S.written sink.old) text.now) }
    ensures failed { OnFailed result (Rose (S.faults sink.old) (S.faults sink.new)) }
    ensures part { OnFailed result (WrotePart (S.written sink.old) (S.written sink.new) text.now) }
{
    let mut at = 0;
    while at < text.len() {
        let end = piece_end(at, text.len());
        match sink.put(&text[at..end]) {
            Put::Done => at = end,
            Put::Failed => return Put::Failed,
        }
    }
    Put::Done
}
