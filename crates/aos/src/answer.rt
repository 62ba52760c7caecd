// What the program answers: a status, and the texts for the two sinks.

ghost use Rattle.std.specs.Prelude.{[], IfOk};
ghost use Rattle.aos_report.specs.Texts.{refusal_text};
ghost use Rattle.aos_words.specs.Words.{borrowed};
ghost use Rattle.aos.specs.Wanted.{name_of};
ghost use Rattle.aos.specs.Shown.{IsAnswer};

use aos_base::{NoMemory, Refusal};
use aos_report::refusal;
use std::alloc::Global;

/// A status, and the whole texts for `out` and `err`.
#[derive(Drop)]
pub struct Answer {
    pub status: u8,
    pub out: Vec<u8>,
    pub err: Vec<u8>,
}

/// An answer with nothing for `out`.
pub fn message(alloc: Global, status: u8, err: Vec<u8>) -> Answer
    ensures { IsAnswer result status [] err.items }
{
    Answer {
        status,
        out: Vec::new(alloc),
        err,
    }
}

/// An answer with nothing for `err`, where all went well.
pub fn telling(alloc: Global, out: Vec<u8>) -> Answer
    ensures { IsAnswer result 0 out.items [] }
{
    Answer {
        status: 0,
        out,
        err: Vec::new(alloc),
    }
}

/// The refusal of one of these files by a rule: its line names the file.
pub fn refuse(alloc: Global, files: &[&str], r: &Refusal) -> Result<Answer, NoMemory>
    ensures { IfOk result (λ a. IsAnswer a 1 []
        (refusal_text (name_of (borrowed files.now) r.now.file) r.now.rule r.now.pos)) }
{
    Ok(message(alloc, 1, refusal(alloc, r, files)?))
}
