// The files that the words name, from the shelf.

ghost use Rattle.std.specs.Prelude.{◌≡◌, ◌≤◌, [], ◌∷◌, ◌++◌, IfOk, OnOk};
ghost use Rattle.aos_words.specs.Words.{borrowed};
ghost use Rattle.aos.specs.Call.{shelf_use};
ghost use Rattle.aos.specs.Wanted.{text_files};
ghost use Rattle.aos.specs.Shown.{IsFetched, AreFetched};

use crate::answer::{Answer, message, refuse};
use aos_base::{NoMemory, Pos, Refusal};
use aos_dev::{Got, Shelf};
use aos_report::{too_long, unread};
use std::alloc::{AllocError, Global};

// The most bytes of a module's text.
const TEXT_LIMIT: u64 = 1_048_576;

// What comes of fetching a file.
pub enum FetchedFile {
    // Its text.
    Text(Vec<u8>),
    // It isn't had, and this is the answer.
    Stopped(Answer),
}

// What comes of fetching files.
pub enum FetchedFiles {
    // Their texts, in their order.
    Texts(Vec<Vec<u8>>),
    // One of them isn't had, and this is the answer.
    Stopped(Answer),
}

// Fetches a file of at most so many bytes.
pub fn fetch_file<F: Shelf>(
    alloc: Global,
    file: &str,
    most: u64,
    shelf: &mut F,
) -> Result<FetchedFile, NoMemory>
    ensures fetched { IfOk result (IsFetched
        (shelf_use F.Shelf shelf.old shelf.new) (record { file = file.now; most = most })) }
    ensures texts { F.texts shelf.new ≡ F.texts shelf.old }
    ensures faults { F.faults shelf.old ≤ F.faults shelf.new }
{
    let mut text = Vec::new(alloc);
    match shelf.fetch(file, most, &mut text) {
        Got::Text => Ok(FetchedFile::Text(text)),
        Got::Absent => {
            let absent = Refusal {
                rule: 1,
                file: 0,
                pos: Pos { line: 0, col: 0 },
            };
            Ok(FetchedFile::Stopped(refuse(alloc, &[file], &absent)?))
        }
        Got::TooLong => Ok(FetchedFile::Stopped(message(alloc, 6, too_long(alloc, file, most)?))),
        Got::Failed => Ok(FetchedFile::Stopped(message(alloc, 6, unread(alloc, file)?))),
        Got::NoMemory => Err(NoMemory),
    }
}

// Puts a text behind those before it.
pub fn keep(texts: &mut Vec<Vec<u8>>, text: Vec<u8>) -> Result<(), AllocError>
    ensures { OnOk result (texts.new.items ≡ texts.old.items ++ text ∷ []) }
{
    texts.push(text)?;
    Ok(())
}

// Fetches the texts of modules, one file after another, up to the first that isn't had.
pub fn fetch_files<F: Shelf>(
    alloc: Global,
    files: &[&str],
    shelf: &mut F,
) -> Result<FetchedFiles, NoMemory>
    ensures fetched { IfOk result (AreFetched
        (shelf_use F.Shelf shelf.old shelf.new) (text_files (borrowed files.now))) }
    ensures texts { F.texts shelf.new ≡ F.texts shelf.old }
    ensures faults { F.faults shelf.old ≤ F.faults shelf.new }
{
    let mut texts = Vec::new(alloc);
    for file in files {
        match fetch_file(alloc, *file, TEXT_LIMIT, shelf)? {
            FetchedFile::Text(text) => keep(&mut texts, text)?,
            FetchedFile::Stopped(answer) => return Ok(FetchedFiles::Stopped(answer)),
        }
    }
    Ok(FetchedFiles::Texts(texts))
}
