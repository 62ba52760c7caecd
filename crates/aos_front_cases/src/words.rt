// The words of a command line, and the command that they are.

use crate::untold::Untold;
use aos_words::{Command, WordsErr, read_words};
use std::alloc::{AllocError, Global};

// What stands for an empty word.
const EMPTY: &str = "\"\"";

// The words of a text, with blanks between them.
fn words_of(alloc: Global, text: &str) -> Result<Vec<String>, AllocError> {
    let mut words = Vec::new(alloc);
    for word in text.split_ascii_whitespace() {
        let word = if word == EMPTY { "" } else { word };
        words.push(String::from_str(alloc, word)?)?;
    }
    Ok(words)
}

// A command with what it has.
fn text_of(alloc: Global, command: &Command<'_>) -> Result<String, AllocError> {
    match command {
        Command::Run {
            workers,
            budget,
            log,
            files,
        } => {
            let log = if *log { "log " } else { "" };
            format!(in alloc; "run {workers} {budget} {log}{files:?}")
        }
        Command::Replay {
            script,
            watch,
            files,
        } => {
            let watch = if *watch { "watch " } else { "" };
            format!(in alloc; "replay {script:?} {watch}{files:?}")
        }
        Command::Check(files) => format!(in alloc; "check {files:?}"),
        Command::List(files) => format!(in alloc; "list {files:?}"),
        Command::Gen { workers, pairs } => format!(in alloc; "gen {workers} {pairs}"),
    }
}

/// The command that the words of a text are.
pub fn told_words(alloc: Global, text: &str) -> Result<String, Untold> {
    let words = words_of(alloc, text)?;
    match read_words(alloc, &words) {
        Ok(command) => Ok(text_of(alloc, &command)?),
        Err(WordsErr::Refused) => Ok(String::from_str(alloc, "refused")?),
        Err(WordsErr::NoMemory) => Err(Untold::NoMemory),
    }
}
