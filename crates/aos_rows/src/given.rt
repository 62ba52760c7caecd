// What a case gives to the top call, and what it wants of it.

use aos_cases::Section;
use aos_dev::MemShelf;
use std::alloc::{AllocError, Global};

/// Whether a section is a command.
pub fn is_command(section: &Section) -> bool {
    matches!(
        section.name.as_str(),
        "run"
            | "replay"
            | "watch"
            | "check"
            | "list"
            | "logged"
            | "meet"
            | "unkept"
            | "lending"
            | "words"
    )
}

// Whether a section says what is wanted of the command before it.
fn is_wanted(section: &Section) -> bool {
    matches!(section.name.as_str(), "out" | "err" | "status")
}

// Whether a section is a module's file, which has a point in its name.
fn is_module(section: &Section) -> bool {
    section.name.as_str().contains('.')
}

// Whether a section is a file of the shelf.
fn is_file(section: &Section) -> bool {
    is_module(section) || section.name.as_str() == "S"
}

// The number of a sink's call that fails, and how many bytes of its piece it takes before.
fn sink_fail(text: &str) -> Option<(u64, u32)> {
    let (call, count) = text.split_once(' ')?;
    let call = call.parse::<u64>().ok()?;
    let count = count.parse::<u32>().ok()?;
    Some((call, count))
}

// Whether a section by itself says something.
fn is_known(section: &Section) -> bool {
    match section.name.as_str() {
        "check" | "list" => section.text.is_empty(),
        "lending" => section.text.parse::<u32>().is_ok(),
        "shelf-fails" => section.text.parse::<u64>().is_ok(),
        "out-fails" | "err-fails" => sink_fail(section.text.as_str()).is_some(),
        _ => is_command(section) || is_wanted(section) || is_file(section),
    }
}

/// Why these are no sections of a case; None where they are.
pub fn flaw_of(sections: &[Section]) -> Option<&'static str> {
    let mut is_asked = false;
    for section in sections {
        if !is_known(section) {
            return Some("malformed: a section says nothing known");
        }
        if is_wanted(section) && !is_asked {
            return Some("malformed: an answer is wanted before a command");
        }
        is_asked = is_asked || is_command(section);
    }
    if is_asked {
        None
    } else {
        Some("malformed: nothing is run")
    }
}

/// What the sections behind a command want under a name; the default where they don't say so.
pub fn wanted<'a>(behind: &'a [Section], name: &str, default: &'a str) -> &'a str {
    for section in behind {
        if is_command(section) {
            return default;
        }
        if section.name.as_str() == name {
            return section.text.as_str();
        }
    }
    default
}

// What stands for an empty word.
const EMPTY: &str = "\"\"";

// Adds the words of a text.
fn add_words(alloc: Global, words: &mut Vec<String>, text: &str) -> Result<(), AllocError> {
    for word in text.split_ascii_whitespace() {
        let word = if word == EMPTY { "" } else { word };
        words.push(String::from_str(alloc, word)?)?;
    }
    Ok(())
}

// Adds the names of the modules' files.
fn add_modules(words: &mut Vec<String>, sections: &[Section]) -> Result<(), AllocError> {
    for section in sections {
        if is_module(section) {
            words.push(section.name.clone()?)?;
        }
    }
    Ok(())
}

// The words of a command with its options, and behind them the names of the modules' files.
fn command_words(
    alloc: Global,
    name: &str,
    options: &str,
    sections: &[Section],
) -> Result<Vec<String>, AllocError> {
    let mut words = Vec::new(alloc);
    add_words(alloc, &mut words, name)?;
    add_words(alloc, &mut words, options)?;
    add_modules(&mut words, sections)?;
    Ok(words)
}

/// The words of a replay by the script S.
pub fn replay_words(alloc: Global, sections: &[Section]) -> Result<Vec<String>, AllocError> {
    command_words(alloc, "replay --script S", "", sections)
}

/// The words of a command.
pub fn words_of(
    alloc: Global,
    sections: &[Section],
    command: &Section,
) -> Result<Vec<String>, AllocError> {
    let text = command.text.as_str();
    match command.name.as_str() {
        "words" => command_words(alloc, "", text, &[]),
        "replay" => replay_words(alloc, sections),
        "watch" => command_words(alloc, "replay --script S --watch", "", sections),
        "logged" | "meet" => command_words(alloc, "run --log", text, sections),
        "unkept" => command_words(alloc, "run", text, sections),
        name => command_words(alloc, name, text, sections),
    }
}

// Adds a file.
fn add_file(
    alloc: Global,
    files: &mut Vec<(String, Vec<u8>)>,
    name: &str,
    text: &[u8],
) -> Result<(), AllocError> {
    let name = String::from_str(alloc, name)?;
    files.push((name, Vec::from_slice(alloc, text)?))?;
    Ok(())
}

// Adds the script of these lines.
fn add_script(
    alloc: Global,
    files: &mut Vec<(String, Vec<u8>)>,
    lines: &str,
) -> Result<(), AllocError> {
    let lines = lines.replace(alloc, "; ", "\n")?;
    let script = format!(in alloc; "aos-script 1\n{lines}\nend\n")?;
    add_file(alloc, files, "S", script.as_bytes())
}

// The numbers of the shelf's calls that fail.
fn shelf_fails(alloc: Global, sections: &[Section]) -> Result<Vec<u64>, AllocError> {
    let mut fails = Vec::new(alloc);
    for section in sections {
        if section.name.as_str() == "shelf-fails" {
            fails.push(section.text.parse::<u64>().unwrap_or(0))?;
        }
    }
    Ok(fails)
}

/// The calls of a sink that fail, under the name of these sections.
pub fn sink_fails(
    alloc: Global,
    sections: &[Section],
    name: &str,
) -> Result<Vec<(u64, u32)>, AllocError> {
    let mut fails = Vec::new(alloc);
    for section in sections {
        if section.name.as_str() == name {
            fails.push(sink_fail(section.text.as_str()).unwrap_or((0, 0)))?;
        }
    }
    Ok(fails)
}

// The files of a case.
fn files_of(alloc: Global, sections: &[Section]) -> Result<Vec<(String, Vec<u8>)>, AllocError> {
    let mut files = Vec::new(alloc);
    for section in sections {
        if is_file(section) {
            add_file(
                alloc,
                &mut files,
                section.name.as_str(),
                section.text.as_bytes(),
            )?;
        }
    }
    Ok(files)
}

/// The shelf of a case for a command.
pub fn shelf_of(
    alloc: Global,
    sections: &[Section],
    command: &Section,
) -> Result<MemShelf, AllocError> {
    let mut files = files_of(alloc, sections)?;
    let is_replay = matches!(command.name.as_str(), "replay" | "watch");
    if is_replay && !command.text.is_empty() {
        add_script(alloc, &mut files, command.text.as_str())?;
    }
    Ok(MemShelf::new(files, shelf_fails(alloc, sections)?))
}

/// The shelf of a case with a script.
pub fn shelf_by(
    alloc: Global,
    sections: &[Section],
    script: &[u8],
) -> Result<MemShelf, AllocError> {
    let mut files = files_of(alloc, sections)?;
    add_file(alloc, &mut files, "S", script)?;
    Ok(MemShelf::new(files, shelf_fails(alloc, sections)?))
}
