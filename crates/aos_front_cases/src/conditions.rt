// The conditions of programs: what is told of each, `L` where it is local and `N` where it isn't.

ghost use Rattle.std.specs.Prelude.{◌≤◌, ◌^◌, ◌+◌, ◌≡◌, All, length, OnOk, IfOk};

use crate::untold::Untold;
use aos_base::Refusal;
use aos_cases::Section;
use aos_code::AwaitRec;
use aos_compile::{CompileErr, compile};
use aos_guard::locals;
use std::alloc::{AllocError, Global};

// The most bytes that a text has.
const MOST_BYTES: usize = 1_048_576;

// The most modules that a program has.
const MOST_MODULES: usize = 64;

/// How the conditions of a program are told.
#[derive(Clone, Copy)]
pub enum Style {
    /// By a letter for each, in the order of the text.
    Letters,
    /// By a line for each, with its module's number and its place.
    Places,
}

/// What comes of texts.
#[derive(Drop)]
enum Outcome {
    Conditions(Vec<AwaitRec>),
    Refused(Refusal),
}

// One more text.
fn put(texts: &mut Vec<Vec<u8>>, text: Vec<u8>) -> Result<(), AllocError>
    requires size { length text.items ≤ 2 ^ 20 }
    requires sizes { All (λ t. length t.items ≤ 2 ^ 20) texts.old.items }
    ensures { OnOk result (All (λ t. length t.items ≤ 2 ^ 20) texts.new.items) }
{
    texts.push(text)?;
    Ok(())
}

// The texts of the files among sections, whose names have a dot.
fn texts_of(alloc: Global, sections: &[Section]) -> Result<Vec<Vec<u8>>, Untold>
    ensures { IfOk result (λ texts. All (λ t. length t.items ≤ 2 ^ 20) texts.items) }
{
    let mut texts = Vec::new(alloc);
    for section in sections {
        if section.name.as_str().contains('.') {
            let text = Vec::from_slice(alloc, section.text.as_bytes())?;
            if text.len() > MOST_BYTES {
                return Err(Untold::Malformed);
            }
            put(&mut texts, text)?;
        }
    }
    Ok(texts)
}

// What comes of texts.
fn outcome_of(alloc: Global, texts: &[Vec<u8>]) -> Result<Outcome, Untold>
    requires { All (λ t. length t.items ≤ 2 ^ 20) texts.now }
{
    if texts.is_empty() || texts.len() > MOST_MODULES {
        return Err(Untold::Malformed);
    }
    match compile(alloc, texts) {
        Ok((program, _)) => {
            if program.modules.len() > MOST_MODULES {
                return Err(Untold::Malformed);
            }
            Ok(Outcome::Conditions(locals(alloc, &program)?))
        }
        Err(CompileErr::Refused(refusal)) => Ok(Outcome::Refused(refusal)),
        Err(CompileErr::NoMemory) => Err(Untold::NoMemory),
    }
}

// One more condition.
fn tell(out: &mut String, style: Style, one: &AwaitRec) -> Result<(), AllocError> {
    let letter = if one.is_local { 'L' } else { 'N' };
    match style {
        Style::Letters if out.is_empty() => out.push(letter),
        Style::Letters => write!(out, " {letter}"),
        Style::Places => write!(
            out,
            "{}:{}:{} {letter}\n",
            one.module, one.pos.line, one.pos.col
        ),
    }
}

// All conditions.
fn told_of(alloc: Global, style: Style, all: &[AwaitRec]) -> Result<String, AllocError> {
    let mut out = String::new(alloc);
    for one in all {
        tell(&mut out, style, one)?;
    }
    Ok(out)
}

/// What is told of the conditions of the program whose files are among sections, or the first rule that they break.
pub fn told_conditions(
    alloc: Global,
    style: Style,
    sections: &[Section],
) -> Result<String, Untold> {
    let texts = texts_of(alloc, sections)?;
    match outcome_of(alloc, &texts)? {
        Outcome::Conditions(all) => Ok(told_of(alloc, style, &all)?),
        Outcome::Refused(refusal) => {
            let Refusal { rule, file, pos } = refusal;
            Ok(format!(in alloc; "rule {rule} at {file}:{}:{}", pos.line, pos.col)?)
        }
    }
}
