// What the commands of a case come to, beside what it wants of them.

use crate::frames::locks;
use crate::loans::differences_of_loan;
use crate::numbers::{arithmetic, has, span};
use crate::objects::objects;
use crate::passes::differences_of_passes;
use crate::replays::differences_of_replay;
use crate::runs::{differences_of_meeting, differences_of_run};
use crate::scripts::{print, script};
use crate::several::differences_of_steps;
use crate::soundness::soundness;
use crate::stop::Stop;
use crate::wanted::wanted_or_empty;
use aos_cases::{Section, tell};
use aos_code::Image;
use std::alloc::Global;
use std::sync::Wait;
use std::thread::Threads;

// What is told of a command that runs nothing.
fn answer(alloc: Global, image: &Image, name: &str, text: &str) -> Result<String, Stop> {
    match name {
        "sound" => Ok(String::from_str(alloc, soundness(alloc, image, text)?)?),
        "frames" => locks(alloc, image, text),
        "objects" => objects(alloc, image, text),
        "script" => script(alloc, text),
        "print" => print(alloc, text),
        "arithmetic" => Ok(arithmetic(alloc, text)?),
        "span" => Ok(span(alloc, text)?),
        "has" => Ok(String::from_str(alloc, has(text))?),
        _ => Err(Stop::Malformed("malformed: no such command")),
    }
}

/// What is told of a command that doesn't come to what the case wants; nothing where it does.
pub fn differences<R: AllocGlobal + Threads + Wait + Sync>(
    rt: &R,
    image: Image,
    command: &Section,
    sections: &[Section],
) -> Result<String, Stop> {
    let alloc = rt.alloc();
    let (name, text) = (command.name.as_str(), command.text.as_str());
    if name == "replay" {
        return differences_of_replay(alloc, image, text, sections);
    }
    if name == "passes" {
        return differences_of_passes(rt, image, text, sections);
    }
    if name == "loan" {
        return differences_of_loan(alloc, image, text, sections);
    }
    if name == "steps" {
        return differences_of_steps(alloc, image, text, sections);
    }
    if name == "run" {
        return differences_of_run(rt, image, text, sections);
    }
    if name == "meet" {
        return differences_of_meeting(rt, image, text, sections);
    }
    let answer = answer(alloc, &image, name, text)?;
    let answer = answer.as_str().trim();
    let mut told = String::new(alloc);
    tell(
        alloc,
        &mut told,
        name,
        answer.as_bytes(),
        wanted_or_empty(sections, "told"),
    )?;
    Ok(told)
}
