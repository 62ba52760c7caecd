// What comes of compiling the texts of modules.

ghost use Rattle.std.specs.Prelude.{IfOk};
ghost use Rattle.aos_words.specs.Words.{borrowed};
ghost use Rattle.aos.specs.Shown.{texts_of, AreTexts, ComesOf};

use crate::answer::{Answer, refuse};
use aos_base::NoMemory;
use aos_code::Image;
use aos_compile::{CompileErr, compile};
use aos_typed::Program;
use std::alloc::Global;

// What comes of compiling texts.
pub enum Compiled {
    // Their program, and an image that shows it.
    Went(Program, Image),
    // They are refused, and this is the answer.
    Stopped(Answer),
}

// Compiles the texts of these files.
pub fn compile_texts(alloc: Global, files: &[&str], texts: &[Vec<u8>]) -> Result<Compiled, NoMemory>
    requires { AreTexts texts.now }
    ensures { IfOk result (ComesOf (borrowed files.now) (texts_of texts.now)) }
{
    match compile(alloc, texts) {
        Ok((program, image)) => Ok(Compiled::Went(program, image)),
        Err(CompileErr::Refused(r)) => Ok(Compiled::Stopped(refuse(alloc, files, &r)?)),
        Err(CompileErr::NoMemory) => Err(NoMemory),
    }
}
