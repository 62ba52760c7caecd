// What is told of a program that isn't run.

ghost use Rattle.std.specs.Prelude.{◌≡◌, IfOk};
ghost use Rattle.aos_typed.specs.Seen.{seen_program};
ghost use Rattle.aos_typed.specs.WellTyped.{IsWellTyped};
ghost use Rattle.aos_compile.specs.Elaborates.{names_of};
ghost use Rattle.aos.specs.Told.{IsCheckOf, IsLayoutOf};
ghost use Rattle.aos.specs.Shown.{names_in, IsSmall, TellsText, TellsOfProgram};

use crate::answer::{Answer, telling};
use crate::names::names_of;
use aos_base::NoMemory;
use aos_code::Image;
use aos_guard::locals;
use aos_listing::layout_lines;
use aos_report::{check_text, layout_text};
use aos_typed::Program;
use std::alloc::Global;

/// What is to be told.
#[derive(Clone, Copy)]
pub enum Telling {
    /// Of each AWAIT whether its condition is local.
    Locals,
    /// The storage layout.
    Layout,
}

// Tells of each AWAIT of a program whether its condition is local.
fn tell_locals(alloc: Global, program: &Program, image: &Image) -> Result<Answer, NoMemory>
    requires small { IsSmall program.now }
    requires typed { IsWellTyped (seen_program program.now) }
    requires names { names_in image.now ≡ names_of (seen_program program.now) }
    ensures { IfOk result (TellsText (λ text. IsCheckOf (seen_program program.now) text)) }
{
    let awaits = locals(alloc, program)?;
    let names = names_of(alloc, image.modules.as_slice())?;
    let text = check_text(alloc, &awaits, &names)?;
    Ok(telling(alloc, text))
}

// Tells the storage layout of a program.
fn tell_layout(alloc: Global, program: &Program) -> Result<Answer, NoMemory>
    requires small { IsSmall program.now }
    requires typed { IsWellTyped (seen_program program.now) }
    ensures { IfOk result (TellsText (λ text. IsLayoutOf (seen_program program.now) text)) }
{
    let lines = layout_lines(alloc, program)?;
    let text = layout_text(alloc, &lines)?;
    Ok(telling(alloc, text))
}

/// Tells this of a program, of which this is the image.
pub fn tell_program(
    alloc: Global,
    what: Telling,
    program: &Program,
    image: &Image,
) -> Result<Answer, NoMemory>
    requires small { IsSmall program.now }
    requires typed { IsWellTyped (seen_program program.now) }
    requires names { names_in image.now ≡ names_of (seen_program program.now) }
    ensures { IfOk result (TellsOfProgram what (seen_program program.now)) }
{
    match what {
        Telling::Locals => tell_locals(alloc, program, image),
        Telling::Layout => tell_layout(alloc, program),
    }
}
