// From the texts of modules to their program and its image.

ghost use Rattle.std.specs.Prelude.{◌≡◌, ◌≤◌, ◌^◌, All, length, map, IfOk, IfErr};
ghost use Rattle.std.specs.String.{string_bytes};
ghost use Rattle.aos_typed.specs.Seen.{seen_program};
ghost use Rattle.aos_typed.specs.WellTyped.{IsWellTyped};
ghost use Rattle.aos_sim.specs.Shows.{IsCodeOf, Shows};
ghost use Rattle.aos_code_soundness.specs.Images.{IsSoundImageOf};
ghost use Rattle.aos_symbols.specs.Outcome.{went, refused};
ghost use Rattle.aos_compile.specs.Elaborates.{ComesTo, names_of};
ghost use Rattle.aos_reading.specs.Sources.{bytes_of, OnRefused};

use crate::files::elaborate;
use crate::laws::law_of_typing;
use aos_base::NoMemory;
use aos_code::Image;
use aos_emit::{bodies_of, conditions_of};
use aos_image::link;
use aos_reading::CompileErr;
use aos_typed::Program;
use std::alloc::Global;

/// The most types of which an image is made, with those that are predeclared. No texts that are compiled have as many.
const MOST_TYPES: usize = 67_108_874;

/// The image of a program that is well typed.
fn image_of(alloc: Global, program: &Program) -> Result<Image, NoMemory>
    requires few { length program.now.modules.items ≤ 64 }
    requires few_types { length program.now.objects.items ≤ 2 ^ 26 }
    requires typed { IsWellTyped (seen_program program.now) }
    ensures code { IfOk result (λ i. IsCodeOf (seen_program program.now) i) }
    ensures shows { IfOk result (λ i. Shows (seen_program program.now) i) }
    ensures sound { IfOk result (λ i. IsSoundImageOf (seen_program program.now) i) }
    ensures names { IfOk result (λ i.
        map (λ d. string_bytes d.name) i.modules.items ≡ names_of (seen_program program.now)) }
{
    let bodies = bodies_of(alloc, program)?;
    let conditions = conditions_of(alloc, program)?;
    link(alloc, program, bodies, conditions)
}

/// The program of texts, and its image.
fn with_image(
    alloc: Global,
    texts: &[Vec<u8>],
    program: Program,
) -> Result<(Program, Image), CompileErr>
    requires some { 1 ≤ length texts.now }
    requires few { length texts.now ≤ 64 }
    requires modules { length program.modules.items ≤ 64 }
    requires program { ComesTo (bytes_of texts.now) (went (seen_program program)) }
    ensures went { IfOk result (λ r. ComesTo (bytes_of texts.now) (went (seen_program r.0))) }
    ensures few { IfOk result (λ r. length r.0.modules.items ≤ 64) }
    ensures few_types { IfOk result (λ r. length r.0.objects.items ≤ 2 ^ 26) }
    ensures typed { IfOk result (λ r. IsWellTyped (seen_program r.0)) }
    ensures code { IfOk result (λ r. IsCodeOf (seen_program r.0) r.1) }
    ensures shows { IfOk result (λ r. Shows (seen_program r.0) r.1) }
    ensures sound { IfOk result (λ r. IsSoundImageOf (seen_program r.0) r.1) }
    ensures names { IfOk result
        (λ r. map (λ d. string_bytes d.name) r.1.modules.items ≡ names_of (seen_program r.0)) }
    ensures memory { IfErr result (λ e. e ≡ CompileErr.NoMemory) }
{
    law_of_typing();
    if program.types.len() > MOST_TYPES {
        return Err(CompileErr::NoMemory);
    }
    let image = image_of(alloc, &program)?;
    Ok((program, image))
}

/// The typed program of the texts of 1 to 64 modules, each of at most 2^20 bytes, in the order of the command, which is well
/// typed and names at most 2^26 types, and an image that has its code and shows it: for every budget and schedule the image's
/// execution is seen as the program's. Its bodies and conditions are sound, each with room for as many operands as it says.
/// Refused by the first rule that the texts break, with the file and the place.
pub fn compile(alloc: Global, texts: &[Vec<u8>]) -> Result<(Program, Image), CompileErr>
    requires some { 1 ≤ length texts.now }
    requires few { length texts.now ≤ 64 }
    requires limits { All (λ t. length t.items ≤ 2 ^ 20) texts.now }
    ensures went { IfOk result (λ r.
        ComesTo (map (λ t. t.items) texts.now) (went (seen_program r.0))) }
    ensures few { IfOk result (λ r. length r.0.modules.items ≤ 64) }
    ensures few_types { IfOk result (λ r. length r.0.objects.items ≤ 2 ^ 26) }
    ensures typed { IfOk result (λ r. IsWellTyped (seen_program r.0)) }
    ensures code { IfOk result (λ r. IsCodeOf (seen_program r.0) r.1) }
    ensures shows { IfOk result (λ r. Shows (seen_program r.0) r.1) }
    ensures sound { IfOk result (λ r. IsSoundImageOf (seen_program r.0) r.1) }
    ensures names { IfOk result
        (λ r. map (λ d. string_bytes d.name) r.1.modules.items ≡ names_of (seen_program r.0)) }
    ensures refused { IfErr result (λ e. OnRefused e (λ r.
        ComesTo (map (λ t. t.items) texts.now) (refused r))) }
{
    let program = elaborate(alloc, texts)?;
    with_image(alloc, texts, program)
}
