// The image that has these bodies and conditions.

ghost use Rattle.std.specs.Prelude.{◌≡◌, ◌≤◌, ◌^◌, length, map, IfOk};
ghost use Rattle.std.specs.String.{string_bytes};
ghost use Rattle.aos_typed.specs.Conditions.{conditions};
ghost use Rattle.aos_typed.specs.Routines.{routines};
ghost use Rattle.aos_typed.specs.Seen.{seen_program};
ghost use Rattle.aos_typed.specs.WellTyped.{IsWellTyped};
ghost use Rattle.aos_sim.specs.Code.{body_code, condition_code};
ghost use Rattle.aos_sim.specs.Need.{body_need, value_need, HasDepthsOf};
ghost use Rattle.aos_sim.specs.Shows.{IsCodeOf, Shows};
ghost use Rattle.aos_code_soundness.specs.Images.{IsSoundImageOf};

use crate::modules::modules_of;
use crate::shapes::shapes_of;
use crate::types::types_of;
use aos_base::NoMemory;
use aos_code::{Body, Image};
use aos_code_soundness::law_of_images;
use aos_program_layout::Laid;
use aos_sim::image_shows_program;
use aos_typed::Program;
use std::alloc::Global;

/// The image of a well-typed program of at most 64 modules and 2^26 object types, from the bodies of its routines and those of its
/// conditions in the order of their numbers, each of which has its code, and as many operands at most as its statements need, or as the
/// condition. These are the bodies and conditions of the image, each at its number. So it has the program's code, and shows the program:
/// for every budget and schedule the image's execution and the program's are seen alike. Each of its bodies and conditions is sound, with
/// room for as many operands as it says. Want of memory is the only error.
pub fn link(
    alloc: Global,
    program: &Program,
    bodies: Vec<Body>,
    conds: Vec<Body>,
) -> Result<Image, NoMemory>
    requires few { length program.now.modules.items ≤ 64 }
    requires few_types { length program.now.objects.items ≤ 2 ^ 26 }
    requires typed { IsWellTyped (seen_program program.now) }
    requires matching { map (λ b. b.code.items) bodies.items ≡
        map (λ r. body_code (seen_program program.now) r.own r.body)
        (routines (seen_program program.now)) }
    requires depths { map (λ b. b.depth) bodies.items ≡
        map (λ r. body_need r.body.statements) (routines (seen_program program.now)) }
    requires conditions { map (λ b. b.code.items) conds.items ≡
        map (λ c. condition_code (seen_program program.now) c.own c.expression)
        (conditions (seen_program program.now)) }
    requires condition_depths { map (λ b. b.depth) conds.items ≡
        map (λ c. value_need c.expression) (conditions (seen_program program.now)) }
    ensures bodies { IfOk result (λ image. image.bodies.items ≡ bodies.items) }
    ensures conditions { IfOk result (λ image. image.conds.items ≡ conds.items) }
    ensures code { IfOk result (λ image. IsCodeOf (seen_program program.now) image) }
    ensures depths { IfOk result (λ image. HasDepthsOf (seen_program program.now) image) }
    ensures shows { IfOk result (λ image. Shows (seen_program program.now) image) }
    ensures sound { IfOk result (λ image. IsSoundImageOf (seen_program program.now) image) }
    ensures names { IfOk result (λ image.
        map (λ d. string_bytes d.name) image.modules.items ≡
        map (λ m. m.name) (seen_program program.now).modules) }
{
    image_shows_program();
    law_of_images();
    let laid = Laid::new(alloc, program)?;
    let modules = modules_of(alloc, &laid, program)?;
    let types = types_of(alloc, &laid, program)?;
    let shapes = shapes_of(alloc, &laid, program)?;
    Ok(Image {
        modules,
        types,
        shapes,
        bodies,
        conds,
    })
}
