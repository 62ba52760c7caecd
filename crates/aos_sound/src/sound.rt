// Whether a body is sound.

ghost use Rattle.std.specs.Prelude.{◌≡◌, ◌<◌, ◌≤◌, ◌↔◌, length, IfOk, IsTrue};
ghost use Rattle.aos_sound.specs.Sound.{IsSound};
ghost use Rattle.aos_sound.specs.declared.stand.Role.TheVariants.{Procedure, Condition};

use crate::search::explores;
use crate::stand::{Role, all_stand};
use aos_base::NoMemory;
use aos_code::{Body, Image};
use std::alloc::Global;

fn is_sound_as(
    alloc: Global,
    role: Role,
    body: &Body,
    own: u32,
    image: &Image,
) -> Result<bool, NoMemory>
    ensures { IfOk result (λ b.
        IsTrue b ↔ IsSound image.now own role body.now.code.items body.now.depth) }
{
    if !all_stand(image, own, role, &body.code) {
        return Ok(false);
    }
    Ok(explores(alloc, image, own, &body.code, body.depth)?)
}

/// Whether a body is sound as that of the procedure of this number, with as many operands at most as it says. It looks at each
/// instruction once as it stands, and once as a path comes to it, so its time grows with the length of the code, and with how
/// many arguments and lengths are taken in it, of which it takes no more than there are, and how many lengths objects tell.
pub fn is_sound(alloc: Global, body: &Body, own: u32, image: &Image) -> Result<bool, NoMemory>
    requires { (0 < own) × (own ≤ length image.now.shapes.items) }
    ensures { IfOk result (λ b.
        IsTrue b ↔ IsSound image.now own Procedure body.now.code.items body.now.depth) }
{
    is_sound_as(alloc, Role::Procedure, body, own, image)
}

/// Whether code is sound as a condition in the procedure of this number.
pub fn is_sound_cond(
    alloc: Global,
    condition: &Body,
    own: u32,
    image: &Image,
) -> Result<bool, NoMemory>
    requires { (0 < own) × (own ≤ length image.now.shapes.items) }
    ensures { IfOk result (λ b. IsTrue b ↔
        IsSound image.now own Condition condition.now.code.items condition.now.depth) }
{
    is_sound_as(alloc, Role::Condition, condition, own, image)
}
