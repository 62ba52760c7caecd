// Numbers of what comes next, and where types begin.

ghost use Rattle.std.specs.Prelude.{◌≡◌, ◌+◌, IfOk};
ghost use Rattle.aos_check_types.specs.Places as judge;

use aos_base::{NoMemory, Pos};
use aos_tree::TypeExpr;

/// The next number.
pub fn next(number: u32) -> Result<u32, NoMemory>
    ensures { IfOk result (λ n. n ≡ number + 1) }
{
    match number.checked_add(1) {
        Some(next) => Ok(next),
        None => Err(NoMemory),
    }
}

/// Where a type begins.
pub fn type_place(of: &TypeExpr) -> Pos
    ensures { result ≡ judge.type_place of.now }
{
    match of {
        TypeExpr::Named(name) => name.first.pos,
        TypeExpr::Array(at, _, _) => *at,
        TypeExpr::Record(at, _, _) => *at,
        TypeExpr::Pointer(at, _) => *at,
        TypeExpr::Proc(at, _, _) => *at,
        TypeExpr::Object(at, _, _, _, _) => *at,
    }
}
