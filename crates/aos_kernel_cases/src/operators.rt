// Operators by their names, as the instructions that do them.

use crate::word::width_of;
use aos_base::{Binary, Unary};
use aos_code::Instr;

/// An operator that has no width.
pub fn plain_operator(name: &str) -> Option<Instr> {
    match name {
        "not" => Some(Instr::Unary(Unary::Not)),
        "odd" => Some(Instr::Unary(Unary::Odd)),
        "cap" => Some(Instr::Unary(Unary::Cap)),
        "compl" => Some(Instr::Unary(Unary::Compl)),
        "union" => Some(Instr::Binary(Binary::Union)),
        "minus" => Some(Instr::Binary(Binary::Minus)),
        "meet" => Some(Instr::Binary(Binary::Meet)),
        "xor" => Some(Instr::Binary(Binary::Xor)),
        "set_span" => Some(Instr::Binary(Binary::SetSpan)),
        "in" => Some(Instr::Binary(Binary::In)),
        _ => None,
    }
}

/// An operator on numbers of so many bits.
pub fn wide_operator(name: &str, bits: i64) -> Option<Instr> {
    let width = width_of(bits)?;
    match name {
        "neg" => Some(Instr::Unary(Unary::Neg(width))),
        "abs" => Some(Instr::Unary(Unary::Abs(width))),
        "add" => Some(Instr::Binary(Binary::Add(width))),
        "sub" => Some(Instr::Binary(Binary::Sub(width))),
        "mul" => Some(Instr::Binary(Binary::Mul(width))),
        "div" => Some(Instr::Binary(Binary::Div(width))),
        "mod" => Some(Instr::Binary(Binary::Mod(width))),
        "ash" => Some(Instr::Binary(Binary::Ash(width))),
        _ => None,
    }
}
