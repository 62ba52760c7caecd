// What an instruction takes from a stack.

ghost use Rattle.std.specs.Prelude.{◌≡◌, ◌<◌, [], ◌∷◌, length, replicate, reverse};
ghost use Rattle.aos_code.specs.declared.instr.Kind.TheVariants.{N, A};
ghost use Rattle.aos_code.specs.Silent.{kinds_of};
ghost use Rattle.aos_sound.specs.Sound as sound;
ghost use Rattle.aos_sound.specs.Sound.{without, row, dropped};
ghost use Rattle.aos_sound.specs.Stacks.{stack_at, Means};

use crate::stacks::Stacks;
use aos_code::{Kind, ParamKind};

fn same_kind(a: Kind, b: Kind) -> bool
    ensures { result ≡ sound.same_kind a b }
{
    match (a, b) {
        (Kind::N, Kind::N) => true,
        (Kind::R, Kind::R) => true,
        (Kind::C, Kind::C) => true,
        (Kind::A, Kind::A) => true,
        _ => false,
    }
}

/// What is left where one of this kind is taken.
pub fn take(stacks: &Stacks, kind: Kind, id: u32) -> Option<u32>
    requires { id < length stacks.now }
    ensures { Means stacks.now result (without (kind ∷ []) (stack_at stacks.now id)) }
{
    match stacks.split(id) {
        Some((top, below)) => if same_kind(kind, top) {
            Some(below)
        } else {
            None
        },
        None => None,
    }
}

/// What is left where one of the first kind is taken, and one of the second.
pub fn take_two(stacks: &Stacks, first: Kind, second: Kind, id: u32) -> Option<u32>
    requires { id < length stacks.now }
    ensures { Means stacks.now result (without (first ∷ second ∷ []) (stack_at stacks.now id)) }
{
    match stacks.split(id) {
        Some((top, below)) => if same_kind(first, top) {
            take(stacks, second, below)
        } else {
            None
        },
        None => None,
    }
}

/// What is left below the topmost operand.
pub fn drop_one(stacks: &Stacks, id: u32) -> Option<u32>
    requires { id < length stacks.now }
    ensures { Means stacks.now result (dropped (stack_at stacks.now id)) }
{
    match stacks.split(id) {
        Some((_, below)) => Some(below),
        None => None,
    }
}

/// What is left where two texts are taken, each a place and above it a length.
pub fn take_texts(stacks: &Stacks, id: u32) -> Option<u32>
    requires { id < length stacks.now }
    ensures { Means stacks.now result
        (without (N ∷ A ∷ N ∷ A ∷ []) (stack_at stacks.now id)) }
{
    match take_two(stacks, Kind::N, Kind::A, id) {
        Some(below) => take_two(stacks, Kind::N, Kind::A, below),
        None => None,
    }
}

/// What is left where so many lengths are taken. It looks at no more operands than there are, however many are to be taken.
pub fn take_lengths(stacks: &Stacks, lengths: u32, id: u32) -> Option<u32>
    requires { id < length stacks.now }
    ensures { Means stacks.now result (without (replicate lengths N) (stack_at stacks.now id)) }
{
    let mut todo = lengths;
    let mut left = id;
    while todo > 0 {
        match take(stacks, Kind::N, left) {
            Some(below) => left = below,
            None => return None,
        }
        todo -= 1;
    }
    Some(left)
}

/// What is left where so many lengths are taken, and the place of an open array below them.
pub fn take_row(stacks: &Stacks, lengths: u32, id: u32) -> Option<u32>
    requires { id < length stacks.now }
    ensures { Means stacks.now result (without (row lengths) (stack_at stacks.now id)) }
{
    match take_lengths(stacks, lengths, id) {
        Some(array) => take(stacks, Kind::A, array),
        None => None,
    }
}

/// What is left where the argument for a parameter is taken.
fn take_argument(stacks: &Stacks, parameter: ParamKind, id: u32) -> Option<u32>
    requires { id < length stacks.now }
    ensures { Means stacks.now result
        (without (reverse (kinds_of (parameter ∷ []))) (stack_at stacks.now id)) }
{
    match parameter {
        ParamKind::Scalar(kind) => take(stacks, kind, id),
        ParamKind::Whole(_) => take(stacks, Kind::A, id),
        ParamKind::Place => take(stacks, Kind::A, id),
        ParamKind::Open(lengths, _, _) => take_row(stacks, lengths, id),
    }
}

/// What is left where the arguments for all parameters are taken, the last one first.
pub fn take_arguments(stacks: &Stacks, parameters: &[ParamKind], id: u32) -> Option<u32>
    requires { id < length stacks.now }
    ensures { Means stacks.now result
        (without (reverse (kinds_of parameters.now)) (stack_at stacks.now id)) }
{
    let mut todo = parameters.len();
    let mut left = id;
    while todo > 0 {
        match take_argument(stacks, parameters[todo - 1], left) {
            Some(below) => left = below,
            None => return None,
        }
        todo -= 1;
    }
    Some(left)
}
