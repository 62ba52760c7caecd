// What each instruction takes from the stack and gives, and where the code goes on behind it.

ghost use Rattle.std.specs.Prelude.{◌≡◌};
ghost use Rattle.aos_sound.specs.Sound as sound;

use aos_code::{Instr, Kind};

/// What an instruction takes from the stack and gives, the topmost operand first.
#[derive(Clone, Copy)]
pub enum Effect {
    /// It leaves the stack as it is.
    Pass,
    /// Gives an operand of this kind.
    Gives(Kind),
    /// Takes one of this kind.
    Takes(Kind),
    /// Takes one of the first kind and below it one of the second.
    TakesTwo(Kind, Kind),
    /// Takes one of the first kind and gives one of the second.
    Turns(Kind, Kind),
    /// Takes one of the first kind and below it one of the second, and gives one of the third.
    Joins(Kind, Kind, Kind),
    /// Gives the topmost operand once more.
    Twice,
    /// Takes the topmost operand.
    Drops,
    /// Exchanges the two topmost operands.
    Swaps,
    /// Takes an index, so many lengths and below them the place of an open array, and gives a place and one length less.
    Rows(u32),
    /// Takes so many lengths and below them the place of an open array, and gives a number.
    Picks(u32),
    /// Takes an object and gives the place of an open array and above it so many lengths.
    Spreads(u32),
    /// Takes so many lengths and gives an object.
    Makes(u32),
    /// Takes two texts, each a place and above it a length, and gives an operand of this kind, if any.
    Texts(Option<Kind>),
    /// Takes the arguments of the procedure of this number, the last one from the top, and below them the object where it is a
    /// method, and gives its result, if any.
    Calls(u32),
    /// Takes the arguments of the method of this number, and below them an object, and gives the method's result, if any.
    Sends(u32),
    /// Takes the arguments of the procedure of this number, and below them a procedure value, and gives the procedure's result, if any.
    Applies(u32),
    /// Takes the result of the procedure, where nothing else is there.
    Returns,
}

/// Where code goes on behind an instruction.
#[derive(Clone, Copy)]
pub enum Next {
    /// Nowhere.
    Ends,
    /// At the place behind it.
    On,
    /// At the place of this number.
    To(u32),
    /// At the place of this number or at the one behind it.
    Either(u32),
}

/// What an instruction takes from the stack and gives.
pub fn effect_of(i: &Instr) -> Effect
    ensures { result ≡ sound.effect_of i.now }
{
    match *i {
        Instr::Num(_) => Effect::Gives(Kind::N),
        Instr::Nil => Effect::Gives(Kind::R),
        Instr::NilCall => Effect::Gives(Kind::C),
        Instr::Proc(_) => Effect::Gives(Kind::C),
        Instr::SelfRef => Effect::Gives(Kind::R),
        Instr::Dup => Effect::Twice,
        Instr::Drop => Effect::Drops,
        Instr::Swap => Effect::Swaps,
        Instr::Frame(_) => Effect::Gives(Kind::A),
        Instr::Module(_, _) => Effect::Gives(Kind::A),
        Instr::Param(_) => Effect::Gives(Kind::A),
        Instr::Length(_) => Effect::Gives(Kind::N),
        Instr::Deref(_) => Effect::Turns(Kind::R, Kind::A),
        Instr::OpenRef(j) => Effect::Spreads(j),
        Instr::Offset(_, _) => Effect::Turns(Kind::A, Kind::A),
        Instr::Index(_, _) => Effect::Joins(Kind::N, Kind::A, Kind::A),
        Instr::IndexOpen(j, _) => Effect::Rows(j),
        Instr::PickLen(_, j) => Effect::Picks(j),
        Instr::Unary(_) => Effect::Turns(Kind::N, Kind::N),
        Instr::Binary(_) => Effect::Joins(Kind::N, Kind::N, Kind::N),
        Instr::EqRef => Effect::Joins(Kind::R, Kind::R, Kind::N),
        Instr::EqCall => Effect::Joins(Kind::C, Kind::C, Kind::N),
        Instr::Bind(_) => Effect::Turns(Kind::R, Kind::C),
        Instr::Is(_) => Effect::Turns(Kind::R, Kind::N),
        Instr::IsPlace(_) => Effect::Turns(Kind::A, Kind::N),
        Instr::Guard(_) => Effect::Turns(Kind::R, Kind::R),
        Instr::GuardPlace(_) => Effect::Turns(Kind::A, Kind::A),
        Instr::Keep(_, kind) => Effect::Takes(kind),
        Instr::Kept(_, kind) => Effect::Gives(kind),
        Instr::Fail(_) => Effect::Pass,
        Instr::Assert(_) => Effect::Takes(Kind::N),
        Instr::Halt(_) => Effect::Pass,
        Instr::Jump(_) => Effect::Pass,
        Instr::JumpFalse(_) => Effect::Takes(Kind::N),
        Instr::Begin(_, _) => Effect::Pass,
        Instr::Load(kind) => Effect::Turns(Kind::A, kind),
        Instr::Store(kind) => Effect::TakesTwo(kind, Kind::A),
        Instr::Copy(_) => Effect::TakesTwo(Kind::A, Kind::A),
        Instr::PutText(_) => Effect::Texts(None),
        Instr::CmpText(_) => Effect::Texts(Some(Kind::N)),
        Instr::Call(p) => Effect::Calls(p),
        Instr::Virtual(_, p) => Effect::Sends(p),
        Instr::CallValue(p) => Effect::Applies(p),
        Instr::NewObject(_) => Effect::Gives(Kind::R),
        Instr::NewArray(_, j) => Effect::Makes(j),
        Instr::Start => Effect::Takes(Kind::R),
        Instr::Enter => Effect::Pass,
        Instr::Leave => Effect::Pass,
        Instr::Await(_) => Effect::Pass,
        Instr::Verdict => Effect::Takes(Kind::N),
        Instr::Return => Effect::Returns,
        Instr::OutChar => Effect::Takes(Kind::N),
        Instr::OutInt => Effect::TakesTwo(Kind::N, Kind::N),
        Instr::OutString => Effect::TakesTwo(Kind::N, Kind::A),
        Instr::OutLn => Effect::Pass,
        Instr::OutOpen => Effect::Pass,
    }
}

/// Where code goes on behind an instruction.
pub fn next_of(i: &Instr) -> Next
    ensures { result ≡ sound.next_of i.now }
{
    match *i {
        Instr::Fail(_) => Next::Ends,
        Instr::Halt(_) => Next::Ends,
        Instr::Return => Next::Ends,
        Instr::Verdict => Next::Ends,
        Instr::Jump(to) => Next::To(to),
        Instr::JumpFalse(to) => Next::Either(to),
        _ => Next::On,
    }
}
