// Guarded variables.

ghost use Rattle.std.specs.Prelude.{◌≡◌, ◌↔◌, ◌⊎◌, Some, false, map, slice_get, IfOk, IsTrue};
ghost use Rattle.aos_typed.specs.Routines.{has_self};
ghost use Rattle.aos_typed.specs.Seen.{seen_module, seen_program};
ghost use Rattle.aos_dispatch.specs.Routines.{seen_routine};
ghost use Rattle.aos_guard.specs.Edges.{AreMarks, AreTexts};
ghost use Rattle.aos_uses.specs.Guarded.{Each, InEach, IsDeclared, IsGuarded, IsQuiet, MayWrite, Spares, has_variable, is_of_module};

use crate::marks::has_mark;
use aos_dispatch::{Dispatch, Routine, after};
use aos_typed::TModule;
use aos_uses::uses::{Target, Use, Variable};
use std::alloc::AllocError;

/// The number of the module whose text a routine is.
pub fn home_of(routine: &Routine<'_>) -> u32
    ensures { result ≡ (seen_routine routine.now).home }
{
    match routine {
        Routine::Body(home, _, _) => *home,
        Routine::Procedure(home, _) => *home,
    }
}

/// Whether a routine is a method or an object's body.
pub fn has_self(routine: &Routine<'_>) -> bool
    ensures { result ≡ has_self (seen_routine routine.now).own }
{
    match routine {
        Routine::Body(_, _, _) => false,
        Routine::Procedure(_, procedure) => procedure.of.is_some(),
    }
}

// Whether a module has a variable of this number.
#[tactic(auto, using(crate::proofs::Tests::variable_there))]
fn has_variable(module: &TModule, number: u32) -> bool
    ensures { result ≡ has_variable (Some (seen_module module.now)) number }
{
    let count = module.variables.len();
    (number as usize) < count
}

// Whether one of these modules has a variable of this number.
fn have_variable(modules: &[TModule], home: u32, number: u32) -> bool
    ensures { result ≡ has_variable (slice_get (map seen_module modules.now) home) number }
{
    match modules.get(home as usize) {
        Some(module) => has_variable(module, number),
        None => false,
    }
}

/// Whether a variable of a module is none of its string constants, which are numbered on from its variables.
pub fn is_of_module(dispatch: &Dispatch<'_>, home: u32, number: u32) -> bool
    ensures { result ≡ is_of_module (seen_program dispatch.now) home number }
{
    let program = dispatch.program();
    have_variable(&program.modules, home, number)
}

// Whether a variable is one of a module or a field of an object.
fn is_declared(variable: Variable) -> bool
    ensures { IsTrue result ↔ IsDeclared variable }
{
    match variable {
        Variable::Module(_, _) => true,
        Variable::Field(_, _) => true,
        Variable::Local => false,
        Variable::Passed => false,
        Variable::Opened(_) => false,
        Variable::Heap => false,
    }
}

// Whether a routine may write a guarded variable of a module.
#[tactic(auto, using(crate::proofs::Tests::all_four))]
fn may_write_module(
    dispatch: &Dispatch<'_>,
    routine: &Routine<'_>,
    exclusive: bool,
    home: u32,
    number: u32,
) -> bool
    ensures { IsTrue result ↔ (IsTrue (is_of_module (seen_program dispatch.now) home number) ×
        (IsTrue exclusive × (((seen_routine routine.now).home ≡ home) ×
        (has_self (seen_routine routine.now).own ≡ false)))) }
{
    let there = is_of_module(dispatch, home, number);
    let same = home_of(routine) == home;
    let own = has_self(routine);
    there && exclusive && same && !own
}

// Whether a text may write a guarded field.
#[tactic(auto, using(crate::proofs::Tests::field_written))]
fn may_write_field(
    dispatch: &Dispatch<'_>,
    quiet: &[bool],
    text: u32,
    through_self: bool,
    exclusive: bool,
) -> bool
    requires { AreMarks (seen_program dispatch.now) quiet.now }
    ensures { IsTrue result ↔
        (IsTrue through_self × (IsTrue exclusive ⊎ IsQuiet (seen_program dispatch.now) text)) }
{
    let mark = has_mark(quiet, text);
    through_self && (exclusive || mark)
}

// Whether a text may write a guarded variable.
fn may_write(
    dispatch: &Dispatch<'_>,
    quiet: &[bool],
    text: u32,
    routine: &Routine<'_>,
    target: Target,
    exclusive: bool,
) -> bool
    requires { AreMarks (seen_program dispatch.now) quiet.now }
    ensures { IsTrue result ↔
        MayWrite (seen_program dispatch.now) text (seen_routine routine.now) target.through_self
        exclusive target.of }
{
    match target.of {
        Variable::Module(home, number) => {
            may_write_module(dispatch, routine, exclusive, home, number)
        }
        Variable::Field(_, _) => {
            may_write_field(dispatch, quiet, text, target.through_self, exclusive)
        }
        Variable::Local => true,
        Variable::Passed => true,
        Variable::Opened(_) => true,
        Variable::Heap => true,
    }
}

// Whether a write in a text leaves a variable as a guarded one may be left.
#[tactic(auto, using(crate::proofs::Tests::follows_so, crate::proofs::Tests::follows_none))]
fn spares_write(
    dispatch: &Dispatch<'_>,
    quiet: &[bool],
    variable: Variable,
    text: u32,
    routine: &Routine<'_>,
    target: Target,
    exclusive: bool,
) -> bool
    requires { AreMarks (seen_program dispatch.now) quiet.now }
    ensures { IsTrue result ↔ Spares (seen_program dispatch.now) variable text
        (seen_routine routine.now) (Use.Writes target exclusive) }
{
    if target.of == variable {
        may_write(dispatch, quiet, text, routine, target, exclusive)
    } else {
        true
    }
}

// Whether a VAR argument is another variable.
#[tactic(auto, using(crate::proofs::Tests::never_so, crate::proofs::Tests::follows_none))]
fn is_other(variable: Variable, target: Target) -> bool
    ensures { IsTrue result ↔ (target.of ≡ variable → ⊥) }
{
    if target.of == variable { false } else { true }
}

// Whether a use in a text leaves a variable as a guarded one may be left.
fn spares(
    dispatch: &Dispatch<'_>,
    quiet: &[bool],
    variable: Variable,
    text: u32,
    routine: &Routine<'_>,
    one: Use,
) -> bool
    requires { AreMarks (seen_program dispatch.now) quiet.now }
    ensures { IsTrue result ↔ Spares (seen_program dispatch.now) variable text
        (seen_routine routine.now) one }
{
    match one {
        Use::Writes(target, exclusive) => {
            spares_write(dispatch, quiet, variable, text, routine, target, exclusive)
        }
        Use::Varies(target) => is_other(variable, target),
        Use::Reads(_) => true,
        Use::Follows => true,
        Use::SelfValue => true,
        Use::Calls => true,
        Use::Raises(_, _) => true,
        Use::Finds(_, _) => true,
        Use::Binds => true,
        Use::Makes => true,
    }
}

// Whether all uses in a text do.
#[tactic(auto, using(crate::proofs::Each::each_first, crate::proofs::Each::each_more, crate::proofs::Each::each_no, crate::proofs::Each::each_yes))]
fn text_spares(
    dispatch: &Dispatch<'_>,
    quiet: &[bool],
    variable: Variable,
    text: u32,
    routine: &Routine<'_>,
    uses: &[Use],
) -> bool
    requires { AreMarks (seen_program dispatch.now) quiet.now }
    ensures { IsTrue result ↔
        Each (Spares (seen_program dispatch.now) variable text (seen_routine routine.now))
        uses.now }
{
    for one in uses {
        if !spares(dispatch, quiet, variable, text, routine, *one) {
            return false;
        }
    }
    true
}

// Whether all texts do.
#[tactic(auto, using(crate::proofs::Texts::rest_first))]
fn texts_spare(
    dispatch: &Dispatch<'_>,
    quiet: &[bool],
    texts: &[Vec<Use>],
    variable: Variable,
) -> Result<bool, AllocError>
    requires quiet { AreMarks (seen_program dispatch.now) quiet.now }
    requires texts { AreTexts (seen_program dispatch.now) texts.now }
    ensures { IfOk result (λ b.
        IsTrue b ↔ InEach (seen_program dispatch.now)
        (Spares (seen_program dispatch.now) variable)) }
{
    let routines = dispatch.routines();
    for index in 0..routines.len() {
        let Some(text) = texts.get(index) else {
            return Err(AllocError);
        };
        let number = after(1, index)?;
        if !text_spares(dispatch, quiet, variable, number, &routines[index], text) {
            return Ok(false);
        }
    }
    Ok(true)
}

/// Whether a variable is guarded.
#[tactic(auto, using(crate::proofs::Tests::both_hold))]
pub fn is_guarded(
    dispatch: &Dispatch<'_>,
    quiet: &[bool],
    texts: &[Vec<Use>],
    variable: Variable,
) -> Result<bool, AllocError>
    requires quiet { AreMarks (seen_program dispatch.now) quiet.now }
    requires texts { AreTexts (seen_program dispatch.now) texts.now }
    ensures { IfOk result (λ b. IsTrue b ↔ IsGuarded (seen_program dispatch.now) variable) }
{
    let spared = texts_spare(dispatch, quiet, texts, variable)?;
    Ok(is_declared(variable) && spared)
}
