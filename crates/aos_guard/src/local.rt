// Local conditions.

ghost use Rattle.std.specs.Prelude.{◌≡◌, ◌↔◌, ◌⊎◌, IfOk, IsTrue, false, map, slice_get, option_map, not};
ghost use Rattle.aos_typed.specs.Routines.{has_self};
ghost use Rattle.std.specs.Option.{unwrap_or};
ghost use Rattle.aos_typed.specs.Seen.{seen_parameter, seen_program};
ghost use Rattle.aos_dispatch.specs.Routines.{seen_routine};
ghost use Rattle.aos_guard.specs.Edges.{AreMarks, AreTexts};
ghost use Rattle.aos_uses.specs.Guarded.{Each, IsGuarded, Lets, MayRead, is_by_value, is_of_module};

use crate::guarded::{has_self, home_of, is_guarded, is_of_module};
use aos_dispatch::{Dispatch, Routine};
use aos_typed::TParameter;
use aos_uses::uses::{Target, Use, Variable};
use std::alloc::AllocError;

// Whether one of these parameters is one by value.
fn is_copied(parameters: &[TParameter], number: u32) -> bool
    ensures { result ≡
        unwrap_or (option_map (λ a. not a.by_reference)
        (slice_get (map seen_parameter parameters.now) number)) false }
{
    match parameters.get(number as usize) {
        Some(parameter) => !parameter.by_reference,
        None => false,
    }
}

// Whether an open array parameter of a routine is one by value.
fn is_by_value(routine: &Routine<'_>, number: u32) -> bool
    ensures { result ≡ is_by_value (seen_routine routine.now).own number }
{
    match routine {
        Routine::Body(_, _, _) => false,
        Routine::Procedure(_, procedure) => is_copied(&procedure.parameters, number),
    }
}

// Whether a condition in a routine may know a variable or a string constant of a module.
#[tactic(auto, using(crate::proofs::Tests::known_or))]
fn may_know(dispatch: &Dispatch<'_>, routine: &Routine<'_>, home: u32, number: u32) -> bool
    ensures { IsTrue result ↔ (IsTrue (not (is_of_module (seen_program dispatch.now) home number)) ⊎
        (((seen_routine routine.now).home ≡ home) × (has_self (seen_routine routine.now).own ≡
        false))) }
{
    let there = is_of_module(dispatch, home, number);
    let same = home_of(routine) == home;
    let own = has_self(routine);
    !there || (same && !own)
}

// Whether it may read it.
#[tactic(auto, using(crate::proofs::Tests::both_hold))]
fn may_read_module(
    dispatch: &Dispatch<'_>,
    quiet: &[bool],
    texts: &[Vec<Use>],
    routine: &Routine<'_>,
    home: u32,
    number: u32,
) -> Result<bool, AllocError>
    requires quiet { AreMarks (seen_program dispatch.now) quiet.now }
    requires texts { AreTexts (seen_program dispatch.now) texts.now }
    ensures { IfOk result (λ b. IsTrue b ↔
        ((IsTrue (not (is_of_module (seen_program dispatch.now) home number)) ⊎
        (((seen_routine routine.now).home ≡ home) × (has_self (seen_routine routine.now).own ≡
        false))) ×
        IsGuarded (seen_program dispatch.now) (Variable.Module home number))) }
{
    let known = may_know(dispatch, routine, home, number);
    let guarded = is_guarded(dispatch, quiet, texts, Variable::Module(home, number))?;
    Ok(known && guarded)
}

// Whether it may read a field.
#[tactic(auto, using(crate::proofs::Tests::first_holds))]
fn may_read_field(
    dispatch: &Dispatch<'_>,
    quiet: &[bool],
    texts: &[Vec<Use>],
    through_self: bool,
    field: Variable,
) -> Result<bool, AllocError>
    requires quiet { AreMarks (seen_program dispatch.now) quiet.now }
    requires texts { AreTexts (seen_program dispatch.now) texts.now }
    ensures { IfOk result (λ b.
        IsTrue b ↔ (IsTrue through_self × IsGuarded (seen_program dispatch.now) field)) }
{
    let guarded = is_guarded(dispatch, quiet, texts, field)?;
    Ok(through_self && guarded)
}

// Whether a condition in a routine may read a variable.
fn may_read(
    dispatch: &Dispatch<'_>,
    quiet: &[bool],
    texts: &[Vec<Use>],
    routine: &Routine<'_>,
    target: Target,
) -> Result<bool, AllocError>
    requires quiet { AreMarks (seen_program dispatch.now) quiet.now }
    requires texts { AreTexts (seen_program dispatch.now) texts.now }
    ensures { IfOk result (λ b. IsTrue b ↔ MayRead (seen_program dispatch.now)
        (seen_routine routine.now).home (seen_routine routine.now).own target.through_self
        target.of) }
{
    match target.of {
        Variable::Module(home, number) => {
            may_read_module(dispatch, quiet, texts, routine, home, number)
        }
        Variable::Field(_, _) => may_read_field(
            dispatch,
            quiet,
            texts,
            target.through_self,
            target.of,
        ),
        Variable::Local => Ok(true),
        Variable::Passed => Ok(false),
        Variable::Opened(number) => Ok(is_by_value(routine, number)),
        Variable::Heap => Ok(false),
    }
}

// Whether a local condition in a routine may make a use of something.
fn lets(
    dispatch: &Dispatch<'_>,
    quiet: &[bool],
    texts: &[Vec<Use>],
    routine: &Routine<'_>,
    one: Use,
) -> Result<bool, AllocError>
    requires quiet { AreMarks (seen_program dispatch.now) quiet.now }
    requires texts { AreTexts (seen_program dispatch.now) texts.now }
    ensures { IfOk result (λ b. IsTrue b ↔
        Lets (seen_program dispatch.now) (seen_routine routine.now).home
        (seen_routine routine.now).own one) }
{
    match one {
        Use::Writes(_, _) => Ok(false),
        Use::Reads(target) => may_read(dispatch, quiet, texts, routine, target),
        Use::Varies(_) => Ok(false),
        Use::Follows => Ok(false),
        Use::SelfValue => Ok(true),
        Use::Calls => Ok(false),
        Use::Raises(_, _) => Ok(false),
        Use::Finds(_, _) => Ok(true),
        Use::Binds => Ok(true),
        Use::Makes => Ok(false),
    }
}

/// Whether a condition in a routine that uses this is local.
#[tactic(auto, using(crate::proofs::Each::each_first, crate::proofs::Each::each_more, crate::proofs::Each::each_no, crate::proofs::Each::each_yes))]
pub fn is_local(
    dispatch: &Dispatch<'_>,
    quiet: &[bool],
    texts: &[Vec<Use>],
    routine: &Routine<'_>,
    uses: &[Use],
) -> Result<bool, AllocError>
    requires quiet { AreMarks (seen_program dispatch.now) quiet.now }
    requires texts { AreTexts (seen_program dispatch.now) texts.now }
    ensures { IfOk result (λ b. IsTrue b ↔
        Each (Lets (seen_program dispatch.now) (seen_routine routine.now).home
        (seen_routine routine.now).own) uses.now) }
{
    for one in uses {
        if !lets(dispatch, quiet, texts, routine, *one)? {
            return Ok(false);
        }
    }
    Ok(true)
}
