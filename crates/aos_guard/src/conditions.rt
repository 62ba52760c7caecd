// The conditions of a program, and whether they are local.

ghost use Rattle.std.specs.Prelude.{◌≡◌, ◌≤◌, ◌+◌, ◌*◌, ◌++◌, ◌∷◌, [], length, IfOk, OnOk};
ghost use Rattle.aos_typed.specs.Conditions.{condition_in, conditions, conditions_of};
ghost use Rattle.aos_typed.specs.Seen.{seen_program};
ghost use Rattle.aos_typed.specs.WellTyped.{IsWellTyped};
ghost use Rattle.aos_dispatch.specs.Awaits.{seen_await};
ghost use Rattle.aos_dispatch.specs.Routines.{seen_routine};
ghost use Rattle.aos_guard.specs.Awaits.{AreInOrder, AreTold, Tells, TellsEach, place_of};
ghost use Rattle.aos_guard.specs.Edges.{AreMarks, AreTexts};

use crate::guarded::home_of;
use crate::local::is_local;
use crate::quiet::quiet_of;
use aos_base::NoMemory;
use aos_code::AwaitRec;
use aos_dispatch::{Await, Dispatch, Routine, awaits_of};
use aos_typed::Program;
use aos_uses::uses::Use;
use aos_uses::{texts_of, value_uses};
use std::alloc::{AllocError, Global};

/// The most types, beside those that are predeclared, whose conditions are told; more are want of memory.
const MOST_TYPES: usize = 67_108_864;

// What is told of a condition in a routine.
#[tactic(auto, using(crate::proofs::Tellings::told_one))]
fn tell(
    alloc: Global,
    dispatch: &Dispatch<'_>,
    quiet: &[bool],
    texts: &[Vec<Use>],
    routine: &Routine<'_>,
    one: &Await<'_>,
) -> Result<AwaitRec, AllocError>
    requires quiet { AreMarks (seen_program dispatch.now) quiet.now }
    requires texts { AreTexts (seen_program dispatch.now) texts.now }
    ensures { IfOk result (λ t. Tells (seen_program dispatch.now)
        (condition_in (seen_routine routine.now).home (seen_routine routine.now).own
        (seen_await one.now)) t) }
{
    let mut uses = Vec::new(alloc);
    value_uses(dispatch, &mut uses, one.condition)?;
    Ok(AwaitRec {
        module: home_of(routine),
        pos: one.at,
        is_local: is_local(dispatch, quiet, texts, routine, &uses)?,
    })
}

// One more.
fn put(all: &mut Vec<AwaitRec>, one: AwaitRec) -> Result<(), AllocError>
    ensures { OnOk result (all.new.items ≡ all.old.items ++ one ∷ []) }
{
    all.push(one)?;
    Ok(())
}

// What is told of several more.
fn put_all(all: &mut Vec<AwaitRec>, more: &[AwaitRec]) -> Result<(), AllocError>
    ensures { OnOk result (all.new.items ≡ all.old.items ++ more.now) }
{
    all.extend_from_slice(more)?;
    Ok(())
}

// What is told of those of a routine.
fn routine_told(
    alloc: Global,
    dispatch: &Dispatch<'_>,
    quiet: &[bool],
    texts: &[Vec<Use>],
    routine: &Routine<'_>,
) -> Result<Vec<AwaitRec>, AllocError>
    requires quiet { AreMarks (seen_program dispatch.now) quiet.now }
    requires texts { AreTexts (seen_program dispatch.now) texts.now }
    ensures { IfOk result (λ all.
        AreTold (seen_program dispatch.now) (conditions_of (seen_routine routine.now)) all.items) }
{
    let mut all = Vec::new(alloc);
    let awaits = awaits_of(alloc, routine)?;
    for one in &awaits {
        put(&mut all, tell(alloc, dispatch, quiet, texts, routine, one)?)?;
    }
    Ok(all)
}

// What is told of all, routine by routine.
#[tactic(auto, using(crate::proofs::Tellings::all_first))]
fn all_told(
    alloc: Global,
    dispatch: &Dispatch<'_>,
    quiet: &[bool],
    texts: &[Vec<Use>],
) -> Result<Vec<AwaitRec>, AllocError>
    requires quiet { AreMarks (seen_program dispatch.now) quiet.now }
    requires texts { AreTexts (seen_program dispatch.now) texts.now }
    ensures { IfOk result (λ all.
        AreTold (seen_program dispatch.now) (conditions (seen_program dispatch.now)) all.items) }
{
    let mut all = Vec::new(alloc);
    let routines = dispatch.routines();
    for routine in routines {
        let here = routine_told(alloc, dispatch, quiet, texts, routine)?;
        put_all(&mut all, &here)?;
    }
    Ok(all)
}

// A line of a module, as one number.
fn with_line(home: u32, line: u32) -> u64
    ensures { result ≡ home * 4294967296 + line }
{
    let before = u64::from(home) * 4294967296;
    before + u64::from(line)
}

// A column of such a line.
fn with_column(line: u64, col: u32) -> u128
    ensures { result ≡ line * 4294967296 + col }
{
    let before = u128::from(line) * 4294967296;
    before + u128::from(col)
}

// Where a condition comes in the order: by its module, its line and its column.
fn place_of(one: &AwaitRec) -> u128
    ensures { result ≡ place_of one.now }
{
    with_column(with_line(one.module, one.pos.line), one.pos.col)
}

/// Each condition of a well-typed program, the modules in load order and in each in the order of the text, with whether it is local.
pub fn locals(alloc: Global, program: &Program) -> Result<Vec<AwaitRec>, NoMemory>
    requires few { length program.now.modules.items ≤ 64 }
    requires typed { IsWellTyped (seen_program program.now) }
    ensures each { IfOk result (λ all. TellsEach (seen_program program.now) all.items) }
    ensures order { IfOk result (λ all. AreInOrder all.items) }
{
    if program.objects.len() > MOST_TYPES {
        return Err(NoMemory);
    }
    let dispatch = Dispatch::new(alloc, program)?;
    let texts = texts_of(alloc, &dispatch)?;
    let quiet = quiet_of(alloc, &dispatch, &texts)?;
    let mut all = all_told(alloc, &dispatch, &quiet, &texts)?;
    all.sort_by_key(|one| place_of(one))?;
    Ok(all)
}
