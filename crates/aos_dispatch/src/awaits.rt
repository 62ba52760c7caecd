// What a routine awaits, in the order of its text.

ghost use Rattle.std.specs.Prelude.{◌≡◌, ◌++◌, ◌∷◌, [], map, IfOk, OnOk};
ghost use Rattle.aos_typed.specs.Conditions.{awaited, awaited_in, awaited_in_arms, awaited_in_cases};
ghost use Rattle.aos_typed.specs.Seen.{seen_else, seen_stat, seen_stats, arms_of, cases_of};
ghost use Rattle.aos_dispatch.specs.Awaits.{seen_await};
ghost use Rattle.aos_dispatch.specs.Routines.{seen_routine};

use crate::routines::Routine;
use aos_base::Pos;
use aos_typed::{TArm, TCase, TElse, TExpr, TStat};
use std::alloc::{AllocError, Global};

/// What an AWAIT awaits, and its place in the text.
#[derive(Clone, Copy)]
pub struct Await<'a> {
    pub at: Pos,
    pub condition: &'a TExpr,
}

// One more.
fn put<'a>(found: &mut Vec<Await<'a>>, one: Await<'a>) -> Result<(), AllocError>
    ensures { OnOk result (map seen_await found.new.items ≡ map seen_await found.old.items ++
        seen_await one.entry ∷ []) }
{
    found.push(one)?;
    Ok(())
}

#[cycle(stat_awaits)]
#[tactic(auto, using(crate::proofs::Heights::arm_less, crate::proofs::Heights::otherwise_less))]
fn arms_awaits<'a>(
    found: &mut Vec<Await<'a>>,
    arms: &'a [TArm],
    otherwise: &'a [TStat],
) -> Result<(), AllocError>
    ensures { OnOk result (map seen_await found.new.items ≡
        map seen_await found.old.items ++
        awaited_in_arms (arms_of arms.now (seen_stats otherwise.now))) }
{
    for arm in arms {
        stats_awaits(found, &arm.body)?;
    }
    stats_awaits(found, otherwise)
}

#[cycle(stat_awaits)]
#[tactic(auto, using(aos_typed::proofs::Seen::else_seen))]
fn else_awaits<'a>(found: &mut Vec<Await<'a>>, otherwise: &'a TElse) -> Result<(), AllocError>
    ensures { OnOk result (map seen_await found.new.items ≡
        map seen_await found.old.items ++ awaited_in_cases (seen_else otherwise.now)) }
{
    match otherwise {
        TElse::Missing => Ok(()),
        TElse::Else(body) => stats_awaits(found, body),
    }
}

#[cycle(stat_awaits)]
#[tactic(auto, using(crate::proofs::Heights::case_less, crate::proofs::Heights::else_less))]
fn cases_awaits<'a>(
    found: &mut Vec<Await<'a>>,
    cases: &'a [TCase],
    otherwise: &'a TElse,
) -> Result<(), AllocError>
    ensures { OnOk result (map seen_await found.new.items ≡
        map seen_await found.old.items ++
        awaited_in_cases (cases_of cases.now (seen_else otherwise.now))) }
{
    for case in cases {
        stats_awaits(found, &case.body)?;
    }
    else_awaits(found, otherwise)
}

#[cycle(stat_awaits)]
fn stat_awaits<'a>(found: &mut Vec<Await<'a>>, statement: &'a TStat) -> Result<(), AllocError>
    ensures { OnOk result (map seen_await found.new.items ≡
        map seen_await found.old.items ++ awaited (seen_stat statement.now)) }
{
    match statement {
        TStat::If(_, arms, otherwise) => arms_awaits(found, arms, otherwise),
        TStat::Case(_, _, cases, otherwise) => cases_awaits(found, cases, otherwise),
        TStat::While(_, _, body) => stats_awaits(found, body),
        TStat::Repeat(_, body, _) => stats_awaits(found, body),
        TStat::Loop(_, body) => stats_awaits(found, body),
        TStat::For(_, _, _, _, _, _, body) => stats_awaits(found, body),
        TStat::Block(_, _, body) => stats_awaits(found, body),
        TStat::Await(at, _, condition) => put(found, Await { at: *at, condition }),
        TStat::With(_, _, body) => stats_awaits(found, body),
        TStat::WithRecord(_, _, body) => stats_awaits(found, body),
        TStat::Assign(_, _, _, _) => Ok(()),
        TStat::Copy(_, _, _, _) => Ok(()),
        TStat::PutText(_, _, _, _) => Ok(()),
        TStat::Exit(_) => Ok(()),
        TStat::Assert(_, _, _) => Ok(()),
        TStat::Halt(_, _) => Ok(()),
        TStat::Change(_, _, _, _) => Ok(()),
        TStat::Perform(_, _, _) => Ok(()),
        TStat::Return(_, _) => Ok(()),
        TStat::New(_, _, _, _) => Ok(()),
        TStat::Make(_, _, _, _) => Ok(()),
        TStat::Out(_, _) => Ok(()),
    }
}

#[cycle(stat_awaits)]
#[tactic(auto, using(crate::proofs::Heights::one_less))]
fn stats_awaits<'a>(found: &mut Vec<Await<'a>>, statements: &'a [TStat]) -> Result<(), AllocError>
    ensures { OnOk result (map seen_await found.new.items ≡
        map seen_await found.old.items ++ awaited_in (seen_stats statements.now)) }
{
    for statement in statements {
        stat_awaits(found, statement)?;
    }
    Ok(())
}

/// What a routine awaits, in the order of its text.
pub fn awaits_of<'a>(alloc: Global, routine: &Routine<'a>) -> Result<Vec<Await<'a>>, AllocError>
    ensures { IfOk result (λ found.
        map seen_await found.items ≡ awaited_in (seen_routine routine.now).body.statements) }
{
    let mut found = Vec::new(alloc);
    match routine {
        Routine::Body(_, _, body) => stats_awaits(&mut found, body)?,
        Routine::Procedure(_, procedure) => stats_awaits(&mut found, &procedure.body)?,
    }
    Ok(found)
}
