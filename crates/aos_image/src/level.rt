// How many numbers a body keeps something under.

ghost use Rattle.std.specs.Prelude.{◌≡◌, ◌+◌, suc, max, IfOk};
ghost use Rattle.aos_typed.specs.Seen.{seen_list, seen_stat, seen_stats, seen_else, arms_of, cases_of};
ghost use Rattle.aos_sim.specs.Need as need_of;

use aos_dispatch::{after, next, operands};
use aos_typed::{TArgument, TArm, TCase, TElse, TStat};
use std::alloc::AllocError;

#[cycle(stat_level)]
#[tactic(auto, using(aos_dispatch::proofs::Heights::arm_less, aos_dispatch::proofs::Heights::otherwise_less))]
fn arms_level(arms: &[TArm], otherwise: &[TStat], around: u32) -> Result<u32, AllocError>
    ensures { IfOk result (λ n.
        n ≡ need_of.arms_level (arms_of arms.now (seen_stats otherwise.now)) around) }
{
    let mut most = 0;
    for arm in arms {
        most = most.max(stats_level(&arm.body, around)?);
    }
    Ok(most.max(stats_level(otherwise, around)?))
}

#[cycle(stat_level)]
#[tactic(auto, using(aos_typed::proofs::Seen::else_seen))]
fn else_level(otherwise: &TElse, around: u32) -> Result<u32, AllocError>
    ensures { IfOk result (λ n. n ≡ need_of.cases_level (seen_else otherwise.now) around) }
{
    match otherwise {
        TElse::Missing => Ok(around),
        TElse::Else(body) => stats_level(body, around),
    }
}

#[cycle(stat_level)]
#[tactic(auto, using(aos_dispatch::proofs::Heights::case_less, aos_dispatch::proofs::Heights::else_less))]
fn cases_level(cases: &[TCase], otherwise: &TElse, around: u32) -> Result<u32, AllocError>
    ensures { IfOk result (λ n.
        n ≡ need_of.cases_level (cases_of cases.now (seen_else otherwise.now)) around) }
{
    let mut most = 0;
    for case in cases {
        most = most.max(stats_level(&case.body, around)?);
    }
    Ok(most.max(else_level(otherwise, around)?))
}

// NEW: what the initializer is handed is kept till the object is made, and the object while it is stored.
fn new_level(arguments: &[TArgument], around: u32) -> Result<u32, AllocError>
    ensures { IfOk result (λ n.
        n ≡ max (suc around) (around + need_of.operands (seen_list arguments.now))) }
{
    let kept = next(around)?;
    let handed = operands(arguments)?;
    let behind = after(around, handed as usize)?;
    Ok(kept.max(behind))
}

#[cycle(stat_level)]
fn stat_level(statement: &TStat, around: u32) -> Result<u32, AllocError>
    ensures { IfOk result (λ n. n ≡ need_of.stat_level (seen_stat statement.now) around) }
{
    match statement {
        TStat::Assign(_, _, _, _) => Ok(around),
        TStat::Copy(_, _, _, _) => Ok(around),
        TStat::PutText(_, _, _, _) => Ok(around),
        TStat::If(_, arms, otherwise) => arms_level(arms, otherwise, around),
        TStat::Case(_, _, cases, otherwise) => {
            let kept = next(around)?;
            Ok(kept.max(cases_level(cases, otherwise, around)?))
        }
        TStat::While(_, _, body) => stats_level(body, around),
        TStat::Repeat(_, body, _) => stats_level(body, around),
        TStat::Loop(_, body) => stats_level(body, around),
        TStat::Exit(_) => Ok(around),
        TStat::For(_, _, _, _, _, _, body) => {
            let inside = next(around)?;
            stats_level(body, inside)
        }
        TStat::Block(_, _, body) => stats_level(body, around),
        TStat::Await(_, _, _) => Ok(around),
        TStat::Assert(_, _, _) => Ok(around),
        TStat::Halt(_, _) => Ok(around),
        TStat::Change(_, _, _, _) => Ok(around),
        TStat::Perform(_, _, _) => Ok(around),
        TStat::Return(_, _) => Ok(around),
        TStat::New(_, _, _, arguments) => new_level(arguments, around),
        TStat::Make(_, _, _, _) => Ok(around),
        TStat::With(_, _, body) => stats_level(body, around),
        TStat::WithRecord(_, _, body) => stats_level(body, around),
        TStat::Out(_, _) => Ok(around),
    }
}

/// How many numbers these statements keep something under, where so many FORs and CASEs are around them.
#[cycle(stat_level)]
#[tactic(auto, using(aos_dispatch::proofs::Heights::one_less))]
pub fn stats_level(statements: &[TStat], around: u32) -> Result<u32, AllocError>
    ensures { IfOk result (λ n. n ≡ need_of.stats_level (seen_stats statements.now) around) }
{
    let mut most = 0;
    for statement in statements {
        most = most.max(stat_level(statement, around)?);
    }
    Ok(most.max(around))
}
