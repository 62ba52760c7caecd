// Statements.

ghost use Rattle.std.specs.Prelude.{◌≡◌, ◌+◌, OnOk, IfOk, length};
ghost use Rattle.aos_typed.specs.Conditions.{awaited, awaited_in, awaited_in_cases, renumbered, stats_renumbered, arms_renumbered, cases_renumbered};
ghost use Rattle.aos_typed.specs.Program.{Stats, Cases};
ghost use Rattle.aos_typed.specs.Seen.{seen_stat, seen_stats, seen_else, arms_of, cases_of};
ghost use Rattle.aos_await.specs.Counts.{awaits_of_arms, awaits_of_cases};

use aos_typed::{TArm, TCase, TElse, TStat};
use std::alloc::AllocError;

/// The next number, of those below 2^32.
fn take_number(next: &mut u32) -> Result<u32, AllocError>
    ensures number { IfOk result (λ n. n ≡ next.old) }
    ensures next { OnOk result (next.new ≡ next.old + 1) }
{
    let number = *next;
    let Some(behind) = number.checked_add(1) else {
        return Err(AllocError);
    };
    *next = behind;
    Ok(number)
}

/// The AWAITs of a statement are numbered where it stands.
#[cycle(numbers)]
fn number_stat(stat: &mut TStat, next: &mut u32) -> Result<(), AllocError>
    ensures numbers { OnOk result (seen_stat stat.new ≡ renumbered next.old (seen_stat stat.old)) }
    ensures next { OnOk result (next.new ≡ next.old + length (awaited (seen_stat stat.old))) }
{
    match stat {
        TStat::Await(_, number, _) => {
            *number = take_number(next)?;
            Ok(())
        }
        TStat::If(_, arms, last) => {
            number_arms(arms.as_mut_slice(), next)?;
            number_body(last, next)
        }
        TStat::Case(_, _, cases, otherwise) => {
            number_cases(cases.as_mut_slice(), next)?;
            number_else(otherwise, next)
        }
        TStat::While(_, _, body) => number_body(body, next),
        TStat::Repeat(_, body, _) => number_body(body, next),
        TStat::Loop(_, body) => number_body(body, next),
        TStat::For(_, _, _, _, _, _, body) => number_body(body, next),
        TStat::Block(_, _, body) => number_body(body, next),
        TStat::With(_, _, body) => number_body(body, next),
        TStat::WithRecord(_, _, body) => number_body(body, next),
        _ => Ok(()),
    }
}

/// Those of a body.
#[cycle(numbers)]
pub fn number_body(body: &mut Vec<TStat>, next: &mut u32) -> Result<(), AllocError>
    ensures numbers { OnOk result (seen_stats body.new.items ≡
        stats_renumbered next.old (seen_stats body.old.items)) }
    ensures next { OnOk result (next.new ≡
        next.old + length (awaited_in (seen_stats body.old.items))) }
{
    number_stats(body.as_mut_slice(), next)
}

/// The AWAITs of statements are numbered, one behind the other.
#[cycle(numbers)]
fn number_stats(stats: &mut [TStat], next: &mut u32) -> Result<(), AllocError>
    ensures numbers { OnOk result (seen_stats stats.new ≡
        stats_renumbered next.old (seen_stats stats.old)) }
    ensures next { OnOk result (next.new ≡ next.old + length (awaited_in (seen_stats stats.old))) }
{
    for place in 0..stats.len() {
        number_stat(&mut stats[place], next)?;
    }
    Ok(())
}

/// Those of the arms of IF, whatever statements stand behind ELSE.
#[cycle(numbers)]
fn number_arms(arms: &mut [TArm], next: &mut u32) -> Result<(), AllocError>
    ensures numbers { OnOk result ((last : Stats) →
        arms_of arms.new (stats_renumbered next.new last) ≡
        arms_renumbered next.old (arms_of arms.old last)) }
    ensures next { OnOk result (next.new ≡ next.old + awaits_of_arms arms.old) }
{
    for place in 0..arms.len() {
        number_body(&mut arms[place].body, next)?;
    }
    Ok(())
}

/// Those of the arms of CASE, whatever stands behind them.
#[cycle(numbers)]
fn number_cases(cases: &mut [TCase], next: &mut u32) -> Result<(), AllocError>
    ensures numbers { OnOk result ((last : Cases) →
        cases_of cases.new (cases_renumbered next.new last) ≡
        cases_renumbered next.old (cases_of cases.old last)) }
    ensures next { OnOk result (next.new ≡ next.old + awaits_of_cases cases.old) }
{
    for place in 0..cases.len() {
        number_body(&mut cases[place].body, next)?;
    }
    Ok(())
}

/// Those of the statements behind ELSE of CASE, if there are any.
#[cycle(numbers)]
fn number_else(otherwise: &mut TElse, next: &mut u32) -> Result<(), AllocError>
    ensures numbers { OnOk result (seen_else otherwise.new ≡
        cases_renumbered next.old (seen_else otherwise.old)) }
    ensures next { OnOk result (next.new ≡
        next.old + length (awaited_in_cases (seen_else otherwise.old))) }
{
    match otherwise {
        TElse::Missing => Ok(()),
        TElse::Else(body) => number_body(body, next),
    }
}
