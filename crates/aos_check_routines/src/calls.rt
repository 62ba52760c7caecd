// The predeclared procedures by their names, with what stands behind them.

ghost use Rattle.std.specs.Prelude.{◌≡◌, OnOk, IfOk, option_map};
ghost use Rattle.aos_typed.specs.Seen.{seen_stat};
ghost use Rattle.aos_symbols.specs.Breaches.{first_after};
ghost use Rattle.aos_check_routines.specs.Routines as judge;

use crate::news::new_call;
use crate::routines::{assert_call, change_call, halt_call};
use crate::texts::copy_call;
use aos_base::Pos;
use aos_made_stat::MadeStat;
use aos_stat_rules::{arguments, behind_arguments, refuse_behind};
use aos_symbols::{Breach, Env, Routine};
use aos_tree::{Expr, Selector};
use std::alloc::{AllocError, Global};

/// A predeclared procedure with these arguments, in a call that begins at a place.
fn routine_call(
    alloc: Global,
    found: &mut Option<Breach>,
    env: &Env<'_>,
    routine: Routine,
    at: Pos,
    arguments: &[Expr],
) -> Result<Option<MadeStat>, AllocError>
    ensures noted { OnOk result (found.new ≡
        first_after found.old (judge.routine_call env.now routine at arguments.now).breaches) }
    ensures answer { IfOk result (λ s.
        option_map seen_stat s ≡ (judge.routine_call env.now routine at arguments.now).answer) }
{
    match routine {
        Routine::Assert => assert_call(alloc, found, env, at, arguments),
        Routine::Copy => copy_call(alloc, found, env, at, arguments),
        Routine::Halt => halt_call(alloc, found, env, at, arguments),
        Routine::New => new_call(alloc, found, env, at, arguments),
        Routine::Dec => change_call(alloc, found, env, Routine::Dec, at, arguments),
        Routine::Excl => change_call(alloc, found, env, Routine::Excl, at, arguments),
        Routine::Inc => change_call(alloc, found, env, Routine::Inc, at, arguments),
        Routine::Incl => change_call(alloc, found, env, Routine::Incl, at, arguments),
    }
}

/// What stands behind the name of a predeclared procedure, in a call that begins at a place.
#[tactic(auto, using(aos_stat_rules::proofs::Endings::ended_noted, aos_stat_rules::proofs::Endings::ended_answer))]
pub fn routine_selectors(
    alloc: Global,
    found: &mut Option<Breach>,
    env: &Env<'_>,
    routine: Routine,
    at: Pos,
    selectors: &[Selector],
) -> Result<Option<MadeStat>, AllocError>
    ensures noted { OnOk result (found.new ≡ first_after found.old
        (judge.ended at (judge.behind_arguments selectors.now)
        (judge.routine_call env.now routine at (judge.arguments selectors.now))).breaches) }
    ensures answer { IfOk result (λ s. option_map seen_stat s ≡
        (judge.ended at (judge.behind_arguments selectors.now)
        (judge.routine_call env.now routine at (judge.arguments selectors.now))).answer) }
{
    let call = routine_call(alloc, found, env, routine, at, arguments(selectors))?;
    refuse_behind(found, at, behind_arguments(selectors));
    Ok(call)
}
