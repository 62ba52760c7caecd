// AWAIT.

ghost use Rattle.std.specs.Prelude.{◌≡◌, OnOk, IfOk, option_map};
ghost use Rattle.aos_typed.specs.Seen.{seen_stat};
ghost use Rattle.aos_symbols.specs.Breaches.{first_after};
ghost use Rattle.aos_check_parts.specs.Parts as judge;

use crate::boxed::condition;
use aos_base::Pos;
use aos_made_stat::MadeStat;
use aos_symbols::{AWAIT_OUTSIDE, Breach, Env, note};
use aos_tree::{Boxed, Expr};
use std::alloc::{AllocError, Global};

/// AWAIT at a place. Its number is that among all of a program, which is told when all are met.
#[tactic(auto, using(aos_symbols::proofs::Keeping::after_more))]
pub fn await_of(
    alloc: Global,
    found: &mut Option<Breach>,
    env: &mut Env<'_>,
    at: Pos,
    test: &Boxed<Expr>,
) -> Result<Option<MadeStat>, AllocError>
    ensures env { OnOk result (env.new ≡ env.old) }
    ensures noted { OnOk result (found.new ≡
        first_after found.old (judge.await_of env.old at test.now).breaches) }
    ensures answer { IfOk result (λ s. option_map seen_stat s ≡
        (judge.await_of env.old at test.now).answer) }
{
    let around = env.is_condition;
    env.is_condition = true;
    let test = condition(alloc, found, env, test)?;
    env.is_condition = around;
    if !env.is_exclusive {
        note(found, AWAIT_OUTSIDE, at);
    }
    let one = MadeStat::await_of(alloc, at, 0, test)?;
    Ok(Some(one))
}
