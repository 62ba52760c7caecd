// Blocks: what stands in them, and what is round that.

ghost use Rattle.std.specs.Prelude.{◌≡◌, OnOk, IfOk, map, option_map, ◌||◌};
ghost use Rattle.aos_typed.specs.Seen.{seen_stat};
ghost use Rattle.aos_symbols.specs.Breaches.{first_after};
ghost use Rattle.aos_stat_rules.specs.Statements as judge;

use crate::refusals::refused;
use aos_base::Pos;
use aos_made_stat::{MadeStat, MadeStats};
use aos_symbols::{Breach, EXIT_OUTSIDE, Env};
use aos_types::Gives;
use std::alloc::{AllocError, Global};

/// Puts a statement behind those before it, if it is one.
pub fn put(stats: &mut MadeStats, one: Option<MadeStat>) -> Result<(), AllocError>
    ensures { OnOk result (map seen_stat stats.new ≡
        judge.put (map seen_stat stats.old) (option_map seen_stat one)) }
{
    if let Some(one) = one {
        stats.push(one)?;
    }
    Ok(())
}

/// EXIT at a place, which leaves a LOOP.
pub fn exit_of(
    alloc: Global,
    found: &mut Option<Breach>,
    in_loop: bool,
    at: Pos,
) -> Result<Option<MadeStat>, AllocError>
    ensures noted { OnOk result (found.new ≡
        first_after found.old (judge.exit_of in_loop at).breaches) }
    ensures answer { IfOk result
        (λ s. option_map seen_stat s ≡ (judge.exit_of in_loop at).answer) }
{
    if !in_loop {
        return Ok(refused(found, EXIT_OUTSIDE, at));
    }
    let one = MadeStat::exit(alloc, at)?;
    Ok(Some(one))
}

/// What the procedure gives in which a place stands.
pub fn gives_here(env: &Env<'_>) -> Gives
    ensures { result ≡ judge.gives_here env.now }
{
    match env.own_signature() {
        Some(signature) => signature.gives,
        None => Gives::Nothing,
    }
}

/// Goes into a block that is exclusive or not, and gives whether an exclusive one stands round it.
pub fn enter_block(env: &mut Env<'_>, exclusive: bool) -> bool
    ensures env { env.new ≡ judge.in_region (env.old.is_exclusive || exclusive) env.old }
    ensures around { result ≡ env.old.is_exclusive }
{
    let around = env.is_exclusive;
    env.is_exclusive = around || exclusive;
    around
}

/// Goes out of a block around which an exclusive one stands or not.
pub fn leave_block(env: &mut Env<'_>, around: bool)
    ensures { env.new ≡ judge.in_region around env.old }
{
    env.is_exclusive = around;
}
