// The third pass over a module: bodies.

ghost use Rattle.std.specs.Prelude.{◌≡◌, OnOk, IfOk, map};
ghost use Rattle.aos_typed.specs.Seen.{seen_stat, seen_stats};
ghost use Rattle.aos_symbols.specs.Breaches.{first_after};
ghost use Rattle.aos_check_stat.specs.Bodies as judge;

use crate::statements::stats_in;
use aos_check_parts::refuse_of_body;
use aos_stat_rules::are_exclusive;
use aos_symbols::{Breach, Env};
use aos_tree::{Block, Boxed};
use aos_typed::TStat;
use std::alloc::{AllocError, Global};

/// The statements of a body, which may be active or not. A body that is END alone has none.
pub fn body_of(
    alloc: Global,
    found: &mut Option<Breach>,
    env: &mut Env<'_>,
    may_be_active: bool,
    body: &Option<Boxed<Block>>,
) -> Result<Vec<TStat>, AllocError>
    ensures env { OnOk result (env.new ≡ env.old) }
    ensures noted { OnOk result (found.new ≡
        first_after found.old (judge.body_of env.old may_be_active body.now).breaches) }
    ensures answer { IfOk result (λ ss.
        map seen_stat ss.items ≡ (judge.body_of env.old may_be_active body.now).answer) }
    ensures listed { IfOk result (λ ss.
        seen_stats ss.items ≡ judge.listed (judge.body_of env.old may_be_active body.now).answer) }
{
    match body {
        None => Ok(Vec::new(alloc)),
        Some(held) => {
            let block = held.get();
            let text = env.here.text();
            let modifiers = block.modifiers.as_slice();
            let exclusive = are_exclusive(text, modifiers);
            refuse_of_body(alloc, found, env, may_be_active, modifiers)?;
            let around = env.is_exclusive;
            env.is_exclusive = exclusive;
            let stats = stats_in(alloc, found, env, false, block.body.stats.as_slice())?;
            env.is_exclusive = around;
            Ok(stats.take())
        },
    }
}
