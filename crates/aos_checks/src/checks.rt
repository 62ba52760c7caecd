// The checks, each by itself: what a part is, or the first rule that it breaks as the refusal of a file.

ghost use Rattle.std.specs.Prelude.{◌≡◌, ◌≤◌, length, map, OnOk, IfOk, IfErr};
ghost use Rattle.aos_typed.specs.Seen.{seen_stat};
ghost use Rattle.aos_symbols.specs.Outcome.{went, refused, passed, refusal_of};
ghost use Rattle.aos_known.specs.Seen.{seen_answer};
ghost use Rattle.aos_check_expr.specs.Expressions as expressions;
ghost use Rattle.aos_check_stat.specs.Bodies as bodies;
ghost use Rattle.aos_check_decl.specs.Pass as declarations;
ghost use Rattle.aos_checks.specs.declared.check_err.CheckErr.TheVariants as err;
ghost use Rattle.aos_checks.specs.Refused.{OnRefused};

use crate::check_err::CheckErr;
use aos_base::Refusal;
use aos_check_decl::declare as declare_noting;
use aos_check_expr::expr as expr_noting;
use aos_check_stat::body_of;
use aos_known::Answer;
use aos_symbols::{Breach, Env, Home};
use aos_tree::{Block, Boxed, Expr, Items, Module};
use aos_typed::TStat;
use aos_types::Types;
use std::alloc::Global;

// A breach as a refusal of a file.
fn refusal(file: u32, breach: Breach) -> CheckErr
    ensures { result ≡ err.Refused (refusal_of file breach) }
{
    CheckErr::Refused(Refusal {
        rule: breach.rule,
        file,
        pos: breach.pos,
    })
}

/// An expression where this environment stands: what is known of it and what it is in the typed program, or the first rule that it
/// breaks as a refusal of the file with this number.
pub fn expr(alloc: Global, file: u32, env: &Env<'_>, part: &Expr) -> Result<Answer, CheckErr>
    ensures went { IfOk result (λ a.
        passed file (expressions.expr env.now part.now) ≡ went (seen_answer a)) }
    ensures refused { IfErr result (λ e. OnRefused e (λ r.
        passed file (expressions.expr env.now part.now) ≡ refused r)) }
{
    let mut found = None;
    let answer = expr_noting(alloc, &mut found, env, part)?;
    match found {
        Some(breach) => Err(refusal(file, breach)),
        None => Ok(answer),
    }
}

/// The statements of a body, which may be active or not, or the first rule that it breaks, likewise. The environment is as it was,
/// but is given up where memory is wanted.
pub fn body(
    alloc: Global,
    file: u32,
    env: &mut Env<'_>,
    may_be_active: bool,
    part: &Option<Boxed<Block>>,
) -> Result<Vec<TStat>, CheckErr>
    ensures went { IfOk result (λ ss.
        passed file (bodies.body_of env.old may_be_active part.now) ≡
        went (map seen_stat ss.items)) }
    ensures env { OnOk result (env.new ≡ env.old) }
    ensures refused { IfErr result (λ e. OnRefused e (λ r.
        passed file (bodies.body_of env.old may_be_active part.now) ≡ refused r)) }
{
    let mut found = None;
    let stats = body_of(alloc, &mut found, env, may_be_active, part)?;
    match found {
        Some(breach) => Err(refusal(file, breach)),
        None => Ok(stats),
    }
}

/// The environment behind the constants, types and headings of a module, which stands behind these in load order and whose types
/// are these; or the first rule that they break, likewise.
pub fn declare<'a>(
    alloc: Global,
    file: u32,
    before: Items<Home<'a>>,
    types: Types,
    text: &'a [u8],
    tree: &Module,
) -> Result<Env<'a>, CheckErr>
    requires { length before ≤ 64 }
    ensures went { IfOk result (λ e.
        passed file (declarations.declare (length before.entry) before.entry types text.now
        tree.now) ≡ went e) }
    ensures refused { IfErr result (λ e. OnRefused e (λ r.
        passed file (declarations.declare (length before.entry) before.entry types text.now
        tree.now) ≡ refused r)) }
{
    let mut found = None;
    let env = declare_noting(alloc, &mut found, before, types, text, tree)?;
    match found {
        Some(breach) => Err(refusal(file, breach)),
        None => Ok(env),
    }
}
