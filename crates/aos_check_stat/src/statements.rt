// Statements.

ghost use Rattle.std.specs.Prelude.{◌≡◌, OnOk, IfOk, [], map, option_map};
ghost use Rattle.aos_typed.specs.Program.{Arm, Arms, Cases};
ghost use Rattle.aos_typed.specs.Seen.{seen_stat, seen_else, cases_of};
ghost use Rattle.aos_symbols.specs.Breaches.{first_after};
ghost use Rattle.aos_symbols.specs.Judged.{Judged};
ghost use Rattle.aos_check_expr.specs.Expressions as expressions;
ghost use Rattle.aos_check_stat.specs.Bodies as judge;
ghost use Rattle.aos_check_stat.specs.Listed as listed;
ghost use Rattle.aos_made_stat.specs.Onto.{onto};

use crate::calls::called;
use aos_base::Pos;
use aos_check_expr::designator;
use aos_check_parts::{
    Counted, await_of, condition, counting, expr, labels_in, return_of, selector,
};
use aos_designators::refuse_assigned;
use aos_known::width_of;
use aos_made_stat::{MadeArms, MadeCases, MadeElse, MadeStat, MadeStats};
use aos_stat_rules::{
    Labels, are_exclusive, assigned_stat, enter_block, enter_with, exit_of, guarded_variable,
    leave_block, leave_with, put, refuse_modifiers, refuse_unfit, with_stat,
};
use aos_symbols::{Breach, Env};
use aos_tree::{Block, Boxed, Case, Desig, Elsif, Expr, Name, Qualident, Stat, StatSeq};
use aos_types::TypeId;
use std::alloc::{AllocError, Global};

/// An assignment, with `:=` at a place.
#[tactic(auto, using(aos_symbols::proofs::Keeping::after_more))]
fn assign(
    alloc: Global,
    found: &mut Option<Breach>,
    env: &Env<'_>,
    desig: &Desig,
    at: Pos,
    value: &Boxed<Expr>,
) -> Result<Option<MadeStat>, AllocError>
    ensures noted { OnOk result (found.new ≡
        first_after found.old (judge.assign env.now desig.now at value.now).breaches) }
    ensures answer { IfOk result
        (λ s. option_map seen_stat s ≡ (judge.assign env.now desig.now at value.now).answer) }
{
    let first = desig.name.pos;
    let entity = designator(alloc, found, env, desig)?;
    refuse_assigned(found, env, first, &entity);
    let value = expr(alloc, found, env, value)?;
    refuse_unfit(alloc, found, env, at, &entity, &value)?;
    let one = assigned_stat(alloc, env, first, entity, value)?;
    Ok(Some(one))
}

/// The statement of the typed program that a statement is, in a LOOP or in none; the empty one is none.
#[cycle(statements)]
fn stat_of(
    alloc: Global,
    found: &mut Option<Breach>,
    env: &mut Env<'_>,
    in_loop: bool,
    stat: &Stat,
) -> Result<Option<MadeStat>, AllocError>
    ensures env { OnOk result (env.new ≡ env.old) }
    ensures noted { OnOk result (found.new ≡
        first_after found.old (judge.stat_of env.old in_loop stat.now).breaches) }
    ensures answer { IfOk result
        (λ s. option_map seen_stat s ≡ (judge.stat_of env.old in_loop stat.now).answer) }
{
    match stat {
        Stat::Empty => Ok(None),
        Stat::Assign(desig, at, value) => assign(alloc, found, env, desig, *at, value),
        Stat::Call(desig) => called(alloc, found, env, desig),
        Stat::Block(block) => block_of(alloc, found, env, in_loop, block),
        Stat::Exit(at) => exit_of(alloc, found, in_loop, *at),
        Stat::Return(at, value) => return_of(alloc, found, env, *at, value),
        Stat::Await(at, test) => await_of(alloc, found, env, *at, test),
        Stat::If(at, test, body, arms, last) => {
            let mut all = MadeArms::new(alloc);
            put_arm(alloc, found, env, in_loop, body, test, &mut all)?;
            put_arms(alloc, found, env, in_loop, arms.as_slice(), &mut all)?;
            let last = else_of(alloc, found, env, in_loop, last)?;
            let one = MadeStat::if_of(alloc, *at, all, last)?;
            Ok(Some(one))
        }
        Stat::Case(at, value, arms, last) => {
            let value = selector(alloc, found, env, value)?;
            let of = value.known.of;
            let all = cases_in(alloc, found, env, in_loop, arms.as_slice(), of)?;
            let last = case_else(alloc, found, env, in_loop, last)?;
            let one = MadeStat::case_of(alloc, *at, value.typed, all, last)?;
            Ok(Some(one))
        }
        Stat::While(at, test, body) => while_of(alloc, found, env, in_loop, *at, body, test),
        Stat::Repeat(at, body, test) => repeat_of(alloc, found, env, in_loop, *at, body, test),
        Stat::Loop(at, body) => loop_of(alloc, found, env, *at, body),
        Stat::For(at, name, assigned, from, to, by, body) => {
            for_of(
                alloc, found, env, in_loop, *at, *name, *assigned, body, from, to, by,
            )
        }
        Stat::With(at, name, colon, of, body) => {
            with_of(alloc, found, env, in_loop, *at, *name, *colon, *of, body)
        }
    }
}

/// Puts an arm of IF behind others: its statements, and the test before them.
#[cycle(statements)]
#[tactic(auto, using(aos_symbols::proofs::Keeping::after_more))]
fn put_arm(
    alloc: Global,
    found: &mut Option<Breach>,
    env: &mut Env<'_>,
    in_loop: bool,
    body: &StatSeq,
    test: &Boxed<Expr>,
    arms: &mut MadeArms,
) -> Result<(), AllocError>
    ensures env { OnOk result (env.new ≡ env.old) }
    ensures noted { OnOk result (found.new ≡ first_after found.old
        (listed.tested env.old in_loop test.now body.now.stats).breaches) }
    ensures answer { OnOk result ((others : Arms) → onto arms.new others ≡ onto arms.old
        (Arm (expressions.condition env.old test.now).answer
        (judge.listed (listed.listed_in env.old in_loop body.now.stats).answer) others)) }
{
    let test = condition(alloc, found, env, test)?;
    let body = stats_in(alloc, found, env, in_loop, body.stats.as_slice())?;
    arms.push(test, body)?;
    Ok(())
}

/// Puts the arms of ELSIFs behind others, whatever stands behind them.
#[cycle(statements)]
fn put_arms(
    alloc: Global,
    found: &mut Option<Breach>,
    env: &mut Env<'_>,
    in_loop: bool,
    elsifs: &[Elsif],
    arms: &mut MadeArms,
) -> Result<(), AllocError>
    ensures env { OnOk result (env.new ≡ env.old) }
    ensures noted { OnOk result ((last : Judged Arms) → first_after found.new last.breaches ≡
        first_after found.old (listed.arms_in env.old in_loop elsifs.now last).breaches) }
    ensures answer { OnOk result ((last : Judged Arms) → onto arms.new last.answer ≡
        onto arms.old (listed.arms_in env.old in_loop elsifs.now last).answer) }
{
    for elsif in elsifs {
        put_arm(
            alloc,
            found,
            env,
            in_loop,
            &elsif.body,
            &elsif.condition,
            arms,
        )?;
    }
    Ok(())
}

/// The statements behind ELSE; there are none without it.
#[cycle(statements)]
fn else_of(
    alloc: Global,
    found: &mut Option<Breach>,
    env: &mut Env<'_>,
    in_loop: bool,
    otherwise: &Option<StatSeq>,
) -> Result<MadeStats, AllocError>
    ensures env { OnOk result (env.new ≡ env.old) }
    ensures noted { OnOk result (found.new ≡
        first_after found.old (listed.behind_else env.old in_loop otherwise.now).breaches) }
    ensures answer { IfOk result (λ ss.
        map seen_stat ss ≡ (listed.behind_else env.old in_loop otherwise.now).answer) }
{
    match otherwise {
        None => Ok(MadeStats::new(alloc)),
        Some(body) => stats_in(alloc, found, env, in_loop, body.stats.as_slice()),
    }
}

/// The arms of CASE, whatever stands behind them.
#[cycle(statements)]
fn cases_in(
    alloc: Global,
    found: &mut Option<Breach>,
    env: &mut Env<'_>,
    in_loop: bool,
    arms: &[Case],
    of: Option<TypeId>,
) -> Result<MadeCases, AllocError>
    ensures env { OnOk result (env.new ≡ env.old) }
    ensures noted { OnOk result ((last : Judged Cases) → first_after found.new last.breaches ≡
        first_after found.old (listed.cases_of env.old in_loop of [] arms.now last).breaches) }
    ensures answer { IfOk result (λ all. (last : Judged Cases) → cases_of all last.answer ≡
        (listed.cases_of env.old in_loop of [] arms.now last).answer) }
{
    let mut labels = Labels::new(alloc);
    let mut all = MadeCases::new(alloc);
    for arm in arms {
        let Case::Arm(own, body) = arm else {
            continue;
        };
        let own = labels_in(alloc, found, env, of, &mut labels, own.as_slice())?;
        let body = stats_in(alloc, found, env, in_loop, body.stats.as_slice())?;
        all.push(own, body)?;
    }
    Ok(all)
}

/// ELSE of CASE, if there is one.
#[cycle(statements)]
#[tactic(auto, using(aos_symbols::proofs::Keeping::after_more, crate::proofs::Rows::stats_seen))]
fn case_else(
    alloc: Global,
    found: &mut Option<Breach>,
    env: &mut Env<'_>,
    in_loop: bool,
    otherwise: &Option<StatSeq>,
) -> Result<MadeElse, AllocError>
    ensures env { OnOk result (env.new ≡ env.old) }
    ensures noted { OnOk result (found.new ≡
        first_after found.old (listed.else_of_case env.old in_loop otherwise.now).breaches) }
    ensures answer { IfOk result (λ o.
        seen_else o ≡ (listed.else_of_case env.old in_loop otherwise.now).answer) }
{
    match otherwise {
        None => Ok(MadeElse::missing()),
        Some(body) => {
            let body = stats_in(alloc, found, env, in_loop, body.stats.as_slice())?;
            Ok(MadeElse::of(body))
        },
    }
}

/// WHILE.
#[cycle(statements)]
#[tactic(auto, using(aos_symbols::proofs::Keeping::after_more))]
fn while_of(
    alloc: Global,
    found: &mut Option<Breach>,
    env: &mut Env<'_>,
    in_loop: bool,
    at: Pos,
    body: &StatSeq,
    test: &Boxed<Expr>,
) -> Result<Option<MadeStat>, AllocError>
    ensures env { OnOk result (env.new ≡ env.old) }
    ensures noted { OnOk result (found.new ≡ first_after found.old
        (listed.while_of env.old in_loop at test.now body.now.stats).breaches) }
    ensures answer { IfOk result (λ s. option_map seen_stat s ≡
        (listed.while_of env.old in_loop at test.now body.now.stats).answer) }
{
    let test = condition(alloc, found, env, test)?;
    let body = stats_in(alloc, found, env, in_loop, body.stats.as_slice())?;
    let one = MadeStat::while_of(alloc, at, test, body)?;
    Ok(Some(one))
}

/// REPEAT.
#[cycle(statements)]
fn repeat_of(
    alloc: Global,
    found: &mut Option<Breach>,
    env: &mut Env<'_>,
    in_loop: bool,
    at: Pos,
    body: &StatSeq,
    test: &Boxed<Expr>,
) -> Result<Option<MadeStat>, AllocError>
    ensures env { OnOk result (env.new ≡ env.old) }
    ensures noted { OnOk result (found.new ≡ first_after found.old
        (listed.repeat_of env.old in_loop at body.now.stats test.now).breaches) }
    ensures answer { IfOk result (λ s. option_map seen_stat s ≡
        (listed.repeat_of env.old in_loop at body.now.stats test.now).answer) }
{
    let body = stats_in(alloc, found, env, in_loop, body.stats.as_slice())?;
    let test = condition(alloc, found, env, test)?;
    let one = MadeStat::repeat_of(alloc, at, body, test)?;
    Ok(Some(one))
}

/// LOOP.
#[cycle(statements)]
#[tactic(auto, using(aos_symbols::proofs::Keeping::after_more))]
fn loop_of(
    alloc: Global,
    found: &mut Option<Breach>,
    env: &mut Env<'_>,
    at: Pos,
    body: &StatSeq,
) -> Result<Option<MadeStat>, AllocError>
    ensures env { OnOk result (env.new ≡ env.old) }
    ensures noted { OnOk result (found.new ≡ first_after found.old
        (listed.loop_of env.old at body.now.stats).breaches) }
    ensures answer { IfOk result (λ s. option_map seen_stat s ≡
        (listed.loop_of env.old at body.now.stats).answer) }
{
    let body = stats_in(alloc, found, env, true, body.stats.as_slice())?;
    let one = MadeStat::loop_of(alloc, at, body)?;
    Ok(Some(one))
}

/// FOR, with its variable, its first and last values, its step, if one is written, and its statements.
#[cycle(statements)]
#[tactic(auto, using(aos_symbols::proofs::Keeping::after_more))]
fn for_of(
    alloc: Global,
    found: &mut Option<Breach>,
    env: &mut Env<'_>,
    in_loop: bool,
    at: Pos,
    name: Name,
    assigned: Pos,
    body: &StatSeq,
    from: &Boxed<Expr>,
    to: &Boxed<Expr>,
    by: &Option<Boxed<Expr>>,
) -> Result<Option<MadeStat>, AllocError>
    ensures env { OnOk result (env.new ≡ env.old) }
    ensures noted { OnOk result (found.new ≡ first_after found.old (listed.for_of env.old in_loop
        at name assigned from.now to.now by.now body.now.stats).breaches) }
    ensures answer { IfOk result (λ s. option_map seen_stat s ≡ (listed.for_of env.old in_loop
        at name assigned from.now to.now by.now body.now.stats).answer) }
{
    let head = counting(alloc, found, env, name, assigned, from, to, by)?;
    let Counted {
        variable,
        of,
        first,
        last,
        step,
    } = head;
    let body = stats_in(alloc, found, env, in_loop, body.stats.as_slice())?;
    let one = MadeStat::for_of(alloc, at, width_of(of), variable, first, last, step, body)?;
    Ok(Some(one))
}

/// WITH, whose `:` stands at the second place.
#[cycle(statements)]
#[tactic(auto, using(aos_symbols::proofs::Keeping::after_more))]
fn with_of(
    alloc: Global,
    found: &mut Option<Breach>,
    env: &mut Env<'_>,
    in_loop: bool,
    at: Pos,
    variable: Qualident,
    colon: Pos,
    of: Qualident,
    body: &StatSeq,
) -> Result<Option<MadeStat>, AllocError>
    ensures env { OnOk result (env.new ≡ env.old) }
    ensures noted { OnOk result (found.new ≡ first_after found.old
        (listed.with_of env.old in_loop at variable colon of body.now.stats).breaches) }
    ensures answer { IfOk result (λ s. option_map seen_stat s ≡
        (listed.with_of env.old in_loop at variable colon of body.now.stats).answer) }
{
    let (guarded, t) = guarded_variable(alloc, found, env, variable, colon, of)?;
    let around = enter_with(alloc, env, variable, t)?;
    let body = stats_in(alloc, found, env, in_loop, body.stats.as_slice())?;
    leave_with(env, around);
    let one = with_stat(alloc, at, guarded.held, body)?;
    Ok(Some(one))
}

/// A block of statements.
#[cycle(statements)]
fn block_of(
    alloc: Global,
    found: &mut Option<Breach>,
    env: &mut Env<'_>,
    in_loop: bool,
    block: &Block,
) -> Result<Option<MadeStat>, AllocError>
    ensures env { OnOk result (env.new ≡ env.old) }
    ensures noted { OnOk result (found.new ≡ first_after found.old
        (listed.block_of env.old in_loop block.now).breaches) }
    ensures answer { IfOk result (λ s. option_map seen_stat s ≡
        (listed.block_of env.old in_loop block.now).answer) }
{
    let text = env.here.text();
    let modifiers = block.modifiers.as_slice();
    let exclusive = are_exclusive(text, modifiers);
    refuse_modifiers(found, text, false, modifiers);
    let around = enter_block(env, exclusive);
    let body = stats_in(alloc, found, env, in_loop, block.body.stats.as_slice())?;
    leave_block(env, around);
    let one = MadeStat::block(alloc, block.pos, exclusive, body)?;
    Ok(Some(one))
}

/// The statements of a sequence.
#[cycle(statements)]
#[tactic(auto, using(aos_symbols::proofs::Keeping::after_more, aos_symbols::proofs::Steps::walk_step, aos_symbols::proofs::Steps::walk_end))]
pub fn stats_in(
    alloc: Global,
    found: &mut Option<Breach>,
    env: &mut Env<'_>,
    in_loop: bool,
    stats: &[Stat],
) -> Result<MadeStats, AllocError>
    ensures env { OnOk result (env.new ≡ env.old) }
    ensures noted { OnOk result (found.new ≡
        first_after found.old (listed.listed_in env.old in_loop stats.now).breaches) }
    ensures answer { IfOk result (λ ss.
        map seen_stat ss ≡ (listed.listed_in env.old in_loop stats.now).answer) }
{
    let mut all = MadeStats::new(alloc);
    for stat in stats {
        let one = stat_of(alloc, found, env, in_loop, stat)?;
        put(&mut all, one)?;
    }
    Ok(all)
}
