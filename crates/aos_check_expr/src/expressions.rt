// Expressions: which rules they break, what is known of them and what they are in the typed program.

ghost use Rattle.std.specs.Prelude.{◌≡◌, OnOk, IfOk, map, true};
ghost use Rattle.aos_typed.specs.Seen.{seen_callee};
ghost use Rattle.aos_symbols.specs.Breaches.{first_after};
ghost use Rattle.aos_symbols.specs.Judged.{walk};
ghost use Rattle.aos_operators.specs.Operations as operations;
ghost use Rattle.aos_known.specs.Seen.{seen_answer, seen_entity};
ghost use Rattle.aos_bound.specs.Seen.{seen_bound, seen_part};
ghost use Rattle.aos_arguments.specs.Seen.{seen_handing};
ghost use Rattle.aos_check_expr.specs.Expressions as judge;

use crate::calls::{desig_alone, guard_type, limit_called, not_called, qualident_in};
use crate::signatures::signature_at;
use aos_arguments::{
    Handing, Limit, Taking, function_value, hand, nothing_handed, step_in, value_of_one,
    value_of_two,
};
use aos_base::Pos;
use aos_bound::{
    Bound, Heading, Part, bound_part, entity_of_part, followed_part, pointed, selected,
};
use aos_designators::{
    Head, element as element_of, guarded, is_module, is_of_module, named, plain, read,
};
use aos_known::{Answer, Entity, constant_answer, entity_of, is_integer, refused, refused_value};
use aos_made::MadeCallee;
use aos_operators::forms::{
    added, byte_of, character, enclosed, is_test, multiplied, number, opposite, signed, string,
    whole_set, with_element, with_span,
};
use aos_operators::operations;
use aos_rules::{len_alone, len_in, related, tested};
use aos_symbols::{
    ARGUMENT_COUNT, Breach, Env, Function, Lookup, Meaning, NOT_CONSTANT, Symbol, WRONG_CALL, note,
};
use aos_tree::{Addition, Desig, Elem, Expr, Factor, Product, Relation, Selector, Simple, Term};
use aos_typed::Literal;
use aos_types::{Gives, Parameter};
use std::alloc::{AllocError, Global};

/// An expression.
#[cycle(exprs)]
#[tactic(auto, using(aos_symbols::proofs::Keeping::after_more, crate::proofs::Rows::expr_is))]
pub fn expr(
    alloc: Global,
    found: &mut Option<Breach>,
    env: &Env<'_>,
    part: &Expr,
) -> Result<Answer, AllocError>
    ensures noted { OnOk result (found.new ≡ first_after found.old
        (judge.expr env.now part.now).breaches) }
    ensures answer { IfOk result (λ r. seen_answer r ≡ (judge.expr env.now part.now).answer) }
{
    let left = simple(alloc, found, env, &part.left)?;
    match part.right.get() {
        None => Ok(left),
        Some(right) => relation(alloc, found, env, part.pos, left, right),
    }
}

#[cycle(exprs)]
#[tactic(auto, using(aos_symbols::proofs::Keeping::after_more, crate::proofs::Rows::relation_is, crate::proofs::Rows::relation_test))]
fn relation(
    alloc: Global,
    found: &mut Option<Breach>,
    env: &Env<'_>,
    first: Pos,
    left: Answer,
    part: &Relation,
) -> Result<Answer, AllocError>
    ensures noted { OnOk result (found.new ≡ first_after found.old
        (judge.relation env.now first (seen_answer left) part.now).breaches) }
    ensures answer { IfOk result (λ r. seen_answer r ≡
        (judge.relation env.now first (seen_answer left) part.now).answer) }
{
    if is_test(part.op) {
        return tested(alloc, found, env, part.pos, left, qualident_in(&part.right));
    }
    let right = simple(alloc, found, env, &part.right)?;
    related(alloc, found, env, first, part.pos, part.op, left, right)
}

#[cycle(exprs)]
#[tactic(auto, using(aos_symbols::proofs::Keeping::after_more, crate::proofs::Rows::simple_is))]
fn simple(
    alloc: Global,
    found: &mut Option<Breach>,
    env: &Env<'_>,
    part: &Simple,
) -> Result<Answer, AllocError>
    ensures noted { OnOk result (found.new ≡ first_after found.old
        (judge.simple env.now part.now).breaches) }
    ensures answer { IfOk result (λ r. seen_answer r ≡ (judge.simple env.now part.now).answer) }
{
    let first = term(alloc, found, env, &part.first)?;
    let first = signed(alloc, found, part.sign, part.pos, first)?;
    additions(alloc, found, env, part.pos, first, part.rest.as_slice())
}

#[cycle(exprs)]
#[tactic(auto, using(aos_symbols::proofs::Keeping::after_more, aos_symbols::proofs::Steps::walk_step, aos_symbols::proofs::Steps::walk_end))]
fn additions(
    alloc: Global,
    found: &mut Option<Breach>,
    env: &Env<'_>,
    first: Pos,
    left: Answer,
    rest: &[Addition],
) -> Result<Answer, AllocError>
    ensures noted { OnOk result (found.new ≡ first_after found.old
        (walk (judge.addition env.now first) (seen_answer left) rest.now).breaches) }
    ensures answer { IfOk result (λ r. seen_answer r ≡
        (walk (judge.addition env.now first) (seen_answer left) rest.now).answer) }
{
    let mut whole = left;
    for part in rest {
        whole = addition(alloc, found, env, first, whole, part)?;
    }
    Ok(whole)
}

#[cycle(exprs)]
#[tactic(auto, using(aos_symbols::proofs::Keeping::after_more, crate::proofs::Rows::addition_is))]
fn addition(
    alloc: Global,
    found: &mut Option<Breach>,
    env: &Env<'_>,
    first: Pos,
    left: Answer,
    part: &Addition,
) -> Result<Answer, AllocError>
    ensures noted { OnOk result (found.new ≡ first_after found.old
        (judge.addition env.now first (seen_answer left) part.now).breaches) }
    ensures answer { IfOk result (λ r. seen_answer r ≡
        (judge.addition env.now first (seen_answer left) part.now).answer) }
{
    let right = term(alloc, found, env, &part.right)?;
    added(alloc, found, first, part.pos, part.op, left, right)
}

#[cycle(exprs)]
#[tactic(auto, using(aos_symbols::proofs::Keeping::after_more, crate::proofs::Rows::term_is))]
fn term(
    alloc: Global,
    found: &mut Option<Breach>,
    env: &Env<'_>,
    part: &Term,
) -> Result<Answer, AllocError>
    ensures noted { OnOk result (found.new ≡ first_after found.old
        (judge.term env.now part.now).breaches) }
    ensures answer { IfOk result (λ r. seen_answer r ≡ (judge.term env.now part.now).answer) }
{
    let first = factor(alloc, found, env, &part.first)?;
    products(alloc, found, env, part.pos, first, part.rest.as_slice())
}

#[cycle(exprs)]
#[tactic(auto, using(aos_symbols::proofs::Keeping::after_more, aos_symbols::proofs::Steps::walk_step, aos_symbols::proofs::Steps::walk_end))]
fn products(
    alloc: Global,
    found: &mut Option<Breach>,
    env: &Env<'_>,
    first: Pos,
    left: Answer,
    rest: &[Product],
) -> Result<Answer, AllocError>
    ensures noted { OnOk result (found.new ≡ first_after found.old
        (walk (judge.product env.now first) (seen_answer left) rest.now).breaches) }
    ensures answer { IfOk result (λ r. seen_answer r ≡
        (walk (judge.product env.now first) (seen_answer left) rest.now).answer) }
{
    let mut whole = left;
    for part in rest {
        whole = product(alloc, found, env, first, whole, part)?;
    }
    Ok(whole)
}

#[cycle(exprs)]
#[tactic(auto, using(aos_symbols::proofs::Keeping::after_more))]
fn product(
    alloc: Global,
    found: &mut Option<Breach>,
    env: &Env<'_>,
    first: Pos,
    left: Answer,
    part: &Product,
) -> Result<Answer, AllocError>
    ensures noted { OnOk result (found.new ≡ first_after found.old
        (judge.product env.now first (seen_answer left) part.now).breaches) }
    ensures answer { IfOk result (λ r. seen_answer r ≡
        (judge.product env.now first (seen_answer left) part.now).answer) }
{
    let right = factor(alloc, found, env, &part.right)?;
    multiplied(alloc, found, first, part.pos, part.op, left, right)
}

#[cycle(exprs)]
#[tactic(auto, using(aos_symbols::proofs::Keeping::after_more, crate::proofs::Rows::factor_desig, crate::proofs::Rows::factor_set, crate::proofs::Rows::factor_paren, crate::proofs::Rows::factor_not))]
fn factor(
    alloc: Global,
    found: &mut Option<Breach>,
    env: &Env<'_>,
    part: &Factor,
) -> Result<Answer, AllocError>
    ensures noted { OnOk result (found.new ≡ first_after found.old
        (judge.factor env.now part.now).breaches) }
    ensures answer { IfOk result (λ r. seen_answer r ≡ (judge.factor env.now part.now).answer) }
{
    match part {
        Factor::Desig(desig) => {
            let entity = designator(alloc, found, env, desig)?;
            Ok(read(found, env, entity))
        }
        Factor::Number(_, n) => Ok(number(*n)),
        Factor::Char(at, n) => Ok(character(found, byte_of(*n), *at)),
        Factor::Text(text) => Ok(string(found, env.text_constant(text.start), text.pos)),
        Factor::Nil(_) => Ok(constant_answer(Literal::Nil)),
        Factor::Set(at, all) => {
            let set = elements(alloc, found, env, *at, all.as_slice())?;
            Ok(whole_set(found, *at, set))
        }
        Factor::Paren(at, inner) => parenthesized(alloc, found, env, *at, inner.get()),
        Factor::Not(at, inner) => {
            let inner = factor(alloc, found, env, inner.get())?;
            opposite(alloc, found, *at, inner)
        }
    }
}

/// An expression in parentheses, of which the first stands here.
#[cycle(exprs)]
#[tactic(auto, using(aos_symbols::proofs::Keeping::after_more))]
fn parenthesized(
    alloc: Global,
    found: &mut Option<Breach>,
    env: &Env<'_>,
    at: Pos,
    part: &Expr,
) -> Result<Answer, AllocError>
    ensures noted { OnOk result (found.new ≡ first_after found.old
        (judge.parenthesized env.now at part.now).breaches) }
    ensures answer { IfOk result (λ r. seen_answer r ≡
        (judge.parenthesized env.now at part.now).answer) }
{
    let inner = expr(alloc, found, env, part)?;
    Ok(enclosed(found, at, inner))
}

/// The elements of a set that begins here.
#[cycle(exprs)]
#[tactic(auto, using(aos_symbols::proofs::Keeping::after_more, aos_symbols::proofs::Steps::walk_step, aos_symbols::proofs::Steps::walk_end))]
fn elements(
    alloc: Global,
    found: &mut Option<Breach>,
    env: &Env<'_>,
    at: Pos,
    all: &[Elem],
) -> Result<Answer, AllocError>
    ensures noted { OnOk result (found.new ≡ first_after found.old
        (walk (judge.element env.now at) operations.no_elements all.now).breaches) }
    ensures answer { IfOk result (λ r. seen_answer r ≡
        (walk (judge.element env.now at) operations.no_elements all.now).answer) }
{
    let mut whole = operations::no_elements();
    for part in all {
        whole = element(alloc, found, env, at, whole, part)?;
    }
    Ok(whole)
}

#[cycle(exprs)]
#[tactic(auto, using(aos_symbols::proofs::Keeping::after_more, crate::proofs::Rows::element_is))]
fn element(
    alloc: Global,
    found: &mut Option<Breach>,
    env: &Env<'_>,
    at: Pos,
    set: Answer,
    part: &Elem,
) -> Result<Answer, AllocError>
    ensures noted { OnOk result (found.new ≡ first_after found.old
        (judge.element env.now at (seen_answer set) part.now).breaches) }
    ensures answer { IfOk result (λ r. seen_answer r ≡
        (judge.element env.now at (seen_answer set) part.now).answer) }
{
    let first = expr(alloc, found, env, &part.first)?;
    match part.last.get() {
        None => with_element(alloc, found, at, set, first),
        Some(last) => {
            let last = expr(alloc, found, env, last)?;
            with_span(alloc, found, at, set, first, last)
        }
    }
}

/// A designator.
#[cycle(exprs)]
#[tactic(auto, using(aos_symbols::proofs::Keeping::after_more))]
pub fn designator(
    alloc: Global,
    found: &mut Option<Breach>,
    env: &Env<'_>,
    part: &Desig,
) -> Result<Entity, AllocError>
    ensures noted { OnOk result (found.new ≡ first_after found.old
        (judge.designator env.now part.now).breaches) }
    ensures answer { IfOk result (λ r. seen_entity r ≡ (judge.designator env.now part.now).answer) }
{
    let begun = Part::Begun(plain(env, part.name));
    let first = part.name.pos;
    let whole = follow_selectors(alloc, found, env, first, begun, part.selectors.as_slice())?;
    entity_of_part(alloc, found, env, whole)
}

/// What a designator that begins here is so far, and its selectors.
#[cycle(exprs)]
#[tactic(auto, using(aos_symbols::proofs::Keeping::after_more, aos_symbols::proofs::Steps::walk_step, aos_symbols::proofs::Steps::walk_end))]
pub fn follow_selectors(
    alloc: Global,
    found: &mut Option<Breach>,
    env: &Env<'_>,
    first: Pos,
    begun: Part,
    all: &[Selector],
) -> Result<Part, AllocError>
    ensures noted { OnOk result (found.new ≡ first_after found.old
        (walk (judge.selector env.now first) (seen_part begun) all.now).breaches) }
    ensures answer { IfOk result (λ r. seen_part r ≡
        (walk (judge.selector env.now first) (seen_part begun) all.now).answer) }
{
    let mut whole = begun;
    for part in all {
        whole = selector(alloc, found, env, first, whole, part)?;
    }
    Ok(whole)
}

/// One selector.
#[cycle(exprs)]
#[tactic(auto, using(crate::proofs::Rows::selector_index, crate::proofs::Rows::selector_paren))]
fn selector(
    alloc: Global,
    found: &mut Option<Breach>,
    env: &Env<'_>,
    first: Pos,
    whole: Part,
    part: &Selector,
) -> Result<Part, AllocError>
    ensures noted { OnOk result (found.new ≡ first_after found.old
        (judge.selector env.now first (seen_part whole) part.now).breaches) }
    ensures answer { IfOk result (λ r. seen_part r ≡
        (judge.selector env.now first (seen_part whole) part.now).answer) }
{
    match part {
        Selector::Field(at, name) => pointed(alloc, found, env, first, whole, *at, *name),
        Selector::Index(at, all) => { indexed(alloc, found, env, whole, *at, all.as_slice()) }
        Selector::Follow(at) => followed_part(alloc, found, env, whole, *at),
        Selector::Paren(at, arguments) => {
            bracketed(alloc, found, env, first, whole, *at, arguments.as_slice())
        }
    }
}

/// The indices of a bracket that stands here, behind what a designator is so far.
#[cycle(exprs)]
#[tactic(auto, using(aos_symbols::proofs::Keeping::after_more))]
fn indexed(
    alloc: Global,
    found: &mut Option<Breach>,
    env: &Env<'_>,
    whole: Part,
    at: Pos,
    all: &[Expr],
) -> Result<Part, AllocError>
    ensures noted { OnOk result (found.new ≡ first_after found.old
        (judge.indexed env.now at (seen_part whole) all.now).breaches) }
    ensures answer { IfOk result (λ r. seen_part r ≡
        (judge.indexed env.now at (seen_part whole) all.now).answer) }
{
    let begun = selected(alloc, found, env, at, whole)?;
    let reached = indices(alloc, found, env, at, begun, all)?;
    Ok(Part::Meant(reached))
}

/// One index after another: `a[i, j]` is `a[i][j]`.
#[cycle(exprs)]
#[tactic(auto, using(aos_symbols::proofs::Keeping::after_more, aos_symbols::proofs::Steps::walk_step, aos_symbols::proofs::Steps::walk_end))]
fn indices(
    alloc: Global,
    found: &mut Option<Breach>,
    env: &Env<'_>,
    at: Pos,
    begun: Entity,
    all: &[Expr],
) -> Result<Entity, AllocError>
    ensures noted { OnOk result (found.new ≡ first_after found.old
        (walk (judge.index env.now at) (seen_entity begun) all.now).breaches) }
    ensures answer { IfOk result (λ r. seen_entity r ≡
        (walk (judge.index env.now at) (seen_entity begun) all.now).answer) }
{
    let mut whole = begun;
    for part in all {
        whole = index(alloc, found, env, at, whole, part)?;
    }
    Ok(whole)
}

/// One index, in a bracket that stands here.
#[cycle(exprs)]
#[tactic(auto, using(aos_symbols::proofs::Keeping::after_more))]
fn index(
    alloc: Global,
    found: &mut Option<Breach>,
    env: &Env<'_>,
    at: Pos,
    whole: Entity,
    part: &Expr,
) -> Result<Entity, AllocError>
    ensures noted { OnOk result (found.new ≡ first_after found.old
        (judge.index env.now at (seen_entity whole) part.now).breaches) }
    ensures answer { IfOk result (λ r. seen_entity r ≡
        (judge.index env.now at (seen_entity whole) part.now).answer) }
{
    let index = expr(alloc, found, env, part)?;
    element_of(alloc, found, env, at, whole, index)
}

/// A bracket that stands here, behind what a designator is so far: a call, or a guard.
#[cycle(exprs)]
#[tactic(auto, using(aos_symbols::proofs::Keeping::after_more))]
pub fn bracketed(
    alloc: Global,
    found: &mut Option<Breach>,
    env: &Env<'_>,
    first: Pos,
    whole: Part,
    at: Pos,
    arguments: &[Expr],
) -> Result<Part, AllocError>
    ensures noted { OnOk result (found.new ≡ first_after found.old
        (judge.bracketed env.now first (seen_part whole) at
        (map (judge.expr env.now) arguments.now) arguments.now).breaches) }
    ensures answer { IfOk result (λ r. seen_part r ≡
        (judge.bracketed env.now first (seen_part whole) at
        (map (judge.expr env.now) arguments.now) arguments.now).answer) }
{
    match bound_part(alloc, env, first, whole)? {
        Part::Begun(head) => bracketed_name(alloc, found, env, head, at, arguments),
        Part::Meant(entity) => {
            let of = guard_type(env, arguments);
            let whole = guarded(alloc, found, env, first, at, entity, of)?;
            Ok(Part::Meant(whole))
        }
        Part::Waits(bound) => bracketed_method(alloc, found, env, bound, arguments),
    }
}

/// A bracket behind a method.
#[cycle(exprs)]
#[tactic(auto, using(aos_symbols::proofs::Keeping::after_more))]
fn bracketed_method(
    alloc: Global,
    found: &mut Option<Breach>,
    env: &Env<'_>,
    bound: Bound,
    arguments: &[Expr],
) -> Result<Part, AllocError>
    ensures noted { OnOk result (found.new ≡ first_after found.old
        (judge.bracketed_method env.now (seen_bound bound)
        (map (judge.expr env.now) arguments.now) arguments.now).breaches) }
    ensures answer { IfOk result (λ r. seen_part r ≡
        (judge.bracketed_method env.now (seen_bound bound)
        (map (judge.expr env.now) arguments.now) arguments.now).answer) }
{
    let first = bound.first;
    let value = invoked(alloc, found, env, bound, arguments)?;
    Ok(Part::Meant(entity_of(first, value)))
}

/// A bracket that stands here, behind a name.
#[cycle(exprs)]
#[tactic(auto, using(aos_symbols::proofs::Keeping::after_more))]
fn bracketed_name(
    alloc: Global,
    found: &mut Option<Breach>,
    env: &Env<'_>,
    head: Head,
    at: Pos,
    arguments: &[Expr],
) -> Result<Part, AllocError>
    ensures noted { OnOk result (found.new ≡ first_after found.old
        (judge.bracketed_name env.now head at
        (map (judge.expr env.now) arguments.now) arguments.now).breaches) }
    ensures answer { IfOk result (λ r. seen_part r ≡
        (judge.bracketed_name env.now head at
        (map (judge.expr env.now) arguments.now) arguments.now).answer) }
{
    if is_module(head.found) {
        return Ok(Part::Meant(named(alloc, found, env, head)?));
    }
    Ok(Part::Meant(called(alloc, found, env, head, at, arguments)?))
}

/// A call, whose bracket stands here.
#[cycle(exprs)]
#[tactic(auto, using(aos_symbols::proofs::Keeping::after_more))]
fn called(
    alloc: Global,
    found: &mut Option<Breach>,
    env: &Env<'_>,
    head: Head,
    at: Pos,
    arguments: &[Expr],
) -> Result<Entity, AllocError>
    ensures noted { OnOk result (found.new ≡ first_after found.old
        (judge.called env.now head at
        (map (judge.expr env.now) arguments.now) arguments.now).breaches) }
    ensures answer { IfOk result (λ r. seen_entity r ≡
        (judge.called env.now head at
        (map (judge.expr env.now) arguments.now) arguments.now).answer) }
{
    match head.found {
        Lookup::Found(symbol) => called_as(alloc, found, env, symbol, head, at, arguments),
        _ => not_called(alloc, found, env, head, at, arguments),
    }
}

/// A call, by what its name stands for.
#[cycle(exprs)]
#[tactic(auto, using(aos_symbols::proofs::Keeping::after_more))]
fn called_as(
    alloc: Global,
    found: &mut Option<Breach>,
    env: &Env<'_>,
    symbol: Symbol,
    head: Head,
    at: Pos,
    arguments: &[Expr],
) -> Result<Entity, AllocError>
    ensures noted { OnOk result (found.new ≡ first_after found.old
        (judge.called_by env.now (judge.callee_meant symbol symbol.means) head at
        (map (judge.expr env.now) arguments.now) arguments.now).breaches) }
    ensures answer { IfOk result (λ r. seen_entity r ≡
        (judge.called_by env.now (judge.callee_meant symbol symbol.means) head at
        (map (judge.expr env.now) arguments.now) arguments.now).answer) }
{
    let first = head.first;
    match symbol.means {
        Meaning::Function(function) => {
            let value = called_function(alloc, found, env, function, first, arguments)?;
            Ok(entity_of(first, value))
        }
        Meaning::Procedure(number) if is_of_module(symbol) => {
            let bound = Bound {
                callee: MadeCallee::plain(symbol.at.home, number),
                heading: Heading::Declared(symbol.at.home, number),
                first,
            };
            let value = invoked(alloc, found, env, bound, arguments)?;
            Ok(entity_of(first, value))
        }
        Meaning::Type(Some(of)) if is_integer(of) => {
            let value = applied(alloc, found, env, Taking::Into(of), first, arguments)?;
            Ok(entity_of(first, value))
        }
        _ => not_called(alloc, found, env, head, at, arguments),
    }
}

/// A call of a predeclared function, which begins here.
#[cycle(exprs)]
#[tactic(auto, using(aos_symbols::proofs::Keeping::after_more))]
fn called_function(
    alloc: Global,
    found: &mut Option<Breach>,
    env: &Env<'_>,
    function: Function,
    first: Pos,
    arguments: &[Expr],
) -> Result<Answer, AllocError>
    ensures noted { OnOk result (found.new ≡ first_after found.old
        (judge.function_called env.now function first
        (map (judge.expr env.now) arguments.now) arguments.now).breaches) }
    ensures answer { IfOk result (λ r. seen_answer r ≡
        (judge.function_called env.now function first
        (map (judge.expr env.now) arguments.now) arguments.now).answer) }
{
    match function {
        Function::Max => Ok(limit_called(found, env, Limit::Greatest, arguments, first)),
        Function::Min => Ok(limit_called(found, env, Limit::Least, arguments, first)),
        Function::Len => measured(alloc, found, env, first, arguments),
        Function::Ash => shifted(alloc, found, env, first, arguments),
        _ => applied(alloc, found, env, Taking::By(function), first, arguments),
    }
}

/// A call of what has a signature, with these arguments.
#[cycle(exprs)]
#[tactic(auto, using(aos_symbols::proofs::Keeping::after_more))]
fn invoked(
    alloc: Global,
    found: &mut Option<Breach>,
    env: &Env<'_>,
    bound: Bound,
    arguments: &[Expr],
) -> Result<Answer, AllocError>
    ensures noted { OnOk result (found.new ≡ first_after found.old
        (judge.invoked env.now bound.first (seen_callee bound.callee) bound.heading
        (map (judge.expr env.now) arguments.now) arguments.now).breaches) }
    ensures answer { IfOk result (λ r. seen_answer r ≡
        (judge.invoked env.now bound.first (seen_callee bound.callee) bound.heading
        (map (judge.expr env.now) arguments.now) arguments.now).answer) }
{
    let first = bound.first;
    let Some(signature) = signature_at(alloc, env, bound.heading)? else {
        return Ok(refused_value(found, NOT_CONSTANT, first));
    };
    let parameters = signature.parameters.as_slice();
    let handing = arguments_for(alloc, found, env, first, parameters, arguments)?;
    match signature.gives {
        Gives::Nothing => Ok(refused_value(found, WRONG_CALL, first)),
        Gives::Value(of) => function_value(alloc, found, env, first, bound.callee, of, handing),
    }
}

/// The arguments of a call that begins here: there is one for each parameter.
#[cycle(exprs)]
#[tactic(auto, using(aos_symbols::proofs::Keeping::after_more))]
pub fn arguments_for(
    alloc: Global,
    found: &mut Option<Breach>,
    env: &Env<'_>,
    first: Pos,
    parameters: &[Parameter],
    arguments: &[Expr],
) -> Result<Handing, AllocError>
    ensures noted { OnOk result (found.new ≡ first_after found.old
        (judge.arguments_for env.now first parameters.now
        (map (judge.expr env.now) arguments.now) arguments.now).breaches) }
    ensures answer { IfOk result (λ r. seen_handing r ≡
        (judge.arguments_for env.now first parameters.now
        (map (judge.expr env.now) arguments.now) arguments.now).answer) }
{
    if parameters.len() != arguments.len() {
        note(found, ARGUMENT_COUNT, first);
        return Ok(nothing_handed(alloc, false));
    }
    handed(alloc, found, env, parameters, arguments)
}

/// As many arguments as there are parameters, one after another.
#[cycle(exprs)]
#[tactic(auto, using(aos_symbols::proofs::Keeping::after_more, crate::proofs::ArgumentLists::handed_noted, crate::proofs::ArgumentLists::handed_answer, crate::proofs::ArgumentLists::at_end, crate::proofs::ArgumentLists::no_more))]
fn handed(
    alloc: Global,
    found: &mut Option<Breach>,
    env: &Env<'_>,
    parameters: &[Parameter],
    arguments: &[Expr],
) -> Result<Handing, AllocError>
    ensures noted { OnOk result (found.new ≡ first_after found.old
        (judge.handed_from env.now (judge.nothing_handed true) parameters.now
        (map (judge.expr env.now) arguments.now) arguments.now).breaches) }
    ensures answer { IfOk result (λ r. seen_handing r ≡
        (judge.handed_from env.now (judge.nothing_handed true) parameters.now
        (map (judge.expr env.now) arguments.now) arguments.now).answer) }
{
    let mut all = nothing_handed(alloc, true);
    for argument in arguments {
        let Some(parameter) = parameters.get(all.given.len()) else {
            return Ok(all);
        };
        let value = expr(alloc, found, env, argument)?;
        let is_designator = desig_alone(argument).is_some();
        all = hand(
            alloc,
            found,
            env,
            all,
            *parameter,
            is_designator,
            argument.pos,
            value,
        )?;
    }
    Ok(all)
}

/// A predeclared function of one argument or a conversion, in a call that begins here.
#[cycle(exprs)]
#[tactic(auto, using(aos_symbols::proofs::Keeping::after_more))]
fn applied(
    alloc: Global,
    found: &mut Option<Breach>,
    env: &Env<'_>,
    taking: Taking,
    first: Pos,
    arguments: &[Expr],
) -> Result<Answer, AllocError>
    ensures noted { OnOk result (found.new ≡ first_after found.old
        (judge.one_of (judge.step_in taking) first
        (map (judge.expr env.now) arguments.now) arguments.now).breaches) }
    ensures answer { IfOk result (λ r. seen_answer r ≡
        (judge.one_of (judge.step_in taking) first
        (map (judge.expr env.now) arguments.now) arguments.now).answer) }
{
    match arguments {
        [argument] => {
            let value = expr(alloc, found, env, argument)?;
            let step = step_in(taking, value.known.of);
            value_of_one(alloc, found, first, argument.pos, step, value)
        }
        _ => Ok(refused(found, ARGUMENT_COUNT, first)),
    }
}

/// ASH, in a call that begins here.
#[cycle(exprs)]
#[tactic(auto, using(aos_symbols::proofs::Keeping::after_more))]
fn shifted(
    alloc: Global,
    found: &mut Option<Breach>,
    env: &Env<'_>,
    first: Pos,
    arguments: &[Expr],
) -> Result<Answer, AllocError>
    ensures noted { OnOk result (found.new ≡ first_after found.old
        (judge.two_of first (map (judge.expr env.now) arguments.now) arguments.now).breaches) }
    ensures answer { IfOk result (λ r. seen_answer r ≡
        (judge.two_of first (map (judge.expr env.now) arguments.now) arguments.now).answer) }
{
    match arguments {
        [value, places] => {
            let shifted = expr(alloc, found, env, value)?;
            let by = expr(alloc, found, env, places)?;
            value_of_two(alloc, found, first, value.pos, places.pos, shifted, by)
        }
        _ => Ok(refused(found, ARGUMENT_COUNT, first)),
    }
}

/// LEN, in a call that begins here.
#[cycle(exprs)]
#[tactic(auto, using(aos_symbols::proofs::Keeping::after_more))]
fn measured(
    alloc: Global,
    found: &mut Option<Breach>,
    env: &Env<'_>,
    first: Pos,
    arguments: &[Expr],
) -> Result<Answer, AllocError>
    ensures noted { OnOk result (found.new ≡ first_after found.old
        (judge.len_of env.now first
        (map (judge.expr env.now) arguments.now) arguments.now).breaches) }
    ensures answer { IfOk result (λ r. seen_answer r ≡
        (judge.len_of env.now first
        (map (judge.expr env.now) arguments.now) arguments.now).answer) }
{
    match arguments {
        [argument] => {
            let array = expr(alloc, found, env, argument)?;
            len_alone(alloc, found, env, argument.pos, array)
        }
        [argument, number] => {
            let array = expr(alloc, found, env, argument)?;
            let dimension = expr(alloc, found, env, number)?;
            len_in(
                alloc,
                found,
                env,
                argument.pos,
                number.pos,
                array,
                dimension,
            )
        }
        _ => Ok(refused_value(found, ARGUMENT_COUNT, first)),
    }
}
