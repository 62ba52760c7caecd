// The values of functions, by their arguments: predeclared ones of one and of two, MAX and MIN of a type, and those that are declared.

ghost use Rattle.std.specs.Prelude.{◌≡◌, OnOk, IfOk, map};
ghost use Rattle.aos_typed.specs.Seen.{seen_callee, seen_expr};
ghost use Rattle.aos_symbols.specs.Breaches.{first_after};
ghost use Rattle.aos_known.specs.Seen.{seen_answer};
ghost use Rattle.aos_arguments.specs.Functions as judge;
ghost use Rattle.aos_arguments.specs.Seen.{seen_given, seen_handing};

use crate::arguments::Handing;
use aos_base::Pos;
use aos_known::{
    Answer, Class, answered, constant_answer, is_number, may_be_value, nothing, refused,
};
use aos_made::{MadeArguments, MadeCallee, Typed};
use aos_operators::operations::{self, Step};
use aos_symbols::{
    ARGUMENT_TYPE, Breach, CALL_IN_AWAIT, Env, Function, Meaning, NOT_BUILT, OTHER_KIND, note,
};
use aos_typed::Literal;
use aos_types::TypeId;
use std::alloc::{AllocError, Global};

/// MAX, the greatest value of a type, or MIN, the least.
#[derive(Clone, Copy)]
pub enum Limit {
    Greatest,
    Least,
}

/// What has one argument: a predeclared function, or a conversion into an integer type.
#[derive(Clone, Copy)]
pub enum Taking {
    By(Function),
    Into(TypeId),
}

/// What it does to an argument of a type.
pub fn step_in(taking: Taking, of: Option<TypeId>) -> Step
    ensures { result ≡ judge.step_in taking of }
{
    match taking {
        Taking::By(function) => operations::applied(function, of),
        Taking::Into(to) => operations::converted(to, of),
    }
}

fn limit_of(limit: Limit, of: TypeId) -> Option<Literal>
    ensures { result ≡ judge.limit_in limit of }
{
    match limit {
        Limit::Greatest => operations::greatest_value(of),
        Limit::Least => operations::least_value(of),
    }
}

fn limit_value(found: &mut Option<Breach>, value: Option<Literal>, at: Pos) -> Answer
    ensures noted { found.new ≡ first_after found.old (judge.limit_value value at).breaches }
    ensures answer { seen_answer result ≡ (judge.limit_value value at).answer }
{
    match value {
        Some(value) => constant_answer(value),
        None => refused(found, ARGUMENT_TYPE, at),
    }
}

/// MAX or MIN of what the name of a type means, which stands at a place, in an argument that begins at the first.
pub fn limit_meant(
    found: &mut Option<Breach>,
    limit: Limit,
    means: Meaning,
    at: Pos,
    first: Pos,
) -> Answer
    ensures noted { found.new ≡ first_after found.old
        (judge.limit_of (judge.limit_in limit) means at first).breaches }
    ensures answer { seen_answer result ≡
        (judge.limit_of (judge.limit_in limit) means at first).answer }
{
    match means {
        Meaning::Type(Some(of)) => limit_value(found, limit_of(limit, of), first),
        Meaning::Type(None) => refused(found, NOT_BUILT, at),
        _ => refused(found, OTHER_KIND, at),
    }
}

/// The call of a function with these arguments, which in the condition of an AWAIT stands for nothing.
#[tactic(auto, using(crate::proofs::Listed::as_listed))]
fn function_typed(
    alloc: Global,
    is_condition: bool,
    callee: MadeCallee,
    given: MadeArguments,
) -> Result<Typed, AllocError>
    ensures { IfOk result (λ r. seen_expr r ≡
        judge.function_typed is_condition (seen_callee callee) (map seen_given given)) }
{
    if is_condition {
        return Ok(nothing());
    }
    Typed::function(alloc, callee, given)
}

/// The class of a function's result: no constant, and anything else where a rule of the call is broken.
fn function_class(are_kept: bool) -> Class
    ensures { result ≡ judge.function_class are_kept }
{
    if are_kept {
        Class::Computed
    } else {
        Class::Variable
    }
}

/// The result of a function with these arguments.
fn function_answer(
    alloc: Global,
    is_condition: bool,
    callee: MadeCallee,
    of: Option<TypeId>,
    handing: Handing,
) -> Result<Answer, AllocError>
    ensures { IfOk result (λ r. seen_answer r ≡
        judge.function_answer is_condition (seen_callee callee) of (seen_handing handing)) }
{
    let are_kept = handing.are_kept;
    let typed = function_typed(alloc, is_condition, callee, handing.given)?;
    Ok(answered(
        function_class(are_kept),
        operations::kept_type(are_kept, of),
        typed,
    ))
}

/// A function of this result that isn't built, or that is called in the condition of an AWAIT, in a call that begins here.
#[tactic(auto, using(aos_symbols::proofs::Keeping::after_more))]
fn refuse_function(found: &mut Option<Breach>, env: &Env<'_>, first: Pos, of: Option<TypeId>)
    ensures { found.new ≡ first_after found.old (judge.function_breaches env.now first of) }
{
    if !may_be_value(env, of) {
        note(found, NOT_BUILT, first);
    }
    if env.is_condition {
        note(found, CALL_IN_AWAIT, first);
    }
}

/// The value of a function of this result with these arguments, in a call that begins here.
pub fn function_value(
    alloc: Global,
    found: &mut Option<Breach>,
    env: &Env<'_>,
    first: Pos,
    callee: MadeCallee,
    of: Option<TypeId>,
    handing: Handing,
) -> Result<Answer, AllocError>
    ensures noted { OnOk result (found.new ≡ first_after found.old
        (judge.function_told env.now first (seen_callee callee) of
        (seen_handing handing)).breaches) }
    ensures answer { IfOk result (λ r. seen_answer r ≡
        (judge.function_told env.now first (seen_callee callee) of (seen_handing handing)).answer) }
{
    refuse_function(found, env, first, of);
    function_answer(alloc, env.is_condition, callee, of, handing)
}

/// The value of a function of one argument, which begins here.
#[tactic(auto, using(aos_symbols::proofs::Keeping::after_more))]
pub fn value_of_one(
    alloc: Global,
    found: &mut Option<Breach>,
    at: Pos,
    first: Pos,
    step: Step,
    a: Answer,
) -> Result<Answer, AllocError>
    ensures noted { OnOk result (found.new ≡ first_after found.old
        (judge.one_argument at first step (seen_answer a)).breaches) }
    ensures answer { IfOk result (λ r. seen_answer r ≡
        (judge.one_argument at first step (seen_answer a)).answer) }
{
    operations::argument(found, step.is_kept, first);
    let value = operations::stepped(alloc, step, a)?;
    operations::told(found, at, &value);
    Ok(value)
}

/// The value of ASH, whose two arguments begin here.
#[tactic(auto, using(aos_symbols::proofs::Keeping::after_more))]
pub fn value_of_two(
    alloc: Global,
    found: &mut Option<Breach>,
    at: Pos,
    first: Pos,
    second: Pos,
    a: Answer,
    b: Answer,
) -> Result<Answer, AllocError>
    ensures noted { OnOk result (found.new ≡ first_after found.old
        (judge.two_arguments at first second (seen_answer a) (seen_answer b)).breaches) }
    ensures answer { IfOk result (λ r. seen_answer r ≡
        (judge.two_arguments at first second (seen_answer a) (seen_answer b)).answer) }
{
    operations::argument(found, is_number(a.known.of), first);
    operations::argument(found, is_number(b.known.of), second);
    let value = operations::joined(alloc, operations::shifted(a.known.of, b.known.of), a, b)?;
    operations::told(found, at, &value);
    Ok(value)
}
