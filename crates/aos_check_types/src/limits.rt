// What is judged of all types of a module together.

ghost use Rattle.std.specs.Prelude.{◌≡◌, ◌+◌, ◌++◌, [], map, nat_le, sum_by, slice_get, unwrap_or, false, OnOk, IfOk};
ghost use Rattle.std.specs.List.{flat_map, zip};
ghost use Rattle.aos_base.specs.declared.limits.TheConstants.{MOST_SCALARS};
ghost use Rattle.aos_types.specs.Chain.{NoneContainsItself};
ghost use Rattle.aos_types.specs.Limit.{is_past, is_first_past};
ghost use Rattle.aos_types.specs.Table.{row_of, is_open};
ghost use Rattle.aos_symbols.specs.Breaches.{breach_unless, first_after};
ghost use Rattle.aos_symbols.specs.Declarations.{seen_parts, seen_procedures, single_variables, type_defs, types_of};
ghost use Rattle.aos_check_types.specs.Told.{Tells};
ghost use Rattle.aos_check_types.specs.Limits as judge;

use crate::claims::{drop_bases, note_claims};
use crate::places::{next, type_place};
use aos_base::{MOST_SCALARS, NoMemory, Pos};
use aos_entries::{all_procedures, inner_parts};
use aos_symbols::{
    Breach, CONTAINS_ITSELF, Claim, Env, Home, Scope, TOO_MANY_SCALARS, WRONG_TYPE, note,
};
use aos_tree::{Decl, Def, Formals, Proc, TypeDef, VarDef};
use aos_types::{Gives, TypeId, TypeRow, Types};
use std::alloc::{AllocError, Global};
use std::marker::Model;

/// Where a type's name stands in its definition, and where the type itself begins; a type without a name has one place.
#[derive(Drop)]
struct Written {
    named: Pos,
    at: Pos,
}

impl Model for Written {
    ghost use Rattle.aos_check_types.specs.Limits as judge;

    ghost Value = { judge.Written };

    ghost view = { λ w. record { named = w.named; at = w.at } };
}

/// Puts where types are defined behind these.
fn add_defined(written: &mut Vec<Written>, defs: &[TypeDef]) -> Result<(), AllocError>
    ensures { OnOk result
        (written.new.items ≡ written.old.items ++ map judge.defined_at defs.now) }
{
    for def in defs {
        written.push(Written {
            named: def.def.name.pos,
            at: type_place(&def.value),
        })?;
    }
    Ok(())
}

/// Puts where the types of declarations are defined behind these.
fn add_defined_by(written: &mut Vec<Written>, decls: &[Decl]) -> Result<(), AllocError>
    ensures { OnOk result (written.new.items ≡
        written.old.items ++ map judge.defined_at (type_defs decls.now)) }
{
    for decl in decls {
        if let Decl::Types(_, defs) = decl {
            add_defined(written, defs.as_slice())?;
        }
    }
    Ok(())
}

/// Puts where the types of several declarations are defined behind these.
fn add_defined_within(written: &mut Vec<Written>, parts: &[&[Decl]]) -> Result<(), AllocError>
    ensures { OnOk result (written.new.items ≡ written.old.items ++
        map judge.defined_at (types_of (seen_parts parts.now))) }
{
    for part in parts {
        add_defined_by(written, part)?;
    }
    Ok(())
}

/// Where all types of a module stand, in the order of their numbers.
fn written_in(alloc: Global, env: &Env<'_>, decls: &[Decl]) -> Result<Vec<Written>, AllocError>
    ensures { IfOk result (λ ws. ws.items ≡ judge.written env.now decls.now) }
{
    let mut written = Vec::new(alloc);
    add_defined_by(&mut written, decls)?;
    let parts = inner_parts(alloc, decls)?;
    add_defined_within(&mut written, &parts)?;
    for at in env.places.as_slice() {
        written.push(Written {
            named: *at,
            at: *at,
        })?;
    }
    Ok(written)
}

/// Whether a type contained itself.
fn is_circular(flags: &[bool], t: TypeId) -> bool
    ensures { result ≡ unwrap_or (slice_get flags.now t.0) false }
{
    flags.get(t.0 as usize).copied().unwrap_or(false)
}

/// Whether a type has more scalars than a type may have.
fn is_past(types: &Types, t: TypeId) -> bool
    requires { NoneContainsItself types.now }
    ensures { result ≡ is_past types.now t }
{
    if (t.0 as usize) >= types.len() {
        return false;
    }
    types.leaves(t).is_none()
}

/// Whether a type has more scalars than a type may have, though none of its parts has.
fn is_first_past(types: &Types, t: TypeId) -> bool
    requires { NoneContainsItself types.now }
    ensures { result ≡ is_first_past types.now t }
{
    if (t.0 as usize) >= types.len() {
        return false;
    }
    types.is_first_past(t)
}

/// Rule 18 at a type's name, and rule 19 where it begins.
#[tactic(auto, using(aos_symbols::proofs::Keeping::after_more))]
fn note_type(
    found: &mut Option<Breach>,
    types: &Types,
    flags: &[bool],
    t: TypeId,
    written: &Written,
)
    requires { NoneContainsItself types.now }
    ensures { found.new ≡ first_after found.old
        (judge.type_breaches flags.now types.now t written.now) }
{
    if is_circular(flags, t) {
        note(found, CONTAINS_ITSELF, written.named);
    }
    if is_first_past(types, t) {
        note(found, TOO_MANY_SCALARS, written.at);
    }
}

/// Rules 18 and 19 of types, of which the first has this number.
#[tactic(auto, using(crate::proofs::Judging::types_step, crate::proofs::Judging::types_end))]
fn note_types(
    found: &mut Option<Breach>,
    types: &Types,
    flags: &[bool],
    first: u32,
    written: &[Written],
) -> Result<(), NoMemory>
    requires { NoneContainsItself types.now }
    ensures { OnOk result (found.new ≡ first_after found.old
        (judge.types_from flags.now types.now first written.now)) }
{
    let mut number = first;
    for place in written {
        note_type(found, types, flags, TypeId(number), place);
        number = next(number)?;
    }
    Ok(())
}

/// Whether a type is an array or a record.
fn has_parts(types: &Types, t: TypeId) -> bool
    ensures { result ≡ judge.has_parts [] types.now (row_of types.now t) }
{
    if (t.0 as usize) >= types.len() {
        return false;
    }
    matches!(types.row(t), TypeRow::Array(_, _) | TypeRow::Record(_, _))
}

/// Whether a type is an open array, as that of a definition that breaks a rule is.
fn is_open(types: &Types, t: TypeId) -> bool
    ensures { result ≡ is_open (row_of types.now t) }
{
    (t.0 as usize) < types.len() && matches!(types.row(t), TypeRow::Open(_))
}

/// Whether a result of a type breaks rule 25.
fn is_wrong_result(types: &Types, flags: &[bool], t: TypeId) -> bool
    requires { NoneContainsItself types.now }
    ensures { result ≡ judge.is_wrong_result flags.now types.now t }
{
    has_parts(types, t) && !is_circular(flags, t) && !is_past(types, t)
}

/// Rule 25 at a procedure's result.
fn note_result(
    found: &mut Option<Breach>,
    types: &Types,
    flags: &[bool],
    formals: &Option<Formals>,
    gives: Gives,
)
    requires { NoneContainsItself types.now }
    ensures { found.new ≡ first_after found.old (judge.result_breaches flags.now types.now
        (judge.result_of flags.now types.now formals.now) gives) }
{
    let Some(formals) = formals else {
        return;
    };
    let Some(name) = formals.result else {
        return;
    };
    let Gives::Value(Some(of)) = gives else {
        return;
    };
    if is_wrong_result(types, flags, of) {
        note(found, WRONG_TYPE, name.first.pos);
    }
}

/// Rule 25 at the results of a module's procedures and methods.
#[tactic(auto, using(crate::proofs::Judging::results_end))]
fn note_results(
    found: &mut Option<Breach>,
    env: &Env<'_>,
    flags: &[bool],
    procs: &[&Proc],
) -> Result<(), NoMemory>
    requires { NoneContainsItself env.now.types }
    ensures { OnOk result (found.new ≡ first_after found.old (judge.results_from flags.now
        env.now.types (seen_procedures procs.now) env.now.here.signatures)) }
{
    let mut number = 0;
    for proc in procs {
        let Some(signature) = env.here.signature(number) else {
            return Ok(());
        };
        note_result(
            found,
            &env.types,
            flags,
            &proc.outline.get().formals,
            signature.gives,
        );
        number = next(number)?;
    }
    Ok(())
}

/// Rule 25 at the result of a procedure type.
fn note_asked(found: &mut Option<Breach>, types: &Types, flags: &[bool], claim: Claim)
    requires { NoneContainsItself types.now }
    ensures { found.new ≡ first_after found.old
        (judge.asked_result flags.now types.now claim) }
{
    if let Claim::Result(at, of) = claim {
        if is_wrong_result(types, flags, of) {
            note(found, WRONG_TYPE, at);
        }
    }
}

/// The same of all procedure types.
#[tactic(auto, using(aos_symbols::proofs::Keeping::first_after_more))]
fn note_all_asked(found: &mut Option<Breach>, env: &Env<'_>, flags: &[bool])
    requires { NoneContainsItself env.now.types }
    ensures { found.new ≡ first_after found.old
        (flat_map (judge.asked_result flags.now env.now.types) env.now.claims) }
{
    for claim in env.claims.as_slice() {
        note_asked(found, &env.types, flags, *claim);
    }
}

/// How many scalars a variable has.
fn counted(types: &Types, of: Option<TypeId>) -> u32
    requires { NoneContainsItself types.now }
    ensures { result ≡ judge.counted [] types.now of }
{
    let Some(t) = of else {
        return 0;
    };
    if (t.0 as usize) >= types.len() {
        return 0;
    }
    types.variable_scalars(t).unwrap_or(0)
}

/// Whether a variable's type is known to keep its rules, so that its scalars count.
fn is_counted(types: &Types, of: Option<TypeId>) -> bool
    requires { NoneContainsItself types.now }
    ensures { result ≡ judge.is_counted [] types.now of }
{
    match of {
        Some(t) => !(is_open(types, t) || is_past(types, t)),
        None => false,
    }
}

/// How many scalars the variable with this number has, where it is there and they count.
fn counted_at(types: &Types, scope: &Scope<'_>, number: u32) -> Option<u32>
    requires { NoneContainsItself types.now }
    ensures { result ≡ judge.counted_in [] types.now (slice_get scope.now.variables number) }
{
    match scope.variable(number) {
        Some(of) => {
            if is_counted(types, of) {
                return Some(counted(types, of));
            }
            None
        },
        None => None,
    }
}

/// A sum and one more number.
fn more(sum: u64, number: u64) -> Result<u64, NoMemory>
    ensures { IfOk result (λ n. n ≡ sum + number) }
{
    match sum.checked_add(number) {
        Some(all) => Ok(all),
        None => Err(NoMemory),
    }
}

/// How many scalars a module's variables have.
fn scalars_of(types: &Types, home: &Home<'_>) -> Result<u64, NoMemory>
    requires { NoneContainsItself types.now }
    ensures { IfOk result (λ n. n ≡ judge.scalars_of [] types.now home.now) }
{
    let Some(scope) = home.scope(0) else {
        return Ok(0);
    };
    let mut sum = 0;
    let mut number = 0;
    while let Some(of) = scope.variable(number) {
        sum = more(sum, u64::from(counted(types, of)))?;
        number = next(number)?;
    }
    Ok(sum)
}

/// How many scalars the variables of these modules have.
fn scalars_before(types: &Types, before: &[Home<'_>]) -> Result<u64, NoMemory>
    requires { NoneContainsItself types.now }
    ensures { IfOk result (λ n. n ≡ sum_by (judge.scalars_of [] types.now) before.now) }
{
    let mut sum = 0;
    for home in before {
        sum = more(sum, scalars_of(types, home)?)?;
    }
    Ok(sum)
}

/// Puts each variable by itself behind these.
fn add_singles(singles: &mut Vec<Def>, defs: &[VarDef]) -> Result<(), AllocError>
    ensures { OnOk result
        (singles.new.items ≡ singles.old.items ++ flat_map (λ v. v.defs) defs.now) }
{
    for def in defs {
        for single in def.defs.as_slice() {
            singles.push(*single)?;
        }
    }
    Ok(())
}

/// Each variable of declarations by itself.
fn singles_of(alloc: Global, decls: &[Decl]) -> Result<Vec<Def>, AllocError>
    ensures { IfOk result (λ singles. singles.items ≡ single_variables decls.now) }
{
    let mut singles = Vec::new(alloc);
    for decl in decls {
        if let Decl::Vars(_, defs) = decl {
            add_singles(&mut singles, defs.as_slice())?;
        }
    }
    Ok(singles)
}

/// Rule 19 at a variable with which all so far have so many scalars.
fn note_sum(found: &mut Option<Breach>, sum: u64, at: Pos)
    ensures { found.new ≡ first_after found.old
        (breach_unless (nat_le sum MOST_SCALARS) 19 at) }
{
    if sum > u64::from(MOST_SCALARS) {
        note(found, TOO_MANY_SCALARS, at);
    }
}

/// Rule 19 at the variables with which all so far have more scalars than they may have, where those before have so many; behind one whose
/// type breaks a rule none is known to.
#[tactic(auto, using(aos_symbols::proofs::Keeping::after_more))]
fn note_singles(
    found: &mut Option<Breach>,
    types: &Types,
    before: u64,
    singles: &[Def],
    scope: &Scope<'_>,
) -> Result<(), NoMemory>
    requires { NoneContainsItself types.now }
    ensures { OnOk result (found.new ≡ first_after found.old
        (judge.variables_past [] types.now before (zip singles.now scope.now.variables))) }
{
    let mut sum = before;
    let mut number = 0;
    for single in singles {
        let Some(count) = counted_at(types, scope, number) else {
            return Ok(());
        };
        sum = more(sum, u64::from(count))?;
        note_sum(found, sum, single.name.pos);
        number = next(number)?;
    }
    Ok(())
}

/// Rule 19 at a module's variables.
fn note_variables(
    alloc: Global,
    found: &mut Option<Breach>,
    env: &Env<'_>,
    decls: &[Decl],
) -> Result<(), NoMemory>
    requires { NoneContainsItself env.now.types }
    ensures { OnOk result (found.new ≡ first_after found.old
        (judge.variables_past [] env.now.types
        (sum_by (judge.scalars_of [] env.now.types) env.now.before)
        (zip (single_variables decls.now)
        (judge.variables_of [] env.now.types (slice_get env.now.here.scopes 0))))) }
{
    let Some(scope) = env.here.scope(0) else {
        return Ok(());
    };
    let before = scalars_before(&env.types, env.before.as_slice())?;
    let singles = singles_of(alloc, decls)?;
    note_singles(found, &env.types, before, &singles, scope)
}

/// Rules 18, 19 and 25 of a module, whose first type has this number: types that contain themselves, which become records
/// without fields, numbers of scalars, and results.
fn cut_off(
    alloc: Global,
    found: &mut Option<Breach>,
    env: &mut Env<'_>,
    first: u32,
    decls: &[Decl],
) -> Result<(), NoMemory>
    ensures { Tells result found.old found.new (λ _. env.new)
        (judge.cut_off env.old first decls.now) }
{
    let flags = env.types.cut_circles(alloc)?;
    let procs = all_procedures(alloc, decls)?;
    let written = written_in(alloc, env, decls)?;
    note_types(found, &env.types, &flags, first, &written)?;
    note_results(found, env, &flags, &procs)?;
    note_variables(alloc, found, env, decls)?;
    note_all_asked(found, env, &flags);
    Ok(())
}

/// What is judged of a module's types together, of which the first has this number.
pub fn judge_limits(
    alloc: Global,
    found: &mut Option<Breach>,
    env: &mut Env<'_>,
    first: u32,
    decls: &[Decl],
) -> Result<(), NoMemory>
    ensures { Tells result found.old found.new (λ _. env.new)
        (judge.limits env.old first decls.now) }
{
    note_claims(alloc, found, env)?;
    drop_bases(alloc, &mut env.types, env.claims.as_slice());
    cut_off(alloc, found, env, first, decls)
}
