// Records: their fields, their bases, and what is asked of these.

ghost use Rattle.std.specs.Prelude.{◌≡◌, ◌++◌, OnOk, IfOk, fold, map};
ghost use Rattle.aos_symbols.specs.Breaches.{first_after};
ghost use Rattle.aos_types.specs.declared.row.TypeRow.TheVariants as kind;
ghost use Rattle.aos_symbols.specs.declared.env.Claim.TheVariants as claims;
ghost use Rattle.aos_check_types.specs.Told.{Told};
ghost use Rattle.aos_made_types.specs.Records as judge;

use crate::rows::{claim, place_row};
use aos_base::{NoMemory, Pos};
use aos_entries::declare;
use aos_symbols::{BASIC_TYPES, Breach, Claim, Env, Meaning, Scope, WRONG_BASE, note};
use aos_tree::{Def, Fields, Qualident};
use aos_types::{Items, TypeId, TypeRow};
use aos_values::named_type;
use std::alloc::{AllocError, Global};

/// The next field of a record.
fn add_field<'a>(
    scope: &mut Scope<'a>,
    text: &'a [u8],
    of: Option<TypeId>,
    def: &Def,
) -> Result<(), NoMemory>
    ensures { OnOk result (scope.new ≡ judge.with_field text.now of scope.old def.now) }
{
    let Ok(number) = u32::try_from(scope.variable_count()) else {
        return Err(NoMemory);
    };
    declare(scope, text, def, Meaning::Variable(number))?;
    scope.add_variable(of)?;
    Ok(())
}

/// The next fields of a record, which are of one type.
pub fn add_all_fields<'a>(
    scope: &mut Scope<'a>,
    text: &'a [u8],
    of: Option<TypeId>,
    defs: &[Def],
) -> Result<(), NoMemory>
    ensures { OnOk result (scope.new ≡ fold (judge.with_field text.now of) scope.old defs.now) }
{
    for def in defs {
        add_field(scope, text, of, def)?;
    }
    Ok(())
}

/// The environment knows a record type's fields, where the type has a number.
fn add_record<'a>(env: &mut Env<'a>, of: Option<TypeId>, fields: Scope<'a>) -> Result<(), NoMemory>
    ensures { OnOk result (env.new ≡ (judge.with_record fields.entry (judge.met env.old of)).env) }
{
    if let Some(of) = of {
        env.here.add_record(of, fields)?;
    }
    Ok(())
}

/// Asks of a record's base that it has no field with one of these names.
pub(crate) fn claim_names(env: &mut Env<'_>, base: TypeId, defs: &[Def]) -> Result<(), AllocError>
    ensures { OnOk result (env.new ≡
        judge.claiming (map (λ n. claims.Field n base) (map (λ d. d.name) defs.now)) env.old) }
{
    for def in defs {
        claim(env, Claim::Field(def.name, base))?;
    }
    Ok(())
}

/// The same of the names of all fields.
fn claim_fields(env: &mut Env<'_>, base: TypeId, fields: &[Fields]) -> Result<(), AllocError>
    ensures { OnOk result (env.new ≡
        judge.claiming (map (λ n. claims.Field n base) (judge.field_names fields.now)) env.old) }
{
    for field in fields {
        if let Fields::Of(def) = field {
            claim_names(env, base, def.defs.as_slice())?;
        }
    }
    Ok(())
}

/// Asks of a record's base, where both are known, that it is a record, and has none of the record's fields.
fn claim_base(
    env: &mut Env<'_>,
    name: Option<Qualident>,
    fields: &[Fields],
    base: Option<TypeId>,
    of: Option<TypeId>,
) -> Result<(), AllocError>
    ensures { OnOk result (env.new ≡ judge.claiming
        (judge.base_claims name (judge.field_names fields.now) base of) env.old) }
{
    let (Some(name), Some(base), Some(of)) = (name, base, of) else {
        return Ok(());
    };
    claim(env, Claim::Base(name.first.pos, base, of))?;
    claim_fields(env, base, fields)
}

/// A record with a base or none, whose fields are of these types, and are the variables of this scope.
fn place_record<'a>(
    env: &mut Env<'a>,
    slot: Option<TypeId>,
    at: Pos,
    base: Option<TypeId>,
    types: Items<TypeId>,
    scope: Scope<'a>,
) -> Result<Option<TypeId>, NoMemory>
    ensures { IfOk result (λ of. judge.met env.new of ≡ judge.with_record scope.entry
        (judge.placed slot at (kind.Record base types) env.old)) }
{
    let of = place_row(env, slot, at, TypeRow::Record(base, types))?;
    add_record(env, of, scope)?;
    Ok(of)
}

/// A record of these fields, and what is asked of its base, where that is known.
fn placed_record<'a>(
    env: &mut Env<'a>,
    slot: Option<TypeId>,
    at: Pos,
    base: Option<Qualident>,
    named: Option<TypeId>,
    fields: &[Fields],
    types: Items<TypeId>,
    scope: Scope<'a>,
) -> Result<Option<TypeId>, NoMemory>
    ensures { IfOk result (λ of. judge.met env.new of ≡ judge.placed_record slot at base
        (judge.field_names fields.now) named types scope.entry env.old) }
{
    let of = place_record(env, slot, at, named, types, scope)?;
    claim_base(env, base, fields, named, of)?;
    Ok(of)
}

/// Whether the base of a record or an object type, where one is written, and all its fields have types: there are as many types as fields.
pub(crate) fn are_parts_known(
    base: Option<Qualident>,
    named: Option<TypeId>,
    types: usize,
    fields: usize,
) -> bool
    ensures { result ≡ judge.are_parts_known base named types fields }
{
    (base.is_none() || named.is_some()) && types == fields
}

/// A record of these fields, which has no type itself where its base or a field has none.
#[tactic(auto, using(crate::proofs::Untyped::untyped_met))]
pub fn known_record<'a>(
    alloc: Global,
    env: &mut Env<'a>,
    slot: Option<TypeId>,
    at: Pos,
    base: Option<Qualident>,
    named: Option<TypeId>,
    fields: &[Fields],
    types: Items<TypeId>,
    scope: Scope<'a>,
) -> Result<Option<TypeId>, NoMemory>
    ensures { IfOk result (λ of. judge.met env.new of ≡ judge.known_record slot at base
        (judge.field_names fields.now) named (judge.fields_met env.old types scope.entry)) }
{
    let count = types.as_slice().len();
    if are_parts_known(base, named, count, scope.variable_count()) {
        return placed_record(env, slot, at, base, named, fields, types, scope);
    }
    let types = Items::new(alloc);
    let _of = placed_record(env, slot, at, base, named, fields, types, scope)?;
    Ok(None)
}

/// Whether a type is predeclared, so that it is neither a record nor an array.
pub(crate) fn is_predeclared(of: Option<TypeId>) -> bool
    ensures { result ≡ judge.is_predeclared of }
{
    match of {
        Some(of) => of.0 < BASIC_TYPES,
        None => false,
    }
}

/// The base of a record or an object type, where one is written.
#[tactic(auto, using(aos_symbols::proofs::Keeping::after_more))]
pub fn base_in(found: &mut Option<Breach>, env: &Env<'_>, base: Option<Qualident>) -> Option<TypeId>
    ensures { Told (judge.base_in env.now base) found.old found.new result }
{
    let Some(name) = base else {
        return None;
    };
    let of = named_type(found, env, name);
    if is_predeclared(of) {
        note(found, WRONG_BASE, name.first.pos);
        return None;
    }
    of
}

/// So many fields of one type behind these, where it is known.
pub fn add_fields(
    types: &mut Items<TypeId>,
    count: usize,
    of: Option<TypeId>,
) -> Result<(), AllocError>
    ensures { OnOk result (types.new ≡ types.old ++ judge.fields_of count of) }
{
    if let Some(of) = of {
        for _ in 0..count {
            types.push(of)?;
        }
    }
    Ok(())
}
