// What is asked of the types that a module names, once all are met: rules 17, 23 and 25.

ghost use Rattle.std.specs.Prelude.{◌≡◌, fold, slice_set, OnOk};
ghost use Rattle.std.specs.List.{flat_map};
ghost use Rattle.aos_types.specs.Table as table;
ghost use Rattle.aos_symbols.specs.Breaches.{first_after};
ghost use Rattle.aos_members.specs.Members.{AreMembers};
ghost use Rattle.aos_check_types.specs.Limits as judge;

use aos_base::{NoMemory, Pos};
use aos_members::{Members, field_among, members_of, method_among};
use aos_symbols::{Breach, Claim, Env, IN_BASE, NIL, WRONG_BASE, WRONG_TYPE, note};
use aos_tree::Name;
use aos_types::{Items, TypeId, TypeRow, Types};
use std::alloc::{AllocError, Global};

/// Whether a type is that of records or of arrays, to which pointers lead.
fn may_be_target(env: &Env<'_>, of: TypeId) -> bool
    ensures { result ≡ judge.may_be_target (table.row_of env.now.types of) }
{
    matches!(
        env.row(Some(of)),
        Some(TypeRow::Array(_, _) | TypeRow::Record(_, _) | TypeRow::Open(_))
    )
}

/// Whether a type is that of records, or its definition breaks a rule.
fn may_be_base(env: &Env<'_>, of: TypeId) -> bool
    ensures { result ≡ judge.may_be_base (table.row_of env.now.types of) }
{
    matches!(
        env.row(Some(of)),
        Some(TypeRow::Record(_, _) | TypeRow::Open(_))
    )
}

/// Whether a type is an object type, or its definition breaks a rule.
fn may_be_object_base(env: &Env<'_>, of: TypeId) -> bool
    ensures { result ≡ judge.may_be_object_base (table.row_of env.now.types of) }
{
    matches!(
        env.row(Some(of)),
        Some(TypeRow::Object(_, _) | TypeRow::Open(_))
    )
}

fn note_target(found: &mut Option<Breach>, env: &Env<'_>, at: Pos, of: TypeId)
    ensures { found.new ≡ first_after found.old
        (judge.claim_breaches env.now (Claim.Target at of)) }
{
    if !may_be_target(env, of) {
        note(found, WRONG_TYPE, at);
    }
}

fn note_base(found: &mut Option<Breach>, env: &Env<'_>, at: Pos, base: TypeId, of: TypeId)
    ensures { found.new ≡ first_after found.old
        (judge.claim_breaches env.now (Claim.Base at base of)) }
{
    if !may_be_base(env, base) {
        note(found, WRONG_BASE, at);
    }
}

fn note_object_base(found: &mut Option<Breach>, env: &Env<'_>, at: Pos, base: TypeId, of: TypeId)
    ensures { found.new ≡ first_after found.old
        (judge.claim_breaches env.now (Claim.ObjectBase at base of)) }
{
    if !may_be_object_base(env, base) {
        note(found, WRONG_BASE, at);
    }
}

fn note_field(
    found: &mut Option<Breach>,
    env: &Env<'_>,
    all: &Members<'_>,
    name: Name,
    base: TypeId,
) -> Result<(), AllocError>
    requires { AreMembers env.now all.now }
    ensures { OnOk result (found.new ≡ first_after found.old
        (judge.claim_breaches env.now (Claim.Field name base))) }
{
    if field_among(env, all, base, name)?.is_some()
        || method_among(env, all, base, name)?.is_some()
    {
        note(found, IN_BASE, name.pos);
    }
    Ok(())
}

fn note_method(
    found: &mut Option<Breach>,
    env: &Env<'_>,
    all: &Members<'_>,
    name: Name,
    base: TypeId,
) -> Result<(), AllocError>
    requires { AreMembers env.now all.now }
    ensures { OnOk result (found.new ≡ first_after found.old
        (judge.claim_breaches env.now (Claim.Method name base))) }
{
    if field_among(env, all, base, name)?.is_some() {
        note(found, IN_BASE, name.pos);
    }
    Ok(())
}

/// What is asked of one type, where these are what all types declare.
fn note_claim(
    found: &mut Option<Breach>,
    env: &Env<'_>,
    all: &Members<'_>,
    claim: Claim,
) -> Result<(), AllocError>
    requires { AreMembers env.now all.now }
    ensures { OnOk result (found.new ≡ first_after found.old (judge.claim_breaches env.now claim)) }
{
    match claim {
        Claim::Target(at, of) => note_target(found, env, at, of),
        Claim::Result(_, _) => {},
        Claim::Base(at, base, of) => note_base(found, env, at, base, of),
        Claim::ObjectBase(at, base, of) => note_object_base(found, env, at, base, of),
        Claim::Field(name, base) => note_field(found, env, all, name, base)?,
        Claim::Method(name, base) => note_method(found, env, all, name, base)?,
    }
    Ok(())
}

/// What is asked of all types that a module names.
#[tactic(auto, using(aos_symbols::proofs::Keeping::after_more))]
pub(crate) fn note_claims(
    alloc: Global,
    found: &mut Option<Breach>,
    env: &Env<'_>,
) -> Result<(), NoMemory>
    ensures { OnOk result (found.new ≡ first_after found.old
        (flat_map (judge.claim_breaches env.now) env.now.claims)) }
{
    let all = members_of(env, alloc)?;
    for claim in env.claims.as_slice() {
        note_claim(found, env, &all, *claim)?;
    }
    Ok(())
}

fn is_record(types: &Types, t: TypeId) -> bool
    ensures { result ≡ table.is_record (table.row_of types.now t) }
{
    (t.0 as usize) < types.len() && matches!(types.row(t), TypeRow::Record(_, _))
}

fn is_object(types: &Types, t: TypeId) -> bool
    ensures { result ≡ table.is_object (table.row_of types.now t) }
{
    (t.0 as usize) < types.len() && matches!(types.row(t), TypeRow::Object(_, _))
}

/// Puts a type's row in the place of the one that is there.
fn replace(types: &mut Types, of: TypeId, row: TypeRow)
    ensures { types.new ≡ slice_set types.old of.0 row }
{
    if (of.0 as usize) < types.len() {
        types.set(of, row);
    }
}

/// A record whose base is no record stands like a definition that breaks a rule, and an object type whose base is none has no contents.
fn drop_base(alloc: Global, types: &mut Types, claim: Claim)
    ensures { types.new ≡ judge.without_base types.old claim }
{
    match claim {
        Claim::Base(_, base, of) => {
            if !is_record(types, base) {
                replace(types, of, TypeRow::Open(NIL));
            }
        },
        Claim::ObjectBase(_, base, of) => {
            if !is_object(types, base) {
                replace(types, of, TypeRow::Object(None, Items::new(alloc)));
            }
        },
        _ => {},
    }
}

/// The same of all records and object types.
pub(crate) fn drop_bases(alloc: Global, types: &mut Types, claims: &[Claim])
    ensures { types.new ≡ fold judge.without_base types.old claims.now }
{
    for claim in claims {
        drop_base(alloc, types, *claim);
    }
}
