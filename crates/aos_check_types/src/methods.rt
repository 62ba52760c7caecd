// What is judged of methods once all headings are met.

ghost use Rattle.std.specs.Prelude.{◌≡◌, map, OnOk, IfOk};
ghost use Rattle.std.specs.List.{flat_map};
ghost use Rattle.aos_types.specs.declared.row.TypeId.{TypeId};
ghost use Rattle.std.specs.Option.{option_copied};
ghost use Rattle.aos_symbols.specs.Breaches.{first_after};
ghost use Rattle.aos_symbols.specs.Declarations.{procedures, seen_types};
ghost use Rattle.aos_members.specs.Members.{IsSoFar};
ghost use Rattle.aos_members.specs.Members.{AreMembers};
ghost use Rattle.aos_check_types.specs.Told.{Tells};
ghost use Rattle.aos_check_types.specs.Methods as judge;

use aos_base::NoMemory;
use aos_entries::inner_decls;
use aos_members::{
    Members, SoFar, members_of, method_among, methods_so_far, own_slots, upper_among,
};
use aos_symbols::{ANY, Breach, Env, Lookup, Meaning, WRONG_OVERRIDE, note};
use aos_tree::{Decl, Items, Name, TypeDef};
use aos_types::{Signature, TypeId, Types, may_stand};
use std::alloc::{AllocError, Global};

/// The number of the type that a name stands for.
fn slot_in(lookup: Lookup) -> Option<TypeId>
    ensures { result ≡ judge.slot_in lookup }
{
    match lookup {
        Lookup::Found(symbol) => match symbol.means {
            Meaning::Type(of) => of,
            _ => None,
        },
        _ => None,
    }
}

/// The number of the type that a definition defines.
pub fn defined_type(env: &Env<'_>, def: &TypeDef) -> Option<TypeId>
    ensures { result ≡ judge.defined_type env.now def.now }
{
    slot_in(env.lookup(def.def.name))
}

/// Whether one heading may stand in the place of the other; what isn't met may.
fn may_override(types: &Types, a: Option<&Signature>, b: Option<&Signature>) -> bool
    ensures { result ≡
        judge.may_override types.now (option_copied a.entry) (option_copied b.entry) }
{
    let (Some(a), Some(b)) = (a, b) else {
        return true;
    };
    may_stand(types, a, b)
}

/// Rule 22 at a method's name, where these are what all types declare.
fn note_method(
    found: &mut Option<Breach>,
    env: &Env<'_>,
    all: &Members<'_>,
    of: TypeId,
    name: Name,
) -> Result<(), AllocError>
    requires { AreMembers env.now all.now }
    ensures { OnOk result (found.new ≡ first_after found.old
        (judge.named_breaches env.now of name)) }
{
    let (Some(method), Some(upper)) = (
        method_among(env, all, of, name)?,
        upper_among(env, all, of, name)?,
    ) else {
        return Ok(());
    };
    let signature = env.signature(method.home, method.number);
    if !may_override(
        &env.types,
        signature,
        env.signature(upper.home, upper.number),
    ) {
        note(found, WRONG_OVERRIDE, name.pos);
    }
    Ok(())
}

/// The same of the methods that an object type declares.
#[tactic(auto, using(aos_symbols::proofs::Keeping::first_after_more))]
fn note_methods(
    found: &mut Option<Breach>,
    env: &Env<'_>,
    all: &Members<'_>,
    of: TypeId,
    decls: &[Decl],
) -> Result<(), AllocError>
    requires { AreMembers env.now all.now }
    ensures { OnOk result (found.new ≡ first_after found.old
        (flat_map (judge.method_breaches env.now of) (procedures decls.now))) }
{
    for decl in decls {
        if let Decl::Proc(proc) = decl {
            note_method(found, env, all, of, proc.outline.get().def.name)?;
        }
    }
    Ok(())
}

fn note_definition(
    found: &mut Option<Breach>,
    env: &Env<'_>,
    all: &Members<'_>,
    def: &TypeDef,
) -> Result<(), AllocError>
    requires { AreMembers env.now all.now }
    ensures { OnOk result (found.new ≡ first_after found.old
        (judge.definition_breaches env.now def.now)) }
{
    match defined_type(env, def) {
        Some(of) => note_methods(found, env, all, of, inner_decls(&def.value)),
        None => Ok(()),
    }
}

/// The same of all definitions of types.
#[tactic(auto, using(aos_symbols::proofs::Keeping::first_after_more))]
fn note_definitions(
    alloc: Global,
    found: &mut Option<Breach>,
    env: &Env<'_>,
    defs: &[&TypeDef],
) -> Result<(), AllocError>
    ensures { OnOk result (found.new ≡ first_after found.old
        (flat_map (judge.definition_breaches env.now) (seen_types defs.now))) }
{
    let all = members_of(env, alloc)?;
    for def in defs {
        note_definition(found, env, &all, def)?;
    }
    Ok(())
}

/// The slots of the methods that a type declares, where these are the methods that were met last.
fn definition_slots<'a>(
    alloc: Global,
    env: &Env<'a>,
    so_far: &mut SoFar<'a>,
    def: &TypeDef,
) -> Result<Items<u32>, AllocError>
    requires { IsSoFar env.now so_far.old }
    ensures slots { IfOk result (λ ks. ks ≡ judge.definition_slots env.now def.now) }
    ensures so_far { OnOk result (IsSoFar env.now so_far.new) }
{
    match defined_type(env, def) {
        Some(of) => own_slots(env, alloc, so_far, of),
        None => Ok(Items::new(alloc)),
    }
}

/// The same of all types.
fn slots_of(alloc: Global, env: &Env<'_>, defs: &[&TypeDef]) -> Result<Vec<Items<u32>>, AllocError>
    ensures { IfOk result (λ ks. ks.items ≡
        map (judge.definition_slots env.now) (seen_types defs.now)) }
{
    let mut slots = Vec::new(alloc);
    let mut so_far = methods_so_far(env, alloc, ANY)?;
    for def in defs {
        slots.push(definition_slots(alloc, env, &mut so_far, def)?)?;
    }
    Ok(slots)
}

/// Rule 22 of all methods that these types declare, and their slots.
pub fn overriding(
    alloc: Global,
    found: &mut Option<Breach>,
    env: &mut Env<'_>,
    defs: &[&TypeDef],
) -> Result<(), NoMemory>
    ensures { Tells result found.old found.new (λ _. env.new)
        (judge.overriding env.old (seen_types defs.now)) }
{
    let slots = slots_of(alloc, env, defs)?;
    env.here.set_slots(slots);
    env.self_type = None;
    Ok(note_definitions(alloc, found, env, defs)?)
}
