// Formals of procedures and of procedure types, and the types that they make.

ghost use Rattle.std.specs.Prelude.{◌≡◌, ◌++◌, ◌∷◌, [], OnOk, IfOk, replicate};
ghost use Rattle.aos_symbols.specs.Breaches.{first_after};
ghost use Rattle.aos_symbols.specs.Judged.{walk};
ghost use Rattle.aos_made_types.specs.Met.{met, claiming};
ghost use Rattle.aos_check_types.specs.Told.{Told, Tells};
ghost use Rattle.aos_made_types.specs.Formals as judge;

use crate::rows::{claim, place_row};
use aos_base::{NoMemory, Pos};
use aos_symbols::{Breach, Claim, Env, WRONG_MODIFIER, is_word};
use aos_tree::{Formals, Name, Qualident, Section};
use aos_types::{Gives, Items, Parameter, Signature, TypeId, TypeRow};
use aos_values::{named_type, no_type};
use std::alloc::{AllocError, Global};

/// An open array of elements of this type, where it is known.
fn place_one_open(
    env: &mut Env<'_>,
    at: Pos,
    of: Option<TypeId>,
) -> Result<Option<TypeId>, NoMemory>
    ensures { IfOk result
        (λ of'. met env.new of' ≡ judge.opened (at ∷ []) (met env.old of)) }
{
    let Some(element) = of else {
        return Ok(None);
    };
    place_row(env, None, at, TypeRow::Open(element))
}

/// Open arrays within one another, one for each of these places, the first outermost, of elements of this type.
fn place_open(
    env: &mut Env<'_>,
    places: &[Pos],
    of: Option<TypeId>,
) -> Result<Option<TypeId>, NoMemory>
    ensures { IfOk result
        (λ of'. met env.new of' ≡ judge.opened places.now (met env.old of)) }
{
    let mut met = of;
    let mut left = places.len();
    while left > 0 {
        left -= 1;
        met = place_one_open(env, places[left], met)?;
    }
    Ok(met)
}

/// So many parameters of one kind behind these.
fn add_parameters(
    parameters: &mut Items<Parameter>,
    count: usize,
    parameter: Parameter,
) -> Result<(), AllocError>
    ensures { OnOk result (parameters.new ≡ parameters.old ++ replicate count parameter) }
{
    for _ in 0..count {
        parameters.push(parameter)?;
    }
    Ok(())
}

/// The parameters of a section behind those before it.
#[tactic(auto, using(aos_symbols::proofs::Keeping::after_more))]
fn section_in(
    found: &mut Option<Breach>,
    env: &mut Env<'_>,
    parameters: &mut Items<Parameter>,
    section: &Section,
) -> Result<(), NoMemory>
    ensures { Tells result found.old found.new (λ _. judge.formals_met env.new parameters.new)
        (judge.with_section (judge.formals_met env.old parameters.old) section.now) }
{
    let of = named_type(found, env, section.of);
    let of = place_open(env, section.arrays.as_slice(), of)?;
    let by_reference = section.by_reference;
    add_parameters(
        parameters,
        section.names.len(),
        Parameter { by_reference, of },
    )?;
    Ok(())
}

/// The parameters of sections behind those before them.
fn sections_in(
    found: &mut Option<Breach>,
    env: &mut Env<'_>,
    parameters: &mut Items<Parameter>,
    sections: &[Section],
) -> Result<(), NoMemory>
    ensures { Tells result found.old found.new (λ _. judge.formals_met env.new parameters.new)
        (walk judge.with_section (judge.formals_met env.old parameters.old) sections.now) }
{
    for section in sections {
        section_in(found, env, parameters, section)?;
    }
    Ok(())
}

/// What a procedure gives.
fn given(found: &mut Option<Breach>, env: &Env<'_>, of: Option<Qualident>) -> Gives
    ensures { Told (judge.given env.now of) found.old found.new result }
{
    match of {
        None => Gives::Nothing,
        Some(name) => Gives::Value(named_type(found, env, name)),
    }
}

/// A heading's parameters and result.
#[tactic(auto, using(aos_symbols::proofs::Keeping::after_more))]
pub fn formals_in(
    alloc: Global,
    found: &mut Option<Breach>,
    env: &mut Env<'_>,
    formals: &Option<Formals>,
) -> Result<Signature, NoMemory>
    ensures { Tells result found.old found.new (λ s. judge.heading_met env.new s)
        (judge.formals_in env.old formals.now) }
{
    let mut parameters = Items::new(alloc);
    let Some(formals) = formals else {
        return Ok(Signature {
            parameters,
            gives: Gives::Nothing,
            is_initializer: false,
        });
    };
    sections_in(found, env, &mut parameters, formals.sections.as_slice())?;
    let gives = given(found, env, formals.result);
    Ok(Signature {
        parameters,
        gives,
        is_initializer: false,
    })
}

/// The name of a result.
pub fn result_in(formals: &Option<Formals>) -> Option<Qualident>
    ensures { result ≡ judge.result_in formals.now }
{
    match formals {
        Some(formals) => formals.result,
        None => None,
    }
}

/// These formals with another one behind them, or none where the type of one isn't known.
fn with_formal(
    formals: Option<Items<(bool, TypeId)>>,
    parameter: Parameter,
) -> Result<Option<Items<(bool, TypeId)>>, AllocError>
    ensures { IfOk result (λ fs. fs ≡ judge.with_formal formals parameter) }
{
    let Some(mut formals) = formals else {
        return Ok(None);
    };
    let Some(of) = parameter.of else {
        return Ok(None);
    };
    formals.push((parameter.by_reference, of))?;
    Ok(Some(formals))
}

/// The formals of a procedure type, or none where the type of one isn't known.
fn known_formals(
    alloc: Global,
    parameters: &[Parameter],
) -> Result<Option<Items<(bool, TypeId)>>, AllocError>
    ensures { IfOk result (λ fs. fs ≡ judge.known_formals parameters.now) }
{
    let mut formals = Some(Items::new(alloc));
    for parameter in parameters {
        formals = with_formal(formals, *parameter)?;
    }
    Ok(formals)
}

/// The result of a procedure type, or none where its type isn't known.
fn known_result(gives: Gives) -> Option<Option<TypeId>>
    ensures { result ≡ judge.known_result gives }
{
    match gives {
        Gives::Nothing => Some(None),
        Gives::Value(Some(of)) => Some(Some(of)),
        Gives::Value(None) => None,
    }
}

/// The row of a procedure type, where the types of all its formals and of its result are known.
fn row_of_formals(alloc: Global, signature: &Signature) -> Result<Option<TypeRow>, AllocError>
    ensures { IfOk result (λ r. r ≡ judge.row_of_formals signature.now) }
{
    let Some(formals) = known_formals(alloc, signature.parameters.as_slice())? else {
        return Ok(None);
    };
    match known_result(signature.gives) {
        Some(given) => Ok(Some(TypeRow::Procedure(formals, given))),
        None => Ok(None),
    }
}

/// Puts a type's row into the table, where it is known.
fn place_known(
    env: &mut Env<'_>,
    slot: Option<TypeId>,
    at: Pos,
    row: Option<TypeRow>,
) -> Result<Option<TypeId>, NoMemory>
    ensures { IfOk result (λ of. met env.new of ≡ judge.placed_row slot at row env.old) }
{
    match row {
        Some(row) => place_row(env, slot, at, row),
        None => Ok(None),
    }
}

/// Asks of a procedure type's result, where it is known, that it is a scalar.
fn claim_result(env: &mut Env<'_>, name: Option<Qualident>, gives: Gives) -> Result<(), AllocError>
    ensures { OnOk result (env.new ≡ claiming (judge.result_claims name gives) env.old) }
{
    let (Some(name), Gives::Value(Some(of))) = (name, gives) else {
        return Ok(());
    };
    claim(env, Claim::Result(name.first.pos, of))
}

/// A procedure type with these formals.
fn with_formals(
    alloc: Global,
    found: &mut Option<Breach>,
    env: &mut Env<'_>,
    slot: Option<TypeId>,
    at: Pos,
    formals: &Option<Formals>,
) -> Result<Option<TypeId>, NoMemory>
    ensures { Tells result found.old found.new (λ of. met env.new of)
        (judge.with_formals slot env.old at formals.now) }
{
    let signature = formals_in(alloc, found, env, formals)?;
    claim_result(env, result_in(formals), signature.gives)?;
    let row = row_of_formals(alloc, &signature)?;
    place_known(env, slot, at, row)
}

/// A procedure type, which has no flag but DELEGATE.
pub fn procedure_type(
    alloc: Global,
    found: &mut Option<Breach>,
    env: &mut Env<'_>,
    slot: Option<TypeId>,
    at: Pos,
    flag: Option<Name>,
    formals: &Option<Formals>,
) -> Result<Option<TypeId>, NoMemory>
    ensures { Tells result found.old found.new (λ of. met env.new of)
        (judge.procedure_in slot env.old at flag formals.now) }
{
    if let Some(flag) = flag {
        if !is_word(env.here.text(), "DELEGATE", flag) {
            return Ok(no_type(found, WRONG_MODIFIER, flag.pos));
        }
    }
    with_formals(alloc, found, env, slot, at, formals)
}
