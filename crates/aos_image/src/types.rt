// The types of an image: their bases, the kinds of their objects' cells, their methods by slots, and what their objects carry out.

ghost use Rattle.std.specs.Prelude.{◌≡◌, ◌<◌, ◌≤◌, ◌+◌, ◌-◌, ◌^◌, ◌∷◌, [], ◌++◌, Some, false, length, slice_get, IfOk, IfSome, OnOk};
ghost use Rattle.aos_types.specs.Chain.{NoneContainsItself};
ghost use Rattle.aos_types.specs.Table.{row_of, base_of};
ghost use Rattle.aos_typed.specs.Numbers.{predeclared_types};
ghost use Rattle.aos_typed.specs.Seen.{seen_program};
ghost use Rattle.aos_typed.specs.WellTyped.{IsWellTyped};
ghost use Rattle.aos_layout.specs.Marks.{AreMade};
ghost use Rattle.aos_sim.specs.Shows.{made_kinds, base_number};
ghost use Rattle.aos_image.specs.Made.{AreKindsOf, AreTypesOf, active_at, body_at, initial_at, priority_at};

use aos_base::NoMemory;
use aos_code::{Kind, TypeDesc};
use aos_dispatch::PREDECLARED_TYPES;
use aos_layout::{base_number, made_kinds, made_types, object_base, object_kinds};
use aos_program_layout::Laid;
use aos_typed::Program;
use aos_types::{TypeId, Types};
use std::alloc::{AllocError, Global};

// How many kinds these are.
fn count_of(kinds: &[Kind]) -> Result<u32, AllocError>
    ensures { IfOk result (λ n. n ≡ length kinds.now) }
{
    match u32::try_from(kinds.len()) {
        Ok(count) => Ok(count),
        Err(_) => Err(AllocError),
    }
}

// Numbers behind others.
fn copy_of(alloc: Global, numbers: &[u32]) -> Result<Vec<u32>, AllocError>
    ensures { IfOk result (λ copy. copy.items ≡ numbers.now) }
{
    let mut copy = Vec::new(alloc);
    copy.extend_from_slice(numbers)?;
    Ok(copy)
}

// What the objects of a type carry out: their initializer and their body, by the numbers of the procedures, 0 for none; whether the
// body is active, and the number of the priority of its activities.
#[derive(Clone, Copy)]
struct Carried {
    init: u32,
    body: u32,
    active: bool,
    priority: u8,
}

// What describes a type, where it is among the first types that a program names.
fn described(before: &[TypeDesc], of: TypeId) -> Option<&TypeDesc>
    ensures behind { IfSome result (λ one. predeclared_types ≤ of.0) }
    ensures there { IfSome result (λ one.
        slice_get before.now (of.0 - predeclared_types) ≡ Some one.now) }
{
    if of.0 < PREDECLARED_TYPES {
        return None;
    }
    let one = before.get((of.0 - PREDECLARED_TYPES) as usize)?;
    Some(one)
}

// The kinds of the cells of a type's objects. Those of an object type are put behind a copy of its base's, where these are there.
fn kinds_by(
    alloc: Global,
    types: &Types,
    made: &[bool],
    before: &[TypeDesc],
    number: u32,
) -> Result<Vec<Kind>, NoMemory>
    requires none_contains_itself { NoneContainsItself types.now }
    requires few { number ≤ 2 ^ 26 }
    requires there { number + predeclared_types < length types.now }
    requires made { AreMade types.now made.now }
    requires before { AreKindsOf types.now number before.now }
    ensures { IfOk result (λ kinds.
        kinds.items ≡ made_kinds types.now (record { 0 = number + predeclared_types })) }
{
    let of = TypeId(number + PREDECLARED_TYPES);
    let Some(base) = object_base(types, of) else {
        return made_kinds(alloc, types, made, of);
    };
    match described(before, base) {
        Some(one) => object_kinds(alloc, types, base, one.kinds.as_slice(), of),
        None => made_kinds(alloc, types, made, of),
    }
}

// The description of the type with this number in the program, which has these methods, and whose objects carry this out. More kinds
// than there are numbers of 32 bits are in no well-typed program: there is no memory for them.
fn describe_type(
    alloc: Global,
    types: &Types,
    made: &[bool],
    before: &[TypeDesc],
    number: u32,
    methods: &[u32],
    carried: Carried,
) -> Result<TypeDesc, NoMemory>
    requires none_contains_itself { NoneContainsItself types.now }
    requires few { number ≤ 2 ^ 26 }
    requires there { number + predeclared_types < length types.now }
    requires made { AreMade types.now made.now }
    requires before { AreKindsOf types.now number before.now }
    ensures base { IfOk result (λ d. d.base ≡
        base_number (base_of (row_of types.now (record { 0 = number + predeclared_types })))) }
    ensures cells { IfOk result (λ d. d.cells ≡ length d.kinds.items) }
    ensures kinds { IfOk result (λ d. d.kinds.items ≡
        made_kinds types.now (record { 0 = number + predeclared_types })) }
    ensures methods { IfOk result (λ d. d.methods.items ≡ methods.now) }
    ensures initial { IfOk result (λ d. d.init ≡ carried.init) }
    ensures start { IfOk result (λ d. d.body ≡ carried.body) }
    ensures active { IfOk result (λ d. d.active ≡ carried.active) }
    ensures priority { IfOk result (λ d. d.priority ≡ carried.priority) }
    ensures safe { IfOk result (λ d. d.safe ≡ false) }
{
    let kinds = kinds_by(alloc, types, made, before, number)?;
    let cells = count_of(&kinds)?;
    let methods = copy_of(alloc, methods)?;
    Ok(TypeDesc {
        base: base_number(types, TypeId(number + PREDECLARED_TYPES)),
        cells,
        kinds,
        methods,
        init: carried.init,
        body: carried.body,
        active: carried.active,
        priority: carried.priority,
        safe: false,
    })
}

// One more type.
fn put_type(types: &mut Vec<TypeDesc>, one: TypeDesc) -> Result<(), AllocError>
    ensures { OnOk result (types.new.items ≡ types.old.items ++ one ∷ []) }
{
    types.push(one)?;
    Ok(())
}

// The number of the body that the objects of a type have, 0 where they have none.
fn body_of(laid: &Laid<'_>, of: u32) -> Result<u32, AllocError>
    ensures { IfOk result (λ n. n ≡ body_at (seen_program laid.now) of) }
{
    let Some(t) = laid.body_type(of)? else {
        return Ok(0);
    };
    let number = laid.body(t)?;
    Ok(number)
}

// The number of the initializer that the objects of a type have, 0 where they have none.
fn initializer_of(laid: &Laid<'_>, of: u32) -> Result<u32, AllocError>
    ensures { IfOk result (λ n. n ≡ initial_at (seen_program laid.now) of) }
{
    let Some(slot) = laid.initializer(of)? else {
        return Ok(0);
    };
    let number = laid.method(of, slot)?;
    Ok(number)
}

// Whether the body that the objects of a type have is active.
fn active_of(laid: &Laid<'_>, of: u32) -> Result<bool, AllocError>
    ensures { IfOk result (λ b. b ≡ active_at (seen_program laid.now) of) }
{
    let Some(t) = laid.body_type(of)? else {
        return Ok(false);
    };
    Ok(laid.is_active(t))
}

// The number of the priority of the activities that carry out that body, 2 where there is none.
fn priority_of(laid: &Laid<'_>, of: u32) -> Result<u8, AllocError>
    ensures { IfOk result (λ n. n ≡ priority_at (seen_program laid.now) of) }
{
    let Some(t) = laid.body_type(of)? else {
        return Ok(2);
    };
    let priority = laid.priority(t);
    Ok(priority.number())
}

// What the objects of a type carry out.
fn carried_of(laid: &Laid<'_>, of: u32) -> Result<Carried, AllocError>
    ensures initial { IfOk result (λ c. c.init ≡ initial_at (seen_program laid.now) of) }
    ensures start { IfOk result (λ c. c.body ≡ body_at (seen_program laid.now) of) }
    ensures active { IfOk result (λ c. c.active ≡ active_at (seen_program laid.now) of) }
    ensures priority { IfOk result (λ c. c.priority ≡ priority_at (seen_program laid.now) of) }
{
    let init = initializer_of(laid, of)?;
    let body = body_of(laid, of)?;
    let active = active_of(laid, of)?;
    let priority = priority_of(laid, of)?;
    Ok(Carried {
        init,
        body,
        active,
        priority,
    })
}

/// The types that a program names. The body of a type's objects is that of its nearest base that has one, itself first.
#[tactic(auto, using(crate::proofs::Described::kinds_so_far))]
pub fn types_of(
    alloc: Global,
    laid: &Laid<'_>,
    program: &Program,
) -> Result<Vec<TypeDesc>, NoMemory>
    requires few { length program.now.modules.items ≤ 64 }
    requires few_types { length program.now.objects.items ≤ 2 ^ 26 }
    requires laid { laid.now ≡ program.now }
    requires typed { IsWellTyped (seen_program program.now) }
    ensures { IfOk result (λ types.
        AreTypesOf (seen_program program.now) (length program.now.objects.items) types.items) }
{
    let made = made_types(alloc, &program.types)?;
    let mut types = Vec::new(alloc);
    for number in 0..program.objects.len() {
        let carried = carried_of(laid, number as u32)?;
        let methods = laid.methods(number as u32);
        let one = describe_type(
            alloc,
            &program.types,
            &made,
            types.as_slice(),
            number as u32,
            methods,
            carried,
        )?;
        put_type(&mut types, one)?;
    }
    Ok(types)
}
