// The numbers of a program's procedures and methods, behind the bodies of its modules and those beside its types.

ghost use Rattle.std.specs.Prelude.{◌≡◌, ◌≤◌, ◌^◌, ◌+◌, suc, length, map, slice_get, Some, option_map, IfOk};
ghost use Rattle.aos_typed.specs.Seen.{seen_module, seen_object};
ghost use Rattle.aos_dispatch.specs.Dispatch.{firsts_by, firsts_from};

use aos_typed::{TModule, TObject};
use std::alloc::{AllocError, Global};

/// The next number. As many as 2^32 are want of memory.
pub fn next(number: u32) -> Result<u32, AllocError>
    ensures { IfOk result (λ n. n ≡ suc number) }
{
    match number.checked_add(1) {
        Some(more) => Ok(more),
        None => Err(AllocError),
    }
}

/// A number so many behind another one.
pub fn after(number: u32, count: usize) -> Result<u32, AllocError>
    ensures { IfOk result (λ n. n ≡ number + count) }
{
    let Ok(more) = u32::try_from(count) else {
        return Err(AllocError);
    };
    match number.checked_add(more) {
        Some(next) => Ok(next),
        None => Err(AllocError),
    }
}

/// The number of the first procedure, behind the bodies of so many modules and object types.
pub fn first_number(modules: usize, objects: usize) -> u32
    requires few { modules ≤ 64 }
    requires few_types { objects ≤ 2 ^ 26 }
    ensures { result ≡ suc (modules + objects) }
{
    (modules + objects + 1) as u32
}

/// The number of the first procedure of each of these modules, where that of the first one is this, and the number behind all.
/// Procedures that have no number are want of memory.
pub fn firsts_of(alloc: Global, modules: &[TModule], first: u32) -> Result<Vec<u32>, AllocError>
    ensures { IfOk result (λ firsts.
        firsts.items ≡ firsts_from first (map seen_module modules.now)) }
{
    let mut firsts = Vec::new(alloc);
    let mut next = first;
    for module in modules {
        firsts.push(next)?;
        let behind = after(next, module.procedures.len())?;
        next = behind;
    }
    firsts.push(next)?;
    Ok(firsts)
}

/// The number of the first method of each of these types, where that of the first one is this, and the number behind all.
pub fn method_firsts(alloc: Global, objects: &[TObject], first: u32) -> Result<Vec<u32>, AllocError>
    ensures { IfOk result (λ firsts. firsts.items ≡
        firsts_by (λ o. length o.methods) first (map seen_object objects.now)) }
{
    let mut firsts = Vec::new(alloc);
    let mut next = first;
    for object in objects {
        firsts.push(next)?;
        let behind = after(next, object.methods.len())?;
        next = behind;
    }
    firsts.push(next)?;
    Ok(firsts)
}

/// The number of a procedure of one of these modules. One of a module that isn't there is in no well-typed program: there is no
/// memory for it.
pub fn number_at(firsts: &[u32], home: u32, number: u32) -> Result<u32, AllocError>
    ensures { IfOk result (λ n.
        option_map (λ first. first + number) (slice_get firsts.now home) ≡ Some n) }
{
    match firsts.get(home as usize) {
        Some(first) => {
            let all = after(*first, number as usize)?;
            Ok(all)
        }
        None => Err(AllocError),
    }
}
