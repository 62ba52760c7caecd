// What runs in a program, in the order of its numbers.

ghost use Rattle.std.specs.Prelude.{◌≡◌, ◌≤◌, [], ◌∷◌, ◌++◌, length, map, IfOk, OnOk};
ghost use Rattle.aos_typed.specs.Routines.{bodies_from, methods_from, procedures_from, routine_of, routines};
ghost use Rattle.aos_typed.specs.Seen.{seen_method, seen_module, seen_object, seen_procedure, seen_program};
ghost use Rattle.aos_dispatch.specs.Routines.{seen_routine, seen_routines};

use aos_typed::{Program, TMethod, TModule, TObject, TProcedure, TStat};
use std::alloc::{AllocError, Global};

/// The body of a module, or a procedure, a method or what the objects of a type carry out, with the number of the module whose
/// text it is.
#[derive(Drop)]
pub enum Routine<'a> {
    /// A module's body, whether it is exclusive, and its statements.
    Body(u32, bool, &'a [TStat]),
    /// A procedure, a method or what objects carry out.
    Procedure(u32, &'a TProcedure),
}

// One more routine.
fn put<'a>(all: &mut Vec<Routine<'a>>, one: Routine<'a>) -> Result<(), AllocError>
    ensures { OnOk result (seen_routines all.new.items ≡ seen_routines all.old.items ++
        seen_routine one.entry ∷ []) }
{
    all.push(one)?;
    Ok(())
}

// The bodies of modules.
fn put_bodies<'a>(all: &mut Vec<Routine<'a>>, modules: &'a [TModule]) -> Result<(), AllocError>
    requires few { length modules.now ≤ 64 }
    ensures { OnOk result (seen_routines all.new.items ≡
        seen_routines all.old.items ++ bodies_from 0 (map seen_module modules.now)) }
{
    let mut number = 0;
    for module in modules {
        put(
            all,
            Routine::Body(number, module.is_exclusive, module.body.as_slice()),
        )?;
        number += 1;
    }
    Ok(())
}

// What the objects of types carry out.
fn put_objects<'a>(all: &mut Vec<Routine<'a>>, objects: &'a [TObject]) -> Result<(), AllocError>
    ensures { OnOk result (seen_routines all.new.items ≡
        seen_routines all.old.items ++
        map (λ o. routine_of o.home o.body) (map seen_object objects.now)) }
{
    for object in objects {
        put(all, Routine::Procedure(object.home, &object.body))?;
    }
    Ok(())
}

// The procedures of the module with this number.
fn put_procedures<'a>(
    all: &mut Vec<Routine<'a>>,
    home: u32,
    procedures: &'a [TProcedure],
) -> Result<(), AllocError>
    ensures { OnOk result (seen_routines all.new.items ≡
        seen_routines all.old.items ++ map (routine_of home) (map seen_procedure procedures.now)) }
{
    for procedure in procedures {
        put(all, Routine::Procedure(home, procedure))?;
    }
    Ok(())
}

// The procedures of all modules.
fn put_all<'a>(all: &mut Vec<Routine<'a>>, modules: &'a [TModule]) -> Result<(), AllocError>
    requires few { length modules.now ≤ 64 }
    ensures { OnOk result (seen_routines all.new.items ≡
        seen_routines all.old.items ++ procedures_from 0 (map seen_module modules.now)) }
{
    let mut number = 0;
    for module in modules {
        put_procedures(all, number, module.procedures.as_slice())?;
        number += 1;
    }
    Ok(())
}

// The methods of a type that the module with this number defines.
fn put_own<'a>(
    all: &mut Vec<Routine<'a>>,
    home: u32,
    methods: &'a [TMethod],
) -> Result<(), AllocError>
    ensures { OnOk result (seen_routines all.new.items ≡
        seen_routines all.old.items ++
        map (λ m. routine_of home m.procedure) (map seen_method methods.now)) }
{
    for method in methods {
        put(all, Routine::Procedure(home, &method.procedure))?;
    }
    Ok(())
}

// The methods of all types.
fn put_methods<'a>(all: &mut Vec<Routine<'a>>, objects: &'a [TObject]) -> Result<(), AllocError>
    ensures { OnOk result (seen_routines all.new.items ≡
        seen_routines all.old.items ++ methods_from (map seen_object objects.now)) }
{
    for object in objects {
        put_own(all, object.home, object.methods.as_slice())?;
    }
    Ok(())
}

/// What runs in a program of at most 64 modules, in the order of its numbers from 1: the bodies of modules, what objects carry out,
/// the procedures of modules, and the methods of types.
pub fn routines_of(alloc: Global, program: &Program) -> Result<Vec<Routine<'_>>, AllocError>
    requires few { length program.now.modules.items ≤ 64 }
    ensures { IfOk result (λ all. seen_routines all.items ≡ routines (seen_program program.now)) }
{
    let mut all = Vec::new(alloc);
    put_bodies(&mut all, program.modules.as_slice())?;
    put_objects(&mut all, program.objects.as_slice())?;
    put_all(&mut all, program.modules.as_slice())?;
    put_methods(&mut all, program.objects.as_slice())?;
    Ok(all)
}
