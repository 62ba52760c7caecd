// A whole program: first the bodies of its modules, then those of its object types, then its procedures, then its methods.

ghost use Rattle.std.specs.Prelude.{◌≡◌, ◌+◌, OnOk, map, sum_by};
ghost use Rattle.aos_typed.specs.Conditions.{awaits, awaits_in_procedures, awaits_in_methods, procedure_renumbered, procedures_renumbered, methods_renumbered, numbered};
ghost use Rattle.aos_typed.specs.Seen.{seen_procedure, seen_method, seen_module, seen_object, seen_program};
ghost use Rattle.aos_await.specs.Counts.{modules_with_bodies, objects_with_bodies, modules_with_procedures, objects_with_methods};

use crate::statements::number_body;
use aos_typed::{Program, TMethod, TModule, TObject, TProcedure};
use std::alloc::AllocError;

/// The AWAITs of a procedure are numbered from the next number on.
fn number_procedure(procedure: &mut TProcedure, next: &mut u32) -> Result<(), AllocError>
    ensures numbers { OnOk result (seen_procedure procedure.new ≡
        procedure_renumbered next.old (seen_procedure procedure.old)) }
    ensures next { OnOk result (next.new ≡ next.old + awaits (seen_procedure procedure.old).body) }
{
    number_body(&mut procedure.body, next)
}

/// Those of procedures, one behind the other.
fn number_procedures(procedures: &mut [TProcedure], next: &mut u32) -> Result<(), AllocError>
    ensures numbers { OnOk result (map seen_procedure procedures.new ≡
        procedures_renumbered next.old (map seen_procedure procedures.old)) }
    ensures next { OnOk result (next.new ≡
        next.old + sum_by (λ q. awaits q.body) (map seen_procedure procedures.old)) }
{
    for place in 0..procedures.len() {
        number_procedure(&mut procedures[place], next)?;
    }
    Ok(())
}

/// Those of methods.
fn number_methods(methods: &mut [TMethod], next: &mut u32) -> Result<(), AllocError>
    ensures numbers { OnOk result (map seen_method methods.new ≡
        methods_renumbered next.old (map seen_method methods.old)) }
    ensures next { OnOk result (next.new ≡
        next.old + sum_by (λ m. awaits m.procedure.body) (map seen_method methods.old)) }
{
    for place in 0..methods.len() {
        number_procedure(&mut methods[place].procedure, next)?;
    }
    Ok(())
}

/// Those of the bodies of modules.
fn number_modules(modules: &mut [TModule], next: &mut u32) -> Result<(), AllocError>
    ensures numbers { OnOk result (map seen_module modules.new ≡
        modules_with_bodies next.old (map seen_module modules.old)) }
    ensures next { OnOk result (next.new ≡
        next.old + sum_by (λ x. awaits x.body) (map seen_module modules.old)) }
{
    for place in 0..modules.len() {
        number_body(&mut modules[place].body, next)?;
    }
    Ok(())
}

/// Those of the bodies of object types.
fn number_objects(objects: &mut [TObject], next: &mut u32) -> Result<(), AllocError>
    ensures numbers { OnOk result (map seen_object objects.new ≡
        objects_with_bodies next.old (map seen_object objects.old)) }
    ensures next { OnOk result (next.new ≡
        next.old + sum_by (λ o. awaits o.body.body) (map seen_object objects.old)) }
{
    for place in 0..objects.len() {
        number_procedure(&mut objects[place].body, next)?;
    }
    Ok(())
}

/// Those of the procedures of modules.
fn number_all_procedures(modules: &mut [TModule], next: &mut u32) -> Result<(), AllocError>
    ensures numbers { OnOk result (map seen_module modules.new ≡
        modules_with_procedures next.old (map seen_module modules.old)) }
    ensures next { OnOk result (next.new ≡
        next.old + sum_by awaits_in_procedures (map seen_module modules.old)) }
{
    for place in 0..modules.len() {
        number_procedures(modules[place].procedures.as_mut_slice(), next)?;
    }
    Ok(())
}

/// Those of the methods of object types.
fn number_all_methods(objects: &mut [TObject], next: &mut u32) -> Result<(), AllocError>
    ensures numbers { OnOk result (map seen_object objects.new ≡
        objects_with_methods next.old (map seen_object objects.old)) }
    ensures next { OnOk result (next.new ≡
        next.old + sum_by awaits_in_methods (map seen_object objects.old)) }
{
    for place in 0..objects.len() {
        number_methods(objects[place].methods.as_mut_slice(), next)?;
    }
    Ok(())
}

/// Gives all AWAITs of a program their numbers: those of one routine behind the other, in each in the order of its text.
pub fn number(program: &mut Program) -> Result<(), AllocError>
    ensures { OnOk result (seen_program program.new ≡ numbered (seen_program program.old)) }
{
    let mut next = 0;
    number_modules(program.modules.as_mut_slice(), &mut next)?;
    number_objects(program.objects.as_mut_slice(), &mut next)?;
    number_all_procedures(program.modules.as_mut_slice(), &mut next)?;
    number_all_methods(program.objects.as_mut_slice(), &mut next)
}
