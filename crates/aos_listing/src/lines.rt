// The lines of a program.

ghost use Rattle.std.specs.Prelude.{◌≡◌, ◌≤◌, ◌^◌, ◌++◌, ◌∷◌, [], Some, length, map, slice_get, IfOk, OnOk};
ghost use Rattle.std.specs.List.{flat_map, zip};
ghost use Rattle.std.specs.Option.{option_copied};
ghost use Rattle.std.specs.String.{string_bytes};
ghost use Rattle.aos_types.specs.Table as table;
ghost use Rattle.aos_code.specs.Lines.{seen_line};
ghost use Rattle.aos_typed.specs.declared.tree.TType.TheVariants.{Named};
ghost use Rattle.aos_typed.specs.Numbers.{id_of};
ghost use Rattle.aos_typed.specs.Seen.{seen_method, seen_module, seen_object, seen_procedure, seen_program, seen_variable};
ghost use Rattle.aos_typed.specs.WellTyped.{AreTypes, IsWellTyped};
ghost use Rattle.aos_layout.specs.Layout as layout;
ghost use Rattle.aos_listing.specs.Listing as listing;
ghost use Rattle.aos_listing.specs.Seen.{seen_entry, seen_lines, seen_names};

use crate::cells::{
    behind, field_cells, frame_cells, front_cells, own_fields, type_cells, variable_cells,
    variables_cells,
};
use crate::entries::{Entry, entries_of, place_of};
use aos_base::NoMemory;
use aos_code::LayoutLine;
use aos_dispatch::type_in;
use aos_typed::{Program, TMethod, TModule, TObject, TProcedure, TType, TVariable};
use aos_types::{TypeId, Types};
use std::alloc::{AllocError, Global};

// What lines are of, by their numbers.
const MODULE: u8 = 0;

const VARIABLE: u8 = 1;

const TYPE: u8 = 2;

const FIELD: u8 = 3;

const METHOD: u8 = 4;

const PROCEDURE: u8 = 5;

// A line of a name.
fn line_of(
    alloc: Global,
    word: u8,
    name: &str,
    at: u32,
    cells: u32,
) -> Result<LayoutLine, AllocError>
    ensures { IfOk result (λ l. seen_line l ≡ listing.line word name.now at cells) }
{
    Ok(LayoutLine {
        word,
        name: String::from_str(alloc, name)?,
        at,
        cells,
    })
}

// One more line.
fn put(lines: &mut Vec<LayoutLine>, one: LayoutLine) -> Result<(), AllocError>
    ensures { OnOk result (seen_lines lines.new.items ≡
        seen_lines lines.old.items ++ seen_line one ∷ []) }
{
    lines.push(one)?;
    Ok(())
}

// One more line of a name.
fn put_line(
    alloc: Global,
    lines: &mut Vec<LayoutLine>,
    word: u8,
    name: &str,
    at: u32,
    cells: u32,
) -> Result<(), AllocError>
    ensures { OnOk result (seen_lines lines.new.items ≡
        seen_lines lines.old.items ++ listing.line word name.now at cells ∷ []) }
{
    let one = line_of(alloc, word, name, at, cells)?;
    put(lines, one)?;
    Ok(())
}

// The lines of a module's variables.
fn put_variables(
    alloc: Global,
    lines: &mut Vec<LayoutLine>,
    types: &Types,
    variables: &[TVariable],
) -> Result<(), AllocError>
    requires few { length types.now ≤ 2 ^ 32 }
    requires typed { AreTypes types.now }
    ensures { OnOk result (seen_lines lines.new.items ≡ seen_lines lines.old.items
        ++ listing.part_lines 1 0
        (map (listing.variable_part types.now) (map seen_variable variables.now))) }
{
    let mut at = 0;
    for variable in variables {
        let cells = variable_cells(types, variable.of);
        put_line(alloc, lines, VARIABLE, variable.name.as_str(), at, cells)?;
        at = behind(at, cells)?;
    }
    Ok(())
}

// The lines of a module itself, and of its variables.
fn put_module(
    alloc: Global,
    lines: &mut Vec<LayoutLine>,
    types: &Types,
    module: &TModule,
) -> Result<(), AllocError>
    requires few { length types.now ≤ 2 ^ 32 }
    requires typed { AreTypes types.now }
    ensures { OnOk result (seen_lines lines.new.items ≡ seen_lines lines.old.items
        ++ listing.module_lines types.now (seen_module module.now)) }
{
    let cells = variables_cells(types, module.variables.as_slice())?;
    put_line(alloc, lines, MODULE, module.name.as_str(), 0, cells)?;
    put_variables(alloc, lines, types, module.variables.as_slice())?;
    Ok(())
}

// The name with a number.
fn name_at(names: &[String], number: usize) -> Option<&str>
    ensures { option_copied result ≡ slice_get (seen_names names.now) number }
{
    match names.get(number) {
        Some(name) => Some(name.as_str()),
        None => None,
    }
}

// The lines of fields with these names and of these types, of which the first begins at this cell.
fn put_fields(
    alloc: Global,
    lines: &mut Vec<LayoutLine>,
    types: &Types,
    first: u32,
    names: &[String],
    fields: &[TypeId],
) -> Result<(), AllocError>
    requires typed { AreTypes types.now }
    ensures { OnOk result (seen_lines lines.new.items ≡ seen_lines lines.old.items
        ++ listing.part_lines 3 first
        (zip (seen_names names.now) (map (layout.cells types.now) fields.now))) }
{
    let mut at = first;
    for (number, of) in fields.iter().enumerate() {
        let Some(name) = name_at(names, number) else {
            return Ok(());
        };
        let cells = field_cells(types, *of);
        put_line(alloc, lines, FIELD, name, at, cells)?;
        at = behind(at, cells)?;
    }
    Ok(())
}

// The lines of methods.
fn put_methods(
    alloc: Global,
    lines: &mut Vec<LayoutLine>,
    methods: &[TMethod],
) -> Result<(), AllocError>
    ensures { OnOk result (seen_lines lines.new.items ≡ seen_lines lines.old.items
        ++ map listing.method_line (map seen_method methods.now)) }
{
    for method in methods {
        let name = method.procedure.name.as_str();
        put_line(alloc, lines, METHOD, name, method.slot, 0)?;
    }
    Ok(())
}

// The lines of a type that declares these fields, of the fields and of its methods.
fn put_fielded(
    alloc: Global,
    lines: &mut Vec<LayoutLine>,
    types: &Types,
    t: TypeId,
    fields: &[TypeId],
    object: &TObject,
) -> Result<(), AllocError>
    requires typed { AreTypes types.now }
    ensures { OnOk result (seen_lines lines.new.items ≡ seen_lines lines.old.items
        ++ listing.fielded_lines types.now t (seen_object object.now) (Some fields.now)) }
{
    let cells = type_cells(types, t);
    let first = front_cells(types, t);
    put_line(alloc, lines, TYPE, object.name.as_str(), 0, cells)?;
    put_fields(alloc, lines, types, first, object.fields.as_slice(), fields)?;
    put_methods(alloc, lines, object.methods.as_slice())?;
    Ok(())
}

// The lines of a type of the table, if it has fields.
fn put_known(
    alloc: Global,
    lines: &mut Vec<LayoutLine>,
    types: &Types,
    t: TypeId,
    object: &TObject,
) -> Result<(), AllocError>
    requires typed { AreTypes types.now }
    ensures { OnOk result (seen_lines lines.new.items ≡ seen_lines lines.old.items
        ++ listing.fielded_lines types.now t (seen_object object.now)
        (listing.own_fields (table.row_of types.now t))) }
{
    match own_fields(types, t) {
        Some(fields) => {
            put_fielded(alloc, lines, types, t, fields, object)?;
            Ok(())
        }
        None => Ok(()),
    }
}

// The lines of a type of a program.
fn put_numbered(
    alloc: Global,
    lines: &mut Vec<LayoutLine>,
    types: &Types,
    number: u32,
    object: &TObject,
) -> Result<(), AllocError>
    requires few { length types.now ≤ 2 ^ 32 }
    requires typed { AreTypes types.now }
    ensures { OnOk result (seen_lines lines.new.items ≡ seen_lines lines.old.items
        ++ listing.fielded_lines types.now (id_of (Named number)) (seen_object object.now)
        (listing.own_fields (table.row_of types.now (id_of (Named number))))) }
{
    match type_in(types, TType::Named(number)) {
        Some(t) => {
            put_known(alloc, lines, types, t, object)?;
            Ok(())
        }
        None => Ok(()),
    }
}

// Whether a name is one.
#[tactic(auto, using(crate::proofs::Parts::named))]
fn is_named(name: &str) -> bool
    ensures { result ≡ listing.is_named name.now }
{
    !name.is_empty()
}

// The lines of a type of a program, if it has a name.
fn put_type(
    alloc: Global,
    lines: &mut Vec<LayoutLine>,
    types: &Types,
    number: u32,
    object: &TObject,
) -> Result<(), AllocError>
    requires few { length types.now ≤ 2 ^ 32 }
    requires typed { AreTypes types.now }
    ensures { OnOk result (seen_lines lines.new.items ≡ seen_lines lines.old.items
        ++ listing.type_lines types.now number (seen_object object.now)) }
{
    if is_named(object.name.as_str()) {
        put_numbered(alloc, lines, types, number, object)?;
        return Ok(());
    }
    Ok(())
}

// The line of a procedure by this name.
fn put_procedure(
    alloc: Global,
    lines: &mut Vec<LayoutLine>,
    types: &Types,
    name: &str,
    procedure: &TProcedure,
) -> Result<(), AllocError>
    requires few { length types.now ≤ 2 ^ 32 }
    requires typed { AreTypes types.now }
    ensures { OnOk result (seen_lines lines.new.items ≡ seen_lines lines.old.items
        ++ listing.procedure_line types.now name.now (seen_procedure procedure.now) ∷ []) }
{
    let cells = frame_cells(types, procedure)?;
    put_line(alloc, lines, PROCEDURE, name, 0, cells)?;
    Ok(())
}

// The name of a method behind that of its type.
fn method_name(alloc: Global, of: &str, name: &str) -> Result<String, AllocError>
    ensures { IfOk result (λ s. string_bytes s ≡ listing.method_name of.now name.now) }
{
    let mut all = String::from_str(alloc, of)?;
    all.push_str(".")?;
    all.push_str(name)?;
    Ok(all)
}

// The line of a method.
fn put_method(
    alloc: Global,
    lines: &mut Vec<LayoutLine>,
    types: &Types,
    object: &TObject,
    procedure: &TProcedure,
) -> Result<(), AllocError>
    requires few { length types.now ≤ 2 ^ 32 }
    requires typed { AreTypes types.now }
    ensures { OnOk result (seen_lines lines.new.items ≡ seen_lines lines.old.items
        ++ listing.procedure_line types.now
        (listing.method_name (seen_object object.now).name (seen_procedure procedure.now).name)
        (seen_procedure procedure.now) ∷ []) }
{
    let name = method_name(alloc, object.name.as_str(), procedure.name.as_str())?;
    put_procedure(alloc, lines, types, name.as_str(), procedure)?;
    Ok(())
}

// The lines of an entry.
fn put_entry(
    alloc: Global,
    lines: &mut Vec<LayoutLine>,
    types: &Types,
    entry: &Entry<'_>,
) -> Result<(), AllocError>
    requires few { length types.now ≤ 2 ^ 32 }
    requires typed { AreTypes types.now }
    ensures { OnOk result (seen_lines lines.new.items ≡ seen_lines lines.old.items
        ++ listing.entry_lines types.now (seen_entry entry.now)) }
{
    match entry {
        Entry::Module(_, module) => put_module(alloc, lines, types, module),
        Entry::Type(number, object) => put_type(alloc, lines, types, *number, object),
        Entry::Procedure(_, procedure) => {
            put_procedure(alloc, lines, types, procedure.name.as_str(), procedure)
        }
        Entry::Method(object, procedure) => put_method(alloc, lines, types, object, procedure),
    }
}

// The lines of entries in their order.
fn lines_of(
    alloc: Global,
    types: &Types,
    entries: &[Entry<'_>],
) -> Result<Vec<LayoutLine>, AllocError>
    requires few { length types.now ≤ 2 ^ 32 }
    requires typed { AreTypes types.now }
    ensures { IfOk result (λ lines. seen_lines lines.items ≡
        flat_map (listing.entry_lines types.now) (map seen_entry entries.now)) }
{
    let mut lines = Vec::new(alloc);
    for entry in entries {
        put_entry(alloc, &mut lines, types, entry)?;
    }
    Ok(lines)
}

/// The lines that tell how a well-typed program is laid out: its modules in load order; of each its variables, its types with their
/// fields and methods, and its procedures and methods, each of these in the order of the text. Records and object types that have a
/// name are told, and of their fields and methods those that they declare themselves.
pub fn layout_lines(alloc: Global, program: &Program) -> Result<Vec<LayoutLine>, NoMemory>
    requires few { length program.now.modules.items ≤ 64 }
    requires few_types { length program.now.objects.items ≤ 2 ^ 26 }
    requires typed { IsWellTyped (seen_program program.now) }
    ensures { IfOk result (λ lines.
        map seen_line lines.items ≡ listing.listing (seen_program program.now)) }
{
    let mut entries = entries_of(alloc, program)?;
    entries.sort_by_key(|one| place_of(one))?;
    let lines = lines_of(alloc, &program.types, &entries)?;
    Ok(lines)
}
