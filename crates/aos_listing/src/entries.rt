// What the lines of a program are of, and where they stand.

ghost use Rattle.std.specs.Prelude.{◌≡◌, ◌<◌, ◌≤◌, ◌+◌, ◌*◌, ◌^◌, ◌++◌, ◌∷◌, [], length, map, IfOk, OnOk};
ghost use Rattle.aos_typed.specs.Seen.{seen_method, seen_module, seen_object, seen_procedure, seen_program};
ghost use Rattle.aos_listing.specs.Listing as listing;
ghost use Rattle.aos_listing.specs.Seen.{seen_entries, seen_entry};

use aos_base::Pos;
use aos_typed::{Program, TMethod, TModule, TObject, TProcedure};
use std::alloc::{AllocError, Global};

/// What lines are of: a module with its variables, by its number in load order; what stands beside a type, by the type's number in
/// the program; a procedure, by the number of its module; or a method, with what stands beside its type.
#[derive(Drop)]
pub enum Entry<'a> {
    Module(u32, &'a TModule),
    Type(u32, &'a TObject),
    Procedure(u32, &'a TProcedure),
    Method(&'a TObject, &'a TProcedure),
}

// One more.
fn put<'a>(all: &mut Vec<Entry<'a>>, one: Entry<'a>) -> Result<(), AllocError>
    ensures { OnOk result (seen_entries all.new.items ≡
        seen_entries all.old.items ++ seen_entry one.entry ∷ []) }
{
    all.push(one)?;
    Ok(())
}

// The procedures of the module with this number.
fn put_procedures<'a>(
    all: &mut Vec<Entry<'a>>,
    home: u32,
    procedures: &'a [TProcedure],
) -> Result<(), AllocError>
    ensures { OnOk result (seen_entries all.new.items ≡ seen_entries all.old.items
        ++ map (listing.OfProcedure home) (map seen_procedure procedures.now)) }
{
    for procedure in procedures {
        put(all, Entry::Procedure(home, procedure))?;
    }
    Ok(())
}

// Methods of a type.
fn put_methods<'a>(
    all: &mut Vec<Entry<'a>>,
    object: &'a TObject,
    methods: &'a [TMethod],
) -> Result<(), AllocError>
    ensures { OnOk result (seen_entries all.new.items ≡ seen_entries all.old.items
        ++ map (λ m. listing.OfMethod (seen_object object.now) m.procedure)
        (map seen_method methods.now)) }
{
    for method in methods {
        put(all, Entry::Method(object, &method.procedure))?;
    }
    Ok(())
}

// A module, and its procedures.
fn put_module<'a>(
    all: &mut Vec<Entry<'a>>,
    number: u32,
    module: &'a TModule,
) -> Result<(), AllocError>
    ensures { OnOk result (seen_entries all.new.items ≡
        seen_entries all.old.items ++ listing.module_entries number (seen_module module.now)) }
{
    put(all, Entry::Module(number, module))?;
    put_procedures(all, number, module.procedures.as_slice())?;
    Ok(())
}

// What stands beside a type, and the methods there.
fn put_type<'a>(
    all: &mut Vec<Entry<'a>>,
    number: u32,
    object: &'a TObject,
) -> Result<(), AllocError>
    ensures { OnOk result (seen_entries all.new.items ≡
        seen_entries all.old.items ++ listing.type_entries number (seen_object object.now)) }
{
    put(all, Entry::Type(number, object))?;
    put_methods(all, object, object.methods.as_slice())?;
    Ok(())
}

// All modules.
fn put_modules<'a>(all: &mut Vec<Entry<'a>>, modules: &'a [TModule]) -> Result<(), AllocError>
    requires few { length modules.now ≤ 64 }
    ensures { OnOk result (seen_entries all.new.items ≡ seen_entries all.old.items
        ++ listing.numbered listing.module_entries 0 (map seen_module modules.now)) }
{
    let mut number = 0;
    for module in modules {
        put_module(all, number, module)?;
        number += 1;
    }
    Ok(())
}

// What stands beside all types.
fn put_types<'a>(all: &mut Vec<Entry<'a>>, objects: &'a [TObject]) -> Result<(), AllocError>
    requires few { length objects.now ≤ 2 ^ 26 }
    ensures { OnOk result (seen_entries all.new.items ≡ seen_entries all.old.items
        ++ listing.numbered listing.type_entries 0 (map seen_object objects.now)) }
{
    let mut number = 0;
    for object in objects {
        put_type(all, number, object)?;
        number += 1;
    }
    Ok(())
}

/// What the lines of a program are of.
pub fn entries_of(alloc: Global, program: &Program) -> Result<Vec<Entry<'_>>, AllocError>
    requires few { length program.now.modules.items ≤ 64 }
    requires few_types { length program.now.objects.items ≤ 2 ^ 26 }
    ensures { IfOk result (λ all.
        seen_entries all.items ≡ listing.entries (seen_program program.now)) }
{
    let mut all = Vec::new(alloc);
    put_modules(&mut all, program.modules.as_slice())?;
    put_types(&mut all, program.objects.as_slice())?;
    Ok(all)
}

// A group of a module's lines, as one number.
fn with_group(home: u32, group: u32) -> u64
    ensures { result ≡ home * 4 + group }
{
    let before = u64::from(home) * 4;
    before + u64::from(group)
}

// A line of the text of such a group.
fn with_line(group: u64, line: u32) -> u128
    ensures number { result ≡ group * 4294967296 + line }
    ensures below { result < 79228162514264337593543950336 }
{
    let before = u128::from(group) * 4294967296;
    before + u128::from(line)
}

// A column of such a line.
fn with_column(line: u128, col: u32) -> u128
    requires below { line < 79228162514264337593543950336 }
    ensures { result ≡ line * 4294967296 + col }
{
    let before = line * 4294967296;
    before + u128::from(col)
}

// Where a name stands in a group of a module's lines.
fn place(home: u32, group: u32, at: Pos) -> u128
    ensures { result ≡ listing.place home group at }
{
    with_column(with_line(with_group(home, group), at.line), at.col)
}

/// Where lines come in the order.
pub fn place_of(entry: &Entry<'_>) -> u128
    ensures { result ≡ listing.place_of (seen_entry entry.now) }
{
    match entry {
        Entry::Module(number, _) => place(*number, 0, Pos { line: 0, col: 0 }),
        Entry::Type(_, object) => place(object.home, 1, object.at),
        Entry::Procedure(home, procedure) => place(*home, 2, procedure.at),
        Entry::Method(object, procedure) => place(object.home, 2, procedure.at),
    }
}
