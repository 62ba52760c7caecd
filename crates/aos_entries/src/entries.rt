// The scopes of a module, as its declarations make them.

ghost use Rattle.std.specs.Prelude.{◌≡◌, ◌≤◌, ◌<◌, ◌^◌, ◌+◌, ◌++◌, ◌∷◌, [], suc, length, fold, map, IfOk, OnOk};
ghost use Rattle.std.specs.List.{flat_map};
ghost use Rattle.aos_symbols.specs.Declarations as declarations;
ghost use Rattle.aos_entries.specs.Entries as entries;
ghost use Rattle.aos_symbols.specs.Scope as names;
ghost use Rattle.aos_entries.specs.declared.entries.Sort.TheVariants as sort;

use crate::declarations::inner_decls;
use aos_base::NoMemory;
use aos_symbols::{Entry, Home, Meaning, ObjectScope, Scope, word};
use aos_tree::{
    ConstDef, Decl, Def, Export, Formals, Import, Module, Name, TypeDef, TypeExpr, VarDef,
};
use aos_types::TypeId;
use indexmap::IndexMap;
use std::alloc::{AllocError, Global};

/// How many declarations of one sort can be told apart by their numbers.
const MOST_NUMBERS: usize = 4_294_967_296;

/// A sort of declarations that are numbered in their scope.
#[derive(Clone, Copy)]
pub enum Sort {
    Constant,
    Variable,
    Procedure,
}

fn meant(of: Sort, number: u32) -> Meaning
    ensures { result ≡ entries.meant of number }
{
    match of {
        Sort::Constant => Meaning::Constant(number),
        Sort::Variable => Meaning::Variable(number),
        Sort::Procedure => Meaning::Procedure(number),
    }
}

fn export_of(def: &Def) -> Option<Export>
    ensures { result ≡ entries.export_of def.now }
{
    match def.mark {
        Some(mark) => Some(mark.export),
        None => None,
    }
}

/// The module that an import names, by its word.
#[tactic(auto, using(crate::proofs::Entered::among_step, crate::proofs::Entered::among_end))]
fn module_named(homes: &[Home<'_>], word: &[u8]) -> Meaning
    requires { length homes.now ≤ 2 ^ 32 }
    ensures { result ≡ entries.module_named homes.now word.now }
{
    if "Out".as_bytes() == word {
        return Meaning::Out;
    }
    for (number, home) in homes.iter().enumerate() {
        if word == home.name() {
            return Meaning::Module(number as u32);
        }
    }
    Meaning::Other
}

fn add_all(all: &mut Vec<Def>, defs: &[Def]) -> Result<(), AllocError>
    ensures { OnOk result (all.new.items ≡ all.old.items ++ defs.now) }
{
    for def in defs {
        all.push(*def)?;
    }
    Ok(())
}

fn add_constants(all: &mut Vec<Def>, defs: &[ConstDef]) -> Result<(), AllocError>
    ensures { OnOk result (all.new.items ≡ all.old.items ++ map (λ c. c.def) defs.now) }
{
    for def in defs {
        all.push(def.def)?;
    }
    Ok(())
}

fn add_variables(all: &mut Vec<Def>, defs: &[VarDef]) -> Result<(), AllocError>
    ensures { OnOk result (all.new.items ≡ all.old.items ++ flat_map (λ v. v.defs) defs.now) }
{
    for def in defs {
        add_all(all, def.defs.as_slice())?;
    }
    Ok(())
}

fn constants_of(alloc: Global, decls: &[Decl]) -> Result<Vec<Def>, AllocError>
    ensures { IfOk result (λ defs. defs.items ≡ declarations.constant_defs decls.now) }
{
    let mut all = Vec::new(alloc);
    for decl in decls {
        if let Decl::Consts(_, defs) = decl {
            add_constants(&mut all, defs.as_slice())?;
        }
    }
    Ok(all)
}

fn add_variables_of(all: &mut Vec<Def>, decls: &[Decl]) -> Result<(), AllocError>
    ensures { OnOk result
        (all.new.items ≡ all.old.items ++ declarations.single_variables decls.now) }
{
    for decl in decls {
        if let Decl::Vars(_, defs) = decl {
            add_variables(all, defs.as_slice())?;
        }
    }
    Ok(())
}

fn variables_of(alloc: Global, decls: &[Decl]) -> Result<Vec<Def>, AllocError>
    ensures { IfOk result (λ defs. defs.items ≡ declarations.single_variables decls.now) }
{
    let mut all = Vec::new(alloc);
    add_variables_of(&mut all, decls)?;
    Ok(all)
}

fn procedures_of(alloc: Global, decls: &[Decl]) -> Result<Vec<Def>, AllocError>
    ensures { IfOk result (λ defs. defs.items ≡ declarations.procedure_defs decls.now) }
{
    let mut all = Vec::new(alloc);
    for decl in decls {
        if let Decl::Proc(proc) = decl {
            all.push(proc.outline.get().def)?;
        }
    }
    Ok(all)
}

/// Declares a name that stands for this, with its mark; one that is there stays as it is.
pub fn declare<'a>(
    scope: &mut Scope<'a>,
    text: &'a [u8],
    def: &Def,
    means: Meaning,
) -> Result<(), AllocError>
    ensures { OnOk result
        (scope.new ≡ names.with_name scope.old (entries.entry text.now def.now means)) }
{
    let mark = export_of(def);
    scope.declare(word(text, def.name), Entry { mark, means })?;
    Ok(())
}

/// Declares names in turn, numbered from 0.
#[tactic(auto, using(crate::proofs::Entered::numbered_step, crate::proofs::Entered::numbered_end))]
fn declare_numbered<'a>(
    scope: &mut Scope<'a>,
    text: &'a [u8],
    of: Sort,
    defs: &[Def],
) -> Result<(), NoMemory>
    ensures { OnOk result
        (scope.new ≡ names.with_names scope.old (entries.numbered text.now of 0 defs.now)) }
{
    if defs.len() > MOST_NUMBERS {
        return Err(NoMemory);
    }
    for (number, def) in defs.iter().enumerate() {
        declare(scope, text, def, meant(of, number as u32))?;
    }
    Ok(())
}

/// The number of the type with a place among the numbers.
fn number_at(numbers: &[Option<TypeId>], place: usize) -> Option<TypeId>
    ensures { result ≡ entries.number_at numbers.now place }
{
    numbers.get(place).copied().unwrap_or(None)
}

/// Declares the names of types in turn, of which the first has this place among the numbers.
#[tactic(auto, using(crate::proofs::Entered::types_step, crate::proofs::Entered::types_end))]
fn declare_types<'a>(
    scope: &mut Scope<'a>,
    place: &mut usize,
    text: &'a [u8],
    numbers: &[Option<TypeId>],
    defs: &[TypeDef],
) -> Result<(), NoMemory>
    ensures names { OnOk result (scope.new ≡
        names.with_names scope.old (entries.types_from text.now numbers.now place.old defs.now)) }
    ensures place { OnOk result (place.new ≡ place.old + length defs.now) }
{
    for def in defs {
        let means = Meaning::Type(number_at(numbers, *place));
        declare(scope, text, &def.def, means)?;
        let Some(next) = place.checked_add(1) else {
            return Err(NoMemory);
        };
        *place = next;
    }
    Ok(())
}

fn declare_types_in<'a>(
    scope: &mut Scope<'a>,
    place: &mut usize,
    text: &'a [u8],
    numbers: &[Option<TypeId>],
    decl: &Decl,
) -> Result<(), NoMemory>
    ensures names { OnOk result (scope.new ≡ names.with_names scope.old
        (entries.types_from text.now numbers.now place.old (declarations.types_in decl.now))) }
    ensures place { OnOk result (place.new ≡
        place.old + length (declarations.types_in decl.now)) }
{
    match decl {
        Decl::Types(_, defs) => declare_types(scope, place, text, numbers, defs.as_slice()),
        _ => Ok(()),
    }
}

/// Declares the names of all types of declarations, of which the first has this place among the numbers.
#[tactic(auto, using(crate::proofs::Entered::decls_step, crate::proofs::Entered::decls_end, crate::proofs::Entered::count_step))]
fn declare_all_types<'a>(
    scope: &mut Scope<'a>,
    place: &mut usize,
    text: &'a [u8],
    numbers: &[Option<TypeId>],
    decls: &[Decl],
) -> Result<(), NoMemory>
    ensures names { OnOk result (scope.new ≡ names.with_names scope.old
        (entries.types_from text.now numbers.now place.old (declarations.type_defs decls.now))) }
    ensures place { OnOk result (place.new ≡
        place.old + length (declarations.type_defs decls.now)) }
{
    for decl in decls {
        declare_types_in(scope, place, text, numbers, decl)?;
    }
    Ok(())
}

/// Declares the names of imports in turn.
#[tactic(auto, using(crate::proofs::Entered::mapped_step, crate::proofs::Entered::mapped_end))]
fn declare_imports<'a>(
    scope: &mut Scope<'a>,
    homes: &[Home<'_>],
    text: &'a [u8],
    imports: &[Import],
) -> Result<(), AllocError>
    requires { length homes.now ≤ 2 ^ 32 }
    ensures { OnOk result (scope.new ≡
        names.with_names scope.old (map (entries.import_entry text.now homes.now) imports.now)) }
{
    for import in imports {
        let of = word(text, import.of.unwrap_or(import.name));
        let means = module_named(homes, of);
        scope.declare(word(text, import.name), Entry { mark: None, means })?;
    }
    Ok(())
}

/// Declares the names of the constants of declarations.
fn declare_constants<'a>(
    alloc: Global,
    scope: &mut Scope<'a>,
    text: &'a [u8],
    decls: &[Decl],
) -> Result<(), NoMemory>
    ensures { OnOk result (scope.new ≡ names.with_names scope.old
        (entries.numbered text.now sort.Constant 0 (declarations.constant_defs decls.now))) }
{
    let constants = constants_of(alloc, decls)?;
    declare_numbered(scope, text, Sort::Constant, &constants)
}

/// Declares the names of declarations but those of types.
fn declare_others<'a>(
    alloc: Global,
    scope: &mut Scope<'a>,
    text: &'a [u8],
    decls: &[Decl],
) -> Result<(), NoMemory>
    ensures { OnOk result (scope.new ≡
        names.with_names scope.old (entries.other_entries text.now decls.now)) }
{
    declare_constants(alloc, scope, text, decls)?;
    let variables = variables_of(alloc, decls)?;
    declare_numbered(scope, text, Sort::Variable, &variables)?;
    let procedures = procedures_of(alloc, decls)?;
    declare_numbered(scope, text, Sort::Procedure, &procedures)
}

/// A module's own scope.
fn own_scope<'a>(
    alloc: Global,
    homes: &[Home<'_>],
    place: &mut usize,
    text: &'a [u8],
    numbers: &[Option<TypeId>],
    tree: &Module,
) -> Result<Scope<'a>, NoMemory>
    requires few { length homes.now ≤ 2 ^ 32 }
    requires first { place.old ≡ 0 }
    ensures scope { IfOk result (λ s. s ≡
        entries.own_scope text.now homes.now numbers.now tree.now) }
    ensures place { OnOk result (place.new ≡ length (declarations.type_defs tree.now.decls)) }
{
    let decls = tree.decls.as_slice();
    let mut scope = Scope::new(alloc);
    declare_imports(&mut scope, homes, text, tree.imports.as_slice())?;
    declare_all_types(&mut scope, place, text, numbers, decls)?;
    declare_others(alloc, &mut scope, text, decls)?;
    Ok(scope)
}

fn add_unmarked(all: &mut Vec<Def>, names: &[Name]) -> Result<(), AllocError>
    ensures { OnOk result (all.new.items ≡ all.old.items ++ map entries.unmarked names.now) }
{
    for name in names {
        all.push(Def {
            name: *name,
            mark: None,
        })?;
    }
    Ok(())
}

fn parameters_of(alloc: Global, formals: &Option<Formals>) -> Result<Vec<Def>, AllocError>
    ensures { IfOk result (λ defs. defs.items ≡
        map entries.unmarked (declarations.formal_names formals.now)) }
{
    let mut all = Vec::new(alloc);
    let Some(formals) = formals else {
        return Ok(all);
    };
    for section in formals.sections.as_slice() {
        add_unmarked(&mut all, section.names.as_slice())?;
    }
    Ok(all)
}

/// The names of parameters, and behind them those of locals.
fn locals_of(
    alloc: Global,
    formals: &Option<Formals>,
    decls: &[Decl],
) -> Result<Vec<Def>, AllocError>
    ensures { IfOk result (λ defs. defs.items ≡
        map entries.unmarked (declarations.formal_names formals.now)
        ++ declarations.single_variables decls.now) }
{
    let mut all = parameters_of(alloc, formals)?;
    add_variables_of(&mut all, decls)?;
    Ok(all)
}

/// The scope of a procedure, whose first type has this place among the numbers.
fn procedure_scope<'a>(
    alloc: Global,
    place: &mut usize,
    text: &'a [u8],
    numbers: &[Option<TypeId>],
    formals: &Option<Formals>,
    decls: &[Decl],
) -> Result<Scope<'a>, NoMemory>
    ensures scope { IfOk result (λ s. s ≡
        entries.procedure_scope text.now numbers.now place.old formals.now decls.now) }
    ensures place { OnOk result (place.new ≡
        place.old + length (declarations.type_defs decls.now)) }
{
    let mut scope = Scope::new(alloc);
    declare_all_types(&mut scope, place, text, numbers, decls)?;
    declare_constants(alloc, &mut scope, text, decls)?;
    let variables = locals_of(alloc, formals, decls)?;
    declare_numbered(&mut scope, text, Sort::Variable, &variables)?;
    Ok(scope)
}

/// The scope of a type that a module defines, whose first type has this place among the numbers.
fn inner_scope<'a>(
    alloc: Global,
    place: &mut usize,
    text: &'a [u8],
    numbers: &[Option<TypeId>],
    decls: &[Decl],
) -> Result<Scope<'a>, NoMemory>
    ensures scope { IfOk result (λ s. s ≡
        entries.inner_scope text.now numbers.now place.old decls.now) }
    ensures place { OnOk result (place.new ≡
        place.old + length (declarations.type_defs decls.now)) }
{
    let mut scope = Scope::new(alloc);
    declare_all_types(&mut scope, place, text, numbers, decls)?;
    declare_others(alloc, &mut scope, text, decls)?;
    Ok(scope)
}

fn add_scope<'a>(scopes: &mut Vec<Scope<'a>>, scope: Scope<'a>) -> Result<(), AllocError>
    ensures { OnOk result (scopes.new.items ≡ scopes.old.items ++ scope.entry ∷ []) }
{
    scopes.push(scope)?;
    Ok(())
}

/// The scopes of types that a module defines, of which the first type of the first has this place among the numbers.
#[tactic(auto, using(crate::proofs::Entered::inner_on, crate::proofs::Entered::inner_count, crate::proofs::Entered::inner_end, crate::proofs::Entered::inner_none))]
fn add_inner_scopes<'a>(
    alloc: Global,
    scopes: &mut Vec<Scope<'a>>,
    place: &mut usize,
    text: &'a [u8],
    numbers: &[Option<TypeId>],
    defs: &[TypeDef],
) -> Result<(), NoMemory>
    ensures scopes { OnOk result (scopes.new.items ≡
        scopes.old.items ++ entries.inner_scopes text.now numbers.now place.old defs.now) }
    ensures place { OnOk result (place.new ≡
        place.old + length (declarations.inner_types defs.now)) }
{
    for def in defs {
        let scope = inner_scope(alloc, place, text, numbers, inner_decls(&def.value))?;
        add_scope(scopes, scope)?;
    }
    Ok(())
}

/// The same of the types that a declaration defines.
fn add_inner_scopes_in<'a>(
    alloc: Global,
    scopes: &mut Vec<Scope<'a>>,
    place: &mut usize,
    text: &'a [u8],
    numbers: &[Option<TypeId>],
    decl: &Decl,
) -> Result<(), NoMemory>
    ensures scopes { OnOk result (scopes.new.items ≡ scopes.old.items
        ++ entries.inner_scopes text.now numbers.now place.old (declarations.types_in decl.now)) }
    ensures place { OnOk result (place.new ≡
        place.old + length (declarations.inner_types (declarations.types_in decl.now))) }
{
    match decl {
        Decl::Types(_, defs) => {
            add_inner_scopes(alloc, scopes, place, text, numbers, defs.as_slice())
        },
        _ => Ok(()),
    }
}

/// The same of all types that a module's own declarations define.
#[tactic(auto, using(crate::proofs::Entered::decl_inner_on, crate::proofs::Entered::decl_inner_count, crate::proofs::Entered::decl_inner_end, crate::proofs::Entered::decl_inner_none))]
fn add_all_inner_scopes<'a>(
    alloc: Global,
    scopes: &mut Vec<Scope<'a>>,
    place: &mut usize,
    text: &'a [u8],
    numbers: &[Option<TypeId>],
    decls: &[Decl],
) -> Result<(), NoMemory>
    ensures scopes { OnOk result (scopes.new.items ≡ scopes.old.items
        ++ entries.inner_scopes text.now numbers.now place.old (declarations.type_defs decls.now)) }
    ensures place { OnOk result (place.new ≡
        place.old + length (declarations.inner_types (declarations.type_defs decls.now))) }
{
    for decl in decls {
        add_inner_scopes_in(alloc, scopes, place, text, numbers, decl)?;
    }
    Ok(())
}

/// The scopes of the procedures of declarations, of which the first type of the first has this place among the numbers.
fn add_procedure_scopes<'a>(
    alloc: Global,
    scopes: &mut Vec<Scope<'a>>,
    place: &mut usize,
    text: &'a [u8],
    numbers: &[Option<TypeId>],
    decls: &[Decl],
) -> Result<(), NoMemory>
    ensures scopes { OnOk result (scopes.new.items ≡ scopes.old.items ++
        entries.procedure_scopes text.now numbers.now place.old
        (declarations.procedures decls.now)) }
    ensures place { OnOk result (place.new ≡
        place.old + length (declarations.local_types (declarations.procedures decls.now))) }
{
    for decl in decls {
        if let Decl::Proc(proc) = decl {
            let formals = &proc.outline.get().formals;
            let decls = proc.decls.as_slice();
            let scope = procedure_scope(alloc, place, text, numbers, formals, decls)?;
            add_scope(scopes, scope)?;
        }
    }
    Ok(())
}

/// The same of the methods that types declare.
#[tactic(auto, using(crate::proofs::Entered::methods_on, crate::proofs::Entered::methods_end, crate::proofs::Entered::method_count))]
fn add_method_scopes<'a>(
    alloc: Global,
    scopes: &mut Vec<Scope<'a>>,
    place: &mut usize,
    text: &'a [u8],
    numbers: &[Option<TypeId>],
    defs: &[TypeDef],
) -> Result<(), NoMemory>
    ensures scopes { OnOk result (scopes.new.items ≡ scopes.old.items ++ entries.procedure_scopes
        text.now numbers.now place.old (flat_map declarations.methods_in defs.now)) }
    ensures place { OnOk result (place.new ≡
        place.old + length (declarations.local_types (flat_map declarations.methods_in defs.now))) }
{
    for def in defs {
        let decls = inner_decls(&def.value);
        add_procedure_scopes(alloc, scopes, place, text, numbers, decls)?;
    }
    Ok(())
}

/// The same of the methods of the types that a declaration defines.
fn add_method_scopes_in<'a>(
    alloc: Global,
    scopes: &mut Vec<Scope<'a>>,
    place: &mut usize,
    text: &'a [u8],
    numbers: &[Option<TypeId>],
    decl: &Decl,
) -> Result<(), NoMemory>
    ensures scopes { OnOk result (scopes.new.items ≡ scopes.old.items ++ entries.procedure_scopes
        text.now numbers.now place.old
        (flat_map declarations.methods_in (declarations.types_in decl.now))) }
    ensures place { OnOk result (place.new ≡ place.old + length (declarations.local_types
        (flat_map declarations.methods_in (declarations.types_in decl.now)))) }
{
    match decl {
        Decl::Types(_, defs) => {
            add_method_scopes(alloc, scopes, place, text, numbers, defs.as_slice())
        },
        _ => Ok(()),
    }
}

/// The same of all procedures of a module, and behind them the methods of its types.
#[tactic(auto, using(crate::proofs::Entered::decl_methods_on, crate::proofs::Entered::decl_methods_end, crate::proofs::Entered::all_scopes))]
fn add_all_scopes<'a>(
    alloc: Global,
    scopes: &mut Vec<Scope<'a>>,
    first: usize,
    text: &'a [u8],
    numbers: &[Option<TypeId>],
    decls: &[Decl],
) -> Result<(), NoMemory>
    ensures { OnOk result (scopes.new.items ≡ scopes.old.items ++
        entries.procedure_scopes text.now numbers.now first
        (declarations.all_procedures decls.now)) }
{
    let mut place = first;
    add_procedure_scopes(alloc, scopes, &mut place, text, numbers, decls)?;
    for decl in decls {
        add_method_scopes_in(alloc, scopes, &mut place, text, numbers, decl)?;
    }
    Ok(())
}

/// How many procedures declarations declare. 2^32 and more are want of memory.
fn count_procedures(decls: &[Decl]) -> Result<u32, NoMemory>
    ensures { IfOk result (λ n. n ≡ length (declarations.procedures decls.now)) }
{
    let mut count: u32 = 0;
    for decl in decls {
        if let Decl::Proc(_) = decl {
            count = more_of(count, 1)?;
        }
    }
    Ok(count)
}

/// So many, and as many more.
fn more_of(count: u32, more: u32) -> Result<u32, NoMemory>
    ensures { IfOk result (λ n. n ≡ count + more) }
{
    match count.checked_add(more) {
        Some(count) => Ok(count),
        None => Err(NoMemory),
    }
}

/// The place of the first initializer among the procedures of declarations. One of 2^32 and more is want of memory.
#[tactic(auto, using(crate::proofs::Rows::whole_procedure))]
fn initial_of(decls: &[Decl]) -> Result<Option<u32>, NoMemory>
    ensures { IfOk result (λ k. k ≡ entries.initial_of decls.now) }
{
    let mut place: u32 = 0;
    for decl in decls {
        if let Decl::Proc(proc) = decl {
            if proc.outline.get().initializer.is_some() {
                return Ok(Some(place));
            }
            place = more_of(place, 1)?;
        }
    }
    Ok(None)
}

/// Puts the object type that a definition writes behind these: in a module with this number, at this place among the definitions, with
/// so many signatures before those of its methods.
fn add_object(
    objects: &mut IndexMap<u32, ObjectScope>,
    home: u32,
    place: u32,
    methods: u32,
    number: Option<TypeId>,
    of: &TypeExpr,
) -> Result<(), NoMemory>
    ensures { OnOk result (objects.new.entries ≡
        entries.with_object home place methods number of.now objects.old.entries) }
{
    let Some(number) = number else {
        return Ok(());
    };
    let TypeExpr::Object(_, _, decls, _, _) = of else {
        return Ok(());
    };
    let object = ObjectScope {
        home,
        scope: more_of(place, 1)?,
        methods,
        initial: initial_of(decls.as_slice())?,
    };
    match objects.insert(number.0, object) {
        Ok(_) => Ok(()),
        Err(e) => Err(AllocError::from(e).into()),
    }
}

/// The same of definitions in turn.
fn add_objects(
    objects: &mut IndexMap<u32, ObjectScope>,
    home: u32,
    place: &mut u32,
    methods: &mut u32,
    numbers: &[Option<TypeId>],
    defs: &[TypeDef],
) -> Result<(), NoMemory>
    ensures objects { OnOk result (objects.new.entries ≡
        (fold (entries.next_object home numbers.now)
        (entries.numbered_objects place.old methods.old objects.old.entries) defs.now).all) }
    ensures place { OnOk result (place.new ≡ (fold (entries.next_object home numbers.now)
        (entries.numbered_objects place.old methods.old objects.old.entries) defs.now).place) }
    ensures methods { OnOk result (methods.new ≡ (fold (entries.next_object home numbers.now)
        (entries.numbered_objects place.old methods.old objects.old.entries) defs.now).methods) }
{
    for def in defs {
        let number = number_at(numbers, *place as usize);
        add_object(objects, home, *place, *methods, number, &def.value)?;
        *place = more_of(*place, 1)?;
        *methods = more_of(*methods, count_procedures(inner_decls(&def.value))?)?;
    }
    Ok(())
}

/// The object types that a module with this number declares, by the types' numbers.
fn objects_of(
    alloc: Global,
    home: u32,
    numbers: &[Option<TypeId>],
    decls: &[Decl],
) -> Result<IndexMap<u32, ObjectScope>, NoMemory>
    ensures { IfOk result (λ os. os.entries ≡ entries.objects_of home numbers.now decls.now) }
{
    let mut objects = IndexMap::new(alloc);
    let mut place: u32 = 0;
    let mut methods = count_procedures(decls)?;
    for decl in decls {
        if let Decl::Types(_, defs) = decl {
            let defs = defs.as_slice();
            add_objects(&mut objects, home, &mut place, &mut methods, numbers, defs)?;
        }
    }
    Ok(objects)
}

/// The scopes of a module, and the number of the first one of a procedure.
#[tactic(auto, using(crate::proofs::Entered::inner_long))]
fn scopes_of<'a>(
    alloc: Global,
    homes: &[Home<'_>],
    numbers: &[Option<TypeId>],
    text: &'a [u8],
    tree: &Module,
) -> Result<(Vec<Scope<'a>>, usize), NoMemory>
    requires { length homes.now < 2 ^ 32 }
    ensures scopes { IfOk result (λ r. r.0.items ≡
        entries.scopes text.now homes.now numbers.now tree.now) }
    ensures first { IfOk result (λ r. r.1 ≡ suc (length (declarations.type_defs tree.now.decls))) }
{
    let decls = tree.decls.as_slice();
    let mut place = 0;
    let own = own_scope(alloc, homes, &mut place, text, numbers, tree)?;
    let mut scopes = Vec::new(alloc);
    add_scope(&mut scopes, own)?;
    add_all_inner_scopes(alloc, &mut scopes, &mut place, text, numbers, decls)?;
    let first = scopes.len();
    add_all_scopes(alloc, &mut scopes, place, text, numbers, decls)?;
    Ok((scopes, first))
}

/// What a module declares, before any of its declarations is looked at: its scopes, in a module that comes behind these in load
/// order, where the types that its declarations define have these numbers. Of more than 2^32 declarations of one sort it is
/// want of memory: no text that is compiled has as many.
pub fn home_of<'a>(
    alloc: Global,
    homes: &[Home<'_>],
    numbers: &[Option<TypeId>],
    text: &'a [u8],
    tree: &Module,
) -> Result<Home<'a>, NoMemory>
    requires { length homes.now < 2 ^ 32 }
    ensures { IfOk result (λ h. h ≡ entries.home_of text.now homes.now numbers.now tree.now) }
{
    let (scopes, first) = scopes_of(alloc, homes, numbers, text, tree)?;
    let objects = objects_of(alloc, homes.len() as u32, numbers, tree.decls.as_slice())?;
    let (name, strings) = (word(text, tree.name), tree.strings.as_slice());
    Ok(Home::new(alloc, name, text, strings, scopes, first, objects)?)
}
