// Modules in load order, each in three passes.

ghost use Rattle.std.specs.Prelude.{◌≡◌, ◌≤◌, ◌^◌, ◌+◌, ◌++◌, [], None, length, map, slice_get, IfOk, IfErr, OnOk};
ghost use Rattle.std.specs.List.{zip};
ghost use Rattle.std.specs.Option.{option_copied};
ghost use Rattle.std.specs.String.{string_bytes};
ghost use Rattle.aos_types.specs.declared.row.TypeRow.TheVariants as row;
ghost use Rattle.aos_typed.specs.Seen.{seen_stat, seen_stats, seen_body, seen_method, seen_module, seen_object, seen_parameter, seen_procedure, seen_program, seen_variable};
ghost use Rattle.aos_symbols.specs.Breaches.{first};
ghost use Rattle.aos_symbols.specs.Judged.{judged};
ghost use Rattle.aos_symbols.specs.Outcome.{went, refused, passed, refusal_of};
ghost use Rattle.aos_check_names.specs.Names.{name_breaches};
ghost use Rattle.aos_symbols.specs.Declarations.{single_variables};
ghost use Rattle.aos_symbols.specs.Home.{texts_of as texts_in};
ghost use Rattle.aos_arguments.specs.Filled.{filled_texts};
ghost use Rattle.aos_symbols.specs.Env as env_of;
ghost use Rattle.aos_reading.specs.declared.compile_err.CompileErr.TheVariants as err;
ghost use Rattle.aos_reading.specs.Sources.{OnRefused};
ghost use Rattle.aos_variables.specs.Parts as parts;
ghost use Rattle.aos_compile.specs.Modules as judge;
ghost use Rattle.aos_compile.specs.Seen.{seen_world, seen_parts, seen_programs, seen_beside, seen_bodies};

use crate::objects::{Beside, Bodies, bodies_of};
use crate::procedures::{is_exclusive_body, module_procedures};
use aos_base::{NoMemory, Pos, Refusal};
use aos_check_decl::declare;
use aos_check_names::check_names;
use aos_known::type_of;
use aos_reading::CompileErr;
use aos_symbols::{Breach, Env, Home};
use aos_tree::{Items, Module};
use aos_typed::{Program, TMethod, TModule, TObject, TParameter, TProcedure, TStat, TVariable};
use aos_types::{Basic, TypeId, TypeRow, Types};
use aos_variables::{number_at, spelling_of, texts_of, variables_of};
use std::alloc::{AllocError, Global};

/// The basic types, in the order of their numbers; ANY and the type of string constants stand behind them.
const BASIC_TYPES: [Basic; 8] = [
    Basic::ShortInt,
    Basic::Integer,
    Basic::LongInt,
    Basic::HugeInt,
    Basic::Boolean,
    Basic::Char,
    Basic::Set,
    Basic::Nil,
];

/// The types that are predeclared stand before all others in the table.
const PREDECLARED_TYPES: u32 = 10;

/// The modules that are elaborated, in load order: what they declare, the types of all, and their part of the typed program.
#[derive(Drop)]
pub struct World<'a> {
    pub before: Items<Home<'a>>,
    pub types: Types,
    pub modules: Vec<TModule>,
    pub objects: Vec<TObject>,
}

fn add_basic(types: &mut Types, basic: &[Basic]) -> Result<(), NoMemory>
    requires { length types.old + length basic.now ≤ 2 ^ 32 }
    ensures { OnOk result (types.new ≡ types.old ++ map (λ b. row.Basic b) basic.now) }
{
    for of in basic {
        types.add(TypeRow::Basic(*of))?;
    }
    Ok(())
}

/// Puts the types that are predeclared into a table that is empty.
fn add_predeclared(types: &mut Types) -> Result<(), NoMemory>
    requires { types.old ≡ [] }
    ensures { OnOk result (types.new ≡ env_of.basic_rows) }
{
    add_basic(types, &BASIC_TYPES)?;
    types.add(TypeRow::Any)?;
    types.add(TypeRow::Basic(Basic::Text(0)))?;
    Ok(())
}

/// No module yet, and the basic types.
pub fn no_modules<'a>(alloc: Global) -> Result<World<'a>, NoMemory>
    ensures { IfOk result (λ w. seen_world w ≡ judge.no_modules) }
{
    let mut types = Types::new(alloc)?;
    add_predeclared(&mut types)?;
    Ok(World {
        before: Items::new(alloc),
        types,
        modules: Vec::new(alloc),
        objects: Vec::new(alloc),
    })
}

/// A breach as a refusal of a file.
fn refusal(file: u32, breach: Breach) -> CompileErr
    ensures { result ≡ err.Refused (refusal_of file breach) }
{
    CompileErr::Refused(Refusal {
        rule: breach.rule,
        file,
        pos: breach.pos,
    })
}

/// The pass over names.
fn with_names(alloc: Global, file: u32, text: &[u8], tree: &Module) -> Result<(), CompileErr>
    ensures went { OnOk result (first (name_breaches text.now tree.now) ≡ None) }
    ensures refused { IfErr result (λ e. OnRefused e (λ r.
        passed file (judged (name_breaches text.now tree.now) (tt {0})) ≡ refused r)) }
{
    match check_names(alloc, text, tree)? {
        Some(breach) => Err(refusal(file, breach)),
        None => Ok(()),
    }
}

/// The pass over bodies.
fn with_bodies(
    alloc: Global,
    file: u32,
    env: &mut Env<'_>,
    tree: &Module,
) -> Result<Bodies, CompileErr>
    ensures went { IfOk result (λ b.
        passed file (judge.bodies env.old tree.now) ≡ went (seen_bodies b)) }
    ensures env { OnOk result (env.new ≡ env.old) }
    ensures refused { IfErr result (λ e. OnRefused e (λ r.
        passed file (judge.bodies env.old tree.now) ≡ refused r)) }
{
    let mut found = None;
    let bodies = bodies_of(alloc, &mut found, env, tree)?;
    match found {
        Some(breach) => Err(refusal(file, breach)),
        None => Ok(bodies),
    }
}

/// What a module has beside its procedures and its body: its name, its variables and its string constants.
fn outline_of(
    alloc: Global,
    env: &Env<'_>,
    tree: &Module,
) -> Result<(String, Vec<TVariable>, Vec<Vec<u8>>), AllocError>
    ensures name { IfOk result (λ r.
        string_bytes r.0 ≡ parts.spelling env.now.here.text tree.now.name) }
    ensures variables { IfOk result (λ r. map seen_variable r.1.items ≡
        map (parts.variable_of env.now.here.text)
        (zip (single_variables tree.now.decls)
        (parts.variables_of (slice_get env.now.here.scopes 0)))) }
    ensures texts { IfOk result (λ r. map (λ t. t.items) r.2.items ≡
        texts_in env.now.here ++ filled_texts env.now) }
{
    let name = spelling_of(alloc, env.here.text(), tree.name)?;
    let variables = variables_of(alloc, env, tree.decls.as_slice())?;
    let texts = texts_of(alloc, env)?;
    Ok((name, variables, texts))
}

/// A module of the typed program, whose bodies these are.
fn module_of(
    alloc: Global,
    env: &Env<'_>,
    tree: &Module,
    bodies: Vec<Vec<TStat>>,
    body: Vec<TStat>,
) -> Result<TModule, AllocError>
    ensures { IfOk result (λ m. seen_module m ≡ judge.module_of env.now tree.now (record {
      objects = [];
      procedures = map (λ ss. seen_stats ss.items) bodies.items;
      own = map seen_stat body.items;
    })) }
{
    let procedures = module_procedures(alloc, env, tree.decls.as_slice(), bodies)?;
    let (name, variables, texts) = outline_of(alloc, env, tree)?;
    Ok(TModule {
        name,
        variables,
        texts,
        procedures,
        is_exclusive: is_exclusive_body(env.here.text(), &tree.body),
        body,
    })
}

/// The body of the object type with a number in the program.
fn object_procedure(alloc: Global, number: u32, is_exclusive: bool, body: Vec<TStat>) -> TProcedure
    ensures { seen_procedure result ≡
        judge.object_procedure number (seen_body is_exclusive body.items) }
{
    TProcedure {
        name: String::new(alloc),
        at: Pos { line: 0, col: 0 },
        of: Some(number),
        is_initializer: false,
        parameters: Vec::new(alloc),
        locals: Vec::new(alloc),
        result: None,
        is_exclusive,
        body,
    }
}

/// A parameter of a procedure type, which has no name.
fn formal_of(alloc: Global, formal: (bool, TypeId)) -> TParameter
    ensures { seen_parameter result ≡ judge.formal_of formal }
{
    let (by_reference, of) = formal;
    TParameter {
        name: String::new(alloc),
        by_reference,
        of: type_of(Some(of)),
    }
}

fn formals_of(alloc: Global, formals: &[(bool, TypeId)]) -> Result<Vec<TParameter>, AllocError>
    ensures { IfOk result (λ ps. map seen_parameter ps.items ≡ map judge.formal_of formals.now) }
{
    let mut all = Vec::new(alloc);
    for formal in formals {
        all.push(formal_of(alloc, *formal))?;
    }
    Ok(all)
}

/// What stands for all procedures with the formals of a procedure type.
fn pattern(
    alloc: Global,
    formals: &[(bool, TypeId)],
    gives: Option<TypeId>,
) -> Result<TProcedure, AllocError>
    ensures { IfOk result (λ p. seen_procedure p ≡ judge.pattern formals.now gives) }
{
    Ok(TProcedure {
        name: String::new(alloc),
        at: Pos { line: 0, col: 0 },
        of: None,
        is_initializer: false,
        parameters: formals_of(alloc, formals)?,
        locals: Vec::new(alloc),
        result: match gives {
            Some(of) => Some(type_of(Some(of))),
            None => None,
        },
        is_exclusive: false,
        body: Vec::new(alloc),
    })
}

/// The body beside the type with this row and a number in the program.
fn body_beside(
    alloc: Global,
    row: Option<&TypeRow>,
    number: u32,
    is_exclusive: bool,
    body: Vec<TStat>,
) -> Result<TProcedure, AllocError>
    ensures { IfOk result (λ p. seen_procedure p ≡
        judge.body_beside (option_copied row.entry) number (seen_body is_exclusive body.items)) }
{
    match row {
        Some(TypeRow::Procedure(formals, gives)) => pattern(alloc, formals.as_slice(), *gives),
        _ => Ok(object_procedure(alloc, number, is_exclusive, body)),
    }
}

/// A method of the type with a number in the program.
fn method_beside(number: u32, method: TMethod) -> TMethod
    ensures { seen_method result ≡ judge.method_beside number (seen_method method) }
{
    let TMethod {
        slot,
        mut procedure,
    } = method;
    procedure.of = Some(number);
    TMethod { slot, procedure }
}

fn methods_beside(
    alloc: Global,
    number: u32,
    methods: Vec<TMethod>,
) -> Result<Vec<TMethod>, AllocError>
    ensures { IfOk result (λ ms. map seen_method ms.items ≡
        map (judge.method_beside number) (map seen_method methods.items)) }
{
    let mut all = Vec::new(alloc);
    for method in methods {
        all.push(method_beside(number, method))?;
    }
    Ok(all)
}

/// What stands beside the type with a number in the program.
fn object_of(
    alloc: Global,
    env: &Env<'_>,
    number: u32,
    beside: Beside,
) -> Result<TObject, AllocError>
    ensures { IfOk result
        (λ o. seen_object o ≡ judge.object_of env.now number (seen_beside beside)) }
{
    let Beside {
        name,
        at,
        fields,
        has_body,
        is_active,
        priority,
        is_exclusive,
        body,
        methods,
    } = beside;
    let row = env.row(Some(TypeId(number_at(number, PREDECLARED_TYPES)?)));
    Ok(TObject {
        name,
        at,
        fields,
        home: env.number,
        has_body,
        is_active,
        priority,
        body: body_beside(alloc, row, number, is_exclusive, body)?,
        methods: methods_beside(alloc, number, methods)?,
    })
}

fn put_objects(
    alloc: Global,
    env: &Env<'_>,
    all: &mut Vec<TObject>,
    objects: Vec<Beside>,
) -> Result<(), AllocError>
    ensures { OnOk result (map seen_object all.new.items ≡ map seen_object all.old.items
        ++ judge.objects_from env.now (length (map seen_object all.old.items))
        (map seen_beside objects.items)) }
{
    for beside in objects {
        let Ok(number) = u32::try_from(all.len()) else {
            return Err(AllocError);
        };
        all.push(object_of(alloc, env, number, beside)?)?;
    }
    Ok(())
}

/// Puts what stands beside a module's types behind those before it. There is room for all of it at first, so that those before it are
/// moved once at most.
fn join_objects(
    alloc: Global,
    env: &Env<'_>,
    all: &mut Vec<TObject>,
    objects: Vec<Beside>,
) -> Result<(), AllocError>
    ensures { OnOk result (map seen_object all.new.items ≡ map seen_object all.old.items
        ++ judge.objects_from env.now (length (map seen_object all.old.items))
        (map seen_beside objects.items)) }
{
    all.reserve(objects.len())?;
    put_objects(alloc, env, all, objects)
}

/// Puts a module, whose environment and bodies these are, behind those before it, with what stands beside its types.
fn add_module(
    alloc: Global,
    env: &Env<'_>,
    tree: &Module,
    bodies: Bodies,
    modules: &mut Vec<TModule>,
    objects: &mut Vec<TObject>,
) -> Result<(), AllocError>
    ensures { OnOk result (seen_programs modules.new.items objects.new.items ≡
        judge.with_module (seen_programs modules.old.items objects.old.items)
        env.now tree.now (seen_bodies bodies)) }
{
    let Bodies {
        objects: more,
        procedures,
        own,
    } = bodies;
    join_objects(alloc, env, objects, more)?;
    let one = module_of(alloc, env, tree, procedures, own)?;
    modules.push(one)?;
    Ok(())
}

/// Puts a module behind those before it, where neither the pass over its headings, which found this, nor that over its bodies breaks
/// a rule.
fn with_module(
    alloc: Global,
    file: u32,
    found: Option<Breach>,
    env: &mut Env<'_>,
    tree: &Module,
    modules: &mut Vec<TModule>,
    objects: &mut Vec<TObject>,
) -> Result<(), CompileErr>
    ensures went { OnOk result (
        judge.behind_headings file found (seen_programs modules.old.items objects.old.items)
        env.old tree.now ≡ went (seen_programs modules.new.items objects.new.items)) }
    ensures env { OnOk result (env.new ≡ env.old) }
    ensures refused { IfErr result (λ e. OnRefused e (λ r.
        judge.behind_headings file found (seen_programs modules.old.items objects.old.items)
        env.old tree.now ≡ refused r)) }
{
    match found {
        Some(breach) => Err(refusal(file, breach)),
        None => {
            let bodies = with_bodies(alloc, file, env, tree)?;
            add_module(alloc, env, tree, bodies, modules, objects)?;
            Ok(())
        },
    }
}

/// The passes over headings and bodies of a module that keeps the rules of names: what the modules behind it see. Its program stands
/// behind those of the modules before it.
fn behind_names<'a>(
    alloc: Global,
    file: u32,
    before: Items<Home<'a>>,
    types: Types,
    text: &'a [u8],
    tree: &Module,
    modules: &mut Vec<TModule>,
    objects: &mut Vec<TObject>,
) -> Result<(Items<Home<'a>>, Types), CompileErr>
    requires { length before ≤ 64 }
    ensures went { IfOk result (λ r. judge.behind_names
        (seen_parts before.entry types modules.old.items objects.old.items)
        file text.now tree.now ≡ went (seen_parts r.0 r.1 modules.new.items objects.new.items)) }
    ensures refused { IfErr result (λ e. OnRefused e (λ r. judge.behind_names
        (seen_parts before.entry types modules.old.items objects.old.items)
        file text.now tree.now ≡ refused r)) }
{
    let mut found = None;
    let mut env = declare(alloc, &mut found, before, types, text, tree)?;
    with_module(alloc, file, found, &mut env, tree, modules, objects)?;
    Ok(env.into_homes()?)
}

/// The module of a file behind those before it, or the first rule that it breaks.
pub fn elaborated<'a>(
    alloc: Global,
    world: World<'a>,
    file: u32,
    text: &'a [u8],
    tree: &Module,
) -> Result<World<'a>, CompileErr>
    requires { length world.before ≤ 64 }
    ensures went { IfOk result (λ w.
        judge.elaborated (seen_world world.entry) file text.now tree.now ≡ went (seen_world w)) }
    ensures refused { IfErr result (λ e. OnRefused e (λ r.
        judge.elaborated (seen_world world.entry) file text.now tree.now ≡ refused r)) }
{
    with_names(alloc, file, text, tree)?;
    let World {
        before,
        types,
        mut modules,
        mut objects,
    } = world;
    let (before, types) = behind_names(
        alloc,
        file,
        before,
        types,
        text,
        tree,
        &mut modules,
        &mut objects,
    )?;
    Ok(World {
        before,
        types,
        modules,
        objects,
    })
}

/// The program of all modules.
pub fn program_of(world: World<'_>) -> Program
    ensures { seen_program result ≡ judge.program_of (seen_world world.entry) }
{
    let World {
        before: _,
        types,
        modules,
        objects,
    } = world;
    Program {
        modules,
        types,
        objects,
    }
}
