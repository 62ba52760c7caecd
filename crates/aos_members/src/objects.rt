// Object types: their scopes, and their methods with their slots.

ghost use Rattle.std.specs.Prelude.{◌≡◌, ◌+◌, ◌++◌, ◌<◌, ◌^◌, Some, length, IsTrue, OnOk, IfOk, OnErr};
ghost use Rattle.std.specs.Option.{option_copied};
ghost use Rattle.aos_types.specs.Table.{base_of, row_of as row_in};
ghost use Rattle.aos_symbols.specs.Scope as names;
ghost use Rattle.aos_symbols.specs.Env as env_of;
ghost use Rattle.aos_members.specs.Members as members;

use aos_symbols::{Env, Home, Meaning, ObjectScope, Open, Scope, Symbol, word};
use aos_tree::{Export, Items, Name};
use aos_types::TypeId;
use std::alloc::{AllocError, Global};
use std::mem;

/// A method of an object type: whether this module writes the type that declares it, its mark, the number of the module that does,
/// its number among that module's signatures, the type that declares it, and its slot.
#[derive(Clone, Copy)]
pub struct Method {
    pub is_own: bool,
    pub mark: Option<Export>,
    pub home: u32,
    pub number: u32,
    pub of: TypeId,
    pub slot: u32,
}

/// The methods of a type and its bases, and how many types these are.
pub struct SoFar<'a> {
    pub of: TypeId,
    pub count: usize,
    pub all: Scope<'a>,
}

// Crates above drop it by this one call.
impl<'a> Drop for SoFar<'a> {
    fn drop(self) {
        let SoFar {
            of: _,
            count: _,
            all,
        } = self;
        drop(all);
    }
}

/// Where the names of an object type stand.
fn object_place(object: ObjectScope) -> Open
    ensures { result ≡ members.object_place object }
{
    Open {
        home: object.home,
        scope: object.scope,
    }
}

/// The object type with a number, where one of these modules declares it.
fn object_among(homes: &[Home<'_>], of: TypeId) -> Option<ObjectScope>
    ensures { result ≡ members.object_among homes.now of }
{
    for home in homes {
        if let Some(object) = home.object(of) {
            return Some(object);
        }
    }
    None
}

/// The object type with a number, where a module declares it.
pub fn find_object(env: &Env<'_>, of: TypeId) -> Option<ObjectScope>
    ensures { result ≡ members.object env.now of }
{
    match env.here.object(of) {
        Some(object) => Some(object),
        None => object_among(env.before.as_slice(), of),
    }
}

/// A type, its base, the base of that and so on.
#[tactic(auto, using(crate::proofs::Chains::chain_step, crate::proofs::Chains::chain_none, crate::proofs::Chains::chain_end))]
fn chain(env: &Env<'_>, alloc: Global, of: TypeId) -> Result<Vec<TypeId>, AllocError>
    ensures { IfOk result (λ ts. ts.items ≡ members.chain env.now.types of) }
{
    let mut all = Vec::new(alloc);
    let mut at = of;
    let mut left = env.types.len();
    while left > 0 {
        all.push(at)?;
        let Some(base) = env.base(at) else {
            return Ok(all);
        };
        at = base;
        left -= 1;
    }
    all.push(at)?;
    Ok(all)
}

/// Puts the scope of an object type behind others. It is looked for where its number is in turn first, so that a walk over many
/// types calls nothing that hashes.
fn put_place(env: &Env<'_>, path: &mut Vec<Open>, of: TypeId) -> Result<(), AllocError>
    ensures { OnOk result (path.new.items ≡
        path.old.items ++ members.opened env.now (members.object env.now of)) }
{
    if let Some(object) = env.here.object_in_turn(of) {
        path.push(object_place(object))?;
        return Ok(());
    }
    match find_object(env, of) {
        Some(object) => {
            path.push(object_place(object))?;
            Ok(())
        },
        None => Ok(()),
    }
}

/// The scopes of an object type and its bases, each before its base's.
#[tactic(auto, using(crate::proofs::Opened::path_none, crate::proofs::Opened::path_end))]
fn object_path(env: &Env<'_>, alloc: Global, of: TypeId) -> Result<Vec<Open>, AllocError>
    ensures { IfOk result (λ path. path.items ≡
        members.object_path env.now (members.chain env.now.types of)) }
{
    let mut path = Vec::new(alloc);
    let mut at = of;
    let mut left = env.types.len();
    while left > 0 {
        put_place(env, &mut path, at)?;
        let Some(base) = env.base(at) else {
            return Ok(path);
        };
        at = base;
        left -= 1;
    }
    put_place(env, &mut path, at)?;
    Ok(path)
}

/// The slot of a method that an object type declares, by its place among those.
fn slot_of(env: &Env<'_>, object: ObjectScope, number: u32) -> u32
    ensures { result ≡ members.slot_of (env_of.home env.now object.home) object number }
{
    match env.home(object.home) {
        Some(home) => home.slot(object, number),
        None => 0,
    }
}

/// A method by its place among those that an object type itself declares. A number of 2^32 and more is want of memory.
fn method_at(
    env: &Env<'_>,
    of: TypeId,
    object: ObjectScope,
    mark: Option<Export>,
    place: u32,
) -> Result<Method, AllocError>
    ensures { IfOk result (λ m. m ≡ members.method_at env.now of object mark place) }
{
    let Some(number) = object.methods.checked_add(place) else {
        return Err(AllocError);
    };
    Ok(Method {
        is_own: object.home == env.number,
        mark,
        home: object.home,
        number,
        of,
        slot: slot_of(env, object, place),
    })
}

/// The method that a name in the scope of an object type stands for.
fn method_meant(
    env: &Env<'_>,
    of: TypeId,
    object: ObjectScope,
    symbol: Symbol,
) -> Result<Option<Method>, AllocError>
    ensures { IfOk result (λ m. m ≡ members.method_meant env.now of object symbol) }
{
    let Meaning::Procedure(place) = symbol.means else {
        return Ok(None);
    };
    Ok(Some(method_at(env, of, object, symbol.mark, place)?))
}

/// The method with this word that an object type itself declares.
pub(crate) fn own_method(
    env: &Env<'_>,
    of: TypeId,
    word: &[u8],
) -> Result<Option<Method>, AllocError>
    ensures { IfOk result (λ m. m ≡ members.own_method env.now of word.now) }
{
    let Some(object) = find_object(env, of) else {
        return Ok(None);
    };
    match env.in_scope(object_place(object), word) {
        Some(symbol) => method_meant(env, of, object, symbol),
        None => Ok(None),
    }
}

/// The method with this word of an object type or else of the nearest of its bases that has one.
#[tactic(auto, using(crate::proofs::Chains::chain_base, crate::proofs::Chains::chain_none, crate::proofs::Chains::chain_end))]
fn method_named(env: &Env<'_>, of: TypeId, word: &[u8]) -> Result<Option<Method>, AllocError>
    ensures { IfOk result (λ m. m ≡ members.method_named env.now of word.now) }
{
    let mut at = of;
    let mut left = env.types.len();
    while left > 0 {
        if let Some(method) = own_method(env, at, word)? {
            return Ok(Some(method));
        }
        let Some(base) = env.base(at) else {
            return Ok(None);
        };
        at = base;
        left -= 1;
    }
    own_method(env, at, word)
}

/// The method of an object type that has a name: its own, or else that of the nearest of its bases that has one.
pub fn find_method(env: &Env<'_>, of: TypeId, name: Name) -> Result<Option<Method>, AllocError>
    ensures { IfOk result (λ m. m ≡ members.method env.now of name) }
{
    method_named(env, of, word(env.here.text(), name))
}

/// The initializer that an object type itself declares.
fn own_initializer(env: &Env<'_>, of: TypeId) -> Result<Option<Method>, AllocError>
    ensures { IfOk result (λ m. m ≡ members.own_initializer env.now of) }
{
    let Some(object) = find_object(env, of) else {
        return Ok(None);
    };
    match object.initial {
        Some(place) => Ok(Some(method_at(env, of, object, None, place)?)),
        None => Ok(None),
    }
}

/// The initializer of an object type or else of the nearest of its bases that has one.
#[tactic(auto, using(crate::proofs::Chains::chain_base, crate::proofs::Chains::chain_none, crate::proofs::Chains::chain_end))]
pub fn find_initializer(env: &Env<'_>, of: TypeId) -> Result<Option<Method>, AllocError>
    ensures { IfOk result (λ m. m ≡ members.initializer env.now of) }
{
    let mut at = of;
    let mut left = env.types.len();
    while left > 0 {
        if let Some(method) = own_initializer(env, at)? {
            return Ok(Some(method));
        }
        let Some(base) = env.base(at) else {
            return Ok(None);
        };
        at = base;
        left -= 1;
    }
    own_initializer(env, at)
}

/// The scope in which the names of an object type stand.
pub(crate) fn object_scope<'b, 'a>(env: &'b Env<'a>, of: TypeId) -> Option<&'b Scope<'a>>
    ensures { option_copied result ≡ members.object_scope env.now of }
{
    env.scope(object_place(find_object(env, of)?))
}

/// Declares the methods that an object type itself declares in a scope.
pub(crate) fn add_methods<'a>(
    env: &Env<'a>,
    all: &mut Scope<'a>,
    of: TypeId,
) -> Result<(), AllocError>
    ensures { OnOk result
        (all.new ≡ names.with_names all.old (members.own_methods env.now of)) }
{
    match object_scope(env, of) {
        Some(scope) => scope.add_methods(all),
        None => Ok(()),
    }
}

/// The methods of types, of which each stands before its base.
#[tactic(auto, using(crate::proofs::Chains::methods_step))]
fn methods_along<'a>(
    env: &Env<'a>,
    alloc: Global,
    types: &[TypeId],
) -> Result<Scope<'a>, AllocError>
    ensures { IfOk result (λ s. s ≡ members.methods_along env.now types.now) }
{
    let mut all = Scope::new(alloc);
    let mut left = types.len();
    while left > 0 {
        left -= 1;
        add_methods(env, &mut all, types[left])?;
    }
    Ok(all)
}

/// The methods of an object type and its bases.
pub fn methods_so_far<'a>(env: &Env<'a>, alloc: Global, of: TypeId) -> Result<SoFar<'a>, AllocError>
    ensures so_far { IfOk result (λ s. members.IsSoFar env.now s) }
    ensures of { IfOk result (λ s. s.of ≡ of) }
{
    let types = chain(env, alloc, of)?;
    let all = methods_along(env, alloc, &types)?;
    let count = types.len();
    Ok(SoFar { of, count, all })
}

/// Whether the type whose methods these are is the base of another, and its chain of bases comes to an end.
fn is_behind(env: &Env<'_>, so_far: &SoFar<'_>, of: TypeId) -> bool
    ensures base { IsTrue result → base_of (row_in env.now.types of) ≡ Some so_far.now.of }
    ensures ends { IsTrue result → so_far.now.count < length env.now.types }
    ensures fits { IsTrue result → so_far.now.count + 1 < 2 ^ 64 }
{
    match env.base(of) {
        Some(base) => base.0 == so_far.of.0 && so_far.count < env.types.len(),
        None => false,
    }
}

/// Goes on to the methods of another type, whose base's are not met again where they are these.
fn go_on<'a>(
    env: &Env<'a>,
    alloc: Global,
    so_far: &mut SoFar<'a>,
    of: TypeId,
) -> Result<(), AllocError>
    requires { members.IsSoFar env.now so_far.old }
    ensures so_far { OnOk result (members.IsSoFar env.now so_far.new) }
    ensures of { OnOk result (so_far.new.of ≡ of) }
{
    if is_behind(env, so_far, of) {
        add_methods(env, &mut so_far.all, of)?;
        so_far.of = of;
        so_far.count += 1;
    } else {
        *so_far = methods_so_far(env, alloc, of)?;
    }
    Ok(())
}

/// The slots of the methods that an object type itself declares. Where it declares none, those of its bases aren't met, and those
/// that were met last aren't met again where they are its base's.
#[tactic(auto, using(crate::proofs::Slots::no_slots))]
pub fn own_slots<'a>(
    env: &Env<'a>,
    alloc: Global,
    so_far: &mut SoFar<'a>,
    of: TypeId,
) -> Result<Items<u32>, AllocError>
    requires { members.IsSoFar env.now so_far.old }
    ensures slots { IfOk result (λ ks. ks ≡ members.own_slots env.now of) }
    ensures so_far { OnOk result (members.IsSoFar env.now so_far.new) }
{
    let Some(scope) = object_scope(env, of) else {
        return Ok(Items::new(alloc));
    };
    let none = scope.places_in(alloc, &Scope::new(alloc))?;
    if none.as_slice().is_empty() {
        return Ok(none);
    }
    go_on(env, alloc, so_far, of)?;
    scope.places_in(alloc, &so_far.all)
}

/// Goes into the methods or the body of an object type of this module, and gives the path of the place where it was. Without
/// memory all stays as it was.
pub fn enter_object(env: &mut Env<'_>, alloc: Global, of: TypeId) -> Result<Items<Open>, AllocError>
    ensures ok { OnOk result (env.new ≡ members.within_object env.old of) }
    ensures path { IfOk result (λ path. path ≡ env.old.path) }
    ensures err { OnErr result (env.new ≡ env.old) }
{
    let mut path = object_path(env, alloc, of)?;
    path.extend_from_slice(env.path.as_slice())?;
    env.self_type = Some(of);
    Ok(mem::replace(&mut env.path, Items::from_vec(path)))
}

/// Goes back to a place of the module with this path.
pub fn leave_object(env: &mut Env<'_>, path: Items<Open>)
    ensures { env.new ≡ members.outside path env.old }
{
    env.path = path;
    env.self_type = None;
}
