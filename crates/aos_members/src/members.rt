// What types themselves declare, as numbers, so that a long chain of bases is walked without a look into the scope of each.

ghost use Rattle.std.specs.Prelude.{◌≡◌, ◌==◌, length, IfOk};
ghost use Rattle.std.specs.List.{list_any};
ghost use Rattle.std.specs.Option.{option_copied};
ghost use Rattle.aos_members.specs.Members as members;
ghost use Rattle.aos_symbols.specs.Scope as names;
ghost use Rattle.aos_symbols.specs.Spelling as spelling;

use crate::fields::{Field, counted_on, own_field};
use crate::objects::{Method, add_methods, object_scope, own_method};
use aos_symbols::{Env, Home, Scope, word};
use aos_tree::{Items, Name};
use aos_types::TypeId;
use std::alloc::{AllocError, Global};

/// The names of the fields and of the methods that each type itself declares, as numbers: their places among these words.
pub struct Members<'a> {
    pub words: Scope<'a>,
    pub fields: Vec<Items<u32>>,
    pub methods: Vec<Items<u32>>,
}

// Crates above drop it by this one call.
impl<'a> Drop for Members<'a> {
    fn drop(self) {
        let Members {
            words,
            fields,
            methods,
        } = self;
        drop(words);
        drop(fields);
        drop(methods);
    }
}

/// Whether a number is among these.
fn has_number(places: &[u32], place: u32) -> bool
    ensures { result ≡ list_any (λ k. k == place) places.now }
{
    places.iter().any(|other| *other == place)
}

/// Whether a type may declare a name with this number itself.
fn may_declare(table: &[Items<u32>], of: TypeId, place: u32) -> bool
    ensures { result ≡ members.may_declare table.now of place }
{
    match table.get(of.0 as usize) {
        Some(places) => has_number(places.as_slice(), place),
        None => true,
    }
}

/// The scope in which the fields of a type stand, where one of these modules writes it.
fn scope_among<'b, 'a>(homes: &'b [Home<'a>], is_object: bool, of: TypeId) -> Option<&'b Scope<'a>>
    ensures { option_copied result ≡ members.scope_among is_object homes.now of }
{
    for home in homes {
        if let Some(fields) = home.fields(is_object, of) {
            return Some(fields);
        }
    }
    None
}

/// The scope in which the fields of a type stand.
fn field_scope<'b, 'a>(env: &'b Env<'a>, of: TypeId) -> Option<&'b Scope<'a>>
    ensures { option_copied result ≡ members.field_scope env.now of }
{
    let is_object = env.is_object(of);
    match env.here.fields(is_object, of) {
        Some(fields) => Some(fields),
        None => scope_among(env.before.as_slice(), is_object, of),
    }
}

/// The numbers of the fields that a type itself declares.
fn field_numbers(
    env: &Env<'_>,
    alloc: Global,
    words: &Scope<'_>,
    of: TypeId,
) -> Result<Items<u32>, AllocError>
    ensures { IfOk result (λ ks. ks ≡
        names.places_in words.now (members.own_fields env.now of)) }
{
    match field_scope(env, of) {
        Some(scope) => scope.field_places_in(alloc, words),
        None => Ok(Items::new(alloc)),
    }
}

/// The numbers of the methods that a type itself declares.
fn method_numbers(
    env: &Env<'_>,
    alloc: Global,
    words: &Scope<'_>,
    of: TypeId,
) -> Result<Items<u32>, AllocError>
    ensures { IfOk result (λ ks. ks ≡ names.places_in words.now (members.own_methods env.now of)) }
{
    match object_scope(env, of) {
        Some(scope) => scope.places_in(alloc, words),
        None => Ok(Items::new(alloc)),
    }
}

/// How many types there are. 2^32 and more are want of memory.
fn type_count(env: &Env<'_>) -> Result<u32, AllocError>
    ensures { IfOk result (λ n. n ≡ length env.now.types) }
{
    match u32::try_from(env.types.len()) {
        Ok(count) => Ok(count),
        Err(_) => Err(AllocError),
    }
}

/// The numbers of the fields of all types.
fn field_table(
    env: &Env<'_>,
    alloc: Global,
    words: &Scope<'_>,
) -> Result<Vec<Items<u32>>, AllocError>
    ensures { IfOk result (λ table. table.items ≡ members.field_table env.now words.now) }
{
    let mut table = Vec::new(alloc);
    for number in 0..type_count(env)? {
        table.push(field_numbers(env, alloc, words, TypeId(number))?)?;
    }
    Ok(table)
}

/// The numbers of the methods of all types.
fn method_table(
    env: &Env<'_>,
    alloc: Global,
    words: &Scope<'_>,
) -> Result<Vec<Items<u32>>, AllocError>
    ensures { IfOk result (λ table. table.items ≡ members.method_table env.now words.now) }
{
    let mut table = Vec::new(alloc);
    for number in 0..type_count(env)? {
        table.push(method_numbers(env, alloc, words, TypeId(number))?)?;
    }
    Ok(table)
}

/// Declares the fields and the methods that a type itself declares in a scope.
fn add_words<'a>(env: &Env<'a>, words: &mut Scope<'a>, of: TypeId) -> Result<(), AllocError> {
    if let Some(fields) = field_scope(env, of) {
        fields.add_fields(words)?;
    }
    add_methods(env, words, of)
}

/// A scope in which the fields and the methods of all types are declared.
fn all_words<'a>(env: &Env<'a>, alloc: Global) -> Result<Scope<'a>, AllocError> {
    let mut words = Scope::new(alloc);
    for number in 0..type_count(env)? {
        add_words(env, &mut words, TypeId(number))?;
    }
    Ok(words)
}

/// What all types declare, as numbers.
pub fn members_of<'a>(env: &Env<'a>, alloc: Global) -> Result<Members<'a>, AllocError>
    ensures { IfOk result (λ m. members.AreMembers env.now m) }
{
    let words = all_words(env, alloc)?;
    let fields = field_table(env, alloc, &words)?;
    let methods = method_table(env, alloc, &words)?;
    Ok(Members {
        words,
        fields,
        methods,
    })
}

/// The own field of a type that has a name with this number.
fn numbered_field(
    env: &Env<'_>,
    all: &Members<'_>,
    of: TypeId,
    name: Name,
    place: u32,
) -> Option<Field>
    requires all { members.AreMembers env.now all.now }
    requires place { place ≡
        names.place_of all.now.words (spelling.word env.now.here.text name) }
    ensures { result ≡ members.own_field env.now of name }
{
    if may_declare(all.fields.as_slice(), of, place) {
        own_field(env, of, name)
    } else {
        None
    }
}

/// The method with this word that a type itself declares, where this is its number.
fn numbered_method(
    env: &Env<'_>,
    all: &Members<'_>,
    of: TypeId,
    word: &[u8],
    place: u32,
) -> Result<Option<Method>, AllocError>
    requires all { members.AreMembers env.now all.now }
    requires place { place ≡ names.place_of all.now.words word.now }
    ensures { IfOk result (λ m. m ≡ members.own_method env.now of word.now) }
{
    if may_declare(all.methods.as_slice(), of, place) {
        own_method(env, of, word)
    } else {
        Ok(None)
    }
}

/// The field of a type, or of one of its bases, that has a name, where these are what all types declare.
#[tactic(auto, using(crate::proofs::Bases::found_own, crate::proofs::Bases::searched_base, crate::proofs::Bases::found_none, crate::proofs::Bases::found_end))]
pub fn field_among(
    env: &Env<'_>,
    all: &Members<'_>,
    of: TypeId,
    name: Name,
) -> Result<Option<Field>, AllocError>
    requires { members.AreMembers env.now all.now }
    ensures { IfOk result (λ f. f ≡ members.field env.now of name) }
{
    let place = all.words.place_of(word(env.here.text(), name))?;
    let mut at = of;
    let mut left = env.types.len();
    while left > 0 {
        if let Some(field) = numbered_field(env, all, at, name, place) {
            return counted_on(env, at, field);
        }
        let Some(base) = env.base(at) else {
            return Ok(None);
        };
        at = base;
        left -= 1;
    }
    match numbered_field(env, all, at, name, place) {
        Some(field) => counted_on(env, at, field),
        None => Ok(None),
    }
}

/// The method with this word of an object type or else of the nearest of its bases that has one.
#[tactic(auto, using(crate::proofs::Chains::chain_base, crate::proofs::Chains::chain_none, crate::proofs::Chains::chain_end))]
fn method_with(
    env: &Env<'_>,
    all: &Members<'_>,
    of: TypeId,
    word: &[u8],
) -> Result<Option<Method>, AllocError>
    requires { members.AreMembers env.now all.now }
    ensures { IfOk result (λ m. m ≡ members.method_named env.now of word.now) }
{
    let place = all.words.place_of(word)?;
    let mut at = of;
    let mut left = env.types.len();
    while left > 0 {
        if let Some(method) = numbered_method(env, all, at, word, place)? {
            return Ok(Some(method));
        }
        let Some(base) = env.base(at) else {
            return Ok(None);
        };
        at = base;
        left -= 1;
    }
    numbered_method(env, all, at, word, place)
}

/// The method of an object type that has a name: its own, or else that of the nearest of its bases that has one, where these are what
/// all types declare.
pub fn method_among(
    env: &Env<'_>,
    all: &Members<'_>,
    of: TypeId,
    name: Name,
) -> Result<Option<Method>, AllocError>
    requires { members.AreMembers env.now all.now }
    ensures { IfOk result (λ m. m ≡ members.method env.now of name) }
{
    method_with(env, all, of, word(env.here.text(), name))
}

/// The method with a name that one of this type overrides, where these are what all types declare.
pub fn upper_among(
    env: &Env<'_>,
    all: &Members<'_>,
    of: TypeId,
    name: Name,
) -> Result<Option<Method>, AllocError>
    requires { members.AreMembers env.now all.now }
    ensures { IfOk result (λ m. m ≡ members.upper env.now of name) }
{
    match env.base(of) {
        Some(base) => method_among(env, all, base, name),
        None => Ok(None),
    }
}
