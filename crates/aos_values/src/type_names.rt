// Names of types.

ghost use Rattle.std.specs.Prelude.{◌≡◌};
ghost use Rattle.aos_symbols.specs.Breaches.{first_after};
ghost use Rattle.aos_values.specs.TypeNames as judge;

use aos_base::Pos;
use aos_symbols::{
    Breach, Env, Lookup, Meaning, NOT_BUILT, NOT_EXPORTED, OTHER_KIND, UNKNOWN,
    is_procedure_of_out, note, word,
};
use aos_tree::{Name, Qualident};
use aos_types::TypeId;

/// What is no type, by this rule.
pub fn no_type(found: &mut Option<Breach>, rule: u16, at: Pos) -> Option<TypeId>
    ensures noted { found.new ≡ first_after found.old (judge.no_type rule at).breaches }
    ensures answer { result ≡ (judge.no_type rule at).answer }
{
    note(found, rule, at);
    None
}

fn type_meant(found: &mut Option<Breach>, means: Meaning, at: Pos) -> Option<TypeId>
    ensures noted { found.new ≡ first_after found.old (judge.type_meant means at).breaches }
    ensures answer { result ≡ (judge.type_meant means at).answer }
{
    match means {
        Meaning::Type(of) => of,
        _ => no_type(found, OTHER_KIND, at),
    }
}

/// The type that a name stands for.
fn type_found(found: &mut Option<Breach>, lookup: Lookup, at: Pos) -> Option<TypeId>
    ensures noted { found.new ≡ first_after found.old (judge.type_found lookup at).breaches }
    ensures answer { result ≡ (judge.type_found lookup at).answer }
{
    match lookup {
        Lookup::Unknown => no_type(found, UNKNOWN, at),
        Lookup::NotExported => no_type(found, NOT_EXPORTED, at),
        Lookup::Found(symbol) => type_meant(found, symbol.means, at),
    }
}

/// A name behind `Out.`, which has no types.
fn type_of_out(found: &mut Option<Breach>, text: &[u8], name: Name) -> Option<TypeId>
    ensures noted { found.new ≡ first_after found.old (judge.type_of_out text.now name).breaches }
    ensures answer { result ≡ (judge.type_of_out text.now name).answer }
{
    if is_procedure_of_out(word(text, name)) {
        return no_type(found, OTHER_KIND, name.pos);
    }
    no_type(found, UNKNOWN, name.pos)
}

/// The type that a name stands for behind a name that means this.
fn type_in_module(
    found: &mut Option<Breach>,
    env: &Env<'_>,
    means: Meaning,
    first: Pos,
    name: Name,
) -> Option<TypeId>
    ensures noted { found.new ≡
        first_after found.old (judge.type_in_module env.now means first name).breaches }
    ensures answer { result ≡ (judge.type_in_module env.now means first name).answer }
{
    match means {
        Meaning::Module(number) => type_found(found, env.member(number, name), name.pos),
        Meaning::Out => type_of_out(found, env.here.text(), name),
        _ => no_type(found, OTHER_KIND, first),
    }
}

/// The type that a name stands for in the module that the name at the first place means.
fn qualified_type(
    found: &mut Option<Breach>,
    env: &Env<'_>,
    lookup: Lookup,
    first: Pos,
    name: Name,
) -> Option<TypeId>
    ensures noted { found.new ≡
        first_after found.old (judge.qualified_type env.now lookup first name).breaches }
    ensures answer { result ≡ (judge.qualified_type env.now lookup first name).answer }
{
    match lookup {
        Lookup::Unknown => no_type(found, UNKNOWN, first),
        Lookup::NotExported => no_type(found, NOT_EXPORTED, first),
        Lookup::Found(symbol) => type_in_module(found, env, symbol.means, first, name),
    }
}

/// The type that a name, or a name of another module, stands for.
pub fn named_type(found: &mut Option<Breach>, env: &Env<'_>, name: Qualident) -> Option<TypeId>
    ensures noted { found.new ≡ first_after found.old (judge.named_type env.now name).breaches }
    ensures answer { result ≡ (judge.named_type env.now name).answer }
{
    let lookup = env.lookup(name.first);
    match name.second {
        None => type_found(found, lookup, name.first.pos),
        Some(second) => qualified_type(found, env, lookup, name.first.pos, second),
    }
}

/// The last part of a name.
fn last_name(name: Qualident) -> Name
    ensures { result ≡ judge.last_name name }
{
    match name.second {
        Some(own) => own,
        None => name.first,
    }
}

/// The type that is meant by a name: one that isn't known isn't built.
#[tactic(auto, using(aos_symbols::proofs::Keeping::after_more))]
pub fn known_type(found: &mut Option<Breach>, env: &Env<'_>, name: Qualident) -> Option<TypeId>
    ensures noted { found.new ≡ first_after found.old (judge.known_type env.now name).breaches }
    ensures answer { result ≡ (judge.known_type env.now name).answer }
{
    let of = named_type(found, env, name);
    if of.is_none() {
        note(found, NOT_BUILT, last_name(name).pos);
    }
    of
}
