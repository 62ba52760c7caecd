// Calls, by what their first name stands for.

ghost use Rattle.std.specs.Prelude.{◌≡◌, OnOk, IfOk, option_map};
ghost use Rattle.aos_typed.specs.Seen.{seen_stat};
ghost use Rattle.aos_symbols.specs.Breaches.{first_after};
ghost use Rattle.aos_symbols.specs.Env as scopes;
ghost use Rattle.aos_check_stat.specs.Called as judge;

use aos_check_call::{called_in_module, called_value, performed};
use aos_check_routines::{out_selectors, routine_selectors};
use aos_designators::{is_of_module, plain};
use aos_made_stat::MadeStat;
use aos_stat_rules::{goes_on, is_selected, is_selected_behind, not_yet, refused};
use aos_symbols::{Breach, Env, Lookup, Meaning, NOT_EXPORTED, Symbol, UNKNOWN};
use aos_tree::Desig;
use std::alloc::{AllocError, Global};

/// A call whose first name stands for this.
fn called_meaning(
    alloc: Global,
    found: &mut Option<Breach>,
    env: &Env<'_>,
    symbol: Symbol,
    desig: &Desig,
) -> Result<Option<MadeStat>, AllocError>
    ensures noted { OnOk result (found.new ≡
        first_after found.old
        (judge.called_meaning env.now symbol symbol.means desig.now).breaches) }
    ensures answer { IfOk result (λ s. option_map seen_stat s ≡
        (judge.called_meaning env.now symbol symbol.means desig.now).answer) }
{
    let at = desig.name.pos;
    let selectors = desig.selectors.as_slice();
    match symbol.means {
        Meaning::Out if !is_selected_behind(selectors) => out_selectors(
            alloc, found, env, at, selectors,
        ),
        Meaning::Routine(routine) if !is_selected(selectors) => {
            routine_selectors(alloc, found, env, routine, at, selectors)
        },
        Meaning::Proper => Ok(not_yet(found, at)),
        Meaning::Procedure(number) if is_of_module(symbol) && !goes_on(selectors) => {
            performed(alloc, found, env, at, symbol, number, selectors)
        },
        Meaning::Module(_) => {
            let head = plain(env, desig.name);
            called_in_module(alloc, found, env, head, selectors, desig)
        },
        _ => called_value(alloc, found, env, desig),
    }
}

/// A call.
pub fn called(
    alloc: Global,
    found: &mut Option<Breach>,
    env: &Env<'_>,
    desig: &Desig,
) -> Result<Option<MadeStat>, AllocError>
    ensures noted { OnOk result (found.new ≡
        first_after found.old
        (judge.called env.now (scopes.lookup env.now desig.now.name) desig.now).breaches) }
    ensures answer { IfOk result (λ s.
        option_map seen_stat s ≡
        (judge.called env.now (scopes.lookup env.now desig.now.name) desig.now).answer) }
{
    let at = desig.name.pos;
    match env.lookup(desig.name) {
        Lookup::Unknown => Ok(refused(found, UNKNOWN, at)),
        Lookup::NotExported => Ok(refused(found, NOT_EXPORTED, at)),
        Lookup::Found(symbol) => called_meaning(alloc, found, env, symbol, desig),
    }
}
