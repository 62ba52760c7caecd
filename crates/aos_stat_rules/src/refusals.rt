// Statements that break a rule, and the parts of a call.

ghost use Rattle.std.specs.Prelude.{◌≡◌, None, option_map};
ghost use Rattle.aos_typed.specs.Seen.{seen_stat};
ghost use Rattle.aos_symbols.specs.Breaches.{first_after};
ghost use Rattle.aos_symbols.specs.Judged.{kept};
ghost use Rattle.aos_stat_rules.specs.Calls as judge;

use aos_base::Pos;
use aos_made_stat::MadeStat;
use aos_symbols::{Breach, NOT_BUILT, WRONG_CALL, WRONG_SELECTOR, note};
use aos_tree::{Expr, Selector};

/// A statement that breaks a rule at a place, which is none.
pub fn refused(found: &mut Option<Breach>, rule: u16, at: Pos) -> Option<MadeStat>
    ensures noted { found.new ≡ first_after found.old (judge.refused rule at).breaches }
    ensures answer { option_map seen_stat result ≡ (judge.refused rule at).answer }
{
    note(found, rule, at);
    None
}

/// A statement that isn't built.
pub fn not_yet(found: &mut Option<Breach>, at: Pos) -> Option<MadeStat>
    ensures noted { found.new ≡ first_after found.old (judge.not_yet at).breaches }
    ensures answer { option_map seen_stat result ≡ (judge.not_yet at).answer }
{
    refused(found, NOT_BUILT, at)
}

/// The arguments of a call, by what stands behind its name; a call without parentheses has none.
pub fn arguments(selectors: &[Selector]) -> &[Expr]
    ensures { result.now ≡ judge.arguments selectors.now }
{
    match selectors.first() {
        Some(Selector::Paren(_, arguments)) => arguments.as_slice(),
        _ => &[],
    }
}

/// What stands behind the arguments of a call.
pub fn behind_arguments(selectors: &[Selector]) -> &[Selector]
    ensures { result.now ≡ judge.behind_arguments selectors.now }
{
    match selectors.split_first() {
        Some((Selector::Paren(_, _), more)) => more,
        _ => selectors,
    }
}

/// Whether a selector that is no bracket stands behind the name of a procedure.
pub fn is_selected(selectors: &[Selector]) -> bool
    ensures { result ≡ judge.is_selected selectors.now }
{
    match selectors.split_first() {
        None => false,
        Some((Selector::Paren(_, _), _)) => false,
        _ => true,
    }
}

/// Whether one stands behind the name of a procedure of Out.
pub fn is_selected_behind(selectors: &[Selector]) -> bool
    ensures { result ≡ judge.is_selected_behind selectors.now }
{
    match selectors.split_first() {
        Some((Selector::Field(_, _), more)) => is_selected(more),
        _ => false,
    }
}

/// Whether more than a bracket stands behind the name of a procedure, so that a call of it is a
/// part of a designator.
pub fn goes_on(selectors: &[Selector]) -> bool
    ensures { result ≡ judge.goes_on selectors.now }
{
    match selectors.split_first() {
        None => false,
        Some((Selector::Paren(_, _), more)) => !more.is_empty(),
        _ => true,
    }
}

/// What stands behind a call that gives no value, and that begins at `first`: nothing may.
pub fn refuse_behind(found: &mut Option<Breach>, first: Pos, behind: &[Selector])
    ensures { found.new ≡
        first_after found.old (judge.ended first behind.now (kept None)).breaches }
{
    let Some(selector) = behind.first() else {
        return;
    };
    match selector {
        Selector::Field(at, _) => note(found, WRONG_SELECTOR, *at),
        Selector::Index(at, _) => note(found, WRONG_SELECTOR, *at),
        Selector::Follow(at) => note(found, WRONG_SELECTOR, *at),
        Selector::Paren(_, _) => note(found, WRONG_CALL, first),
    }
}
