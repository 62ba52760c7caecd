// Modifiers of bodies and blocks.

ghost use Rattle.std.specs.Prelude.{◌≡◌, ◌&&◌, not};
ghost use Rattle.std.specs.List.{list_any};
ghost use Rattle.aos_symbols.specs.Breaches.{first_after};
ghost use Rattle.aos_symbols.specs.Spelling as spelling;
ghost use Rattle.aos_stat_rules.specs.Statements as judge;

use aos_base::{Pos, Priority};
use aos_known::Class;
use aos_symbols::{Breach, Env, NOT_BUILT, WRONG_MODIFIER, is_active, is_priority, is_word, note};
use aos_tree::Modifier;
use aos_values::number_in;

/// Whether a modifier is SAFE, which isn't built.
fn is_safe(text: &[u8], modifier: &Modifier) -> bool
    ensures { result ≡ judge.is_safe text.now modifier.now }
{
    is_word(text, "SAFE", modifier.name)
}

/// Whether a modifier is EXCLUSIVE.
fn is_exclusive(text: &[u8], modifier: &Modifier) -> bool
    ensures { result ≡ judge.is_exclusive text.now modifier.now }
{
    is_word(text, "EXCLUSIVE", modifier.name)
}

/// Whether a block with these modifiers is exclusive.
pub fn are_exclusive(text: &[u8], modifiers: &[Modifier]) -> bool
    ensures { result ≡ judge.are_exclusive text.now modifiers.now }
{
    modifiers
        .iter()
        .any(|modifier| is_exclusive(text, modifier))
}

/// Whether one of these modifiers is ACTIVE.
fn are_active(text: &[u8], modifiers: &[Modifier]) -> bool
    ensures { result ≡ list_any (spelling.is_active text.now) modifiers.now }
{
    modifiers.iter().any(|modifier| is_active(text, modifier))
}

/// Whether PRIORITY may stand among these modifiers of a body that may be active or not: it is active.
fn takes_priority(text: &[u8], may_be_active: bool, modifiers: &[Modifier]) -> bool
    ensures { result ≡ judge.takes_priority text.now may_be_active modifiers.now }
{
    may_be_active && are_active(text, modifiers)
}

/// Whether a modifier is ACTIVE or EXCLUSIVE, and may stand on a body that may still be so or not: it has no value.
fn is_plain(text: &[u8], may_be_active: bool, may_be_exclusive: bool, modifier: &Modifier) -> bool
    ensures { result ≡ judge.is_plain text.now may_be_active may_be_exclusive modifier.now }
{
    let may_stand = (may_be_active && is_active(text, modifier))
        || (may_be_exclusive && is_exclusive(text, modifier));
    may_stand && modifier.value.is_none()
}

/// Whether a modifier may stand on a body that may still be active or not, exclusive or not, and have a priority or not. PRIORITY has
/// a value.
fn is_allowed(
    text: &[u8],
    may_be_active: bool,
    may_be_exclusive: bool,
    may_have_priority: bool,
    modifier: &Modifier,
) -> bool
    ensures { result ≡ judge.is_allowed text.now may_be_active may_be_exclusive may_have_priority
        modifier.now }
{
    if is_priority(text, modifier) {
        return may_have_priority && modifier.value.is_some();
    }
    is_plain(text, may_be_active, may_be_exclusive, modifier)
}

/// A modifier of a body that may still be active or not, exclusive or not, and have a priority or not.
fn refuse_modifier(
    found: &mut Option<Breach>,
    text: &[u8],
    may_be_active: bool,
    may_be_exclusive: bool,
    may_have_priority: bool,
    modifier: &Modifier,
)
    ensures { found.new ≡ first_after found.old (judge.modifier_breach text.now
        may_be_active may_be_exclusive may_have_priority modifier.now) }
{
    let at = modifier.name.pos;
    if is_safe(text, modifier) {
        note(found, NOT_BUILT, at);
    } else if !is_allowed(
        text,
        may_be_active,
        may_be_exclusive,
        may_have_priority,
        modifier,
    ) {
        note(found, WRONG_MODIFIER, at);
    }
}

/// Whether a modifier that may stand once may still stand behind another one, which is such a one or not.
fn may_follow(may_stand: bool, stands: bool) -> bool
    ensures { result ≡ (may_stand && not stands) }
{
    may_stand && !stands
}

/// Modifiers of a body that may still be active or not, exclusive or not, and have a priority or not, each at most once.
#[tactic(auto, using(aos_symbols::proofs::Keeping::after_more))]
fn refuse_behind(
    found: &mut Option<Breach>,
    text: &[u8],
    may_be_active: bool,
    may_be_exclusive: bool,
    may_have_priority: bool,
    modifiers: &[Modifier],
)
    ensures { found.new ≡ first_after found.old (judge.breaches_behind text.now
        may_be_active may_be_exclusive may_have_priority modifiers.now) }
{
    let mut may_be_active = may_be_active;
    let mut may_be_exclusive = may_be_exclusive;
    let mut may_have_priority = may_have_priority;
    for modifier in modifiers {
        refuse_modifier(
            found,
            text,
            may_be_active,
            may_be_exclusive,
            may_have_priority,
            modifier,
        );
        may_be_active = may_follow(may_be_active, is_active(text, modifier));
        may_be_exclusive = may_follow(may_be_exclusive, is_exclusive(text, modifier));
        may_have_priority = may_follow(may_have_priority, is_priority(text, modifier));
    }
}

/// Modifiers of a body that may be active or not; of each kind there is one at most, and PRIORITY stands beside ACTIVE alone.
pub fn refuse_modifiers(
    found: &mut Option<Breach>,
    text: &[u8],
    may_be_active: bool,
    modifiers: &[Modifier],
)
    ensures { found.new ≡
        first_after found.old (judge.modifier_breaches text.now may_be_active modifiers.now) }
{
    let prior = takes_priority(text, may_be_active, modifiers);
    refuse_behind(found, text, may_be_active, true, prior, modifiers);
}

/// The priority that a constant names.
pub fn level_in(class: Class) -> Option<Priority>
    ensures { result ≡ judge.level_in class }
{
    match number_in(class) {
        Some(number) => Priority::with_number(number),
        None => None,
    }
}

/// A value of this class, which breaks this rule first, of a PRIORITY at a place.
pub fn refuse_level(found: &mut Option<Breach>, at: Pos, own: Option<Breach>, class: Class)
    ensures { found.new ≡ first_after found.old (judge.level_breaches at own class) }
{
    match own {
        Some(own) => note(found, own.rule, own.pos),
        None => {
            if level_in(class).is_none() {
                note(found, WRONG_MODIFIER, at);
            }
        },
    }
}

/// The modifiers of a body here, which may be active or not, without their values.
pub fn refuse_here(
    found: &mut Option<Breach>,
    env: &Env<'_>,
    may_be_active: bool,
    modifiers: &[Modifier],
)
    ensures { found.new ≡ first_after found.old
        (judge.modifier_breaches env.now.here.text may_be_active modifiers.now) }
{
    refuse_modifiers(found, env.here.text(), may_be_active, modifiers);
}
