// What INC, DEC, INCL and EXCL change and by what, and the codes of ASSERT and HALT.

ghost use Rattle.std.specs.Prelude.{◌≡◌};
ghost use Rattle.aos_symbols.specs.Breaches.{first_after};
ghost use Rattle.aos_known.specs.Seen.{seen_entity};
ghost use Rattle.aos_stat_rules.specs.Calls as judge;

use aos_base::Pos;
use aos_designators::refuse_written;
use aos_known::{Class, Entity, fits, is_number, is_set, width_of};
use aos_symbols::{ARGUMENT_TYPE, Breach, Routine, note};
use aos_typed::{Change, Literal};
use aos_types::TypeId;

pub fn changing(routine: Routine, of: Option<TypeId>) -> Change
    ensures { result ≡ judge.changing routine of }
{
    match routine {
        Routine::Dec => Change::Subtract(width_of(of)),
        Routine::Incl => Change::Include,
        Routine::Excl => Change::Exclude,
        _ => Change::Add(width_of(of)),
    }
}

/// Whether a procedure changes a set, and not a number.
pub fn is_changed_set(routine: Routine) -> bool
    ensures { result ≡ judge.is_changed_set routine }
{
    matches!(routine, Routine::Incl | Routine::Excl)
}

/// Whether a variable of the one type may be changed by a value of the other: an element of any integer type, or a number that
/// fits the variable.
pub fn is_amount(routine: Routine, of: Option<TypeId>, by: Option<TypeId>) -> bool
    ensures { result ≡ judge.is_amount routine of by }
{
    is_number(by) && (is_changed_set(routine) || fits(by, of))
}

/// Whether a procedure changes variables of this type.
fn is_changed(routine: Routine, of: Option<TypeId>) -> bool
    ensures { result ≡ judge.is_changed routine of }
{
    if is_changed_set(routine) {
        is_set(of)
    } else {
        is_number(of)
    }
}

/// A variable whose designator begins at `first`, and which is changed: it may be written, and is of an integer type or a set.
#[tactic(auto, using(aos_symbols::proofs::Keeping::after_more))]
pub fn refuse_changed(found: &mut Option<Breach>, routine: Routine, first: Pos, entity: &Entity)
    ensures { found.new ≡
        first_after found.old (judge.changed_breaches routine first (seen_entity entity.now)) }
{
    refuse_written(found, entity.known.class, first);
    if !is_changed(routine, entity.known.of) {
        note(found, ARGUMENT_TYPE, first);
    }
}

fn code_of(value: Option<Literal>) -> Option<u8>
    ensures { result ≡ judge.code_of value }
{
    match value {
        Some(Literal::Int(n)) => u8::try_from(n).ok(),
        _ => None,
    }
}

pub fn is_code(class: Class) -> bool
    ensures { result ≡ judge.is_code class }
{
    match class {
        Class::Unknown => true,
        Class::Constant(value) => value.is_none() || code_of(value).is_some(),
        _ => false,
    }
}

pub fn code_in(class: Class) -> u8
    ensures { result ≡ judge.code_in class }
{
    match class {
        Class::Constant(value) => code_of(value).unwrap_or(0),
        _ => 0,
    }
}
