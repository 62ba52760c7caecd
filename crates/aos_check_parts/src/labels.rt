// The labels of CASE, and its selector.

ghost use Rattle.std.specs.Prelude.{◌≡◌, drop, length, OnOk, IfOk};
ghost use Rattle.aos_symbols.specs.Breaches.{first_after};
ghost use Rattle.aos_symbols.specs.Judged.{walk};
ghost use Rattle.aos_known.specs.Seen.{seen_answer};
ghost use Rattle.aos_check_parts.specs.Parts as judge;
ghost use Rattle.aos_stat_rules.specs.Taken.{AreTaken};

use crate::boxed::expr;
use aos_base::Pos;
use aos_check_expr::constant_class;
use aos_known::{Answer, is_char, is_number};
use aos_operators::number;
use aos_stat_rules::{Labels, is_label, range_of};
use aos_symbols::{Breach, Env, WRONG_LABEL, note};
use aos_tree::{Boxed, Expr, Label};
use aos_typed::LabelRange;
use aos_types::TypeId;
use std::alloc::{AllocError, Global};

/// The value of a label's part, where it breaks no rule; the label begins at a place.
#[tactic(auto, using(aos_symbols::proofs::Keeping::after_more))]
fn label_value(
    alloc: Global,
    found: &mut Option<Breach>,
    env: &Env<'_>,
    at: Pos,
    of: Option<TypeId>,
    part: &Boxed<Expr>,
) -> Result<Option<i64>, AllocError>
    ensures noted { OnOk result (found.new ≡
        first_after found.old (judge.label_value env.now at of part.now).breaches) }
    ensures answer { IfOk result (λ n. n ≡ (judge.label_value env.now at of part.now).answer) }
{
    let known = expr(alloc, found, env, part)?.known;
    let value = constant_class(found, known.class, part.get().pos);
    if !is_label(of, known.of) {
        note(found, WRONG_LABEL, at);
    }
    Ok(value.map(number))
}

/// The values of a label.
#[tactic(auto, using(aos_symbols::proofs::Keeping::after_more))]
fn label_range(
    alloc: Global,
    found: &mut Option<Breach>,
    env: &Env<'_>,
    of: Option<TypeId>,
    label: &Label,
) -> Result<Option<LabelRange>, AllocError>
    ensures noted { OnOk result (found.new ≡
        first_after found.old (judge.label_range env.now of label.now).breaches) }
    ensures answer { IfOk result (λ r. r ≡ (judge.label_range env.now of label.now).answer) }
{
    let at = label.first.get().pos;
    let first = label_value(alloc, found, env, at, of, &label.first)?;
    match &label.last {
        None => Ok(range_of(first, first)),
        Some(last) => {
            let last = label_value(alloc, found, env, at, of, last)?;
            Ok(range_of(first, last))
        },
    }
}

/// The labels of an arm, behind those so far.
#[tactic(auto, using(aos_symbols::proofs::Keeping::after_more, aos_symbols::proofs::Steps::walk_step, aos_symbols::proofs::Steps::walk_end))]
pub fn labels_in(
    alloc: Global,
    found: &mut Option<Breach>,
    env: &Env<'_>,
    of: Option<TypeId>,
    labels: &mut Labels,
    arm: &[Label],
) -> Result<Vec<LabelRange>, AllocError>
    requires { AreTaken labels.old.all.items labels.old.taken }
    ensures noted { OnOk result (found.new ≡ first_after found.old
        (walk (judge.label_in env.now of) labels.old.all.items arm.now).breaches) }
    ensures all { OnOk result (labels.new.all.items ≡
        (walk (judge.label_in env.now of) labels.old.all.items arm.now).answer) }
    ensures taken { OnOk result (AreTaken labels.new.all.items labels.new.taken) }
    ensures behind { IfOk result (λ v. v.items ≡ drop (length labels.old.all.items)
        (walk (judge.label_in env.now of) labels.old.all.items arm.now).answer) }
{
    let first = labels.all.len();
    for label in arm {
        let range = label_range(alloc, found, env, of, label)?;
        labels.put(found, label.first.get().pos, range)?;
    }
    labels.behind(alloc, first)
}

/// The selector of CASE: an integer or a character.
#[tactic(auto, using(aos_symbols::proofs::Keeping::after_more))]
pub fn selector(
    alloc: Global,
    found: &mut Option<Breach>,
    env: &Env<'_>,
    part: &Boxed<Expr>,
) -> Result<Answer, AllocError>
    ensures noted { OnOk result (found.new ≡
        first_after found.old (judge.selector env.now part.now).breaches) }
    ensures answer { IfOk result (λ v. seen_answer v ≡ (judge.selector env.now part.now).answer) }
{
    let value = expr(alloc, found, env, part)?;
    if !(is_number(value.known.of) || is_char(value.known.of)) {
        note(found, WRONG_LABEL, part.get().pos);
    }
    Ok(value)
}
