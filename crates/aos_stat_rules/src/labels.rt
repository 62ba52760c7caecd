// The labels of CASE so far.

ghost use Rattle.std.specs.Prelude.{◌≡◌, ◌++◌, ◌∷◌, [], drop, OnOk, IfOk, false};
ghost use Rattle.std.specs.List.{list_any};
ghost use Rattle.aos_typed.specs.WellTyped.{meets};
ghost use Rattle.aos_symbols.specs.Breaches.{first_after};
ghost use Rattle.aos_stat_rules.specs.Statements as judge;
ghost use Rattle.aos_stat_rules.specs.Taken.{AreTaken};

use aos_base::Pos;
use aos_known::{is_char, is_number};
use aos_symbols::{Breach, WRONG_LABEL, note};
use aos_typed::LabelRange;
use aos_types::TypeId;
use std::alloc::{AllocError, Global};
use std::collections::BTreeMap;

/// One more label among those that aren't empty, which meets none of the labels so far.
fn take(taken: &mut BTreeMap<i64, i64>, range: LabelRange) -> Result<(), AllocError>
    ensures { OnOk result ((ls : judge.Labels) → AreTaken ls taken.old →
        list_any (meets range) ls ≡ false → AreTaken (ls ++ range ∷ []) taken.new) }
{
    if range.low <= range.high {
        taken.insert(range.low, range.high)?;
    }
    Ok(())
}

/// The labels of a CASE so far, in the order of the text, and those that aren't empty by their first values: no two of these have
/// a value together, so that the last one that begins before a value's end tells whether any meets it.
#[derive(Drop)]
pub struct Labels {
    pub all: Vec<LabelRange>,
    pub taken: BTreeMap<i64, i64>,
}

impl Labels {
    /// No labels.
    pub fn new(alloc: Global) -> Labels
        ensures none { result.all.items ≡ [] }
        ensures taken { AreTaken result.all.items result.taken }
    {
        Labels {
            all: Vec::new(alloc),
            taken: BTreeMap::new(alloc),
        }
    }

    /// Whether one of these labels has a value of this one.
    fn meet(&self, range: LabelRange) -> bool
        requires { AreTaken self.now.all.items self.now.taken }
        ensures { result ≡ list_any (meets range) self.now.all.items }
    {
        if range.low > range.high {
            return false;
        }
        match self.taken.range(..=range.high).next_back() {
            Some((_, high)) => range.low <= *high,
            None => false,
        }
    }

    /// One more label, which meets none of these.
    fn add(&mut self, range: LabelRange) -> Result<(), AllocError>
        requires taken { AreTaken self.old.all.items self.old.taken }
        requires apart { list_any (meets range) self.old.all.items ≡ false }
        ensures all { OnOk result (self.new.all.items ≡ self.old.all.items ++ range ∷ []) }
        ensures taken { OnOk result (AreTaken self.new.all.items self.new.taken) }
    {
        take(&mut self.taken, range)?;
        self.all.push(range)?;
        Ok(())
    }

    /// One more label, which stands at a place, unless one of its values is a label already.
    pub fn put(
        &mut self,
        found: &mut Option<Breach>,
        at: Pos,
        range: Option<LabelRange>,
    ) -> Result<(), AllocError>
        requires { AreTaken self.old.all.items self.old.taken }
        ensures noted { OnOk result (found.new ≡
            first_after found.old (judge.with_label self.old.all.items at range).breaches) }
        ensures all { OnOk result (self.new.all.items ≡
            (judge.with_label self.old.all.items at range).answer) }
        ensures taken { OnOk result (AreTaken self.new.all.items self.new.taken) }
    {
        let Some(range) = range else {
            return Ok(());
        };
        if self.meet(range) {
            note(found, WRONG_LABEL, at);
            return Ok(());
        }
        self.add(range)
    }

    /// The labels behind the first ones.
    pub fn behind(&self, alloc: Global, first: usize) -> Result<Vec<LabelRange>, AllocError>
        ensures { IfOk result (λ v. v.items ≡ drop first self.now.all.items) }
    {
        Vec::from_slice(alloc, self.all.get(first..).unwrap_or(&[]))
    }
}

/// Whether a label is of the selector's kind.
pub fn is_label(of: Option<TypeId>, label: Option<TypeId>) -> bool
    ensures { result ≡ judge.is_label of label }
{
    is_number(of) && is_number(label) || is_char(of) && is_char(label)
}

pub fn range_of(first: Option<i64>, last: Option<i64>) -> Option<LabelRange>
    ensures { result ≡ judge.range_of first last }
{
    match (first, last) {
        (Some(low), Some(high)) => Some(LabelRange { low, high }),
        _ => None,
    }
}
