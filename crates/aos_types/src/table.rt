// The table of types.

ghost use Rattle.std.specs.Prelude.{◌≡◌, ◌↔◌, ◌<◌, ◌^◌, ◌++◌, ◌∷◌, [], length, slice_get, slice_set, IfOk, OnOk, OnErr, IsTrue};
ghost use Rattle.aos_base.specs.declared.limits.TheConstants.{MOST_SCALARS};
ghost use Rattle.aos_types.specs.Chain.{ContainsItself, NoneContainsItself, circles, cut};
ghost use Rattle.aos_types.specs.Contents.{at_most, scalars, variable_scalars as variable_scalars_of};
ghost use Rattle.aos_types.specs.Limit.{is_first_past as is_first_past_of};
ghost use Rattle.aos_types.specs.Extension.{extends as extends_of};
ghost use Rattle.aos_types.specs.Sameness.{same as same_of};
ghost use Rattle.aos_types.specs.Fit.{fits as fits_of};

use crate::count::{Step, above, count_all, count_last, recount, within_limit};
use crate::row::{TypeId, TypeRow};
use crate::{chain, circle, extension, fit, limit, sameness};
use aos_base::NoMemory;
use std::alloc::Global;
use std::marker::Model;

/// The table of types, which contracts see as the list of its rows. Beside each row stands how many scalars its type has.
#[derive(Drop)]
pub struct Types {
    rows: Vec<TypeRow>,
    counts: Vec<Option<u32>>,
    path: Vec<Step>,
    waiting: TypeId,
    above: u64,
}

impl Model for Types {
    ghost use Rattle.std.specs.Prelude.{List, vec_capacity};
    ghost use Rattle.aos_types.specs.declared.row.TypeRow.{TypeRow};
    ghost use Rattle.aos_types.specs.Count.{IsTable};

    ghost Value = { List TypeRow };

    ghost view = { λ t. t.rows.items };

    ghost invariant = { λ t. IsTable t.rows.items t.counts.items (vec_capacity t.path) t.above };
}

impl Types {
    /// The empty table.
    pub fn new(alloc: Global) -> Result<Types, NoMemory>
        ensures { IfOk result (λ types. types ≡ []) }
    {
        Ok(Types {
            rows: Vec::new(alloc),
            counts: Vec::new(alloc),
            path: Vec::with_capacity(alloc, 1)?,
            waiting: TypeId(0),
            above: 0,
        })
    }

    /// Puts a row at the end; the type's number is that of the rows before it. Without memory the table stays as it was.
    pub fn add(&mut self, row: TypeRow) -> Result<TypeId, NoMemory>
        requires { length self.old < 2 ^ 32 }
        ensures number { IfOk result (λ id. id.0 ≡ length self.old) }
        ensures ok { OnOk result (self.new ≡ self.old ++ row ∷ []) }
        ensures err { OnErr result (self.new ≡ self.old) }
    {
        self.rows.reserve(1)?;
        self.counts.reserve(1)?;
        self.path.clear();
        self.path.reserve(self.rows.len() + 2)?;
        let id = TypeId(self.rows.len() as u32);
        let is_new = self.above <= u64::from(id.0);
        self.above = above(&row, self.above);
        self.rows.push_reserved(row);
        self.counts.push_reserved(None);
        count_last(
            &self.rows,
            &mut self.counts,
            &mut self.path,
            &mut self.waiting,
            is_new,
        );
        Ok(id)
    }

    /// Puts another row in a type's place, so that types may name later ones. It takes no memory. All counts of scalars are
    /// made anew, except while a row is an array of its own type: let that be the row of a type that is to come.
    pub fn set(&mut self, id: TypeId, row: TypeRow)
        requires { id.0 < length self.old }
        ensures { self.new ≡ slice_set self.old id.0 row }
    {
        self.above = above(&row, self.above);
        self.rows[id.0 as usize] = row;
        recount(
            &self.rows,
            &mut self.counts,
            &mut self.path,
            &mut self.waiting,
        );
    }

    /// How many types were added.
    pub fn len(&self) -> usize
        ensures { result ≡ length self.now }
    {
        self.rows.len()
    }

    /// The row of a type.
    pub fn row(&self, id: TypeId) -> &TypeRow
        requires { id.0 < length self.now }
        ensures { slice_get self.now id.0 ≡ Some result.now }
    {
        &self.rows[id.0 as usize]
    }
    /// Whether a type extends another: it is the other, or bases lead from it to the other. A pointer type extends another
    /// where the record type that it leads to extends the other's (Oberon-2 report, 6.3 and 6.4).
    pub fn extends(&self, a: TypeId, b: TypeId) -> bool
        ensures { result ≡ extends_of self.now a b }
    {
        extension::extends(&self.rows, a, b)
    }

    /// Whether two types are the same (Oberon-2 report, appendix A).
    pub fn same(&self, a: TypeId, b: TypeId) -> bool
        ensures { result ≡ same_of self.now a b }
    {
        sameness::same(&self.rows, a, b)
    }

    /// Whether a value of one type fits a variable of another (Oberon-2 report, appendix A, assignment compatible). What may
    /// be passed for an open array parameter is no part of it.
    pub fn fits(&self, from: TypeId, to: TypeId) -> bool
        ensures { result ≡ fits_of self.now from to }
    {
        fit::fits(&self.rows, from, to)
    }
    /// Whether a type contains itself: a chain of elements, fields and bases leads from it back to it. Pointers, and elements
    /// and fields of an object type, end a chain (Oberon-2 report, 6.3; Reali 2002).
    pub fn contains_itself(&self, alloc: Global, t: TypeId) -> Result<bool, NoMemory>
        ensures { IfOk result (λ found. IsTrue found ↔ ContainsItself self.now t) }
    {
        let found = chain::contains_itself(alloc, &self.rows, t)?;
        Ok(found)
    }
    /// Whether no type of the table contains itself.
    pub fn none_contains_itself(&self, alloc: Global) -> Result<bool, NoMemory>
        ensures { IfOk result (λ none. IsTrue none ↔ NoneContainsItself self.now) }
    {
        let mut counts = vec![in alloc; None; self.rows.len()]?;
        let mut path = Vec::with_capacity(alloc, self.rows.len() + 1)?;
        Ok(count_all(&self.rows, &mut counts, &mut path))
    }

    /// How many scalars a type has: None exactly past 2^24. Of an object type it counts those of an object's fields, its
    /// base's included; an element, a field or a variable of an object type is one scalar.
    pub fn leaves(&self, t: TypeId) -> Option<u32>
        requires added { t.0 < length self.now }
        requires none_contains_itself { NoneContainsItself self.now }
        ensures { result ≡ at_most MOST_SCALARS (scalars self.now t) }
    {
        within_limit(self.counts[t.0 as usize])
    }

    /// How many scalars a variable, an element or a field of a type has: None exactly past 2^24.
    pub fn variable_scalars(&self, t: TypeId) -> Option<u32>
        requires added { t.0 < length self.now }
        requires none_contains_itself { NoneContainsItself self.now }
        ensures { result ≡ at_most MOST_SCALARS (variable_scalars_of self.now t) }
    {
        match self.row(t) {
            TypeRow::Object(_, _) => Some(1),
            _ => self.leaves(t),
        }
    }

    /// Whether a type has more scalars than a type may have, though none of its parts and not its base has.
    pub fn is_first_past(&self, t: TypeId) -> bool
        requires added { t.0 < length self.now }
        requires none_contains_itself { NoneContainsItself self.now }
        ensures { result ≡ is_first_past_of self.now t }
    {
        limit::is_first_past(&self.rows, &self.counts, t)
    }

    /// For each type whether it contains itself. Each that does becomes a record without fields, so that none does. Without
    /// memory the table stays as it was.
    pub fn cut_circles(&mut self, alloc: Global) -> Result<Vec<bool>, NoMemory>
        ensures circles { IfOk result (λ flags. flags.items ≡ circles self.old) }
        ensures ok { OnOk result (self.new ≡ cut (circles self.old) self.old) }
        ensures none_left { OnOk result (NoneContainsItself self.new) }
        ensures err { OnErr result (self.new ≡ self.old) }
    {
        if self.none_contains_itself(alloc)? {
            let flags = chain::no_marks(alloc, self.rows.len())?;
            return Ok(flags);
        }
        let flags = circle::circles(alloc, &self.rows)?;
        chain::cut(alloc, &mut self.rows, &flags);
        recount(
            &self.rows,
            &mut self.counts,
            &mut self.path,
            &mut self.waiting,
        );
        Ok(flags)
    }
}
