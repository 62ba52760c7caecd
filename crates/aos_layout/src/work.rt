// The kinds of a type's cells, put into a list by tasks: types stand in one another as deep as there are types, and an array's
// element is looked at once.

ghost use Rattle.std.specs.Prelude.{◌≡◌, ◌<◌, ◌≤◌, ◌+◌, ◌++◌, ◌∷◌, [], Some, List, true, drop, OnOk, IfOk, IfSome};
ghost use Rattle.aos_types.specs.declared.row.TypeRow.{TypeRow};
ghost use Rattle.aos_types.specs.Chain.{NoneContainsItself, base_list};
ghost use Rattle.aos_types.specs.Table as table;
ghost use Rattle.aos_layout.specs.Layout as layout;
ghost use Rattle.aos_layout.specs.Work as work;

use crate::type_parts::{base_of, is_empty, row_of};
use aos_base::NoMemory;
use aos_code::Kind;
use aos_types::{Basic, TypeId, TypeRow, Types};
use std::alloc::{AllocError, Global};

/// What is to be put behind the kinds that are there.
#[derive(Clone, Copy)]
enum Task {
    /// The kinds of a type.
    Contents(TypeId),
    /// Those of a type's own fields, from this number on.
    Fields(TypeId, usize),
    /// Those from this place on, so many times more.
    Again(usize, u32),
}

/// The kinds that are there, and what is to be put behind them, the last first.
#[derive(Drop)]
struct Work {
    tasks: Vec<Task>,
    kinds: Vec<Kind>,
}

/// The kind of a scalar's cell.
pub(crate) fn kind_of(types: &Types, t: TypeId) -> Kind
    ensures { result ≡ layout.kind_of types.now t }
{
    match row_of(types, t) {
        Some(TypeRow::Basic(Basic::Nil)) => Kind::R,
        Some(TypeRow::Pointer(_)) => Kind::R,
        Some(TypeRow::Object(_, _)) => Kind::R,
        Some(TypeRow::Any) => Kind::R,
        Some(TypeRow::Procedure(_, _)) => Kind::C,
        _ => Kind::N,
    }
}

/// Whether it is an object type.
pub(crate) fn is_object(types: &Types, t: TypeId) -> bool
    ensures { result ≡ table.is_object (table.row_of types.now t) }
{
    matches!(row_of(types, t), Some(TypeRow::Object(_, _)))
}

/// The own fields of a record or an object type.
fn fields_of(types: &Types, t: TypeId) -> &[TypeId]
    ensures { result.now ≡ work.fields_of (table.row_of types.now t) }
{
    match row_of(types, t) {
        Some(TypeRow::Record(_, fields)) => fields.as_slice(),
        Some(TypeRow::Object(_, fields)) => fields.as_slice(),
        _ => &[],
    }
}

impl Work {
    /// Puts the kinds of a variable, an element or a field.
    fn put_variable(&mut self, types: &Types, t: TypeId) -> Result<(), AllocError>
        ensures kinds { OnOk result (work.outcome types.now self.new ≡
            work.all_done types.now self.old.tasks.items
            (self.old.kinds.items ++ work.variable_kinds types.now t)) }
        ensures steps { OnOk result (work.all_steps types.now self.new.tasks.items ≤
            work.all_steps types.now self.old.tasks.items + work.variable_steps types.now t) }
    {
        if is_object(types, t) {
            self.kinds.push(Kind::R)?;
        } else {
            self.tasks.push(Task::Contents(t))?;
        }
        Ok(())
    }

    /// Puts the kinds of so many elements.
    fn put_array(&mut self, types: &Types, length: u32, element: TypeId) -> Result<(), AllocError>
        ensures kinds { OnOk result (work.outcome types.now self.new ≡
            work.all_done types.now self.old.tasks.items
            (self.old.kinds.items ++ work.again length (work.variable_kinds types.now element))) }
        ensures steps { OnOk result (work.all_steps types.now self.new.tasks.items ≤
            work.all_steps types.now self.old.tasks.items + 1 + work.variable_steps types.now
            element) }
    {
        if length > 0 {
            self.tasks.push(Task::Again(self.kinds.len(), length - 1))?;
            self.put_variable(types, element)?;
        }
        Ok(())
    }

    /// Puts the kinds of a base and of a type's own fields.
    fn put_record(&mut self, t: TypeId, base: Option<TypeId>) -> Result<(), AllocError>
        ensures kinds { (rows : List TypeRow) → OnOk result (work.outcome rows self.new ≡
            work.all_done rows self.old.tasks.items (self.old.kinds.items ++
            (work.base_kinds rows base ++
            work.field_kinds rows (work.fields_of (table.row_of rows t))))) }
        ensures steps { (rows : List TypeRow) →
            OnOk result (work.all_steps rows self.new.tasks.items ≤
            work.all_steps rows self.old.tasks.items + 1 +
            work.field_steps rows (work.fields_of (table.row_of rows t)) + work.sum_of
            (work.steps rows) (base_list base)) }
    {
        self.tasks.push(Task::Fields(t, 0))?;
        if let Some(base) = base {
            self.tasks.push(Task::Contents(base))?;
        }
        Ok(())
    }

    /// Puts the kinds of a type's contents.
    fn put_contents(&mut self, types: &Types, t: TypeId) -> Result<(), AllocError>
        requires { NoneContainsItself types.now }
        ensures kinds { OnOk result (work.outcome types.now self.new ≡
            work.all_done types.now self.old.tasks.items (self.old.kinds.items ++
            layout.kinds types.now t)) }
        ensures steps { OnOk result (work.all_steps types.now self.new.tasks.items <
            work.all_steps types.now self.old.tasks.items + work.steps types.now t) }
    {
        // Without this a type of empty records, each of them twice the one before it, would take forever.
        if is_empty(types, t) {
            return Ok(());
        }
        match row_of(types, t) {
            None => Ok(()),
            Some(TypeRow::Open(_)) => Ok(()),
            Some(TypeRow::Array(length, element)) => self.put_array(types, *length, *element),
            Some(TypeRow::Record(base, _)) => self.put_record(t, *base),
            Some(TypeRow::Object(base, _)) => self.put_record(t, *base),
            _ => {
                self.kinds.push(kind_of(types, t))?;
                Ok(())
            },
        }
    }

    /// Puts the kinds of a type's own fields from this number on.
    fn put_fields(&mut self, types: &Types, t: TypeId, number: usize) -> Result<(), AllocError>
        ensures kinds { OnOk result (work.outcome types.now self.new ≡
            work.all_done types.now self.old.tasks.items (self.old.kinds.items ++
            work.field_kinds types.now (drop number (work.fields_of (table.row_of types.now t))))) }
        ensures steps { OnOk result (work.all_steps types.now self.new.tasks.items ≤
            work.all_steps types.now self.old.tasks.items +
            work.field_steps types.now (drop number (work.fields_of (table.row_of types.now t)))) }
    {
        let fields = fields_of(types, t);
        if number < fields.len() {
            self.tasks.push(Task::Fields(t, number + 1))?;
            self.put_variable(types, fields[number])?;
        }
        Ok(())
    }

    /// Puts the kinds from a place on so many times more.
    fn put_again(&mut self, from: usize, times: u32) -> Result<(), AllocError>
        ensures kinds { OnOk result (self.new.kinds.items ≡
            self.old.kinds.items ++ work.again times (drop from self.old.kinds.items)) }
        ensures tasks { self.new.tasks ≡ self.old.tasks }
    {
        let end = self.kinds.len();
        if from < end {
            for _time in 0..times {
                self.kinds.extend_from_within(from..end)?;
            }
        }
        Ok(())
    }

    /// Does a task.
    fn put(&mut self, types: &Types, task: Task) -> Result<(), AllocError>
        requires { NoneContainsItself types.now }
        ensures kinds { OnOk result (work.outcome types.now self.new ≡
            work.all_done types.now self.old.tasks.items
            (work.done types.now task self.old.kinds.items)) }
        ensures steps { OnOk result (work.all_steps types.now self.new.tasks.items <
            work.all_steps types.now self.old.tasks.items + work.task_steps types.now task) }
    {
        match task {
            Task::Contents(t) => self.put_contents(types, t),
            Task::Fields(t, number) => self.put_fields(types, t, number),
            Task::Again(from, times) => self.put_again(from, times),
        }
    }
}

/// What is to be done for a type's kinds.
fn begun(alloc: Global, t: TypeId) -> Result<Work, AllocError>
    ensures kinds { IfOk result (λ w. w.kinds.items ≡ []) }
    ensures tasks { IfOk result (λ w. w.tasks.items ≡ Task.Contents t ∷ []) }
{
    let mut tasks = Vec::new(alloc);
    tasks.push(Task::Contents(t))?;
    Ok(Work {
        tasks,
        kinds: Vec::new(alloc),
    })
}

/// What is to be done for a type's own fields, behind the kinds of its base.
fn begun_behind(alloc: Global, types: &Types, above: &[Kind], t: TypeId) -> Result<Work, AllocError>
    ensures kinds { IfOk result (λ w. w.kinds.items ≡ above.now) }
    ensures tasks { IfOk result (λ w. w.tasks.items ≡ Task.Fields t 0 ∷ []) }
{
    let count = above.len().saturating_add(fields_of(types, t).len());
    let mut kinds = Vec::with_capacity(alloc, count)?;
    kinds.extend_from_slice(above)?;
    let mut tasks = Vec::new(alloc);
    tasks.push(Task::Fields(t, 0))?;
    Ok(Work { tasks, kinds })
}

/// The kinds that are there when all tasks are done.
fn finished(types: &Types, begun: Work) -> Result<Vec<Kind>, AllocError>
    requires { NoneContainsItself types.now }
    ensures { IfOk result (λ kinds. kinds.items ≡ work.outcome types.now begun) }
{
    let mut work = begun;
    while let Some(task) = work.tasks.pop() {
        work.put(types, task)?;
    }
    let Work { tasks, kinds } = work;
    drop(tasks);
    Ok(kinds)
}

/// The kinds of a type's cells.
#[tactic(auto, using(crate::proofs::Behind::kinds_begun))]
pub(crate) fn kinds_of(alloc: Global, types: &Types, t: TypeId) -> Result<Vec<Kind>, AllocError>
    requires { NoneContainsItself types.now }
    ensures { IfOk result (λ kinds. kinds.items ≡ layout.kinds types.now t) }
{
    let first = begun(alloc, t)?;
    let kinds = finished(types, first)?;
    Ok(kinds)
}

/// The base of an object type, where that is an object type, too.
pub fn object_base(types: &Types, t: TypeId) -> Option<TypeId>
    ensures object { IfSome result (λ base. table.is_object (table.row_of types.now t) ≡ true) }
    ensures base { IfSome result (λ base. table.base_of (table.row_of types.now t) ≡ Some base) }
    ensures above { IfSome result (λ base. table.is_object (table.row_of types.now base) ≡ true) }
{
    if !is_object(types, t) {
        return None;
    }
    let base = base_of(types, t)?;
    if is_object(types, base) {
        Some(base)
    } else {
        None
    }
}

/// The kinds of the cells of an object type's objects, where these are those of its base's: a copy of them, and its own fields' behind.
#[tactic(auto, using(crate::proofs::Behind::kinds_after))]
pub fn object_kinds(
    alloc: Global,
    types: &Types,
    base: TypeId,
    above: &[Kind],
    t: TypeId,
) -> Result<Vec<Kind>, NoMemory>
    requires none_contains_itself { NoneContainsItself types.now }
    requires object { table.is_object (table.row_of types.now t) ≡ true }
    requires base { table.base_of (table.row_of types.now t) ≡ Some base }
    requires above { table.is_object (table.row_of types.now base) ≡ true }
    requires kinds { above.now ≡ layout.made_kinds types.now base }
    ensures { IfOk result (λ kinds. kinds.items ≡ layout.made_kinds types.now t) }
{
    let first = begun_behind(alloc, types, above, t)?;
    let kinds = finished(types, first)?;
    Ok(kinds)
}
