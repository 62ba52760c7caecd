// The quiet initializers.

ghost use Rattle.std.specs.Prelude.{◌≡◌, ◌↔◌, ◌++◌, ◌∷◌, [], ℕ, Bool, Some, true, false, ◌&&◌, nat_le, length, IfOk, OnOk, IsTrue};
ghost use Rattle.aos_types.specs.Extension.{comes_to};
ghost use Rattle.aos_typed.specs.declared.tree.TType.TheVariants.{Named};
ghost use Rattle.aos_typed.specs.Numbers.{id_of, procedure_number};
ghost use Rattle.aos_typed.specs.Seen.{seen_program};
ghost use Rattle.aos_dispatch.specs.Routines.{seen_routine};
ghost use Rattle.aos_guard.specs.Edges.{AreMarks, AreTexts, HasBelow, InTexts, LeadsFrom};
ghost use Rattle.aos_uses.specs.Guarded.{Each, IsNamed, Keeps, is_initial, is_marked, method_of, raised};
ghost use Rattle.aos_guard.specs.Marks.{IsClosed, IsWithin, marked};

use crate::marks::{Edge, has_mark, take_back};
use aos_dispatch::{Dispatch, Routine, after};
use aos_uses::uses::Use;
use std::alloc::{AllocError, Global};

// What a type has in a slot, as the number of a routine.
#[tactic(auto, using(crate::proofs::Edges::method_there, crate::proofs::Edges::method_missing))]
fn method_of(dispatch: &Dispatch<'_>, of: u32, slot: u32) -> Option<u32>
    ensures { result ≡ method_of (seen_program dispatch.now) of slot }
{
    if (of as usize) < dispatch.type_count() {
        dispatch.entry(of, slot)
    } else {
        None
    }
}

// What is called by ^, 0 where there is nothing.
fn raised(dispatch: &Dispatch<'_>, of: u32, slot: u32) -> u32
    ensures { result ≡ raised (seen_program dispatch.now) of slot }
{
    method_of(dispatch, of, slot).unwrap_or(0)
}

// Whether a type has this method in a slot.
fn has_method(dispatch: &Dispatch<'_>, of: u32, slot: u32, method: u32) -> bool
    ensures { IsTrue result ↔ (method_of (seen_program dispatch.now) of slot ≡ Some method) }
{
    match method_of(dispatch, of, slot) {
        Some(found) => found == method,
        None => false,
    }
}

// Whether a type comes to this base, which has in a slot what is named.
#[tactic(auto, using(crate::proofs::Tests::second_holds))]
fn is_below(
    dispatch: &Dispatch<'_>,
    owner: u32,
    base: u32,
    slot: u32,
    named: u32,
) -> Result<bool, AllocError>
    ensures { IfOk result (λ b.
        IsTrue b ↔ ((method_of (seen_program dispatch.now) base slot ≡ Some named) ×
        (comes_to (seen_program dispatch.now).types (id_of (Named owner)) (id_of (Named base)) ≡
        true))) }
{
    let extends = dispatch.extends(owner, base)?;
    Ok(has_method(dispatch, base, slot, named) && extends)
}

// Whether a type or a base of it has in a slot what is named.
#[tactic(auto, using(crate::proofs::Edges::below_first, crate::proofs::Edges::below_more, crate::proofs::Edges::below_none, crate::proofs::Edges::below_found))]
fn has_below(dispatch: &Dispatch<'_>, owner: u32, slot: u32, named: u32) -> Result<bool, AllocError>
    ensures { IfOk result (λ b. IsTrue b ↔ HasBelow (seen_program dispatch.now) owner slot named) }
{
    for base in 0..dispatch.type_count() {
        let number = after(0, base)?;
        if is_below(dispatch, owner, number, slot, named)? {
            return Ok(true);
        }
    }
    Ok(false)
}

// One more edge.
#[tactic(auto, using(crate::proofs::Edges::closed_put))]
fn put_edge(edges: &mut Vec<Edge>, from: u32, to: u32) -> Result<(), AllocError>
    ensures { OnOk result ((set : ℕ → Bool) → IsClosed edges.new.items set ↔
        (IsClosed edges.old.items set × (IsTrue (set from) → IsTrue (set to)))) }
{
    edges.push(Edge { from, to })?;
    Ok(())
}

// An edge from the method that a type has in a slot, where the type or a base of it has there what is named.
#[tactic(auto, using(crate::proofs::Adds::owner_none, crate::proofs::Adds::owner_unmarked, crate::proofs::Adds::owner_loose))]
fn put_owner(
    edges: &mut Vec<Edge>,
    dispatch: &Dispatch<'_>,
    marks: &[bool],
    owner: u32,
    slot: u32,
    named: u32,
    to: u32,
) -> Result<(), AllocError>
    ensures { OnOk result ((set : ℕ → Bool) → IsWithin set (marked marks.now) →
        IsClosed edges.new.items set ↔
        (IsClosed edges.old.items set ×
        LeadsFrom (seen_program dispatch.now) set owner slot named to)) }
{
    let Some(method) = method_of(dispatch, owner, slot) else {
        return Ok(());
    };
    if !has_mark(marks, method) {
        return Ok(());
    }
    if has_below(dispatch, owner, slot, named)? {
        put_edge(edges, method, to)
    } else {
        Ok(())
    }
}

// Edges from what a designator names, and what overrides that.
#[tactic(auto, using(crate::proofs::Adds::leads_first, crate::proofs::Adds::named_missing))]
fn put_named(
    edges: &mut Vec<Edge>,
    dispatch: &Dispatch<'_>,
    marks: &[bool],
    of: u32,
    slot: u32,
    to: u32,
) -> Result<(), AllocError>
    ensures { OnOk result ((set : ℕ → Bool) → IsWithin set (marked marks.now) →
        IsClosed edges.new.items set ↔
        (IsClosed edges.old.items set ×
        ((n : ℕ) → IsNamed (seen_program dispatch.now) n of slot →
        IsTrue (set n) → IsTrue (set to)))) }
{
    let Some(named) = method_of(dispatch, of, slot) else {
        return Ok(());
    };
    for owner in 0..dispatch.type_count() {
        let number = after(0, owner)?;
        put_owner(edges, dispatch, marks, number, slot, named, to)?;
    }
    Ok(())
}

// A call by ^ in a text.
fn put_raised(
    edges: &mut Vec<Edge>,
    dispatch: &Dispatch<'_>,
    marks: &[bool],
    text: u32,
    of: u32,
    slot: u32,
) -> Result<(), AllocError>
    ensures { OnOk result ((set : ℕ → Bool) → IsWithin set (marked marks.now) →
        IsClosed edges.new.items set ↔
        (IsClosed edges.old.items set × Keeps (seen_program dispatch.now) (λ n. IsTrue (set n)) text
        (Use.Raises of slot))) }
{
    put_edge(edges, text, raised(dispatch, of, slot))?;
    put_named(edges, dispatch, marks, of, slot, text)?;
    Ok(())
}

// What no text of the set has.
fn put_loud(edges: &mut Vec<Edge>, marks: &[bool], text: u32) -> Result<(), AllocError>
    requires { marked marks.now 0 ≡ false }
    ensures { OnOk result ((set : ℕ → Bool) → IsWithin set (marked marks.now) →
        IsClosed edges.new.items set ↔
        (IsClosed edges.old.items set × (IsTrue (set text) → ⊥))) }
{
    put_edge(edges, text, 0)
}

// A name of what is in no set.
#[tactic(auto, using(crate::proofs::Adds::found_put))]
fn put_found(
    edges: &mut Vec<Edge>,
    dispatch: &Dispatch<'_>,
    marks: &[bool],
    of: u32,
    slot: u32,
) -> Result<(), AllocError>
    requires { marked marks.now 0 ≡ false }
    ensures { OnOk result ((set : ℕ → Bool) → IsWithin set (marked marks.now) →
        IsClosed edges.new.items set ↔
        (IsClosed edges.old.items set × ((n : ℕ) → IsNamed (seen_program dispatch.now) n of slot →
        IsTrue (set n) → ⊥))) }
{
    put_named(edges, dispatch, marks, of, slot, 0)?;
    Ok(())
}

// A use in a text of a set.
#[tactic(auto, using(crate::proofs::Adds::adds_unit))]
fn put_use(
    edges: &mut Vec<Edge>,
    dispatch: &Dispatch<'_>,
    marks: &[bool],
    text: u32,
    one: Use,
) -> Result<(), AllocError>
    requires { marked marks.now 0 ≡ false }
    ensures { OnOk result ((set : ℕ → Bool) → IsWithin set (marked marks.now) →
        IsClosed edges.new.items set ↔
        (IsClosed edges.old.items set ×
        Keeps (seen_program dispatch.now) (λ n. IsTrue (set n)) text one)) }
{
    match one {
        Use::Writes(_, _) => Ok(()),
        Use::Reads(_) => Ok(()),
        Use::Varies(_) => Ok(()),
        Use::Follows => Ok(()),
        Use::SelfValue => put_loud(edges, marks, text),
        Use::Calls => put_loud(edges, marks, text),
        Use::Raises(of, slot) => put_raised(edges, dispatch, marks, text, of, slot),
        Use::Finds(of, slot) => put_found(edges, dispatch, marks, of, slot),
        Use::Binds => put_loud(edges, marks, text),
        Use::Makes => put_loud(edges, marks, text),
    }
}

// Those in a text.
#[tactic(auto, using(crate::proofs::Adds::left_first))]
fn put_text(
    edges: &mut Vec<Edge>,
    dispatch: &Dispatch<'_>,
    marks: &[bool],
    text: u32,
    uses: &[Use],
) -> Result<(), AllocError>
    requires { marked marks.now 0 ≡ false }
    ensures { OnOk result ((set : ℕ → Bool) → IsWithin set (marked marks.now) →
        IsClosed edges.new.items set ↔
        (IsClosed edges.old.items set ×
        Each (Keeps (seen_program dispatch.now) (λ n. IsTrue (set n)) text) uses.now)) }
{
    for one in uses {
        put_use(edges, dispatch, marks, text, *one)?;
    }
    Ok(())
}

// Those in all texts.
#[tactic(auto, using(crate::proofs::Adds::says_first))]
fn edges_of(
    alloc: Global,
    dispatch: &Dispatch<'_>,
    marks: &[bool],
    texts: &[Vec<Use>],
) -> Result<Vec<Edge>, AllocError>
    requires { marked marks.now 0 ≡ false }
    ensures { IfOk result (λ edges. (set : ℕ → Bool) → IsWithin set (marked marks.now) →
        IsClosed edges.items set ↔
        InTexts (Keeps (seen_program dispatch.now) (λ n. IsTrue (set n))) texts.now) }
{
    let mut edges = Vec::new(alloc);
    for index in 0..texts.len() {
        let number = after(1, index)?;
        put_text(&mut edges, dispatch, marks, number, &texts[index])?;
    }
    Ok(edges)
}

// Whether a routine is marked as an initializer.
fn is_initializer(routine: &Routine<'_>) -> bool
    ensures { result ≡ is_marked (seen_routine routine.now).own }
{
    match routine {
        Routine::Body(_, _, _) => false,
        Routine::Procedure(_, procedure) => procedure.is_initializer,
    }
}

// Whether a routine of this number is an initializer, where methods are numbered on from the first one.
fn mark_of(first: u32, number: u32, routine: &Routine<'_>) -> bool
    ensures { result ≡ (nat_le first number && is_marked (seen_routine routine.now).own) }
{
    let marked = is_initializer(routine);
    first <= number && marked
}

// One more mark.
fn put_mark(marks: &mut Vec<bool>, mark: bool) -> Result<(), AllocError>
    ensures { OnOk result (marks.new.items ≡ marks.old.items ++ mark ∷ []) }
{
    marks.push(mark)?;
    Ok(())
}

// The number of the first method: it is behind those of all else that runs.
fn first_method(dispatch: &Dispatch<'_>) -> Result<u32, AllocError>
    ensures { IfOk result (λ n.
        n ≡ procedure_number (seen_program dispatch.now)
        (length (seen_program dispatch.now).modules) 0) }
{
    let count = dispatch.program().modules.len();
    if count >= u32::MAX as usize {
        return Err(AllocError);
    }
    dispatch.called(count as u32, 0)
}

// The marks of the initializers: methods, whose numbers follow those of all else that runs.
#[tactic(auto, using(crate::proofs::Initial::marks_begin, crate::proofs::Initial::marks_more))]
fn initial_marks(alloc: Global, dispatch: &Dispatch<'_>) -> Result<Vec<bool>, AllocError>
    ensures { IfOk result (λ marks.
        (n : ℕ) → marked marks.items n ≡ is_initial (seen_program dispatch.now) n) }
{
    let first = first_method(dispatch)?;
    let mut marks = Vec::new(alloc);
    put_mark(&mut marks, false)?;
    let routines = dispatch.routines();
    for index in 0..routines.len() {
        let number = after(1, index)?;
        put_mark(&mut marks, mark_of(first, number, &routines[index]))?;
    }
    Ok(marks)
}

/// The quiet initializers of a program, by the numbers of routines.
#[tactic(auto, using(crate::proofs::Found::nothing_marked))]
pub fn quiet_of(
    alloc: Global,
    dispatch: &Dispatch<'_>,
    texts: &[Vec<Use>],
) -> Result<Vec<bool>, AllocError>
    requires { AreTexts (seen_program dispatch.now) texts.now }
    ensures { IfOk result (λ marks. AreMarks (seen_program dispatch.now) marks.items) }
{
    let mut marks = initial_marks(alloc, dispatch)?;
    let edges = edges_of(alloc, dispatch, &marks, texts)?;
    take_back(&edges, &mut marks);
    Ok(marks)
}
