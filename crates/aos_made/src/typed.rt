// An expression, made part by part.

ghost use Rattle.std.specs.Prelude.{◌≡◌, IfOk};
ghost use Rattle.aos_typed.specs.Program as program;
ghost use Rattle.aos_typed.specs.Seen.{seen_callee, seen_expr, seen_list, seen_place, seen_rows};
ghost use Rattle.aos_made.specs.Looked.{looked};

use crate::arguments::MadeArguments;
use crate::callee::MadeCallee;
use crate::place::MadePlace;
use crate::rows::MadeRows;
use aos_base::{Binary, Relation, Unary};
use aos_typed::{Literal, TExpr, TPlace, TType};
use std::alloc::{AllocError, Global};
use std::marker::Model;

/// How it is kept: what has no parts takes no memory, nor does what reads a variable.
#[derive(Drop)]
enum Kept {
    Lit(Literal),
    Itself,
    Procedure(u32, u32),
    Read(TType, MadePlace),
    Made(Box<TExpr>),
}

/// What an expression is, to be read.
#[derive(Clone, Copy)]
pub enum Look<'a> {
    Lit(Literal),
    Itself,
    Procedure(u32, u32),
    Read(TType, &'a TPlace),
    Made(&'a TExpr),
}

/// An expression.
pub struct Typed {
    kept: Kept,
}

impl Model for Typed {
    ghost use Rattle.aos_typed.specs.declared.tree.TExpr.{TExpr};
    ghost use Rattle.aos_typed.specs.contracts.tree.TExpr as tree;
    ghost use Rattle.std.specs.Coded.{codes};

    ghost Value = { TExpr };

    ghost coded = { Prim.hlevel (codes, tree.the_row.coded) };

    ghost use Rattle.aos_made.specs.Kept.{value_of};

    ghost view = { λ a. value_of a.kept };
}

// Crates above drop it by this one call.
impl Drop for Typed {
    fn drop(self) {
        let Typed { kept } = self;
        drop(kept);
    }
}

fn boxed(alloc: Global, e: TExpr) -> Result<Box<TExpr>, AllocError>
    ensures { IfOk result (λ r. r.value ≡ e) }
{
    Ok(Box::new(alloc, e)?)
}

impl Typed {
    /// Any expression.
    pub fn new(alloc: Global, e: TExpr) -> Result<Typed, AllocError>
        ensures { IfOk result (λ r. r ≡ e) }
    {
        Ok(Typed {
            kept: Kept::Made(Box::new(alloc, e)?),
        })
    }

    /// As a part of another expression.
    pub fn part(self, alloc: Global) -> Result<Box<TExpr>, AllocError>
        ensures { IfOk result (λ r. r.value ≡ self) }
    {
        let Typed { kept } = self;
        match kept {
            Kept::Lit(l) => boxed(alloc, TExpr::Lit(l)),
            Kept::Itself => boxed(alloc, TExpr::SelfRef),
            Kept::Procedure(home, number) => boxed(alloc, TExpr::ProcedureOf(home, number)),
            Kept::Read(of, place) => boxed(alloc, TExpr::Read(of, place.take())),
            Kept::Made(e) => Ok(e),
        }
    }

    /// As a part of a statement.
    pub fn take(self) -> TExpr
        ensures { result ≡ self }
    {
        let Typed { kept } = self;
        match kept {
            Kept::Lit(l) => TExpr::Lit(l),
            Kept::Itself => TExpr::SelfRef,
            Kept::Procedure(home, number) => TExpr::ProcedureOf(home, number),
            Kept::Read(of, place) => TExpr::Read(of, place.take()),
            Kept::Made(e) => Box::into_inner(e),
        }
    }

    /// What it is.
    pub fn look(&self) -> Look<'_>
        ensures { looked result ≡ self.now }
    {
        match &self.kept {
            Kept::Lit(l) => Look::Lit(*l),
            Kept::Itself => Look::Itself,
            Kept::Procedure(home, number) => Look::Procedure(*home, *number),
            Kept::Read(of, place) => Look::Read(*of, place.look()),
            Kept::Made(e) => Look::Made(e),
        }
    }

    /// A value that is written in the text.
    pub fn literal(l: Literal) -> Typed
        ensures { seen_expr result ≡ program.Lit l }
    {
        Typed { kept: Kept::Lit(l) }
    }

    /// The object whose method or body it is in.
    pub fn itself() -> Typed
        ensures { seen_expr result ≡ program.SelfRef }
    {
        Typed { kept: Kept::Itself }
    }

    /// A procedure of a module as a value, by both numbers.
    pub fn procedure(home: u32, number: u32) -> Typed
        ensures { seen_expr result ≡ program.ProcedureOf home number }
    {
        Typed {
            kept: Kept::Procedure(home, number),
        }
    }

    /// A variable of this type.
    pub fn read(of: TType, place: MadePlace) -> Typed
        ensures { seen_expr result ≡ program.Read of (seen_place place) }
    {
        Typed {
            kept: Kept::Read(of, place),
        }
    }

    /// An operator on one operand.
    pub fn unary(alloc: Global, op: Unary, a: Typed) -> Result<Typed, AllocError>
        ensures { IfOk result (λ r. seen_expr r ≡ program.Unary op (seen_expr a)) }
    {
        let a = a.part(alloc)?;
        Typed::new(alloc, TExpr::Unary(op, a))
    }

    /// The set of one element.
    pub fn element(alloc: Global, a: Typed) -> Result<Typed, AllocError>
        ensures { IfOk result (λ r. seen_expr r ≡ program.Element (seen_expr a)) }
    {
        let a = a.part(alloc)?;
        Typed::new(alloc, TExpr::Element(a))
    }

    /// The code of a character.
    pub fn ord(alloc: Global, a: Typed) -> Result<Typed, AllocError>
        ensures { IfOk result (λ r. seen_expr r ≡ program.Ord (seen_expr a)) }
    {
        let a = a.part(alloc)?;
        Typed::new(alloc, TExpr::Ord(a))
    }

    /// The character of a code.
    pub fn chr(alloc: Global, a: Typed) -> Result<Typed, AllocError>
        ensures { IfOk result (λ r. seen_expr r ≡ program.Chr (seen_expr a)) }
    {
        let a = a.part(alloc)?;
        Typed::new(alloc, TExpr::Chr(a))
    }

    /// Whether an object's type extends this one, by its number in the program.
    pub fn is(alloc: Global, a: Typed, of: u32) -> Result<Typed, AllocError>
        ensures { IfOk result (λ r. seen_expr r ≡ program.Is (seen_expr a) of) }
    {
        let a = a.part(alloc)?;
        Typed::new(alloc, TExpr::Is(a, of))
    }

    /// An object whose type extends this one, by its number in the program.
    pub fn guard(alloc: Global, a: Typed, of: u32) -> Result<Typed, AllocError>
        ensures { IfOk result (λ r. seen_expr r ≡ program.Guard (seen_expr a) of) }
    {
        let a = a.part(alloc)?;
        Typed::new(alloc, TExpr::Guard(a, of))
    }

    /// The method in a slot of an object, of which this type is known, as a value.
    pub fn method_of(alloc: Global, a: Typed, of: u32, slot: u32) -> Result<Typed, AllocError>
        ensures { IfOk result (λ r. seen_expr r ≡ program.MethodOf (seen_expr a) of slot) }
    {
        let a = a.part(alloc)?;
        Typed::new(alloc, TExpr::MethodOf(a, of, slot))
    }

    /// An operator on two operands.
    pub fn binary(alloc: Global, op: Binary, a: Typed, b: Typed) -> Result<Typed, AllocError>
        ensures { IfOk result (λ r. seen_expr r ≡ program.Binary op (seen_expr a) (seen_expr b)) }
    {
        let a = a.part(alloc)?;
        let b = b.part(alloc)?;
        Typed::new(alloc, TExpr::Binary(op, a, b))
    }

    /// Both.
    pub fn and(alloc: Global, a: Typed, b: Typed) -> Result<Typed, AllocError>
        ensures { IfOk result (λ r. seen_expr r ≡ program.And (seen_expr a) (seen_expr b)) }
    {
        let a = a.part(alloc)?;
        let b = b.part(alloc)?;
        Typed::new(alloc, TExpr::And(a, b))
    }

    /// One of both.
    pub fn or(alloc: Global, a: Typed, b: Typed) -> Result<Typed, AllocError>
        ensures { IfOk result (λ r. seen_expr r ≡ program.Or (seen_expr a) (seen_expr b)) }
    {
        let a = a.part(alloc)?;
        let b = b.part(alloc)?;
        Typed::new(alloc, TExpr::Or(a, b))
    }

    /// Whether both are one object.
    pub fn same(alloc: Global, a: Typed, b: Typed) -> Result<Typed, AllocError>
        ensures { IfOk result (λ r. seen_expr r ≡ program.Same (seen_expr a) (seen_expr b)) }
    {
        let a = a.part(alloc)?;
        let b = b.part(alloc)?;
        Typed::new(alloc, TExpr::Same(a, b))
    }

    /// Whether both stand for one procedure.
    pub fn same_procedure(alloc: Global, a: Typed, b: Typed) -> Result<Typed, AllocError>
        ensures { IfOk result (λ r.
            seen_expr r ≡ program.SameProcedure (seen_expr a) (seen_expr b)) }
    {
        let a = a.part(alloc)?;
        let b = b.part(alloc)?;
        Typed::new(alloc, TExpr::SameProcedure(a, b))
    }

    /// Whether the type of a record extends this one, by its number in the program.
    pub fn is_record(alloc: Global, whole: MadePlace, of: u32) -> Result<Typed, AllocError>
        ensures { IfOk result (λ r. seen_expr r ≡ program.IsRecord (seen_place whole) of) }
    {
        Typed::new(alloc, TExpr::IsRecord(whole.part(), of))
    }

    /// Two texts compared.
    pub fn compare_texts(
        alloc: Global,
        relation: Relation,
        a: MadeRows,
        b: MadeRows,
    ) -> Result<Typed, AllocError>
        ensures { IfOk result (λ r. seen_expr r ≡
            program.CompareTexts relation (seen_rows a) (seen_rows b)) }
    {
        Typed::new(alloc, TExpr::CompareTexts(relation, a.part(), b.part()))
    }

    /// The length of a dimension of an array.
    pub fn len(alloc: Global, rows: MadeRows, dimension: u32) -> Result<Typed, AllocError>
        ensures { IfOk result (λ r. seen_expr r ≡ program.Len (seen_rows rows) dimension) }
    {
        Typed::new(alloc, TExpr::Len(rows.take(), dimension))
    }

    /// The length of a dimension behind the open ones, which is known.
    pub fn len_behind(alloc: Global, rows: MadeRows, length: u32) -> Result<Typed, AllocError>
        ensures { IfOk result (λ r. seen_expr r ≡ program.LenBehind (seen_rows rows) length) }
    {
        Typed::new(alloc, TExpr::LenBehind(rows.take(), length))
    }

    /// The result of a function.
    #[tactic(auto, using(aos_typed::proofs::Seen::function_seen))]
    pub fn function(
        alloc: Global,
        callee: MadeCallee,
        given: MadeArguments,
    ) -> Result<Typed, AllocError>
        ensures { IfOk result (λ r. seen_expr r ≡
            program.Function (seen_callee callee) (seen_list given)) }
    {
        Typed::new(alloc, TExpr::Function(callee.take(), given.take()))
    }
}
