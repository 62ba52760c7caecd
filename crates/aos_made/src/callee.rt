// What is called, made part by part.

ghost use Rattle.std.specs.Prelude.{◌≡◌, IfOk};
ghost use Rattle.aos_typed.specs.Program as program;
ghost use Rattle.aos_typed.specs.Seen.{seen_callee, seen_expr};

use crate::typed::Typed;
use aos_typed::TCallee;
use std::alloc::{AllocError, Global};
use std::marker::Model;

/// How it is kept: what has no parts takes no memory.
#[derive(Drop)]
enum Kept {
    Plain(u32, u32),
    Upper(u32, u32),
    Made(Box<TCallee>),
}

/// What is called.
pub struct MadeCallee {
    kept: Kept,
}

impl Model for MadeCallee {
    ghost use Rattle.aos_typed.specs.declared.tree.TCallee.{TCallee};
    ghost use Rattle.aos_typed.specs.contracts.tree.TCallee as tree;
    ghost use Rattle.std.specs.Coded.{codes};

    ghost Value = { TCallee };

    ghost coded = { Prim.hlevel (codes, tree.the_row.coded) };

    ghost use Rattle.aos_made.specs.KeptCallee.{callee_of};

    ghost view = { λ a. callee_of a.kept };
}

// Crates above drop it by this one call.
impl Drop for MadeCallee {
    fn drop(self) {
        let MadeCallee { kept } = self;
        drop(kept);
    }
}

fn made(alloc: Global, callee: TCallee) -> Result<MadeCallee, AllocError>
    ensures { IfOk result (λ r. r ≡ callee) }
{
    Ok(MadeCallee {
        kept: Kept::Made(Box::new(alloc, callee)?),
    })
}

impl MadeCallee {
    /// As a part of an expression or a statement.
    pub fn take(self) -> TCallee
        ensures { result ≡ self }
    {
        let MadeCallee { kept } = self;
        match kept {
            Kept::Plain(home, number) => TCallee::Plain(home, number),
            Kept::Upper(of, slot) => TCallee::Upper(of, slot),
            Kept::Made(callee) => Box::into_inner(callee),
        }
    }

    /// A procedure of a module, by both numbers.
    pub fn plain(home: u32, number: u32) -> MadeCallee
        ensures { seen_callee result ≡ program.Plain home number }
    {
        MadeCallee {
            kept: Kept::Plain(home, number),
        }
    }

    /// The method that a type has in a slot, called on SELF.
    pub fn upper(of: u32, slot: u32) -> MadeCallee
        ensures { seen_callee result ≡ program.Upper of slot }
    {
        MadeCallee {
            kept: Kept::Upper(of, slot),
        }
    }

    /// The method in a slot of an object, of which this type is known.
    pub fn dispatched(
        alloc: Global,
        object: Typed,
        of: u32,
        slot: u32,
    ) -> Result<MadeCallee, AllocError>
        ensures { IfOk result (λ r. seen_callee r ≡ program.Dispatched (seen_expr object) of slot) }
    {
        let object = object.part(alloc)?;
        made(alloc, TCallee::Dispatched(object, of, slot))
    }

    /// What a value of a procedure type stands for, by the type's number in the program.
    pub fn through(alloc: Global, value: Typed, of: u32) -> Result<MadeCallee, AllocError>
        ensures { IfOk result (λ r. seen_callee r ≡ program.Through (seen_expr value) of) }
    {
        let value = value.part(alloc)?;
        made(alloc, TCallee::Through(value, of))
    }
}
