// Expressions, one behind another.

ghost use Rattle.std.specs.Prelude.{◌≡◌, ◌++◌, ◌∷◌, [], OnOk};

use aos_made::{Typed, put};
use aos_typed::TExpr;
use std::alloc::{AllocError, Global};
use std::marker::Model;

/// Expressions, in order.
pub struct MadeExprs {
    row: Vec<TExpr>,
}

impl Model for MadeExprs {
    ghost use Rattle.std.specs.Prelude.{List};
    ghost use Rattle.aos_typed.specs.declared.tree.TExpr.{TExpr};
    ghost use Rattle.aos_typed.specs.contracts.tree.TExpr as tree;
    ghost use Rattle.std.specs.Coded.{codes, coded_list};

    ghost Value = { List TExpr };

    ghost coded = { coded_list (Prim.hlevel (codes, tree.the_row.coded)) };

    ghost view = { λ a. a.row.items };
}

// Crates above drop them by this one call.
impl Drop for MadeExprs {
    fn drop(self) {
        let MadeExprs { row } = self;
        drop(row);
    }
}

impl MadeExprs {
    /// No expressions.
    pub fn new(alloc: Global) -> MadeExprs
        ensures { result ≡ [] }
    {
        MadeExprs {
            row: Vec::new(alloc),
        }
    }

    /// One more, behind the others.
    pub fn push(&mut self, one: Typed) -> Result<(), AllocError>
        ensures { OnOk result (self.new ≡ self.old ++ one ∷ []) }
    {
        put(&mut self.row, one.take())?;
        Ok(())
    }

    /// As a part of a statement.
    pub(crate) fn take(self) -> Vec<TExpr>
        ensures { result.items ≡ self }
    {
        let MadeExprs { row } = self;
        row
    }
}
