// Statements, one behind another.

ghost use Rattle.std.specs.Prelude.{◌≡◌, ◌++◌, ◌∷◌, [], OnOk};

use crate::stat::MadeStat;
use aos_made::put;
use aos_typed::TStat;
use std::alloc::{AllocError, Global};
use std::marker::Model;

/// A sequence of statements.
pub struct MadeStats {
    row: Vec<TStat>,
}

impl Model for MadeStats {
    ghost use Rattle.std.specs.Prelude.{List};
    ghost use Rattle.aos_typed.specs.declared.tree.TStat.{TStat};
    ghost use Rattle.aos_typed.specs.contracts.tree.TStat as tree;
    ghost use Rattle.std.specs.Coded.{codes, coded_list};

    ghost Value = { List TStat };

    ghost coded = { coded_list (Prim.hlevel (codes, tree.the_row.coded)) };

    ghost view = { λ a. a.row.items };
}

// Crates above drop them by this one call.
impl Drop for MadeStats {
    fn drop(self) {
        let MadeStats { row } = self;
        drop(row);
    }
}

impl MadeStats {
    /// No statements.
    pub fn new(alloc: Global) -> MadeStats
        ensures { result ≡ [] }
    {
        MadeStats {
            row: Vec::new(alloc),
        }
    }

    /// One more, behind the others.
    pub fn push(&mut self, one: MadeStat) -> Result<(), AllocError>
        ensures { OnOk result (self.new ≡ self.old ++ one ∷ []) }
    {
        put(&mut self.row, one.take())?;
        Ok(())
    }

    /// As a part of a statement or a body.
    pub fn take(self) -> Vec<TStat>
        ensures { result.items ≡ self }
    {
        let MadeStats { row } = self;
        row
    }
}
