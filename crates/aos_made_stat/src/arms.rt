// The arms of IF, one behind another.

ghost use Rattle.std.specs.Prelude.{◌≡◌, [], OnOk};
ghost use Rattle.aos_typed.specs.Program.{Arms, Arm};
ghost use Rattle.aos_typed.specs.Seen.{seen_expr, seen_stats};
ghost use Rattle.aos_made_stat.specs.Onto.{onto};

use crate::stats::MadeStats;
use aos_made::{Typed, put};
use aos_typed::TArm;
use std::alloc::{AllocError, Global};
use std::marker::Model;

/// The arms of IF that have a test, in order.
pub struct MadeArms {
    row: Vec<TArm>,
}

impl Model for MadeArms {
    ghost use Rattle.std.specs.Prelude.{List};
    ghost use Rattle.aos_typed.specs.declared.tree.TArm.{TArm};
    ghost use Rattle.aos_typed.specs.contracts.tree.TArm as tree;
    ghost use Rattle.std.specs.Coded.{codes, coded_list};

    ghost Value = { List TArm };

    ghost coded = { coded_list (Prim.hlevel (codes, tree.the_row.coded)) };

    ghost view = { λ a. a.row.items };
}

// Crates above drop them by this one call.
impl Drop for MadeArms {
    fn drop(self) {
        let MadeArms { row } = self;
        drop(row);
    }
}

impl MadeArms {
    /// No arms.
    pub fn new(alloc: Global) -> MadeArms
        ensures { result ≡ [] }
    {
        MadeArms {
            row: Vec::new(alloc),
        }
    }

    /// One more, behind the others: its test and its statements.
    #[tactic(auto, using(crate::proofs::Onto::onto_more))]
    pub fn push(&mut self, test: Typed, body: MadeStats) -> Result<(), AllocError>
        ensures { OnOk result ((others : Arms) → onto self.new others ≡
            onto self.old (Arm (seen_expr test) (seen_stats body) others)) }
    {
        let arm = TArm {
            test: test.take(),
            body: body.take(),
        };
        put(&mut self.row, arm)?;
        Ok(())
    }

    /// As a part of a statement.
    pub(crate) fn take(self) -> Vec<TArm>
        ensures { result.items ≡ self }
    {
        let MadeArms { row } = self;
        row
    }
}
