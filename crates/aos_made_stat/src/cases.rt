// The arms of CASE, one behind another, and its ELSE.

ghost use Rattle.std.specs.Prelude.{◌≡◌, [], OnOk};
ghost use Rattle.aos_typed.specs.Program.{Cases, NoElse, Else, OfLabels};
ghost use Rattle.aos_typed.specs.Seen.{cases_of, seen_else, seen_stats};

use crate::stats::MadeStats;
use aos_made::put;
use aos_typed::{LabelRange, TCase, TElse};
use std::alloc::{AllocError, Global};
use std::marker::Model;

/// The arms of CASE, in order.
pub struct MadeCases {
    row: Vec<TCase>,
}

impl Model for MadeCases {
    ghost use Rattle.std.specs.Prelude.{List};
    ghost use Rattle.aos_typed.specs.declared.tree.TCase.{TCase};
    ghost use Rattle.aos_typed.specs.contracts.tree.TCase as tree;
    ghost use Rattle.std.specs.Coded.{codes, coded_list};

    ghost Value = { List TCase };

    ghost coded = { coded_list (Prim.hlevel (codes, tree.the_row.coded)) };

    ghost view = { λ a. a.row.items };
}

// Crates above drop them by this one call.
impl Drop for MadeCases {
    fn drop(self) {
        let MadeCases { row } = self;
        drop(row);
    }
}

impl MadeCases {
    /// No arms.
    pub fn new(alloc: Global) -> MadeCases
        ensures { result ≡ [] }
    {
        MadeCases {
            row: Vec::new(alloc),
        }
    }

    /// One more, behind the others: its labels and its statements.
    #[tactic(auto, using(crate::proofs::Onto::cases_more))]
    pub fn push(&mut self, labels: Vec<LabelRange>, body: MadeStats) -> Result<(), AllocError>
        ensures { OnOk result ((others : Cases) → cases_of self.new others ≡
            cases_of self.old (OfLabels labels.items (seen_stats body) others)) }
    {
        let arm = TCase {
            labels,
            body: body.take(),
        };
        put(&mut self.row, arm)?;
        Ok(())
    }

    /// As a part of a statement.
    pub(crate) fn take(self) -> Vec<TCase>
        ensures { result.items ≡ self }
    {
        let MadeCases { row } = self;
        row
    }
}

/// ELSE of CASE, if there is one.
pub struct MadeElse {
    kept: TElse,
}

impl Model for MadeElse {
    ghost use Rattle.aos_typed.specs.declared.tree.TElse.{TElse};
    ghost use Rattle.aos_typed.specs.contracts.tree.TElse as tree;
    ghost use Rattle.std.specs.Coded.{codes};

    ghost Value = { TElse };

    ghost coded = { Prim.hlevel (codes, tree.the_row.coded) };

    ghost view = { λ a. a.kept };
}

// Crates above drop it by this one call.
impl Drop for MadeElse {
    fn drop(self) {
        let MadeElse { kept } = self;
        drop(kept);
    }
}

impl MadeElse {
    /// None.
    pub fn missing() -> MadeElse
        ensures { seen_else result ≡ NoElse }
    {
        MadeElse {
            kept: TElse::Missing,
        }
    }

    /// These statements.
    #[tactic(auto, using(aos_typed::proofs::Seen::else_seen))]
    pub fn of(body: MadeStats) -> MadeElse
        ensures { seen_else result ≡ Else (seen_stats body) }
    {
        MadeElse {
            kept: TElse::Else(body.take()),
        }
    }

    /// As a part of a statement.
    pub(crate) fn take(self) -> TElse
        ensures { result ≡ self }
    {
        let MadeElse { kept } = self;
        kept
    }
}
