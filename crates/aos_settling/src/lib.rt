//! The law of loans over any machine: private turns that were made elsewhere are steps of their worker, at the place of the log
//! where they are added, whatever others have done since.
#![tactic(auto)]

ghost use Rattle.aos_settling.specs.Laws.{SettlesAt, SettlesLaterAt, KeepsStore, KeepsBudget, TalliesAt};

/// Turns that are private over the store at which they are settled are steps of the worker, also where others have made theirs
/// since the frames were lent. Of the book the count of that activity alone is another, and with it who has used up the budget.
pub fn settles<S, F>()
    ensures at_once { SettlesAt S F }
    ensures later { SettlesLaterAt S F }
    ensures tally { TalliesAt }
{}

/// What each turn keeps of the store, every schedule keeps; and none changes the budget.
pub fn stays<S, F>()
    ensures store { KeepsStore S F }
    ensures budget { KeepsBudget S F }
{}
