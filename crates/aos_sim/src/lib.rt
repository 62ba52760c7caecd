//! Laws alone: one step of the image is one step of the source, and answers rewrite an expression.
//! Its functions do no work; their contracts are the laws.
#![tactic(auto)]

ghost use Rattle.aos_typed.specs.Program.{Program};
ghost use Rattle.aos_code.specs.declared.image.Image.{Image};
ghost use Rattle.aos_typed.specs.WellTyped.{IsWellTyped};
ghost use Rattle.aos_sim.specs.Shows.{IsCodeOf, Shows, NeverLost};
ghost use Rattle.aos_sim.specs.Judges.{JudgesAsProgram};
ghost use Rattle.aos_sim.specs.Monitors.{HasMonitors};
ghost use Rattle.aos_sim.specs.Rewriting.{DesignatorRewrites, ExpressionRewrites, StatementRewrites, AssignedRewrites, AssignmentRewrites};

/// An image that has a well-typed program's code shows the program: for every budget and every
/// schedule of any number of workers the two executions have the same observation, the same
/// events and the same book.
pub fn image_shows_program()
    ensures { (p : Program) (image : Image) → IsWellTyped p → IsCodeOf p image → Shows p image }
{}

/// No execution of an image that has a well-typed program's code comes to trap 16, that of code
/// which finds another operand than it takes, or a place that isn't there.
pub fn image_is_never_lost()
    ensures { (p : Program) (image : Image) → IsWellTyped p → IsCodeOf p image → NeverLost image }
{}

/// What the conditions come to that are awaited is in an image that has a well-typed program's code
/// what it is in the program: each over the frames of the one that awaits it, in every state of
/// every execution and in the store that a turn leaves.
pub fn image_judges_as_program()
    ensures { (p : Program) (image : Image) → IsWellTyped p → IsCodeOf p image →
        JudgesAsProgram p image }
{}

/// In every state of every execution of a program at most one activity is in a lock's regions and waits for no condition there, and it
/// is the owner; a lock with an entrant has an owner; an activity that has ended owns nothing and stands nowhere; and each one stands in
/// one place at most. Each release gives the lock to whom it is due, that of an activity whose condition fails too, which stands last
/// among those who wait from then on; and a trap line is added exactly where a turn traps. Where an execution is Dead, each activity
/// that hasn't ended stands in a lock's list.
pub fn program_has_monitors()
    ensures { (p : Program) → HasMonitors p }
{}

/// A designator or an expression whose first reads have been answered means the same as the one in
/// which each of these reads is replaced by a literal of its answer; and so does a statement that has
/// come so far, whatever it does with the value.
pub fn feeding_is_rewriting()
    ensures designator { DesignatorRewrites }
    ensures expression { ExpressionRewrites }
    ensures statement { StatementRewrites }
    ensures assigned { AssignedRewrites }
    ensures assignment { AssignmentRewrites }
{}
