// Laws of the kernel.
ghost use Rattle.aos_kernel.specs.Asked.{JudgesWaiters};

use crate::conditions::Conditions;
use aos_lock::Test;

/// The test by which the kernel releases a lock tells of each activity that awaits a condition what this condition comes to, as the
/// definitions of the image say it: over the activity's own frames, and in the state of the release.
pub fn test_judges_waiters()
    ensures { JudgesWaiters (⟦<Conditions<'static> as Test>⟧.verdict_of) }
{}
