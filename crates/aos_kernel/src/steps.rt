// Steps of one worker, one behind another.
ghost use Rattle.std.specs.Prelude.{◌≡◌, ◌<◌, ◌≤◌, false, IfOk, OnErr};
ghost use Rattle.aos_kernel.specs.Run.{among};
ghost use Rattle.aos_kernel.specs.Steps.{AreSteps, WhereNone};

use crate::kernel::Kernel;
use crate::log::Stepped;
use aos_base::NoMemory;

impl Kernel {
    /// Steps of a worker, below the number of workers, so many at most: how many have been made. They are turns in place of its
    /// activity, one behind another, and then a step of any kind; one at least, where a step would be made. No event happens in any
    /// of them but the last. NoMemory where memory runs out and none has been made, and then the kernel is as it was.
    pub fn steps(&mut self, w: u32, most: u32) -> Result<u32, NoMemory>
        requires worker { w < self.old.workers }
        requires lent { among w self.old.lent ≡ false }
        ensures most { IfOk result (λ made. made ≤ most) }
        ensures made { IfOk result (λ made. AreSteps made w self.old self.new) }
        ensures none { IfOk result (λ made. WhereNone made most w self.old self.new) }
        ensures same { self.new ≡ record self.old { log = self.new.log } }
        ensures err { OnErr result (self.new ≡ self.old) }
    {
        let made = self.run_in_place(w, most)?;
        if most <= made {
            return Ok(made);
        }
        match self.step(w) {
            Ok(Stepped::Turned) => Ok(made + 1),
            Ok(Stepped::Dispatched) => Ok(made + 1),
            Ok(Stepped::Idle) => Ok(made),
            Ok(Stepped::Over) => Ok(made),
            Err(none) => { if made == 0 { Err(none) } else { Ok(made) } }
        }
    }
}
