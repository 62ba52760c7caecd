// Loans: an activity's frames go out for private turns, and come back.
ghost use Rattle.std.specs.Prelude.{◌≡◌, List, IfOk, IfSome, IfNone};
ghost use Rattle.aos_base.specs.declared.kernel.Event.{Event};
ghost use Rattle.aos_base.specs.Machine.{State};
ghost use Rattle.aos_code.specs.declared.image.Image.{Image};
ghost use Rattle.aos_code.specs.Memory.{Memory};
ghost use Rattle.aos_code.specs.Machine.{Frames as FramesOf};
ghost use Rattle.aos_kernel.specs.Run.{among, without};
ghost use Rattle.aos_kernel.specs.Shows.{Shows, ShowsSame, NextIs, HasTurn};
ghost use Rattle.aos_kernel.specs.Lends.{GoesOut, IsShared, ComeBack};

use crate::activity::Next;
use crate::tables::{KernelTables, spent_after};
use aos_base::NoMemory;
use aos_code::Image;
use aos_private::is_next_private;
use aos_store::Frames;
use std::mem;

impl KernelTables {
    /// The frames of an activity that runs go out where its next turn is private; of them only the count of statements is left.
    /// Else only silent work is done.
    pub fn take_frames(&mut self, image: &Image, activity: u32) -> Result<Option<Frames>, NoMemory>
        requires turn { HasTurn activity self.old }
        requires runs { NextIs activity Next.Runs self.old }
        ensures out { IfOk result (λ frames. IfSome frames (λ f.
            (earlier : List Event) (st : State Memory FramesOf) →
            Shows image.now earlier self.old st → GoesOut image.now activity f st)) }
        ensures none { IfOk result (λ frames. IfNone frames
            ((earlier : List Event) (st : State Memory FramesOf) →
            Shows image.now earlier self.old st →
            IsShared image.now st.store (st.frames activity))) }
        ensures same { ShowsSame image.now self.old self.new }
    {
        let Some(kept) = self.activities.get_mut(activity as usize) else {
            return Err(NoMemory);
        };
        if !is_next_private(self.alloc, image, &mut kept.frames)? {
            return Ok(None);
        }
        let mut left = Frames::new(self.alloc);
        left.begun = kept.frames.begun;
        kept.next = Next::Lent;
        Ok(Some(mem::replace(&mut kept.frames, left)))
    }

    /// The frames of an activity whose next turn is its own come back, and the statements that have begun on them are
    /// counted.
    pub fn put_frames(&mut self, activity: u32, frames: Frames)
        requires { HasTurn activity self.old }
        ensures { (image : Image) (earlier : List Event) (st : State Memory FramesOf) →
            Shows image earlier self.old st → ComeBack image earlier activity frames self.new st }
    {
        if let Some(kept) = self.activities.get_mut(activity as usize) {
            let before = kept.frames.begun;
            let begun = frames.begun;
            kept.next = Next::Runs;
            kept.frames = frames;
            self.spent = spent_after(self.spent, self.budget, before, begun, activity);
        }
    }
}

/// Whether a worker is one of these.
pub fn is_among(worker: u32, workers: &[u32]) -> bool
    ensures { result ≡ among worker workers.now }
{
    for v in workers {
        if *v == worker {
            return true;
        }
    }
    false
}

/// A worker is taken out of these.
pub fn take_out(worker: u32, workers: &mut Vec<u32>)
    ensures { workers.new.items ≡ without worker workers.old.items }
{
    workers.retain(|v| *v != worker)
}
