// An activity's frames out of the kernel.
ghost use Rattle.std.specs.Prelude.{◌≡◌, ◌<◌, ◌≤◌, ◌+◌, ℕ, List, false, IfOk};
ghost use Rattle.std.specs.Arc.{arc_value};
ghost use Rattle.aos_base.specs.Rooted.{Made};
ghost use Rattle.aos_code.specs.Machine.{Frames as FramesOf};
ghost use Rattle.aos_store.specs.Store.{frames_in};
ghost use Rattle.aos_silent_steps.specs.Room.{StayFit};
ghost use Rattle.aos_cpu.specs.Private.{is_private};
ghost use Rattle.aos_loan.specs.Loans.{IsMadeOf};

use aos_base::NoMemory;
use aos_code::Image;
use aos_cpu::private;
use aos_store::Frames;
use std::alloc::Global;
use std::marker::Model;
use std::sync::Arc;

/// The frames of an activity that are lent, with the image and the budget of their kernel. Clauses see how many turns the loan has
/// made, and the frames as they are kept.
#[derive(Drop)]
pub struct Loan {
    image: Arc<Image>,
    budget: u64,
    turns: u32,
    frames: Frames,
}

impl Model for Loan {
    ghost use Rattle.std.specs.Prelude.{◌≤◌};
    ghost use Rattle.std.specs.Arc.{arc_value};
    ghost use Rattle.aos_loan.specs.Loans.{Lending};

    ghost Value = { Lending };

    ghost view = { λ l. record {
      image = arc_value l.image;
      budget = l.budget;
      turns = l.turns;
      frames = l.frames;
    } };

    ghost invariant = { λ l. l.turns ≤ 1000000000 };
}

/// The most turns of a loan.
pub const MOST_TURNS: u32 = 1_000_000_000;

impl Loan {
    /// A loan of these frames, which has made no turn yet.
    pub fn new(image: Arc<Image>, budget: u64, frames: Frames) -> Loan
        ensures { result ≡ record {
          image = arc_value image;
          budget = budget;
          turns = 0;
          frames = frames;
        } }
    {
        Loan {
            image,
            budget,
            turns: 0,
            frames,
        }
    }

    /// How many turns it has made.
    pub fn turns(&self) -> u32
        ensures turns { result ≡ self.now.turns }
        ensures most { result ≤ MOST_TURNS }
    {
        self.turns
    }

    /// Its frames, as they are by now.
    pub fn into_frames(self) -> Frames
        ensures { result ≡ self.frames }
    {
        self.frames
    }

    /// So many private turns at most, while fewer statements have begun than the budget: how many have been made. Where memory
    /// runs out, the turns before that are kept.
    pub fn run(&mut self, alloc: Global, most: u32) -> Result<u32, NoMemory>
        requires { self.old.turns + most ≤ MOST_TURNS }
        ensures made { (made : List Made) (begun : ℕ) (fs : FramesOf) →
            IsMadeOf made begun fs self.old → IsMadeOf made begun fs self.new }
        ensures fit { StayFit self.old.image self.old.frames self.new.frames }
        ensures image { self.new.image ≡ self.old.image }
        ensures budget { self.new.budget ≡ self.old.budget }
        ensures most { self.new.turns ≤ self.old.turns + most }
        ensures fewer { self.old.turns ≤ self.new.turns }
        ensures count { IfOk result (λ n. self.new.turns ≡ n + self.old.turns) }
        ensures stop { IfOk result (λ n. n < most → self.new.frames.begun < self.new.budget →
            is_private self.new.image (frames_in self.new.frames) ≡ false) }
    {
        let before = self.frames.turns;
        let made = private(alloc, &self.image, &mut self.frames, most, self.budget);
        let more = self.frames.turns.wrapping_sub(before) as u32;
        self.turns += more;
        match made {
            Ok((many, _)) => Ok(many),
            Err(_) => Err(NoMemory),
        }
    }
}
