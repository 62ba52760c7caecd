// The cell and its passes.

ghost use Rattle.std.specs.Prelude.{◌≡◌, ◌∷◌, [], IfOk, IfErr};
ghost use Rattle.aos_cell.specs.declared.rule.View.TheVariants.{Of};
ghost use Rattle.aos_cell.specs.Rule.{workers_of};
ghost use Rattle.aos_cell.specs.Steps.{first_part, HasWorkers, Finds, Takes, MayGive, Gives, MaySplit, split_left, split_right, HasOne, IsFree, joined, HasAll};

use crate::rule::View;
use aos_base::NoMemory;
use aos_kernel::Kernel;
use crossbeam_queue::protocol::{Join, Lesson, Outcome, Protocol, Split};
use crossbeam_queue::{Pass, RuledArrayQueue};
use std::alloc::Global;
use std::hint::spin_loop;
use std::marker::Model;
use std::sync::Wait;
use std::thread;

/// The rule: one kernel, which the queue holds or one pass has.
struct OneKernel;

impl Protocol<Box<Kernel>, View> for OneKernel {
    ghost use Rattle.aos_cell.specs.declared.rule.View.TheVariants.{Opens};
    ghost use Rattle.aos_cell.specs.Rule.{Rule};

    ghost holds = { Rule };

    ghost first = { Opens };
}

/// The kernel is put in, into an empty queue.
struct Opening;

impl Outcome<Box<Kernel>, View> for Opening {
    ghost use Rattle.std.specs.Prelude.{◌≡◌};
    ghost use Rattle.aos_cell.specs.declared.rule.View.TheVariants.{Of};
    ghost use Rattle.aos_cell.specs.Steps.{first_part};

    ghost then = { λ v k w. w ≡ Of (first_part k.value) };
}

impl Lesson<Box<Kernel>, View> for Opening {
    ghost use Rattle.std.specs.Prelude.{◌≡◌, []};

    ghost fact = { λ v items. items ≡ [] };
}

/// A pass takes the kernel; one that has all workers finds it in the queue.
struct Taking;

impl Outcome<Box<Kernel>, View> for Taking {
    ghost use Rattle.aos_cell.specs.Steps.{Takes};

    ghost then = { λ v k w. Takes v k.value w };
}

impl Lesson<Box<Kernel>, View> for Taking {
    ghost use Rattle.std.specs.Prelude.{◌≡◌, length};

    ghost fact = { λ v items. length items ≡ 1 };
}

/// A pass gives the kernel back, into an empty queue.
struct Giving;

impl Outcome<Box<Kernel>, View> for Giving {
    ghost use Rattle.aos_cell.specs.Steps.{Gives};

    ghost then = { λ v k w. Gives v k.value w };
}

impl Lesson<Box<Kernel>, View> for Giving {
    ghost use Rattle.std.specs.Prelude.{◌≡◌, []};

    ghost fact = { λ v items. items ≡ [] };
}

/// A pass's workers are distinct and below 16.
struct Counting;

impl Lesson<Box<Kernel>, View> for Counting {
    ghost use Rattle.aos_cell.specs.Total.{AreDistinct};
    ghost use Rattle.aos_cell.specs.Rule.{workers_of};

    ghost fact = { λ v items. AreDistinct (workers_of v) };
}

/// A pass is split, or two are joined.
struct Parting;

impl Split<View> for Parting {
    ghost use Rattle.aos_cell.specs.Steps.{split_left, split_right};

    ghost left = { split_left };

    ghost right = { split_right };
}

impl Join<View> for Parting {
    ghost use Rattle.aos_cell.specs.declared.rule.View.TheVariants.{Spent};
    ghost use Rattle.aos_cell.specs.Steps.{joined};

    ghost both = { joined };

    ghost spent = { Spent };
}

type Line = RuledArrayQueue<Box<Kernel>, View, OneKernel>;

/// The most pauses of a pass between two looks for the kernel. While it pauses, who gave the kernel back takes it again, so a
/// worker has it for some rounds, and what it works on stays with its processor.
const MOST_PAUSES: u32 = 4096;

/// From so many pauses on, a pass lets other threads run before it looks again.
const MANY_PAUSES: u32 = 64;

/// Waits for so many pauses: how many the next wait has, twice as many up to the most.
fn pause(pauses: u32) -> u32 {
    for _ in 0..pauses {
        spin_loop();
    }
    if MANY_PAUSES <= pauses {
        thread::yield_now();
    }
    if pauses < MOST_PAUSES {
        pauses + pauses
    } else {
        pauses
    }
}

/// The kernel between passes. Clauses see which cell it is.
#[derive(Drop)]
pub struct KernelCell {
    line: Line,
}

impl Model for KernelCell {
    ghost use Rattle.std.specs.Prelude.{◌≡◌};
    ghost use Rattle.atomic_table.specs.Seated.{TableId};
    ghost use Rattle.crossbeam_queue.specs.Passes.{ruled_capacity};

    ghost Value = { TableId };

    ghost view = { λ c. c.line.table.shared.table_id };

    ghost invariant = { λ c. ruled_capacity c.line ≡ 1 };
}

/// The right to take the kernel, and to make entries of some of its workers. Clauses see of which cell it is, and what it has
/// and knows.
#[derive(Drop)]
pub struct KPass {
    pass: Pass<Box<Kernel>, View>,
    /// Its own workers, as the bits of a number.
    own: u32,
}

impl Model for KPass {
    ghost use Rattle.std.specs.Prelude.{◌≡◌, []};
    ghost use Rattle.aos_cell.specs.Total.{mask};
    ghost use Rattle.aos_cell.specs.Rule.{workers_of};
    ghost use Rattle.aos_cell.specs.Hold.{Hold};

    ghost Value = { Hold };

    ghost view = { λ p. record { cell = p.pass.table_id; seat = p.pass.id; view = p.pass.me.0.client } };

    ghost invariant = { λ p. (p.pass.me.1 ≡ []) × (mask (workers_of p.pass.me.0.client) ≡ p.own) };
}

impl KPass {
    /// The worker of a pass that has one.
    pub fn worker(&self) -> u32
        requires { HasOne self.now.view }
        ensures { workers_of self.now.view ≡ result ∷ [] }
    {
        self.own.ilog2()
    }
}

impl KernelCell {
    /// A cell with this kernel, and the first pass, which has all its workers. NoMemory with the kernel where memory runs out.
    /// May wait.
    pub fn new<R: Wait>(
        rt: &R,
        alloc: Global,
        kernel: Box<Kernel>,
    ) -> Result<(KernelCell, KPass), (NoMemory, Box<Kernel>)>
        ensures pass { IfOk result (λ made. made.1.cell ≡ made.0) }
        ensures view { IfOk result (λ made. made.1.view ≡ Of (first_part kernel.value)) }
        ensures back { IfErr result (λ refused. refused.1 ≡ kernel) }
    {
        let count = kernel.workers();
        let Ok((line, mut pass)) = Line::ruled(alloc, 1) else {
            return Err((NoMemory, kernel));
        };
        match line.push_as::<Opening, R>(rt, &mut pass, kernel) {
            Ok(()) => {
                let own = 2u32.pow(count) - 1;
                Ok((KernelCell { line }, KPass { pass, own }))
            }
            // the queue was empty
            Err(_) => unreachable!(),
        }
    }

    /// Takes the kernel by a pass of this cell that has workers, and waits while another pass has it. It is of the program
    /// with which the cell was made. Its log is the one that the pass took or gave last, and then entries of others' workers.
    pub fn take<R: Wait>(&self, rt: &R, pass: &mut KPass) -> Box<Kernel>
        requires pass { pass.old.cell ≡ self.now }
        requires own { HasWorkers pass.old.view }
        ensures pass { pass.new.cell ≡ pass.old.cell }
        ensures kernel { Takes pass.old.view result.value pass.new.view }
    {
        let mut pauses: u32 = 1;
        for _ in rt.forever() {
            if let Some(kernel) = self.line.try_pop_as::<Taking>(&mut pass.pass) {
                return kernel;
            }
            pauses = pause(pauses);
        }
        unreachable!()
    }

    /// Gives the kernel back by the pass of this cell that took it and has a give left. It is of the program with which the
    /// cell was made. Its log is the taken one, and then entries of the pass's own workers, with which all that were added
    /// since the cell was made keep the bound. May wait.
    pub fn give<R: Wait>(&self, rt: &R, pass: &mut KPass, kernel: Box<Kernel>)
        requires pass { pass.old.cell ≡ self.now }
        requires kernel { MayGive pass.old.view kernel.value }
        ensures pass { pass.new.cell ≡ pass.old.cell }
        ensures view { Gives pass.old.view kernel.value pass.new.view }
    {
        match self.line.push_as::<Giving, R>(rt, &mut pass.pass, kernel) {
            Ok(()) => (),
            // the queue was empty
            Err(_) => unreachable!(),
        }
    }

    /// A pass of its own for the greatest worker of a pass of this cell, which has two at least and neither the kernel nor a
    /// loan.
    pub fn split(&self, pass: &mut KPass) -> KPass
        requires pass { pass.old.cell ≡ self.now }
        requires free { MaySplit pass.old.view }
        ensures pass { (pass.new.cell ≡ pass.old.cell) × (result.cell ≡ self.now) }
        ensures view { (pass.new.view ≡ split_left pass.old.view) ×
            (result.view ≡ split_right pass.old.view) }
    {
        self.line.learn_as::<Counting>(&mut pass.pass);
        let bit = 2u32.pow(pass.own.ilog2());
        let new = self.line.another::<Parting>(&mut pass.pass);
        pass.own -= bit;
        KPass {
            pass: new,
            own: bit,
        }
    }

    /// The first of two passes of this cell gets the workers of the other, which has neither the kernel nor a loan.
    pub fn join(&self, pass: &mut KPass, other: KPass)
        requires pass { (pass.old.cell ≡ self.now) × (other.cell ≡ self.now) }
        requires free { HasWorkers pass.old.view × IsFree other.view }
        ensures pass { pass.new.cell ≡ pass.old.cell }
        ensures view { pass.new.view ≡ joined pass.old.view other.view }
    {
        self.line.absorb::<Parting>(&mut pass.pass, other.pass);
        self.line.learn_as::<Counting>(&mut pass.pass);
        pass.own += other.own;
    }

    /// The kernel, by a pass of this cell that has all workers, and neither the kernel nor a loan. It is what `take` would
    /// give. May wait.
    pub fn close<R: Wait>(self, rt: &R, pass: KPass) -> Box<Kernel>
        requires pass { pass.cell ≡ self }
        requires all { HasAll pass.view }
        ensures kernel { Finds pass.view result.value }
    {
        let mut pass = pass;
        match self.line.pop_as::<Taking, R>(rt, &mut pass.pass) {
            Some(kernel) => kernel,
            // nobody else can have it
            None => unreachable!(),
        }
    }
}
