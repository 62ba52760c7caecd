// The frames of an activity.
ghost use Rattle.std.specs.Prelude.{[], map, drop, ◌++◌, replicate, nat_lt, sum_by, pos, false, true, IfErr, ◌≡◌, ◌<◌, ◌≤◌, ◌+◌, ◌-◌, ◌%◌, ◌^◌, ℕ, ◌∷◌, length, slice_get, vec_len, vec_capacity, List, IfOk, OnErr, if◌then◌else◌};
ghost use Rattle.aos_code.specs.Silent.{Stack};
ghost use Rattle.aos_code.specs.Numbered.{numbered};
ghost use Rattle.aos_code.specs.Machine.{first_cell as first_cell_of, lock_in};
ghost use Rattle.aos_store.specs.Store.{frame_in, list_in, frames_in, SameCounts, own_cells, kept_cells, fits, fits_in, changed, with_cells, with_kept, keeps_in, deep, new_frame, IsFrameRefusal};
ghost use Rattle.aos_store.specs.Room.{AreRoomyFor, HasMoreRoom, KeepsRoom, MakesRoom};
ghost use Rattle.aos_base.specs.Rooted.{from_last, change_from_last};
ghost use Rattle.std.specs.Option.{option_and_then, option_map, option_copied};

use crate::cells::{Change, change_front};
use aos_base::{LockName, MOST_FRAME_SCALARS, MOST_FRAMES, NoMemory, Pos};
use aos_code::{Cell, Kind, ProcShape};
use std::alloc::Global;

/// A frame: its procedure; the object whose method or body it is, 0 for none; the place of the next instruction; the statement
/// last begun; whether the region of its lock is open; its cells, of which the last ones, so many, are those that it keeps values in; how many count as scalars; and its
/// operands, the topmost last.
#[derive(Drop)]
pub struct Frame {
    pub procedure: u32,
    pub object: u32,
    pub next: usize,
    pub at: Option<Pos>,
    pub is_open: bool,
    pub cells: Vec<Cell>,
    pub keeps: u32,
    pub counted: u32,
    pub operands: Vec<Cell>,
}

/// An activity's frames, the topmost last; the bodies that are to follow once it has none, the next one last; how many statements
/// it has begun; and how many turns it has made by itself, on frames that were lent. Both are counted modulo 2^64.
#[derive(Drop)]
pub struct Frames {
    pub list: Vec<Frame>,
    pub following: Vec<u32>,
    pub begun: u64,
    pub turns: u64,
}

/// Why a frame isn't made: there are as many as may be, or too many scalars would be in them; or memory was wanted and not had.
#[derive(Clone, Copy)]
pub enum FrameErr {
    Deep,
    NoMemory,
}

impl Frame {
    /// The lock of its regions: that of the object on which its procedure is called, or else of the module in which that stands.
    pub fn lock(&self, shapes: &[ProcShape]) -> LockName
        ensures { result ≡ lock_in (numbered shapes.now self.now.procedure) (frame_in self.now) }
    {
        match shape_of(shapes, self.procedure) {
            None => LockName::Module(0),
            Some(shape) => if shape.method {
                LockName::Object(self.object)
            } else {
                LockName::Module(shape.module)
            },
        }
    }

    /// How many cells places name.
    #[inline(always)]
    pub fn len(&self) -> usize
        ensures value { result ≡ vec_len self.now.cells - self.now.keeps }
        ensures own { result ≡ length (own_cells self.now) }
    {
        self.cells.len().saturating_sub(self.keeps as usize)
    }

    /// What a cell holds, where there is such a cell.
    #[inline(always)]
    pub fn load(&self, cell: usize) -> Option<Cell>
        ensures { result ≡ slice_get (own_cells self.now) cell }
    {
        self.cells[..self.len()].get(cell).copied()
    }

    /// What is kept under a number, 0 where nothing is.
    #[inline(always)]
    pub fn kept(&self, number: u32) -> Cell
        ensures { result ≡ keeps_in (kept_cells self.now) number }
    {
        match self.cells[self.len()..].get(number as usize).copied() {
            None => Cell::Num(0),
            Some(value) => value,
        }
    }

    /// Makes room for what is kept under a number, where there is none.
    fn reserve_keep(&mut self, number: u32) -> Result<(), NoMemory>
        ensures same { frame_in self.new ≡ frame_in self.old }
        ensures room { IfOk result (λ _. number < length (kept_cells self.new)) }
        ensures full { OnErr result (length (kept_cells self.old) ≤ number) }
        ensures keeps { length (kept_cells self.old) ≤ length (kept_cells self.new) }
        ensures operands { self.new.operands ≡ self.old.operands }
    {
        let kept = self.cells.len() - self.len();
        if (number as usize) < kept {
            return Ok(());
        }
        let Some(keeps) = number.checked_add(1) else {
            return Err(NoMemory);
        };
        let more = keeps as usize - kept;
        self.cells.reserve(more)?;
        fill(&mut self.cells, more);
        self.keeps = keeps;
        Ok(())
    }

    /// Keeps a value under a number.
    pub fn keep(&mut self, number: u32, value: Cell) -> Result<(), NoMemory>
        ensures ok { IfOk result (λ _.
            frame_in self.new ≡ with_kept number value (frame_in self.old)) }
        ensures err { OnErr result (frame_in self.new ≡ frame_in self.old) }
        ensures full { OnErr result (length (kept_cells self.old) ≤ number) }
        ensures keeps { length (kept_cells self.old) ≤ length (kept_cells self.new) }
        ensures operands { self.new.operands ≡ self.old.operands }
    {
        self.reserve_keep(number)?;
        let own = self.len();
        self.cells[own + number as usize] = value;
        Ok(())
    }

    /// Changes its cells, where there are such cells, and says whether there are.
    #[inline(always)]
    pub fn change(&mut self, what: Change) -> bool
        ensures there { result ≡ fits what (length (own_cells self.old)) }
        ensures after { frame_in self.new ≡
            (if result then with_cells (changed what) (frame_in self.old) else frame_in self.old) }
        ensures room { HasMoreRoom self.old self.new }
    {
        let own = self.len();
        change_front(&mut self.cells, own, what)
    }
}

impl Frames {
    /// No frames, and no bodies that are to follow; nothing has begun.
    pub fn new(alloc: Global) -> Frames
        ensures frames { frames_in result ≡ record { following = []; frames = [] } }
        ensures begun { result.begun ≡ 0 }
        ensures turns { result.turns ≡ 0 }
        ensures room { (depths keeps : ℕ → ℕ) → AreRoomyFor depths keeps result.list.items }
    {
        Frames {
            list: Vec::new(alloc),
            following: Vec::new(alloc),
            begun: 0,
            turns: 0,
        }
    }

    /// How many statements it has begun, modulo 2^64.
    pub fn begun(&self) -> u64
        ensures { result ≡ self.now.begun }
    {
        self.begun
    }

    /// How many turns it has made by itself, modulo 2^64.
    pub fn turns(&self) -> u64
        ensures { result ≡ self.now.turns }
    {
        self.turns
    }

    /// So many statements have begun, in so many turns that it has made by itself.
    pub fn raise(&mut self, statements: u64, turns: u64)
        ensures begun { self.new.begun ≡ (self.old.begun + statements) % 2 ^ 64 }
        ensures turns { self.new.turns ≡ (self.old.turns + turns) % 2 ^ 64 }
        ensures frames { frames_in self.new ≡ frames_in self.old }
    {
        self.begun = self.begun.wrapping_add(statements);
        self.turns = self.turns.wrapping_add(turns);
    }

    /// How many frames there are.
    pub fn count(&self) -> usize
        ensures len { result ≡ vec_len self.now.list }
        ensures frames { result ≡ length (list_in self.now.list.items) }
    {
        self.list.len()
    }

    /// Takes off the topmost frame, where there is one.
    pub fn drop_top(&mut self)
        ensures frames { list_in self.new.list.items ≡ drop 1 (list_in self.old.list.items) }
        ensures following { self.new.following ≡ self.old.following }
        ensures counts { SameCounts self.old self.new }
    {
        self.list.pop();
    }

    /// The frame above so many others.
    pub fn frame(&self, above: usize) -> Option<&Frame>
        ensures { option_copied result ≡ slice_get self.now.list.items above }
    {
        self.list.get(above)
    }

    /// What a cell of the frame above so many others holds, where there is such a cell.
    #[inline(always)]
    pub fn load(&self, above: usize, cell: usize) -> Option<Cell>
        ensures { result ≡ option_and_then (λ cells. slice_get cells cell)
            (from_last above (map (λ f. f.cells) (list_in self.now.list.items))) }
    {
        match self.frame(above) {
            None => None,
            Some(frame) => frame.load(cell),
        }
    }

    /// How many cells the frame above so many others has.
    pub fn cells(&self, above: usize) -> Option<usize>
        ensures { result ≡
            option_map length (from_last above (map (λ f. f.cells) (list_in self.now.list.items))) }
    {
        match self.frame(above) {
            None => None,
            Some(frame) => Some(frame.len()),
        }
    }

    /// Changes the cells of the frame above so many others, where there are such cells, and says whether there are.
    #[inline(always)]
    pub fn change(&mut self, above: usize, what: Change) -> bool
        ensures there { result ≡
            fits_in what (from_last above (map (λ f. f.cells) (list_in self.old.list.items))) }
        ensures after { list_in self.new.list.items ≡
            (if result then change_from_last above (with_cells (changed what))
            (list_in self.old.list.items) else list_in self.old.list.items) }
        ensures following { self.new.following ≡ self.old.following }
        ensures counts { SameCounts self.old self.new }
        ensures room { KeepsRoom self.old self.new }
    {
        match self.list.get_mut(above) {
            None => false,
            Some(frame) => frame.change(what),
        }
    }

    /// Whether a frame more that has so many scalars is one too many, or has too many.
    pub fn is_deep(&self, counted: u32) -> bool
        ensures { result ≡ deep counted (list_in self.now.list.items) }
    {
        if self.list.len() < MOST_FRAMES {
            counts_past(&self.list, counted)
        } else {
            true
        }
    }

    /// Puts a new frame above the others: its procedure; its object, 0 for none; the kinds of its first cells, which begin as these
    /// say; how many cells more it has, which begin as 0; in how many cells behind these it keeps values; for how many operands it has
    /// room; and how many scalars it counts. All of it is taken at once.
    pub fn grow(
        &mut self,
        alloc: Global,
        procedure: u32,
        object: u32,
        kinds: &[Kind],
        more: usize,
        keeps: u32,
        depth: u32,
        counted: u32,
    ) -> Result<(), FrameErr>
        ensures ok { IfOk result (λ _.
            list_in self.new.list.items ≡ new_frame procedure object kinds.now more counted ∷
            list_in self.old.list.items) }
        ensures fits { IfOk result (λ _. deep counted (list_in self.old.list.items) ≡ false) }
        ensures err { IfErr result (λ e.
            IsFrameRefusal e (deep counted (list_in self.old.list.items))) }
        ensures same { OnErr result (list_in self.new.list.items ≡ list_in self.old.list.items) }
        ensures following { self.new.following ≡ self.old.following }
        ensures counts { SameCounts self.old self.new }
        ensures room { MakesRoom procedure depth keeps self.old self.new }
    {
        if self.is_deep(counted) {
            return Err(FrameErr::Deep);
        }
        let Ok(cells) = first_cells(alloc, kinds, more, keeps) else {
            return Err(FrameErr::NoMemory);
        };
        let Ok(operands) = Vec::with_capacity(alloc, depth as usize) else {
            return Err(FrameErr::NoMemory);
        };
        if self.list.reserve(1).is_err() {
            return Err(FrameErr::NoMemory);
        }
        self.list.push_reserved(Frame {
            procedure,
            object,
            next: 0,
            at: None,
            is_open: false,
            cells,
            keeps,
            counted,
            operands,
        });
        Ok(())
    }
}

/// The shape of a procedure, where there is one.
fn shape_of(shapes: &[ProcShape], procedure: u32) -> Option<&ProcShape>
    ensures { option_copied result ≡ numbered shapes.now procedure }
{
    shapes.get(procedure.checked_sub(1)? as usize)
}

/// One scalar too many, at which a sum stops.
const TOO_MANY: u32 = MOST_FRAME_SCALARS + 1;

/// Whether frames and so many scalars more have too many scalars.
fn counts_past(list: &[Frame], counted: u32) -> bool
    ensures { result ≡
        nat_lt MOST_FRAME_SCALARS (counted + sum_by (λ f. f.counted) (list_in list.now)) }
{
    let mut sum = counted.min(TOO_MANY);
    for frame in list {
        sum = sum.saturating_add(frame.counted).min(TOO_MANY);
    }
    MOST_FRAME_SCALARS < sum
}

/// What a cell of this kind holds at first.
fn first_cell(kind: Kind) -> Cell
    ensures { result ≡ first_cell_of kind }
{
    match kind {
        Kind::N => Cell::Num(0),
        Kind::R => Cell::Ref(0),
        Kind::C => Cell::Call(0, 0),
        Kind::A => Cell::Num(0),
    }
}

/// So many cells more, which hold 0.
fn add_zeros(cells: &mut Vec<Cell>, more: usize) -> Result<(), NoMemory>
    ensures { IfOk result (λ _.
        cells.new.items ≡ cells.old.items ++ replicate more (Cell.Num (pos 0))) }
{
    for _ in 0..more {
        cells.reserve(1)?;
        cells.push_reserved(Cell::Num(0));
    }
    Ok(())
}

/// So many cells more, for which there is room, which hold 0.
fn fill(cells: &mut Vec<Cell>, more: usize)
    requires { vec_len cells.old + more ≤ vec_capacity cells.old }
    ensures { cells.new.items ≡ cells.old.items ++ replicate more (Cell.Num (pos 0)) }
{
    for _ in 0..more {
        cells.push_reserved(Cell::Num(0));
    }
}

/// The cells of a new frame.
fn first_cells(
    alloc: Global,
    kinds: &[Kind],
    more: usize,
    keeps: u32,
) -> Result<Vec<Cell>, NoMemory>
    ensures { IfOk result (λ cells.
        cells.items ≡ (map first_cell_of kinds.now ++ replicate more (Cell.Num (pos 0))) ++
        replicate keeps (Cell.Num (pos 0))) }
{
    let mut cells = Vec::new(alloc);
    for kind in kinds {
        cells.reserve(1)?;
        cells.push_reserved(first_cell(*kind));
    }
    add_zeros(&mut cells, more)?;
    add_zeros(&mut cells, keeps as usize)?;
    Ok(cells)
}
