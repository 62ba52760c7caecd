// The cells of modules and objects.
ghost use Rattle.std.specs.Prelude.{◌≡◌, ◌≤◌, ◌+◌, ℕ, max, List, length, sum_by, nat_le, slice_get, IfOk, OnErr, if◌then◌else◌};
ghost use Rattle.std.specs.Option.{option_and_then, option_map};
ghost use Rattle.aos_base.specs.declared.limits.TheConstants.{MOST_SCALARS};
ghost use Rattle.aos_base.specs.Rooted.{Made, by_number};
ghost use Rattle.aos_code.specs.declared.instr.Cell.{Cell as CellOf};
ghost use Rattle.aos_code.specs.Memory.{Memory, counted, with_object, new_number, type_of_object};
ghost use Rattle.aos_code.specs.Machine.{memory_with, first_memory};
ghost use Rattle.aos_store.specs.Store.{memory_in, fits_in, changed};

use crate::cells::{Change, make_change};
use crate::heap::{Heap, Object};
use aos_base::{NoMemory, Root};
use aos_code::{Cell, Image};
use std::alloc::Global;

/// What all activities share: the cells of each module, in load order, and the objects, in the order of making.
#[derive(Drop)]
pub struct Store {
    pub modules: Vec<Vec<Cell>>,
    pub objects: Heap,
}

impl Store {
    /// The memory with which an image begins.
    pub fn new(alloc: Global, image: &Image) -> Result<Store, NoMemory>
        ensures { IfOk result (λ s. memory_in s ≡ first_memory image.now) }
    {
        let mut modules = Vec::new(alloc);
        for module in &image.modules {
            let cells = Vec::from_slice(alloc, &module.cells)?;
            modules.reserve(1)?;
            modules.push_reserved(cells);
        }
        Ok(Store {
            modules,
            objects: Heap::new(alloc),
        })
    }

    /// What a cell of a module holds, where there is such a cell.
    #[inline(always)]
    pub fn load_module(&self, of_module: usize, cell: usize) -> Option<Cell>
        ensures { result ≡ option_and_then (λ cells. slice_get cells cell)
            (slice_get (memory_in self.now).modules of_module) }
    {
        match self.modules.get(of_module) {
            None => None,
            Some(cells) => cells.get(cell).copied(),
        }
    }

    /// How many cells a module has.
    pub fn cells_of_module(&self, of_module: usize) -> Option<usize>
        ensures { result ≡ option_map length (slice_get (memory_in self.now).modules of_module) }
    {
        match self.modules.get(of_module) {
            None => None,
            Some(cells) => Some(cells.len()),
        }
    }

    /// How many cells an object has.
    pub fn cells_of_object(&self, number: u32) -> Option<usize>
        ensures { result ≡ option_map length (by_number number (memory_in self.now).objects) }
    {
        match self.objects.get(number) {
            None => None,
            Some(object) => Some(object.cells.len()),
        }
    }

    /// What a cell of an object holds, where there is such a cell.
    #[inline(always)]
    pub fn load_object(&self, number: u32, cell: usize) -> Option<Cell>
        ensures { result ≡ option_and_then (λ cells. slice_get cells cell)
            (by_number number (memory_in self.now).objects) }
    {
        match self.objects.get(number) {
            None => None,
            Some(object) => object.cells.get(cell).copied(),
        }
    }

    /// The type that an object was made of.
    pub fn type_of(&self, number: u32) -> Option<u32>
        ensures { result ≡ type_of_object number (memory_in self.now) }
    {
        match self.objects.get(number) {
            None => None,
            Some(object) => Some(object.made_of),
        }
    }

    /// Changes the cells of a module, where there are such cells, and says whether there are.
    #[inline(always)]
    pub fn change_module(&mut self, number: u32, what: Change) -> bool
        ensures there { result ≡ fits_in what (slice_get (memory_in self.old).modules number) }
        ensures after { memory_in self.new ≡
            (if result then memory_with (Root.Module number) (changed what)
            (memory_in self.old) else memory_in self.old) }
    {
        match self.modules.get_mut(number as usize) {
            None => false,
            Some(cells) => make_change(cells, what),
        }
    }

    /// Changes the cells of an object, where there are such cells, and says whether there are.
    #[inline(always)]
    pub fn change_object(&mut self, number: u32, what: Change) -> bool
        ensures there { result ≡ fits_in what (by_number number (memory_in self.old).objects) }
        ensures after { memory_in self.new ≡
            (if result then memory_with (Root.Object number) (changed what)
            (memory_in self.old) else memory_in self.old) }
    {
        self.objects.change(number, what)
    }

    /// Whether the heap has room for an object more, which has so many cells.
    pub fn has_room(&self, cells: u64) -> bool
        ensures { result ≡
            nat_le (max 1 cells + sum_by counted (memory_in self.now).objects) MOST_SCALARS }
    {
        self.objects.has_room(cells)
    }

    /// Makes an object, for which the heap has room, and gives its number.
    pub fn new_object(
        &mut self,
        made_of: u32,
        lengths: Vec<u32>,
        cells: Vec<Cell>,
    ) -> Result<u32, NoMemory>
        requires { counted cells.items + sum_by counted
            (memory_in self.old).objects ≤ MOST_SCALARS }
        ensures ok { IfOk result (λ o. (o ≡ new_number (memory_in self.old)) ×
            (memory_in self.new ≡
            with_object (record { type = made_of; lengths = lengths.items }) cells.items
            (memory_in self.old))) }
        ensures err { OnErr result (memory_in self.new ≡ memory_in self.old) }
    {
        self.objects.add(Object {
            made_of,
            lengths,
            cells,
        })
    }

    /// Takes back the object that was made last.
    pub fn take_back(&mut self)
        ensures { (made : Made) (cells : List CellOf) (before : Memory) →
            memory_in self.old ≡ with_object made cells before → memory_in self.new ≡ before }
    {
        self.objects.forget_last();
    }
}
