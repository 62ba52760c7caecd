// The objects, and how many scalars they count as.
ghost use Rattle.std.specs.Prelude.{◌≡◌, ◌≤◌, ◌+◌, ℕ, suc, max, List, [], ◌∷◌, ◌++◌, length, map, sum_by, nat_le, IfOk, OnErr, if◌then◌else◌};
ghost use Rattle.std.specs.Option.{option_copied};
ghost use Rattle.aos_base.specs.Rooted.{by_number, change_by_number};
ghost use Rattle.aos_store.specs.declared.heap.Object.{Object as ObjectOf};
ghost use Rattle.aos_store.specs.Objects.{object_cells, object_counted, made_in};
ghost use Rattle.aos_store.specs.Store.{fits_in, changed};

use crate::cells::{Change, make_change};
use aos_base::{MOST_SCALARS, NoMemory};
use aos_code::Cell;
use std::alloc::Global;
use std::marker::Model;

/// An object: the number of the type that it was made of, from 1; the lengths, where it's an open array; and its cells.
#[derive(Drop)]
pub struct Object {
    pub made_of: u32,
    pub lengths: Vec<u32>,
    pub cells: Vec<Cell>,
}

/// The objects, in the order of making. How many scalars they count as is kept beside them.
#[derive(Drop)]
pub struct Heap {
    list: Vec<Object>,
    counted: u64,
}

impl Model for Heap {
    ghost use Rattle.std.specs.Prelude.{◌≡◌, List, sum_by};
    ghost use Rattle.aos_store.specs.declared.heap.Object.{Object as ObjectOf};
    ghost use Rattle.aos_store.specs.Objects.{object_counted};

    ghost Value = { List ObjectOf };

    ghost view = { λ h. h.list.items };

    ghost invariant = { λ h. h.counted ≡ sum_by object_counted h.list.items };
}

/// How many scalars an object of so many cells counts as.
fn counts_as(cells: u64) -> u64
    ensures { result ≡ max 1 cells }
{
    cells.max(1)
}

impl Heap {
    /// No objects.
    pub fn new(alloc: Global) -> Heap
        ensures { result ≡ [] }
    {
        Heap {
            list: Vec::new(alloc),
            counted: 0,
        }
    }

    /// The object of this number, from 1.
    #[inline(always)]
    pub fn get(&self, number: u32) -> Option<&Object>
        ensures { option_copied result ≡ by_number number self.now }
    {
        self.list.get(number.checked_sub(1)? as usize)
    }

    /// Changes the cells of an object, where there are such cells, and says whether there are.
    #[inline(always)]
    pub fn change(&mut self, number: u32, what: Change) -> bool
        ensures there { result ≡ fits_in what (by_number number (map object_cells self.old)) }
        ensures cells { map object_cells self.new ≡
            (if result then change_by_number number (changed what)
            (map object_cells self.old) else map object_cells self.old) }
        ensures made { map made_in self.new ≡ map made_in self.old }
    {
        if number == 0 {
            return false;
        }
        let Some(object) = self.list.get_mut(number as usize - 1) else {
            return false;
        };
        make_change(&mut object.cells, what)
    }

    /// Whether there is room for an object more, which has so many cells.
    pub fn has_room(&self, cells: u64) -> bool
        ensures { result ≡ nat_le (max 1 cells + sum_by object_counted self.now) MOST_SCALARS }
    {
        match counts_as(cells).checked_add(self.counted) {
            None => false,
            Some(sum) => sum <= u64::from(MOST_SCALARS),
        }
    }

    /// One object more, for which there is room: it gives the object's number.
    pub fn add(&mut self, object: Object) -> Result<u32, NoMemory>
        requires { object_counted object + sum_by object_counted self.old ≤ MOST_SCALARS }
        ensures ok { IfOk result (λ o.
            (o ≡ suc (length self.old)) × (self.new ≡ self.old ++ object ∷ [])) }
        ensures err { OnErr result (self.new ≡ self.old) }
    {
        self.list.reserve(1)?;
        self.counted += counts_as(object.cells.len() as u64);
        self.list.push_reserved(object);
        Ok(self.list.len() as u32)
    }

    /// The objects without the last one.
    pub fn forget_last(&mut self)
        ensures { (before : List ObjectOf) (last : ObjectOf) → self.old ≡ before ++ last ∷ [] →
            self.new ≡ before }
    {
        if let Some(object) = self.list.pop() {
            self.counted -= counts_as(object.cells.len() as u64);
        }
    }
}
