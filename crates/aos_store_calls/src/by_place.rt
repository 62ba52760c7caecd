// Cells of modules and objects by place, and what objects were made with.
ghost use Rattle.std.specs.Prelude.{◌≡◌, true, Option, [], ◌∷◌, length, is_some, if◌then◌else◌};
ghost use Rattle.std.specs.Option.{option_map, option_map_or};
ghost use Rattle.aos_base.specs.Rooted.{at_root, by_number, load as load_in, spliced};
ghost use Rattle.aos_code.specs.Machine.{memory_with, rooted};
ghost use Rattle.aos_store.specs.Store.{frames_in, SameCounts, memory_in, rooted_in, fits_in, changed, with_frames, has_all, read_all};
ghost use Rattle.aos_store.specs.Room.{KeepsRoom};

use aos_base::Root;
use aos_code::Cell;
use aos_store::{Change, Frames, Store, copy_at};

/// The place of a cell.
#[derive(Clone, Copy)]
pub struct Place {
    pub root: Root,
    pub cell: u32,
}

// What a cell holds, where there is such a cell.
fn held(store: &Store, root: Root, cell: u32) -> Option<Cell>
    ensures { result ≡ load_in root cell (rooted [] (memory_in store.now)) }
{
    match root {
        Root::Frame(_) => None,
        Root::Module(number) => store.load_module(number as usize, cell as usize),
        Root::Object(number) => store.load_object(number, cell as usize),
    }
}

/// What a cell of a module or an object holds. Takes no memory.
pub fn load(store: &Store, root: Root, cell: u32) -> Cell
    requires { is_some (load_in root cell (rooted [] (memory_in store.now))) ≡ true }
    ensures { load_in root cell (rooted [] (memory_in store.now)) ≡ Option.Some result }
{
    match held(store, root, cell) {
        Some(value) => value,
        None => Cell::Num(0),
    }
}

// Changes the cells of a module or an object, where there are such cells, and says whether there are.
fn change(store: &mut Store, root: Root, what: Change) -> bool
    ensures there { result ≡ fits_in what (at_root root (rooted [] (memory_in store.old))) }
    ensures after { memory_in store.new ≡
        (if result then memory_with root (changed what)
        (memory_in store.old) else memory_in store.old) }
{
    match root {
        Root::Frame(_) => false,
        Root::Module(number) => store.change_module(number, what),
        Root::Object(number) => store.change_object(number, what),
    }
}

// Sets a cell of a module or an object, where there is such a cell, and says whether there is.
fn set(store: &mut Store, root: Root, cell: u32, value: Cell) -> bool
    ensures there { result ≡ is_some (load_in root cell (rooted [] (memory_in store.old))) }
    ensures after { memory_in store.new ≡
        (if result then memory_with root (spliced cell (value ∷ []))
        (memory_in store.old) else memory_in store.old) }
{
    change(store, root, Change::Sets(cell as usize, value))
}

/// Sets a cell of a module or an object. Takes no memory.
pub fn store(store: &mut Store, root: Root, cell: u32, value: Cell)
    requires { is_some (load_in root cell (rooted [] (memory_in store.old))) ≡ true }
    ensures { memory_in store.new ≡
        memory_with root (spliced cell (value ∷ [])) (memory_in store.old) }
{
    set(store, root, cell, value);
}

/// How many cells a module or an object has; None exactly where there is no such one. Takes no memory.
pub fn cells(store: &Store, root: Root) -> Option<usize>
    ensures { result ≡ option_map length (at_root root (rooted [] (memory_in store.now))) }
{
    match root {
        Root::Frame(_) => None,
        Root::Module(number) => store.cells_of_module(number as usize),
        Root::Object(number) => store.cells_of_object(number),
    }
}

/// The lengths with which an object was made, none where there is no such object. Takes no memory.
pub fn lens(store: &Store, object: u32) -> &[u32]
    ensures { result.now ≡
        option_map_or (λ m. m.lengths) (by_number object (memory_in store.now).made) [] }
{
    match store.objects.get(object) {
        None => &[],
        Some(made) => made.lengths.as_slice(),
    }
}

/// Copies so many cells from one place to another, as if all were read first. Takes no memory.
pub fn copy(store: &mut Store, frames: &mut Frames, to: Place, from: Place, count: u32)
    requires source { has_all count from.cell (at_root from.root (rooted_in frames.old store.old)) ≡
        true }
    requires target { has_all count to.cell (at_root to.root (rooted_in frames.old store.old)) ≡
        true }
    ensures frames { frames_in frames.new ≡
        with_frames to.root
        (spliced to.cell
        (read_all count from.cell (at_root from.root (rooted_in frames.old store.old))))
        frames.old }
    ensures counts { SameCounts frames.old frames.new }
    ensures room { KeepsRoom frames.old frames.new }
    ensures memory { memory_in store.new ≡
        memory_with to.root
        (spliced to.cell
        (read_all count from.cell (at_root from.root (rooted_in frames.old store.old))))
        (memory_in store.old) }
{
    copy_at(frames, store, from.root, from.cell, to.root, to.cell, count);
}
