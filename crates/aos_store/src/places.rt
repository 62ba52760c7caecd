// Cells by place: loads, stores and copies, each of which says whether there are such cells.
ghost use Rattle.std.specs.Prelude.{◌≡◌, ◌≢◌, true, Option, ◌-◌, ℕ, ◌&&◌, [], ◌∷◌, length, is_some, if◌then◌else◌};
ghost use Rattle.std.specs.Option.{option_map};
ghost use Rattle.aos_base.specs.Rooted.{at_root, load, spliced};
ghost use Rattle.aos_code.specs.Machine.{memory_with};
ghost use Rattle.aos_store.specs.Store.{frames_in, SameCounts, memory_in, rooted_in, fits_in, changed, with_frames, has_all, read_all};
ghost use Rattle.aos_store.specs.Room.{KeepsRoom};

use crate::cells::Change;
use crate::frames::Frames;
use crate::memory::Store;
use aos_base::Root;
use aos_code::Cell;

/// What a cell holds, where there is such a cell.
pub fn load_at(frames: &Frames, store: &Store, root: Root, cell: usize) -> Option<Cell>
    ensures { result ≡ load root cell (rooted_in frames.now store.now) }
{
    match root {
        Root::Frame(above) => frames.load(above as usize, cell),
        Root::Module(number) => store.load_module(number as usize, cell),
        Root::Object(number) => store.load_object(number, cell),
    }
}

/// Changes the cells below a root, where there are such cells, and says whether there are.
pub fn change_at(frames: &mut Frames, store: &mut Store, root: Root, what: Change) -> bool
    ensures there { result ≡ fits_in what (at_root root (rooted_in frames.old store.old)) }
    ensures frames { frames_in frames.new ≡
        (if result then with_frames root (changed what) frames.old else frames_in frames.old) }
    ensures counts { SameCounts frames.old frames.new }
    ensures room { KeepsRoom frames.old frames.new }
    ensures memory { memory_in store.new ≡
        (if result then memory_with root (changed what)
        (memory_in store.old) else memory_in store.old) }
{
    match root {
        Root::Frame(above) => frames.change(above as usize, what),
        Root::Module(number) => store.change_module(number, what),
        Root::Object(number) => store.change_object(number, what),
    }
}

/// Sets a cell, where there is such a cell, and says whether there is.
pub fn store_at(
    frames: &mut Frames,
    store: &mut Store,
    root: Root,
    cell: usize,
    value: Cell,
) -> bool
    ensures there { result ≡ is_some (load root cell (rooted_in frames.old store.old)) }
    ensures frames { frames_in frames.new ≡
        (if result then with_frames root (spliced cell (value ∷ [])) frames.old else frames_in
        frames.old) }
    ensures counts { SameCounts frames.old frames.new }
    ensures room { KeepsRoom frames.old frames.new }
    ensures memory { memory_in store.new ≡
        (if result then memory_with root (spliced cell (value ∷ []))
        (memory_in store.old) else memory_in store.old) }
{
    change_at(frames, store, root, Change::Sets(cell, value))
}

/// How many cells there are below a root.
pub fn len_at(frames: &Frames, store: &Store, root: Root) -> Option<usize>
    ensures { result ≡ option_map length (at_root root (rooted_in frames.now store.now)) }
{
    match root {
        Root::Frame(above) => frames.cells(above as usize),
        Root::Module(number) => store.cells_of_module(number as usize),
        Root::Object(number) => store.cells_of_object(number),
    }
}

/// Whether there are so many cells at a place.
pub fn has_cells_at(frames: &Frames, store: &Store, root: Root, cell: usize, count: usize) -> bool
    ensures { result ≡ has_all count cell (at_root root (rooted_in frames.now store.now)) }
{
    match len_at(frames, store, root) {
        None => false,
        Some(len) => count <= len.saturating_sub(cell),
    }
}

/// Copies a cell, where there are both.
fn copy_one(
    frames: &mut Frames,
    store: &mut Store,
    from: Root,
    from_cell: usize,
    to: Root,
    to_cell: usize,
)
    ensures frames { (v : Cell) →
        load from from_cell (rooted_in frames.old store.old) ≡ Option.Some v →
        is_some (load to to_cell (rooted_in frames.old store.old)) ≡ true →
        frames_in frames.new ≡ with_frames to (spliced to_cell (v ∷ [])) frames.old }
    ensures memory { (v : Cell) →
        load from from_cell (rooted_in frames.old store.old) ≡ Option.Some v →
        is_some (load to to_cell (rooted_in frames.old store.old)) ≡ true →
        memory_in store.new ≡ memory_with to (spliced to_cell (v ∷ [])) (memory_in store.old) }
    ensures following { (frames_in frames.new).following ≡ (frames_in frames.old).following }
    ensures counts { SameCounts frames.old frames.new }
    ensures room { KeepsRoom frames.old frames.new }
{
    if let Some(value) = load_at(frames, store, from, from_cell) {
        store_at(frames, store, to, to_cell, value);
    }
}

/// Copies so many cells, one after the other, from one root to another.
fn copy_across(
    frames: &mut Frames,
    store: &mut Store,
    from: Root,
    from_cell: u32,
    to: Root,
    to_cell: u32,
    count: u32,
)
    requires apart { from ≢ to }
    requires source { has_all count from_cell (at_root from (rooted_in frames.old store.old)) ≡
        true }
    requires target { has_all count to_cell (at_root to (rooted_in frames.old store.old)) ≡ true }
    ensures frames { frames_in frames.new ≡
        with_frames to
        (spliced to_cell (read_all count from_cell (at_root from (rooted_in frames.old store.old))))
        frames.old }
    ensures counts { SameCounts frames.old frames.new }
    ensures room { KeepsRoom frames.old frames.new }
    ensures memory { memory_in store.new ≡
        memory_with to
        (spliced to_cell (read_all count from_cell (at_root from (rooted_in frames.old store.old))))
        (memory_in store.old) }
{
    for i in 0..count {
        copy_one(
            frames,
            store,
            from,
            from_cell as usize + i as usize,
            to,
            to_cell as usize + i as usize,
        );
    }
}

/// Copies so many cells from one place to another, all read before any is written, where there are such cells, and says whether
/// there are.
pub fn copy_at(
    frames: &mut Frames,
    store: &mut Store,
    from: Root,
    from_cell: u32,
    to: Root,
    to_cell: u32,
    count: u32,
) -> bool
    ensures there { result ≡
        (has_all count from_cell (at_root from (rooted_in frames.old store.old)) &&
        has_all count to_cell (at_root to (rooted_in frames.old store.old))) }
    ensures frames { frames_in frames.new ≡
        (if result then with_frames to
        (spliced to_cell (read_all count from_cell (at_root from (rooted_in frames.old store.old))))
        frames.old else frames_in frames.old) }
    ensures counts { SameCounts frames.old frames.new }
    ensures room { KeepsRoom frames.old frames.new }
    ensures memory { memory_in store.new ≡
        (if result then memory_with to
        (spliced to_cell (read_all count from_cell (at_root from (rooted_in frames.old store.old))))
        (memory_in store.old) else memory_in store.old) }
{
    if from == to {
        return change_at(
            frames,
            store,
            to,
            Change::Moves(count as usize, from_cell as usize, to_cell as usize),
        );
    }
    if !has_cells_at(frames, store, from, from_cell as usize, count as usize) {
        return false;
    }
    if !has_cells_at(frames, store, to, to_cell as usize, count as usize) {
        return false;
    }
    copy_across(frames, store, from, from_cell, to, to_cell, count);
    true
}
