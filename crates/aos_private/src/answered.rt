// Whether the answer to a question comes, and not a trap. It is told and not made: nothing changes, and no memory is taken.
ghost use Rattle.std.specs.Prelude.{◌≡◌, ◌&&◌, [], Option, length};
ghost use Rattle.std.specs.Option.{option_map, option_copied};
ghost use Rattle.aos_base.specs.Rooted.{at_root};
ghost use Rattle.aos_code.specs.declared.instr.Cell.TheVariants.{Num};
ghost use Rattle.aos_code.specs.Machine.{text_in, text_at, length_in};
ghost use Rattle.aos_store.specs.Store.{memory_in, rooted_in, has_all};
ghost use Rattle.aos_silent_steps.specs.Acts.{addr_in};
ghost use Rattle.aos_private.specs.Answered.{holds as holds_kind, stored_len as stored_length, takes_text as takes, TellsCall, TellsOwn};

use aos_code::{Cell, Image, Kind, ProcShape};
use aos_cpu::calls::{arguments, arguments_of, behind_value, count_copied, count_with};
use aos_cpu::texts::{array_at, code, compare_at, length_of};
use aos_found::is_top_open;
use aos_silent_steps::{Address, Question, Way, is_of, numbered};
use aos_store::{Frames, Store, has_cells_at, load_at};

/// Whether there is a value, of this kind.
fn holds(kind: Kind, value: Option<Cell>) -> bool
    ensures { result ≡ holds_kind kind value }
{
    match value {
        None => false,
        Some(cell) => is_of(kind, cell),
    }
}

/// Whether there are so many cells at both places.
fn has_both(frames: &Frames, store: &Store, count: u32, from: Address, to: Address) -> bool
    ensures { result ≡
        (has_all count from.cell (at_root from.root (rooted_in frames.now store.now)) &&
        has_all count to.cell (at_root to.root (rooted_in frames.now store.now))) }
{
    has_cells_at(frames, store, from.root, from.cell as usize, count as usize)
        && has_cells_at(frames, store, to.root, to.cell as usize, count as usize)
}

/// How many characters the text in an array's cells has, where there is one.
fn text_len(cells: &[Cell]) -> Option<usize>
    ensures { result ≡ option_map length (text_in [] cells.now) }
{
    for i in 0..cells.len() {
        match code(cells[i]) {
            None => return None,
            Some(0) => return Some(i),
            Some(_) => {}
        }
    }
    Some(cells.len())
}

/// How many characters the text at a place has, where there is one.
fn text_len_at(frames: &Frames, store: &Store, address: Address, number: i64) -> Option<usize>
    ensures { result ≡
        option_map length (text_at [] (addr_in address) (Num number)
        (rooted_in frames.now store.now)) }
{
    match array_at(frames, store, address, number) {
        None => None,
        Some(cells) => text_len(cells),
    }
}

/// How many characters of a text with so many are stored in an array of this length, with the 0X; none where it has to fit and doesn't.
fn stored_len(strict: bool, room: usize, len: usize) -> Option<usize>
    ensures { result ≡ stored_length strict room len }
{
    if !strict {
        return Some(room.saturating_sub(1).min(len) + 1);
    }
    if len < room { Some(len + 1) } else { None }
}

/// Whether a text is stored: there is one, it fits where it has to, and there are the cells.
fn takes_text(
    frames: &Frames,
    store: &Store,
    strict: bool,
    text: Option<usize>,
    to: Address,
    room: Option<usize>,
) -> bool
    ensures { result ≡ takes strict text room (addr_in to) (rooted_in frames.now store.now) }
{
    let Some(len) = text else {
        return false;
    };
    let Some(size) = room else {
        return false;
    };
    match stored_len(strict, size, len) {
        None => false,
        Some(count) => has_cells_at(frames, store, to.root, to.cell as usize, count),
    }
}

/// Whether a procedure of this shape is called with so many operands: they can be handed over in this way, and it isn't too deep.
fn enters(frames: &Frames, store: &Store, shape: &ProcShape, way: Way, count: usize) -> bool
    ensures { TellsCall result (Option.Some shape.now) way count frames.now (memory_in store.now) }
{
    let all = behind_value(way, arguments(frames, count));
    let args = arguments_of(shape.method, all);
    match count_copied(frames, store, &shape.params, args) {
        None => false,
        Some(copied) => !frames.is_deep(count_with(shape.counted, copied)),
    }
}

/// Whether a procedure is called with so many operands, which are handed over in this way.
fn calls(frames: &Frames, store: &Store, shape: Option<&ProcShape>, way: Way, count: usize) -> bool
    ensures { TellsCall result (option_copied shape.entry) way count frames.now
        (memory_in store.now) }
{
    match shape {
        None => false,
        Some(shape) => enters(frames, store, shape, way, count),
    }
}

/// Whether the answer to a question comes that needs nothing but the activity's own frames, of which the topmost one asks it.
pub fn is_answered(image: &Image, question: Question, frames: &Frames, store: &Store) -> bool
    ensures { TellsOwn result image.now.shapes.items image.now.types.items question frames.now
        (memory_in store.now) }
{
    match question {
        Question::Reads(kind, address) => holds(
            kind,
            load_at(frames, store, address.root, address.cell as usize),
        ),
        Question::Stores(address, _) => load_at(
            frames,
            store,
            address.root,
            address.cell as usize,
        ).is_some(),
        Question::Copies(count, from, to) => has_both(frames, store, count, from, to),
        Question::PutsText(strict, from, len, to, room) => {
            let text = text_len_at(frames, store, from, len);
            takes_text(frames, store, strict, text, to, length_of(room))
        }
        Question::ComparesTexts(_, left, len, right, other) => {
            compare_at(frames, store, left, len, right, other).is_some()
        }
        Question::Calls(procedure, way, count) => calls(
            frames,
            store,
            numbered(&image.shapes, procedure),
            way,
            count,
        ),
        Question::Ends(_) => !is_top_open(frames),
        _ => false,
    }
}
