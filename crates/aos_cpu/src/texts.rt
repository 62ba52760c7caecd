// Texts: the characters of an array before the first 0X, or all of them where there is none.
ghost use Rattle.std.specs.Prelude.{false, ◌≡◌, ◌<◌, ◌^◌, ◌+◌, ℕ, true, List, [], ◌++◌, Option, IfOk, OnErr, take, drop, length, map, slice_get, is_some, if◌then◌else◌};
ghost use Rattle.std.specs.Option.{option_and_then, option_copied, unwrap_or};
ghost use Rattle.aos_base.specs.Question.{PutsText, ComparesTexts, PutsString};
ghost use Rattle.aos_base.specs.Rooted.{at_root, by_number, from_last, spliced};
ghost use Rattle.aos_code.specs.declared.instr.Cell.TheVariants.{Num};
ghost use Rattle.aos_code.specs.Machine.{cells_at as cells_of_place, if_all, code_in, text_in, text_at, length_in, character_cells, fitted, memory_with};
ghost use Rattle.aos_store.specs.Store.{list_in, frames_in, memory_in, rooted_in, has_all, with_frames, SameCounts};
ghost use Rattle.aos_store.specs.Room.{KeepsRoom};
ghost use Rattle.aos_silent_steps.specs.Acts.{addr_in};
ghost use Rattle.aos_cpu.specs.Answers.{IsAnswered, IsFitted, code_from, same_character, order_of, ordered};
ghost use Rattle.aos_cpu.specs.Turns.{Same, WhereLeft};

use crate::answers::{go_behind, put_behind};
use aos_base::{Did, NoMemory, Relation, Root, related, truth};
use aos_code::Cell;
use aos_silent_steps::Address;
use aos_store::{Frames, Object, Store, len_at, store_at};
use std::alloc::Global;

/// The cells of the frame above so many others.
fn frame_cells(frames: &Frames, above: u32) -> Option<&[Cell]>
    ensures { option_copied result ≡
        from_last above (map (λ f. f.cells) (list_in frames.now.list.items)) }
{
    match frames.frame(above as usize) {
        None => None,
        Some(frame) => Some(&frame.cells[..frame.len()]),
    }
}

/// The cells of a module.
fn module_cells(store: &Store, number: u32) -> Option<&[Cell]>
    ensures { option_copied result ≡ slice_get (memory_in store.now).modules number }
{
    match store.modules.get(number as usize) {
        None => None,
        Some(cells) => Some(cells.as_slice()),
    }
}

/// The object of a number, from 1.
fn object(store: &Store, number: u32) -> Option<&Object>
    ensures { option_copied result ≡ by_number number store.now.objects }
{
    store.objects.get(number)
}

/// The cells of an object.
fn object_cells(store: &Store, number: u32) -> Option<&[Cell]>
    ensures { option_copied result ≡ by_number number (memory_in store.now).objects }
{
    match object(store, number) {
        None => None,
        Some(object) => Some(object.cells.as_slice()),
    }
}

/// The cells below a root.
pub fn cells_below<'a>(frames: &'a Frames, store: &'a Store, root: Root) -> Option<&'a [Cell]>
    ensures { option_copied result ≡ at_root root (rooted_in frames.now store.now) }
{
    match root {
        Root::Frame(above) => frame_cells(frames, above),
        Root::Module(number) => module_cells(store, number),
        Root::Object(number) => object_cells(store, number),
    }
}

/// A length, where it is one.
pub fn length_of(number: i64) -> Option<usize>
    ensures { result ≡ length_in [] (Num number) }
{
    usize::try_from(number).ok()
}

/// So many of these cells from one on, where there are so many.
pub fn front(cells: &[Cell], from: usize, count: usize) -> Option<&[Cell]>
    ensures { option_copied result ≡
        option_and_then (if_all count) (Option.Some (take count (drop from cells.now))) }
{
    let rest = &cells[from.min(cells.len())..];
    if rest.len() < count {
        None
    } else {
        Some(&rest[..count])
    }
}

/// The cells of an array at a place, where there are as many as its length says.
pub fn array_at<'a>(
    frames: &'a Frames,
    store: &'a Store,
    address: Address,
    number: i64,
) -> Option<&'a [Cell]>
    ensures { option_copied result ≡
        option_and_then (λ m. cells_of_place m (addr_in address) (rooted_in frames.now store.now))
        (length_in [] (Num number)) }
{
    match length_of(number) {
        None => None,
        Some(count) => match cells_below(frames, store, address.root) {
            None => None,
            Some(cells) => front(cells, address.cell as usize, count),
        },
    }
}

/// The character in a cell, by its code.
pub fn code(cell: Cell) -> Option<u8>
    ensures { result ≡ code_in [] cell }
{
    match cell {
        Cell::Num(number) => u8::try_from(number).ok(),
        _ => None,
    }
}

/// The text in an array's cells is put behind bytes; where there is none, or memory runs out, its front may stand there.
fn read_text(cells: &[Cell], bytes: &mut Vec<u8>) -> Result<bool, NoMemory>
    ensures text { IfOk result (λ there.
        text_in [] cells.now ≡
        (if there then Option.Some (drop (length bytes.old.items) bytes.new.items)
        else Option.None)) }
    ensures front { bytes.new.items ≡ bytes.old.items ++
        drop (length bytes.old.items) bytes.new.items }
{
    for cell in cells {
        match code(*cell) {
            None => return Ok(false),
            Some(0) => return Ok(true),
            Some(byte) => {
                bytes.reserve(1)?;
                bytes.push_reserved(byte);
            }
        }
    }
    Ok(true)
}

/// The text in an array's cells is put behind bytes, which stay as they were where there is none.
fn add_text(cells: &[Cell], bytes: &mut Vec<u8>) -> Result<bool, NoMemory>
    ensures text { IfOk result (λ there. there ≡ is_some (text_in [] cells.now)) }
    ensures bytes { IfOk result (λ _.
        bytes.new.items ≡ bytes.old.items ++ unwrap_or (text_in [] cells.now) []) }
    ensures err { OnErr result (bytes.new.items ≡ bytes.old.items) }
{
    let len = bytes.len();
    match read_text(cells, bytes) {
        Ok(true) => Ok(true),
        Ok(false) => {
            bytes.truncate(len);
            Ok(false)
        }
        Err(no_memory) => {
            bytes.truncate(len);
            Err(no_memory)
        }
    }
}

/// The text at a place is put behind bytes, which stay as they were where there is none.
fn add_text_at(
    frames: &Frames,
    store: &Store,
    address: Address,
    number: i64,
    bytes: &mut Vec<u8>,
) -> Result<bool, NoMemory>
    ensures text { IfOk result (λ there.
        there ≡ is_some (text_at [] (addr_in address) (Num number)
        (rooted_in frames.now store.now))) }
    ensures bytes { IfOk result (λ _.
        bytes.new.items ≡ bytes.old.items ++
        unwrap_or (text_at [] (addr_in address) (Num number) (rooted_in frames.now store.now)) []) }
    ensures err { OnErr result (bytes.new.items ≡ bytes.old.items) }
{
    match array_at(frames, store, address, number) {
        None => Ok(false),
        Some(cells) => add_text(cells, bytes),
    }
}

/// A text is written.
pub fn put_string(
    frames: &mut Frames,
    store: &Store,
    output: &mut Vec<u8>,
    address: Address,
    number: i64,
    at: usize,
) -> Result<Did, NoMemory>
    requires { at + 1 < 2 ^ 64 }
    ensures ok { IfOk result (λ did.
        IsAnswered (PutsString (addr_in address) (Num number)) at 2 frames.old frames.new
        (memory_in store.now) (memory_in store.now) did output.old.items output.new.items) }
    ensures left { IfOk result (λ did.
        WhereLeft did (Same frames.old frames.new (memory_in store.now)
        (memory_in store.now) output.old.items output.new.items)) }
    ensures err { OnErr result (Same frames.old frames.new (memory_in store.now)
        (memory_in store.now) output.old.items output.new.items) }
    ensures counts { SameCounts frames.old frames.new }
    ensures room { KeepsRoom frames.old frames.new }
{
    if !add_text_at(frames, store, address, number, output)? {
        return Ok(Did::Trapped(16, 0));
    }
    go_behind(frames, at, 2);
    Ok(Did::Went)
}

/// Whether there is a text in an array's cells: all before its end are characters.
fn is_text(cells: &[Cell]) -> bool
    ensures { result ≡ is_some (text_in [] cells.now) }
{
    for cell in cells {
        match code(*cell) {
            None => return false,
            Some(0) => return true,
            Some(_) => {}
        }
    }
    true
}

/// The first character of a text, 0X where there is none.
fn first_code(cells: &[Cell]) -> Option<u8>
    ensures { result ≡ code_from cells.now }
{
    match cells {
        [] => Some(0),
        [first, ..] => code(*first),
    }
}

/// Whether two characters are the same, and end no text.
fn is_same(a: Option<u8>, b: Option<u8>) -> bool
    ensures { result ≡ same_character a b }
{
    match (a, b) {
        (Some(x), Some(y)) => x == y && x != 0,
        _ => false,
    }
}

/// How two characters compare.
fn compare_codes(a: u8, b: u8) -> i64
    ensures { result ≡ order_of a b }
{
    if a < b {
        -1
    } else if b < a {
        1
    } else {
        0
    }
}

/// How two texts compare that don't begin with the same character, where there are both.
fn compare_rests(first: &[Cell], second: &[Cell]) -> Option<i64>
    requires { same_character (code_from first.now) (code_from second.now) ≡ false }
    ensures { result ≡ ordered (text_in [] first.now) (text_in [] second.now) }
{
    if !is_text(first) || !is_text(second) {
        return None;
    }
    match (first_code(first), first_code(second)) {
        (Some(a), Some(b)) => Some(compare_codes(a, b)),
        _ => None,
    }
}

/// How the texts of two arrays compare, where there are both.
fn compare_arrays(first: &[Cell], second: &[Cell]) -> Option<i64>
    ensures { result ≡ ordered (text_in [] first.now) (text_in [] second.now) }
{
    let count = first.len().min(second.len());
    for i in 0..count {
        if !is_same(code(first[i]), code(second[i])) {
            return compare_rests(&first[i..], &second[i..]);
        }
    }
    compare_rests(&first[count..], &second[count..])
}

/// How the texts at two places compare, where there are both.
pub fn compare_at(
    frames: &Frames,
    store: &Store,
    a: Address,
    n: i64,
    b: Address,
    m: i64,
) -> Option<i64>
    ensures { result ≡ ordered (text_at [] (addr_in a) (Num n) (rooted_in frames.now store.now))
        (text_at [] (addr_in b) (Num m) (rooted_in frames.now store.now)) }
{
    match array_at(frames, store, a, n) {
        None => None,
        Some(first) => match array_at(frames, store, b, m) {
            None => None,
            Some(second) => compare_arrays(first, second),
        },
    }
}

/// Two texts are compared.
pub fn compare_texts(
    frames: &mut Frames,
    store: &Store,
    relation: Relation,
    a: Address,
    n: i64,
    b: Address,
    m: i64,
    at: usize,
) -> Result<Did, NoMemory>
    requires { at + 1 < 2 ^ 64 }
    ensures ok { (out : List ℕ) →
        IfOk result (λ did.
        IsAnswered (ComparesTexts relation (addr_in a) (Num n) (addr_in b) (Num m)) at 4 frames.old
        frames.new (memory_in store.now) (memory_in store.now) did out out) }
    ensures left { (out : List ℕ) →
        IfOk result (λ did.
        WhereLeft did (Same frames.old frames.new (memory_in store.now)
        (memory_in store.now) out out)) }
    ensures err { (out : List ℕ) →
        OnErr result (Same frames.old frames.new (memory_in store.now)
        (memory_in store.now) out out) }
    ensures counts { SameCounts frames.old frames.new }
    ensures room { KeepsRoom frames.old frames.new }
{
    match compare_at(frames, store, a, n, b, m) {
        None => Ok(Did::Trapped(16, 0)),
        Some(order) => {
            put_behind(frames, at, 4, Cell::Num(truth(related(relation, order, 0))))?;
            Ok(Did::Went)
        }
    }
}

/// What of a text is stored in an array of so many characters, with its 0X; false where it has to fit and doesn't.
fn fit(bytes: &mut Vec<u8>, strict: bool, room: usize) -> Result<bool, NoMemory>
    ensures { IfOk result (λ fits.
        fitted [] strict room bytes.old.items ≡
        (if fits then Option.Some bytes.new.items else Option.None)) }
{
    if strict && room <= bytes.len() {
        return Ok(false);
    }
    bytes.truncate(room.saturating_sub(1));
    bytes.reserve(1)?;
    bytes.push_reserved(0);
    Ok(true)
}

/// Characters are stored one after the other, below a root that has their cells.
fn store_characters(frames: &mut Frames, store: &mut Store, root: Root, cell: u32, bytes: &[u8])
    requires room { cell + length bytes.now < 2 ^ 64 }
    requires target { has_all (length bytes.now) cell
        (at_root root (rooted_in frames.old store.old)) ≡ true }
    ensures frames { frames_in frames.new ≡
        with_frames root (spliced cell (character_cells [] bytes.now)) frames.old }
    ensures counts { SameCounts frames.old frames.new }
    ensures room { KeepsRoom frames.old frames.new }
    ensures memory { memory_in store.new ≡
        memory_with root (spliced cell (character_cells [] bytes.now)) (memory_in store.old) }
{
    for i in 0..bytes.len() {
        store_at(
            frames,
            store,
            root,
            cell as usize + i,
            Cell::Num(bytes[i] as i64),
        );
    }
}

/// Characters are stored at a place, where there are so many cells, and this is told.
fn store_text(frames: &mut Frames, store: &mut Store, address: Address, bytes: &[u8]) -> bool
    ensures there { result ≡
        has_all (length bytes.now) address.cell
        (at_root address.root (rooted_in frames.old store.old)) }
    ensures frames { frames_in frames.new ≡
        (if result then with_frames address.root
        (spliced address.cell (character_cells [] bytes.now)) frames.old else frames_in
        frames.old) }
    ensures counts { SameCounts frames.old frames.new }
    ensures room { KeepsRoom frames.old frames.new }
    ensures memory { memory_in store.new ≡
        (if result then memory_with address.root
        (spliced address.cell (character_cells [] bytes.now))
        (memory_in store.old) else memory_in store.old) }
{
    match len_at(frames, store, address.root) {
        None => false,
        Some(len) => {
            if len.saturating_sub(address.cell as usize) < bytes.len() {
                return false;
            }
            store_characters(frames, store, address.root, address.cell, bytes);
            true
        }
    }
}

/// The characters that are stored of the text at a place; or the trap, where there is none, or it has to fit and doesn't.
fn read_fitted(
    frames: &Frames,
    store: &Store,
    bytes: &mut Vec<u8>,
    strict: bool,
    from: Address,
    number: i64,
    room: i64,
) -> Result<u8, NoMemory>
    requires { bytes.old.items ≡ [] }
    ensures { IfOk result (λ trap.
        IsFitted strict (text_at [] (addr_in from) (Num number) (rooted_in frames.now store.now))
        (length_in [] (Num room)) bytes.new.items trap) }
{
    if !add_text_at(frames, store, from, number, bytes)? {
        return Ok(16);
    }
    match length_of(room) {
        None => Ok(16),
        Some(count) => {
            if fit(bytes, strict, count)? {
                Ok(0)
            } else {
                Ok(15)
            }
        }
    }
}

/// A text is stored in an array: its beginning where it doesn't fit, or trap 15 where it has to.
pub fn put_text(
    alloc: Global,
    frames: &mut Frames,
    store: &mut Store,
    strict: bool,
    from: Address,
    number: i64,
    to: Address,
    room: i64,
    at: usize,
) -> Result<Did, NoMemory>
    requires { at + 1 < 2 ^ 64 }
    ensures ok { (out : List ℕ) →
        IfOk result (λ did.
        IsAnswered (PutsText strict (addr_in from) (Num number) (addr_in to) (Num room)) at 4
        frames.old frames.new (memory_in store.old) (memory_in store.new) did out out) }
    ensures left { (out : List ℕ) →
        IfOk result (λ did.
        WhereLeft did (Same frames.old frames.new (memory_in store.old)
        (memory_in store.new) out out)) }
    ensures err { (out : List ℕ) →
        OnErr result (Same frames.old frames.new (memory_in store.old)
        (memory_in store.new) out out) }
    ensures counts { SameCounts frames.old frames.new }
    ensures room { KeepsRoom frames.old frames.new }
{
    let mut bytes = Vec::new(alloc);
    let trap = read_fitted(frames, store, &mut bytes, strict, from, number, room)?;
    if trap != 0 {
        return Ok(Did::Trapped(trap, 0));
    }
    if !store_text(frames, store, to, &bytes) {
        return Ok(Did::Trapped(16, 0));
    }
    go_behind(frames, at, 4);
    Ok(Did::Went)
}
