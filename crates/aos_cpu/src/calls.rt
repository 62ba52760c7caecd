// Calls: what the parameters get is looked at and counted first, and then the frame is made at once.
ghost use Rattle.std.specs.Prelude.{◌≡◌, ◌<◌, ◌+◌, ◌-◌, ◌*◌, ◌^◌, nat_lt, if◌then◌else◌, ℕ, pos, List, [], ◌∷◌, ◌++◌, Option, IfOk, OnErr, OnOk, take, drop, min, reverse, length, map, replicate};
ghost use Rattle.std.specs.Option.{option_copied, option_map, option_and_then};
ghost use Rattle.aos_base.specs.declared.limits.TheConstants.{MOST_FRAMES};
ghost use Rattle.aos_code.specs.declared.instr.Cell.{Cell as CellOf};
ghost use Rattle.aos_code.specs.declared.instr.Cell.TheVariants.{Num};
ghost use Rattle.aos_code.specs.Machine.{Frame as FrameOf, if_all, whole_at, lengths_in, length_in, object_of as object_of_call, arguments_of as arguments_of_call, first_cell as first_cell_of};
ghost use Rattle.aos_sound.specs.FitFrames.{depth_of as depth_of_body};
ghost use Rattle.aos_store.specs.Store.{frame_in, list_in, frames_in, memory_in, rooted_in, SameCounts};
ghost use Rattle.aos_store.specs.Room.{IsRoomyFor, AreRoomyFor, HasRoom, MakesRoom};
ghost use Rattle.aos_silent_steps.specs.Room.{AreRoomy};
ghost use Rattle.aos_silent_steps.specs.declared.act.Question.TheVariants.{Calls};
ghost use Rattle.aos_silent_steps.specs.Acts.{behind_value as behind_value_of, first_as_object, with_object};
ghost use Rattle.aos_cpu.specs.Turns.{HasAnswered, Same, WhereLeft};
ghost use Rattle.aos_cpu.specs.Calls.{plain as plain_of, copied as copied_of, gift_in, gift_of, gifts, all_copied, gift_cells, all_cells, called_cells, called, may_pass as may_pass_of, IsCalled, IsEntered, sized, open_gift, Gift as GiftOf};

use crate::answers::go_behind;
use crate::texts::{cells_below, front, length_of};
use aos_base::{Did, NoMemory, Root};
use aos_code::{Cell, Image, Kind, ParamKind, ProcShape};
use aos_silent_steps::{Way, numbered};
use aos_store::{Frame, Frames, Store};
use std::alloc::Global;

/// What one parameter gets: its cells, behind the place of what is copied for it where it has that; what is copied; and how many
/// arguments that took.
#[derive(Clone, Copy)]
pub struct Gift<'a> {
    pub own: bool,
    pub cells: &'a [Cell],
    pub copied: &'a [Cell],
    pub taken: usize,
}

/// So many of these cells from one on, where there are so many.
fn front_of(cells: &[Cell], from: usize, size: Option<usize>) -> Option<&[Cell]>
    ensures { (n : ℕ) → size ≡ (if nat_lt n (2 ^ 64) then Option.Some n else Option.None) →
        option_copied result ≡
        option_and_then (if_all n) (Option.Some (take n (drop from cells.now))) }
{
    match size {
        None => None,
        Some(count) => front(cells, from, count),
    }
}

/// So many cells at a place, where there are so many.
fn whole<'a>(
    frames: &'a Frames,
    store: &'a Store,
    size: Option<usize>,
    cell: Cell,
) -> Option<&'a [Cell]>
    ensures { (n : ℕ) → size ≡ (if nat_lt n (2 ^ 64) then Option.Some n else Option.None) →
        option_copied result ≡ whole_at [] n cell (rooted_in frames.now store.now) }
{
    match cell {
        Cell::Place(root, from, _) => match cells_below(frames, store, root) {
            None => None,
            Some(cells) => front_of(cells, from as usize, size),
        },
        _ => None,
    }
}

/// The length in a cell.
fn length_at(cell: Cell) -> Option<usize>
    ensures { result ≡ length_in [] cell }
{
    match cell {
        Cell::Num(number) => length_of(number),
        _ => None,
    }
}

/// So many times as much, where that has 64 bits; nothing is 0 times anything.
fn times(length: usize, size: Option<usize>) -> Option<usize>
    ensures { (n : ℕ) → size ≡ (if nat_lt n (2 ^ 64) then Option.Some n else Option.None) →
        result ≡ (if nat_lt (length * n) (2 ^ 64) then Option.Some (length * n) else Option.None) }
{
    match size {
        Some(count) => length.checked_mul(count),
        None => { if length == 0 { Some(0) } else { None } }
    }
}

/// How many cells an array of these lengths has, whose elements have so many, where the lengths are none below 0; none inside where
/// that doesn't have 64 bits.
fn size_of(lengths: &[Cell], element: u32) -> Option<Option<usize>>
    ensures { result ≡ sized element (lengths_in [] lengths.now) }
{
    let mut size = Some(element as usize);
    for i in 0..lengths.len() {
        match length_at(lengths[lengths.len() - 1 - i]) {
            None => return None,
            Some(length) => size = times(length, size),
        }
    }
    Some(size)
}

/// These cells for one parameter, and nothing copied.
fn plain<'a>(cells: &'a [Cell], taken: usize) -> Gift<'a>
    ensures { gift_in result ≡ plain_of cells.now taken }
{
    Gift {
        own: false,
        cells,
        copied: &[],
        taken,
    }
}

/// What a parameter gets that is copied: the lengths of an open array, and its cells.
fn copied<'a>(
    frames: &'a Frames,
    store: &'a Store,
    size: Option<usize>,
    first: Cell,
    lengths: &'a [Cell],
    taken: usize,
) -> Option<Gift<'a>>
    ensures { (n : ℕ) → size ≡ (if nat_lt n (2 ^ 64) then Option.Some n else Option.None) →
        option_map gift_in result ≡
        option_map (copied_of lengths.now taken)
        (whole_at [] n first (rooted_in frames.now store.now)) }
{
    match whole(frames, store, size, first) {
        None => None,
        Some(cells) => Some(Gift {
            own: true,
            cells: lengths,
            copied: cells,
            taken,
        }),
    }
}

/// What an open array parameter gets.
fn open<'a>(
    frames: &'a Frames,
    store: &'a Store,
    dimensions: u32,
    by_value: bool,
    element: u32,
    args: &'a [Cell],
) -> Option<Gift<'a>>
    ensures { (v : CellOf) (vs : List CellOf) → args.now ≡ v ∷ vs →
        option_map gift_in result ≡
        option_and_then (open_gift (rooted_in frames.now store.now) dimensions by_value element v
        (take dimensions vs)) (lengths_in [] (take dimensions vs)) }
{
    let taken = dimensions as usize + 1;
    let all = &args[..taken.min(args.len())];
    match all {
        [] => None,
        [first, lengths @ ..] => match size_of(lengths, element) {
            None => None,
            Some(size) => {
                if by_value {
                    copied(frames, store, size, *first, lengths, taken)
                } else {
                    Some(plain(all, taken))
                }
            }
        },
    }
}

/// What a parameter gets of these arguments.
fn gift_for<'a>(
    frames: &'a Frames,
    store: &'a Store,
    param: ParamKind,
    args: &'a [Cell],
) -> Option<Gift<'a>>
    ensures { option_map gift_in result ≡ gift_of (rooted_in frames.now store.now) param args.now }
{
    match args {
        [] => None,
        [first, ..] => match param {
            ParamKind::Scalar(_) => Some(plain(&args[..1], 1)),
            ParamKind::Place => Some(plain(&args[..1], 1)),
            ParamKind::Whole(count) => match whole(frames, store, Some(count as usize), *first) {
                None => None,
                Some(cells) => Some(plain(cells, 1)),
            },
            ParamKind::Open(dimensions, by_value, element) => {
                open(frames, store, dimensions, by_value, element, args)
            }
        },
    }
}

/// The arguments behind so many.
fn past(args: &[Cell], taken: usize) -> &[Cell]
    ensures { result.now ≡ drop taken args.now }
{
    &args[taken.min(args.len())..]
}

/// The operands of a call that are handed over, among them a procedure value as it is.
pub fn behind_value(way: Way, operands: &[Cell]) -> &[Cell]
    ensures { result.now ≡ behind_value_of way operands.now }
{
    match way {
        Way::Direct => operands,
        Way::Bound => operands,
        Way::Free => past(operands, 1),
    }
}

/// Whether a procedure, a method or not, is called in this way: through a value with an object only a method is.
fn may_pass(way: Way, method: bool) -> bool
    ensures { result ≡ may_pass_of way method }
{
    match way {
        Way::Direct => true,
        Way::Bound => method,
        Way::Free => true,
    }
}

/// The object that comes before a method's arguments; 0 for none.
fn object_before(method: bool, args: &[Cell]) -> u32
    ensures { result ≡ object_of_call method args.now }
{
    if !method {
        return 0;
    }
    match args.first().copied() {
        Some(Cell::Ref(object)) => object,
        _ => 0,
    }
}

/// The object that comes before a method's arguments, where a procedure value stands for it; 0 for none.
fn object_of_value(method: bool, args: &[Cell]) -> u32
    ensures { result ≡ object_of_call method (first_as_object args.now) }
{
    if !method {
        return 0;
    }
    match args.first().copied() {
        Some(Cell::Ref(own)) => own,
        Some(Cell::Call(_, own)) => own,
        _ => 0,
    }
}

/// The object on which a procedure is called, which comes before its arguments where it is a method; 0 for none.
fn object_of(way: Way, method: bool, args: &[Cell]) -> u32
    ensures { result ≡ object_of_call method (with_object way args.now) }
{
    match way {
        Way::Direct => object_before(method, args),
        Way::Bound => object_of_value(method, args),
        Way::Free => object_before(method, args),
    }
}

/// The arguments without the object.
pub fn arguments_of(method: bool, args: &[Cell]) -> &[Cell]
    ensures { result.now ≡ arguments_of_call method args.now }
{
    if method { past(args, 1) } else { args }
}

/// How many cells are copied for parameters, as far as a number goes; none where an argument can't be handed over.
pub fn count_copied(
    frames: &Frames,
    store: &Store,
    params: &[ParamKind],
    args: &[Cell],
) -> Option<usize>
    ensures { result ≡ option_map (λ gs. min (length (all_copied gs)) (2 ^ 64 - 1))
        (gifts (rooted_in frames.now store.now) params.now args.now) }
{
    let mut rest = args;
    let mut count = 0usize;
    for param in params {
        match gift_for(frames, store, *param, rest) {
            None => return None,
            Some(given) => {
                count = count.saturating_add(given.copied.len());
                rest = past(rest, given.taken);
            }
        }
    }
    Some(count)
}

/// The cells of one parameter are put behind others.
fn hand_one(here: u32, at: u32, given: Gift, cells: &mut Vec<Cell>) -> Result<(), NoMemory>
    ensures { OnOk result (cells.new.items ≡ cells.old.items ++
        gift_cells here at (gift_in given.entry)) }
{
    if given.own {
        cells.reserve(1)?;
        cells.push_reserved(Cell::Place(Root::Frame(here), at, 0));
    }
    cells.extend_from_slice(given.cells)?;
    Ok(())
}

/// The number of a cell so many on.
fn cell_past(at: u32, count: usize) -> Result<u32, NoMemory>
    ensures { IfOk result (λ n. n ≡ at + count) }
{
    match u32::try_from(count).ok() {
        None => Err(NoMemory),
        Some(more) => match at.checked_add(more) {
            None => Err(NoMemory),
            Some(sum) => Ok(sum),
        },
    }
}

/// The cells of parameters are put behind others, in a frame above so many, where what is copied begins at this cell.
fn hand_cells(
    frames: &Frames,
    store: &Store,
    here: u32,
    from: u32,
    params: &[ParamKind],
    args: &[Cell],
    cells: &mut Vec<Cell>,
) -> Result<(), NoMemory>
    ensures { (gs : List GiftOf) → gifts (rooted_in frames.now store.now) params.now args.now ≡
        Option.Some gs → OnOk result (cells.new.items ≡ cells.old.items ++ all_cells here from gs) }
{
    let mut rest = args;
    let mut at = from;
    for param in params {
        match gift_for(frames, store, *param, rest) {
            None => return Ok(()),
            Some(given) => {
                hand_one(here, at, given, cells)?;
                at = cell_past(at, given.copied.len())?;
                rest = past(rest, given.taken);
            }
        }
    }
    Ok(())
}

/// What is copied for parameters is put behind other cells.
fn hand_copied(
    frames: &Frames,
    store: &Store,
    params: &[ParamKind],
    args: &[Cell],
    cells: &mut Vec<Cell>,
) -> Result<(), NoMemory>
    ensures { (gs : List GiftOf) → gifts (rooted_in frames.now store.now) params.now args.now ≡
        Option.Some gs → OnOk result (cells.new.items ≡ cells.old.items ++ all_copied gs) }
{
    let mut rest = args;
    for param in params {
        match gift_for(frames, store, *param, rest) {
            None => return Ok(()),
            Some(given) => {
                cells.extend_from_slice(given.copied)?;
                rest = past(rest, given.taken);
            }
        }
    }
    Ok(())
}

/// What a cell of this kind holds at first.
fn first_cell(kind: Kind) -> Cell
    ensures { result ≡ first_cell_of kind }
{
    match kind {
        Kind::N => Cell::Num(0),
        Kind::R => Cell::Ref(0),
        Kind::C => Cell::Call(0, 0),
        Kind::A => Cell::Num(0),
    }
}

/// Cells more, which begin as these kinds say.
pub fn add_first(kinds: &[Kind], cells: &mut Vec<Cell>) -> Result<(), NoMemory>
    ensures { OnOk result (cells.new.items ≡ cells.old.items ++ map first_cell_of kinds.now) }
{
    for kind in kinds {
        cells.reserve(1)?;
        cells.push_reserved(first_cell(*kind));
    }
    Ok(())
}

/// So many cells more, which hold 0.
fn add_zeros(cells: &mut Vec<Cell>, more: u32) -> Result<(), NoMemory>
    ensures { OnOk result (cells.new.items ≡ cells.old.items ++ replicate more (Num (pos 0))) }
{
    for _ in 0..more {
        cells.reserve(1)?;
        cells.push_reserved(Cell::Num(0));
    }
    Ok(())
}

/// The cells of a frame that is called, and those behind them that it keeps values in; memory for all of them is taken at once.
fn called_frame_cells(
    alloc: Global,
    frames: &Frames,
    store: &Store,
    shape: &ProcShape,
    args: &[Cell],
    copied: usize,
) -> Result<Vec<Cell>, NoMemory>
    ensures cells { (gs : List GiftOf) →
        gifts (rooted_in frames.now store.now) shape.now.params.items args.now ≡ Option.Some gs →
        IfOk result (λ cells.
        cells.items ≡
        called_cells (length (list_in frames.now.list.items)) shape.now.kinds.items gs ++
        replicate shape.now.keeps (Num (pos 0))) }
    ensures kept { IfOk result (λ cells.
        (front : List CellOf) × (cells.items ≡ front ++ replicate shape.now.keeps (Num (pos 0)))) }
{
    let size = shape
        .kinds
        .len()
        .saturating_add(copied)
        .saturating_add(shape.keeps as usize);
    let mut cells = Vec::with_capacity(alloc, size)?;
    let here = small(frames.count())?;
    let from = small(shape.kinds.len())?;
    hand_cells(frames, store, here, from, &shape.params, args, &mut cells)?;
    let own = cells.len().min(shape.kinds.len());
    add_first(&shape.kinds[own..], &mut cells)?;
    hand_copied(frames, store, &shape.params, args, &mut cells)?;
    add_zeros(&mut cells, shape.keeps)?;
    Ok(cells)
}

/// A number of 32 bits.
fn small(number: usize) -> Result<u32, NoMemory>
    ensures { IfOk result (λ n. n ≡ number) }
{
    match u32::try_from(number).ok() {
        None => Err(NoMemory),
        Some(n) => Ok(n),
    }
}

/// So many of the last ones.
fn last_of(stack: &[Cell], count: usize) -> &[Cell]
    ensures { result.now ≡ reverse (take count (reverse stack.now)) }
{
    &stack[stack.len().saturating_sub(count)..]
}

/// The operands of a call: so many of the topmost frame's topmost operands, in their order.
pub fn arguments(frames: &Frames, count: usize) -> &[Cell]
    ensures { (f : FrameOf) (fs : List FrameOf) → list_in frames.now.list.items ≡ f ∷ fs →
        result.now ≡ reverse (take count f.stack) }
{
    match frames.list.last() {
        None => &[],
        Some(frame) => last_of(&frame.operands, count),
    }
}

/// How many scalars count in a frame, with so many that are copied; at most as many as a number of 32 bits goes.
pub fn count_with(counted: u32, copied: usize) -> u32
    ensures { result ≡ min (counted + copied) (2 ^ 32 - 1) }
{
    match u32::try_from(copied).ok() {
        None => u32::MAX,
        Some(more) => counted.saturating_add(more),
    }
}

/// The frame of a procedure that is called on this object, 0 for none, with these arguments.
fn make_frame(
    alloc: Global,
    frames: &Frames,
    store: &Store,
    procedure: u32,
    object: u32,
    depth: u32,
    shape: &ProcShape,
    args: &[Cell],
    copied: usize,
    counted: u32,
) -> Result<Frame, NoMemory>
    ensures frame { (gs : List GiftOf) →
        gifts (rooted_in frames.now store.now) shape.now.params.items args.now ≡ Option.Some gs →
        IfOk result (λ frame.
        frame_in frame ≡
        called procedure object counted
        (called_cells (length (list_in frames.now.list.items)) shape.now.kinds.items gs)) }
    ensures room { IfOk result (λ frame. HasRoom procedure depth shape.now.keeps frame) }
{
    let cells = called_frame_cells(alloc, frames, store, shape, args, copied)?;
    let operands = Vec::with_capacity(alloc, depth as usize)?;
    Ok(Frame {
        procedure,
        object,
        next: 0,
        at: None,
        is_open: false,
        cells,
        keeps: shape.keeps,
        counted,
        operands,
    })
}

/// A frame is put above the topmost one, which goes on behind its call.
fn enter(frames: &mut Frames, frame: Frame, at: usize, taken: usize) -> Result<(), NoMemory>
    requires { at + 1 < 2 ^ 64 }
    ensures ok { OnOk result (IsEntered at taken (frame_in frame) frames.old frames.new) }
    ensures err { OnErr result (frames_in frames.new ≡ frames_in frames.old) }
    ensures counts { SameCounts frames.old frames.new }
    ensures room { (depths keeps : ℕ → ℕ) → IsRoomyFor depths keeps frame →
        length frames.old.list.items < MOST_FRAMES →
        AreRoomyFor depths keeps frames.old.list.items →
        AreRoomyFor depths keeps frames.new.list.items }
{
    frames.list.reserve(1)?;
    go_behind(frames, at, taken);
    frames.list.push_reserved(frame);
    Ok(())
}

/// A procedure of this shape is called with so many operands, which are handed over in this way.
fn call_shape(
    alloc: Global,
    depth: u32,
    procedure: u32,
    shape: &ProcShape,
    way: Way,
    count: usize,
    at: usize,
    frames: &mut Frames,
    store: &Store,
) -> Result<Did, NoMemory>
    requires { at + 1 < 2 ^ 64 }
    ensures ok { (out : List ℕ) →
        IfOk result (λ did.
        IsCalled (Option.Some shape.now) procedure way count at frames.old frames.new
        (memory_in store.now) did out) }
    ensures left { (out : List ℕ) →
        IfOk result (λ did.
        WhereLeft did (Same frames.old frames.new (memory_in store.now)
        (memory_in store.now) out out)) }
    ensures err { (out : List ℕ) →
        OnErr result (Same frames.old frames.new (memory_in store.now)
        (memory_in store.now) out out) }
    ensures counts { SameCounts frames.old frames.new }
    ensures room { MakesRoom procedure depth shape.now.keeps frames.old frames.new }
{
    // a value of what is no method has no object
    if !may_pass(way, shape.method) {
        return Err(NoMemory);
    }
    let all = behind_value(way, arguments(frames, count));
    let object = object_of(way, shape.method, all);
    let args = arguments_of(shape.method, all);
    match count_copied(frames, store, &shape.params, args) {
        None => Ok(Did::Trapped(16, 0)),
        Some(copied) => {
            let counted = count_with(shape.counted, copied);
            if frames.is_deep(counted) {
                return Ok(Did::Trapped(11, 0));
            }
            let frame = make_frame(
                alloc, frames, store, procedure, object, depth, shape, args, copied, counted,
            )?;
            enter(frames, frame, at, count)?;
            Ok(Did::Went)
        }
    }
}

/// How many operands the body of a procedure has at most; none where there is no body.
pub fn depth_of(image: &Image, procedure: u32) -> u32
    ensures { result ≡ depth_of_body image.now procedure }
{
    match numbered(&image.bodies, procedure) {
        None => 0,
        Some(body) => body.depth,
    }
}

/// A procedure is called with so many operands, which are handed over in this way.
pub fn call(
    alloc: Global,
    image: &Image,
    procedure: u32,
    way: Way,
    count: usize,
    at: usize,
    frames: &mut Frames,
    store: &Store,
) -> Result<Did, NoMemory>
    requires { at + 1 < 2 ^ 64 }
    ensures ok { (out : List ℕ) →
        IfOk result (λ did.
        HasAnswered image.now (Calls procedure way count) at frames.old frames.new
        (memory_in store.now) (memory_in store.now) did out out) }
    ensures left { (out : List ℕ) →
        IfOk result (λ did.
        WhereLeft did (Same frames.old frames.new (memory_in store.now)
        (memory_in store.now) out out)) }
    ensures err { (out : List ℕ) →
        OnErr result (Same frames.old frames.new (memory_in store.now)
        (memory_in store.now) out out) }
    ensures counts { SameCounts frames.old frames.new }
    ensures room { AreRoomy image.now frames.old → AreRoomy image.now frames.new }
{
    let depth = depth_of(image, procedure);
    match numbered(&image.shapes, procedure) {
        None => Ok(Did::Trapped(16, 0)),
        Some(shape) => call_shape(
            alloc, depth, procedure, shape, way, count, at, frames, store,
        ),
    }
}
