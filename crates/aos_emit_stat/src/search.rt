// How a CASE finds its arm: its labels in order, and code that halves them again and again. A jump to an arm has the arm's number
// until it is known where the arm begins.

ghost use Rattle.std.specs.Prelude.{◌≡◌, ◌<◌, suc, [], ◌∷◌, ◌++◌, length, map, IfOk, OnOk};
ghost use Rattle.aos_typed.specs.Program.{NoElse};
ghost use Rattle.aos_typed.specs.Seen.{cases_of};
ghost use Rattle.aos_sim.specs.Search.{rows_to, rows_from, in_order, halved, one_code, range_code, label_code, search_code};
ghost use Rattle.aos_emit_stat.specs.Places.{place_in, led};

use aos_base::{Binary, Relation};
use aos_code::{Instr, Kind};
use aos_emit_expr::{next_place, number_of, put};
use aos_typed::{LabelRange, LabelRow, TCase};
use std::alloc::{AllocError, Global};

// For how many instructions there is room for each label: at most 14 of the search, one behind an arm, and one more.
const FOR_LABEL: usize = 16;

// The labels of an arm that have a value.
fn add_rows(rows: &mut Vec<LabelRow>, labels: &[LabelRange], arm: u32) -> Result<(), AllocError>
    ensures { OnOk result (rows.new.items ≡ rows.old.items ++ rows_to arm labels.now) }
{
    for range in labels {
        if range.low <= range.high {
            rows.push(LabelRow {
                labels: *range,
                arm,
            })?;
        }
    }
    Ok(())
}

// The labels of all arms, as they come.
fn all_rows(alloc: Global, cases: &[TCase]) -> Result<Vec<LabelRow>, AllocError>
    ensures { IfOk result (λ rows. rows.items ≡ rows_from 0 (cases_of cases.now NoElse)) }
{
    let mut rows = Vec::new(alloc);
    let mut arm = 0;
    while arm < cases.len() {
        add_rows(&mut rows, &cases[arm].labels, number_of(arm)?)?;
        arm += 1;
    }
    Ok(rows)
}

/// The labels of all arms that have a value, in the order of the first ones.
pub fn rows_of(alloc: Global, cases: &[TCase]) -> Result<Vec<LabelRow>, AllocError>
    ensures { IfOk result (λ rows.
        rows.items ≡ in_order (rows_from 0 (cases_of cases.now NoElse))) }
{
    let mut rows = all_rows(alloc, cases)?;
    rows.sort_by_key(|row| row.labels.low)?;
    Ok(rows)
}

// One end of a range of labels: where the selector's value, which is kept, isn't so related to it the code goes on at `past`.
fn put_bound(
    code: &mut Vec<Instr>,
    relation: Relation,
    bound: &i64,
    level: u32,
    past: u32,
) -> Result<(), AllocError>
    ensures { OnOk result (code.new.items ≡ code.old.items ++
        Instr.Kept level Kind.N ∷ Instr.Num bound.now ∷
        Instr.Binary (Binary.Cmp relation) ∷ Instr.JumpFalse past ∷ []) }
{
    put(code, Instr::Kept(level, Kind::N))?;
    put(code, Instr::Num(*bound))?;
    put(code, Instr::Binary(Binary::Cmp(relation)))?;
    put(code, Instr::JumpFalse(past))
}

// One value: where the selector's value is it the code goes on at `hit`.
fn put_one(code: &mut Vec<Instr>, value: &i64, level: u32, hit: u32) -> Result<(), AllocError>
    ensures { OnOk result (code.new.items ≡
        code.old.items ++ one_code value.now level (length code.old.items) hit) }
{
    let past = number_of(code.len() + 5)?;
    put_bound(code, Relation::Equal, value, level, past)?;
    put(code, Instr::Jump(hit))
}

// A range of labels: where the selector's value is in it the code goes on at `hit`.
fn put_range(
    code: &mut Vec<Instr>,
    range: &LabelRange,
    level: u32,
    hit: u32,
) -> Result<(), AllocError>
    ensures { OnOk result (code.new.items ≡
        code.old.items ++ range_code range.now level (length code.old.items) hit) }
{
    let past = number_of(code.len() + 9)?;
    put_bound(code, Relation::GreaterEqual, &range.low, level, past)?;
    put_bound(code, Relation::LessEqual, &range.high, level, past)?;
    put(code, Instr::Jump(hit))
}

// A label, which has one value or more.
fn put_label(
    code: &mut Vec<Instr>,
    range: &LabelRange,
    level: u32,
    hit: u32,
) -> Result<(), AllocError>
    ensures { OnOk result (code.new.items ≡
        code.old.items ++ label_code range.now level (length code.old.items) hit) }
{
    if range.low == range.high {
        put_one(code, &range.low, level, hit)
    } else {
        put_range(code, range, level, hit)
    }
}

// The search in two halves. The jump over the lower one is told its target when that is known.
#[cycle(put_part)]
fn put_halves(
    code: &mut Vec<Instr>,
    rows: &[LabelRow],
    deep: usize,
    other: u32,
    level: u32,
) -> Result<(), AllocError>
    requires { 1 < length rows.now }
    ensures { OnOk result (code.new.items ≡ code.old.items ++
        search_code (λ n. n) other (halved (suc deep) rows.now) level (length code.old.items)) }
{
    let half = rows.len() / 2;
    let middle = code.len() + 3;
    put_bound(code, Relation::Less, &rows[half].labels.low, level, 0)?;
    put_part(code, &rows[..half], deep, other, level)?;
    let end = next_place(code)?;
    code[middle] = Instr::JumpFalse(end);
    put_part(code, &rows[half..], deep, other, level)
}

// The search in so many rows, or fewer, whose jumps lead to the numbers of arms.
#[cycle(put_part)]
fn put_part(
    code: &mut Vec<Instr>,
    rows: &[LabelRow],
    deep: usize,
    other: u32,
    level: u32,
) -> Result<(), AllocError>
    ensures { OnOk result (code.new.items ≡ code.old.items ++
        search_code (λ n. n) other (halved deep rows.now) level (length code.old.items)) }
{
    if rows.len() > 1 && deep > 0 {
        return put_halves(code, rows, deep - 1, other, level);
    }
    if rows.len() == 1 {
        put_label(code, &rows[0].labels, level, rows[0].arm)?;
    }
    put(code, Instr::Jump(other))
}

/// The search in so many rows, or fewer, whose jumps lead to the numbers of arms. There is room for all of it at first: it is most of
/// the code of a long CASE, which would be there twice while it is moved to where it has room.
pub fn put_search(
    code: &mut Vec<Instr>,
    rows: &[LabelRow],
    deep: usize,
    other: u32,
    level: u32,
) -> Result<(), AllocError>
    ensures { OnOk result (code.new.items ≡ code.old.items ++
        search_code (λ n. n) other (halved deep rows.now) level (length code.old.items)) }
{
    code.reserve(rows.len().saturating_mul(FOR_LABEL))?;
    put_part(code, rows, deep, other, level)
}

// Where an arm begins; the last place is that of what is behind the arms.
#[tactic(auto, using(crate::proofs::Searches::place_there, crate::proofs::Searches::place_last))]
fn place_at(places: &[u32], arm: u32) -> u32
    ensures { result ≡ place_in 0 places.now arm }
{
    let count = places.len();
    if (arm as usize) < count {
        places[arm as usize]
    } else if count > 0 {
        places[count - 1]
    } else {
        0
    }
}

// What leads to an arm's number leads to its place.
fn lead(instr: Instr, places: &[u32]) -> Instr
    ensures { result ≡ led (place_in 0 places.now) instr }
{
    match instr {
        Instr::Jump(arm) => Instr::Jump(place_at(places, arm)),
        _ => instr,
    }
}

/// The jumps of a search are told where the arms begin.
pub fn set_places(code: &mut [Instr], places: &[u32])
    ensures { code.new ≡ map (led (place_in 0 places.now)) code.old }
{
    let mut at = 0;
    while at < code.len() {
        code[at] = lead(code[at], places);
        at += 1;
    }
}
