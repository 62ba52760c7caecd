// The placing of files, each behind those that it needs.

ghost use Rattle.std.specs.Prelude.{◌≡◌, true, length, map, take, filter, not, IfOk};
ghost use Rattle.std.specs.List.{list_all, range_with_len};
ghost use Rattle.aos_order.specs.Placing as placing;
ghost use Rattle.aos_order.specs.Placing.{is_among, AreKnown};

use indexmap::IndexSet;
use std::alloc::{AllocError, Global};

/// Whether all needed files are placed. So many of them are known to be: the number grows, so that
/// each is met once.
fn are_placed(needed: &[usize], known: &mut usize, placed: &IndexSet<usize>) -> bool
    requires { list_all (is_among placed.now.keys) (take known.old needed.now) ≡ true }
    ensures all { result ≡ list_all (is_among placed.now.keys) needed.now }
    ensures known { list_all (is_among placed.now.keys) (take known.new needed.now) ≡ true }
{
    while let Some(file) = needed.get(*known) {
        if !placed.contains(file) {
            return false;
        }
        *known += 1;
    }
    true
}

/// The first file that isn't placed yet and whose needed files all are.
fn next(needs: &[Vec<usize>], known: &mut [usize], placed: &IndexSet<usize>) -> Option<usize>
    requires numbers { length known.old ≡ length needs.now }
    requires known { AreKnown (map (λ v. v.items) needs.now) known.old placed.now.keys }
    ensures next { result ≡ placing.next (map (λ v. v.items) needs.now) placed.now.keys }
    ensures known { AreKnown (map (λ v. v.items) needs.now) known.new placed.now.keys }
{
    for (file, needed) in needs.iter().enumerate() {
        if !placed.contains(&file) && are_placed(needed, &mut known[file], placed) {
            return Some(file);
        }
    }
    None
}

/// The files that can be placed, in their order.
pub fn place(alloc: Global, needs: &[Vec<usize>]) -> Result<IndexSet<usize>, AllocError>
    ensures { IfOk result (λ placed. placed.keys ≡ placing.placed (map (λ v. v.items) needs.now)) }
{
    let mut known = vec![in alloc; 0; needs.len()]?;
    let mut placed = IndexSet::new(alloc);
    while placed.len() < needs.len() {
        let Some(file) = next(needs, &mut known, &placed) else {
            break;
        };
        placed.insert(file)?;
    }
    Ok(placed)
}

/// Those of so many files that aren't placed, in the order of the command.
pub fn unplaced(
    alloc: Global,
    placed: &IndexSet<usize>,
    files: usize,
) -> Result<Vec<usize>, AllocError>
    ensures { IfOk result (λ left. left.items
        ≡ filter (λ k. not (is_among placed.now.keys k)) (range_with_len 0 files)) }
{
    let mut left = Vec::new(alloc);
    for file in 0..files {
        if !placed.contains(&file) {
            left.push(file)?;
        }
    }
    Ok(left)
}
