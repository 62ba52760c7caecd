// Changes of cells, each of which is made only where there are such cells.
ghost use Rattle.std.specs.Prelude.{◌≡◌, ◌<◌, ◌≤◌, ◌+◌, ◌-◌, ℕ, length, take, drop, if◌then◌else◌};
ghost use Rattle.aos_store.specs.Store.{fits as fits_of, changed};

use aos_code::Cell;

/// What is done to the cells below a root.
#[derive(Clone, Copy)]
pub enum Change {
    /// A cell is set.
    Sets(usize, Cell),
    /// So many cells are copied from the first place to the second, all read before any is written.
    Moves(usize, usize, usize),
}

/// Whether there are the cells that are changed, among so many.
#[inline(always)]
fn fits(what: Change, len: usize) -> bool
    ensures { result ≡ fits_of what len }
{
    match what {
        Change::Sets(cell, _) => cell < len,
        Change::Moves(count, from, to) => {
            count <= len.saturating_sub(from) && count <= len.saturating_sub(to)
        }
    }
}

/// Changes cells, where there are such cells, and says whether there are.
#[inline(always)]
pub fn make_change(cells: &mut [Cell], what: Change) -> bool
    ensures there { result ≡ fits_of what (length cells.old) }
    ensures after { cells.new ≡ (if result then changed what cells.old else cells.old) }
{
    if !fits(what, cells.len()) {
        return false;
    }
    match what {
        Change::Sets(cell, value) => cells[cell] = value,
        Change::Moves(count, from, to) => {
            if 0 < count {
                cells.copy_within(from..from + count, to);
            }
        }
    }
    true
}

/// Changes the first so many cells alone.
#[inline(always)]
pub fn change_front(cells: &mut [Cell], own: usize, what: Change) -> bool
    requires { own ≤ length cells.old }
    ensures there { result ≡ fits_of what own }
    ensures front { take own cells.new ≡
        (if result then changed what (take own cells.old) else take own cells.old) }
    ensures rest { drop own cells.new ≡ drop own cells.old }
{
    make_change(&mut cells[..own], what)
}
