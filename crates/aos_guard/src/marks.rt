// Marks that are taken back until none changes.

ghost use Rattle.std.specs.Prelude.{◌≡◌, ◌<◌, ◌↔◌, ◌≤◌, ◌+◌, Bool, ℕ, length, IsTrue, IsFalse, count_by, if◌then◌else◌};
ghost use Rattle.aos_guard.specs.Marks.{marked, KeepsEdge, IsClosed, IsWithin, IsLeft};

/// Where `from` has a mark, `to` has one.
#[derive(Clone, Copy)]
pub struct Edge {
    pub from: u32,
    pub to: u32,
}

/// Whether a number has a mark.
pub fn has_mark(marks: &[bool], number: u32) -> bool
    ensures { result ≡ marked marks.now number }
{
    match marks.get(number as usize) {
        Some(mark) => *mark,
        None => false,
    }
}

// Whether an edge keeps its marks.
fn keeps(edge: &Edge, marks: &[bool]) -> bool
    ensures yes_ { IsTrue result → KeepsEdge (marked marks.now) edge.now }
    ensures no_ { IsFalse result →
        IsTrue (marked marks.now edge.now.from) × (IsTrue (marked marks.now edge.now.to) → ⊥) }
{
    let to = has_mark(marks, edge.to);
    !has_mark(marks, edge.from) || to
}

// A mark is taken back.
fn take_one(marks: &mut Vec<bool>, number: u32)
    ensures length { length marks.new.items ≡ length marks.old.items }
    ensures less { IsWithin (marked marks.new.items) (marked marks.old.items) }
    ensures kept { (set : ℕ → Bool) → (IsTrue (set number) → ⊥) →
        IsWithin set (marked marks.old.items) → IsWithin set (marked marks.new.items) }
    ensures fewer { count_by (λ b. b) marks.new.items +
        (if marked marks.old.items number then 1 else 0) ≡ count_by (λ b. b) marks.old.items }
{
    if (number as usize) < marks.len() {
        marks[number as usize] = false;
    }
}

// The mark of an edge's beginning is taken back where its end has none; whether it is.
fn visit(edge: &Edge, marks: &mut Vec<bool>) -> bool
    ensures less { IsWithin (marked marks.new.items) (marked marks.old.items) }
    ensures kept { (set : ℕ → Bool) → KeepsEdge set edge.now →
        IsWithin set (marked marks.old.items) → IsWithin set (marked marks.new.items) }
    ensures stop { IsFalse result →
        (marks.new.items ≡ marks.old.items) × KeepsEdge (marked marks.new.items) edge.now }
    ensures fewer { IsTrue result →
        count_by (λ b. b) marks.new.items < count_by (λ b. b) marks.old.items }
    ensures most { count_by (λ b. b) marks.new.items ≤ count_by (λ b. b) marks.old.items }
{
    if keeps(edge, marks) {
        false
    } else {
        take_one(marks, edge.from);
        true
    }
}

// One round over the edges; whether a mark was taken back.
fn round(edges: &[Edge], marks: &mut Vec<bool>) -> bool
    ensures less { IsWithin (marked marks.new.items) (marked marks.old.items) }
    ensures kept { (set : ℕ → Bool) → IsClosed edges.now set →
        IsWithin set (marked marks.old.items) → IsWithin set (marked marks.new.items) }
    ensures stop { IsFalse result → IsClosed edges.now (marked marks.new.items) }
    ensures fewer { IsTrue result →
        count_by (λ b. b) marks.new.items < count_by (λ b. b) marks.old.items }
    ensures most { count_by (λ b. b) marks.new.items ≤ count_by (λ b. b) marks.old.items }
{
    let mut changed = false;
    for edge in edges {
        if visit(edge, marks) {
            changed = true;
        }
    }
    changed
}

/// The marks that are left are those of the largest set within these that has with the beginning of each edge its end.
pub fn take_back(edges: &[Edge], marks: &mut Vec<bool>)
    ensures exact { (k : ℕ) →
        IsTrue (marked marks.new.items k) ↔ IsLeft edges.now marks.old.items k }
{
    let mut changed = true;
    while changed {
        changed = round(edges, marks);
    }
}
