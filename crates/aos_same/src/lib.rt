//! Whether two trees are the same, places included: a method for each node, which asks its parts. What is tested of the
//! parsers stands on it; the program has no need of it.
#![tactic(auto)]

ghost use Rattle.std.specs.Prelude.{◌≡◌, ◌↔◌, IsTrue};

use aos_tree::{Boxed, Import, Items, MaybeBoxed, Module};

mod decl;
mod expr;
mod name;
mod stat;

/// Equality of trees.
trait Alike {
    /// Whether the two are one tree.
    fn same(&self, other: &Self) -> bool
        ensures { IsTrue result ↔ (self.now ≡ other.now) };
}

impl<T: Alike> Alike for Boxed<T> {
    fn same(&self, other: &Boxed<T>) -> bool {
        self.get().same(other.get())
    }
}

impl<T: Alike> Alike for MaybeBoxed<T> {
    fn same(&self, other: &MaybeBoxed<T>) -> bool {
        match self.get() {
            None => match other.get() {
                None => true,
                Some(_) => false,
            },
            Some(a) => match other.get() {
                None => false,
                Some(b) => a.same(b),
            },
        }
    }
}

impl<T: Alike> Alike for Option<T> {
    fn same(&self, other: &Option<T>) -> bool {
        match (self, other) {
            (None, None) => true,
            (Some(a), Some(b)) => a.same(b),
            _ => false,
        }
    }
}

impl<T: Alike> Alike for Items<T> {
    fn same(&self, other: &Items<T>) -> bool {
        let xs = self.as_slice();
        let ys = other.as_slice();
        if xs.len() != ys.len() {
            return false;
        }
        for i in 0..xs.len() {
            if !xs[i].same(&ys[i]) {
                return false;
            }
        }
        true
    }
}

impl Alike for Import {
    fn same(&self, other: &Import) -> bool {
        *self == *other
    }
}

impl Alike for Module {
    fn same(&self, other: &Module) -> bool {
        self.pos.same(&other.pos)
            && self.name.same(&other.name)
            && self.imports.same(&other.imports)
            && self.decls.same(&other.decls)
            && self.body.same(&other.body)
            && self.end.same(&other.end)
            && self.strings.same(&other.strings)
    }
}

/// Whether two modules have the same tree, places included.
pub fn same(a: &Module, b: &Module) -> bool
    ensures { IsTrue result ↔ (a.now ≡ b.now) }
{
    a.same(b)
}
