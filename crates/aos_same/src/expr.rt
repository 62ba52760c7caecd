// Whether two expressions are the same.

use crate::Alike;
use aos_tree::{Addition, Desig, Elem, Expr, Factor, Product, Relation, Selector, Simple, Term};

impl Alike for Expr {
    #[cycle(same_expressions)]
    fn same(&self, other: &Expr) -> bool {
        self.pos.same(&other.pos) && self.left.same(&other.left) && self.right.same(&other.right)
    }
}

impl Alike for Relation {
    #[cycle(same_expressions)]
    fn same(&self, other: &Relation) -> bool {
        self.pos.same(&other.pos) && self.op.same(&other.op) && self.right.same(&other.right)
    }
}

impl Alike for Simple {
    #[cycle(same_expressions)]
    fn same(&self, other: &Simple) -> bool {
        if !self.pos.same(&other.pos)
            || !self.sign.same(&other.sign)
            || !self.first.same(&other.first)
        {
            return false;
        }
        self.rest.same(&other.rest)
    }
}

impl Alike for Addition {
    #[cycle(same_expressions)]
    fn same(&self, other: &Addition) -> bool {
        self.pos.same(&other.pos) && self.op.same(&other.op) && self.right.same(&other.right)
    }
}

impl Alike for Term {
    #[cycle(same_expressions)]
    fn same(&self, other: &Term) -> bool {
        self.pos.same(&other.pos) && self.first.same(&other.first) && self.rest.same(&other.rest)
    }
}

impl Alike for Product {
    #[cycle(same_expressions)]
    fn same(&self, other: &Product) -> bool {
        self.pos.same(&other.pos) && self.op.same(&other.op) && self.right.same(&other.right)
    }
}

impl Alike for Factor {
    #[cycle(same_expressions)]
    fn same(&self, other: &Factor) -> bool {
        match self {
            Factor::Desig(a) => match other {
                Factor::Desig(b) => a.same(b),
                _ => false,
            },
            Factor::Number(a0, a1) => match other {
                Factor::Number(b0, b1) => a0.same(b0) && a1 == b1,
                _ => false,
            },
            Factor::Char(a0, a1) => match other {
                Factor::Char(b0, b1) => a0.same(b0) && a1 == b1,
                _ => false,
            },
            Factor::Text(a) => match other {
                Factor::Text(b) => a.same(b),
                _ => false,
            },
            Factor::Nil(a) => match other {
                Factor::Nil(b) => a.same(b),
                _ => false,
            },
            Factor::Set(a0, a1) => match other {
                Factor::Set(b0, b1) => a0.same(b0) && a1.same(b1),
                _ => false,
            },
            Factor::Paren(a0, a1) => match other {
                Factor::Paren(b0, b1) => a0.same(b0) && a1.same(b1),
                _ => false,
            },
            Factor::Not(a0, a1) => match other {
                Factor::Not(b0, b1) => a0.same(b0) && a1.same(b1),
                _ => false,
            },
        }
    }
}

impl Alike for Elem {
    #[cycle(same_expressions)]
    fn same(&self, other: &Elem) -> bool {
        self.first.same(&other.first) && self.last.same(&other.last)
    }
}

impl Alike for Desig {
    #[cycle(same_expressions)]
    fn same(&self, other: &Desig) -> bool {
        self.name.same(&other.name) && self.selectors.same(&other.selectors)
    }
}

impl Alike for Selector {
    #[cycle(same_expressions)]
    fn same(&self, other: &Selector) -> bool {
        match self {
            Selector::Field(a0, a1) => match other {
                Selector::Field(b0, b1) => a0.same(b0) && a1.same(b1),
                _ => false,
            },
            Selector::Index(a0, a1) => match other {
                Selector::Index(b0, b1) => a0.same(b0) && a1.same(b1),
                _ => false,
            },
            Selector::Follow(a) => match other {
                Selector::Follow(b) => a.same(b),
                _ => false,
            },
            Selector::Paren(a0, a1) => match other {
                Selector::Paren(b0, b1) => a0.same(b0) && a1.same(b1),
                _ => false,
            },
        }
    }
}
