// Whether two statements are the same.

use crate::Alike;
use aos_tree::{Block, Case, Elsif, Label, Modifier, Stat, StatSeq};

impl Alike for Label {
    fn same(&self, other: &Label) -> bool {
        self.first.same(&other.first) && self.last.same(&other.last)
    }
}

impl Alike for Modifier {
    fn same(&self, other: &Modifier) -> bool {
        self.name.same(&other.name) && self.value.same(&other.value)
    }
}

impl Alike for StatSeq {
    #[cycle(same_statements)]
    fn same(&self, other: &StatSeq) -> bool {
        self.stats.same(&other.stats)
    }
}

impl Alike for Stat {
    #[cycle(same_statements)]
    fn same(&self, other: &Stat) -> bool {
        match self {
            Stat::Empty => match other {
                Stat::Empty => true,
                _ => false,
            },
            Stat::Assign(a0, a1, a2) => match other {
                Stat::Assign(b0, b1, b2) => a0.same(b0) && a1.same(b1) && a2.same(b2),
                _ => false,
            },
            Stat::Call(a) => match other {
                Stat::Call(b) => a.same(b),
                _ => false,
            },
            Stat::Block(a) => match other {
                Stat::Block(b) => a.same(b),
                _ => false,
            },
            Stat::Exit(a) => match other {
                Stat::Exit(b) => a.same(b),
                _ => false,
            },
            Stat::Return(a0, a1) => match other {
                Stat::Return(b0, b1) => a0.same(b0) && a1.same(b1),
                _ => false,
            },
            Stat::Await(a0, a1) => match other {
                Stat::Await(b0, b1) => a0.same(b0) && a1.same(b1),
                _ => false,
            },
            Stat::If(a0, a1, a2, a3, a4) => match other {
                Stat::If(b0, b1, b2, b3, b4) => a0.same(b0)
                    && a1.same(b1)
                    && a2.same(b2)
                    && a3.same(b3)
                    && a4.same(b4),
                _ => false,
            },
            Stat::Case(a0, a1, a2, a3) => match other {
                Stat::Case(b0, b1, b2, b3) => a0.same(b0)
                    && a1.same(b1)
                    && a2.same(b2)
                    && a3.same(b3),
                _ => false,
            },
            Stat::While(a0, a1, a2) => match other {
                Stat::While(b0, b1, b2) => a0.same(b0) && a1.same(b1) && a2.same(b2),
                _ => false,
            },
            Stat::Repeat(a0, a1, a2) => match other {
                Stat::Repeat(b0, b1, b2) => a0.same(b0) && a1.same(b1) && a2.same(b2),
                _ => false,
            },
            Stat::Loop(a0, a1) => match other {
                Stat::Loop(b0, b1) => a0.same(b0) && a1.same(b1),
                _ => false,
            },
            Stat::For(a0, a1, a2, a3, a4, a5, a6) => match other {
                Stat::For(b0, b1, b2, b3, b4, b5, b6) => a0.same(b0)
                    && a1.same(b1)
                    && a2.same(b2)
                    && a3.same(b3)
                    && a4.same(b4)
                    && a5.same(b5)
                    && a6.same(b6),
                _ => false,
            },
            Stat::With(a0, a1, a2, a3, a4) => match other {
                Stat::With(b0, b1, b2, b3, b4) => a0.same(b0)
                    && a1.same(b1)
                    && a2.same(b2)
                    && a3.same(b3)
                    && a4.same(b4),
                _ => false,
            },
        }
    }
}

impl Alike for Elsif {
    #[cycle(same_statements)]
    fn same(&self, other: &Elsif) -> bool {
        self.pos.same(&other.pos)
            && self.condition.same(&other.condition)
            && self.body.same(&other.body)
    }
}

impl Alike for Case {
    #[cycle(same_statements)]
    fn same(&self, other: &Case) -> bool {
        match self {
            Case::Empty => match other {
                Case::Empty => true,
                _ => false,
            },
            Case::Arm(a0, a1) => match other {
                Case::Arm(b0, b1) => a0.same(b0) && a1.same(b1),
                _ => false,
            },
        }
    }
}

impl Alike for Block {
    #[cycle(same_statements)]
    fn same(&self, other: &Block) -> bool {
        self.pos.same(&other.pos)
            && self.modifiers.same(&other.modifiers)
            && self.body.same(&other.body)
    }
}
