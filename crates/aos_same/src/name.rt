// Whether two places, names, texts or operators are the same.

use crate::Alike;
use aos_base::Pos;
use aos_tree::{AddOp, Def, MulOp, Name, Qualident, RelationOp, Sign, Text};

impl Alike for Pos {
    fn same(&self, other: &Pos) -> bool {
        *self == *other
    }
}

impl Alike for Name {
    fn same(&self, other: &Name) -> bool {
        *self == *other
    }
}

impl Alike for Text {
    fn same(&self, other: &Text) -> bool {
        *self == *other
    }
}

impl Alike for Qualident {
    fn same(&self, other: &Qualident) -> bool {
        *self == *other
    }
}

impl Alike for RelationOp {
    fn same(&self, other: &RelationOp) -> bool {
        *self == *other
    }
}

impl Alike for AddOp {
    fn same(&self, other: &AddOp) -> bool {
        *self == *other
    }
}

impl Alike for MulOp {
    fn same(&self, other: &MulOp) -> bool {
        *self == *other
    }
}

impl Alike for Sign {
    fn same(&self, other: &Sign) -> bool {
        *self == *other
    }
}

impl Alike for Def {
    fn same(&self, other: &Def) -> bool {
        *self == *other
    }
}
