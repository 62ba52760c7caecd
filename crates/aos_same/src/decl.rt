// Whether two declarations are the same.

use crate::Alike;
use aos_tree::{
    ConstDef, Decl, Fields, Formals, Outline, Proc, Section, TypeDef, TypeExpr, VarDef,
};

impl Alike for ConstDef {
    fn same(&self, other: &ConstDef) -> bool {
        self.def.same(&other.def) && self.value.same(&other.value)
    }
}

impl Alike for Section {
    fn same(&self, other: &Section) -> bool {
        self.pos.same(&other.pos)
            && self.by_reference == other.by_reference
            && self.names.same(&other.names)
            && self.arrays.same(&other.arrays)
            && self.of.same(&other.of)
    }
}

impl Alike for Formals {
    fn same(&self, other: &Formals) -> bool {
        self.pos.same(&other.pos)
            && self.sections.same(&other.sections)
            && self.result.same(&other.result)
    }
}

impl Alike for Decl {
    #[cycle(same_declarations)]
    fn same(&self, other: &Decl) -> bool {
        match self {
            Decl::Consts(a0, a1) => match other {
                Decl::Consts(b0, b1) => a0.same(b0) && a1.same(b1),
                _ => false,
            },
            Decl::Types(a0, a1) => match other {
                Decl::Types(b0, b1) => a0.same(b0) && a1.same(b1),
                _ => false,
            },
            Decl::Vars(a0, a1) => match other {
                Decl::Vars(b0, b1) => a0.same(b0) && a1.same(b1),
                _ => false,
            },
            Decl::Proc(a) => match other {
                Decl::Proc(b) => a.same(b),
                _ => false,
            },
        }
    }
}

impl Alike for TypeDef {
    #[cycle(same_declarations)]
    fn same(&self, other: &TypeDef) -> bool {
        self.def.same(&other.def) && self.value.same(&other.value)
    }
}

impl Alike for VarDef {
    #[cycle(same_declarations)]
    fn same(&self, other: &VarDef) -> bool {
        self.defs.same(&other.defs) && self.of.same(&other.of)
    }
}

impl Alike for Proc {
    #[cycle(same_declarations)]
    fn same(&self, other: &Proc) -> bool {
        self.outline.same(&other.outline) && self.decls.same(&other.decls)
    }
}

impl Alike for Outline {
    fn same(&self, other: &Outline) -> bool {
        self.pos.same(&other.pos)
            && self.initializer.same(&other.initializer)
            && self.def.same(&other.def)
            && self.formals.same(&other.formals)
            && self.body.same(&other.body)
            && self.end.same(&other.end)
    }
}

impl Alike for TypeExpr {
    #[cycle(same_declarations)]
    fn same(&self, other: &TypeExpr) -> bool {
        match self {
            TypeExpr::Named(a) => match other {
                TypeExpr::Named(b) => a.same(b),
                _ => false,
            },
            TypeExpr::Array(a0, a1, a2) => match other {
                TypeExpr::Array(b0, b1, b2) => a0.same(b0) && a1.same(b1) && a2.same(b2),
                _ => false,
            },
            TypeExpr::Record(a0, a1, a2) => match other {
                TypeExpr::Record(b0, b1, b2) => a0.same(b0) && a1.same(b1) && a2.same(b2),
                _ => false,
            },
            TypeExpr::Pointer(a0, a1) => match other {
                TypeExpr::Pointer(b0, b1) => a0.same(b0) && a1.same(b1),
                _ => false,
            },
            TypeExpr::Proc(a0, a1, a2) => match other {
                TypeExpr::Proc(b0, b1, b2) => a0.same(b0) && a1.same(b1) && a2.same(b2),
                _ => false,
            },
            TypeExpr::Object(a0, a1, a2, a3, a4) => match other {
                TypeExpr::Object(b0, b1, b2, b3, b4) => a0.same(b0)
                    && a1.same(b1)
                    && a2.same(b2)
                    && a3.same(b3)
                    && a4.same(b4),
                _ => false,
            },
        }
    }
}

impl Alike for Fields {
    #[cycle(same_declarations)]
    fn same(&self, other: &Fields) -> bool {
        match self {
            Fields::Empty => match other {
                Fields::Empty => true,
                _ => false,
            },
            Fields::Of(a) => match other {
                Fields::Of(b) => a.same(b),
                _ => false,
            },
        }
    }
}
