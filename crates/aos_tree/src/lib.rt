//! The trees of a module's text, one type for each production of the grammar, and the grammar itself in `specs/`: which
//! tree reads which tokens (Active Oberon Language Report, Reali 2002).
#![tactic(auto)]

pub mod boxed;
pub mod decl;
pub mod expr;
pub mod items;
pub mod module;
pub mod name;
pub mod stat;

pub use boxed::{Boxed, MaybeBoxed};
pub use decl::{
    ConstDef, Decl, DeclParts, Def, Export, Fields, Formals, Mark, Outline, Proc, Section, TypeDef,
    TypeExpr, TypeParts, VarDef,
};
pub use expr::{
    AddOp, Addition, Desig, Elem, Expr, Factor, MulOp, Product, Relation, RelationOp, Selector,
    Sign, Simple, Term,
};
pub use items::Items;
pub use module::{Import, Module};
pub use name::{Name, Qualident, Text};
pub use stat::{Block, Case, Elsif, Label, Modifier, Stat, StatSeq};
