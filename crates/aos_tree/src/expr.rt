// Expressions.

use crate::boxed::{Boxed, MaybeBoxed};
use crate::items::Items;
use crate::name::{Name, Text};
use aos_base::Pos;

/// `=`, `#`, `<`, `<=`, `>`, `>=`, `IN` and `IS`.
#[derive(Clone, Copy, PartialEq, Eq)]
pub enum RelationOp {
    Equal,
    NotEqual,
    Less,
    LessEqual,
    Greater,
    GreaterEqual,
    In,
    Is,
}

/// `+`, `-` and `OR`.
#[derive(Clone, Copy, PartialEq, Eq)]
pub enum AddOp {
    Plus,
    Minus,
    Or,
}

/// `*`, `/`, `DIV`, `MOD` and `&`.
#[derive(Clone, Copy, PartialEq, Eq)]
pub enum MulOp {
    Times,
    Divide,
    Div,
    Mod,
    And,
}

/// `+` and `-` before a sum.
#[derive(Clone, Copy, PartialEq, Eq)]
pub enum Sign {
    Plus,
    Minus,
}

/// `Expr = Simple [Relation].`
#[cycle(expressions)]
pub struct Expr {
    pub pos: Pos,
    pub left: Simple,
    pub right: MaybeBoxed<Relation>,
}

impl Drop for Expr {
    #[cycle(drop_expressions)]
    fn drop(self) {
        let Expr {
            pos: _,
            left,
            right,
        } = self;
        drop(left);
        drop(right);
    }
}

/// `Relation = ("=" | "#" | "<" | "<=" | ">" | ">=" | IN | IS) Simple.` Its place is that of the operator.
#[cycle(expressions)]
#[derive(Drop)]
pub struct Relation {
    pub pos: Pos,
    pub op: RelationOp,
    pub right: Simple,
}

/// `Simple = ["+" | "-"] Term {Addition}.`
#[cycle(expressions)]
#[derive(Drop)]
pub struct Simple {
    pub pos: Pos,
    pub sign: Option<Sign>,
    pub first: Term,
    pub rest: Items<Addition>,
}

/// `Addition = ("+" | "-" | OR) Term.` Its place is that of the operator.
#[cycle(expressions)]
#[derive(Drop)]
pub struct Addition {
    pub pos: Pos,
    pub op: AddOp,
    pub right: Term,
}

/// `Term = Factor {Product}.`
#[cycle(expressions)]
#[derive(Drop)]
pub struct Term {
    pub pos: Pos,
    pub first: Factor,
    pub rest: Items<Product>,
}

/// `Product = ("*" | "/" | DIV | MOD | "&") Factor.` Its place is that of the operator.
#[cycle(expressions)]
#[derive(Drop)]
pub struct Product {
    pub pos: Pos,
    pub op: MulOp,
    pub right: Factor,
}

/// `Factor = Desig | number | char | text | NIL | "{" [Elem {"," Elem}] "}" | "(" Expr ")" | "~" Factor.`
#[cycle(expressions)]
pub enum Factor {
    Desig(Desig),
    Number(Pos, i64),
    Char(Pos, i64),
    Text(Text),
    Nil(Pos),
    Set(Pos, Items<Elem>),
    Paren(Pos, Boxed<Expr>),
    Not(Pos, Boxed<Factor>),
}

impl Drop for Factor {
    #[cycle(drop_expressions)]
    fn drop(self) {
        match self {
            Factor::Desig(desig) => drop(desig),
            Factor::Number(_, _) => {}
            Factor::Char(_, _) => {}
            Factor::Text(_) => {}
            Factor::Nil(_) => {}
            Factor::Set(_, elem) => drop(elem),
            Factor::Paren(_, expr) => drop(expr),
            Factor::Not(_, factor) => drop(factor),
        }
    }
}

/// `Elem = Expr [".." Expr].` Its place is that of its first expression.
#[cycle(expressions)]
#[derive(Drop)]
pub struct Elem {
    pub first: Expr,
    pub last: MaybeBoxed<Expr>,
}

/// `Desig = ident {Selector}.` Its place is that of its name.
#[cycle(expressions)]
#[derive(Drop)]
pub struct Desig {
    pub name: Name,
    pub selectors: Items<Selector>,
}

/// `Selector = "." ident | "[" Expr {"," Expr} "]" | "^" | "(" [Expr {"," Expr}] ")".`
#[cycle(expressions)]
pub enum Selector {
    Field(Pos, Name),
    Index(Pos, Items<Expr>),
    Follow(Pos),
    /// A call, a guard or a conversion.
    Paren(Pos, Items<Expr>),
}

impl Drop for Selector {
    #[cycle(drop_expressions)]
    fn drop(self) {
        match self {
            Selector::Field(_, _) => {}
            Selector::Index(_, expr) => drop(expr),
            Selector::Follow(_) => {}
            Selector::Paren(_, expr) => drop(expr),
        }
    }
}
