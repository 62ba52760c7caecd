// Statements.

use crate::boxed::Boxed;
use crate::expr::{Desig, Expr};
use crate::items::Items;
use crate::name::{Name, Qualident};
use aos_base::Pos;

/// `StatSeq = Stat {";" Stat}.`
#[cycle(statements)]
#[derive(Drop)]
pub struct StatSeq {
    pub stats: Items<Stat>,
}

/// `Stat`, with a variant for each of its forms. The empty statement has no token and so no place.
#[cycle(statements)]
pub enum Stat {
    Empty,
    /// `Desig ":=" Expr`, with the place of `:=`
    Assign(Desig, Pos, Boxed<Expr>),
    /// `Desig`
    Call(Desig),
    Block(Block),
    Exit(Pos),
    Return(Pos, Option<Boxed<Expr>>),
    Await(Pos, Boxed<Expr>),
    /// `IF Expr THEN StatSeq {ELSIF Expr THEN StatSeq} [ELSE StatSeq] END`
    If(Pos, Boxed<Expr>, StatSeq, Items<Elsif>, Option<StatSeq>),
    /// `CASE Expr OF Case {"|" Case} [ELSE StatSeq] END`
    Case(Pos, Boxed<Expr>, Items<Case>, Option<StatSeq>),
    While(Pos, Boxed<Expr>, StatSeq),
    Repeat(Pos, StatSeq, Boxed<Expr>),
    Loop(Pos, StatSeq),
    /// `FOR ident ":=" Expr TO Expr [BY Expr] DO StatSeq END`, with the places of `FOR` and of `:=`
    For(Pos, Name, Pos, Boxed<Expr>, Boxed<Expr>, Option<Boxed<Expr>>, StatSeq),
    /// `WITH Qualident ":" Qualident DO StatSeq END`, with the places of `WITH` and of `:`
    With(Pos, Qualident, Pos, Qualident, StatSeq),
}

impl Drop for Stat {
    #[cycle(drop_statements)]
    fn drop(self) {
        match self {
            Stat::Empty => {}
            Stat::Assign(desig, _, expr) => {
                drop(desig);
                drop(expr);
            }
            Stat::Call(desig) => drop(desig),
            Stat::Block(block) => drop(block),
            Stat::Exit(_) => {}
            Stat::Return(_, expr) => drop(expr),
            Stat::Await(_, expr) => drop(expr),
            Stat::If(_, expr, body, elsif, body2) => {
                drop(expr);
                drop(body);
                drop(elsif);
                drop(body2);
            }
            Stat::Case(_, expr, case, body) => {
                drop(expr);
                drop(case);
                drop(body);
            }
            Stat::While(_, expr, body) => {
                drop(expr);
                drop(body);
            }
            Stat::Repeat(_, body, expr) => {
                drop(body);
                drop(expr);
            }
            Stat::Loop(_, body) => drop(body),
            Stat::For(_, _, _, expr, expr2, expr3, body) => {
                drop(expr);
                drop(expr2);
                drop(expr3);
                drop(body);
            }
            Stat::With(_, _, _, _, body) => drop(body),
        }
    }
}

/// `ELSIF Expr THEN StatSeq`, with the place of `ELSIF`.
#[cycle(statements)]
#[derive(Drop)]
pub struct Elsif {
    pub pos: Pos,
    pub condition: Boxed<Expr>,
    pub body: StatSeq,
}

/// `Case = [Label {"," Label} ":" StatSeq].` The place of an arm is that of its first label.
#[cycle(statements)]
#[derive(Drop)]
pub enum Case {
    Empty,
    Arm(Items<Label>, StatSeq),
}

/// `Label = Expr [".." Expr].` Its place is that of its first expression.
#[derive(Drop)]
pub struct Label {
    pub first: Boxed<Expr>,
    pub last: Option<Boxed<Expr>>,
}

/// `Block = BEGIN ["{" Modifier {"," Modifier} "}"] StatSeq END.`
#[cycle(statements)]
pub struct Block {
    pub pos: Pos,
    pub modifiers: Items<Modifier>,
    pub body: StatSeq,
}

impl Drop for Block {
    #[cycle(drop_statements)]
    fn drop(self) {
        let Block {
            pos: _,
            modifiers,
            body,
        } = self;
        drop(modifiers);
        drop(body);
    }
}

/// `Modifier = ident ["(" Expr ")"].` Its place is that of its name.
#[derive(Drop)]
pub struct Modifier {
    pub name: Name,
    pub value: Option<Boxed<Expr>>,
}
