// Declarations and types.

ghost use Rattle.std.specs.Prelude.{◌≡◌};
ghost use Rattle.aos_tree.specs.Parts.{type_of, decl_of};

use crate::boxed::{Boxed, MaybeBoxed};
use crate::expr::Expr;
use crate::items::Items;
use crate::name::{Name, Qualident};
use crate::stat::Block;
use aos_base::Pos;

/// `*`: exported, `-`: exported and read only.
#[derive(Clone, Copy, PartialEq, Eq)]
pub enum Export {
    ReadWrite,
    ReadOnly,
}

/// `"*" | "-"` behind a name.
#[derive(Clone, Copy, PartialEq, Eq)]
pub struct Mark {
    pub pos: Pos,
    pub export: Export,
}

/// `Def = ident ["*" | "-"].` Its place is that of its name.
#[derive(Clone, Copy, PartialEq, Eq)]
pub struct Def {
    pub name: Name,
    pub mark: Option<Mark>,
}

/// `Decl = CONST {ConstDef ";"} | TYPE {TypeDef ";"} | VAR {VarDef ";"} | Proc ";".`
#[cycle(declarations)]
pub enum Decl {
    Consts(Pos, Items<ConstDef>),
    Types(Pos, Items<TypeDef>),
    Vars(Pos, Items<VarDef>),
    Proc(Proc),
}

impl Drop for Decl {
    #[cycle(drop_declarations)]
    fn drop(self) {
        match self {
            Decl::Consts(_, const_def) => drop(const_def),
            Decl::Types(_, type_def) => drop(type_def),
            Decl::Vars(_, var_def) => drop(var_def),
            Decl::Proc(inner) => drop(inner),
        }
    }
}

/// `ConstDef = Def "=" Expr.` Its place is that of its name.
#[derive(Drop)]
pub struct ConstDef {
    pub def: Def,
    pub value: Expr,
}

/// `TypeDef = Def "=" Type.` Its place is that of its name.
#[cycle(declarations)]
#[derive(Drop)]
pub struct TypeDef {
    pub def: Def,
    pub value: TypeExpr,
}

/// `VarDef = Def {"," Def} ":" Type.` Its place is that of its first name.
#[cycle(declarations)]
#[derive(Drop)]
pub struct VarDef {
    pub defs: Items<Def>,
    pub of: TypeExpr,
}

/// `Proc = PROCEDURE ["&"] Def [Formals] ";" {LocalDecl} Body ident.` A body that is END alone is no block.
#[cycle(declarations)]
pub struct Proc {
    pub outline: Boxed<Outline>,
    /// None of them is a procedure.
    pub decls: Items<Decl>,
}

impl Drop for Proc {
    #[cycle(drop_declarations)]
    fn drop(self) {
        let Proc { outline, decls } = self;
        drop(outline);
        drop(decls);
    }
}

/// What a procedure has beside its own declarations. It stands in a box, so that a declaration takes little room.
pub struct Outline {
    pub pos: Pos,
    /// The place of `&`, where it stands before the name.
    pub initializer: Option<Pos>,
    pub def: Def,
    pub formals: Option<Formals>,
    pub body: Option<Boxed<Block>>,
    pub end: Name,
}

impl Drop for Outline {
    fn drop(self) {
        let Outline {
            pos: _,
            initializer: _,
            def: _,
            formals,
            body,
            end: _,
        } = self;
        drop(formals);
        drop(body);
    }
}

/// `Formals = "(" [Section {";" Section}] ")" [":" Qualident].`
pub struct Formals {
    pub pos: Pos,
    pub sections: Items<Section>,
    pub result: Option<Qualident>,
}

impl Drop for Formals {
    fn drop(self) {
        let Formals {
            pos: _,
            sections,
            result: _,
        } = self;
        drop(sections);
    }
}

/// `Section = [VAR] ident {"," ident} ":" {ARRAY OF} Qualident.`
#[derive(Drop)]
pub struct Section {
    pub pos: Pos,
    /// `VAR` stands before the names.
    pub by_reference: bool,
    pub names: Items<Name>,
    /// The place of each `ARRAY`.
    pub arrays: Items<Pos>,
    pub of: Qualident,
}

/// `Type`, with a variant for each of its forms.
#[cycle(declarations)]
pub enum TypeExpr {
    Named(Qualident),
    /// `ARRAY [Expr {"," Expr}] OF Type`
    Array(Pos, Items<Expr>, Boxed<TypeExpr>),
    /// `RECORD ["(" Qualident ")"] Fields {";" Fields} END`
    Record(Pos, MaybeBoxed<Qualident>, Items<Fields>),
    /// `POINTER TO Type`
    Pointer(Pos, Boxed<TypeExpr>),
    /// `PROCEDURE ["{" ident "}"] [Formals]`
    Proc(Pos, Option<Name>, Boxed<Option<Formals>>),
    /// `OBJECT ["(" Qualident ")"] {Decl} Body [ident]`
    Object(Pos, MaybeBoxed<Qualident>, Items<Decl>, Option<Boxed<Block>>, MaybeBoxed<Name>),
}

impl Drop for TypeExpr {
    #[cycle(drop_declarations)]
    fn drop(self) {
        match self {
            TypeExpr::Named(_) => {}
            TypeExpr::Array(_, expr, of) => {
                drop(expr);
                drop(of);
            }
            TypeExpr::Record(_, base, fields) => {
                drop(base);
                drop(fields);
            }
            TypeExpr::Pointer(_, of) => drop(of),
            TypeExpr::Proc(_, _, formals) => drop(formals),
            TypeExpr::Object(_, base, decl, block, end) => {
                drop(base);
                drop(decl);
                drop(block);
                drop(end);
            }
        }
    }
}

/// `Fields = [VarDef].`
#[cycle(declarations)]
#[derive(Drop)]
pub enum Fields {
    Empty,
    Of(VarDef),
}

/// The parts of a declaration, which may be taken by themselves.
#[derive(Drop)]
pub enum DeclParts {
    Consts(Pos, Items<ConstDef>),
    Types(Pos, Items<TypeDef>),
    Vars(Pos, Items<VarDef>),
    Proc(Proc),
}

impl Decl {
    /// The parts of the declaration.
    pub fn parts(self) -> DeclParts
        ensures { decl_of result ≡ self }
    {
        match self {
            Decl::Consts(pos, defs) => DeclParts::Consts(pos, defs),
            Decl::Types(pos, defs) => DeclParts::Types(pos, defs),
            Decl::Vars(pos, defs) => DeclParts::Vars(pos, defs),
            Decl::Proc(proc) => DeclParts::Proc(proc),
        }
    }
}

/// The parts of a type, which may be taken by themselves.
#[derive(Drop)]
pub enum TypeParts {
    Named(Qualident),
    Array(Pos, Items<Expr>, TypeExpr),
    Record(Pos, MaybeBoxed<Qualident>, Items<Fields>),
    Pointer(Pos, TypeExpr),
    Proc(Pos, Option<Name>, Boxed<Option<Formals>>),
    Object(Pos, MaybeBoxed<Qualident>, Items<Decl>, Option<Boxed<Block>>, MaybeBoxed<Name>),
}

impl TypeExpr {
    /// The parts of the type.
    pub fn parts(self) -> TypeParts
        ensures { type_of result ≡ self }
    {
        match self {
            TypeExpr::Named(name) => TypeParts::Named(name),
            TypeExpr::Array(pos, lengths, of) => TypeParts::Array(pos, lengths, of.into_inner()),
            TypeExpr::Record(pos, base, fields) => TypeParts::Record(pos, base, fields),
            TypeExpr::Pointer(pos, to) => TypeParts::Pointer(pos, to.into_inner()),
            TypeExpr::Proc(pos, flag, formals) => TypeParts::Proc(pos, flag, formals),
            TypeExpr::Object(pos, base, decls, body, end) => {
                TypeParts::Object(pos, base, decls, body, end)
            },
        }
    }
}
