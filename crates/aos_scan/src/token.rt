// Tokens.

use aos_base::Pos;

/// The kind of a token: one for each reserved word and each symbol, and five more
/// (Active Oberon Language Report, section on vocabulary).
#[derive(Clone, Copy, PartialEq, Eq, Debug)]
pub enum TokenKind {
    /// A name: a letter, then letters, digits and `_`.
    Ident,
    /// A number, in decimal or, with `H`, in hexadecimal digits.
    Number,
    /// A character by its code in hexadecimal digits with `X`.
    Char,
    /// A string between two quotes.
    Text,
    /// The end of the text.
    End,
    KwArray,
    KwAwait,
    KwBegin,
    KwBy,
    KwCase,
    KwConst,
    KwDiv,
    KwDo,
    KwElse,
    KwElsif,
    KwEnd,
    KwExit,
    KwFor,
    KwIf,
    KwImport,
    KwIn,
    KwIs,
    KwLoop,
    KwMod,
    KwModule,
    KwNil,
    KwObject,
    KwOf,
    KwOr,
    KwPointer,
    KwProcedure,
    KwRecord,
    KwRepeat,
    KwReturn,
    KwThen,
    KwTo,
    KwType,
    KwUntil,
    KwVar,
    KwWhile,
    KwWith,
    /// `+`
    Plus,
    /// `-`
    Minus,
    /// `*`
    Star,
    /// `/`
    Slash,
    /// `~`
    Tilde,
    /// `&`
    Ampersand,
    /// `.`
    Period,
    /// `,`
    Comma,
    /// `;`
    Semicolon,
    /// `|`
    Bar,
    /// `(`
    OpenParen,
    /// `[`
    OpenBracket,
    /// `{`
    OpenBrace,
    /// `^`
    Caret,
    /// `=`
    Equals,
    /// `#`
    NotEquals,
    /// `<`
    Less,
    /// `<=`
    LessEqual,
    /// `>`
    Greater,
    /// `>=`
    GreaterEqual,
    /// `:=`
    Becomes,
    /// `:`
    Colon,
    /// `..`
    Range,
    /// `)`
    CloseParen,
    /// `]`
    CloseBracket,
    /// `}`
    CloseBrace,
}

/// A token: its kind, the place of its first byte and of the byte after its last in the text, from 0, its line and
/// column, and its value: of a number the number, of a char its code, of any other 0.
#[derive(Clone, Copy)]
pub struct Token {
    pub kind: TokenKind,
    pub start: u32,
    pub end: u32,
    pub pos: Pos,
    pub value: i64,
}
