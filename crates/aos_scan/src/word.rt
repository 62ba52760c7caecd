// Names and reserved words.

ghost use Rattle.std.specs.Prelude.{◌≡◌, length};
ghost use Rattle.std.specs.Str.{bytes_eq};
ghost use Rattle.aos_scan.specs.Spelling.{word_kind};
ghost use Rattle.aos_scan.specs.Words.{kind_of_length};

use crate::token::TokenKind;

/// Whether a word has this spelling.
fn is(word: &[u8], spelling: &[u8]) -> bool
    ensures { result ≡ bytes_eq spelling.now word.now }
{
    spelling == word
}

/// The kind of a word of two bytes.
#[tactic(auto, unfolding(crate::specs::Spelling::reserved_words))]
fn of_two(word: &[u8]) -> TokenKind
    ensures { result ≡ kind_of_length 2 word.now }
{
    if is(word, b"BY") {
        TokenKind::KwBy
    } else if is(word, b"DO") {
        TokenKind::KwDo
    } else if is(word, b"IF") {
        TokenKind::KwIf
    } else if is(word, b"IN") {
        TokenKind::KwIn
    } else if is(word, b"IS") {
        TokenKind::KwIs
    } else if is(word, b"OF") {
        TokenKind::KwOf
    } else if is(word, b"OR") {
        TokenKind::KwOr
    } else if is(word, b"TO") {
        TokenKind::KwTo
    } else {
        TokenKind::Ident
    }
}

/// The kind of a word of three bytes.
#[tactic(auto, unfolding(crate::specs::Spelling::reserved_words))]
fn of_three(word: &[u8]) -> TokenKind
    ensures { result ≡ kind_of_length 3 word.now }
{
    if is(word, b"DIV") {
        TokenKind::KwDiv
    } else if is(word, b"END") {
        TokenKind::KwEnd
    } else if is(word, b"FOR") {
        TokenKind::KwFor
    } else if is(word, b"MOD") {
        TokenKind::KwMod
    } else if is(word, b"NIL") {
        TokenKind::KwNil
    } else if is(word, b"VAR") {
        TokenKind::KwVar
    } else {
        TokenKind::Ident
    }
}

/// The kind of a word of four bytes.
#[tactic(auto, unfolding(crate::specs::Spelling::reserved_words))]
fn of_four(word: &[u8]) -> TokenKind
    ensures { result ≡ kind_of_length 4 word.now }
{
    if is(word, b"CASE") {
        TokenKind::KwCase
    } else if is(word, b"ELSE") {
        TokenKind::KwElse
    } else if is(word, b"EXIT") {
        TokenKind::KwExit
    } else if is(word, b"LOOP") {
        TokenKind::KwLoop
    } else if is(word, b"THEN") {
        TokenKind::KwThen
    } else if is(word, b"TYPE") {
        TokenKind::KwType
    } else if is(word, b"WITH") {
        TokenKind::KwWith
    } else {
        TokenKind::Ident
    }
}

/// The kind of a word of five bytes.
#[tactic(auto, unfolding(crate::specs::Spelling::reserved_words))]
fn of_five(word: &[u8]) -> TokenKind
    ensures { result ≡ kind_of_length 5 word.now }
{
    if is(word, b"ARRAY") {
        TokenKind::KwArray
    } else if is(word, b"AWAIT") {
        TokenKind::KwAwait
    } else if is(word, b"BEGIN") {
        TokenKind::KwBegin
    } else if is(word, b"CONST") {
        TokenKind::KwConst
    } else if is(word, b"ELSIF") {
        TokenKind::KwElsif
    } else if is(word, b"UNTIL") {
        TokenKind::KwUntil
    } else if is(word, b"WHILE") {
        TokenKind::KwWhile
    } else {
        TokenKind::Ident
    }
}

/// The kind of a word of six bytes.
#[tactic(auto, unfolding(crate::specs::Spelling::reserved_words))]
fn of_six(word: &[u8]) -> TokenKind
    ensures { result ≡ kind_of_length 6 word.now }
{
    if is(word, b"IMPORT") {
        TokenKind::KwImport
    } else if is(word, b"MODULE") {
        TokenKind::KwModule
    } else if is(word, b"OBJECT") {
        TokenKind::KwObject
    } else if is(word, b"RECORD") {
        TokenKind::KwRecord
    } else if is(word, b"REPEAT") {
        TokenKind::KwRepeat
    } else if is(word, b"RETURN") {
        TokenKind::KwReturn
    } else {
        TokenKind::Ident
    }
}

/// The kind of a word of seven bytes.
#[tactic(auto, unfolding(crate::specs::Spelling::reserved_words))]
fn of_seven(word: &[u8]) -> TokenKind
    ensures { result ≡ kind_of_length 7 word.now }
{
    if is(word, b"POINTER") {
        TokenKind::KwPointer
    } else {
        TokenKind::Ident
    }
}

/// The kind of a word of nine bytes.
#[tactic(auto, unfolding(crate::specs::Spelling::reserved_words))]
fn of_nine(word: &[u8]) -> TokenKind
    ensures { result ≡ kind_of_length 9 word.now }
{
    if is(word, b"PROCEDURE") {
        TokenKind::KwProcedure
    } else {
        TokenKind::Ident
    }
}

/// The kind of a word: that of its reserved word, or a name's.
pub fn word_kind(word: &[u8]) -> TokenKind
    ensures { result ≡ word_kind word.now }
{
    match word.len() {
        2 => of_two(word),
        3 => of_three(word),
        4 => of_four(word),
        5 => of_five(word),
        6 => of_six(word),
        7 => of_seven(word),
        9 => of_nine(word),
        _ => TokenKind::Ident,
    }
}
