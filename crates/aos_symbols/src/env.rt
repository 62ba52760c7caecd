// What names stand for at a place of a module.

ghost use Rattle.std.specs.Prelude.{◌≡◌, ◌==◌, ◌+◌, ◌++◌, ◌∷◌, [], Some, length, map, OnOk, IfOk, OnErr};
ghost use Rattle.std.specs.Map.{lookup};
ghost use Rattle.std.specs.Option.{option_copied};
ghost use Rattle.std.specs.Str.{bytes_eq};
ghost use Rattle.aos_types.specs.Table.{base_of, is_object, row_of as row_in};
ghost use Rattle.aos_symbols.specs.Env as env;

use crate::home::Home;
use crate::scope::{Entry, Function, Meaning, Routine, Scope};
use crate::spelling::word;
use aos_base::Pos;
use aos_tree::{Export, Items, Name};
use aos_typed::{Literal, TextConstant};
use aos_types::{Signature, TypeId, TypeRow, Types};
use std::alloc::{AllocError, Global};
use std::mem;

/// The type SHORTINT; the predeclared types have the same numbers in each table.
pub const SHORTINT: TypeId = TypeId(0);
/// The type INTEGER.
pub const INTEGER: TypeId = TypeId(1);
/// The type LONGINT.
pub const LONGINT: TypeId = TypeId(2);
/// The type HUGEINT.
pub const HUGEINT: TypeId = TypeId(3);
/// The type BOOLEAN.
pub const BOOLEAN: TypeId = TypeId(4);
/// The type CHAR.
pub const CHAR: TypeId = TypeId(5);
/// The type SET.
pub const SET: TypeId = TypeId(6);
/// The type of NIL, which no name stands for.
pub const NIL: TypeId = TypeId(7);
/// The type ANY.
pub const ANY: TypeId = TypeId(8);
/// The type of the string constants but those of one character, whose lengths stand beside them.
pub const TEXT: TypeId = TypeId(9);
/// How many types stand first in each table; those that modules declare come behind them.
pub const BASIC_TYPES: u32 = 10;

/// A scope: the number of its module in load order, and its own number in that module.
#[derive(Clone, Copy)]
pub struct Open {
    pub home: u32,
    pub scope: u32,
}

/// What a name stands for, and the scope in which it is declared.
#[derive(Clone, Copy)]
pub struct Symbol {
    pub at: Open,
    pub mark: Option<Export>,
    pub means: Meaning,
}

/// What is found of a name.
#[derive(Clone, Copy)]
pub enum Lookup {
    /// Rule 14: no scope has it.
    Unknown,
    /// Rule 15: it is another module's, without an export mark.
    NotExported,
    Found(Symbol),
}

/// A variable that a WITH narrows: its scope, its number there, and the type that it has within.
#[derive(Clone, Copy)]
pub struct Narrowed {
    pub at: Open,
    pub number: u32,
    pub of: TypeId,
}

/// What is asked of a type that a name stands for, which may be met later.
#[derive(Clone, Copy)]
pub enum Claim {
    /// Rule 25: a pointer leads to what is named here, so it is a record or an array.
    Target(Pos, TypeId),
    /// Rule 25: a procedure type's result is of the type that is named here, so it is a scalar.
    Result(Pos, TypeId),
    /// Rule 17: what is named here is the base of a record, whose type stands behind, so it is a record.
    Base(Pos, TypeId, TypeId),
    /// Rule 17: what is named here is the base of an object type, which stands behind, so it is an object type.
    ObjectBase(Pos, TypeId, TypeId),
    /// Rule 23: a type of which it is the base has a field with this name, so it has neither such a field nor such a method.
    Field(Name, TypeId),
    /// Rule 23: an object type of which it is the base has a method with this name, so it has no such field.
    Method(Name, TypeId),
}

/// What names stand for at a place of a module.
pub struct Env<'a> {
    /// The number of this module in load order, from 0.
    pub number: u32,
    /// The modules before it in load order.
    pub before: Items<Home<'a>>,
    pub here: Home<'a>,
    /// The scopes to search for a plain name, the innermost first.
    pub path: Items<Open>,
    /// The types of all these modules. The basic types come first, the same in each table; behind those of the modules before
    /// come those that this module's declarations define, and then those that it writes elsewhere.
    pub types: Types,
    /// Where the types stand that this module writes elsewhere than in a type's definition, in the order of their numbers.
    pub places: Items<Pos>,
    /// What is asked of types that this module names, in the order of the text.
    pub claims: Items<Claim>,
    /// The variables that are narrowed by the WITHs around the place, the outermost first.
    pub narrowed: Items<Narrowed>,
    /// The object type in whose methods or body the place stands.
    pub self_type: Option<TypeId>,
    /// Whether an exclusive block of its own body stands round the place.
    pub is_exclusive: bool,
    /// Whether the place stands in the condition of an AWAIT, in which nothing is called.
    pub is_condition: bool,
}

// Crates above drop it by this one call.
impl<'a> Drop for Env<'a> {
    fn drop(self) {
        let Env {
            number: _,
            before,
            here,
            path,
            types,
            places,
            claims,
            narrowed,
            self_type: _,
            is_exclusive: _,
            is_condition: _,
        } = self;
        drop(before);
        drop(here);
        drop(path);
        drop(types);
        drop(places);
        drop(claims);
        drop(narrowed);
    }
}

/// The predeclared names (Reali 2002, predeclared identifiers).
const PREDECLARED: [(&str, Meaning); 30] = [
    ("SHORTINT", Meaning::Type(Some(SHORTINT))),
    ("INTEGER", Meaning::Type(Some(INTEGER))),
    ("LONGINT", Meaning::Type(Some(LONGINT))),
    ("HUGEINT", Meaning::Type(Some(HUGEINT))),
    ("BOOLEAN", Meaning::Type(Some(BOOLEAN))),
    ("CHAR", Meaning::Type(Some(CHAR))),
    ("SET", Meaning::Type(Some(SET))),
    ("ANY", Meaning::Type(Some(ANY))),
    ("FALSE", Meaning::Truth(false)),
    ("TRUE", Meaning::Truth(true)),
    ("ABS", Meaning::Function(Function::Abs)),
    ("ASH", Meaning::Function(Function::Ash)),
    ("CAP", Meaning::Function(Function::Cap)),
    ("CHR", Meaning::Function(Function::Chr)),
    ("LONG", Meaning::Function(Function::Long)),
    ("MAX", Meaning::Function(Function::Max)),
    ("MIN", Meaning::Function(Function::Min)),
    ("ODD", Meaning::Function(Function::Odd)),
    ("ORD", Meaning::Function(Function::Ord)),
    ("SHORT", Meaning::Function(Function::Short)),
    ("LEN", Meaning::Function(Function::Len)),
    ("ASSERT", Meaning::Routine(Routine::Assert)),
    ("COPY", Meaning::Routine(Routine::Copy)),
    ("DEC", Meaning::Routine(Routine::Dec)),
    ("EXCL", Meaning::Routine(Routine::Excl)),
    ("HALT", Meaning::Routine(Routine::Halt)),
    ("INC", Meaning::Routine(Routine::Inc)),
    ("INCL", Meaning::Routine(Routine::Incl)),
    ("NEW", Meaning::Routine(Routine::New)),
    ("SELF", Meaning::Itself),
];

/// What the first row with a word says.
#[tactic(auto, using(crate::proofs::Paths::row_step, crate::proofs::Paths::row_end))]
fn meaning_in(table: &[(&str, Meaning)], word: &[u8]) -> Option<Meaning>
    ensures { result ≡
        lookup (λ k. bytes_eq k word.now) (map (λ r. (r.0.now, r.1)) table.now) }
{
    for (spelled, means) in table {
        if spelled.as_bytes() == word {
            return Some(*means);
        }
    }
    None
}

fn predeclared_meaning(word: &[u8]) -> Option<Meaning>
    ensures { result ≡ env.predeclared_meaning word.now }
{
    meaning_in(&PREDECLARED, word)
}

/// Whether a place of a text is before another.
fn precedes(a: Pos, b: Pos) -> bool
    ensures { result ≡ env.precedes a b }
{
    if a.line == b.line {
        a.col < b.col
    } else {
        a.line < b.line
    }
}

fn is_import(means: Meaning) -> bool
    ensures { result ≡ env.is_import means }
{
    matches!(means, Meaning::Module(_) | Meaning::Out)
}

fn declared_at(at: Open, entry: Entry) -> Symbol
    ensures { result ≡ env.declared_at at entry }
{
    Symbol {
        at,
        mark: entry.mark,
        means: entry.means,
    }
}

fn own(number: u32) -> Open
    ensures { result ≡ env.own number }
{
    Open {
        home: number,
        scope: 0,
    }
}

impl<'a> Env<'a> {
    /// What a module has declared, by its number: this one, or one before it.
    pub fn home(&self, number: u32) -> Option<&Home<'a>>
        ensures { option_copied result ≡ env.home self.now number }
    {
        if number == self.number {
            Some(&self.here)
        } else {
            self.before.as_slice().get(number as usize)
        }
    }

    /// A scope of this module or of one before it.
    pub fn scope(&self, at: Open) -> Option<&Scope<'a>>
        ensures { option_copied result ≡ env.scope self.now at }
    {
        match self.home(at.home) {
            Some(home) => home.scope(at.scope),
            None => None,
        }
    }

    pub fn in_scope(&self, at: Open, word: &[u8]) -> Option<Symbol>
        ensures { result ≡ env.in_scope self.now at word.now }
    {
        match self.scope(at) {
            Some(scope) => match scope.find(word) {
                Some(entry) => Some(declared_at(at, entry)),
                None => None,
            },
            None => None,
        }
    }

    #[tactic(auto, using(crate::proofs::Paths::path_step, crate::proofs::Paths::path_end))]
    fn in_path(&self, word: &[u8]) -> Option<Symbol>
        ensures { result ≡ env.in_path self.now self.now.path word.now }
    {
        for at in self.path.as_slice() {
            if let Some(symbol) = self.in_scope(*at, word) {
                return Some(symbol);
            }
        }
        None
    }

    fn if_seen(&self, symbol: Symbol) -> Lookup
        ensures { result ≡ env.if_seen self.now symbol }
    {
        if symbol.at.home == self.number || symbol.mark.is_some() {
            Lookup::Found(symbol)
        } else {
            Lookup::NotExported
        }
    }

    fn predeclared_symbol(&self, means: Option<Meaning>) -> Lookup
        ensures { result ≡ env.predeclared_symbol self.now means }
    {
        match means {
            Some(means) => Lookup::Found(Symbol {
                at: own(self.number),
                mark: None,
                means,
            }),
            None => Lookup::Unknown,
        }
    }

    /// What a plain name stands for: what the first scope of the path that has it says, or else what is predeclared.
    pub fn lookup(&self, name: Name) -> Lookup
        ensures { result ≡ env.lookup self.now name }
    {
        let word = word(self.here.text(), name);
        match self.in_path(word) {
            Some(symbol) => self.if_seen(symbol),
            None => self.predeclared_symbol(predeclared_meaning(word)),
        }
    }

    /// What a name of this module's text stands for in the module with a number. What that module imports is no name of it.
    pub fn member(&self, home: u32, name: Name) -> Lookup
        ensures { result ≡ env.member self.now home name }
    {
        let word = word(self.here.text(), name);
        match self.in_scope(own(home), word) {
            Some(symbol) => {
                if is_import(symbol.means) {
                    Lookup::Unknown
                } else {
                    self.if_seen(symbol)
                }
            },
            None => Lookup::Unknown,
        }
    }

    /// The type of the variable with a number of a scope, where it is known.
    pub fn variable_type(&self, at: Open, number: u32) -> Option<TypeId>
        ensures { result ≡ env.variable_type self.now at number }
    {
        match self.scope(at) {
            Some(scope) => scope.variable(number)?,
            None => None,
        }
    }

    pub fn is_object(&self, of: TypeId) -> bool
        ensures { result ≡ is_object (row_in self.now.types of) }
    {
        matches!(self.row(Some(of)), Some(TypeRow::Object(_, _)))
    }

    /// The base of a record or an object type.
    pub fn base(&self, of: TypeId) -> Option<TypeId>
        ensures { result ≡ base_of (row_in self.now.types of) }
    {
        match self.row(Some(of)) {
            Some(TypeRow::Record(base, _)) => *base,
            Some(TypeRow::Object(base, _)) => *base,
            _ => None,
        }
    }

    /// The value of the constant with a number of a scope, as a name that stands here has it: none where the constant is
    /// declared later, and no value where its declaration breaks a rule.
    pub fn constant(&self, at: Open, number: u32, here: Pos) -> Option<Option<Literal>>
        ensures { result ≡ env.constant self.now at number here }
    {
        let constant = self.scope(at)?.constant(number)?;
        if at.home == self.number && precedes(here, constant.at) {
            None
        } else {
            Some(constant.value)
        }
    }

    /// The row of a type; none where the type isn't known.
    pub fn row(&self, of: Option<TypeId>) -> Option<&TypeRow>
        ensures { option_copied result ≡ env.row_of self.now of }
    {
        let of = of?;
        if of.0 as usize >= self.types.len() {
            return None;
        }
        Some(self.types.row(of))
    }

    /// What a procedure that is named as a value has in the place of a type's number: the number behind those of all types. One of 2^32
    /// and more is want of memory.
    pub fn procedure(&self) -> Result<TypeId, AllocError>
        ensures { IfOk result (λ of. of ≡ env.procedure self.now) }
    {
        match u32::try_from(self.types.len()) {
            Ok(number) => Ok(TypeId(number)),
            Err(_) => Err(AllocError),
        }
    }

    /// Whether a number is the one that a procedure which is named has in the place of a type's.
    pub fn is_procedure(&self, of: TypeId) -> bool
        ensures { result ≡ ((env.procedure self.now).0 == of.0) }
    {
        self.types.len() == of.0 as usize
    }

    /// The number of a string constant among the variables of its module, behind which it stands. One of 2^32 and more is want of
    /// memory.
    pub fn string_place(&self, text: TextConstant) -> Result<u32, AllocError>
        ensures { IfOk result (λ n. n ≡ env.string_place self.now text) }
    {
        let variables = match self.scope(own(text.home)) {
            Some(scope) => scope.variable_count(),
            None => 0,
        };
        let Ok(variables) = u32::try_from(variables) else {
            return Err(AllocError);
        };
        match variables.checked_add(text.number) {
            Some(number) => Ok(number),
            None => Err(AllocError),
        }
    }

    /// Whether its module's text has a string constant.
    pub fn has_string(&self, text: TextConstant) -> bool
        ensures { result ≡ env.has_string self.now text }
    {
        match self.home(text.home) {
            Some(home) => home.has_string(text.number),
            None => false,
        }
    }

    /// The bytes of a string constant, between its quotes.
    pub fn characters(&self, text: TextConstant) -> &'a [u8]
        ensures { result.now ≡ env.characters self.now text }
    {
        match self.home(text.home) {
            Some(home) => home.string(text.number),
            None => &[],
        }
    }

    /// The string constant that begins at a place of this module's text with its quote, where the module has one there.
    pub fn text_constant(&self, start: u32) -> Option<TextConstant>
        ensures { result ≡ env.text_constant self.now start }
    {
        let number = self.here.string_number(start)?;
        let bytes = self.here.string(number);
        let first = match bytes.first() {
            Some(first) => *first,
            None => 0,
        };
        Some(TextConstant {
            home: self.number,
            number,
            length: bytes.len() as u32,
            first,
        })
    }

    /// The innermost scope at this place, by its number in the module.
    pub fn innermost(&self) -> u32
        ensures { result ≡ env.innermost self.now.path }
    {
        match self.path.as_slice().first() {
            Some(open) => open.scope,
            None => 0,
        }
    }

    /// The signature of the procedure in which this place stands; a body has none.
    pub fn own_signature(&self) -> Option<&Signature>
        ensures { option_copied result ≡ env.own_signature self.now }
    {
        self.here.signature_in(self.innermost())
    }

    /// The signature of a procedure of a module, where its heading is met.
    pub fn signature(&self, home: u32, number: u32) -> Option<&Signature>
        ensures { option_copied result ≡ env.signature self.now home number }
    {
        match self.home(home) {
            Some(home) => home.signature(number),
            None => None,
        }
    }

    /// Goes into the scope with a number of this module, and gives the path of the place where it was. Without memory all
    /// stays as it was.
    pub fn enter(&mut self, alloc: Global, scope: u32) -> Result<Items<Open>, AllocError>
        ensures ok { OnOk result (self.new ≡ env.within self.old scope) }
        ensures path { IfOk result (λ path. path ≡ self.old.path) }
        ensures err { OnErr result (self.new ≡ self.old) }
    {
        let mut path = Vec::with_capacity(alloc, self.path.len().saturating_add(1))?;
        path.push(Open {
            home: self.number,
            scope,
        })?;
        path.extend_from_slice(self.path.as_slice())?;
        Ok(mem::replace(&mut self.path, Items::from_vec(path)))
    }

    /// Goes into a WITH that narrows a variable, and gives the variables that were narrowed around it. Without memory all stays as
    /// it was.
    pub fn narrow(&mut self, alloc: Global, one: Narrowed) -> Result<Items<Narrowed>, AllocError>
        ensures ok { OnOk result (self.new ≡ env.narrowing self.old one) }
        ensures around { IfOk result (λ narrowed. narrowed ≡ self.old.narrowed) }
        ensures err { OnErr result (self.new ≡ self.old) }
    {
        let mut narrowed = Items::new(alloc);
        for around in self.narrowed.as_slice() {
            narrowed.push(*around)?;
        }
        narrowed.push(one)?;
        Ok(mem::replace(&mut self.narrowed, narrowed))
    }

    /// What all modules up to this one have declared, and their types.
    pub fn into_homes(self) -> Result<(Items<Home<'a>>, Types), AllocError>
        ensures homes { IfOk result (λ r. r.0 ≡ self.entry.before ++ self.entry.here ∷ []) }
        ensures types { IfOk result (λ r. r.1 ≡ self.entry.types) }
    {
        let Env {
            number: _,
            mut before,
            here,
            path,
            types,
            places,
            claims,
            narrowed,
            self_type: _,
            is_exclusive: _,
            is_condition: _,
        } = self;
        drop(path);
        drop(places);
        drop(claims);
        drop(narrowed);
        before.push(here)?;
        Ok((before, types))
    }
}
