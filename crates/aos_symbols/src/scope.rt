// Scopes: names by their bytes, and what they stand for.

ghost use Rattle.std.specs.Prelude.{◌≡◌, length, OnErr, OnOk, IfOk, not, option_map, slice_get};
ghost use Rattle.aos_symbols.specs.Scope as names;

use aos_base::Pos;
use aos_tree::{Export, Items};
use aos_typed::Literal;
use aos_types::TypeId;
use indexmap::IndexMap;
use std::alloc::{AllocError, Global};
use std::marker::Model;

/// What a name stands for. Constants, variables and procedures are numbered in their scope in the order of the text, types in
/// the table of types, modules in load order, each from 0.
#[derive(Clone, Copy)]
pub enum Meaning {
    Constant(u32),
    /// A type; none is known where its definition only names another, or breaks a rule.
    Type(Option<TypeId>),
    /// A variable, a field, or a parameter.
    Variable(u32),
    /// A procedure or a method.
    Procedure(u32),
    Module(u32),
    /// Module Out.
    Out,
    /// TRUE or FALSE.
    Truth(bool),
    /// A predeclared function.
    Function(Function),
    /// A predeclared procedure that gives no value.
    Routine(Routine),
    /// A procedure of module Out.
    Proper,
    /// SELF.
    Itself,
    /// Something else that isn't built yet.
    Other,
}

/// The predeclared functions (Oberon-2 report, 10.3).
#[derive(Clone, Copy)]
pub enum Function {
    Abs,
    Ash,
    Cap,
    Chr,
    Len,
    Long,
    Max,
    Min,
    Odd,
    Ord,
    Short,
}

/// The predeclared procedures that give no value (Oberon-2 report, 10.3).
#[derive(Clone, Copy)]
pub enum Routine {
    Assert,
    Copy,
    Dec,
    Excl,
    Halt,
    Inc,
    Incl,
    New,
}

/// A constant that is declared: where its name stands, and its value, which it has where its declaration breaks no rule.
#[derive(Clone, Copy)]
pub struct Constant {
    pub at: Pos,
    pub value: Option<Literal>,
}

/// What a declared name stands for, with its export mark.
#[derive(Clone, Copy)]
pub struct Entry {
    pub mark: Option<Export>,
    pub means: Meaning,
}

/// The names of a scope, the values of its constants and the types of its variables, so far as they are declared. A name is
/// looked up in a hashed table, by its bytes.
pub struct Scope<'a> {
    table: IndexMap<&'a [u8], Entry>,
    constants: Vec<Constant>,
    variables: Vec<Option<TypeId>>,
}

impl<'a> Model for Scope<'a> {
    ghost use Rattle.aos_symbols.specs.Scope as names;

    ghost Value = { names.Scope };

    ghost view = { λ s. record {
      entries = names.seen_names s.table.entries;
      constants = s.constants.items;
      variables = s.variables.items;
    } };
}

// Crates above drop it by this one call.
impl<'a> Drop for Scope<'a> {
    fn drop(self) {
        let Scope {
            table,
            constants,
            variables,
        } = self;
        drop(table);
        drop(constants);
        drop(variables);
    }
}

impl<'a> Scope<'a> {
    /// The scope without names.
    pub fn new(alloc: Global) -> Scope<'a>
        ensures { result ≡ names.empty }
    {
        Scope {
            table: IndexMap::new(alloc),
            constants: Vec::new(alloc),
            variables: Vec::new(alloc),
        }
    }

    /// What a word stands for in this scope, if anything.
    pub fn find(&self, word: &[u8]) -> Option<Entry>
        ensures { result ≡ names.find self.now word.now }
    {
        self.table.get(word).copied()
    }

    /// Declares a name, and tells whether it is new; one that is there stays as it is. Without memory the scope stays as it was.
    pub fn declare(&mut self, word: &'a [u8], entry: Entry) -> Result<bool, AllocError>
        ensures is_new { IfOk result (λ is_new. is_new ≡ not (names.has self.old word.now)) }
        ensures declared { OnOk result (self.new ≡ names.with_name self.old (word.now, entry)) }
        ensures err { OnErr result (self.new ≡ self.old) }
    {
        if self.find(word).is_some() {
            return Ok(false);
        }
        self.table.insert(word, entry)?;
        Ok(true)
    }

    /// Where a word stands among the names. A place of 2^32 and more is want of memory.
    pub fn place_of(&self, word: &[u8]) -> Result<u32, AllocError>
        ensures { IfOk result (λ k. k ≡ names.place_of self.now word.now) }
    {
        let Some(place) = self.table.get_index_of(word) else {
            return Ok(0);
        };
        match u32::try_from(place) {
            Ok(place) => Ok(place),
            Err(_) => Err(AllocError),
        }
    }

    /// How many names there are.
    fn name_count(&self) -> usize
        ensures { result ≡ length self.now.entries }
    {
        self.table.len()
    }

    /// The name with this place.
    fn name_at(&self, place: usize) -> Option<(&'a [u8], Entry)>
        ensures { option_map names.named result ≡ slice_get self.now.entries place }
    {
        match self.table.get_index(place) {
            Some((word, entry)) => Some((*word, *entry)),
            None => None,
        }
    }

    /// The name with this place, where it is that of a method.
    fn method_at(&self, place: usize) -> Option<(&'a [u8], Entry)>
        ensures { option_map names.named result ≡
            names.if_method (slice_get self.now.entries place) }
    {
        match self.name_at(place) {
            Some((word, entry)) => match entry.means {
                Meaning::Procedure(_) => Some((word, entry)),
                _ => None,
            },
            None => None,
        }
    }

    /// Declares the methods of this scope in another one, too.
    #[tactic(auto, using(crate::proofs::Methods::declared_more, crate::proofs::Methods::declared_none, crate::proofs::Methods::declared_end))]
    pub fn add_methods(&self, all: &mut Scope<'a>) -> Result<(), AllocError>
        ensures { OnOk result (all.new ≡ names.with_names all.old (names.methods_of self.now)) }
    {
        for place in 0..self.name_count() {
            if let Some((word, entry)) = self.method_at(place) {
                all.declare(word, entry)?;
            }
        }
        Ok(())
    }

    /// Where the methods of this scope stand among the names of another one.
    #[tactic(auto, using(crate::proofs::Methods::placed_more, crate::proofs::Methods::placed_none, crate::proofs::Methods::placed_end))]
    pub fn places_in(&self, alloc: Global, all: &Scope<'_>) -> Result<Items<u32>, AllocError>
        ensures { IfOk result (λ ks. ks ≡ names.places_in all.now (names.methods_of self.now)) }
    {
        let mut places = Items::new(alloc);
        for place in 0..self.name_count() {
            if let Some((word, _)) = self.method_at(place) {
                places.push(all.place_of(word)?)?;
            }
        }
        Ok(places)
    }

    /// The name with this place, where it is that of a field.
    fn field_at(&self, place: usize) -> Option<(&'a [u8], Entry)>
        ensures { option_map names.named result ≡
            names.if_field (slice_get self.now.entries place) }
    {
        match self.name_at(place) {
            Some((word, entry)) => match entry.means {
                Meaning::Variable(_) => Some((word, entry)),
                _ => None,
            },
            None => None,
        }
    }

    /// Declares the fields of this scope in another one, too.
    pub fn add_fields(&self, all: &mut Scope<'a>) -> Result<(), AllocError> {
        for place in 0..self.name_count() {
            if let Some((word, entry)) = self.field_at(place) {
                all.declare(word, entry)?;
            }
        }
        Ok(())
    }

    /// Where the fields of this scope stand among the names of another one.
    #[tactic(auto, using(crate::proofs::Fields::placed_more, crate::proofs::Fields::placed_none, crate::proofs::Fields::placed_end))]
    pub fn field_places_in(&self, alloc: Global, all: &Scope<'_>) -> Result<Items<u32>, AllocError>
        ensures { IfOk result (λ ks. ks ≡ names.places_in all.now (names.fields_of self.now)) }
    {
        let mut places = Items::new(alloc);
        for place in 0..self.name_count() {
            if let Some((word, _)) = self.field_at(place) {
                places.push(all.place_of(word)?)?;
            }
        }
        Ok(places)
    }

    /// The constant with a number; none where it is declared later.
    pub fn constant(&self, number: u32) -> Option<Constant>
        ensures { result ≡ slice_get self.now.constants number }
    {
        self.constants.get(number as usize).copied()
    }

    /// The constants that are declared so far.
    pub fn constants(&self) -> &[Constant]
        ensures { result.now ≡ self.now.constants }
    {
        self.constants.as_slice()
    }

    /// The type of the variable with a number: none where the variable is declared later, and no type where its declaration
    /// breaks a rule.
    pub fn variable(&self, number: u32) -> Option<Option<TypeId>>
        ensures { result ≡ slice_get self.now.variables number }
    {
        self.variables.get(number as usize).copied()
    }

    /// How many variables there are so far.
    pub fn variable_count(&self) -> usize
        ensures { result ≡ length self.now.variables }
    {
        self.variables.len()
    }

    /// The next constant. Without memory the scope stays as it was.
    pub fn add_constant(&mut self, constant: Constant) -> Result<(), AllocError>
        ensures ok { OnOk result (self.new ≡ names.with_constant self.old constant) }
        ensures err { OnErr result (self.new ≡ self.old) }
    {
        self.constants.push(constant)?;
        Ok(())
    }

    /// The types of all variables, in the place of those that there were.
    pub fn set_variables(&mut self, of: Vec<Option<TypeId>>)
        ensures { self.new ≡ names.setting_variables self.old of.items }
    {
        self.variables = of;
    }

    /// The type of the next variable. Without memory the scope stays as it was.
    pub fn add_variable(&mut self, of: Option<TypeId>) -> Result<(), AllocError>
        ensures ok { OnOk result (self.new ≡ names.with_variable self.old of) }
        ensures err { OnErr result (self.new ≡ self.old) }
    {
        self.variables.push(of)?;
        Ok(())
    }
}
