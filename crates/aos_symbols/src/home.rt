// What a module has declared.

ghost use Rattle.std.specs.Prelude.{◌≡◌, ◌≤◌, ◌<◌, ◌^◌, [], Some, length, slice_get, is_some, OnErr, OnOk, IfOk, IfSome};
ghost use Rattle.std.specs.Option.{option_copied};
ghost use Rattle.aos_symbols.specs.Home as home;

use crate::scope::{Constant, Scope};
use crate::spelling::bytes_between;
use aos_tree::{Items, Text};
use aos_types::{Signature, TypeId};
use indexmap::IndexMap;
use std::alloc::{AllocError, Global};
use std::marker::Model;

/// How many strings of a text can be told apart by their numbers.
const MOST_STRINGS: usize = 4_294_967_296;

/// An object type: the number of the module that declares it, the number of its scope there, in which its constants, fields and
/// methods stand, the number of its first method among the module's signatures, and the place among its methods of its initializer.
#[derive(Clone, Copy)]
pub struct ObjectScope {
    pub home: u32,
    pub scope: u32,
    pub methods: u32,
    pub initial: Option<u32>,
}

/// A module's name, its text, the strings there, its scopes, the signatures of its procedures and behind them those of methods, the
/// fields of the record types that it writes and its object types, by the types' numbers, and the slots of the methods that each
/// type declares. A record's fields are the variables of a scope. The first scope is the module's own; behind it come those of the
/// types that it defines and then those of its procedures and methods, the first of which has the number `first`, each in the order
/// of the text.
pub struct Home<'a> {
    name: &'a [u8],
    text: &'a [u8],
    strings: IndexMap<u32, u32>,
    scopes: Vec<Scope<'a>>,
    first: usize,
    signatures: Vec<Signature>,
    records: IndexMap<u32, Scope<'a>>,
    objects: IndexMap<u32, ObjectScope>,
    slots: Vec<Items<u32>>,
}

/// The strings of a text, by the places where they begin. More than 2^32 of them are want of memory.
fn strings_of(alloc: Global, strings: &[Text]) -> Result<IndexMap<u32, u32>, AllocError>
    ensures all { IfOk result (λ m. m.entries ≡ home.strings_of strings.now) }
    ensures few { IfOk result (λ m. length m.entries ≤ 2 ^ 32) }
{
    let mut all = IndexMap::new(alloc);
    if strings.len() > MOST_STRINGS {
        return Err(AllocError);
    }
    for string in strings {
        all.insert(string.start, string.end)?;
    }
    Ok(all)
}

/// What stands between the quotes of a string.
fn between_quotes(text: &[u8], start: u32, end: u32) -> &[u8]
    ensures between { result.now ≡ home.between_quotes text.now (start, end) }
    ensures short { length result.now < 2 ^ 32 }
{
    bytes_between(text, start as usize + 1, (end as usize).saturating_sub(1))
}

impl<'a> Model for Home<'a> {
    ghost use Rattle.std.specs.Prelude.{◌≤◌, ◌^◌, length};
    ghost use Rattle.aos_symbols.specs.Home as home;

    ghost Value = { home.Home };

    ghost view = { λ h. record {
      name = h.name.now;
      text = h.text.now;
      strings = h.strings.entries;
      scopes = h.scopes.items;
      first = h.first;
      signatures = h.signatures.items;
      records = h.records.entries;
      objects = h.objects.entries;
      slots = h.slots.items;
    } };

    ghost invariant = { λ h. length h.strings.entries ≤ 2 ^ 32 };
}

// Crates above drop it by this one call.
impl<'a> Drop for Home<'a> {
    fn drop(self) {
        let Home {
            name: _,
            text: _,
            strings,
            scopes,
            first: _,
            signatures,
            records,
            objects,
            slots,
        } = self;
        drop(strings);
        drop(scopes);
        drop(signatures);
        drop(records);
        drop(objects);
        drop(slots);
    }
}

impl<'a> Home<'a> {
    /// A module of this name, with this text and these strings and scopes, of which that of the first procedure has a number, and
    /// these object types; no procedure has its signature yet, no record type its fields and no method its slot.
    pub fn new(
        alloc: Global,
        name: &'a [u8],
        text: &'a [u8],
        strings: &[Text],
        scopes: Vec<Scope<'a>>,
        first: usize,
        objects: IndexMap<u32, ObjectScope>,
    ) -> Result<Home<'a>, AllocError>
        ensures { IfOk result (λ h. h ≡ record {
          name = name.now;
          text = text.now;
          strings = home.strings_of strings.now;
          scopes = scopes.entry.items;
          first = first;
          signatures = [];
          records = [];
          objects = objects.entries;
          slots = [];
        }) }
    {
        Ok(Home {
            name,
            text,
            strings: strings_of(alloc, strings)?,
            scopes,
            first,
            signatures: Vec::new(alloc),
            records: IndexMap::new(alloc),
            objects,
            slots: Vec::new(alloc),
        })
    }

    /// The number of the string that begins at a place of the text with its quote.
    pub fn string_number(&self, start: u32) -> Option<u32>
        ensures { result ≡ home.string_number self.now start }
    {
        let number = self.strings.get_index_of(&start)?;
        Some(number as u32)
    }

    /// How many strings there are: at most 2^32.
    pub fn string_count(&self) -> usize
        ensures count { result ≡ length self.now.strings }
        ensures few { result ≤ 2 ^ 32 }
    {
        self.strings.len()
    }

    /// Whether there is a string with a number.
    pub fn has_string(&self, number: u32) -> bool
        ensures { result ≡ is_some (slice_get self.now.strings number) }
    {
        (number as usize) < self.string_count()
    }

    /// The bytes of the string with a number, between its quotes.
    pub fn string(&self, number: u32) -> &'a [u8]
        ensures bytes { result.now ≡ home.string_in self.now number }
        ensures short { length result.now < 2 ^ 32 }
    {
        match self.strings.get_index(number as usize) {
            Some((start, end)) => between_quotes(self.text, *start, *end),
            None => &[],
        }
    }

    /// The module's name.
    pub fn name(&self) -> &'a [u8]
        ensures { result.now ≡ self.now.name }
    {
        self.name
    }

    /// The module's text.
    pub fn text(&self) -> &'a [u8]
        ensures { result.now ≡ self.now.text }
    {
        self.text
    }

    /// The scope with a number, if there is one.
    pub fn scope(&self, number: u32) -> Option<&Scope<'a>>
        ensures { option_copied result ≡ slice_get self.now.scopes number }
    {
        self.scopes.get(number as usize)
    }

    /// All scopes.
    pub fn scopes(&self) -> &[Scope<'a>]
        ensures { result.now ≡ self.now.scopes }
    {
        self.scopes.as_slice()
    }

    /// The next constant of a scope. Without memory all stays as it was.
    pub fn add_constant(&mut self, scope: u32, constant: Constant) -> Result<(), AllocError>
        ensures ok { OnOk result (self.new ≡ home.add_constant self.old scope constant) }
        ensures err { OnErr result (self.new ≡ self.old) }
    {
        match self.scopes.get_mut(scope as usize) {
            Some(scope) => scope.add_constant(constant),
            None => Ok(()),
        }
    }

    /// The type of the next variable of a scope. Without memory all stays as it was.
    pub fn add_variable(&mut self, scope: u32, of: Option<TypeId>) -> Result<(), AllocError>
        ensures ok { OnOk result (self.new ≡ home.add_variable self.old scope of) }
        ensures err { OnErr result (self.new ≡ self.old) }
    {
        match self.scopes.get_mut(scope as usize) {
            Some(scope) => scope.add_variable(of),
            None => Ok(()),
        }
    }

    /// The types of all variables of a scope, in the place of those that there were.
    pub fn set_variables(&mut self, scope: u32, of: Vec<Option<TypeId>>)
        ensures { self.new ≡ home.set_variables self.old scope of.items }
    {
        if let Some(scope) = self.scopes.get_mut(scope as usize) {
            scope.set_variables(of);
        }
    }

    /// An object type, where it is as far behind the first one as its number is.
    pub fn object_in_turn(&self, of: TypeId) -> Option<ObjectScope>
        ensures { IfSome result (λ object. home.object_of self.now of ≡ Some object) }
    {
        let (first, _) = self.objects.get_index(0)?;
        let place = of.0.saturating_sub(*first) as usize;
        let (number, object) = self.objects.get_index(place)?;
        if *number == of.0 { Some(*object) } else { None }
    }

    /// An object type, where this module declares it. Most of those that follow one another in the text have numbers in turn, so that
    /// they are found without a hash.
    pub fn object(&self, of: TypeId) -> Option<ObjectScope>
        ensures { result ≡ home.object_of self.now of }
    {
        match self.object_in_turn(of) {
            Some(object) => Some(object),
            None => self.objects.get(&of.0).copied(),
        }
    }

    /// The scope of an object type.
    fn scope_of(&self, of: Option<ObjectScope>) -> Option<&Scope<'a>>
        ensures { option_copied result ≡ home.scope_of self.now of }
    {
        self.scope(of?.scope)
    }

    /// The fields of an object type or a record, where this module writes it.
    pub fn fields(&self, is_object: bool, of: TypeId) -> Option<&Scope<'a>>
        ensures { option_copied result ≡ home.fields_of is_object self.now of }
    {
        if is_object {
            self.scope_of(self.object(of))
        } else {
            self.records.get(&of.0)
        }
    }

    /// The slot of a method, by its place among those that an object type of this module declares.
    pub fn slot(&self, of: ObjectScope, number: u32) -> u32
        ensures { result ≡ home.slot_at self.now of number }
    {
        match self.slots.get((of.scope as usize).saturating_sub(1)) {
            Some(slots) => slots.as_slice().get(number as usize).copied().unwrap_or(0),
            None => 0,
        }
    }

    /// The slots of the methods that each type declares, by the types' definitions.
    pub fn set_slots(&mut self, slots: Vec<Items<u32>>)
        ensures { self.new ≡ home.with_slots self.old slots.items }
    {
        self.slots = slots;
    }

    /// The fields of a record type. Without memory all stays as it was.
    pub fn add_record(&mut self, of: TypeId, fields: Scope<'a>) -> Result<(), AllocError>
        ensures ok { OnOk result (self.new ≡ home.add_record self.old of fields.entry) }
        ensures err { OnErr result (self.new ≡ self.old) }
    {
        self.records.insert(of.0, fields)?;
        Ok(())
    }

    /// The signature of the procedure with a number, where its heading is met.
    pub fn signature(&self, number: u32) -> Option<&Signature>
        ensures { option_copied result ≡ slice_get self.now.signatures number }
    {
        self.signatures.get(number as usize)
    }

    /// The signatures whose headings are met.
    pub fn signatures(&self) -> &[Signature]
        ensures { result.now ≡ self.now.signatures }
    {
        self.signatures.as_slice()
    }

    /// The signature of the procedure whose scope has a number, where its heading is met.
    pub fn signature_in(&self, scope: u32) -> Option<&Signature>
        ensures { option_copied result ≡ home.signature_in self.now scope }
    {
        let number = (scope as usize).checked_sub(self.first)?;
        self.signatures.get(number)
    }

    /// The signature of the next procedure. Without memory all stays as it was.
    pub fn add_signature(&mut self, signature: Signature) -> Result<(), AllocError>
        ensures ok { OnOk result (self.new ≡ home.add_signature self.old signature) }
        ensures err { OnErr result (self.new ≡ self.old) }
    {
        self.signatures.push(signature)?;
        Ok(())
    }
}
