// A shelf that lives in memory and fails at the calls that were chosen.
ghost use Rattle.std.specs.Prelude.{◌≡◌, ℕ, ◌≤◌, ◌↔◌, List, [], map, length, Option, Some, IsTrue, option_map};
ghost use Rattle.std.specs.Option.{option_copied};
ghost use Rattle.aos_dev.specs.declared.shelf.Got.{Got};
ghost use Rattle.aos_dev.specs.Count.{Rose, next};
ghost use Rattle.aos_dev.specs.Shelf.{text_of, OnText, OnFailed, OnNoText, Answers};
ghost use Rattle.aos_dev.specs.MemShelf.{named, shelf_texts, shelf_fails, shelf_calls, shelf_faults, ShelfFailsNext};

use crate::count::next;
use crate::shelf::{Got, Shelf};

/// Texts in memory; the calls whose numbers were given, counted from 1, fail.
#[derive(Drop)]
pub struct MemShelf {
    files: Vec<(String, Vec<u8>)>,
    fails: Vec<u64>,
    calls: u64,
    faults: u64,
}

impl MemShelf {
    /// A shelf of these texts by their names, of which the first counts where two have one name. The calls with the
    /// numbers in `fails`, counted from 1, fail.
    pub fn new(files: Vec<(String, Vec<u8>)>, fails: Vec<u64>) -> MemShelf
        ensures texts { shelf_texts result ≡ map named files.items }
        ensures fails { shelf_fails result ≡ fails.items }
        ensures calls { shelf_calls result ≡ 0 }
        ensures faults { shelf_faults result ≡ 0 }
    {
        MemShelf {
            files,
            fails,
            calls: 0,
            faults: 0,
        }
    }

    // Counts the next call, and says whether it is one that fails.
    fn begin(&mut self) -> bool
        ensures fails_next { IsTrue result ↔ ShelfFailsNext self.old }
        ensures rest { self.new ≡ record self.old { calls = next (shelf_calls self.old) } }
    {
        self.calls = next(self.calls);
        self.fails.contains(&self.calls)
    }
}

impl Shelf for MemShelf {
    ghost texts = { λ shelf. Some (shelf_texts shelf) };

    ghost taken = { λ _. 0 };

    ghost faults = { shelf_faults };

    fn fetch(&mut self, name: &str, most: u64, into: &mut Vec<u8>) -> Got
        requires { into.old.items ≡ [] }

        // the shelf goes on
        ensures same_texts { shelf_texts self.new ≡ shelf_texts self.old }
        ensures same_fails { shelf_fails self.new ≡ shelf_fails self.old }
        ensures counted { shelf_calls self.new ≡ next (shelf_calls self.old) }
        ensures faults_stay { shelf_faults self.old ≤ shelf_faults self.new }

        // the answer
        ensures fits { OnText result (length into.new.items ≤ most) }
        ensures empty { OnNoText result (into.new.items ≡ []) }
        ensures told { Answers
            (text_of (shelf_texts self.old) name.now) most result into.new.items }

        // the calls that fail, and no others
        ensures failed { OnFailed result (Rose (shelf_faults self.old) (shelf_faults self.new)) }
        ensures fails { (result ≡ Got.Failed) ↔ ShelfFailsNext self.old }
        ensures no_fault { ¬ ShelfFailsNext self.old →
            shelf_faults self.new ≡ shelf_faults self.old }
    {
        if self.begin() {
            self.faults = next(self.faults);
            return Got::Failed;
        }
        match text_at(&self.files, name) {
            Some(text) => copy_text(text, most, into),
            None => Got::Absent,
        }
    }
}

// The first text under the name.
fn text_at<'a>(files: &'a [(String, Vec<u8>)], name: &str) -> Option<&'a Vec<u8>>
    ensures { option_map (λ text. text.items) (option_copied result) ≡
        text_of (map named files.now) name.now }
{
    for file in files {
        if file.0.as_str() == name {
            return Some(&file.1);
        }
    }
    None
}

// The answer of a shelf that has this text under the name that was asked for.
fn copy_text(text: &[u8], most: u64, into: &mut Vec<u8>) -> Got
    requires { into.old.items ≡ [] }
    ensures answers { Answers (Some text.now) most result into.new.items }
    ensures empty { OnNoText result (into.new.items ≡ []) }
    ensures works { OnFailed result ⊥ }
{
    if text.len() as u64 > most {
        return Got::TooLong;
    }
    match into.extend_from_slice(text) {
        Ok(()) => Got::Text,
        Err(_) => Got::NoMemory,
    }
}
