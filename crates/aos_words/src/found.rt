// What clap found in the words of a command, by names.

ghost use Rattle.std.specs.Prelude.{◌≡◌, ◌≤◌, option_map, IfSome};
ghost use Rattle.clap.specs.Walk.{all_of, first_of, rows_of};
ghost use Rattle.clap.specs.Matches.{found_of};
ghost use Rattle.aos_words.specs.Words.{borrowed, number_or, workers_of, budget_of, is_set, files_of, pairs_of};
ghost use Rattle.aos_words.specs.Shown.{AnswersBy};

use crate::command::WordsErr;
use crate::number::number_in;
use clap::ArgMatches;
use std::alloc::Global;

// The most workers of a run.
const MOST_WORKERS: u64 = 16;

// The most statements that an activity may be allowed to begin.
const MOST_BUDGET: u64 = 1_000_000_000;

// How many it may begin where the words don't say.
const DEFAULT_BUDGET: u64 = 1_000_000;

// The most pairs of a generated module.
const MOST_PAIRS: u64 = 500;

// The most files of a command.
const MOST_FILES: usize = 64;

/// The first word under a name.
pub fn first_word<'a>(matches: &ArgMatches<'a>, name: &str) -> Option<&'a str>
    ensures { option_map (λ w. w.now) result
        ≡ first_of name.now (rows_of (found_of matches.now)) }
{
    matches.get_str(name)
}

// All words under a name.
fn all_words<'m, 'a>(matches: &'m ArgMatches<'a>, name: &str) -> Option<&'m [&'a str]>
    ensures { option_map (λ s. borrowed s.now) result
        ≡ all_of name.now (rows_of (found_of matches.now)) }
{
    matches.get_strs(name)
}

// The number in a word, or the default where there is no word.
fn number_or(given: Option<&str>, least: u64, most: u64, default: u64) -> Option<u64>
    requires { (least ≤ default) × (default ≤ most) }
    ensures value { result ≡ number_or least most default (option_map (λ w. w.now) given.entry) }
    ensures range { IfSome result (λ n. (least ≤ n) × (n ≤ most)) }
{
    match given {
        Some(word) => number_in(word, least, most),
        None => Some(default),
    }
}

/// How many workers a run has, 1 where the words don't say.
pub fn workers(matches: &ArgMatches<'_>) -> Option<u32>
    ensures { result ≡ workers_of (rows_of (found_of matches.now)) }
{
    match number_or(first_word(matches, "workers"), 1, MOST_WORKERS, 1) {
        Some(workers) => Some(workers as u32),
        None => None,
    }
}

/// The budget of a run, 1,000,000 where the words don't say.
pub fn budget(matches: &ArgMatches<'_>) -> Option<u64>
    ensures { result ≡ budget_of (rows_of (found_of matches.now)) }
{
    number_or(
        first_word(matches, "budget"),
        1,
        MOST_BUDGET,
        DEFAULT_BUDGET,
    )
}

/// How many pairs a generated module has.
pub fn pairs(matches: &ArgMatches<'_>) -> Option<u32>
    ensures { result ≡ pairs_of (rows_of (found_of matches.now)) }
{
    let Some(word) = first_word(matches, "N") else {
        return None;
    };
    match number_in(word, 1, MOST_PAIRS) {
        Some(pairs) => Some(pairs as u32),
        None => None,
    }
}

/// Whether an option that has no value is there. Clap's own call for it says nothing of other texts than `true` and `false`.
pub fn is_set(matches: &ArgMatches<'_>, name: &str) -> bool
    ensures { result ≡ is_set name.now (rows_of (found_of matches.now)) }
{
    match first_word(matches, name) {
        Some(text) => text == "true",
        None => false,
    }
}

/// The files, 1 to 64 of them.
pub fn files<'a>(alloc: Global, matches: &ArgMatches<'a>) -> Result<Vec<&'a str>, WordsErr>
    ensures { AnswersBy (λ v. borrowed v.items)
        (files_of (rows_of (found_of matches.now))) result }
{
    let Some(files) = all_words(matches, "FILE") else {
        return Err(WordsErr::Refused);
    };
    if files.is_empty() || MOST_FILES < files.len() {
        return Err(WordsErr::Refused);
    }
    Ok(Vec::from_slice(alloc, files)?)
}
