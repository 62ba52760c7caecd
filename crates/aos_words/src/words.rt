// The command that words are.

ghost use Rattle.std.specs.Prelude.{◌≡◌, true, IfOk};
ghost use Rattle.clap.specs.Walk.{rows_of};
ghost use Rattle.clap.specs.Matches.{found_of};
ghost use Rattle.clap.specs.Simple.{app_of};
ghost use Rattle.clap.specs.Faults.{is_simple_and_free};
ghost use Rattle.aos_words.specs.Forms.{run_form, replay_form, files_form, gen_form};
ghost use Rattle.aos_words.specs.Words.{words_of, borrowed, taken, by, IsInRange};
ghost use Rattle.aos_words.specs.Words.{run_of, replay_of, files_of, check_of, list_of, gen_of};
ghost use Rattle.aos_words.specs.Words.{command_by, command_of};
ghost use Rattle.aos_words.specs.Shown.{command_in, AnswersBy};

use crate::command::{Command, WordsErr};
use crate::forms::{files_form, gen_form, replay_form, run_form};
use crate::found::{budget, files, first_word, is_set, pairs, workers};
use clap::ArgMatches;
use clap::error::ErrorKind;
use std::alloc::Global;

// What clap finds in the words for a simple command.
fn take<'a>(form: clap::Command<'a>, words: &'a [String]) -> Result<ArgMatches<'a>, WordsErr>
    requires { is_simple_and_free (app_of form) ≡ true }
    ensures { AnswersBy (λ m. rows_of (found_of m))
        (taken (app_of form.entry) (words_of words.entry.now)) result }
{
    match form.try_get_matches_from(words) {
        Ok(matches) => Ok(matches),
        Err(e) => match e.kind() {
            ErrorKind::OutOfMemory => Err(WordsErr::NoMemory),
            _ => Err(WordsErr::Refused),
        },
    }
}

// The run of what was found.
fn run<'a>(alloc: Global, matches: &ArgMatches<'a>) -> Result<Command<'a>, WordsErr>
    ensures { AnswersBy command_in (run_of (rows_of (found_of matches.now))) result }
{
    let Some(workers) = workers(matches) else {
        return Err(WordsErr::Refused);
    };
    let Some(budget) = budget(matches) else {
        return Err(WordsErr::Refused);
    };
    let files = files(alloc, matches)?;
    Ok(Command::Run {
        workers,
        budget,
        log: is_set(matches, "log"),
        files,
    })
}

// The replay of what was found.
fn replay<'a>(alloc: Global, matches: &ArgMatches<'a>) -> Result<Command<'a>, WordsErr>
    ensures { AnswersBy command_in (replay_of (rows_of (found_of matches.now))) result }
{
    let Some(script) = first_word(matches, "script") else {
        return Err(WordsErr::Refused);
    };
    let files = files(alloc, matches)?;
    Ok(Command::Replay {
        script,
        watch: is_set(matches, "watch"),
        files,
    })
}

// The run of a generated module that was found.
fn generate<'a>(matches: &ArgMatches<'a>) -> Result<Command<'a>, WordsErr>
    ensures { AnswersBy command_in (gen_of (rows_of (found_of matches.now))) result }
{
    let Some(workers) = workers(matches) else {
        return Err(WordsErr::Refused);
    };
    let Some(pairs) = pairs(matches) else {
        return Err(WordsErr::Refused);
    };
    Ok(Command::Gen { workers, pairs })
}

// The run that the words are.
fn read_run<'a>(alloc: Global, words: &'a [String]) -> Result<Command<'a>, WordsErr>
    ensures { AnswersBy command_in (by run_form run_of (words_of words.entry.now)) result }
{
    match take(run_form(alloc)?, words) {
        Ok(matches) => run(alloc, &matches),
        Err(e) => Err(e),
    }
}

// The replay that the words are.
fn read_replay<'a>(alloc: Global, words: &'a [String]) -> Result<Command<'a>, WordsErr>
    ensures { AnswersBy command_in (by replay_form replay_of (words_of words.entry.now)) result }
{
    match take(replay_form(alloc)?, words) {
        Ok(matches) => replay(alloc, &matches),
        Err(e) => Err(e),
    }
}

// The files of a command with this name that has nothing else.
fn read_files<'a>(
    alloc: Global,
    name: &'a str,
    words: &'a [String],
) -> Result<Vec<&'a str>, WordsErr>
    ensures { AnswersBy (λ v. borrowed v.items)
        (by (files_form name.entry.now) files_of (words_of words.entry.now)) result }
{
    match take(files_form(alloc, name)?, words) {
        Ok(matches) => files(alloc, &matches),
        Err(e) => Err(e),
    }
}

// The check that the words are.
fn read_check<'a>(alloc: Global, words: &'a [String]) -> Result<Command<'a>, WordsErr>
    ensures { AnswersBy command_in (check_of (words_of words.entry.now)) result }
{
    Ok(Command::Check(read_files(alloc, "check", words)?))
}

// The list that the words are.
fn read_list<'a>(alloc: Global, words: &'a [String]) -> Result<Command<'a>, WordsErr>
    ensures { AnswersBy command_in (list_of (words_of words.entry.now)) result }
{
    Ok(Command::List(read_files(alloc, "list", words)?))
}

// The run of a generated module that the words are.
fn read_gen<'a>(alloc: Global, words: &'a [String]) -> Result<Command<'a>, WordsErr>
    ensures { AnswersBy command_in (by gen_form gen_of (words_of words.entry.now)) result }
{
    match take(gen_form(alloc)?, words) {
        Ok(matches) => generate(&matches),
        Err(e) => Err(e),
    }
}

// The command of this name that the words are, of which it is the first.
fn read_by<'a>(alloc: Global, name: &str, words: &'a [String]) -> Result<Command<'a>, WordsErr>
    ensures { AnswersBy command_in (command_by name.now (words_of words.entry.now)) result }
{
    match name {
        "run" => read_run(alloc, words),
        "replay" => read_replay(alloc, words),
        "check" => read_check(alloc, words),
        "list" => read_list(alloc, words),
        "gen" => read_gen(alloc, words),
        _ => Err(WordsErr::Refused),
    }
}

/// The command that words are, those behind the program's name; `Refused` just where they are none. That memory was
/// wanted may be told of any words.
pub fn read_words<'a>(alloc: Global, words: &'a [String]) -> Result<Command<'a>, WordsErr>
    ensures read { AnswersBy command_in (command_of (words_of words.entry.now)) result }
    ensures range { IfOk result (λ c. IsInRange (command_in c)) }
{
    let Some(name) = words.first() else {
        return Err(WordsErr::Refused);
    };
    read_by(alloc, name.as_str(), words)
}
