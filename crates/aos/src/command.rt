// From the words and the shelf to an answer.

ghost use Rattle.std.specs.Prelude.{◌≡◌, ◌≤◌, ◌^◌, [], ◌∷◌, length, map, IfOk};
ghost use Rattle.aos_script.specs.Listing.{IsScript};
ghost use Rattle.aos_words.specs.Words.{Run, Replay, Gen, words_of, borrowed, AreFew, GenInRange, IsInRange, most_pairs};
ghost use Rattle.aos_words.specs.Shown.{command_in};
ghost use Rattle.aos.specs.Call.{shelf_use, probes_use};
ghost use Rattle.aos.specs.Wanted.{script_limit, gen_texts};
ghost use Rattle.aos.specs.Report.{script_line};
ghost use Rattle.aos.specs.Shown.{IsAnswer, IsSet, texts_of, AreTexts, asks_for};
ghost use Rattle.aos.specs.Shown.{Causes, Serves, ServesWith, ServesRun, ServesTexts, ServesTextsWith};

use crate::answer::{Answer, message};
use crate::compiled::{Compiled, compile_texts};
use crate::fetch::{FetchedFile, FetchedFiles, fetch_file, fetch_files, keep};
use crate::run::{Setting, replay_image, run_image};
use crate::telling::{Telling, tell_program};
use aos_base::NoMemory;
use aos_dev::Shelf;
use aos_gate::Gate;
use aos_gen::{file_name, module_text};
use aos_probe::Probe;
use aos_report::{no_worker, script_refused, usage};
use aos_script::{Script, ScriptErr, read_script};
use aos_words::{Command, WordsErr, read_words};
use std::alloc::Global;
use std::sync::Wait;
use std::thread::Threads;

// The most bytes of a script.
const SCRIPT_LIMIT: u64 = 67_108_864;

// How many statements an activity of a generated module may begin.
const GEN_BUDGET: u64 = 1_000_000;

// The refusal of a text that is no script.
fn refuse_script(alloc: Global, e: ScriptErr) -> Result<Answer, NoMemory>
    ensures line { IfOk result (λ a. IsAnswer a 10 [] (script_line e)) }
    ensures memory { e ≡ ScriptErr.NoMemory → IfOk result (λ _. ⊥) }
{
    match e {
        ScriptErr::BadLine(line) => Ok(message(alloc, 10, script_refused(alloc, line)?)),
        ScriptErr::BadWorker(line) => Ok(message(alloc, 10, no_worker(alloc, line)?)),
        ScriptErr::NoMemory => Err(NoMemory),
    }
}

// The answer for files that have these texts, where the words ask for a run of them.
fn run_texts<R: Threads + Wait + Sync, G: Gate + Sync>(
    rt: &R,
    alloc: Global,
    setting: Setting,
    files: &[&str],
    texts: &[Vec<u8>],
    gate: &G,
) -> Result<Answer, NoMemory>
    requires set { IsSet setting }
    requires texts { AreTexts texts.now }
    ensures { IfOk result
        (ServesRun setting (borrowed files.now) (texts_of texts.now)) }
{
    match compile_texts(alloc, files, texts)? {
        Compiled::Went(program, image) => run_image(rt, alloc, image, setting, gate),
        Compiled::Stopped(answer) => Ok(answer),
    }
}

// The text of the generated module of so many pairs, as the only one.
fn generated_texts(alloc: Global, pairs: u32) -> Result<Vec<Vec<u8>>, NoMemory>
    requires { pairs ≤ most_pairs }
    ensures texts { IfOk result (λ texts. AreTexts texts.items) }
    ensures made { IfOk result (λ texts. texts_of texts.items ≡ gen_texts pairs) }
{
    let text = module_text(alloc, pairs)?;
    let mut texts = Vec::new(alloc);
    keep(&mut texts, text)?;
    Ok(texts)
}

// The answer where the words ask for a run of the generated module of so many pairs.
fn run_pairs<R: Threads + Wait + Sync, G: Gate + Sync>(
    rt: &R,
    alloc: Global,
    workers: u32,
    pairs: u32,
    gate: &G,
) -> Result<Answer, NoMemory>
    requires { GenInRange workers pairs }
    ensures { IfOk result (ServesTexts (Gen workers pairs) []) }
{
    let setting = Setting {
        workers,
        budget: GEN_BUDGET,
        log: false,
    };
    let texts = generated_texts(alloc, pairs)?;
    run_texts(rt, alloc, setting, &[file_name()], &texts, gate)
}

// The answer where the words ask for a run of these files.
fn run_files<R: Threads + Wait + Sync, F: Shelf, G: Gate + Sync>(
    rt: &R,
    alloc: Global,
    setting: Setting,
    files: &[&str],
    shelf: &mut F,
    gate: &G,
) -> Result<Answer, NoMemory>
    requires set { IsSet setting }
    requires few { AreFew (borrowed files.now) }
    ensures { IfOk result (Serves
        (Run setting.workers setting.budget setting.log (borrowed files.now))
        (shelf_use F.Shelf shelf.old shelf.new)) }
{
    match fetch_files(alloc, files, shelf)? {
        FetchedFiles::Texts(texts) => run_texts(rt, alloc, setting, files, &texts, gate),
        FetchedFiles::Stopped(answer) => Ok(answer),
    }
}

// The answer for files that have these texts, by this script.
fn replay_texts(
    alloc: Global,
    name: &str,
    watch: bool,
    listing: &[u8],
    script: &Script,
    files: &[&str],
    texts: &[Vec<u8>],
    probes: &mut Vec<Box<dyn Probe>>,
) -> Result<Answer, NoMemory>
    requires texts { AreTexts texts.now }
    requires read { IsScript listing.now script.now }
    requires runs { length script.now.runs ≤ 2 ^ 27 }
    ensures { IfOk result (ServesTextsWith
        (Replay name.now watch (borrowed files.now)) (listing.now ∷ texts_of texts.now) (probes_use
        (map (λ p. seen p) probes.old.items) (map (λ p. seen p) probes.new.items))) }
{
    match compile_texts(alloc, files, texts)? {
        Compiled::Went(program, image) => replay_image(alloc, image, script, watch, probes),
        Compiled::Stopped(answer) => Ok(answer),
    }
}

// The answer for files that have these texts, by a script whose text is this.
fn replay_listing(
    alloc: Global,
    name: &str,
    watch: bool,
    listing: &[u8],
    files: &[&str],
    texts: &[Vec<u8>],
    probes: &mut Vec<Box<dyn Probe>>,
) -> Result<Answer, NoMemory>
    requires texts { AreTexts texts.now }
    requires script { length listing.now ≤ script_limit }
    ensures { IfOk result (ServesTextsWith
        (Replay name.now watch (borrowed files.now)) (listing.now ∷ texts_of texts.now) (probes_use
        (map (λ p. seen p) probes.old.items) (map (λ p. seen p) probes.new.items))) }
{
    match read_script(alloc, listing) {
        Ok(script) => replay_texts(alloc, name, watch, listing, &script, files, texts, probes),
        Err(e) => refuse_script(alloc, e),
    }
}

// The answer where the words ask for a run of these files by a script.
fn replay_files<F: Shelf>(
    alloc: Global,
    name: &str,
    watch: bool,
    files: &[&str],
    shelf: &mut F,
    probes: &mut Vec<Box<dyn Probe>>,
) -> Result<Answer, NoMemory>
    requires { AreFew (borrowed files.now) }
    ensures { IfOk result (ServesWith
        (Replay name.now watch (borrowed files.now)) (shelf_use F.Shelf shelf.old shelf.new)
        (probes_use
        (map (λ p. seen p) probes.old.items) (map (λ p. seen p) probes.new.items))) }
{
    let listing = match fetch_file(alloc, name, SCRIPT_LIMIT, shelf)? {
        FetchedFile::Text(listing) => listing,
        FetchedFile::Stopped(answer) => return Ok(answer),
    };
    let texts = match fetch_files(alloc, files, shelf)? {
        FetchedFiles::Texts(texts) => texts,
        FetchedFiles::Stopped(answer) => return Ok(answer),
    };
    replay_listing(alloc, name, watch, &listing, files, &texts, probes)
}

// The answer for files that have these texts, where the words ask to tell of their program.
fn tell_texts(
    alloc: Global,
    what: Telling,
    files: &[&str],
    texts: &[Vec<u8>],
) -> Result<Answer, NoMemory>
    requires { AreTexts texts.now }
    ensures { IfOk result (ServesTexts
        (asks_for what (borrowed files.now)) (texts_of texts.now)) }
{
    match compile_texts(alloc, files, texts)? {
        Compiled::Went(program, image) => tell_program(alloc, what, &program, &image),
        Compiled::Stopped(answer) => Ok(answer),
    }
}

// The answer where the words ask to tell of the program of these files.
fn tell_files<F: Shelf>(
    alloc: Global,
    what: Telling,
    files: &[&str],
    shelf: &mut F,
) -> Result<Answer, NoMemory>
    requires { AreFew (borrowed files.now) }
    ensures { IfOk result (Serves
        (asks_for what (borrowed files.now)) (shelf_use F.Shelf shelf.old shelf.new)) }
{
    match fetch_files(alloc, files, shelf)? {
        FetchedFiles::Texts(texts) => tell_texts(alloc, what, files, &texts),
        FetchedFiles::Stopped(answer) => Ok(answer),
    }
}

// The answer to a command.
fn serve<R: Threads + Wait + Sync, F: Shelf, G: Gate + Sync>(
    rt: &R,
    alloc: Global,
    command: Command<'_>,
    shelf: &mut F,
    probes: &mut Vec<Box<dyn Probe>>,
    gate: &G,
) -> Result<Answer, NoMemory>
    requires { IsInRange (command_in command) }
    ensures { IfOk result
        (ServesWith (command_in command.entry) (shelf_use F.Shelf shelf.old shelf.new) (probes_use
        (map (λ p. seen p) probes.old.items) (map (λ p. seen p) probes.new.items))) }
{
    match command {
        Command::Run {
            workers,
            budget,
            log,
            files,
        } => {
            let setting = Setting {
                workers,
                budget,
                log,
            };
            run_files(rt, alloc, setting, &files, shelf, gate)
        }
        Command::Replay {
            script,
            watch,
            files,
        } => replay_files(alloc, script, watch, &files, shelf, probes),
        Command::Check(files) => tell_files(alloc, Telling::Locals, &files, shelf),
        Command::List(files) => tell_files(alloc, Telling::Layout, &files, shelf),
        Command::Gen { workers, pairs } => run_pairs(rt, alloc, workers, pairs, gate),
    }
}

/// The answer to the words, from the shelf's texts; the probes are told the events of a run by a
/// script where the words say so. Want of memory is the only error.
pub fn answer<R: Threads + Wait + Sync, F: Shelf, G: Gate + Sync>(
    rt: &R,
    alloc: Global,
    words: &[String],
    shelf: &mut F,
    probes: &mut Vec<Box<dyn Probe>>,
    gate: &G,
) -> Result<Answer, NoMemory>
    ensures { IfOk result
        (Causes (words_of words.now) (shelf_use F.Shelf shelf.old shelf.new) (probes_use
        (map (λ p. seen p) probes.old.items) (map (λ p. seen p) probes.new.items))) }
{
    match read_words(alloc, words) {
        Ok(command) => serve(rt, alloc, command, shelf, probes, gate),
        Err(WordsErr::Refused) => Ok(message(alloc, 2, usage(alloc)?)),
        Err(WordsErr::NoMemory) => Err(NoMemory),
    }
}
