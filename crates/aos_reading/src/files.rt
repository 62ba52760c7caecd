// All files together: their trees, and the order in which their modules are loaded.

ghost use Rattle.std.specs.Prelude.{◌≡◌, ◌<◌, ◌≤◌, ◌^◌, All, length, map, option_map, IfOk, IfErr};
ghost use Rattle.aos_base.specs.declared.text.Refusal.{Refusal};
ghost use Rattle.aos_symbols.specs.Outcome.{refusal, refused, went};
ghost use Rattle.aos_unnamed.specs.Unnamed as unnamed;
ghost use Rattle.aos_reading.specs.declared.compile_err.CompileErr.{CompileErr};
ghost use Rattle.aos_reading.specs.Files as files;
ghost use Rattle.aos_reading.specs.Texts.{AreReadings};
ghost use Rattle.aos_reading.specs.Sources.{bytes_of, seen_reading, sources, OnRefused};

use crate::compile_err::CompileErr;
use crate::front::{Reading, read};
use aos_base::{NoMemory, Pos, Refusal};
use aos_order::{OrderErr, order};
use aos_symbols::{NAMED_OUT, is_word};
use aos_tree::Module;
use aos_unnamed::all_named;
use std::alloc::{AllocError, Global};

/// A module is given twice.
const GIVEN_TWICE: u16 = 8;
/// An imported module isn't given.
const NOT_GIVEN: u16 = 9;
/// Modules import one another in a circle.
const IMPORT_CYCLE: u16 = 10;

/// A rule that is broken at a place of a file.
fn refused(rule: u16, file: usize, pos: Pos) -> CompileErr
    requires { file < 2 ^ 32 }
    ensures { result ≡ CompileErr.Refused (refusal rule file pos) }
{
    CompileErr::Refused(Refusal {
        rule,
        file: file as u32,
        pos,
    })
}

/// The readings of texts, each by itself.
pub fn readings_of(alloc: Global, texts: &[Vec<u8>]) -> Result<Vec<Reading>, AllocError>
    requires { All (λ t. length t.items ≤ 2 ^ 20) texts.now }
    ensures { IfOk result (λ rs. AreReadings (bytes_of texts.now) (map seen_reading rs.items)) }
{
    let mut readings = Vec::new(alloc);
    for text in texts {
        readings.push(read(alloc, text)?)?;
    }
    Ok(readings)
}

/// The trees of files, or the rule that the first broken one breaks.
pub fn trees_of(alloc: Global, readings: Vec<Reading>) -> Result<Vec<Module>, CompileErr>
    requires { length readings.items ≤ 64 }
    ensures went { IfOk result (λ trees.
        files.trees_from 0 (map seen_reading readings.items) ≡ went trees.items) }
    ensures refused { IfErr result (λ e. OnRefused e (λ r.
        files.trees_from 0 (map seen_reading readings.items) ≡ refused r)) }
{
    let mut trees = Vec::new(alloc);
    let mut file = 0;
    for reading in readings {
        match reading {
            Reading::Tree(tree) => trees.push(tree)?,
            Reading::Broken(breach) => return Err(refused(breach.rule, file, breach.pos)),
        }
        file += 1;
    }
    Ok(trees)
}

/// The refusal of the first file whose module is named Out.
fn named_out(texts: &[Vec<u8>], trees: &[Module]) -> Option<CompileErr>
    requires same { length trees.now ≡ length texts.now }
    requires few { length trees.now ≤ 64 }
    ensures { result ≡ option_map
        (λ k. CompileErr.Refused (files.at_name (sources texts.now trees.now) NAMED_OUT k))
        (files.named_out (sources texts.now trees.now)) }
{
    for (file, tree) in trees.iter().enumerate() {
        if is_word(&texts[file], "Out", tree.name) {
            return Some(refused(NAMED_OUT, file, tree.name.pos));
        }
    }
    None
}

/// The order in which the modules of files are loaded, by their numbers in the order of the command; or the first of the
/// rules 8, 11, 9 and 10 that they break.
pub fn load_order(
    alloc: Global,
    texts: &[Vec<u8>],
    trees: &[Module],
) -> Result<Vec<usize>, CompileErr>
    requires same { length trees.now ≡ length texts.now }
    requires few { length trees.now ≤ 64 }
    ensures went { IfOk result (λ order.
        files.load_order (sources texts.now trees.now) ≡ went order.items) }
    ensures within { IfOk result (λ order. All (λ k. k < length trees.now) order.items) }
    ensures few { IfOk result (λ order. length order.items ≤ length trees.now) }
    ensures refused { IfErr result (λ e. OnRefused e (λ r.
        files.load_order (sources texts.now trees.now) ≡ refused r)) }
{
    let out = named_out(texts, trees);
    match order(alloc, trees, texts) {
        Ok(order) => {
            match out {
                Some(e) => Err(e),
                None => Ok(order),
            }
        },
        Err(OrderErr::Twice(_, file)) => Err(refused(GIVEN_TWICE, file, trees[file].name.pos)),
        Err(OrderErr::Absent(file, pos)) => Err(out.unwrap_or(refused(NOT_GIVEN, file, pos))),
        Err(OrderErr::Cycle(left)) => {
            let file = left[0];
            Err(out.unwrap_or(refused(IMPORT_CYCLE, file, trees[file].name.pos)))
        },
        Err(OrderErr::NoMemory) => Err(CompileErr::NoMemory),
    }
}

/// A file in which all object types have names: its text and its tree.
fn with_name(alloc: Global, text: &[u8], tree: Module) -> Result<(Vec<u8>, Module), AllocError>
    ensures text { IfOk result (λ r. r.0.items ≡ (unnamed.all_named text.now tree).0) }
    ensures tree { IfOk result (λ r. r.1 ≡ (unnamed.all_named text.now tree).1) }
{
    match all_named(alloc, text, tree) {
        Ok(named) => Ok(named),
        Err(NoMemory) => Err(AllocError),
    }
}

/// Files in which all object types have names: their texts and their trees.
pub fn with_names(
    alloc: Global,
    texts: &[Vec<u8>],
    trees: Vec<Module>,
) -> Result<(Vec<Vec<u8>>, Vec<Module>), AllocError>
    requires { length trees.items ≡ length texts.now }
    ensures each { IfOk result (λ r. sources r.0.items r.1.items ≡
        map files.named (sources texts.now trees.items)) }
    ensures first { IfOk result (λ r. length r.0.items ≡ length texts.now) }
    ensures second { IfOk result (λ r. length r.1.items ≡ length texts.now) }
{
    let mut named_texts = Vec::new(alloc);
    let mut named_trees = Vec::new(alloc);
    for own in trees {
        let file = named_trees.len();
        let (text, tree) = with_name(alloc, &texts[file], own)?;
        named_texts.push(text)?;
        named_trees.push(tree)?;
    }
    Ok((named_texts, named_trees))
}
