// The names of modules, and the files that imports name.

ghost use Rattle.std.specs.Prelude.{◌≡◌, None, length, map, option_map, IfOk, IfErr, filter_map};
ghost use Rattle.aos_order.specs.Files.{file, files, words};
ghost use Rattle.aos_order.specs.Order as order;
ghost use Rattle.aos_order.specs.Order.{
  IsRefused,
  absence,
  absent,
  first_absent,
  needed,
  twice,
};

use crate::file::{imported, imports_of};
use crate::order_err::OrderErr;
use aos_symbols::word;
use aos_tree::Module;
use indexmap::IndexSet;
use std::alloc::Global;

/// The names of modules, each once, in the order of the command.
pub fn module_names<'a>(
    alloc: Global,
    modules: &[Module],
    texts: &'a [Vec<u8>],
) -> Result<IndexSet<&'a [u8]>, OrderErr>
    requires { length modules.now ≡ length texts.now }
    ensures names { IfOk result (λ names. words names.keys
        ≡ order.names (files modules.now texts.now)) }
    ensures once { IfOk result (λ _. twice (order.names (files modules.now texts.now)) ≡ None) }
    ensures again { IfErr result
        (IsRefused (twice (order.names (files modules.now texts.now))) None) }
{
    let mut names = IndexSet::new(alloc);
    for (file, tree) in modules.iter().enumerate() {
        let (first, is_new) = names.insert_full(word(&texts[file], tree.name))?;
        if !is_new {
            return Err(OrderErr::Twice(first, file));
        }
    }
    Ok(names)
}

/// The files that the imports of one file need.
fn file_needs(
    alloc: Global,
    names: &IndexSet<&[u8]>,
    number: usize,
    text: &[u8],
    tree: &Module,
) -> Result<Vec<usize>, OrderErr>
    ensures given { IfOk result
        (λ _. first_absent (words names.now.keys) (file text.now tree.now) ≡ None) }
    ensures needs { IfOk result (λ needs. needs.items
        ≡ filter_map (needed (words names.now.keys)) (file text.now tree.now).imports) }
    ensures absent { IfErr result (IsRefused None (option_map (absence number)
        (first_absent (words names.now.keys) (file text.now tree.now)))) }
{
    let mut needs = Vec::new(alloc);
    for import in imports_of(tree) {
        let name = imported(import);
        let word = word(text, name);
        if "Out".as_bytes() == word {
            continue;
        }
        let Some(file) = names.get_index_of(word) else {
            return Err(OrderErr::Absent(number, name.pos));
        };
        needs.push(file)?;
    }
    Ok(needs)
}

/// The files that the imports of each file need.
pub fn needs_of(
    alloc: Global,
    names: &IndexSet<&[u8]>,
    modules: &[Module],
    texts: &[Vec<u8>],
) -> Result<Vec<Vec<usize>>, OrderErr>
    requires texts { length modules.now ≡ length texts.now }
    requires names { words names.now.keys ≡ order.names (files modules.now texts.now) }
    ensures given { IfOk result (λ _. absent (files modules.now texts.now) ≡ None) }
    ensures needs { IfOk result (λ needs. map (λ v. v.items) needs.items
        ≡ order.needs (files modules.now texts.now)) }
    ensures absent { IfErr result (IsRefused None (absent (files modules.now texts.now))) }
{
    let mut needs = Vec::new(alloc);
    for (number, tree) in modules.iter().enumerate() {
        needs.push(file_needs(alloc, names, number, &texts[number], tree)?)?;
    }
    Ok(needs)
}
