// Modules.

ghost use Rattle.std.specs.Prelude.{◌≡◌, IfOk};
ghost use Rattle.aos_unnamed.specs.Unnamed as rules;

use crate::added::Added;
use crate::decls::in_decls;
use aos_base::NoMemory;
use aos_tree::{Decl, Items, Module};
use std::alloc::Global;

/// A module in which all object types have names, and its text with those behind it that are given.
pub fn all_named(alloc: Global, text: &[u8], tree: Module) -> Result<(Vec<u8>, Module), NoMemory>
    ensures text { IfOk result (λ r. r.0.items ≡ (rules.all_named text.now tree).0) }
    ensures tree { IfOk result (λ r. r.1 ≡ (rules.all_named text.now tree).1) }
{
    let mut added = Added {
        text: Items::from_vec(text.to_vec(alloc)?),
        defs: Items::new(alloc),
    };
    let pos = tree.pos;
    let (own, rest) = tree.with_decls(Items::new(alloc));
    let mut decls = in_decls(alloc, &mut added, own)?;
    let Added { text: bytes, defs } = added;
    decls.push(Decl::Types(pos, defs))?;
    let (_, named) = rest.with_decls(decls);
    Ok((bytes.into_vec(), named))
}
