// The names that the lines tell.

ghost use Rattle.std.specs.Prelude.{◌≡◌, IfOk};
ghost use Rattle.aos_words.specs.Words.{borrowed};
ghost use Rattle.aos.specs.Shown.{module_names};

use aos_code::ModuleDesc;
use std::alloc::{AllocError, Global};

/// The names of these modules, in their order.
pub fn names_of(alloc: Global, modules: &[ModuleDesc]) -> Result<Vec<&str>, AllocError>
    ensures { IfOk result (λ names. borrowed names.items ≡ module_names modules.now) }
{
    let mut names = Vec::new(alloc);
    for module in modules {
        names.push(module.name.as_str())?;
    }
    Ok(names)
}
