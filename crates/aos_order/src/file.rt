// What is read of a file: the name of its module, and the modules that it imports.

ghost use Rattle.std.specs.Prelude.{◌≡◌};
ghost use Rattle.aos_order.specs.Files as files;

use aos_tree::{Import, Module, Name};

/// The name of the imported module.
pub fn imported(import: &Import) -> Name
    ensures { result ≡ files.imported import.now }
{
    import.of.unwrap_or(import.name)
}

/// The imports of a module, in the order of its text.
pub fn imports_of(tree: &Module) -> &[Import]
    ensures { result.now ≡ tree.now.imports }
{
    tree.imports.as_slice()
}
