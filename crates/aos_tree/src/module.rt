// Modules.

ghost use Rattle.std.specs.Prelude.{◌≡◌};

use crate::boxed::Boxed;
use crate::decl::Decl;
use crate::items::Items;
use crate::name::{Name, Text};
use crate::stat::Block;
use aos_base::Pos;

/// `Module = MODULE ident ";" [IMPORT Import {"," Import} ";"] {Decl} Body ident ".".` A body that is END alone is no
/// block. Beside its parts stand all strings of its text, in their order.
pub struct Module {
    pub pos: Pos,
    pub name: Name,
    pub imports: Items<Import>,
    pub decls: Items<Decl>,
    pub body: Option<Boxed<Block>>,
    pub end: Name,
    pub strings: Items<Text>,
}

impl Drop for Module {
    fn drop(self) {
        let Module {
            pos: _,
            name: _,
            imports,
            decls,
            body,
            end: _,
            strings,
        } = self;
        drop(imports);
        drop(decls);
        drop(body);
        drop(strings);
    }
}

impl Module {
    /// The module's declarations, and the module with these in their place.
    pub fn with_decls(self, decls: Items<Decl>) -> (Items<Decl>, Module)
        ensures own { result.0 ≡ self.decls }
        ensures rest { result.1 ≡ record self { decls = decls } }
    {
        let Module {
            pos,
            name,
            imports,
            decls: own,
            body,
            end,
            strings,
        } = self;
        let rest = Module {
            pos,
            name,
            imports,
            decls,
            body,
            end,
            strings,
        };
        (own, rest)
    }
}

/// `Import = ident [":=" ident].` Its place is that of its first name.
#[derive(Clone, Copy, PartialEq, Eq)]
pub struct Import {
    pub name: Name,
    pub of: Option<Name>,
}
