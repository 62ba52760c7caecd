// What holds of the grammar, with no code.

ghost use Rattle.std.specs.Prelude.{List};
ghost use Rattle.aos_scan.specs.declared.token.Token.{Token};
ghost use Rattle.aos_parse_mod.specs.Outcomes.{ExcludeOneAnother};
ghost use Rattle.aos_parse_mod.specs.Unambiguous.{HaveOneTree, IsUnambiguous};

/// The grammar of modules gives tokens at most one tree, and this one end.
pub fn unambiguous()
    ensures { IsUnambiguous }
{}

/// Tokens have at most one module's tree that reads them all: it may be called the tree.
pub fn one_tree()
    ensures { HaveOneTree }
{}

/// What `module` can tell of a text excludes all else that it could tell. So it tells each exactly where it holds, but for
/// `NoMemory`.
pub fn exclusive()
    ensures { (ts : List Token) → ExcludeOneAnother ts }
{}
