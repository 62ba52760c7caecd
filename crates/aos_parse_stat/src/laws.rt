// What holds of the grammar, with no code.

ghost use Rattle.std.specs.Prelude.{ℕ, List};
ghost use Rattle.aos_scan.specs.declared.token.Token.{Token};
ghost use Rattle.aos_parse_stat.specs.Grammar.{block_at};
ghost use Rattle.aos_parse_expr.specs.Outcomes.{ExcludeOneAnother};
ghost use Rattle.aos_parse_stat.specs.Unambiguous.{IsUnambiguous};

/// The grammar of blocks gives tokens at most one tree, and this one end.
pub fn unambiguous()
    ensures { IsUnambiguous }
{}

/// What `block` can tell of tokens, their end or either error and its place, excludes all else that it could tell. So it
/// tells each exactly where it holds, but for `NoMemory`.
pub fn exclusive()
    ensures { (d : ℕ) (ts : List Token) → ExcludeOneAnother (block_at d) ts }
{}
