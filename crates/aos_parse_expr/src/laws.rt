// What holds of the grammar, with no code.

ghost use Rattle.std.specs.Prelude.{ℕ, List};
ghost use Rattle.aos_scan.specs.declared.token.Token.{Token};
ghost use Rattle.aos_tree.specs.ExprGrammar.{desig_at, expr_at};
ghost use Rattle.aos_parse_expr.specs.Outcomes.{ExcludeOneAnother};
ghost use Rattle.aos_parse_expr.specs.Unambiguous.{IsUnambiguous};

/// The grammar gives tokens at most one expression and at most one designator that read them up to one end, whatever comes
/// behind it.
pub fn unambiguous()
    ensures expressions { IsUnambiguous expr_at }
    ensures designators { IsUnambiguous desig_at }
{}

/// What `expr` can tell of tokens, their end or either error and its place, excludes all else that it could tell. So it
/// tells each exactly where it holds, but for `NoMemory`. The same holds of `desig`.
pub fn exclusive()
    ensures expressions { (d : ℕ) (ts : List Token) → ExcludeOneAnother (expr_at d) ts }
    ensures designators { (d : ℕ) (ts : List Token) → ExcludeOneAnother (desig_at d) ts }
{}
