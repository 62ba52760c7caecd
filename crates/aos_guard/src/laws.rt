// Laws of the definitions.

ghost use Rattle.aos_typed.specs.Program.{Program};
ghost use Rattle.aos_uses.specs.Guarded.{AreQuiet, IsQuiet};

/// All quiet initializers together keep the rules on such a set: it is the largest one.
pub fn law_of_quiet()
    ensures { (p : Program) → AreQuiet p (IsQuiet p) }
{}
