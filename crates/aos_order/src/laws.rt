// Laws of the load order.

ghost use Rattle.std.specs.Prelude.{◌≡◌, ℕ, List};
ghost use Rattle.aos_order.specs.Files.{File};
ghost use Rattle.aos_order.specs.Order.{Cycle, Order, answer};
ghost use Rattle.aos_order.specs.Laws.{IsKnot, IsLoadOrder};

/// Each file is in a load order once, behind all that its module imports.
pub fn law_of_order()
    ensures { (all : List File) (order : List ℕ) → answer all ≡ Order order →
        IsLoadOrder all order }
{}

/// Each of the files that can't be placed imports the module of one of them.
pub fn law_of_cycle()
    ensures { (all : List File) (left : List ℕ) → answer all ≡ Cycle left → IsKnot all left }
{}
