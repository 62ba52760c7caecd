// Numbers that several may have, and that stand once.

ghost use Rattle.std.specs.Prelude.{◌≡◌, IfOk};

use std::alloc::{AllocError, Global};
use std::marker::Model;
use std::sync::Arc;

/// A list of numbers that isn't copied where another has the same one.
#[derive(Drop)]
pub struct Shared {
    numbers: Arc<Vec<u32>>,
}

impl Model for Shared {
    ghost use Rattle.std.specs.Prelude.{ℕ, List};
    ghost use Rattle.std.specs.Arc.{arc_value};

    ghost Value = { List ℕ };

    ghost view = { λ s. (arc_value s.numbers).items };
}

impl Shared {
    /// These numbers.
    pub fn new(alloc: Global, list: Vec<u32>) -> Result<Shared, AllocError>
        ensures { IfOk result (λ shared. shared ≡ list.items) }
    {
        let numbers = Arc::new(alloc, list)?;
        Ok(Shared { numbers })
    }

    /// The same numbers once more.
    pub fn again(&self) -> Result<Shared, AllocError>
        ensures { IfOk result (λ shared. shared ≡ self.now) }
    {
        let numbers = self.numbers.clone()?;
        Ok(Shared { numbers })
    }

    /// The numbers in order.
    pub fn as_slice(&self) -> &[u32]
        ensures { result.now ≡ self.now }
    {
        self.numbers.as_slice()
    }
}
