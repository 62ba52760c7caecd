// How soon an activity goes.

ghost use Rattle.std.specs.Prelude.{◌≡◌};
ghost use Rattle.aos_base.specs.Priority.{number_of, with_number};

/// An activity's priority. Those of a higher one go first.
#[derive(Clone, Copy)]
pub enum Priority {
    Low,
    Normal,
    High,
}

impl Priority {
    /// Its number: 1 for the lowest, 3 for the highest.
    pub fn number(self) -> u8
        ensures { result ≡ number_of self }
    {
        match self {
            Priority::Low => 1,
            Priority::Normal => 2,
            Priority::High => 3,
        }
    }

    /// The priority with a number, or None where there is none.
    pub fn with_number(number: u32) -> Option<Priority>
        ensures { result ≡ with_number number }
    {
        if number == 1 {
            Some(Priority::Low)
        } else if number == 2 {
            Some(Priority::Normal)
        } else if number == 3 {
            Some(Priority::High)
        } else {
            None
        }
    }
}
