//! Rules on the arguments of calls, by what is known of them: which argument a parameter takes, what it is in the typed program, which
//! string constants are handed over with 0X behind them, and the values of predeclared functions by their arguments.
#![tactic(auto)]

mod arguments;
mod filled;
mod functions;

pub use arguments::{Handing, hand, nothing_handed};
pub use filled::{longest, named_texts};
pub use functions::{
    Limit, Taking, function_value, limit_meant, step_in, value_of_one, value_of_two,
};
