//! Rules on statements, and on calls as statements, by what is known of their parts: what they take, what breaks a rule, and what they are
//! in the typed program.
#![tactic(auto)]

mod assignments;
mod blocks;
mod called;
mod changes;
mod labels;
mod loops;
mod modifiers;
mod news;
mod refusals;
mod withs;

pub use assignments::{assigned_stat, copied, refuse_unfit};
pub use blocks::{enter_block, exit_of, gives_here, leave_block, put};
pub use called::{before_last, called_entity, is_value_called, line_call, open_call};
pub use changes::{changing, code_in, is_amount, is_changed_set, is_code, refuse_changed};
pub use labels::{Labels, is_label, range_of};
pub use loops::{control, refuse_step, step_in};
pub use modifiers::{are_exclusive, level_in, refuse_here, refuse_level, refuse_modifiers};
pub use news::{
    initializer_of, is_no_variable, made_type, makes_object, may_be_length, refuse_count,
    refuse_new,
};
pub use refusals::{
    arguments, behind_arguments, goes_on, is_selected, is_selected_behind, not_yet, refuse_behind,
    refused,
};
pub use withs::{enter_with, guarded_variable, leave_with, with_stat};
