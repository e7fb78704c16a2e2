//! The parts of plans in code: the steps of operands, assignments, results, actions that make no call, and calls that the runtime answers itself.
#![tactic(auto)]

mod actions;
mod calls;
mod objects;
mod operands;
mod results;
mod values;

pub use actions::{class_place, plain_action, skip};
pub use calls::{may_set, stored_call};
pub use objects::{
    class_at, class_of, has_property, property_count, property_keys, property_value,
};
pub use operands::{Registers, assign, assign_code, assign_void, operand_step, operand_steps};
pub use results::{CallResult, continue_steps, hand_over, reply_draft, result_steps};
pub use values::{int_sum, operand_value, same_value};
