//! What stands in one line of a script: its words, what they say, and how that is printed.
#![tactic(auto)]

mod error;
mod field;
mod fields;
mod form;
mod laws;
mod line;
mod number;
mod print;
mod quoted;
mod table;
mod text;
mod value;

pub use error::FieldError;
pub use field::read_field;
pub use fields::read_fields;
pub use form::Form;
pub use laws::{
    fields_are_decided, one_field, one_line, one_reading, one_word, plain_word, spaced_line,
    spaced_words,
};
pub use line::{is_plain_line, next_word};
pub use np_script_grammar::Fields;
pub use number::{read_int, read_number, read_register};
pub use print::{
    push_field, push_handler, push_key, push_mode, push_operand, push_register, push_value,
};
pub use table::form_at;
pub use text::{read_key, read_text};
pub use value::read_operand;
