//! The form of a line.

use np_script_grammar::Item;

/// What stands after the first word of a line: these items, and after them a group of items that is
/// repeated, at least and at most so often.
#[derive(Clone, Copy)]
pub struct Form {
    pub items: &'static [Item],
    pub group: &'static [Item],
    pub least: u8,
    pub most: u8,
}
