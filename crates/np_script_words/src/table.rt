//! Which words may stand first in a line at each place of a script, and what stands after them.
ghost use Rattle.std.specs.Prelude.{◌≡◌, ◌++◌, map, option_map};
ghost use Rattle.np_script_grammar.specs.Forms.{form_of};
ghost use Rattle.np_script_grammar.specs.Tables.{head_table, top_table, class_table, call_table, shared_action_table, own_action_table, body_table, command_table, table_at};
ghost use Rattle.np_script_words.specs.Forms.{form_value, row_value};

use crate::Form;
use np_script_grammar::Item::{
    HandlerWord, Identifier, Integer, Mode, Number, Operand, Register, Text,
};
use np_script_grammar::Place;
use np_values::Side;

/// A word that may stand first in a line, and the line's form.
#[derive(Clone, Copy)]
struct Row {
    word: &'static str,
    form: Form,
}

/// A row of a word and its items, and maybe of a group that is repeated, at least and at most so often.
macro_rules! row {
    ($word:literal, [$($item:expr),*]) => {
        row!($word, [$($item),*], [], 0, 0)
    };
    ($word:literal, [$($item:expr),*], [$($group:expr),*], $least:literal, $most:literal) => {
        Row {
            word: $word,
            form: Form {
                items: &[$($item),*],
                group: &[$($group),*],
                least: $least,
                most: $most,
            },
        }
    };
}

// The tables are statics: a constant that refers to others is built anew wherever it is used.

/// The major and the minor number of a version.
static PAGE_HEAD_ROWS: [Row; 1] = [row!("page", [Number(0, 255), Number(0, 255)])];

/// The major and the minor number of a version.
static PLUG_HEAD_ROWS: [Row; 1] = [row!("plugin", [Number(0, 255), Number(0, 255)])];

/// A class has a name and a structure version; a resource its URL, its MIME type, how often its piece comes, and the piece.
static PAGE_TOP_ROWS: [Row; 3] = [
    row!("class", [Text, Number(1, 3)]),
    row!("resource", [Text, Text, Number(0, 16777216), Text]),
    row!("do", []),
];

/// A class has a name and a structure version.
static PLUG_TOP_ROWS: [Row; 3] = [
    row!("class", [Text, Number(1, 3)]),
    row!("handler", [HandlerWord]),
    row!("task", [Text]),
];

/// The members of a class.
static CLASS_ROWS: [Row; 7] = [
    row!("data", []),
    row!("method", [Identifier]),
    row!("default", []),
    row!("construct", []),
    row!("getter", [Identifier]),
    row!("setter", [Identifier]),
    row!("endclass", []),
];

/// What is an action and a command alike.
static CALL_ROWS: [Row; 12] = [
    row!("set", [Register, Operand]),
    row!("drop", [Register]),
    row!("invoke", [Register, Operand, Identifier], [Operand], 0, 8),
    row!("calldef", [Register, Operand], [Operand], 0, 8),
    row!("construct", [Register, Operand], [Operand], 0, 8),
    row!("get", [Register, Operand, Identifier]),
    row!("put", [Operand, Identifier, Operand]),
    row!("remove", [Operand, Identifier]),
    row!("hasm", [Operand, Identifier]),
    row!("hasp", [Operand, Identifier]),
    row!("enum", [Register, Operand]),
    row!("note", [Operand]),
];

/// The actions of both sides beside those.
static SHARED_ACTION_ROWS: [Row; 11] = [
    row!("add", [Register, Operand, Operand]),
    row!("fail", []),
    row!("return", [Operand]),
    row!("throw", [Text]),
    row!("new", [Register, Text]),
    row!("slot", [Number(0, 7), Operand]),
    row!("load", [Register, Number(0, 7)]),
    row!("self", [Register]),
    row!("ontrue", [Number(1, 255)]),
    row!("onfalse", [Number(1, 255)]),
    row!("oneq", [Operand, Operand, Number(1, 255)]),
];

/// The actions of a page alone.
static PAGE_ACTION_ROWS: [Row; 1] = [row!("destroy", [Register, Number(1, 255)])];

/// The actions of a plug-in alone.
static PLUG_ACTION_ROWS: [Row; 6] = [
    row!("window", [Register]),
    row!("geturl", [Register, Operand, Integer]),
    row!(
        "reqread",
        [Register, Operand],
        [Integer, Number(0, 4294967295)],
        1,
        4
    ),
    row!("endstream", [Register, Operand, Number(0, 2)]),
    row!("later", [Text]),
    row!("exit", [Number(0, 63)]),
];

/// The commands that are no actions.
static COMMAND_ROWS: [Row; 7] = [
    row!("create", [Text, Mode], [Text, Text], 0, 3),
    row!("destroy", [Number(1, 255)]),
    row!("scriptable", [Register, Number(1, 255)]),
    row!("new", [Register, Number(1, 255), Text]),
    row!("turn", []),
    row!("open", [Number(1, 255), Text]),
    row!("pump", [Number(1, 100000)]),
];

const END: Form = Form {
    items: &[],
    group: &[],
    least: 0,
    most: 0,
};

/// The form that the first row of this word gives.
fn form_among(rows: &[Row], word: &[u8]) -> Option<Form>
    ensures value { option_map form_value result ≡ form_of (map row_value rows.now) word.now }
{
    for row in rows {
        if word == row.word.as_bytes() {
            return Some(row.form);
        }
    }
    None
}

fn head_form(side: Side, word: &[u8]) -> Option<Form>
    ensures value { option_map form_value result ≡ form_of (head_table side) word.now }
{
    match side {
        Side::Page => form_among(&PAGE_HEAD_ROWS, word),
        Side::Plug => form_among(&PLUG_HEAD_ROWS, word),
    }
}

fn top_form(side: Side, word: &[u8]) -> Option<Form>
    ensures value { option_map form_value result ≡ form_of (top_table side) word.now }
{
    match side {
        Side::Page => form_among(&PAGE_TOP_ROWS, word),
        Side::Plug => form_among(&PLUG_TOP_ROWS, word),
    }
}

fn class_form(word: &[u8]) -> Option<Form>
    ensures value { option_map form_value result ≡ form_of class_table word.now }
{
    form_among(&CLASS_ROWS, word)
}

fn call_form(word: &[u8]) -> Option<Form>
    ensures value { option_map form_value result ≡ form_of call_table word.now }
{
    form_among(&CALL_ROWS, word)
}

/// The form of an action that is no command.
fn own_action_form(side: Side, word: &[u8]) -> Option<Form>
    ensures value { option_map form_value result ≡ form_of (shared_action_table ++ own_action_table side) word.now }
{
    if let Some(form) = form_among(&SHARED_ACTION_ROWS, word) {
        return Some(form);
    }
    match side {
        Side::Page => form_among(&PAGE_ACTION_ROWS, word),
        Side::Plug => form_among(&PLUG_ACTION_ROWS, word),
    }
}

fn body_form(side: Side, word: &[u8]) -> Option<Form>
    ensures value { option_map form_value result ≡ form_of (body_table side) word.now }
{
    if word == b"end".as_slice() {
        return Some(END);
    }
    if let Some(form) = call_form(word) {
        return Some(form);
    }
    own_action_form(side, word)
}

fn command_form(word: &[u8]) -> Option<Form>
    ensures value { option_map form_value result ≡ form_of command_table word.now }
{
    if let Some(form) = call_form(word) {
        return Some(form);
    }
    form_among(&COMMAND_ROWS, word)
}

/// The form of a line with this first word, at a place of a page's script or a plug-in's; `None` where the
/// word may not stand there.
pub fn form_at(side: Side, place: Place, word: &[u8]) -> Option<Form>
    ensures value { option_map form_value result ≡ form_of (table_at side place) word.now }
{
    match place {
        Place::Head => head_form(side, word),
        Place::Top => top_form(side, word),
        Place::Class => class_form(word),
        Place::MemberBody | Place::Body => body_form(side, word),
        Place::Commands => command_form(word),
    }
}
