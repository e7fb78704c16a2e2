//! All lines of a script.
ghost use Rattle.std.specs.Prelude.{◌≡◌, ◌≤◌, length, true, false};
ghost use Rattle.np_script_grammar.specs.Order.{at_first};
ghost use Rattle.np_script_line_laws.specs.Laws.{last_place};
ghost use Rattle.np_script_builder.specs.Building.{at_start};
ghost use Rattle.np_script.specs.Parsing.{IsFresh, ReadsAll, ReadsScript};

use crate::ParseError;
use crate::lines::first_line;
use crate::read::{LineError, read_line};
use np_script_builder::Builder;
use np_script_grammar::{Place, ScriptError, ScriptKind};
use np_script_order::Order;
use np_script_text_laws::{one_say, refused_lines_end, texts_can_be_completed};
use np_values::Side;
use std::alloc::Global;

/// The most bytes of a script.
const MAX_SCRIPT_BYTES: usize = 1_048_576;

/// How far a script was read: where it stands, what its lines said, and how many lines there were.
#[derive(Drop)]
pub struct Reader {
    order: Order,
    pub builder: Builder,
    lines: u32,
}

impl Reader {
    /// Before the first line. It takes no memory yet.
    pub fn new(alloc: Global) -> Reader
        ensures fresh { IsFresh result }
    {
        Reader {
            order: Order::new(alloc),
            builder: Builder::new(alloc),
            lines: 0,
        }
    }
}

/// Reads all lines.
fn read_lines(
    alloc: Global,
    side: Side,
    bytes: &[u8],
    reader: &mut Reader,
) -> Result<(), ParseError>
    requires few { length bytes.now ≤ 1048576 }
    requires fresh { IsFresh reader.old }
    ensures all { ReadsAll side bytes.now reader.new result }
{
    np_script_builder::built_pages();
    np_script_builder::built_plugins();
    np_script_builder::built_goes_on();
    np_script_builder::lines_in_order_are_built();
    refused_lines_end();
    texts_can_be_completed();
    let mut left = bytes;
    while !left.is_empty() {
        let (line, rest) = first_line(left);
        reader.lines += 1;
        match read_line(alloc, side, &mut reader.order, &mut reader.builder, line) {
            Ok(()) => {}
            Err(LineError::Refused(kind)) => {
                return Err(ParseError::Script(ScriptError {
                    line: reader.lines,
                    kind,
                }));
            }
            Err(LineError::NoMemory) => return Err(ParseError::NoMemory),
        }
        left = rest;
    }
    Ok(())
}

/// Whether a script of this side may end at a place.
fn may_end(side: Side, place: Place) -> bool
    ensures yes { result ≡ true → place ≡ last_place side }
    ensures no { result ≡ false → place ≡ last_place side → ⊥ }
{
    match side {
        Side::Page => place == Place::Commands,
        Side::Plug => place == Place::Top,
    }
}

/// Reads a whole script.
pub fn read_script(
    alloc: Global,
    side: Side,
    bytes: &[u8],
    reader: &mut Reader,
) -> Result<(), ParseError>
    requires fresh { IsFresh reader.old }
    ensures script { ReadsScript side bytes.now reader.new result }
{
    np_script_builder::built_pages();
    np_script_builder::built_plugins();
    np_script_builder::lines_in_order_are_built();
    np_script_builder::pages_are_built();
    np_script_builder::plugins_are_built();
    texts_can_be_completed();
    one_say();
    if bytes.len() > MAX_SCRIPT_BYTES {
        return Err(ParseError::Script(ScriptError {
            line: 0,
            kind: ScriptKind::Size,
        }));
    }
    match read_lines(alloc, side, bytes, reader) {
        Ok(()) => {}
        Err(error) => return Err(error),
    }
    if !may_end(side, reader.order.place()) {
        return Err(ParseError::Script(ScriptError {
            line: reader.lines + 1,
            kind: ScriptKind::End,
        }));
    }
    Ok(())
}
