//! The lines of commands. Where memory runs out, a part of them may stand.
ghost use Rattle.std.specs.Prelude.{◌≡◌, ◌++◌, map, OnOk};
ghost use Rattle.np_script_grammar.specs.Rows.{command_line};
ghost use Rattle.np_script_print.specs.Printed.{Grew, line_text, whole_line, lines_text};

use crate::rows::{
    alone, with_arguments, with_attributes, with_key_arguments, with_number, with_number_text,
    with_operand, with_operand_key, with_operand_key_operand, with_register, with_register_number,
    with_register_number_text, with_register_operand, with_register_operand_key,
};
use np_script_grammar::Command;
use np_values::NoMemory;

/// Appends the line of a command, without its end. Its fields are named as in `rows`.
fn push_command(out: &mut Vec<u8>, command: &Command) -> Result<(), NoMemory>
    ensures ok { OnOk result (out.new.items ≡ out.old.items ++ line_text (command_line command.now)) }
    ensures begins { Grew out.old.items out.new.items }
{
    match command {
        Command::Create {
            mime,
            mode,
            attributes,
        } => with_attributes(out, "create", mime, *mode, attributes),
        Command::Destroy(n) => with_number(out, "destroy", u32::from(*n)),
        Command::Scriptable(r, n) => with_register_number(out, "scriptable", *r, u32::from(*n)),
        Command::New(r, n, class) => with_register_number_text(
            out,
            "new",
            *r,
            u32::from(*n),
            class,
        ),
        Command::Set(r, v) => with_register_operand(out, "set", *r, v),
        Command::Drop(r) => with_register(out, "drop", *r),
        Command::Invoke(r, v, id, vs) => with_key_arguments(out, "invoke", *r, v, id, vs),
        Command::CallDefault(r, v, vs) => with_arguments(out, "calldef", *r, v, vs),
        Command::Construct(r, v, vs) => with_arguments(out, "construct", *r, v, vs),
        Command::Get(r, v, id) => with_register_operand_key(out, "get", *r, v, id),
        Command::Put(v, id, w) => with_operand_key_operand(out, "put", v, id, w),
        Command::Remove(v, id) => with_operand_key(out, "remove", v, id),
        Command::HasMethod(v, id) => with_operand_key(out, "hasm", v, id),
        Command::HasProperty(v, id) => with_operand_key(out, "hasp", v, id),
        Command::Enumerate(r, v) => with_register_operand(out, "enum", *r, v),
        Command::Note(v) => with_operand(out, "note", v),
        Command::Turn => alone(out, "turn"),
        Command::OpenStream(n, url) => with_number_text(out, "open", u32::from(*n), url),
        Command::Pump(n) => with_number(out, "pump", *n),
    }
}

fn push_command_line(out: &mut Vec<u8>, command: &Command) -> Result<(), NoMemory>
    ensures ok { OnOk result (out.new.items ≡ out.old.items ++ whole_line (command_line command.now)) }
    ensures begins { Grew out.old.items out.new.items }
{
    push_command(out, command)?;
    out.push(b'\n')?;
    Ok(())
}

/// Appends the lines of commands.
pub fn push_commands(out: &mut Vec<u8>, commands: &[Command]) -> Result<(), NoMemory>
    ensures ok { OnOk result (out.new.items ≡ out.old.items ++ lines_text (map command_line commands.now)) }
    ensures begins { Grew out.old.items out.new.items }
{
    for command in commands {
        push_command_line(out, command)?;
    }
    Ok(())
}
