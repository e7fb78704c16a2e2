//! The lines of actions. Where memory runs out, a part of them may stand.
ghost use Rattle.std.specs.Prelude.{◌≡◌, ◌++◌, map, OnOk};
ghost use Rattle.np_script_grammar.specs.Rows.{action_line};
ghost use Rattle.np_script_print.specs.Printed.{Grew, line_text, whole_line, lines_text};

use crate::rows::{
    alone, with_arguments, with_key_arguments, with_number, with_number_operand, with_operand,
    with_operand_key, with_operand_key_operand, with_operand_operand_number, with_ranges,
    with_reason, with_register, with_register_number, with_register_operand,
    with_register_operand_integer, with_register_operand_key, with_register_operand_operand,
    with_register_text, with_text,
};
use np_script_grammar::Action;
use np_values::NoMemory;

/// Appends the line of an action, without its end. Its fields are named as in `rows`.
fn push_action(out: &mut Vec<u8>, action: &Action) -> Result<(), NoMemory>
    ensures ok { OnOk result (out.new.items ≡ out.old.items ++ line_text (action_line action.now)) }
    ensures begins { Grew out.old.items out.new.items }
{
    match action {
        Action::Set(r, v) => with_register_operand(out, "set", *r, v),
        Action::Add(r, v, w) => with_register_operand_operand(out, "add", *r, v, w),
        Action::Fail => alone(out, "fail"),
        Action::Return(v) => with_operand(out, "return", v),
        Action::Throw(text) => with_text(out, "throw", text),
        Action::New(r, class) => with_register_text(out, "new", *r, class),
        Action::Drop(r) => with_register(out, "drop", *r),
        Action::Slot(n, v) => with_number_operand(out, "slot", u32::from(*n), v),
        Action::Load(r, n) => with_register_number(out, "load", *r, u32::from(*n)),
        Action::SelfTo(r) => with_register(out, "self", *r),
        Action::Invoke(r, v, id, vs) => with_key_arguments(out, "invoke", *r, v, id, vs),
        Action::CallDefault(r, v, vs) => with_arguments(out, "calldef", *r, v, vs),
        Action::Construct(r, v, vs) => with_arguments(out, "construct", *r, v, vs),
        Action::Get(r, v, id) => with_register_operand_key(out, "get", *r, v, id),
        Action::Put(v, id, w) => with_operand_key_operand(out, "put", v, id, w),
        Action::Remove(v, id) => with_operand_key(out, "remove", v, id),
        Action::HasMethod(v, id) => with_operand_key(out, "hasm", v, id),
        Action::HasProperty(v, id) => with_operand_key(out, "hasp", v, id),
        Action::Enumerate(r, v) => with_register_operand(out, "enum", *r, v),
        Action::Window(r) => with_register(out, "window", *r),
        Action::GetUrl(r, v, n) => with_register_operand_integer(out, "geturl", *r, v, *n),
        Action::RequestRead(r, v, ranges) => with_ranges(out, "reqread", *r, v, ranges),
        Action::EndStream(r, v, reason) => with_reason(out, "endstream", *r, v, *reason),
        Action::Later(task) => with_text(out, "later", task),
        Action::Note(v) => with_operand(out, "note", v),
        Action::Destroy(r, n) => with_register_number(out, "destroy", *r, u32::from(*n)),
        Action::OnTrue(n) => with_number(out, "ontrue", u32::from(*n)),
        Action::OnFalse(n) => with_number(out, "onfalse", u32::from(*n)),
        Action::OnEq(v, w, n) => with_operand_operand_number(out, "oneq", v, w, u32::from(*n)),
        Action::Exit(n) => with_number(out, "exit", u32::from(*n)),
    }
}

fn push_action_line(out: &mut Vec<u8>, action: &Action) -> Result<(), NoMemory>
    ensures ok { OnOk result (out.new.items ≡ out.old.items ++ whole_line (action_line action.now)) }
    ensures begins { Grew out.old.items out.new.items }
{
    push_action(out, action)?;
    out.push(b'\n')?;
    Ok(())
}

/// Appends the lines of actions.
pub fn push_actions(out: &mut Vec<u8>, actions: &[Action]) -> Result<(), NoMemory>
    ensures ok { OnOk result (out.new.items ≡ out.old.items ++ lines_text (map action_line actions.now)) }
    ensures begins { Grew out.old.items out.new.items }
{
    for action in actions {
        push_action_line(out, action)?;
    }
    Ok(())
}
