//! Bodies and members of classes. Where memory runs out, a part of their lines may stand.
ghost use Rattle.std.specs.Prelude.{◌≡◌, ◌++◌, ◌∷◌, [], map, codes, OnOk};
ghost use Rattle.std.specs.List.{flat_map};
ghost use Rattle.np_script_grammar.specs.Rows.{action_line};
ghost use Rattle.np_script_grammar.specs.Scripts.{alone as alone_line, member_opening, member_body as body_of_member, member_lines};
ghost use Rattle.np_script_print.specs.Printed.{Grew, line_text, whole_line, lines_text};

use crate::actions::push_actions;
use crate::rows::{alone, with_key};
use np_script_grammar::{Action, Member};
use np_values::NoMemory;

/// Appends the line of a word alone.
pub fn push_alone_line(out: &mut Vec<u8>, word: &str) -> Result<(), NoMemory>
    ensures ok { OnOk result (out.new.items ≡ out.old.items ++ whole_line (alone_line word.now)) }
    ensures begins { Grew out.old.items out.new.items }
{
    alone(out, word)?;
    out.push(b'\n')?;
    Ok(())
}

/// Appends the actions of a body, and its end.
pub fn push_body(out: &mut Vec<u8>, body: &[Action]) -> Result<(), NoMemory>
    ensures ok { OnOk result (out.new.items ≡ out.old.items ++ lines_text (map action_line body.now ++ alone_line (codes "end") ∷ [])) }
    ensures begins { Grew out.old.items out.new.items }
{
    push_actions(out, body)?;
    push_alone_line(out, "end")
}

/// Appends the line that opens a member, without its end.
fn push_opening(out: &mut Vec<u8>, member: &Member) -> Result<(), NoMemory>
    ensures ok { OnOk result (out.new.items ≡ out.old.items ++ line_text (member_opening member.now)) }
    ensures begins { Grew out.old.items out.new.items }
{
    match member {
        Member::Method(key, _) => with_key(out, "method", key),
        Member::Default(_) => alone(out, "default"),
        Member::Construct(_) => alone(out, "construct"),
        Member::Getter(key, _) => with_key(out, "getter", key),
        Member::Setter(key, _) => with_key(out, "setter", key),
    }
}

/// What a member does.
fn member_body(member: &Member) -> &[Action]
    ensures value { result.now ≡ body_of_member member.now }
{
    match member {
        Member::Method(_, body) => body.as_slice(),
        Member::Default(body) => body.as_slice(),
        Member::Construct(body) => body.as_slice(),
        Member::Getter(_, body) => body.as_slice(),
        Member::Setter(_, body) => body.as_slice(),
    }
}

/// Appends a member.
fn push_member(out: &mut Vec<u8>, member: &Member) -> Result<(), NoMemory>
    ensures ok { OnOk result (out.new.items ≡ out.old.items ++ lines_text (member_lines member.now)) }
    ensures begins { Grew out.old.items out.new.items }
{
    push_opening(out, member)?;
    out.push(b'\n')?;
    push_body(out, member_body(member))
}

/// Appends members.
pub fn push_members(out: &mut Vec<u8>, members: &[Member]) -> Result<(), NoMemory>
    ensures ok { OnOk result (out.new.items ≡ out.old.items ++ lines_text (flat_map member_lines members.now)) }
    ensures begins { Grew out.old.items out.new.items }
{
    for member in members {
        push_member(out, member)?;
    }
    Ok(())
}
