ghost use Rattle.std.specs.Prelude.{◌≡◌, position};
ghost use Rattle.np_class.specs.Classes.{asks_for, body_or, kept, entry as entry_of, IsEntry};

use np_idents::Op;
use np_script_grammar::{ClassDef, Member};

/// What a class has for an operation. (npruntime.h, NPClass.)
#[derive(Clone, Copy, Debug, PartialEq, Eq)]
pub enum Found {
    /// The body of the member at this place of the class, counted from 0.
    Body(usize),
    /// No body: the runtime itself answers, from the class and from the properties that the object keeps.
    Stored,
    /// Neither: the operation answers false.
    Absent,
}

/// What a class has for an operation. It looks at each member at most once.
/// (npruntime.h, NPClass: `construct` is a member from structure version 3 on.)
#[tactic(auto, using(crate::proofs::Table::row_of))]
pub fn entry(class: &ClassDef, op: &Op) -> Found
    ensures value { result ≡ entry_of class.now op.now }
    ensures row { IsEntry class.now op.now result }
{
    let place = place_of(op, class.members.as_slice());
    match op {
        Op::Invoke(_) | Op::Default => body_or(place, Found::Absent),
        Op::Construct => {
            if class.version == 3 {
                body_or(place, Found::Absent)
            } else {
                Found::Absent
            }
        }
        Op::Get(_) | Op::Put(_) => body_or(place, kept(class.stored)),
        Op::Remove(_) => kept(class.stored),
        Op::HasMethod(_) => kept(place.is_some()),
        Op::HasProperty(_) => kept(place.is_some() || class.stored),
        Op::Enumerate => Found::Stored,
    }
}

// The first member that the operation asks for.
fn place_of(op: &Op, members: &[Member]) -> Option<usize>
    ensures value { result ≡ position (asks_for op.now) members.now }
{
    members.iter().position(|member| asks_for(op, member))
}

fn asks_for(op: &Op, member: &Member) -> bool
    ensures value { result ≡ asks_for op.now member.now }
{
    match (op, member) {
        (Op::Invoke(key) | Op::HasMethod(key), Member::Method(own, _)) => key == own,
        (Op::Get(key) | Op::HasProperty(key), Member::Getter(own, _)) => key == own,
        (Op::Put(key), Member::Setter(own, _)) => key == own,
        (Op::Default, Member::Default(_)) => true,
        (Op::Construct, Member::Construct(_)) => true,
        _ => false,
    }
}

fn body_or(place: Option<usize>, otherwise: Found) -> Found
    ensures value { result ≡ body_or place otherwise }
{
    match place {
        Some(place) => Found::Body(place),
        None => otherwise,
    }
}

fn kept(stored: bool) -> Found
    ensures value { result ≡ kept stored }
{
    if stored { Found::Stored } else { Found::Absent }
}
