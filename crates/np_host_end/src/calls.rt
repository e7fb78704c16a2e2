//! The calls of the page.

ghost use Rattle.std.specs.Prelude.{◌≡◌, ◌++◌, ◌∷◌, [], OnOk};
ghost use Rattle.np_message.specs.Encoding.{encodings};
ghost use Rattle.np_message.specs.Rules.{KeepsKind};
ghost use Rattle.np_model.specs.PagePlan.{at_level_1};

use np_message::{Depth, Message, Payload};
use np_proxy_release::Releases;
use np_values::NoMemory;
use np_wire::encode;
use std::alloc::Global;

/// Appends a call of the page, which is made at depth 0 and gives nothing back.
pub fn push_call(alloc: Global, out: &mut Vec<u8>, body: Payload) -> Result<(), NoMemory>
    requires kept { KeepsKind body }
    ensures appended { OnOk result (out.new.items ≡ out.old.items ++ encodings (at_level_1 body ∷ [])) }
{
    let depth = Depth {
        level: 1,
        task: false,
    };
    encode(&Message::new(depth, Releases::new(alloc), body), out)
}
