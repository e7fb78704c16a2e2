use crate::{Depth, Payload};
use np_proxy_release::Releases;
use std::marker::Model;

/// A call or a reply from one side to the other, which keeps every rule of the wire format, seen as its parts.
/// (This project's own.)
#[derive(Drop)]
pub struct Message {
    depth: Depth,
    releases: Releases,
    body: Payload,
}

impl Model for Message {
    ghost use Rattle.np_message.specs.Message.{Message as Parts};
    ghost use Rattle.np_message.specs.Rules.{KeepsFormat};

    ghost Value = { Parts };

    ghost view = { λ m. record { depth = m.depth; releases = m.releases; body = m.body } };

    ghost invariant = { λ m. KeepsFormat (record { depth = m.depth; releases = m.releases; body = m.body }) };
}

impl Message {
    ghost use Rattle.std.specs.Prelude.{◌≡◌};
    ghost use Rattle.np_message.specs.Rules.{KeepsFormat};

    /// Makes a message. The caller has seen that the parts keep every rule of the format.
    pub fn new(depth: Depth, releases: Releases, body: Payload) -> Message
        requires rules { KeepsFormat (record { depth = depth; releases = releases; body = body }) }
        ensures value { result ≡ record { depth = depth; releases = releases; body = body } }
    {
        Message {
            depth,
            releases,
            body,
        }
    }

    /// Where the call stands among the open calls; a reply has the depth of its call.
    pub fn depth(&self) -> Depth
        ensures value { result ≡ self.now.depth }
        ensures rules { KeepsFormat self.now }
    {
        self.depth
    }

    /// Lends the references that the sender gives back, at most 1,024, sorted by name.
    pub fn releases(&self) -> &Releases
        ensures same { result.now ≡ self.now.releases }
        ensures rules { KeepsFormat self.now }
    {
        &self.releases
    }

    /// Lends the call or the reply.
    pub fn body(&self) -> &Payload
        ensures same { result.now ≡ self.now.body }
        ensures rules { KeepsFormat self.now }
    {
        &self.body
    }

    /// Takes the call or the reply out of the message, without a copy.
    pub fn into_body(self) -> Payload
        ensures same { result ≡ self.body }
        ensures rules { KeepsFormat self }
    {
        self.body
    }
}
