ghost use Rattle.std.specs.Prelude.{◌≡◌};
ghost use Rattle.np_message.specs.Encoding.{kind_of};
ghost use Rattle.np_message.specs.Kinds.{instance_of, is_reply as replies};

use np_idents::{Keys, Op};
use np_values::{Bytes, NpError, NpReason, Ranges, Text, Texts, Value, Values};

/// What a message says. An instance is numbered from 1, a stream too.
#[derive(Drop)]
pub enum Payload {
    /// The host's first call: the version of the wire format, which is 1, and that of the plug-in interface.
    Hello {
        version: u8,
        major: u8,
        minor: u8,
    },
    /// NPP_New. The mode is 1 (NP_EMBED) or 2 (NP_FULL); the attributes are names and values in turn, at most three of each.
    New {
        instance: u8,
        mode: u8,
        mime: Text,
        attributes: Texts,
    },
    /// NPP_Destroy.
    Destroy {
        instance: u8,
    },
    /// NPP_GetValue of NPPVpluginScriptableNPObject.
    Scriptable {
        instance: u8,
    },
    /// An empty call into the plug-in.
    Turn,
    /// NPP_NewStream. The length is that of the content, in bytes.
    NewStream {
        instance: u8,
        stream: u32,
        url: Text,
        mime: Text,
        length: u32,
    },
    /// NPP_WriteReady.
    WriteReady {
        instance: u8,
        stream: u32,
    },
    /// NPP_Write of 1 to 8,192 bytes, the first of which is the one at `offset` of the content.
    Write {
        instance: u8,
        stream: u32,
        offset: u32,
        bytes: Bytes,
    },
    /// NPP_StreamAsFile.
    AsFile {
        instance: u8,
        stream: u32,
        path: Text,
    },
    /// NPP_DestroyStream.
    DestroyStream {
        instance: u8,
        stream: u32,
        reason: NpReason,
    },
    /// NPP_URLNotify. The word is the one that the plug-in gave with its request.
    Notify {
        instance: u8,
        url: Text,
        reason: NpReason,
        word: i32,
    },
    /// The host's last call.
    Shutdown,
    /// NPN_GetValue of NPNVWindowNPObject.
    Window {
        instance: u8,
    },
    /// NPN_GetURLNotify. The word comes back in the notification.
    GetUrl {
        instance: u8,
        url: Text,
        word: i32,
    },
    /// NPN_RequestRead of one to four ranges.
    RequestRead {
        instance: u8,
        stream: u32,
        ranges: Ranges,
    },
    /// NPN_DestroyStream.
    EndStream {
        instance: u8,
        stream: u32,
        reason: NpReason,
    },
    /// A call of an object of the receiver's side. (npruntime.h, NPClass.)
    /// `Invoke`, `Default` and `Construct` have at most eight arguments, `Put` one, and the others none.
    Call {
        instance: u8,
        serial: u32,
        op: Op,
        arguments: Values,
    },
    /// The reply of a call that answered true, with its result.
    True(Value),
    /// The reply of a call that answered false.
    False,
    /// The reply of a call that noted an exception. (NPN_SetException.)
    Threw(Text),
    /// The reply to `Enumerate`: at most 64 identifiers.
    Idents(Keys),
    /// The reply that is an error code.
    Code(NpError),
    /// The reply that is a number: a stream mode, or how many bytes.
    Number(i32),
    /// The reply that says nothing.
    Done,
}

impl Payload {
    /// The byte of the wire format that names the kind.
    pub fn kind(&self) -> u8
        ensures value { result ≡ kind_of self.now }
    {
        match self {
            Payload::Hello { .. } => 0x01,
            Payload::New { .. } => 0x02,
            Payload::Destroy { .. } => 0x03,
            Payload::Scriptable { .. } => 0x04,
            Payload::Turn => 0x05,
            Payload::NewStream { .. } => 0x06,
            Payload::WriteReady { .. } => 0x07,
            Payload::Write { .. } => 0x08,
            Payload::AsFile { .. } => 0x09,
            Payload::DestroyStream { .. } => 0x0a,
            Payload::Notify { .. } => 0x0b,
            Payload::Shutdown => 0x0c,
            Payload::Window { .. } => 0x20,
            Payload::GetUrl { .. } => 0x21,
            Payload::RequestRead { .. } => 0x22,
            Payload::EndStream { .. } => 0x23,
            Payload::Call { .. } => 0x40,
            Payload::True(_) => 0x41,
            Payload::False => 0x42,
            Payload::Threw(_) => 0x43,
            Payload::Idents(_) => 0x44,
            Payload::Code(_) => 0x45,
            Payload::Number(_) => 0x46,
            Payload::Done => 0x47,
        }
    }

    /// The instance that a call names, a call of an object that of its object; 0 where it names none.
    pub fn instance(&self) -> u8
        ensures value { result ≡ instance_of self.now }
    {
        match self {
            Payload::New { instance, .. }
            | Payload::Destroy { instance }
            | Payload::Scriptable { instance }
            | Payload::NewStream { instance, .. }
            | Payload::WriteReady { instance, .. }
            | Payload::Write { instance, .. }
            | Payload::AsFile { instance, .. }
            | Payload::DestroyStream { instance, .. }
            | Payload::Notify { instance, .. }
            | Payload::Window { instance }
            | Payload::GetUrl { instance, .. }
            | Payload::RequestRead { instance, .. }
            | Payload::EndStream { instance, .. }
            | Payload::Call { instance, .. } => *instance,
            Payload::Hello { .. }
            | Payload::Turn
            | Payload::Shutdown
            | Payload::True(_)
            | Payload::False
            | Payload::Threw(_)
            | Payload::Idents(_)
            | Payload::Code(_)
            | Payload::Number(_)
            | Payload::Done => 0,
        }
    }

    /// Whether it answers a call.
    pub fn is_reply(&self) -> bool
        ensures value { result ≡ replies self.now }
    {
        matches!(
            self,
            Payload::True(_)
                | Payload::False
                | Payload::Threw(_)
                | Payload::Idents(_)
                | Payload::Code(_)
                | Payload::Number(_)
                | Payload::Done
        )
    }
}
