ghost use Rattle.std.specs.Prelude.{◌≡◌, ◌≢◌, ◌↔◌, IfSome, None};
ghost use Rattle.np_values.specs.Handler.{handler_word, handler_among as among, handler_of};

/// A function of the plug-in that the browser calls for an instance. (npfunctions.h, NPPluginFuncs.)
#[derive(Clone, Copy, Debug, PartialEq, Eq)]
pub enum Handler {
    /// NPP_New.
    New,
    /// NPP_Destroy.
    Destroy,
    /// NPP_GetValue, asked for the instance's scriptable object.
    Scriptable,
    /// NPP_NewStream.
    NewStream,
    /// NPP_WriteReady.
    WriteReady,
    /// NPP_Write.
    Write,
    /// NPP_StreamAsFile.
    AsFile,
    /// NPP_DestroyStream.
    DestroyStream,
    /// NPP_URLNotify.
    UrlNotify,
}

const HANDLERS: [Handler; 9] = [
    Handler::New,
    Handler::Destroy,
    Handler::Scriptable,
    Handler::NewStream,
    Handler::WriteReady,
    Handler::Write,
    Handler::AsFile,
    Handler::DestroyStream,
    Handler::UrlNotify,
];

impl Handler {
    /// The handler's word in scripts and journals, such as `new` or `urlnotify`. (This project's own.)
    pub fn word(self) -> &'static str
        ensures value { result.now ≡ handler_word self }
    {
        match self {
            Handler::New => "new",
            Handler::Destroy => "destroy",
            Handler::Scriptable => "scriptable",
            Handler::NewStream => "newstream",
            Handler::WriteReady => "writeready",
            Handler::Write => "write",
            Handler::AsFile => "asfile",
            Handler::DestroyStream => "destroystream",
            Handler::UrlNotify => "urlnotify",
        }
    }

    /// The handler with this word; `None` for all other bytes.
    pub fn from_word(word: &[u8]) -> Option<Handler>
        ensures value { result ≡ handler_of word.now }
        ensures inverse { IfSome result (λ handler. handler_word handler ≡ word.now) }
        ensures none { result ≡ None ↔ ((handler : Handler) → handler_word handler ≢ word.now) }
    {
        handler_among(&HANDLERS, word)
    }
}

fn handler_among(handlers: &[Handler], word: &[u8]) -> Option<Handler>
    ensures value { result ≡ among handlers.now word.now }
{
    for handler in handlers {
        if handler.word().as_bytes() == word {
            return Some(*handler);
        }
    }
    None
}
