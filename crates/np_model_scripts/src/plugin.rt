//! Plug-in scripts, as plug-ins of the model.
ghost use Rattle.std.specs.Prelude.{◌≡◌};
ghost use Rattle.np_model_scripts.specs.Served.{served_handler as handler_of, served_handlers as handlers_of, served_plugin as plugin_of, returned_by};

use np_model::Plugin;
use np_script_grammar::{Action, HandlerDef, Operand, Plugin as ScriptPlugin};
use np_values::{Handler, Value};

/// The number that a body returns which does nothing else.
fn returned(body: &[Action]) -> Option<i32>
    ensures value { result ≡ returned_by body.now }
{
    match body {
        [Action::Return(Operand::Const(Value::Int(number)))] => Some(*number),
        _ => None,
    }
}

/// What a handler returns, if it is served.
fn served_handler(handler: &HandlerDef) -> Option<i32>
    ensures value { result ≡ handler_of handler.now }
{
    match handler.which {
        Handler::New => returned(handler.body.as_slice()),
        _ => None,
    }
}

/// What the handler `new` returns, if there is one and no other.
fn served_handlers(handlers: &[HandlerDef]) -> Option<Option<i32>>
    ensures value { result ≡ handlers_of handlers.now }
{
    match handlers {
        [] => Some(None),
        [handler] => Some(Some(served_handler(handler)?)),
        _ => None,
    }
}

/// The plug-in that a plug-in script says, if it is served. It takes no memory.
pub fn served_plugin(script: &ScriptPlugin) -> Option<Plugin>
    ensures value { result ≡ plugin_of script.now }
{
    if !script.classes.is_empty() || !script.tasks.is_empty() {
        return None;
    }
    let new_handler = served_handlers(script.handlers.as_slice())?;
    Some(Plugin {
        major: script.major,
        minor: script.minor,
        new_handler,
    })
}
