//! Whole scripts, as what the programs serve.
ghost use Rattle.std.specs.Prelude.{◌≡◌, ◌⊎◌, true, Ok, Err, IfOk};
ghost use Rattle.np_values.specs.declared.name.Side.TheVariants.{Page as of_page, Plug as of_plugin};
ghost use Rattle.np_script_grammar.specs.declared.refusal.ScriptError.{ScriptError as ErrorValue};
ghost use Rattle.np_script_grammar.specs.Refusals.{FirstError};
ghost use Rattle.np_model.specs.declared.script.Page.{Page as PageValue};
ghost use Rattle.np_model.specs.declared.script.Plugin.{Plugin as PluginValue};
ghost use Rattle.np_model.specs.Script.{commands_fit};
ghost use Rattle.np_model_scripts.specs.Served.{SaysPage, SaysPlugin, IsUnbuiltPage, IsUnbuiltPlugin};
ghost use Rattle.np_model_scripts.specs.Serves.{ServesPage, ServesPlugin};

use crate::laws::served_pages_are_well_formed;
use crate::page::served_page;
use crate::plugin::served_plugin;
use np_model::{Page, Plugin};
use np_script::{
    ParseError, no_page_is_refused, no_plugin_is_refused, one_page, one_plugin, parse_page,
    parse_plugin,
};
use np_script_grammar::ScriptError;
use np_script_text_laws::one_refusal;
use np_values::NoMemory;
use std::alloc::Global;

/// Why a script isn't served.
#[derive(Clone, Copy, Debug, PartialEq, Eq)]
pub enum Unserved {
    /// The bytes aren't a script: the first line at which none continues, and why.
    Script(ScriptError),
    /// They are a script of which some line isn't supported yet.
    Unbuilt,
    NoMemory,
}

/// Reads a page script.
fn read_page(alloc: Global, bytes: &[u8]) -> Result<Page, Unserved>
    ensures page { ServesPage bytes.now result }
{
    served_pages_are_well_formed();
    match parse_page(alloc, bytes) {
        Ok(script) => match served_page(alloc, script.page()) {
            Ok(Some(page)) => Ok(page),
            Ok(None) => Err(Unserved::Unbuilt),
            Err(NoMemory) => Err(Unserved::NoMemory),
        },
        Err(ParseError::Script(error)) => Err(Unserved::Script(error)),
        Err(ParseError::NoMemory) => Err(Unserved::NoMemory),
    }
}

/// Reads a plug-in script.
fn read_plugin(alloc: Global, bytes: &[u8]) -> Result<Plugin, Unserved>
    ensures plugin { ServesPlugin bytes.now result }
{
    match parse_plugin(alloc, bytes) {
        Ok(script) => match served_plugin(script.plugin()) {
            Some(plugin) => Ok(plugin),
            None => Err(Unserved::Unbuilt),
        },
        Err(ParseError::Script(error)) => Err(Unserved::Script(error)),
        Err(ParseError::NoMemory) => Err(Unserved::NoMemory),
    }
}

/// The page that a page script says, if it is served.
pub fn serve_page(alloc: Global, bytes: &[u8]) -> Result<Page, Unserved>
    ensures ok { IfOk result (λ page. SaysPage bytes.now page) }
    ensures fits { IfOk result (λ page. commands_fit 0 page.commands ≡ true) }
    ensures read { (page : PageValue) → SaysPage bytes.now page → (result ≡ Ok page) ⊎ (result ≡ Err Unserved.NoMemory) }
    ensures refused { (e : ErrorValue) → result ≡ Err (Unserved.Script e) → FirstError of_page bytes.now e }
    ensures refused_only { (e : ErrorValue) → FirstError of_page bytes.now e → (result ≡ Err (Unserved.Script e)) ⊎ (result ≡ Err Unserved.NoMemory) }
    ensures unbuilt { result ≡ Err Unserved.Unbuilt → IsUnbuiltPage bytes.now }
    ensures unbuilt_only { IsUnbuiltPage bytes.now → (result ≡ Err Unserved.Unbuilt) ⊎ (result ≡ Err Unserved.NoMemory) }
{
    one_page();
    no_page_is_refused();
    one_refusal();
    read_page(alloc, bytes)
}

/// The plug-in that a plug-in script says, if it is served.
pub fn serve_plugin(alloc: Global, bytes: &[u8]) -> Result<Plugin, Unserved>
    ensures ok { IfOk result (λ plugin. SaysPlugin bytes.now plugin) }
    ensures read { (plugin : PluginValue) → SaysPlugin bytes.now plugin → (result ≡ Ok plugin) ⊎ (result ≡ Err Unserved.NoMemory) }
    ensures refused { (e : ErrorValue) → result ≡ Err (Unserved.Script e) → FirstError of_plugin bytes.now e }
    ensures refused_only { (e : ErrorValue) → FirstError of_plugin bytes.now e → (result ≡ Err (Unserved.Script e)) ⊎ (result ≡ Err Unserved.NoMemory) }
    ensures unbuilt { result ≡ Err Unserved.Unbuilt → IsUnbuiltPlugin bytes.now }
    ensures unbuilt_only { IsUnbuiltPlugin bytes.now → (result ≡ Err Unserved.Unbuilt) ⊎ (result ≡ Err Unserved.NoMemory) }
{
    one_plugin();
    no_plugin_is_refused();
    one_refusal();
    read_plugin(alloc, bytes)
}
