//! Whole scripts.
ghost use Rattle.std.specs.Prelude.{◌≡◌, ◌≤◌, ◌⊎◌, length, Ok, Err, IfOk};
ghost use Rattle.np_values.specs.declared.name.Side.TheVariants.{Page as of_page, Plug as of_plugin};
ghost use Rattle.np_script_grammar.specs.declared.page.Page.{Page as PageValue};
ghost use Rattle.np_script_grammar.specs.declared.plugin.Plugin.{Plugin as PluginValue};
ghost use Rattle.np_script_grammar.specs.declared.refusal.ScriptError.{ScriptError as ErrorValue};
ghost use Rattle.np_script_grammar.specs.Grammar.{IsPageScript, IsPluginScript};
ghost use Rattle.np_script_grammar.specs.Refusals.{FirstError};
ghost use Rattle.np_script_grammar.specs.Words.{lines_of};
ghost use Rattle.np_script.specs.Reading.{CanRunOut};

use crate::laws::{no_page_is_refused, no_plugin_is_refused, one_page, one_plugin};
use crate::reader::{Reader, read_script};
use crate::{PageScript, ParseError, PluginScript};
use np_script_builder::{built_pages, built_plugins};
use np_script_line_laws::{canonical_pages_are_in_order, canonical_plugins_are_in_order};
use np_script_text_laws::one_refusal;
use np_values::Side;
use std::alloc::Global;

/// Reads a page script. What it says owns its texts and contents; the bytes are only lent. (This project's
/// own.)
pub fn parse_page(alloc: Global, bytes: &[u8]) -> Result<PageScript, ParseError>
    // A page is read exactly as the grammar says, unless memory runs out.
    ensures ok { IfOk result (λ page. IsPageScript bytes.now page) }
    ensures read { (page : PageValue) → IsPageScript bytes.now page → (result ≡ Ok page) ⊎ (result ≡ Err ParseError.NoMemory) }

    // Else it is refused for its first error.
    ensures refused { (e : ErrorValue) → result ≡ Err (ParseError.Script e) → FirstError of_page bytes.now e }
    ensures refused_only { (e : ErrorValue) → FirstError of_page bytes.now e → (result ≡ Err (ParseError.Script e)) ⊎ (result ≡ Err ParseError.NoMemory) }

    // Memory runs out only at a line that takes some, after lines of a script.
    ensures memory { result ≡ Err ParseError.NoMemory → (length bytes.now ≤ 1048576) × CanRunOut of_page (lines_of bytes.now) }
{
    one_page();
    no_page_is_refused();
    one_refusal();
    built_pages();
    canonical_pages_are_in_order();
    let mut reader = Reader::new(alloc);
    match read_script(alloc, Side::Page, bytes, &mut reader) {
        Ok(()) => Ok(PageScript::new(reader.builder.page())),
        Err(error) => Err(error),
    }
}

/// Reads a plug-in script. What it says owns its texts; the bytes are only lent. (This project's own.)
pub fn parse_plugin(alloc: Global, bytes: &[u8]) -> Result<PluginScript, ParseError>
    // A plug-in is read exactly as the grammar says, unless memory runs out.
    ensures ok { IfOk result (λ plugin. IsPluginScript bytes.now plugin) }
    ensures read { (plugin : PluginValue) → IsPluginScript bytes.now plugin → (result ≡ Ok plugin) ⊎ (result ≡ Err ParseError.NoMemory) }

    // Else it is refused for its first error.
    ensures refused { (e : ErrorValue) → result ≡ Err (ParseError.Script e) → FirstError of_plugin bytes.now e }
    ensures refused_only { (e : ErrorValue) → FirstError of_plugin bytes.now e → (result ≡ Err (ParseError.Script e)) ⊎ (result ≡ Err ParseError.NoMemory) }

    // Memory runs out only at a line that takes some, after lines of a script.
    ensures memory { result ≡ Err ParseError.NoMemory → (length bytes.now ≤ 1048576) × CanRunOut of_plugin (lines_of bytes.now) }
{
    one_plugin();
    no_plugin_is_refused();
    one_refusal();
    built_plugins();
    canonical_plugins_are_in_order();
    let mut reader = Reader::new(alloc);
    match read_script(alloc, Side::Plug, bytes, &mut reader) {
        Ok(()) => Ok(PluginScript::new(reader.builder.plugin())),
        Err(error) => Err(error),
    }
}
