//! What holds of scripts and their canonical texts.
ghost use Rattle.np_script.specs.Laws.{OnePage, OnePlugin, PagesAreDecided, PluginsAreDecided, NoPageIsRefused, NoPluginIsRefused, PageScriptsKeepRules, PluginScriptsKeepRules, PageScriptsKeepLimits, PluginScriptsKeepLimits, CanonicalPagesAreScripts, CanonicalPluginsAreScripts, OneCanonicalPage, OneCanonicalPlugin, CommandsAreFew};

use np_script_builder::{
    built_pages, built_plugins, lines_in_order_are_built, pages_are_built, plugins_are_built,
};
use np_script_line_laws::{
    canonical_lines_say_pages, canonical_lines_say_plugins, canonical_pages_are_in_order,
    canonical_plugins_are_in_order, pages_keep_limits, plugins_keep_limits,
};
use np_script_text_laws::{
    lines_are_few, lines_are_judged, lines_go_on, one_say, refused_lines_end,
    refused_texts_are_no_scripts, skipped_lines_go_on, texts_can_be_completed,
    texts_have_their_lines,
};

/// Bytes say at most one page.
pub fn one_page()
    ensures law { OnePage }
{
    one_say();
    pages_are_built();
}

/// Bytes say at most one plug-in.
pub fn one_plugin()
    ensures law { OnePlugin }
{
    one_say();
    plugins_are_built();
}

/// Bytes are a page script, or have a first error.
pub fn pages_are_decided()
    ensures law { PagesAreDecided }
{
    built_pages();
    built_plugins();
    lines_in_order_are_built();
    pages_are_built();
    plugins_are_built();
    texts_can_be_completed();
    one_say();
    lines_are_judged();
    lines_go_on();
    skipped_lines_go_on();
    refused_lines_end();
}

/// Bytes are a plug-in script, or have a first error.
pub fn plugins_are_decided()
    ensures law { PluginsAreDecided }
{
    built_pages();
    built_plugins();
    lines_in_order_are_built();
    pages_are_built();
    plugins_are_built();
    texts_can_be_completed();
    one_say();
    lines_are_judged();
    lines_go_on();
    skipped_lines_go_on();
    refused_lines_end();
}

/// Bytes that are refused are no page script.
pub fn no_page_is_refused()
    ensures law { NoPageIsRefused }
{
    refused_texts_are_no_scripts();
}

/// Bytes that are refused are no plug-in script.
pub fn no_plugin_is_refused()
    ensures law { NoPluginIsRefused }
{
    refused_texts_are_no_scripts();
}

/// What a page script says keeps the rules of the grammar.
pub fn page_scripts_keep_rules()
    ensures law { PageScriptsKeepRules }
{
    canonical_pages_are_in_order();
}

/// What a plug-in script says keeps the rules of the grammar.
pub fn plugin_scripts_keep_rules()
    ensures law { PluginScriptsKeepRules }
{
    canonical_plugins_are_in_order();
}

/// What a page script says has no more than the limits allow, and nothing twice.
pub fn page_scripts_keep_limits()
    ensures law { PageScriptsKeepLimits }
{
    canonical_pages_are_in_order();
    pages_keep_limits();
}

/// What a plug-in script says has no more than the limits allow, and nothing twice.
pub fn plugin_scripts_keep_limits()
    ensures law { PluginScriptsKeepLimits }
{
    canonical_plugins_are_in_order();
    plugins_keep_limits();
}

/// The canonical text of a page that keeps the rules is a script that says it, where it isn't too long.
pub fn canonical_pages_are_scripts()
    ensures law { CanonicalPagesAreScripts }
{
    texts_have_their_lines();
    canonical_lines_say_pages();
}

/// The canonical text of a plug-in that keeps the rules is a script that says it, where it isn't too long.
pub fn canonical_plugins_are_scripts()
    ensures law { CanonicalPluginsAreScripts }
{
    texts_have_their_lines();
    canonical_lines_say_plugins();
}

/// Two pages with one canonical text are the same.
pub fn one_canonical_page()
    ensures law { OneCanonicalPage }
{
    one_say();
    pages_are_built();
    texts_have_their_lines();
    canonical_lines_say_pages();
}

/// Two plug-ins with one canonical text are the same.
pub fn one_canonical_plugin()
    ensures law { OneCanonicalPlugin }
{
    one_say();
    plugins_are_built();
    texts_have_their_lines();
    canonical_lines_say_plugins();
}

/// A page has no more commands than its script has bytes.
pub fn commands_are_few()
    ensures law { CommandsAreFew }
{
    lines_are_few();
}
