use np_script_grammar::{Page, Plugin};
use np_script_line_laws::{pages_keep_limits, plugins_keep_limits};
use std::marker::Model;

/// A page that keeps every rule of the grammar but the size, seen as the page.
#[derive(Drop)]
pub struct PageScript {
    page: Page,
}

impl Model for PageScript {
    ghost use Rattle.np_script_grammar.specs.declared.page.Page.{Page};
    ghost use Rattle.np_script_grammar.specs.Grammar.{KeepsPageRules};

    ghost Value = { Page };

    ghost view = { λ s. s.page };

    ghost invariant = { λ s. KeepsPageRules s.page };
}

impl PageScript {
    ghost use Rattle.std.specs.Prelude.{◌≡◌};
    ghost use Rattle.np_script_grammar.specs.Grammar.{KeepsPageRules};
    ghost use Rattle.np_script_line_laws.specs.Limits.{KeepsPageLimits};

    /// Keeps what the reader read. The caller has seen that it keeps the rules.
    pub fn new(page: Page) -> PageScript
        requires rules { KeepsPageRules page }
        ensures same { result ≡ page }
    {
        PageScript { page }
    }

    /// Lends the page.
    pub fn page(&self) -> &Page
        ensures same { result.now ≡ self.now }
        ensures rules { KeepsPageRules self.now }
        ensures limits { KeepsPageLimits self.now }
    {
        pages_keep_limits();
        &self.page
    }
}

/// A plug-in that keeps every rule of the grammar but the size, seen as the plug-in.
#[derive(Drop)]
pub struct PluginScript {
    plugin: Plugin,
}

impl Model for PluginScript {
    ghost use Rattle.np_script_grammar.specs.declared.plugin.Plugin.{Plugin};
    ghost use Rattle.np_script_grammar.specs.Grammar.{KeepsPluginRules};

    ghost Value = { Plugin };

    ghost view = { λ s. s.plugin };

    ghost invariant = { λ s. KeepsPluginRules s.plugin };
}

impl PluginScript {
    ghost use Rattle.std.specs.Prelude.{◌≡◌};
    ghost use Rattle.np_script_grammar.specs.Grammar.{KeepsPluginRules};
    ghost use Rattle.np_script_line_laws.specs.Limits.{KeepsPluginLimits};

    /// A plug-in that keeps the rules.
    pub fn new(plugin: Plugin) -> PluginScript
        requires rules { KeepsPluginRules plugin }
        ensures same { result ≡ plugin }
    {
        PluginScript { plugin }
    }

    /// Lends the plug-in.
    pub fn plugin(&self) -> &Plugin
        ensures same { result.now ≡ self.now }
        ensures rules { KeepsPluginRules self.now }
        ensures limits { KeepsPluginLimits self.now }
    {
        plugins_keep_limits();
        &self.plugin
    }
}
