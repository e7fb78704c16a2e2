ghost use Rattle.std.specs.Prelude.{◌≡◌};
ghost use Rattle.np_model_scripts.specs.Levels.{page_level as level_of_page, plugin_level as level_of_plugin};

use crate::declarations::{with_classes, with_commands, with_handlers, with_resources, with_tasks};
use np_script_grammar::{Page, Plugin};

/// The greatest level that a line of the page has. The head and `do` have 1.
pub fn page_level(page: &Page) -> u8
    ensures value { result ≡ level_of_page page.now }
{
    let level = with_classes(1, page.classes.as_slice());
    let level = with_resources(level, page.resources.as_slice());
    with_commands(level, page.commands.as_slice())
}

/// The greatest level that a line of the plug-in has. The head has 1.
pub fn plugin_level(plugin: &Plugin) -> u8
    ensures value { result ≡ level_of_plugin plugin.now }
{
    let level = with_classes(1, plugin.classes.as_slice());
    let level = with_handlers(level, plugin.handlers.as_slice());
    with_tasks(level, plugin.tasks.as_slice())
}
