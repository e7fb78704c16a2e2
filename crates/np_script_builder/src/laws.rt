//! What is promised of building.
ghost use Rattle.np_script_builder.specs.Laws.{LinesInOrderAreBuilt, BuiltGoesOn, BuiltPages, BuiltPlugins, PagesAreBuilt, PluginsAreBuilt};

use np_script_actions::{
    actions_are_read, actions_were_lines, commands_are_read, commands_were_lines,
    lines_say_actions, lines_say_commands,
};

/// Lines in order, each of which may follow those before it, say something.
pub fn lines_in_order_are_built()
    ensures law { LinesInOrderAreBuilt }
{
    lines_say_actions();
    actions_were_lines();
    lines_say_commands();
    commands_were_lines();
}

/// With one line more, what is built continues by that line at its place.
pub fn built_goes_on()
    ensures law { BuiltGoesOn }
{}

/// The lines of a page say the page that is built of them.
pub fn built_pages()
    ensures law { BuiltPages }
{
    lines_say_actions();
    actions_were_lines();
    lines_say_commands();
    commands_were_lines();
}

/// The lines of a plug-in say the plug-in that is built of them.
pub fn built_plugins()
    ensures law { BuiltPlugins }
{
    lines_say_actions();
    actions_were_lines();
    lines_say_commands();
    commands_were_lines();
}

/// A page that lines in order say is what is built of them.
pub fn pages_are_built()
    ensures law { PagesAreBuilt }
{
    actions_are_read();
    commands_are_read();
}

/// A plug-in that lines in order say is what is built of them.
pub fn plugins_are_built()
    ensures law { PluginsAreBuilt }
{
    actions_are_read();
    commands_are_read();
}
