//! What the rows promise of lines and what they say.
ghost use Rattle.np_script_actions.specs.Laws.{LinesSayActions, ActionsWereLines, ActionsAreRead, LinesSayCommands, CommandsWereLines, CommandsAreRead};

/// A line of a side's table of actions says an action.
pub fn lines_say_actions()
    ensures law { LinesSayActions }
{}

/// What is read as an action was that action's line.
pub fn actions_were_lines()
    ensures law { ActionsWereLines }
{}

/// An action's line is read as that action, where a side may have it.
pub fn actions_are_read()
    ensures law { ActionsAreRead }
{}

/// A line of the table of commands says a command.
pub fn lines_say_commands()
    ensures law { LinesSayCommands }
{}

/// What is read as a command was that command's line.
pub fn commands_were_lines()
    ensures law { CommandsWereLines }
{}

/// A command's line is read as that command.
pub fn commands_are_read()
    ensures law { CommandsAreRead }
{}
