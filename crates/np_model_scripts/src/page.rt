//! Page scripts, as pages of the model.
ghost use Rattle.std.specs.Prelude.{◌≡◌, ◌++◌, IfOk};
ghost use Rattle.np_model_scripts.specs.Served.{served_command as command_of, served_page as page_of};
ghost use Rattle.np_model_scripts.specs.Gives.{GivesPage, GivesCommand, GivesCommands};

use np_model::{Command, Commands, Page};
use np_script_grammar::{Command as ScriptCommand, Page as ScriptPage};
use np_values::NoMemory;
use std::alloc::Global;

/// A command, if it is served.
fn served_command(alloc: Global, command: &ScriptCommand) -> Result<Option<Command>, NoMemory>
    ensures value { GivesCommand result command.now }
{
    match command {
        ScriptCommand::Create {
            mime,
            mode,
            attributes,
        } => {
            if !attributes.is_empty() {
                return Ok(None);
            }
            let mime = mime.try_copy(alloc)?;
            Ok(Some(Command::Create { mime, mode: *mode }))
        }
        ScriptCommand::Turn => Ok(Some(Command::Turn)),
        _ => Ok(None),
    }
}

/// The commands, if each is served.
fn served_commands(alloc: Global, commands: &[ScriptCommand]) -> Result<Option<Commands>, NoMemory>
    ensures value { GivesCommands result commands.now }
{
    let mut served = Commands::new(alloc);
    for command in commands {
        match served_command(alloc, command)? {
            Some(command) => served.push(command)?,
            None => return Ok(None),
        }
    }
    Ok(Some(served))
}

/// The page that a page script says, if it is served; its texts are copied.
pub fn served_page(alloc: Global, script: &ScriptPage) -> Result<Option<Page>, NoMemory>
    ensures value { GivesPage result script.now }
{
    if !script.classes.is_empty() || !script.resources.is_empty() {
        return Ok(None);
    }
    match served_commands(alloc, script.commands.as_slice())? {
        Some(commands) => Ok(Some(Page {
            major: script.major,
            minor: script.minor,
            commands,
        })),
        None => Ok(None),
    }
}
