//! Levels of declarations and commands.
ghost use Rattle.std.specs.Prelude.{◌≡◌, map, max};
ghost use Rattle.np_script_grammar.specs.Scripts.{member_body as body_of_member};
ghost use Rattle.np_model_scripts.specs.Levels.{greatest, member_level as level_of_member, class_level as level_of_class, resource_level, handler_level, task_level, command_level as level_of_command};

use crate::bodies::{body_level, which_level};
use crate::greater::greater;
use np_script_grammar::{Action, ClassDef, Command, HandlerDef, Member, Resource, TaskDef};

fn member_body(member: &Member) -> &[Action]
    ensures value { result.now ≡ body_of_member member.now }
{
    match member {
        Member::Method(_, body) => body.as_slice(),
        Member::Default(body) => body.as_slice(),
        Member::Construct(body) => body.as_slice(),
        Member::Getter(_, body) => body.as_slice(),
        Member::Setter(_, body) => body.as_slice(),
    }
}

fn with_members(least: u8, members: &[Member]) -> u8
    ensures value { result ≡ max least (greatest (map level_of_member members.now)) }
{
    let mut level = least;
    for member in members {
        level = greater(level, body_level(5, member_body(member)));
    }
    level
}

fn class_level(class: &ClassDef) -> u8
    ensures value { result ≡ level_of_class class.now }
{
    with_members(5, class.members.as_slice())
}

fn command_level(command: &Command) -> u8
    ensures value { result ≡ level_of_command command.now }
{
    match command {
        Command::Create { attributes, .. } => { if attributes.is_empty() { 1 } else { 5 } }
        Command::Turn => 1,
        Command::Destroy(_) => 8,
        Command::OpenStream(_, _) | Command::Pump(_) => 9,
        _ => 5,
    }
}

/// The greatest of this level and those of the classes.
pub fn with_classes(least: u8, classes: &[ClassDef]) -> u8
    ensures value { result ≡ max least (greatest (map level_of_class classes.now)) }
{
    let mut level = least;
    for class in classes {
        level = greater(level, class_level(class));
    }
    level
}

/// The greatest of this level and those of the resources.
pub fn with_resources(least: u8, resources: &[Resource]) -> u8
    ensures value { result ≡ max least (greatest (map resource_level resources.now)) }
{
    let mut level = least;
    for resource in resources {
        level = greater(level, 9);
    }
    level
}

/// The greatest of this level and those of the commands.
pub fn with_commands(least: u8, commands: &[Command]) -> u8
    ensures value { result ≡ max least (greatest (map level_of_command commands.now)) }
{
    let mut level = least;
    for command in commands {
        level = greater(level, command_level(command));
    }
    level
}

/// The greatest of this level and those of the handlers.
pub fn with_handlers(least: u8, handlers: &[HandlerDef]) -> u8
    ensures value { result ≡ max least (greatest (map handler_level handlers.now)) }
{
    let mut level = least;
    for handler in handlers {
        level = greater(level, which_level(handler.which, handler.body.as_slice()));
    }
    level
}

/// The greatest of this level and those of the tasks.
pub fn with_tasks(least: u8, tasks: &[TaskDef]) -> u8
    ensures value { result ≡ max least (greatest (map task_level tasks.now)) }
{
    let mut level = least;
    for task in tasks {
        level = greater(level, body_level(10, task.body.as_slice()));
    }
    level
}
