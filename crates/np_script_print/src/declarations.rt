//! Declarations. Where memory runs out, a part of their lines may stand.
ghost use Rattle.std.specs.Prelude.{◌≡◌, ◌++◌, map, OnOk};
ghost use Rattle.std.specs.List.{flat_map};
ghost use Rattle.np_script_grammar.specs.Scripts.{data_lines, class_opening, class_lines, resource_line, handler_lines, task_lines};
ghost use Rattle.np_script_print.specs.Printed.{Grew, whole_line, lines_text};

use crate::bodies::{push_alone_line, push_body, push_members};
use crate::rows::{with_handler, with_text, with_text_number, with_text_text_number_text};
use np_script_grammar::{ClassDef, HandlerDef, Resource, TaskDef};
use np_values::NoMemory;

/// Appends the line `data`, where properties are stored.
fn push_data(out: &mut Vec<u8>, stored: bool) -> Result<(), NoMemory>
    ensures ok { OnOk result (out.new.items ≡ out.old.items ++ lines_text (data_lines stored)) }
    ensures begins { Grew out.old.items out.new.items }
{
    if stored {
        return push_alone_line(out, "data");
    }
    Ok(())
}

fn push_class_opening(out: &mut Vec<u8>, class: &ClassDef) -> Result<(), NoMemory>
    ensures ok { OnOk result (out.new.items ≡ out.old.items ++ whole_line (class_opening class.now)) }
    ensures begins { Grew out.old.items out.new.items }
{
    with_text_number(out, "class", &class.name, u32::from(class.version))?;
    out.push(b'\n')?;
    Ok(())
}

/// Appends a class, with its line `data` before its members.
fn push_class(out: &mut Vec<u8>, class: &ClassDef) -> Result<(), NoMemory>
    ensures ok { OnOk result (out.new.items ≡ out.old.items ++ lines_text (class_lines 0 class.now)) }
    ensures begins { Grew out.old.items out.new.items }
{
    push_class_opening(out, class)?;
    push_data(out, class.stored)?;
    push_members(out, class.members.as_slice())?;
    push_alone_line(out, "endclass")?;
    Ok(())
}

/// Appends classes.
pub fn push_classes(out: &mut Vec<u8>, classes: &[ClassDef]) -> Result<(), NoMemory>
    ensures ok { OnOk result (out.new.items ≡ out.old.items ++ lines_text (flat_map (class_lines 0) classes.now)) }
    ensures begins { Grew out.old.items out.new.items }
{
    for class in classes {
        push_class(out, class)?;
    }
    Ok(())
}

/// Appends the line of a resource.
fn push_resource(out: &mut Vec<u8>, resource: &Resource) -> Result<(), NoMemory>
    ensures ok { OnOk result (out.new.items ≡ out.old.items ++ whole_line (resource_line resource.now)) }
    ensures begins { Grew out.old.items out.new.items }
{
    with_text_text_number_text(
        out,
        "resource",
        &resource.url,
        &resource.mime,
        resource.times,
        &resource.piece,
    )?;
    out.push(b'\n')?;
    Ok(())
}

/// Appends resources.
pub fn push_resources(out: &mut Vec<u8>, resources: &[Resource]) -> Result<(), NoMemory>
    ensures ok { OnOk result (out.new.items ≡ out.old.items ++ lines_text (map resource_line resources.now)) }
    ensures begins { Grew out.old.items out.new.items }
{
    for resource in resources {
        push_resource(out, resource)?;
    }
    Ok(())
}

/// Appends a handler.
fn push_handler_lines(out: &mut Vec<u8>, handler: &HandlerDef) -> Result<(), NoMemory>
    ensures ok { OnOk result (out.new.items ≡ out.old.items ++ lines_text (handler_lines handler.now)) }
    ensures begins { Grew out.old.items out.new.items }
{
    with_handler(out, "handler", handler.which)?;
    out.push(b'\n')?;
    push_body(out, handler.body.as_slice())
}

/// Appends handlers.
pub fn push_handlers(out: &mut Vec<u8>, handlers: &[HandlerDef]) -> Result<(), NoMemory>
    ensures ok { OnOk result (out.new.items ≡ out.old.items ++ lines_text (flat_map handler_lines handlers.now)) }
    ensures begins { Grew out.old.items out.new.items }
{
    for handler in handlers {
        push_handler_lines(out, handler)?;
    }
    Ok(())
}

/// Appends a task.
fn push_task(out: &mut Vec<u8>, task: &TaskDef) -> Result<(), NoMemory>
    ensures ok { OnOk result (out.new.items ≡ out.old.items ++ lines_text (task_lines task.now)) }
    ensures begins { Grew out.old.items out.new.items }
{
    with_text(out, "task", &task.name)?;
    out.push(b'\n')?;
    push_body(out, task.body.as_slice())
}

/// Appends tasks.
pub fn push_tasks(out: &mut Vec<u8>, tasks: &[TaskDef]) -> Result<(), NoMemory>
    ensures ok { OnOk result (out.new.items ≡ out.old.items ++ lines_text (flat_map task_lines tasks.now)) }
    ensures begins { Grew out.old.items out.new.items }
{
    for task in tasks {
        push_task(out, task)?;
    }
    Ok(())
}
