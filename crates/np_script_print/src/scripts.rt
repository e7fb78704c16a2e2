//! Whole scripts.
ghost use Rattle.std.specs.Prelude.{◌≡◌, ◌++◌, ◌∷◌, [], map, codes, OnOk, OnErr};
ghost use Rattle.np_script_grammar.specs.Rows.{number, command_line};
ghost use Rattle.np_script_grammar.specs.Scripts.{alone, canonical_page_lines, canonical_plugin_lines};
ghost use Rattle.np_script_grammar.specs.Grammar.{canonical_page, canonical_plugin};
ghost use Rattle.np_script_print.specs.Printed.{Grew, whole_line, lines_text};

use crate::bodies::push_alone_line;
use crate::commands::push_commands;
use crate::declarations::{push_classes, push_handlers, push_resources, push_tasks};
use crate::rows::with_numbers;
use np_script_grammar::{Command, Page, Plugin};
use np_values::NoMemory;

/// Appends the line of a version.
fn push_head(out: &mut Vec<u8>, word: &str, major: u8, minor: u8) -> Result<(), NoMemory>
    ensures ok { OnOk result (out.new.items ≡ out.old.items ++ whole_line (word.now, number major ∷ number minor ∷ [])) }
    ensures begins { Grew out.old.items out.new.items }
{
    with_numbers(out, word, u32::from(major), u32::from(minor))?;
    out.push(b'\n')?;
    Ok(())
}

/// Appends `do` and the commands of a page.
fn push_do(out: &mut Vec<u8>, commands: &[Command]) -> Result<(), NoMemory>
    ensures ok { OnOk result (out.new.items ≡ out.old.items ++ lines_text (alone (codes "do") ∷ map command_line commands.now)) }
    ensures begins { Grew out.old.items out.new.items }
{
    push_alone_line(out, "do")?;
    push_commands(out, commands)
}

/// Appends a page. Where memory runs out, a part of it may stand.
fn push_page(out: &mut Vec<u8>, page: &Page) -> Result<(), NoMemory>
    ensures ok { OnOk result (out.new.items ≡ out.old.items ++ lines_text (canonical_page_lines page.now)) }
    ensures begins { Grew out.old.items out.new.items }
{
    push_head(out, "page", page.major, page.minor)?;
    push_classes(out, page.classes.as_slice())?;
    push_resources(out, page.resources.as_slice())?;
    push_do(out, page.commands.as_slice())?;
    Ok(())
}

/// Appends a plug-in. Where memory runs out, a part of it may stand.
fn push_plugin(out: &mut Vec<u8>, plugin: &Plugin) -> Result<(), NoMemory>
    ensures ok { OnOk result (out.new.items ≡ out.old.items ++ lines_text (canonical_plugin_lines plugin.now)) }
    ensures begins { Grew out.old.items out.new.items }
{
    push_head(out, "plugin", plugin.major, plugin.minor)?;
    push_classes(out, plugin.classes.as_slice())?;
    push_handlers(out, plugin.handlers.as_slice())?;
    push_tasks(out, plugin.tasks.as_slice())?;
    Ok(())
}

/// Appends the canonical text of a page: its version, its classes with `data` before their members, its
/// resources, `do`, and its commands, with one space between words. After an error `out` is as it was.
pub fn print_page(page: &Page, out: &mut Vec<u8>) -> Result<(), NoMemory>
    ensures ok { OnOk result (out.new.items ≡ out.old.items ++ canonical_page page.now) }
    ensures err { OnErr result (out.new.items ≡ out.old.items) }
{
    let length = out.len();
    match push_page(out, page) {
        Ok(()) => Ok(()),
        Err(NoMemory) => {
            out.truncate(length);
            Err(NoMemory)
        }
    }
}

/// Appends the canonical text of a plug-in: its version, its classes with `data` before their members, its
/// handlers, and its tasks, with one space between words. After an error `out` is as it was.
pub fn print_plugin(plugin: &Plugin, out: &mut Vec<u8>) -> Result<(), NoMemory>
    ensures ok { OnOk result (out.new.items ≡ out.old.items ++ canonical_plugin plugin.now) }
    ensures err { OnErr result (out.new.items ≡ out.old.items) }
{
    let length = out.len();
    match push_plugin(out, plugin) {
        Ok(()) => Ok(()),
        Err(NoMemory) => {
            out.truncate(length);
            Err(NoMemory)
        }
    }
}
