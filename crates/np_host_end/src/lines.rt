//! The lines of the journal.

ghost use Rattle.std.specs.Prelude.{◌≡◌, ◌++◌, OnOk};
ghost use Rattle.np_model.specs.Journal.{code_line, result_line};
ghost use Rattle.np_values.specs.NpError.{code_of};

use np_values::{NoMemory, NpError};
use std::alloc::Global;

/// Appends the result line of the command with this number.
pub fn push_result(
    alloc: Global,
    out: &mut Vec<u8>,
    number: usize,
    text: &str,
) -> Result<(), NoMemory>
    ensures appended { OnOk result (out.new.items ≡ out.old.items ++ result_line number text.now) }
{
    let line = format!(in alloc; "{number}: {text}\n")?;
    out.extend_from_slice(line.as_bytes())?;
    Ok(())
}

/// Appends the result line of a code.
pub fn push_code(
    alloc: Global,
    out: &mut Vec<u8>,
    number: usize,
    error: NpError,
) -> Result<(), NoMemory>
    ensures appended { OnOk result (out.new.items ≡ out.old.items ++ code_line number error) }
{
    let code = error.code();
    let line = format!(in alloc; "{number}: error {code}\n")?;
    out.extend_from_slice(line.as_bytes())?;
    Ok(())
}
