//! The lines of the journal.

ghost use Rattle.std.specs.Prelude.{◌≡◌, ◌++◌, OnOk, decimal};
ghost use Rattle.np_model.specs.Journal.{new_line};

use np_values::NoMemory;

// Appends a number in decimal digits.
#[tactic(auto, using(std::proofs::lemmas::Fmt::decimal_digit))]
fn push_decimal(out: &mut Vec<u8>, number: u8) -> Result<(), NoMemory>
    ensures appended { OnOk result (out.new.items ≡ out.old.items ++ decimal number) }
{
    if number < 10 {
        out.push(b'0' + number)?;
        return Ok(());
    }
    push_decimal(out, number / 10)?;
    out.push(b'0' + number % 10)?;
    Ok(())
}

/// Appends the line of the handler that is run for NPP_New of this instance.
pub fn push_new(out: &mut Vec<u8>, instance: u8) -> Result<(), NoMemory>
    ensures appended { OnOk result (out.new.items ≡ out.old.items ++ new_line instance) }
{
    out.extend_from_slice(b"> inst:")?;
    push_decimal(out, instance)?;
    out.extend_from_slice(b" new\n")?;
    Ok(())
}
