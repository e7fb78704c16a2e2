//! Reads and writes of lists of values, by place.

ghost use Rattle.std.specs.Prelude.{◌≡◌, ◌++◌, ◌-◌, IfOk, OnOk};
ghost use Rattle.np_machine.specs.Values.{read_at, old_at, put_at as put_in, voids};

use np_values::{NoMemory, TryCopy, Value, Values};
use std::alloc::Global;

/// The value at a place of a list, copied; Void past its end.
pub fn copy_at(alloc: Global, values: &Values, place: usize) -> Result<Value, NoMemory>
    ensures value { IfOk result (λ v. v ≡ read_at place values.now) }
{
    let values = values.as_slice();
    if values.len() <= place {
        return Ok(Value::Void);
    }
    values[place].try_copy(alloc)
}

/// Puts a value at a place of a list, and gives back what was there; past the list's end it is given back itself.
pub fn put_at(values: &mut Values, place: usize, value: Value) -> Value
    ensures list { values.new ≡ put_in place value values.old }
    ensures value { result ≡ old_at place value values.old }
{
    if values.len() <= place {
        return value;
    }
    values.replace(place, value)
}

/// Appends as many Voids to so many values as make 16 registers.
pub fn fill_registers(registers: &mut Values, count: usize) -> Result<(), NoMemory>
    ensures ok { OnOk result (registers.new ≡ registers.old ++ voids (16 - count)) }
{
    let missing = 16usize.saturating_sub(count);
    for turn in 0..missing {
        registers.push(Value::Void)?;
    }
    Ok(())
}
