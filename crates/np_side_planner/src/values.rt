//! Values that plans compare and add.
ghost use Rattle.std.specs.Prelude.{◌≡◌};
ghost use Rattle.np_machine_plans.specs.PlanParts.{is_same_value, operand_value as value_of};
ghost use Rattle.np_machine_plans.specs.Actions.{int_sum as sum_of};
ghost use Rattle.np_values.specs.declared.value.Value.TheVariants.{Void};

use np_script_grammar::Operand;
use np_values::Value;

/// Whether two values have the same kind and content; two doubles where their bytes are the same.
pub fn same_value(a: &Value, b: &Value) -> bool
    ensures value { result ≡ is_same_value a.now b.now }
{
    match (a, b) {
        (Value::Void, Value::Void) | (Value::Null, Value::Null) => true,
        (Value::Bool(a), Value::Bool(b)) => a == b,
        (Value::Int(a), Value::Int(b)) => a == b,
        (Value::Double(a), Value::Double(b)) => a == b,
        (Value::Text(a), Value::Text(b)) => a.as_str().as_bytes() == b.as_str().as_bytes(),
        (Value::Object(a), Value::Object(b)) => a == b,
        _ => false,
    }
}

/// The sum of two Ints, where it is one of 32 bits.
pub fn int_sum(a: &Value, b: &Value) -> Option<i32>
    ensures value { result ≡ sum_of a.now b.now }
{
    match (a, b) {
        (Value::Int(a), Value::Int(b)) => a.checked_add(*b),
        _ => None,
    }
}

/// The value of an operand, where the registers hold these values. A register past their end is Void, which the caller lends.
pub fn operand_value<'a>(registers: &'a [Value], operand: &'a Operand, void: &'a Value) -> &'a Value
    requires void { void.now ≡ Void }
    ensures value { result.now ≡ value_of registers.now operand.now }
{
    match operand {
        Operand::Reg(register) => {
            let place = usize::from(*register);
            if registers.len() <= place {
                return void;
            }
            &registers[place]
        }
        Operand::Const(value) => value,
    }
}
