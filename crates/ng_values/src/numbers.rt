ghost use Rattle.std.specs.Prelude.{◌≡◌, pos, ◌-ℤ◌, ◌*ℤ◌, int_div, int_rem, if◌then◌else◌, Ok, Err};
ghost use Rattle.std.specs.Ordering.{int_eq};
ghost use Rattle.ng_values.specs.declared.fault.Fault.TheVariants.{DivideByZero};
ghost use Rattle.ng_values.specs.declared.value.Value.TheVariants.{Int};
ghost use Rattle.ng_values.specs.Add.{number};
ghost use Rattle.ng_values.specs.Numbers.{difference, product, quotient, remainder, precedes};

use crate::fault::Fault;
use crate::value::Value;

/// The operator `-` of two numbers: Overflow where the difference is outside the 64 bits of a signed integer, WrongKind for other
/// operands.
pub fn sub(a: &Value, b: &Value) -> Result<Value, Fault>
    ensures { result ≡ difference a.now b.now }
{
    match (a, b) {
        (Value::Int(first), Value::Int(second)) => subtract(*first, *second),
        _ => Err(Fault::WrongKind),
    }
}

/// The operator `*` of two numbers: Overflow where the product is outside the 64 bits of a signed integer, WrongKind for other
/// operands.
pub fn mul(a: &Value, b: &Value) -> Result<Value, Fault>
    ensures { result ≡ product a.now b.now }
{
    match (a, b) {
        (Value::Int(first), Value::Int(second)) => multiply(*first, *second),
        _ => Err(Fault::WrongKind),
    }
}

/// The operator `/` of two numbers, which rounds towards zero: DivideByZero by 0, Overflow at the least number by -1,
/// WrongKind for other operands.
pub fn div(a: &Value, b: &Value) -> Result<Value, Fault>
    ensures { result ≡ quotient a.now b.now }
{
    match (a, b) {
        (Value::Int(dividend), Value::Int(divisor)) => divide(*dividend, *divisor),
        _ => Err(Fault::WrongKind),
    }
}

/// The operator `%` of two numbers, which has the sign of the first: DivideByZero by 0, WrongKind for other operands.
/// The least number by -1 has the remainder 0.
pub fn rem(a: &Value, b: &Value) -> Result<Value, Fault>
    ensures { result ≡ remainder a.now b.now }
{
    match (a, b) {
        (Value::Int(dividend), Value::Int(divisor)) => rest(*dividend, *divisor),
        _ => Err(Fault::WrongKind),
    }
}

/// The operator `<` of two numbers, or of two texts by their bytes, in time linear in what these have in common: WrongKind for other
/// operands.
pub fn less(a: &Value, b: &Value) -> Result<Value, Fault>
    ensures { result ≡ precedes a.now b.now }
{
    match (a, b) {
        (Value::Int(first), Value::Int(second)) => Ok(Value::Bool(first < second)),
        (Value::Text(first), Value::Text(second)) => {
            Ok(Value::Bool(first.as_str() < second.as_str()))
        }
        _ => Err(Fault::WrongKind),
    }
}

fn subtract(first: i64, second: i64) -> Result<Value, Fault>
    ensures { result ≡ number (first -ℤ second) }
{
    match first.checked_sub(second) {
        Some(difference) => Ok(Value::Int(difference)),
        None => Err(Fault::Overflow),
    }
}

fn multiply(first: i64, second: i64) -> Result<Value, Fault>
    ensures { result ≡ number (first *ℤ second) }
{
    match first.checked_mul(second) {
        Some(product) => Ok(Value::Int(product)),
        None => Err(Fault::Overflow),
    }
}

fn divide(dividend: i64, divisor: i64) -> Result<Value, Fault>
    ensures { result ≡ (if int_eq divisor (pos 0) then Err DivideByZero else number (int_div dividend divisor)) }
{
    if divisor == 0 {
        return Err(Fault::DivideByZero);
    }
    match dividend.checked_div(divisor) {
        Some(quotient) => Ok(Value::Int(quotient)),
        None => Err(Fault::Overflow),
    }
}

fn rest(dividend: i64, divisor: i64) -> Result<Value, Fault>
    ensures { result ≡ (if int_eq divisor (pos 0) then Err DivideByZero else Ok (Int (int_rem dividend divisor))) }
{
    if divisor == 0 {
        return Err(Fault::DivideByZero);
    }
    Ok(Value::Int(dividend.wrapping_rem(divisor)))
}
