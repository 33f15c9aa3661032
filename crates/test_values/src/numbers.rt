//! The operators on numbers.

use crate::made::{fault_name, numbers, shown, text};
use ng_values::{Fault, Value, add, div, less, mul, rem, sub};
use std::test::Fail;

fn number_of(made: Result<Value, Fault>) -> Result<i64, &'static str> {
    match made {
        Ok(Value::Int(number)) => Ok(number),
        Ok(_) => Err("no number"),
        Err(fault) => Err(fault_name(&fault)),
    }
}

#[test]
fn division_rounds_towards_zero(rt: HostRuntime) {
    for (of, by, quotient, remainder) in [
        (-7, 2, Ok(-3), Ok(-1)),
        (7, -2, Ok(-3), Ok(1)),
        (i64::MIN, -1, Err("Overflow"), Ok(0)),
        (2, 0, Err("DivideByZero"), Err("DivideByZero")),
    ] {
        let (of, by) = (Value::Int(of), Value::Int(by));
        assert_eq!(rt; number_of(div(&of, &by)), quotient);
        assert_eq!(rt; number_of(rem(&of, &by)), remainder);
    }
}

#[test]
fn products_differences_and_order(rt: HostRuntime) {
    let (two, less_seven) = (Value::Int(2), Value::Int(-7));
    assert_eq!(rt; number_of(mul(&two, &less_seven)), Ok(-14));
    assert_eq!(rt; number_of(mul(&two, &Value::Null)), Err("WrongKind"));
    assert_eq!(rt; number_of(sub(&two, &less_seven)), Ok(9));
    assert!(rt; matches!(less(&less_seven, &two), Ok(Value::Bool(true))));
}

#[test]
fn a_text_and_a_number_are_joined(rt: HostRuntime) -> Result<(), Fail> {
    let alloc = rt.alloc();
    let joined = add(alloc, &text(alloc, "a")?, &Value::Int(1));
    assert_eq!(rt; shown(alloc, joined)?.as_str(), "a1");
    let refused = add(alloc, &numbers(alloc, &[])?, &Value::Int(1));
    assert_eq!(rt; shown(alloc, refused)?.as_str(), "WrongKind");
    Ok(())
}
