//! The pipes that every template has.

use crate::made::{numbers, record, shown, text};
use ng_pipes::{PipeId, apply};
use ng_values::{Stop, Value};
use std::alloc::Global;
use std::test::Fail;

// A pipe of a value, with the argument 1.
fn piped(alloc: Global, pipe: PipeId, value: Value) -> Result<Value, Stop> {
    let args = [value, Value::Int(1)];
    apply(alloc, pipe, &args)
}

#[test]
fn pipes_of_a_text(rt: HostRuntime) -> Result<(), Fail> {
    let alloc = rt.alloc();
    for (pipe, want) in [
        (PipeId::Uppercase, "ABé"),
        (PipeId::Lowercase, "abé"),
        (PipeId::Slice, "Bé"),
        (PipeId::Length, "3"),
        (PipeId::Json, "\"aBé\""),
    ] {
        let made = piped(alloc, pipe, text(alloc, "aBé")?);
        assert_eq!(rt; shown(alloc, made)?.as_str(), want);
    }
    Ok(())
}

#[test]
fn pipes_of_other_values(rt: HostRuntime) -> Result<(), Fail> {
    let alloc = rt.alloc();
    for (pipe, want) in [
        (PipeId::Slice, "5,6"),
        (PipeId::Length, "3"),
        (PipeId::Json, "[4,5,6]"),
        (PipeId::Uppercase, "WrongKind"),
    ] {
        let made = piped(alloc, pipe, numbers(alloc, &[4, 5, 6])?);
        assert_eq!(rt; shown(alloc, made)?.as_str(), want);
    }
    let made = piped(alloc, PipeId::Json, record(alloc, &[("b", 1), ("a", 2)])?);
    assert_eq!(rt; shown(alloc, made)?.as_str(), "{\"a\":2,\"b\":1}");
    Ok(())
}

#[test]
fn pipes_of_null_and_of_a_number(rt: HostRuntime) -> Result<(), Fail> {
    let alloc = rt.alloc();
    assert!(rt; piped(alloc, PipeId::Slice, Value::Null)?.same(&Value::Null));
    let made = piped(alloc, PipeId::Json, Value::Null);
    assert_eq!(rt; shown(alloc, made)?.as_str(), "null");
    let made = piped(alloc, PipeId::Length, Value::Int(1));
    assert_eq!(rt; shown(alloc, made)?.as_str(), "WrongKind");
    Ok(())
}
