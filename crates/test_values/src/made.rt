//! Values that several tests begin with, and short names of what calls give.

use ng_values::{Fault, NgText, Stop, Value, list, rec};
use std::alloc::{AllocError, Global};

pub(crate) fn push<T: Drop>(items: &mut Vec<T>, item: T) -> Result<(), AllocError> {
    Ok(items.push(item)?)
}

pub(crate) fn one<T: Drop>(alloc: Global, item: T) -> Result<Vec<T>, AllocError> {
    let mut items = Vec::new(alloc);
    items.push(item)?;
    Ok(items)
}

pub(crate) fn two<T: Drop>(alloc: Global, first: T, second: T) -> Result<Vec<T>, AllocError> {
    let mut items = one(alloc, first)?;
    items.push(second)?;
    Ok(items)
}

pub(crate) fn text(alloc: Global, letters: &str) -> Result<Value, Stop> {
    Ok(Value::Text(NgText::new(alloc, letters)?))
}

// The list of these numbers.
pub(crate) fn numbers(alloc: Global, from: &[i64]) -> Result<Value, Stop> {
    let mut items = Vec::new(alloc);
    for number in from {
        push(&mut items, Value::Int(*number))?;
    }
    list(alloc, items)
}

// The record of these keys and numbers.
pub(crate) fn record(alloc: Global, from: &[(&str, i64)]) -> Result<Value, Stop> {
    let mut pairs = Vec::new(alloc);
    for (key, number) in from {
        push(&mut pairs, (NgText::new(alloc, key)?, Value::Int(*number)))?;
    }
    rec(alloc, pairs)
}

// The number, or null.
pub(crate) fn number_or_null(number: Option<i64>) -> Value {
    match number {
        Some(number) => Value::Int(number),
        None => Value::Null,
    }
}

pub(crate) fn fault_name(fault: &Fault) -> &'static str {
    match fault {
        Fault::Overflow => "Overflow",
        Fault::DivideByZero => "DivideByZero",
        Fault::WrongKind => "WrongKind",
        Fault::NullRead => "NullRead",
        Fault::NoMember => "NoMember",
        Fault::ValueTooLarge => "ValueTooLarge",
        Fault::ValueTooDeep => "ValueTooDeep",
        _ => "another fault",
    }
}

// Why a call gave no value.
pub(crate) fn stop_name(made: &Result<Value, Stop>) -> &'static str {
    match made {
        Ok(_) => "none",
        Err(Stop::Fault(fault)) => fault_name(fault),
        Err(Stop::Memory) => "Memory",
    }
}

// The text form of what a call gave, or the name of the fault.
pub(crate) fn shown(alloc: Global, made: Result<Value, Stop>) -> Result<NgText, AllocError> {
    match &made {
        Ok(value) => value.text_of(alloc),
        _ => NgText::new(alloc, stop_name(&made)),
    }
}
