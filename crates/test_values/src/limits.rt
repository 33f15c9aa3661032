//! The greatest weights and depths of values.

use crate::made::{one, push, stop_name};
use ng_values::{NgText, Stop, Value, add, list, rec};
use std::alloc::{AllocError, Global};
use std::test::Fail;

// A list of this many nulls.
fn nulls(alloc: Global, number: u64) -> Result<Value, Stop> {
    let mut items = Vec::new(alloc);
    for _ in 0..number {
        push(&mut items, Value::Null)?;
    }
    list(alloc, items)
}

// A list of this alone.
fn list_of(alloc: Global, item: Value) -> Result<Value, Stop> {
    list(alloc, one(alloc, item)?)
}

// A list that nests this many lists.
fn nested(alloc: Global, number: u64) -> Result<Value, Stop> {
    let mut made = Value::Null;
    for _ in 0..number {
        made = list_of(alloc, made)?;
    }
    Ok(made)
}

#[test]
fn of_lists(rt: HostRuntime) -> Result<(), Fail> {
    let alloc = rt.alloc();
    assert_eq!(rt; nulls(alloc, 65535)?.weight(), 65536);
    assert_eq!(rt; stop_name(&nulls(alloc, 65536)), "ValueTooLarge");
    assert_eq!(rt; nested(alloc, 32)?.depth(), 32);
    assert_eq!(rt; stop_name(&nested(alloc, 33)), "ValueTooDeep");
    Ok(())
}

// A text of this many bytes.
fn long_text(alloc: Global, bytes: u64) -> Result<NgText, AllocError> {
    let mut letters = String::new(alloc);
    for _ in 0..bytes {
        letters.push('x')?;
    }
    NgText::from_string(alloc, letters)
}

// A record of one key of this many bytes, with null.
fn long_key(alloc: Global, bytes: u64) -> Result<Value, Stop> {
    let pair = (long_text(alloc, bytes)?, Value::Null);
    rec(alloc, one(alloc, pair)?)
}

// A text of this many bytes and one more.
fn longer(alloc: Global, bytes: u64) -> Result<Value, Stop> {
    let letters = Value::Text(long_text(alloc, bytes)?);
    add(alloc, &letters, &Value::Int(1))
}

#[test]
fn of_records_and_texts(rt: HostRuntime) -> Result<(), Fail> {
    let alloc = rt.alloc();
    assert_eq!(rt; long_key(alloc, 65533)?.weight(), 65536);
    assert_eq!(rt; stop_name(&long_key(alloc, 65534)), "ValueTooLarge");
    assert_eq!(rt; longer(alloc, 65534)?.weight(), 65536);
    assert_eq!(rt; stop_name(&longer(alloc, 65535)), "ValueTooLarge");
    Ok(())
}
