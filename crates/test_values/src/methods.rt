//! Methods and parts of lists, records and texts.

use crate::made::{number_or_null, numbers, one, record, shown, stop_name, text, two};
use ng_values::{NgText, Stop, Value, index, invoke, member};
use std::alloc::Global;
use std::test::Fail;

// A call with a number and a number or null.
fn called(
    alloc: Global,
    of: &Value,
    name: &str,
    first: i64,
    second: Option<i64>,
) -> Result<Value, Stop> {
    let args = two(alloc, Value::Int(first), number_or_null(second))?;
    invoke(alloc, of, name, args.as_slice())
}

fn called_with(alloc: Global, of: &Value, name: &str, argument: Value) -> Result<Value, Stop> {
    let args = one(alloc, argument)?;
    invoke(alloc, of, name, args.as_slice())
}

#[test]
fn calls_of_a_list(rt: HostRuntime) -> Result<(), Fail> {
    let alloc = rt.alloc();
    let items = numbers(alloc, &[1, 2, 3])?;
    for (name, first, second, want) in [
        ("slice", 1, Some(9), "2,3"),
        ("slice", 2, Some(1), ""),
        ("slice", 9, Some(9), ""),
        ("slice", 1, None, "2,3"),
        ("slice", -1, None, "WrongKind"),
        ("with", 1, Some(9), "1,9,3"),
        ("with", 2, Some(9), "1,2,9"),
        ("with", 3, Some(9), "WrongKind"),
        ("toSpliced", 1, Some(9), "1"),
        ("toSpliced", 1, Some(1), "1,3"),
        ("toSpliced", 9, Some(1), "1,2,3"),
        ("toSpliced", 1, None, "1"),
        ("indexOf", 1, Some(9), "0"),
        ("indexOf", 9, Some(1), "-1"),
        ("includes", 1, Some(9), "true"),
        ("includes", 9, Some(1), "false"),
        ("concat", 1, None, "WrongKind"),
        ("push", 1, None, "NoMember"),
    ] {
        let made = called(alloc, &items, name, first, second);
        assert_eq!(rt; shown(alloc, made)?.as_str(), want, "{name} {first}");
    }
    Ok(())
}

#[test]
fn calls_with_other_arguments(rt: HostRuntime) -> Result<(), Fail> {
    let alloc = rt.alloc();
    let items = numbers(alloc, &[1, 2, 3])?;
    let both = called_with(alloc, &items, "concat", items.copy()?);
    assert_eq!(rt; shown(alloc, both)?.as_str(), "1,2,3,1,2,3");
    let refused = called_with(alloc, &items, "slice", Value::Null);
    assert_eq!(rt; stop_name(&refused), "WrongKind");
    let refused = called_with(alloc, &items, "toSpliced", text(alloc, "1")?);
    assert_eq!(rt; stop_name(&refused), "WrongKind");
    Ok(())
}

#[test]
fn calls_of_other_values(rt: HostRuntime) -> Result<(), Fail> {
    let alloc = rt.alloc();
    let pair = record(alloc, &[("a", 1)])?;
    assert_eq!(rt;
        stop_name(&called(alloc, &pair, "with", 1, None)),
        "WrongKind"
    );
    assert_eq!(rt;
        stop_name(&called(alloc, &Value::Int(1), "with", 1, None)),
        "NoMember"
    );
    assert_eq!(rt;
        stop_name(&called(alloc, &Value::Null, "push", 1, None)),
        "NullRead"
    );
    Ok(())
}

fn with_key(alloc: Global, of: &Value, key: &str, value: Value) -> Result<Value, Stop> {
    let args = two(alloc, text(alloc, key)?, value)?;
    invoke(alloc, of, "with", args.as_slice())
}

#[test]
fn a_record_with_a_key(rt: HostRuntime) -> Result<(), Fail> {
    let alloc = rt.alloc();
    let made = with_key(alloc, &record(alloc, &[("a", 1)])?, "a", Value::Int(2))?;
    assert_eq!(rt; made.json_text_of(alloc)?.as_str(), "{\"a\":2}");
    let made = called_with(alloc, &made, "with", text(alloc, "A")?)?;
    assert_eq!(rt; made.json_text_of(alloc)?.as_str(), "{\"A\":null,\"a\":2}");
    Ok(())
}

#[test]
fn items_of_a_list(rt: HostRuntime) -> Result<(), Fail> {
    let alloc = rt.alloc();
    let items = numbers(alloc, &[1, 2, 3])?;
    for (at, want) in [(0, "1"), (1, "2"), (3, ""), (-1, "")] {
        let made = index(alloc, &items, &Value::Int(at));
        assert_eq!(rt; shown(alloc, made)?.as_str(), want, "{at}");
    }
    let refused = index(alloc, &items, &text(alloc, "0")?);
    assert_eq!(rt; stop_name(&refused), "WrongKind");
    assert_eq!(rt;
        stop_name(&index(alloc, &Value::Null, &Value::Int(0))),
        "NullRead"
    );
    Ok(())
}

fn part(alloc: Global, of: &Value, name: &str) -> Result<NgText, Fail> {
    Ok(shown(alloc, member(alloc, of, name))?)
}

#[test]
fn parts_of_values(rt: HostRuntime) -> Result<(), Fail> {
    let alloc = rt.alloc();
    let items = numbers(alloc, &[1, 2, 3])?;
    assert_eq!(rt; part(alloc, &items, "length")?.as_str(), "3");
    assert_eq!(rt; part(alloc, &items, "size")?.as_str(), "NoMember");
    assert_eq!(rt; part(alloc, &text(alloc, "éa")?, "length")?.as_str(), "2");
    assert_eq!(rt; part(alloc, &Value::Null, "length")?.as_str(), "NullRead");
    Ok(())
}
