//! Text and JSON forms, records of many keys, and values as keys.

use crate::made::{numbers, push, record, shown, text};
use ng_values::{NgText, Stop, Value, list, member, rec};
use std::alloc::Global;
use std::cmp::Ordering;
use std::collections::HashMap;
use std::test::Fail;

// A list of null, a truth value, a number, a text, an empty list and a record.
fn each_kind(alloc: Global) -> Result<Value, Fail> {
    let items = vec![in alloc;
        Value::Null,
        Value::Bool(true),
        Value::Int(-5),
        text(alloc, "a")?,
        numbers(alloc, &[])?,
        record(alloc, &[("a", 1)])?,
    ]?;
    Ok(list(alloc, items)?)
}

#[test]
fn the_forms_of_each_kind(rt: HostRuntime) -> Result<(), Fail> {
    let alloc = rt.alloc();
    let items = each_kind(alloc)?;
    assert_eq!(rt;
        items.text_of(alloc)?.as_str(),
        ",true,-5,a,,[object Object]"
    );
    assert_eq!(rt;
        items.json_text_of(alloc)?.as_str(),
        "[null,true,-5,\"a\",[],{\"a\":1}]"
    );
    Ok(())
}

#[test]
fn json_escapes(rt: HostRuntime) -> Result<(), Fail> {
    let alloc = rt.alloc();
    let letters = text(alloc, "\"\\\u{8}\t\n\u{c}\r\u{1}\u{1f}é")?;
    assert_eq!(rt;
        letters.json_of(alloc)?.as_slice(),
        "\"\\\"\\\\\\b\\t\\n\\f\\r\\u0001\\u001fé\"".as_bytes()
    );
    Ok(())
}

#[test]
fn a_later_key_wins(rt: HostRuntime) -> Result<(), Fail> {
    let alloc = rt.alloc();
    let made = record(alloc, &[("b", 1), ("a", 2), ("b", 3)])?;
    assert_eq!(rt; made.json_text_of(alloc)?.as_str(), "{\"a\":2,\"b\":3}");
    Ok(())
}

// A record of a thousand keys, whose values are false but for one.
fn many_keys(alloc: Global) -> Result<Value, Stop> {
    let mut pairs = Vec::new(alloc);
    for at in 0..1000u64 {
        let number = at * 7 % 1000;
        let key = number.to_string(alloc)?;
        push(
            &mut pairs,
            (
                NgText::new(alloc, key.as_str())?,
                Value::Bool(number == 617),
            ),
        )?;
    }
    rec(alloc, pairs)
}

#[test]
fn a_record_of_many_keys(rt: HostRuntime) -> Result<(), Fail> {
    let alloc = rt.alloc();
    let made = many_keys(alloc)?;
    for (key, want) in [("617", "true"), ("616", "false"), ("x", "")] {
        assert_eq!(rt; shown(alloc, member(alloc, &made, key))?.as_str(), want);
    }
    Ok(())
}

#[test]
fn a_value_is_a_key(rt: HostRuntime) -> Result<(), Fail> {
    let alloc = rt.alloc();
    let mut map = HashMap::new(alloc);
    map.insert(numbers(alloc, &[1, 2, 3])?, 5u8)?;
    let again = numbers(alloc, &[1, 2, 3])?;
    assert_eq!(rt; map.get(&again).copied(), Some(5));
    assert_eq!(rt; again.compare(&Value::Null), Ordering::Greater);
    Ok(())
}
