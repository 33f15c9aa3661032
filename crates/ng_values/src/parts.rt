ghost use Rattle.std.specs.Prelude.{◌≡◌, ◌<◌, ◌^◌, ◌≤◌, length, IfOk, slice_get};
ghost use Rattle.std.specs.Str.{chars};
ghost use Rattle.ng_values.specs.Make.{Answers};
ghost use Rattle.ng_values.specs.Parts.{indexed, part, item_at, or_null, value_at, length_alone};
ghost use Rattle.ng_values.specs.View.{plain_items};

use crate::fault::{Fault, Stop};
use crate::value::{NgRec, Value};
use std::alloc::{AllocError, Global};

/// `of[at]`: the item of a list at a number, counted from 0, or the value of a record at a text; null where there is none.
/// NullRead on null, WrongKind for all other pairs. The value is shared and not copied: a list takes constant time, a record a
/// binary search.
pub fn index(_alloc: Global, of: &Value, at: &Value) -> Result<Value, Stop>
    ensures { Answers (indexed of.now at.now) result }
{
    match (of, at) {
        (Value::Null, _) => Err(Stop::Fault(Fault::NullRead)),
        (Value::List(list), Value::Int(number)) => Ok(item(list.items(), *number)?),
        (Value::Rec(rec), Value::Text(key)) => Ok(value_at_key(rec, key.as_str())?),
        _ => Err(Stop::Fault(Fault::WrongKind)),
    }
}

/// `of.name`: the value of a record at a name, or null where there is none; `length` is the number of a list's items and of a
/// text's characters. NullRead on null, NoMember for all other pairs.
pub fn member(_alloc: Global, of: &Value, name: &str) -> Result<Value, Stop>
    ensures { Answers (part of.now name.now) result }
{
    match of {
        Value::Null => Err(Stop::Fault(Fault::NullRead)),
        Value::Rec(rec) => Ok(value_at_key(rec, name)?),
        Value::List(list) => Ok(only_length(name, list.items().len())?),
        Value::Text(text) => Ok(only_length(name, characters(text.as_str()))?),
        _ => Err(Stop::Fault(Fault::NoMember)),
    }
}

/// The number of characters of a text, in time linear in its bytes.
pub fn characters(text: &str) -> usize
    ensures value { result ≡ length (chars text.now) }
    ensures bound { result < 2 ^ 63 }
{
    let _bytes = text.as_bytes().len();
    text.chars().count()
}

fn only_length(name: &str, number: usize) -> Result<Value, Fault>
    requires { number < 2 ^ 63 }
    ensures { result ≡ length_alone name.now number }
{
    if name == "length" {
        Ok(Value::Int(number as i64))
    } else {
        Err(Fault::NoMember)
    }
}

fn item(items: &[Value], number: i64) -> Result<Value, AllocError>
    ensures { IfOk result (λ value. value ≡ item_at (plain_items items.now) number) }
{
    if number < 0 {
        Ok(Value::Null)
    } else {
        nth(items, number as usize)
    }
}

fn nth(items: &[Value], at: usize) -> Result<Value, AllocError>
    ensures { IfOk result (λ value. value ≡ or_null (slice_get (plain_items items.now) at)) }
{
    if at < items.len() {
        items[at].copy()
    } else {
        Ok(Value::Null)
    }
}

fn value_at_key(rec: &NgRec, key: &str) -> Result<Value, AllocError>
    ensures { IfOk result (λ value. value ≡ value_at rec.now key.now) }
{
    match rec.get(key) {
        Some(value) => value.copy(),
        None => Ok(Value::Null),
    }
}
