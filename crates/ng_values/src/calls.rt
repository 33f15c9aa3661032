ghost use Rattle.std.specs.Prelude.{◌≡◌, ◌+◌, ◌++◌, ◌∷◌, [], ◌<◌, ◌^◌, IfOk, OnOk, take, drop, length, codes, Err, if◌then◌else◌};
ghost use Rattle.std.specs.Option.{ForSome};
ghost use Rattle.ng_values.specs.declared.fault.Fault.TheVariants.{NoMember};
ghost use Rattle.ng_values.specs.Parts.{is_text};
ghost use Rattle.ng_values.specs.Make.{Answers, list_of};
ghost use Rattle.ng_values.specs.Calls.{argument as argument_of, natural as natural_of, natural_or as natural_or_of, concatenated, sliced, with_item as item_replaced, spliced as items_removed, place_of, place_or_none, list_call, with_key as key_replaced, invoked};
ghost use Rattle.ng_values.specs.View.{plain, plain_items, plain_pairs};

use crate::fault::{Fault, Stop};
use crate::make::list;
use crate::records::rec;
use crate::text::NgText;
use crate::value::Value;
use std::alloc::{AllocError, Global};

/// A call of a method, with arguments from 0 on. Of a list: `concat(l)` has the items of both; `slice(a, b)` those from a up to before
/// b; `with(i, v)` has v in the place of item i; `toSpliced(i, n)` lacks n items from i on; `indexOf(v)` is the first place of v, or -1;
/// `includes(v)` whether it stands there. Of a record: `with(k, v)` has v at the key k. Ends beyond the length stand for it, and so does
/// null for b and n. Surplus arguments are dropped and missing ones are null.
///
/// NullRead on null, NoMember where there is no such method, WrongKind where an argument is of another kind, below 0, or for `with` of a
/// list out of range; ValueTooLarge and ValueTooDeep as for `list` and `rec`. Items are shared and not copied. It takes time linear in
/// the items, for `indexOf` and `includes` in their content, and for n pairs of a record n log n comparisons of keys. The names are those
/// of JavaScript's arrays, and what they answer for wrong arguments, and `with` of a record, is this project's own.
pub fn invoke(alloc: Global, of: &Value, name: &str, args: &[Value]) -> Result<Value, Stop>
    ensures { Answers (invoked of.now name.now args.now) result }
{
    match of {
        Value::Null => Err(Stop::Fault(Fault::NullRead)),
        Value::List(items) => call_of_list(alloc, items.items(), name, args),
        Value::Rec(rec) => call_of_rec(alloc, rec.pairs(), name, args),
        _ => Err(Stop::Fault(Fault::NoMember)),
    }
}

fn call_of_list(alloc: Global, items: &[Value], name: &str, args: &[Value]) -> Result<Value, Stop>
    ensures { Answers (list_call name.now (plain_items items.now) (argument_of 0 args.now) (argument_of 1 args.now)) result }
{
    let first = argument(args, 0)?;
    let second = argument(args, 1)?;
    call_with(alloc, items, name, &first, &second)
}

// A call of a list with its two arguments.
fn call_with(
    alloc: Global,
    items: &[Value],
    name: &str,
    first: &Value,
    second: &Value,
) -> Result<Value, Stop>
    ensures { Answers (list_call name.now (plain_items items.now) first.now second.now) result }
{
    if name == "concat" {
        concat(alloc, items, first)
    } else if name == "slice" {
        slice(alloc, items, first, second)
    } else if name == "with" {
        with_item(alloc, items, first, second)
    } else if name == "toSpliced" {
        to_spliced(alloc, items, first, second)
    } else if name == "indexOf" {
        Ok(number_of(index_of(items, first)))
    } else if name == "includes" {
        Ok(Value::Bool(index_of(items, first).is_some()))
    } else {
        Err(Stop::Fault(Fault::NoMember))
    }
}

fn call_of_rec(
    alloc: Global,
    pairs: &[(NgText, Value)],
    name: &str,
    args: &[Value],
) -> Result<Value, Stop>
    ensures { Answers (if is_text name.now (codes "with") then key_replaced (plain_pairs pairs.now) (argument_of 0 args.now) (argument_of 1 args.now) else Err NoMember) result }
{
    if name != "with" {
        return Err(Stop::Fault(Fault::NoMember));
    }
    let key = argument(args, 0)?;
    let value = argument(args, 1)?;
    with_key(alloc, pairs, &key, &value)
}

/// The argument at a place of a call, counted from 0, or null where it is missing.
pub fn argument(args: &[Value], at: usize) -> Result<Value, AllocError>
    ensures { IfOk result (λ value. value ≡ argument_of at args.now) }
{
    if at < args.len() {
        args[at].copy()
    } else {
        Ok(Value::Null)
    }
}

/// An argument as a number from 0 on: WrongKind for a number below 0 and for other kinds, null among them.
pub fn natural(value: &Value) -> Result<usize, Fault>
    ensures { result ≡ natural_of value.now }
{
    match value {
        Value::Int(number) if *number >= 0 => Ok(*number as usize),
        _ => Err(Fault::WrongKind),
    }
}

/// The same, where null stands for the number `otherwise`.
pub fn natural_or(otherwise: usize, value: &Value) -> Result<usize, Fault>
    ensures { result ≡ natural_or_of otherwise value.now }
{
    match value {
        Value::Null => Ok(otherwise),
        _ => natural(value),
    }
}

fn concat(alloc: Global, items: &[Value], more: &Value) -> Result<Value, Stop>
    ensures { Answers (concatenated (plain_items items.now) more.now) result }
{
    match more {
        Value::List(more) => joined(alloc, items, more.items()),
        _ => Err(Stop::Fault(Fault::WrongKind)),
    }
}

fn slice(alloc: Global, items: &[Value], from: &Value, to: &Value) -> Result<Value, Stop>
    ensures { Answers (sliced (plain_items items.now) from.now to.now) result }
{
    let from = natural(from)?;
    let to = natural_or(items.len(), to)?;
    joined(alloc, rest(front(items, to), from), &[])
}

fn with_item(alloc: Global, items: &[Value], at: &Value, value: &Value) -> Result<Value, Stop>
    ensures { Answers (item_replaced (plain_items items.now) at.now value.now) result }
{
    let at = natural(at)?;
    if at >= items.len() {
        return Err(Stop::Fault(Fault::WrongKind));
    }
    list(alloc, replaced(alloc, items, at, value)?)
}

// The items with this one at a place.
fn replaced(
    alloc: Global,
    items: &[Value],
    at: usize,
    value: &Value,
) -> Result<Vec<Value>, AllocError>
    requires { at < length items.now }
    ensures { IfOk result (λ out. plain_items out.items ≡ take at (plain_items items.now) ++ plain value.now ∷ drop (at + 1) (plain_items items.now)) }
{
    let mut out = Vec::new(alloc);
    append(&mut out, front(items, at))?;
    push(&mut out, value)?;
    append(&mut out, rest(items, at + 1))?;
    Ok(out)
}

fn to_spliced(alloc: Global, items: &[Value], at: &Value, number: &Value) -> Result<Value, Stop>
    ensures { Answers (items_removed (plain_items items.now) at.now number.now) result }
{
    let at = natural(at)?;
    let number = natural_or(items.len(), number)?;
    joined(alloc, front(items, at), rest(rest(items, at), number))
}

fn with_key(
    alloc: Global,
    pairs: &[(NgText, Value)],
    key: &Value,
    value: &Value,
) -> Result<Value, Stop>
    ensures { Answers (key_replaced (plain_pairs pairs.now) key.now value.now) result }
{
    match key {
        Value::Text(key) => rec(alloc, and_pair(alloc, pairs, key, value)?),
        _ => Err(Stop::Fault(Fault::WrongKind)),
    }
}

// The pairs and one more.
fn and_pair(
    alloc: Global,
    pairs: &[(NgText, Value)],
    key: &NgText,
    value: &Value,
) -> Result<Vec<(NgText, Value)>, AllocError>
    ensures { IfOk result (λ out. plain_pairs out.items ≡ plain_pairs pairs.now ++ (key.now, plain value.now) ∷ []) }
{
    let mut out = Vec::new(alloc);
    for pair in pairs {
        push_pair(&mut out, &pair.0, &pair.1)?;
    }
    push_pair(&mut out, key, value)?;
    Ok(out)
}

fn push_pair(out: &mut Vec<(NgText, Value)>, key: &NgText, value: &Value) -> Result<(), AllocError>
    ensures { OnOk result (plain_pairs out.new.items ≡ plain_pairs out.old.items ++ (key.now, plain value.now) ∷ []) }
{
    let pair = (key.copy()?, value.copy()?);
    Ok(out.push(pair)?)
}

// The list of the items of both.
fn joined(alloc: Global, first: &[Value], second: &[Value]) -> Result<Value, Stop>
    ensures { Answers (list_of (plain_items first.now ++ plain_items second.now)) result }
{
    let mut out = Vec::new(alloc);
    append(&mut out, first)?;
    append(&mut out, second)?;
    list(alloc, out)
}

fn append(out: &mut Vec<Value>, items: &[Value]) -> Result<(), AllocError>
    ensures { OnOk result (plain_items out.new.items ≡ plain_items out.old.items ++ plain_items items.now) }
{
    for item in items {
        push(out, item)?;
    }
    Ok(())
}

fn push(out: &mut Vec<Value>, item: &Value) -> Result<(), AllocError>
    ensures { OnOk result (plain_items out.new.items ≡ plain_items out.old.items ++ plain item.now ∷ []) }
{
    let item = item.copy()?;
    Ok(out.push(item)?)
}

// The first items, at most this many.
fn front(items: &[Value], number: usize) -> &[Value]
    ensures { plain_items result.now ≡ take number (plain_items items.now) }
{
    if number < items.len() {
        &items[..number]
    } else {
        items
    }
}

// What follows the first items of this number.
fn rest(items: &[Value], number: usize) -> &[Value]
    ensures { plain_items result.now ≡ drop number (plain_items items.now) }
{
    if number < items.len() {
        &items[number..]
    } else {
        &items[items.len()..]
    }
}

// The first place of the value.
fn index_of(items: &[Value], value: &Value) -> Option<usize>
    ensures bound { ForSome result (λ at. at < 2 ^ 63) }
    ensures found { result ≡ place_of 0 value.now (plain_items items.now) }
{
    for at in 0..items.len() {
        if items[at].same(value) {
            return Some(at);
        }
    }
    None
}

fn number_of(place: Option<usize>) -> Value
    requires { ForSome place (λ at. at < 2 ^ 63) }
    ensures { result ≡ place_or_none place }
{
    match place {
        Some(at) => Value::Int(at as i64),
        None => Value::Int(-1),
    }
}
