ghost use Rattle.std.specs.Prelude.{◌≡◌, ◌<◌, IfOk, map, length, string_bytes, take, drop, encode_utf8_all};
ghost use Rattle.std.specs.Char.{to_ascii_uppercase, to_ascii_lowercase};
ghost use Rattle.std.specs.Str.{chars};
ghost use Rattle.ng_values.specs.Calls.{argument as argument_of};
ghost use Rattle.ng_values.specs.Make.{Answers};
ghost use Rattle.ng_pipes.specs.Pipes.{cased, part_of, made_text, measured, applied, text_part};
ghost use Rattle.ng_values.specs.Json.{json};
ghost use Rattle.ng_values.specs.View.{plain};

use ng_values::{
    Fault, NgText, Stop, Value, argument, characters, invoke, member, natural, natural_or,
};
use std::alloc::{AllocError, Global};

/// A pipe that every template has.
#[derive(Clone, Copy, Debug, PartialEq, Eq)]
pub enum PipeId {
    /// `uppercase`: the ASCII letters of a text as capitals.
    Uppercase,
    /// `lowercase`: the ASCII letters of a text as small letters.
    Lowercase,
    /// `slice : a : b`: the items of a list or the characters of a text from a up to before b.
    Slice,
    /// `json`: the JSON form of any value.
    Json,
    /// `length`: the number of a list's items or a text's characters.
    Length,
}

/// What a pipe makes of a value, which is the first argument, and of the arguments after it. All pipes but `json` give null for null
/// and WrongKind for a value of a kind that they do not take. For `slice` the arguments have to be numbers from 0 on, else WrongKind;
/// they are clamped to the length, and a second one that is null or missing stands for the length. ValueTooLarge where a JSON form has
/// more than 65,535 bytes. The names are Angular's; that `uppercase` and `lowercase` change ASCII letters alone, and that there is a
/// `length`, is this project's own. It takes time linear in the value.
pub fn apply(alloc: Global, id: PipeId, args: &[Value]) -> Result<Value, Stop>
    requires { 0 < length args.now }
    ensures { Answers (applied id args.now) result }
{
    let value = argument(args, 0)?;
    match id {
        PipeId::Uppercase => uppercase(alloc, &value),
        PipeId::Lowercase => lowercase(alloc, &value),
        PipeId::Slice => slice(alloc, &value, &args[1..]),
        PipeId::Json => json_form(alloc, &value),
        PipeId::Length => length_of(alloc, &value),
    }
}

fn uppercase(alloc: Global, value: &Value) -> Result<Value, Stop>
    ensures { Answers (cased to_ascii_uppercase value.now) result }
{
    match value {
        Value::Null => Ok(Value::Null),
        Value::Text(text) => Ok(Value::Text(capitals(alloc, text.as_str())?)),
        _ => Err(Stop::Fault(Fault::WrongKind)),
    }
}

fn lowercase(alloc: Global, value: &Value) -> Result<Value, Stop>
    ensures { Answers (cased to_ascii_lowercase value.now) result }
{
    match value {
        Value::Null => Ok(Value::Null),
        Value::Text(text) => Ok(Value::Text(small_letters(alloc, text.as_str())?)),
        _ => Err(Stop::Fault(Fault::WrongKind)),
    }
}

fn capitals(alloc: Global, text: &str) -> Result<NgText, AllocError>
    ensures { IfOk result (λ made. made ≡ map to_ascii_uppercase text.now) }
{
    let mut out = String::from_str(alloc, text)?;
    out.make_ascii_uppercase();
    NgText::from_string(alloc, out)
}

fn small_letters(alloc: Global, text: &str) -> Result<NgText, AllocError>
    ensures { IfOk result (λ made. made ≡ map to_ascii_lowercase text.now) }
{
    let mut out = String::from_str(alloc, text)?;
    out.make_ascii_lowercase();
    NgText::from_string(alloc, out)
}

fn slice(alloc: Global, value: &Value, ends: &[Value]) -> Result<Value, Stop>
    ensures { Answers (part_of value.now (argument_of 0 ends.now) (argument_of 1 ends.now)) result }
{
    match value {
        Value::Null => Ok(Value::Null),
        Value::List(_) => invoke(alloc, value, "slice", ends),
        Value::Text(text) => slice_text(alloc, text.as_str(), ends),
        _ => Err(Stop::Fault(Fault::WrongKind)),
    }
}

fn slice_text(alloc: Global, text: &str, ends: &[Value]) -> Result<Value, Stop>
    ensures { Answers (text_part text.now (argument_of 0 ends.now) (argument_of 1 ends.now)) result }
{
    let from = natural(&argument(ends, 0)?)?;
    let to = natural_or(characters(text), &argument(ends, 1)?)?;
    Ok(Value::Text(NgText::from_string(alloc, between(alloc, text, from, to)?)?))
}

// The characters from one place up to before another.
fn between(alloc: Global, text: &str, from: usize, to: usize) -> Result<String, AllocError>
    ensures { IfOk result (λ out. string_bytes out ≡ encode_utf8_all (drop from (take to (chars text.now)))) }
{
    text.chars().take(to).skip(from).collect(alloc)
}

fn json_form(alloc: Global, value: &Value) -> Result<Value, Stop>
    ensures { Answers (made_text (json (plain value.now))) result }
{
    let text = value.json_text_of(alloc)?;
    if text.as_str().len() > 65535 {
        return Err(Stop::Fault(Fault::ValueTooLarge));
    }
    Ok(Value::Text(text))
}

fn length_of(alloc: Global, value: &Value) -> Result<Value, Stop>
    ensures { Answers (measured value.now) result }
{
    match value {
        Value::Null => Ok(Value::Null),
        Value::List(_) | Value::Text(_) => member(alloc, value, "length"),
        _ => Err(Stop::Fault(Fault::WrongKind)),
    }
}
