ghost use Rattle.std.specs.Prelude.{◌≡◌, ◌<◌, ◌++◌, ◌∷◌, IfOk, OnOk, string_bytes, map};
ghost use Rattle.std.specs.List.{flat_map};
ghost use Rattle.std.specs.Str.{chars};
ghost use Rattle.ng_values.specs.View.{plain, plain_items, plain_pairs};
ghost use Rattle.ng_values.specs.Text.{with_commas};
ghost use Rattle.ng_values.specs.Json.{json, json_pair, json_text, json_char, json_control, hex_digit};

use crate::shown::write_comma;
use crate::text::NgText;
use crate::value::Value;
use std::alloc::{AllocError, Global};

impl Value {
    /// The bytes of the JSON form: compact, with the keys of a record in their order. In a text a quote, a backslash and the
    /// control characters are escaped, and all else stands as it is, as in JavaScript's `JSON.stringify`. It takes time linear in the
    /// bytes.
    pub fn json_of(&self, alloc: Global) -> Result<Vec<u8>, AllocError>
        ensures { IfOk result (λ written. written.items ≡ json (plain self.now)) }
    {
        Ok(self.json_string(alloc)?.into_bytes())
    }

    /// The JSON form as a text.
    pub fn json_text_of(&self, alloc: Global) -> Result<NgText, AllocError>
        ensures { IfOk result (λ written. written ≡ json (plain self.now)) }
    {
        let written = self.json_string(alloc)?;
        NgText::from_string(alloc, written)
    }

    fn json_string(&self, alloc: Global) -> Result<String, AllocError>
        ensures { IfOk result (λ written. string_bytes written ≡ json (plain self.now)) }
    {
        let mut out = String::new(alloc);
        write_json(alloc, &mut out, self)?;
        Ok(out)
    }
}

#[tactic(auto, using(crate::specs::JsonLaws::jsons))]
#[cycle(write_json)]
fn write_json(alloc: Global, out: &mut String, value: &Value) -> Result<(), AllocError>
    ensures { OnOk result (string_bytes out.new ≡ string_bytes out.old ++ json (plain value.now)) }
{
    match value {
        Value::Null => out.push_str("null"),
        Value::Bool(true) => out.push_str("true"),
        Value::Bool(false) => out.push_str("false"),
        Value::Int(number) => out.push_str(number.to_string(alloc)?.as_str()),
        Value::Text(text) => write_quoted(out, text.as_str()),
        Value::List(list) => {
            out.push('[')?;
            write_items(alloc, out, list.items())?;
            out.push(']')
        }
        Value::Rec(rec) => {
            out.push('{')?;
            write_pairs(alloc, out, rec.pairs())?;
            out.push('}')
        }
    }
}

#[cycle(write_json)]
fn write_items(alloc: Global, out: &mut String, items: &[Value]) -> Result<(), AllocError>
    ensures { OnOk result (string_bytes out.new ≡ string_bytes out.old ++ with_commas (map json (plain_items items.now))) }
{
    for at in 0..items.len() {
        write_comma(out, at)?;
        write_json(alloc, out, &items[at])?;
    }
    Ok(())
}

#[cycle(write_json)]
fn write_pairs(alloc: Global, out: &mut String, pairs: &[(NgText, Value)]) -> Result<(), AllocError>
    ensures { OnOk result (string_bytes out.new ≡ string_bytes out.old ++ with_commas (map json_pair (plain_pairs pairs.now))) }
{
    for at in 0..pairs.len() {
        write_comma(out, at)?;
        write_pair(alloc, out, &pairs[at])?;
    }
    Ok(())
}

#[cycle(write_json)]
fn write_pair(alloc: Global, out: &mut String, pair: &(NgText, Value)) -> Result<(), AllocError>
    ensures { OnOk result (string_bytes out.new ≡ string_bytes out.old ++ json_pair (pair.now.0, plain pair.now.1)) }
{
    write_quoted(out, pair.0.as_str())?;
    out.push(':')?;
    write_json(alloc, out, &pair.1)
}

fn write_quoted(out: &mut String, text: &str) -> Result<(), AllocError>
    ensures { OnOk result (string_bytes out.new ≡ string_bytes out.old ++ json_text text.now) }
{
    out.push('"')?;
    write_escaped(out, text)?;
    out.push('"')
}

fn write_escaped(out: &mut String, text: &str) -> Result<(), AllocError>
    ensures { OnOk result (string_bytes out.new ≡ string_bytes out.old ++ flat_map json_char (chars text.now)) }
{
    for letter in text.chars() {
        write_char(out, letter)?;
    }
    Ok(())
}

fn write_char(out: &mut String, letter: char) -> Result<(), AllocError>
    ensures { OnOk result (string_bytes out.new ≡ string_bytes out.old ++ json_char letter) }
{
    match letter {
        '"' => out.push_str("\\\""),
        '\\' => out.push_str("\\\\"),
        '\u{8}' => out.push_str("\\b"),
        '\t' => out.push_str("\\t"),
        '\n' => out.push_str("\\n"),
        '\u{c}' => out.push_str("\\f"),
        '\r' => out.push_str("\\r"),
        _ => {
            if letter < ' ' {
                write_control(out, letter as u32)
            } else {
                out.push(letter)
            }
        }
    }
}

fn write_control(out: &mut String, code: u32) -> Result<(), AllocError>
    requires { code < 32 }
    ensures { OnOk result (string_bytes out.new ≡ string_bytes out.old ++ json_control code) }
{
    out.push_str("\\u00")?;
    out.push(digit_char(code / 16))?;
    out.push(digit_char(code % 16))
}

// A number as a hexadecimal digit.
fn digit_char(number: u32) -> char
    requires { number < 16 }
    ensures value { result ≡ hex_digit number }
    ensures ascii { result < 128 }
{
    if number < 10 {
        (b'0' + number as u8) as char
    } else {
        (b'a' + (number - 10) as u8) as char
    }
}
