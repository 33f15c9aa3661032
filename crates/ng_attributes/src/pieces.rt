//! The pieces of a value: text, and interpolations.

ghost use Rattle.std.specs.Prelude.{◌≡◌, ◌≤◌, ◌<◌, length, true};
ghost use Rattle.ng_lex.specs.Values.{ReadsPieces, OverPieces, IsPlain};
ghost use Rattle.ng_lex.specs.Words.{opening};
ghost use Rattle.ng_tokens.specs.Lexis as lexis;
ghost use Rattle.ng_attributes.specs.Answers.{Answers};
ghost use Rattle.ng_attributes.specs.Spelling.{IsSpelled, IsDecoded};
ghost use Rattle.ng_attributes.specs.Pieces.{text_len as front, is_value as opens_value, OpensValue, AnswersPiece};

use crate::expressions::expression;
use crate::spelled::{Decoded, Spelled, start_of};
use crate::stop::Stop;
use ng_ast::{AttrForm, Piece};
use ng_lex::{TokenKind, span};
use ng_tokens::begins;
use ng_values::NgText;
use sqlite_items::Items;
use std::alloc::Global;

// The bytes before the first `{{`.
fn text_len(z: &[u8]) -> usize
    ensures value { result ≡ front z.now }
    ensures within { result ≤ length z.now }
{
    let mut rest = z;
    let mut len = 0;
    while let [_, more @ ..] = rest {
        if begins(b"{{", rest) {
            return len;
        }
        len += 1;
        rest = more;
    }
    len
}

fn is_value(kind: TokenKind) -> bool
    ensures { result ≡ opens_value kind }
{
    matches!(kind, TokenKind::Interpolation)
}

// The bytes of the interpolation at the front, with its brackets.
fn interpolation_len(text: &str) -> Option<usize>
    requires { length text.now ≤ 1048576 }
    ensures { OpensValue text.now result }
{
    let Some((kind, len)) = span(text) else {
        return None;
    };
    if is_value(kind) { Some(len) } else { None }
}

// The interpolation at the front, and what comes after it.
fn interpolation(alloc: Global, value: Spelled) -> Result<(Piece, Spelled), Stop>
    requires spelled { IsSpelled value }
    requires opens { lexis.begins opening value.text.now ≡ true }
    ensures { AnswersPiece value.entry.letters.now result }
{
    let place = start_of(value.letters);
    let Some(len) = interpolation_len(value.text) else {
        return Err(Stop::Syntax(place));
    };
    let (whole, rest) = value.split(len);
    let (_, whole) = whole.split(2);
    let (inside, _) = whole.split(len - 4);
    match expression(alloc, inside.text, start_of(inside.letters)) {
        Ok(found) => Ok((Piece::Value(place, found), rest)),
        Err(stop) => Err(stop),
    }
}

// The piece at the front, and what comes after it.
fn piece(alloc: Global, value: Spelled) -> Result<(Piece, Spelled), Stop>
    requires spelled { IsSpelled value }
    requires some { 0 < length value.text.now }
    ensures { AnswersPiece value.entry.letters.now result }
{
    let len = text_len(value.text.as_bytes());
    if len == 0 {
        return interpolation(alloc, value);
    }
    let (text, rest) = value.split(len);
    let text = NgText::new(alloc, text.text)?;
    Ok((Piece::Text(text), rest))
}

fn pieces(alloc: Global, value: Spelled) -> Result<Items<Piece>, Stop>
    requires { IsSpelled value }
    ensures { Answers (ReadsPieces value.entry.letters.now) (OverPieces value.entry.letters.now) result }
{
    let mut found = Items::new(alloc);
    let mut rest = value;
    while !rest.text.is_empty() {
        match piece(alloc, rest) {
            Ok((one, more)) => {
                found.push(one)?;
                rest = more;
            }
            Err(stop) => return Err(stop),
        }
    }
    Ok(found)
}

/// What the value of an attribute with a plain name says: its text, or its pieces where a `{{` stands in it. An interpolation goes to
/// the first `}}` outside of text literals, and its place is where its first `{` is written. `Syntax` comes only where the value is no
/// such thing, `Limit` only where an interpolation passes a limit of expressions. Takes time linear in the length of the value.
pub fn plain(alloc: Global, value: Decoded) -> Result<AttrForm, Stop>
    requires { IsDecoded value }
    ensures { Answers (IsPlain value.letters.items) (OverPieces value.letters.items) result }
{
    if text_len(value.text.as_bytes()) == value.text.len() {
        let Decoded { letters: _, text } = value;
        return Ok(AttrForm::Static(NgText::from_string(alloc, text)?));
    }
    match pieces(alloc, value.spelled()) {
        Ok(found) => Ok(AttrForm::Joined(found)),
        Err(stop) => Err(stop),
    }
}
