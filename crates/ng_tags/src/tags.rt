//! Start tags and end tags.

ghost use Rattle.std.specs.Prelude.{◌≡◌, ℕ, List, true, false, IfOk, IfErr};
ghost use Rattle.ng_tokens.specs.Lexis.{is_one_of as one_of};
ghost use Rattle.ng_lex.specs.declared.kinds.TokenKind.TheVariants as kind;
ghost use Rattle.ng_lex.specs.declared.markup.Markup.{Markup};
ghost use Rattle.ng_lex.specs.Attributes as spec;
ghost use Rattle.ng_lex.specs.Lexis.{IsWritten};
ghost use Rattle.ng_lex.specs.Heavy.{IsHeavy};
ghost use Rattle.ng_lex.specs.Spans.{IsSpan};
ghost use Rattle.ng_attributes.specs.Places.{Fits};
ghost use Rattle.ng_tags.specs.Tokens.{ReadsToken, RefusesToken, IsCalm, IsOrMemory, AnswersTag, TellsStop, Tells, IsTagAt, Chooses};

use crate::attributes::read_attributes;
use crate::halt::Halt;
use ng_ast::Place;
use ng_attributes::{At, Class, Stop, starts_lower};
use ng_lex::{Markup, Shape};
use ng_tokens::same_text;
use ng_values::NgText;
use std::alloc::Global;

#[tactic(auto, unfolding(ng_lex::specs::Attributes::refused_tags))]
fn is_refused(tag: &[u8]) -> bool
    ensures { result ≡ one_of spec.refused_tags tag.now }
{
    same_text(b"script", tag) || same_text(b"style", tag)
}

#[tactic(auto, unfolding(ng_lex::specs::Attributes::void_tags))]
fn is_void(tag: &[u8]) -> bool
    ensures { result ≡ spec.is_void tag.now }
{
    same_text(b"area", tag)
        || same_text(b"base", tag)
        || same_text(b"br", tag)
        || same_text(b"col", tag)
        || same_text(b"embed", tag)
        || same_text(b"hr", tag)
        || same_text(b"img", tag)
        || same_text(b"input", tag)
        || same_text(b"link", tag)
        || same_text(b"meta", tag)
        || same_text(b"source", tag)
        || same_text(b"track", tag)
        || same_text(b"wbr", tag)
}

fn is_dashed(tag: &[u8]) -> bool
    ensures { result ≡ spec.is_dashed tag.now }
{
    for b in tag {
        if *b == b'-' {
            return true;
        }
    }
    false
}

// The name of a tag at the front, and what comes after it.
fn tag_name(at: At) -> Option<(&str, At)>
    requires { Fits at.place at.text.now }
    ensures { IsTagAt at.entry result }
{
    if !starts_lower(at.text.as_bytes()) {
        return None;
    }
    let (tag, rest) = at.take(Class::Tag);
    if is_refused(tag.as_bytes()) {
        None
    } else {
        Some((tag, rest))
    }
}

/// The elements that tags stand for.
#[derive(Clone, Copy)]
pub(crate) enum Element {
    /// One without an end tag.
    Single,
    Paired,
}

// The element of a tag that may close itself.
fn element_of(tag: &[u8], closed: bool) -> Option<Element>
    ensures { Chooses tag.now closed result }
{
    if is_void(tag) || (closed && is_dashed(tag)) {
        Some(Element::Single)
    } else if closed {
        None
    } else {
        Some(Element::Paired)
    }
}

fn start(alloc: Global, at: At) -> Result<Markup, Stop>
    requires { Fits at.place at.text.now }
    ensures { AnswersTag kind.Start at.entry result }
{
    let Some(inside) = at.strip(b"<") else {
        return Err(Stop::Syntax(at.place));
    };
    let Some((tag, rest)) = tag_name(inside) else {
        return Err(Stop::Syntax(inside.place));
    };
    let name = NgText::new(alloc, tag)?;
    let read = match read_attributes(alloc, rest) {
        Ok(read) => read,
        Err(stop) => return Err(stop),
    };
    if !read.rest.text.is_empty() {
        return Err(Stop::Syntax(read.rest.place));
    }
    match element_of(tag.as_bytes(), read.closed) {
        Some(Element::Single) => Ok(Markup::Single(name, read.found)),
        Some(Element::Paired) => Ok(Markup::Start(name, read.found)),
        None => Err(Stop::Syntax(at.place)),
    }
}

fn end(alloc: Global, at: At) -> Result<Markup, Stop>
    requires { Fits at.place at.text.now }
    ensures { AnswersTag kind.End at.entry result }
{
    let Some(inside) = at.strip(b"</") else {
        return Err(Stop::Syntax(at.place));
    };
    let Some((tag, rest)) = tag_name(inside) else {
        return Err(Stop::Syntax(inside.place));
    };
    if is_void(tag.as_bytes()) {
        return Err(Stop::Syntax(inside.place));
    }
    let (_, last) = rest.take(Class::Blank);
    let Some(after) = last.strip(b">") else {
        return Err(Stop::Syntax(last.place));
    };
    if !after.text.is_empty() {
        return Err(Stop::Syntax(after.place));
    }
    Ok(Markup::End(NgText::new(alloc, tag)?))
}

// Why there is no token, where one that passes a limit is told as a heavy tag.
fn halted(stop: Stop) -> Result<Markup, Halt>
    ensures { TellsStop stop result }
{
    match stop {
        Stop::Limit => Ok(Markup::Heavy(Shape::Tag)),
        Stop::Syntax(place) => Err(Halt::Syntax(place)),
        Stop::Memory => Err(Halt::Memory),
    }
}

fn token(found: Result<Markup, Stop>) -> Result<Markup, Halt>
    ensures { Tells found result }
{
    match found {
        Ok(markup) => Ok(markup),
        Err(stop) => halted(stop),
    }
}

/// Reads the text of a token of kind `Start`, whose first byte stands at `place`: the start tag of an element, or the tag of a void
/// element or of one that closes itself, with its attributes. A tag that is begun, and in which the value of an attribute passes a
/// limit of expressions, is `Heavy(Tag)`. Takes time linear in the length of the text.
///
/// `Syntax` comes only where the token is no part of a template; its place is where the reader stopped, which no clause fixes.
/// Tags and attributes are those of Angular's templates, as docs/LANGUAGE.md has them.
pub fn read_start(alloc: Global, text: &str, place: Place) -> Result<Markup, Halt>
    requires { Fits place text.now }
    ensures reads { IfOk result (ReadsToken place text.now) }
    ensures refused { IfErr result (RefusesToken kind.Start place text.now) }
    ensures exact { (z : List ℕ) (c : Markup) → IsSpan kind.Start text.now z → IsWritten place text.now c → IsCalm place text.now z → IsOrMemory c result }
{
    token(start(alloc, At { text, place }))
}

/// Reads the text of a token of kind `End`, whose first byte stands at `place`: the end tag of an element. Takes time linear in the
/// length of the text.
///
/// `Syntax` comes only where the token is no part of a template; its place is where the reader stopped, which no clause fixes.
pub fn read_end(alloc: Global, text: &str, place: Place) -> Result<Markup, Halt>
    requires { Fits place text.now }
    ensures reads { IfOk result (ReadsToken place text.now) }
    ensures refused { IfErr result (RefusesToken kind.End place text.now) }
    ensures exact { (z : List ℕ) (c : Markup) → IsSpan kind.End text.now z → IsWritten place text.now c → IsCalm place text.now z → IsOrMemory c result }
{
    token(end(alloc, At { text, place }))
}
