//! The forms of the names of attributes.

ghost use Rattle.std.specs.Prelude.{◌≡◌, ◌+◌, ◌<◌, length, true, IfOk, codes};
ghost use Rattle.ng_tokens.specs.Lexis as lexis;
ghost use Rattle.ng_lex.specs.Span.{is_ascii};
ghost use Rattle.ng_lex.specs.Names as names;
ghost use Rattle.ng_lex.specs.Values.{without_value as alone};
ghost use Rattle.ng_attributes.specs.Forms.{named, kept};

use crate::classes::{Class, is_name, is_part};
use crate::words::{between, strip};
use ng_ast::AttrForm;
use ng_lex::NameForm;
use ng_tokens::{begins, same_text};
use ng_values::NgText;
use std::alloc::{AllocError, Global};

// The text, where the test holds.
fn kept_text(alloc: Global, test: bool, text: &str) -> Result<Option<NgText>, AllocError>
    ensures { IfOk result (λ o. o ≡ kept test text.now) }
{
    if test {
        Ok(Some(NgText::new(alloc, text)?))
    } else {
        Ok(None)
    }
}

// What stands between the words, where it is a name.
fn named_text(
    alloc: Global,
    first: &[u8],
    last: &[u8],
    text: &str,
) -> Result<Option<NgText>, AllocError>
    requires first { lexis.all is_ascii first.now ≡ true }
    requires last { lexis.all is_ascii last.now ≡ true }
    requires size { length first.now + length last.now < 64 }
    ensures { IfOk result (λ o. o ≡ named (names.between first.now last.now text.now)) }
{
    match between(first, last, text) {
        Some(inside) => kept_text(alloc, is_name(inside.as_bytes()), inside),
        None => Ok(None),
    }
}

// A style, with its unit after a dot or without one.
fn style_of(alloc: Global, text: &str) -> Result<Option<NameForm>, AllocError>
    ensures { IfOk result (λ o. o ≡ names.style_of text.now) }
{
    let (style, rest) = Class::Part.split(text);
    if !is_part(style.as_bytes()) {
        return Ok(None);
    }
    let Some(unit) = strip(b".", rest) else {
        return if rest.is_empty() {
            let style = NgText::new(alloc, style)?;
            Ok(Some(NameForm::Style(style, None)))
        } else {
            Ok(None)
        };
    };
    if !is_part(unit.as_bytes()) {
        return Ok(None);
    }
    let style = NgText::new(alloc, style)?;
    let unit = NgText::new(alloc, unit)?;
    Ok(Some(NameForm::Style(style, Some(unit))))
}

// What stands in square brackets, without round ones.
fn binding_of(alloc: Global, text: &str) -> Result<Option<NameForm>, AllocError>
    ensures { IfOk result (λ o. o ≡ names.binding_of text.now) }
{
    let z = text.as_bytes();
    if same_text(b"ngTemplateOutlet", z) {
        Ok(Some(NameForm::Outlet))
    } else if same_text(b"ngTemplateOutletContext", z) {
        Ok(Some(NameForm::Context))
    } else if let Some(part) = strip(b"attr.", text) {
        let part = kept_text(alloc, is_part(part.as_bytes()), part)?;
        Ok(part.map(NameForm::Attribute))
    } else if let Some(part) = strip(b"class.", text) {
        let part = kept_text(alloc, is_part(part.as_bytes()), part)?;
        Ok(part.map(NameForm::Class))
    } else if let Some(part) = strip(b"style.", text) {
        style_of(alloc, part)
    } else {
        let name = kept_text(alloc, is_name(z), text)?;
        Ok(name.map(NameForm::Property))
    }
}

fn bracketed(alloc: Global, name: &str) -> Result<Option<NameForm>, AllocError>
    ensures { IfOk result (λ o. o ≡ names.bound_by (names.between (codes "[") (codes "]") name.now)) }
{
    match between(b"[", b"]", name) {
        Some(inside) => binding_of(alloc, inside),
        None => Ok(None),
    }
}

/// The form of an attribute's name: `[a]`, `[attr.a]`, `[class.c]`, `[style.s]`, `[style.s.u]`, `(ev)`, `[(x)]`, `#r`, `let-x`, the two
/// outlet forms, or else the plain one. None where it begins with `[`, `(`, `#`, `*` or `let-` and has no form of these. The error is
/// want of memory. The forms are those of Angular's templates, as docs/LANGUAGE.md has them.
#[tactic(auto, unfolding(ng_lex::specs::Names::form_of))]
pub fn form_of(alloc: Global, name: &str) -> Result<Option<NameForm>, AllocError>
    ensures { IfOk result (λ o. o ≡ names.form_of name.now) }
{
    let z = name.as_bytes();
    if begins(b"[(", z) {
        let inside = named_text(alloc, b"[(", b")]", name)?;
        Ok(inside.map(NameForm::Both))
    } else if begins(b"[", z) {
        bracketed(alloc, name)
    } else if begins(b"(", z) {
        let inside = named_text(alloc, b"(", b")", name)?;
        Ok(inside.map(NameForm::Event))
    } else if let Some(rest) = strip(b"#", name) {
        let rest = kept_text(alloc, is_name(rest.as_bytes()), rest)?;
        Ok(rest.map(NameForm::Reference))
    } else if let Some(rest) = strip(b"let-", name) {
        let rest = kept_text(alloc, is_name(rest.as_bytes()), rest)?;
        Ok(rest.map(NameForm::Variable))
    } else if begins(b"*", z) {
        Ok(None)
    } else {
        Ok(Some(NameForm::Plain(NgText::new(alloc, name)?)))
    }
}

/// The bare word in a name, without its brackets and prefixes. The error is want of memory.
pub fn word_of(alloc: Global, form: &NameForm) -> Result<NgText, AllocError>
    ensures { IfOk result (λ n. n ≡ names.word_of form.now) }
{
    match form {
        NameForm::Plain(name)
        | NameForm::Property(name)
        | NameForm::Attribute(name)
        | NameForm::Class(name)
        | NameForm::Style(name, _)
        | NameForm::Event(name)
        | NameForm::Both(name)
        | NameForm::Reference(name)
        | NameForm::Variable(name) => name.copy(),
        NameForm::Outlet => NgText::new(alloc, "ngTemplateOutlet"),
        NameForm::Context => NgText::new(alloc, "ngTemplateOutletContext"),
    }
}

/// What an attribute says without a value. None where it may not stand so. The error is want of memory.
pub fn without_value(alloc: Global, form: &NameForm) -> Result<Option<AttrForm>, AllocError>
    ensures { IfOk result (λ o. o ≡ alone form.now) }
{
    match form {
        NameForm::Plain(_) => Ok(Some(AttrForm::Static(NgText::new(alloc, "")?))),
        NameForm::Reference(_) => Ok(Some(AttrForm::Reference)),
        NameForm::Variable(_) => Ok(Some(AttrForm::Variable(None))),
        _ => Ok(None),
    }
}
