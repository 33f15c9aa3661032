//! Which elements a selector matches.

ghost use Rattle.std.specs.Prelude.{◌≡◌, ◌&&◌};
ghost use Rattle.std.specs.List.{list_all};
ghost use Rattle.std.specs.Str.{bytes_eq};
ghost use Rattle.ng_selectors.specs.Fits as spec;

use crate::Attr;
use crate::classes::is_blank;
use ng_ast::{One, SelPart, Selector};
use ng_values::NgText;

fn has(attrs: &[Attr], name: &str) -> bool
    ensures { result ≡ spec.has attrs.now name.now }
{
    attrs.iter().any(|attr| name == attr.name.as_str())
}

fn has_value(attrs: &[Attr], name: &str, value: &str) -> bool
    ensures { result ≡ spec.has_value attrs.now name.now value.now }
{
    attrs.iter().any(|attr| name == attr.name.as_str() && value == attr.value.as_str())
}

// Whether the piece is the word, and not empty.
fn is_word(word: &str, piece: &[u8]) -> bool
    ensures { result ≡ (spec.is_filled piece.now && bytes_eq word.now piece.now) }
{
    !piece.is_empty() && word.as_bytes() == piece
}

// Whether the word is one of the text's, with white space between.
fn has_word(word: &str, text: &str) -> bool
    ensures { result ≡ spec.has_word word.now text.now }
{
    text.as_bytes()
        .split(|byte| is_blank(*byte))
        .any(|piece| is_word(word, piece))
}

fn has_class(attrs: &[Attr], class: &str) -> bool
    ensures { result ≡ spec.has_class attrs.now class.now }
{
    attrs.iter().any(|attr| "class" == attr.name.as_str() && has_word(class, attr.value.as_str()))
}

fn tag_fits(tag: &str, wanted: &Option<NgText>) -> bool
    ensures { result ≡ spec.tag_fits tag.now wanted.now }
{
    match wanted {
        Some(wanted) => wanted.as_str() == tag,
        None => true,
    }
}

#[tactic(auto, using(crate::specs::FitsLaws::part_laws))]
#[cycle(fits)]
fn part_fits(part: &SelPart, tag: &str, attrs: &[Attr]) -> bool
    ensures { result ≡ spec.part_fits tag.now attrs.now part.now }
{
    match part {
        SelPart::Has(name) => has(attrs, name.as_str()),
        SelPart::Is(name, value) => has_value(attrs, name.as_str(), value.as_str()),
        SelPart::Class(class) => has_class(attrs, class.as_str()),
        SelPart::Not(inner) => !one_fits(inner.get(), tag, attrs),
    }
}

#[cycle(fits)]
fn parts_fit(parts: &[SelPart], tag: &str, attrs: &[Attr]) -> bool
    ensures { result ≡ list_all (spec.part_fits tag.now attrs.now) parts.now }
{
    for part in parts {
        if !part_fits(part, tag, attrs) {
            return false;
        }
    }
    true
}

/// Whether an element with this tag and these attributes is one that the alternative means: it has no tag or this one, and each of
/// its parts holds, as [`matches`] says.
#[tactic(auto, using(crate::specs::FitsLaws::one_fits_is))]
#[cycle(fits)]
pub fn one_fits(one: &One, tag: &str, attrs: &[Attr]) -> bool
    ensures { result ≡ spec.one_fits tag.now attrs.now one.now }
{
    tag_fits(tag, &one.tag) && parts_fit(one.parts.as_slice(), tag, attrs)
}

/// Whether an element with this tag and these attributes is one that the selector means: one of its alternatives has no tag or
/// this one, and each of its parts holds. `[a]` wants an attribute of that name, `[a=v]` one with that value, `.c` the word `c`
/// in the value of `class`, where words stand between white space, and `:not(..)` that what it holds doesn't match. Names, values
/// and words are compared byte by byte.
#[tactic(auto, unfolding(crate::specs::Fits::fits))]
pub fn matches(selector: &Selector, tag: &str, attrs: &[Attr]) -> bool
    ensures { result ≡ spec.fits selector.now tag.now attrs.now }
{
    selector
        .list
        .as_slice()
        .iter()
        .any(|one| one_fits(one, tag, attrs))
}
