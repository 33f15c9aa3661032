//! The attributes of a tag.

ghost use Rattle.std.specs.Prelude.{◌≡◌, ℕ, List, true, false};
ghost use Rattle.ng_lex.specs.Words.{at_front};
ghost use Rattle.ng_attributes.specs.Answers.{Answers};
ghost use Rattle.ng_attributes.specs.Places.{Fits};
ghost use Rattle.ng_tags.specs.Tags as spec;
ghost use Rattle.ng_tags.specs.Reads.{Lone, Said, OverSaid, IsNext, AnswersBehind, AnswersAttribute, AnswersAttributes};

use crate::marks::{Assigned, assignment};
use crate::values::says;
use ng_ast::{Place, TAttr};
use ng_attributes::{At, Class, Stop, decode_value, form_of, is_blank, without_value, word_of};
use ng_lex::NameForm;
use sqlite_items::Items;
use std::alloc::Global;

// White space, `>` or `/`, which may come after an attribute.
fn ends_attribute(z: &[u8]) -> bool
    ensures { result ≡ at_front spec.ends_attribute z.now }
{
    match z {
        [first, ..] => is_blank(*first) || *first == b'>' || *first == b'/',
        [] => false,
    }
}

// An attribute without a value, which stands before the text.
fn alone(alloc: Global, place: Place, form: &NameForm, rest: At) -> Result<TAttr, Stop>
    ensures { Answers (Lone place form.now rest.entry.text.now) ⊥ result }
{
    if !ends_attribute(rest.text.as_bytes()) {
        return Err(Stop::Syntax(rest.place));
    }
    let name = word_of(alloc, form)?;
    match without_value(alloc, form)? {
        Some(form) => Ok(TAttr { place, name, form }),
        None => Err(Stop::Syntax(place)),
    }
}

// An attribute with a value, before the text.
#[tactic(none)]
fn valued(alloc: Global, place: Place, form: &NameForm, inside: At, rest: At) -> Result<TAttr, Stop>
    requires { Fits inside.place inside.text.now }
    ensures { Answers (Said place form.now inside.entry.place inside.entry.text.now rest.entry.text.now) (OverSaid form.now inside.entry.place inside.entry.text.now) result }
{
    let Some(value) = decode_value(alloc, inside.text, inside.place)? else {
        return Err(Stop::Syntax(inside.place));
    };
    let name = word_of(alloc, form)?;
    match says(alloc, form, inside.place, value) {
        Ok(found) => {
            if ends_attribute(rest.text.as_bytes()) {
                Ok(TAttr {
                    place,
                    name,
                    form: found,
                })
            } else {
                drop(found);
                Err(Stop::Syntax(rest.place))
            }
        }
        Err(stop) => Err(stop),
    }
}

// The attribute whose name has this form and begins at the place, and what comes after it; the text stands behind the name.
#[tactic(none)]
fn behind<'a>(
    alloc: Global,
    place: Place,
    form: &NameForm,
    rest: At<'a>,
) -> Result<(TAttr, At<'a>), Stop>
    requires { Fits rest.place rest.text.now }
    ensures { AnswersBehind place form.now rest.entry result }
{
    match assignment(rest) {
        Assigned::Nothing => match alone(alloc, place, form, rest) {
            Ok(one) => Ok((one, rest)),
            Err(stop) => Err(stop),
        },
        Assigned::Broken(place) => Err(Stop::Syntax(place)),
        Assigned::Value(inside, after) => match valued(alloc, place, form, inside, after) {
            Ok(one) => Ok((one, after)),
            Err(stop) => Err(stop),
        },
    }
}

// The attribute at the front, and what comes after it.
#[tactic(none)]
fn attribute(alloc: Global, at: At) -> Result<(TAttr, At), Stop>
    requires { Fits at.place at.text.now }
    ensures { AnswersAttribute at.entry result }
{
    let (name, rest) = at.take(Class::Attribute);
    if name.is_empty() {
        return Err(Stop::Syntax(at.place));
    }
    match form_of(alloc, name)? {
        Some(form) => behind(alloc, at.place, &form, rest),
        None => Err(Stop::Syntax(at.place)),
    }
}

/// What comes next in a tag: its end and what comes after it, an attribute, or neither.
#[derive(Clone, Copy)]
pub(crate) enum Next<'a> {
    /// True where the tag closes itself.
    End(bool, At<'a>),
    Attribute(At<'a>),
    Nothing(Place),
}

#[tactic(none)]
fn next_in(at: At) -> Next
    requires { Fits at.place at.text.now }
    ensures { IsNext at.entry result }
{
    let (blank, rest) = at.take(Class::Blank);
    if let Some(after) = rest.strip(b">") {
        Next::End(false, after)
    } else if let Some(after) = rest.strip(b"/>") {
        Next::End(true, after)
    } else if blank.is_empty() {
        Next::Nothing(at.place)
    } else {
        Next::Attribute(rest)
    }
}

/// The attributes at the front, up to the end of the tag: true where the tag closes itself, and what comes after it.
#[derive(Drop)]
pub(crate) struct Attributes<'a> {
    pub found: Items<TAttr>,
    pub closed: bool,
    pub rest: At<'a>,
}

pub(crate) fn read_attributes(alloc: Global, at: At) -> Result<Attributes, Stop>
    requires { Fits at.place at.text.now }
    ensures { AnswersAttributes at.entry result }
{
    let mut found = Items::new(alloc);
    let mut rest = at;
    loop {
        match next_in(rest) {
            Next::End(closed, rest) => {
                return Ok(Attributes {
                    found,
                    closed,
                    rest,
                });
            }
            Next::Nothing(place) => return Err(Stop::Syntax(place)),
            Next::Attribute(at) => match attribute(alloc, at) {
                Ok((one, after)) => {
                    found.push(one)?;
                    rest = after;
                }
                Err(stop) => return Err(stop),
            },
        }
    }
}
