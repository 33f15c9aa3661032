//! From a text to its selector.

ghost use Rattle.std.specs.Prelude.{◌≡◌, Some};
ghost use Rattle.ng_selectors.specs.Parse as spec;
ghost use Rattle.ng_selectors.specs.Gives.{Gives, GivesAll};

use crate::classes::Class;
use crate::cursor::Cursor;
use crate::halt::Halt;
use ng_ast::{One, SelPart, Selector};
use ng_values::NgText;
use sqlite_items::{Boxed, Items};
use std::alloc::Global;

// How many `:not` may stand round one another.
const NESTING: usize = 1;

// The value of an attribute: a name, or anything in quotes.
fn value(cursor: &mut Cursor<'_>) -> Result<NgText, Halt>
    ensures { Gives (spec.value cursor.old.rest.now) result cursor.new.rest.now }
{
    if cursor.eat("'") {
        cursor.until('\'')
    } else if cursor.eat("\"") {
        cursor.until('"')
    } else {
        cursor.word(Class::Name)
    }
}

// What stands behind `[`.
fn attribute(cursor: &mut Cursor<'_>) -> Result<SelPart, Halt>
    ensures { Gives (spec.attribute cursor.old.rest.now) result cursor.new.rest.now }
{
    let name = cursor.word(Class::Identifier)?;
    if cursor.eat("]") {
        return Ok(SelPart::Has(name));
    }
    cursor.expect("=")?;
    let value = value(cursor)?;
    cursor.expect("]")?;
    Ok(SelPart::Is(name, value))
}

// What stands behind `.`.
fn class(cursor: &mut Cursor<'_>) -> Result<SelPart, Halt>
    ensures { Gives (spec.class cursor.old.rest.now) result cursor.new.rest.now }
{
    Ok(SelPart::Class(cursor.word(Class::Identifier)?))
}

#[cycle(one)]
fn negation(cursor: &mut Cursor<'_>, depth: usize) -> Result<SelPart, Halt>
    ensures { Gives (spec.negation depth cursor.old.rest.now) result cursor.new.rest.now }
{
    if depth == 0 {
        return Err(Halt::Syntax);
    }
    cursor.expect(":not(")?;
    let inner = one(cursor, depth - 1)?;
    cursor.expect(")")?;
    Ok(SelPart::Not(Boxed::new(cursor.alloc, inner)?))
}

#[tactic(auto, unfolding(crate::specs::Parse::part))]
#[cycle(one)]
fn part(cursor: &mut Cursor<'_>, depth: usize) -> Result<SelPart, Halt>
    ensures { Gives (spec.part (spec.negation depth) cursor.old.rest.now) result cursor.new.rest.now }
{
    if cursor.eat("[") {
        attribute(cursor)
    } else if cursor.eat(".") {
        class(cursor)
    } else {
        negation(cursor, depth)
    }
}

fn sees_part(cursor: &Cursor<'_>) -> bool
    ensures { result ≡ spec.sees spec.begins_part cursor.now.rest.now }
{
    matches!(cursor.peek(), Some(b'[' | b'.' | b':'))
}

#[cycle(one)]
fn parts(cursor: &mut Cursor<'_>, depth: usize) -> Result<Items<SelPart>, Halt>
    ensures { Gives (spec.parts (spec.negation depth) cursor.old.rest.now) result cursor.new.rest.now }
{
    let mut found = Items::new(cursor.alloc);
    while sees_part(cursor) {
        found.push(part(cursor, depth)?)?;
    }
    Ok(found)
}

// A tag, where one comes next.
fn tag(cursor: &mut Cursor<'_>) -> Result<Option<NgText>, Halt>
    ensures { Gives (spec.tag cursor.old.rest.now) result cursor.new.rest.now }
{
    if cursor.sees(Class::Tag) {
        Ok(Some(cursor.word(Class::Tag)?))
    } else {
        Ok(None)
    }
}

// An alternative, in which so many `:not` may stand round one another.
#[tactic(auto, unfolding(crate::specs::Parse::one))]
#[cycle(one)]
fn one(cursor: &mut Cursor<'_>, depth: usize) -> Result<One, Halt>
    ensures { Gives (spec.one (spec.negation depth) cursor.old.rest.now) result cursor.new.rest.now }
{
    if cursor.eat("*") {
        return Ok(One {
            tag: None,
            parts: Items::new(cursor.alloc),
        });
    }
    let tag = tag(cursor)?;
    let parts = parts(cursor, depth)?;
    if tag.is_none() && parts.is_empty() {
        return Err(Halt::Syntax);
    }
    Ok(One { tag, parts })
}

// The comma after an alternative, with the white space round it.
fn comma(cursor: &mut Cursor<'_>) -> Result<(), Halt>
    ensures { Gives (spec.comma cursor.old.rest.now) result cursor.new.rest.now }
{
    cursor.blanks();
    cursor.expect(",")?;
    cursor.blanks();
    Ok(())
}

fn alternatives(cursor: &mut Cursor<'_>) -> Result<Items<One>, Halt>
    ensures { Gives (spec.alternatives cursor.old.rest.now) result cursor.new.rest.now }
{
    let mut found = Items::new(cursor.alloc);
    loop {
        found.push(one(cursor, NESTING)?)?;
        if cursor.is_at_end() {
            return Ok(found);
        }
        comma(cursor)?;
    }
}

/// The selector that the text is.
#[tactic(auto, unfolding(crate::specs::Parse::selector_of))]
pub fn selector(alloc: Global, text: &str) -> Result<Selector, Halt>
    ensures { GivesAll (spec.selector_of text.now) result }
{
    let mut cursor = Cursor::new(alloc, text);
    let list = alternatives(&mut cursor)?;
    Ok(Selector { list })
}
