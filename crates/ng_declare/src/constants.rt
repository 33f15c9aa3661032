//! Constants: numbers, texts, words, lists and records.

ghost use Rattle.std.specs.Prelude.{◌≡◌, ◌<◌, ◌^◌, true, IfOk, IfErr, Ok};
ghost use Rattle.ng_values.specs.declared.value.Value.TheVariants as v;
ghost use Rattle.ng_exprs.specs.Grammar.{literal_of, key_of};
ghost use Rattle.ng_phrases.specs.Nested.{parse_below};
ghost use Rattle.ng_declare.specs.Constants as gram;
ghost use Rattle.ng_declare.specs.Readers.{readers};
ghost use Rattle.ng_declare.specs.Rounds.{one};
ghost use Rattle.ng_declare.specs.Weights.{ItemsWeigh, PairsWeigh, Fits};
ghost use Rattle.ng_declare.specs.Gives.{Gives, Fails, read, inside};

use crate::cursor::Cursor;
use crate::halt::Halt;
use crate::weights::{Listing, Pairing};
use ng_ast::Place;
use ng_tokens::{Kind, Sign, Token, same_text};
use ng_values::{NgText, Value};

// One more than the lists and records that a constant may nest in one another.
const LEVELS: usize = 33;

// The longest text that a constant may hold, in bytes.
const MAX_TEXT: usize = 65535;

#[tactic(auto, unfolding(ng_exprs::specs::Grammar::literal_of))]
fn literal(name: &[u8]) -> Option<Value>
    ensures { result ≡ literal_of name.now }
{
    if same_text(b"null", name) || same_text(b"undefined", name) {
        Some(Value::Null)
    } else if same_text(b"true", name) {
        Some(Value::Bool(true))
    } else if same_text(b"false", name) {
        Some(Value::Bool(false))
    } else {
        None
    }
}

// The key that a token is.
fn key_of(kind: Kind) -> Option<NgText>
    ensures { result ≡ key_of kind }
{
    match kind {
        Kind::Name(key) => Some(key),
        Kind::Text(key) => Some(key),
        _ => None,
    }
}

// A number after its minus.
#[tactic(auto, unfolding(ng_phrases::specs::Parse::parse, ng_phrases::specs::Words::token, ng_phrases::specs::Words::number, crate::specs::Constants::negative))]
fn negative(cursor: &mut Cursor<'_>) -> Result<Value, Halt>
    ensures { Gives (read gram.negative cursor.old.place cursor.old.rest.now) result cursor.new.place cursor.new.rest.now }
{
    let Token { kind, place } = cursor.token()?;
    match kind {
        Kind::Number(number) if number >= 0 => Ok(Value::Int(-number)),
        _ => Err(Halt::Syntax(place)),
    }
}

// The constant that a text is.
fn text_constant(text: NgText, place: Place) -> Result<Value, Halt>
    ensures found { IfOk result (λ w. (w ≡ v.Text text) × (gram.fits_text text ≡ true)) }
    ensures refused { IfErr result (Fits (gram.fits_text text)) }
{
    if text.as_str().len() > MAX_TEXT {
        Err(Halt::Limit(place))
    } else {
        Ok(Value::Text(text))
    }
}

// A constant within fewer than so many lists and records.
#[cycle(constants)]
fn constant_below(cursor: &mut Cursor<'_>, levels: usize) -> Result<Value, Halt>
    requires { levels < 2 ^ 16 }
    ensures { Gives (parse_below {R = readers} gram.constant_within levels cursor.old.place cursor.old.rest.now) result cursor.new.place cursor.new.rest.now }
{
    if levels == 0 {
        return Err(Halt::Limit(cursor.place));
    }
    constant_within(cursor, levels - 1)
}

// A constant, in which others nest in fewer than so many levels.
#[cycle(constants)]
#[tactic(auto, unfolding(ng_phrases::specs::Parse::parse, ng_phrases::specs::Words::token, crate::specs::Constants::constant_within))]
fn constant_within(cursor: &mut Cursor<'_>, levels: usize) -> Result<Value, Halt>
    requires { levels < 2 ^ 16 }
    ensures { Gives (inside levels gram.constant_within cursor.old.place cursor.old.rest.now) result cursor.new.place cursor.new.rest.now }
{
    let Token { kind, place } = cursor.token()?;
    match kind {
        Kind::Number(number) => Ok(Value::Int(number)),
        Kind::Text(text) => text_constant(text, place),
        Kind::Name(name) => match literal(name.as_str().as_bytes()) {
            Some(value) => Ok(value),
            None => Err(Halt::Syntax(place)),
        },
        Kind::Sign(Sign::Minus) => negative(cursor),
        Kind::Sign(Sign::OpenSquare) => list(cursor, levels),
        Kind::Sign(Sign::OpenBrace) => rec(cursor, levels),
        _ => Err(Halt::Syntax(place)),
    }
}

// A list, after the bracket that opens.
#[cycle(constants)]
#[tactic(auto, unfolding(ng_phrases::specs::Parse::parse, crate::specs::Constants::list))]
fn list(cursor: &mut Cursor<'_>, levels: usize) -> Result<Value, Halt>
    requires { levels < 2 ^ 16 }
    ensures { Gives (inside levels gram.list cursor.old.place cursor.old.rest.now) result cursor.new.place cursor.new.rest.now }
{
    let mut listing = Listing::new(cursor.alloc);
    if cursor.sees_sign(Sign::CloseSquare) {
        cursor.sign(Sign::CloseSquare)?;
        return Ok(listing.finish(cursor.alloc)?);
    }
    let first = constant_below(cursor, levels)?;
    listing.push(first, cursor.place)?;
    list_on(cursor, levels, listing)
}

// An item after a comma.
#[cycle(constants)]
#[tactic(auto, unfolding(ng_phrases::specs::Parse::parse, ng_phrases::specs::Words::token, crate::specs::Constants::item))]
fn next_item(cursor: &mut Cursor<'_>, levels: usize) -> Result<Value, Halt>
    requires { levels < 2 ^ 16 }
    ensures { Gives (inside levels (one gram.item) cursor.old.place cursor.old.rest.now) result cursor.new.place cursor.new.rest.now }
{
    cursor.token()?;
    constant_below(cursor, levels)
}

// The items so far, and those that come.
#[cycle(constants)]
fn more_items(cursor: &mut Cursor<'_>, levels: usize, start: Listing) -> Result<Listing, Halt>
    requires levels { levels < 2 ^ 16 }
    requires weighs { ItemsWeigh start.items.items start.weight }
    ensures found { IfOk result (λ w. inside levels (gram.more_items start.items.items) cursor.old.place cursor.old.rest.now ≡ Ok (w.items.items, cursor.new.place, cursor.new.rest.now)) }
    ensures weighs { IfOk result (λ w. ItemsWeigh w.items.items w.weight) }
    ensures refused { IfErr result (λ e. Fails (inside levels (gram.more_items start.items.items) cursor.old.place cursor.old.rest.now) e cursor.new.place cursor.new.rest.now) }
{
    let mut listing = start;
    while cursor.sees_sign(Sign::Comma) {
        let item = next_item(cursor, levels)?;
        listing.push(item, cursor.place)?;
    }
    Ok(listing)
}

// The items so far, those that come, and the bracket that closes.
#[cycle(constants)]
#[tactic(auto, unfolding(ng_phrases::specs::Parse::parse, crate::specs::Constants::list_on))]
fn list_on(cursor: &mut Cursor<'_>, levels: usize, start: Listing) -> Result<Value, Halt>
    requires levels { levels < 2 ^ 16 }
    requires weighs { ItemsWeigh start.items.items start.weight }
    ensures { Gives (inside levels (gram.list_on start.items.items) cursor.old.place cursor.old.rest.now) result cursor.new.place cursor.new.rest.now }
{
    let listing = more_items(cursor, levels, start)?;
    cursor.sign(Sign::CloseSquare)?;
    Ok(listing.finish(cursor.alloc)?)
}

// A pair of a record.
#[cycle(constants)]
#[tactic(auto, unfolding(ng_phrases::specs::Parse::parse, ng_phrases::specs::Words::token, crate::specs::Constants::pair))]
fn pair(cursor: &mut Cursor<'_>, levels: usize) -> Result<(NgText, Value), Halt>
    requires { levels < 2 ^ 16 }
    ensures { Gives (inside levels gram.pair cursor.old.place cursor.old.rest.now) result cursor.new.place cursor.new.rest.now }
{
    let Token { kind, place } = cursor.token()?;
    let Some(key) = key_of(kind) else {
        return Err(Halt::Syntax(place));
    };
    cursor.sign(Sign::Colon)?;
    let value = constant_below(cursor, levels)?;
    Ok((key, value))
}

// A pair after a comma.
#[cycle(constants)]
#[tactic(auto, unfolding(ng_phrases::specs::Parse::parse, ng_phrases::specs::Words::token))]
fn next_pair(cursor: &mut Cursor<'_>, levels: usize) -> Result<(NgText, Value), Halt>
    requires { levels < 2 ^ 16 }
    ensures { Gives (inside levels (one gram.next_pair) cursor.old.place cursor.old.rest.now) result cursor.new.place cursor.new.rest.now }
{
    cursor.token()?;
    pair(cursor, levels)
}

// A record, after the bracket that opens.
#[cycle(constants)]
#[tactic(auto, unfolding(ng_phrases::specs::Parse::parse, crate::specs::Constants::rec))]
fn rec(cursor: &mut Cursor<'_>, levels: usize) -> Result<Value, Halt>
    requires { levels < 2 ^ 16 }
    ensures { Gives (inside levels gram.rec cursor.old.place cursor.old.rest.now) result cursor.new.place cursor.new.rest.now }
{
    let mut pairing = Pairing::new(cursor.alloc);
    if cursor.sees_sign(Sign::CloseBrace) {
        cursor.sign(Sign::CloseBrace)?;
        return Ok(pairing.finish(cursor.alloc)?);
    }
    let (key, value) = pair(cursor, levels)?;
    pairing.push(key, value, cursor.place)?;
    rec_on(cursor, levels, pairing)
}

// The pairs so far, and those that come.
#[cycle(constants)]
fn more_pairs(cursor: &mut Cursor<'_>, levels: usize, start: Pairing) -> Result<Pairing, Halt>
    requires levels { levels < 2 ^ 16 }
    requires weighs { PairsWeigh start.pairs.items start.weights.entries start.weight }
    ensures found { IfOk result (λ w. inside levels (gram.more_pairs start.pairs.items) cursor.old.place cursor.old.rest.now ≡ Ok (w.pairs.items, cursor.new.place, cursor.new.rest.now)) }
    ensures weighs { IfOk result (λ w. PairsWeigh w.pairs.items w.weights.entries w.weight) }
    ensures refused { IfErr result (λ e. Fails (inside levels (gram.more_pairs start.pairs.items) cursor.old.place cursor.old.rest.now) e cursor.new.place cursor.new.rest.now) }
{
    let mut pairing = start;
    while cursor.sees_sign(Sign::Comma) {
        let next = next_pair(cursor, levels)?;
        let (key, value) = next;
        pairing.push(key, value, cursor.place)?;
    }
    Ok(pairing)
}

// The pairs so far, those that come, and the bracket that closes.
#[cycle(constants)]
#[tactic(auto, unfolding(ng_phrases::specs::Parse::parse, crate::specs::Constants::rec_on))]
fn rec_on(cursor: &mut Cursor<'_>, levels: usize, start: Pairing) -> Result<Value, Halt>
    requires levels { levels < 2 ^ 16 }
    requires weighs { PairsWeigh start.pairs.items start.weights.entries start.weight }
    ensures { Gives (inside levels (gram.rec_on start.pairs.items) cursor.old.place cursor.old.rest.now) result cursor.new.place cursor.new.rest.now }
{
    let pairing = more_pairs(cursor, levels, start)?;
    cursor.sign(Sign::CloseBrace)?;
    Ok(pairing.finish(cursor.alloc)?)
}

/// A constant: it weighs at most 65,536 and nests at most 32 lists and records in one another. Takes time linear in its bytes, and for
/// each pair of a record a search among those before it.
#[tactic(auto, unfolding(ng_phrases::specs::Parse::parse, crate::specs::Constants::constant))]
pub fn constant(cursor: &mut Cursor<'_>) -> Result<Value, Halt>
    ensures { Gives (read gram.constant cursor.old.place cursor.old.rest.now) result cursor.new.place cursor.new.rest.now }
{
    constant_below(cursor, LEVELS)
}
