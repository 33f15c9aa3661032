//! Declarations, each after its first word.

ghost use Rattle.std.specs.Prelude.{◌≡◌};
ghost use Rattle.std.specs.Option.{option_and_then};
ghost use Rattle.ng_phrases.specs.Words as tokens;
ghost use Rattle.ng_declare.specs.Words as words;
ghost use Rattle.ng_declare.specs.Grammar as gram;
ghost use Rattle.ng_declare.specs.Rounds.{one};
ghost use Rattle.ng_declare.specs.Gives.{Gives, read};

use crate::cursor::Cursor;
use crate::entries::{Entry, Outline, Source};
use crate::halt::Halt;
use crate::limits::{Counts, MOST, push_within};
use crate::members::members;
use crate::names::names;
use crate::parts::{expression, selector};
use crate::providers::{marked, provider_line};
use crate::words::{DeclWord, Scope, decl_word};
use ng_ast::{Environment, Pipe, Place, Provider, Selector, Service};
use ng_tokens::{Kind, Sign, Token};
use ng_values::NgText;
use sqlite_items::Items;

#[tactic(auto, unfolding(ng_phrases::specs::Parse::parse, crate::specs::Grammar::selected))]
fn selected(cursor: &mut Cursor<'_>) -> Result<Selector, Halt>
    ensures { Gives (read gram.selected cursor.old.place cursor.old.rest.now) result cursor.new.place cursor.new.rest.now }
{
    cursor.word(b"selector")?;
    let written = cursor.text()?;
    let found = selector(cursor, &written)?;
    cursor.sign(Sign::Semicolon)?;
    Ok(found)
}

#[tactic(auto, unfolding(ng_phrases::specs::Parse::parse, crate::specs::Grammar::onpush))]
fn onpush(cursor: &mut Cursor<'_>) -> Result<bool, Halt>
    ensures { Gives (read gram.onpush cursor.old.place cursor.old.rest.now) result cursor.new.place cursor.new.rest.now }
{
    if cursor.sees_word(b"onpush") {
        cursor.word(b"onpush")?;
        cursor.sign(Sign::Semicolon)?;
        Ok(true)
    } else {
        Ok(false)
    }
}

#[tactic(auto, unfolding(ng_phrases::specs::Parse::parse, ng_phrases::specs::Words::gap, crate::specs::Grammar::shown))]
fn shown(cursor: &mut Cursor<'_>) -> Result<Source, Halt>
    ensures { Gives (read gram.shown cursor.old.place cursor.old.rest.now) result cursor.new.place cursor.new.rest.now }
{
    cursor.word(b"template")?;
    let found = cursor.quoted()?;
    cursor.gap()?;
    cursor.sign(Sign::Semicolon)?;
    Ok(found)
}

#[tactic(auto, unfolding(ng_phrases::specs::Parse::parse, crate::specs::Grammar::component))]
fn component(cursor: &mut Cursor<'_>, place: Place) -> Result<Entry, Halt>
    ensures { Gives (read (gram.component place) cursor.old.place cursor.old.rest.now) result cursor.new.place cursor.new.rest.now }
{
    let name = cursor.name()?;
    cursor.sign(Sign::OpenBrace)?;
    let selector = selected(cursor)?;
    let onpush = onpush(cursor)?;
    let members = members(cursor, Scope::Component)?;
    let template = shown(cursor)?;
    cursor.sign(Sign::CloseBrace)?;
    Ok(Entry::Component(Outline {
        place,
        name,
        selector,
        onpush,
        members,
        template,
    }))
}

#[tactic(auto, unfolding(ng_phrases::specs::Parse::parse, crate::specs::Grammar::service))]
fn service(cursor: &mut Cursor<'_>, place: Place) -> Result<Entry, Halt>
    ensures { Gives (read (gram.service place) cursor.old.place cursor.old.rest.now) result cursor.new.place cursor.new.rest.now }
{
    let name = cursor.name()?;
    let root = marked(cursor, b"root")?;
    cursor.sign(Sign::OpenBrace)?;
    let members = members(cursor, Scope::Service)?;
    cursor.sign(Sign::CloseBrace)?;
    Ok(Entry::Service(Service {
        place,
        name,
        root,
        members,
    }))
}

#[tactic(auto, unfolding(ng_phrases::specs::Parse::parse, crate::specs::Grammar::pipe))]
fn pipe(cursor: &mut Cursor<'_>, place: Place) -> Result<Entry, Halt>
    ensures { Gives (read (gram.pipe place) cursor.old.place cursor.old.rest.now) result cursor.new.place cursor.new.rest.now }
{
    let name = cursor.name()?;
    cursor.sign(Sign::OpenRound)?;
    let params = names(cursor)?;
    cursor.sign(Sign::CloseRound)?;
    cursor.sign(Sign::Assign)?;
    let value = expression(cursor)?;
    match cursor.sign(Sign::Semicolon) {
        Ok(()) => Ok(Entry::Pipe(Pipe {
            place,
            name,
            params,
            value,
        })),
        Err(halt) => {
            drop(value);
            Err(halt)
        }
    }
}

// The name after a word, where the word stands.
#[tactic(auto, unfolding(ng_phrases::specs::Parse::parse, crate::specs::Grammar::after_word))]
fn after_word(cursor: &mut Cursor<'_>, word: &[u8]) -> Result<Option<NgText>, Halt>
    ensures { Gives (read (gram.after_word word.now) cursor.old.place cursor.old.rest.now) result cursor.new.place cursor.new.rest.now }
{
    if cursor.sees_word(word) {
        cursor.word(word)?;
        Ok(Some(cursor.name()?))
    } else {
        Ok(None)
    }
}

#[tactic(auto, unfolding(ng_phrases::specs::Parse::parse, ng_phrases::specs::Words::token, crate::specs::Grammar::environment_provides))]
fn next_provider(cursor: &mut Cursor<'_>) -> Result<(Place, Provider), Halt>
    ensures { Gives (read (one gram.environment_provides) cursor.old.place cursor.old.rest.now) result cursor.new.place cursor.new.rest.now }
{
    let token = cursor.token()?;
    let provider = provider_line(cursor)?;
    Ok((token.place, provider))
}

fn environment_lines(cursor: &mut Cursor<'_>) -> Result<Items<(Place, Provider)>, Halt>
    ensures { Gives (read gram.environment_lines cursor.old.place cursor.old.rest.now) result cursor.new.place cursor.new.rest.now }
{
    let mut found = Items::new(cursor.alloc);
    while cursor.sees_word(b"provide") {
        let fits = found.len() < MOST;
        let provider = next_provider(cursor)?;
        push_within(&mut found, provider, fits, cursor.place)?;
    }
    Ok(found)
}

#[tactic(auto, unfolding(ng_phrases::specs::Parse::parse, crate::specs::Grammar::environment))]
fn environment(cursor: &mut Cursor<'_>, place: Place) -> Result<Entry, Halt>
    ensures { Gives (read (gram.environment place) cursor.old.place cursor.old.rest.now) result cursor.new.place cursor.new.rest.now }
{
    let name = cursor.name()?;
    let under = after_word(cursor, b"under")?;
    cursor.sign(Sign::OpenBrace)?;
    let provides = environment_lines(cursor)?;
    cursor.sign(Sign::CloseBrace)?;
    Ok(Entry::Environment(Environment {
        place,
        name,
        under,
        provides,
    }))
}

#[tactic(auto, unfolding(ng_phrases::specs::Parse::parse, crate::specs::Grammar::token_declared))]
fn token_declared(cursor: &mut Cursor<'_>, place: Place) -> Result<Entry, Halt>
    ensures { Gives (read (gram.token_declared place) cursor.old.place cursor.old.rest.now) result cursor.new.place cursor.new.rest.now }
{
    let name = cursor.name()?;
    cursor.sign(Sign::Semicolon)?;
    Ok(Entry::Token(place, name))
}

#[tactic(auto, unfolding(ng_phrases::specs::Parse::parse, crate::specs::Grammar::bootstrap))]
fn bootstrap(cursor: &mut Cursor<'_>, place: Place) -> Result<Entry, Halt>
    ensures { Gives (read (gram.bootstrap place) cursor.old.place cursor.old.rest.now) result cursor.new.place cursor.new.rest.now }
{
    let name = cursor.name()?;
    let inside = after_word(cursor, b"in")?;
    cursor.sign(Sign::Semicolon)?;
    Ok(Entry::Bootstrap(place, name, inside))
}

fn entry_by(cursor: &mut Cursor<'_>, place: Place, word: DeclWord) -> Result<Entry, Halt>
    ensures { Gives (read (gram.entry_by place word) cursor.old.place cursor.old.rest.now) result cursor.new.place cursor.new.rest.now }
{
    match word {
        DeclWord::Component => component(cursor, place),
        DeclWord::Service => service(cursor, place),
        DeclWord::Pipe => pipe(cursor, place),
        DeclWord::Environment => environment(cursor, place),
        DeclWord::Token => token_declared(cursor, place),
        DeclWord::Bootstrap => bootstrap(cursor, place),
    }
}

// The word that a declaration begins with, if the token is one.
fn word_of(kind: &Kind) -> Option<DeclWord>
    ensures { result ≡ option_and_then words.decl_word (tokens.name_of kind.now) }
{
    match kind {
        Kind::Name(name) => decl_word(name.as_str().as_bytes()),
        _ => None,
    }
}

fn declaration_ahead(cursor: &Cursor<'_>) -> bool
    ensures { result ≡ words.sees_one words.decl_word cursor.now.rest.now }
{
    match cursor.name_ahead() {
        Some(name) => decl_word(name).is_some(),
        None => false,
    }
}

#[tactic(auto, unfolding(ng_phrases::specs::Parse::parse, ng_phrases::specs::Words::token, crate::specs::Grammar::declared))]
fn next_entry(cursor: &mut Cursor<'_>) -> Result<Entry, Halt>
    ensures { Gives (read (one gram.declared) cursor.old.place cursor.old.rest.now) result cursor.new.place cursor.new.rest.now }
{
    let Token { kind, place } = cursor.token()?;
    match word_of(&kind) {
        Some(word) => entry_by(cursor, place, word),
        None => Err(Halt::Syntax(place)),
    }
}

fn entries(cursor: &mut Cursor<'_>) -> Result<Items<Entry>, Halt>
    ensures { Gives (read gram.entries cursor.old.place cursor.old.rest.now) result cursor.new.place cursor.new.rest.now }
{
    let mut found = Items::new(cursor.alloc);
    let mut counts = Counts::none();
    while declaration_ahead(cursor) {
        let entry = next_entry(cursor)?;
        counts = counts.with(&entry);
        push_within(&mut found, entry, counts.are_few(), cursor.place)?;
    }
    Ok(found)
}

/// The declarations of a file: at most 256 components, services, pipes and environments each.
#[tactic(auto, unfolding(ng_phrases::specs::Parse::parse, ng_phrases::specs::Words::gap, crate::specs::Grammar::file))]
pub fn file(cursor: &mut Cursor<'_>) -> Result<Items<Entry>, Halt>
    ensures { Gives (read gram.file cursor.old.place cursor.old.rest.now) result cursor.new.place cursor.new.rest.now }
{
    cursor.gap()?;
    entries(cursor)
}
