//! Members of services and components, each after its first word.

ghost use Rattle.std.specs.Prelude.{◌≡◌};
ghost use Rattle.std.specs.Option.{option_and_then};
ghost use Rattle.ng_phrases.specs.Words.{name_of};
ghost use Rattle.ng_declare.specs.Words as words;
ghost use Rattle.ng_declare.specs.Members as gram;
ghost use Rattle.ng_declare.specs.Rounds.{one};
ghost use Rattle.ng_declare.specs.Gives.{Gives, read};

use crate::cursor::Cursor;
use crate::halt::Halt;
use crate::limits::{MOST, push_within};
use crate::names::parameters;
use crate::parts::{body, expression};
use crate::providers::{aimed, marked, provider_line, value};
use crate::words::{MemberWord, Scope, flag_word};
use ng_ast::{Flag, Member, MemberKind, Place, QueryKind, Stmt};
use ng_tokens::{Kind, Sign, Token};
use ng_values::{NgText, Value};
use sqlite_items::Items;

// A name, `=`, a constant and `;`.
#[tactic(auto, unfolding(ng_phrases::specs::Parse::parse, crate::specs::Members::stored))]
fn stored(cursor: &mut Cursor<'_>) -> Result<(NgText, Value), Halt>
    ensures { Gives (read gram.stored cursor.old.place cursor.old.rest.now) result cursor.new.place cursor.new.rest.now }
{
    let name = cursor.name()?;
    let value = value(cursor)?;
    cursor.sign(Sign::Semicolon)?;
    Ok((name, value))
}

#[tactic(auto, unfolding(ng_phrases::specs::Parse::parse, crate::specs::Members::field))]
fn field(cursor: &mut Cursor<'_>, place: Place) -> Result<Member, Halt>
    ensures { Gives (read (gram.field place) cursor.old.place cursor.old.rest.now) result cursor.new.place cursor.new.rest.now }
{
    let (name, value) = stored(cursor)?;
    Ok(Member {
        place,
        name,
        kind: MemberKind::Field(value),
    })
}

#[tactic(auto, unfolding(ng_phrases::specs::Parse::parse, crate::specs::Members::signal))]
fn signal(cursor: &mut Cursor<'_>, place: Place) -> Result<Member, Halt>
    ensures { Gives (read (gram.signal place) cursor.old.place cursor.old.rest.now) result cursor.new.place cursor.new.rest.now }
{
    let (name, value) = stored(cursor)?;
    Ok(Member {
        place,
        name,
        kind: MemberKind::Signal(value),
    })
}

// The flag that a token is.
fn flag_of(kind: &Kind) -> Option<Flag>
    ensures { result ≡ option_and_then words.flag_word (name_of kind.now) }
{
    match kind {
        Kind::Name(name) => flag_word(name.as_str().as_bytes()),
        _ => None,
    }
}

fn flag_ahead(cursor: &Cursor<'_>) -> bool
    ensures { result ≡ words.sees_one words.flag_word cursor.now.rest.now }
{
    match cursor.name_ahead() {
        Some(name) => flag_word(name).is_some(),
        None => false,
    }
}

#[tactic(auto, unfolding(ng_phrases::specs::Parse::parse, ng_phrases::specs::Words::token, crate::specs::Members::flagged))]
fn next_flag(cursor: &mut Cursor<'_>) -> Result<Flag, Halt>
    ensures { Gives (read (one gram.flagged) cursor.old.place cursor.old.rest.now) result cursor.new.place cursor.new.rest.now }
{
    let token = cursor.token()?;
    match flag_of(&token.kind) {
        Some(flag) => Ok(flag),
        None => Err(Halt::Syntax(token.place)),
    }
}

fn flags(cursor: &mut Cursor<'_>) -> Result<Items<Flag>, Halt>
    ensures { Gives (read gram.flags cursor.old.place cursor.old.rest.now) result cursor.new.place cursor.new.rest.now }
{
    let mut found = Items::new(cursor.alloc);
    while flag_ahead(cursor) {
        let flag = next_flag(cursor)?;
        found.push(flag)?;
    }
    Ok(found)
}

#[tactic(auto, unfolding(ng_phrases::specs::Parse::parse, crate::specs::Members::injected))]
fn injected(cursor: &mut Cursor<'_>, place: Place) -> Result<Member, Halt>
    ensures { Gives (read (gram.injected place) cursor.old.place cursor.old.rest.now) result cursor.new.place cursor.new.rest.now }
{
    let name = cursor.name()?;
    cursor.sign(Sign::Assign)?;
    let token = cursor.name()?;
    let flags = flags(cursor)?;
    cursor.sign(Sign::Semicolon)?;
    Ok(Member {
        place,
        name,
        kind: MemberKind::Inject(token, flags),
    })
}

// The default of an input, which is null where none is written.
#[tactic(auto, unfolding(ng_phrases::specs::Parse::parse, crate::specs::Members::default))]
fn default(cursor: &mut Cursor<'_>) -> Result<Value, Halt>
    ensures { Gives (read gram.default cursor.old.place cursor.old.rest.now) result cursor.new.place cursor.new.rest.now }
{
    if cursor.sees_sign(Sign::Assign) {
        value(cursor)
    } else {
        Ok(Value::Null)
    }
}

#[tactic(auto, unfolding(ng_phrases::specs::Parse::parse, crate::specs::Members::input))]
fn input(cursor: &mut Cursor<'_>, place: Place) -> Result<Member, Halt>
    ensures { Gives (read (gram.input place) cursor.old.place cursor.old.rest.now) result cursor.new.place cursor.new.rest.now }
{
    let name = cursor.name()?;
    let value = default(cursor)?;
    cursor.sign(Sign::Semicolon)?;
    Ok(Member {
        place,
        name,
        kind: MemberKind::Input(false, value),
    })
}

#[tactic(auto, unfolding(ng_phrases::specs::Parse::parse, crate::specs::Members::required))]
fn required(cursor: &mut Cursor<'_>, place: Place) -> Result<Member, Halt>
    ensures { Gives (read (gram.required place) cursor.old.place cursor.old.rest.now) result cursor.new.place cursor.new.rest.now }
{
    cursor.word(b"input")?;
    let name = cursor.name()?;
    cursor.sign(Sign::Semicolon)?;
    Ok(Member {
        place,
        name,
        kind: MemberKind::Input(true, Value::Null),
    })
}

#[tactic(auto, unfolding(ng_phrases::specs::Parse::parse, crate::specs::Members::output))]
fn output(cursor: &mut Cursor<'_>, place: Place) -> Result<Member, Halt>
    ensures { Gives (read (gram.output place) cursor.old.place cursor.old.rest.now) result cursor.new.place cursor.new.rest.now }
{
    let name = cursor.name()?;
    cursor.sign(Sign::Semicolon)?;
    Ok(Member {
        place,
        name,
        kind: MemberKind::Output,
    })
}

#[tactic(auto, unfolding(ng_phrases::specs::Parse::parse, crate::specs::Members::provide))]
fn provide(cursor: &mut Cursor<'_>, place: Place) -> Result<Member, Halt>
    ensures { Gives (read (gram.provide place) cursor.old.place cursor.old.rest.now) result cursor.new.place cursor.new.rest.now }
{
    let name = NgText::new(cursor.alloc, "")?;
    let provider = provider_line(cursor)?;
    Ok(Member {
        place,
        name,
        kind: MemberKind::Provide(provider),
    })
}

#[tactic(auto, unfolding(ng_phrases::specs::Parse::parse, crate::specs::Members::view_provide))]
fn view_provide(cursor: &mut Cursor<'_>, place: Place) -> Result<Member, Halt>
    ensures { Gives (read (gram.view_provide place) cursor.old.place cursor.old.rest.now) result cursor.new.place cursor.new.rest.now }
{
    let name = NgText::new(cursor.alloc, "")?;
    let provider = provider_line(cursor)?;
    Ok(Member {
        place,
        name,
        kind: MemberKind::ViewProvide(provider),
    })
}

#[tactic(auto, unfolding(ng_phrases::specs::Parse::parse, crate::specs::Members::queried))]
fn queried(cursor: &mut Cursor<'_>, place: Place, what: QueryKind) -> Result<Member, Halt>
    ensures { Gives (read (gram.queried what place) cursor.old.place cursor.old.rest.now) result cursor.new.place cursor.new.rest.now }
{
    let name = cursor.name()?;
    cursor.sign(Sign::Assign)?;
    let aim = aimed(cursor)?;
    match cursor.sign(Sign::Semicolon) {
        Ok(()) => Ok(Member {
            place,
            name,
            kind: MemberKind::Query(what, aim, false),
        }),
        Err(halt) => {
            drop(aim);
            Err(halt)
        }
    }
}

#[tactic(auto, unfolding(ng_phrases::specs::Parse::parse, crate::specs::Members::content_children))]
fn content_children(cursor: &mut Cursor<'_>, place: Place) -> Result<Member, Halt>
    ensures { Gives (read (gram.content_children place) cursor.old.place cursor.old.rest.now) result cursor.new.place cursor.new.rest.now }
{
    let name = cursor.name()?;
    cursor.sign(Sign::Assign)?;
    let aim = aimed(cursor)?;
    let descendants = match marked(cursor, b"descendants") {
        Ok(descendants) => descendants,
        Err(halt) => {
            drop(aim);
            return Err(halt);
        }
    };
    match cursor.sign(Sign::Semicolon) {
        Ok(()) => Ok(Member {
            place,
            name,
            kind: MemberKind::Query(QueryKind::ContentChildren, aim, descendants),
        }),
        Err(halt) => {
            drop(aim);
            Err(halt)
        }
    }
}

#[tactic(auto, unfolding(ng_phrases::specs::Parse::parse, crate::specs::Members::getter))]
fn getter(cursor: &mut Cursor<'_>, place: Place) -> Result<Member, Halt>
    ensures { Gives (read (gram.getter place) cursor.old.place cursor.old.rest.now) result cursor.new.place cursor.new.rest.now }
{
    let name = cursor.name()?;
    cursor.sign(Sign::Assign)?;
    let value = expression(cursor)?;
    match cursor.sign(Sign::Semicolon) {
        Ok(()) => Ok(Member {
            place,
            name,
            kind: MemberKind::Getter(value),
        }),
        Err(halt) => {
            drop(value);
            Err(halt)
        }
    }
}

// A body in braces.
#[tactic(auto, unfolding(ng_phrases::specs::Parse::parse, crate::specs::Members::block))]
fn block(cursor: &mut Cursor<'_>) -> Result<Items<Stmt>, Halt>
    ensures { Gives (read gram.block cursor.old.place cursor.old.rest.now) result cursor.new.place cursor.new.rest.now }
{
    cursor.sign(Sign::OpenBrace)?;
    let found = body(cursor)?;
    cursor.sign(Sign::CloseBrace)?;
    Ok(found)
}

#[tactic(auto, unfolding(ng_phrases::specs::Parse::parse, crate::specs::Members::method))]
fn method(cursor: &mut Cursor<'_>, place: Place) -> Result<Member, Halt>
    ensures { Gives (read (gram.method place) cursor.old.place cursor.old.rest.now) result cursor.new.place cursor.new.rest.now }
{
    let name = cursor.name()?;
    cursor.sign(Sign::OpenRound)?;
    let params = parameters(cursor)?;
    let found = block(cursor)?;
    Ok(Member {
        place,
        name,
        kind: MemberKind::Method(params, found),
    })
}

#[tactic(auto, unfolding(ng_phrases::specs::Parse::parse, crate::specs::Members::init))]
fn init(cursor: &mut Cursor<'_>, place: Place) -> Result<Member, Halt>
    ensures { Gives (read (gram.init place) cursor.old.place cursor.old.rest.now) result cursor.new.place cursor.new.rest.now }
{
    let found = block(cursor)?;
    let name = NgText::new(cursor.alloc, "")?;
    Ok(Member {
        place,
        name,
        kind: MemberKind::Init(found),
    })
}

fn member_by(cursor: &mut Cursor<'_>, place: Place, word: MemberWord) -> Result<Member, Halt>
    ensures { Gives (read (gram.member_by place word) cursor.old.place cursor.old.rest.now) result cursor.new.place cursor.new.rest.now }
{
    match word {
        MemberWord::Field => field(cursor, place),
        MemberWord::Signal => signal(cursor, place),
        MemberWord::Get => getter(cursor, place),
        MemberWord::Method => method(cursor, place),
        MemberWord::Init => init(cursor, place),
        MemberWord::Inject => injected(cursor, place),
        MemberWord::Input => input(cursor, place),
        MemberWord::Required => required(cursor, place),
        MemberWord::Output => output(cursor, place),
        MemberWord::Provide => provide(cursor, place),
        MemberWord::ViewProvide => view_provide(cursor, place),
        MemberWord::ViewChild => queried(cursor, place, QueryKind::ViewChild),
        MemberWord::ViewChildren => queried(cursor, place, QueryKind::ViewChildren),
        MemberWord::ContentChild => queried(cursor, place, QueryKind::ContentChild),
        MemberWord::ContentChildren => content_children(cursor, place),
    }
}

// The word that a member of the scope begins with, if the token is one.
fn word_of(scope: Scope, kind: &Kind) -> Option<MemberWord>
    ensures { result ≡ option_and_then (words.word_of scope) (name_of kind.now) }
{
    match kind {
        Kind::Name(name) => scope.word_of(name.as_str().as_bytes()),
        _ => None,
    }
}

fn member_ahead(cursor: &Cursor<'_>, scope: Scope) -> bool
    ensures { result ≡ words.sees_one (words.word_of scope) cursor.now.rest.now }
{
    match cursor.name_ahead() {
        Some(name) => scope.word_of(name).is_some(),
        None => false,
    }
}

#[tactic(auto, unfolding(ng_phrases::specs::Parse::parse, ng_phrases::specs::Words::token, crate::specs::Members::worded))]
fn next_member(cursor: &mut Cursor<'_>, scope: Scope) -> Result<Member, Halt>
    ensures { Gives (read (one (gram.worded scope)) cursor.old.place cursor.old.rest.now) result cursor.new.place cursor.new.rest.now }
{
    let Token { kind, place } = cursor.token()?;
    match word_of(scope, &kind) {
        Some(word) => member_by(cursor, place, word),
        None => Err(Halt::Syntax(place)),
    }
}

/// The members of a service or a component, at most 256.
pub fn members(cursor: &mut Cursor<'_>, scope: Scope) -> Result<Items<Member>, Halt>
    ensures { Gives (read (gram.members scope) cursor.old.place cursor.old.rest.now) result cursor.new.place cursor.new.rest.now }
{
    let mut found = Items::new(cursor.alloc);
    while member_ahead(cursor, scope) {
        let fits = found.len() < MOST;
        let member = next_member(cursor, scope)?;
        push_within(&mut found, member, fits, cursor.place)?;
    }
    Ok(found)
}
