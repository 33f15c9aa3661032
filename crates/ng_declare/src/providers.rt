//! Providers, and what a query looks for.

ghost use Rattle.std.specs.Prelude.{◌≡◌};
ghost use Rattle.ng_ast.specs.declared.Aim.TheVariants as aim;
ghost use Rattle.ng_declare.specs.Members as gram;
ghost use Rattle.ng_declare.specs.Gives.{Gives, read};

use crate::constants::constant;
use crate::cursor::Cursor;
use crate::halt::Halt;
use ng_ast::{Aim, Provider};
use ng_tokens::Sign;
use ng_values::Value;

/// `=` and a constant.
#[tactic(auto, unfolding(ng_phrases::specs::Parse::parse, crate::specs::Members::value))]
pub fn value(cursor: &mut Cursor<'_>) -> Result<Value, Halt>
    ensures { Gives (read gram.value cursor.old.place cursor.old.rest.now) result cursor.new.place cursor.new.rest.now }
{
    cursor.sign(Sign::Assign)?;
    constant(cursor)
}

#[tactic(auto, unfolding(ng_phrases::specs::Parse::parse, crate::specs::Members::provided))]
fn provided(cursor: &mut Cursor<'_>) -> Result<Provider, Halt>
    ensures { Gives (read gram.provided cursor.old.place cursor.old.rest.now) result cursor.new.place cursor.new.rest.now }
{
    let token = cursor.name()?;
    if cursor.sees_word(b"as") {
        cursor.word(b"as")?;
        Ok(Provider::Other(token, cursor.name()?))
    } else if cursor.sees_sign(Sign::Assign) {
        Ok(Provider::Constant(token, value(cursor)?))
    } else if cursor.sees_word(b"from") {
        cursor.word(b"from")?;
        Ok(Provider::From(token, cursor.name()?))
    } else {
        Ok(Provider::Plain(token))
    }
}

/// A provider and its `;`.
#[tactic(auto, unfolding(ng_phrases::specs::Parse::parse, crate::specs::Members::provider_line))]
pub fn provider_line(cursor: &mut Cursor<'_>) -> Result<Provider, Halt>
    ensures { Gives (read gram.provider_line cursor.old.place cursor.old.rest.now) result cursor.new.place cursor.new.rest.now }
{
    let provider = provided(cursor)?;
    match cursor.sign(Sign::Semicolon) {
        Ok(()) => Ok(provider),
        Err(halt) => {
            drop(provider);
            Err(halt)
        }
    }
}

/// A component's name, or a reference after `#`.
#[tactic(auto, unfolding(ng_phrases::specs::Parse::parse, crate::specs::Members::aimed))]
pub fn aimed(cursor: &mut Cursor<'_>) -> Result<Aim, Halt>
    ensures { Gives (read gram.aimed cursor.old.place cursor.old.rest.now) result cursor.new.place cursor.new.rest.now }
{
    if cursor.sees_sign(Sign::Hash) {
        cursor.sign(Sign::Hash)?;
        Ok(Aim::Reference(cursor.name()?))
    } else {
        Ok(Aim::Component(cursor.name()?))
    }
}

/// Whether the word stands here, past which it then goes.
#[tactic(auto, unfolding(ng_phrases::specs::Parse::parse, crate::specs::Members::marked))]
pub fn marked(cursor: &mut Cursor<'_>, word: &[u8]) -> Result<bool, Halt>
    ensures { Gives (read (gram.marked word.now) cursor.old.place cursor.old.rest.now) result cursor.new.place cursor.new.rest.now }
{
    if cursor.sees_word(word) {
        cursor.word(word)?;
        Ok(true)
    } else {
        Ok(false)
    }
}
