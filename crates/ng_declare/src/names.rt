//! Lists of names.

ghost use Rattle.std.specs.Prelude.{◌≡◌};
ghost use Rattle.ng_declare.specs.Members as gram;
ghost use Rattle.ng_declare.specs.Rounds as rounds;
ghost use Rattle.ng_declare.specs.Gives.{Gives, read};

use crate::cursor::Cursor;
use crate::halt::Halt;
use ng_tokens::Sign;
use ng_values::NgText;
use sqlite_items::Items;

// "," NAME
#[tactic(auto, unfolding(ng_phrases::specs::Parse::parse, ng_phrases::specs::Words::token))]
fn next_name(cursor: &mut Cursor<'_>) -> Result<NgText, Halt>
    ensures { Gives (read (rounds.one gram.named) cursor.old.place cursor.old.rest.now) result cursor.new.place cursor.new.rest.now }
{
    cursor.token()?;
    cursor.name()
}

// The names so far, and those that come.
fn more_names(cursor: &mut Cursor<'_>, start: Items<NgText>) -> Result<Items<NgText>, Halt>
    ensures { Gives (read (gram.more_names start) cursor.old.place cursor.old.rest.now) result cursor.new.place cursor.new.rest.now }
{
    let mut found = start;
    while cursor.sees_sign(Sign::Comma) {
        let name = next_name(cursor)?;
        found.push(name)?;
    }
    Ok(found)
}

/// One name or more, with a comma between each two.
#[tactic(auto, unfolding(ng_phrases::specs::Parse::parse, crate::specs::Members::names))]
pub fn names(cursor: &mut Cursor<'_>) -> Result<Items<NgText>, Halt>
    ensures { Gives (read gram.names cursor.old.place cursor.old.rest.now) result cursor.new.place cursor.new.rest.now }
{
    let mut start = Items::new(cursor.alloc);
    start.push(cursor.name()?)?;
    more_names(cursor, start)
}

/// Any number of names, and the bracket that closes.
#[tactic(auto, unfolding(ng_phrases::specs::Parse::parse, crate::specs::Members::parameters))]
pub fn parameters(cursor: &mut Cursor<'_>) -> Result<Items<NgText>, Halt>
    ensures { Gives (read gram.parameters cursor.old.place cursor.old.rest.now) result cursor.new.place cursor.new.rest.now }
{
    if cursor.sees_sign(Sign::CloseRound) {
        cursor.sign(Sign::CloseRound)?;
        return Ok(Items::new(cursor.alloc));
    }
    let found = names(cursor)?;
    cursor.sign(Sign::CloseRound)?;
    Ok(found)
}
