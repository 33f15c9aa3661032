//! Listeners: statements without `if`.

ghost use Rattle.std.specs.Prelude.{◌≡◌, ◌<◌};
ghost use Rattle.ng_exprs.specs.Parse.{peek, turns as loops};
ghost use Rattle.ng_exprs.specs.Lines as spec;
ghost use Rattle.ng_exprs.specs.Gives.{Gives};

use crate::halt::Halt;
use crate::parse::whole;
use crate::tokens::Tokens;
use ng_ast::{Expr, Owner, Place, Stmt};
use ng_tokens::Sign;
use ng_values::NgText;
use sqlite_items::Items;
use std::alloc::Global;

// The tokens that an expression may have.
const MAX_TOKENS: usize = 256;

/// Above the count of the tokens of a text.
pub const MOST: usize = 1048577;

// An expression with its own count of tokens, in which `depth` brackets may be open.
#[tactic(auto, unfolding(crate::specs::Lines::measured))]
fn measured(alloc: Global, tokens: &mut Tokens, depth: usize) -> Result<Expr, Halt>
    requires { depth < 1000 }
    ensures { Gives (spec.measured loops 256 spec.most depth tokens.old) result tokens.new }
{
    let place = tokens.at();
    let before = tokens.len();
    let found = whole(alloc, tokens, depth + 1)?;
    if before.saturating_sub(tokens.len()) > MAX_TOKENS {
        // by a call, which is proved once
        drop(found);
        return Err(Halt::Limit(place));
    }
    Ok(found)
}

fn list(alloc: Global, tokens: &mut Tokens, depth: usize, turns: usize) -> Result<Items<Expr>, Halt>
    requires { depth < 1000 }
    ensures { Gives (spec.list_of (spec.measured loops 256 spec.most depth) turns tokens.old) result tokens.new }
{
    let mut found = Items::new(alloc);
    for _turn in 0..turns {
        found.push(measured(alloc, tokens, depth)?)?;
        if !tokens.sees(Sign::Comma) {
            return Ok(found);
        }
        tokens.skip();
    }
    Err(Halt::Syntax(tokens.at()))
}

/// The arguments, after the bracket that opens them, and the one that closes them.
pub fn args(alloc: Global, tokens: &mut Tokens, depth: usize) -> Result<Items<Expr>, Halt>
    requires { depth < 1000 }
    ensures { Gives (spec.args loops 256 spec.most depth tokens.old) result tokens.new }
{
    if depth == 0 {
        return Err(Halt::Limit(tokens.at()));
    }
    if tokens.sees(Sign::CloseRound) {
        tokens.skip();
        return Ok(Items::new(alloc));
    }
    let found = list(alloc, tokens, depth - 1, MOST)?;
    tokens.expect(Sign::CloseRound)?;
    Ok(found)
}

#[tactic(auto, unfolding(crate::specs::Lines::set))]
fn set(
    alloc: Global,
    tokens: &mut Tokens,
    depth: usize,
    place: Place,
    name: NgText,
) -> Result<Stmt, Halt>
    requires { depth < 1000 }
    ensures { Gives (spec.set loops 256 spec.most depth place name tokens.old) result tokens.new }
{
    let value = measured(alloc, tokens, depth)?;
    Ok(Stmt::Set(place, name, value))
}

#[tactic(auto, unfolding(crate::specs::Lines::run))]
fn run(
    alloc: Global,
    tokens: &mut Tokens,
    depth: usize,
    place: Place,
    name: NgText,
) -> Result<Stmt, Halt>
    requires { depth < 1000 }
    ensures { Gives (spec.run loops 256 spec.most depth place name tokens.old) result tokens.new }
{
    let found = args(alloc, tokens, depth)?;
    Ok(Stmt::Do(place, name, found))
}

// The rest of a statement after its owner and the point.
#[tactic(auto, unfolding(crate::specs::Lines::send))]
fn send(
    alloc: Global,
    tokens: &mut Tokens,
    depth: usize,
    place: Place,
    owner: Owner,
) -> Result<Stmt, Halt>
    requires { depth < 1000 }
    ensures { Gives (spec.send loops 256 spec.most depth place owner tokens.old) result tokens.new }
{
    let name = tokens.name()?;
    tokens.expect(Sign::OpenRound)?;
    let found = args(alloc, tokens, depth)?;
    Ok(Stmt::Send(place, owner, name, found))
}

#[tactic(auto, unfolding(crate::specs::Lines::apart))]
fn apart(
    alloc: Global,
    tokens: &mut Tokens,
    depth: usize,
    place: Place,
    name: NgText,
) -> Result<Stmt, Halt>
    requires { depth < 1000 }
    ensures { Gives (spec.apart loops 256 spec.most depth place name tokens.old) result tokens.new }
{
    tokens.expect(Sign::Dot)?;
    send(alloc, tokens, depth, place, Owner::Safe(place, name))
}

fn item(
    alloc: Global,
    tokens: &mut Tokens,
    depth: usize,
    place: Place,
    name: NgText,
) -> Result<Stmt, Halt>
    requires { depth < 1000 }
    ensures { Gives (spec.item loops 256 spec.most depth place name tokens.old) result tokens.new }
{
    if depth == 0 {
        return Err(Halt::Limit(tokens.at()));
    }
    let at = measured(alloc, tokens, depth - 1)?;
    tokens.expect(Sign::CloseSquare)?;
    tokens.expect(Sign::Dot)?;
    send(alloc, tokens, depth, place, Owner::Item(place, name, at))
}

// What follows the name at the front of a statement.
fn after_name(
    alloc: Global,
    tokens: &mut Tokens,
    depth: usize,
    place: Place,
    name: NgText,
) -> Result<Stmt, Halt>
    requires { depth < 1000 }
    ensures { Gives (spec.go_on loops 256 spec.most (spec.after_name loops 256 spec.most depth place name (peek tokens.old)) tokens.old) result tokens.new }
{
    let Some(sign) = tokens.peek() else {
        return Err(Halt::Syntax(tokens.at()));
    };
    let here = tokens.at();
    tokens.skip();
    match sign {
        Sign::Assign => set(alloc, tokens, depth, place, name),
        Sign::OpenRound => run(alloc, tokens, depth, place, name),
        Sign::Dot => send(alloc, tokens, depth, place, Owner::Name(place, name)),
        Sign::SafeDot => send(alloc, tokens, depth, place, Owner::Safe(place, name)),
        Sign::Question => apart(alloc, tokens, depth, place, name),
        Sign::OpenSquare => item(alloc, tokens, depth, place, name),
        _ => Err(Halt::Syntax(here)),
    }
}

/// A statement without `if`, up to its `;`.
#[tactic(auto, unfolding(crate::specs::Lines::simple))]
pub fn simple(alloc: Global, tokens: &mut Tokens, depth: usize) -> Result<Stmt, Halt>
    requires { depth < 1000 }
    ensures { Gives (spec.simple loops 256 spec.most depth tokens.old) result tokens.new }
{
    let place = tokens.place();
    let name = tokens.name()?;
    after_name(alloc, tokens, depth, place, name)
}

fn is_last(tokens: &Tokens) -> bool
    ensures { result ≡ spec.is_last tokens.now }
{
    tokens.len() == 0
}

/// A listener: one statement or several, with `;` between.
pub fn listener(
    alloc: Global,
    tokens: &mut Tokens,
    depth: usize,
    turns: usize,
) -> Result<Items<Stmt>, Halt>
    requires { depth < 1000 }
    ensures { Gives (spec.listener loops 256 spec.most depth turns tokens.old) result tokens.new }
{
    let mut found = Items::new(alloc);
    for _turn in 0..turns {
        found.push(simple(alloc, tokens, depth)?)?;
        if is_last(tokens) {
            return Ok(found);
        }
        tokens.expect(Sign::Semicolon)?;
        if is_last(tokens) {
            return Ok(found);
        }
    }
    Err(Halt::Syntax(tokens.at()))
}
