//! The forms of outlets.

ghost use Rattle.std.specs.Prelude.{◌≡◌, ◌+◌, ◌^◌, ◌<◌, ◌≤◌, length, true, false, IfOk};
ghost use Rattle.ng_ast.specs.declared.OutletForm.{OutletForm};
ghost use Rattle.ng_exprs.specs.Grammar.{start};
ghost use Rattle.ng_exprs.specs.Limits.{after};
ghost use Rattle.ng_lex.specs.Values.{IsOutlet, OverOutlet};
ghost use Rattle.ng_attributes.specs.Answers.{Answers};
ghost use Rattle.ng_tags.specs.Outlets as spec;
ghost use Rattle.ng_attributes.specs.Places.{Fits};

use ng_ast::{Expr, OutletForm, Place};
use ng_attributes::{Stop, expression};
use ng_tokens::{Kind, ScanError, Sign, Token, same_text, scan};
use sqlite_items::Boxed;
use std::alloc::{AllocError, Global};

// The tokens that the form of an outlet may have.
const MAX_TOKENS: usize = 256;

// A `?`, `:` or `|` outside of brackets, of which so many are open.
fn is_top(kind: &Kind, depth: usize) -> bool
    ensures { result ≡ spec.is_top kind.now depth }
{
    matches!(kind, Kind::Sign(Sign::Question | Sign::Colon | Sign::Bar)) && depth == 0
}

// How many brackets are open after the token.
fn opened(kind: &Kind, depth: usize) -> usize
    requires { depth < 2 ^ 63 }
    ensures value { result ≡ after kind.now depth }
    ensures bound { result ≤ depth + 1 }
{
    match kind {
        Kind::Sign(Sign::OpenRound | Sign::OpenSquare | Sign::OpenBrace) => depth + 1,
        Kind::Sign(Sign::CloseRound | Sign::CloseSquare | Sign::CloseBrace) => {
            depth.saturating_sub(1)
        }
        _ => depth,
    }
}

// The tokens before the first `?`, `:` or `|` outside of brackets.
fn top_len(tokens: &[Token]) -> usize
    ensures value { result ≡ spec.top_len 0 tokens.now }
    ensures within { result ≤ length tokens.now }
{
    let mut depth = 0;
    for (at, token) in tokens.iter().enumerate() {
        if is_top(&token.kind, depth) {
            return at;
        }
        depth = opened(&token.kind, depth);
    }
    tokens.len()
}

/// Tokens that are still to be read, with the text that they are the tokens of.
#[derive(Clone, Copy)]
pub(crate) struct Cursor<'a> {
    pub text: &'a str,
    pub place: Place,
    pub tokens: &'a [Token],
}

// The text is cut at the place, before the tokens from there on.
fn cut<'a>(text: &'a str, from: Place, to: Place) -> (&'a str, &'a str)
    requires { spec.IsCutAt text.now from to }
    ensures { spec.AreCut text.now from to result.0.now result.1.now }
{
    text.split_at((to.byte - from.byte) as usize)
}

impl<'a> Cursor<'a> {
    // The text of so many tokens, and what comes after them.
    fn advance(self, len: usize) -> (&'a str, Cursor<'a>)
        requires cursor { spec.IsCursor self }
        requires within { len < length self.tokens.now }
        ensures { spec.Advances self.entry len result.0.now result.1 }
    {
        let place = self.tokens[len].place;
        let (before, text) = cut(self.text, self.place, place);
        let tokens = &self.tokens[len..];
        let rest = Cursor {
            text,
            place,
            tokens,
        };
        (before, rest)
    }

    // The sign of the token that so many stand before, if it is one.
    fn sign(self, at: usize) -> Option<Sign>
        ensures { result ≡ spec.sign_at self.entry.tokens.now at }
    {
        match self.tokens.get(at) {
            Some(token) => match token.kind {
                Kind::Sign(sign) => Some(sign),
                _ => None,
            },
            None => None,
        }
    }

    // What comes after so many tokens.
    fn skip(self, len: usize) -> Cursor<'a>
        requires cursor { spec.IsCursor self }
        requires within { len ≤ length self.tokens.now }
        ensures { spec.Skips self.entry len result }
    {
        if len < self.tokens.len() {
            return self.advance(len).1;
        }
        Cursor {
            text: "",
            place: self.place,
            tokens: &self.tokens[len..],
        }
    }
}

fn is_question(sign: Option<Sign>) -> bool
    ensures { result ≡ spec.is_question sign }
{
    matches!(sign, Some(Sign::Question))
}

fn is_colon(sign: Option<Sign>) -> bool
    ensures { result ≡ spec.is_colon sign }
{
    matches!(sign, Some(Sign::Colon))
}

fn is_bar(sign: Option<Sign>) -> bool
    ensures { result ≡ spec.is_bar sign }
{
    matches!(sign, Some(Sign::Bar))
}

// The place of the first token.
fn start_of(tokens: &[Token]) -> Place
    ensures { result ≡ start tokens.now }
{
    match tokens {
        [first, ..] => first.place,
        [] => Place {
            line: 0,
            column: 0,
            byte: 0,
        },
    }
}

// The form that one token is, where it is a name.
fn leaf_by(token: &Token) -> Result<Option<OutletForm>, AllocError>
    ensures { IfOk result (λ o. o ≡ spec.leaf_by token.now.place token.now.kind) }
{
    match &token.kind {
        Kind::Name(name) if same_text(b"null", name.as_str().as_bytes()) => {
            Ok(Some(OutletForm::Null))
        }
        Kind::Name(name) => Ok(Some(OutletForm::Name(token.place, name.copy()?))),
        _ => Ok(None),
    }
}

// The form of one token alone.
fn leaf_of(tokens: &[Token]) -> Result<Option<OutletForm>, AllocError>
    ensures { IfOk result (λ o. o ≡ spec.leaf_of tokens.now) }
{
    match tokens {
        [token] => leaf_by(token),
        _ => Ok(None),
    }
}

// A form without a test, which has so many tokens, and what comes after it.
fn leaf(cursor: Cursor, len: usize, budget: usize) -> Result<(OutletForm, Cursor), Stop>
    requires cursor { spec.IsCursor cursor }
    requires top { len ≡ spec.top_len 0 cursor.tokens.now }
    requires plain { spec.is_question (spec.sign_at cursor.tokens.now len) ≡ false }
    ensures { spec.AnswersForm budget cursor.entry result }
{
    if is_bar(cursor.sign(len)) {
        return Err(Stop::Syntax(cursor.place));
    }
    let Some(found) = leaf_of(&cursor.tokens[..len])? else {
        return Err(Stop::Syntax(cursor.place));
    };
    if budget == 0 {
        drop(found);
        return Err(Stop::Limit);
    }
    Ok((found, cursor.skip(len)))
}

// The test of a choice, which has so many tokens, and what comes after its `?`.
fn test(alloc: Global, cursor: Cursor, len: usize, budget: usize) -> Result<(Expr, Cursor), Stop>
    requires cursor { spec.IsCursor cursor }
    requires top { len ≡ spec.top_len 0 cursor.tokens.now }
    requires asks { spec.is_question (spec.sign_at cursor.tokens.now len) ≡ true }
    requires most { budget ≤ 256 }
    ensures { spec.AnswersTest budget len cursor.entry result }
{
    let (text, rest) = cursor.advance(len);
    match expression(alloc, text, cursor.place) {
        Ok(found) => {
            if len < budget {
                Ok((found, rest.skip(1)))
            } else {
                drop(found);
                Err(Stop::Limit)
            }
        }
        Err(stop) => Err(stop),
    }
}

// What comes after a `:`.
fn colon(cursor: Cursor) -> Option<Cursor>
    requires { spec.IsCursor cursor }
    ensures { spec.AfterColon cursor.entry result }
{
    if is_colon(cursor.sign(0)) {
        Some(cursor.skip(1))
    } else {
        None
    }
}

#[tactic(none)]
fn choice(
    alloc: Global,
    place: Place,
    test: Expr,
    left: OutletForm,
    right: OutletForm,
) -> Result<OutletForm, AllocError>
    ensures { IfOk result (λ form. form ≡ OutletForm.Choose place test left right) }
{
    let left = Boxed::new(alloc, left)?;
    let right = Boxed::new(alloc, right)?;
    Ok(OutletForm::Choose(place, test, left, right))
}

// The form behind the `:` of a choice, whose forms may have so many tokens, and what comes after it.
#[cycle(form)]
#[tactic(none)]
fn right<'a>(
    alloc: Global,
    yes: Cursor<'a>,
    rest: Cursor<'a>,
    room: usize,
) -> Result<(OutletForm, Cursor<'a>), Stop>
    requires cursor { spec.IsCursor rest }
    requires most { room ≤ 256 }
    ensures { spec.AnswersRight room yes.entry rest.entry result }
{
    let Some(no) = colon(rest) else {
        return Err(Stop::Syntax(rest.place));
    };
    let used = yes.tokens.len().saturating_sub(no.tokens.len());
    if used > room {
        return Err(Stop::Limit);
    }
    form(alloc, no, room - used)
}

// The choice whose test is read, and what comes after it.
#[cycle(form)]
#[tactic(none)]
fn branches<'a>(
    alloc: Global,
    place: Place,
    test: Expr,
    yes: Cursor<'a>,
    room: usize,
) -> Result<(OutletForm, Cursor<'a>), Stop>
    requires cursor { spec.IsCursor yes }
    requires most { room ≤ 256 }
    ensures { spec.AnswersBranches place test room yes.entry result }
{
    let (left, rest) = match form(alloc, yes, room) {
        Ok(found) => found,
        Err(stop) => {
            drop(test);
            return Err(stop);
        }
    };
    match right(alloc, yes, rest, room) {
        Ok((right, after)) => Ok((choice(alloc, place, test, left, right)?, after)),
        Err(stop) => {
            drop(test);
            drop(left);
            Err(stop)
        }
    }
}

// The form at the front, which may have so many tokens, and what comes after it.
#[cycle(form)]
#[tactic(none)]
fn form(alloc: Global, cursor: Cursor, budget: usize) -> Result<(OutletForm, Cursor), Stop>
    requires cursor { spec.IsCursor cursor }
    requires most { budget ≤ 256 }
    ensures { spec.AnswersForm budget cursor.entry result }
{
    let len = top_len(cursor.tokens);
    if !is_question(cursor.sign(len)) {
        return leaf(cursor, len, budget);
    }
    match test(alloc, cursor, len, budget) {
        Ok((test, yes)) => branches(alloc, start_of(cursor.tokens), test, yes, budget - len - 1),
        Err(stop) => Err(stop),
    }
}

fn tokens_of(alloc: Global, text: &str, place: Place) -> Result<Vec<Token>, Stop>
    requires { Fits place text.now }
    ensures { spec.Scanned place text.now result }
{
    match scan(alloc, false, text, place) {
        Ok(tokens) => Ok(tokens),
        Err(ScanError::Syntax(place)) => Err(Stop::Syntax(place)),
        Err(ScanError::Memory) => Err(Stop::Memory),
    }
}

/// The form of an outlet: `null`, the name of a template, or a choice between two forms.
#[tactic(none)]
pub(crate) fn outlet(alloc: Global, text: &str, place: Place) -> Result<OutletForm, Stop>
    requires { Fits place text.now }
    ensures { Answers (IsOutlet place text.now) (OverOutlet place text.now) result }
{
    let tokens = match tokens_of(alloc, text, place) {
        Ok(tokens) => tokens,
        Err(stop) => return Err(stop),
    };
    let cursor = Cursor {
        text,
        place,
        tokens: tokens.as_slice(),
    };
    match form(alloc, cursor, MAX_TOKENS) {
        Ok((found, rest)) => {
            if rest.tokens.is_empty() {
                Ok(found)
            } else {
                drop(found);
                Err(Stop::Syntax(rest.place))
            }
        }
        Err(stop) => Err(stop),
    }
}
