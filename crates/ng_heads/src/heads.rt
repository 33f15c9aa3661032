//! The heads of blocks.

ghost use Rattle.std.specs.Prelude.{◌≡◌, true, false, [], ◌∷◌, ◌++◌, codes, MatchOption, MatchBool, IfOk, IfErr};
ghost use Rattle.ng_ast.specs.declared.Place.{Place};
ghost use Rattle.ng_lex.specs.declared.kinds.TokenKind.TheVariants as kind;
ghost use Rattle.ng_heads.specs.Answers.{Answers};
ghost use Rattle.ng_heads.specs.Brackets.{InBrackets, NoBrackets};
ghost use Rattle.ng_heads.specs.Blocks.{AnswersAfter, AnswersElseIf, IsBrace, AtIf, NoIf};

use crate::at::At;
use crate::conditions::{read_alone, read_test};
use crate::ends::closed_len;
use crate::fors::read_for;
use crate::halt::Halt;
use ng_lex::{Markup, Shape};
use std::alloc::Global;

// What stands in the brackets after the word of a head, with the one that closes them; `{` ends the text.
fn brackets(at: At) -> Option<At>
    ensures { MatchOption result (NoBrackets at.entry) (InBrackets at.entry) }
{
    let front = at.blank();
    let inside = front.word(b"(")?;
    let len = closed_len(inside.text)?;
    let (kept, _) = inside.split(len);
    Some(kept)
}

fn if_head(alloc: Global, at: At) -> Result<Markup, Halt>
    ensures { AnswersAfter (codes "@if") at.entry result }
{
    let Some(inside) = brackets(at) else {
        return Err(Halt::Syntax(at.place));
    };
    match read_test(alloc, inside) {
        Ok((test, name)) => Ok(Markup::If(test, name)),
        Err(stop) => stop.turned(Shape::If),
    }
}

fn else_if_head(alloc: Global, at: At) -> Result<Markup, Halt>
    ensures { AnswersElseIf at.entry result }
{
    let Some(inside) = brackets(at) else {
        return Err(Halt::Syntax(at.place));
    };
    match read_test(alloc, inside) {
        Ok((test, name)) => Ok(Markup::ElseIf(test, name)),
        Err(stop) => stop.turned(Shape::ElseIf),
    }
}

fn for_head(alloc: Global, at: At) -> Result<Markup, Halt>
    ensures { AnswersAfter (codes "@for") at.entry result }
{
    let Some(inside) = brackets(at) else {
        return Err(Halt::Syntax(at.place));
    };
    match read_for(alloc, inside) {
        Ok(head) => Ok(Markup::For(head)),
        Err(stop) => stop.turned(Shape::For),
    }
}

fn switch_head(alloc: Global, at: At) -> Result<Markup, Halt>
    ensures { AnswersAfter (codes "@switch") at.entry result }
{
    let Some(inside) = brackets(at) else {
        return Err(Halt::Syntax(at.place));
    };
    match read_alone(alloc, inside) {
        Ok(value) => Ok(Markup::Switch(value)),
        Err(stop) => stop.turned(Shape::Switch),
    }
}

fn case_head(alloc: Global, at: At) -> Result<Markup, Halt>
    ensures { AnswersAfter (codes "@case") at.entry result }
{
    let Some(inside) = brackets(at) else {
        return Err(Halt::Syntax(at.place));
    };
    match read_alone(alloc, inside) {
        Ok(value) => Ok(Markup::Case(value)),
        Err(stop) => stop.turned(Shape::Case),
    }
}

// Whether white space, if any, and `{` are all that is left.
fn is_brace(at: At) -> bool
    ensures { MatchBool result (IsBrace at.entry.text.now) (IsBrace at.entry.text.now → ⊥) }
{
    let end = at.blank();
    end.is(b"{")
}

fn empty_head(at: At) -> Result<Markup, Halt>
    ensures { AnswersAfter (codes "@empty") at.entry result }
{
    if is_brace(at) {
        Ok(Markup::Empty)
    } else {
        Err(Halt::Syntax(at.place))
    }
}

fn default_head(at: At) -> Result<Markup, Halt>
    ensures { AnswersAfter (codes "@default") at.entry result }
{
    if is_brace(at) {
        Ok(Markup::Default)
    } else {
        Err(Halt::Syntax(at.place))
    }
}

// What stands after white space and `if`.
fn after_if(at: At) -> Option<At>
    ensures { MatchOption result (NoIf at.entry.text.now) (AtIf at.entry) }
{
    let rest = at.gap()?;
    rest.word(b"if")
}

fn else_head(alloc: Global, at: At) -> Result<Markup, Halt>
    ensures { AnswersAfter (codes "@else") at.entry result }
{
    if let Some(rest) = after_if(at) {
        else_if_head(alloc, rest)
    } else if is_brace(at) {
        Ok(Markup::Else)
    } else {
        Err(Halt::Syntax(at.place))
    }
}

/// The head of a block at the front, up to the end of the text.
pub(crate) fn head(alloc: Global, at: At) -> Result<Markup, Halt>
    ensures { Answers kind.Head at.entry.place at.entry.text.now result }
{
    if let Some(rest) = at.word(b"@if") {
        if_head(alloc, rest)
    } else if let Some(rest) = at.word(b"@for") {
        for_head(alloc, rest)
    } else if let Some(rest) = at.word(b"@switch") {
        switch_head(alloc, rest)
    } else if let Some(rest) = at.word(b"@case") {
        case_head(alloc, rest)
    } else if let Some(rest) = at.word(b"@else") {
        else_head(alloc, rest)
    } else if let Some(rest) = at.word(b"@empty") {
        empty_head(rest)
    } else if let Some(rest) = at.word(b"@default") {
        default_head(rest)
    } else {
        Err(Halt::Syntax(at.place))
    }
}
