//! Reads expressions: from a text to its tree, exactly by the grammar, within the limits on brackets and tokens.
#![tactic(auto)]

mod blocks;
mod bodies;
mod ends;
mod halt;
mod lines;
mod listen;
mod parse;
mod tokens;

ghost use Rattle.std.specs.Prelude.{◌≡◌, ℕ, ◌≤◌, List, length, Bool, IfOk, IfErr};
ghost use Rattle.ng_ast.specs.declared.Expr.{Expr};
ghost use Rattle.ng_ast.specs.declared.Place.{Place};
ghost use Rattle.ng_tokens.specs.Scan as lexer;
ghost use Rattle.ng_exprs.specs.Grammar.{Tokens, ReadsPiped};
ghost use Rattle.ng_exprs.specs.Reading.{IsNear, ReadsExpr, OverText, IsUnread, Refused, IsOrMemory, Answers, Tells, Scanned, AnswersText};

pub use bodies::{one_body, read_body};
pub use ends::end_of;
use halt::Halt;
pub use listen::{one_listener, read_listener};
use ng_ast::{Expr, Place, ReadError, Refusal, Rule};
use ng_tokens::{ScanError, scan, steps};
use std::alloc::Global;
use tokens::Tokens;

// The tokens that an expression may have.
const MAX_TOKENS: usize = 256;

// One more than the brackets that may be open.
const DEPTH: usize = 33;

fn refused(alloc: Global, halt: Halt) -> ReadError
    ensures { Tells halt result }
{
    match halt {
        Halt::Syntax(place) => match Refusal::nameless(alloc, Rule::Syntax, place) {
            Ok(refusal) => ReadError::Syntax(refusal),
            Err(_) => ReadError::Memory,
        },
        Halt::Limit(place) => match Refusal::nameless(alloc, Rule::Limit, place) {
            Ok(refusal) => ReadError::Limit(refusal),
            Err(_) => ReadError::Memory,
        },
        Halt::Memory => ReadError::Memory,
    }
}

fn tokens_of(alloc: Global, comments: bool, text: &str, base: Place) -> Result<Tokens, ReadError>
    requires size { length text.now ≤ 1048576 }
    requires near { IsNear base }
    ensures { Scanned (lexer.scan comments 0 base text.now) result }
{
    match scan(alloc, comments, text, base) {
        Ok(tokens) => {
            let end = steps(base, text.as_bytes());
            Ok(Tokens::new(tokens, end))
        }
        Err(ScanError::Syntax(place)) => Err(refused(alloc, Halt::Syntax(place))),
        Err(ScanError::Memory) => Err(ReadError::Memory),
    }
}

// The expression that the tokens are.
fn read_tokens(alloc: Global, tokens: &mut Tokens) -> Result<Expr, Halt>
    ensures { Answers tokens.old result }
{
    let count = tokens.len();
    let place = tokens.at();
    let found = match parse::whole(alloc, tokens, DEPTH) {
        Ok(found) => found,
        Err(halt) => return Err(halt),
    };
    // what is given up is dropped by a call, which is proved once
    if tokens.len() > 0 {
        drop(found);
        return Err(Halt::Syntax(tokens.at()));
    }
    if count > MAX_TOKENS {
        drop(found);
        return Err(Halt::Limit(place));
    }
    Ok(found)
}

fn read_text(alloc: Global, comments: bool, text: &str, base: Place) -> Result<Expr, ReadError>
    requires size { length text.now ≤ 1048576 }
    requires near { IsNear base }
    ensures { AnswersText comments base text.now result }
{
    let mut tokens = match tokens_of(alloc, comments, text, base) {
        Ok(tokens) => tokens,
        Err(error) => return Err(error),
    };
    match read_tokens(alloc, &mut tokens) {
        Ok(found) => Ok(found),
        Err(halt) => Err(refused(alloc, halt)),
    }
}

/// Reads an expression. `base` is the place of the text's first byte, from which places are counted; comments are white space
/// where `comments` is true. Takes time linear in the length of the text.
///
/// `Syntax` comes only where the text is no expression, `Limit` only where a front of it is an expression that is begun and has
/// more than 32 brackets open or more than 256 tokens. The place of a refusal is where the reader stopped; no clause fixes it.
/// The grammar is that of Angular's template expressions, as docs/LANGUAGE.md has it.
pub fn read_expr(alloc: Global, text: &str, base: Place, comments: bool) -> Result<Expr, ReadError>
    requires size { length text.now ≤ 1048576 }
    requires near { IsNear base }
    ensures reads { IfOk result (λ a. ReadsExpr comments base text.now a × (OverText comments base text.now → ⊥)) }
    ensures refused { IfErr result (Refused (IsUnread comments base text.now) (OverText comments base text.now)) }
    ensures exact { (a : Expr) → ReadsExpr comments base text.now a → (OverText comments base text.now → ⊥) → IsOrMemory a result }
{
    read_text(alloc, comments, text, base)
}

/// Tokens are one expression at most.
pub fn one_tree()
    ensures { (ts : Tokens) (a b : Expr) → ReadsPiped ts a → ReadsPiped ts b → a ≡ b }
{}

/// A text is one expression at most.
pub fn one_reading()
    ensures { (comments : Bool) (base : Place) (t : List ℕ) (a b : Expr) → ReadsExpr comments base t a → ReadsExpr comments base t b → a ≡ b }
{}
