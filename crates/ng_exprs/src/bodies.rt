//! Reads bodies.

ghost use Rattle.std.specs.Prelude.{◌≡◌, ℕ, ◌<◌, ◌≤◌, List, length, false, true, IfOk, IfErr};
ghost use Rattle.ng_ast.specs.declared.Place.{Place};
ghost use Rattle.ng_ast.specs.declared.Stmt.{Stmt};
ghost use Rattle.ng_exprs.specs.Reading.{IsNear, Refused, IsOrMemory};
ghost use Rattle.ng_exprs.specs.Bodies.{ReadsBody, OverBody, NoBody, AnswersStatements, AnswersBody};

use crate::halt::Halt;
use crate::tokens::Tokens;
use crate::{DEPTH, blocks, refused, tokens_of};
use ng_ast::{Place, ReadError, Stmt};
use sqlite_items::Items;
use std::alloc::Global;

#[tactic(auto, unfolding(crate::specs::Lines::most))]
fn read_tokens(alloc: Global, tokens: &mut Tokens) -> Result<Items<Stmt>, Halt>
    requires { length tokens.old < 1048577 }
    ensures { AnswersStatements tokens.old result }
{
    let found = match blocks::body(alloc, tokens, DEPTH) {
        Ok(found) => found,
        Err(halt) => return Err(halt),
    };
    if tokens.len() > 0 {
        return Err(Halt::Syntax(tokens.at()));
    }
    Ok(found)
}

fn read_text(alloc: Global, text: &str, base: Place) -> Result<Items<Stmt>, ReadError>
    requires size { length text.now ≤ 1048576 }
    requires near { IsNear base }
    ensures { AnswersBody base text.now result }
{
    let mut tokens = match tokens_of(alloc, true, text, base) {
        Ok(tokens) => tokens,
        Err(error) => return Err(error),
    };
    match read_tokens(alloc, &mut tokens) {
        Ok(found) => Ok(found),
        Err(halt) => Err(refused(alloc, halt)),
    }
}

/// Reads a body: any number of statements, each with its `;`, and `if (e) { .. }` with or without `else { .. }`; comments count as
/// white space. `base` is the place of the text's first byte, from which places are counted. No word is reserved: `if(x);`, `if = 1;`
/// and `else();` are statements about names, and `else` belongs to an `if` only before `{`. Takes time linear in the length of the text.
///
/// Ok comes exactly where the text is a body and passes no limit. `Syntax` comes only where it is no body, `Limit` only where it passes
/// one: a front of it is a body that is begun and has more than 32 brackets open (the braces of `if` among them), or ends in an
/// expression that is begun and has more than 256 tokens. Each argument of a call is an expression of its own. The place of a refusal is
/// where the reader stopped; no clause fixes it. The statements are this project's own, as docs/LANGUAGE.md has them.
pub fn read_body(alloc: Global, text: &str, base: Place) -> Result<Items<Stmt>, ReadError>
    requires size { length text.now ≤ 1048576 }
    requires near { IsNear base }
    ensures reads { IfOk result (λ bs. ReadsBody true base text.now bs) }
    ensures within { IfOk result (λ bs. OverBody base text.now → ⊥) }
    ensures refused { IfErr result (Refused (NoBody false base text.now) (OverBody base text.now × NoBody true base text.now)) }
    ensures exact { (bs : List Stmt) → ReadsBody true base text.now bs → IsOrMemory bs result }
{
    read_text(alloc, text, base)
}

/// A text is one body at most.
pub fn one_body()
    ensures { (base : Place) (t : List ℕ) (a b : List Stmt) → ReadsBody false base t a → ReadsBody false base t b → a ≡ b }
{}
