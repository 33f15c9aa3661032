//! Reads listeners.

ghost use Rattle.std.specs.Prelude.{◌≡◌, ℕ, ◌<◌, ◌≤◌, List, length, false, true, IfOk, IfErr};
ghost use Rattle.ng_ast.specs.declared.Place.{Place};
ghost use Rattle.ng_ast.specs.declared.Stmt.{Stmt};
ghost use Rattle.ng_exprs.specs.Reading.{IsNear, Refused, IsOrMemory};
ghost use Rattle.ng_exprs.specs.Listening.{ReadsLines, OverLines, NoLines, AnswersListener, AnswersLines};

use crate::halt::Halt;
use crate::lines::MOST;
use crate::tokens::Tokens;
use crate::{lines, refused, tokens_of};
use ng_ast::{Place, ReadError, Stmt};
use sqlite_items::Items;
use std::alloc::Global;

// The brackets that may be open.
const DEPTH: usize = 32;

#[tactic(auto, unfolding(crate::specs::Lines::most))]
fn read_tokens(alloc: Global, tokens: &mut Tokens) -> Result<Items<Stmt>, Halt>
    requires { length tokens.old < 1048577 }
    ensures { AnswersListener tokens.old result }
{
    match lines::listener(alloc, tokens, DEPTH, MOST) {
        Ok(found) => Ok(found),
        Err(halt) => Err(halt),
    }
}

fn read_text(alloc: Global, text: &str, base: Place) -> Result<Items<Stmt>, ReadError>
    requires size { length text.now ≤ 1048576 }
    requires near { IsNear base }
    ensures { AnswersLines base text.now result }
{
    let mut tokens = match tokens_of(alloc, false, text, base) {
        Ok(tokens) => tokens,
        Err(error) => return Err(error),
    };
    match read_tokens(alloc, &mut tokens) {
        Ok(found) => Ok(found),
        Err(halt) => Err(refused(alloc, halt)),
    }
}

/// Reads a listener: one statement or several without `if`, with `;` between, the last `;` optional. `base` is the place of the
/// text's first byte, from which places are counted. No comment is read. Takes time linear in the length of the text.
///
/// Ok comes exactly where the text is a listener and passes no limit. `Syntax` comes only where it is no listener, `Limit` only where
/// it passes one: a front of it is a listener that is begun and has more than 32 brackets open, or ends in an expression that is begun
/// and has more than 256 tokens.
/// Each argument of a call is an expression of its own. The place of a refusal is where the reader stopped; no clause fixes it.
pub fn read_listener(alloc: Global, text: &str, base: Place) -> Result<Items<Stmt>, ReadError>
    requires size { length text.now ≤ 1048576 }
    requires near { IsNear base }
    ensures reads { IfOk result (λ bs. ReadsLines true base text.now bs) }
    ensures within { IfOk result (λ bs. OverLines base text.now → ⊥) }
    ensures refused { IfErr result (Refused (NoLines false base text.now) (OverLines base text.now × NoLines true base text.now)) }
    ensures exact { (bs : List Stmt) → ReadsLines true base text.now bs → IsOrMemory bs result }
{
    read_text(alloc, text, base)
}

/// A text is one listener at most.
pub fn one_listener()
    ensures { (base : Place) (t : List ℕ) (a b : List Stmt) → ReadsLines false base t a → ReadsLines false base t b → a ≡ b }
{}
